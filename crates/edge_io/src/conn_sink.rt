//! A sink over one connection of a host.
//! Pure.
ghost use Rattle.std.specs.Prelude.{◌≡◌, refl};
ghost use Rattle.std.proofs.Common.{◌∙◌};
ghost use Rattle.edge_io.specs.Hosts.{SameElsewhere};
ghost use Rattle.edge_io.specs.Hosting.{SameElsewhere-same, SameElsewhere-joined};

use crate::{Host, Sink, SinkFault};

/// The sink of what one connection of a host takes. Its faults are the host's lost calls.
#[derive(Drop)]
pub struct ConnSink<'a, H: Host> {
    pub host: &'a mut H,
    pub conn: u32,
}

// Alike are sinks over the same reference and connection, whose hosts agree in all but what the
// connection has taken and the count of lost calls.
impl<'a, H: Host> Sink for ConnSink<'a, H> {
    ghost taken = { λ s. H.taken s.host.now s.conn };

    ghost faults = { λ s. H.lost s.host.now };

    ghost alike = { λ s t. (t.host.ghost_name ≡ s.host.ghost_name) × (t.conn ≡ s.conn)
        × SameElsewhere H.left H.given H.recorded H.faults H.taken H.closings H.closed_at s.conn
        s.host.now t.host.now };

    ghost alike_same = { λ s. (
      refl,
      refl,
      SameElsewhere-same H.left H.given H.recorded H.faults
          H.taken H.closings H.closed_at s.conn s.host.now,
    ) };

    fn write(&mut self, bytes: &[u8]) -> Result<(), SinkFault> {
        match self.host.send(self.conn, bytes) {
            Ok(()) => Ok(()),
            Err(_) => Err(SinkFault),
        }
    }

    ghost alike_joined = { λ s t u p q. (
      q.0 ∙ p.0,
      q.1 ∙ p.1,
      SameElsewhere-joined H.left H.given
          H.recorded H.faults H.taken H.closings H.closed_at s.conn t.conn s.host.now t.host.now
          u.host.now p.1 p.2 q.2,
    ) };
}
