//! The host trait.
//! Pure.
ghost use Rattle.std.specs.Prelude.{◌≡◌, ◌≤◌, ◌++◌, ◌∷◌, [], ℕ, List, Option, length, IfOk, OnOk, OnErr};
ghost use Rattle.arch_base.specs.Counts.{HasCause};
ghost use Rattle.edge_io.specs.Taken.{TookBytes};
ghost use Rattle.edge_io.specs.Frames.{Outputs, outputs};
ghost use Rattle.edge_io.specs.Hosts.{ToldEvents, GaveEvent, SameEvents, OthersKept, one_more, closed_with};

use crate::events::Event;
use thiserror::Error;

/// A failed call of a host. One of the host's counts of faults rose.
#[derive(Clone, Copy, Debug, PartialEq, Eq, Error)]
#[error("the host failed")]
pub struct HostFault;

/// The outside of a server: events come in, and each connection takes bytes.
pub trait Host {
    /// The events that are left, each with its piece, if the host is told.
    ghost left: { Self → ToldEvents };

    /// The events that were given, each with its piece, if the host is told.
    ghost given: { Self → ToldEvents };

    /// The bytes that a connection has taken, if the host is told.
    ghost taken: { Self → ℕ → Option (List ℕ) };

    /// How often a connection was closed, up to 2^64 - 1, if it is told. It is told of connections
    /// below 65,536 only.
    ghost closings: { Self → ℕ → Option ℕ };

    /// What all connections had taken, how often each was closed, and the count of lost calls, at
    /// each call of `next` that didn't fail. A host that keeps no such record meets this with any
    /// outputs.
    ghost recorded: { Self → List Outputs → Type 0 };

    /// The count of calls of `next` that failed.
    ghost faults: { Self → ℕ };

    /// The count of calls of `send` that failed.
    ghost lost: { Self → ℕ };

    /// What a connection had taken when it was last closed, if it is told.
    ghost closed_at: { Self → ℕ → Option (List ℕ) };

    /// Returns the next event, with its piece at the front of a buffer, or `None` if none is left.
    ///
    /// The rest of `into` may have any content. `HostFault` leaves the events unchanged, and the
    /// count of faults rose.
    fn next(&mut self, into: &mut [u8]) -> Result<Option<Event>, HostFault>
        requires { 1048576 ≤ length into.old }
        ensures gave { IfOk result (λ event. GaveEvent event into.new (left self.old) (left self.new)
            (given self.old) (given self.new)) }
        ensures noted { (past : List Outputs) → recorded self.old past
            → OnOk result (recorded self.new
            (past ++ outputs (taken self.old) (closings self.old) (lost self.old) ∷ [])) }
        ensures failed_left { OnErr result (left self.new ≡ left self.old) }
        ensures failed_given { OnErr result (given self.new ≡ given self.old) }
        ensures failed_noted { (past : List Outputs) → recorded self.old past
            → OnErr result (recorded self.new past) }
        ensures taken { (conn : ℕ) → taken self.new conn ≡ taken self.old conn }
        ensures closings { (conn : ℕ) → closings self.new conn ≡ closings self.old conn }
        ensures cause { HasCause (faults self.old) (faults self.new) result }
        ensures lost { lost self.new ≡ lost self.old }
        ensures closed_at { (conn : ℕ) → closed_at self.new conn ≡ closed_at self.old conn };

    /// Sends bytes to a connection.
    ///
    /// `HostFault` if the connection took a prefix of the bytes, which may be empty or whole. The
    /// count of lost calls rose.
    fn send(&mut self, conn: u32, bytes: &[u8]) -> Result<(), HostFault>
        ensures took { TookBytes result bytes.now (taken self.old conn) (taken self.new conn) }
        ensures others { OthersKept conn (taken self.old) (taken self.new) }
        ensures closings { (other : ℕ) → closings self.new other ≡ closings self.old other }
        ensures events { SameEvents left given recorded faults self.old self.new }
        ensures cause { HasCause (lost self.old) (lost self.new) result }
        ensures closed_at { (other : ℕ) → closed_at self.new other ≡ closed_at self.old other };

    /// Closes a connection. Allocates nothing.
    fn close(&mut self, conn: u32)
        ensures closed { closings self.new conn ≡ one_more (closings self.old conn) }
        ensures others { OthersKept conn (closings self.old) (closings self.new) }
        ensures taken { (other : ℕ) → taken self.new other ≡ taken self.old other }
        ensures events { SameEvents left given recorded faults self.old self.new }
        ensures lost { lost self.new ≡ lost self.old }
        ensures closed_at { closed_at self.new conn
            ≡ closed_with (taken self.old conn) (closed_at self.old conn) }
        ensures closed_at_others { OthersKept conn (closed_at self.old) (closed_at self.new) };
}
