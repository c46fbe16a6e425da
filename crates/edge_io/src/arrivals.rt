//! The events of a script, given one by one.
//! Pure.
ghost use Rattle.std.specs.Prelude.{◌≡◌, ◌≤◌, Some, All, length};
ghost use Rattle.edge_io.specs.Hosts.{GaveEvent};
ghost use Rattle.edge_io.specs.Passing.{unbegun, given_of, left_of};
ghost use Rattle.edge_io.specs.Scripts.{IsArrival, piece_at};

use crate::events::Event;
use crate::scripts::Script;
use std::marker::Model;

/// The events of a script, of which some were given.
#[derive(Drop)]
pub(crate) struct Arrivals {
    script: Script,
    at: u64,
}

// A contract sees all events, and how many of them were given.
impl Model for Arrivals {
    ghost use Rattle.std.specs.Prelude.{◌≤◌, length, All};
    ghost use Rattle.edge_io.specs.Passing.{PassedEvents};
    ghost use Rattle.edge_io.specs.Scripts.{IsArrival};

    ghost Value = { PassedEvents };

    ghost view = { λ s. record { all = s.script; at = s.at } };

    ghost invariant = { λ s. (s.at ≤ length s.script) × All IsArrival s.script };
}

impl Arrivals {
    /// Returns the events of a script, of which none was given.
    pub(crate) fn new(script: Script) -> Arrivals
        requires { All IsArrival script }
        ensures { result ≡ unbegun script }
    {
        Arrivals { script, at: 0 }
    }

    /// Gives the next event, with its piece at the front of a buffer, or returns `None` if none is
    /// left.
    pub(crate) fn next(&mut self, into: &mut [u8]) -> Option<Event>
        requires { 1048576 ≤ length into.old }
        ensures { GaveEvent result into.new (Some (left_of self.old)) (Some (left_of self.new))
            (Some (given_of self.old)) (Some (given_of self.new)) }
    {
        let event = *self.script.event(self.at)?;
        let piece = self.piece();
        into[..piece.len()].copy_from_slice(piece);
        self.at += 1;
        Some(event)
    }

    /// Returns the piece of the next event. It is empty if the event has none, or if none is left.
    fn piece(&self) -> &[u8]
        ensures value { result.now ≡ piece_at self.now.all self.now.at }
        ensures short { length result.now ≤ 1048576 }
    {
        self.script.piece(self.at)
    }
}
