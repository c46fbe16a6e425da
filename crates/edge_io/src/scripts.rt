//! A script: a list of events, each with its piece of bytes.
//! Allocates.
ghost use Rattle.std.specs.Prelude.{◌≡◌, ◌<◌, ◌^◌, ◌++◌, ◌∷◌, [], List, length, IfOk, OnOk, IsSome};
ghost use Rattle.std.specs.Option.{option_copied};
ghost use Rattle.edge_io.specs.Events.{piece_len};
ghost use Rattle.edge_io.specs.Scripts.{event_at, piece_at};

use crate::events::{Event, What};
use arch_base::{Bytes, NoMemory, Sequence};
use std::alloc::{AllocError, Global};
use std::marker::Model;
use thiserror::Error;

/// The reason why bytes are not a script.
#[derive(Debug, Drop, PartialEq, Eq, Error)]
pub enum ScriptRefusal {
    /// The event with this number, from 1, is the first that is malformed or incomplete.
    #[error("event {event} is bad")]
    Bad { event: u64 },
    /// An allocation failed.
    #[error("out of memory")]
    NoMemory,
}

impl From<NoMemory> for ScriptRefusal {
    ghost use Rattle.std.specs.Prelude.{◌≡◌};
    ghost use Rattle.edge_io.specs.declared.scripts.ScriptRefusal.TheVariants.{NoMemory};

    ghost from_gives = { λ _ e. e ≡ NoMemory };

    fn from(_refused: NoMemory) -> ScriptRefusal {
        ScriptRefusal::NoMemory
    }
}

/// An event, and the offset of its piece among all pieces.
#[derive(Clone, Copy, Debug, Drop)]
pub struct Placed {
    pub event: Event,
    pub start: usize,
}

/// The events of a script, each with its piece. Only `script` makes one.
#[derive(Debug, Drop)]
pub struct Script {
    pieces: Bytes,
    placed: Sequence<Placed>,
}

// A contract sees the list of events, each with its piece.
impl Model for Script {
    ghost use Rattle.std.specs.Prelude.{List};
    ghost use Rattle.edge_io.specs.Scripts.{Arrival};
    ghost use Rattle.edge_io.specs.Spans.{arrivals_of, AllWithin};

    ghost Value = { List Arrival };

    ghost view = { λ s. arrivals_of s.pieces s.placed };

    ghost invariant = { λ s. AllWithin s.pieces s.placed };
}

impl Script {
    /// Returns an empty script with room for `room` bytes of pieces.
    pub(crate) fn new(alloc: Global, room: usize) -> Result<Script, NoMemory>
        ensures { IfOk result (λ made. made ≡ []) }
    {
        let pieces = Vec::with_capacity(alloc, room)?;
        Ok(Script {
            pieces: Bytes::from_vec(pieces),
            placed: Sequence::new(alloc),
        })
    }

    /// Appends an event and its piece.
    ///
    /// After `NoMemory` the contract says nothing of the script.
    pub(crate) fn push(&mut self, event: Event, piece: &[u8]) -> Result<(), NoMemory>
        requires { length piece.now ≡ piece_len event.what }
        ensures { OnOk result (self.new ≡ self.old ++ (event, piece.now) ∷ []) }
    {
        let start = self.pieces.as_slice().len();
        self.pieces.push_slice(piece)?;
        self.placed.push(Placed { event, start })
    }

    /// Returns the count of events.
    pub(crate) fn count(&self) -> u64
        ensures value { result ≡ length self.now }
        ensures small { result < 2 ^ 63 }
    {
        self.placed.as_slice().len() as u64
    }

    /// Returns the event at an index, from 0, or `None` if the script has no such event.
    ///
    /// Allocates nothing.
    pub fn event(&self, i: u64) -> Option<&Event>
        ensures value { option_copied result ≡ event_at self.now i }
        ensures small { IsSome result → i < 2 ^ 63 }
    {
        let placed = self.placed.as_slice().get(i as usize)?;
        Some(&placed.event)
    }

    /// Returns the piece of the event at an index, from 0.
    ///
    /// The piece is empty if the event has none, or if there is no such event. Allocates nothing.
    pub fn piece(&self, i: u64) -> &[u8]
        ensures { result.now ≡ piece_at self.now i }
    {
        match self.placed.as_slice().get(i as usize) {
            Some(placed) => {
                let after = &self.pieces.as_slice()[placed.start..];
                &after[..piece_len(placed.event.what)]
            }
            None => &[],
        }
    }
}

/// Returns the length in bytes of the piece that comes with an event.
pub(crate) fn piece_len(what: What) -> usize
    ensures { result ≡ piece_len what }
{
    match what {
        What::Bytes { len, .. } => len,
        _ => 0,
    }
}
