//! The list of UIDs that a client was told.
//! Allocates.
ghost use Rattle.std.specs.Prelude.{◌≡◌, ◌≢◌, ◌+◌, ◌<◌, ◌≤◌, ◌++◌, length, IfOk, OnOk, OnErr, MatchBool, true};
ghost use Rattle.std.specs.List.{All, filter};
ghost use Rattle.arch_model.specs.Archives.{Archive};
ghost use Rattle.known_uids.specs.Told.{Known, known, live_in, is_live, RisesBelow, after_last, count_if, changes_of, Suits, uid_at, sequence_from};
ghost use Rattle.known_uids.specs.Gone.{gone_by, IsSequence, struck, is_there};

use crate::changes::Changes;
use crate::gone::{are_live, push_gone, take_out};
use crate::live::{live_numbers, none_live};
use arch_base::{MessageNumbers, NoMemory};
use arch_model::Shelf;
use std::alloc::Global;
use std::marker::Model;

/// The UIDs of a mailbox that a client was told, rising, in 4 bytes each. Their places are the
/// sequence numbers, from 1 on (RFC 3501, section 2.3.1.2).
///
/// A mailbox has the live numbers between two bounds.
#[derive(Drop)]
pub struct KnownUids {
    first: u32,
    last: u32,
    uids: Vec<u32>,
}

impl Model for KnownUids {
    ghost Value = { Known };

    ghost view = { λ k. known k.first k.last k.uids.items };

    ghost invariant = { λ k. (1 ≤ k.first) × (k.last < 4294967295)
        × RisesBelow k.first k.uids.items (k.last + 1) };
}

impl KnownUids {
    /// Returns the live numbers of a mailbox from `first` to `last`, as SELECT tells them. Asks the
    /// shelf once for each, and once more.
    ///
    /// The only error is `NoMemory`.
    pub fn select<S: Shelf>(
        alloc: Global,
        first: u32,
        last: u32,
        shelf: &S,
    ) -> Result<KnownUids, NoMemory>
        requires ready { S.ready shelf.now ≡ true }
        requires low { 1 ≤ first }
        requires order { first ≤ last + 1 }
        requires high { last < 4294967295 }
        ensures { (a : Archive) → S.holds shelf.now a
            → IfOk result (λ told. told ≡ known first last (live_in a first last)) }
    {
        let uids = live_numbers(alloc, first, last, shelf)?;
        Ok(KnownUids { first, last, uids })
    }

    /// Returns whether a client that knows these is told nothing. Asks the shelf twice, however many
    /// they are.
    pub fn is_current<S: Shelf>(&self, shelf: &S) -> bool
        requires { S.ready shelf.now ≡ true }
        ensures { (a : Archive) → S.holds shelf.now a → Suits a self.now → MatchBool result
            (self.now.uids ≡ live_in a self.now.first self.now.last)
            (self.now.uids ≢ live_in a self.now.first self.now.last) }
    {
        are_live(self.uids.as_slice(), shelf) && none_live(self.next(), self.last, shelf)
    }

    /// Returns what a client that knows these is told of changes, and knows the live numbers then.
    ///
    /// The shelf is asked twice where nothing changed, however many UIDs there are. Where UIDs are gone
    /// or new, it is asked once for each new one, and about twice the logarithm of their number for each
    /// that is gone. `NoMemory` if an allocation fails, and what is known is unchanged.
    pub fn tell<S: Shelf>(&mut self, alloc: Global, shelf: &S) -> Result<Changes, NoMemory>
        requires { S.ready shelf.now ≡ true }
        ensures told { (a : Archive) → S.holds shelf.now a → Suits a self.old → IfOk result
            (λ told. told ≡ changes_of self.old.uids (live_in a self.old.first self.old.last)) }
        ensures now { (a : Archive) → S.holds shelf.now a → Suits a self.old → OnOk result
            (self.new ≡ known self.old.first self.old.last (live_in a self.old.first self.old.last)) }
        ensures err { OnErr result (self.new ≡ self.old) }
    {
        let gone = self.gone(alloc, shelf)?;
        let new = live_numbers(alloc, self.next(), self.last, shelf)?;
        self.put(gone.as_slice(), new.as_slice())?;
        let exists = self.exists(new.as_slice());
        Ok(Changes { gone, exists })
    }

    /// Returns the sequence numbers of the UIDs that are gone, the greatest first.
    fn gone<S: Shelf>(&self, alloc: Global, shelf: &S) -> Result<MessageNumbers, NoMemory>
        requires { S.ready shelf.now ≡ true }
        ensures gone { (a : Archive) → S.holds shelf.now a → Suits a self.now
            → IfOk result (λ gone. gone ≡ gone_by (is_live a) 1 self.now.uids) }
        ensures places { IfOk result (λ gone. All (IsSequence (length self.now.uids)) gone) }
    {
        let mut gone = MessageNumbers::new(alloc);
        push_gone(self.uids.as_slice(), 0, shelf, &mut gone)?;
        Ok(gone)
    }

    /// Puts new UIDs behind all others, and takes out those with these sequence numbers.
    ///
    /// `NoMemory` if an allocation fails, and what is known is unchanged.
    fn put(&mut self, gone: &[u32], new: &[u32]) -> Result<(), NoMemory>
        requires gone { All (IsSequence (length self.old.uids)) gone.now }
        requires new { RisesBelow (after_last self.old.first self.old.uids) new.now (self.old.last + 1) }
        ensures ok { OnOk result (self.new ≡ known self.old.first self.old.last
            (filter is_there (struck (self.old.uids ++ new.now) gone.now))) }
        ensures err { OnErr result (self.new ≡ self.old) }
    {
        self.uids.extend_from_slice(new)?;
        take_out(&mut self.uids, gone);
        Ok(())
    }

    /// Returns how many UIDs are known, if there are new ones.
    fn exists(&self, new: &[u32]) -> Option<u32>
        ensures { result ≡ count_if new.now (length self.now.uids) }
    {
        match new {
            [] => None,
            [_, ..] => Some(self.count()),
        }
    }

    /// Returns the number after the greatest known UID, or the first of the mailbox.
    fn next(&self) -> u32
        ensures { result ≡ after_last self.now.first self.now.uids }
    {
        match self.uids.as_slice() {
            [] => self.first,
            [.., last] => *last + 1,
        }
    }

    /// Returns how many UIDs are known. This is the greatest sequence number, to which `*` refers.
    pub fn count(&self) -> u32
        ensures all { result ≡ length self.now.uids }
        ensures most { self.now.first + result ≤ self.now.last + 1 }
    {
        self.uids.len() as u32
    }

    /// Returns the UID with a sequence number, from 1 on.
    pub fn uid(&self, sequence: u32) -> Option<u32>
        ensures { result ≡ uid_at self.now.uids sequence }
    {
        let index = sequence.checked_sub(1)?;
        self.uids.get(index as usize).copied()
    }

    /// Returns the sequence number of a UID, if it is known.
    pub fn sequence(&self, uid: u32) -> Option<u32>
        ensures { result ≡ sequence_from 1 self.now.uids uid }
    {
        match self.uids.binary_search(&uid) {
            Ok(index) => Some(index as u32 + 1),
            Err(_) => None,
        }
    }

    /// Returns the known UIDs, rising.
    pub fn uids(&self) -> &[u32]
        ensures { result.now ≡ self.now.uids }
    {
        self.uids.as_slice()
    }
}
