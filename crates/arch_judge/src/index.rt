//! An index of an archive's live messages by their own ids, and of its entries by their blob ids.
//! Allocates.
ghost use Rattle.std.specs.Prelude.{◌≡◌, ◌≢◌, ◌<◌, ◌^◌, [], OnOk, OnErr, Some, None, length};
ghost use Rattle.mail_reader.specs.Ids.{own_id as own_id_in};
ghost use Rattle.arch_judge.specs.Indexes.{IndexPuts, IndexLoses, LosesIfOf, TakesBack, HasSame, met_owner, met_in, met_own, owner_in, number_in};

use arch_base::{NoMemory, ObjectId};
use arch_model::Meeting;
use mail_reader::own_id;
use std::alloc::Global;
use std::collections::BTreeMap;

/// The message that has an id.
#[derive(Clone, Copy, Debug, Drop)]
pub struct Owner {
    /// Its number.
    pub number: u32,
    /// Its content id.
    pub content: [u8; 32],
}

impl Owner {
    /// Returns how a candidate for this message's id meets it: with the same content or not.
    pub(crate) fn meet(&self, content: &[u8; 32]) -> Meeting
        ensures { result ≡ met_owner self.now content.now }
    {
        if self.content == *content {
            Meeting::Same(self.number)
        } else {
            Meeting::Other
        }
    }
}

/// An index of live messages by their own ids, and of the number of the first entry with each blob
/// id, live or not.
#[derive(Drop)]
pub struct Index {
    pub(crate) owners: BTreeMap<Vec<u8>, Owner>,
    pub(crate) blobs: BTreeMap<ObjectId, u32>,
}

impl Index {
    /// Returns an empty index.
    pub fn new(alloc: Global) -> Index
        ensures owners { result.owners.entries ≡ [] }
        ensures blobs { result.blobs.entries ≡ [] }
    {
        Index {
            owners: BTreeMap::new(alloc),
            blobs: BTreeMap::new(alloc),
        }
    }

    /// Returns the live message that has an id.
    pub fn owner(&self, id: &[u8]) -> Option<Owner>
        ensures { result ≡ owner_in self.now.owners id.now }
    {
        self.owners.get(id).copied()
    }

    /// Returns how many live messages it has.
    pub(crate) fn len(&self) -> usize
        ensures len { result ≡ length self.now.owners.entries }
        ensures small { result < 2 ^ 63 }
    {
        self.owners.len()
    }

    /// Returns how a candidate id meets the message that has it, if there is one.
    pub(crate) fn meet(&self, id: &[u8], content: &[u8; 32]) -> Meeting
        ensures { result ≡ met_in (owner_in self.now.owners id.now) content.now }
    {
        match self.owner(id) {
            None => Meeting::Free,
            Some(owner) => owner.meet(content),
        }
    }

    /// Returns how the own id of a text meets the message that has it, as `meet` does.
    ///
    /// A text without one goes by its made ids, as one whose own id a message with other content has.
    pub(crate) fn meet_own(&self, text: &[u8], content: &[u8; 32]) -> Meeting
        ensures { result ≡ met_own self.now.owners (own_id_in text.now) content.now }
    {
        match own_id(text) {
            None => Meeting::Other,
            Some(id) => self.meet(id, content),
        }
    }

    /// Returns the number of the first entry with a blob id.
    pub fn number(&self, blob: &ObjectId) -> Option<u32>
        ensures { result ≡ number_in self.now.blobs blob.now }
    {
        self.blobs.get(blob).copied()
    }

    /// Inserts a message. An older entry with its blob id stays the one of that blob id.
    ///
    /// `NoMemory` leaves the index unchanged.
    pub fn insert(&mut self, id: Vec<u8>, blob: ObjectId, owner: Owner) -> Result<(), NoMemory>
        ensures ok { OnOk result (IndexPuts self.old self.new id.items blob owner) }
        ensures err { OnErr result (HasSame self.old self.new) }
    {
        match self.number(&blob) {
            Some(_older) => self.insert_id(id, blob, owner),
            None => self.insert_both(id, blob, owner),
        }
    }

    /// Inserts a message whose blob id an older entry has.
    fn insert_id(&mut self, id: Vec<u8>, blob: ObjectId, owner: Owner) -> Result<(), NoMemory>
        requires seen { number_in self.old.blobs blob ≢ None }
        ensures ok { OnOk result (IndexPuts self.old self.new id.items blob owner) }
        ensures err { OnErr result (HasSame self.old self.new) }
    {
        self.owners.insert(id, owner)?;
        Ok(())
    }

    /// Inserts a message with a new blob id.
    fn insert_both(&mut self, id: Vec<u8>, blob: ObjectId, owner: Owner) -> Result<(), NoMemory>
        requires unseen { number_in self.old.blobs blob ≡ None }
        ensures ok { OnOk result (IndexPuts self.old self.new id.items blob owner) }
        ensures err { OnErr result (HasSame self.old self.new) }
    {
        self.blobs.insert(blob, owner.number)?;
        if let Err(refused) = self.owners.insert(id, owner) {
            let _ = self.blobs.remove(&blob);
            return Err(refused.into());
        }
        Ok(())
    }

    /// Takes a message back that was inserted last, with a new id and a new number. This restores
    /// the index.
    pub fn take_back(&mut self, id: &[u8], blob: &ObjectId, number: u32)
        ensures back { TakesBack self.old self.new id.now blob.now number }
    {
        self.remove(id);
        self.remove_blob(blob, number);
    }

    /// Removes a blob id if it is that of a number.
    fn remove_blob(&mut self, blob: &ObjectId, number: u32)
        ensures owners { self.new.owners ≡ self.old.owners }
        ensures blobs { LosesIfOf self.old self.new blob.now number }
    {
        if let Some(found) = self.number(blob) {
            if found == number {
                let _ = self.blobs.remove(blob);
            }
        }
    }

    /// Removes the message with an id. Its blob id stays.
    pub fn remove(&mut self, id: &[u8])
        ensures lost { IndexLoses self.old self.new id.now }
    {
        let _ = self.owners.remove(id);
    }
}
