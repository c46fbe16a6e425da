//! A client that follows what it is told of an archive in memory.
ghost use Rattle.std.specs.Prelude.{◌<◌, ◌≤◌, ◌+◌};

use arch_model::{Answer, Command, Keep};
use fixtures::{MOMENT, list_config};
use known_uids::{Changes, KnownUids};
use mem_archive::MemArchive;
use std::alloc::Global;

/// An archive, and a client that was told of one of its mailboxes.
#[derive(Drop)]
pub struct Client {
    alloc: Global,
    archive: MemArchive,
    told: KnownUids,
}

impl Client {
    /// Selects a mailbox of an archive of five messages.
    pub fn to_five(alloc: Global, first: u32, last: u32) -> Option<Self>
        requires low { 1 ≤ first }
        requires order { first ≤ last + 1 }
        requires high { last < 4294967295 }
    {
        let mut archive = MemArchive::new(alloc, list_config(50_000)?);
        for message in [
            &b"Message-ID: <a@x>\n\n1\n"[..],
            b"Message-ID: <b@x>\n\n2\n",
            b"Message-ID: <c@x>\n\n3\n",
            b"Message-ID: <d@x>\n\n4\n",
            b"Message-ID: <e@x>\n\n5\n",
        ] {
            if !is_ok(Keep::command(&mut archive, &Command::Deliver(message), MOMENT)) {
                return None;
            }
        }
        let told = KnownUids::select(alloc, first, last, &archive).ok()?;
        Some(Client {
            alloc,
            archive,
            told,
        })
    }

    /// Delivers a message, and returns whether that was carried out.
    pub fn deliver(&mut self, message: &[u8]) -> bool {
        is_ok(Keep::command(&mut self.archive, &Command::Deliver(message), MOMENT))
    }

    /// Removes a message, and returns whether that was carried out.
    pub fn remove(&mut self, number: u32) -> bool {
        is_ok(Keep::command(&mut self.archive, &Command::Remove(number), MOMENT))
    }

    /// Purges a message, and returns whether that was carried out.
    pub fn purge(&mut self, number: u32) -> bool {
        is_ok(Keep::command(&mut self.archive, &Command::Purge(number), MOMENT))
    }

    /// Returns whether the client is told just these changes, and knows these UIDs then.
    pub fn is_told(&mut self, gone: &[u32], exists: Option<u32>, uids: &[u32]) -> bool {
        let current = self.told.is_current(&self.archive);
        match self.told.tell(self.alloc, &self.archive) {
            Ok(changes) => are(&changes, gone, exists)
                && self.knows(uids)
                && current == (gone.is_empty() && exists.is_none()),
            Err(_) => false,
        }
    }

    /// Returns whether the client knows these UIDs.
    pub fn knows(&self, uids: &[u32]) -> bool {
        self.told.uids() == uids && self.told.count() as usize == uids.len()
    }

    /// Returns the UID with a sequence number.
    pub fn uid(&self, sequence: u32) -> Option<u32> {
        self.told.uid(sequence)
    }

    /// Returns the sequence number of a UID.
    pub fn sequence(&self, uid: u32) -> Option<u32> {
        self.told.sequence(uid)
    }
}

/// Returns whether changes are these.
fn are(changes: &Changes, gone: &[u32], exists: Option<u32>) -> bool {
    changes.gone.as_slice() == gone && changes.exists == exists
}

/// Returns whether a command was carried out.
fn is_ok(answer: Answer) -> bool {
    matches!(answer, Answer::Ok { .. })
}
