//! A client's connection to an archive in memory, whose mailboxes have two numbers each.
use arch_base::Numbers;
use arch_model::{Command, Keep, Next};
use archive_fixtures::is_ok;
use edge_io::MemSink;
use fixtures::{MESSAGES, MOMENT, are_lines, list_config};
use mem_archive::MemArchive;
use pop3_reader::Pop3Session;
use std::alloc::Global;

/// A connection with an archive of its own.
#[derive(Drop)]
pub struct Connection {
    session: Pop3Session,
    archive: MemArchive,
    out: MemSink,
    next: Next,
}

impl Connection {
    /// Opens a connection to an archive.
    fn to(alloc: Global, archive: MemArchive) -> Self {
        let mut out = MemSink::new(alloc, Numbers::new(alloc));
        let (session, next) = Pop3Session::open(alloc, &mut out);
        Connection {
            session,
            archive,
            out,
            next,
        }
    }

    /// Opens a connection to an archive without messages.
    pub fn to_empty(alloc: Global) -> Option<Self> {
        Some(Connection::to(alloc, empty(alloc)?))
    }

    /// Opens a connection to an archive whose live numbers are 1, 3 and 4.
    pub fn to_three(alloc: Global) -> Option<Self> {
        Some(Connection::to(alloc, three(alloc)?))
    }

    /// Removes the message with a number.
    pub fn remove(&mut self, number: u32) -> bool {
        is_ok(Keep::command(&mut self.archive, &Command::Remove(number), MOMENT))
    }

    /// Delivers the second message again.
    pub fn deliver(&mut self) -> bool {
        is_ok(Keep::command(&mut self.archive, &Command::Deliver(MESSAGES[1]), MOMENT))
    }

    /// Feeds a piece if the connection is still open.
    pub fn hear(&mut self, piece: &[u8]) {
        if self.next == Next::Go {
            self.next = self
                .session
                .feed(piece, MOMENT, &mut self.archive, &mut self.out);
        }
    }

    /// Returns the number of bytes that were said.
    pub fn said(&self) -> usize {
        self.out.taken().len()
    }

    /// Returns whether these lines, and no others, were said after the first bytes, and the
    /// connection then continues or is closed, as `next` says.
    pub fn has_said(&self, after: usize, lines: &[&[u8]], next: Next) -> bool {
        let said = self.out.taken();
        are_lines(&said[after.min(said.len())..], lines) && self.next == next
    }
}

/// Creates an archive without messages.
fn empty(alloc: Global) -> Option<MemArchive> {
    Some(MemArchive::new(alloc, list_config(2)?))
}

/// Creates an archive of four messages, of which the second is removed.
pub fn three(alloc: Global) -> Option<MemArchive> {
    let mut archive = empty(alloc)?;
    if !fill(&mut archive) {
        return None;
    }
    Some(archive)
}

/// Delivers four messages and removes the second, and returns whether all that was carried out.
pub fn fill<K: Keep>(keep: &mut K) -> bool {
    for message in &MESSAGES {
        if !is_ok(keep.command(&Command::Deliver(message), 1_706_781_000)) {
            return false;
        }
    }
    is_ok(keep.command(&Command::Remove(2), 1_706_781_300))
}
