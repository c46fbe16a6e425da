//! A reader's connection to an archive in memory.
use arch_base::Numbers;
use arch_model::{Command, Keep, Next};
use archive_fixtures::is_ok;
use edge_io::MemSink;
use fixtures::{MESSAGES, MOMENT, are_lines, list_config};
use mem_archive::MemArchive;
use nntp_reader::NntpSession;
use std::alloc::Global;

/// A connection with an archive of its own.
#[derive(Drop)]
pub struct Connection {
    session: NntpSession,
    archive: MemArchive,
    out: MemSink,
    next: Next,
}

impl Connection {
    /// Opens a connection to an archive.
    fn to(alloc: Global, archive: MemArchive) -> Self {
        let mut out = MemSink::new(alloc, Numbers::new(alloc));
        let (session, next) = NntpSession::open(alloc, &mut out);
        Connection {
            session,
            archive,
            out,
            next,
        }
    }

    /// Opens a connection to an archive without messages.
    pub fn to_empty(alloc: Global) -> Option<Self> {
        Some(Connection::to(alloc, empty(alloc)?))
    }

    /// Opens a connection to an archive whose live numbers are 1 and 3.
    pub fn to_two(alloc: Global) -> Option<Self> {
        Some(Connection::to(alloc, two(alloc)?))
    }

    /// Delivers a message, and returns whether that was carried out.
    pub fn deliver(&mut self, message: &[u8]) -> bool {
        is_ok(Keep::command(&mut self.archive, &Command::Deliver(message), MOMENT))
    }

    /// Removes the message with a number.
    pub fn remove(&mut self, number: u32) -> bool {
        is_ok(Keep::command(&mut self.archive, &Command::Remove(number), MOMENT))
    }

    /// Feeds a piece if the connection is still open.
    pub fn hear(&mut self, piece: &[u8]) {
        if self.next == Next::Go {
            self.next = self
                .session
                .feed(piece, MOMENT, &mut self.archive, &mut self.out);
        }
    }

    /// Returns the number of bytes that were said.
    pub fn said(&self) -> usize {
        self.out.taken().len()
    }

    /// Returns whether these lines, and no others, were said after the first bytes, and the
    /// connection then continues or is closed, as `next` says.
    pub fn has_said(&self, after: usize, lines: &[&[u8]], next: Next) -> bool {
        let said = self.out.taken();
        are_lines(&said[after.min(said.len())..], lines) && self.next == next
    }
}

/// Creates an archive without messages.
fn empty(alloc: Global) -> Option<MemArchive> {
    Some(MemArchive::new(alloc, list_config(50_000)?))
}

/// Creates an archive of three messages, of which the second is removed.
pub fn two(alloc: Global) -> Option<MemArchive> {
    let mut archive = empty(alloc)?;
    if !fill(&mut archive) {
        return None;
    }
    Some(archive)
}

/// Delivers three messages, at 09:50:00, 09:51:40 and 09:53:20, and removes the second, and returns
/// whether all that was carried out.
pub fn fill<K: Keep>(keep: &mut K) -> bool {
    is_ok(keep.command(&Command::Deliver(MESSAGES[0]), 1_706_781_000))
        && is_ok(keep.command(&Command::Deliver(MESSAGES[1]), 1_706_781_100))
        && is_ok(keep.command(&Command::Deliver(MESSAGES[2]), 1_706_781_200))
        && is_ok(keep.command(&Command::Remove(2), 1_706_781_300))
}
