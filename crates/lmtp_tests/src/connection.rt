//! A mail system's connection to an archive in memory of the name `list`.
use arch_base::Numbers;
use arch_model::Next;
use archive_fixtures::in_memory;
use edge_io::MemSink;
use fixtures::{LIMIT, MAX, MOMENT, are_lines};
use lmtp_door::LmtpSession;
use mem_archive::MemArchive;
use std::alloc::Global;

/// The line of the greeting, with its end, in bytes.
pub const GREETING: usize = 15;

/// A connection with an archive of its own.
#[derive(Drop)]
pub struct Connection {
    session: LmtpSession,
    archive: MemArchive,
    out: MemSink,
    next: Next,
}

impl Connection {
    /// Opens a connection to an archive.
    pub fn to(alloc: Global, archive: MemArchive) -> Self {
        let mut out = MemSink::new(alloc, Numbers::new(alloc));
        let (session, next) = LmtpSession::open(alloc, &mut out);
        Connection {
            session,
            archive,
            out,
            next,
        }
    }

    /// Opens a connection to an archive without messages.
    pub fn to_empty(alloc: Global) -> Option<Self> {
        Some(Connection::to(alloc, empty(alloc)?))
    }

    /// Feeds a piece if the connection is still open.
    pub fn hear(&mut self, piece: &[u8]) {
        if self.next == Next::Go {
            self.next = self
                .session
                .feed(piece, MOMENT, &mut self.archive, &mut self.out);
        }
    }

    /// Returns all bytes that were said.
    pub fn said(&self) -> &[u8] {
        self.out.taken()
    }

    /// Returns whether the connection continues.
    pub fn next(&self) -> Next {
        self.next
    }

    /// Returns the text of a live number.
    pub fn text(&self, number: u32) -> Option<&[u8]> {
        self.archive.text(number)
    }

    /// Returns whether these lines, and no others, were said after the greeting, and the connection then
    /// continues or is closed, as `next` says.
    pub fn has_said(&self, lines: &[&[u8]], next: Next) -> bool {
        self.has_said_after(GREETING, lines, next)
    }

    /// Returns the same of what was said after the first bytes.
    pub fn has_said_after(&self, after: usize, lines: &[&[u8]], next: Next) -> bool {
        let said = self.out.taken();
        are_lines(&said[after.min(said.len())..], lines) && self.next == next
    }
}

/// Creates an archive without messages.
pub fn empty(alloc: Global) -> Option<MemArchive> {
    in_memory(alloc, LIMIT, MAX, false)
}
