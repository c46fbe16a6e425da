//! A client's connection to an archive in memory of three messages.
ghost use Rattle.std.specs.Prelude.{◌≤◌};

use arch_base::Numbers;
use arch_model::{Command, Keep, Next};
use archive_fixtures::is_ok;
use edge_io::MemSink;
use fixtures::{FIRST, MESSAGES, MOMENT, SECOND, THIRD, are_lines, list_config};
use imap_session::ImapSession;
use mem_archive::MemArchive;
use std::alloc::Global;

/// The line of the greeting, with its end, in bytes.
const GREETING: usize = 45;

/// A connection with an archive of its own.
#[derive(Drop)]
pub struct Connection {
    alloc: Global,
    session: ImapSession,
    archive: MemArchive,
    out: MemSink,
    next: Next,
}

impl Connection {
    /// Opens a connection to an archive of three messages, which are alike but for their ids, and whose
    /// mailboxes have so many numbers.
    pub fn to(alloc: Global, slice: u32) -> Option<Self>
        requires low { 1 ≤ slice }
        requires high { slice ≤ 1000000 }
    {
        let archive = three(alloc, slice)?;
        let mut out = MemSink::new(alloc, Numbers::new(alloc));
        let (session, next) = ImapSession::open(alloc, &mut out);
        Some(Connection {
            alloc,
            session,
            archive,
            out,
            next,
        })
    }

    /// Opens another connection to the same archive.
    pub fn begin(&mut self) {
        self.out.clear();
        let (session, next) = ImapSession::open(self.alloc, &mut self.out);
        self.session = session;
        self.next = next;
    }

    /// Removes the message with a number.
    pub fn remove(&mut self, number: u32) -> bool {
        is_ok(Keep::command(&mut self.archive, &Command::Remove(number), MOMENT))
    }

    /// Delivers a fourth message.
    pub fn deliver(&mut self) -> bool {
        is_ok(Keep::command(&mut self.archive, &Command::Deliver(MESSAGES[3]), MOMENT))
    }

    /// Gives the session its update, if the connection is still open.
    pub fn update(&mut self) {
        if self.next == Next::Go {
            self.next = self.session.update(&self.archive, &mut self.out);
        }
    }

    /// Feeds a piece if the connection is still open, and gives the session its update then.
    pub fn hear(&mut self, piece: &[u8]) {
        if self.next == Next::Go {
            self.next = self
                .session
                .feed(piece, MOMENT, &mut self.archive, &mut self.out);
        }
        self.update();
    }

    /// Feeds a piece that is cut in two at an offset.
    pub fn hear_cut(&mut self, piece: &[u8], at: usize) {
        let (front, back) = piece.split_at(at.min(piece.len()));
        self.hear(front);
        self.hear(back);
    }

    /// Feeds a piece byte by byte.
    pub fn hear_bytes(&mut self, piece: &[u8]) {
        for byte in piece {
            self.hear(&[*byte]);
        }
    }

    /// Returns whether the session idles.
    pub fn is_idle(&self) -> bool {
        self.session.is_idle()
    }

    /// Returns the number of bytes that were said.
    pub fn said(&self) -> usize {
        self.out.taken().len()
    }

    /// Returns whether these lines, and no others, were said after the first bytes, and the
    /// connection then continues or is closed, as `next` says.
    pub fn has_said(&self, after: usize, lines: &[&[u8]], next: Next) -> bool {
        let said = self.out.taken();
        are_lines(&said[after.min(said.len())..], lines) && self.next == next
    }

    /// Returns whether these lines, and no others, were said after the greeting.
    pub fn has_answered(&self, lines: &[&[u8]], next: Next) -> bool {
        self.has_said(GREETING, lines, next)
    }
}

/// Creates an archive of three messages, whose mailboxes have so many numbers.
pub fn three(alloc: Global, slice: u32) -> Option<MemArchive>
    requires low { 1 ≤ slice }
    requires high { slice ≤ 1000000 }
{
    let mut archive = MemArchive::new(alloc, list_config(slice)?);
    if !fill(&mut archive) {
        return None;
    }
    Some(archive)
}

/// Delivers three messages, and returns whether all that was carried out.
pub fn fill<K: Keep>(keep: &mut K) -> bool {
    for message in [FIRST, SECOND, THIRD] {
        if !is_ok(keep.command(&Command::Deliver(message), MOMENT)) {
            return false;
        }
    }
    true
}
