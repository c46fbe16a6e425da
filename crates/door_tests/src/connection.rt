//! A control connection to an archive in memory.
use arch_base::{Config, Form, Name, Numbers};
use arch_model::Next;
use archive_fixtures::in_memory;
use control_door::Session;
use edge_io::MemSink;
use fixtures::{LIMIT, MAX};
use mem_archive::MemArchive;
use std::alloc::Global;

/// A connection with an archive of its own.
#[derive(Drop)]
pub struct Connection {
    session: Session,
    archive: MemArchive,
    out: MemSink,
    next: Next,
}

impl Connection {
    /// Opens a connection to an archive without messages.
    pub fn new(alloc: Global) -> Option<Self> {
        Some(Connection::to(alloc, archive(alloc)?))
    }

    /// Opens a connection to a mirror without messages.
    pub fn to_mirror(alloc: Global) -> Option<Self> {
        Some(Connection::to(alloc, archive_of(alloc, true)?))
    }

    /// Opens a connection to an archive without messages whose objects have ids of SHA-256.
    pub fn to_sha_256(alloc: Global) -> Option<Self> {
        let config = Config {
            name: Name::read(b"list")?,
            limit: LIMIT,
            slice: 50_000,
            max: MAX,
            mirror: false,
            born: 1,
            form: Form::Sha256,
        };
        Some(Connection::to(alloc, MemArchive::new(alloc, config)))
    }

    /// Opens a connection to an archive.
    fn to(alloc: Global, archive: MemArchive) -> Self {
        Connection {
            session: Session::open(alloc),
            archive,
            out: MemSink::new(alloc, Numbers::new(alloc)),
            next: Next::Go,
        }
    }

    /// Opens a connection and feeds it a stream that is cut in two at an offset.
    pub fn cut_at(alloc: Global, stream: &[u8], at: usize) -> Option<Self> {
        let mut connection = Connection::new(alloc)?;
        let (front, back) = stream.split_at(at.min(stream.len()));
        connection.hear(front);
        connection.hear(back);
        Some(connection)
    }

    /// Feeds a piece if the connection is still open.
    pub fn hear(&mut self, piece: &[u8]) {
        if self.next == Next::Go {
            self.next = self
                .session
                .feed(piece, 1_706_781_700, &mut self.archive, &mut self.out);
        }
    }

    /// Returns whether the answers are these bytes and the connection then continues or is closed,
    /// as `next` says.
    pub fn was_answered(&self, words: &[u8], next: Next) -> bool {
        self.out.taken() == words && self.next == next
    }
}

/// Creates an archive without messages of the name `list`.
pub fn archive(alloc: Global) -> Option<MemArchive> {
    archive_of(alloc, false)
}

/// Creates an archive without messages of the name `list`, which is a mirror or not.
fn archive_of(alloc: Global, mirror: bool) -> Option<MemArchive> {
    in_memory(alloc, LIMIT, MAX, mirror)
}
