//! The events of a server.
//! Pure.

/// A door of the server. Each protocol has one.
#[derive(Clone, Copy, Debug, PartialEq, Eq, Drop)]
pub enum Door {
    Control,
    Http,
    Nntp,
    Pop3,
    Imap,
    Lmtp,
}

/// What happened at an event.
#[derive(Clone, Copy, Debug, PartialEq, Eq, Drop)]
pub enum What {
    /// A connection opened at a door.
    Opened { conn: u32, door: Door },
    /// A connection sent a piece of `len` bytes, 1 to 1,048,576 in a script.
    Bytes { conn: u32, len: usize },
    /// A connection ended.
    Ended { conn: u32 },
    /// Nothing happened.
    Quiet,
    /// The server has to stop.
    Stop,
}

/// An event: what happened, and the moment in seconds since 1970 UTC.
#[derive(Clone, Copy, Debug, PartialEq, Eq, Drop)]
pub struct Event {
    pub moment: u64,
    pub what: What,
}
