//! The samples: contents of blobs, and commits.

/// Contents of blobs.
pub const BLOBS: [&[u8]; 4] = [b"", b"hello\n", b"\0a\r\nb\0\r\r\n\n\0", b"no line feed"];

/// A commit without its ids. Its texts are clean.
#[derive(Drop)]
pub struct Sample {
    /// The author's name.
    pub author: &'static str,
    /// The author's address.
    pub email: &'static str,
    /// When the author wrote, in seconds since 1970.
    pub secs: u64,
    /// The author's time zone, in minutes east of UTC.
    pub zone: i16,
    /// When it was committed, in seconds since 1970.
    pub committed: u64,
    /// The subject.
    pub subject: &'static str,
}

/// Commits without a parent.
pub const ALONE: [Sample; 3] = [
    Sample {
        author: "",
        email: "",
        secs: 0,
        zone: 0,
        committed: 0,
        subject: "",
    },
    Sample {
        author: "",
        email: "nobody@example.org",
        secs: 1,
        zone: 1439,
        committed: 253402300799,
        subject: "No name",
    },
    Sample {
        author: "No address",
        email: "",
        secs: 253402300799,
        zone: -1439,
        committed: 1,
        subject: "tree 1",
    },
];

/// A chain of commits: the first has no parent, and each is the parent of the next.
pub const CHAIN: [Sample; 6] = [
    Sample {
        author: "Ann B. Example",
        email: "ann@example.org",
        secs: 0,
        zone: 0,
        committed: 0,
        subject: "[PATCH 1/2] First: \"quoted\" \\ 100%",
    },
    Sample {
        author: "Priya",
        email: "priya@example.in",
        secs: 1,
        zone: 330,
        committed: 1,
        subject: "Re: half an hour east",
    },
    Sample {
        author: "Jón Ólafsson",
        email: "jon@example.is",
        secs: 1706781700,
        zone: -210,
        committed: 1706781701,
        subject: "Þrjár og hálf — 東京 😀",
    },
    Sample {
        author: "",
        email: "list+owner@example.org",
        secs: 1706781702,
        zone: 0,
        committed: 1706781702,
        subject: "",
    },
    Sample {
        author: "李",
        email: "ли@example.org",
        secs: 253402300799,
        zone: 330,
        committed: 253402300799,
        subject: "The last moment of the year 9999",
    },
    Sample {
        author: "A",
        email: "a",
        secs: 1234567890,
        zone: -1,
        committed: 1706781703,
        subject: "earlier than its parent",
    },
];
