//! Streams that a seed determines, cut anywhere, against a plain program; and the archives after them.
use crate::connection::{Connection, GREETING, empty};
use crate::plain::answers;
use arch_base::{Bytes, NoMemory};
use arch_model::Next;
use mem_archive::MemArchive;
use std::alloc::Global;
use std::test::Fail;

/// Pieces of streams. Many of them begin a transaction, or are lines of data.
static PIECES: [&[u8]; 32] = [
    b"LHLO c\r\n",
    b"MAIL FROM:<a@b>\r\n",
    b"RCPT TO:<list@h>\r\n",
    b"RCPT TO:<list@h>\n",
    b"DATA\r\n",
    b"DATA\n",
    b"LHLO c\r\nMAIL FROM:<a@b>\r\nRCPT TO:<list@h>\r\nDATA\r\n",
    b"LHLO c\nMAIL FROM:<a@b>\nRCPT TO:<list@h>\nRCPT TO:<list@h>\nDATA\n",
    b"MAIL FROM:<a@b>\nRCPT TO:<list@h>\nDATA\n",
    b"LHLO c\nMAIL FROM:<a@b>\nRCPT TO:<x>\nDATA\n",
    b"RCPT TO:<x>\r\n",
    b"RSET\r\n",
    b"NOOP\r\n",
    b"NOOP x\r\n",
    b"\r\n.\r\n",
    b".\r\n",
    b"\r\n.\r\n",
    b"..\r\n",
    b".\n",
    b"\n.\n",
    b"\r.\r",
    b".",
    b"\r",
    b"\n",
    b"x",
    b"Subject: a\r\n",
    b"Subject: b\r\n\r\n",
    b"Message-ID: <a@x>\r\n",
    b"Message-ID: <b@x>\r\n\r\n",
    b".Message-ID: <c@x>\r\n\r\n",
    b"aaaaaaaaaaaaaaaaaaaaaaaaaaaaaaaaaaaaaaaaaaaaaaaaaaaaaaaaaaaaaaaaaaaaaaaaaaaaaaaaaaaaaaaaaaaaaaaaaaaaaaaaaaaaaaaaaaaaaaaaaaaaaaaaaaaaaaaaaaaaaaaaaaaaaaaaaaaaaaaaaaaaaaaaaaaaaaaaaaaaaaaaaaaaaaaaaaaaaaaa",
    b"QUIT",
];

/// Numbers that a seed determines.
#[derive(Drop)]
struct Random {
    state: u64,
}

impl Random {
    /// Makes the numbers of a seed.
    fn new(seed: u64) -> Random {
        Random { state: seed }
    }

    /// Returns a number below 65,536.
    fn next(&mut self) -> usize {
        self.state = self
            .state
            .wrapping_mul(6_364_136_223_846_793_005)
            .wrapping_add(1_442_695_040_888_963_407);
        usize::from((self.state >> 48) as u16)
    }
}

/// Returns a stream of some forty pieces.
fn stream(alloc: Global, random: &mut Random) -> Result<Bytes, NoMemory> {
    let mut octets = Bytes::new(alloc);
    for _index in 0..40 {
        if let Some(piece) = PIECES.get(random.next() % PIECES.len()) {
            octets.push_slice(piece)?;
        }
    }
    Ok(octets)
}

/// Returns a connection that heard a stream in pieces of random lengths.
fn heard(alloc: Global, stream: &[u8], random: &mut Random) -> Result<Connection, Fail> {
    let mut connection = Connection::to_empty(alloc).ok_or("no archive")?;
    let mut rest = stream;
    for _ in 0..stream.len() {
        let (front, back) = rest.split_at(rest.len().min(1 + random.next() % 50));
        connection.hear(front);
        rest = back;
    }
    Ok(connection)
}

/// Returns whether the first 40 numbers have the same texts in both archives.
fn keeps_the_same(connection: &Connection, archive: &MemArchive) -> bool {
    for number in 1..41 {
        if connection.text(number) != archive.text(number) {
            return false;
        }
    }
    true
}

/// Returns whether the stream of a seed is answered as the plain program does, and leaves the same
/// archive.
fn is_answered_plainly(alloc: Global, seed: u64) -> Result<bool, Fail> {
    let mut random = Random::new(seed);
    let stream = stream(alloc, &mut random)?;
    let mut archive = empty(alloc).ok_or("no archive")?;
    let wanted = answers(alloc, stream.as_slice(), &mut archive)?;
    let connection = heard(alloc, stream.as_slice(), &mut random)?;
    let said = connection.said().get(GREETING..).unwrap_or(&[]);
    let closed = wanted.as_slice().ends_with(b"221 bye\r\n");
    Ok(
        said == wanted.as_slice()
            && (connection.next() == Next::Close) == closed
            && keeps_the_same(&connection, &archive),
    )
}

#[test]
fn random_streams_are_answered_as_a_plain_program_does(rt: HostRuntime) -> Result<(), Fail> {
    for seed in 1..501 {
        assert!(rt; is_answered_plainly(rt.alloc(), seed)?, "seed {seed}");
    }
    Ok(())
}
