//! A plain program of the session's definition, over all bytes of a connection at once.
use arch_base::{Bytes, NoMemory};
use arch_model::{Answer, Command};
use fixtures::MOMENT;
use mem_archive::MemArchive;
use std::alloc::Global;

/// Where the plain program stands.
#[derive(Clone, Copy, Debug, PartialEq, Eq, Drop)]
enum Stand {
    New,
    Idle,
    Mail(usize),
}

/// What a line is answered, and where the program stands then.
type Answered = (&'static [u8], Stand);

/// Answers all bytes of a connection, and returns what is said after the greeting.
pub fn answers(alloc: Global, stream: &[u8], archive: &mut MemArchive) -> Result<Bytes, NoMemory> {
    let mut said = Bytes::new(alloc);
    let mut stand = Stand::New;
    let mut rest = stream;
    for _ in 0..stream.len() {
        let Some((line, after)) = parted(rest, b"\n") else {
            return Ok(said);
        };
        rest = after;
        if line.len() > 511 {
            said.push_slice(b"500 line too long\r\n")?;
            continue;
        }
        let line = line.strip_suffix(b"\r").unwrap_or(line);
        let (words, next) = answered(line, stand);
        said.push_slice(words)?;
        if words == b"221 bye\r\n".as_slice() {
            return Ok(said);
        }
        if words != b"354 go ahead\r\n".as_slice() {
            stand = next;
            continue;
        }
        let Some((data, after)) = ended(alloc, rest)? else {
            return Ok(said);
        };
        rest = after;
        let count = match stand {
            Stand::Mail(count) => count,
            _ => 0,
        };
        for _ in 0..count {
            push_answer(
                archive.command(&Command::Deliver(data.as_slice()), MOMENT),
                &mut said,
            )?;
        }
        stand = Stand::Idle;
    }
    Ok(said)
}

/// Returns the bytes before and after a mark, if they have it.
fn parted<'a>(bytes: &'a [u8], mark: &[u8]) -> Option<(&'a [u8], &'a [u8])> {
    for at in 0..bytes.len() {
        let (before, from) = bytes.split_at(at);
        if let Some(after) = from.strip_prefix(mark) {
            return Some((before, after));
        }
    }
    None
}

/// Returns the octets of data that has ended, and the bytes after it.
fn ended(alloc: Global, bytes: &[u8]) -> Result<Option<(Bytes, &[u8])>, NoMemory> {
    let mut data = Bytes::new(alloc);
    let mut rest = bytes;
    for _ in 0..bytes.len() {
        let Some((line, after)) = parted(rest, b"\r\n") else {
            return Ok(None);
        };
        if line == b".".as_slice() {
            return Ok(Some((data, after)));
        }
        data.push_slice(line.strip_prefix(b".").unwrap_or(line))?;
        data.push_slice(b"\r\n")?;
        rest = after;
    }
    Ok(None)
}

/// Appends the reply to a recipient.
fn push_answer(answer: Answer, said: &mut Bytes) -> Result<(), NoMemory> {
    match answer {
        Answer::Ok { number, .. } => push_numbered(b"250 ok ", number, said),
        Answer::Duplicate(number) => push_numbered(b"250 duplicate ", number, said),
        Answer::NoFields => said.push_slice(b"554 no fields\r\n"),
        _ => said.push_slice(b"?\r\n"),
    }
}

/// Appends words and a number below 1,000 as a line.
fn push_numbered(words: &[u8], number: u32, said: &mut Bytes) -> Result<(), NoMemory> {
    said.push_slice(words)?;
    if number >= 100 {
        said.push(b'0' + (number / 100 % 10) as u8)?;
    }
    if number >= 10 {
        said.push(b'0' + (number / 10 % 10) as u8)?;
    }
    said.push(b'0' + (number % 10) as u8)?;
    said.push_slice(b"\r\n")
}

/// Returns what a line is answered. The lines are those of the random streams.
fn answered(line: &[u8], stand: Stand) -> Answered {
    match line {
        b"LHLO c" => (
            b"250-piv2\r\n250-PIPELINING\r\n250 8BITMIME\r\n",
            Stand::Idle,
        ),
        b"MAIL FROM:<a@b>" => match stand {
            Stand::Idle => (b"250 ok\r\n", Stand::Mail(0)),
            _ => (b"503 bad sequence\r\n", stand),
        },
        b"RCPT TO:<list@h>" => match stand {
            Stand::Mail(count) => (b"250 ok\r\n", Stand::Mail(count.saturating_add(1))),
            _ => (b"503 bad sequence\r\n", stand),
        },
        b"RCPT TO:<x>" => match stand {
            Stand::Mail(_) => (b"550 no such list\r\n", stand),
            _ => (b"503 bad sequence\r\n", stand),
        },
        b"DATA" => match stand {
            Stand::Mail(0) | Stand::New | Stand::Idle => (b"503 no recipients\r\n", stand),
            Stand::Mail(_) => (b"354 go ahead\r\n", stand),
        },
        b"RSET" => match stand {
            Stand::New => (b"250 ok\r\n", Stand::New),
            _ => (b"250 ok\r\n", Stand::Idle),
        },
        b"NOOP" => (b"250 ok\r\n", stand),
        b"QUIT" => (b"221 bye\r\n", stand),
        b"NOOP x" => (b"501 syntax\r\n", stand),
        _ => (b"500 unknown\r\n", stand),
    }
}
