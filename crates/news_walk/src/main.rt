//! Lets a news reader talk to a session over an archive in memory: `tests/news` puts a socket in
//! front of it.
//!
//! The first line of the standard input is a length. So many bytes after it are a script, whose pieces
//! are fed to one control session: it fills the archive, which has the name `list`. All bytes after
//! the script are a news reader's. They come at the moment of the last event, and each piece of them
//! is answered on the standard output as soon as it is read.
#![tactic(auto)]

ghost use Rattle.std.specs.Prelude.{◌≤◌};
ghost use Rattle.arch_base.specs.Moments.{last_moment};

use arch_base::{Bytes, Config, Form, LAST_MOMENT, Name, Numbers, read_decimal};
use arch_model::Next;
use control_door::Session;
use edge_io::{MemSink, Script, Sink, Source, SourceFault, script};
use mem_archive::MemArchive;
use memchr::memchr;
use nntp_reader::NntpSession;
use real_edges::{StdSink, StdSource};
use std::alloc::Global;

/// The greatest number of events of a script, and of pieces of the input.
const MOST: u64 = 1_000_000;

/// The number of bytes that one read asks for.
const PIECE_LEN: usize = 4096;

/// Fills an archive, and answers a news reader from it.
fn main(rt: HostRuntime) -> anyhow::Result<()> {
    let alloc = rt.alloc();
    let mut input = StdSource::new(&rt, alloc)?;
    let mut output = StdSink::new(&rt, alloc)?;
    let mut front = Bytes::new(alloc);
    read_front(&mut input, &mut front)?;
    if let Some((events, rest)) = divided(front.as_slice()) {
        if let Some(mut archive) = empty(alloc) {
            let events = script(alloc, events)?;
            let moment = fill(alloc, &events, &mut archive).min(LAST_MOMENT);
            answer(alloc, rest, moment, &mut archive, &mut input, &mut output)?;
        }
    }
    Ok(())
}

/// Reads the input until the script is whole, or the input ends.
fn read_front<S: Source>(input: &mut S, front: &mut Bytes) -> anyhow::Result<()> {
    for _ in 0..MOST {
        if divided(front.as_slice()).is_some() || !read_piece(input, front)? {
            return Ok(());
        }
    }
    Ok(())
}

/// Appends a piece of the input, and returns whether there was one.
fn read_piece<S: Source>(input: &mut S, into: &mut Bytes) -> anyhow::Result<bool> {
    let mut piece = [0; PIECE_LEN];
    let count = input.read(&mut piece)?;
    into.push_slice(&piece[..count])?;
    Ok(count > 0)
}

/// Returns the script at the front of an input and what follows it, or `None` if it isn't whole.
fn divided(input: &[u8]) -> Option<(&[u8], &[u8])> {
    let end = memchr(b'\n', input)?;
    let len = read_decimal(&input[..end])?;
    let rest = &input[end + 1..];
    if len > rest.len() as u64 {
        return None;
    }
    Some(rest.split_at(len as usize))
}

/// Returns an archive without entries.
fn empty(alloc: Global) -> Option<MemArchive> {
    let config = Config {
        name: Name::read(b"list")?,
        limit: 1_073_741_824,
        slice: 50_000,
        max: 2_147_483_647,
        mirror: false,
        born: 1_706_780_000,
        form: Form::Sha1,
    };
    Some(MemArchive::new(alloc, config))
}

/// Feeds the pieces of a script to a control session, and returns the moment of its last event.
fn fill(alloc: Global, events: &Script, archive: &mut MemArchive) -> u64 {
    let mut session = Session::open(alloc);
    let mut sink = MemSink::new(alloc, Numbers::new(alloc));
    let mut moment = 0;
    for index in 0..MOST {
        let Some(event) = events.event(index) else {
            return moment;
        };
        moment = event.moment.min(LAST_MOMENT);
        let piece = events.piece(index);
        if session.feed(piece, moment, archive, &mut sink) == Next::Close {
            return moment;
        }
    }
    moment
}

/// Greets a news reader, and answers its bytes, of which the first ones were read already.
fn answer<S: Source, O: Sink>(
    alloc: Global,
    first: &[u8],
    moment: u64,
    archive: &mut MemArchive,
    input: &mut S,
    out: &mut O,
) -> Result<(), SourceFault>
    requires { moment ≤ last_moment }
{
    let (mut session, greeted) = NntpSession::open(alloc, out);
    if greeted == Next::Close || session.feed(first, moment, archive, out) == Next::Close {
        return Ok(());
    }
    let mut piece = [0; PIECE_LEN];
    for _ in 0..MOST {
        let count = input.read(&mut piece)?;
        if count == 0 || session.feed(&piece[..count], moment, archive, out) == Next::Close {
            return Ok(());
        }
    }
    Ok(())
}
