//! What FETCH says.
//! Reads the disk.
ghost use Rattle.std.specs.Prelude.{◌≡◌, ◌++◌, true, false};
ghost use Rattle.arch_model.specs.Archives.{Archive};
ghost use Rattle.arch_model.specs.Next.{continues};
ghost use Rattle.arch_model.specs.OverShelf.{ShelfKept};
ghost use Rattle.arch_model.specs.Shelves.{ReadsIn};
ghost use Rattle.line_door.specs.Acts.{Acts, held_if, at_sink};
ghost use Rattle.edge_io.specs.Phrases.{SaysTo};
ghost use Rattle.imap_messages.specs.Picking.{is_outside, picked};
ghost use Rattle.imap_messages.specs.Tagged.{tagged};
ghost use Rattle.imap_messages.specs.Sparing.{SparedIn};
ghost use Rattle.imap_messages.specs.Fetching.{asked_fetch, fetch_end, fetch_said, texts_of, fetch_texts};

use crate::lines::push_message;
use crate::numbering::{Numbering, is_outside, picks, star};
use crate::refusals::say_bad;
use arch_model::{Next, Shelf, is_live};
use edge_io::{Sink, SinkFault};
use imap_syntax::{Item, SeqSet};
use known_uids::KnownUids;
use std::alloc::Global;
use wire_replies::{Phrase, Waiting};

/// A FETCH or UID FETCH, as it was read.
#[derive(Clone, Copy, Drop)]
pub struct FetchCommand<'a> {
    /// The tag of the command.
    pub tag: &'a [u8],
    /// Whether the set has sequence numbers or UIDs.
    pub numbering: Numbering,
    /// The set of messages.
    pub set: &'a SeqSet,
    /// The items, in the order in which they are asked.
    pub items: &'a [Item],
}

/// Says the items of the messages that a FETCH names among those that a client was told, and returns
/// whether the session continues.
///
/// Each live one has its line, by rising numbers, and the tag comes last: with NO where FETCH names
/// one that is gone, and with OK else. UID FETCH passes over these. A sequence number that wasn't
/// told is refused as bad.
///
/// The reply is streamed: no more than one text is in memory, and it isn't read where no item needs
/// it. If the first line can't be made, the reply says why after the tag. If a later one can't, the
/// reply stops and the session is closed.
pub fn say_fetch<S: Shelf, O: Sink>(
    command: &FetchCommand<'_>,
    told: &KnownUids,
    alloc: Global,
    shelf: &mut S,
    out: &mut O,
) -> Next
    requires { S.ready shelf.old ≡ true }
    ensures acts { (a : Archive) → S.holds shelf.old a
        → Acts (fetch_said a told.now (asked_fetch command.now))
        (at_sink O.Sink out.old (S.faults shelf.old)) (held_if (continues result) told.now) a
        (at_sink O.Sink out.new (S.faults shelf.new)) }
    ensures shelf { ShelfKept S.Shelf shelf.old shelf.new }
    ensures reads { ReadsIn S.holds (λ a. fetch_texts a told.now (asked_fetch command.now))
        shelf.old (S.reads shelf.old) (S.reads shelf.new) }
    ensures spared { SparedIn S.holds (λ a. fetch_texts a told.now (asked_fetch command.now))
        shelf.old (S.faults shelf.old) (S.faults shelf.new) }
    ensures sink { O.alike out.old out.new }
{
    if is_outside(command.numbering, command.set, told) {
        return Next::after(say_bad(command.tag, out));
    }
    say_lines(command, told, alloc, shelf, out)
}

/// Says the lines of the messages that a FETCH names, and the end of the reply.
fn say_lines<S: Shelf, O: Sink>(
    command: &FetchCommand<'_>,
    told: &KnownUids,
    alloc: Global,
    shelf: &mut S,
    out: &mut O,
) -> Next
    requires { S.ready shelf.old ≡ true }
    ensures acts { (a : Archive) → S.holds shelf.old a
        → is_outside command.now.numbering command.now.set.now told.now.uids ≡ false
        → Acts (fetch_said a told.now (asked_fetch command.now))
        (at_sink O.Sink out.old (S.faults shelf.old)) (held_if (continues result) told.now) a
        (at_sink O.Sink out.new (S.faults shelf.new)) }
    ensures shelf { ShelfKept S.Shelf shelf.old shelf.new }
    ensures reads { ReadsIn S.holds (λ a. texts_of a (asked_fetch command.now)
        (picked command.now.numbering command.now.set.now told.now.uids))
        shelf.old (S.reads shelf.old) (S.reads shelf.new) }
    ensures spared { SparedIn S.holds (λ a. texts_of a (asked_fetch command.now)
        (picked command.now.numbering command.now.set.now told.now.uids))
        shelf.old (S.faults shelf.old) (S.faults shelf.new) }
    ensures sink { O.alike out.old out.new }
{
    let star = star(command.numbering, told);
    let uids = told.uids();
    let count = told.count();
    let mut reply = Waiting::new();
    let mut begun = false;
    let mut gone = false;
    let mut index = 0;
    while index < count {
        let uid = uids[index as usize];
        index += 1;
        if !picks(command.numbering, command.set, star, index, uid) {
            continue;
        }
        if !is_live(uid, shelf) {
            gone = true;
            continue;
        }
        match push_message(command, index, uid, begun, alloc, shelf, &mut reply, out) {
            Ok(()) => begun = true,
            Err(stop) => return stop.end(&mut reply, out),
        }
    }
    Next::after(say_end(command, gone, &mut reply, out))
}

/// Says the words that wait, and the end of the reply.
fn say_end<O: Sink>(
    command: &FetchCommand<'_>,
    gone: bool,
    reply: &mut Waiting,
    out: &mut O,
) -> Result<(), SinkFault>
    ensures said { SaysTo O.Sink (reply.old ++ tagged command.now.tag.now
        (fetch_end command.now.numbering gone)) out.old out.new result }
    ensures sink { O.alike out.old out.new }
{
    reply.finish(
        &[
            Phrase::Words(command.tag),
            Phrase::Words(b" "),
            Phrase::Words(fetch_end(command.numbering, gone)),
            Phrase::Words(b"\r\n"),
        ],
        out,
    )
}

/// Returns the words after the tag.
fn fetch_end(numbering: Numbering, gone: bool) -> &'static [u8]
    ensures { result.now ≡ fetch_end numbering gone }
{
    match numbering {
        Numbering::Uid => b"OK UID FETCH done",
        Numbering::Sequence => {
            if gone {
                b"NO some are gone"
            } else {
                b"OK FETCH done"
            }
        }
    }
}
