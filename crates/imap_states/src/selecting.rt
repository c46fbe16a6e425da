//! What SELECT and EXAMINE say.
//! Allocates.
ghost use Rattle.std.specs.Prelude.{◌≡◌, ◌≤◌, ◌<◌, ◌+◌, ℕ, true, is_ok};
ghost use Rattle.arch_model.specs.Archives.{Archive};
ghost use Rattle.edge_io.specs.Phrases.{SaysTo};
ghost use Rattle.line_door.specs.Acts.{Acts, held_if, at_sink};
ghost use Rattle.imap_states.specs.Boxes.{box_count, select_words};
ghost use Rattle.imap_states.specs.Replies.{select_reply, select_at, tagged_ways};
ghost use Rattle.imap_states.specs.States.{SuitsClient};

use crate::boxes::{find_mailbox, uid_next};
use crate::notice::{say_bad, say_no_mailbox, say_no_memory};
use crate::state::{ImapPlace, ImapState};
use arch_model::Shelf;
use edge_io::{Sink, SinkFault};
use known_uids::KnownUids;
use shelf_doors::MailboxRange;
use std::alloc::Global;
use wire_replies::{Phrase, send};

/// Selects the mailbox with a name, and says what it has; or none, if no mailbox has the name. `name`
/// is that of the command.
pub(crate) fn say_select<S: Shelf, O: Sink>(
    tag: &[u8],
    name: &[u8],
    mailbox: &[u8],
    alloc: Global,
    state: &mut ImapState,
    shelf: &S,
    out: &mut O,
) -> Result<(), SinkFault>
    requires { S.ready shelf.now ≡ true }
    ensures acts { (a : Archive) (disk : ℕ) → S.holds shelf.now a → SuitsClient a state.old
        → Acts (tagged_ways a state.old tag.now
        (select_reply a state.old tag.now name.now mailbox.now))
        (at_sink O.Sink out.old disk) (held_if (is_ok result) state.new) a
        (at_sink O.Sink out.new disk) }
    ensures sink { O.alike out.old out.new }
{
    if state.place.is_logged_out() {
        return say_bad(tag, out);
    }
    match find_mailbox(mailbox, shelf) {
        None => {
            state.place = ImapPlace::LoggedIn;
            say_no_mailbox(tag, out)
        }
        Some(found) => select(tag, name, found.range, alloc, state, shelf, out),
    }
}

/// Selects the mailbox with these numbers, and says what it has.
fn select<S: Shelf, O: Sink>(
    tag: &[u8],
    name: &[u8],
    range: MailboxRange,
    alloc: Global,
    state: &mut ImapState,
    shelf: &S,
    out: &mut O,
) -> Result<(), SinkFault>
    requires ready { S.ready shelf.now ≡ true }
    requires low { 1 ≤ range.first }
    requires order { range.first ≤ range.last + 1 }
    requires high { range.last < 4294967295 }
    ensures acts { (a : Archive) (disk : ℕ) → S.holds shelf.now a
        → Acts (tagged_ways a state.old tag.now (select_at a state.old tag.now name.now range))
        (at_sink O.Sink out.old disk) (held_if (is_ok result) state.new) a
        (at_sink O.Sink out.new disk) }
    ensures sink { O.alike out.old out.new }
{
    match KnownUids::select(alloc, range.first, range.last, shelf) {
        Err(_) => say_no_memory(tag, out),
        Ok(told) => {
            let said = say_selected(tag, name, told.count(), range, shelf, out);
            state.place = ImapPlace::Selected(told);
            said
        }
    }
}

/// Says what a mailbox has, of which so many messages are live.
fn say_selected<'a, S: Shelf, O: Sink>(
    tag: &'a [u8],
    name: &'a [u8],
    count: u32,
    range: MailboxRange,
    shelf: &S,
    out: &mut O,
) -> Result<(), SinkFault>
    requires { S.ready shelf.now ≡ true }
    ensures said { (a : Archive) → S.holds shelf.now a → count ≡ box_count a range
        → SaysTo O.Sink (select_words a tag.now name.now range) out.old out.new result }
    ensures sink { O.alike out.old out.new }
{
    send(
        &[
            Phrase::Words(b"* FLAGS ()\r\n* "),
            Phrase::Number(u64::from(count)),
            Phrase::Words(b" EXISTS\r\n* 0 RECENT\r\n* OK [UIDVALIDITY "),
            Phrase::Number(u64::from(shelf.config().born)),
            Phrase::Words(b"] uidvalidity\r\n* OK [UIDNEXT "),
            Phrase::Number(uid_next(range, shelf)),
            Phrase::Words(b"] uidnext\r\n* OK [PERMANENTFLAGS ()] no flags\r\n"),
            Phrase::Words(tag),
            Phrase::Words(b" OK [READ-ONLY] "),
            Phrase::Words(name),
            Phrase::Words(b" done\r\n"),
        ],
        out,
    )
}
