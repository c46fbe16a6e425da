//! What STATUS says.
//! Allocates.
ghost use Rattle.std.specs.Prelude.{◌≡◌, ◌≤◌, ◌+◌, ◌++◌, [], ℕ, true, is_ok, OnErr, codes, drop};
ghost use Rattle.arch_model.specs.Archives.{Archive};
ghost use Rattle.arch_model.specs.Validity.{IsArchive};
ghost use Rattle.edge_io.specs.Phrases.{SaysTo};
ghost use Rattle.line_door.specs.Acts.{Acts, held_if, at_sink};
ghost use Rattle.wire_replies.specs.Waits.{Waits};
ghost use Rattle.imap_states.specs.Boxes.{status_name, status_value, status_words, status_list, status_line};
ghost use Rattle.imap_states.specs.Notices.{done_line};
ghost use Rattle.imap_states.specs.Replies.{status_reply, status_at, tagged_ways};
ghost use Rattle.imap_states.specs.States.{SuitsClient, change_lines};

use crate::boxes::{Mailbox, box_count, find_mailbox, uid_next};
use crate::notice::{say_bad, say_no_mailbox, say_no_memory};
use crate::state::ImapState;
use crate::telling::{find_changes, finish_told};
use arch_model::Shelf;
use edge_io::{Sink, SinkFault};
use imap_syntax::StatusItem;
use known_uids::Changes;
use shelf_doors::MailboxRange;
use std::alloc::Global;
use wire_replies::{Phrase, Waiting};

/// Says items of the mailbox with a name. What is selected stays.
pub(crate) fn say_status<S: Shelf, O: Sink>(
    tag: &[u8],
    mailbox: &[u8],
    items: &[StatusItem],
    alloc: Global,
    state: &mut ImapState,
    shelf: &S,
    out: &mut O,
) -> Result<(), SinkFault>
    requires { S.ready shelf.now ≡ true }
    ensures acts { (a : Archive) (disk : ℕ) → S.holds shelf.now a → SuitsClient a state.old
        → Acts (tagged_ways a state.old tag.now
        (status_reply a state.old tag.now mailbox.now items.now))
        (at_sink O.Sink out.old disk) (held_if (is_ok result) state.new) a
        (at_sink O.Sink out.new disk) }
    ensures sink { O.alike out.old out.new }
{
    if state.place.is_logged_out() {
        return say_bad(tag, out);
    }
    match find_mailbox(mailbox, shelf) {
        None => say_no_mailbox(tag, out),
        Some(found) => say_box(tag, found, items, alloc, state, shelf, out),
    }
}

/// Says items of a mailbox, and tells the client of changes.
fn say_box<S: Shelf, O: Sink>(
    tag: &[u8],
    mailbox: Mailbox,
    items: &[StatusItem],
    alloc: Global,
    state: &mut ImapState,
    shelf: &S,
    out: &mut O,
) -> Result<(), SinkFault>
    requires ready { S.ready shelf.now ≡ true }
    requires order { mailbox.range.first ≤ mailbox.range.last + 1 }
    ensures acts { (a : Archive) (disk : ℕ) → S.holds shelf.now a → SuitsClient a state.old
        → Acts (tagged_ways a state.old tag.now
        (status_at a state.old tag.now items.now mailbox.index mailbox.range))
        (at_sink O.Sink out.old disk) (held_if (is_ok result) state.new) a
        (at_sink O.Sink out.new disk) }
    ensures sink { O.alike out.old out.new }
{
    match find_changes(&mut state.place, alloc, shelf) {
        Err(_) => say_no_memory(tag, out),
        Ok(changes) => say_items(tag, mailbox, items, &changes, shelf, out),
    }
}

/// Says items of a mailbox, and these changes.
fn say_items<S: Shelf, O: Sink>(
    tag: &[u8],
    mailbox: Mailbox,
    items: &[StatusItem],
    changes: &Changes,
    shelf: &S,
    out: &mut O,
) -> Result<(), SinkFault>
    requires ready { S.ready shelf.now ≡ true }
    requires order { mailbox.range.first ≤ mailbox.range.last + 1 }
    ensures said { (a : Archive) → S.holds shelf.now a → IsArchive a → SaysTo O.Sink
        (status_line a mailbox.index mailbox.range items.now ++ (change_lines changes.now
        ++ done_line tag.now (codes "STATUS"))) out.old out.new result }
    ensures sink { O.alike out.old out.new }
{
    let mut reply = Waiting::new();
    push_status(mailbox, items, shelf, &mut reply, out)?;
    finish_told(changes, tag, b"STATUS", &mut reply, out)
}

/// Appends the line of STATUS.
fn push_status<S: Shelf, O: Sink>(
    mailbox: Mailbox,
    items: &[StatusItem],
    shelf: &S,
    reply: &mut Waiting,
    out: &mut O,
) -> Result<(), SinkFault>
    requires ready { S.ready shelf.now ≡ true }
    requires order { mailbox.range.first ≤ mailbox.range.last + 1 }
    ensures said { (a : Archive) → S.holds shelf.now a → IsArchive a
        → Waits (status_line a mailbox.index mailbox.range items.now) reply.old (O.taken out.old)
        (O.faults out.old) reply.new (O.taken out.new) (O.faults out.new) result }
    ensures empty { OnErr result (reply.new ≡ []) }
    ensures sink { O.alike out.old out.new }
{
    let start = [
        Phrase::Words(b"* STATUS "),
        Phrase::Words(shelf.config().name.as_slice()),
        Phrase::Words(b"."),
        Phrase::Number(mailbox.index),
        Phrase::Words(b" "),
    ];
    reply.push(&start, out)?;
    push_items(mailbox.range, items, shelf, reply, out)?;
    reply.push(&[Phrase::Words(b")\r\n")], out)
}

/// Appends items and their values after a parenthesis, with spaces between them.
fn push_items<S: Shelf, O: Sink>(
    range: MailboxRange,
    items: &[StatusItem],
    shelf: &S,
    reply: &mut Waiting,
    out: &mut O,
) -> Result<(), SinkFault>
    requires ready { S.ready shelf.now ≡ true }
    requires order { range.first ≤ range.last + 1 }
    ensures said { (a : Archive) → S.holds shelf.now a → IsArchive a
        → Waits (status_list a range (codes "(") items.now) reply.old (O.taken out.old)
        (O.faults out.old) reply.new (O.taken out.new) (O.faults out.new) result }
    ensures empty { OnErr result (reply.new ≡ []) }
    ensures sink { O.alike out.old out.new }
{
    let mut before: &[u8] = b"(";
    for item in items {
        match push_item(before, range, *item, shelf, reply, out) {
            Ok(()) => before = b" ",
            Err(fault) => return Err(fault),
        }
    }
    Ok(())
}

/// Appends an item and its value after other bytes.
fn push_item<'a, S: Shelf, O: Sink>(
    before: &'a [u8],
    range: MailboxRange,
    item: StatusItem,
    shelf: &S,
    reply: &mut Waiting,
    out: &mut O,
) -> Result<(), SinkFault>
    requires ready { S.ready shelf.now ≡ true }
    requires order { range.first ≤ range.last + 1 }
    ensures said { (a : Archive) → S.holds shelf.now a → IsArchive a
        → Waits (before.now ++ status_words a range item) reply.old (O.taken out.old)
        (O.faults out.old) reply.new (O.taken out.new) (O.faults out.new) result }
    ensures empty { OnErr result (reply.new ≡ []) }
    ensures sink { O.alike out.old out.new }
{
    let phrases = [
        Phrase::Words(before),
        Phrase::Words(item_name(item)),
        Phrase::Number(item_value(item, range, shelf)),
    ];
    reply.push(&phrases, out)
}

/// Returns the name of an item, with a space after it.
fn item_name(item: StatusItem) -> &'static [u8]
    ensures { result.now ≡ status_name item }
{
    match item {
        StatusItem::Messages => b"MESSAGES ",
        StatusItem::Recent => b"RECENT ",
        StatusItem::UidNext => b"UIDNEXT ",
        StatusItem::UidValidity => b"UIDVALIDITY ",
        StatusItem::Unseen => b"UNSEEN ",
    }
}

/// Returns the value of an item.
fn item_value<S: Shelf>(item: StatusItem, range: MailboxRange, shelf: &S) -> u64
    requires ready { S.ready shelf.now ≡ true }
    requires order { range.first ≤ range.last + 1 }
    ensures { (a : Archive) → S.holds shelf.now a → IsArchive a
        → result ≡ status_value a range item }
{
    match item {
        StatusItem::Messages => box_count(range, shelf),
        StatusItem::Recent => 0,
        StatusItem::UidNext => uid_next(range, shelf),
        StatusItem::UidValidity => u64::from(shelf.config().born),
        StatusItem::Unseen => box_count(range, shelf),
    }
}
