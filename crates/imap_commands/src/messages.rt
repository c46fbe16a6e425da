//! Answers FETCH and SEARCH in each state.
//! Reads the disk.
ghost use Rattle.std.specs.Prelude.{◌≡◌, true};
ghost use Rattle.arch_model.specs.Archives.{Archive};
ghost use Rattle.arch_model.specs.Next.{continues};
ghost use Rattle.arch_model.specs.OverShelf.{ShelfKept};
ghost use Rattle.arch_model.specs.Shelves.{ReadsIn};
ghost use Rattle.line_door.specs.Acts.{Acts, held_if, at_sink};
ghost use Rattle.imap_messages.specs.Fetching.{asked_fetch};
ghost use Rattle.imap_messages.specs.Seeking.{asked_search};
ghost use Rattle.imap_commands.specs.Replies.{fetch_at, search_at};
ghost use Rattle.imap_commands.specs.Texts.{fetch_texts_at, search_texts_at};

use arch_model::{Next, Shelf};
use edge_io::Sink;
use imap_messages::{FetchCommand, SearchCommand, say_fetch, say_search};
use imap_states::{ImapPlace, ImapState, say_bad};
use std::alloc::Global;

/// Says what a FETCH names, or that it isn't for this state. Returns whether the session continues.
pub(crate) fn say_fetched<S: Shelf, O: Sink>(
    command: &FetchCommand<'_>,
    alloc: Global,
    state: &ImapState,
    shelf: &mut S,
    out: &mut O,
) -> Next
    requires { S.ready shelf.old ≡ true }
    ensures acts { (a : Archive) → S.holds shelf.old a
        → Acts (fetch_at a state.now (asked_fetch command.now) state.now.place)
        (at_sink O.Sink out.old (S.faults shelf.old)) (held_if (continues result) state.now) a
        (at_sink O.Sink out.new (S.faults shelf.new)) }
    ensures unused { (a : Archive) → S.holds shelf.old a
        → fetch_texts_at a (asked_fetch command.now) state.now.place ≡ 0
        → S.faults shelf.new ≡ S.faults shelf.old }
    ensures shelf { ShelfKept S.Shelf shelf.old shelf.new }
    ensures reads { ReadsIn S.holds
        (λ a. fetch_texts_at a (asked_fetch command.now) state.now.place)
        shelf.old (S.reads shelf.old) (S.reads shelf.new) }
    ensures sink { O.alike out.old out.new }
{
    match &state.place {
        ImapPlace::LoggedOut => Next::after(say_bad(command.tag, out)),
        ImapPlace::LoggedIn => Next::after(say_bad(command.tag, out)),
        ImapPlace::Selected(told) => say_fetch(command, told, alloc, shelf, out),
    }
}

/// Says what a SEARCH finds, or that it isn't for this state. Returns whether the session continues.
pub(crate) fn say_sought<S: Shelf, O: Sink>(
    command: &SearchCommand<'_>,
    alloc: Global,
    state: &ImapState,
    shelf: &mut S,
    out: &mut O,
) -> Next
    requires { S.ready shelf.old ≡ true }
    ensures acts { (a : Archive) → S.holds shelf.old a
        → Acts (search_at a state.now (asked_search command.now) state.now.place)
        (at_sink O.Sink out.old (S.faults shelf.old)) (held_if (continues result) state.now) a
        (at_sink O.Sink out.new (S.faults shelf.new)) }
    ensures unused { (a : Archive) → S.holds shelf.old a
        → search_texts_at a (asked_search command.now) state.now.place ≡ 0
        → S.faults shelf.new ≡ S.faults shelf.old }
    ensures shelf { ShelfKept S.Shelf shelf.old shelf.new }
    ensures reads { ReadsIn S.holds
        (λ a. search_texts_at a (asked_search command.now) state.now.place)
        shelf.old (S.reads shelf.old) (S.reads shelf.new) }
    ensures sink { O.alike out.old out.new }
{
    match &state.place {
        ImapPlace::LoggedOut => Next::after(say_bad(command.tag, out)),
        ImapPlace::LoggedIn => Next::after(say_bad(command.tag, out)),
        ImapPlace::Selected(told) => say_search(command, told, alloc, shelf, out),
    }
}
