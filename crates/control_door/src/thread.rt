//! The words of the tree of a thread.
//! Allocates.
ghost use Rattle.std.specs.Prelude.{◌≡◌, ◌++◌, ◌∷◌, true, length, codes, decimal, IfOk, OnOk, option_copied};
ghost use Rattle.answer_lines.specs.Lines.{whole_line};
ghost use Rattle.arch_model.specs.Archives.{Archive, live};
ghost use Rattle.control_door.specs.Threads.{id_of, who_words, node_words, nodes_words, tree_words};
ghost use Rattle.shelf_trees.specs.Twigs.{thread_twigs};
ghost use Rattle.thread_tree.specs.Laid.{tree_lines};

use arch_base::{Bytes, NoMemory};
use arch_model::{Row, Shelf};
use itoa::Buffer;
use shelf_trees::twigs_of;
use std::alloc::Global;
use thread_tree::{Line, Who};

/// Returns the words of the tree of a number's thread: a line with the number of nodes, and then a line
/// for each node.
///
/// The words are made whole before any of them is written.
pub(crate) fn thread_words<S: Shelf>(
    alloc: Global,
    number: u32,
    shelf: &S,
) -> Result<Bytes, NoMemory>
    requires { S.ready shelf.now ≡ true }
    ensures { (a : Archive) → S.holds shelf.now a → IfOk result (λ words.
        words ≡ tree_words (live a.entries) (tree_lines (thread_twigs (live a.entries) number))) }
{
    let twigs = twigs_of(alloc, number, shelf)?;
    let lines = twigs.tree()?;
    let mut words = Bytes::new(alloc);
    push_count(lines.as_slice().len(), &mut words)?;
    push_nodes(lines.as_slice(), shelf, &mut words)?;
    Ok(words)
}

/// Appends the line with the number of nodes.
fn push_count(count: usize, into: &mut Bytes) -> Result<(), NoMemory>
    ensures { OnOk result (into.new ≡ into.old ++ whole_line (codes "thread " ++ decimal count)) }
{
    let mut buffer = Buffer::new();
    into.push_slice(b"thread ")?;
    into.push_slice(buffer.format(count).as_bytes())?;
    into.push_slice(b"\n")
}

/// Appends a line for each node.
fn push_nodes<S: Shelf>(lines: &[Line], shelf: &S, into: &mut Bytes) -> Result<(), NoMemory>
    requires { S.ready shelf.now ≡ true }
    ensures { (a : Archive) → S.holds shelf.now a
        → OnOk result (into.new ≡ into.old ++ nodes_words (live a.entries) lines.now) }
{
    for line in lines {
        push_node(line, shelf, into)?;
    }
    Ok(())
}

/// Appends the line of a node: its depth, its number or a dash, and its id.
fn push_node<S: Shelf>(line: &Line, shelf: &S, into: &mut Bytes) -> Result<(), NoMemory>
    requires { S.ready shelf.now ≡ true }
    ensures { (a : Archive) → S.holds shelf.now a
        → OnOk result (into.new ≡ into.old ++ node_words (live a.entries) line.now) }
{
    let mut buffer = Buffer::new();
    into.push_slice(buffer.format(line.depth).as_bytes())?;
    into.push_slice(b" ")?;
    push_who(&line.who, shelf, into)?;
    into.push_slice(b"\n")
}

/// Appends who a node is: a message by its number and its id, or a dash and the id of a ghost.
fn push_who<S: Shelf>(who: &Who, shelf: &S, into: &mut Bytes) -> Result<(), NoMemory>
    requires { S.ready shelf.now ≡ true }
    ensures { (a : Archive) → S.holds shelf.now a
        → OnOk result (into.new ≡ into.old ++ who_words (live a.entries) who.now) }
{
    match who {
        Who::Live(number) => push_live(*number, shelf.row(*number), into),
        Who::Ghost(id) => push_ghost(id.as_slice(), into),
    }
}

/// Appends the number of a message and the id in its row.
fn push_live(number: u32, row: Option<&Row>, into: &mut Bytes) -> Result<(), NoMemory>
    ensures { OnOk result (into.new
        ≡ into.old ++ (decimal number ++ 32 ∷ id_of (option_copied row.entry))) }
{
    let mut buffer = Buffer::new();
    into.push_slice(buffer.format(number).as_bytes())?;
    into.push_slice(b" ")?;
    match row {
        Some(row) => into.push_slice(row.id.as_slice()),
        // Each message of a tree has a row.
        None => Ok(()),
    }
}

/// Appends a dash and the id of a ghost.
fn push_ghost(id: &[u8], into: &mut Bytes) -> Result<(), NoMemory>
    ensures { OnOk result (into.new ≡ into.old ++ (codes "- " ++ id.now)) }
{
    into.push_slice(b"- ")?;
    into.push_slice(id)
}
