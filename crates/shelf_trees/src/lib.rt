//! The tree of the thread of a message, from a shelf.
//! Allocates.
#![tactic(auto)]

ghost use Rattle.std.specs.Prelude.{◌≡◌, true, OnOk, IfOk};
ghost use Rattle.arch_model.specs.Archives.{Archive, live};
ghost use Rattle.arch_model.specs.Listings.{row_in};
ghost use Rattle.shelf_trees.specs.Twigs.{twig_of, with_twig, with_row, thread_twigs};

use arch_base::NoMemory;
use arch_model::Shelf;
use mail_forms::Row;
use std::alloc::Global;
use thread_tree::Twigs;

/// Returns the messages in the thread of a live message, as those of a tree, by number. There are none
/// if the number is not live. Reads no text.
///
/// `NoMemory` if an allocation fails.
pub fn twigs_of<S: Shelf>(alloc: Global, n: u32, shelf: &S) -> Result<Twigs, NoMemory>
    requires { S.ready shelf.now ≡ true }
    ensures { (a : Archive) → S.holds shelf.now a
        → IfOk result (λ twigs. twigs ≡ thread_twigs (live a.entries) n) }
{
    let members = shelf.thread_of(n)?;
    let numbers = members.as_slice();
    let mut twigs = Twigs::new(alloc);
    for number in numbers {
        add_number(*number, shelf, &mut twigs)?;
    }
    Ok(twigs)
}

/// Adds the message of a number, if it is live, unless one with its id is there.
fn add_number<S: Shelf>(n: u32, shelf: &S, twigs: &mut Twigs) -> Result<(), NoMemory>
    requires { S.ready shelf.now ≡ true }
    ensures { (a : Archive) → S.holds shelf.now a
        → OnOk result (twigs.new ≡ with_row twigs.old (row_in a.config.form (live a.entries) n)) }
{
    match shelf.row(n) {
        Some(row) => add_twig(row, twigs),
        None => Ok(()),
    }
}

/// Adds the message of a row, unless one with its id is there.
fn add_twig(row: &Row, twigs: &mut Twigs) -> Result<(), NoMemory>
    ensures { OnOk result (twigs.new ≡ with_twig twigs.old (twig_of row.now)) }
{
    if twigs.contains(row.id.as_slice()) {
        return Ok(());
    }
    twigs.add(row.number, row.id.as_slice(), &row.refs, row.date.secs)
}
