//! The words that a query asks, as the index has them.
//! Allocates.
ghost use Rattle.std.specs.Prelude.{◌≡◌, ◌&&◌, IfOk, OnOk};
ghost use Rattle.std.specs.List.{list_all};
ghost use Rattle.query_lang.specs.Matching.{has_in, matches, in_ranges};
ghost use Rattle.word_index.specs.declared.rows.KeptRow.{KeptRow};
ghost use Rattle.word_index.specs.Kept.{IsHeld, shown};
ghost use Rattle.word_index.specs.Asked.{has_asked};

use crate::vocabulary::Vocabulary;
use arch_base::{Bytes, NoMemory};
use query_lang::{Field, Query};
use std::alloc::Global;

/// A word that is asked, and where.
#[derive(Drop)]
pub struct Asked {
    pub field: Field,
    /// The number of the word. Without one no row has it.
    pub word: Option<u32>,
}

/// Returns all words that a query asks.
pub fn asked_by(alloc: Global, held: &Vocabulary, query: &Query) -> Result<Vec<Asked>, NoMemory>
    ensures { IfOk result (λ asked. (row : KeptRow) → IsHeld held.now row
        → matches query.now (shown held.now row).words row.day
        ≡ (list_all (has_asked row) asked.items && in_ranges query.now.days row.day)) }
{
    let mut asked = Vec::new(alloc);
    push_asked(held, Field::Any, query.any.as_slice(), &mut asked)?;
    push_asked(held, Field::Subject, query.subject.as_slice(), &mut asked)?;
    push_asked(held, Field::From, query.from.as_slice(), &mut asked)?;
    push_asked(held, Field::Body, query.body.as_slice(), &mut asked)?;
    Ok(asked)
}

/// Appends words that are asked in one way. `NoMemory` may leave some of them appended.
fn push_asked(
    held: &Vocabulary,
    field: Field,
    words: &[Bytes],
    into: &mut Vec<Asked>,
) -> Result<(), NoMemory>
    ensures { OnOk result ((row : KeptRow) → IsHeld held.now row
        → list_all (has_asked row) into.new.items ≡ (list_all (has_asked row) into.old.items
        && list_all (has_in field (shown held.now row).words) words.now)) }
{
    for word in words {
        let word = held.number_of(word.as_slice());
        into.push(Asked { field, word })?;
    }
    Ok(())
}
