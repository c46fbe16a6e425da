//! Messages whose ids in another form are equal, though their texts differ.
//! Allocates.
ghost use Rattle.std.specs.Prelude.{◌≡◌, ◌++◌, [], ◌∷◌, length, IfOk, OnOk};
ghost use Rattle.arch_base.specs.declared.ids.Form.{Form};
ghost use Rattle.arch_model.specs.Archives.{Archive};
ghost use Rattle.arch_model.specs.Validity.{IsArchive};
ghost use Rattle.store_finding.specs.Kept.{stored_after};
ghost use Rattle.convert_planning.specs.Collisions.{NoneCollides, collision_of};
ghost use Rattle.convert_planning.specs.ConvertSteps.{two_ids};

use arch_base::{NoMemory, Sequence};
use git_objects::EntryKind;
use id_clashes::{TwoIds, first_clash, law_of_clashes};
use std::alloc::Global;
use store_finding::StoredEntry;

/// Returns the numbers of the messages, and the ids of their texts in two forms.
///
/// `old` and `new` are what is kept of the same entries in these forms.
fn ids_of(
    alloc: Global,
    old: &[StoredEntry],
    new: &[StoredEntry],
) -> Result<Sequence<TwoIds>, NoMemory>
    requires { length old.now ≡ length new.now }
    ensures { IfOk result (λ ids. ids ≡ two_ids old.now new.now) }
{
    let mut ids = Sequence::new(alloc);
    for index in 0..old.len() {
        push_ids(&mut ids, &old[index], &new[index])?;
    }
    Ok(ids)
}

/// Appends the number and the ids of an entry, if it is a message.
fn push_ids(
    ids: &mut Sequence<TwoIds>,
    old: &StoredEntry,
    new: &StoredEntry,
) -> Result<(), NoMemory>
    ensures { OnOk result (ids.new ≡ ids.old ++ two_ids (old.now ∷ []) (new.now ∷ [])) }
{
    match old.seen.kind {
        EntryKind::Deletion => Ok(()),
        EntryKind::Message => ids.push(TwoIds {
            number: old.number,
            old: old.seen.blob,
            new: new.seen.blob,
        }),
    }
}

/// Returns the least number of a message whose id in a new form an earlier message with another text
/// has. `old` and `new` are what is kept of the entries of an archive in its form and in the new one.
///
/// `NoMemory` if an allocation fails.
pub fn collision(
    alloc: Global,
    old: &[StoredEntry],
    new: &[StoredEntry],
) -> Result<Option<u32>, NoMemory>
    requires { length old.now ≡ length new.now }
    ensures { (a : Archive) (form : Form) → IsArchive a
        → old.now ≡ stored_after a.config.form [] a.entries → new.now ≡ stored_after form [] a.entries
        → IfOk result (λ number. number ≡ collision_of form a) }
{
    let ids = ids_of(alloc, old, new)?;
    first_clash(alloc, ids.as_slice())
}

/// Shows that no message of an archive collides in a form exactly where each blob id of that form has
/// one text, so that the archive converted to the form is valid.
pub fn law_of_collisions()
    ensures { NoneCollides }
{
    law_of_clashes();
}
