//! The first of some texts whose id in a new form an earlier one has.
//! Allocates.
ghost use Rattle.std.specs.Prelude.{◌≡◌, [], false, Some, IfOk, if◌then◌else◌};
ghost use Rattle.arch_base.specs.Ids.{id_eq};
ghost use Rattle.arch_base.specs.declared.ids.ObjectId.{ObjectId};
ghost use Rattle.id_clashes.specs.Clashes.{NoClashAgrees, first_clash_of};
ghost use Rattle.id_clashes.specs.SeenIds.{differs_from, old_in};

use arch_base::{NoMemory, ObjectId};
use std::alloc::Global;
use std::collections::BTreeMap;

/// A number, and the ids of its text in two forms.
#[derive(Clone, Copy, Debug, Drop)]
pub struct TwoIds {
    /// The number.
    pub number: u32,
    /// The id in the old form. Texts with one such id are equal.
    pub old: ObjectId,
    /// The id in the new form.
    pub new: ObjectId,
}

/// Takes one more text, and returns whether an earlier one has its new id and another old one.
///
/// `NoMemory` leaves the map as it was.
fn take(seen: &mut BTreeMap<ObjectId, ObjectId>, text: &TwoIds) -> Result<bool, NoMemory>
    ensures clash { IfOk result (λ clash. clash
        ≡ differs_from (old_in seen.old text.now.new) text.now.old) }
    ensures kept { IfOk result (λ clash. clash ≡ false → (q : ObjectId) → old_in seen.new q
        ≡ (if id_eq q text.now.new then Some text.now.old else old_in seen.old q)) }
{
    match seen.get(&text.new) {
        Some(old) => Ok(*old != text.old),
        None => {
            seen.insert(text.new, text.old)?;
            Ok(false)
        }
    }
}

/// Returns the number of the first text whose new id an earlier one with another old id has.
///
/// `NoMemory` if an allocation fails.
pub fn first_clash(alloc: Global, texts: &[TwoIds]) -> Result<Option<u32>, NoMemory>
    ensures { IfOk result (λ found. found ≡ first_clash_of [] texts.now) }
{
    let mut seen = BTreeMap::new(alloc);
    for text in texts {
        if take(&mut seen, text)? {
            return Ok(Some(text.number));
        }
    }
    Ok(None)
}

/// Shows that no text clashes exactly where texts with one new id have one old id.
#[tactic(auto, using(crate::proofs::Laws::none_agrees))]
pub fn law_of_clashes()
    ensures { NoClashAgrees }
{}
