//! The laws of archives in another form.
//! Pure.
ghost use Rattle.convert_planning.specs.Laws.{ConversionFollows, ConversionValid};

use crate::clashing::law_of_collisions;

/// Shows what an archive with objects of another form is to the one before.
///
/// * `follows`: it follows it, so that no number names a second message.
/// * `valid`: it is valid if no messages collide in that form.
pub fn law_of_conversions()
    ensures follows { ConversionFollows }
    ensures valid { ConversionValid }
{
    law_of_collisions();
}
