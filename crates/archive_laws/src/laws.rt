//! The laws of commands.
//! Pure.
ghost use Rattle.archive_laws.specs.Purges.{DropsOneText};
ghost use Rattle.archive_laws.specs.Edits.{ExchangesOneText};
ghost use Rattle.archive_laws.specs.Followers.{FollowsByNumbers};

use arch_model::{delivered_is_shown, edits_are_whole, law_of_numbers};

/// Shows that a purge that is accepted, on a valid archive, drops one text and nothing else.
///
/// No entry with the text is left. Each entry with another text is left as it was, in its place in the
/// order, and none is new. No number is shown with the text any more, each message with another text
/// is shown under its number as before, and none is shown that was not. No number is given back, and
/// the settings stay.
pub fn purge_drops_one_text()
    ensures { DropsOneText }
{
    law_of_numbers();
}

/// Shows that an edit that is accepted, on a valid archive, exchanges one text for a message.
///
/// The message has the next number, and is shown as a delivery on the archive without the text keeps
/// it. No other number is shown with the text any more, and each message with another text is shown
/// under its number as before.
pub fn edit_exchanges_one_text()
    ensures { ExchangesOneText }
{
    delivered_is_shown();
    edits_are_whole();
}

/// Shows which archives follow another one, by their entries alone.
///
/// Their next number isn't less, and each message with a number that the other archive has given is a
/// message there with the same text. So a number never names a second message, and one that is no
/// longer given isn't given again.
#[tactic(auto, using(crate::proofs::Followed::follows_by_numbers))]
pub fn kept_numbers_follow()
    ensures { FollowsByNumbers }
{}
