//! The laws of commands, of archives that follow one another, and of epochs that grow.
//! Pure.
//!
//! They hold for every archive, message and moment.
ghost use Rattle.arch_model.specs.Epochs.{EpochGrows};
ghost use Rattle.arch_model.specs.Following.{FollowsItself, FollowsThrough, FollowsWithEntry, FollowsWithDeletion, FollowsWithoutText, NumbersStay, ShownStay};
ghost use Rattle.arch_model.specs.Laws.{CommandFollows, EditsWhole, FirstDecides, KeepsNumbers, KeepsValid, ReindexStays, StaysNumbered, ShowsDelivered, TakenAreStorage, TakesFromView};

use mail_reader::{field_in_front, forms_are_short, id_line_is_kept, stored_once};

/// Shows that a delivery leaves each live number with its text, and that a removal leaves each other
/// number as it was.
pub fn numbers_keep_their_texts()
    ensures delivered { KeepsNumbers }
    ensures removed { TakesFromView }
{}

/// Shows that after a command on a valid archive each live number is below the next number.
pub fn numbers_stay_below_the_next()
    ensures { StaysNumbered }
{}

/// Shows that an edit is the delivery on the archive without a text, and that one that is refused
/// leaves the archive unchanged.
pub fn edits_are_whole()
    ensures { EditsWhole }
{}

/// Shows that the number of an accepted message has the text that the candidates for its id decided
/// on.
pub fn delivered_is_shown()
    ensures { ShowsDelivered }
{}

/// Shows that the first candidate id that isn't skipped decides, and that there is always one.
///
/// Fewer than 2^63 live messages leave a made id free.
pub fn first_candidate_decides()
    ensures { FirstDecides }
{}

/// Shows that no number of an archive ever names a second message.
///
/// An archive with one more message follows, so does one with one more deletion, and so does one
/// without the entries of a text. What follows has under an old number the same text, or none,
/// and shows the same text, or none.
#[tactic(auto, using(crate::proofs::Following::follows_itself, crate::proofs::Following::follows_through))]
pub fn law_of_numbers()
    ensures itself { FollowsItself }
    ensures through { FollowsThrough }
    ensures with_entry { FollowsWithEntry }
    ensures with_deletion { FollowsWithDeletion }
    ensures without_text { FollowsWithoutText }
    ensures stay { NumbersStay }
    ensures shown { ShownStay }
{}

/// Shows that a stored text with an own id is a storage text, and so is a stored text with a made
/// id at the front.
pub fn law_of_taken_texts()
    ensures { TakenAreStorage }
{
    stored_once();
    forms_are_short();
    field_in_front();
    id_line_is_kept();
}

/// Shows that a command up to the last moment leaves a valid archive valid, and that the archive
/// after any command follows the one before it.
#[tactic(auto, using(crate::proofs::Commands::command_follows))]
pub fn law_of_commands()
    ensures valid { KeepsValid }
    ensures follows { CommandFollows }
{
    law_of_taken_texts();
}

/// Shows that one more entry in an epoch appends its bytes, and leaves those before it unchanged.
pub fn epoch_grows()
    ensures { EpochGrows }
{}

/// Shows that with no command in doubt a keeper that rebuilds what it keeps beside the files stands
/// for the same archive after it.
///
/// So each answer after `Keep::reindex` is one that would be given without it.
pub fn reindex_keeps_the_archive()
    ensures { ReindexStays }
{}
