//! Finds the article that a command is about.
//! Pure.
ghost use Rattle.std.specs.Prelude.{◌≡◌, true, IfOk, is_some};
ghost use Rattle.arch_model.specs.Archives.{Archive, live, text_of};
ghost use Rattle.nntp_reader.specs.Choices.{choice_of, current_of, numbered_of, identified_by, if_live as if_live_in, range_start as range_start_of, next_of, previous_of, number_or as number_or_of};
ghost use Rattle.nntp_reader.specs.Sessions.{article_of};

use crate::group::Group;
use crate::notice::Notice;
use crate::order::Named;
use arch_model::{Shelf, is_live};
use nntp_words::Range;
use shelf_doors::{live_after, live_before, live_within};

/// A message that a command is about.
#[derive(Clone, Copy, Debug, Drop)]
pub(crate) struct Chosen {
    /// Its number.
    pub(crate) number: u32,
    /// The number that is shown for it: 0 if it was named by its id.
    pub(crate) shown: u32,
    /// The group after the command.
    pub(crate) after: Group,
}

/// Returns the message that is named, or why there is none.
pub(crate) fn choose<S: Shelf>(
    group: Group,
    article: Named<'_>,
    shelf: &S,
) -> Result<Chosen, Notice>
    requires { S.ready shelf.now ≡ true }
    ensures value { (a : Archive) → S.holds shelf.now a
        → result ≡ choice_of a group (article_of article.entry) }
    ensures live { (a : Archive) → S.holds shelf.now a
        → IfOk result (λ c. is_some (text_of (live a.entries) c.number) ≡ true) }
{
    match article {
        Named::Current => current(group, shelf),
        Named::Number(number) => numbered(group, number, shelf),
        Named::Id(id) => identified(group, shelf.by_id(id), shelf),
    }
}

/// Returns the current message, or why there is none.
fn current<S: Shelf>(group: Group, shelf: &S) -> Result<Chosen, Notice>
    requires { S.ready shelf.now ≡ true }
    ensures value { (a : Archive) → S.holds shelf.now a → result ≡ current_of a group }
    ensures live { (a : Archive) → S.holds shelf.now a
        → IfOk result (λ c. is_some (text_of (live a.entries) c.number) ≡ true) }
{
    match group {
        Group::Unselected => Err(Notice::NoGroup),
        Group::Selected(None) => Err(Notice::NoCurrent),
        Group::Selected(Some(n)) => {
            if_live(n, n, Group::Selected(Some(n)), Notice::NoCurrent, shelf)
        }
    }
}

/// Returns the message with a number, or why there is none.
fn numbered<S: Shelf>(group: Group, n: u32, shelf: &S) -> Result<Chosen, Notice>
    requires { S.ready shelf.now ≡ true }
    ensures value { (a : Archive) → S.holds shelf.now a → result ≡ numbered_of a group n }
    ensures live { (a : Archive) → S.holds shelf.now a
        → IfOk result (λ c. is_some (text_of (live a.entries) c.number) ≡ true) }
{
    match group {
        Group::Unselected => Err(Notice::NoGroup),
        Group::Selected(_) => if_live(n, n, Group::Selected(Some(n)), Notice::NoNumber, shelf),
    }
}

/// Returns the message with the number that an id has, or why there is none.
fn identified<S: Shelf>(group: Group, number: Option<u32>, shelf: &S) -> Result<Chosen, Notice>
    requires { S.ready shelf.now ≡ true }
    ensures value { (a : Archive) → S.holds shelf.now a → result ≡ identified_by a group number }
    ensures live { (a : Archive) → S.holds shelf.now a
        → IfOk result (λ c. is_some (text_of (live a.entries) c.number) ≡ true) }
{
    match number {
        None => Err(Notice::NoArticle),
        Some(number) => if_live(number, 0, group, Notice::NoArticle, shelf),
    }
}

/// Returns the message with a number if it is live, and else the refusal.
fn if_live<S: Shelf>(
    number: u32,
    shown: u32,
    after: Group,
    refusal: Notice,
    shelf: &S,
) -> Result<Chosen, Notice>
    requires { S.ready shelf.now ≡ true }
    ensures value { (a : Archive) → S.holds shelf.now a
        → result ≡ if_live_in a number shown after refusal }
    ensures live { (a : Archive) → S.holds shelf.now a
        → IfOk result (λ c. is_some (text_of (live a.entries) c.number) ≡ true) }
{
    if !is_live(number, shelf) {
        return Err(refusal);
    }
    Ok(Chosen {
        number,
        shown,
        after,
    })
}

/// Returns the least live number of a range, or why a command on the range has none.
pub(crate) fn range_start<S: Shelf>(group: Group, range: Range, shelf: &S) -> Result<u32, Notice>
    requires { S.ready shelf.now ≡ true }
    ensures { (a : Archive) → S.holds shelf.now a → result ≡ range_start_of a group range }
{
    match group {
        Group::Unselected => Err(Notice::NoGroup),
        Group::Selected(_) => {
            number_or(
                live_within(range.first, range.last, shelf),
                Notice::NoNumber,
            )
        }
    }
}

/// Returns the next live number after the current one, or why there is none.
pub(crate) fn next<S: Shelf>(group: Group, shelf: &S) -> Result<u32, Notice>
    requires { S.ready shelf.now ≡ true }
    ensures { (a : Archive) → S.holds shelf.now a → result ≡ next_of a group }
{
    match group {
        Group::Unselected => Err(Notice::NoGroup),
        Group::Selected(None) => Err(Notice::NoCurrent),
        Group::Selected(Some(n)) => number_or(live_after(n, u32::MAX, shelf), Notice::NoNext),
    }
}

/// Returns the last live number before the current one, or why there is none.
pub(crate) fn previous<S: Shelf>(group: Group, shelf: &S) -> Result<u32, Notice>
    requires { S.ready shelf.now ≡ true }
    ensures { (a : Archive) → S.holds shelf.now a → result ≡ previous_of a group }
{
    match group {
        Group::Unselected => Err(Notice::NoGroup),
        Group::Selected(None) => Err(Notice::NoCurrent),
        Group::Selected(Some(n)) => number_or(live_before(n, shelf), Notice::NoPrevious),
    }
}

/// Returns the number if there is one, and else the refusal.
fn number_or(number: Option<u32>, refusal: Notice) -> Result<u32, Notice>
    ensures { result ≡ number_or_of number refusal }
{
    match number {
        None => Err(refusal),
        Some(number) => Ok(number),
    }
}
