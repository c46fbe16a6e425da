//! The keywords of commands.
//! Pure.
ghost use Rattle.std.specs.Prelude.{◌≡◌};
ghost use Rattle.nntp_reader.specs.Commands.{reading_verb as reading_verb_of, group_verb as group_verb_of, session_verb as session_verb_of, verb_of, listing_named};

use crate::words::is_keyword;

/// What a command gives of an article.
#[derive(Clone, Copy, Debug, PartialEq, Eq, Drop)]
pub(crate) enum Part {
    /// Its number and id, and its whole text.
    Article,
    /// Its number and id, and its header.
    Head,
    /// Its number and id, and its body.
    Body,
}

/// What LIST lists.
#[derive(Clone, Copy, Debug, PartialEq, Eq, Drop)]
pub(crate) enum Listing {
    /// The groups, and the numbers of their articles.
    Active,
    /// The groups, and when they were created.
    ActiveTimes,
    /// The groups, and what they are for.
    Newsgroups,
    /// The fields of an overview line.
    OverviewFormat,
    /// What HDR takes.
    Headers,
}

/// What a command does, by its first word.
#[derive(Clone, Copy, Debug, PartialEq, Eq, Drop)]
pub(crate) enum Verb {
    /// `CAPABILITIES`.
    Capabilities,
    /// `MODE`.
    Mode,
    /// `DATE`.
    Date,
    /// `HELP`.
    Help,
    /// `QUIT`.
    Quit,
    /// `POST`.
    Post,
    /// `NEXT`.
    Next,
    /// `LAST`.
    Last,
    /// `GROUP`.
    Group,
    /// `LISTGROUP`.
    ListGroup,
    /// `ARTICLE`, `HEAD` or `BODY`.
    Read(Part),
    /// `STAT`.
    Stat,
    /// `OVER` or `XOVER`.
    Over,
    /// `HDR`.
    Header,
    /// `LIST`.
    List,
    /// `NEWGROUPS`.
    NewGroups,
    /// `NEWNEWS`.
    NewNews,
}

/// Returns the verb that a word spells, in any case.
pub(crate) fn read_verb(word: &[u8]) -> Option<Verb>
    ensures { result ≡ verb_of word.now }
{
    match reading_verb(word) {
        Some(verb) => Some(verb),
        None => match group_verb(word) {
            Some(verb) => Some(verb),
            None => session_verb(word),
        },
    }
}

/// Returns the verb of a command that reads articles.
fn reading_verb(word: &[u8]) -> Option<Verb>
    ensures { result ≡ reading_verb_of word.now }
{
    if is_keyword(b"ARTICLE", word) {
        Some(Verb::Read(Part::Article))
    } else if is_keyword(b"HEAD", word) {
        Some(Verb::Read(Part::Head))
    } else if is_keyword(b"BODY", word) {
        Some(Verb::Read(Part::Body))
    } else if is_keyword(b"STAT", word) {
        Some(Verb::Stat)
    } else if is_keyword(b"OVER", word) {
        Some(Verb::Over)
    } else if is_keyword(b"XOVER", word) {
        Some(Verb::Over)
    } else if is_keyword(b"HDR", word) {
        Some(Verb::Header)
    } else {
        None
    }
}

/// Returns the verb of a command on groups.
fn group_verb(word: &[u8]) -> Option<Verb>
    ensures { result ≡ group_verb_of word.now }
{
    if is_keyword(b"GROUP", word) {
        Some(Verb::Group)
    } else if is_keyword(b"LISTGROUP", word) {
        Some(Verb::ListGroup)
    } else if is_keyword(b"NEXT", word) {
        Some(Verb::Next)
    } else if is_keyword(b"LAST", word) {
        Some(Verb::Last)
    } else if is_keyword(b"LIST", word) {
        Some(Verb::List)
    } else if is_keyword(b"NEWGROUPS", word) {
        Some(Verb::NewGroups)
    } else if is_keyword(b"NEWNEWS", word) {
        Some(Verb::NewNews)
    } else {
        None
    }
}

/// Returns the verb of a command on the session.
fn session_verb(word: &[u8]) -> Option<Verb>
    ensures { result ≡ session_verb_of word.now }
{
    if is_keyword(b"CAPABILITIES", word) {
        Some(Verb::Capabilities)
    } else if is_keyword(b"MODE", word) {
        Some(Verb::Mode)
    } else if is_keyword(b"DATE", word) {
        Some(Verb::Date)
    } else if is_keyword(b"HELP", word) {
        Some(Verb::Help)
    } else if is_keyword(b"QUIT", word) {
        Some(Verb::Quit)
    } else if is_keyword(b"POST", word) {
        Some(Verb::Post)
    } else {
        None
    }
}

/// Returns what LIST lists by a keyword, in any case.
pub(crate) fn read_listing(word: &[u8]) -> Option<Listing>
    ensures { result ≡ listing_named word.now }
{
    if is_keyword(b"ACTIVE", word) {
        Some(Listing::Active)
    } else if is_keyword(b"ACTIVE.TIMES", word) {
        Some(Listing::ActiveTimes)
    } else if is_keyword(b"NEWSGROUPS", word) {
        Some(Listing::Newsgroups)
    } else if is_keyword(b"OVERVIEW.FMT", word) {
        Some(Listing::OverviewFormat)
    } else if is_keyword(b"HEADERS", word) {
        Some(Listing::Headers)
    } else {
        None
    }
}
