//! Commands as they were read, over the bytes of their line.
//! Pure.
use crate::verb::{Listing, Part};
use nntp_words::Range;

/// An article that a command names.
#[derive(Clone, Copy, Debug, Drop)]
pub(crate) enum Named<'a> {
    /// The current one.
    Current,
    /// The one with this number.
    Number(u32),
    /// The one with this id, in its brackets.
    Id(&'a [u8]),
}

/// Articles that a command names.
#[derive(Clone, Copy, Debug, Drop)]
pub(crate) enum Span<'a> {
    /// One article.
    Single(Named<'a>),
    /// Those with numbers in this range.
    Within(Range),
}

/// What HDR gives of an article.
#[derive(Clone, Copy, Debug, Drop)]
pub(crate) enum Asked<'a> {
    /// The length of its wire form, in bytes.
    Bytes,
    /// The number of line feeds in its body.
    Lines,
    /// The value of its first field with this name.
    Field(&'a [u8]),
}

/// A command.
#[derive(Clone, Copy, Debug, Drop)]
pub(crate) enum Order<'a> {
    /// Says what the door can do.
    Capabilities,
    /// Asks for the commands of a reader.
    ModeReader,
    /// Says the moment.
    Date,
    /// Says where the commands are described.
    Help,
    /// Ends the connection.
    Quit,
    /// Would post an article.
    Post,
    /// Selects the next article.
    Next,
    /// Selects the previous article.
    Last,
    /// Selects the group with this name.
    Group(&'a [u8]),
    /// Lists the numbers in a range of the selected group.
    ListSelected(Range),
    /// Selects the group with this name, and lists its numbers in a range.
    ListGroup(&'a [u8], Range),
    /// Gives a part of an article.
    Read(Part, Named<'a>),
    /// Gives the number and the id of an article.
    Stat(Named<'a>),
    /// Gives overview lines of articles.
    Over(Span<'a>),
    /// Gives a value of articles.
    Header(Asked<'a>, Span<'a>),
    /// Gives a list.
    List(Listing),
    /// Gives a list of the groups that a wildmat matches.
    ListMatching(Listing, &'a [u8]),
    /// Lists groups that were created at this moment or later, in seconds since 1970 UTC.
    NewGroups(u64),
    /// Lists the ids of articles that arrived at this moment or later in groups that a wildmat
    /// matches.
    NewNews(&'a [u8], u64),
    /// A known command with wrong arguments.
    Mistaken,
    /// An unknown command.
    Unknown,
}
