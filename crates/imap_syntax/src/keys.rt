//! Search keys (RFC 3501, sections 6.4.4 and 9, search-key).
//! Pure.
use crate::sets::SeqSet;
use arch_base::Bytes;

/// A day as it is written, which the calendar may not have.
#[derive(Debug, Clone, Copy, PartialEq, Eq)]
pub struct Date {
    /// The year, from 0 to 9999.
    pub year: u16,
    /// The month, from 1 to 12.
    pub month: u8,
    /// The day of the month, from 0 to 99.
    pub day: u8,
}

/// A search key.
#[derive(Debug, Drop)]
pub enum Key {
    /// `ALL`
    All,
    /// `ANSWERED`
    Answered,
    /// `DELETED`
    Deleted,
    /// `DRAFT`
    Draft,
    /// `FLAGGED`
    Flagged,
    /// `NEW`
    New,
    /// `OLD`
    Old,
    /// `RECENT`
    Recent,
    /// `SEEN`
    Seen,
    /// `UNANSWERED`
    Unanswered,
    /// `UNDELETED`
    Undeleted,
    /// `UNDRAFT`
    Undraft,
    /// `UNFLAGGED`
    Unflagged,
    /// `UNSEEN`
    Unseen,
    /// `BCC` and a text.
    Bcc(Bytes),
    /// `BODY` and a text.
    Body(Bytes),
    /// `CC` and a text.
    Cc(Bytes),
    /// `FROM` and a text.
    From(Bytes),
    /// `SUBJECT` and a text.
    Subject(Bytes),
    /// `TEXT` and a text.
    Text(Bytes),
    /// `TO` and a text.
    To(Bytes),
    /// `HEADER`, the name of a field, and a text.
    Header(Bytes, Bytes),
    /// `KEYWORD` and a flag.
    Keyword(Bytes),
    /// `UNKEYWORD` and a flag.
    Unkeyword(Bytes),
    /// `BEFORE` and a day.
    Before(Date),
    /// `ON` and a day.
    On(Date),
    /// `SINCE` and a day.
    Since(Date),
    /// `SENTBEFORE` and a day.
    SentBefore(Date),
    /// `SENTON` and a day.
    SentOn(Date),
    /// `SENTSINCE` and a day.
    SentSince(Date),
    /// `LARGER` and a number of octets.
    Larger(u32),
    /// `SMALLER` and a number of octets.
    Smaller(u32),
    /// `UID` and a set of UIDs.
    Uid(SeqSet),
    /// A set of sequence numbers.
    Numbers(SeqSet),
    /// `NOT` and a key.
    Not(Box<Key>),
    /// `OR` and two keys.
    Or(Box<Key>, Box<Key>),
    /// Keys in parentheses.
    Each(Vec<Key>),
}
