//! The keywords of search keys (RFC 3501, section 9, search-key).
//! Pure.
ghost use Rattle.std.specs.Prelude.{◌≡◌};
ghost use Rattle.imap_syntax.specs.Keys.{having_key_of, lacking_key_of, plain_key_of, text_key_of, day_key_of, other_key_of, key_name_of};
ghost use Rattle.imap_syntax.specs.Trees.{tree_of, Single, Plain, Text as TextTest, Flag as FlagTest, Day as DayTest, Size as SizeTest};

use crate::keys::{Date, Key};
use arch_base::Bytes;
use imap_words::is_keyword;

/// A key without arguments.
#[derive(Clone, Copy)]
pub enum PlainKey {
    /// `ALL`
    All,
    /// `ANSWERED`
    Answered,
    /// `DELETED`
    Deleted,
    /// `DRAFT`
    Draft,
    /// `FLAGGED`
    Flagged,
    /// `NEW`
    New,
    /// `RECENT`
    Recent,
    /// `SEEN`
    Seen,
    /// `OLD`
    Old,
    /// `UNANSWERED`
    Unanswered,
    /// `UNDELETED`
    Undeleted,
    /// `UNDRAFT`
    Undraft,
    /// `UNFLAGGED`
    Unflagged,
    /// `UNSEEN`
    Unseen,
}

/// A key with a text.
#[derive(Clone, Copy)]
pub enum TextKey {
    /// `BCC`
    Bcc,
    /// `BODY`
    Body,
    /// `CC`
    Cc,
    /// `FROM`
    From,
    /// `SUBJECT`
    Subject,
    /// `TEXT`
    Text,
    /// `TO`
    To,
}

/// A key with a date.
#[derive(Clone, Copy)]
pub enum DayKey {
    /// `BEFORE`
    Before,
    /// `ON`
    On,
    /// `SINCE`
    Since,
    /// `SENTBEFORE`
    SentBefore,
    /// `SENTON`
    SentOn,
    /// `SENTSINCE`
    SentSince,
}

/// A key with a flag.
#[derive(Clone, Copy)]
pub enum FlagKey {
    /// `KEYWORD`
    Keyword,
    /// `UNKEYWORD`
    Unkeyword,
}

/// A key with a number of octets.
#[derive(Clone, Copy)]
pub enum SizeKey {
    /// `LARGER`
    Larger,
    /// `SMALLER`
    Smaller,
}

/// A key, by its keyword.
#[derive(Clone, Copy)]
pub(crate) enum KeyName {
    /// One without arguments.
    Plain(PlainKey),
    /// One with a text.
    Text(TextKey),
    /// `HEADER`
    Header,
    /// One with a flag.
    Flag(FlagKey),
    /// One with a date.
    Day(DayKey),
    /// One with a number of octets.
    Size(SizeKey),
    /// `UID`
    Uid,
    /// `NOT`
    Not,
    /// `OR`
    Or,
}

impl PlainKey {
    /// Returns the key.
    pub(crate) fn key(self) -> Key
        ensures { tree_of result ≡ Single (Plain self) }
    {
        match self {
            PlainKey::All => Key::All,
            PlainKey::Answered => Key::Answered,
            PlainKey::Deleted => Key::Deleted,
            PlainKey::Draft => Key::Draft,
            PlainKey::Flagged => Key::Flagged,
            PlainKey::New => Key::New,
            PlainKey::Recent => Key::Recent,
            PlainKey::Seen => Key::Seen,
            PlainKey::Old => Key::Old,
            PlainKey::Unanswered => Key::Unanswered,
            PlainKey::Undeleted => Key::Undeleted,
            PlainKey::Undraft => Key::Undraft,
            PlainKey::Unflagged => Key::Unflagged,
            PlainKey::Unseen => Key::Unseen,
        }
    }
}

impl TextKey {
    /// Returns the key with its text.
    pub(crate) fn key(self, text: Bytes) -> Key
        ensures { tree_of result ≡ Single (TextTest self text) }
    {
        match self {
            TextKey::Bcc => Key::Bcc(text),
            TextKey::Body => Key::Body(text),
            TextKey::Cc => Key::Cc(text),
            TextKey::From => Key::From(text),
            TextKey::Subject => Key::Subject(text),
            TextKey::Text => Key::Text(text),
            TextKey::To => Key::To(text),
        }
    }
}

impl DayKey {
    /// Returns the key with its date.
    pub(crate) fn key(self, date: Date) -> Key
        ensures { tree_of result ≡ Single (DayTest self date) }
    {
        match self {
            DayKey::Before => Key::Before(date),
            DayKey::On => Key::On(date),
            DayKey::Since => Key::Since(date),
            DayKey::SentBefore => Key::SentBefore(date),
            DayKey::SentOn => Key::SentOn(date),
            DayKey::SentSince => Key::SentSince(date),
        }
    }
}

impl FlagKey {
    /// Returns the key with its flag.
    pub(crate) fn key(self, flag: Bytes) -> Key
        ensures { tree_of result ≡ Single (FlagTest self flag) }
    {
        match self {
            FlagKey::Keyword => Key::Keyword(flag),
            FlagKey::Unkeyword => Key::Unkeyword(flag),
        }
    }
}

impl SizeKey {
    /// Returns the key with its number of octets.
    pub(crate) fn key(self, len: u32) -> Key
        ensures { tree_of result ≡ Single (SizeTest self len) }
    {
        match self {
            SizeKey::Larger => Key::Larger(len),
            SizeKey::Smaller => Key::Smaller(len),
        }
    }
}

/// Returns the key that a word names, in any case.
#[tactic(auto, unfolding(crate::specs::Keys::key_name_of))]
pub(crate) fn key_name(word: &[u8]) -> Option<KeyName>
    ensures { result ≡ key_name_of word.now }
{
    if let Some(key) = plain_key(word) {
        return Some(KeyName::Plain(key));
    }
    if let Some(key) = text_key(word) {
        return Some(KeyName::Text(key));
    }
    if let Some(key) = day_key(word) {
        return Some(KeyName::Day(key));
    }
    other_key(word)
}

/// Returns the key without arguments that a word names.
fn plain_key(word: &[u8]) -> Option<PlainKey>
    ensures { result ≡ plain_key_of word.now }
{
    match having_key(word) {
        Some(key) => Some(key),
        None => lacking_key(word),
    }
}

/// Returns the key without arguments that a word names, of those on what messages have.
fn having_key(word: &[u8]) -> Option<PlainKey>
    ensures { result ≡ having_key_of word.now }
{
    if is_keyword(b"ALL", word) {
        Some(PlainKey::All)
    } else if is_keyword(b"ANSWERED", word) {
        Some(PlainKey::Answered)
    } else if is_keyword(b"DELETED", word) {
        Some(PlainKey::Deleted)
    } else if is_keyword(b"DRAFT", word) {
        Some(PlainKey::Draft)
    } else if is_keyword(b"FLAGGED", word) {
        Some(PlainKey::Flagged)
    } else if is_keyword(b"NEW", word) {
        Some(PlainKey::New)
    } else if is_keyword(b"RECENT", word) {
        Some(PlainKey::Recent)
    } else if is_keyword(b"SEEN", word) {
        Some(PlainKey::Seen)
    } else {
        None
    }
}

/// Returns the key without arguments that a word names, of those on what messages lack.
fn lacking_key(word: &[u8]) -> Option<PlainKey>
    ensures { result ≡ lacking_key_of word.now }
{
    if is_keyword(b"OLD", word) {
        Some(PlainKey::Old)
    } else if is_keyword(b"UNANSWERED", word) {
        Some(PlainKey::Unanswered)
    } else if is_keyword(b"UNDELETED", word) {
        Some(PlainKey::Undeleted)
    } else if is_keyword(b"UNDRAFT", word) {
        Some(PlainKey::Undraft)
    } else if is_keyword(b"UNFLAGGED", word) {
        Some(PlainKey::Unflagged)
    } else if is_keyword(b"UNSEEN", word) {
        Some(PlainKey::Unseen)
    } else {
        None
    }
}

/// Returns the key with a text that a word names.
fn text_key(word: &[u8]) -> Option<TextKey>
    ensures { result ≡ text_key_of word.now }
{
    if is_keyword(b"BCC", word) {
        Some(TextKey::Bcc)
    } else if is_keyword(b"BODY", word) {
        Some(TextKey::Body)
    } else if is_keyword(b"CC", word) {
        Some(TextKey::Cc)
    } else if is_keyword(b"FROM", word) {
        Some(TextKey::From)
    } else if is_keyword(b"SUBJECT", word) {
        Some(TextKey::Subject)
    } else if is_keyword(b"TEXT", word) {
        Some(TextKey::Text)
    } else if is_keyword(b"TO", word) {
        Some(TextKey::To)
    } else {
        None
    }
}

/// Returns the key with a date that a word names.
fn day_key(word: &[u8]) -> Option<DayKey>
    ensures { result ≡ day_key_of word.now }
{
    if is_keyword(b"BEFORE", word) {
        Some(DayKey::Before)
    } else if is_keyword(b"ON", word) {
        Some(DayKey::On)
    } else if is_keyword(b"SINCE", word) {
        Some(DayKey::Since)
    } else if is_keyword(b"SENTBEFORE", word) {
        Some(DayKey::SentBefore)
    } else if is_keyword(b"SENTON", word) {
        Some(DayKey::SentOn)
    } else if is_keyword(b"SENTSINCE", word) {
        Some(DayKey::SentSince)
    } else {
        None
    }
}

/// Returns any other key that a word names.
fn other_key(word: &[u8]) -> Option<KeyName>
    ensures { result ≡ other_key_of word.now }
{
    if is_keyword(b"NOT", word) {
        Some(KeyName::Not)
    } else if is_keyword(b"OR", word) {
        Some(KeyName::Or)
    } else if is_keyword(b"UID", word) {
        Some(KeyName::Uid)
    } else if is_keyword(b"HEADER", word) {
        Some(KeyName::Header)
    } else if is_keyword(b"KEYWORD", word) {
        Some(KeyName::Flag(FlagKey::Keyword))
    } else if is_keyword(b"UNKEYWORD", word) {
        Some(KeyName::Flag(FlagKey::Unkeyword))
    } else if is_keyword(b"LARGER", word) {
        Some(KeyName::Size(SizeKey::Larger))
    } else if is_keyword(b"SMALLER", word) {
        Some(KeyName::Size(SizeKey::Smaller))
    } else {
        None
    }
}
