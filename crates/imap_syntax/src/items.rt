//! What FETCH asks for (RFC 3501, sections 6.4.5 and 9, fetch-att).
//! Pure.
use arch_base::{Sequence, Texts};

/// An item of a message.
#[derive(Debug, Drop)]
pub enum Item {
    /// `FLAGS`
    Flags,
    /// `UID`
    Uid,
    /// `RFC822.SIZE`
    Size,
    /// `INTERNALDATE`
    InternalDate,
    /// `ENVELOPE`
    Envelope,
    /// `BODY` without a section.
    Body,
    /// `BODYSTRUCTURE`
    BodyStructure,
    /// `RFC822`
    Rfc822,
    /// `RFC822.HEADER`
    Rfc822Header,
    /// `RFC822.TEXT`
    Rfc822Text,
    /// `BODY[..]` or `BODY.PEEK[..]`: a section, and the octets of it that are asked for.
    Section(Section, Option<Partial>),
}

/// A section of a message.
#[derive(Debug, Drop)]
pub struct Section {
    /// The numbers that lead to a part; none for the message itself.
    pub part: Sequence<u32>,
    /// What is asked for of the part.
    pub text: SectionText,
}

/// What of a part is asked for.
#[derive(Debug, Drop)]
pub enum SectionText {
    /// All of it.
    Whole,
    /// `HEADER`
    Header,
    /// `HEADER.FIELDS` and the names of fields.
    Fields(Texts),
    /// `HEADER.FIELDS.NOT` and the names of fields.
    FieldsNot(Texts),
    /// `TEXT`
    Text,
    /// `MIME`, which stands after a part's number alone.
    Mime,
}

/// The octets of a section that are asked for: `<offset.count>`.
#[derive(Debug, Clone, Copy, PartialEq, Eq)]
pub struct Partial {
    /// The offset of the first one, from 0.
    pub offset: u32,
    /// The greatest number of octets.
    pub count: u32,
}
