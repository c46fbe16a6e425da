//! The parts of a mail.
//! Pure.
use arch_base::{Bytes, Sequence, Texts};

/// A range of the bytes of a text, from `start` up to but not including `end`.
#[derive(Debug, Clone, Copy, PartialEq, Eq, Drop)]
pub struct Span {
    /// The offset of its first byte.
    pub start: u64,
    /// The offset after its last byte.
    pub end: u64,
}

/// How the bytes of a body are encoded (RFC 2045, section 6).
#[derive(Debug, Clone, Copy, PartialEq, Eq, Drop)]
pub enum Encoding {
    /// They are themselves.
    Plain,
    /// In base64.
    Base64,
    /// In quoted-printable.
    Quoted,
}

/// What an entity is made of.
#[derive(Debug, Clone, Copy, PartialEq, Eq, Drop)]
pub enum Shape {
    /// It has no parts.
    Leaf,
    /// Its body is a message, which is its one part.
    Message,
    /// Its body is divided into parts by delimiter lines.
    Multipart,
}

/// An entity of a mail: the message itself, or a part of it (RFC 2045, section 2.4).
#[derive(Debug, Drop)]
pub struct Part {
    /// The type, as `text`, in lower case.
    pub major: Bytes,
    /// The subtype, as `plain`, in lower case.
    pub minor: Bytes,
    /// The parameters of the type: name, value, name, value. Names are in lower case.
    pub params: Texts,
    /// How the body is encoded.
    pub encoding: Encoding,
    /// The name of the encoding, in lower case. It is `7bit` if the header names none.
    pub encoding_name: Bytes,
    /// Whether the entity is an attachment.
    pub attached: bool,
    /// Where its header is in the text.
    pub header: Span,
    /// Where its body is in the text.
    pub body: Span,
    /// What it is made of.
    pub shape: Shape,
    /// How deep it is in the tree. The message has depth 1.
    pub depth: u8,
}

/// The entities of a mail, each before its parts.
pub type Parts = Sequence<Part>;
