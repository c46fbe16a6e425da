//! What a list of mails says of a mail.
//! Pure.
use arch_base::{Bytes, ObjectId, Texts};
use mail_date::Moment;

/// What a list of mails says of a mail.
#[derive(Debug, Drop)]
pub struct Row {
    /// The number of the message.
    pub number: u32,
    /// The id of the blob that is the text.
    pub blob: ObjectId,
    /// The own id, in its brackets.
    pub id: Bytes,
    /// The ids of the messages that it answers, in their brackets.
    pub refs: Texts,
    /// The subject, its encoded words decoded. It may hold control bytes that a word spelled.
    pub subject: Bytes,
    /// The name of the author, or the address if the name is empty, or `unknown` without an author.
    pub from: Bytes,
    /// When it was written, and in which zone: by its Date field, or its arrival in UTC.
    pub date: Moment,
    /// When it arrived, in seconds since 1970 UTC.
    pub arrived: u64,
    /// The length of the text, in bytes.
    pub size: u64,
    /// The length of its wire form, in bytes.
    pub wire: u64,
    /// The length of its piece of a mailbox file, in bytes.
    pub mbox: u64,
    /// The number of line feeds in its body.
    pub lines: u64,
    /// Its overview line, without a number at the front and a line end.
    pub over: Bytes,
    /// The content id.
    pub content: [u8; 32],
}
