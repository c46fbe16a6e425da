//! What a client is told of changes.
//! Pure.
use arch_base::MessageNumbers;

/// What a client is told of changes in its mailbox (RFC 3501, sections 7.3.1 and 7.4.1).
#[derive(Drop)]
pub struct Changes {
    /// The sequence number of each EXPUNGE, in order: the greatest first, as they were before any of
    /// these.
    pub gone: MessageNumbers,
    /// The count of EXISTS, if there are new UIDs: how many there are after all changes.
    pub exists: Option<u32>,
}
