//! The commands that read no messages.
//! Pure.
use imap_syntax::StatusItem;

/// A command that reads no messages, without its tag (RFC 3501, section 6, and RFC 2177).
#[derive(Clone, Copy, Debug, Drop)]
pub enum StateCommand<'a> {
    /// CAPABILITY
    Capability,
    /// NOOP
    Noop,
    /// LOGOUT
    Logout,
    /// LOGIN: any user may log in.
    Login,
    /// AUTHENTICATE
    Authenticate,
    /// SELECT and a mailbox's name.
    Select(&'a [u8]),
    /// EXAMINE and a mailbox's name.
    Examine(&'a [u8]),
    /// LIST, a reference and a pattern.
    List(&'a [u8], &'a [u8]),
    /// LSUB, a reference and a pattern.
    Lsub(&'a [u8], &'a [u8]),
    /// STATUS, a mailbox's name and items.
    Status(&'a [u8], &'a [StatusItem]),
    /// CREATE, DELETE, RENAME, SUBSCRIBE, UNSUBSCRIBE and APPEND, which would change mailboxes.
    Change,
    /// EXPUNGE, STORE and COPY, which would change messages.
    ChangeMessages,
    /// CHECK
    Check,
    /// CLOSE
    Close,
    /// IDLE
    Idle,
}
