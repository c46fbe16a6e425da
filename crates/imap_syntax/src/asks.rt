//! Commands as they are asked, and why octets are none.
//! Pure.
use crate::dates::DateTime;
use crate::flags::StoreItem;
use crate::items::Item;
use crate::keys::Key;
use crate::sets::SeqSet;
use arch_base::{Bytes, Sequence, Texts};
use thiserror::Error;

/// A command (RFC 3501, section 6, and RFC 2177): its tag, and its arguments in the order in which
/// they are written.
///
/// Texts are without quotes and backslashes. Names of mailboxes are told as they are written.
#[derive(Debug, Drop)]
pub enum Ask {
    /// `CAPABILITY`
    Capability(Bytes),
    /// `NOOP`
    Noop(Bytes),
    /// `LOGOUT`
    Logout(Bytes),
    /// `CHECK`
    Check(Bytes),
    /// `CLOSE`
    Close(Bytes),
    /// `EXPUNGE`
    Expunge(Bytes),
    /// `IDLE`
    Idle(Bytes),
    /// `LOGIN`, a user and a password.
    Login(Bytes, Bytes, Bytes),
    /// `AUTHENTICATE` and a mechanism.
    Authenticate(Bytes, Bytes),
    /// `SELECT` and a mailbox.
    Select(Bytes, Bytes),
    /// `EXAMINE` and a mailbox.
    Examine(Bytes, Bytes),
    /// `CREATE` and a mailbox.
    Create(Bytes, Bytes),
    /// `DELETE` and a mailbox.
    Delete(Bytes, Bytes),
    /// `SUBSCRIBE` and a mailbox.
    Subscribe(Bytes, Bytes),
    /// `UNSUBSCRIBE` and a mailbox.
    Unsubscribe(Bytes, Bytes),
    /// `RENAME`, a mailbox and its new name.
    Rename(Bytes, Bytes, Bytes),
    /// `LIST`, a reference and a pattern.
    List(Bytes, Bytes, Bytes),
    /// `LSUB`, a reference and a pattern.
    Lsub(Bytes, Bytes, Bytes),
    /// `STATUS`, a mailbox and items.
    Status(Bytes, Bytes, Sequence<StatusItem>),
    /// `APPEND`, a mailbox, flags, a date, and the message.
    Append(Bytes, Bytes, Option<Texts>, Option<DateTime>, Bytes),
    /// `COPY`, a set of sequence numbers, and a mailbox.
    Copy(Bytes, SeqSet, Bytes),
    /// `FETCH`, a set of sequence numbers, and items. A macro is the list of its items.
    Fetch(Bytes, SeqSet, Sequence<Item>),
    /// `STORE`, a set of sequence numbers, what is done with flags, and the flags.
    Store(Bytes, SeqSet, StoreItem, Texts),
    /// `SEARCH`, a charset, and keys that are all asked.
    Search(Bytes, Option<Bytes>, Vec<Key>),
    /// `UID COPY`, a set of UIDs, and a mailbox.
    UidCopy(Bytes, SeqSet, Bytes),
    /// `UID FETCH`, a set of UIDs, and items. A macro is the list of its items.
    UidFetch(Bytes, SeqSet, Sequence<Item>),
    /// `UID STORE`, a set of UIDs, what is done with flags, and the flags.
    UidStore(Bytes, SeqSet, StoreItem, Texts),
    /// `UID SEARCH`, a charset, and keys that are all asked; it gives UIDs.
    UidSearch(Bytes, Option<Bytes>, Vec<Key>),
}

/// An item of `STATUS`.
#[derive(Debug, Clone, Copy, PartialEq, Eq)]
pub enum StatusItem {
    /// `MESSAGES`
    Messages,
    /// `RECENT`
    Recent,
    /// `UIDNEXT`
    UidNext,
    /// `UIDVALIDITY`
    UidValidity,
    /// `UNSEEN`
    Unseen,
}

/// Why octets are no command.
#[derive(Debug, Drop, Error)]
pub enum AskRefusal {
    /// They begin with no readable tag.
    #[error("no tag")]
    NoTag,
    /// They begin with a tag, and aren't of the grammar.
    #[error("bad syntax")]
    Bad {
        /// The tag.
        tag: Bytes,
    },
    /// An allocation failed.
    #[error("out of memory")]
    NoMemory,
}
