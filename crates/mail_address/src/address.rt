//! Addresses, and lists of addresses.
//! Allocates.

use arch_base::{Bytes, Duplicate, NoMemory, Sequence};

/// The kind of a member of an address list (RFC 5322, section 3.4).
#[derive(Debug, Clone, Copy, PartialEq, Eq, Drop)]
pub enum AddressKind {
    /// A mailbox, with or without a name.
    Mailbox,
    /// The start of a group. The mailboxes up to its end are its members.
    GroupStart,
    /// The end of the group that was started last.
    GroupEnd,
}

/// A member of an address list.
#[derive(Debug, Drop)]
pub struct Address {
    /// The kind of the member.
    pub kind: AddressKind,
    /// The name of a mailbox or of a group, without its quotes, comments and backslashes. It may be
    /// empty. Encoded words stay as they are written.
    pub name: Bytes,
    /// The part of a mailbox's address before its last `@`, or the whole address if it has no `@`.
    /// It is empty at the start and end of a group.
    pub mailbox: Bytes,
    /// The part of the address after that `@`. It may be empty.
    pub host: Bytes,
}

/// Addresses, in order.
pub type Addresses = Sequence<Address>;

impl Duplicate for Address {
    fn duplicate(&self) -> Result<Address, NoMemory> {
        Ok(Address {
            kind: self.kind,
            name: self.name.copy()?,
            mailbox: self.mailbox.copy()?,
            host: self.host.copy()?,
        })
    }
}
