//! The commands, as they are read from lines.
//! Pure.

/// What RETR and TOP give of a message.
#[derive(Clone, Copy, Debug, PartialEq, Eq, Drop)]
pub(crate) enum MailPart {
    /// Its whole text.
    Whole,
    /// Its header, and this many lines of its body.
    Top(u64),
}

/// What LIST and UIDL give of each message.
#[derive(Clone, Copy, Debug, PartialEq, Eq, Drop)]
pub(crate) enum MailListing {
    /// The length of its wire form in octets.
    Sizes,
    /// Its unique id.
    Uids,
}

/// A command on a maildrop.
#[derive(Clone, Copy, Debug, PartialEq, Eq, Drop)]
pub(crate) enum MailOrder {
    /// `STAT`.
    Stat,
    /// `LIST` or `UIDL`, and a message or none.
    List(MailListing, Option<u64>),
    /// `RETR` or `TOP`, and a message.
    Read(MailPart, u64),
    /// `DELE`, and a message.
    Dele(u64),
    /// `NOOP`.
    Noop,
    /// `RSET`.
    Rset,
}

/// A command.
#[derive(Clone, Copy, Debug, Drop)]
pub(crate) enum PopOrder<'a> {
    /// `USER`, and the name of a mailbox.
    User(&'a [u8]),
    /// `PASS`.
    Pass,
    /// `QUIT`.
    Quit,
    /// A command on a maildrop.
    Asks(MailOrder),
    /// A line that spells no command.
    Mistaken,
}
