//! The names of commands (RFC 3501, section 6, and RFC 2177).
//! Pure.
ghost use Rattle.std.specs.Prelude.{◌≡◌};
ghost use Rattle.imap_syntax.specs.Requests.{plain_command_of, mailbox_command_of, numbered_command_of, other_command_of, command_name_of, status_item_of, meant, Understood, Plain, OnMailbox, Lists};

use crate::asks::{Ask, StatusItem};
use arch_base::Bytes;
use imap_words::is_keyword;

/// A command without arguments.
#[derive(Clone, Copy)]
pub enum PlainCommand {
    /// `CAPABILITY`
    Capability,
    /// `NOOP`
    Noop,
    /// `LOGOUT`
    Logout,
    /// `CHECK`
    Check,
    /// `CLOSE`
    Close,
    /// `EXPUNGE`
    Expunge,
    /// `IDLE`
    Idle,
}

/// A command with a mailbox alone.
#[derive(Clone, Copy)]
pub enum MailboxCommand {
    /// `SELECT`
    Select,
    /// `EXAMINE`
    Examine,
    /// `CREATE`
    Create,
    /// `DELETE`
    Delete,
    /// `SUBSCRIBE`
    Subscribe,
    /// `UNSUBSCRIBE`
    Unsubscribe,
}

/// A command that lists mailboxes.
#[derive(Clone, Copy)]
pub enum ListCommand {
    /// `LIST`
    List,
    /// `LSUB`
    Lsub,
}

/// A command on messages, which has a form with UIDs.
#[derive(Clone, Copy)]
pub(crate) enum NumberedCommand {
    /// `FETCH`
    Fetch,
    /// `SEARCH`
    Search,
    /// `STORE`
    Store,
    /// `COPY`
    Copy,
}

/// A command, by its name.
#[derive(Clone, Copy)]
pub(crate) enum CommandName {
    /// One without arguments.
    Plain(PlainCommand),
    /// One with a mailbox alone.
    Mailbox(MailboxCommand),
    /// One that lists mailboxes.
    List(ListCommand),
    /// One on messages, by their sequence numbers.
    Numbered(NumberedCommand),
    /// `UID`, before the name of one on messages.
    Uid,
    /// `LOGIN`
    Login,
    /// `AUTHENTICATE`
    Authenticate,
    /// `RENAME`
    Rename,
    /// `STATUS`
    Status,
    /// `APPEND`
    Append,
}

impl PlainCommand {
    /// Returns the command with its tag.
    pub(crate) fn ask(self, tag: Bytes) -> Ask
        ensures { meant result ≡ Understood tag (Plain self) }
    {
        match self {
            PlainCommand::Capability => Ask::Capability(tag),
            PlainCommand::Noop => Ask::Noop(tag),
            PlainCommand::Logout => Ask::Logout(tag),
            PlainCommand::Check => Ask::Check(tag),
            PlainCommand::Close => Ask::Close(tag),
            PlainCommand::Expunge => Ask::Expunge(tag),
            PlainCommand::Idle => Ask::Idle(tag),
        }
    }
}

impl MailboxCommand {
    /// Returns the command with its tag and its mailbox.
    pub(crate) fn ask(self, tag: Bytes, mailbox: Bytes) -> Ask
        ensures { meant result ≡ Understood tag (OnMailbox self mailbox) }
    {
        match self {
            MailboxCommand::Select => Ask::Select(tag, mailbox),
            MailboxCommand::Examine => Ask::Examine(tag, mailbox),
            MailboxCommand::Create => Ask::Create(tag, mailbox),
            MailboxCommand::Delete => Ask::Delete(tag, mailbox),
            MailboxCommand::Subscribe => Ask::Subscribe(tag, mailbox),
            MailboxCommand::Unsubscribe => Ask::Unsubscribe(tag, mailbox),
        }
    }
}

impl ListCommand {
    /// Returns the command with its tag, its reference and its pattern.
    pub(crate) fn ask(self, tag: Bytes, reference: Bytes, pattern: Bytes) -> Ask
        ensures { meant result ≡ Understood tag (Lists self reference pattern) }
    {
        match self {
            ListCommand::List => Ask::List(tag, reference, pattern),
            ListCommand::Lsub => Ask::Lsub(tag, reference, pattern),
        }
    }
}

/// Returns the command that a word names, in any case.
#[tactic(auto, unfolding(crate::specs::Requests::command_name_of))]
pub(crate) fn command_name(word: &[u8]) -> Option<CommandName>
    ensures { result ≡ command_name_of word.now }
{
    if let Some(name) = plain_command(word) {
        return Some(CommandName::Plain(name));
    }
    if let Some(name) = mailbox_command(word) {
        return Some(CommandName::Mailbox(name));
    }
    if let Some(name) = numbered_command(word) {
        return Some(CommandName::Numbered(name));
    }
    other_command(word)
}

/// Returns the command without arguments that a word names.
fn plain_command(word: &[u8]) -> Option<PlainCommand>
    ensures { result ≡ plain_command_of word.now }
{
    if is_keyword(b"CAPABILITY", word) {
        Some(PlainCommand::Capability)
    } else if is_keyword(b"NOOP", word) {
        Some(PlainCommand::Noop)
    } else if is_keyword(b"LOGOUT", word) {
        Some(PlainCommand::Logout)
    } else if is_keyword(b"CHECK", word) {
        Some(PlainCommand::Check)
    } else if is_keyword(b"CLOSE", word) {
        Some(PlainCommand::Close)
    } else if is_keyword(b"EXPUNGE", word) {
        Some(PlainCommand::Expunge)
    } else if is_keyword(b"IDLE", word) {
        Some(PlainCommand::Idle)
    } else {
        None
    }
}

/// Returns the command with a mailbox alone that a word names.
fn mailbox_command(word: &[u8]) -> Option<MailboxCommand>
    ensures { result ≡ mailbox_command_of word.now }
{
    if is_keyword(b"SELECT", word) {
        Some(MailboxCommand::Select)
    } else if is_keyword(b"EXAMINE", word) {
        Some(MailboxCommand::Examine)
    } else if is_keyword(b"CREATE", word) {
        Some(MailboxCommand::Create)
    } else if is_keyword(b"DELETE", word) {
        Some(MailboxCommand::Delete)
    } else if is_keyword(b"SUBSCRIBE", word) {
        Some(MailboxCommand::Subscribe)
    } else if is_keyword(b"UNSUBSCRIBE", word) {
        Some(MailboxCommand::Unsubscribe)
    } else {
        None
    }
}

/// Returns the command on messages that a word names.
pub(crate) fn numbered_command(word: &[u8]) -> Option<NumberedCommand>
    ensures { result ≡ numbered_command_of word.now }
{
    if is_keyword(b"FETCH", word) {
        Some(NumberedCommand::Fetch)
    } else if is_keyword(b"SEARCH", word) {
        Some(NumberedCommand::Search)
    } else if is_keyword(b"STORE", word) {
        Some(NumberedCommand::Store)
    } else if is_keyword(b"COPY", word) {
        Some(NumberedCommand::Copy)
    } else {
        None
    }
}

/// Returns any other command that a word names.
fn other_command(word: &[u8]) -> Option<CommandName>
    ensures { result ≡ other_command_of word.now }
{
    if is_keyword(b"UID", word) {
        Some(CommandName::Uid)
    } else if is_keyword(b"LOGIN", word) {
        Some(CommandName::Login)
    } else if is_keyword(b"AUTHENTICATE", word) {
        Some(CommandName::Authenticate)
    } else if is_keyword(b"STATUS", word) {
        Some(CommandName::Status)
    } else if is_keyword(b"LIST", word) {
        Some(CommandName::List(ListCommand::List))
    } else if is_keyword(b"LSUB", word) {
        Some(CommandName::List(ListCommand::Lsub))
    } else if is_keyword(b"RENAME", word) {
        Some(CommandName::Rename)
    } else if is_keyword(b"APPEND", word) {
        Some(CommandName::Append)
    } else {
        None
    }
}

/// Returns the item of `STATUS` that a word names, in any case.
pub(crate) fn status_item(word: &[u8]) -> Option<StatusItem>
    ensures { result ≡ status_item_of word.now }
{
    if is_keyword(b"MESSAGES", word) {
        Some(StatusItem::Messages)
    } else if is_keyword(b"RECENT", word) {
        Some(StatusItem::Recent)
    } else if is_keyword(b"UIDNEXT", word) {
        Some(StatusItem::UidNext)
    } else if is_keyword(b"UIDVALIDITY", word) {
        Some(StatusItem::UidValidity)
    } else if is_keyword(b"UNSEEN", word) {
        Some(StatusItem::Unseen)
    } else {
        None
    }
}
