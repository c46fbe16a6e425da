//! Reads commands from their lines.
//! Pure.
//!
//! The command word is all up to the first space, and its argument all after it.
ghost use Rattle.std.specs.Prelude.{◌≡◌, ◌≤◌, length, option_copied};
ghost use Rattle.std.specs.List.{prefix_len};
ghost use Rattle.arch_base.specs.Decimals.{decimal_of};
ghost use Rattle.pop3_reader.specs.Commands as commands;
ghost use Rattle.pop3_reader.specs.Commands.{is_word_byte, word_of, behind_space, argument_of};
ghost use Rattle.pop3_reader.specs.Sessions.{meant};

use crate::order::{MailListing, MailOrder, MailPart, PopOrder};
use arch_base::read_decimal;

/// Reads the command of a line, which has no line end.
#[tactic(auto, unfolding(crate::specs::Commands::command_of))]
pub(crate) fn read_order(line: &[u8]) -> PopOrder<'_>
    ensures { meant result ≡ commands.command_of line.now }
{
    match behind_first(line) {
        None => read_bare(word(line)),
        Some(argument) => read_with(word(line), argument),
    }
}

/// Returns the number of bytes before the first space.
fn word_len(line: &[u8]) -> usize
    ensures value { result ≡ prefix_len is_word_byte line.now }
    ensures bound { result ≤ length line.now }
{
    line.iter().take_while(|byte| **byte != b' ').count()
}

/// Returns the bytes before the first space.
fn word(line: &[u8]) -> &[u8]
    ensures { result.now ≡ word_of line.now }
{
    line.split_at(word_len(line)).0
}

/// Returns the bytes after the first space, or `None` without one.
fn behind_first(line: &[u8]) -> Option<&[u8]>
    ensures { option_copied result ≡ argument_of line.now }
{
    after_space(line.split_at(word_len(line)).1)
}

/// Returns the bytes without the first one, or `None` if there is none.
fn after_space(bytes: &[u8]) -> Option<&[u8]>
    ensures { option_copied result ≡ behind_space bytes.now }
{
    match bytes {
        [] => None,
        [_, rest @ ..] => Some(rest),
    }
}

/// Returns whether a word is a keyword, in any case.
fn is_keyword(keyword: &[u8], word: &[u8]) -> bool
    ensures { result ≡ commands.is_keyword keyword.now word.now }
{
    word.eq_ignore_ascii_case(keyword)
}

/// Reads the command of a word without an argument.
fn read_bare(word: &[u8]) -> PopOrder<'_>
    ensures { meant result ≡ commands.bare_command word.now }
{
    if is_keyword(b"STAT", word) {
        return PopOrder::Asks(MailOrder::Stat);
    }
    if is_keyword(b"LIST", word) {
        return PopOrder::Asks(MailOrder::List(MailListing::Sizes, None));
    }
    if is_keyword(b"UIDL", word) {
        return PopOrder::Asks(MailOrder::List(MailListing::Uids, None));
    }
    if is_keyword(b"NOOP", word) {
        return PopOrder::Asks(MailOrder::Noop);
    }
    if is_keyword(b"RSET", word) {
        return PopOrder::Asks(MailOrder::Rset);
    }
    if is_keyword(b"QUIT", word) {
        return PopOrder::Quit;
    }
    PopOrder::Mistaken
}

/// Reads the command of a word with an argument.
fn read_with<'a>(word: &[u8], argument: &'a [u8]) -> PopOrder<'a>
    ensures { meant result ≡ commands.command_with word.now argument.now }
{
    if is_keyword(b"USER", word) {
        return PopOrder::User(argument);
    }
    if is_keyword(b"PASS", word) {
        return PopOrder::Pass;
    }
    if is_keyword(b"LIST", word) {
        return read_list(MailListing::Sizes, argument);
    }
    if is_keyword(b"UIDL", word) {
        return read_list(MailListing::Uids, argument);
    }
    if is_keyword(b"RETR", word) {
        return read_retr(argument);
    }
    if is_keyword(b"TOP", word) {
        return read_top(argument);
    }
    if is_keyword(b"DELE", word) {
        return read_dele(argument);
    }
    PopOrder::Mistaken
}

/// Reads the argument of LIST or UIDL.
fn read_list(listing: MailListing, argument: &[u8]) -> PopOrder<'_>
    ensures { meant result
        ≡ commands.on_message (commands.listed_as listing) (decimal_of argument.now) }
{
    match read_decimal(argument) {
        None => PopOrder::Mistaken,
        Some(k) => PopOrder::Asks(MailOrder::List(listing, Some(k))),
    }
}

/// Reads the argument of RETR.
fn read_retr(argument: &[u8]) -> PopOrder<'_>
    ensures { meant result
        ≡ commands.on_message (MailOrder.Read MailPart.Whole) (decimal_of argument.now) }
{
    match read_decimal(argument) {
        None => PopOrder::Mistaken,
        Some(k) => PopOrder::Asks(MailOrder::Read(MailPart::Whole, k)),
    }
}

/// Reads the arguments of TOP: the message, a space, and how many lines of the body.
fn read_top(argument: &[u8]) -> PopOrder<'_>
    ensures { meant result ≡ commands.top_of argument.now }
{
    let Some(lines) = behind_first(argument) else {
        return PopOrder::Mistaken;
    };
    let Some(k) = read_decimal(word(argument)) else {
        return PopOrder::Mistaken;
    };
    match read_decimal(lines) {
        None => PopOrder::Mistaken,
        Some(lines) => PopOrder::Asks(MailOrder::Read(MailPart::Top(lines), k)),
    }
}

/// Reads the argument of DELE.
fn read_dele(argument: &[u8]) -> PopOrder<'_>
    ensures { meant result ≡ commands.on_message MailOrder.Dele (decimal_of argument.now) }
{
    match read_decimal(argument) {
        None => PopOrder::Mistaken,
        Some(k) => PopOrder::Asks(MailOrder::Dele(k)),
    }
}
