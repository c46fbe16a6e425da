//! Reads commands from their lines.
//! Pure.
//!
//! The command word is all up to the first space, and its argument all after it.
ghost use Rattle.std.specs.Prelude.{◌≡◌, ◌≤◌, true, length, option_copied};
ghost use Rattle.std.specs.List.{prefix_len};
ghost use Rattle.mail_address.specs.Addresses.{mailbox_of};
ghost use Rattle.lmtp_door.specs.Commands as commands;
ghost use Rattle.lmtp_door.specs.Commands.{is_word_byte, is_path_byte, word_of, after_first, argument_of};

use crate::order::LmtpOrder;
use memchr::memrchr;

/// Reads the command of a line, which has no line end, at a list of this name.
#[tactic(auto, unfolding(crate::specs::Commands::command_of))]
pub(crate) fn read_order(name: &[u8], line: &[u8]) -> LmtpOrder
    ensures { result ≡ commands.command_of name.now line.now }
{
    read_command(name, word(line), argument(line))
}

/// Returns the number of bytes before the first space.
fn word_len(line: &[u8]) -> usize
    ensures value { result ≡ prefix_len is_word_byte line.now }
    ensures bound { result ≤ length line.now }
{
    line.iter().take_while(|byte| **byte != b' ').count()
}

/// Returns the bytes before the first space.
fn word(line: &[u8]) -> &[u8]
    ensures { result.now ≡ word_of line.now }
{
    line.split_at(word_len(line)).0
}

/// Returns the bytes after the first space, or `None` without one.
fn argument(line: &[u8]) -> Option<&[u8]>
    ensures { option_copied result ≡ argument_of line.now }
{
    after_space(line.split_at(word_len(line)).1)
}

/// Returns the bytes without the first one, or `None` if there is none.
fn after_space(bytes: &[u8]) -> Option<&[u8]>
    ensures { option_copied result ≡ after_first bytes.now }
{
    match bytes {
        [] => None,
        [_, rest @ ..] => Some(rest),
    }
}

/// Returns whether a word is a keyword, in any case.
fn is_keyword(keyword: &[u8], word: &[u8]) -> bool
    ensures { result ≡ commands.is_keyword keyword.now word.now }
{
    word.eq_ignore_ascii_case(keyword)
}

/// Reads the command of a word with its argument.
fn read_command(name: &[u8], word: &[u8], argument: Option<&[u8]>) -> LmtpOrder
    ensures { result ≡ commands.command_by name.now word.now (option_copied argument.entry) }
{
    if is_keyword(b"LHLO", word) {
        return read_worded(LmtpOrder::Hello, argument);
    }
    if is_keyword(b"MAIL", word) {
        return read_mail(argument);
    }
    if is_keyword(b"RCPT", word) {
        return read_rcpt(name, argument);
    }
    if is_keyword(b"DATA", word) {
        return read_bare(LmtpOrder::Data, argument);
    }
    if is_keyword(b"RSET", word) {
        return read_bare(LmtpOrder::Reset, argument);
    }
    if is_keyword(b"NOOP", word) {
        return read_bare(LmtpOrder::Noop, argument);
    }
    if is_keyword(b"VRFY", word) {
        return read_worded(LmtpOrder::Verify, argument);
    }
    if is_keyword(b"QUIT", word) {
        return read_bare(LmtpOrder::Quit, argument);
    }
    LmtpOrder::Unknown
}

/// Reads a command without an argument.
fn read_bare(order: LmtpOrder, argument: Option<&[u8]>) -> LmtpOrder
    ensures { result ≡ commands.bare order (option_copied argument.entry) }
{
    match argument {
        None => order,
        Some(_) => LmtpOrder::Mistaken,
    }
}

/// Reads a command whose argument is one word.
fn read_worded(order: LmtpOrder, argument: Option<&[u8]>) -> LmtpOrder
    ensures { result ≡ commands.worded order (option_copied argument.entry) }
{
    match argument {
        None => LmtpOrder::Mistaken,
        Some(argument) => {
            if is_one_word(argument) {
                order
            } else {
                LmtpOrder::Mistaken
            }
        }
    }
}

/// Returns whether bytes are one word.
fn is_one_word(argument: &[u8]) -> bool
    ensures { result ≡ commands.is_one_word argument.now }
{
    match argument {
        [] => false,
        _ => word_len(argument) == argument.len(),
    }
}

/// Reads MAIL with its argument.
fn read_mail(argument: Option<&[u8]>) -> LmtpOrder
    ensures { result ≡ commands.mail_order (option_copied argument.entry) }
{
    match argument {
        None => LmtpOrder::Mistaken,
        Some(argument) => mail_from(path_after(b"FROM:<", argument)),
    }
}

/// Reads MAIL from a path.
fn mail_from(path: Option<&[u8]>) -> LmtpOrder
    ensures { result ≡ commands.mail_from (option_copied path.entry) }
{
    match path {
        None => LmtpOrder::Mistaken,
        Some(_) => LmtpOrder::Mail,
    }
}

/// Reads RCPT with its argument, at a list of this name.
fn read_rcpt(name: &[u8], argument: Option<&[u8]>) -> LmtpOrder
    ensures { result ≡ commands.rcpt_order name.now (option_copied argument.entry) }
{
    match argument {
        None => LmtpOrder::Mistaken,
        Some(argument) => rcpt_to(name, path_after(b"TO:<", argument)),
    }
}

/// Reads RCPT to a path, at a list of this name.
fn rcpt_to(name: &[u8], path: Option<&[u8]>) -> LmtpOrder
    ensures { result ≡ commands.rcpt_to name.now (option_copied path.entry) }
{
    match path {
        None => LmtpOrder::Mistaken,
        Some(path) => LmtpOrder::Recipient(names_list(name, path)),
    }
}

/// Returns whether a path names the list of this name.
fn names_list(name: &[u8], path: &[u8]) -> bool
    ensures { result ≡ commands.names_list name.now path.now }
{
    mailbox(path).eq_ignore_ascii_case(name)
}

/// Returns the part of a path before its last `@`, or all of it if there is none.
fn mailbox(path: &[u8]) -> &[u8]
    ensures { result.now ≡ mailbox_of path.now }
{
    match memrchr(b'@', path) {
        Some(at) => &path[..at],
        None => path,
    }
}

/// Returns the path of an argument that starts with a word, or `None` if there is none.
fn path_after<'a>(word: &[u8], argument: &'a [u8]) -> Option<&'a [u8]>
    ensures { option_copied result ≡ commands.path_after word.now argument.now }
{
    if !begins_with(word, argument) {
        return None;
    }
    path_at(&argument[word.len()..])
}

/// Returns whether an argument starts with a word, in any case.
fn begins_with(word: &[u8], argument: &[u8]) -> bool
    ensures value { result ≡ commands.begins_with word.now argument.now }
    ensures room { result ≡ true → length word.now ≤ length argument.now }
{
    argument.len() >= word.len() && argument[..word.len()].eq_ignore_ascii_case(word)
}

/// Returns the path at the front of bytes, or `None` if there is none.
fn path_at(bytes: &[u8]) -> Option<&[u8]>
    ensures { option_copied result ≡ commands.path_at bytes.now }
{
    let (path, after) = bytes.split_at(path_len(bytes));
    if closes(after) { Some(path) } else { None }
}

/// Returns the number of bytes before the end of a path.
fn path_len(bytes: &[u8]) -> usize
    ensures value { result ≡ prefix_len is_path_byte bytes.now }
    ensures bound { result ≤ length bytes.now }
{
    bytes.iter().take_while(|byte| **byte != b'>').count()
}

/// Returns whether bytes close a path.
fn closes(after: &[u8]) -> bool
    ensures { result ≡ commands.closes after.now }
{
    match after {
        [] => false,
        [_] => true,
        [_, next, ..] => *next == b' ',
    }
}
