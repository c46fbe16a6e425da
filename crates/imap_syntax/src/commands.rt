//! Reads the arguments of commands (RFC 3501, section 9, command).
//! Allocates.
ghost use Rattle.std.specs.Prelude.{◌≡◌, length};
ghost use Rattle.imap_words.specs.Reading.{Obtains, many_at};
ghost use Rattle.imap_syntax.specs.Commands.{ObtainsAsk, SkipsCharset, ends_with, on_mailbox_at, login_at, authenticate_at, rename_at, lists_at, status_item_at, status_items_at, status_at, spaced_flags_at, message_flags_at, spaced_date_at, message_date_at, append_at, copy_at, fetch_at, store_at, search_keys_at, search_at, numbered_at, uid_at, command_by, command_at};
ghost use Rattle.imap_syntax.specs.Requests.{Plain};

use crate::asks::{Ask, StatusItem};
use crate::command_names::{
    CommandName, ListCommand, MailboxCommand, NumberedCommand, PlainCommand, command_name,
    numbered_command, status_item,
};
use crate::dates::{DateTime, moment};
use crate::flags::{flag_list, store_item, stored_flags};
use crate::item_reading::items;
use crate::key_reading::keys;
use crate::set_reading::set_argument;
use arch_base::{Bytes, Sequence, Texts};
use imap_words::{Cursor, Kind, Stop, is_keyword};

/// The greatest depth of keys within keys, the outermost included.
const MOST_NESTED: u8 = 64;

/// Takes a command after its tag and a space: its name and its arguments.
#[tactic(auto, unfolding(crate::specs::Commands::command_at))]
pub(crate) fn command(cursor: &mut Cursor<'_>, tag: &[u8]) -> Result<Ask, Stop>
    ensures { ObtainsAsk tag.now result (command_at cursor.old) }
{
    let word = cursor.word();
    match command_name(word) {
        Some(name) => arguments(cursor, tag, name),
        None => Err(Stop::Bad),
    }
}

/// Takes the arguments of a command.
fn arguments(cursor: &mut Cursor<'_>, tag: &[u8], name: CommandName) -> Result<Ask, Stop>
    ensures { ObtainsAsk tag.now result (command_by name cursor.old) }
{
    match name {
        CommandName::Plain(name) => plain(cursor, tag, name),
        CommandName::Mailbox(name) => on_mailbox(cursor, tag, name),
        CommandName::List(name) => lists(cursor, tag, name),
        CommandName::Numbered(name) => numbered(cursor, tag, false, name),
        CommandName::Uid => uid(cursor, tag),
        CommandName::Login => login(cursor, tag),
        CommandName::Authenticate => authenticate(cursor, tag),
        CommandName::Rename => rename(cursor, tag),
        CommandName::Status => status(cursor, tag),
        CommandName::Append => append(cursor, tag),
    }
}

/// Takes the end of a command without arguments.
fn plain(cursor: &mut Cursor<'_>, tag: &[u8], name: PlainCommand) -> Result<Ask, Stop>
    ensures { ObtainsAsk tag.now result (ends_with (Plain name) cursor.old) }
{
    cursor.end()?;
    Ok(name.ask(cursor.copy(tag)?))
}

/// Takes the mailbox of a command.
#[tactic(auto, unfolding(crate::specs::Commands::on_mailbox_at))]
fn on_mailbox(cursor: &mut Cursor<'_>, tag: &[u8], name: MailboxCommand) -> Result<Ask, Stop>
    ensures { ObtainsAsk tag.now result (on_mailbox_at name cursor.old) }
{
    let mailbox = cursor.argument()?;
    cursor.end()?;
    Ok(name.ask(cursor.copy(tag)?, mailbox))
}

/// Takes the reference and the pattern of a command that lists mailboxes.
#[tactic(auto, unfolding(crate::specs::Commands::lists_at))]
fn lists(cursor: &mut Cursor<'_>, tag: &[u8], name: ListCommand) -> Result<Ask, Stop>
    ensures { ObtainsAsk tag.now result (lists_at name cursor.old) }
{
    let reference = cursor.argument()?;
    cursor.byte(b' ')?;
    let pattern = cursor.string(Kind::Pattern)?;
    cursor.end()?;
    Ok(name.ask(cursor.copy(tag)?, reference, pattern))
}

/// Takes the arguments of `LOGIN`.
#[tactic(auto, unfolding(crate::specs::Commands::login_at))]
fn login(cursor: &mut Cursor<'_>, tag: &[u8]) -> Result<Ask, Stop>
    ensures { ObtainsAsk tag.now result (login_at cursor.old) }
{
    let user = cursor.argument()?;
    let password = cursor.argument()?;
    cursor.end()?;
    Ok(Ask::Login(cursor.copy(tag)?, user, password))
}

/// Takes the argument of `AUTHENTICATE`.
#[tactic(auto, unfolding(crate::specs::Commands::authenticate_at))]
fn authenticate(cursor: &mut Cursor<'_>, tag: &[u8]) -> Result<Ask, Stop>
    ensures { ObtainsAsk tag.now result (authenticate_at cursor.old) }
{
    let mechanism = cursor.atom_argument()?;
    cursor.end()?;
    Ok(Ask::Authenticate(cursor.copy(tag)?, mechanism))
}

/// Takes the arguments of `RENAME`.
#[tactic(auto, unfolding(crate::specs::Commands::rename_at))]
fn rename(cursor: &mut Cursor<'_>, tag: &[u8]) -> Result<Ask, Stop>
    ensures { ObtainsAsk tag.now result (rename_at cursor.old) }
{
    let mailbox = cursor.argument()?;
    let other = cursor.argument()?;
    cursor.end()?;
    Ok(Ask::Rename(cursor.copy(tag)?, mailbox, other))
}

/// Takes the arguments of `STATUS`.
#[tactic(auto, unfolding(crate::specs::Commands::status_at))]
fn status(cursor: &mut Cursor<'_>, tag: &[u8]) -> Result<Ask, Stop>
    ensures { ObtainsAsk tag.now result (status_at cursor.old) }
{
    let mailbox = cursor.argument()?;
    let items = status_items(cursor)?;
    cursor.end()?;
    Ok(Ask::Status(cursor.copy(tag)?, mailbox, items))
}

/// Takes a space, and items of `STATUS` in parentheses.
#[tactic(auto, unfolding(crate::specs::Commands::status_items_at))]
fn status_items(cursor: &mut Cursor<'_>) -> Result<Sequence<StatusItem>, Stop>
    ensures { Obtains cursor.new result (status_items_at cursor.old) }
{
    cursor.byte(b' ')?;
    cursor.byte(b'(')?;
    let items = spaced_status_items(cursor)?;
    cursor.byte(b')')?;
    Ok(items)
}

/// Takes one or more items of `STATUS` with single spaces between them.
fn spaced_status_items(cursor: &mut Cursor<'_>) -> Result<Sequence<StatusItem>, Stop>
    ensures { Obtains cursor.new result (many_at status_item_at (length cursor.old) cursor.old) }
{
    let mut items = Sequence::new(cursor.alloc());
    for _index in 0..cursor.rest().len() {
        match one_status_item(cursor) {
            Err(stop) => return Err(stop),
            Ok(item) => items.push(item)?,
        }
        if !cursor.has(b' ') {
            return Ok(items);
        }
    }
    Err(Stop::Bad)
}

/// Takes an item of `STATUS`.
#[tactic(auto, unfolding(crate::specs::Commands::status_item_at))]
fn one_status_item(cursor: &mut Cursor<'_>) -> Result<StatusItem, Stop>
    ensures { Obtains cursor.new result (status_item_at cursor.old) }
{
    let word = cursor.word();
    match status_item(word) {
        Some(item) => Ok(item),
        None => Err(Stop::Bad),
    }
}

/// Takes the arguments of `APPEND`.
#[tactic(auto, unfolding(crate::specs::Commands::append_at))]
fn append(cursor: &mut Cursor<'_>, tag: &[u8]) -> Result<Ask, Stop>
    ensures { ObtainsAsk tag.now result (append_at cursor.old) }
{
    let mailbox = cursor.argument()?;
    cursor.byte(b' ')?;
    let flags = message_flags(cursor)?;
    let date = message_date(cursor)?;
    let message = cursor.literal()?;
    cursor.end()?;
    Ok(Ask::Append(cursor.copy(tag)?, mailbox, flags, date, message))
}

/// Takes the flags of a message and a space, if a parenthesis comes next.
#[tactic(auto, unfolding(crate::specs::Commands::message_flags_at))]
fn message_flags(cursor: &mut Cursor<'_>) -> Result<Option<Texts>, Stop>
    ensures { Obtains cursor.new result (message_flags_at cursor.old) }
{
    if cursor.first() != b'(' {
        return Ok(None);
    }
    let flags = flag_list(cursor)?;
    cursor.byte(b' ')?;
    Ok(Some(flags))
}

/// Takes the date of a message and a space, if a quote comes next.
#[tactic(auto, unfolding(crate::specs::Commands::message_date_at))]
fn message_date(cursor: &mut Cursor<'_>) -> Result<Option<DateTime>, Stop>
    ensures { Obtains cursor.new result (message_date_at cursor.old) }
{
    if cursor.first() != b'"' {
        return Ok(None);
    }
    let date = moment(cursor)?;
    cursor.byte(b' ')?;
    Ok(Some(date))
}

/// Takes `UID`'s command: a space, its name and its arguments.
#[tactic(auto, unfolding(crate::specs::Commands::uid_at))]
fn uid(cursor: &mut Cursor<'_>, tag: &[u8]) -> Result<Ask, Stop>
    ensures { ObtainsAsk tag.now result (uid_at cursor.old) }
{
    cursor.byte(b' ')?;
    let word = cursor.word();
    match numbered_command(word) {
        Some(name) => numbered(cursor, tag, true, name),
        None => Err(Stop::Bad),
    }
}

/// Takes the arguments of a command on messages.
fn numbered(
    cursor: &mut Cursor<'_>,
    tag: &[u8],
    by_uid: bool,
    name: NumberedCommand,
) -> Result<Ask, Stop>
    ensures { ObtainsAsk tag.now result (numbered_at by_uid name cursor.old) }
{
    match name {
        NumberedCommand::Copy => copy(cursor, tag, by_uid),
        NumberedCommand::Fetch => fetch(cursor, tag, by_uid),
        NumberedCommand::Store => store(cursor, tag, by_uid),
        NumberedCommand::Search => search(cursor, tag, by_uid),
    }
}

/// Takes the arguments of `COPY`.
#[tactic(auto, unfolding(crate::specs::Commands::copy_at))]
fn copy(cursor: &mut Cursor<'_>, tag: &[u8], by_uid: bool) -> Result<Ask, Stop>
    ensures { ObtainsAsk tag.now result (copy_at by_uid cursor.old) }
{
    let set = set_argument(cursor)?;
    let mailbox = cursor.argument()?;
    cursor.end()?;
    let tag = cursor.copy(tag)?;
    if by_uid {
        Ok(Ask::UidCopy(tag, set, mailbox))
    } else {
        Ok(Ask::Copy(tag, set, mailbox))
    }
}

/// Takes the arguments of `FETCH`.
#[tactic(auto, unfolding(crate::specs::Commands::fetch_at))]
fn fetch(cursor: &mut Cursor<'_>, tag: &[u8], by_uid: bool) -> Result<Ask, Stop>
    ensures { ObtainsAsk tag.now result (fetch_at by_uid cursor.old) }
{
    let set = set_argument(cursor)?;
    cursor.byte(b' ')?;
    let items = items(cursor)?;
    cursor.end()?;
    let tag = cursor.copy(tag)?;
    if by_uid {
        Ok(Ask::UidFetch(tag, set, items))
    } else {
        Ok(Ask::Fetch(tag, set, items))
    }
}

/// Takes the arguments of `STORE`.
#[tactic(auto, unfolding(crate::specs::Commands::store_at))]
fn store(cursor: &mut Cursor<'_>, tag: &[u8], by_uid: bool) -> Result<Ask, Stop>
    ensures { ObtainsAsk tag.now result (store_at by_uid cursor.old) }
{
    let set = set_argument(cursor)?;
    cursor.byte(b' ')?;
    let change = store_item(cursor)?;
    cursor.byte(b' ')?;
    let flags = stored_flags(cursor)?;
    cursor.end()?;
    let tag = cursor.copy(tag)?;
    if by_uid {
        Ok(Ask::UidStore(tag, set, change, flags))
    } else {
        Ok(Ask::Store(tag, set, change, flags))
    }
}

/// Takes the arguments of `SEARCH`.
#[tactic(auto, unfolding(crate::specs::Commands::search_at))]
fn search(cursor: &mut Cursor<'_>, tag: &[u8], by_uid: bool) -> Result<Ask, Stop>
    ensures { ObtainsAsk tag.now result (search_at by_uid cursor.old) }
{
    if charset_word(cursor) {
        let charset = cursor.argument()?;
        return search_keys(cursor, tag, by_uid, Some(charset));
    }
    search_keys(cursor, tag, by_uid, None)
}

/// Takes a space and `CHARSET`, if these come next, and returns whether they do.
#[tactic(auto, unfolding(crate::specs::Commands::charset_word_at))]
fn charset_word(cursor: &mut Cursor<'_>) -> bool
    ensures { SkipsCharset cursor.old cursor.new result }
{
    let mut ahead = Cursor::new(cursor.alloc(), cursor.rest());
    if !ahead.has(b' ') {
        return false;
    }
    let word = ahead.word();
    if !is_keyword(b"CHARSET", word) {
        return false;
    }
    *cursor = ahead;
    true
}

/// Takes a space and the keys of `SEARCH`, whose charset is known.
#[tactic(auto, unfolding(crate::specs::Commands::search_keys_at))]
fn search_keys(
    cursor: &mut Cursor<'_>,
    tag: &[u8],
    by_uid: bool,
    charset: Option<Bytes>,
) -> Result<Ask, Stop>
    ensures { ObtainsAsk tag.now result (search_keys_at by_uid charset cursor.old) }
{
    cursor.byte(b' ')?;
    let keys = keys(cursor, MOST_NESTED)?;
    cursor.end()?;
    let tag = cursor.copy(tag)?;
    if by_uid {
        Ok(Ask::UidSearch(tag, charset, keys))
    } else {
        Ok(Ask::Search(tag, charset, keys))
    }
}
