//! Commands as they are answered.
//! Pure.
ghost use Rattle.std.specs.Prelude.{◌≡◌, map, option_copied};
ghost use Rattle.arch_model.specs.Archives.{Archive};
ghost use Rattle.line_door.specs.Acts.{Departure};
ghost use Rattle.imap_syntax.specs.Requests.{meant};
ghost use Rattle.imap_syntax.specs.Trees.{tree_of};
ghost use Rattle.imap_messages.specs.Fetching.{asked_fetch};
ghost use Rattle.imap_messages.specs.Picking.{numbering_of as numbering_by};
ghost use Rattle.imap_messages.specs.Seeking.{asked_search};
ghost use Rattle.imap_states.specs.declared.state.ImapState.{ImapState};
ghost use Rattle.imap_commands.specs.Replies.{fetch_asked, search_asked, whole_said};
ghost use Rattle.imap_commands.specs.Texts.{whole_texts};
ghost use Rattle.imap_commands.specs.Orders.{order_said, order_texts};

use arch_base::Bytes;
use imap_messages::{FetchCommand, Numbering, SearchCommand};
use imap_states::StateCommand;
use imap_syntax::{Ask, Item, Key, SeqSet};

/// A command, by who answers it.
#[derive(Clone, Copy, Drop)]
pub(crate) enum Order<'a> {
    /// One that reads no messages, after its tag.
    State(&'a [u8], StateCommand<'a>),
    /// FETCH or UID FETCH.
    Fetch(FetchCommand<'a>),
    /// SEARCH or UID SEARCH.
    Search(SearchCommand<'a>),
}

/// Returns a command as it is answered.
pub(crate) fn order_of(ask: &Ask) -> Order<'_>
    ensures said { (a : Archive) (s : ImapState) (way : Departure)
        → whole_said a s (meant ask.now) way ≡ order_said a s result way }
    ensures texts { (a : Archive) (s : ImapState)
        → whole_texts a s (meant ask.now) ≡ order_texts a s result }
{
    match ask {
        Ask::Capability(tag) => Order::State(tag.as_slice(), StateCommand::Capability),
        Ask::Noop(tag) => Order::State(tag.as_slice(), StateCommand::Noop),
        Ask::Logout(tag) => Order::State(tag.as_slice(), StateCommand::Logout),
        Ask::Check(tag) => Order::State(tag.as_slice(), StateCommand::Check),
        Ask::Close(tag) => Order::State(tag.as_slice(), StateCommand::Close),
        Ask::Expunge(tag) => Order::State(tag.as_slice(), StateCommand::ChangeMessages),
        Ask::Idle(tag) => Order::State(tag.as_slice(), StateCommand::Idle),
        Ask::Login(tag, _, _) => Order::State(tag.as_slice(), StateCommand::Login),
        Ask::Authenticate(tag, _) => Order::State(tag.as_slice(), StateCommand::Authenticate),
        Ask::Select(tag, mailbox) => {
            Order::State(tag.as_slice(), StateCommand::Select(mailbox.as_slice()))
        }
        Ask::Examine(tag, mailbox) => {
            Order::State(tag.as_slice(), StateCommand::Examine(mailbox.as_slice()))
        }
        Ask::Create(tag, _) => Order::State(tag.as_slice(), StateCommand::Change),
        Ask::Delete(tag, _) => Order::State(tag.as_slice(), StateCommand::Change),
        Ask::Subscribe(tag, _) => Order::State(tag.as_slice(), StateCommand::Change),
        Ask::Unsubscribe(tag, _) => Order::State(tag.as_slice(), StateCommand::Change),
        Ask::Rename(tag, _, _) => Order::State(tag.as_slice(), StateCommand::Change),
        Ask::Append(tag, _, _, _, _) => Order::State(tag.as_slice(), StateCommand::Change),
        Ask::List(tag, reference, pattern) => Order::State(
            tag.as_slice(),
            StateCommand::List(reference.as_slice(), pattern.as_slice()),
        ),
        Ask::Lsub(tag, reference, pattern) => Order::State(
            tag.as_slice(),
            StateCommand::Lsub(reference.as_slice(), pattern.as_slice()),
        ),
        Ask::Status(tag, mailbox, items) => Order::State(
            tag.as_slice(),
            StateCommand::Status(mailbox.as_slice(), items.as_slice()),
        ),
        Ask::Copy(tag, _, _) => Order::State(tag.as_slice(), StateCommand::ChangeMessages),
        Ask::UidCopy(tag, _, _) => Order::State(tag.as_slice(), StateCommand::ChangeMessages),
        Ask::Store(tag, _, _, _) => Order::State(tag.as_slice(), StateCommand::ChangeMessages),
        Ask::UidStore(tag, _, _, _) => Order::State(tag.as_slice(), StateCommand::ChangeMessages),
        Ask::Fetch(tag, set, items) => Order::Fetch(fetch_of(tag, false, set, items.as_slice())),
        Ask::UidFetch(tag, set, items) => Order::Fetch(fetch_of(tag, true, set, items.as_slice())),
        Ask::Search(tag, charset, keys) => {
            Order::Search(search_of(tag, false, charset, keys.as_slice()))
        }
        Ask::UidSearch(tag, charset, keys) => {
            Order::Search(search_of(tag, true, charset, keys.as_slice()))
        }
    }
}

/// Returns a FETCH, whose numbers are UIDs or sequence numbers.
fn fetch_of<'a>(
    tag: &'a Bytes,
    by_uid: bool,
    set: &'a SeqSet,
    items: &'a [Item],
) -> FetchCommand<'a>
    ensures { asked_fetch result ≡ fetch_asked tag.now by_uid set.now items.now }
{
    FetchCommand {
        tag: tag.as_slice(),
        numbering: numbering_of(by_uid),
        set,
        items,
    }
}

/// Returns a SEARCH, which gives UIDs or sequence numbers.
fn search_of<'a>(
    tag: &'a Bytes,
    by_uid: bool,
    charset: &'a Option<Bytes>,
    keys: &'a [Key],
) -> SearchCommand<'a>
    ensures { asked_search result
        ≡ search_asked tag.now by_uid charset.now (map tree_of keys.now) }
{
    SearchCommand {
        tag: tag.as_slice(),
        numbering: numbering_of(by_uid),
        charset: name_of(charset),
        keys,
    }
}

/// Returns how a command names messages.
fn numbering_of(by_uid: bool) -> Numbering
    ensures { result ≡ numbering_by by_uid }
{
    if by_uid {
        Numbering::Uid
    } else {
        Numbering::Sequence
    }
}

/// Returns the name of a charset, if it is told.
fn name_of(charset: &Option<Bytes>) -> Option<&[u8]>
    ensures { option_copied result ≡ charset.now }
{
    match charset {
        Some(name) => Some(name.as_slice()),
        None => None,
    }
}
