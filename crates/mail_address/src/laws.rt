//! Laws of the addresses of a list. Each function does nothing: its contract is the law.
//! Pure.
ghost use Rattle.mail_address.specs.Laws.{EmptyValue, EveryValueIsFront, OutsideIsBetween, PlainReadBack};
ghost use Rattle.mail_address.specs.Mailboxes.{MembersReadBack};
ghost use Rattle.mail_address.specs.Texts.{WordsAreJoined, SpacesAreNoWords, NameTextIsSaid, AddressTextIsSaid};
ghost use Rattle.mail_address.specs.Single.{BareReads, ItemReads, OpenItemReads, GroupReads, AddressIsSplit, AloneIsMailbox, NothingIsNoMailbox};

/// Shows that a value without bytes has no addresses.
pub fn empty_value()
    ensures { EmptyValue }
{}

/// Shows that a list of plain mailboxes, each spelled `NAME <LOCAL@HOST>` and joined by `, `, is
/// read back as these mailboxes.
pub fn plain_read_back()
    ensures { PlainReadBack }
{}

/// Shows that every value is the front of a text that is spelled from bytes outside, whole quoted
/// strings and whole comments.
pub fn every_value_is_front()
    ensures { EveryValueIsFront }
{}

/// Shows that the definition takes just those bytes as outside that are outside of the quoted
/// strings and comments with which a value, or a text that starts with it, is spelled.
pub fn outside_is_between()
    ensures { OutsideIsBetween }
{}

/// Shows that a list of mailboxes and groups is read back as these.
///
/// Names and addresses may have quoted strings and comments, and addresses may have routes.
pub fn members_read_back()
    ensures { MembersReadBack }
{}

/// Shows that the words of a name are joined by one space each, that spaces at its ends are
/// removed, and that spaces alone are no words.
pub fn words_are_joined()
    ensures words { WordsAreJoined }
    ensures spaces { SpacesAreNoWords }
{}

/// Shows that an item without `<` is a mailbox with its last comment as the name.
///
/// Its address is the bytes outside of comments.
pub fn bare_reads()
    ensures { BareReads }
{}

/// Shows that an item with `<` is a mailbox with the address that follows, up to `>` or up to the
/// end.
///
/// The bytes after `>` are skipped.
pub fn item_reads()
    ensures closed { ItemReads }
    ensures open_ended { OpenItemReads }
{}

/// Shows that the text of a name is what its parts say. Of a backslash and the byte that it quotes,
/// only the byte stays.
pub fn name_text_is_said()
    ensures { NameTextIsSaid }
{}

/// Shows that the text of an address is what its pieces say.
pub fn address_text_is_said()
    ensures { AddressTextIsSaid }
{}

/// Shows that a group that is open at the end of a value ends there, and that a colon in it ends no
/// item.
pub fn group_reads()
    ensures { GroupReads }
{}

/// Shows that the address of a mailbox is split at its last `@`.
///
/// Without an `@` there is no host. A name or an address alone is a mailbox; without both there is
/// no mailbox.
pub fn mailbox_is_split()
    ensures split { AddressIsSplit }
    ensures alone { AloneIsMailbox }
    ensures nothing { NothingIsNoMailbox }
{}
