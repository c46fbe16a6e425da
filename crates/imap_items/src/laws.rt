//! Laws of sections and of keys. Each function does nothing: its contract is the law.
//! Pure.
ghost use Rattle.imap_items.specs.Laws.{SectionsAreSpans, InnerMailsAgree, UnreadTextsAreAlike, PiecesAreFound};

use mail_reader::parts_lie_in;

/// Shows that each section of a mail is one span of its text, or a header: whole fields of a message
/// in the text, in order, with an empty line after them.
pub fn sections_are_spans()
    ensures { SectionsAreSpans }
{
    parts_lie_in();
}

/// Shows that a section of a message in a mail is the same section of that message by itself.
///
/// The section is all of it, its header, some fields of that, or its text.
pub fn inner_mails_agree()
    ensures { InnerMailsAgree }
{}

/// Shows that a key that doesn't read the text of a message answers the same of any text.
pub fn unread_texts_are_alike()
    ensures { UnreadTextsAreAlike }
{}

/// Shows that a text is found in another exactly where it is a piece of it.
pub fn pieces_are_found()
    ensures { PiecesAreFound }
{}
