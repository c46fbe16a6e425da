//! What RETR and TOP say of a message of the maildrop.
//! Reads the disk.
ghost use Rattle.std.specs.Prelude.{◌≡◌, ◌≤◌, ◌++◌, ℕ, List, length, true, false, is_ok, is_some};
ghost use Rattle.arch_model.specs.OverShelf.{ShelfKept};
ghost use Rattle.arch_model.specs.Archives.{Archive, live, text_of};
ghost use Rattle.arch_model.specs.Shelves.{ReadsOnce};
ghost use Rattle.edge_io.specs.Phrases.{SaysTo};
ghost use Rattle.line_door.specs.Acts.{Acts, held_if, at_sink};
ghost use Rattle.line_door.specs.Readers.{as_said, line_reader};
ghost use Rattle.pop3_reader.specs.Commands as commands;
ghost use Rattle.pop3_reader.specs.Replies.{in_way, reads_text};
ghost use Rattle.pop3_reader.specs.Sessions.{SaysMail};
ghost use Rattle.pop3_reader.specs.Texts.{text_words, first_lines as first_lines_of};

use crate::maildrop::{MailSize, Maildrop, PopState};
use crate::notice::{PopNotice, say_notice};
use crate::order::{MailOrder, MailPart};
use crate::refusals::REFUSED;
use arch_base::Bytes;
use arch_model::{Shelf, is_live};
use edge_io::{Sink, SinkFault};
use mail_forms::header;
use mail_reader::{body, line_len};
use shelf_doors::say_unread;
use std::alloc::Global;
use wire_replies::{Phrase, send};

/// Says a part of a message of the maildrop by its text now, or that there is no such message or that
/// it is gone, or why its text was not read. Reads one text at most.
pub(crate) fn say_mail<S: Shelf, O: Sink>(
    part: MailPart,
    k: u64,
    alloc: Global,
    maildrop: &Maildrop,
    shelf: &mut S,
    out: &mut O,
) -> Result<(), SinkFault>
    requires { S.ready shelf.old ≡ true }
    ensures acts { (a : Archive) (rest : List ℕ) → S.holds shelf.old a
        → Acts (λ way. as_said rest (in_way a (PopState.Entered maildrop.now) (commands.Asks (MailOrder.Read part k)) way))
        (at_sink O.Sink out.old (S.faults shelf.old))
        (held_if (is_ok result) (line_reader (PopState.Entered maildrop.now) rest)) a
        (at_sink O.Sink out.new (S.faults shelf.new)) }
    ensures unused { (a : Archive) → S.holds shelf.old a
        → reads_text a (PopState.Entered maildrop.now) (commands.Asks (MailOrder.Read part k)) ≡ false
        → S.faults shelf.new ≡ S.faults shelf.old }
    ensures shelf { ShelfKept S.Shelf shelf.old shelf.new }
    ensures reads { ReadsOnce (S.reads shelf.old) (S.reads shelf.new) }
    ensures sink { O.alike out.old out.new }
{
    match maildrop.mail(k) {
        None => say_notice(PopNotice::NoMessage, out),
        Some(mail) => say_found(part, mail, alloc, shelf, out),
    }
}

/// Says a part of a message, or that it is gone, or why its text was not read.
fn say_found<S: Shelf, O: Sink>(
    part: MailPart,
    mail: MailSize,
    alloc: Global,
    shelf: &mut S,
    out: &mut O,
) -> Result<(), SinkFault>
    requires { S.ready shelf.old ≡ true }
    ensures said { (a : Archive) → S.holds shelf.old a → SaysMail part mail
        (text_of (live a.entries) mail.number)
        (at_sink O.Sink out.old (S.faults shelf.old)) result
        (at_sink O.Sink out.new (S.faults shelf.new)) }
    ensures shelf { ShelfKept S.Shelf shelf.old shelf.new }
    ensures reads { ReadsOnce (S.reads shelf.old) (S.reads shelf.new) }
    ensures sink { O.alike out.old out.new }
{
    if is_live(mail.number, shelf) {
        return say_live(part, mail, alloc, shelf, out);
    }
    say_notice(PopNotice::Gone, out)
}

/// Says a part of a live message, or why its text was not read.
fn say_live<S: Shelf, O: Sink>(
    part: MailPart,
    mail: MailSize,
    alloc: Global,
    shelf: &mut S,
    out: &mut O,
) -> Result<(), SinkFault>
    requires ready { S.ready shelf.old ≡ true }
    requires live { (a : Archive) → S.holds shelf.old a
        → is_some (text_of (live a.entries) mail.number) ≡ true }
    ensures said { (a : Archive) → S.holds shelf.old a → SaysMail part mail
        (text_of (live a.entries) mail.number)
        (at_sink O.Sink out.old (S.faults shelf.old)) result
        (at_sink O.Sink out.new (S.faults shelf.new)) }
    ensures shelf { ShelfKept S.Shelf shelf.old shelf.new }
    ensures reads { ReadsOnce (S.reads shelf.old) (S.reads shelf.new) }
    ensures sink { O.alike out.old out.new }
{
    let mut text = Bytes::new(alloc);
    match shelf.text(mail.number, &mut text) {
        Ok(()) => say_text(part, mail, text.as_slice(), out),
        Err(refusal) => say_unread(REFUSED, refusal, out),
    }
}

/// Says a part of a message with a text.
fn say_text<O: Sink>(
    part: MailPart,
    mail: MailSize,
    text: &[u8],
    out: &mut O,
) -> Result<(), SinkFault>
    ensures said { SaysTo O.Sink (text_words part mail text.now) out.old out.new result }
    ensures sink { O.alike out.old out.new }
{
    match part {
        MailPart::Whole => say_whole(mail, text, out),
        MailPart::Top(count) => say_top(count, text, out),
    }
}

/// Says the octets of a message, and its text.
fn say_whole<O: Sink>(mail: MailSize, text: &[u8], out: &mut O) -> Result<(), SinkFault>
    ensures said { SaysTo O.Sink (text_words MailPart.Whole mail text.now) out.old out.new result }
    ensures sink { O.alike out.old out.new }
{
    send(
        &[
            Phrase::Words(b"+OK "),
            Phrase::Number(mail.octets),
            Phrase::Words(b" octets\r\n"),
            Phrase::Block(text),
            Phrase::Words(b".\r\n"),
        ],
        out,
    )
}

/// Says the header of a text, an empty line, and so many lines of its body.
fn say_top<O: Sink>(count: u64, text: &[u8], out: &mut O) -> Result<(), SinkFault>
    ensures said { (mail : MailSize) → SaysTo O.Sink (text_words (MailPart.Top count) mail text.now)
        out.old out.new result }
    ensures sink { O.alike out.old out.new }
{
    send(
        &[
            Phrase::Words(b"+OK\r\n"),
            Phrase::Block(header(text)),
            Phrase::Words(b"\r\n"),
            Phrase::Block(first_lines(count, body(text))),
            Phrase::Words(b".\r\n"),
        ],
        out,
    )
}

/// Returns the first lines of a text, or all if there are fewer.
fn first_lines(count: u64, text: &[u8]) -> &[u8]
    ensures { result.now ≡ first_lines_of count text.now }
{
    text.split_at(lines_len(count, text)).0
}

/// Returns the length of the first lines of a text, in bytes.
fn lines_len(count: u64, text: &[u8]) -> usize
    ensures value { result ≡ length (first_lines_of count text.now) }
    ensures within { result ≤ length text.now }
{
    let mut rest = text;
    let mut left = count;
    while left > 0 && !rest.is_empty() {
        rest = rest.split_at(line_len(rest)).1;
        left -= 1;
    }
    text.len() - rest.len()
}
