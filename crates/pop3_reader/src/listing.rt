//! What STAT, LIST, UIDL and DELE say of a maildrop.
//! Pure.
ghost use Rattle.std.specs.Prelude.{◌≡◌, ◌++◌, [], codes, OnErr};
ghost use Rattle.edge_io.specs.Phrases.{SaysTo};
ghost use Rattle.wire_replies.specs.Waits.{Waits};
ghost use Rattle.pop3_reader.specs.Maildrops.{mail_at};
ghost use Rattle.pop3_reader.specs.Texts.{mail_line, mail_lines, all_words, one_words, listing_words, stat_words, dele_words};

use crate::maildrop::{MailSize, Maildrop};
use crate::notice::{PopNotice, say_notice};
use crate::order::MailListing;
use edge_io::{Sink, SinkFault};
use wire_replies::{Phrase, Waiting, send};

/// Says how many messages there are, and their octets.
pub(crate) fn say_stat<O: Sink>(maildrop: &Maildrop, out: &mut O) -> Result<(), SinkFault>
    ensures said { SaysTo O.Sink (stat_words maildrop.now) out.old out.new result }
    ensures sink { O.alike out.old out.new }
{
    send(
        &[
            Phrase::Words(b"+OK "),
            Phrase::Number(maildrop.count()),
            Phrase::Words(b" "),
            Phrase::Number(maildrop.total_octets()),
            Phrase::Words(b"\r\n"),
        ],
        out,
    )
}

/// Says that no message can be removed, if there is one.
pub(crate) fn say_dele<O: Sink>(k: u64, maildrop: &Maildrop, out: &mut O) -> Result<(), SinkFault>
    ensures said { SaysTo O.Sink (dele_words (mail_at maildrop.now.mails k)) out.old out.new result }
    ensures sink { O.alike out.old out.new }
{
    match maildrop.mail(k) {
        None => say_notice(PopNotice::NoMessage, out),
        Some(_) => say_notice(PopNotice::ReadOnly, out),
    }
}

/// Says the line of one message, or those of all.
pub(crate) fn say_listing<O: Sink>(
    listing: MailListing,
    k: Option<u64>,
    maildrop: &Maildrop,
    out: &mut O,
) -> Result<(), SinkFault>
    ensures said { SaysTo O.Sink (listing_words listing maildrop.now k) out.old out.new result }
    ensures sink { O.alike out.old out.new }
{
    match k {
        None => say_all(listing, maildrop, out),
        Some(k) => say_one(listing, maildrop.born, k, maildrop.mail(k), out),
    }
}

/// Says the line of a message, if there is one.
fn say_one<O: Sink>(
    listing: MailListing,
    born: u32,
    k: u64,
    mail: Option<MailSize>,
    out: &mut O,
) -> Result<(), SinkFault>
    ensures said { SaysTo O.Sink (one_words listing born k mail) out.old out.new result }
    ensures sink { O.alike out.old out.new }
{
    match mail {
        None => say_notice(PopNotice::NoMessage, out),
        Some(mail) => say_line(listing, born, k, mail, out),
    }
}

/// Says the line of a message.
fn say_line<O: Sink>(
    listing: MailListing,
    born: u32,
    k: u64,
    mail: MailSize,
    out: &mut O,
) -> Result<(), SinkFault>
    ensures said { SaysTo O.Sink (codes "+OK " ++ mail_line listing born k mail) out.old out.new
        result }
    ensures sink { O.alike out.old out.new }
{
    match listing {
        MailListing::Sizes => send(
            &[
                Phrase::Words(b"+OK "),
                Phrase::Number(k),
                Phrase::Words(b" "),
                Phrase::Number(mail.octets),
                Phrase::Words(b"\r\n"),
            ],
            out,
        ),
        MailListing::Uids => send(
            &[
                Phrase::Words(b"+OK "),
                Phrase::Number(k),
                Phrase::Words(b" "),
                Phrase::Number(u64::from(born)),
                Phrase::Words(b"."),
                Phrase::Number(u64::from(mail.number)),
                Phrase::Words(b"\r\n"),
            ],
            out,
        ),
    }
}

/// Says the lines of all messages, in order.
fn say_all<O: Sink>(listing: MailListing, maildrop: &Maildrop, out: &mut O) -> Result<(), SinkFault>
    ensures said { SaysTo O.Sink (all_words listing maildrop.now) out.old out.new result }
    ensures sink { O.alike out.old out.new }
{
    let mut reply = Waiting::new();
    reply.push(&[Phrase::Words(b"+OK\r\n")], out)?;
    push_lines(listing, maildrop, &mut reply, out)?;
    reply.finish(&[Phrase::Words(b".\r\n")], out)
}

/// Appends the lines of all messages, in order.
fn push_lines<O: Sink>(
    listing: MailListing,
    maildrop: &Maildrop,
    reply: &mut Waiting,
    out: &mut O,
) -> Result<(), SinkFault>
    ensures said { Waits (mail_lines listing maildrop.now.born 1 maildrop.now.mails) reply.old
        (O.taken out.old) (O.faults out.old) reply.new (O.taken out.new) (O.faults out.new) result }
    ensures sink { O.alike out.old out.new }
{
    let mails = maildrop.mails.as_slice();
    let mut k: u64 = 0;
    for mail in mails {
        k += 1;
        match push_line(listing, maildrop.born, k, *mail, reply, out) {
            Ok(()) => {}
            Err(fault) => return Err(fault),
        }
    }
    Ok(())
}

/// Appends the line of a message.
fn push_line<O: Sink>(
    listing: MailListing,
    born: u32,
    k: u64,
    mail: MailSize,
    reply: &mut Waiting,
    out: &mut O,
) -> Result<(), SinkFault>
    ensures said { Waits (mail_line listing born k mail) reply.old (O.taken out.old)
        (O.faults out.old) reply.new (O.taken out.new) (O.faults out.new) result }
    ensures empty { OnErr result (reply.new ≡ []) }
    ensures sink { O.alike out.old out.new }
{
    match listing {
        MailListing::Sizes => reply.push(
            &[
                Phrase::Number(k),
                Phrase::Words(b" "),
                Phrase::Number(mail.octets),
                Phrase::Words(b"\r\n"),
            ],
            out,
        ),
        MailListing::Uids => reply.push(
            &[
                Phrase::Number(k),
                Phrase::Words(b" "),
                Phrase::Number(u64::from(born)),
                Phrase::Words(b"."),
                Phrase::Number(u64::from(mail.number)),
                Phrase::Words(b"\r\n"),
            ],
            out,
        ),
    }
}
