//! Mailbox files of texts, piece by piece.
//! Allocates.
ghost use Rattle.std.specs.Prelude.{◌≡◌, ◌++◌, ◌<◌, ◌-◌, ◌^◌, List, ℕ, length, take, map, min, sum_by, OnOk, OnErr};
ghost use Rattle.std.specs.List.{flat_map};
ghost use Rattle.mail_reader.specs.Lines.{lines_of};
ghost use Rattle.mail_forms.specs.Mailboxes.{mbox_of, quoted};
ghost use Rattle.atom_mbox.specs.MailboxFiles.{mailbox_of, piece_len, told_len};

use arch_base::{Bytes, NoMemory};
use mail_forms::{Row, is_from_line};
use mail_reader::line_len;

/// Returns the length of the mailbox file of the texts of these rows, in bytes: the sum of the lengths
/// that the rows tell.
///
/// If it doesn't fit in a `u64`, this is the greatest `u64`.
pub fn mbox_len(rows: &[Row]) -> u64
    ensures sum { result ≡ min (sum_by told_len rows.now) (2 ^ 64 - 1) }
    ensures texts { (texts : List (List ℕ)) → map told_len rows.now ≡ map piece_len texts
        → length (mailbox_of texts) < 2 ^ 64 → result ≡ length (mailbox_of texts) }
{
    sum_of_pieces(rows)
}

/// Returns the sum of the lengths of the rows' pieces, or the greatest `u64` if it doesn't fit.
fn sum_of_pieces(rows: &[Row]) -> u64
    ensures { result ≡ min (sum_by told_len rows.now) (2 ^ 64 - 1) }
{
    let mut len: u64 = 0;
    for row in rows {
        len = len.saturating_add(row.mbox);
    }
    len
}

/// Appends the piece of a mailbox file that holds a text.
///
/// It is the line `From mboxrd@z Thu Jan  1 00:00:00 1970`, the text, and an empty line. Each line
/// of the text that starts with `From `, after any number of `>`, has one more `>` before it.
///
/// `NoMemory` if an allocation fails, and the bytes are unchanged.
pub fn mbox_piece(text: &[u8], into: &mut Bytes) -> Result<(), NoMemory>
    ensures ok { OnOk result (into.new ≡ into.old ++ mbox_of text.now) }
    ensures err { OnErr result (into.new ≡ into.old) }
{
    let len = into.as_slice().len();
    let pushed = push_piece(text, into);
    if pushed.is_err() {
        into.truncate(len);
    }
    pushed
}

/// Appends the piece of a text.
///
/// `NoMemory` may leave a part of it appended.
fn push_piece(text: &[u8], into: &mut Bytes) -> Result<(), NoMemory>
    ensures ok { OnOk result (into.new ≡ into.old ++ mbox_of text.now) }
    ensures kept { take (length into.old) into.new ≡ into.old }
{
    into.push_slice(b"From mboxrd@z Thu Jan  1 00:00:00 1970\n")?;
    push_lines(text, into)?;
    into.push(b'\n')
}

/// Appends the lines of a text as a mailbox file has them.
///
/// `NoMemory` may leave a part of them appended.
fn push_lines(text: &[u8], into: &mut Bytes) -> Result<(), NoMemory>
    ensures ok { OnOk result (into.new ≡ into.old ++ flat_map quoted (lines_of text.now)) }
    ensures kept { take (length into.old) into.new ≡ into.old }
{
    let mut rest = text;
    while !rest.is_empty() {
        let (line, after) = rest.split_at(line_len(rest));
        push_line(line, into)?;
        rest = after;
    }
    Ok(())
}

/// Appends a line as a mailbox file has it.
///
/// `NoMemory` may leave its mark appended.
fn push_line(line: &[u8], into: &mut Bytes) -> Result<(), NoMemory>
    ensures ok { OnOk result (into.new ≡ into.old ++ quoted line.now) }
    ensures kept { take (length into.old) into.new ≡ into.old }
{
    if is_from_line(line) {
        into.push(b'>')?;
    }
    into.push_slice(line)
}
