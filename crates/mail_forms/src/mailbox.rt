//! The length of a text's piece of a mailbox file.
//! Pure.
ghost use Rattle.std.specs.Prelude.{◌≡◌, ◌<◌, ◌≤◌, ◌-◌, ◌^◌, min, length, count_by, if◌then◌else◌};
ghost use Rattle.std.specs.List.{prefix_len};
ghost use Rattle.mail_reader.specs.Lines.{lines_of};
ghost use Rattle.mail_forms.specs.Mailboxes.{mbox_of, is_from_line as from_line, is_mark as mark};

use mail_reader::line_len;

/// The length of the line before each message, and of the empty line after it, in bytes.
const AROUND: u64 = 40;

/// Returns the length of a text's piece of a mailbox file, in bytes.
///
/// The piece is the line `From mboxrd@z Thu Jan  1 00:00:00 1970`, the text, and an empty line. Each
/// line of the text that starts with `From `, after any number of `>`, has one more `>` before it. If
/// the length doesn't fit in a `u64`, which no text in memory reaches, this is the greatest `u64`.
pub fn mbox_len(text: &[u8]) -> u64
    ensures value { length text.now < 2 ^ 62 → result ≡ length (mbox_of text.now) }
    ensures most { result ≡ min (length (mbox_of text.now)) (2 ^ 64 - 1) }
{
    let marks = from_lines(text) as u64;
    (text.len() as u64)
        .saturating_add(marks)
        .saturating_add(AROUND)
}

/// Returns the number of lines that start with `From ` after any number of `>`.
fn from_lines(text: &[u8]) -> usize
    ensures value { result ≡ count_by from_line (lines_of text.now) }
    ensures few { result ≤ length text.now }
{
    let mut rest = text;
    let mut found = 0;
    while !rest.is_empty() {
        let (line, after) = rest.split_at(line_len(rest));
        found += marks_for(line);
        rest = after;
    }
    found
}

/// Returns how many marks are put before a line: one if it starts with `From ` after any number of
/// `>`.
fn marks_for(line: &[u8]) -> usize
    ensures { result ≡ (if from_line line.now then 1 else 0) }
{
    if is_from_line(line) { 1 } else { 0 }
}

/// Returns whether a line starts with `From ` after any number of `>`.
pub fn is_from_line(line: &[u8]) -> bool
    ensures { result ≡ from_line line.now }
{
    line.split_at(marks_before(line)).1.starts_with(b"From ")
}

/// Returns the number of `>` at the front of a line.
fn marks_before(line: &[u8]) -> usize
    ensures value { result ≡ prefix_len mark line.now }
    ensures within { result ≤ length line.now }
{
    line.iter().take_while(|byte| **byte == b'>').count()
}
