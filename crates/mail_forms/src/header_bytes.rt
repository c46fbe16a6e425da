//! The bytes of a text's header.
//! Pure.
ghost use Rattle.std.specs.Prelude.{◌≡◌, ◌≤◌, length};
ghost use Rattle.mail_reader.specs.Fields.{fields_of};
ghost use Rattle.mail_reader.specs.Laws.{wholes};

use mail_reader::{fields, fields_are_front};

/// Returns the header of a text: its fields from first to last, without the empty line that follows
/// them (RFC 5322, section 2.2).
pub fn header(text: &[u8]) -> &[u8]
    ensures { result.now ≡ wholes (fields_of text.now) }
{
    fields_are_front();
    &text[..header_len(text)]
}

/// Returns the length of the header of a text.
fn header_len(text: &[u8]) -> usize
    ensures value { result ≡ length (wholes (fields_of text.now)) }
    ensures within { result ≤ length text.now }
{
    fields_are_front();
    let mut len = 0;
    for field in fields(text) {
        len += field.whole.len();
    }
    len
}
