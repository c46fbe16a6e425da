//! Wire forms, pieces of mailbox files and first values against the rules.
use crate::row_cases::{CASES, RowCase};
use arch_base::{Bytes, NoMemory};
use mail_forms::{flat_first, line_feeds, mbox_len, wire, wire_len};
use mail_reader::first_value;
use std::alloc::Global;

/// A text, and its wire form.
#[derive(Drop)]
struct WireCase {
    text: &'static [u8],
    wire: &'static [u8],
}

/// Texts with line ends and NULs at all places, and their wire forms.
const WIRES: [WireCase; 8] = [
    WireCase {
        text: b"",
        wire: b"",
    },
    WireCase {
        text: b"\n",
        wire: b"\r\n",
    },
    WireCase {
        text: b"a\nb\n",
        wire: b"a\r\nb\r\n",
    },
    WireCase {
        text: b"\r\n",
        wire: b" \r\n",
    },
    WireCase {
        text: b"a\r\r\n\nb",
        wire: b"a  \r\n\r\nb",
    },
    WireCase {
        text: b"\0a\rb\0\n\r",
        wire: b" a b \r\n ",
    },
    WireCase {
        text: b"\t\x0b\x7f\xff\x80\n",
        wire: b"\t\x0b\x7f\xff\x80\r\n",
    },
    WireCase {
        text: b"From: Ann <ann@example.org>\nMessage-ID: <a@x>\n\none\n",
        wire: b"From: Ann <ann@example.org>\r\nMessage-ID: <a@x>\r\n\r\none\r\n",
    },
];

/// Returns the wire form of a text after other bytes.
fn wire_after(alloc: Global, front: &[u8], text: &[u8]) -> Result<Bytes, NoMemory> {
    let mut into = Bytes::new(alloc);
    into.push_slice(front)?;
    wire(text, &mut into)?;
    Ok(into)
}

/// Returns whether a text has this wire form, after the bytes that are there.
fn has_wire(alloc: Global, case: &WireCase) -> bool {
    match wire_after(alloc, b"> ", case.text) {
        Ok(sent) => sent.as_slice().strip_prefix(b"> ") == Some(case.wire),
        Err(NoMemory) => false,
    }
}

#[test]
fn lines_are_sent_with_both_line_ends(rt: HostRuntime) {
    for case in &WIRES {
        assert!(rt; has_wire(rt.alloc(), case));
    }
}

#[test]
fn a_wire_form_is_as_long_as_told(rt: HostRuntime) {
    for case in &WIRES {
        assert!(rt; wire_len(case.text) == case.wire.len() as u64);
    }
}

#[test]
fn line_feeds_are_counted(rt: HostRuntime) {
    assert!(rt; line_feeds(b"") == 0 && line_feeds(b"\r") == 0);
    assert!(rt; line_feeds(b"\n\r\n a\n") == 3);
}

/// A text, and the length of its piece of a mailbox file.
#[derive(Drop)]
struct MboxCase {
    text: &'static [u8],
    len: u64,
}

/// Texts with lines that are quoted and lines that aren't.
const PIECES: [MboxCase; 12] = [
    MboxCase { text: b"", len: 40 },
    MboxCase {
        text: b"\n",
        len: 41,
    },
    MboxCase {
        text: b"From ",
        len: 46,
    },
    MboxCase {
        text: b"From a\nFrom b\n",
        len: 56,
    },
    MboxCase {
        text: b">From a\n",
        len: 49,
    },
    MboxCase {
        text: b">>>>From a\n",
        len: 52,
    },
    MboxCase {
        text: b" From a\n",
        len: 48,
    },
    MboxCase {
        text: b"> From a\n",
        len: 49,
    },
    MboxCase {
        text: b"from a\n",
        len: 47,
    },
    MboxCase {
        text: b"From\n",
        len: 45,
    },
    MboxCase {
        text: b"From: a\n\nFrom b\n",
        len: 57,
    },
    MboxCase {
        text: b"a From b\n>\n",
        len: 51,
    },
];

#[test]
fn a_piece_of_a_mailbox_is_as_long_as_told(rt: HostRuntime) {
    for case in &PIECES {
        assert!(rt; mbox_len(case.text) == case.len);
    }
}

/// Returns whether the fields of an overview line are the flat first values of a mail.
fn has_subject(alloc: Global, case: &RowCase) -> bool {
    match flat_first(alloc, case.text, b"SUBJECT") {
        Ok(value) => case.over.starts_with(value.as_slice()),
        Err(NoMemory) => false,
    }
}

#[test]
fn the_first_value_of_a_name_is_found_in_any_case(rt: HostRuntime) {
    for case in &CASES {
        assert!(rt; has_subject(rt.alloc(), case));
    }
}

#[test]
fn the_first_of_several_fields_counts(rt: HostRuntime) {
    let text = b"A: b\nC:\nc: d\nA: e\n\nF: g\n";
    assert!(rt; first_value(text, b"a") == Some(b" b"));
    assert!(rt; first_value(text, b"C") == Some(b""));
    assert!(rt; first_value(text, b"F").is_none());
}
