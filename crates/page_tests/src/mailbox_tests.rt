//! Mailbox files, worked out from the rules.
use arch_base::{Bytes, Form, NoMemory};
use atom_mbox::{mbox_len, mbox_piece};
use fixtures::FIRST;
use mail_commits::text_ids;
use mail_forms::Row;
use mail_reader::is_stored;
use mail_rows::row_of;
use std::alloc::Global;

/// A text, and the lines of its piece of a mailbox file between the first line and the empty one.
#[derive(Drop)]
struct PieceCase {
    text: &'static [u8],
    lines: &'static [u8],
}

/// Texts with lines that are quoted and lines that aren't.
static PIECES: [PieceCase; 14] = [
    PieceCase {
        text: b"",
        lines: b"",
    },
    PieceCase {
        text: b"\n\n",
        lines: b"\n\n",
    },
    PieceCase {
        text: b"From ",
        lines: b">From ",
    },
    PieceCase {
        text: b"From a\nFrom b\n",
        lines: b">From a\n>From b\n",
    },
    PieceCase {
        text: b">From a\n",
        lines: b">>From a\n",
    },
    PieceCase {
        text: b">>>>>>>From a\n\n>From ",
        lines: b">>>>>>>>From a\n\n>>From ",
    },
    PieceCase {
        text: b" From a\n> From a\n>\tFrom a\n",
        lines: b" From a\n> From a\n>\tFrom a\n",
    },
    PieceCase {
        text: b"from a\nFROM a\nFrom\tb\nFrom\n>From\nFro",
        lines: b"from a\nFROM a\nFrom\tb\nFrom\n>From\nFro",
    },
    PieceCase {
        text: b"From: a\n\nFrom b\n",
        lines: b"From: a\n\n>From b\n",
    },
    PieceCase {
        text: b"a From b\n>\n>>\n",
        lines: b"a From b\n>\n>>\n",
    },
    PieceCase {
        text: b"a\rFrom b\r\n\rFrom c\n",
        lines: b"a\rFrom b\r\n\rFrom c\n",
    },
    PieceCase {
        text: b"\0\xff\nFrom \0\xff\n",
        lines: b"\0\xff\n>From \0\xff\n",
    },
    PieceCase {
        text: b"From mboxrd@z Thu Jan  1 00:00:00 1970\n",
        lines: b">From mboxrd@z Thu Jan  1 00:00:00 1970\n",
    },
    PieceCase {
        text: FIRST,
        lines: FIRST,
    },
];

/// Returns the piece of a text after other bytes.
fn piece_after(alloc: Global, front: &[u8], text: &[u8]) -> Result<Bytes, NoMemory> {
    let mut into = Bytes::new(alloc);
    into.push_slice(front)?;
    mbox_piece(text, &mut into)?;
    Ok(into)
}

/// Returns the bytes between the first line of a piece and its empty line, or `None` if there is no
/// such line.
fn inside(piece: &[u8]) -> Option<&[u8]> {
    piece
        .strip_prefix(b"From mboxrd@z Thu Jan  1 00:00:00 1970\n")?
        .strip_suffix(b"\n")
}

/// Returns whether a text has this piece.
fn has_piece(alloc: Global, case: &PieceCase) -> bool {
    match piece_after(alloc, b"", case.text) {
        Ok(piece) => inside(piece.as_slice()) == Some(case.lines),
        Err(NoMemory) => false,
    }
}

/// Returns whether a text has this piece after the bytes that are there.
fn is_appended(alloc: Global, case: &PieceCase) -> bool {
    match piece_after(alloc, b"\n\nFrom ", case.text) {
        Ok(piece) => match piece.as_slice().strip_prefix(b"\n\nFrom ") {
            Some(rest) => inside(rest) == Some(case.lines),
            None => false,
        },
        Err(NoMemory) => false,
    }
}

/// Returns the row of the first text.
fn first_row(alloc: Global, number: u32) -> Option<Row> {
    if !is_stored(FIRST) {
        return None;
    }
    row_of(
        alloc,
        number,
        &text_ids(FIRST, Form::Sha1),
        FIRST,
        1_706_781_700,
    )
    .ok()
}

#[test]
fn lines_that_start_a_mail_are_quoted(rt: HostRuntime) {
    for case in &PIECES {
        assert!(rt; has_piece(rt.alloc(), case));
    }
}

#[test]
fn a_piece_is_appended(rt: HostRuntime) {
    for case in &PIECES {
        assert!(rt; is_appended(rt.alloc(), case));
    }
}

/// Returns the length of the mailbox file of one mail and of two, or `None` when out of memory.
fn lengths(alloc: Global) -> Option<(u64, u64)> {
    let one = [first_row(alloc, 1)?];
    let two = [first_row(alloc, 1)?, first_row(alloc, 2)?];
    Some((mbox_len(&one), mbox_len(&two)))
}

#[test]
fn a_mailbox_file_is_as_long_as_told(rt: HostRuntime) {
    assert!(rt; mbox_len(&[]) == 0);
    assert!(rt; lengths(rt.alloc()) == Some((143, 286)));
}
