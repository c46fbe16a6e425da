//! Tables worked out by hand: where lines end, and what is dropped of them.
use keep_course::{chain_law, course_law};
use line_door::{
    Ahead, Passage, calls_law, cut_law, lifting_law, line_content, line_law, next_in, next_passing,
    pieces_law, plain_law, skipping_law,
};

/// Pieces, and what starts each where lines have at most 8 bytes.
const FIRST: [(&[u8], Ahead); 9] = [
    (b"", Ahead::More),
    (b"\n", Ahead::Line(0)),
    (b"ab\r\n", Ahead::Line(3)),
    (b"abc\ndef\n", Ahead::Line(3)),
    (b"abcdefg", Ahead::More),
    (b"abcdefg\n", Ahead::Line(7)),
    (b"abcdefgh", Ahead::Long),
    (b"abcdefgh\n", Ahead::Long),
    (b"a\0b\r", Ahead::More),
];

/// Pieces, and what starts each after three bytes of a line.
const AFTER_THREE: [(&[u8], Ahead); 6] = [
    (b"\n", Ahead::Line(0)),
    (b"d\ne\n", Ahead::Line(1)),
    (b"defg", Ahead::More),
    (b"defg\n", Ahead::Line(4)),
    (b"defgh", Ahead::Long),
    (b"defgh\n", Ahead::Long),
];

#[test]
fn lines_end_at_their_line_feed(rt: HostRuntime) {
    for (piece, wanted) in &FIRST {
        assert!(rt; next_in(b"", piece, 8) == *wanted);
    }
    for (piece, wanted) in &AFTER_THREE {
        assert!(rt; next_in(b"abc", piece, 8) == *wanted);
    }
}

#[test]
fn a_line_of_512_bytes_is_read(rt: HostRuntime) {
    let mut piece = [b'a'; 600];
    assert!(rt; next_in(b"", &piece[..511], 512) == Ahead::More);
    assert!(rt; next_in(b"", &piece[..512], 512) == Ahead::Long);
    piece[512] = b'\n';
    assert!(rt; next_in(b"", &piece, 512) == Ahead::Long);
    piece[511] = b'\n';
    assert!(rt; next_in(b"", &piece, 512) == Ahead::Line(511));
}

/// Pieces, and how each continues three bytes of a line, where lines have at most 8 bytes and longer
/// ones are skipped.
const PASSAGES: [(&[u8], Passage); 7] = [
    (b"", Passage::More),
    (b"\n", Passage::Line(0)),
    (b"d\ne\n", Passage::Line(1)),
    (b"defg", Passage::More),
    (b"defg\n", Passage::Line(4)),
    (b"defghijk", Passage::More),
    (b"defgh\ne\n", Passage::Skipped(5)),
];

#[test]
fn a_long_line_is_skipped_up_to_its_line_feed(rt: HostRuntime) {
    for (piece, wanted) in &PASSAGES {
        assert!(rt; next_passing(b"abc", piece, 8) == *wanted);
    }
    assert!(rt; next_passing(b"abcdefgh", b"\n", 8) == Passage::Skipped(0));
    assert!(rt; next_passing(b"", b"abcdefg\n", 8) == Passage::Line(7));
}

/// Lines and their contents.
const CONTENTS: [(&[u8], &[u8]); 6] = [
    (b"", b""),
    (b"\r", b""),
    (b"abc", b"abc"),
    (b"abc\r", b"abc"),
    (b"abc\r\r", b"abc\r"),
    (b"a\rb", b"a\rb"),
];

#[test]
fn one_carriage_return_is_dropped(rt: HostRuntime) {
    for (line, wanted) in &CONTENTS {
        assert!(rt; line_content(line) == *wanted);
    }
}

#[test]
fn the_laws_are_called(_rt: HostRuntime) {
    cut_law();
    pieces_law();
    calls_law();
    plain_law();
    line_law();
    skipping_law();
    lifting_law();
    course_law();
    chain_law();
}
