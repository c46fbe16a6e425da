//! Numbers, ranges and ids, against the rules.
use nntp_words::{is_id, read_number, read_range};

/// A word, and the number that it spells.
type NumberCase = (&'static [u8], Option<u32>);

/// Words that are numbers, and words that aren't.
static NUMBERS: [NumberCase; 18] = [
    (b"0", Some(0)),
    (b"1", Some(1)),
    (b"007", Some(7)),
    (b"0000000000000000", Some(0)),
    (b"0000002147483647", Some(2_147_483_647)),
    (b"2147483647", Some(2_147_483_647)),
    (b"2147483648", None),
    (b"4294967296", None),
    (b"9999999999999999", None),
    (b"00000000000000001", None),
    (b"18446744073709551617", None),
    (b"", None),
    (b"+1", None),
    (b"-1", None),
    (b"1 ", None),
    (b"0x1", None),
    (b"1a", None),
    (b"00a", None),
];

/// A word, and the ends of the range that it spells.
type RangeCase = (&'static [u8], Option<(u32, u32)>);

/// Words that are ranges, and words that aren't.
static RANGES: [RangeCase; 14] = [
    (b"5", Some((5, 5))),
    (b"0", Some((0, 0))),
    (b"5-", Some((5, 2_147_483_647))),
    (b"005-0009", Some((5, 9))),
    (b"5-2", Some((5, 2))),
    (b"0-2147483647", Some((0, 2_147_483_647))),
    (b"0-2147483648", None),
    (b"2147483648-", None),
    (b"-5", None),
    (b"-", None),
    (b"", None),
    (b"1--2", None),
    (b"1-2-", None),
    (b"1-x", None),
];

/// Words that are ids.
static IDS: [&[u8]; 4] = [b"<a>", b"<a@x>", b"<!\"#~>", b"<-5>"];

/// Words that aren't.
static OTHERS: [&[u8]; 11] = [
    b"", b"<", b"<>", b"a@x", b"<a", b"a>", b"<a<b>", b"<a>b>", b"<a b>", b"<a\x7f>", b"<\xff>",
];

/// Returns the ends of the range that a word spells.
fn ends_of(word: &[u8]) -> Option<(u32, u32)> {
    let range = read_range(word)?;
    Some((range.first, range.last))
}

#[test]
fn numbers_have_up_to_sixteen_digits(rt: HostRuntime) {
    for case in &NUMBERS {
        assert!(rt; read_number(case.0) == case.1);
    }
}

#[test]
fn ranges_are_one_number_or_have_a_dash(rt: HostRuntime) {
    for case in &RANGES {
        assert!(rt; ends_of(case.0) == case.1);
    }
}

#[test]
fn ids_are_in_brackets(rt: HostRuntime) {
    for word in &IDS {
        assert!(rt; is_id(*word));
    }
    for word in &OTHERS {
        assert!(rt; !is_id(*word));
    }
}

#[test]
fn ids_have_up_to_248_bytes_in_their_brackets(rt: HostRuntime) {
    let mut word = [b'a'; 251];
    word[0] = b'<';
    word[249] = b'>';
    assert!(rt; is_id(&word[..250]));
    word[249] = b'a';
    word[250] = b'>';
    assert!(rt; !is_id(&word));
}
