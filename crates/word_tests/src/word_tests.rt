//! The words of texts, worked out by the rules.
use fixtures::{Case, cases};
use std::alloc::Global;
use text_words::{PackedWords, push_words};

/// Texts, and their words.
static WORDS: [Case<&'static [&'static [u8]]>; 14] = cases![
    b"" => &[],
    b" \t.-_" => &[],
    b"one" => &[b"one"],
    b"One two-THREE" => &[b"one", b"two", b"three"],
    b"a1b2_c3" => &[b"a1b2", b"c3"],
    b"@[`{/:" => &[],
    b"0z9Z" => &[b"0z9z"],
    b"caf\xC3\xA9 \x80\xFF\x7F\xFE" => &[b"caf\xC3\xA9", b"\x80\xFF", b"\xFE"],
    b"\xC3\x84" => &[b"\xC3\x84"],
    b"one one" => &[b"one", b"one"],
    b"aaaaaaaaaaaaaaaaaaaaaaaaaaaaaaaaaaaaaaaaaaaaaaaaaaaaaaaaaaaaaaaa"
        => &[b"aaaaaaaaaaaaaaaaaaaaaaaaaaaaaaaaaaaaaaaaaaaaaaaaaaaaaaaaaaaaaaaa"],
    b"aaaaaaaaaaaaaaaaaaaaaaaaaaaaaaaaaaaaaaaaaaaaaaaaaaaaaaaaaaaaaaaaa"
        => &[b"aaaaaaaaaaaaaaaaaaaaaaaaaaaaaaaaaaaaaaaaaaaaaaaaaaaaaaaaaaaaaaaa"],
    b".aaaaaaaaaaaaaaaaaaaaaaaaaaaaaaaaaaaaaaaaaaaaaaaaaaaaaaaaaaaaaaaaabbb c"
        => &[b"aaaaaaaaaaaaaaaaaaaaaaaaaaaaaaaaaaaaaaaaaaaaaaaaaaaaaaaaaaaaaaaa", b"c"],
    b"aaaaaaaaaaaaaaaaaaaaaaaaaaaaaaaaaaaaaaaaaaaaaaaaaaaaaaaaaaaaaaa\xC3\xA9 d"
        => &[b"aaaaaaaaaaaaaaaaaaaaaaaaaaaaaaaaaaaaaaaaaaaaaaaaaaaaaaaaaaaaaaa\xC3", b"d"],
];

/// Returns whether a text has these words.
fn has_words(alloc: Global, text: &[u8], wanted: &[&[u8]]) -> bool {
    let mut words = PackedWords::new(alloc);
    if push_words(text, &mut words).is_err() || words.len() != wanted.len() {
        return false;
    }
    for index in 0..words.len() {
        if words.get(index) != wanted[index] {
            return false;
        }
    }
    true
}

#[test]
fn texts_have_their_words(rt: HostRuntime) {
    for case in &WORDS {
        assert!(rt; has_words(rt.alloc(), case.given, case.wanted));
    }
}
