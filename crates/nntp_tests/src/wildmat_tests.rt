//! Wildmats against the rules.
use nntp_words::matches;

/// A wildmat, a name, and whether the one matches the other.
type WildmatCase = (&'static [u8], &'static [u8], Option<bool>);

/// Wildmats of all kinds.
static WILDMATS: [WildmatCase; 34] = [
    (b"list", b"list", Some(true)),
    (b"list", b"List", Some(false)),
    (b"list", b"lists", Some(false)),
    (b"lists", b"list", Some(false)),
    (b"", b"list", Some(false)),
    (b"", b"", Some(true)),
    (b"*", b"list", Some(true)),
    (b"*", b"", Some(true)),
    (b"**", b"list", Some(true)),
    (b"?", b"l", Some(true)),
    (b"?", b"", Some(false)),
    (b"????", b"list", Some(true)),
    (b"???", b"list", Some(false)),
    (b"l*t", b"list", Some(true)),
    (b"l*t*", b"list", Some(true)),
    (b"*l*i*s*t*", b"list", Some(true)),
    (b"*ab", b"aab", Some(true)),
    (b"*ab*b", b"abab", Some(true)),
    (b"a*b*c", b"aXbXbXc", Some(true)),
    (b"a*b*c", b"aXcXb", Some(false)),
    (b"?*", b"", Some(false)),
    (b"!list", b"list", Some(false)),
    (b"*,!list", b"list", Some(false)),
    (b"!list,*", b"list", Some(true)),
    (b"*,!l*,list", b"list", Some(true)),
    (b"*,!l*,list", b"lisp", Some(false)),
    (b"*,!l*,list", b"mist", Some(true)),
    (b"a,,b", b"", Some(true)),
    (b",", b"list", Some(false)),
    (b"a!b", b"a!b", Some(true)),
    (b"!!a", b"!a", Some(false)),
    (b"li[s]t", b"list", None),
    (b"list,\\*", b"list", None),
    (b"a]", b"a]", None),
];

/// Returns whether a wildmat says this of a name.
fn is_said(case: &WildmatCase) -> bool {
    if case.1.len() > 64 {
        return false;
    }
    matches(case.0, case.1) == case.2
}

#[test]
fn the_last_pattern_that_matches_decides(rt: HostRuntime) {
    for case in &WILDMATS {
        assert!(rt; is_said(case));
    }
}

#[test]
fn names_have_up_to_64_bytes(rt: HostRuntime) {
    let name = [b'a'; 64];
    assert!(rt; matches(b"*", &name) == Some(true));
    assert!(rt; matches(b"a*?", &name) == Some(true));
    assert!(rt; matches(b"*b", &name) == Some(false));
    assert!(rt; matches(&[b'?'; 64], &name) == Some(true));
    assert!(rt; matches(&[b'?'; 65], &name) == Some(false));
    assert!(rt; matches(&[b'*'; 500], &name) == Some(true));
}
