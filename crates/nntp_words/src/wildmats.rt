//! Wildmats: lists of patterns of names.
//! Pure.
ghost use Rattle.std.specs.Prelude.{◌≡◌, ◌≤◌, ℕ, Bool, List, length};
ghost use Rattle.std.specs.List.{list_any};
ghost use Rattle.nntp_words.specs.Wildmats.{is_special as special, wildmat_matches, decided, says as says_of, pattern_matches, some_end, fits as fits_byte, fits_first, after_byte, Tells};

use memchr::memrchr;

/// The number of ends of the longest name, which has 64 bytes.
const ENDS: usize = 65;

/// For each index of a name, up to its length, whether a pattern matches the name from there on.
type Ends = [bool; ENDS];

/// Returns whether a wildmat matches a name (RFC 3977, section 4, in a form of its own).
///
/// It is a list of patterns between commas. `*` stands for any bytes, `?` for one byte, and each
/// other byte for itself. The last pattern that matches decides: one after a `!` says no, any other
/// yes. If none matches, the answer is no.
///
/// `None` if it has a `[`, a `]` or a backslash.
pub fn matches(wildmat: &[u8], name: &[u8]) -> Option<bool>
    requires { length name.now ≤ 64 }
    ensures { result ≡ wildmat_matches wildmat.now name.now }
{
    if has_special(wildmat) {
        return None;
    }
    Some(is_matched(wildmat, name))
}

/// Returns whether a byte of a wildmat has no meaning there.
fn has_special(wildmat: &[u8]) -> bool
    ensures { result ≡ list_any special wildmat.now }
{
    wildmat.iter().any(|byte| is_special(*byte))
}

/// Returns whether a byte has no meaning in a wildmat.
fn is_special(byte: u8) -> bool
    ensures { result ≡ special byte }
{
    byte == b'[' || byte == b']' || byte == b'\\'
}

/// Returns whether the last pattern that matches a name says yes.
fn is_matched(wildmat: &[u8], name: &[u8]) -> bool
    requires { length name.now ≤ 64 }
    ensures { result ≡ decided wildmat.now name.now }
{
    let mut left = wildmat;
    while let Some(comma) = memrchr(b',', left) {
        if let Some(said) = says(&left[comma + 1..], name) {
            return said;
        }
        left = &left[..comma];
    }
    says(left, name).unwrap_or(false)
}

/// Returns what a pattern says of a name: yes, or no after a `!`, or `None` if it doesn't match.
fn says(pattern: &[u8], name: &[u8]) -> Option<bool>
    requires { length name.now ≤ 64 }
    ensures { result ≡ says_of pattern.now name.now }
{
    let (bytes, yes) = match pattern {
        [b'!', rest @ ..] => (rest, false),
        _ => (pattern, true),
    };
    if is_match(bytes, name) {
        Some(yes)
    } else {
        None
    }
}

/// Returns whether a pattern matches a name.
fn is_match(pattern: &[u8], name: &[u8]) -> bool
    requires { length name.now ≤ 64 }
    ensures { result ≡ pattern_matches pattern.now name.now }
{
    let mut ends = [false; ENDS];
    ends[name.len()] = true;
    let mut index = pattern.len();
    while index > 0 {
        index -= 1;
        ends = with_byte(pattern[index], name, &ends);
    }
    ends[0]
}

/// Returns where a byte of a pattern, and then what matches at these ends, matches a name.
fn with_byte(byte: u8, name: &[u8], ends: &Ends) -> Ends
    requires { length name.now ≤ 64 }
    ensures { (test : List ℕ → Bool) → Tells test name.now ends.now
        → Tells (after_byte byte test) name.now result }
{
    if byte == b'*' {
        after_any(name.len(), ends)
    } else {
        after_one(byte, name, ends)
    }
}

/// Returns where any bytes, and then what matches at these ends, match a name of a length.
fn after_any(len: usize, ends: &Ends) -> Ends
    requires { len ≤ 64 }
    ensures { (test : List ℕ → Bool) (name : List ℕ) → length name ≡ len → Tells test name ends.now
        → Tells (some_end test) name result }
{
    let mut made = *ends;
    let mut index = len;
    while index > 0 {
        index -= 1;
        made[index] = made[index] || made[index + 1];
    }
    made
}

/// Returns where one byte that fits, and then what matches at these ends, match a name.
fn after_one(byte: u8, name: &[u8], ends: &Ends) -> Ends
    requires { length name.now ≤ 64 }
    ensures { (test : List ℕ → Bool) → Tells test name.now ends.now
        → Tells (fits_first byte test) name.now result }
{
    let mut made = [false; ENDS];
    for (index, own) in name.iter().enumerate() {
        made[index] = fits(byte, *own) && ends[index + 1];
    }
    made
}

/// Returns whether a byte of a pattern that isn't `*` fits a byte of a name.
fn fits(byte: u8, own: u8) -> bool
    ensures { result ≡ fits_byte byte own }
{
    byte == b'?' || byte == own
}
