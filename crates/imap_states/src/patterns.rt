//! Patterns of mailboxes' names.
//! Pure.
ghost use Rattle.std.specs.Prelude.{◌≡◌, ◌≤◌, ◌+◌, ◌++◌, ◌∷◌, ℕ, Bool, List, length, take};
ghost use Rattle.imap_states.specs.Patterns.{is_wildcard as wildcard, some_rest, same_first, behind_byte, pattern_then, matches_name, TellsRests};

/// The greatest length of a mailbox's name: an archive's name of 64 bytes, a dot, and 20 digits.
const MOST_NAME: usize = 85;

/// The number of places from which the rest of such a name may start.
const RESTS: usize = 86;

/// For each index of a name, up to its length, whether the name matches from there on.
type Rests = [bool; RESTS];

/// Returns whether a reference and a pattern, joined, match the name of a mailbox: that of the archive,
/// a dot and the digits of its index.
pub(crate) fn is_match(reference: &[u8], pattern: &[u8], archive: &[u8], digits: &[u8]) -> bool
    requires archive { length archive.now ≤ 64 }
    requires digits { length digits.now ≤ 20 }
    ensures { result ≡ matches_name (reference.now ++ pattern.now)
        (archive.now ++ 46 ∷ digits.now) }
{
    let mut bytes = [0u8; MOST_NAME];
    put(&mut bytes, 0, archive);
    put(&mut bytes, archive.len(), b".");
    put(&mut bytes, archive.len() + 1, digits);
    let name = bytes
        .as_slice()
        .split_at(archive.len() + 1 + digits.len())
        .0;
    let mut rests = [false; RESTS];
    rests[name.len()] = true;
    let behind = with_pattern(pattern, name, &rests);
    with_pattern(reference, name, &behind)[0]
}

/// Puts bytes at an index of a name.
fn put(bytes: &mut [u8; MOST_NAME], at: usize, more: &[u8])
    requires { at + length more.now ≤ 85 }
    ensures { take (at + length more.now) bytes.new ≡ take at bytes.old ++ more.now }
{
    bytes[at..at + more.len()].copy_from_slice(more);
}

/// Returns where a pattern, and then what matches at these rests, matches a name.
fn with_pattern(pattern: &[u8], name: &[u8], rests: &Rests) -> Rests
    requires { length name.now ≤ 85 }
    ensures { (test : List ℕ → Bool) → TellsRests test name.now rests.now
        → TellsRests (pattern_then pattern.now test) name.now result }
{
    let mut made = *rests;
    let mut index = pattern.len();
    while index > 0 {
        index -= 1;
        made = with_byte(pattern[index], name, &made);
    }
    made
}

/// Returns where a byte of a pattern, and then what matches at these rests, matches a name.
fn with_byte(byte: u8, name: &[u8], rests: &Rests) -> Rests
    requires { length name.now ≤ 85 }
    ensures { (test : List ℕ → Bool) → TellsRests test name.now rests.now
        → TellsRests (behind_byte byte test) name.now result }
{
    if is_wildcard(byte) {
        after_any(name.len(), rests)
    } else {
        after_one(byte, name, rests)
    }
}

/// Returns whether a byte stands for any bytes.
fn is_wildcard(byte: u8) -> bool
    ensures { result ≡ wildcard byte }
{
    byte == b'*' || byte == b'%'
}

/// Returns where any bytes, and then what matches at these rests, match a name of a length.
fn after_any(len: usize, rests: &Rests) -> Rests
    requires { len ≤ 85 }
    ensures { (test : List ℕ → Bool) (name : List ℕ) → length name ≡ len
        → TellsRests test name rests.now → TellsRests (some_rest test) name result }
{
    let mut made = *rests;
    let mut index = len;
    while index > 0 {
        index -= 1;
        made[index] = made[index] || made[index + 1];
    }
    made
}

/// Returns where a byte, and then what matches at these rests, match a name.
fn after_one(byte: u8, name: &[u8], rests: &Rests) -> Rests
    requires { length name.now ≤ 85 }
    ensures { (test : List ℕ → Bool) → TellsRests test name.now rests.now
        → TellsRests (same_first byte test) name.now result }
{
    let mut made = [false; RESTS];
    for (index, own) in name.iter().enumerate() {
        made[index] = byte == *own && rests[index + 1];
    }
    made
}
