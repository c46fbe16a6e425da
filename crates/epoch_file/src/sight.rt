//! How much of an entry is at the front of bytes, by the sizes that its objects start with.
//! Pure.
ghost use Rattle.std.specs.Prelude.{◌≡◌, ◌+◌, ◌<◌, ◌≤◌, ◌^◌, ◌++◌, ◌∷◌, ℕ, List, Some, length, codes, IfSome, MatchOption, ◌≢◌};
ghost use Rattle.std.specs.Fmt.{decimal};
ghost use Rattle.arch_base.specs.declared.ids.Form.{Form as IdForm};
ghost use Rattle.git_objects.specs.Trees.{tree_size};
ghost use Rattle.mail_reader.specs.StorageTexts.{max_text_len};
ghost use Rattle.epoch_file.specs.Sights.{Sees, SeesCommit, SeesAll, IsRoomFor, commit_offset, EndsCommit};

use arch_base::{Form, read_decimal};
use memchr::memchr;

/// The greatest length of a text, in bytes.
const MAX_TEXT_LEN: u64 = 8_388_800;

/// The most bytes that an object's type, its size and the byte after them take.
const HEAD_LEN: usize = 28;

/// How much of an entry is at the front of bytes.
#[derive(Clone, Copy, PartialEq, Eq, Drop)]
pub(crate) enum Sight {
    /// None: the bytes start with no entry, whatever follows.
    Lacks,
    /// More bytes are needed to tell.
    Short,
    /// All of it, if the bytes start with one.
    Whole,
}

/// Returns the length of a tree of one file in a form, in bytes: 37 or 49.
pub(crate) fn tree_len(form: Form) -> usize
    ensures size { result ≡ tree_size form }
    ensures most { result ≤ 49 }
{
    match form {
        Form::Sha1 => 37,
        Form::Sha256 => 49,
    }
}

/// Returns how much of an entry of a form the held bytes have, of `left` bytes that they start.
pub(crate) fn look(held: &[u8], left: u64, form: Form) -> Sight
    ensures { Sees form held.now left result }
{
    if is_short(held, left, HEAD_LEN) {
        return Sight::Short;
    }
    match commit_at(held, form) {
        Some(at) => look_at_commit(held, left, at),
        None => Sight::Lacks,
    }
}

/// Returns whether fewer than `count` bytes are held, and more are left.
fn is_short(held: &[u8], left: u64, count: usize) -> bool
    ensures { IsRoomFor held.now left count result }
{
    held.len() < count && (held.len() as u64) < left
}

/// Returns the offset of the commit of an entry of a form, by the size of its blob.
fn commit_at(held: &[u8], form: Form) -> Option<usize>
    ensures bound { IfSome result (λ at. at < 2 ^ 62) }
    ensures again { (text rest : List ℕ) → length text ≤ max_text_len → held.now ≡ codes "blob "
        ++ (decimal (length text) ++ 0 ∷ rest) → result ≡ Some (commit_offset form text) }
{
    let (front, size) = head(b"blob ", held)?;
    if size > MAX_TEXT_LEN {
        return None;
    }
    Some(front + size as usize + tree_len(form))
}

/// Returns how much of an entry the bytes have, by the offset of its commit.
fn look_at_commit(held: &[u8], left: u64, at: usize) -> Sight
    requires { at < 2 ^ 62 }
    ensures { (of : IdForm) → SeesCommit of at held.now left result }
{
    if is_short(held, left, at + HEAD_LEN) {
        return Sight::Short;
    }
    match entry_len(held, at) {
        Some(len) => look_at_all(held, left, len),
        None => Sight::Lacks,
    }
}

/// Returns the length of an entry, by the offset and the size of its commit.
fn entry_len(held: &[u8], at: usize) -> Option<u64>
    requires { at < 2 ^ 62 }
    ensures { EndsCommit at held.now result }
{
    if held.len() < at {
        return None;
    }
    let (front, size) = head(b"commit ", held.split_at(at).1)?;
    size.checked_add((at + front) as u64)
}

/// Returns how much of an entry the bytes have, by its length.
fn look_at_all(held: &[u8], left: u64, len: u64) -> Sight
    ensures { (of : IdForm) → SeesAll of len held.now left result }
{
    if len > left {
        return Sight::Lacks;
    }
    if (held.len() as u64) < len {
        return Sight::Short;
    }
    Sight::Whole
}

/// Reads a type and a size, and returns the length of both and the byte after them, and the size.
fn head(word: &[u8], bytes: &[u8]) -> Option<(usize, u64)>
    requires { length word.now ≤ 16 }
    ensures bound { IfSome result (λ found. found.0 ≤ 37) }
    ensures again { (size : ℕ) (rest : List ℕ) → size < 2 ^ 64
        → bytes.now ≡ word.now ++ (decimal size ++ 0 ∷ rest)
        → result ≡ Some (length word.now + length (decimal size) + 1, size) }
{
    let digits = after(word, bytes)?;
    let (len, size) = number(digits)?;
    Some((word.len() + len + 1, size))
}

/// Returns the bytes after a word that they start with.
pub(crate) fn after<'a>(word: &[u8], bytes: &'a [u8]) -> Option<&'a [u8]>
    ensures { MatchOption result ((rest : List ℕ)
        → bytes.now ≢ word.now ++ rest) (λ rest. bytes.now ≡ word.now ++ rest.now) }
{
    bytes.strip_prefix(word)
}

/// Returns the number of digits before the first NUL, and the number that they spell.
fn number(bytes: &[u8]) -> Option<(usize, u64)>
    ensures bound { IfSome result (λ found. found.0 ≤ 20) }
    ensures again { (size : ℕ) (rest : List ℕ) → size < 2 ^ 64
        → bytes.now ≡ decimal size ++ 0 ∷ rest → result ≡ Some (length (decimal size), size) }
{
    let len = memchr(0, bytes)?;
    let size = read_decimal(bytes.split_at(len).0)?;
    Some((len, size))
}
