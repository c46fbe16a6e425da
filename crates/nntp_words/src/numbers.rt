//! Numbers, ranges and ids of articles.
//! Pure.
ghost use Rattle.std.specs.Prelude.{◌≡◌, ◌≤◌, length};
ghost use Rattle.std.specs.List.{prefix_len, list_all};
ghost use Rattle.mail_reader.specs.Ids.{is_id_byte as id_byte};
ghost use Rattle.nntp_words.specs.Numbers.{is_zero as zero_digit, is_before_dash, without_zeros, number_in, number_of, range_of, is_id as in_brackets, is_inside_id as is_inside};

use arch_base::read_decimal;

/// The greatest number that an article may have.
const GREATEST: u32 = 2_147_483_647;

/// A range of numbers, both ends included.
///
/// It has no number if the last one is below the first.
#[derive(Debug, Clone, Copy, PartialEq, Eq)]
pub struct Range {
    /// The first number.
    pub first: u32,
    /// The last number.
    pub last: u32,
}

/// Returns the number that a word spells (RFC 3977, section 9.8): 1 to 16 digits, of a value up to
/// 2,147,483,647. Zeros may come first.
///
/// `None` if it spells none.
#[tactic(auto, unfolding(crate::specs::Numbers::number_of))]
pub fn read_number(word: &[u8]) -> Option<u32>
    ensures { result ≡ number_of word.now }
{
    if word.is_empty() || word.len() > 16 {
        return None;
    }
    number_in(without_zeros(word))
}

/// Returns the word without the zeros that come first.
fn without_zeros(word: &[u8]) -> &[u8]
    ensures { result.now ≡ without_zeros word.now }
{
    word.split_at(zeros_before(word)).1
}

/// Returns the number of zeros that come first.
fn zeros_before(word: &[u8]) -> usize
    ensures value { result ≡ prefix_len zero_digit word.now }
    ensures within { result ≤ length word.now }
{
    word.iter().take_while(|byte| **byte == b'0').count()
}

/// Returns the number that digits spell which don't start with a zero. No digits spell 0.
fn number_in(digits: &[u8]) -> Option<u32>
    ensures { result ≡ number_in digits.now }
{
    if digits.is_empty() {
        return Some(0);
    }
    let value = read_decimal(digits)?;
    if value > GREATEST as u64 {
        return None;
    }
    Some(value as u32)
}

/// Returns the range that a word spells (RFC 3977, section 6.1.2): `N` is one number, `N-` has all
/// from `N` on, and `N-M` has those from `N` to `M`.
///
/// `None` if it spells none.
#[tactic(auto, unfolding(crate::specs::Numbers::range_of))]
pub fn read_range(word: &[u8]) -> Option<Range>
    ensures { result ≡ range_of word.now }
{
    let (front, rest) = word.split_at(before_dash(word));
    let first = read_number(front)?;
    match rest {
        [] => Some(Range { first, last: first }),
        [_] => Some(Range {
            first,
            last: GREATEST,
        }),
        [_, end @ ..] => Some(Range {
            first,
            last: read_number(end)?,
        }),
    }
}

/// Returns the number of bytes before the first `-`, or the length without one.
fn before_dash(word: &[u8]) -> usize
    ensures value { result ≡ prefix_len is_before_dash word.now }
    ensures within { result ≤ length word.now }
{
    word.iter().take_while(|byte| **byte != b'-').count()
}

/// Returns whether a word is the id of a message, in its brackets: 1 to 248 bytes of printable
/// ASCII other than brackets.
#[tactic(auto, unfolding(crate::specs::Numbers::is_id))]
pub fn is_id(word: &[u8]) -> bool
    ensures { result ≡ in_brackets word.now }
{
    match word {
        [b'<', inside @ .., b'>'] => is_inside_id(inside),
        _ => false,
    }
}

/// Returns whether bytes are those of an id between its brackets.
fn is_inside_id(inside: &[u8]) -> bool
    ensures { result ≡ is_inside inside.now }
{
    if inside.is_empty() || inside.len() > 248 {
        return false;
    }
    are_id_bytes(inside)
}

/// Returns whether all bytes may stand in an id between its brackets.
fn are_id_bytes(bytes: &[u8]) -> bool
    ensures { result ≡ list_all id_byte bytes.now }
{
    bytes.iter().all(|byte| is_id_byte(*byte))
}

/// Returns whether a byte may stand in an id between its brackets.
fn is_id_byte(byte: u8) -> bool
    ensures { result ≡ id_byte byte }
{
    byte >= 33 && byte <= 126 && byte != b'<' && byte != b'>'
}
