//! A line in two pieces, and the number of octets that it announces (RFC 3501, section 4.3).
//! Pure.
ghost use Rattle.std.specs.Prelude.{◌≡◌, ◌<◌, ◌≤◌, ◌+◌, ◌++◌, Some, None, length, min, nat_eq, MatchOption};
ghost use Rattle.std.specs.List.{list_all};
ghost use Rattle.arch_base.specs.Decimals.{read_on};
ghost use Rattle.line_door.specs.Lines.{content};
ghost use Rattle.imap_framer.specs.Framing.{after_brace, announced, before_last, is_digit, most_octets, value_of};
ghost use Rattle.imap_framer.specs.Scanning.{capped};

use memchr::memrchr;

/// Numbers are read up to this one, which no command has room for.
const MOST_READ: usize = 16_385;

/// A text of which the first octets stand in one slice and the rest in another.
#[derive(Clone, Copy, Drop)]
pub(crate) struct Joined<'a> {
    pub(crate) front: &'a [u8],
    pub(crate) back: &'a [u8],
}

/// Returns the number of octets that a line without its line feed announces, or `None`.
///
/// A greater number than a command has room for may be given as 16,385.
#[tactic(auto, unfolding(crate::specs::Framing::most_octets))]
pub(crate) fn announced_in(line: Joined<'_>) -> Option<usize>
    ensures { result ≡ capped (most_octets + 1) (announced (line.entry.front.now ++ line.entry.back.now)) }
{
    let text = after_last_brace(without_return(line))?;
    let digits = without_last(text, b'}')?;
    value_in(digits)
}

/// Removes one carriage return from the end of a line.
fn without_return(line: Joined<'_>) -> Joined<'_>
    ensures { result.front.now ++ result.back.now ≡ content (line.entry.front.now ++ line.entry.back.now) }
{
    match without_last(line, b'\r') {
        Some(cut) => cut,
        None => line,
    }
}

/// Returns the text before its last octet if that is `octet`, which is not 0.
fn without_last(text: Joined<'_>, octet: u8) -> Option<Joined<'_>>
    requires { 0 < octet }
    ensures { MatchOption result
        (before_last octet (text.entry.front.now ++ text.entry.back.now) ≡ None)
        (λ cut. before_last octet (text.entry.front.now ++ text.entry.back.now)
        ≡ Some (cut.front.now ++ cut.back.now)) }
{
    if text.back.is_empty() {
        let front = cut_last(text.front, octet)?;
        return Some(Joined {
            front,
            back: text.back,
        });
    }
    let back = cut_last(text.back, octet)?;
    Some(Joined {
        front: text.front,
        back,
    })
}

/// Returns the slice before its last octet if that is `octet`, which is not 0.
fn cut_last(text: &[u8], octet: u8) -> Option<&[u8]>
    requires { 0 < octet }
    ensures { MatchOption result (before_last octet text.now ≡ None) (λ cut.
        before_last octet text.now ≡ Some cut.now) }
{
    match text {
        [front @ .., last] if *last == octet => Some(front),
        _ => None,
    }
}

/// Returns the text after its last `{`, or `None` if it has none.
fn after_last_brace(text: Joined<'_>) -> Option<Joined<'_>>
    ensures { MatchOption result
        (after_brace (text.entry.front.now ++ text.entry.back.now) ≡ None)
        (λ after. after_brace (text.entry.front.now ++ text.entry.back.now)
        ≡ Some (after.front.now ++ after.back.now)) }
{
    match brace_cut(text.back) {
        Some(back) => Some(Joined { front: &[], back }),
        None => match brace_cut(text.front) {
            Some(front) => Some(Joined {
                front,
                back: text.back,
            }),
            None => None,
        },
    }
}

/// Returns the slice after its last `{`, or `None` if it has none.
fn brace_cut(text: &[u8]) -> Option<&[u8]>
    ensures { MatchOption result (after_brace text.now ≡ None) (λ after.
        after_brace text.now ≡ Some after.now) }
{
    match memrchr(b'{', text) {
        Some(at) => Some(text.split_at(at + 1).1),
        None => None,
    }
}

/// Returns the value of one or more digits, or `None` if the text is not made of such.
#[tactic(auto, unfolding(crate::specs::Framing::most_octets))]
fn value_in(text: Joined<'_>) -> Option<usize>
    ensures { result ≡ capped (most_octets + 1)
        (value_of (Some (text.entry.front.now ++ text.entry.back.now))) }
{
    if is_empty(text) {
        return None;
    }
    if !are_digits(text.front) {
        return None;
    }
    if !are_digits(text.back) {
        return None;
    }
    Some(read_digits(read_digits(0, text.front), text.back))
}

/// Returns whether a text has no octet.
fn is_empty(text: Joined<'_>) -> bool
    ensures { result ≡ nat_eq (length (text.entry.front.now ++ text.entry.back.now)) 0 }
{
    text.front.is_empty() && text.back.is_empty()
}

/// Returns whether each octet is a digit.
fn are_digits(text: &[u8]) -> bool
    ensures { result ≡ list_all is_digit text.now }
{
    text.iter().all(|octet| stands_for_digit(*octet))
}

/// Returns whether an octet is a digit.
fn stands_for_digit(octet: u8) -> bool
    ensures { result ≡ is_digit octet }
{
    b'0' <= octet && octet <= b'9'
}

/// Returns the value of digits that are appended to the digits of `start`, or 16,385 if that is less.
fn read_digits(start: usize, digits: &[u8]) -> usize
    requires { start ≤ 16385 }
    ensures { result ≡ min (read_on start digits.now) 16385 }
{
    let mut value = start;
    for digit in digits {
        value = (10 * value + usize::from(digit.saturating_sub(b'0'))).min(MOST_READ);
    }
    value
}
