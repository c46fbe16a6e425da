//! Numbers of commands (RFC 3501, section 9, number and nz-number).
//! Pure.
ghost use Rattle.std.specs.Prelude.{◌≡◌, ◌<◌, ◌≤◌, length, IfOk, IfSome};
ghost use Rattle.std.specs.List.{prefix_len};
ghost use Rattle.imap_words.specs.Reading.{Obtains};
ghost use Rattle.imap_words.specs.Numbers.{is_zero as zero_digit, in_32_bits, number_of, nz_number_of, number_at, nz_number_at, two_digits, pair_at, padded_pair_at, four_at, day_of};

use crate::cursor::Cursor;
use crate::kinds::{Kind, is_digit};
use crate::stop::Stop;
use arch_base::read_decimal;

/// Returns the number that a word spells which doesn't start with a zero, if it has at most 32
/// bits (RFC 3501, section 9, nz-number).
pub fn read_nz_number(word: &[u8]) -> Option<u32>
    ensures { result ≡ nz_number_of word.now }
{
    match word {
        [b'0', ..] => None,
        _ => in_32_bits(read_decimal(word)),
    }
}

/// Returns a number, if it has at most 32 bits.
fn in_32_bits(number: Option<u64>) -> Option<u32>
    ensures { result ≡ in_32_bits number }
{
    let number = number?;
    if number > 4_294_967_295 {
        return None;
    }
    Some(number as u32)
}

/// Returns the number that digits spell, if it has at most 32 bits. Zeros may come first.
fn read_number(word: &[u8]) -> Option<u32>
    ensures { result ≡ number_of word.now }
{
    let digits = word.split_at(zeros_before(word)).1;
    if digits.is_empty() {
        return Some(0);
    }
    in_32_bits(read_decimal(digits))
}

/// Returns the number of zeros that come first.
fn zeros_before(word: &[u8]) -> usize
    ensures value { result ≡ prefix_len zero_digit word.now }
    ensures within { result ≤ length word.now }
{
    word.iter().take_while(|byte| **byte == b'0').count()
}

/// Returns the number that two digits spell.
fn two_digits(high: u8, low: u8) -> Option<u8>
    ensures value { result ≡ two_digits high low }
    ensures bound { IfSome result (λ n. n < 100) }
{
    if !is_digit(high) || !is_digit(low) {
        return None;
    }
    Some((high - b'0') * 10 + (low - b'0'))
}

/// Returns the number that one digit spells, or two.
pub fn read_day(word: &[u8]) -> Option<u8>
    ensures { result ≡ day_of word.now }
{
    match word {
        [low] => two_digits(b'0', *low),
        [high, low] => two_digits(*high, *low),
        _ => None,
    }
}

impl<'a> Cursor<'a> {
    /// Takes a number of at most 32 bits. Zeros may come first (RFC 3501, section 9, number).
    #[tactic(auto, unfolding(crate::specs::Numbers::number_at))]
    pub fn number(&mut self) -> Result<u32, Stop>
        ensures { Obtains self.new result (number_at self.old) }
    {
        let word = self.run(Kind::Digit)?;
        match read_number(word) {
            Some(n) => Ok(n),
            None => Err(Stop::Bad),
        }
    }

    /// Takes a number of at most 32 bits that doesn't start with a zero (nz-number).
    #[tactic(auto, unfolding(crate::specs::Numbers::nz_number_at))]
    pub fn nz_number(&mut self) -> Result<u32, Stop>
        ensures { Obtains self.new result (nz_number_at self.old) }
    {
        let word = self.run(Kind::Digit)?;
        match read_nz_number(word) {
            Some(n) => Ok(n),
            None => Err(Stop::Bad),
        }
    }

    /// Takes two digits, as a number.
    pub fn pair(&mut self) -> Result<u8, Stop>
        ensures value { Obtains self.new result (pair_at self.old) }
        ensures bound { IfOk result (λ n. n < 100) }
    {
        match self.rest {
            [high, low, rest @ ..] => match two_digits(*high, *low) {
                Some(n) => {
                    self.rest = rest;
                    Ok(n)
                }
                None => Err(Stop::Bad),
            },
            _ => Err(Stop::Bad),
        }
    }

    /// Takes two digits, as a number. A space may stand for the first one.
    pub fn padded_pair(&mut self) -> Result<u8, Stop>
        ensures { Obtains self.new result (padded_pair_at self.old) }
    {
        match self.rest {
            [b' ', low, rest @ ..] => match two_digits(b'0', *low) {
                Some(n) => {
                    self.rest = rest;
                    Ok(n)
                }
                None => Err(Stop::Bad),
            },
            _ => self.pair(),
        }
    }

    /// Takes four digits, as a number.
    #[tactic(auto, unfolding(crate::specs::Numbers::four_at))]
    pub fn four(&mut self) -> Result<u16, Stop>
        ensures { Obtains self.new result (four_at self.old) }
    {
        let high = self.pair()?;
        let low = self.pair()?;
        Ok(high as u16 * 100 + low as u16)
    }
}
