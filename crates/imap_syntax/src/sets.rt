//! Sets of numbers (RFC 3501, section 9, sequence-set).
//! Pure.
ghost use Rattle.std.specs.Prelude.{◌≡◌};
ghost use Rattle.imap_syntax.specs.Sets.{end_number, in_range, in_set};

use arch_base::Sequence;
use std::marker::Model;

/// An end of a range.
#[derive(Debug, Clone, Copy, PartialEq, Eq)]
pub enum SetEnd {
    /// A number.
    Number(u32),
    /// `*`: the greatest number that there is.
    Greatest,
}

impl SetEnd {
    /// Returns the number that the end means, where `greatest` is the greatest number that there is.
    pub fn number(self, greatest: u32) -> u32
        ensures { result ≡ end_number greatest self }
    {
        match self {
            SetEnd::Number(n) => n,
            SetEnd::Greatest => greatest,
        }
    }
}

/// A range of numbers, both ends included, whichever of them is the greater.
#[derive(Debug, Clone, Copy, PartialEq, Eq)]
pub struct SetRange {
    /// The end that is written first.
    pub first: SetEnd,
    /// The other end: the same for a single number.
    pub last: SetEnd,
}

impl SetRange {
    /// Returns whether the range has a number, where `greatest` is what `*` means.
    pub fn contains(self, n: u32, greatest: u32) -> bool
        ensures { result ≡ in_range n greatest self }
    {
        let first = self.first.number(greatest);
        let last = self.last.number(greatest);
        first.min(last) <= n && n <= first.max(last)
    }
}

/// A set of numbers, as the list of its ranges in the order in which they are written.
#[derive(Debug, Drop)]
pub struct SeqSet {
    ranges: Sequence<SetRange>,
}

impl Model for SeqSet {
    ghost use Rattle.std.specs.Prelude.{List};
    ghost use Rattle.imap_syntax.specs.declared.sets.SetRange.{SetRange};

    ghost Value = { List SetRange };

    ghost view = { λ s. s.ranges };
}

impl SeqSet {
    /// Returns the set of these ranges.
    pub fn new(ranges: Sequence<SetRange>) -> SeqSet
        ensures { result ≡ ranges }
    {
        SeqSet { ranges }
    }

    /// Returns the ranges.
    pub fn ranges(&self) -> &[SetRange]
        ensures { result.now ≡ self.now }
    {
        self.ranges.as_slice()
    }

    /// Returns whether a range of the set has a number, where `greatest` is what `*` means.
    pub fn contains(&self, n: u32, greatest: u32) -> bool
        ensures { result ≡ in_set n greatest self.now }
    {
        self.ranges
            .as_slice()
            .iter()
            .any(|range| range.contains(n, greatest))
    }
}
