//! A cursor over the octets of a command.
//! Allocates.
ghost use Rattle.std.specs.Prelude.{◌≡◌, ◌≤◌, [], ◌∷◌, length, take, drop, slice_index, MatchOption, is_some};
ghost use Rattle.std.specs.List.{prefix_len};
ghost use Rattle.imap_words.specs.Kinds.{is_of};
ghost use Rattle.imap_words.specs.Reading.{ObtainsSlice, Skips, TakesByte, Copies, byte_at, run_at, word_of, behind_word, line_end_at, end_at};

use crate::kinds::{Kind, run_len};
use crate::stop::Stop;
use arch_base::Bytes;
use std::alloc::Global;
use std::marker::Model;

/// A cursor over the octets of a command. Contracts see it as the octets that are left.
#[derive(Drop)]
pub struct Cursor<'a> {
    pub(crate) rest: &'a [u8],
    alloc: Global,
}

impl<'a> Model for Cursor<'a> {
    ghost use Rattle.std.specs.Prelude.{ℕ, List};

    ghost Value = { List ℕ };

    ghost view = { λ c. c.rest.now };
}

impl<'a> Cursor<'a> {
    /// Returns a cursor at the front of some octets.
    pub fn new(alloc: Global, octets: &'a [u8]) -> Cursor<'a>
        ensures { result ≡ octets.now }
    {
        Cursor {
            rest: octets,
            alloc,
        }
    }

    /// Returns the allocator.
    pub fn alloc(&self) -> Global {
        self.alloc
    }

    /// Returns the octets that are left.
    pub fn rest(&self) -> &'a [u8]
        ensures { result.now ≡ self.now }
    {
        self.rest
    }

    /// Returns the first octet that is left, or 0 at the end.
    pub fn first(&self) -> u8
        ensures { result ≡ slice_index self.now 0 }
    {
        match self.rest {
            [] => 0,
            [first, ..] => *first,
        }
    }

    /// Takes the first `len` octets.
    pub fn take(&mut self, len: usize) -> &'a [u8]
        requires { len ≤ length self.old }
        ensures taken { result.now ≡ take len self.old }
        ensures rest { self.new ≡ drop len self.old }
    {
        let (taken, rest) = self.rest.split_at(len);
        self.rest = rest;
        taken
    }

    /// Takes the first octet, if one is left.
    pub(crate) fn next(&mut self) -> Option<u8>
        ensures { MatchOption result ((self.old ≡ []) × (self.new ≡ []))
            (λ byte. self.old ≡ byte ∷ self.new) }
    {
        match self.rest {
            [] => None,
            [first, rest @ ..] => {
                self.rest = rest;
                Some(*first)
            }
        }
    }

    /// Takes an octet, if it comes next, and returns whether it does.
    pub fn has(&mut self, byte: u8) -> bool
        ensures { TakesByte byte self.old self.new result }
    {
        match self.rest {
            [] => false,
            [first, rest @ ..] => {
                if *first != byte {
                    return false;
                }
                self.rest = rest;
                true
            }
        }
    }

    /// Takes an octet that has to come next.
    pub fn byte(&mut self, byte: u8) -> Result<(), Stop>
        ensures { Skips self.new result (byte_at byte self.old) }
    {
        if self.has(byte) {
            Ok(())
        } else {
            Err(Stop::Bad)
        }
    }

    /// Takes a line end: a line feed, before which a carriage return may stand.
    pub fn line_end(&mut self) -> Result<(), Stop>
        ensures { Skips self.new result (line_end_at self.old) }
    {
        match self.rest {
            [] => Err(Stop::Bad),
            [b'\r', rest @ ..] => {
                self.rest = rest;
                self.byte(b'\n')
            }
            [_, ..] => self.byte(b'\n'),
        }
    }

    /// Takes the end of a command: a line end with nothing after it.
    #[tactic(auto, unfolding(crate::specs::Reading::end_at))]
    pub fn end(&mut self) -> Result<(), Stop>
        ensures { Skips self.new result (end_at self.old) }
    {
        self.line_end()?;
        match self.rest {
            [] => Ok(()),
            [_, ..] => Err(Stop::Bad),
        }
    }

    /// Returns whether a line end comes next.
    pub fn is_at_line_end(&self) -> bool
        ensures { result ≡ is_some (line_end_at self.now) }
    {
        match self.rest {
            [] => false,
            [b'\r', rest @ ..] => match rest {
                [] => false,
                [next, ..] => *next == b'\n',
            },
            [first, ..] => *first == b'\n',
        }
    }

    /// Returns the number of octets of a kind that come next.
    pub fn run_len(&self, kind: Kind) -> usize
        ensures value { result ≡ prefix_len (is_of kind) self.now }
        ensures within { result ≤ length self.now }
    {
        run_len(kind, self.rest)
    }

    /// Takes one or more octets of a kind, as many as there are.
    pub fn run(&mut self, kind: Kind) -> Result<&'a [u8], Stop>
        ensures { ObtainsSlice self.new result (run_at (is_of kind) self.old) }
    {
        let len = run_len(kind, self.rest);
        if len == 0 {
            return Err(Stop::Bad);
        }
        Ok(self.take(len))
    }

    /// Takes the keyword at the front: letters, digits and dots, as many as there are.
    pub fn word(&mut self) -> &'a [u8]
        ensures word { result.now ≡ word_of self.old }
        ensures rest { self.new ≡ behind_word self.old }
    {
        let len = run_len(Kind::Word, self.rest);
        self.take(len)
    }

    /// Returns a copy of some octets.
    pub fn copy(&self, octets: &[u8]) -> Result<Bytes, Stop>
        ensures { Copies result octets.now }
    {
        let mut made = Bytes::new(self.alloc);
        made.push_slice(octets)?;
        Ok(made)
    }
}
