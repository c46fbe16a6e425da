//! The octets that a connection holds of a command, and the end of its parts.
//! Allocates.
use crate::parts::{NextPart, next_part};
use arch_base::{Bytes, NoMemory};
use std::alloc::Global;
use std::marker::Model;
use std::mem;

/// What a framer found in a piece.
#[derive(Debug, Drop)]
pub enum Found {
    /// No part ends in the piece, all of which is held.
    More,
    /// A part ended that announces octets: the client waits for a word before it sends them.
    Continue,
    /// The command has ended. These are all its octets, line ends and literals included.
    Command(Bytes),
    /// The command has more than 16,384 octets, announced ones included. Nothing is held.
    TooLong,
    /// An allocation failed. Nothing is used of the piece, and the framer is unchanged.
    NoMemory,
}

/// What a framer found in a piece, and the number of octets of the piece that it used for that.
#[derive(Debug, Drop)]
pub struct Framed {
    /// The number of octets up to and with the one that decided.
    ///
    /// `More` uses the whole piece, `NoMemory` nothing of it.
    pub used: usize,
    pub what: Found,
}

/// The octets of a command that has not ended (RFC 3501, sections 2.2, 4.3 and 7.5).
///
/// A command is parts. A part is the octets that the part before announced, and then a line. A line
/// whose end is `{n}` announces a literal of `n` octets; the part whose line doesn't is the last
/// one. A command has at most 16,384 octets, which is tested as soon as octets come or are announced.
/// What is found doesn't depend on how the octets are cut into pieces.
#[derive(Drop)]
pub struct Framer {
    octets: Bytes,
    held: usize,
    owed: usize,
    alloc: Global,
}

impl Model for Framer {
    ghost use Rattle.std.specs.Prelude.{◌≡◌, ◌≤◌, ◌+◌, length, drop, None};
    ghost use Rattle.line_door.specs.Lines.{first_line};
    ghost use Rattle.imap_framer.specs.Framing.{Framing, most_octets};
    ghost use Rattle.imap_framer.specs.Scanning.{framing_of};

    ghost Value = { Framing };

    ghost view = { λ f. framing_of f.held f.owed f.octets };

    ghost invariant = { λ f. (f.held ≤ length f.octets) × (f.held + f.owed ≤ most_octets)
        × (length f.octets ≤ most_octets)
        × (first_line (drop (f.held + f.owed) f.octets) ≡ None) };
}

impl Framer {
    ghost use Rattle.std.specs.Prelude.{◌≡◌, ◌≤◌, ◌+◌, ◌++◌, length, if◌then◌else◌, is_ok, true, false, MatchResult};
    ghost use Rattle.imap_framer.specs.Framing.{most_octets, fresh, with_octets};
    ghost use Rattle.imap_framer.specs.Feeding.{IsOpen, IsNextPart, holding, command_of, IsFramed, asks_on};

    /// Returns a framer that holds nothing. Allocates nothing.
    pub fn new(alloc: Global) -> Framer
        ensures { result ≡ fresh }
    {
        Framer {
            octets: Bytes::new(alloc),
            held: 0,
            owed: 0,
            alloc,
        }
    }

    /// Returns the octets that are held of a command.
    pub fn octets(&self) -> &[u8]
        ensures { result.now ≡ self.now.held ++ self.now.part }
    {
        self.octets.as_slice()
    }

    /// Finds how a piece goes on after what is held. Allocates nothing, and holds nothing of the piece.
    ///
    /// `literals` says whether a line may announce octets, as it may unless the session idles.
    pub fn next(&self, piece: &[u8], literals: bool) -> NextPart
        ensures { IsNextPart literals self.now piece.now result }
    {
        next_part(
            self.octets.as_slice(),
            self.held,
            self.owed,
            piece,
            literals,
        )
    }

    /// Holds octets that end no part.
    ///
    /// `NoMemory` leaves the framer unchanged.
    pub fn keep(&mut self, octets: &[u8]) -> Result<(), NoMemory>
        requires { IsOpen (with_octets self.old octets.now) }
        ensures { self.new ≡ (if is_ok result then with_octets self.old octets.now else self.old) }
    {
        self.octets.push_slice(octets)
    }

    /// Holds octets that end a part, which announces `owed` octets.
    ///
    /// `NoMemory` leaves the framer unchanged.
    pub fn begin(&mut self, octets: &[u8], owed: usize) -> Result<(), NoMemory>
        requires { length self.old.held + (length self.old.part + length octets.now) + owed
            ≤ most_octets }
        ensures { self.new ≡ (if is_ok result then holding self.old octets.now owed else self.old) }
    {
        match self.octets.push_slice(octets) {
            Err(refused) => Err(refused),
            Ok(()) => {
                self.held = self.octets.as_slice().len();
                self.owed = owed;
                Ok(())
            }
        }
    }

    /// Takes the octets of a command that ends with these. Nothing is held then.
    ///
    /// `NoMemory` leaves the framer unchanged.
    pub fn finish(&mut self, octets: &[u8]) -> Result<Bytes, NoMemory>
        ensures { MatchResult result
            (λ command. (command ≡ command_of self.old octets.now) × (self.new ≡ fresh))
            (λ _. self.new ≡ self.old) }
    {
        match self.octets.push_slice(octets) {
            Err(refused) => Err(refused),
            Ok(()) => {
                let command = mem::replace(&mut self.octets, Bytes::new(self.alloc));
                self.held = 0;
                self.owed = 0;
                Ok(command)
            }
        }
    }

    /// Drops what is held.
    pub fn clear(&mut self)
        ensures { self.new ≡ fresh }
    {
        self.octets = Bytes::new(self.alloc);
        self.held = 0;
        self.owed = 0;
    }

    /// Finds the next part of a command in a piece, and holds it or hands over the command.
    ///
    /// `NoMemory` leaves the framer unchanged.
    pub fn feed(&mut self, piece: &[u8]) -> Framed
        ensures { IsFramed true self.old piece.now self.new result.used result.what }
    {
        self.feed_by(piece, true)
    }

    /// Finds the end of a line in a piece that announces nothing, whatever its end is, and hands over
    /// the line as a command. So a line is read while a session idles (RFC 2177).
    ///
    /// `NoMemory` leaves the framer unchanged.
    pub fn feed_line(&mut self, piece: &[u8]) -> Framed
        ensures framed { IsFramed false self.old piece.now self.new result.used result.what }
        ensures no_literal { asks_on result.what ≡ false }
    {
        self.feed_by(piece, false)
    }

    /// Finds the next part, whose line may announce octets if `literals` says so.
    fn feed_by(&mut self, piece: &[u8], literals: bool) -> Framed
        ensures { IsFramed literals self.old piece.now self.new result.used result.what }
    {
        match self.take_part(piece, literals) {
            Ok(framed) => framed,
            Err(_) => Framed {
                used: 0,
                what: Found::NoMemory,
            },
        }
    }

    /// Finds the next part and holds it, or takes the command that it ends.
    ///
    /// `NoMemory` leaves the framer unchanged.
    fn take_part(&mut self, piece: &[u8], literals: bool) -> Result<Framed, NoMemory>
        ensures { MatchResult result
            (λ framed. IsFramed literals self.old piece.now self.new framed.used framed.what)
            (λ _. self.new ≡ self.old) }
    {
        match self.next(piece, literals) {
            NextPart::Last(used) => {
                let command = self.finish(piece.split_at(used).0)?;
                Ok(Framed {
                    used,
                    what: Found::Command(command),
                })
            }
            NextPart::Literal(used, octets) => {
                self.begin(piece.split_at(used).0, octets)?;
                Ok(Framed {
                    used,
                    what: Found::Continue,
                })
            }
            NextPart::TooLong(used) => {
                self.clear();
                Ok(Framed {
                    used,
                    what: Found::TooLong,
                })
            }
            NextPart::More => {
                self.keep(piece)?;
                Ok(Framed {
                    used: piece.len(),
                    what: Found::More,
                })
            }
        }
    }
}
