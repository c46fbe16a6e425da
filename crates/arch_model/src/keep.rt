//! The trait of keepers: shelves that also carry out commands, and can be reopened.
//! Writes the disk; syncs.
ghost use Rattle.std.specs.Prelude.{◌≡◌, ◌≤◌, ℕ, Bool, true, false, not, List, [], ◌∷◌, Option, Some, is_ok, IfOk, OnOk, length};
ghost use Rattle.std.specs.List.{Contains};
ghost use Rattle.arch_base.specs.Moments.{last_moment};
ghost use Rattle.arch_model.specs.Archives.{Archive, in_epoch, live};
ghost use Rattle.arch_model.specs.Delivery.{applied};
ghost use Rattle.arch_model.specs.Keeping.{CrashesLeaveOnly, MatchesKnown, KeeperMoves, OnlyRead, Reopens, CommandGives, CommandTaken, FindsStanding, StaysReady, AnswerCause, OpeningCause, ReadsFor, text_known};
ghost use Rattle.arch_model.specs.Shelves.{AppendsTo, ShelfStays, ReadCause, ReadsOnce};
ghost use Rattle.arch_model.specs.Standing.{LastKnown, GivesEpochIn, KeepsUnlessFound};
ghost use Rattle.arch_model.specs.declared.answer.Answer.{Answer};
ghost use Rattle.arch_model.specs.declared.command.Command.{Command};

use crate::answer::Answer;
use crate::command::Command;
use crate::opening::OpenRefusal;
use crate::shelf::Shelf;
use crate::text_refusal::TextRefusal;
use arch_base::Bytes;

/// A keeper: a shelf that carries out commands on its archive.
///
/// A keeper is ready or stale. It is stale after a command at which the disk failed, or that found
/// a file damaged, and may be after one that was carried out. After a fault of the disk it is not
/// known whether the command was carried out. A stale keeper answers nothing until it is reopened,
/// which finds the archive before the command or the one after it.
///
/// What a keeper stands for is a `Standing`: its archive, and the one that a command in doubt would
/// have left. Its clauses hold for each standing that it fits. While nothing is in doubt, its files are
/// exactly those of its archive, also where it is stale. A crash is spoken of by two states: on the way
/// from the first one to the second, it may leave what a clause says.
pub trait Keep: Shelf {
    /// The keeper's files are exactly those of this archive, with no other file, and all that reads of
    /// them give is on the disk.
    ghost files_are: { Self → Archive → Type 0 };

    /// Each crash since the first state has left one of these archives. None stands for no archive.
    ghost leaves: { Self → Self → List (Option Archive) → Type 0 };

    /// The keeper's files were read again, on the way from the first state to the second. They read as
    /// those of this archive, and nothing was committed: the second state's files are the same, without
    /// what doesn't count, and the archive is kept as they have it.
    ghost finds: { Self → Self → Archive → Type 0 };

    /// A ready keeper took a command, on the way from the first state to the second, at a moment and
    /// with an answer: what it did to the keeper's files, and what became of what is kept beside them.
    ghost takes: { Self → Self → Command → ℕ → Answer → Type 0 };

    /// Returns whether the keeper has to be reopened.
    fn is_stale(&self) -> bool
        ensures { Self.ready self.now ≡ not result };

    /// Reopens the archive if the keeper is stale, and otherwise does nothing.
    ///
    /// Finds the archive before a command in doubt, or the one after it: the one as which the files
    /// read. A crash leaves no archive that a crash before could not have left. `DiskFault` if the disk
    /// failed, and the count of faults rose; any other result leaves the count. `NoMemory` if an
    /// allocation fails.
    fn fresh(&mut self) -> Result<(), OpenRefusal>
        ensures nothing { Self.ready self.old ≡ true
            → (is_ok result ≡ true) × (self.new ≡ self.old) }
        ensures found { (s : LastKnown) → MatchesKnown Self.Keep self.old s
            → (t : LastKnown) × KeeperMoves Self.Keep self.old s self.new t
            × Reopens s result t
            × FindsStanding Self.Keep self.old self.new result t }
        ensures crash { (s : LastKnown) → MatchesKnown Self.Keep self.old s
            → CrashesLeaveOnly leaves self.old self.new [] }
        ensures ready { Self.ready self.new ≡ is_ok result }
        ensures later { Self.faults self.old ≤ Self.faults self.new }
        ensures cause { OpeningCause (Self.faults self.old) (Self.faults self.new) result };

    /// Reads the files again and rebuilds from them what is kept beside them, as the rows of live
    /// messages, their threads and their words. Returns the number of live messages.
    ///
    /// Finds what `fresh` of a stale keeper finds: with no command in doubt, the archive that was
    /// held, so each answer is the one that would be given without it. No clause can tell then whether
    /// the files were read: an engine that reads none of them, and counts what it holds, passes, if it
    /// settles its disk. After a refusal the keeper is stale. `DiskFault` if the disk failed, and the
    /// count of faults rose; any other result leaves the count. `NoMemory` if an allocation fails.
    fn reindex(&mut self) -> Result<u32, OpenRefusal>
        ensures found { (s : LastKnown) → MatchesKnown Self.Keep self.old s
            → (t : LastKnown) × KeeperMoves Self.Keep self.old s self.new t
            × Reopens s result t × IfOk result (λ count. count ≡ length (live t.archive.entries))
            × OnOk result (Self.finds self.old self.new t.archive) }
        ensures crash { (s : LastKnown) → MatchesKnown Self.Keep self.old s
            → CrashesLeaveOnly leaves self.old self.new [] }
        ensures ready { Self.ready self.new ≡ is_ok result }
        ensures later { Self.faults self.old ≤ Self.faults self.new }
        ensures cause { OpeningCause (Self.faults self.old) (Self.faults self.new) result };

    /// Carries out a command at a moment, in seconds since 1970 UTC. A stale keeper is reopened
    /// first, and the command is one on the archive as which its files read.
    ///
    /// The answer is that of the definition, on the archive that is held or found, or `NoMemory` if
    /// an allocation fails, or `DiskFault` if the disk failed and the count of faults rose. Any other
    /// answer leaves the count. A refusal to reopen leaves all as it was, but after `DiskFault` the
    /// archive itself is in doubt. After any other `DiskFault` the command is in doubt. A crash leaves
    /// an archive of the standing before the call or of the one after it. At a delivery and a removal
    /// a ready keeper reads the disk at most once, and not at all at a delivery of no text or of one
    /// with a blob id that no entry has.
    fn command(&mut self, command: &Command<'_>, moment: u64) -> Answer
        requires moment { moment ≤ last_moment }
        ensures done { (s : LastKnown) → MatchesKnown Self.Keep self.old s
            → (t : LastKnown) × KeeperMoves Self.Keep self.old s self.new t
            × CommandGives (Self.ready self.old) s (λ (a : Archive). applied a command.now moment) result t
            × CommandTaken Self.Keep self.old s command.now moment self.new result t }
        ensures ready { StaysReady (Self.ready self.old) result (Self.ready self.new) }
        ensures later { Self.faults self.old ≤ Self.faults self.new }
        ensures cause { AnswerCause (Self.faults self.old) (Self.faults self.new) result }
        ensures reads { Self.ready self.old ≡ true
            → ReadsFor command.now (Self.reads self.old) (Self.reads self.new) }
        ensures unread { (a : Archive) → Self.holds self.old a → Self.ready self.old ≡ true
            → text_known a command.now ≡ false → Self.reads self.new ≡ Self.reads self.old };

    /// Appends the bytes of an epoch, and returns whether the epoch has an entry. Reads the disk at
    /// most once.
    ///
    /// `DiskFault` if the disk failed, and the count of faults rose; any other result leaves the
    /// count. `NoMemory` if an allocation fails. `Damaged` never comes while an archive is held. Each
    /// of them, and an epoch without an entry, leave `into` unchanged.
    fn epoch_bytes(&mut self, epoch: u32, into: &mut Bytes) -> Result<bool, TextRefusal>
        requires ready { Self.ready self.old ≡ true }
        ensures bytes { (a : Archive) → Self.holds self.old a
            → GivesEpochIn a.config.form (in_epoch a.entries epoch) into.old into.new result }
        ensures kept { KeepsUnlessFound into.old into.new result }
        ensures appends { AppendsTo into.old into.new }
        ensures shelf { ShelfStays Self.holds Self.ready Self.alike Self.faults self.old self.new }
        ensures cause { ReadCause (Self.faults self.old) (Self.faults self.new) result }
        ensures reads { ReadsOnce (Self.reads self.old) (Self.reads self.new) };

    /// The files of a keeper that holds an archive are exactly that archive's.
    ghost holds_files_are: { (k : Self) (a : Archive) → Self.holds k a → files_are k a };

    /// A crash leaves the archive that a keeper holds.
    ghost holds_left: { (k : Self) (a : Archive) (may : List (Option Archive)) → Self.holds k a
        → Contains may (Some a) → leaves k k may };

    /// A crash since a state is one since each state on the way from it.
    ghost leaves_now: { (start k : Self) (may : List (Option Archive)) → leaves start k may
        → leaves k k may };

    /// What only reads leaves the archive, the files, the readiness and what a crash may leave.
    ghost alike_kept: { (k m : Self) → Self.alike k m
        → OnlyRead Self.Keep k m };
}
