//! The trait of what is walked through: the entries of an archive and their texts, one by one.
//! Reads the disk.
ghost use Rattle.std.specs.Prelude.{◌≡◌, ◌<◌, ℕ, List, Some, length, slice_get, IfErr};
ghost use Rattle.arch_model.specs.Archives.{Archive};
ghost use Rattle.arch_model.specs.Shelves.{line_at, ReadCause, ReadsOnce, IsUndamaged};
ghost use Rattle.arch_model.specs.Validity.{IsArchive};
ghost use Rattle.arch_model.specs.Walking.{GivesLine, GivesTextAt, WalksOn};
ghost use Rattle.arch_model.specs.declared.line.EntryLine.{EntryLine};

use crate::line::EntryLine;
use crate::text_refusal::TextRefusal;
use arch_base::Bytes;

/// What is walked through: entries in order, with their texts. Views of an archive are built from it.
pub trait Walked {
    /// It holds this archive, if that is told.
    ghost holds: { Self → Archive → Type 0 };

    /// The texts of all entries are in their places, if that is told.
    ghost sound: { Self → Type 0 };

    /// The entries without their texts.
    ghost lines: { Self → List EntryLine };

    /// The count of reads of the disk.
    ghost reads: { Self → ℕ };

    /// The count of faults of the disk.
    ghost faults: { Self → ℕ };

    /// A relation of two states that holds if reading may lead from one to the other. It says what
    /// reading leaves unchanged.
    ghost alike: { Self → Self → Type 0 };

    /// Returns the entry at an index, from 0, without its text, or `None` if there are not so many.
    fn entry(&self, index: u64) -> Option<EntryLine>
        ensures line { result ≡ slice_get (lines self.now) index }
        ensures archive { (a : Archive) → holds self.now a
            → result ≡ line_at a.config.form a.entries index };

    /// Appends the text of the entry at an index. Reads the disk at most once.
    ///
    /// `DiskFault` if the disk failed, and the count of faults rose; any other result leaves the
    /// count. `NoMemory` if an allocation fails. `Damaged` if the bytes that were read have another
    /// id than the entry's blob, which never happens while an archive is held, or where all texts are
    /// in their places. Each of them leaves `into` unchanged.
    fn text(&mut self, index: u64, into: &mut Bytes) -> Result<(), TextRefusal>
        requires there { index < length (lines self.old) }
        ensures line { (line : EntryLine) → slice_get (lines self.old) index ≡ Some line
            → GivesLine line into.old into.new result }
        ensures archive { (a : Archive) → holds self.old a
            → GivesTextAt a.entries index into.old into.new result }
        ensures undamaged { sound self.old → IfErr result IsUndamaged }
        ensures walk { WalksOn holds sound lines alike faults self.old self.new }
        ensures cause { ReadCause (faults self.old) (faults self.new) result }
        ensures reads { ReadsOnce (reads self.old) (reads self.new) };

    /// The archive that is held is valid.
    ghost holds_valid: { (w : Self) (a : Archive) → holds w a → IsArchive a };

    /// The relation leads from each state to itself.
    ghost alike_same: { (w : Self) → alike w w };

    /// Two steps of the relation in order are one.
    ghost alike_joined: { (w x y : Self) → alike w x → alike x y → alike w y };
}
