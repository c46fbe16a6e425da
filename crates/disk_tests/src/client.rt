//! Replaces a text in a file safely against crashes.
ghost use Rattle.std.specs.Prelude.{ℕ, List, OnOk};
ghost use Rattle.arch_base.specs.Counts.{HasCause};
ghost use Rattle.disk_model.specs.Disk.{WhereTold};
ghost use Rattle.disk_model.specs.Moments.{LeavesOnly};
ghost use Rattle.disk_model.specs.declared.name.FileName.{FileName};
ghost use Rattle.disk_tests.specs.Texts.{HasSeventeen, EachFile, IsReadyFile, StandsForText, StandsForEitherText};

use disk_model::{Disk, DiskFault, FileName, write_and_sync};

/// Replaces the text of eight bytes that a file of seventeen bytes stands for.
///
/// The file is a gate of one byte and two texts. It stands for the second text if the gate is 1,
/// otherwise for the first. The call writes the second text, syncs, sets the gate to 1, and syncs.
pub fn change_text<D: Disk>(disk: &mut D, name: FileName, text: &[u8; 8]) -> Result<(), DiskFault>
    requires size { WhereTold (HasSeventeen name) (D.content disk.old) }
    // A crash at any moment leaves the old text or the new one.
    ensures crash { (old : List ℕ) → EachFile name (IsReadyFile old) (D.content disk.old)
        → LeavesOnly D.Disk disk.old disk.new (StandsForEitherText name old text.now) }
    // After Ok it leaves the new one.
    ensures done { (old : List ℕ) → EachFile name (IsReadyFile old) (D.content disk.old)
        → OnOk result (EachFile name (StandsForText text.now) (D.content disk.new)) }
    ensures cause { HasCause (D.faults disk.old) (D.faults disk.new) result }
{
    write_and_sync(disk, name, 9, text)?;
    write_and_sync(disk, name, 0, &[1])
}
