//! The list of the epochs of an archive.
//! Reads the disk.
ghost use Rattle.std.specs.Prelude.{◌≡◌, ◌++◌, [], true, OnOk};
ghost use Rattle.disk_model.specs.Sizes.{epoch_count};
ghost use Rattle.arch_model.specs.OverShelf.{ShelfKept};
ghost use Rattle.arch_model.specs.Archives.{Archive, in_epoch};
ghost use Rattle.arch_model.specs.Shelves.{ReadCause, ReadsOnce, ReadsUpTo};
ghost use Rattle.control_door.specs.Door.{listed, listed_below, epoch_words, epochs_words};
ghost use Rattle.control_door.specs.Refusals.{AppendsWords, MakesWords};

use arch_base::{Bytes, NoMemory};
use arch_model::{Keep, TextRefusal};
use disk_model::EPOCHS;
use itoa::Buffer;
use std::alloc::Global;

/// Returns the list of the epochs of an archive.
///
/// The list is made whole before any of it is written.
pub(crate) fn epochs_of<K: Keep>(alloc: Global, keep: &mut K) -> Result<Bytes, TextRefusal>
    requires { K.ready keep.old ≡ true }
    ensures words { (a : Archive) → K.holds keep.old a
        → MakesWords (epochs_words a.config.form a.entries) result }
    ensures shelf { ShelfKept K.Shelf keep.old keep.new }
    ensures cause { ReadCause (K.faults keep.old) (K.faults keep.new) result }
    ensures reads { ReadsUpTo epoch_count (K.reads keep.old) (K.reads keep.new) }
{
    let mut words = Bytes::new(alloc);
    match push_epochs(alloc, keep, &mut words) {
        Ok(()) => {}
        Err(refusal) => return Err(refusal),
    }
    match words.push_slice(b"end\n") {
        Ok(()) => Ok(words),
        Err(NoMemory) => Err(TextRefusal::NoMemory),
    }
}

/// Appends the words of each epoch that has an entry, by number.
///
/// A refusal may leave a part of them appended.
fn push_epochs<K: Keep>(alloc: Global, keep: &mut K, into: &mut Bytes) -> Result<(), TextRefusal>
    requires ready { K.ready keep.old ≡ true }
    requires empty { into.old ≡ [] }
    ensures words { (a : Archive) → K.holds keep.old a
        → AppendsWords (listed_below a.config.form epoch_count a.entries) [] into.new result }
    ensures shelf { ShelfKept K.Shelf keep.old keep.new }
    ensures cause { ReadCause (K.faults keep.old) (K.faults keep.new) result }
    ensures reads { ReadsUpTo epoch_count (K.reads keep.old) (K.reads keep.new) }
{
    for epoch in 0..EPOCHS {
        match push_listed(alloc, epoch, keep, into) {
            Ok(()) => {}
            Err(refusal) => return Err(refusal),
        }
    }
    Ok(())
}

/// Appends the words of an epoch, if it has an entry.
///
/// A refusal may leave a part of them appended.
fn push_listed<K: Keep>(
    alloc: Global,
    epoch: u32,
    keep: &mut K,
    into: &mut Bytes,
) -> Result<(), TextRefusal>
    requires { K.ready keep.old ≡ true }
    ensures words { (a : Archive) → K.holds keep.old a
        → AppendsWords (listed a.config.form epoch (in_epoch a.entries epoch)) into.old into.new
        result }
    ensures shelf { ShelfKept K.Shelf keep.old keep.new }
    ensures cause { ReadCause (K.faults keep.old) (K.faults keep.new) result }
    ensures reads { ReadsOnce (K.reads keep.old) (K.reads keep.new) }
{
    let mut bytes = Bytes::new(alloc);
    match keep.epoch_bytes(epoch, &mut bytes) {
        Ok(true) => match push_epoch(epoch, bytes.as_slice(), into) {
            Ok(()) => Ok(()),
            Err(NoMemory) => Err(TextRefusal::NoMemory),
        },
        Ok(false) => Ok(()),
        Err(refusal) => Err(refusal),
    }
}

/// Appends the words of an epoch with these bytes.
///
/// `NoMemory` may leave a part of them appended.
fn push_epoch(epoch: u32, bytes: &[u8], into: &mut Bytes) -> Result<(), NoMemory>
    ensures { OnOk result (into.new ≡ into.old ++ epoch_words epoch bytes.now) }
{
    let mut buffer = Buffer::new();
    into.push_slice(b"epoch ")?;
    into.push_slice(buffer.format(epoch).as_bytes())?;
    into.push_slice(b" ")?;
    into.push_slice(buffer.format(bytes.len()).as_bytes())?;
    into.push_slice(b"\n")?;
    into.push_slice(bytes)?;
    into.push_slice(b"\n")
}
