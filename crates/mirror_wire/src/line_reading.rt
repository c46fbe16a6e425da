//! Reads the lines of a list: the first three, and that of an entry.
//! Pure.
ghost use Rattle.std.specs.Prelude.{◌≡◌, [], MatchOption};
ghost use Rattle.arch_base.specs.Ids.{IsObjectId};
ghost use Rattle.arch_base.specs.Names.{IsArchiveName};
ghost use Rattle.git_objects.specs.Fronts.{Lacks, Begins, Both, in_turn};
ghost use Rattle.git_objects.specs.Commits.{IsNumber, number_part, text_part};
ghost use Rattle.mirror_wire.specs.Lists.{first_words, entry_part};
ghost use Rattle.mirror_wire.specs.Rules.{IsNext};
ghost use Rattle.mirror_wire.specs.Parts.{Has32Bits, AnyEntryKind, letter_part, place_part, time_part, blob_part, IsEntryLine};

use arch_base::{Form, Name, ObjectId};
use arch_model::EntryLine;
use git_objects::{EntryKind, parted_at, read_id, read_number};

/// The greatest next number.
const LAST_NEXT: u64 = 2_147_483_648;

/// Returns the first line of a list with ids of a form.
pub(crate) fn first_line(form: Form) -> &'static [u8]
    ensures { result.now ≡ text_part 10 (first_words form) [] }
{
    match form {
        Form::Sha1 => b"piv2 list 1\n",
        Form::Sha256 => b"piv2 list 2\n",
    }
}

/// Reads the line of the name.
pub(crate) fn read_name(bytes: &[u8]) -> Option<(Name, &[u8])>
    ensures { MatchOption result (Lacks IsArchiveName (text_part 10) bytes.now)
        (λ found. Begins IsArchiveName (text_part 10) bytes.now found.0 found.1.now) }
{
    let (name, rest) = parted_at(b'\n', bytes)?;
    Some((Name::read(name)?, rest))
}

/// Reads the line of the next number.
pub(crate) fn read_next(bytes: &[u8]) -> Option<(u32, &[u8])>
    ensures { MatchOption result (Lacks IsNext (number_part 10) bytes.now)
        (λ found. Begins IsNext (number_part 10) bytes.now found.0 found.1.now) }
{
    let (next, rest) = read_number(b'\n', bytes)?;
    if next < 1 || next > LAST_NEXT {
        return None;
    }
    Some((next as u32, rest))
}

/// Reads the line of an entry with ids of a form, whatever lines are before it.
pub(crate) fn read_line(bytes: &[u8], form: Form) -> Option<(EntryLine, &[u8])>
    ensures { MatchOption result (Lacks (IsEntryLine form) entry_part bytes.now)
        (λ found. Begins (IsEntryLine form) entry_part bytes.now found.0 found.1.now) }
{
    let (kind, number, rest) = read_place(bytes)?;
    let (epoch, secs, rest) = read_time(rest)?;
    let (blob, size, rest) = read_blob(rest, form)?;
    let (commit, rest) = read_id(b'\n', rest, form)?;
    let line = EntryLine {
        kind,
        number,
        epoch,
        secs,
        blob,
        size,
        commit,
    };
    Some((line, rest))
}

/// Reads the kind and the number of an entry.
fn read_place(bytes: &[u8]) -> Option<(EntryKind, u32, &[u8])>
    ensures { MatchOption result (Lacks (Both AnyEntryKind Has32Bits) place_part bytes.now) (λ found.
        Begins (Both AnyEntryKind Has32Bits) place_part bytes.now (found.0, found.1) found.2.now) }
{
    let (kind, rest) = read_kind(bytes)?;
    let (number, rest) = read_short(rest)?;
    Some((kind, number, rest))
}

/// Reads the epoch and the moment of an entry.
fn read_time(bytes: &[u8]) -> Option<(u32, u64, &[u8])>
    ensures { MatchOption result (Lacks (Both Has32Bits IsNumber) time_part bytes.now) (λ found.
        Begins (Both Has32Bits IsNumber) time_part bytes.now (found.0, found.1) found.2.now) }
{
    let (epoch, rest) = read_short(bytes)?;
    let (secs, rest) = read_number(b' ', rest)?;
    Some((epoch, secs, rest))
}

/// Reads the blob id of a form and the size of an entry's text.
fn read_blob(bytes: &[u8], form: Form) -> Option<(ObjectId, u64, &[u8])>
    ensures { MatchOption result (Lacks (Both (IsObjectId form) IsNumber) blob_part bytes.now) (λ found.
        Begins (Both (IsObjectId form) IsNumber) blob_part bytes.now (found.0, found.1) found.2.now) }
{
    let (blob, rest) = read_id(b' ', bytes, form)?;
    let (size, rest) = read_number(b' ', rest)?;
    Some((blob, size, rest))
}

/// Reads the letter of a kind, and a space.
fn read_kind(bytes: &[u8]) -> Option<(EntryKind, &[u8])>
    ensures { MatchOption result (Lacks AnyEntryKind letter_part bytes.now)
        (λ found. Begins AnyEntryKind letter_part bytes.now found.0 found.1.now) }
{
    match bytes {
        [b'm', b' ', rest @ ..] => Some((EntryKind::Message, rest)),
        [b'd', b' ', rest @ ..] => Some((EntryKind::Deletion, rest)),
        _ => None,
    }
}

/// Reads a number below 2^32 in digits, up to a space.
fn read_short(bytes: &[u8]) -> Option<(u32, &[u8])>
    ensures { MatchOption result (Lacks Has32Bits (number_part 32) bytes.now)
        (λ found. Begins Has32Bits (number_part 32) bytes.now found.0 found.1.now) }
{
    let (number, rest) = read_number(b' ', bytes)?;
    Some((u32::try_from(number).ok()?, rest))
}
