//! Reads records from a piece of a map.
//! Allocates.
ghost use Rattle.std.specs.Prelude.{◌≡◌, ◌≢◌, ◌+◌, ◌<◌, ◌≤◌, ◌^◌, ◌++◌, Err, ℕ, List, length, OnOk};
ghost use Rattle.disk_model.specs.Sizes.{record_size as size_of_record};
ghost use Rattle.number_map.specs.Records.{AreRecordsFrom};
ghost use Rattle.number_map.specs.Pieces.{ReadsNext, RecordsStand, IsEnough, ReadsRecords};

use crate::line::Records;
use crate::reading::record_in_front;
use arch_base::Form;
use disk_model::{WalkRefusal, record_size, records_size};

/// Reads the record of the next number from the front of bytes, and appends it to the others.
#[tactic(auto, using(crate::proofs::Spelled::whole_bytes))]
fn read_next(bytes: &[u8], lines: &mut Records, form: Form) -> Result<(), WalkRefusal>
    requires { length lines.old + 1 < 2 ^ 32 }
    ensures next { ReadsNext form result bytes.now lines.old lines.new }
    ensures size { OnOk result (length lines.new ≡ length lines.old + 1) }
    ensures whole { OnOk result (size_of_record form ≤ length bytes.now) }
{
    let before = lines.as_slice().len() as u32;
    let Some(line) = record_in_front(bytes, before + 1, form) else {
        let at = records_size(before, form);
        return Err(WalkRefusal::Damaged { at });
    };
    lines.push(line)?;
    Ok(())
}

/// Reads `wanted` more records from a piece of a map.
///
/// The piece has them all, or ends where the map ends.
pub fn read_piece(
    bytes: &[u8],
    wanted: u32,
    lines: &mut Records,
    form: Form,
) -> Result<(), WalkRefusal>
    requires { length lines.old + wanted < 2 ^ 32 }
    ensures read { (map after : List ℕ) → RecordsStand form lines.old (bytes.now ++ after) map
        → IsEnough form wanted bytes.now after
        → ReadsRecords form result (length lines.old + wanted) map lines.new }
    ensures size { OnOk result (length lines.new ≡ length lines.old + wanted) }
    ensures valid { AreRecordsFrom form 1 lines.old → OnOk result (AreRecordsFrom form 1 lines.new) }
    ensures no_fault { result ≢ Err WalkRefusal.DiskFault }
{
    let mut rest = bytes;
    for _ in 0..wanted {
        match read_next(rest, lines, form) {
            Err(refusal) => return Err(refusal),
            Ok(()) => rest = rest.split_at(record_size(form)).1,
        }
    }
    Ok(())
}
