//! Reads records from their bytes.
//! Pure.
ghost use Rattle.std.specs.Prelude.{◌≡◌, ◌≢◌, ◌<◌, ◌^◌, length, take, IfSome, IfNone};
ghost use Rattle.arch_base.specs.Ids.{IsObjectId};
ghost use Rattle.disk_model.specs.BigEndian.{be32};
ghost use Rattle.disk_model.specs.Sizes.{record_size as size_of_record};
ghost use Rattle.number_map.specs.declared.line.Record.{Record};
ghost use Rattle.number_map.specs.Records.{record_bytes, IsRecord};

use crate::line::{Record, is_valid};
use arch_base::{Form, ObjectId};
use disk_model::record_size;

/// Reads a number of 32 bits, the highest byte first.
fn number32(bytes: &[u8]) -> u32
    requires { length bytes.now ≡ 4 }
    ensures { be32 result ≡ bytes.now }
{
    let mut digits = [0; 4];
    digits.copy_from_slice(bytes);
    u32::from_be_bytes(digits)
}

/// Reads the record with these bytes, valid or not.
fn any_record(bytes: &[u8], form: Form) -> Record
    requires { length bytes.now ≡ size_of_record form }
    ensures bytes { record_bytes result ≡ bytes.now }
    ensures blob { IsObjectId form result.blob }
    ensures number { result.number < 2 ^ 32 }
    ensures epoch { result.epoch < 2 ^ 32 }
{
    let (number, rest) = bytes.split_at(4);
    let (epoch, blob) = rest.split_at(4);
    Record {
        number: number32(number),
        epoch: number32(epoch),
        blob: ObjectId::from_slice(blob, form),
    }
}

/// Returns the valid record of a number at the front of bytes, if there is one.
pub fn record_in_front(bytes: &[u8], number: u32, form: Form) -> Option<Record>
    ensures some { IfSome result (λ line. IsRecord form number line
        × (take (size_of_record form) bytes.now ≡ record_bytes line)) }
    ensures none { IfNone result ((line : Record) → IsRecord form number line
        → take (size_of_record form) bytes.now ≢ record_bytes line) }
{
    if bytes.len() < record_size(form) {
        return None;
    }
    let line = any_record(bytes.split_at(record_size(form)).0, form);
    if line.number != number {
        return None;
    }
    if !is_valid(&line, form) {
        return None;
    }
    Some(line)
}
