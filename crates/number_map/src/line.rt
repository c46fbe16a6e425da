//! The record that the map has for a number.
//! Allocates.
ghost use Rattle.std.specs.Prelude.{◌≡◌, ◌⊎◌, ◌↔◌, IsTrue};
ghost use Rattle.number_map.specs.Records.{RecordHasMessage, RecordHasNone, zero_id};

use arch_base::{Duplicate, Form, NoMemory, ObjectId, Sequence};
use disk_model::LAST_EPOCH;

/// The epoch in the record of a number without a message.
pub(crate) const NO_EPOCH: u32 = 4_294_967_295;

/// Returns the id of the blob in that record: zeros.
pub(crate) fn no_blob(form: Form) -> ObjectId
    ensures { result ≡ zero_id form }
{
    match form {
        Form::Sha1 => ObjectId::Sha1([0; 20]),
        Form::Sha256 => ObjectId::Sha256([0; 32]),
    }
}

/// The record of a number: where its message is, if it has one.
#[derive(Clone, Copy, Debug, PartialEq, Eq, Drop)]
pub struct Record {
    /// The number, from 1.
    pub number: u32,
    /// The epoch, 0 to 63, or 4,294,967,295 if the number has no message.
    pub epoch: u32,
    /// The id of the message's blob, or zeros if the number has no message.
    pub blob: ObjectId,
}

/// A list of records, one for each number.
pub type Records = Sequence<Record>;

impl Duplicate for Record {
    fn duplicate(&self) -> Result<Record, NoMemory> {
        Ok(*self)
    }
}

/// Returns whether a record has a message in an epoch from 0 to 63, or none.
pub fn is_valid(line: &Record, form: Form) -> bool
    ensures { IsTrue result ↔ (RecordHasMessage line.now ⊎ RecordHasNone form line.now) }
{
    if line.epoch <= LAST_EPOCH {
        return true;
    }
    line.epoch == NO_EPOCH && line.blob == no_blob(form)
}
