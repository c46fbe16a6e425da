//! The counts and lengths that more than one file of an archive goes by.
//! Pure.
ghost use Rattle.std.specs.Prelude.{◌≡◌, ◌≤◌, ◌*◌};
ghost use Rattle.disk_model.specs.Sizes.{record_size as size_of_record};

use arch_base::Form;

/// The count of epochs that an archive may have. Their numbers are 0 to 63.
pub const EPOCHS: u32 = 64;

/// The greatest number of an epoch.
pub const LAST_EPOCH: u32 = EPOCHS - 1;

/// Returns the length of a record of the map, in bytes: 28 or 40, by the form of its id.
pub fn record_size(form: Form) -> usize
    ensures size { result ≡ size_of_record form }
    ensures most { result ≤ 40 }
{
    match form {
        Form::Sha1 => 28,
        Form::Sha256 => 40,
    }
}

/// Returns the length of so many records of the map, in bytes.
pub fn records_size(count: u32, form: Form) -> u64
    ensures size { result ≡ size_of_record form * count }
    ensures most { result ≤ 40 * count }
{
    match form {
        Form::Sha1 => 28 * u64::from(count),
        Form::Sha256 => 40 * u64::from(count),
    }
}
