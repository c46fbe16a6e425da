//! Laws of the data, which hold for all bytes.
//! Pure.
ghost use Rattle.lmtp_data.specs.DataLaws.{DataLaws};

/// Shows what the data is in terms of its lines, and that it doesn't depend on how its bytes are cut
/// into pieces.
pub fn data_laws()
    ensures { DataLaws }
{}
