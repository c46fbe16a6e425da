//! Laws of epochs, which other crates cite.
//! Pure.
ghost use Rattle.epoch_file.specs.Entries.{EpochsDiffer, EntriesDiffer};

/// Epochs with the same bytes have the same entries: no entry can be read in two ways.
#[tactic(auto, using(crate::proofs::Apart::epochs_differ))]
pub fn law_of_epochs()
    ensures { EpochsDiffer }
{}

/// Bytes determine the first entry that they start with, and the rest after it.
#[tactic(auto, using(crate::proofs::Apart::entry_once))]
pub fn law_of_entries()
    ensures { EntriesDiffer }
{}
