//! The laws of what clients are told.
//! Pure.
ghost use Rattle.imap_states.specs.Laws.{StateLaws};

/// Shows that what a client was told goes on suiting the archive.
///
/// * Each reply leaves a state that suits the archive, if the state before it did, and so does an
///   update.
/// * What suits an archive suits each one that commands make of it.
/// * A client that was told of changes is told nothing more of the same archive.
pub fn reply_laws()
    ensures { StateLaws }
{}
