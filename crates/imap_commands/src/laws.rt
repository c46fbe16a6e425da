//! The laws of what is said to whole commands.
//! Pure.
ghost use Rattle.imap_commands.specs.Laws.{CommandLaws};

/// Shows what holds of the reply to each whole command, however it goes.
///
/// * It leaves a state that suits the archive, if the state before it did.
/// * It leaves the archive.
/// * Where memory ran out, the word for that depends on the command's tag alone.
pub fn command_laws()
    ensures { CommandLaws }
{}
