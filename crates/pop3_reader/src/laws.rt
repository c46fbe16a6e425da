//! The laws of the door, which hold for every archive and all bytes.
//! Pure.
ghost use Rattle.pop3_reader.specs.Laws.{PopLaws};

/// Shows that the replies to a client do not depend on how the bytes are cut, and that a maildrop
/// stays.
///
/// * However the bytes of a connection are cut into pieces, the same is said, and the same session
///   is left.
/// * The acts of one piece and then of another are acts of both at once, even if allocations, the
///   disk or sends fail.
/// * Acts without such failures do what the plain function does.
/// * Whatever becomes of the archive, no reply changes a maildrop, unless it closes the session.
/// * All commands but RETR and TOP speak of the maildrop alone.
/// * RETR and TOP say that a message of the maildrop is gone exactly where its number isn't live.
pub fn door_laws()
    ensures { PopLaws }
{}
