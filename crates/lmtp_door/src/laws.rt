//! The laws of the door, which hold for every archive and all bytes.
//! Pure.
ghost use Rattle.lmtp_door.specs.Laws.{LmtpLaws};

/// Shows that the replies to a mail system do not depend on how the bytes are cut, and that what was
/// acknowledged is kept.
///
/// * However the bytes of a connection are cut into pieces, the same is said, and the same archive and
///   session are left.
/// * The acts of one piece and then of another are acts of both at once, even if allocations, the disk
///   or sends fail.
/// * Acts without such failures do what the plain function does.
/// * What is kept of a session between two pieces goes on as the session would.
/// * A recipient is answered `250` only by a delivery that was answered so, after which nothing is in
///   doubt.
pub fn door_laws()
    ensures { LmtpLaws }
{}
