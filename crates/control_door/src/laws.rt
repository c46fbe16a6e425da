//! The laws of the control door, which hold for every archive and all bytes.
//! Pure.
ghost use Rattle.control_door.specs.Laws.{ControlLaws};

/// Shows that the answers of the control door do not depend on how its bytes are cut.
///
/// * However the bytes of a connection are cut into pieces, the same is said, and the same archive
///   and session are left.
/// * The acts of one piece and then of another are acts of both at once, even if allocations, the
///   disk or sends fail.
/// * Acts without such failures do what the plain function does.
/// * Reopening changes nothing if nothing is in doubt. A reopening before a piece may be the one
///   before the first request of that piece.
pub fn cut_laws()
    ensures { ControlLaws }
{}
