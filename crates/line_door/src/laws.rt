//! Laws of doors, stated at a small door, and the law of the line at the front.
//! Pure.
ghost use Rattle.line_door.specs.Clipped.{ClippedLaw};
ghost use Rattle.line_door.specs.Costs.{LinesCostLaw};
ghost use Rattle.line_door.specs.Echo.{EchoCut, EchoPieces, EchoCalls, EchoPlain, EchoLifts};
ghost use Rattle.line_door.specs.LineLaws.{LineLaw};
ghost use Rattle.line_door.specs.Skipping.{SkippingLaw};
ghost use Rattle.line_door.specs.Watched.{WatchLaws, WatchUpdates};

/// Shows that feeding one piece and then another has the same result as feeding both at once.
///
/// The law is stated at a door that answers each line by itself. The same proof holds for every
/// door whose requests stay the same when more bytes follow them.
pub fn cut_law()
    ensures { EchoCut }
{}

/// Shows that the acts of two pieces are acts of both at once.
///
/// The rest of the first piece was kept. Allocations, the disk and sends may fail anywhere. Stated
/// at the same door.
pub fn pieces_law()
    ensures { EchoPieces }
{}

/// Shows that the requests of a piece whose rest was kept are the first ones of that piece and the
/// next joined, whatever stands between the two.
///
/// Stated at the same door.
pub fn calls_law()
    ensures { EchoCalls }
{}

/// Shows that acts without a failed allocation, a fault or a lost send do what the plain function
/// of the piece does.
///
/// An act is such a one exactly where it goes by the rules and all its words are taken. Stated at
/// the same door.
pub fn plain_law()
    ensures { EchoPlain }
{}

/// Shows what a whole line, a part of a line and a line that is too long are, in terms of the bytes
/// alone, and how they change when more bytes follow.
pub fn line_law()
    ensures { LineLaw }
{}

/// Shows what a line is that has ended, at a front that skips lines that are too long.
///
/// In terms of the bytes alone: how it changes when more bytes follow, and that the first `limit`
/// bytes of a part of a line go on as all of them would.
pub fn skipping_law()
    ensures { SkippingLaw }
{}

/// Shows that bytes of which each line is cut to its first `limit` octets go on as all of them would.
///
/// Each line at their front is the same, whole, too long or a part; and it makes no difference
/// whether they are cut once or piece by piece.
pub fn clipped_law()
    ensures { ClippedLaw }
{}

/// Shows that the course of a session is one of a door that has the session among its own.
///
/// Stated at the same door, whose session is then that of one connection of many. The same proof
/// holds for every door.
pub fn lifting_law()
    ensures { EchoLifts }
{}

/// Shows that a line costs what it asks for, and then come the lines after it, and that a line that
/// is too long costs nothing.
pub fn line_cost_law()
    ensures { LinesCostLaw }
{}

/// Shows the laws of cuts and of plain courses for a door of lines, whatever its replies are.
///
/// Stated at a small door of lines. The same proof holds for every one.
pub fn reader_law()
    ensures { WatchLaws }
{}

/// Shows that the cuts of a connection's bytes change nothing where a session is given an update
/// after each piece.
///
/// Feeding one piece and then another, with the update of the session after each, says and leaves the
/// same as feeding both at once and one update. Stated at the same door. The same proof holds for
/// every door whose updates tell what the reply to the next request would tell first.
pub fn update_law()
    ensures { WatchUpdates }
{}
