//! Laws of the parts of a command, and of every door whose requests are such parts.
//! Pure.
ghost use Rattle.imap_framer.specs.Doors.{FramedLaw};
ghost use Rattle.imap_framer.specs.FrontLaws.{PartLaw};

/// Shows what the part at the front of some octets is, in terms of the octets alone.
///
/// A line announces just what is spelled at its end, and a part that has ended stays what it is when
/// more octets follow.
pub fn front_law()
    ensures { PartLaw }
{}

/// Shows that the answers of a door whose requests are parts don't depend on how its octets are cut
/// into pieces, whatever it answers.
///
/// Stated where states and archives are numbers. The same proof holds for all others.
pub fn framed_law()
    ensures { FramedLaw }
{}
