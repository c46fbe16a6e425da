//! The laws of the door of pages, which hold for every archive and all bytes.
//! Pure.
ghost use Rattle.http_front.specs.Asking.{IsHeadReading};
ghost use Rattle.http_front.specs.Laws.{HttpLaws};
ghost use Rattle.http_front.specs.Paging.{ListingIsWhole};
ghost use Rattle.http_front.specs.Reading.{asked_in};

/// Shows that the answers of the door of pages do not depend on how its bytes are cut.
///
/// * However the bytes of a connection are cut into pieces, the same is said, and the same session
///   is left.
/// * The acts of one piece and then of another are acts of both at once, even if allocations, the
///   disk or sends fail.
/// * Acts without such failures do what the plain function does.
/// * A head at the front ends with the first empty line, and has at most 16,384 bytes. More bytes
///   leave it what it is, and so they leave a head that is too long.
pub fn http_laws()
    ensures { HttpLaws }
{}

/// Shows that a page of the listing is the one that all rows after the skipped ones make, although
/// only as many are looked at as it needs.
pub fn listing_is_whole()
    ensures { ListingIsWhole }
{}

/// Shows that heads can be read: the function that divides bytes into lines and these into parts, and
/// takes them if they are valid and printed as the bytes, reads heads as the grammar does.
pub fn heads_are_read()
    ensures { IsHeadReading asked_in }
{}
