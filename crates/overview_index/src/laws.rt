//! Laws of the listing. The functions do nothing: their contracts are the laws.
//! Pure.
ghost use Rattle.overview_index.specs.Laws.{SpotsAreInOrder, ListingIsTheArchives};

/// Shows that where rows stand, as the listing has it, rises by date and number, and is where just
/// these rows stand.
pub fn spots_are_in_order()
    ensures { SpotsAreInOrder }
{}

/// Shows that the listing of the rows of an archive's messages is the listing of the messages, as an
/// archive defines it.
pub fn listing_is_the_archives()
    ensures { ListingIsTheArchives }
{}
