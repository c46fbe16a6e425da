//! Laws of threads and searches of rows. The functions do nothing: their contracts are the laws.
//! Pure.
ghost use Rattle.view_set.specs.Laws.{ThreadsAreTheArchives, SearchIsTheArchives, SearchFiltersTheListing};

/// Shows that the threads of the rows of an archive's messages are the threads of the messages, as an
/// archive defines them.
pub fn threads_are_the_archives()
    ensures { ThreadsAreTheArchives }
{}

/// Shows that a search among the rows and words of an archive's live messages is the search among the
/// messages, as an archive defines it.
pub fn search_is_the_archives()
    ensures { SearchIsTheArchives }
{}

/// Shows that a search among an archive's live messages is the listing without the messages that don't
/// match.
pub fn search_filters_the_listing()
    ensures { SearchFiltersTheListing }
{}
