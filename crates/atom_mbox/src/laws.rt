//! A law of feeds. The function does nothing: its contract is the law.
//! Pure.
ghost use Rattle.atom_mbox.specs.Laws.{FeedHasItsTags};

/// Shows that a feed has its own tags, and those of an entry for each of its mails, whatever the mails
/// have.
pub fn feed_has_its_tags()
    ensures { FeedHasItsTags }
{}
