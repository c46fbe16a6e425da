//! Laws of pages. Each function does nothing: its contract is the law.
//! Pure.
ghost use Rattle.html_pages.specs.Laws.{TextMakesNoTag, AddressMakesNoTag, ListingHasItsTags, SearchHasItsTags, MessageHasItsTags, ThreadHasItsTags};

/// Shows that no byte of a text in a page begins or ends a tag or the value of an attribute.
pub fn text_makes_no_tag()
    ensures { TextMakesNoTag }
{}

/// Shows that no byte of a message's address does.
pub fn address_makes_no_tag()
    ensures { AddressMakesNoTag }
{}

/// Shows that a listing has its own tags, and a link for each row that it shows and to older ones.
pub fn listing_has_its_tags()
    ensures { ListingHasItsTags }
{}

/// Shows that the page of a search does, whatever text is searched for.
pub fn search_has_its_tags()
    ensures { SearchHasItsTags }
{}

/// Shows that the page of a message has its own tags and two links, whatever the message has.
pub fn message_has_its_tags()
    ensures { MessageHasItsTags }
{}

/// Shows that the page of a thread has its own tags, and a link for each of its mails.
pub fn thread_has_its_tags()
    ensures { ThreadHasItsTags }
{}
