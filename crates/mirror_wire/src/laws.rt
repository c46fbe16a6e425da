//! The laws of lists.
//! Pure.
ghost use Rattle.mirror_wire.specs.Laws.{BadInOnePlace, ChangesShow, ListsAreReadBack, ListsAreValid, TextsTellLists};

/// Shows that a text is one list at most, and has one first bad line at most; and that the list of a
/// valid archive is valid and is read back.
///
/// With a line left out or doubled, or with two lines exchanged, the list is refused or read as
/// another one.
pub fn law_of_lists()
    ensures bad { BadInOnePlace }
    ensures told { TextsTellLists }
    ensures valid { ListsAreValid }
    ensures back { ListsAreReadBack }
    ensures changed { ChangesShow }
{}
