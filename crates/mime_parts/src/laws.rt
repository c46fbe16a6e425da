//! Laws of the tree of parts, for every text. Each function does nothing: its contract is the law.
//! Pure.
ghost use Rattle.mime_parts.specs.Laws.{TreesAreTrees, BodiesAreDivided};

/// Shows that the parts of a text are a tree: each part's body has the parts below it, and parts
/// beside each other are apart, in order. Their order and their depths show which are below which.
/// Those directly below a part are what its body is divided into.
pub fn parts_are_a_tree()
    ensures { TreesAreTrees }
{}

/// Shows that the parts of a multipart, with their delimiter lines, what is before the first of
/// these, and a closing line with what is after it, are its body.
pub fn bodies_are_divided()
    ensures { BodiesAreDivided }
{}
