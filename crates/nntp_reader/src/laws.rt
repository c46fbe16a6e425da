//! The laws of the door of readers, which hold for every archive and all bytes.
//! Pure.
ghost use Rattle.nntp_reader.specs.Laws.{ReaderLaws};

/// Shows that the replies to a reader do not depend on how the bytes are cut.
///
/// * However the bytes of a connection are cut into pieces, the same is said, and the same session
///   is left.
/// * The acts of one piece and then of another are acts of both at once, even if allocations, the
///   disk or sends fail.
/// * Acts without such failures do what the plain function does.
pub fn cut_laws()
    ensures { ReaderLaws }
{}
