//! The types of objects.
//! Pure.
ghost use Rattle.std.specs.Prelude.{MatchOption};
ghost use Rattle.git_objects.specs.Fronts.{Lacks, Begins};
ghost use Rattle.git_objects.specs.Objects.{AnyKind, kind_part};

use crate::fronts::after;

/// The type of an object.
#[derive(Clone, Copy, PartialEq, Eq, Drop)]
pub(crate) enum Kind {
    Blob,
    Tree,
    Commit,
}

/// Reads an object's type and the space after it, and returns the rest.
pub(crate) fn read_kind(bytes: &[u8]) -> Option<(Kind, &[u8])>
    ensures { MatchOption result (Lacks AnyKind kind_part bytes.now)
        (λ found. Begins AnyKind kind_part bytes.now found.0 found.1.now) }
{
    if let Some(rest) = after(b"blob ", bytes) {
        return Some((Kind::Blob, rest));
    }
    if let Some(rest) = after(b"tree ", bytes) {
        return Some((Kind::Tree, rest));
    }
    Some((Kind::Commit, after(b"commit ", bytes)?))
}
