//! Answers and refusals.
use arch_model::{Answer, OpenRefusal};
use disk_model::{FileKind, FileName};

/// Returns whether a command was carried out.
pub fn is_ok(answer: Answer) -> bool {
    matches!(answer, Answer::Ok { .. })
}

/// Returns the refusal of an archive with a damaged file of a kind.
pub fn damage(kind: FileKind, number: u32, at: u64) -> OpenRefusal {
    OpenRefusal::Damaged {
        file: FileName {
            kind,
            number,
            generation: 5,
        },
        at,
    }
}
