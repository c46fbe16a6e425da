//! What a text is known by.
//! Pure.
ghost use Rattle.std.specs.Prelude.{◌≡◌};
ghost use Rattle.mail_commits.specs.Ids.{text_ids_of};

use arch_base::{Form, ObjectId};
use git_objects::blob_id;
use mail_reader::content_id;

/// What a text is known by: its blob id and its content id.
#[derive(Clone, Copy, Debug, Drop)]
pub struct TextIds {
    /// The id of the blob that is the text.
    pub blob: ObjectId,
    /// Its content id, which is the same for a message that was sent twice.
    pub content: [u8; 32],
}

/// Returns the ids of a text, its blob id in a form. Reads it twice: each id is a hash of its own.
pub fn text_ids(text: &[u8], form: Form) -> TextIds
    ensures { result ≡ text_ids_of form text.now }
{
    TextIds {
        blob: blob_id(text, form),
        content: content_id(text),
    }
}
