//! Checks the text of a line.
//! Pure.
ghost use Rattle.std.specs.Prelude.{◌≡◌, ◌≤◌, List, IsFalse, IsSome};
ghost use Rattle.arch_base.specs.declared.ids.Form.{Form};
ghost use Rattle.mail_reader.specs.Ids.{own_id as own_id_in};
ghost use Rattle.mail_reader.specs.StorageTexts.{max_text_len};
ghost use Rattle.arch_model.specs.Archives.{Entry};
ghost use Rattle.arch_judge.specs.Indexes.{IsArchiveIndex};
ghost use Rattle.fetch_course.specs.Courses.{misfits};

use arch_judge::Index;
use arch_model::EntryLine;
use git_objects::EntryKind;
use mail_reader::stored_id;

/// Returns whether a text is none for its line, after the entries that an index has.
///
/// It is none if its size isn't that of the line, if it isn't a storage text, or if the line is that of a
/// message and a live entry has its own id.
pub fn text_misfits(index: &Index, line: &EntryLine, text: &[u8]) -> bool
    requires { line.now.size ≤ max_text_len }
    ensures id { IsFalse result → IsSome (own_id_in text.now) }
    ensures value { (form : Form) (before : List Entry) → IsArchiveIndex form before index.now
        → result ≡ misfits before line.now text.now }
{
    if text.len() as u64 != line.size {
        return true;
    }
    match stored_id(text) {
        None => true,
        Some(id) => line.kind == EntryKind::Message && index.owner(id).is_some(),
    }
}
