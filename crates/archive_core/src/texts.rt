//! A text that was kept, and its own id and blob id as an index has them.
//! Allocates.
ghost use Rattle.std.specs.Prelude.{◌≡◌, [], IsSome, Some, IfOk, OnOk, OnErr};
ghost use Rattle.mail_reader.specs.Content.{content_id_of};
ghost use Rattle.mail_reader.specs.Ids.{own_id as own_id_in};
ghost use Rattle.arch_judge.specs.Indexes.{HasSame};
ghost use Rattle.archive_core.specs.Kept.{PutsText, TakesBackText, LosesText};

use arch_base::{Bytes, NoMemory, ObjectId};
use arch_judge::{Index, Owner};
use mail_commits::TextIds;
use mail_reader::own_id;
use std::alloc::Global;

/// A text that was kept, and its content id.
#[derive(Debug, Drop)]
pub struct KeptText {
    /// The text.
    pub text: Bytes,
    /// Its content id.
    pub content: [u8; 32],
}

impl KeptText {
    /// Returns a value for where no text was kept yet.
    pub fn none(alloc: Global) -> KeptText
        ensures { result.text ≡ [] }
    {
        KeptText {
            text: Bytes::new(alloc),
            content: [0; 32],
        }
    }
}

/// Adds a text with these ids to an index. An older entry with its blob id stays. An error leaves the
/// index unchanged.
pub(crate) fn put_text(
    alloc: Global,
    index: &mut Index,
    text: &[u8],
    ids: &TextIds,
    number: u32,
) -> Result<(), NoMemory>
    requires own { IsSome (own_id_in text.now) }
    requires content { ids.now.content ≡ content_id_of text.now }
    ensures ok { OnOk result (PutsText index.old index.new text.now ids.now.blob number) }
    ensures err { OnErr result (HasSame index.old index.new) }
{
    let id = own_id_of(alloc, text)?;
    let owner = Owner {
        number,
        content: ids.content,
    };
    index.insert(id, ids.blob, owner)
}

/// Takes a text back from an index, which was added last, with a new own id. `older` is the number
/// that its blob id had before.
pub(crate) fn take_text(
    index: &mut Index,
    text: &[u8],
    blob: &ObjectId,
    number: u32,
    older: Option<u32>,
)
    ensures { TakesBackText index.old index.new text.now blob.now number older }
{
    if let Some(id) = own_id(text) {
        match older {
            // It is still that of the older entry.
            Some(_) => index.remove(id),
            None => index.take_back(id, blob, number),
        }
    }
}

/// Removes the own id of a text from an index. Its blob id stays.
pub(crate) fn end_text(index: &mut Index, text: &[u8])
    ensures { LosesText index.old index.new text.now }
{
    if let Some(id) = own_id(text) {
        index.remove(id);
    }
}

/// Returns a copy of the own id of a text that has one.
fn own_id_of(alloc: Global, text: &[u8]) -> Result<Vec<u8>, NoMemory>
    requires { IsSome (own_id_in text.now) }
    ensures { IfOk result (λ id. own_id_in text.now ≡ Some id.items) }
{
    match own_id(text) {
        None => Ok(Vec::new(alloc)),
        Some(id) => Ok(Vec::from_slice(alloc, id)?),
    }
}
