//! What a mirror asks for: the list of all entries, and the texts of blobs.
//! Reads the disk.
ghost use Rattle.std.specs.Prelude.{◌≡◌, true};
ghost use Rattle.arch_model.specs.OverShelf.{ShelfKept};
ghost use Rattle.arch_model.specs.Archives.{Archive};
ghost use Rattle.arch_model.specs.Shelves.{ReadCause, ReadsOnce, blob_text};
ghost use Rattle.http_front.specs.Views.{blob_named};
ghost use Rattle.http_front.specs.Asking.{entries_found, blob_found};
ghost use Rattle.http_front.specs.Sessions.{FindsIn, MakesPage};

use crate::found::FoundBody;
use arch_base::{Bytes, NoMemory, ObjectId, id_of_hex};
use arch_model::{Shelf, TextRefusal};
use http_heads::Body;
use mirror_wire::write;
use std::alloc::Global;

/// Returns the list of all entries. Reads no text.
pub(crate) fn entries_at<S: Shelf>(alloc: Global, shelf: &S) -> Result<FoundBody, NoMemory>
    requires { S.ready shelf.now ≡ true }
    ensures { (a : Archive) → S.holds shelf.now a → MakesPage (entries_found a) result }
{
    let list = write(alloc, shelf)?;
    Ok(FoundBody::Whole(Body::Entries, list))
}

/// Returns the text of the entries whose blob has an id with these digits, if there are any. Reads at
/// most one text.
pub(crate) fn blob_at<S: Shelf>(
    alloc: Global,
    digits: &[u8],
    shelf: &mut S,
) -> Result<FoundBody, TextRefusal>
    requires { S.ready shelf.old ≡ true }
    ensures found { FindsIn S.holds
        (λ a. blob_found (blob_named a.config.form a.entries digits.now)) (λ a. true)
        shelf.old result }
    ensures shelf { ShelfKept S.Shelf shelf.old shelf.new }
    ensures cause { ReadCause (S.faults shelf.old) (S.faults shelf.new) result }
    ensures reads { ReadsOnce (S.reads shelf.old) (S.reads shelf.new) }
{
    match id_of_hex(digits, shelf.config().form) {
        Some(id) => text_of_blob(alloc, &id, shelf),
        None => Ok(FoundBody::Nothing),
    }
}

/// Returns the text of the entries with a blob id, if there are any. Reads at most one text.
fn text_of_blob<S: Shelf>(
    alloc: Global,
    id: &ObjectId,
    shelf: &mut S,
) -> Result<FoundBody, TextRefusal>
    requires { S.ready shelf.old ≡ true }
    ensures found { FindsIn S.holds
        (λ a. blob_found (blob_text a.config.form a.entries id.now)) (λ a. true)
        shelf.old result }
    ensures shelf { ShelfKept S.Shelf shelf.old shelf.new }
    ensures cause { ReadCause (S.faults shelf.old) (S.faults shelf.new) result }
    ensures reads { ReadsOnce (S.reads shelf.old) (S.reads shelf.new) }
{
    let mut text = Bytes::new(alloc);
    match shelf.blob(id, &mut text) {
        Ok(true) => Ok(FoundBody::Whole(Body::Blob, text)),
        Ok(false) => Ok(FoundBody::Nothing),
        Err(refusal) => Err(refusal),
    }
}
