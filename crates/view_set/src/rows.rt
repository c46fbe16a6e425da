//! The rows and words of texts.
//! Allocates.
ghost use Rattle.std.specs.Prelude.{◌≡◌, OnOk, OnErr};
ghost use Rattle.arch_base.specs.declared.ids.Form.{Form};
ghost use Rattle.mail_commits.specs.Ids.{text_ids_of};
ghost use Rattle.mail_reader.specs.StorageTexts.{IsStorageText};
ghost use Rattle.arch_model.specs.Rows.{row_of as row_fact};
ghost use Rattle.mime_parts.specs.Words.{mail_words};
ghost use Rattle.view_set.specs.Viewed.{with_mail};

use crate::views::Views;
use arch_base::NoMemory;
use mail_commits::TextIds;
use mail_reader::is_stored;
use mail_rows::row_of;
use mime_parts::words;
use std::alloc::Global;

/// Adds the row and the words of a message, by its number, the ids of its text, its text and the moment
/// of its arrival.
///
/// `NoMemory` if an allocation fails, or if a row has the number or the own id, which no two live
/// messages of an archive have. It leaves rows and words unchanged.
pub fn add_row(
    alloc: Global,
    views: &mut Views,
    number: u32,
    ids: &TextIds,
    text: &[u8],
    moment: u64,
) -> Result<(), NoMemory>
    requires text { IsStorageText text.now }
    ensures ok { (form : Form) → ids.now ≡ text_ids_of form text.now → OnOk result (views.new
        ≡ with_mail views.old (row_fact form number text.now moment) (mail_words text.now)) }
    ensures err { OnErr result (views.new ≡ views.old) }
{
    let row = row_of(alloc, number, ids, text, moment)?;
    let words = words(alloc, text)?;
    if views.get(row.number).is_some() || views.by_id(row.id.as_slice()).is_some() {
        return Err(NoMemory);
    }
    views.add(row, words)
}

/// Adds the row and the words of a message, as `add_row` does, if its text is a storage text, which
/// the text of an archive's message is.
///
/// `NoMemory` if it is none, and wherever `add_row` gives it. It leaves rows and words unchanged.
pub fn add_if_stored(
    alloc: Global,
    views: &mut Views,
    number: u32,
    ids: &TextIds,
    text: &[u8],
    moment: u64,
) -> Result<(), NoMemory>
    ensures ok { (form : Form) → ids.now ≡ text_ids_of form text.now → OnOk result (views.new
        ≡ with_mail views.old (row_fact form number text.now moment) (mail_words text.now)) }
    ensures err { OnErr result (views.new ≡ views.old) }
{
    if !is_stored(text) {
        return Err(NoMemory);
    }
    add_row(alloc, views, number, ids, text, moment)
}
