//! The rows, threads and words of live messages, as commands change them.
//! Allocates.
ghost use Rattle.std.specs.Prelude.{◌≡◌, true, is_ok, OnOk, OnErr};
ghost use Rattle.arch_base.specs.declared.ids.Form.{Form};
ghost use Rattle.git_objects.specs.Objects.{blob_id_of};
ghost use Rattle.mail_reader.specs.Content.{content_id_of};
ghost use Rattle.mail_reader.specs.StorageTexts.{IsStorageText};
ghost use Rattle.arch_model.specs.Rows.{row_of};
ghost use Rattle.mime_parts.specs.Words.{mail_words};
ghost use Rattle.view_set.specs.Viewed.{with_mail};
ghost use Rattle.archive_core.specs.Commands.{OnRefusal, TellsText, is_delivery, IfDelivery, IfRemoval};
ghost use Rattle.archive_core.specs.Walks.{ViewsAfter, without_gone};

use crate::texts::KeptText;
use arch_base::{NoMemory, ObjectId};
use arch_model::{Answer, Command};
use mail_commits::TextIds;
use std::alloc::Global;
use view_set::{Views, add_row};

/// Brings views up to a command that was answered so: a delivery that kept a text adds its row and its
/// words, a removal takes those of its number, a purge those of the number that is gone, and an edit does
/// both. Only the threads that the rows touch are changed.
///
/// `NoMemory` if memory runs out for a row, its words or the threads. It comes only after a command that was
/// accepted, and after a removal and a purge rows and words are brought up all the same.
pub(crate) fn follow(
    alloc: Global,
    views: &mut Views,
    command: &Command<'_>,
    answer: &Answer,
    gone: Option<u32>,
    kept: &KeptText,
    moment: u64,
) -> Result<(), NoMemory>
    requires text { (form : Form)
        × IfDelivery (is_delivery command.now) (TellsText form answer.now kept.now) }
    // The rows have ids of the form of which the answer tells the blob id.
    ensures rows { (form : Form)
        → IfDelivery (is_delivery command.now) (TellsText form answer.now kept.now) → OnOk result
        (ViewsAfter form command.now gone answer.now kept.now.text moment views.old views.new) }
    ensures removed { (form : Form) → IfRemoval (is_delivery command.now)
        (ViewsAfter form command.now gone answer.now kept.now.text moment views.old views.new) }
    ensures refused { OnRefusal answer.now (is_ok result ≡ true) }
{
    match answer {
        Answer::Ok { number, id } => match command {
            Command::Deliver(_) => add_kept(alloc, views, *number, id, kept, moment),
            Command::Remove(number) => {
                views.take(*number)?;
                Ok(())
            }
            Command::Purge(_) => take_gone(views, gone),
            Command::Edit(_, _) => {
                take_gone(views, gone)?;
                add_kept(alloc, views, *number, id, kept, moment)
            }
        },
        _refused => Ok(()),
    }
}

/// Adds the row and the words of a text that was kept, by its number, its blob id and the moment of its
/// arrival.
///
/// `NoMemory` leaves rows and words unchanged.
fn add_kept(
    alloc: Global,
    views: &mut Views,
    number: u32,
    blob: &ObjectId,
    kept: &KeptText,
    moment: u64,
) -> Result<(), NoMemory>
    requires text { IsStorageText kept.now.text }
    requires content { kept.now.content ≡ content_id_of kept.now.text }
    ensures ok { (form : Form) → blob.now ≡ blob_id_of form kept.now.text
        → OnOk result (views.new ≡ with_mail views.old
        (row_of form number kept.now.text moment) (mail_words kept.now.text)) }
    ensures err { OnErr result (views.new ≡ views.old) }
{
    let ids = TextIds {
        blob: *blob,
        content: kept.content,
    };
    add_row(alloc, views, number, &ids, kept.text.as_slice(), moment)
}

/// Takes the row and the words of a number that is gone, if there is one.
///
/// `NoMemory` if it ran out for the threads. The row is taken then, too.
fn take_gone(views: &mut Views, gone: Option<u32>) -> Result<(), NoMemory>
    ensures { views.new ≡ without_gone views.old gone }
{
    match gone {
        None => Ok(()),
        Some(number) => views.take(number),
    }
}
