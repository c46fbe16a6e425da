//! The views of what is walked through.
//! Reads the disk.
ghost use Rattle.std.specs.Prelude.{◌≡◌, ◌+◌, ◌<◌, ◌≤◌, Some, take, length, slice_get, IfOk, IfErr, OnOk};
ghost use Rattle.arch_model.specs.Archives.{Archive, live};
ghost use Rattle.view_set.specs.Viewed.{views_of, no_mails};
ghost use Rattle.arch_model.specs.Shelves.{line_at, ReadCause, ReadsOnce, IsUndamaged};
ghost use Rattle.arch_model.specs.Walking.{WalksOn};
ghost use Rattle.view_set.specs.Walks.{AddsRowAt, IsDamagedTextAt, NamesBlob, WalkTellsDamage, WalkWhy, WalksUndamaged, StopsWithin, message_count, reads_of};

use crate::rows::add_if_stored;
use crate::views::Views;
use arch_base::{Bytes, NoMemory};
use arch_model::{EntryLine, TextRefusal, Walked};
use git_objects::EntryKind;
use mail_commits::TextIds;
use mail_reader::content_id;
use std::alloc::Global;

/// An entry whose text wasn't read, or for whose row, words or threads memory ran out.
#[derive(Drop)]
pub struct Unread {
    /// The index of the entry.
    pub index: u64,
    /// Why it wasn't read.
    pub why: TextRefusal,
}

/// Returns the views of the live messages of what is walked through: those that its deliveries and
/// removals would have made. Reads each message at most once, for its row and its words.
///
/// A refusal has the index of the entry at which the walk stopped. `DiskFault` if a read failed, and
/// the count of faults rose; `Damaged` if the text of that entry, a message, has another id than its
/// blob, which never happens while an archive is held; `NoMemory` if an allocation fails.
pub fn rebuild<W: Walked>(alloc: Global, walked: &mut W) -> Result<Views, Unread>
    ensures rows { (a : Archive) → W.holds walked.old a
        → IfOk result (λ views. views ≡ views_of a.config.form (live a.entries)) }
    ensures undamaged { (a : Archive) → W.holds walked.old a → WalksUndamaged result }
    ensures sound { W.sound walked.old → WalksUndamaged result }
    ensures within { StopsWithin (length (W.lines walked.old)) result }
    ensures damage { WalkTellsDamage (W.lines walked.old) result }
    ensures walk { WalksOn W.holds W.sound W.lines W.alike W.faults walked.old walked.new }
    ensures cause { WalkWhy (W.faults walked.old) (W.faults walked.new) result }
    ensures reads { W.reads walked.new ≤ W.reads walked.old + message_count (W.lines walked.old) }
{
    let mut views = Views::new(alloc);
    match fill(alloc, walked, &mut views) {
        Ok(()) => Ok(views),
        Err(unread) => Err(unread),
    }
}

/// Adds the live messages of what is walked through to no views.
fn fill<W: Walked>(alloc: Global, walked: &mut W, views: &mut Views) -> Result<(), Unread>
    requires none { views.old ≡ no_mails }
    ensures rows { (a : Archive) → W.holds walked.old a
        → OnOk result (views.new ≡ views_of a.config.form (live a.entries)) }
    ensures undamaged { (a : Archive) → W.holds walked.old a → WalksUndamaged result }
    ensures sound { W.sound walked.old → WalksUndamaged result }
    ensures within { StopsWithin (length (W.lines walked.old)) result }
    ensures damage { WalkTellsDamage (W.lines walked.old) result }
    ensures walk { WalksOn W.holds W.sound W.lines W.alike W.faults walked.old walked.new }
    ensures cause { WalkWhy (W.faults walked.old) (W.faults walked.new) result }
    ensures reads { W.reads walked.new ≤ W.reads walked.old + message_count (W.lines walked.old) }
{
    let mut index: u64 = 0;
    while let Some(line) = walked.entry(index) {
        if let Err(why) = take_line(alloc, walked, views, index, &line) {
            return Err(Unread { index, why });
        }
        // No list of entries is so long.
        let Some(next) = index.checked_add(1) else {
            return Err(Unread {
                index,
                why: TextRefusal::NoMemory,
            });
        };
        index = next;
    }
    Ok(())
}

/// Takes one more entry into views: adds the row and the words of a message, or takes those of the one
/// that it ends.
fn take_line<W: Walked>(
    alloc: Global,
    walked: &mut W,
    views: &mut Views,
    index: u64,
    line: &EntryLine,
) -> Result<(), TextRefusal>
    requires line { slice_get (W.lines walked.old) index ≡ Some line.now }
    requires there { index < length (W.lines walked.old) }
    requires archive { (a : Archive) → W.holds walked.old a
        → line_at a.config.form a.entries index ≡ Some line.now }
    ensures rows { (a : Archive) → W.holds walked.old a
        → views.old ≡ views_of a.config.form (live (take index a.entries))
        → OnOk result (views.new
        ≡ views_of a.config.form (live (take (index + 1) a.entries))) }
    ensures undamaged { (a : Archive) → W.holds walked.old a → IfErr result IsUndamaged }
    ensures sound { W.sound walked.old → IfErr result IsUndamaged }
    ensures damage { IfErr result (λ why. IsDamagedTextAt (W.lines walked.old) index why) }
    ensures walk { WalksOn W.holds W.sound W.lines W.alike W.faults walked.old walked.new }
    ensures cause { ReadCause (W.faults walked.old) (W.faults walked.new) result }
    ensures reads { W.reads walked.new ≤ W.reads walked.old + reads_of line.now.kind }
{
    match line.kind {
        EntryKind::Message => add_message(alloc, walked, views, index, line),
        EntryKind::Deletion => match views.take(line.number) {
            Ok(()) => Ok(()),
            Err(NoMemory) => Err(TextRefusal::NoMemory),
        },
    }
}

/// Reads the text of a message, and adds its row and its words to views.
fn add_message<W: Walked>(
    alloc: Global,
    walked: &mut W,
    views: &mut Views,
    index: u64,
    line: &EntryLine,
) -> Result<(), TextRefusal>
    requires line { slice_get (W.lines walked.old) index ≡ Some line.now }
    requires there { index < length (W.lines walked.old) }
    requires archive { (a : Archive) → W.holds walked.old a
        → line_at a.config.form a.entries index ≡ Some line.now }
    ensures row { (a : Archive) → W.holds walked.old a → OnOk result (AddsRowAt a.config.form
        a.entries index line.now.number line.now.secs views.old views.new) }
    ensures undamaged { (a : Archive) → W.holds walked.old a → IfErr result IsUndamaged }
    ensures sound { W.sound walked.old → IfErr result IsUndamaged }
    ensures damage { IfErr result (NamesBlob line.now.blob) }
    ensures walk { WalksOn W.holds W.sound W.lines W.alike W.faults walked.old walked.new }
    ensures cause { ReadCause (W.faults walked.old) (W.faults walked.new) result }
    ensures reads { ReadsOnce (W.reads walked.old) (W.reads walked.new) }
{
    let mut text = Bytes::new(alloc);
    if let Err(why) = walked.text(index, &mut text) {
        return Err(why);
    }
    let bytes = text.as_slice();
    // The line has its blob id.
    let ids = TextIds {
        blob: line.blob,
        content: content_id(bytes),
    };
    match add_if_stored(alloc, views, line.number, &ids, bytes, line.secs) {
        Ok(()) => Ok(()),
        Err(NoMemory) => Err(TextRefusal::NoMemory),
    }
}
