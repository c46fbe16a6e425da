//! Decides what a delivery does, before anything is kept. Each kind of archive uses it.
//! Allocates.
ghost use Rattle.std.specs.Prelude.{◌≡◌, List, ℕ, Ok, IfOk, false, length};
ghost use Rattle.mail_reader.specs.Content.{content_id_of};
ghost use Rattle.mail_reader.specs.Stored.{stored as stored_of};
ghost use Rattle.mail_commits.specs.Ids.{text_ids_of};
ghost use Rattle.arch_model.specs.Archives.{Archive, live};
ghost use Rattle.arch_model.specs.Delivery.{delivered, delivered_kept, delivered_new};
ghost use Rattle.arch_model.specs.Candidates.{choice_of, made_choice};
ghost use Rattle.arch_judge.specs.Judging.{IsKnownBy, IsNewText, IsStored, Judges, JudgesOrCompares, MayTakeOrCompare, RefusesFormed, RefusesLast, TakesNewText, TakesThis, TakesSame, unless_same};
ghost use Rattle.arch_model.specs.declared.choice.Choice.TheVariants.{Take};
ghost use Rattle.arch_judge.specs.declared.judging.Judgement.TheVariants.{Final};
ghost use Rattle.arch_judge.specs.declared.judging.Verdict.TheVariants.{Refuse};

use crate::index::Index;
use crate::made::{made_id, with_id};
use arch_base::{Bytes, Config, Form, NoMemory, hex_of};
use arch_model::{Answer, Choice, Meeting, law_of_taken_texts};
use git_objects::{blob_id, object_id};
use mail_commits::TextIds;
use mail_reader::{StoredRefusal, content_id, stored};
use std::alloc::Global;

/// What the delivery of a message does.
#[derive(Debug, Drop)]
pub enum Verdict {
    /// Keeps this text under this number, and this is what it is known by. No live message has its
    /// own id, and no other text has its blob id.
    Take {
        text: Bytes,
        ids: TextIds,
        number: u32,
    },
    /// Keeps nothing, and gives this answer.
    Refuse(Answer),
}

/// What is known of a delivery before any text that is kept is read.
#[derive(Debug, Drop)]
pub enum Judgement {
    /// What it does.
    Final(Verdict),
    /// The message with this number, live or not, is the first with the blob id of this text. Whether
    /// it has the same text decides: see `compared`.
    Compare {
        text: Bytes,
        ids: TextIds,
        number: u32,
    },
}

/// Decides what the delivery of a message does, unless a text that is kept has to be compared.
///
/// The archive has these settings, and the index is its index. `next` is its next number. Refuses
/// with `NoMemory` if an allocation fails.
pub fn judge(alloc: Global, config: &Config, index: &Index, next: u32, bytes: &[u8]) -> Judgement
    // For each archive with these settings, messages and next number, the definition decides the
    // same.
    ensures judged { (a : Archive) → IsKnownBy config.now index.now next a
        → JudgesOrCompares a bytes.now result }
    // For any index: a text that is taken may be kept.
    ensures taken { MayTakeOrCompare config.now index.now next result }
    // For any index: a message with a form is refused for no want of one.
    ensures formed { (text : List ℕ) → config.now.mirror ≡ false → stored_of bytes.now ≡ Ok text
        → RefusesFormed result }
{
    if config.mirror {
        return refuse(Answer::IsMirror);
    }
    match stored(alloc, bytes) {
        Err(StoredRefusal::NoFields) => refuse(Answer::NoFields),
        Err(StoredRefusal::TooLarge(len)) => refuse(Answer::TooLarge(len)),
        Err(StoredRefusal::NoMemory) => refuse(Answer::NoMemory),
        Ok(text) => judge_text(alloc, config, index, next, text),
    }
}

/// Returns the judgement that refuses with an answer.
fn refuse(answer: Answer) -> Judgement
    ensures { result ≡ Final (Refuse answer) }
{
    Judgement::Final(Verdict::Refuse(answer))
}

/// Decides what the delivery of a storage text does.
fn judge_text(alloc: Global, config: &Config, index: &Index, next: u32, text: Bytes) -> Judgement
    requires writable { config.now.mirror ≡ false }
    requires stored { IsStored text }
    ensures judged { (a : Archive) (bytes : List ℕ) → IsKnownBy config.now index.now next a
        → stored_of bytes ≡ Ok text → JudgesOrCompares a bytes result }
    ensures taken { MayTakeOrCompare config.now index.now next result }
    ensures formed { RefusesFormed result }
{
    law_of_taken_texts();
    let content = content_id(text.as_slice());
    match index.meet_own(text.as_slice(), &content) {
        Meeting::Free => judge_new(config, index, next, text, content),
        Meeting::Same(number) => refuse(Answer::Duplicate(number)),
        Meeting::Other => judge_made(alloc, config, index, next, text.as_slice(), &content),
    }
}

/// Decides what the delivery of a storage text does, if its own id doesn't decide it.
fn judge_made(
    alloc: Global,
    config: &Config,
    index: &Index,
    next: u32,
    text: &[u8],
    content: &[u8; 32],
) -> Judgement
    requires writable { config.now.mirror ≡ false }
    requires stored { IsStored text.now }
    requires content { content.now ≡ content_id_of text.now }
    ensures judged { (a : Archive) (bytes : List ℕ) → IsKnownBy config.now index.now next a
        → stored_of bytes ≡ Ok text.now → choice_of a text.now
        ≡ made_choice (live a.entries) a.config.name text.now 0 (length (live a.entries))
        → JudgesOrCompares a bytes result }
    ensures taken { MayTakeOrCompare config.now index.now next result }
    ensures formed { RefusesFormed result }
{
    match choose_made(alloc, config, index, text, content) {
        Err(NoMemory) => refuse(Answer::NoMemory),
        Ok(Choice::Repeat(number)) => refuse(Answer::Duplicate(number)),
        Ok(Choice::Take(taken)) => {
            // It has one field more.
            let content = content_id(taken.as_slice());
            judge_new(config, index, next, taken, content)
        }
    }
}

/// Returns what the made ids of a text decide: the first that isn't that of a message with other
/// content.
fn choose_made(
    alloc: Global,
    config: &Config,
    index: &Index,
    text: &[u8],
    content: &[u8; 32],
) -> Result<Choice, NoMemory>
    requires stored { IsStored text.now }
    requires content { content.now ≡ content_id_of text.now }
    ensures choice { (a : Archive) → IsKnownBy config.now index.now a.next a → IfOk result
        (λ choice. choice ≡ made_choice (live a.entries) a.config.name text.now 0 (length (live a.entries))) }
    ensures new { IfOk result (TakesNewText index.now) }
{
    law_of_taken_texts();
    let name = config.name.as_slice();
    // Made ids have SHA-1 in each form.
    let hex = hex_of(&object_id(text, Form::Sha1));
    let digits = hex.as_slice();
    let last = index.len();
    for tried in 0..=last {
        let id = made_id(alloc, digits, tried as u64, name)?;
        match index.meet(id.as_slice(), content) {
            Meeting::Free => return with_id(id.as_slice(), text, alloc),
            Meeting::Same(number) => return Ok(Choice::Repeat(number)),
            Meeting::Other => {}
        }
    }
    // Of one made id more than there are live messages, one is free.
    unreachable!()
}

/// Decides what the delivery of a text with this content id does, if no live message has its own id.
fn judge_new(config: &Config, index: &Index, next: u32, text: Bytes, content: [u8; 32]) -> Judgement
    requires writable { config.now.mirror ≡ false }
    requires new { IsNewText index.now text }
    requires content { content ≡ content_id_of text }
    ensures judged { (a : Archive) (bytes source : List ℕ) → IsKnownBy config.now index.now next a
        → stored_of bytes ≡ Ok source → choice_of a source ≡ Take text
        → JudgesOrCompares a bytes result }
    ensures taken { MayTakeOrCompare config.now index.now next result }
    ensures formed { RefusesFormed result }
{
    let ids = TextIds {
        blob: blob_id(text.as_slice(), config.form),
        content,
    };
    match index.number(&ids.blob) {
        Some(number) => Judgement::Compare { text, ids, number },
        None => Judgement::Final(judge_room(config, next, text, ids)),
    }
}

/// Decides what the delivery of a text does, if only want of numbers can refuse it.
fn judge_room(config: &Config, next: u32, text: Bytes, ids: TextIds) -> Verdict
    requires ids { ids ≡ text_ids_of config.now.form text }
    ensures judged { (a : Archive) (bytes : List ℕ) → a.config ≡ config.now → a.next ≡ next
        → ((moment : ℕ) → delivered a bytes moment ≡ delivered_new a text moment)
        → Judges a bytes result }
    ensures taken { TakesThis config.now next text ids result }
    // It refuses only if no number is left, or if another text has the blob id.
    ensures last { RefusesLast result }
{
    if next > config.max {
        return Verdict::Refuse(Answer::Full(config.max));
    }
    Verdict::Take {
        text,
        ids,
        number: next,
    }
}

/// Decides what the delivery of a text does after it was compared with a text that was kept, that of
/// the first message with its blob id.
pub fn compared(
    config: &Config,
    next: u32,
    text: Bytes,
    ids: TextIds,
    number: u32,
    kept: &[u8],
) -> Verdict
    requires ids { ids ≡ text_ids_of config.now.form text }
    // The number of the text that was kept is the one of a collision.
    ensures judged { (a : Archive) (bytes : List ℕ) → a.config ≡ config.now → a.next ≡ next
        → ((moment : ℕ) → delivered a bytes moment
        ≡ delivered_kept a text moment (unless_same text kept.now number))
        → Judges a bytes result }
    // A text that is taken is the one that was compared.
    ensures taken { TakesThis config.now next text ids result }
    // It refuses only if no number is left, or if another text has the blob id.
    ensures last { RefusesLast result }
    // Another text is never taken.
    ensures same { TakesSame text kept.now result }
{
    if text.as_slice() != kept {
        return Verdict::Refuse(Answer::Collision(number));
    }
    judge_room(config, next, text, ids)
}
