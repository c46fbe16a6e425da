//! Posts the words of a new row, and adds it to the threads.
//! Allocates.
ghost use Rattle.std.specs.Prelude.{◌≡◌, ◌⊎◌, None, true, false, OnOk, OnErr};
ghost use Rattle.std.specs.BTreeMap.{insert_entry};
ghost use Rattle.std.specs.Ordering.{nat_cmp};
ghost use Rattle.thread_index.specs.Index.{IsNew};
ghost use Rattle.view_set.specs.Threads.{ThreadsBecome};
ghost use Rattle.word_index.specs.Rows.{row_at};

use crate::counted::add_thread;
use arch_base::{NoMemory, Texts};
use text_words::WordLists;
use thread_index::ThreadIndex;
use word_index::WordIndex;

/// Posts the words of a row of a new number, with the day of its date, and adds its keys to threads,
/// unless these aren't whole.
///
/// `NoMemory` leaves the words as they were, and threads that are as they were or aren't whole.
pub(crate) fn post(
    index: &mut WordIndex,
    threads: &mut ThreadIndex,
    n: u32,
    words: &WordLists,
    day: u64,
    keys: &Texts,
) -> Result<(), NoMemory>
    requires words { row_at index.old n ≡ None }
    requires threads { threads.old.whole ≡ true → IsNew threads.old.rows n }
    ensures ok { OnOk result (index.new ≡ insert_entry nat_cmp index.old n
        (record { words = words.now; day = day })) }
    ensures err { OnErr result (index.new ≡ index.old) }
    ensures threaded { OnOk result (ThreadsBecome threads.old threads.new
        (insert_entry nat_cmp threads.old.rows n keys.now)) }
    ensures broken { OnErr result ((threads.new ≡ threads.old) ⊎ (threads.new.whole ≡ false)) }
{
    index.add(n, words, day)?;
    if let Err(refused) = add_thread(threads, n, keys) {
        index.take(n);
        return Err(refused);
    }
    Ok(())
}
