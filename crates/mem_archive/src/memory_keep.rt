//! The archive in memory as a shelf and a keeper.
//! Allocates.
//!
//! It has no disk that fails, and a crash leaves it whole.
ghost use Rattle.std.specs.Prelude.{◌≡◌, true, Some, refl};
ghost use Rattle.std.specs.List.{Contains};
ghost use Rattle.arch_model.specs.Delivery.{Delivers, applied};
ghost use Rattle.mem_archive.specs.Crashes.{held-left, same-read};

use crate::memory::MemArchive;
use arch_base::{Bytes, Config, MessageNumbers, NoMemory, ObjectId};
use arch_model::{Answer, Command, EntryLine, Keep, OpenRefusal, Query, Row, Shelf, TextRefusal};

impl Shelf for MemArchive {
    ghost holds = { λ m a. a ≡ m };

    ghost ready = { λ m. true };

    ghost reads = { λ m. 0 };

    ghost faults = { λ m. 0 };

    ghost alike = { λ m n. n ≡ m };

    fn config(&self) -> &Config {
        self.settings()
    }

    fn next_number(&self) -> u32 {
        self.next()
    }

    fn row(&self, n: u32) -> Option<&Row> {
        self.row_at(n)
    }

    fn by_id(&self, id: &[u8]) -> Option<u32> {
        self.number_by_id(id)
    }

    fn live_from(&self, n: u32) -> Option<u32> {
        self.number_from(n)
    }

    fn live_to(&self, n: u32) -> Option<u32> {
        self.number_to(n)
    }

    fn live_count(&self, low: u32, high: u32) -> u64 {
        self.count_between(low, high)
    }

    fn order_page(&self, skip: u64, count: u64) -> Result<MessageNumbers, NoMemory> {
        self.page(skip, count)
    }

    fn thread_of(&self, n: u32) -> Result<MessageNumbers, NoMemory> {
        self.thread(n)
    }

    fn search(&self, query: &Query) -> Result<MessageNumbers, NoMemory> {
        self.matching(query)
    }

    fn search_page(
        &self,
        query: &Query,
        skip: u64,
        count: u64,
    ) -> Result<MessageNumbers, NoMemory> {
        self.matching_page(query, skip, count)
    }

    fn entry(&self, index: u64) -> Option<EntryLine> {
        self.line(index)
    }

    fn text(&mut self, n: u32, into: &mut Bytes) -> Result<(), TextRefusal> {
        match MemArchive::text(self, n) {
            None => Ok(()),
            Some(text) => {
                into.push_slice(text)?;
                Ok(())
            }
        }
    }

    fn blob(&mut self, id: &ObjectId, into: &mut Bytes) -> Result<bool, TextRefusal> {
        match self.text_of_blob(id) {
            None => Ok(false),
            Some(text) => {
                into.push_slice(text)?;
                Ok(true)
            }
        }
    }

    ghost alike_same = { λ m. refl };

    ghost use Rattle.std.proofs.Common.{◌∙◌};

    ghost alike_joined = { λ m n o p q. q ∙ p };
}

impl Keep for MemArchive {
    ghost files_are = { λ m a. a ≡ m };

    ghost leaves = { λ start m may. Contains may (Some m) };

    ghost finds = { λ m n a. (a ≡ m) × (n ≡ m) };

    ghost takes = { λ m n command moment reply. Delivers m reply n (applied m command moment) };

    fn is_stale(&self) -> bool {
        false
    }

    fn fresh(&mut self) -> Result<(), OpenRefusal> {
        Ok(())
    }

    // Nothing is kept beside the archive that could be read again.
    fn reindex(&mut self) -> Result<u32, OpenRefusal> {
        Ok(self.message_count())
    }

    fn command(&mut self, command: &Command<'_>, moment: u64) -> Answer {
        MemArchive::command(self, command, moment)
    }

    fn epoch_bytes(&mut self, epoch: u32, into: &mut Bytes) -> Result<bool, TextRefusal> {
        match self.push_epoch(epoch, into) {
            Ok(found) => Ok(found),
            Err(NoMemory) => Err(TextRefusal::NoMemory),
        }
    }

    ghost holds_files_are = { λ m a same. same };

    ghost holds_left = { λ m a may same has. held-left m a may same has };

    ghost leaves_now = { λ start m may left. left };

    ghost alike_kept = { λ m n same. same-read m n same };
}
