//! A keeper of an archive of which one kind of call fails.
ghost use Rattle.std.specs.Prelude.{◌≡◌, ◌≤◌, true, false, not, refl};
ghost use Rattle.arch_base.specs.Counts.{Rose};
ghost use Rattle.arch_model.specs.Keeping.{StaysReady, AnswerCause};
ghost use Rattle.arch_model.specs.Shelves.{ReadingWhy};
ghost use Rattle.arch_model.specs.Untold.{FindsUntold, HoldsNone, LeavesUntold, TakesUntold, untold-read};
ghost use Rattle.arch_base.specs.Moments.{last_moment};

use arch_base::{Bytes, Config, MessageNumbers, NoMemory, ObjectId};
use arch_model::{Answer, Command, EntryLine, Keep, OpenRefusal, Query, Row, Shelf, TextRefusal};
use disk_model::{FileKind, FileName};
use mem_archive::MemArchive;

/// Why a text or an epoch isn't read.
#[derive(Clone, Copy, Debug, PartialEq, Eq, Drop)]
pub enum Unread {
    /// The disk fails.
    Fault,
    /// Memory runs out.
    NoMemory,
    /// Another text stands in its place.
    Damage,
}

/// The call of a keeper that fails.
#[derive(Clone, Copy, Debug, PartialEq, Eq, Drop)]
pub enum Failing {
    /// A command, which is carried out or not, as the flag says.
    Command(bool),
    /// A command, which isn't carried out, and the reopening after it; and a rebuilding.
    Opening,
    /// A command, which isn't carried out, and the reopening after it, which runs out of memory; and
    /// so does a rebuilding.
    OpeningWithoutMemory,
    /// A command, which isn't carried out, and the reopening after it, which finds no archive; and so
    /// does a rebuilding.
    OpeningWithoutArchive,
    /// A command, which finds a damaged epoch, and the reopening after it, which finds it, too; and so
    /// does a rebuilding.
    OpeningOfDamage,
    /// A read of the text of this number or a later one, or of a text by its id.
    Text(Unread, u32),
    /// A read of an epoch.
    Epoch(Unread),
}

/// The id of each text that is damaged: df7a16e6b23ee491f39d84e89298f10b0d4ae4e0.
const NAMED: ObjectId = ObjectId::Sha1([
    0xdf, 0x7a, 0x16, 0xe6, 0xb2, 0x3e, 0xe4, 0x91, 0xf3, 0x9d, 0x84, 0xe8, 0x92, 0x98, 0xf1, 0x0b,
    0x0d, 0x4a, 0xe4, 0xe0,
]);

/// The id of what is found in its place: 1d023c572ccd6f3cc82ae855343346b043adaba5.
const FOUND: ObjectId = ObjectId::Sha1([
    0x1d, 0x02, 0x3c, 0x57, 0x2c, 0xcd, 0x6f, 0x3c, 0xc8, 0x2a, 0xe8, 0x55, 0x34, 0x33, 0x46, 0xb0,
    0x43, 0xad, 0xab, 0xa5,
]);

/// The file that is damaged.
const EPOCH: FileName = FileName {
    kind: FileKind::Epoch,
    number: 2,
    generation: 1,
};

/// An archive in memory of which one kind of call always fails. It tells nothing of what it holds.
#[derive(Drop)]
pub struct FailingKeep {
    archive: MemArchive,
    failing: Failing,
    /// Whether it has to be reopened.
    pub stale: bool,
    /// How many calls of its disk failed.
    pub faults: u64,
}

impl FailingKeep {
    /// Keeps an archive, and fails at this call. It isn't stale.
    pub fn new(archive: MemArchive, failing: Failing) -> Self
        ensures { result.stale ≡ false }
    {
        FailingKeep {
            archive,
            failing,
            stale: false,
            faults: 0,
        }
    }

    /// Counts a fault.
    fn fail(&mut self)
        ensures stale { self.new.stale ≡ self.old.stale }
        ensures later { self.old.faults ≤ self.new.faults }
        ensures rose { Rose self.old.faults self.new.faults }
    {
        self.faults = self.faults.saturating_add(1);
    }

    /// Returns why a text or an epoch isn't read, and counts the fault if the disk fails.
    fn refuse(&mut self, why: Unread) -> TextRefusal
        ensures stale { self.new.stale ≡ self.old.stale }
        ensures later { self.old.faults ≤ self.new.faults }
        ensures why { ReadingWhy self.old.faults self.new.faults result }
    {
        match why {
            Unread::Fault => {
                self.fail();
                TextRefusal::DiskFault
            }
            Unread::NoMemory => TextRefusal::NoMemory,
            Unread::Damage => TextRefusal::Damaged {
                named: NAMED,
                found: FOUND,
            },
        }
    }

    /// Carries out a command, or fails, as the keeper's kind says.
    fn take(&mut self, command: &Command<'_>, moment: u64) -> Answer
        requires ready { self.old.stale ≡ false }
        requires moment { moment ≤ last_moment }
        ensures ready { StaysReady true result (not self.new.stale) }
        ensures later { self.old.faults ≤ self.new.faults }
        ensures cause { AnswerCause self.old.faults self.new.faults result }
    {
        match self.failing {
            Failing::Text(..) | Failing::Epoch(_) => {
                Keep::command(&mut self.archive, command, moment)
            }
            Failing::Command(true) => {
                let _ = Keep::command(&mut self.archive, command, moment);
                self.stale = true;
                self.fail();
                Answer::DiskFault
            }
            Failing::OpeningOfDamage => {
                self.stale = true;
                Answer::Damaged { file: EPOCH, at: 5 }
            }
            Failing::Command(false)
            | Failing::Opening
            | Failing::OpeningWithoutMemory
            | Failing::OpeningWithoutArchive => {
                self.stale = true;
                self.fail();
                Answer::DiskFault
            }
        }
    }
}

impl Shelf for FailingKeep {
    ghost holds = { HoldsNone };

    ghost ready = { λ k. not k.stale };

    ghost reads = { λ k. 0 };

    ghost faults = { λ k. k.faults };

    ghost alike = { λ k m. m.stale ≡ k.stale };

    fn config(&self) -> &Config {
        self.archive.config()
    }

    fn next_number(&self) -> u32 {
        self.archive.next_number()
    }

    fn row(&self, n: u32) -> Option<&Row> {
        self.archive.row(n)
    }

    fn by_id(&self, id: &[u8]) -> Option<u32> {
        self.archive.by_id(id)
    }

    fn live_from(&self, n: u32) -> Option<u32> {
        self.archive.live_from(n)
    }

    fn live_to(&self, n: u32) -> Option<u32> {
        self.archive.live_to(n)
    }

    fn live_count(&self, low: u32, high: u32) -> u64 {
        self.archive.live_count(low, high)
    }

    fn order_page(&self, skip: u64, count: u64) -> Result<MessageNumbers, NoMemory> {
        self.archive.order_page(skip, count)
    }

    fn thread_of(&self, n: u32) -> Result<MessageNumbers, NoMemory> {
        self.archive.thread_of(n)
    }

    fn search(&self, query: &Query) -> Result<MessageNumbers, NoMemory> {
        self.archive.search(query)
    }

    fn search_page(
        &self,
        query: &Query,
        skip: u64,
        count: u64,
    ) -> Result<MessageNumbers, NoMemory> {
        self.archive.search_page(query, skip, count)
    }

    fn entry(&self, index: u64) -> Option<EntryLine> {
        self.archive.entry(index)
    }

    fn text(&mut self, n: u32, into: &mut Bytes) -> Result<(), TextRefusal> {
        if let Failing::Text(why, from) = self.failing
            && n >= from
        {
            return Err(self.refuse(why));
        }
        match self.archive.text(n) {
            None => Ok(()),
            Some(text) => {
                into.push_slice(text)?;
                Ok(())
            }
        }
    }

    fn blob(&mut self, id: &ObjectId, into: &mut Bytes) -> Result<bool, TextRefusal> {
        if let Failing::Text(why, _) = self.failing {
            return Err(self.refuse(why));
        }
        self.archive.blob(id, into)
    }

    ghost alike_same = { λ k. refl };

    ghost use Rattle.std.proofs.Common.{◌∙◌};

    ghost alike_joined = { λ k m n p q. q ∙ p };
}

impl Keep for FailingKeep {
    ghost files_are = { HoldsNone };

    ghost leaves = { LeavesUntold };

    ghost finds = { FindsUntold };

    ghost takes = { TakesUntold };

    fn is_stale(&self) -> bool {
        self.stale
    }

    fn fresh(&mut self) -> Result<(), OpenRefusal> {
        if !self.stale {
            return Ok(());
        }
        match self.failing {
            Failing::Opening => {
                self.fail();
                Err(OpenRefusal::DiskFault)
            }
            Failing::OpeningWithoutMemory => Err(OpenRefusal::NoMemory),
            Failing::OpeningWithoutArchive => Err(OpenRefusal::NoArchive),
            Failing::OpeningOfDamage => Err(OpenRefusal::Damaged { file: EPOCH, at: 5 }),
            _ => {
                self.stale = false;
                Ok(())
            }
        }
    }

    fn reindex(&mut self) -> Result<u32, OpenRefusal> {
        match self.failing {
            Failing::Opening => {
                self.stale = true;
                self.fail();
                Err(OpenRefusal::DiskFault)
            }
            Failing::OpeningWithoutMemory => {
                self.stale = true;
                Err(OpenRefusal::NoMemory)
            }
            Failing::OpeningWithoutArchive => {
                self.stale = true;
                Err(OpenRefusal::NoArchive)
            }
            Failing::OpeningOfDamage => {
                self.stale = true;
                Err(OpenRefusal::Damaged { file: EPOCH, at: 5 })
            }
            _ => {
                self.stale = false;
                self.archive.reindex()
            }
        }
    }

    fn command(&mut self, command: &Command<'_>, moment: u64) -> Answer {
        match self.fresh() {
            Ok(()) => self.take(command, moment),
            Err(refusal) => refusal.answer(),
        }
    }

    fn epoch_bytes(&mut self, epoch: u32, into: &mut Bytes) -> Result<bool, TextRefusal> {
        if let Failing::Epoch(why) = self.failing {
            return Err(self.refuse(why));
        }
        match self.archive.push_epoch(epoch, into) {
            Ok(found) => Ok(found),
            Err(NoMemory) => Err(TextRefusal::NoMemory),
        }
    }

    ghost holds_files_are = { λ k a no. no };

    ghost holds_left = { λ k a may no has. no };

    ghost leaves_now = { λ start k may no. no };

    ghost use Rattle.std.proofs.Common.{ap};

    ghost alike_kept = { λ k m same. untold-read _ _ _ _ k m (ap not same) };
}
