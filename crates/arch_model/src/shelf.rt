//! The trait of shelves: values that give the texts of one archive.
//! Reads the disk.
ghost use Rattle.std.specs.Prelude.{◌≡◌, ℕ, Bool, true, IfOk, OnErr, is_some, option_copied, take, drop};
ghost use Rattle.arch_model.specs.Archives.{Archive, live, text_of};
ghost use Rattle.arch_model.specs.Listings.{row_in, number_of_id, listing};
ghost use Rattle.arch_model.specs.Shelves.{IsGreatestLive, live_between, line_at, GivesBlobIn, AppendsTo, ShelfStays, ReadCause, ReadsOnce};
ghost use Rattle.arch_model.specs.Standing.{IsLeastLive, GivesTextIn, KeepsUnlessFound};
ghost use Rattle.arch_model.specs.Threading.{thread_in};
ghost use Rattle.arch_model.specs.Searching.{search};

use crate::line::EntryLine;
use crate::text_refusal::TextRefusal;
use arch_base::{Bytes, Config, MessageNumbers, NoMemory, ObjectId};
use mail_forms::Row;
use query_lang::Query;

/// A shelf: a value that gives the entries, the texts and the rows of one archive.
///
/// A shelf is ready, or has to be reopened by its owner first. Each call needs a ready shelf, and
/// leaves it ready and its archive unchanged. What a call gives is that of the archive, if the
/// archive is told.
pub trait Shelf {
    /// The shelf holds this archive, if that is told.
    ghost holds: { Self → Archive → Type 0 };

    /// The shelf is ready.
    ghost ready: { Self → Bool };

    /// The count of reads of the disk.
    ghost reads: { Self → ℕ };

    /// The count of faults of the disk.
    ghost faults: { Self → ℕ };

    /// A relation of two states that holds if reading may lead from one to the other. It says what
    /// reading leaves unchanged.
    ghost alike: { Self → Self → Type 0 };

    /// Returns the settings of the archive.
    fn config(&self) -> &Config
        requires ready { ready self.now ≡ true }
        ensures { (a : Archive) → holds self.now a → result.now ≡ a.config };

    /// Returns the number of the next message.
    fn next_number(&self) -> u32
        requires ready { ready self.now ≡ true }
        ensures { (a : Archive) → holds self.now a → result ≡ a.next };

    /// Returns the row of a live message, or `None` if the number is not live.
    fn row(&self, n: u32) -> Option<&Row>
        requires ready { ready self.now ≡ true }
        ensures { (a : Archive) → holds self.now a
            → option_copied result ≡ row_in a.config.form (live a.entries) n };

    /// Returns the number of the live message with an own id, or `None` if there is none.
    fn by_id(&self, id: &[u8]) -> Option<u32>
        requires ready { ready self.now ≡ true }
        ensures { (a : Archive) → holds self.now a
            → result ≡ number_of_id (live a.entries) id.now };

    /// Returns the least number of a live message that is at least this one, or `None` if there is none.
    fn live_from(&self, n: u32) -> Option<u32>
        requires ready { ready self.now ≡ true }
        ensures { (a : Archive) → holds self.now a → IsLeastLive (live a.entries) n result };

    /// Returns the greatest number of a live message that is at most this one, or `None` if there is none.
    fn live_to(&self, n: u32) -> Option<u32>
        requires ready { ready self.now ≡ true }
        ensures { (a : Archive) → holds self.now a → IsGreatestLive (live a.entries) n result };

    /// Returns how many live messages have a number from `low` to `high`.
    fn live_count(&self, low: u32, high: u32) -> u64
        requires ready { ready self.now ≡ true }
        ensures { (a : Archive) → holds self.now a → result ≡ live_between (live a.entries) low high };

    /// Returns the numbers of live messages, newest first: by the seconds of their dates, and then by
    /// number, both falling. These are so many after so many that are skipped, or as many as there
    /// are.
    ///
    /// `NoMemory` if an allocation fails.
    fn order_page(&self, skip: u64, count: u64) -> Result<MessageNumbers, NoMemory>
        requires ready { ready self.now ≡ true }
        ensures { (a : Archive) → holds self.now a
            → IfOk result (λ page. page ≡ take count (drop skip (listing (live a.entries)))) };

    /// Returns the numbers in the thread of a live message, rising, or none if the number is not live.
    ///
    /// `NoMemory` if an allocation fails.
    fn thread_of(&self, n: u32) -> Result<MessageNumbers, NoMemory>
        requires ready { ready self.now ≡ true }
        ensures { (a : Archive) → holds self.now a
            → IfOk result (λ numbers. numbers ≡ thread_in (live a.entries) n) };

    /// Returns the numbers of the live messages that match a query, newest first, in the order of
    /// `order_page`. Reads no text.
    ///
    /// `NoMemory` if an allocation fails.
    fn search(&self, query: &Query) -> Result<MessageNumbers, NoMemory>
        requires ready { ready self.now ≡ true }
        ensures { (a : Archive) → holds self.now a
            → IfOk result (λ numbers. numbers ≡ search query.now (live a.entries)) };

    /// Returns a page of what `search` gives: so many numbers after so many that are skipped, or as
    /// many as there are. Reads no text.
    ///
    /// `NoMemory` if an allocation fails.
    fn search_page(&self, query: &Query, skip: u64, count: u64) -> Result<MessageNumbers, NoMemory>
        requires ready { ready self.now ≡ true }
        ensures { (a : Archive) → holds self.now a → IfOk result (λ page. page
            ≡ take count (drop skip (search query.now (live a.entries)))) };

    /// Returns the entry at an index, from 0, without its text, or `None` if there are not so many.
    fn entry(&self, index: u64) -> Option<EntryLine>
        requires ready { ready self.now ≡ true }
        ensures { (a : Archive) → holds self.now a → result ≡ line_at a.config.form a.entries index };

    /// Appends the text of a live message. Reads the disk at most once.
    ///
    /// `DiskFault` if the disk failed, and the count of faults rose; any other result leaves the
    /// count. `NoMemory` if an allocation fails. `Damaged` if the bytes that were read have another
    /// id than the message's blob, which never happens while an archive is held. Each of them leaves
    /// `into` unchanged.
    fn text(&mut self, n: u32, into: &mut Bytes) -> Result<(), TextRefusal>
        requires ready { ready self.old ≡ true }
        requires live { (a : Archive) → holds self.old a → is_some (text_of (live a.entries) n) ≡ true }
        ensures text { (a : Archive) → holds self.old a
            → GivesTextIn (live a.entries) n into.old into.new result }
        ensures refused { OnErr result (into.new ≡ into.old) }
        ensures appends { AppendsTo into.old into.new }
        ensures shelf { ShelfStays holds ready alike faults self.old self.new }
        ensures cause { ReadCause (faults self.old) (faults self.new) result }
        ensures reads { ReadsOnce (reads self.old) (reads self.new) };

    /// Appends the text of an entry with this blob id, live or not, and returns whether an entry has
    /// it. Reads the disk at most once.
    ///
    /// The refusals are those of `text`. Each of them, and a blob id that no entry has, leave `into`
    /// unchanged.
    fn blob(&mut self, id: &ObjectId, into: &mut Bytes) -> Result<bool, TextRefusal>
        requires ready { ready self.old ≡ true }
        ensures blob { (a : Archive) → holds self.old a
            → GivesBlobIn a.config.form a.entries id.now into.old into.new result }
        ensures kept { KeepsUnlessFound into.old into.new result }
        ensures appends { AppendsTo into.old into.new }
        ensures shelf { ShelfStays holds ready alike faults self.old self.new }
        ensures cause { ReadCause (faults self.old) (faults self.new) result }
        ensures reads { ReadsOnce (reads self.old) (reads self.new) };

    /// The relation leads from each state to itself.
    ghost alike_same: { (s : Self) → alike s s };

    /// Two steps of the relation in order are one.
    ghost alike_joined: { (s t u : Self) → alike s t → alike t u → alike s u };
}

/// Returns whether a number is live.
pub fn is_live<S: Shelf>(n: u32, shelf: &S) -> bool
    requires { S.ready shelf.now ≡ true }
    ensures { (a : Archive) → S.holds shelf.now a → is_some (text_of (live a.entries) n) ≡ result }
{
    match shelf.live_from(n) {
        Some(found) => found == n,
        None => false,
    }
}
