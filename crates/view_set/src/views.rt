//! The rows of live messages, the threads that they make, and their words.
//! Allocates.
ghost use Rattle.std.specs.Prelude.{◌≡◌, List, take, drop, None, IfOk, OnOk, OnErr, option_copied};
ghost use Rattle.arch_base.specs.declared.ids.Form.{Form};
ghost use Rattle.overview_index.specs.Listings.{row_in, number_of, listing, live_between, IsLeastFrom, IsGreatestTo};
ghost use Rattle.thread_model.specs.Members.{Rises};
ghost use Rattle.view_set.specs.Threads.{thread_in};
ghost use Rattle.arch_model.specs.Archives.{Entry, live};
ghost use Rattle.arch_model.specs.Searching.{search as search_in};
ghost use Rattle.arch_model.specs.Validity.{Rise};
ghost use Rattle.view_set.specs.Viewed.{no_mails, with_mail, without_mail, views_of, searched, IsFrontFound};
ghost use Rattle.word_index.specs.Rows.{found};

use crate::counted::take_thread;
use crate::keys::keys_of;
use crate::posting::post;
use arch_base::{MessageNumbers, NoMemory};
use mail_forms::Row;
use overview_index::Overview;
use query_lang::{Query, utc_day};
use std::alloc::Global;
use std::marker::Model;
use text_words::WordLists;
use thread_index::ThreadIndex;
use word_index::WordIndex;

/// How many rows are looked at at a time.
const STEP: u64 = 256;

/// The rows of live messages, the threads that they make, and their words.
///
/// Contracts see the rows and the words by their numbers. A row that is added or taken changes the
/// threads that it touches alone, in the steps that `ThreadIndex` promises. If memory runs out for
/// that, the threads are given up until `clear`, and `thread_of` gives `NoMemory`; all else is
/// answered still. The words are never given up: without memory for a row's words the row isn't
/// added, and taking a row needs none, nor its text.
#[derive(Drop)]
pub struct Views {
    alloc: Global,
    overview: Overview,
    threads: ThreadIndex,
    words: WordIndex,
}

impl Model for Views {
    ghost use Rattle.view_set.specs.Threads.{AreThreaded};
    ghost use Rattle.view_set.specs.Viewed.{Viewed, AreWorded};

    ghost Value = { Viewed };

    ghost view = { λ v. record { rows = v.overview; words = v.words } };

    ghost invariant = { λ v. AreThreaded v.overview v.threads × AreWorded v.overview v.words };
}

impl Views {
    /// Returns views of no rows. Allocates nothing.
    pub fn new(alloc: Global) -> Views
        ensures { result ≡ no_mails }
    {
        Views {
            alloc,
            overview: Overview::new(alloc),
            threads: ThreadIndex::new(alloc),
            words: WordIndex::new(alloc),
        }
    }

    /// Adds a row, whose number and id no row has, and its words.
    ///
    /// `NoMemory` drops the row, and leaves rows and words as they were.
    pub fn add(&mut self, row: Row, words: WordLists) -> Result<(), NoMemory>
        requires number { row_in self.old.rows row.number ≡ None }
        requires id { number_of self.old.rows row.id ≡ None }
        ensures ok { OnOk result (self.new ≡ with_mail self.old row words) }
        ensures err { OnErr result (self.new ≡ self.old) }
    {
        let (number, day) = (row.number, utc_day(&row.date));
        let keys = keys_of(self.alloc, &row)?;
        self.overview.add(row)?;
        if let Err(refused) = post(
            &mut self.words,
            &mut self.threads,
            number,
            &words,
            day,
            &keys,
        ) {
            self.overview.take(number);
            return Err(refused);
        }
        Ok(())
    }

    /// Takes the row of a number and its words, if there is one.
    ///
    /// `NoMemory` if it ran out for the threads. The row is taken then, too.
    pub fn take(&mut self, n: u32) -> Result<(), NoMemory>
        ensures { self.new ≡ without_mail self.old n }
    {
        self.overview.take(n);
        self.words.take(n);
        take_thread(&mut self.threads, n)
    }

    /// Removes all rows.
    pub fn clear(&mut self)
        ensures { self.new ≡ no_mails }
    {
        self.overview = Overview::new(self.alloc);
        self.words = WordIndex::new(self.alloc);
        self.threads.clear();
    }

    /// Returns the row of a number.
    pub fn get(&self, n: u32) -> Option<&Row>
        ensures { option_copied result ≡ row_in self.now.rows n }
    {
        self.overview.get(n)
    }

    /// Returns the number of the row with an id.
    pub fn by_id(&self, id: &[u8]) -> Option<u32>
        ensures { result ≡ number_of self.now.rows id.now }
    {
        self.overview.by_id(id)
    }

    /// Returns the least number of a row that is at least this one.
    pub fn live_from(&self, n: u32) -> Option<u32>
        ensures { IsLeastFrom self.now.rows n result }
    {
        self.overview.live_from(n)
    }

    /// Returns the greatest number of a row that is at most this one.
    pub fn live_to(&self, n: u32) -> Option<u32>
        ensures { IsGreatestTo self.now.rows n result }
    {
        self.overview.live_to(n)
    }

    /// Returns how many rows have a number from `low` to `high`, both included.
    pub fn live_count(&self, low: u32, high: u32) -> u64
        ensures { result ≡ live_between self.now.rows low high }
    {
        self.overview.live_count(low, high)
    }

    /// Returns the numbers of rows, newest first: by the seconds of their dates, and then by number,
    /// both falling. These are so many after so many that are skipped, or as many as there are.
    ///
    /// `NoMemory` if an allocation fails.
    pub fn page(&self, skip: u64, count: u64) -> Result<MessageNumbers, NoMemory>
        ensures { IfOk result (λ page. page ≡ take count (drop skip (listing self.now.rows))) }
    {
        self.overview.page(skip, count)
    }

    /// Returns the numbers of the rows in the thread of a number, rising, or none if it has no row.
    ///
    /// `NoMemory` if an allocation fails, or if one failed before when the threads were changed.
    pub fn thread_of(&self, n: u32) -> Result<MessageNumbers, NoMemory>
        ensures members { IfOk result (λ numbers. numbers ≡ thread_in self.now.rows n) }
        ensures rising { IfOk result (λ numbers. Rises numbers) }
    {
        if !self.threads.is_whole() {
            return Err(NoMemory);
        }
        self.threads.members(n)
    }

    /// Returns the numbers of the rows whose words and days match a query, rising.
    ///
    /// `NoMemory` if an allocation fails.
    pub fn find(&self, query: &Query) -> Result<MessageNumbers, NoMemory>
        ensures { IfOk result (λ numbers. numbers ≡ found query.now self.now.words) }
    {
        self.words.find(query)
    }

    /// Returns the numbers of the rows whose words and days match a query, newest first, as `page`
    /// orders them. Its cost is that of `find`, and an order of the numbers that are found.
    ///
    /// `NoMemory` if an allocation fails.
    pub fn search(&self, query: &Query) -> Result<MessageNumbers, NoMemory>
        ensures { IfOk result (λ numbers. numbers ≡ searched query.now self.now) }
    {
        let numbers = self.find(query)?;
        self.overview.newest_first(numbers.as_slice())
    }

    /// Returns the numbers of the rows that match a query as `search` does: so many after so many that
    /// are skipped, or as many as there are. This is said where the rows are those of an archive's live
    /// messages.
    ///
    /// Where the smallest list of the query's words is long enough, the newest rows are looked at
    /// first, up to as many as the list has. So a page of much that is found costs what it shows and
    /// skips, and any other one at most twice what `search` does. `NoMemory` if an allocation fails.
    pub fn search_page(
        &self,
        query: &Query,
        skip: u64,
        count: u64,
    ) -> Result<MessageNumbers, NoMemory>
        ensures { (form : Form) (entries : List Entry) → Rise 1 0 entries
            → self.now ≡ views_of form (live entries) → IfOk result (λ page. page
            ≡ take count (drop skip (search_in query.now (live entries)))) }
    {
        let Some(wanted) = skip.checked_add(count) else {
            return self.search_part(query, skip, count);
        };
        let newest = self.newest_found(query, wanted)?;
        if (newest.as_slice().len() as u64) < wanted {
            return self.search_part(query, skip, count);
        }
        part_of(self.alloc, newest.as_slice(), skip, count)
    }

    /// Returns a part of what `search` gives.
    fn search_part(&self, query: &Query, skip: u64, count: u64) -> Result<MessageNumbers, NoMemory>
        ensures { (form : Form) (entries : List Entry) → Rise 1 0 entries
            → self.now ≡ views_of form (live entries) → IfOk result (λ page. page
            ≡ take count (drop skip (search_in query.now (live entries)))) }
    {
        let found = self.search(query)?;
        part_of(self.alloc, found.as_slice(), skip, count)
    }

    /// Returns the numbers of the newest rows that match a query: of so many rows that there are
    /// `wanted` numbers, if these are among the first rows of the listing, as many as the smallest
    /// list of the query's words has.
    fn newest_found(&self, query: &Query, wanted: u64) -> Result<MessageNumbers, NoMemory>
        ensures { IfOk result (λ numbers. IsFrontFound query.now self.now numbers) }
    {
        let most = self.words.most_found(query)? as u64;
        let mut found = MessageNumbers::new(self.alloc);
        if most < wanted {
            return Ok(found);
        }
        let mut at = 0;
        while at < most && (found.as_slice().len() as u64) < wanted {
            let count = STEP.min(most - at);
            let rows = self.overview.page(at, count)?;
            self.words
                .append_matches(query, rows.as_slice(), &mut found)?;
            at += count;
        }
        Ok(found)
    }
}

/// Returns so many numbers after so many that are skipped, or as many as there are.
fn part_of(
    alloc: Global,
    numbers: &[u32],
    skip: u64,
    count: u64,
) -> Result<MessageNumbers, NoMemory>
    ensures { IfOk result (λ part. part ≡ take count (drop skip numbers.now)) }
{
    let start = numbers.len().min(skip as usize);
    let rest = numbers.split_at(start).1;
    let shown = rest.split_at(rest.len().min(count as usize)).0;
    Ok(MessageNumbers::from_vec(Vec::from_slice(alloc, shown)?))
}
