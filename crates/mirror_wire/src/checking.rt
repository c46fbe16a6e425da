//! Whether the line of an entry may follow those before it in a list.
//! Allocates.
ghost use Rattle.std.specs.Prelude.{◌≡◌, ◌↔◌, ◌<◌, ◌^◌, [], length, MatchOption, OnOk, IsTrue};
ghost use Rattle.std.specs.List.{AllByRecursion};
ghost use Rattle.arch_base.specs.Ids.{IsObjectId};
ghost use Rattle.git_objects.specs.Fronts.{Lacks, Begins};
ghost use Rattle.arch_model.specs.declared.line.EntryLine.{EntryLine as Line};
ghost use Rattle.mirror_wire.specs.Lists.{entry_part};
ghost use Rattle.mirror_wire.specs.Rules.{IsNext, MayFollow, NumberMayFollow};
ghost use Rattle.mirror_wire.specs.Checking.{IsChecked, TakesLine, TakesNumber, size_at, blob_at, in_range};

use crate::line_reading::read_line;
use crate::list::EntryLines;
use arch_base::{Form, LAST_MOMENT, NoMemory, ObjectId};
use arch_model::EntryLine;
use disk_model::LAST_EPOCH;
use git_objects::EntryKind;
use std::alloc::Global;
use std::collections::BTreeMap;

/// The greatest size of a text, in bytes.
const MAX_TEXT_LEN: u64 = 8_388_800;

/// The entries of a list up to one, and what decides whether a line may follow them.
///
/// Takes some 200 bytes of memory for a live message: half of them for its line, and half for the maps.
#[derive(Drop)]
pub(crate) struct Checked {
    form: Form,
    next: u32,
    lines: EntryLines,
    /// The number of the last message, or 0.
    number: u32,
    /// The epoch of the last entry, or 0.
    epoch: u32,
    /// The blob id of each live message, by its number.
    live: BTreeMap<u32, ObjectId>,
    /// The size of each text, by its blob id.
    sizes: BTreeMap<ObjectId, u64>,
}

impl Checked {
    /// Returns no lines, of a list with ids of a form and a next number. Allocates nothing.
    pub(crate) fn new(alloc: Global, form: Form, next: u32) -> Checked
        requires { IsNext next }
        ensures checked { IsChecked result }
        ensures form { result.form ≡ form }
        ensures next { result.next ≡ next }
        ensures lines { result.lines ≡ [] }
    {
        Checked {
            form,
            next,
            lines: EntryLines::new(alloc),
            number: 0,
            epoch: 0,
            live: BTreeMap::new(alloc),
            sizes: BTreeMap::new(alloc),
        }
    }

    /// Returns the number of lines.
    pub(crate) fn count(&self) -> u64
        ensures count { result ≡ length self.now.lines }
        ensures small { result < 2 ^ 63 }
    {
        self.lines.as_slice().len() as u64
    }

    /// Returns the lines.
    pub(crate) fn into_lines(self) -> EntryLines
        ensures { result ≡ self.lines }
    {
        let Checked { lines, .. } = self;
        lines
    }

    /// Reads the line of an entry that may follow.
    pub(crate) fn read_next<'a>(&self, bytes: &'a [u8]) -> Option<(EntryLine, &'a [u8])>
        requires { IsChecked self.now }
        ensures { MatchOption result
            (Lacks (MayFollow self.now.form self.now.next self.now.lines) entry_part bytes.now)
            (λ found. Begins (MayFollow self.now.form self.now.next self.now.lines) entry_part bytes.now
            found.0 found.1.now) }
    {
        let (line, rest) = read_line(bytes, self.form)?;
        if !self.may_follow(&line) {
            return None;
        }
        Some((line, rest))
    }

    /// Returns whether a line with ids of the form may follow.
    fn may_follow(&self, line: &EntryLine) -> bool
        requires checked { IsChecked self.now }
        requires blob { IsObjectId self.now.form line.now.blob }
        requires commit { IsObjectId self.now.form line.now.commit }
        ensures { IsTrue result ↔ MayFollow self.now.form self.now.next self.now.lines line.now }
    {
        if !self.is_in_range(line) {
            return false;
        }
        if !self.size_may_follow(line) {
            return false;
        }
        self.number_may_follow(line)
    }

    /// Returns whether the epoch of a line is at least the last one, and the epoch, the moment and the
    /// size of a line are in their ranges.
    fn is_in_range(&self, line: &EntryLine) -> bool
        ensures { result ≡ in_range self.now.epoch line.now }
    {
        self.epoch <= line.epoch
            && line.epoch <= LAST_EPOCH
            && line.secs <= LAST_MOMENT
            && line.size <= MAX_TEXT_LEN
    }

    /// Returns whether each line with the blob id of this one has its size.
    fn size_may_follow(&self, line: &EntryLine) -> bool
        requires { IsChecked self.now }
        ensures { IsTrue result ↔ AllByRecursion (λ (m : Line). m.blob ≡ line.now.blob
            → m.size ≡ line.now.size) self.now.lines }
    {
        match self.size_of(&line.blob) {
            Some(size) => size == line.size,
            None => true,
        }
    }

    /// Returns whether the number of a line may follow that has the size of each line with its blob id.
    fn number_may_follow(&self, line: &EntryLine) -> bool
        requires checked { IsChecked self.now }
        requires sizes { AllByRecursion (λ (m : Line). m.blob ≡ line.now.blob
            → m.size ≡ line.now.size) self.now.lines }
        ensures { IsTrue result ↔ NumberMayFollow line.now.kind self.now.next self.now.lines line.now }
    {
        match line.kind {
            EntryKind::Message => self.number < line.number && line.number < self.next,
            EntryKind::Deletion => match self.blob_of(line.number) {
                Some(blob) => blob == line.blob,
                None => false,
            },
        }
    }

    /// Returns the size of a blob id.
    fn size_of(&self, blob: &ObjectId) -> Option<u64>
        ensures { result ≡ size_at self.now.sizes blob.now }
    {
        self.sizes.get(blob).copied()
    }

    /// Returns the blob id of the live message with a number.
    fn blob_of(&self, number: u32) -> Option<ObjectId>
        ensures { result ≡ blob_at self.now.live number }
    {
        self.live.get(&number).copied()
    }

    /// Appends a line that may follow.
    pub(crate) fn push(&mut self, line: EntryLine) -> Result<(), NoMemory>
        requires checked { IsChecked self.old }
        requires follows { MayFollow self.old.form self.old.next self.old.lines line }
        ensures { OnOk result (TakesLine self.old self.new line) }
    {
        self.take_number(&line)?;
        self.sizes.insert(line.blob, line.size)?;
        self.epoch = line.epoch;
        self.lines.push(line)
    }

    /// Notes the number of a line that may follow, which the line has or ends.
    fn take_number(&mut self, line: &EntryLine) -> Result<(), NoMemory>
        requires checked { IsChecked self.old }
        requires follows { MayFollow self.old.form self.old.next self.old.lines line.now }
        ensures { OnOk result (TakesNumber self.old self.new line.now) }
    {
        match line.kind {
            EntryKind::Message => {
                self.live.insert(line.number, line.blob)?;
                self.number = line.number;
            }
            EntryKind::Deletion => {
                self.live.remove(&line.number);
            }
        }
        Ok(())
    }
}
