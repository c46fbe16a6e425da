//! The octets of the data that a connection holds, and the end of the data.
//! Allocates.
ghost use Rattle.std.specs.Prelude.{◌≡◌, ◌≤◌, ◌<◌, ◌++◌, [], length, IfOk};
ghost use Rattle.lmtp_data.specs.Readings.{data_reading, data_limit, clipped, counted, ReadsData};
ghost use Rattle.lmtp_data.specs.Steps.{IsDataStep, IsRun, placed, pushed};
ghost use Rattle.lmtp_data.specs.declared.place.Place.TheVariants as place;

use crate::place::Place;
use arch_base::NoMemory;
use memchr::memchr;
use std::alloc::Global;
use std::marker::Model;

/// The most octets of the data that are kept.
const DATA_LIMIT: usize = 9_000_000;

/// What one step over the rest of a piece found.
#[derive(Clone, Copy, Drop)]
pub(crate) enum DataStep {
    /// This many bytes belong to the data, which goes on.
    Went(usize),
    /// The data ends after this many bytes.
    Ended(usize),
    /// There are no bytes.
    Paused,
}

/// The data of a transaction, as it comes (RFC 5321, section 4.5.2).
///
/// A line ends with CR LF alone. A dot at its start is dropped, and a line of one dot ends the data.
/// The first 9,000,000 octets of the data are kept, and all are counted. All memory is taken at the
/// start, so none is wanted amid the data; each octet is copied once.
#[derive(Drop)]
pub struct DataReader {
    text: Vec<u8>,
    count: u64,
    place: Place,
}

impl Model for DataReader {
    ghost use Rattle.std.specs.Prelude.{◌≤◌, vec_len, vec_capacity};
    ghost use Rattle.lmtp_data.specs.Readings.{DataReading, data_reading, data_limit};

    ghost Value = { DataReading };

    ghost view = { λ r. data_reading r.text.items r.count r.place };

    ghost invariant = { λ r. (vec_len r.text ≤ data_limit) × (data_limit ≤ vec_capacity r.text) };
}

impl DataReader {
    /// Returns a reader that stands before the first octet of the data, with room for all that are
    /// kept.
    ///
    /// `NoMemory` if the allocation fails.
    pub fn new(alloc: Global) -> Result<DataReader, NoMemory>
        ensures { IfOk result (λ made. made ≡ data_reading [] 0 place.LineStart) }
    {
        let text = Vec::with_capacity(alloc, DATA_LIMIT)?;
        Ok(DataReader {
            text,
            count: 0,
            place: Place::LineStart,
        })
    }

    /// Returns the octets that are kept of the data.
    pub fn text(&self) -> &[u8]
        ensures value { result.now ≡ self.now.text }
        ensures short { length result.now ≤ data_limit }
    {
        self.text.as_slice()
    }

    /// Returns how many octets the data has so far, at most 2^64 - 1.
    pub fn count(&self) -> u64
        ensures { result ≡ self.now.count }
    {
        self.count
    }

    /// Reads the data in a piece. Returns how many bytes of the piece belong to it if it ends there,
    /// and otherwise `None`. Allocates nothing.
    pub fn read(&mut self, piece: &[u8]) -> Option<usize>
        ensures { ReadsData data_limit self.old piece.now result self.new }
    {
        let used = self.run(piece);
        self.settled(used)
    }

    /// Returns what a run found. What is kept has room, and what is counted fits, so no further
    /// octets change neither.
    fn settled(&self, used: Option<usize>) -> Option<usize>
        ensures value { result ≡ used }
        ensures kept { clipped data_limit (self.now.text ++ []) ≡ self.now.text }
        ensures count { counted self.now.count 0 ≡ self.now.count }
    {
        let _kept = self.text();
        settle(self.count());
        used
    }

    /// Reads the data in a piece, step by step.
    fn run(&mut self, piece: &[u8]) -> Option<usize>
        ensures { IsRun self.old piece.now result self.new }
    {
        let mut rest = piece;
        let mut used = 0;
        loop {
            match self.step(rest) {
                DataStep::Went(taken) => {
                    rest = rest.split_at(taken).1;
                    used += taken;
                }
                DataStep::Ended(last) => return Some(used + last),
                DataStep::Paused => return None,
            }
        }
    }

    /// Reads on in the rest of a piece, one octet or more, or up to the next place.
    fn step(&mut self, rest: &[u8]) -> DataStep
        ensures { IsDataStep self.old rest.now result self.new }
    {
        if rest.is_empty() {
            return DataStep::Paused;
        }
        match self.place() {
            Place::LineStart => self.line_start(rest),
            Place::Dot => self.dot(rest),
            Place::DotReturn => self.dot_return(rest),
            Place::Within => self.within(rest),
            Place::Return => self.return_(rest),
        }
    }

    /// Returns where the next octet stands.
    fn place(&self) -> Place
        ensures { result ≡ self.now.place }
    {
        self.place
    }

    /// Reads on at the start of a line.
    fn line_start(&mut self, rest: &[u8]) -> DataStep
        requires some { 0 < length rest.now }
        requires at { self.old.place ≡ place.LineStart }
        ensures { IsDataStep self.old rest.now result self.new }
    {
        if rest[0] == b'.' {
            self.stand(Place::Dot);
            return DataStep::Went(1);
        }
        self.stand(Place::Within);
        DataStep::Went(0)
    }

    /// Reads on after the dot at the start of a line.
    fn dot(&mut self, rest: &[u8]) -> DataStep
        requires some { 0 < length rest.now }
        requires at { self.old.place ≡ place.Dot }
        ensures { IsDataStep self.old rest.now result self.new }
    {
        if rest[0] == b'\r' {
            self.stand(Place::DotReturn);
            return DataStep::Went(1);
        }
        self.stand(Place::Within);
        DataStep::Went(0)
    }

    /// Reads on after the dot at the start of a line and a carriage return.
    fn dot_return(&mut self, rest: &[u8]) -> DataStep
        requires some { 0 < length rest.now }
        requires at { self.old.place ≡ place.DotReturn }
        ensures { IsDataStep self.old rest.now result self.new }
    {
        if rest[0] == b'\n' {
            return DataStep::Ended(1);
        }
        self.push(b"\r", Place::Return);
        DataStep::Went(0)
    }

    /// Reads on within a line, up to its next carriage return.
    fn within(&mut self, rest: &[u8]) -> DataStep
        requires some { 0 < length rest.now }
        requires at { self.old.place ≡ place.Within }
        ensures { IsDataStep self.old rest.now result self.new }
    {
        match memchr(b'\r', rest) {
            Some(end) => {
                self.push(rest.split_at(end + 1).0, Place::Return);
                DataStep::Went(end + 1)
            }
            None => {
                self.push(rest, Place::Within);
                DataStep::Went(rest.len())
            }
        }
    }

    /// Reads on after a carriage return of a line.
    fn return_(&mut self, rest: &[u8]) -> DataStep
        requires some { 0 < length rest.now }
        requires at { self.old.place ≡ place.Return }
        ensures { IsDataStep self.old rest.now result self.new }
    {
        if rest[0] == b'\n' {
            self.push(b"\n", Place::LineStart);
            return DataStep::Went(1);
        }
        self.stand(Place::Within);
        DataStep::Went(0)
    }

    /// Goes to another place without an octet.
    fn stand(&mut self, place: Place)
        ensures { self.new ≡ placed self.old place }
    {
        self.place = place;
    }

    /// Counts octets of the data, keeps those for which there is room, and goes to a place.
    fn push(&mut self, octets: &[u8], place: Place)
        ensures { self.new ≡ pushed self.old octets.now place }
    {
        let kept = self.text.as_slice().len();
        let room = DATA_LIMIT - kept;
        let (front, _) = octets.split_at(octets.len().min(room));
        let _ = self.text.extend_from_slice(front);
        self.count = self.count.saturating_add(octets.len() as u64);
        self.place = place;
    }
}

/// Says that no further octets leave a count.
fn settle(count: u64)
    ensures { counted count 0 ≡ count }
{
    let _same = count;
}
