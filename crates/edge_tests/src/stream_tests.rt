//! Tests of the standard streams and the system's clock, and of printers and clocks that fail.
use crate::folder_tests::is_told;
use arch_base::NoMemory;
use edge_io::{Clock, ClockFault, Sink, SinkFault};
use real_edges::{Output, Progress, ReadSoFar, StdSink, StdSource, SystemClock};
use std::alloc::Global;
use std::fmt::Display;
use std::io::{self, ErrorKind, Print};
use std::test::Fail;
use std::time::Duration;

/// Returns whether a clock gives moments after 2023-11, the second not before the first.
fn goes_on<C: Clock>(clock: &mut C) -> Result<bool, ClockFault> {
    let first = clock.now()?;
    let second = clock.now()?;
    Ok(first > 1_700_000_000 && second >= first)
}

#[test]
fn the_clock_gives_a_moment(rt: HostRuntime) -> Result<(), Fail> {
    let mut clock = SystemClock::new(&rt, rt.alloc())?;
    assert!(rt; goes_on(&mut clock)?);
    Ok(())
}

/// A clock that stands still, or can't be read.
#[derive(Drop)]
struct Stands(Option<u64>);

impl std::time::Clock for Stands {
    fn monotonic(&self) -> io::Result<Duration> {
        self.since_1970()
    }

    fn since_1970(&self) -> io::Result<Duration> {
        match self.0 {
            Some(seconds) => Ok(Duration::from_secs(seconds)),
            None => Err(ErrorKind::Other.into()),
        }
    }
}

/// A time in seconds since 1970, if it can be read, and what the clock returns of it.
#[derive(Clone, Copy)]
struct Time {
    seconds: Option<u64>,
    wanted: Result<u64, ClockFault>,
}

/// The first and the last moment, times after it, and one that can't be read.
const TIMES: [Time; 5] = [
    Time {
        seconds: Some(0),
        wanted: Ok(0),
    },
    Time {
        seconds: Some(253_402_300_799),
        wanted: Ok(253_402_300_799),
    },
    Time {
        seconds: Some(253_402_300_800),
        wanted: Err(ClockFault),
    },
    Time {
        seconds: Some(u64::MAX),
        wanted: Err(ClockFault),
    },
    Time {
        seconds: None,
        wanted: Err(ClockFault),
    },
];

/// Returns whether a clock that stands at a time returns what it should, and tells a cause only of
/// a fault.
fn is_right_at(alloc: Global, time: &Time) -> Result<bool, NoMemory> {
    let stands = Stands(time.seconds);
    let mut clock = SystemClock::new(&stands, alloc)?;
    let found = clock.now();
    let cause = clock.cause(alloc)?;
    Ok(found == time.wanted && cause.is_none() == time.wanted.is_ok())
}

#[test]
fn a_time_that_is_no_moment_is_a_fault(rt: HostRuntime) -> Result<(), Fail> {
    for time in &TIMES {
        assert!(rt; is_right_at(rt.alloc(), time)?);
    }
    Ok(())
}

/// A printer whose every call fails.
#[derive(Drop)]
struct Closed;

impl Print for Closed {
    fn print<D: Display + Drop>(&self, _value: D) -> io::Result<()> {
        Err(ErrorKind::BrokenPipe.into())
    }

    fn println<D: Display + Drop>(&self, _value: D) -> io::Result<()> {
        Err(ErrorKind::BrokenPipe.into())
    }

    fn write_all(&self, _bytes: &[u8]) -> io::Result<()> {
        Err(ErrorKind::BrokenPipe.into())
    }
}

/// Returns whether a failed write is a fault with its cause told.
fn is_fault_told(sink: &mut StdSink<&Closed>, alloc: Global) -> Result<bool, NoMemory> {
    let before = sink.cause(alloc)?.is_none();
    let failed = sink.write(b"a") == Err(SinkFault);
    Ok(before && failed && is_told(sink.cause(alloc)?, "broken pipe"))
}

#[test]
fn what_is_not_printed_is_a_fault(rt: HostRuntime) -> Result<(), Fail> {
    let closed = Closed;
    let mut sink = StdSink::new(&closed, rt.alloc())?;
    assert!(rt; is_fault_told(&mut sink, rt.alloc())?);
    Ok(())
}

/// What was read of a folder, and the words of the line of progress.
#[derive(Clone, Copy)]
struct Shown {
    read: u64,
    total: u64,
    again: bool,
    words: &'static str,
}

/// Parts of folders, a second reading, small and great ones, and more than a folder has.
const SHOWN: [Shown; 5] = [
    Shown {
        read: 120_999_999,
        total: 345_678_901,
        again: false,
        words: "read 120 of 345 MB",
    },
    Shown {
        read: 120_000_000,
        total: 345_000_000,
        again: true,
        words: "read 120 of 345 MB, again",
    },
    Shown {
        read: 0,
        total: 999_999,
        again: false,
        words: "read 0 of 0 MB",
    },
    Shown {
        read: 2_000_000,
        total: 1_999_999,
        again: false,
        words: "read 1 of 1 MB",
    },
    Shown {
        read: u64::MAX,
        total: u64::MAX,
        again: false,
        words: "read 18446744073709 of 18446744073709 MB",
    },
];

/// Returns whether the words are those of the line of progress.
fn is_worded(alloc: Global, shown: &Shown) -> Result<bool, NoMemory> {
    let so_far = ReadSoFar {
        read: shown.read,
        total: shown.total,
        again: shown.again,
    };
    let line = format!(in alloc; "{so_far}")?;
    Ok(line.as_str() == shown.words)
}

#[test]
fn the_line_of_progress_has_its_words(rt: HostRuntime) -> Result<(), Fail> {
    for shown in &SHOWN {
        assert!(rt; is_worded(rt.alloc(), shown)?);
    }
    Ok(())
}

/// Returns whether a write of no bytes to the standard output is taken.
fn takes_nothing(rt: &HostRuntime) -> Result<bool, NoMemory> {
    let progress = Progress::new(rt);
    let mut sink = StdSink::new(Output::new(rt, &progress), rt.alloc())?;
    Ok(sink.write(b"") == Ok(()))
}

#[test]
fn the_standard_streams_are_opened(rt: HostRuntime) -> Result<(), Fail> {
    assert!(rt; takes_nothing(&rt)?);
    assert!(rt; StdSource::new(&rt, rt.alloc()).is_ok());
    Ok(())
}
