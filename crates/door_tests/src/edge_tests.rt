//! Tests of scripts, sources, sinks and clocks, by examples worked out by hand.
ghost use Rattle.std.specs.Prelude.{◌<◌, length};

use arch_base::{Bytes, NoMemory, Numbers};
use edge_io::{
    Clock, ClockFault, Door, Event, MemClock, MemSink, MemSource, Script, ScriptRefusal, Sink,
    SinkFault, Source, SourceFault, What, read_in_one_way, say, say_line, script,
};
use std::alloc::{AllocError, Global};
use std::test::Fail;

fn read_through<S: Source>(source: &mut S, into: &mut [u8]) -> Result<usize, SourceFault>
    requires { 0 < length into.old }
{
    source.read(into)
}

fn write_through<S: Sink>(sink: &mut S, bytes: &[u8]) -> Result<(), SinkFault> {
    sink.write(bytes)
}

fn now_through<C: Clock>(clock: &mut C) -> Result<u64, ClockFault> {
    clock.now()
}

/// Returns the script with one piece of `len` bytes.
fn script_of_piece(alloc: Global, line: &str, len: usize) -> Result<Vec<u8>, AllocError> {
    let mut text = Vec::from_slice(alloc, line.as_bytes())?;
    text.extend_from_slice(&vec![in alloc; b'a'; len]?)?;
    text.push(b'\n')?;
    Ok(text)
}

/// Returns whether a text is a script of `count` events.
fn has_events(alloc: Global, text: &str, count: u64) -> Result<bool, ScriptRefusal> {
    let made = script(alloc, text.as_bytes())?;
    let ends = made.event(count).is_none();
    let reaches = count == 0 || made.event(count - 1).is_some();
    Ok(ends && reaches)
}

/// Returns the length of the piece that is read from the script with one piece.
fn piece_len(alloc: Global, line: &str, len: usize) -> Result<usize, Fail> {
    let text = script_of_piece(alloc, line, len)?;
    let made = script(alloc, &text)?;
    Ok(made.piece(0).len())
}

/// Returns whether bytes are no script, and this event, from 1, is the first bad one.
fn is_bad_at(alloc: Global, bytes: &[u8], event: u64) -> bool {
    script(alloc, bytes).err() == Some(ScriptRefusal::Bad { event })
}

/// Returns whether the script with one piece is bad at that piece.
fn is_bad_piece(alloc: Global, line: &str, len: usize) -> Result<bool, AllocError> {
    let text = script_of_piece(alloc, line, len)?;
    Ok(is_bad_at(alloc, &text, 1))
}

/// Scripts and their numbers of events.
const WHOLE: [(&str, u64); 16] = [
    ("", 0),
    ("0 q\n", 1),
    ("253402300799 s\n", 1),
    ("5 q\n4 q\n", 2),
    ("5 o 1 control\n", 1),
    ("5 e 1\n", 1),
    ("5 o 65535 nntp\n", 1),
    ("5 o 1 http\n", 1),
    ("5 o 1 imap\n", 1),
    ("5 o 1 pop3\n", 1),
    ("5 o 1 lmtp\n", 1),
    ("5 o 0 control\n5 o 7 nntp\n", 2),
    ("5 e 65535\n", 1),
    ("5 b 1 1\n\n\n", 1),
    ("5 b 1 5\n5 q\n\n\n", 1),
    ("5 s\n5 q\n", 2),
];

#[test]
fn whole_scripts_are_read(rt: HostRuntime) -> Result<(), Fail> {
    read_in_one_way();
    for (text, count) in &WHOLE {
        assert!(rt; has_events(rt.alloc(), text, *count)?, "{text}");
    }
    assert_eq!(rt; piece_len(rt.alloc(), "5 b 1 1048576\n", 1048576)?, 1048576);
    Ok(())
}

/// Texts that are no scripts, and the first bad event of each, from 1.
const BAD: [(&str, u64); 25] = [
    ("5 x 1\n", 1),
    ("5 q", 1),
    ("\n", 1),
    ("5 b 1 3\nabc", 1),
    ("5 b 1 3\nabcd\n", 1),
    ("5 b 1 3\nab\n", 1),
    ("5 b 1 0\n\n", 1),
    ("5 b 1 01\na\n", 1),
    ("5 b 65536 1\na\n", 1),
    ("253402300800 q\n", 1),
    ("05 q\n", 1),
    ("5  q\n", 1),
    ("5 q\r\n", 1),
    ("5 q \n", 1),
    ("5 Q\n", 1),
    ("5 o 65536 control\n", 1),
    ("5 o 1 Control\n", 1),
    ("5 o 1 HTTP\n", 1),
    ("5 o 1 IMAP\n", 1),
    ("5 o 1 smtp\n", 1),
    ("5 e 65536\n", 1),
    ("5 q\nx", 2),
    ("5 q\n\n", 2),
    ("5 s\n5 x\n", 2),
    ("5 b 1 2\nab\n5 q\n5 b 1 9\nabc\n", 3),
];

#[test]
fn the_first_bad_event_is_named(rt: HostRuntime) -> Result<(), Fail> {
    for (text, event) in &BAD {
        assert!(rt; is_bad_at(rt.alloc(), text.as_bytes(), *event), "{text}");
    }
    assert!(rt; is_bad_piece(rt.alloc(), "5 b 1 1048577\n", 1048577)?);
    Ok(())
}

/// An event of a script and its piece.
struct Arrival {
    event: Event,
    piece: &'static str,
}

/// The events of a script, in order.
const ARRIVALS: [Arrival; 6] = [
    Arrival {
        event: Event {
            moment: 0,
            what: What::Opened {
                conn: 1,
                door: Door::Control,
            },
        },
        piece: "",
    },
    Arrival {
        event: Event {
            moment: 5,
            what: What::Bytes { conn: 1, len: 3 },
        },
        piece: "a\nb",
    },
    Arrival {
        event: Event {
            moment: 7,
            what: What::Quiet,
        },
        piece: "",
    },
    Arrival {
        event: Event {
            moment: 6,
            what: What::Bytes { conn: 1, len: 1 },
        },
        piece: "c",
    },
    Arrival {
        event: Event {
            moment: 8,
            what: What::Ended { conn: 1 },
        },
        piece: "",
    },
    Arrival {
        event: Event {
            moment: 9,
            what: What::Stop,
        },
        piece: "",
    },
];

/// Returns whether an event of a script, by its index from 0, is this one with its piece.
fn has_arrival(made: &Script, index: u64, arrival: &Arrival) -> bool {
    let same = made.event(index) == Some(&arrival.event);
    let carries = made.piece(index) == arrival.piece.as_bytes();
    same && carries
}

#[test]
fn events_have_their_pieces(rt: HostRuntime) -> Result<(), Fail> {
    let text = b"0 o 1 control\n5 b 1 3\na\nb\n7 q\n6 b 1 1\nc\n8 e 1\n9 s\n";
    let made = script(rt.alloc(), text)?;
    for (index, arrival) in ARRIVALS.iter().enumerate() {
        assert!(rt; has_arrival(&made, index as u64, arrival), "event {index}");
    }
    assert!(rt; made.event(6).is_none() && made.piece(6).is_empty());
    Ok(())
}

/// Returns the list of ordinals that names the second call.
fn second_call(alloc: Global) -> Result<Numbers, NoMemory> {
    let mut listed = Numbers::new(alloc);
    listed.push(2)?;
    Ok(listed)
}

/// Creates a source of five bytes whose second read fails.
fn failing_source(alloc: Global) -> Result<MemSource, NoMemory> {
    let mut bytes = Bytes::new(alloc);
    bytes.push_slice(b"abcde")?;
    Ok(MemSource::new(alloc, bytes, second_call(alloc)?))
}

/// Returns whether the source's bytes come at the first and the third of four reads of three bytes.
fn gives_its_bytes(source: &mut MemSource) -> bool {
    let mut into = *b"...";
    let first = read_through(source, &mut into);
    let front = into;
    let second = read_through(source, &mut into);
    let third = read_through(source, &mut into);
    let back = into;
    let last = read_through(source, &mut into);
    let counts = first == Ok(3) && second == Err(SourceFault) && third == Ok(2) && last == Ok(0);
    counts && front == *b"abc" && back == *b"dec"
}

#[test]
fn listed_reads_fail(rt: HostRuntime) -> Result<(), Fail> {
    let mut source = failing_source(rt.alloc())?;
    assert!(rt; gives_its_bytes(&mut source));
    assert_eq!(rt; source.starved(), 0);
    Ok(())
}

/// Returns whether the first and the third of three writes are taken, and the second fails.
fn takes_two_of_three(sink: &mut MemSink) -> bool {
    let first = write_through(sink, b"ab");
    let second = write_through(sink, b"cd");
    let third = write_through(sink, b"ef");
    let answers = first.is_ok() && second == Err(SinkFault) && third.is_ok();
    answers && sink.taken() == b"abef".as_slice()
}

/// Returns whether an emptied sink takes the bytes that follow.
fn takes_after_clear(sink: &mut MemSink) -> bool {
    sink.clear();
    let emptied = sink.taken().is_empty();
    let written = write_through(sink, b"g");
    emptied && written.is_ok() && sink.taken() == b"g".as_slice()
}

#[test]
fn listed_writes_fail(rt: HostRuntime) -> Result<(), Fail> {
    let mut sink = MemSink::new(rt.alloc(), second_call(rt.alloc())?);
    assert!(rt; takes_two_of_three(&mut sink));
    assert!(rt; takes_after_clear(&mut sink));
    assert_eq!(rt; sink.starved(), 0);
    Ok(())
}

/// Returns whether a line lacks its line feed, if the second write fails, and words and a line
/// after it are whole.
fn takes_words_after_a_fault(sink: &mut MemSink) -> bool {
    let lost = say_line(b"ab", sink);
    let words = say(b"cd", sink);
    let line = say_line(b"ef", sink);
    let answers = lost == Err(SinkFault) && words.is_ok() && line.is_ok();
    answers && sink.taken() == b"abcdef\n".as_slice()
}

#[test]
fn words_stop_where_the_sink_fails(rt: HostRuntime) -> Result<(), Fail> {
    let mut sink = MemSink::new(rt.alloc(), second_call(rt.alloc())?);
    assert!(rt; takes_words_after_a_fault(&mut sink));
    Ok(())
}

/// Creates a clock of three moments whose second call fails.
fn failing_clock(alloc: Global) -> Result<MemClock, NoMemory> {
    let mut moments = Numbers::new(alloc);
    moments.push(7)?;
    moments.push(253402300799)?;
    moments.push(5)?;
    Ok(MemClock::new(alloc, moments, second_call(alloc)?))
}

/// Returns whether the clock's moments come one after another, and the last one again.
fn gives_its_moments(clock: &mut MemClock) -> bool {
    let first = now_through(clock);
    let second = now_through(clock);
    let third = now_through(clock);
    let fourth = now_through(clock);
    let again = now_through(clock);
    let early = first == Ok(7) && second == Err(ClockFault) && third == Ok(253402300799);
    early && fourth == Ok(5) && again == Ok(5)
}

#[test]
fn moments_pass_up_to_the_last(rt: HostRuntime) -> Result<(), Fail> {
    let mut clock = failing_clock(rt.alloc())?;
    assert!(rt; gives_its_moments(&mut clock));
    assert_eq!(rt; clock.starved(), 0);
    Ok(())
}
