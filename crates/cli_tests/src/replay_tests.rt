//! Scripts over a disk in memory, beside the same over the plain archive in memory, and over disks
//! that fail.
ghost use Rattle.std.specs.Prelude.{◌≤◌, IfSome};
ghost use Rattle.arch_base.specs.Configs.{IsConfig};

use crate::run_tests::{Due, WORKED, numbers, ran};
use arch_base::{Config, Form, Name, Numbers};
use archive_cli::play_script;
use archive_core::Engine;
use disk_model::MemDisk;
use edge_io::{MemSink, script};
use mem_archive::MemArchive;
use std::alloc::Global;

/// Returns the settings of a script.
fn settings(limit: u64, max: u32, form: Form) -> Option<Config>
    requires limit { (1 ≤ limit) × (limit ≤ 1099511627776) }
    requires max { (1 ≤ max) × (max ≤ 2147483647) }
    ensures { IfSome result IsConfig }
{
    let name = Name::read(b"list")?;
    Some(Config {
        name,
        limit,
        slice: 50_000,
        max,
        mirror: false,
        born: 1,
        form,
    })
}

/// Returns the status of a script over the plain archive in memory, and the output.
fn plain(alloc: Global, config: Config, input: &[u8]) -> Option<(u8, MemSink)>
    requires { IsConfig config }
{
    let Ok(events) = script(alloc, input) else {
        return None;
    };
    let mut sink = MemSink::new(alloc, Numbers::new(alloc));
    let status = play_script(alloc, MemArchive::new(alloc, config), events, &mut sink);
    Some((status.code(), sink))
}

/// Returns whether words on an input print the same over a disk in memory as over the plain archive
/// in memory.
fn same(alloc: Global, words: &[&str], config: Config, input: &[u8]) -> Option<bool>
    requires { IsConfig config }
{
    let (status, printed) = ran(alloc, words, input, &[], &[])?;
    let (plain_status, plain_printed) = plain(alloc, config, input)?;
    Some(status == plain_status && printed.taken() == plain_printed.taken())
}

/// Returns whether a worked run with these settings prints the same over both.
fn agrees(alloc: Global, worked: &Due<'_>, limit: u64, max: u32, form: Form) -> bool
    requires limit { (1 ≤ limit) × (limit ≤ 1099511627776) }
    requires max { (1 ≤ max) × (max ≤ 2147483647) }
{
    match settings(limit, max, form) {
        None => false,
        Some(config) => same(alloc, worked.words, config, worked.input) == Some(true),
    }
}

/// Returns whether each worked run prints the same over both.
fn all_agree(alloc: Global) -> bool {
    let [first, made, full, two, one] = &WORKED;
    let first = agrees(alloc, first, 1_073_741_824, 2_147_483_647, Form::Sha1);
    let made = agrees(alloc, made, 1_073_741_824, 2_147_483_647, Form::Sha1);
    let full = agrees(alloc, full, 1_073_741_824, 2, Form::Sha1);
    let two = agrees(alloc, two, 316, 2_147_483_647, Form::Sha1);
    let one = agrees(alloc, one, 317, 2_147_483_647, Form::Sha1);
    first && made && full && two && one
}

/// Returns whether the worked runs with an id that is made, and with two epochs, print the same over
/// both in archives whose objects the SHA-256 names.
fn all_agree_on_sha256(alloc: Global) -> bool {
    let [made, _taken, _full, two, _one] = &WORKED;
    let made = Due {
        words: &["replay", "list", "sha256"],
        ..*made
    };
    let two = Due {
        words: &["replay", "list", "sha256", "limit=352"],
        ..*two
    };
    let made = agrees(alloc, &made, 1_073_741_824, 2_147_483_647, Form::Sha256);
    let two = agrees(alloc, &two, 352, 2_147_483_647, Form::Sha256);
    made && two
}

#[test]
fn a_disk_and_the_plain_archive_print_the_same(rt: HostRuntime) {
    assert!(rt; all_agree(rt.alloc()));
    assert!(rt; all_agree_on_sha256(rt.alloc()));
}

/// A script of two messages, each in a piece of its own, and a third piece that asks for both.
const THREE_PIECES: &[u8] =
    b"1706781700 o 1 control\n1706781700 b 1 30\ndeliver 19\nMessage-ID: <a@x>\n\n\n1706781700 b 1 30\ndeliver 19\nMessage-ID: <b@x>\n\n\n1706781700 b 1 14\nshow 1\nshow 2\n\n1706781701 s\n";

/// What it prints.
const THREE_FRAMES: &[u8] =
    b"1 48\n1 ok 1 df7a16e6b23ee491f39d84e89298f10b0d4ae4e0\n\n1 48\n1 ok 2 932aef3c2f53dcc65475837ae327c57b7d4d2fc6\n\n1 54\ntext 19\nMessage-ID: <a@x>\n\ntext 19\nMessage-ID: <b@x>\n\n\n";

/// The line after the frames of a script that ran out of memory.
const NO_MEMORY: &[u8] = b"12 no memory\n";

/// The reply to a request at which the disk failed.
const DISK_FAULT: &[u8] = b"10 disk fault\n";

/// How that script ends over a disk of which one call fails.
#[derive(Clone, Copy)]
enum End {
    /// No archive was made.
    NotMade,
    /// It printed all frames.
    Whole,
    /// It was played to its end, one reply told of the fault, and the line came last.
    Told,
    /// None of these.
    Other,
}

/// Returns whether words stand in what is printed.
fn has(printed: &[u8], words: &[u8]) -> bool {
    for index in 0..printed.len() {
        if printed[index..].starts_with(words) {
            return true;
        }
    }
    false
}

/// Returns how that script ends by its status and what it printed.
fn end_of(status: u8, printed: &[u8]) -> End {
    if status == 0 && printed == THREE_FRAMES {
        return End::Whole;
    }
    if status == 7 && has(printed, DISK_FAULT) && printed.ends_with(NO_MEMORY) {
        return End::Told;
    }
    End::Other
}

/// Returns the status of that script over a keeper of an archive, and the output.
fn played(alloc: Global, engine: Engine<MemDisk>) -> Option<(u8, MemSink)> {
    let Ok(events) = script(alloc, THREE_PIECES) else {
        return None;
    };
    let mut sink = MemSink::new(alloc, Numbers::new(alloc));
    let status = play_script(alloc, engine, events, &mut sink);
    Some((status.code(), sink))
}

/// Makes an archive on a disk of which one call fails, by its ordinal from 1.
fn made_over_failing(alloc: Global, ordinal: u64) -> Option<Engine<MemDisk>> {
    let config = settings(1_073_741_824, 2_147_483_647, Form::Sha1)?;
    let disk = MemDisk::new(alloc, numbers(alloc, &[ordinal])?);
    Engine::make(alloc, disk, &config).ok()
}

/// Runs that script over a disk of which one call fails, and returns how it ends.
fn end_over_failing(alloc: Global, ordinal: u64) -> End {
    match made_over_failing(alloc, ordinal) {
        None => End::NotMade,
        Some(engine) => match played(alloc, engine) {
            None => End::Other,
            Some((status, sink)) => end_of(status, sink.taken()),
        },
    }
}

#[test]
fn a_script_is_played_on_over_a_disk_that_fails(rt: HostRuntime) {
    let mut told = false;
    let mut whole = false;
    for ordinal in 1..120 {
        match end_over_failing(rt.alloc(), ordinal) {
            End::NotMade => {}
            End::Whole => whole = true,
            End::Told => told = true,
            End::Other => assert!(rt; false),
        }
    }
    assert!(rt; told && whole);
}
