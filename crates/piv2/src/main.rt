//! `piv2`, a mailing list archive: the words of the command line say what it does.
//! Calls the system.
#![tactic(auto)]

mod arguments;
mod telling;

use archive_cli::{Status, print_no_memory};
use arguments::run_arguments;
use real_edges::{FolderDisk, Output, Progress, StdSink, StdSource, SystemClock};
use std::env;
use std::process::ExitCode;
use telling::tell_cause;

/// The folder that keeps the archive, in the current one.
const FOLDER: &str = "piv2-store";

/// Does what the words of the command line ask for, over the folder, sockets, the standard input and
/// output, and the system's clock, and ends with its status.
///
/// A line on standard error says what standard output doesn't: the first failure of the disk, as soon
/// as it comes; which of sockets, input, clock and output failed; how serving ended; what to ask where
/// the words aren't read.
fn main(rt: HostRuntime) -> ExitCode {
    let alloc = rt.alloc();
    let progress = Progress::new(&rt);
    let Ok(mut output) = StdSink::new(Output::new(&rt, &progress), alloc) else {
        progress.say("out of memory");
        return ExitCode::from(Status::Memory.code());
    };
    let Ok(mut input) = StdSource::new(&rt, alloc) else {
        return ExitCode::from(print_no_memory(&mut output).code());
    };
    let Ok(mut clock) = SystemClock::new(&rt, alloc) else {
        return ExitCode::from(print_no_memory(&mut output).code());
    };
    let Ok(disk) = FolderDisk::open_telling(&rt, alloc, FOLDER, &progress) else {
        return ExitCode::from(print_no_memory(&mut output).code());
    };
    let (code, told) = run_arguments(
        &rt,
        &progress,
        env::args(&rt),
        disk,
        &mut input,
        &mut output,
        &mut clock,
    );
    if code == Status::NotRead.code() {
        progress.say("`piv2 --help` has the commands");
    }
    if code == Status::Edges.code() {
        let input = tell_cause(&progress, "standard input: ", input.cause(alloc));
        let clock = tell_cause(&progress, "clock: ", clock.cause(alloc));
        let output = tell_cause(&progress, "standard output: ", output.cause(alloc));
        if !(told || input || clock || output) {
            progress.say("the input, the clock, the output or the sockets failed");
        }
    }
    ExitCode::from(code)
}
