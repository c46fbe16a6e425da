//! What the program says on standard error of how it ended.
//! Calls the system.
use arch_base::NoMemory;
use archive_cli::{Job, Status};
use real_edges::Progress;
use std::fmt::{self, Display};
use std::io::IsTerminal;

/// Says that a terminal is to give what words read from the standard input, if it is one.
pub(crate) fn tell_start(rt: &HostRuntime, progress: &Progress, job: &Option<Job>) {
    if !rt.stdin().is_terminal() {
        return;
    }
    match job {
        Some(Job::Deliver | Job::Edit { .. }) => progress.say("type the message, and then Ctrl-D"),
        Some(Job::Replay { .. }) => progress.say("type the script, and then Ctrl-D"),
        _ => {}
    }
}

/// Says why an edge failed, if it did, and returns whether it did.
pub(crate) fn tell_cause(
    progress: &Progress,
    edge: &str,
    cause: Result<Option<String>, NoMemory>,
) -> bool {
    match cause {
        Ok(None) => return false,
        Ok(Some(words)) => progress.say(format_args!("{edge}{words}")),
        Err(NoMemory) => progress.say(format_args!(
            "{edge}there is no memory to say why it failed"
        )),
    }
    true
}

/// Says how serving ended, where standard output has no word of it.
pub(crate) fn tell_end(progress: &Progress, turns: u64, code: u8) {
    if code == Status::Done.code() {
        progress.say("the input ended; serving ended");
    } else if code == Status::Spent.code() {
        progress.say(Served(turns));
    }
}

/// A number of events that were served, which was allowed.
#[derive(Clone, Copy, Drop)]
struct Served(u64);

impl Display for Served {
    fn fmt<W: fmt::Write>(&self, f: &mut fmt::Formatter<W>) -> fmt::Result {
        let count = self.0;
        let words = if count == 1 {
            "event was"
        } else {
            "events were"
        };
        write!(f, "{count} {words} served, as many as turns= allows")
    }
}
