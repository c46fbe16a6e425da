//! The laws of threads.
//! Pure.
ghost use Rattle.thread_model.specs.Laws.{FirstAreReached, ReachedIsLeast, RoundsSuffice, ThreadsAreLinked, ThreadsGoBack, ThreadsGoOn};

/// Shows that as many rounds as there are rows are enough.
pub fn rounds_suffice()
    ensures { RoundsSuffice }
{}

/// Shows that the first keys are reached.
pub fn first_are_reached()
    ensures { FirstAreReached }
{}

/// Shows that nothing more is reached than must be.
pub fn reached_is_least()
    ensures { ReachedIsLeast }
{}

/// Shows that two rows are in one thread exactly where rows join their keys.
pub fn threads_are_linked()
    ensures { ThreadsAreLinked }
{}

/// Shows that being in the thread of a row goes both ways.
pub fn threads_go_back()
    ensures { ThreadsGoBack }
{}

/// Shows that being in the thread of a row goes on from row to row.
pub fn threads_go_on()
    ensures { ThreadsGoOn }
{}
