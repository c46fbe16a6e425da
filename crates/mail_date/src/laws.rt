//! Laws of the definitions that the contracts cite.
//! Pure.
//!
//! Each function does nothing: its contract is the law.
ghost use Rattle.mail_date.specs.Laws.{SpelledMomentIsOne, PrintedDateIsOne, WrittenDateIsSpelled, MomentIsSpelled};

/// Shows that a value spells at most one moment.
pub fn spelled_moment_is_one()
    ensures { SpelledMomentIsOne }
{}

/// Shows that a clock in a moment's zone shows one date.
pub fn printed_date_is_one()
    ensures { PrintedDateIsOne }
{}

/// Shows that a Date that is written for a moment spells that moment.
pub fn written_date_is_spelled()
    ensures { WrittenDateIsSpelled }
{}

/// Shows that the moment in a text is the one that it spells, and that there is none if it spells
/// none.
pub fn moment_is_spelled()
    ensures { MomentIsSpelled }
{}
