//! The laws of what clients are told.
//! Pure.
ghost use Rattle.known_uids.specs.Laws.{ToldTwice, ToldIsFollowed};
ghost use Rattle.known_uids.specs.Staying.{CommandsKeepGone, GoneStayItself, GoneStayThrough, SuitsLater, SuitsTold};

/// Shows that a client that was told of all that is there is told nothing.
pub fn told_twice()
    ensures { ToldTwice }
{}

/// Shows that a client that follows each EXPUNGE in order, and then takes in the new UIDs, has those
/// that are there.
pub fn told_is_followed()
    ensures { ToldIsFollowed }
{}

/// Shows that no command brings a number back that was gone before it.
///
/// So the archive of which a client was told, and each one after it, suits what the client knows, and
/// the list can be asked by counts alone.
pub fn gone_stay()
    ensures commands { CommandsKeepGone }
    ensures itself { GoneStayItself }
    ensures through { GoneStayThrough }
    ensures suits { SuitsLater }
    ensures told { SuitsTold }
{}
