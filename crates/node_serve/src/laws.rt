//! The laws of the count of open sessions, of the plain function, of updates, and of what clients know.
//! Pure.
ghost use Rattle.node_serve.specs.Laws.{CountsOpen, GoOnSuiting, PlainLaws, UpdatesOnce};

use arch_model::law_of_commands;
use imap_session::door_laws;
use known_uids::gone_stay;

/// Shows that the count of a world stays the number of connections that have an open session.
pub fn count_law()
    ensures { CountsOpen }
{}

/// Shows that the plain function of events is one of the ways in which they may be served: the only
/// one whose acts all go by the rules, with all their words taken.
pub fn plain_law()
    ensures { PlainLaws }
{}

/// Shows that after its update a session that idles has nothing more to be told, and that where none
/// has, doing nothing is giving each its update.
pub fn update_law()
    ensures { UpdatesOnce }
{
    door_laws();
}

/// Shows that the archive goes on suiting what clients of IMAP know, in each act and update of events.
pub fn suiting_law()
    ensures { GoOnSuiting }
{
    law_of_commands();
    gone_stay();
    door_laws();
}
