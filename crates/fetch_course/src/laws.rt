//! The laws of a fetch.
//! Pure.
ghost use Rattle.fetch_course.specs.Laws.{AsksOnce, HoldsFollowers, HoldsOnlyTheSource, HoldsTheList, HoldsTheSource, NeedsNoMore};

use archive_laws::kept_numbers_follow;
use mirror_wire::law_of_lists;

/// Shows where the rules of a fetch lead.
///
/// If all lines of a list are right, the archive has just these lines. If the list is valid, has the
/// mirror's name, isn't behind and renames no message, the archive is valid and follows the mirror. From a
/// source that holds still, and that the mirror may become, a fetch leads to the source's entries. From a
/// source that changes meanwhile it leads to those of the listed archive, or to none. Replies that are not
/// needed change nothing, and no path is asked for twice.
pub fn law_of_fetches()
    ensures list { HoldsTheList }
    ensures follower { HoldsFollowers }
    ensures no_more { NeedsNoMore }
    ensures source { HoldsTheSource }
    ensures only { HoldsOnlyTheSource }
    ensures once { AsksOnce }
{
    kept_numbers_follow();
    law_of_lists();
}
