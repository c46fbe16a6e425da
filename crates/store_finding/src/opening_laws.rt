//! Laws of files that are opened.
//! Pure.
ghost use Rattle.store_finding.specs.Openings.{OpenedRecovers, OpenedUndamaged, RecoversMap, RecoversOpened, RecoversUndamaged};

use epoch_file::{law_of_entries, law_of_epochs};
use number_map::law_of_records;

/// Shows that files are opened with entries exactly if they stand for the archive with these.
///
/// Such files have no damage.
pub fn law_of_opening()
    ensures recovers { OpenedRecovers }
    ensures opened { RecoversOpened }
    ensures undamaged { OpenedUndamaged }
{
    law_of_records();
    law_of_epochs();
    law_of_entries();
}

/// Shows that files that stand for an archive have its map, and no damage.
pub fn law_of_undamaged_files()
    ensures map { RecoversMap }
    ensures undamaged { RecoversUndamaged }
{
    law_of_records();
    law_of_epochs();
    law_of_entries();
}
