//! Laws of files that stand for archives.
//! Pure.
ghost use Rattle.epoch_store.specs.Laws.{RecoversOne, RecoversSomeOne, CachesOne, OpenedStands, StoreRecovers, ExactRecovers};

use epoch_file::law_of_epochs;
use number_map::law_of_records;
use root_slots::law_of_spellings;
use store_finding::law_of_opening;

/// Shows that files stand for at most one archive, and never both for an archive and for none.
///
/// They stand for an archive with at most one cache.
pub fn law_of_recovery()
    ensures one { RecoversOne }
    ensures some_one { RecoversSomeOne }
    ensures caches { CachesOne }
{
    law_of_spellings();
    law_of_records();
    law_of_epochs();
}

/// Shows that files of which a store is opened stand for an archive that it keeps.
///
/// Of a cache that their root names they have the bytes that are there, however few.
pub fn law_of_opened_files()
    ensures stands { OpenedStands }
{
    law_of_opening();
}

/// Shows that a store's own disk is exactly that of its archive.
///
/// Each crash of it leaves files that stand for the archive.
///
/// Files that are exactly an archive's stand for it.
#[tactic(auto, using(crate::proofs::Unique::store_recovers, crate::proofs::Unique::exact_recovers))]
pub fn law_of_stores()
    ensures recovers { StoreRecovers }
    ensures exact { ExactRecovers }
{}
