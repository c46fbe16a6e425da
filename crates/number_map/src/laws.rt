//! Laws of records, which other crates cite.
//! Pure.
ghost use Rattle.number_map.specs.Laws.{RecordsDiffer, RecordsAreOne, DamageIsOne, ReadOrDamaged};

/// Valid records with the same bytes are equal, and reading a map has one result.
///
/// The result is the map's records up to a number, or the offset where it is damaged.
#[tactic(auto, using(crate::proofs::Apart::records_differ, crate::proofs::Apart::records_are_one))]
pub fn law_of_records()
    ensures differ { RecordsDiffer }
    ensures records { RecordsAreOne }
    ensures damage { DamageIsOne }
    ensures either { ReadOrDamaged }
{}
