//! Laws of the bytes of roots, which other crates cite.
//! Pure.
ghost use Rattle.root_slots.specs.Laws.{SpellingsDiffer, SpellingsFill};

/// Each root has bytes of its own, 1,536 of them.
#[tactic(auto, using(crate::proofs::Apart::spellings_differ, crate::proofs::Apart::spellings_fill))]
pub fn law_of_spellings()
    ensures differ { SpellingsDiffer }
    ensures fill { SpellingsFill }
{}
