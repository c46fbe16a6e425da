//! What a delivery does to an archive, decided by an index of its messages before it is kept.
//! Allocates.
#![tactic(auto)]

mod index;
mod judging;
mod made;

pub use index::{Index, Owner};
pub use judging::{Judgement, Verdict, compared, judge};
