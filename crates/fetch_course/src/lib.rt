//! The rules of a fetch: what a mirror asks its peer for, what it takes, and what it refuses.
//! Allocates.
//!
//! Knows no disk. `mirror_fetch` goes by these rules.
#![tactic(auto)]

mod answer;
mod asking;
mod checking;
mod laws;
mod numbers;
mod paths;

pub use answer::FetchAnswer;
pub use asking::{ask, ask_text, reply_refused};
pub use checking::text_misfits;
pub use laws::law_of_fetches;
pub use numbers::Numbers;
pub use paths::{blob_path, list_path};
