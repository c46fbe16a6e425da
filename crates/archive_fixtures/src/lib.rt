//! What tests of archives and of doors share, without a test: archives in memory and on disks in
//! memory, checks of both kinds, and a keeper that fails as a test says.
#![tactic(auto)]

mod alike;
mod answers;
mod archives;
mod both;
mod failing_keep;
mod memory;

pub use alike::are_alike;
pub use answers::{damage, is_ok};
pub use archives::{
    LAST, UNCHANGED_ID, accepted, answer, blob_is, epoch_len, give_alike, has_both, is_entry,
    is_entry_of, line, live_from, made, on_disk, opened, put_blob, put_epoch, put_text, text_is,
};
pub use both::{Check, both_pass, opened_passes};
pub use failing_keep::{Failing, FailingKeep, Unread};
pub use memory::{in_memory, is_epoch_of, two_in_memory};
