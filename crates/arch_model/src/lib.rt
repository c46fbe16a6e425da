//! The archive as definitions state it, its commands and answers, and its shelves and keepers.
//! Writes the disk; syncs.
#![tactic(auto)]

mod answer;
mod choice;
mod command;
mod keep;
mod laws;
mod line;
mod next;
mod opening;
mod shelf;
mod text_refusal;
mod walked;

pub use answer::Answer;
pub use choice::{Choice, Meeting};
pub use command::Command;
pub use keep::Keep;
pub use laws::{
    delivered_is_shown, edits_are_whole, epoch_grows, first_candidate_decides, law_of_commands,
    law_of_numbers, law_of_taken_texts, numbers_keep_their_texts, numbers_stay_below_the_next,
    reindex_keeps_the_archive,
};
pub use line::EntryLine;
pub use mail_commits::{EntryIds, EntryText, entry_commit, push_entry};
pub use mail_forms::Row;
pub use next::Next;
pub use opening::OpenRefusal;
pub use query_lang::Query;
pub use shelf::{Shelf, is_live};
pub use text_refusal::TextRefusal;
pub use walked::Walked;
