//! The words of IMAP's commands: a cursor over their octets, numbers, texts and lists of words.
//! Allocates.
#![tactic(auto)]

mod cursor;
mod kinds;
mod numbers;
mod stop;
mod strings;
mod words;

pub use cursor::Cursor;
pub use kinds::Kind;
pub use numbers::{read_day, read_nz_number};
pub use stop::Stop;
pub use words::{is_keyword, split};
