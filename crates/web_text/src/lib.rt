//! Text of mails in pages and feeds: no byte of a mail is read as markup or as an address.
//! Allocates.
#![tactic(auto)]

mod addresses;
mod escapes;
mod moments;

pub use addresses::push_address;
pub use escapes::{push_escaped, push_title};
pub use moments::{push_moment, push_page_moment};
