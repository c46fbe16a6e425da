//! What the doors of mail protocols share over a shelf: mailboxes, live numbers, and replies.
//! Pure.
//!
//! Here are also where a streamed reply of any door stops, and the refusals.
#![tactic(auto)]

mod mailbox;
mod numbers;
mod refusals;
mod streamed;
mod turn;

pub use mailbox::{MailboxRange, mailbox_named, mailbox_range};
pub use numbers::{live_after, live_before, live_within};
pub use refusals::{say_memory, say_refusal, say_unopened, say_unread};
pub use streamed::StreamStop;
pub use turn::went;
