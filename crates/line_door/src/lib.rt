//! What all doors of lines share: a session's acts and courses, and the line at its front.
//! Pure.
//!
//! Here are also the laws of cutting its bytes into pieces, and the lifting of a session to one of
//! many.
#![tactic(auto)]

mod held;
mod laws;
mod line;
mod part;
mod skipping;
mod turn;

pub use held::HeldLine;
pub use laws::{
    calls_law, clipped_law, cut_law, lifting_law, line_cost_law, line_law, pieces_law, plain_law,
    reader_law, skipping_law, update_law,
};
pub use line::{Ahead, line_content, next_in};
pub use part::HeldPart;
pub use skipping::{Passage, next_passing};
pub use turn::LineAct;
