//! What an act of a session of lines does with the bytes of a piece.
//! Pure.
/// The result of one act on the bytes at the front.
#[derive(Clone, Copy, Debug, PartialEq, Eq, Drop)]
pub enum LineAct {
    /// A line that took this many bytes of the piece was answered, and the session continues.
    Went(usize),
    /// The piece was kept.
    Kept,
    /// The session is closed.
    Closed,
}
