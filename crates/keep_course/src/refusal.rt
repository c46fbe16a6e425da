//! Why a connection is refused: where it has no session to speak for it, or no open archive.
//! Pure.
use arch_model::OpenRefusal;

/// Why a door refuses a connection.
#[derive(Debug, Drop)]
pub enum Refusal {
    /// As many sessions are open as there may be.
    Busy,
    /// Memory ran out for a session.
    NoMemory,
    /// The archive was not opened.
    Unopened(OpenRefusal),
}
