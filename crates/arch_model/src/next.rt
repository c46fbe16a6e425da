//! Whether a session continues.
//! Pure.
ghost use Rattle.std.specs.Prelude.{◌≡◌, is_ok};
ghost use Rattle.arch_model.specs.Next.{continues};

/// Whether a session continues.
#[derive(Clone, Copy, Debug, PartialEq, Eq, Drop)]
pub enum Next {
    /// The session continues.
    Go,
    /// The session is closed.
    Close,
}

impl Next {
    /// Continues after a call that succeeded, and closes after one that failed.
    pub fn after<E: Drop>(done: Result<(), E>) -> Next
        ensures { continues result ≡ is_ok done }
    {
        match done {
            Ok(()) => Next::Go,
            Err(_failed) => Next::Close,
        }
    }
}
