//! What an act of a session of lines did, by whether the session continues.
//! Pure.
ghost use Rattle.std.specs.Prelude.{◌≡◌, if◌then◌else◌};
ghost use Rattle.arch_model.specs.Next.{continues};

use arch_model::Next;
use line_door::LineAct;

/// Continues after a line that took `taken` bytes of the piece, or closes.
pub fn went(taken: usize, next: Next) -> LineAct
    ensures { result ≡ (if continues next then LineAct.Went taken else LineAct.Closed) }
{
    match next {
        Next::Go => LineAct::Went(taken),
        Next::Close => LineAct::Closed,
    }
}
