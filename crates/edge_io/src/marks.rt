//! What the connections had taken when an event began.
//! Allocates.
ghost use Rattle.std.specs.Prelude.{◌≡◌, ◌≤◌, ◌<◌, ℕ, length, IfOk};
ghost use Rattle.edge_io.specs.Frames.{bytes_or_none, count_or_0};
ghost use Rattle.edge_io.specs.MemHosts.{outputs_in};
ghost use Rattle.edge_io.specs.ScriptHosts.{AreMarked, IsAtMark, IsOutside, mark_at};

use crate::outlets::{CONNECTIONS, Outlets};
use arch_base::NoMemory;
use std::alloc::Global;

/// How many bytes a connection had taken, and how often it was closed.
#[derive(Clone, Copy, Debug, Drop)]
pub struct Mark {
    pub len: usize,
    pub closings: u64,
}

/// The connections from `first` on to before `after`, of which some took bytes or were closed.
#[derive(Clone, Copy, Debug, Drop)]
pub struct Touched {
    pub first: u32,
    pub after: u32,
}

impl Touched {
    /// Returns the value for no connection.
    pub(crate) fn none() -> Touched
        ensures { result.after ≡ 0 }
    {
        Touched { first: 0, after: 0 }
    }

    /// Adds a connection, if it is below 65,536.
    pub(crate) fn add(&mut self, conn: u32)
        requires { self.old.after ≤ 65536 }
        ensures bounded { self.new.after ≤ 65536 }
        ensures inside { IsOutside self.new conn → 65536 ≤ conn }
        ensures others { (other : ℕ) → IsOutside self.new other → IsOutside self.old other }
    {
        if conn >= CONNECTIONS as u32 {
            return;
        }
        if self.first >= self.after {
            self.first = conn;
            self.after = conn + 1;
        } else {
            self.first = self.first.min(conn);
            self.after = self.after.max(conn + 1);
        }
    }
}

/// Returns the marks of connections that took nothing.
pub(crate) fn new_marks(alloc: Global) -> Result<Vec<Mark>, NoMemory>
    ensures len { IfOk result (λ made. length made.items ≡ 65536) }
    ensures zero { IfOk result (λ made. (conn : ℕ)
        → mark_at made.items conn ≡ record { len = 0; closings = 0 }) }
{
    zero_marks(alloc, CONNECTIONS)
}

/// Returns so many marks of connections that took nothing.
fn zero_marks(alloc: Global, count: usize) -> Result<Vec<Mark>, NoMemory>
    ensures len { IfOk result (λ made. length made.items ≡ count) }
    ensures zero { IfOk result (λ made. (conn : ℕ)
        → mark_at made.items conn ≡ record { len = 0; closings = 0 }) }
{
    let mark = Mark {
        len: 0,
        closings: 0,
    };
    Ok(vec![in alloc; mark; count]?)
}

/// Marks what each of some connections has taken, so that all are at their marks.
pub(crate) fn mark_all(marks: &mut Vec<Mark>, outlets: &Outlets, touched: Touched)
    requires { AreMarked (outputs_in outlets.now) marks.old.items touched }
    ensures len { length marks.new.items ≡ 65536 }
    ensures each { (conn : ℕ) → conn < 65536
        → IsAtMark (outputs_in outlets.now) marks.new.items conn }
    ensures within { (conn : ℕ) → conn < 65536 → (mark_at marks.new.items conn).len
        ≤ length (bytes_or_none ((outputs_in outlets.now).taken conn)) }
{
    for conn in touched.first..touched.after {
        marks[conn as usize] = mark_of(outlets, conn);
    }
}

/// Returns the mark of what a connection has taken.
fn mark_of(outlets: &Outlets, conn: u32) -> Mark
    ensures len { result.len ≡ length (bytes_or_none ((outputs_in outlets.now).taken conn)) }
    ensures closings { result.closings ≡ count_or_0 ((outputs_in outlets.now).closings conn) }
{
    Mark {
        len: outlets.taken(conn).len(),
        closings: outlets.closings(conn),
    }
}
