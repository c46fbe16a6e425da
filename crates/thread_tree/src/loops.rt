//! Roots: what stands under nothing, or on a loop.
//! Allocates.
//!
//! Loops are found by doubling a step until it is as long as there are nodes.
ghost use Rattle.std.specs.Prelude.{◌≡◌, ◌++◌, ◌∷◌, [], map, length, IfOk, OnOk, is_none, if◌then◌else◌};
ghost use Rattle.std.specs.List.{filter};
ghost use Rattle.thread_tree.specs.Nodes.{AreFar, AreRoots, AreTwice, IsMarked, StaysIn, count_up, flag_at, step_by};

use arch_base::NoMemory;
use std::alloc::Global;

/// Returns where a jump leads from an index that may be there.
fn follow(jumps: &[Option<usize>], from: Option<usize>) -> Option<usize>
    ensures { result ≡ step_by jumps.now from }
{
    let from = from?;
    let jump = jumps.get(from)?;
    *jump
}

/// Returns the jumps that are two jumps long.
fn twice(alloc: Global, jumps: &[Option<usize>]) -> Result<Vec<Option<usize>>, NoMemory>
    ensures { IfOk result (λ next. AreTwice jumps.now next.items) }
{
    let mut next = Vec::new(alloc);
    for jump in jumps {
        next.push(follow(jumps, *jump))?;
    }
    Ok(next)
}

/// Returns where at least as many steps lead as there are indices.
fn far_of(alloc: Global, ups: &[Option<usize>]) -> Result<Vec<Option<usize>>, NoMemory>
    requires { StaysIn ups.now }
    ensures { IfOk result (λ far. AreFar ups.now far.items) }
{
    let mut jumps = Vec::new(alloc);
    jumps.extend_from_slice(ups)?;
    let mut length = 1;
    while length < ups.len() {
        jumps = twice(alloc, jumps.as_slice())?;
        length *= 2;
    }
    Ok(jumps)
}

/// Marks an index that may be there.
fn mark(flags: &mut Vec<bool>, to: Option<usize>)
    ensures { IsMarked flags.old.items flags.new.items to }
{
    let Some(i) = to else {
        return;
    };
    let Some(flag) = flags.get_mut(i) else {
        return;
    };
    *flag = true;
}

/// Returns flags of what has nothing above it.
fn top_flags(alloc: Global, ups: &[Option<usize>]) -> Result<Vec<bool>, NoMemory>
    ensures { IfOk result (λ flags. flags.items ≡ map is_none ups.now) }
{
    let mut flags = Vec::new(alloc);
    for up in ups {
        flags.push(up.is_none())?;
    }
    Ok(flags)
}

/// Returns flags of the roots.
pub(crate) fn root_flags(alloc: Global, ups: &[Option<usize>]) -> Result<Vec<bool>, NoMemory>
    requires { StaysIn ups.now }
    ensures { IfOk result (λ flags. AreRoots ups.now flags.items) }
{
    let far = far_of(alloc, ups)?;
    let mut flags = top_flags(alloc, ups)?;
    for to in far.as_slice() {
        mark(&mut flags, *to);
    }
    Ok(flags)
}

/// Appends an index that is flagged.
fn push_root(roots: &mut Vec<usize>, flag: bool, i: usize) -> Result<(), NoMemory>
    ensures { OnOk result (roots.new.items ≡ roots.old.items ++ (if flag then i ∷ [] else [])) }
{
    if flag {
        roots.push(i)?;
    }
    Ok(())
}

/// Returns the indices of the roots.
pub(crate) fn roots_of(alloc: Global, flags: &[bool]) -> Result<Vec<usize>, NoMemory>
    ensures { IfOk result (λ roots. roots.items ≡ filter (flag_at flags.now)
        (count_up (length flags.now))) }
{
    let mut roots = Vec::new(alloc);
    for i in 0..flags.len() {
        push_root(&mut roots, flags[i], i)?;
    }
    Ok(roots)
}
