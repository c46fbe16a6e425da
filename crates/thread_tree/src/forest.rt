//! The lists under each node, and a walk over them without recursion.
//! Allocates.
ghost use Rattle.std.specs.Prelude.{◌≡◌, ◌≤◌, ◌++◌, length, IfOk, OnOk};
ghost use Rattle.thread_tree.specs.Nodes.{AreEmpty, AreUnder, IsForest, IsListedUnder, WalksNodes, stacked, under_at};

use arch_base::NoMemory;
use std::alloc::Global;

/// Puts an index into the list of the one above it, unless it is a root.
fn place(
    lists: &mut Vec<Vec<usize>>,
    up: Option<usize>,
    root: bool,
    i: usize,
) -> Result<(), NoMemory>
    ensures { OnOk result (IsListedUnder lists.old.items lists.new.items up root i) }
{
    if root {
        return Ok(());
    }
    let Some(p) = up else {
        return Ok(());
    };
    let Some(list) = lists.get_mut(p) else {
        return Ok(());
    };
    list.push(i)?;
    Ok(())
}

/// Returns so many empty lists.
fn empty_lists(alloc: Global, count: usize) -> Result<Vec<Vec<usize>>, NoMemory>
    ensures { IfOk result (λ lists. AreEmpty lists.items count) }
{
    let mut lists = Vec::new(alloc);
    let mut made = 0;
    while made < count {
        lists.push(Vec::new(alloc))?;
        made += 1;
    }
    Ok(lists)
}

/// Returns the indices under each index, in order.
pub(crate) fn under_lists(
    alloc: Global,
    ups: &[Option<usize>],
    flags: &[bool],
) -> Result<Vec<Vec<usize>>, NoMemory>
    requires { length flags.now ≡ length ups.now }
    ensures { IfOk result (λ lists. AreUnder ups.now flags.now lists.items (length ups.now)) }
{
    let mut lists = empty_lists(alloc, ups.len())?;
    for i in 0..ups.len() {
        place(&mut lists, ups[i], flags[i], i)?;
    }
    Ok(lists)
}

/// Returns the list at an index.
fn list_under(lists: &[Vec<usize>], p: usize) -> &[usize]
    ensures { result.now ≡ under_at lists.now p }
{
    match lists.get(p) {
        Some(list) => list.as_slice(),
        None => &[],
    }
}

/// Puts indices of one depth on a stack, the first on top.
fn push_all(stack: &mut Vec<(u64, usize)>, depth: u64, indices: &[usize]) -> Result<(), NoMemory>
    ensures { OnOk result (stack.new.items ≡ stack.old.items ++ stacked depth indices.now) }
{
    let mut i = indices.len();
    while i > 0 {
        i -= 1;
        stack.push((depth, indices[i]))?;
    }
    Ok(())
}

/// Returns the indices of trees with their depths, each before those under it.
pub(crate) fn preorder(
    alloc: Global,
    under: &[Vec<usize>],
    roots: &[usize],
) -> Result<Vec<(u64, usize)>, NoMemory>
    requires { IsForest (under_at under.now) roots.now (length under.now) }
    ensures walks { IfOk result (λ lines. WalksNodes (under_at under.now) 0 roots.now lines.items) }
    ensures few { IfOk result (λ lines. length lines.items ≤ length under.now) }
{
    let mut lines = Vec::new(alloc);
    let mut stack = Vec::new(alloc);
    push_all(&mut stack, 0, roots)?;
    while let Some((depth, i)) = stack.pop() {
        lines.push((depth, i))?;
        push_all(&mut stack, depth + 1, list_under(under, i))?;
    }
    Ok(lines)
}
