//! The nodes of a tree in order, and its lines.
//! Allocates.
ghost use Rattle.std.specs.Prelude.{◌≡◌, ◌<◌, ℕ, map, length, IfOk, OnOk, if◌then◌else◌};
ghost use Rattle.std.specs.List.{filter};
ghost use Rattle.std.specs.BTreeSet.{insert_key};
ghost use Rattle.thread_model.specs.Members.{Among};
ghost use Rattle.thread_tree.specs.Facts.{AreFacts, kept_ghost, kept_is_ghost};
ghost use Rattle.thread_tree.specs.Nodes.{HaveNodeIds, kept_line, node_at, node_in, nodes_in};
ghost use Rattle.thread_tree.specs.Trees.{HaveOwnIds, live_node, node_cmp, nodes, put_nodes};

use crate::facts::Facts;
use crate::lines::{Line, Lines, Who};
use crate::twigs::Twig;
use arch_base::{Bytes, NoMemory};
use std::alloc::Global;
use std::collections::BTreeSet;

/// A node: its date's seconds, its number, and its id. In this order it stands among its brothers.
pub(crate) type PlainNode = (u64, u32, Vec<u8>);

/// Nodes in order.
type NodeSet = BTreeSet<PlainNode>;

/// Puts the node of a message at its place.
fn put_live(alloc: Global, nodes: &mut NodeSet, twig: &Twig) -> Result<(), NoMemory>
    ensures { OnOk result (nodes_in nodes.new.keys ≡ insert_key node_cmp (nodes_in nodes.old.keys)
        (live_node twig.now)) }
{
    let id = twig.id.as_slice().to_vec(alloc)?;
    nodes.insert((twig.secs, twig.number, id))?;
    Ok(())
}

/// Puts the nodes of messages at their places.
fn put_all_live(alloc: Global, nodes: &mut NodeSet, twigs: &[Twig]) -> Result<(), NoMemory>
    ensures { OnOk result (nodes_in nodes.new.keys ≡ put_nodes (nodes_in nodes.old.keys)
        (map live_node twigs.now)) }
{
    for twig in twigs {
        put_live(alloc, nodes, twig)?;
    }
    Ok(())
}

/// Puts the node of a reference at its place, if it is a ghost.
fn put_ghost(alloc: Global, nodes: &mut NodeSet, facts: &Facts, id: &[u8]) -> Result<(), NoMemory>
    ensures { OnOk result (nodes_in nodes.new.keys ≡ (if kept_is_ghost facts.now id.now then
        insert_key node_cmp (nodes_in nodes.old.keys) (kept_ghost facts.now id.now) else nodes_in
        nodes.old.keys)) }
{
    if !facts.is_ghost(id) {
        return Ok(());
    }
    let node = facts.ghost_of(alloc, id)?;
    nodes.insert(node)?;
    Ok(())
}

/// Puts the nodes of the ghosts among references at their places.
fn put_ghosts(
    alloc: Global,
    nodes: &mut NodeSet,
    facts: &Facts,
    refs: &[Bytes],
) -> Result<(), NoMemory>
    ensures { OnOk result (nodes_in nodes.new.keys ≡ put_nodes (nodes_in nodes.old.keys)
        (map (kept_ghost facts.now) (filter (kept_is_ghost facts.now) refs.now))) }
{
    for id in refs {
        put_ghost(alloc, nodes, facts, id.as_slice())?;
    }
    Ok(())
}

/// Returns the nodes of a set.
fn listed(alloc: Global, mut nodes: NodeSet) -> Result<Vec<PlainNode>, NoMemory>
    ensures { IfOk result (λ list. list.items ≡ nodes.keys) }
{
    let mut list = Vec::new(alloc);
    while let Some(node) = nodes.pop_first() {
        list.push(node)?;
    }
    Ok(list)
}

/// Returns the nodes of messages and of their ghosts, in order.
pub(crate) fn nodes_of(
    alloc: Global,
    twigs: &[Twig],
    facts: &Facts,
) -> Result<Vec<PlainNode>, NoMemory>
    requires own { HaveOwnIds twigs.now }
    requires facts { AreFacts twigs.now facts.now }
    ensures nodes { IfOk result (λ list. nodes_in list.items ≡ nodes twigs.now) }
    ensures ids { IfOk result (λ list. HaveNodeIds (nodes_in list.items)) }
{
    let mut nodes = BTreeSet::new(alloc);
    put_all_live(alloc, &mut nodes, twigs)?;
    for twig in twigs {
        put_ghosts(alloc, &mut nodes, facts, twig.refs.as_slice())?;
    }
    let _count = nodes.len();
    listed(alloc, nodes)
}

/// Returns the line of a node at a depth.
fn line_of(facts: &Facts, depth: u64, node: &PlainNode) -> Result<Line, NoMemory>
    ensures { IfOk result (λ line. line ≡ kept_line facts.now depth (node_in node.now)) }
{
    let who = if facts.is_ghost(node.2.as_slice()) {
        let mut id = Bytes::new(*node.2.allocator());
        id.push_slice(node.2.as_slice())?;
        Who::Ghost(id)
    } else {
        Who::Live(node.1)
    };
    Ok(Line { depth, who })
}

/// Returns the line of the node at an index.
fn line_at(facts: &Facts, depth: u64, nodes: &[PlainNode], index: usize) -> Result<Line, NoMemory>
    requires { index < length nodes.now }
    ensures { IfOk result (λ line. line ≡ kept_line facts.now depth (node_at (nodes_in nodes.now)
        index)) }
{
    line_of(facts, depth, &nodes[index])
}

/// Returns the lines of nodes at depths, by their indices.
pub(crate) fn lines_of(
    alloc: Global,
    facts: &Facts,
    nodes: &[PlainNode],
    walked: &[(u64, usize)],
) -> Result<Lines, NoMemory>
    requires { (x : ℕ × ℕ) → Among walked.now x → x.1 < length nodes.now }
    ensures { IfOk result (λ lines. lines ≡ map (λ (x : ℕ × ℕ). kept_line facts.now x.0
        (node_at (nodes_in nodes.now) x.1)) walked.now) }
{
    let mut lines = Lines::new(alloc);
    for (depth, index) in walked {
        lines.push(line_at(facts, *depth, nodes, *index)?)?;
    }
    Ok(lines)
}
