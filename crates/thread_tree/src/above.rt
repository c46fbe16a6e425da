//! What each node stands under, by its index.
//! Allocates.
ghost use Rattle.std.specs.Prelude.{◌≡◌, Some, IfOk, OnErr, OnOk, if◌then◌else◌, ℕ, List};
ghost use Rattle.std.specs.Str.{bytes_eq};
ghost use Rattle.thread_tree.specs.Facts.{at_id, kept_up};
ghost use Rattle.thread_tree.specs.Nodes.{AreClosed, AreUps, HaveNodeIds, IsNodeIndex, index_bound, nodes_in};

use crate::facts::Facts;
use crate::nodes::PlainNode;
use arch_base::NoMemory;
use std::alloc::Global;
use std::collections::BTreeMap;

/// Indices by ids.
pub(crate) type IdIndex = BTreeMap<Vec<u8>, usize>;

/// Puts the index of an id into an index.
///
/// `NoMemory` leaves the index unchanged.
pub(crate) fn put_index(
    alloc: Global,
    index: &mut IdIndex,
    id: &[u8],
    i: usize,
) -> Result<(), NoMemory>
    ensures ok { OnOk result ((q : List ℕ) → at_id index.new q ≡ (if bytes_eq q id.now then Some i
        else at_id index.old q)) }
    ensures err { OnErr result (index.new.entries ≡ index.old.entries) }
{
    let key = id.to_vec(alloc)?;
    index.insert(key, i)?;
    Ok(())
}

/// Returns the indices of nodes by their ids.
fn index_of(alloc: Global, nodes: &[PlainNode]) -> Result<IdIndex, NoMemory>
    requires { HaveNodeIds (nodes_in nodes.now) }
    ensures { IfOk result (IsNodeIndex (nodes_in nodes.now)) }
{
    let mut index = BTreeMap::new(alloc);
    for i in 0..nodes.len() {
        put_index(alloc, &mut index, nodes[i].2.as_slice(), i)?;
    }
    Ok(index)
}

/// Returns the index of what an id stands under.
fn up_of(facts: &Facts, index: &IdIndex, id: &[u8]) -> Option<usize>
    ensures { result ≡ index_bound index.now (kept_up facts.now id.now) }
{
    let up = facts.up(id)?;
    index.get(up).copied()
}

/// Returns, of each node, the index of the one that it stands under.
pub(crate) fn ups_of(
    alloc: Global,
    facts: &Facts,
    nodes: &[PlainNode],
) -> Result<Vec<Option<usize>>, NoMemory>
    requires ids { HaveNodeIds (nodes_in nodes.now) }
    requires closed { AreClosed facts.now (nodes_in nodes.now) }
    ensures { IfOk result (λ ups. AreUps (kept_up facts.now) (nodes_in nodes.now) ups.items) }
{
    let index = index_of(alloc, nodes)?;
    let mut ups = Vec::new(alloc);
    for node in nodes {
        ups.push(up_of(facts, &index, node.2.as_slice()))?;
    }
    Ok(ups)
}
