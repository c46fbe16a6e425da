//! What messages say of ids.
//! Allocates.
//!
//! They say what a message stands under, which message names an id, and which one places it, by
//! what stands before it.
ghost use Rattle.std.specs.Prelude.{◌≡◌, IfOk, OnOk, is_none, ℕ, List};
ghost use Rattle.std.specs.Option.{option_copied, option_map};
ghost use Rattle.thread_tree.specs.Trees.{last_other};
ghost use Rattle.thread_tree.specs.Facts.{NamesAll, NotesAbove, NotesNaming, NotesPlacing, PlacesAll, above_value, at_id, is_lesser, naming_of, placing_at};
ghost use Rattle.thread_tree.specs.declared.facts.Naming.{Naming};

use crate::nodes::PlainNode;
use crate::twigs::Twig;
use arch_base::{Bytes, NoMemory};
use std::alloc::Global;
use std::collections::BTreeMap;

/// What a message stands under.
#[derive(Drop)]
pub(crate) struct Above {
    pub(crate) id: Option<Vec<u8>>,
}

/// The least-numbered message that names an id.
#[derive(Clone, Copy, Drop)]
pub(crate) struct Naming {
    pub(crate) number: u32,
    pub(crate) secs: u64,
}

/// The least-numbered message in which something stands before an id, and what stands there.
#[derive(Drop)]
pub(crate) struct Placing {
    pub(crate) number: u32,
    pub(crate) before: Vec<u8>,
}

/// What messages say of ids.
#[derive(Drop)]
pub(crate) struct Facts {
    /// What each message stands under.
    pub(crate) live: BTreeMap<Vec<u8>, Above>,
    /// Which message names an id.
    pub(crate) naming: BTreeMap<Vec<u8>, Naming>,
    /// Which message places an id.
    pub(crate) placing: BTreeMap<Vec<u8>, Placing>,
}

/// Returns the last reference other than an id.
fn last_other<'a>(refs: &'a [Bytes], id: &[u8]) -> Option<&'a [u8]>
    ensures { option_copied result ≡ last_other refs.now id.now }
{
    let mut i = refs.len();
    while i > 0 {
        i -= 1;
        let found = refs[i].as_slice();
        if found != id {
            return Some(found);
        }
    }
    None
}

/// Returns a copy of an id that may be there.
fn copied(alloc: Global, id: Option<&[u8]>) -> Result<Above, NoMemory>
    ensures { IfOk result (λ above. above_value above ≡ option_copied id.entry) }
{
    let Some(id) = id else {
        return Ok(Above { id: None });
    };
    Ok(Above {
        id: Some(id.to_vec(alloc)?),
    })
}

/// Notes what a message stands under.
fn note_above(
    alloc: Global,
    live: &mut BTreeMap<Vec<u8>, Above>,
    twig: &Twig,
) -> Result<(), NoMemory>
    ensures { OnOk result (NotesAbove live.old live.new twig.now) }
{
    let above = copied(alloc, last_other(twig.refs.as_slice(), twig.id.as_slice()))?;
    let id = twig.id.as_slice().to_vec(alloc)?;
    live.insert(id, above)?;
    Ok(())
}

/// Returns whether a number is less than one that may be there, or none is there.
fn is_lesser(number: u32, kept: Option<u32>) -> bool
    ensures { result ≡ is_lesser number kept }
{
    match kept {
        None => true,
        Some(kept) => number < kept,
    }
}

/// Returns the number of the message that names an id, as it is kept.
fn naming_number(namings: &BTreeMap<Vec<u8>, Naming>, id: &[u8]) -> Option<u32>
    ensures { result ≡ option_map (λ (n : Naming). n.number) (at_id namings.now id.now) }
{
    let naming = namings.get(id)?;
    Some(naming.number)
}

/// Returns the number of the message that places an id, as it is kept.
fn placing_number(placings: &BTreeMap<Vec<u8>, Placing>, id: &[u8]) -> Option<u32>
    ensures { result ≡ option_map (λ (p : ℕ × List ℕ). p.0) (placing_at placings.now id.now) }
{
    let placing = placings.get(id)?;
    Some(placing.number)
}

/// Notes that a message names an id, if no message of a lesser number does.
fn note_naming(
    alloc: Global,
    namings: &mut BTreeMap<Vec<u8>, Naming>,
    id: &[u8],
    naming: Naming,
) -> Result<(), NoMemory>
    ensures { OnOk result (NotesNaming namings.old namings.new id.now naming) }
{
    if !is_lesser(naming.number, naming_number(namings, id)) {
        return Ok(());
    }
    let key = id.to_vec(alloc)?;
    namings.insert(key, naming)?;
    Ok(())
}

/// Notes what stands before an id in a message, if no message of a lesser number places it.
fn note_placing(
    alloc: Global,
    placings: &mut BTreeMap<Vec<u8>, Placing>,
    id: &[u8],
    number: u32,
    before: &[u8],
) -> Result<(), NoMemory>
    ensures { OnOk result (NotesPlacing placings.old placings.new id.now (number, before.now)) }
{
    if !is_lesser(number, placing_number(placings, id)) {
        return Ok(());
    }
    let before = before.to_vec(alloc)?;
    let key = id.to_vec(alloc)?;
    placings.insert(key, Placing { number, before })?;
    Ok(())
}

/// Notes the messages that name the references of a message.
fn note_namings(
    alloc: Global,
    namings: &mut BTreeMap<Vec<u8>, Naming>,
    twig: &Twig,
) -> Result<(), NoMemory>
    ensures { OnOk result (NamesAll namings.old namings.new twig.now.refs (naming_of twig.now)) }
{
    let naming = Naming {
        number: twig.number,
        secs: twig.secs,
    };
    for id in twig.refs.as_slice() {
        note_naming(alloc, namings, id.as_slice(), naming)?;
    }
    Ok(())
}

/// Notes what stands before the references of a message.
fn note_placings(
    alloc: Global,
    placings: &mut BTreeMap<Vec<u8>, Placing>,
    number: u32,
    refs: &[Bytes],
) -> Result<(), NoMemory>
    ensures { OnOk result (PlacesAll placings.old placings.new number refs.now) }
{
    for i in 1..refs.len() {
        note_placing(
            alloc,
            placings,
            refs[i].as_slice(),
            number,
            refs[i - 1].as_slice(),
        )?;
    }
    Ok(())
}

impl Facts {
    ghost use Rattle.thread_tree.specs.Facts.{AreFacts, kept_ghost, kept_is_ghost, kept_up};
    ghost use Rattle.thread_tree.specs.Nodes.{node_in};
    ghost use Rattle.thread_tree.specs.Trees.{HaveOwnIds};

    /// Returns what messages say of ids.
    pub(crate) fn of(alloc: Global, twigs: &[Twig]) -> Result<Facts, NoMemory>
        requires { HaveOwnIds twigs.now }
        ensures { IfOk result (AreFacts twigs.now) }
    {
        let mut live = BTreeMap::new(alloc);
        let mut naming = BTreeMap::new(alloc);
        let mut placing = BTreeMap::new(alloc);
        for twig in twigs {
            note_above(alloc, &mut live, twig)?;
            note_namings(alloc, &mut naming, twig)?;
            note_placings(alloc, &mut placing, twig.number, twig.refs.as_slice())?;
        }
        Ok(Facts {
            live,
            naming,
            placing,
        })
    }

    /// Returns whether no message has an id.
    pub(crate) fn is_ghost(&self, id: &[u8]) -> bool
        ensures { result ≡ kept_is_ghost self.now id.now }
    {
        !self.live.contains_key(id)
    }

    /// Returns what an id stands under.
    pub(crate) fn up(&self, id: &[u8]) -> Option<&[u8]>
        ensures { option_copied result ≡ kept_up self.now id.now }
    {
        if let Some(above) = self.live.get(id) {
            return above.id.as_ref().map(|id| id.as_slice());
        }
        let placing = self.placing.get(id)?;
        Some(placing.before.as_slice())
    }

    /// Returns the node of a ghost.
    pub(crate) fn ghost_of(&self, alloc: Global, id: &[u8]) -> Result<PlainNode, NoMemory>
        ensures { IfOk result (λ node. node_in node ≡ kept_ghost self.now id.now) }
    {
        let naming = self
            .naming
            .get(id)
            .copied()
            .unwrap_or(Naming { number: 0, secs: 0 });
        Ok((naming.secs, naming.number, id.to_vec(alloc)?))
    }
}
