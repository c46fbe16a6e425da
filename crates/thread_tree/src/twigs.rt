//! Messages with their references, and the tree of them.
//! Allocates.
use crate::above::{IdIndex, put_index, ups_of};
use crate::facts::Facts;
use crate::forest::{preorder, under_lists};
use crate::lines::Lines;
use crate::loops::{root_flags, roots_of};
use crate::nodes::{lines_of, nodes_of};
use arch_base::{Bytes, NoMemory, Texts};
use std::alloc::Global;
use std::collections::BTreeMap;
use std::marker::Model;

/// A message: its number, its id, its references and its date's seconds.
#[derive(Drop)]
pub struct Twig {
    pub number: u32,
    pub id: Bytes,
    pub refs: Texts,
    pub secs: u64,
}

/// Messages of a tree, in the order in which they were added.
#[derive(Drop)]
pub struct Twigs {
    alloc: Global,
    twigs: Vec<Twig>,
    /// The index of each message by its id.
    indices: IdIndex,
}

impl Model for Twigs {
    ghost use Rattle.std.specs.Prelude.{List};
    ghost use Rattle.thread_tree.specs.declared.twigs.Twig.{Twig};

    ghost Value = { List Twig };

    ghost use Rattle.thread_tree.specs.Facts.{AreIdsOf};
    ghost use Rattle.thread_tree.specs.Trees.{HaveOwnIds};

    ghost view = { λ t. t.twigs.items };

    ghost invariant = { λ t. HaveOwnIds t.twigs.items × AreIdsOf t.twigs.items t.indices };
}

impl Twigs {
    ghost use Rattle.std.specs.Prelude.{◌≡◌, ◌++◌, ◌∷◌, [], IfOk, OnErr, OnOk};
    ghost use Rattle.std.specs.Bool.{MatchBool};
    ghost use Rattle.thread_model.specs.Members.{Among};
    ghost use Rattle.thread_tree.specs.declared.twigs.Twig.{Twig};
    ghost use Rattle.thread_tree.specs.Trees.{PrintsNodes, roots};
    ghost use Rattle.thread_tree.specs.Laid.{tree_lines};

    /// Returns no messages. Allocates nothing.
    pub fn new(alloc: Global) -> Self
        ensures { result ≡ [] }
    {
        Twigs {
            alloc,
            twigs: Vec::new(alloc),
            indices: BTreeMap::new(alloc),
        }
    }

    /// Returns whether a message has an id.
    pub fn contains(&self, id: &[u8]) -> bool
        ensures { MatchBool result ((t : Twig) × Among self.now t × (t.id ≡ id.now))
            ((t : Twig) → Among self.now t → t.id ≡ id.now → ⊥) }
    {
        self.indices.contains_key(id)
    }

    /// Adds a message whose id is new.
    ///
    /// `NoMemory` leaves the messages unchanged.
    pub fn add(&mut self, number: u32, id: &[u8], refs: &Texts, secs: u64) -> Result<(), NoMemory>
        requires { (t : Twig) → Among self.old t → t.id ≡ id.now → ⊥ }
        ensures ok { OnOk result (self.new ≡ self.old ++ record {
          number = number;
          id = id.now;
          refs = refs.now;
          secs = secs;
        } ∷ []) }
        ensures err { OnErr result (self.new ≡ self.old) }
    {
        let mut copy = Bytes::new(self.alloc);
        copy.push_slice(id)?;
        let twig = Twig {
            number,
            id: copy,
            refs: refs.copy()?,
            secs,
        };
        self.twigs.reserve(1)?;
        put_index(self.alloc, &mut self.indices, id, self.twigs.len())?;
        self.twigs.push(twig)?;
        Ok(())
    }

    /// Returns the lines of the tree: each node before those under it, brothers by date, number and
    /// id. `Prints` says so, and `tree_lines` is the one list of which it holds.
    pub fn tree(&self) -> Result<Lines, NoMemory>
        ensures prints { IfOk result (λ lines. PrintsNodes self.now 0 (roots self.now) lines) }
        ensures laid { IfOk result (λ lines. lines ≡ tree_lines self.now) }
    {
        let twigs = self.twigs.as_slice();
        let facts = Facts::of(self.alloc, twigs)?;
        let nodes = nodes_of(self.alloc, twigs, &facts)?;
        let ups = ups_of(self.alloc, &facts, nodes.as_slice())?;
        let flags = root_flags(self.alloc, ups.as_slice())?;
        let under = under_lists(self.alloc, ups.as_slice(), flags.as_slice())?;
        let roots = roots_of(self.alloc, flags.as_slice())?;
        let walked = preorder(self.alloc, under.as_slice(), roots.as_slice())?;
        lines_of(self.alloc, &facts, nodes.as_slice(), walked.as_slice())
    }
}
