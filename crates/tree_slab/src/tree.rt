//! The tree itself: how it is made, and that it is a `Tree`.
ghost use Rattle.std.specs.Prelude.{◌≡◌, IfErr, MatchOption, MatchResult, Ok, OnOk, Err};
ghost use Rattle.tree_model.specs.Trees.{IsState, IsTree};
ghost use Rattle.tree_list.specs.Build.{adds_all, with_nodes, top_alone, IsFaultFrom};
ghost use Rattle.tree_slab.specs.Cache.{cap_fault};

use crate::cache::DentryCache;
use crate::handles::Handles;
use crate::nodes::Nodes;
use path_text::{Errno, Names, NoMemory};
use std::alloc::Global;
use std::marker::Model;
use tree_list::{BuildFault, Entry, ListTree, add_all};
use tree_model::{Actor, Answer, HandleNo, Inode, LentStep, Snapshot, Tree};
use tree_steps::{NodeTable, TableTree};

/// A tree whose entries are found by an ordered map for each directory that stands, and whose handles are
/// counted by their actors. Contracts see it as its state.
#[derive(Debug, Drop)]
pub struct SlabTree {
    tables: TableTree<Nodes, Handles>,
}

impl Model for SlabTree {
    ghost use Rattle.tree_model.specs.State.{State};

    ghost Value = { State };

    ghost view = { λ t. t.tables };
}

// Adds these entries to the table of nodes.
fn add_to(
    tables: &mut TableTree<Nodes, Handles>,
    alloc: Global,
    entries: &[Entry],
) -> Result<(), BuildFault>
    ensures ok { OnOk result (adds_all 0 tables.old.nodes entries.now ≡ Ok tables.new.nodes) }
    ensures handles { tables.new.handles ≡ tables.old.handles }
    ensures err { IfErr result (IsFaultFrom tables.old.nodes entries.now) }
{
    add_all(&mut tables.nodes, alloc, entries)
}

impl SlabTree {
    /// The top alone. At most `cap` entries are remembered beside the maps.
    ///
    /// Errors, in this order: Invalid for a cap of 0 or over 65,536, NoMemory where room was refused.
    pub fn new(alloc: Global, cap: usize) -> Result<SlabTree, Errno>
        ensures { MatchOption (cap_fault cap)
            (MatchResult result (λ tree. tree ≡ with_nodes top_alone) (λ error. error ≡ Errno.NoMemory))
            (λ fault. result ≡ Err fault) }
    {
        let cache = DentryCache::new(alloc, cap)?;
        let nodes = Nodes::new(alloc, cache)?;
        let handles = Handles::new(alloc);
        Ok(SlabTree {
            tables: TableTree { nodes, handles },
        })
    }

    /// The tree with the nodes and the handles of a plain one. At most `cap` entries are remembered beside the
    /// maps.
    ///
    /// Errors, in this order: Invalid for a cap of 0 or over 65,536, NoMemory where room was refused.
    pub fn from_list(alloc: Global, list: &ListTree, cap: usize) -> Result<SlabTree, Errno>
        requires { IsTree list.now.nodes }
        ensures { MatchOption (cap_fault cap)
            (MatchResult result (λ tree. tree ≡ list.now) (λ error. error ≡ Errno.NoMemory))
            (λ fault. result ≡ Err fault) }
    {
        let cache = DentryCache::new(alloc, cap)?;
        let (nodes, handles) = list.copy(alloc)?.into_parts();
        let nodes = Nodes::from_vec(alloc, nodes, cache)?;
        let handles = Handles::from_vec(alloc, handles)?;
        Ok(SlabTree {
            tables: TableTree { nodes, handles },
        })
    }

    /// Adds these entries, each at its names below the top, in the order of the list: entry k is the node of the k-th
    /// number that isn't given yet. The handles stay as they are.
    ///
    /// The fault has the place of the first entry that is refused, and its error, as of `ListTree::from_entries`. The
    /// entries before it were added.
    pub fn add_all(&mut self, alloc: Global, entries: &[Entry]) -> Result<(), BuildFault>
        ensures ok { OnOk result (adds_all 0 self.old.nodes entries.now ≡ Ok self.new.nodes) }
        ensures state { IsState self.old → OnOk result (IsState self.new) }
        ensures handles { self.new.handles ≡ self.old.handles }
        ensures err { IfErr result (IsFaultFrom self.old.nodes entries.now) }
    {
        add_to(&mut self.tables, alloc, entries)
    }

    /// The nodes by their numbers.
    pub fn nodes(&self) -> &[Inode]
        ensures { result.now ≡ self.now.nodes }
    {
        self.tables.nodes.as_slice()
    }
}

impl Tree for SlabTree {
    ghost state = { λ tree. tree };

    fn step(
        &mut self,
        alloc: Global,
        actor: Actor,
        step: &LentStep<'_>,
    ) -> Result<Answer, NoMemory> {
        self.tables.step(alloc, actor, step)
    }

    fn grant(&mut self, alloc: Global, actor: Actor, names: &Names) -> Result<HandleNo, Errno> {
        self.tables.grant(alloc, actor, names)
    }

    fn held(&self, actor: Actor) -> usize {
        self.tables.held(actor)
    }

    fn snapshot(&self, alloc: Global) -> Result<Snapshot, NoMemory> {
        self.tables.snapshot(alloc)
    }
}
