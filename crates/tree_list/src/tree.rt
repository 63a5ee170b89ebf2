//! The tree itself: how it is made and copied, and that it is a `Tree`.
ghost use Rattle.std.specs.Prelude.{◌≡◌, IfOk, MatchResult};
ghost use Rattle.tree_model.specs.Trees.{IsState};
ghost use Rattle.tree_list.specs.Build.{with_nodes, top_alone, IsBuilt, IsFaultOf, IsTreeOf};

use crate::build::{BuildFault, Entry, build};
use crate::entries::ListNodes;
use crate::handles::ListHandles;
use crate::indexed::IndexedNodes;
use path_text::{Errno, Names, NoMemory};
use std::alloc::Global;
use std::marker::Model;
use tree_model::{Actor, Answer, HandleNo, Inode, LentStep, OpenHandle, Snapshot, Tree};
use tree_steps::{HandleTable, NodeTable, TableTree, copy_nodes};

/// A tree of two lists, the nodes and the handles by their numbers. Contracts see it as its state.
#[derive(Debug, Drop)]
pub struct ListTree {
    tables: TableTree<ListNodes, ListHandles>,
}

impl Model for ListTree {
    ghost use Rattle.tree_model.specs.State.{State};

    ghost Value = { State };

    ghost view = { λ t. t.tables };
}

impl ListTree {
    /// The top alone. NoMemory where its room was refused.
    #[tactic(auto, using(crate::proofs::Built::new_state))]
    pub fn new(alloc: Global) -> Result<ListTree, NoMemory>
        ensures alone { IfOk result (λ tree. tree ≡ with_nodes top_alone) }
        ensures tree { IfOk result IsState }
    {
        let nodes = IndexedNodes::new(alloc)?.into_nodes();
        Ok(ListTree::from_nodes(alloc, nodes))
    }

    /// The tree of these nodes, no handle open.
    pub fn from_nodes(alloc: Global, nodes: Vec<Inode>) -> ListTree
        ensures { result ≡ with_nodes nodes.items }
    {
        ListTree::from_parts(nodes, Vec::new(alloc))
    }

    // The tree of these nodes and handles.
    fn from_parts(inodes: Vec<Inode>, places: Vec<Option<OpenHandle>>) -> ListTree
        ensures { result ≡ record { nodes = inodes.items; handles = places.items } }
    {
        ListTree {
            tables: TableTree {
                nodes: ListNodes { inodes },
                handles: ListHandles { places },
            },
        }
    }

    /// The tree with these entries, each made at its names below the top in the order of the list, so that
    /// entry k is node k + 1. No handle is open.
    ///
    /// The fault has the place of the first entry that is refused, and its error, the first of these: those of
    /// its link text as a path text (symlink(2)); NotFound where its parent is missing, below a file or a link too;
    /// NotDir where its parent is no directory; Exists where there is such an entry already, and for no names;
    /// TooMany past the last number. NoMemory comes with the place of the entry for which there was no room.
    pub fn from_entries(alloc: Global, entries: &[Entry]) -> Result<ListTree, BuildFault>
        ensures built { MatchResult result (λ tree. IsBuilt entries.now tree) (λ fault. IsFaultOf entries.now fault) }
        ensures tree { IfOk result IsState }
        ensures entries { IfOk result (λ tree. IsTreeOf entries.now tree.nodes) }
    {
        let nodes = build(alloc, entries)?;
        Ok(ListTree::from_nodes(alloc, nodes))
    }

    /// An equal tree. NoMemory where its room was refused.
    pub fn copy(&self, alloc: Global) -> Result<ListTree, NoMemory>
        ensures { IfOk result (λ copy. copy ≡ self.now) }
    {
        let nodes = copy_nodes(alloc, self.tables.nodes.as_slice())?;
        let handles = Vec::from_slice(alloc, self.tables.handles.as_slice())?;
        Ok(ListTree::from_parts(nodes, handles))
    }

    /// The nodes and the handles, each at its number.
    pub fn into_parts(self) -> (Vec<Inode>, Vec<Option<OpenHandle>>)
        ensures { self ≡ record { nodes = result.0.items; handles = result.1.items } }
    {
        let TableTree { nodes, handles } = self.tables;
        (nodes.inodes, handles.places)
    }
}

impl Tree for ListTree {
    ghost state = { λ tree. tree };

    fn step(
        &mut self,
        alloc: Global,
        actor: Actor,
        step: &LentStep<'_>,
    ) -> Result<Answer, NoMemory> {
        self.tables.step(alloc, actor, step)
    }

    fn grant(&mut self, alloc: Global, actor: Actor, names: &Names) -> Result<HandleNo, Errno> {
        self.tables.grant(alloc, actor, names)
    }

    fn held(&self, actor: Actor) -> usize {
        self.tables.held(actor)
    }

    fn snapshot(&self, alloc: Global) -> Result<Snapshot, NoMemory> {
        self.tables.snapshot(alloc)
    }
}
