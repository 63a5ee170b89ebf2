//! The whole of a tree as a value.
ghost use Rattle.std.specs.Prelude.{◌≡◌, IsTrue, ◌↔◌, IfOk, length};
ghost use Rattle.tree_model.specs.Rows.{rows_in_order};

use crate::inode::{Inode, OpenHandle};
use crate::row::{Row, rows_in_order};
use path_text::NoMemory;
use std::alloc::Global;
use std::marker::Model;

/// The nodes and the handles of a tree by their numbers, those removed and closed included. Contracts see
/// it as the tree's state, and two snapshots are equal exactly where those are.
#[derive(Debug, Drop)]
pub struct Snapshot {
    nodes: Vec<Inode>,
    handles: Vec<Option<OpenHandle>>,
}

impl Model for Snapshot {
    ghost use Rattle.tree_model.specs.State.{State};

    ghost Value = { State };

    ghost view = { λ s. record { nodes = s.nodes.items; handles = s.handles.items } };
}

impl Snapshot {
    /// The tree of these nodes and handles, each at its number.
    pub fn new(nodes: Vec<Inode>, handles: Vec<Option<OpenHandle>>) -> Snapshot
        ensures { result ≡ record { nodes = nodes.items; handles = handles.items } }
    {
        Snapshot { nodes, handles }
    }

    /// The nodes by their numbers, those that stand nowhere included.
    pub fn nodes(&self) -> &[Inode]
        ensures { result.now ≡ self.now.nodes }
    {
        self.nodes.as_slice()
    }

    /// The handles by their numbers, a closed one as None.
    pub fn handles(&self) -> &[Option<OpenHandle>]
        ensures { result.now ≡ self.now.handles }
    {
        self.handles.as_slice()
    }

    /// The number of the next node.
    pub fn next_node(&self) -> u64
        ensures { result ≡ length self.now.nodes }
    {
        self.nodes.len() as u64
    }

    /// The number of the next handle.
    pub fn next_handle(&self) -> u64
        ensures { result ≡ length self.now.handles }
    {
        self.handles.len() as u64
    }

    /// The entries, by the directory's number and then by the bytes of the name. NoMemory where their room was
    /// refused.
    pub fn rows(&self, alloc: Global) -> Result<Vec<Row>, NoMemory>
        ensures { IfOk result (λ rows. rows.items ≡ rows_in_order self.now.nodes) }
    {
        rows_in_order(alloc, self.nodes())
    }

    /// Whether the two are equal. Takes no memory.
    pub fn same(&self, other: &Snapshot) -> bool
        ensures { IsTrue result ↔ (self.now ≡ other.now) }
    {
        same_nodes(self.nodes(), other.nodes()) && same_handles(self.handles(), other.handles())
    }
}

/// Whether the nodes are equal, one by one. Takes no memory.
pub fn same_nodes(nodes: &[Inode], others: &[Inode]) -> bool
    ensures { IsTrue result ↔ (nodes.now ≡ others.now) }
{
    if nodes.len() != others.len() {
        return false;
    }
    for (x, inode) in nodes.iter().enumerate() {
        if !inode.same(&others[x]) {
            return false;
        }
    }
    true
}

// Whether the handles are equal, one by one.
fn same_handles(handles: &[Option<OpenHandle>], others: &[Option<OpenHandle>]) -> bool
    ensures { IsTrue result ↔ (handles.now ≡ others.now) }
{
    handles == others
}
