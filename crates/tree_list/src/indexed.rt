//! The nodes of a tree that is being built, with an index of their entries, by which a name is found without a
//! scan of the nodes.
ghost use Rattle.std.specs.Prelude.{◌≡◌, ◌<◌, IfOk, OnOk, OnErr, length};
ghost use Rattle.tree_list.specs.Build.{top_alone};
ghost use Rattle.tree_list.specs.Index.{node_in, PutsNode, IsSameIndex};

use crate::growing::GrowingNodes;
use path_text::{Errno, LentName, NoMemory};
use std::alloc::Global;
use std::collections::BTreeMap;
use std::marker::Model;
use tree_model::{Inode, NUMBERS_MAX, Node, Object, Place, is_dir, is_gone};

/// Nodes by their numbers. Contracts see them alone, since the index says nothing more.
#[derive(Drop)]
pub(crate) struct IndexedNodes {
    nodes: Vec<Inode>,
    // For each node the nodes at its entries, by the bytes of their names.
    index: Vec<BTreeMap<Vec<u8>, Node>>,
}

impl Model for IndexedNodes {
    ghost use Rattle.std.specs.Prelude.{List};
    ghost use Rattle.tree_model.specs.declared.inode.Inode.{Inode};
    ghost use Rattle.tree_list.specs.Index.{IsIndexOf};

    ghost Value = { List Inode };

    ghost view = { λ n. n.nodes.items };

    ghost invariant = { λ n. IsIndexOf n.nodes.items n.index.items };
}

// The node at the entry of that name in a directory.
fn node_in(index: &[BTreeMap<Vec<u8>, Node>], dir: Node, name: &[u8]) -> Option<Node>
    ensures { result ≡ node_in index.now dir name.now }
{
    index.get(dir.number() as usize)?.get(name).copied()
}

// Puts a node at an entry of a directory. NoMemory where its room was refused.
fn put(
    index: &mut [BTreeMap<Vec<u8>, Node>],
    dir: Node,
    name: Vec<u8>,
    x: Node,
) -> Result<(), NoMemory>
    requires { dir < length index.old }
    ensures ok { OnOk result (PutsNode index.old index.new (record { parent = dir; name = name.items }) x) }
    ensures err { OnErr result (IsSameIndex index.old index.new) }
{
    index[dir.number() as usize].insert(name, x)?;
    Ok(())
}

impl IndexedNodes {
    /// The top alone. NoMemory where its room was refused.
    pub(crate) fn new(alloc: Global) -> Result<IndexedNodes, NoMemory>
        ensures { IfOk result (λ nodes. nodes ≡ top_alone) }
    {
        let mut nodes = Vec::new(alloc);
        nodes.push(Inode {
            object: Object::Dir,
            place: None,
        })?;
        let mut index = Vec::new(alloc);
        index.push(BTreeMap::new(alloc))?;
        Ok(IndexedNodes { nodes, index })
    }

    /// The nodes without the index.
    pub(crate) fn into_nodes(self) -> Vec<Inode>
        ensures { result.items ≡ self }
    {
        self.nodes
    }
}

impl GrowingNodes for IndexedNodes {
    ghost inodes = { λ nodes. nodes };

    fn node_at(&self, parent: Node, name: &LentName<'_>) -> Option<Node> {
        node_in(&self.index, parent, name.bytes())
    }

    fn grow(
        &mut self,
        alloc: Global,
        at: Place,
        object: Object,
    ) -> Result<Result<(), Errno>, NoMemory> {
        if !is_dir(&self.nodes, at.parent) {
            return Ok(Err(Errno::NotDir));
        }
        if is_gone(&self.nodes, at.parent) {
            return Ok(Err(Errno::NotFound));
        }
        if self.node_at(at.parent, &at.name.lend()).is_some() {
            return Ok(Err(Errno::Exists));
        }
        if self.nodes.len() >= NUMBERS_MAX {
            return Ok(Err(Errno::TooMany));
        }
        // All room is taken before the first change.
        let key = Vec::from_slice(alloc, at.name.bytes())?;
        self.nodes.reserve(1)?;
        self.index.reserve(1)?;
        let number = Node::new(self.nodes.len() as u64);
        put(&mut self.index, at.parent, key, number)?;
        self.index.push_reserved(BTreeMap::new(alloc));
        self.nodes.push_reserved(Inode {
            object,
            place: Some(at),
        });
        Ok(Ok(()))
    }
}
