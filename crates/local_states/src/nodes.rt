//! Lists of nodes, each once.
ghost use Rattle.std.specs.Prelude.{◌≡◌, ◌↔◌, [], ℕ, length, Some, slice_get, IsTrue, IfOk, IfSome, IfNone};
ghost use Rattle.local_states.specs.Distinct.{Keeps, AreEachOnce};

use path_text::NoMemory;
use std::alloc::Global;
use std::marker::Model;
use tree_list::copy_nodes;
use tree_model::{Inode, same_nodes};

/// Lists of nodes, no two of them equal, each known by its place. Contracts see them as a list of lists.
#[derive(Drop)]
pub(crate) struct NodeLists {
    lists: Vec<Vec<Inode>>,
}

impl Model for NodeLists {
    ghost use Rattle.std.specs.Prelude.{List, map};
    ghost use Rattle.std.specs.Global.{Vec};
    ghost use Rattle.tree_model.specs.declared.inode.Inode.{Inode};
    ghost use Rattle.local_states.specs.Distinct.{AreEachOnce};

    ghost Value = { List (List Inode) };

    ghost view = { λ n. map (λ (list : Vec Inode). list.items) n.lists.items };

    ghost invariant = { λ n. AreEachOnce (map (λ (list : Vec Inode). list.items) n.lists.items) };
}

impl NodeLists {
    /// No list yet.
    pub(crate) fn new(alloc: Global) -> NodeLists
        ensures { result ≡ [] }
    {
        NodeLists {
            lists: Vec::new(alloc),
        }
    }

    /// No two of them are equal.
    pub(crate) fn are_once(&self)
        ensures { AreEachOnce self.now }
    {
        let _ = &self.lists;
    }

    // How many there are.
    fn len(&self) -> usize
        ensures { result ≡ length self.now }
    {
        self.lists.len()
    }

    // Whether the list at that place is equal to that one.
    fn is_at(&self, at: usize, nodes: &[Inode]) -> bool
        ensures { IsTrue result ↔ (slice_get self.now at ≡ Some nodes.now) }
    {
        match self.lists.get(at) {
            Some(list) => same_nodes(list.as_slice(), nodes),
            None => false,
        }
    }

    // The place of a list equal to that one. Where there is none, no list is.
    fn place_of(&self, nodes: &[Inode]) -> Option<usize>
        ensures there { IfSome result (λ at. slice_get self.now at ≡ Some nodes.now) }
        ensures nowhere { IfNone result ((at : ℕ) → slice_get self.now at ≡ Some nodes.now → ⊥) }
    {
        for at in 0..self.len() {
            if self.is_at(at, nodes) {
                return Some(at);
            }
        }
        None
    }

    /// The place of a list equal to that one, mostly at that place; a copy is put after the others where none is.
    /// NoMemory where its room was refused: the lists are as they were then.
    pub(crate) fn put(
        &mut self,
        alloc: Global,
        nodes: &[Inode],
        mostly: usize,
    ) -> Result<usize, NoMemory>
        ensures keeps { Keeps self.old self.new }
        ensures there { IfOk result (λ at. slice_get self.new at ≡ Some nodes.now) }
    {
        if self.is_at(mostly, nodes) {
            return Ok(mostly);
        }
        if let Some(at) = self.place_of(nodes) {
            return Ok(at);
        }
        let at = self.len();
        self.lists.push(copy_nodes(alloc, nodes)?)?;
        Ok(at)
    }
}
