//! The entries of one directory, in an ordered map.
ghost use Rattle.std.specs.Prelude.{◌≡◌, length, map, [], IsTrue, ◌↔◌, Some, None, IfOk, OnOk, OnErr, IsSome};
ghost use Rattle.std.specs.Ordering.{nat_cmp};
ghost use Rattle.std.specs.Cmp.Lexicographic.{slice_cmp};
ghost use Rattle.std.specs.List.Sorted.{IsStrictlySortedBy};
ghost use Rattle.std.specs.List.{All};
ghost use Rattle.std.specs.Map.{lookup, keys_of};
ghost use Rattle.std.specs.BTreeMap.{keys, get_by, UpdatesBy};
ghost use Rattle.path_text.specs.Name.{name_fault};
ghost use Rattle.tree_slab.specs.Directories.{is_name, ChangesEntry};

use path_text::{LentName, Names, NoMemory};
use std::alloc::Global;
use std::collections::BTreeMap;
use std::marker::Model;
use tree_model::Node;

/// The node to which each entry of a directory leads. Contracts see the entries by the bytes of their names.
#[derive(Debug, Drop)]
pub(crate) struct EntryMap {
    // The keys are the bytes of the names, so that the bytes of a lent name find an entry.
    nodes: BTreeMap<Vec<u8>, Node>,
}

impl Model for EntryMap {
    ghost use Rattle.std.specs.Prelude.{◌≡◌, List, ℕ, map, None};
    ghost use Rattle.std.specs.List.{All};
    ghost use Rattle.std.specs.BTreeMap.{keys};
    ghost use Rattle.path_text.specs.Name.{name_fault};

    ghost Value = { List (List ℕ × ℕ) };

    ghost view = { λ m. map (λ e. (e.0.items, e.1)) m.nodes.entries };

    ghost invariant = { λ m. All (λ key. name_fault key.items ≡ None) (keys m.nodes) };
}

// The names that the keys of a map are, in order. NoMemory where their room was refused.
fn names_of(alloc: Global, nodes: &BTreeMap<Vec<u8>, Node>) -> Result<Names, NoMemory>
    requires { All (λ key. name_fault key.items ≡ None) (keys nodes.now) }
    ensures same { IfOk result (λ names. names ≡ map (λ key. key.items) (keys nodes.now)) }
    ensures sorted { IfOk result (λ names. IsStrictlySortedBy (slice_cmp nat_cmp) names) }
{
    let mut names = Names::new(alloc);
    for name in nodes.keys() {
        names.push_bytes(name)?;
    }
    Ok(names)
}

// Lets the entry of a map that is there lead to another node.
fn set(nodes: &mut BTreeMap<Vec<u8>, Node>, name: &[u8], x: Node)
    requires { IsSome (get_by (λ key. slice_cmp nat_cmp name.now key.items) nodes.old) }
    ensures keys { keys nodes.new ≡ keys nodes.old }
    ensures updates { UpdatesBy (λ j k. slice_cmp nat_cmp j.items k.items)
        (λ key. slice_cmp nat_cmp name.now key.items) nodes.old nodes.new (Some x) }
{
    if let Some(there) = nodes.get_mut(name) {
        *there = x;
    }
}

impl EntryMap {
    /// No entry. Takes no memory.
    pub(crate) fn new(alloc: Global) -> EntryMap
        ensures { result ≡ [] }
    {
        EntryMap {
            nodes: BTreeMap::new(alloc),
        }
    }

    /// How many entries there are.
    pub(crate) fn len(&self) -> usize
        ensures { result ≡ length self.now }
    {
        self.nodes.len()
    }

    /// Whether there is no entry.
    pub(crate) fn is_empty(&self) -> bool
        ensures { IsTrue result ↔ (length self.now ≡ 0) }
    {
        self.nodes.is_empty()
    }

    /// The node to which the entry of that name leads. Takes no memory.
    pub(crate) fn get(&self, name: &LentName<'_>) -> Option<Node>
        ensures { result ≡ lookup (is_name name.now) self.now }
    {
        self.nodes.get(name.bytes()).copied()
    }

    /// The names of the entries by their bytes. NoMemory where their room was refused.
    pub(crate) fn names(&self, alloc: Global) -> Result<Names, NoMemory>
        ensures same { IfOk result (λ names. names ≡ keys_of self.now) }
        ensures sorted { IfOk result (λ names. IsStrictlySortedBy (slice_cmp nat_cmp) names) }
    {
        names_of(alloc, &self.nodes)
    }

    /// Lets the entry of that name lead to a node. NoMemory where room was refused.
    pub(crate) fn put(
        &mut self,
        alloc: Global,
        name: &LentName<'_>,
        x: Node,
    ) -> Result<(), NoMemory>
        ensures ok { OnOk result (ChangesEntry self.old self.new name.now (Some x)) }
        ensures err { OnErr result (self.new ≡ self.old) }
    {
        let key = Vec::from_slice(alloc, name.bytes())?;
        self.nodes.insert(key, x)?;
        Ok(())
    }

    /// Lets an entry that is there lead to another node. Takes no memory.
    pub(crate) fn set(&mut self, name: &LentName<'_>, x: Node)
        requires { IsSome (lookup (is_name name.now) self.old) }
        ensures { ChangesEntry self.old self.new name.now (Some x) }
    {
        set(&mut self.nodes, name.bytes(), x);
    }

    /// Takes the entry of that name out. Takes no memory.
    pub(crate) fn remove(&mut self, name: &LentName<'_>)
        ensures { ChangesEntry self.old self.new name.now None }
    {
        let _ = self.nodes.remove(name.bytes());
    }
}
