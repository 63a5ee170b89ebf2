//! The ordered maps of the standing directories' entries, kept in a slab.
ghost use Rattle.std.specs.Prelude.{◌≡◌, nat_le, option_copied, length, ◌++◌, ◌∷◌, [], IsTrue, ◌↔◌, List, ℕ, Some, None, true, IfOk, OnOk, OnErr, IsSome};
ghost use Rattle.std.specs.Option.{option_map_or};
ghost use Rattle.std.specs.Ordering.{nat_cmp};
ghost use Rattle.std.specs.Cmp.Lexicographic.{slice_cmp};
ghost use Rattle.std.specs.List.Sorted.{IsStrictlySortedBy};
ghost use Rattle.slab.specs.Slab.{get, HasRoomFor};
ghost use Rattle.tree_slab.specs.Directories.{key_at, entries_at, has_map, entry_in, names_at, new_entries, SetsEntry, AddsNode, LosesMap, found_in, ChangesMap, SameMaps, AddsMap};

use crate::entry_map::EntryMap;
use path_text::{LentName, Names, NoMemory};
use slab::Slab;
use std::alloc::Global;
use std::marker::Model;
use tree_model::Node;

// So many entries lie in one node of an ordered map, and are searched without going from node to node.
const SMALL: usize = 11;

/// The entries of the directories that stand, by the directory's number and the entry's name. Contracts see
/// them as a list by the nodes' numbers.
#[derive(Debug, Drop)]
pub(crate) struct Directories {
    // The key of each node's map. Only a directory that stands has one.
    keys: Vec<Option<usize>>,
    maps: Slab<EntryMap>,
}

impl Model for Directories {
    ghost use Rattle.std.specs.Prelude.{List, ℕ, map, Option};

    ghost Value = { List (Option (List (List ℕ × ℕ))) };

    ghost use Rattle.tree_slab.specs.Directories.{entries_of, HasEachMap};

    ghost view = { λ d. map (entries_of d.maps) d.keys.items };

    ghost invariant = { λ d. HasEachMap d.keys.items d.maps };
}

// The key of a node's map.
fn key_at(keys: &[Option<usize>], x: Node) -> Option<usize>
    ensures { result ≡ key_at keys.now x }
{
    keys.get(x.number() as usize).copied().flatten()
}

// Lets an entry of a map lead to a node. NoMemory where room was refused.
fn put_in(
    maps: &mut Slab<EntryMap>,
    alloc: Global,
    key: usize,
    name: &LentName<'_>,
    x: Node,
) -> Result<(), NoMemory>
    requires { IsSome (get maps.old key) }
    ensures ok { OnOk result (ChangesMap maps.old maps.new key name.now (Some x)) }
    ensures err { OnErr result (SameMaps maps.old maps.new) }
{
    let Some(map) = maps.get_mut(key) else {
        unreachable!();
    };
    map.put(alloc, name, x)
}

// Lets an entry of a map that is there lead to another node.
fn set_in(maps: &mut Slab<EntryMap>, key: usize, name: &LentName<'_>, x: Node)
    requires { IsSome (found_in maps.old key name.now) }
    ensures { ChangesMap maps.old maps.new key name.now (Some x) }
{
    if let Some(map) = maps.get_mut(key) {
        map.set(name, x);
    }
}

// Takes an entry out of a map.
fn take_from(maps: &mut Slab<EntryMap>, key: usize, name: &LentName<'_>)
    ensures { ChangesMap maps.old maps.new key name.now None }
{
    if let Some(map) = maps.get_mut(key) {
        map.remove(name);
    }
}

// A map without entries, where one is wanted.
fn add_map(maps: &mut Slab<EntryMap>, alloc: Global, mapped: bool) -> Option<usize>
    requires { HasRoomFor maps.old 1 }
    ensures { AddsMap mapped maps.old maps.new result }
{
    if mapped {
        Some(maps.insert_reserved(EntryMap::new(alloc)))
    } else {
        None
    }
}

impl Directories {
    /// No directory.
    pub(crate) fn new(alloc: Global) -> Directories
        ensures { result ≡ [] }
    {
        Directories {
            keys: Vec::new(alloc),
            maps: Slab::new(alloc),
        }
    }

    // The map of a directory that has one.
    fn map_at(&self, dir: Node) -> Option<&EntryMap>
        ensures { option_copied result ≡ entries_at self.now dir }
    {
        self.maps.get(key_at(&self.keys, dir)?)
    }

    /// The node to which a directory's entry of that name leads.
    pub(crate) fn find(&self, dir: Node, name: &LentName<'_>) -> Option<Node>
        ensures { result ≡ entry_in self.now dir name.now }
    {
        self.map_at(dir)?.get(name)
    }

    /// Whether a directory has no more entries than one node of its map holds.
    pub(crate) fn is_small(&self, dir: Node) -> bool
        ensures { result ≡ option_map_or (λ entries. nat_le (length entries) SMALL) (entries_at self.now dir) true }
    {
        match self.map_at(dir) {
            Some(map) => map.len() <= SMALL,
            None => true,
        }
    }

    /// Whether a directory has no entry.
    pub(crate) fn is_empty(&self, dir: Node) -> bool
        ensures { IsTrue result ↔ ((n : List ℕ) → entry_in self.now dir n ≡ None) }
    {
        match self.map_at(dir) {
            Some(map) => map.is_empty(),
            None => true,
        }
    }

    /// The names of a directory's entries by their bytes. NoMemory where their room was refused.
    pub(crate) fn names(&self, alloc: Global, dir: Node) -> Result<Names, NoMemory>
        ensures same { IfOk result (λ names. names ≡ names_at self.now dir) }
        ensures sorted { IfOk result (λ names. IsStrictlySortedBy (slice_cmp nat_cmp) names) }
    {
        match self.map_at(dir) {
            Some(map) => map.names(alloc),
            None => Ok(Names::new(alloc)),
        }
    }

    /// Lets an entry of a directory lead to a node. NoMemory where room was refused.
    pub(crate) fn link(
        &mut self,
        alloc: Global,
        dir: Node,
        name: &LentName<'_>,
        x: Node,
    ) -> Result<(), NoMemory>
        requires { has_map self.old dir ≡ true }
        ensures ok { OnOk result (SetsEntry self.old self.new dir name.now (Some x)) }
        ensures err { OnErr result (self.new ≡ self.old) }
    {
        let Some(key) = key_at(&self.keys, dir) else {
            unreachable!();
        };
        put_in(&mut self.maps, alloc, key, name, x)
    }

    /// Lets an entry that is there lead to another node. Takes no memory.
    pub(crate) fn relink(&mut self, dir: Node, name: &LentName<'_>, x: Node)
        requires { IsSome (entry_in self.old dir name.now) }
        ensures { SetsEntry self.old self.new dir name.now (Some x) }
    {
        if let Some(key) = key_at(&self.keys, dir) {
            set_in(&mut self.maps, key, name, x);
        }
    }

    /// Takes an entry away. Takes no memory.
    pub(crate) fn unlink(&mut self, dir: Node, name: &LentName<'_>)
        ensures { SetsEntry self.old self.new dir name.now None }
    {
        if let Some(key) = key_at(&self.keys, dir) {
            take_from(&mut self.maps, key, name);
        }
    }

    /// A node more, of the next number, with a map or without. NoMemory where its room was refused.
    pub(crate) fn grow(&mut self, alloc: Global, mapped: bool) -> Result<(), NoMemory>
        ensures ok { OnOk result (self.new ≡ self.old ++ new_entries mapped ∷ []) }
        ensures err { OnErr result (self.new ≡ self.old) }
    {
        self.keys.reserve(1)?;
        self.maps.reserve(1)?;
        let key = add_map(&mut self.maps, alloc, mapped);
        self.keys.push_reserved(key);
        Ok(())
    }

    /// A node more, of the next number, at a new entry. NoMemory where its room was refused.
    pub(crate) fn add(
        &mut self,
        alloc: Global,
        dir: Node,
        name: &LentName<'_>,
        mapped: bool,
    ) -> Result<(), NoMemory>
        requires { has_map self.old dir ≡ true }
        ensures ok { OnOk result (AddsNode self.old self.new dir name.now mapped) }
        ensures err { OnErr result (self.new ≡ self.old) }
    {
        let Some(dir_key) = key_at(&self.keys, dir) else {
            unreachable!();
        };
        let x = Node::new(self.keys.len() as u64);
        self.keys.reserve(1)?;
        self.maps.reserve(1)?;
        put_in(&mut self.maps, alloc, dir_key, name, x)?;
        let key = add_map(&mut self.maps, alloc, mapped);
        self.keys.push_reserved(key);
        Ok(())
    }

    /// Gives the place of a directory's map back. Takes no memory.
    pub(crate) fn give_back(&mut self, x: Node)
        ensures { LosesMap self.old self.new x }
    {
        if let Some(key) = key_at(&self.keys, x) {
            self.keys[x.number() as usize] = None;
            let map = self.maps.remove(key);
            drop(map);
        }
    }
}
