//! The maps of the standing directories' entries, with a cache in front of the look-ups.
ghost use Rattle.std.specs.Prelude.{◌≡◌, [], List, ℕ, Some, None, true, IsTrue, ◌↔◌, IfOk, OnOk, OnErr, IsSome};
ghost use Rattle.std.specs.Ordering.{nat_cmp};
ghost use Rattle.std.specs.Cmp.Lexicographic.{slice_cmp};
ghost use Rattle.std.specs.List.Sorted.{IsStrictlySortedBy};
ghost use Rattle.tree_slab.specs.Directories.{has_map, entry_in, names_at, SetsEntry, AddsNode, LosesMap};

use crate::cache::DentryCache;
use crate::directories::Directories;
use path_text::{LentName, Names, NoMemory};
use std::alloc::Global;
use std::marker::Model;
use tree_model::Node;

/// The entries of the directories that stand, of which some are remembered. Contracts see the maps alone: what is
/// remembered of an entry is what its directory has.
#[derive(Debug, Drop)]
pub(crate) struct CachedDirectories {
    maps: Directories,
    cache: DentryCache,
}

impl Model for CachedDirectories {
    ghost use Rattle.std.specs.Prelude.{List, ℕ, Option};

    ghost Value = { List (Option (List (List ℕ × ℕ))) };

    ghost use Rattle.tree_slab.specs.Cached.{IsTrueOf};

    ghost view = { λ c. c.maps };

    ghost invariant = { λ c. IsTrueOf c.cache c.maps };
}

impl CachedDirectories {
    /// These maps, of which nothing is remembered yet.
    pub(crate) fn new(maps: Directories, cache: DentryCache) -> CachedDirectories
        requires { cache.entries ≡ [] }
        ensures { result ≡ maps }
    {
        CachedDirectories { maps, cache }
    }

    /// The node to which a directory's entry of that name leads. It isn't noted, so that no memory is taken.
    pub(crate) fn look(&mut self, dir: Node, name: &LentName<'_>) -> Option<Node>
        ensures found { result ≡ entry_in self.old dir name.now }
        ensures same { self.new ≡ self.old }
    {
        match self.cache.look(dir, name) {
            Some(known) => known,
            None => self.maps.find(dir, name),
        }
    }

    /// The same by the directory's map alone.
    pub(crate) fn mapped(&self, dir: Node, name: &LentName<'_>) -> Option<Node>
        ensures { result ≡ entry_in self.now dir name.now }
    {
        self.maps.find(dir, name)
    }

    /// The same, noted where it was read in a map. A note that finds no memory is passed over. The entries of a small
    /// directory aren't noted, since its map finds them as fast.
    pub(crate) fn find(&mut self, dir: Node, name: &LentName<'_>) -> Option<Node>
        ensures found { result ≡ entry_in self.old dir name.now }
        ensures same { self.new ≡ self.old }
    {
        if self.maps.is_small(dir) {
            return self.maps.find(dir, name);
        }
        match self.cache.look(dir, name) {
            Some(known) => known,
            None => self.read(dir, name),
        }
    }

    // What the map has, noted.
    fn read(&mut self, dir: Node, name: &LentName<'_>) -> Option<Node>
        ensures found { result ≡ entry_in self.old dir name.now }
        ensures same { self.new ≡ self.old }
    {
        let there = self.maps.find(dir, name);
        let noted = there;
        let _ = self.cache.note(dir, name, noted);
        there
    }

    /// Whether a directory has no entry.
    pub(crate) fn is_empty(&self, dir: Node) -> bool
        ensures { IsTrue result ↔ ((n : List ℕ) → entry_in self.now dir n ≡ None) }
    {
        self.maps.is_empty(dir)
    }

    /// The names of a directory's entries by their bytes. NoMemory where their room was refused.
    pub(crate) fn names(&self, alloc: Global, dir: Node) -> Result<Names, NoMemory>
        ensures same { IfOk result (λ names. names ≡ names_at self.now dir) }
        ensures sorted { IfOk result (λ names. IsStrictlySortedBy (slice_cmp nat_cmp) names) }
    {
        self.maps.names(alloc, dir)
    }

    /// Lets an entry of a directory lead to a node. NoMemory where room was refused.
    pub(crate) fn link(
        &mut self,
        alloc: Global,
        dir: Node,
        name: &LentName<'_>,
        x: Node,
    ) -> Result<(), NoMemory>
        requires { has_map self.old dir ≡ true }
        ensures ok { OnOk result (SetsEntry self.old self.new dir name.now (Some x)) }
        ensures err { OnErr result (self.new ≡ self.old) }
    {
        self.cache.forget(dir, name);
        self.maps.link(alloc, dir, name, x)
    }

    /// Lets an entry that is there lead to another node. Takes no memory.
    pub(crate) fn relink(&mut self, dir: Node, name: &LentName<'_>, x: Node)
        requires { IsSome (entry_in self.old dir name.now) }
        ensures { SetsEntry self.old self.new dir name.now (Some x) }
    {
        self.cache.forget(dir, name);
        self.maps.relink(dir, name, x);
    }

    /// Takes an entry away. Takes no memory.
    pub(crate) fn unlink(&mut self, dir: Node, name: &LentName<'_>)
        ensures { SetsEntry self.old self.new dir name.now None }
    {
        self.cache.forget(dir, name);
        self.maps.unlink(dir, name);
    }

    /// A node more, of the next number, at a new entry. NoMemory where its room was refused.
    pub(crate) fn add(
        &mut self,
        alloc: Global,
        dir: Node,
        name: &LentName<'_>,
        mapped: bool,
    ) -> Result<(), NoMemory>
        requires { has_map self.old dir ≡ true }
        ensures ok { OnOk result (AddsNode self.old self.new dir name.now mapped) }
        ensures err { OnErr result (self.new ≡ self.old) }
    {
        self.cache.forget(dir, name);
        self.maps.add(alloc, dir, name, mapped)
    }

    /// Gives the place of the map of a directory without entries back. What is remembered of it stays true: it
    /// has no entry and gets none, and its number isn't given again. Takes no memory.
    pub(crate) fn give_back(&mut self, x: Node)
        requires { (n : List ℕ) → entry_in self.old x n ≡ None }
        ensures { LosesMap self.old self.new x }
    {
        self.maps.give_back(x);
    }
}
