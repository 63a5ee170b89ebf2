//! The nodes of a tree by their numbers, and beside them the maps of their entries.
ghost use Rattle.std.specs.Prelude.{◌≡◌, [], Some, IfOk, OnOk};
ghost use Rattle.tree_model.specs.State.{put_at, is_directory};
ghost use Rattle.tree_model.specs.Trees.{IsTree};
ghost use Rattle.tree_list.specs.Build.{top_alone};
ghost use Rattle.tree_slab.specs.Index.{is_standing_dir, HasEmptyMaps, HasParentMap, Links, IsIndexed};

use crate::cache::DentryCache;
use crate::cached::CachedDirectories;
use crate::directories::Directories;
use path_text::{Errno, LentName, Names, NoMemory};
use std::alloc::Global;
use std::marker::Model;
use tree_list::{GrowingNodes, put_at};
use tree_model::{Inode, Node, Object, Place, is_dir, is_gone};
use tree_steps::{NodeTable, make_fault};

/// The nodes of a tree, whose entries are found by maps. Contracts see them as the list of the nodes.
#[derive(Debug, Drop)]
pub(crate) struct Nodes {
    inodes: Vec<Inode>,
    directories: CachedDirectories,
}

impl Model for Nodes {
    ghost use Rattle.std.specs.Prelude.{List};
    ghost use Rattle.tree_model.specs.declared.inode.Inode.{Inode};

    ghost Value = { List Inode };

    ghost use Rattle.tree_slab.specs.Index.{IsIndexed};

    ghost view = { λ n. n.inodes.items };

    ghost invariant = { λ n. IsIndexed n.inodes.items n.directories };
}

// Gives a node another place.
fn set_place(inodes: &mut Vec<Inode>, x: Node, place: Option<Place>)
    ensures { inodes.new.items ≡ put_at inodes.old.items x place }
{
    put_at(inodes.as_mut_slice(), x, place);
}

// Whether a node is a directory that is the top or stands somewhere.
fn is_standing_dir(inodes: &[Inode], x: Node) -> bool
    ensures { result ≡ is_standing_dir inodes.now x }
{
    is_dir(inodes, x) && !is_gone(inodes, x)
}

// Whether a new node is a directory.
fn is_directory(object: &Object) -> bool
    ensures { result ≡ is_directory (Some object.now) }
{
    matches!(object, Object::Dir)
}

// The maps of the directories that stand, without entries. NoMemory where room was refused.
fn empty_maps(alloc: Global, inodes: &[Inode]) -> Result<Directories, NoMemory>
    ensures { IfOk result (HasEmptyMaps inodes.now) }
{
    let mut directories = Directories::new(alloc);
    for number in 0..inodes.len() {
        let x = Node::new(number as u64);
        directories.grow(alloc, is_standing_dir(inodes, x))?;
    }
    Ok(directories)
}

// Lets a node's entry lead to it, if it has one. NoMemory where room was refused.
fn link(
    directories: &mut Directories,
    alloc: Global,
    place: &Option<Place>,
    x: Node,
) -> Result<(), NoMemory>
    requires { HasParentMap directories.old place.now }
    ensures { OnOk result (Links directories.old directories.new place.now x) }
{
    let Some(place) = place else {
        return Ok(());
    };
    directories.link(alloc, place.parent, &place.name.lend(), x)
}

// Lets each node's entry lead to it. NoMemory where room was refused.
fn link_all(directories: &mut Directories, alloc: Global, inodes: &[Inode]) -> Result<(), NoMemory>
    requires tree { IsTree inodes.now }
    requires empty { HasEmptyMaps inodes.now directories.old }
    ensures { OnOk result (IsIndexed inodes.now directories.new) }
{
    for (number, inode) in inodes.iter().enumerate() {
        link(directories, alloc, &inode.place, Node::new(number as u64))?;
    }
    Ok(())
}

impl Nodes {
    /// The top alone, and a cache that remembers nothing yet. NoMemory where its room was refused.
    pub(crate) fn new(alloc: Global, cache: DentryCache) -> Result<Nodes, NoMemory>
        requires { cache.entries ≡ [] }
        ensures { IfOk result (λ nodes. nodes ≡ top_alone) }
    {
        let mut inodes = Vec::new(alloc);
        inodes.push(Inode {
            object: Object::Dir,
            place: None,
        })?;
        Nodes::from_vec(alloc, inodes, cache)
    }

    /// The nodes of a tree, and a cache that remembers nothing yet. NoMemory where room was refused.
    pub(crate) fn from_vec(
        alloc: Global,
        inodes: Vec<Inode>,
        cache: DentryCache,
    ) -> Result<Nodes, NoMemory>
        requires tree { IsTree inodes.items }
        requires new { cache.entries ≡ [] }
        ensures { IfOk result (λ nodes. nodes ≡ inodes.items) }
    {
        let mut maps = empty_maps(alloc, &inodes)?;
        link_all(&mut maps, alloc, &inodes)?;
        Ok(Nodes {
            inodes,
            directories: CachedDirectories::new(maps, cache),
        })
    }
}

impl NodeTable for Nodes {
    ghost inodes = { λ nodes. nodes };

    fn as_slice(&self) -> &[Inode] {
        self.inodes.as_slice()
    }

    fn find(&mut self, dir: Node, name: &LentName<'_>) -> Option<Node> {
        self.directories.find(dir, name)
    }

    fn look(&mut self, dir: Node, name: &LentName<'_>) -> Option<Node> {
        self.directories.look(dir, name)
    }

    fn note(&mut self, dir: Node, name: &LentName<'_>) {
        self.directories.find(dir, name);
    }

    fn has_entries(&self, dir: Node) -> bool {
        !self.directories.is_empty(dir)
    }

    fn names(&self, alloc: Global, dir: Node) -> Result<Names, NoMemory> {
        self.directories.names(alloc, dir)
    }

    fn add(&mut self, alloc: Global, place: Place, object: Object) -> Result<(), NoMemory> {
        let mapped = is_directory(&object);
        self.inodes.reserve(1)?;
        self.directories
            .add(alloc, place.parent, &place.name.lend(), mapped)?;
        let inode = Inode {
            object,
            place: Some(place),
        };
        self.inodes.push_reserved(inode);
        Ok(())
    }

    fn take_out(&mut self, dir: Node, name: &LentName<'_>, x: Node) {
        self.directories.unlink(dir, name);
        self.directories.give_back(x);
        set_place(&mut self.inodes, x, None);
    }

    fn move_to(
        &mut self,
        alloc: Global,
        from: &Place,
        to: Place,
        moved: Node,
    ) -> Result<(), NoMemory> {
        self.directories
            .link(alloc, to.parent, &to.name.lend(), moved)?;
        self.directories.unlink(from.parent, &from.name.lend());
        set_place(&mut self.inodes, moved, Some(to));
        Ok(())
    }

    fn replace(&mut self, from: &Place, to: Place, moved: Node, there: Node) {
        self.directories.relink(to.parent, &to.name.lend(), moved);
        self.directories.unlink(from.parent, &from.name.lend());
        self.directories.give_back(there);
        set_place(&mut self.inodes, there, None);
        set_place(&mut self.inodes, moved, Some(to));
    }

    fn exchange(&mut self, from: Place, to: Place, moved: Node, there: Node) {
        self.directories.relink(to.parent, &to.name.lend(), moved);
        self.directories
            .relink(from.parent, &from.name.lend(), there);
        set_place(&mut self.inodes, moved, Some(to));
        set_place(&mut self.inodes, there, Some(from));
    }
}

impl GrowingNodes for Nodes {
    ghost inodes = { λ nodes. nodes };

    // While entries are added none is noted.
    fn node_at(&self, parent: Node, name: &LentName<'_>) -> Option<Node> {
        self.directories.mapped(parent, name)
    }

    fn grow(
        &mut self,
        alloc: Global,
        at: Place,
        object: Object,
    ) -> Result<Result<(), Errno>, NoMemory> {
        if let Some(fault) = make_fault(self, at.parent, &at.name.lend()) {
            return Ok(Err(fault));
        }
        self.add(alloc, at, object)?;
        Ok(Ok(()))
    }
}
