//! What a tree keeps of each node and of each open handle.
ghost use Rattle.std.specs.Prelude.{◌≡◌, IsTrue, ◌↔◌, IfOk};
ghost use Rattle.tree_model.specs.Steps.{kind_of};

use crate::number::{Actor, Node};
use crate::step::Kind;
use path_text::{Bytes, Name, NoMemory};
use std::alloc::Global;

/// What a node is. It stays that for good.
#[derive(Debug, Drop)]
pub enum Object {
    Dir,
    File,
    /// A symbolic link and its text.
    Link(Bytes),
}

impl Object {
    /// What it is, without a link's text.
    pub fn kind(&self) -> Kind
        ensures { result ≡ kind_of self.now }
    {
        match self {
            Object::Dir => Kind::Dir,
            Object::File => Kind::File,
            Object::Link(_) => Kind::Link,
        }
    }

    /// An equal object. NoMemory where its room was refused.
    pub fn copy(&self, alloc: Global) -> Result<Object, NoMemory>
        ensures { IfOk result (λ copy. copy ≡ self.now) }
    {
        Ok(match self {
            Object::Dir => Object::Dir,
            Object::File => Object::File,
            Object::Link(text) => Object::Link(text.copy(alloc)?),
        })
    }

    /// Whether the two are equal. Takes no memory.
    pub fn same(&self, other: &Object) -> bool
        ensures { IsTrue result ↔ (self.now ≡ other.now) }
    {
        match (self, other) {
            (Object::Dir, Object::Dir) | (Object::File, Object::File) => true,
            (Object::Link(text), Object::Link(t)) => text.same(t),
            _ => false,
        }
    }
}

/// Where a node stands: its directory entry, which is a directory and a name in it. Entries are in the order of the
/// directory's number, then of the name's bytes.
#[derive(Debug, Drop, PartialEq, Eq, PartialOrd, Ord)]
pub struct Place {
    /// The directory.
    pub parent: Node,
    /// The entry's name.
    pub name: Name,
}

impl Place {
    /// An equal place. NoMemory where its room was refused.
    pub fn copy(&self, alloc: Global) -> Result<Place, NoMemory>
        ensures { IfOk result (λ copy. copy ≡ self.now) }
    {
        Ok(Place {
            parent: self.parent,
            name: self.name.copy(alloc)?,
        })
    }

    /// Whether the two are equal. Takes no memory.
    pub fn same(&self, other: &Place) -> bool
        ensures { IsTrue result ↔ (self.now ≡ other.now) }
    {
        self.parent == other.parent && self.name.same(&other.name)
    }
}

/// A node: what it is, and where it stands. The top has no place, and neither has a node whose entry was
/// removed.
#[derive(Debug, Drop)]
pub struct Inode {
    pub object: Object,
    pub place: Option<Place>,
}

impl Inode {
    /// An equal node. NoMemory where its room was refused.
    pub fn copy(&self, alloc: Global) -> Result<Inode, NoMemory>
        ensures { IfOk result (λ copy. copy ≡ self.now) }
    {
        let place = match &self.place {
            Some(place) => Some(place.copy(alloc)?),
            None => None,
        };
        Ok(Inode {
            object: self.object.copy(alloc)?,
            place,
        })
    }

    /// Whether the two are equal. Takes no memory.
    pub fn same(&self, other: &Inode) -> bool
        ensures { IsTrue result ↔ (self.now ≡ other.now) }
    {
        let same_place = match (&self.place, &other.place) {
            (Some(place), Some(p)) => place.same(p),
            (None, None) => true,
            _ => false,
        };
        same_place && self.object.same(&other.object)
    }
}

/// An open handle: whose it is, and what it was opened on.
#[derive(Clone, Copy, Debug, PartialEq, Eq)]
pub struct OpenHandle {
    pub actor: Actor,
    pub node: Node,
}
