//! Adds the entries of a list to nodes, however these are kept, and builds a tree of such a list.
ghost use Rattle.std.specs.Prelude.{◌≡◌, ◌↔◌, IsTrue, MatchResult, Ok, IfSome, IfErr, IfOk, OnOk};
ghost use Rattle.tree_model.specs.State.{TOP};
ghost use Rattle.tree_list.specs.Build.{new_fault, object_of, node_at, way, adds, adds_all, built, StandsIn, IsFaultFrom, IsFaultOf};
ghost use Rattle.tree_list.specs.Changes.{IsTry};

use crate::growing::GrowingNodes;
use crate::indexed::IndexedNodes;
use path_text::{Bytes, Errno, Names, NoMemory, Path};
use std::alloc::Global;
use thiserror::Error;
use tree_model::{Inode, Node, Object, Place, top};

/// What a new entry is.
#[derive(Debug, Drop)]
pub enum New {
    Dir,
    File,
    /// A symbolic link with that text.
    Link(Bytes),
}

/// An entry to be built, and the names from the top at which it is to stand.
#[derive(Debug, Drop)]
pub struct Entry {
    pub at: Names,
    pub what: New,
}

/// The first entry that was refused, by its place in the list, and why.
#[derive(Clone, Copy, Debug, PartialEq, Eq, Error)]
#[error("entry {at}: {cause}")]
pub struct BuildFault {
    pub at: usize,
    pub cause: Errno,
}

// Why the text of a new link is no path text.
fn new_fault(what: &New) -> Option<Errno>
    ensures { result ≡ new_fault what.now }
{
    match what {
        New::Link(text) => Path::fault_of(text.as_slice()),
        New::Dir | New::File => None,
    }
}

// What a new entry becomes.
fn object_of(alloc: Global, what: &New) -> Result<Object, NoMemory>
    ensures { IfOk result (λ object. object ≡ object_of what.now) }
{
    Ok(match what {
        New::Dir => Object::Dir,
        New::File => Object::File,
        New::Link(text) => Object::Link(text.copy(alloc)?),
    })
}

// Whether two entries at these names stand in one directory: their names but the last are the same.
fn are_together(names: &Names, others: &Names) -> bool
    ensures { IsTrue result ↔ (way names.now ≡ way others.now) }
{
    let last = names.len().saturating_sub(1);
    if others.len().saturating_sub(1) != last {
        return false;
    }
    for at in 0..last {
        if names.get(at) != others.get(at) {
            return false;
        }
    }
    true
}

// The parent of an entry at these names, found from the top.
fn parent_of<N: GrowingNodes>(nodes: &N, names: &Names) -> Option<Node>
    ensures { result ≡ node_at (N.inodes nodes.now) TOP (way names.now) }
{
    let mut parent = top();
    for step in 0..names.len().saturating_sub(1) {
        let Some(next) = nodes.node_at(parent, &names.lend(step)) else {
            return None;
        };
        parent = next;
    }
    Some(parent)
}

// The same, where another entry's names are given, and its parent if that is known. Entries mostly follow others of
// their directory, which is then not looked up again.
fn parent_near<N: GrowingNodes>(
    nodes: &N,
    before: &Names,
    known: Option<Node>,
    names: &Names,
) -> Option<Node>
    requires { IfSome known (StandsIn (N.inodes nodes.now) before.now) }
    ensures { result ≡ node_at (N.inodes nodes.now) TOP (way names.now) }
{
    match known {
        Some(parent) if are_together(before, names) => Some(parent),
        _ => parent_of(nodes, names),
    }
}

// Adds an entry, and gives its parent. The names of another are given, and its parent if that is known.
fn add<N: GrowingNodes>(
    nodes: &mut N,
    alloc: Global,
    before: &Names,
    known: Option<Node>,
    entry: &Entry,
) -> Result<Node, Errno>
    requires { IfSome known (StandsIn (N.inodes nodes.old) before.now) }
    ensures added { IsTry (N.inodes nodes.old) (N.inodes nodes.new) (adds (N.inodes nodes.old) entry.now) result }
    ensures parent { IfOk result (StandsIn (N.inodes nodes.new) entry.now.at) }
{
    if let Some(fault) = new_fault(&entry.what) {
        return Err(fault);
    }
    let Some(last) = entry.at.len().checked_sub(1) else {
        return Err(Errno::Exists);
    };
    let object = object_of(alloc, &entry.what)?;
    let Some(parent) = parent_near(nodes, before, known, &entry.at) else {
        return Err(Errno::NotFound);
    };
    let at = Place {
        parent,
        name: entry.at.to_name(alloc, last)?,
    };
    nodes.grow(alloc, at, object)??;
    Ok(parent)
}

/// Adds these entries to the nodes, each at its names below the top, in the order of the list: entry k is the node of
/// the k-th number that isn't given yet.
///
/// The fault has the place of the first entry that is refused, and its error, as of `ListTree::from_entries`. The
/// entries before it were added.
#[tactic(auto, using(crate::proofs::Building::adds_all_more, crate::proofs::Building::adds_all_refused, crate::proofs::Building::adds_all_take_more))]
pub fn add_all<N: GrowingNodes>(
    nodes: &mut N,
    alloc: Global,
    entries: &[Entry],
) -> Result<(), BuildFault>
    ensures ok { OnOk result (adds_all 0 (N.inodes nodes.old) entries.now ≡ Ok (N.inodes nodes.new)) }
    ensures err { IfErr result (IsFaultFrom (N.inodes nodes.old) entries.now) }
{
    // The parent of the entry before, once there is one.
    let mut known = None;
    for (at, entry) in entries.iter().enumerate() {
        let before = &entries[at.saturating_sub(1)].at;
        match add(nodes, alloc, before, known, entry) {
            Ok(parent) => known = Some(parent),
            Err(cause) => return Err(BuildFault { at, cause }),
        }
    }
    Ok(())
}

/// The nodes of the tree with these entries, or the first that is refused, and why.
pub(crate) fn build(alloc: Global, entries: &[Entry]) -> Result<Vec<Inode>, BuildFault>
    ensures { MatchResult result (λ nodes. built entries.now ≡ Ok nodes.items) (λ fault. IsFaultOf entries.now fault) }
{
    let mut nodes = IndexedNodes::new(alloc).map_err(|_| BuildFault {
        at: 0,
        cause: Errno::NoMemory,
    })?;
    add_all(&mut nodes, alloc, entries)?;
    Ok(nodes.into_nodes())
}
