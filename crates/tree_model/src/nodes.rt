//! What is read off the nodes of a tree, each at the place of its number, by scans from the front.
ghost use Rattle.std.specs.Prelude.{◌≡◌};
ghost use Rattle.std.specs.Option.{option_copied};
ghost use Rattle.tree_model.specs.State.{TOP, object_at, place_at, is_dir, is_gone, is_at, child, parent, has_entries};

use crate::inode::{Inode, Object, Place};
use crate::number::Node;

/// The top, which has the number 0.
pub fn top() -> Node
    ensures { result ≡ TOP }
{
    Node::new(0)
}

/// What a node is. None where no node has the number.
pub fn object_at(nodes: &[Inode], x: Node) -> Option<&Object>
    ensures { option_copied result ≡ object_at nodes.now x }
{
    nodes.get(x.number() as usize).map(|inode| &inode.object)
}

/// Where a node stands: its directory entry. None for the top, for a node whose entry was removed, and where no
/// node has the number.
pub fn place_at(nodes: &[Inode], x: Node) -> Option<&Place>
    ensures { option_copied result ≡ place_at nodes.now x }
{
    match nodes.get(x.number() as usize) {
        Some(inode) => inode.place.as_ref(),
        None => None,
    }
}

/// Whether a node is a directory. A link is none, whatever its text leads to.
pub fn is_dir(nodes: &[Inode], x: Node) -> bool
    ensures { result ≡ is_dir nodes.now x }
{
    match nodes.get(x.number() as usize) {
        Some(inode) => matches!(inode.object, Object::Dir),
        None => false,
    }
}

/// Whether a node is other than the top and stands nowhere: it was removed, and is reached by handles alone.
pub fn is_gone(nodes: &[Inode], x: Node) -> bool
    ensures { result ≡ is_gone nodes.now x }
{
    x != top() && place_at(nodes, x).is_none()
}

/// The directory in which a node stands; the top is its own parent. None for a node that is gone
/// (path_resolution(7), `..`).
pub fn parent(nodes: &[Inode], x: Node) -> Option<Node>
    ensures { result ≡ parent nodes.now x }
{
    if x == top() {
        return Some(x);
    }
    place_at(nodes, x).map(|place| place.parent)
}

// Whether a place is the entry of that name in that directory.
fn is_at(dir: Node, name: &[u8], place: &Option<Place>) -> bool
    ensures { result ≡ is_at dir name.now place.now }
{
    match place {
        Some(place) => place.parent == dir && place.name.bytes() == name,
        None => false,
    }
}

/// The node at the entry of that name in that directory. No link is followed, and `.` and `..` name no entry.
pub fn child(nodes: &[Inode], dir: Node, name: &[u8]) -> Option<Node>
    ensures { result ≡ child nodes.now dir name.now }
{
    for (number, inode) in nodes.iter().enumerate() {
        if is_at(dir, name, &inode.place) {
            return Some(Node::new(number as u64));
        }
    }
    None
}

/// Whether a directory has an entry.
pub fn has_entries(nodes: &[Inode], dir: Node) -> bool
    ensures { result ≡ has_entries nodes.now dir }
{
    nodes.iter().any(|inode| matches!(&inode.place, Some(place) if place.parent == dir))
}
