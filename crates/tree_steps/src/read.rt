//! The ways up and down a tree, of which each look at its nodes passes one entry.
ghost use Rattle.std.specs.Prelude.{◌≡◌, IfOk};
ghost use Rattle.tree_model.specs.Steps.{directory_at};
ghost use Rattle.tree_model.specs.State.{TOP, is_within, names_below};

use path_text::{Errno, Names, NoMemory};
use std::alloc::Global;
use tree_model::{Inode, Node, child, is_dir, place_at, top};

/// Whether a node is `top` or stands below it.
#[tactic(auto, using(crate::proofs::Nodes::is_within_up))]
pub fn is_within(nodes: &[Inode], top: Node, x: Node) -> bool
    ensures { result ≡ is_within nodes.now top x }
{
    let mut at = x;
    for _ in 0..nodes.len() {
        if at == top {
            return true;
        }
        let Some(place) = place_at(nodes, at) else {
            return false;
        };
        at = place.parent;
    }
    at == top
}

/// The names, the innermost first, at which a node stands below `top`; None where it doesn't. NoMemory
/// where their room was refused.
#[tactic(auto, using(crate::proofs::Nodes::names_within_more))]
pub fn names_below(
    alloc: Global,
    nodes: &[Inode],
    top: Node,
    x: Node,
) -> Result<Option<Names>, NoMemory>
    ensures { IfOk result (λ names. names ≡ names_below nodes.now top x) }
{
    let mut names = Names::new(alloc);
    let mut at = x;
    for _ in 0..nodes.len() {
        if at == top {
            return Ok(Some(names));
        }
        let Some(place) = place_at(nodes, at) else {
            return Ok(None);
        };
        names.push_bytes(place.name.bytes())?;
        at = place.parent;
    }
    Ok((at == top).then_some(names))
}

/// The directory at these names below the top, no link followed. Errors, in this order: at each name
/// NotDir and NotFound, NotDir at the end.
#[tactic(auto, using(crate::proofs::Ways::ways))]
pub fn directory_at(nodes: &[Inode], names: &Names) -> Result<Node, Errno>
    ensures { result ≡ directory_at nodes.now TOP names.now }
{
    let mut at = top();
    for next in 0..names.len() {
        if !is_dir(nodes, at) {
            return Err(Errno::NotDir);
        }
        let Some(there) = child(nodes, at, names.get(next)) else {
            return Err(Errno::NotFound);
        };
        at = there;
    }
    if is_dir(nodes, at) {
        Ok(at)
    } else {
        Err(Errno::NotDir)
    }
}
