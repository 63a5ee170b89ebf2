//! The names from one node down to another.
ghost use Rattle.std.specs.Prelude.{◌≡◌, ◌≤◌, length, reverse, IfOk};
ghost use Rattle.std.specs.Option.{option_map};
ghost use Rattle.tree_model.specs.State.{names_below};
ghost use Rattle.tree_steps.specs.Below.{Tells};

use crate::read::names_below;
use path_text::{Names, NoMemory};
use std::alloc::Global;
use tree_model::{Inode, Node, place_at};

// From so few names below, the names are listed by one call for each, and need no list the other way round.
const SHALLOW: usize = 64;

/// Where a node stands, as far as was gone up from it.
#[derive(Clone, Copy, Debug)]
pub(crate) enum Found {
    /// Below the top, by the names that were added.
    Below,
    /// Not below it.
    Apart,
    /// Further up than was gone.
    Higher,
}

// Adds the names from the top down to a node, the outermost first, where it stands at most so deep below. Room is got
// at the top, for these and for `more` names of so many bytes that come after them.
fn add_names(
    names: &mut Names,
    nodes: &[Inode],
    top: Node,
    x: Node,
    depth: usize,
    more: (usize, usize),
) -> Result<Found, NoMemory>
    ensures { IfOk result (λ found. Tells found depth nodes.now top x names.old names.new) }
{
    if x == top {
        names.reserve(more.0, more.1)?;
        return Ok(Found::Below);
    }
    if depth == 0 {
        return Ok(Found::Higher);
    }
    let Some(place) = place_at(nodes, x) else {
        return Ok(Found::Apart);
    };
    let name = place.name.bytes();
    let more = (more.0.saturating_add(1), more.1.saturating_add(name.len()));
    let found = add_names(names, nodes, top, place.parent, depth - 1, more)?;
    match found {
        Found::Below => {
            names.push_bytes(name)?;
            Ok(Found::Below)
        }
        Found::Apart => Ok(Found::Apart),
        Found::Higher => Ok(Found::Higher),
    }
}

// How many parents are gone up at first. No node of a tree has more parents than there are nodes.
fn depth_of(nodes: &[Inode]) -> usize
    ensures { result ≤ length nodes.now }
{
    if nodes.len() < SHALLOW {
        nodes.len()
    } else {
        SHALLOW
    }
}

/// The names from the top down to a node, the outermost first, where it stands below. NoMemory where their room was
/// refused.
pub(crate) fn names_down(
    alloc: Global,
    nodes: &[Inode],
    top: Node,
    x: Node,
) -> Result<Option<Names>, NoMemory>
    ensures { IfOk result (λ names. names ≡ option_map reverse (names_below nodes.now top x)) }
{
    let mut names = Names::new(alloc);
    match add_names(&mut names, nodes, top, x, depth_of(nodes), (0, 0))? {
        Found::Below => Ok(Some(names)),
        Found::Apart => Ok(None),
        Found::Higher => names_from_deep(alloc, nodes, top, x),
    }
}

// The same, however deep.
#[inline(never)]
fn names_from_deep(
    alloc: Global,
    nodes: &[Inode],
    top: Node,
    x: Node,
) -> Result<Option<Names>, NoMemory>
    ensures { IfOk result (λ names. names ≡ option_map reverse (names_below nodes.now top x)) }
{
    match names_below(alloc, nodes, top, x)? {
        Some(names) => Ok(Some(names.reversed(alloc)?)),
        None => Ok(None),
    }
}
