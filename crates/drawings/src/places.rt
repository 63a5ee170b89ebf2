//! Where what a step speaks of stands, by names from the top of the tree.
ghost use Rattle.std.specs.Prelude.{◌≡◌, IfOk};
ghost use Rattle.tree_model.specs.Steps.{held};
ghost use Rattle.event_log.specs.Output.{Gains};
ghost use Rattle.drawings.specs.Places.{way_to, way_of, place_words, entry_words};

use event_log::Output;
use path_text::{Name, Names, NoMemory};
use std::alloc::Global;
use tree_list::names_below;
use tree_model::{Actor, HandleNo, Inode, Node, Snapshot, top};

/// The names from the top down to a node; None where it stands nowhere any more.
pub(crate) fn way_to(alloc: Global, nodes: &[Inode], x: Node) -> Result<Option<Names>, NoMemory>
    ensures { IfOk result (λ way. way ≡ way_to nodes.now x) }
{
    match names_below(alloc, nodes, top(), x)? {
        Some(names) => Ok(Some(names.reversed(alloc)?)),
        None => Ok(None),
    }
}

/// The node of a handle that is open and the actor's.
pub(crate) fn held(tree: &Snapshot, actor: Actor, handle: HandleNo) -> Option<Node>
    ensures { result ≡ held tree.now actor handle }
{
    match tree.handles().get(handle.number() as usize) {
        Some(Some(open)) if open.actor == actor => Some(open.node),
        _ => None,
    }
}

/// The names from the top down to what an actor's handle is open on.
pub(crate) fn way_of(
    alloc: Global,
    tree: &Snapshot,
    actor: Actor,
    handle: HandleNo,
) -> Result<Option<Names>, NoMemory>
    ensures { IfOk result (λ way. way ≡ way_of tree.now actor handle) }
{
    match held(tree, actor, handle) {
        Some(x) => way_to(alloc, tree.nodes(), x),
        None => Ok(None),
    }
}

/// Adds the place at the end of these names.
pub(crate) fn add_place(
    alloc: Global,
    out: &mut Output,
    way: &Option<Names>,
) -> Result<(), NoMemory>
    ensures { Gains out.old out.new (place_words way.now) result }
{
    match way {
        Some(names) => out.escaped(&names.print(alloc)?),
        None => out.text("gone"),
    }
}

/// Adds the entry of that name at the end of these names.
pub(crate) fn add_entry(
    alloc: Global,
    out: &mut Output,
    way: Option<Names>,
    name: &Name,
) -> Result<(), NoMemory>
    ensures { Gains out.old out.new (entry_words way name.now) result }
{
    match way {
        Some(mut names) => {
            names.push_bytes(name.bytes())?;
            out.escaped(&names.print(alloc)?)
        }
        None => {
            out.text("gone/")?;
            out.escaped(name.bytes())
        }
    }
}
