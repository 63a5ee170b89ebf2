//! What one tree tells of a line, and the trees of a section's beginning.
ghost use Rattle.std.specs.Prelude.{IfOk};
ghost use Rattle.tree_model.specs.Trees.{IsTree};

use event_log::Output;
use fixtures::{answered, base_tree, names_of};
use path_text::{Errno, NoMemory};
use std::alloc::Global;
use tree_list::ListTree;
use tree_model::{Actor, HandleNo, Tree};
use tree_slab::SlabTree;

/// How many entries each of the indexed trees remembers.
const CAPS: [usize; 6] = [1, 2, 4, 256, 1024, 65_536];

/// The plain tree: the top alone, or the base tree.
pub fn plain(alloc: Global, is_top: bool) -> Result<ListTree, Errno>
    ensures { IfOk result (λ tree. IsTree tree.nodes) }
{
    if is_top {
        return Ok(ListTree::new(alloc)?);
    }
    base_tree(alloc)
}

/// Indexed trees of the same beginning.
pub fn indexed(alloc: Global, is_top: bool, list: &ListTree) -> Result<Vec<SlabTree>, Errno>
    requires { IsTree list.now.nodes }
{
    let mut trees = Vec::new(alloc);
    for cap in CAPS {
        let tree = if is_top {
            SlabTree::new(alloc, cap)?
        } else {
            SlabTree::from_list(alloc, list, cap)?
        };
        trees.push(tree)?;
    }
    Ok(trees)
}

/// The handle that an actor is granted on a directory, or why it isn't. Errors: those of the path's names; NoMemory.
fn granted<T: Tree>(
    alloc: Global,
    tree: &mut T,
    actor: u32,
    path: &str,
) -> Result<Result<HandleNo, Errno>, Errno> {
    let names = names_of(alloc, path)?;
    Ok(tree.grant(alloc, Actor::new(actor), &names))
}

fn write_granted(out: &mut Output, granted: Result<HandleNo, Errno>) -> Result<(), NoMemory> {
    match granted {
        Ok(handle) => {
            out.text("handle ")?;
            out.number(handle.number())
        }
        Err(error) => {
            out.text("refused ")?;
            out.text(error.name())
        }
    }
}

/// Takes a step so many times: `N STEP`. An answer ends with a semicolon.
fn take_times<T: Tree>(
    alloc: Global,
    tree: &mut T,
    actor: u32,
    rest: &str,
    out: &mut Output,
) -> Result<(), NoMemory> {
    let (times, step) = rest.split_once(' ').unwrap_or(("", ""));
    for _ in 0..times.parse::<u16>().unwrap_or(0) {
        let answer = answered(alloc, tree, actor, step)?;
        out.bytes(answer.as_slice())?;
        out.text(";")?;
    }
    Ok(())
}

/// Takes a step, and tells whether the tree was left as it was.
fn take_still<T: Tree>(
    alloc: Global,
    tree: &mut T,
    actor: u32,
    step: &str,
    out: &mut Output,
) -> Result<(), Errno> {
    let before = tree.snapshot(alloc)?;
    let answer = answered(alloc, tree, actor, step)?;
    let after = tree.snapshot(alloc)?;
    out.bytes(answer.as_slice())?;
    let is_same = after.same(&before);
    out.text(if is_same {
        ", and nothing changes"
    } else {
        ", and the tree changes"
    })?;
    Ok(())
}

/// What a tree answers an actor.
pub fn tell<T: Tree>(
    alloc: Global,
    tree: &mut T,
    actor: u32,
    what: &str,
    out: &mut Output,
) -> Result<(), Errno> {
    let (word, rest) = what.split_once(' ').unwrap_or((what, ""));
    match word {
        "grant" => write_granted(out, granted(alloc, tree, actor, rest)?)?,
        "held" => out.number(tree.held(Actor::new(actor)) as u64)?,
        "times" => take_times(alloc, tree, actor, rest, out)?,
        "still" => take_still(alloc, tree, actor, rest, out)?,
        _ => out.bytes(answered(alloc, tree, actor, what)?.as_slice())?,
    }
    Ok(())
}
