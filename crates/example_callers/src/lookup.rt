//! A path on a tree on which nobody else acts.
ghost use Rattle.std.specs.Prelude.{◌≡◌, true};
ghost use Rattle.step_resolver.specs.Driver.{node_of, ground_at, IsReady};
ghost use Rattle.step_resolver.specs.Meaning.{reading_means, resolution, resolved};
ghost use Rattle.example_callers.specs.Lookup.{meaning_in, Gives, LeavesAllHandles};

use handles::Owner;
use path_text::{Errno, Flags, Names, Path};
use std::alloc::Global;
use step_resolver::{Goal, Resolved, Root, resolve};
use tree_list::{Entry, ListTree};
use tree_model::{Actor, Node, Tree, handles_stay, steps_keep_trees, steps_leave_the_rest};

/// Opens what the path means below the root, a link at its end followed, and closes it again: the node that it was.
/// Nobody else acts meanwhile. The tree has the nodes and the open handles that it had before.
///
/// Errors: those of `step_resolver::resolve` (path_resolution(7); openat2(2), RESOLVE_IN_ROOT); NoMemory.
pub fn look_up<T: Tree>(
    alloc: Global,
    tree: &mut T,
    root: Root,
    path: Path,
    flags: Flags,
) -> Result<Node, Errno>
    requires { IsReady (T.state tree.old) root.owner.actor root.handle
        (node_of (T.state tree.old) root.owner.actor root.handle) }
    ensures means { Gives (resolution
        (reading_means (ground_at (T.state tree.old) root.owner.actor root.handle flags) path true)) result }
    ensures nodes { (T.state tree.new).nodes ≡ (T.state tree.old).nodes }
    ensures handles { LeavesAllHandles (T.state tree.old) (T.state tree.new) }
{
    // that a Close closes its handle alone, and leaves the nodes
    handles_stay();
    steps_leave_the_rest();
    let Root { owner, handle } = root;
    let actor = owner.actor;
    match resolve(
        alloc,
        tree,
        Root { owner, handle },
        path,
        Goal::Follow,
        flags,
    )? {
        Resolved::Found(standing) => {
            let node = standing.node();
            tree.step(alloc, actor, &standing.into_close().lend())?;
            Ok(node)
        }
        // only a walk to the deepest directory ends in a part of its path
        Resolved::Partial(_standing, _rest) => unreachable!(),
    }
}

// The node that a path text means below the root. Nobody else acts meanwhile.
fn look_up_text<T: Tree>(
    alloc: Global,
    tree: &mut T,
    root: Root,
    text: &[u8],
    flags: Flags,
) -> Result<Node, Errno>
    requires { IsReady (T.state tree.old) root.owner.actor root.handle
        (node_of (T.state tree.old) root.owner.actor root.handle) }
    ensures { Gives (resolution (resolved (T.state tree.old).nodes
        (node_of (T.state tree.old) root.owner.actor root.handle) text.now true flags)) result }
{
    let path = Path::parse(alloc, text)?;
    look_up(alloc, tree, root, path, flags)
}

/// The node that a path text means in the tree of these entries, below the directory at the names `root` from the
/// top. Entry k is node k + 1.
///
/// Errors, in this order: those of the first entry that is refused; those of the root's names; the text's faults;
/// those of `look_up`. NoMemory.
pub fn node_at(
    alloc: Global,
    entries: &[Entry],
    root: &Names,
    text: &[u8],
    flags: Flags,
) -> Result<Node, Errno>
    ensures { Gives (meaning_in entries.now root.now text.now flags) result }
{
    // that the tree stays one when a root is granted
    steps_keep_trees();
    let mut tree = match ListTree::from_entries(alloc, entries) {
        Ok(tree) => tree,
        Err(fault) => return Err(fault.cause),
    };
    let owner = Owner {
        tag: 0,
        actor: Actor::new(0),
    };
    let handle = tree.grant(alloc, owner.actor, root)?;
    look_up_text(alloc, &mut tree, Root { owner, handle }, text, flags)
}
