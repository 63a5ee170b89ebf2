//! A path resolved on a tree on which nobody else acts meanwhile: a walk, driven to its end.
ghost use Rattle.std.specs.Prelude.{◌≡◌, ◌<◌};
ghost use Rattle.step_resolver.specs.Order.{more, steps_left};
ghost use Rattle.step_resolver.specs.TurnView.{turn_view, Keeps, steps_to_come};
ghost use Rattle.step_resolver.specs.Driver.{node_of, IsReady, Drives, ResolvesBelow, IsOwned, LeavesHandles, LeavesRoom};

use crate::footprint_laws::quiet_walks_mean;
use crate::laws::walks_tell;
use crate::walk::{Root, Turn, Walk};
use handles::Standing;
use path_text::{Errno, Flags, PARTS_MAX, Parts, Path};
use std::alloc::Global;
use step_machine::answer_to;
use tree_model::{Actor, Tree, histories_keep_trees, legal_histories_join, steps_leave_the_rest};
use walk_plan::Goal;

/// What is at the end of a path: open, and with the names at which it stands below the root.
#[derive(Debug)]
pub enum Resolved {
    /// The object that the whole path means.
    Found(Standing),
    /// The deepest directory on the way, and the caller's own parts from the first missing name on.
    Partial(Standing, Parts),
}

/// Makes the step that is due on the tree, as this actor, and takes its answer. A step for which there is no memory
/// isn't made, and is taken as refused for that. No node of the tree is changed.
pub fn advance<T: Tree>(alloc: Global, tree: &mut T, actor: Actor, walk: Walk) -> Turn
    ensures driven { Drives walk.way actor (T.state tree.old) (more walk.walking) (T.state tree.new)
        (turn_view walk.way.goal result) }
    ensures kept { Keeps walk.owner walk.way result }
    ensures fewer { steps_to_come result < steps_left walk.walking }
{
    // that the step left the nodes
    steps_leave_the_rest();
    let answer = answer_to(alloc, tree, actor, &walk.due());
    walk.take(answer)
}

/// Resolves a path below a root on which nobody else acts (openat2(2), RESOLVE_IN_ROOT). Gives the object, open, with
/// the names at which it stands below the root; for `Goal::Deepest` perhaps the deepest directory, with the rest of
/// the path. The root's handle must be open, with room for one more handle beside the new one, and for the numbers of
/// all that a walk may open. No node is changed. All else that was opened is closed again, so the tree can be resolved
/// on again.
///
/// Errors: those of `Walk::take` (path_resolution(7); openat2(2)) but Raced, TooMany and BadHandle, since nobody else
/// acts; NoMemory.
pub fn resolve<T: Tree>(
    alloc: Global,
    tree: &mut T,
    root: Root,
    path: Path,
    goal: Goal,
    flags: Flags,
) -> Result<Resolved, Errno>
    requires { IsReady (T.state tree.old) root.owner.actor root.handle
        (node_of (T.state tree.old) root.owner.actor root.handle) }
    ensures means { ResolvesBelow (T.state tree.old) root.owner.actor root.handle path goal flags result }
    ensures owner { IsOwned root.owner result }
    ensures nodes { (T.state tree.new).nodes ≡ (T.state tree.old).nodes }
    ensures handles { LeavesHandles (T.state tree.old) root.owner.actor (T.state tree.new) result }
    ensures room { LeavesRoom (T.state tree.old) root.owner.actor (T.state tree.new) result }
{
    // what the end tells; that it is what the path means; that there is a tree again; and that the steps make one
    // history
    walks_tell();
    quiet_walks_mean();
    histories_keep_trees();
    legal_histories_join();
    // A path has few parts, so that the walk has few steps, and doesn't use up the numbers of handles.
    let few = path.parts.len() <= PARTS_MAX;
    prove!(few);
    let Root { owner, handle } = root;
    let actor = owner.actor;
    let mut turn = Walk::start(alloc, Root { owner, handle }, path, goal, flags);
    loop {
        match turn {
            Turn::More(walk) => turn = advance(alloc, tree, actor, walk),
            Turn::Found(standing) => return Ok(Resolved::Found(standing)),
            Turn::Partial(standing, rest) => return Ok(Resolved::Partial(standing, rest)),
            Turn::Failed(error) => return Err(error),
        }
    }
}
