//! The answer that a call is given to the step that is due, where a tree makes the step.
ghost use Rattle.step_machine.specs.OnTree.{IsAnswer};

use path_text::Errno;
use std::alloc::Global;
use tree_model::{Actor, Answer, LentStep, Tree};

/// Makes a step on the tree, as this actor. Gives the tree's answer; or, where the tree had no memory to make the step,
/// its refusal by NoMemory, and the tree is as it was. A Close, RemoveFile or RemoveDir takes no memory, and is made.
pub fn answer_to<T: Tree>(alloc: Global, tree: &mut T, actor: Actor, step: &LentStep<'_>) -> Answer
    ensures { IsAnswer step.now actor (T.state tree.old) (T.state tree.new) result }
{
    match tree.step(alloc, actor, step) {
        Ok(answer) => answer,
        Err(_) => Answer::Refused(Errno::NoMemory),
    }
}
