//! Calls that are copied before each step.
ghost use Rattle.std.specs.Prelude.{◌<◌};
ghost use Rattle.root_ops.specs.Order.{steps_left};
ghost use Rattle.root_ops.specs.TurnView.{steps_to_come};

use crate::calls::step;
use path_text::Errno;
use root_ops::{Call, CallTurn, Reply};
use std::alloc::Global;
use tree_model::{Answer, Tree};

/// Tells a call that there is no memory, until it ends. Its handles are its copy's to close.
pub fn give_up(alloc: Global, call: Call) {
    let mut turn = CallTurn::More(call);
    loop {
        match turn {
            CallTurn::More(call) => turn = call.take(alloc, Answer::Refused(Errno::NoMemory)),
            CallTurn::Done(reply) => {
                drop(reply);
                return;
            }
        }
    }
}

// What a copy of a call has come to after its due step.
fn step_of_copy<T: Tree>(alloc: Global, tree: &mut T, call: Call) -> CallTurn
    ensures { steps_to_come result < steps_left call.below call.doing }
{
    let copied = call.copy(alloc);
    give_up(alloc, call);
    match copied {
        Ok(copy) => step(alloc, tree, copy),
        Err(_) => CallTurn::Done(Reply::Fault(Errno::NoMemory)),
    }
}

/// The reply at a call's end, and the number of steps to there, each made by a copy of what made the one before.
pub fn run_copies<T: Tree>(alloc: Global, tree: &mut T, mut turn: CallTurn) -> (Reply, u32) {
    let mut steps: u32 = 0;
    loop {
        match turn {
            CallTurn::More(call) => {
                steps = steps.saturating_add(1);
                turn = step_of_copy(alloc, tree, call);
            }
            CallTurn::Done(reply) => return (reply, steps),
        }
    }
}
