//! The function by which a C program makes calls: a static library of `linux_call::turn`, with its clauses.
//!
//! What a C program owes is said in `host/calls.h`: the state is zero before the first turn of a call, and is left
//! alone between two turns.
#![tactic(auto)]

ghost use Rattle.std.specs.Prelude.{◌≡◌, true, IsSome};
ghost use Rattle.dialogue.specs.Dialogue.{ran};
ghost use Rattle.linux_call.specs.Turns.{HasRoom, IsKept, IsPlain, IsWhole, Stands, Turned, is_told, next_count, told};
ghost use Rattle.linux_call.specs.Whole.{CallDialogue};

use dialogue::Answer;
use linux_call::{Due, Request, State, turn};
use std::alloc::Global;

/// What is due of a call by the answers so far: `linux_call::turn`.
#[unsafe(no_mangle)]
pub extern "C" fn inroot_turn(
    alloc: Global,
    demand: &mut Request,
    state: &mut State,
    first: &mut [u8],
    second: &[u8],
    read: &mut [u8],
    answers: &mut [Answer],
    due: &mut Due,
    room: &mut [u8],
)
    requires { state.old.by_steps ≡ true → IsSome state.old.steps.held }
    ensures held { state.new.by_steps ≡ true → IsSome state.new.steps.held }
    ensures whole { IsPlain demand.old → HasRoom state.old answers.old → IsKept state.old → (s : CallDialogue)
        → IsWhole demand.old first.old second.now s → Stands demand.old first.old s state.old answers.old
        → is_told (ran s (told state.old answers.old)) ≡ true
        → (demand.new ≡ demand.old) × Turned demand.old first.old s (ran s (told state.old answers.old))
        (next_count state.old) state.new answers.old due.new room.new }
{
    turn(
        alloc, demand, state, first, second, read, answers, due, room,
    );
}
