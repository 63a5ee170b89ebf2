//! One step of a call through a book, and the end of a call that is given up.
ghost use Rattle.std.specs.Prelude.{◌≡◌, ◌<◌, false};
ghost use Rattle.root_ops.specs.Order.{due, steps_left};
ghost use Rattle.root_ops.specs.TurnView.{turn_view, Keeps, steps_to_come};
ghost use Rattle.race_core.specs.Advance.{IsStepped, Advances};
ghost use Rattle.race_core.specs.GivenUp.{IsGivenUp};
ghost use Rattle.race_core.specs.Turns.{stepped_by};

use crate::book::Book;
use path_text::Errno;
use root_ops::{Call, CallTurn};
use std::alloc::Global;
use tree_model::{Actor, Answer, StepOf, Tree};

// The answer to the step that is due: the book's, or its refusal.
fn answer_due<T: Tree>(alloc: Global, book: &mut Book<T>, actor: Actor, call: &Call) -> Answer
    ensures { IsStepped book.old actor (due call.now.below call.now.doing) result book.new }
{
    match book.step(alloc, actor, &call.due()) {
        Ok(answer) => answer,
        Err(error) => Answer::Refused(error),
    }
}

/// Makes the step that is due through the book, as this actor, and takes its answer. A step that the book refuses
/// isn't made, and is taken as refused so.
pub(crate) fn advance<T: Tree>(
    alloc: Global,
    book: &mut Book<T>,
    actor: Actor,
    call: Call,
) -> CallTurn
    ensures advances { Advances book.old actor call (turn_view result) book.new }
    ensures kept { Keeps call.below result }
    ensures fewer { steps_to_come result < steps_left call.below call.doing }
{
    let answer = answer_due(alloc, book, actor, &call);
    let mut call = call;
    if call.pass(&answer) {
        return CallTurn::More(call);
    }
    call.take(alloc, answer)
}

// The answer to the step that is due where there is no memory for it: a Close takes none, and is made all the same.
fn answer_without<T: Tree>(alloc: Global, book: &mut Book<T>, actor: Actor, call: &Call) -> Answer
    ensures answer { result ≡ (stepped_by false book.old actor (due call.now.below call.now.doing)).answer }
    ensures left { book.new ≡ (stepped_by false book.old actor (due call.now.below call.now.doing)).book }
{
    match call.due() {
        StepOf::Close(handle) => match book.step(alloc, actor, &StepOf::Close(handle)) {
            Ok(answer) => answer,
            Err(error) => Answer::Refused(error),
        },
        _ => Answer::Refused(Errno::NoMemory),
    }
}

/// Gives a call up: it goes on to its end as if there were no memory for any step. So each Close that is due is
/// made, at every other step it is told that there is no memory, and nothing else is done. Takes no memory.
pub(crate) fn give_up<T: Tree>(alloc: Global, book: &mut Book<T>, actor: Actor, call: Call)
    ensures { IsGivenUp actor book.old call book.new }
{
    let mut turn = CallTurn::More(call);
    loop {
        match turn {
            CallTurn::More(call) => {
                let answer = answer_without(alloc, book, actor, &call);
                turn = call.take(alloc, answer);
            }
            CallTurn::Done(_reply) => return,
        }
    }
}
