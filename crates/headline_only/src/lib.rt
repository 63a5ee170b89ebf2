//! A resolution that is stated by its headline alone.
//!
//! `resolve` drives a walk to its end, on whatever makes its steps. Its contract says what the end tells in every
//! history that has the events which were booked, and nothing of the order of a walk's steps. So the wrong
//! resolutions in must-fail/ are refused by what their ends would have to tell.
#![tactic(auto)]

ghost use Rattle.std.specs.Prelude.{◌≡◌, ◌<◌, ◌++◌, [], ◌∷◌, List, true, IfOk, IsOk, OnErr};
ghost use Rattle.tree_model.specs.declared.answer.Event.{Event};
ghost use Rattle.tree_model.specs.Steps.{takes_no_memory};
ghost use Rattle.step_resolver.specs.Footprint.{IsEnd};
ghost use Rattle.step_resolver.specs.Order.{more, steps_left};
ghost use Rattle.step_resolver.specs.TurnView.{turn_view, Keeps, steps_to_come};
ghost use Rattle.step_resolver.specs.View.{way_from};
ghost use Rattle.headline_only.specs.Alone.{IsAnswer, Leads, TellsAlone};

mod worked_ends;

use path_text::{Errno, Flags, NoMemory, Path};
use std::alloc::Global;
use step_resolver::{Goal, Root, Turn, Walk, headline};
use tree_model::{Actor, Answer, LentStep};
pub use worked_ends::{found_is_worked, wrong_ends_are_refused};

/// What makes an actor's steps, and books them as events. Others may act in between.
pub trait Book {
    /// The events of all actors' steps that were booked for this caller, in their order.
    ghost booked: { Self → List Event };

    /// Makes a step and books it. NoMemory where it wasn't made; a Close always is.
    fn make(&mut self, alloc: Global, actor: Actor, step: &LentStep<'_>) -> Result<Answer, NoMemory>
        ensures ok { IfOk result (λ answer. booked self.new
            ≡ booked self.old ++ record { actor = actor; step = step.now; answer = answer } ∷ []) }
        ensures err { OnErr result (booked self.new ≡ booked self.old) }
        ensures no_memory { takes_no_memory step.now ≡ true → IsOk result };
}

/// The answer to the step that is due: the book's, or that there was no memory to make it.
fn answer_due<B: Book>(alloc: Global, book: &mut B, actor: Actor, walk: &Walk) -> Answer
    ensures { IsAnswer walk.now.way walk.now.walking actor (B.booked book.old) (B.booked book.new) result }
{
    match book.make(alloc, actor, &walk.due()) {
        Ok(answer) => answer,
        Err(_) => Answer::Refused(Errno::NoMemory),
    }
}

/// Makes the step that is due, and takes its answer.
fn advance<B: Book>(alloc: Global, book: &mut B, actor: Actor, walk: Walk) -> Turn
    ensures led { Leads walk.way actor (B.booked book.old) (more walk.walking) (B.booked book.new)
        (turn_view walk.way.goal result) }
    ensures kept { Keeps walk.owner walk.way result }
    ensures fewer { steps_to_come result < steps_left walk.walking }
{
    let answer = answer_due(alloc, book, actor, &walk);
    walk.take(answer)
}

/// Makes the steps that are due, one after another, up to the end of the walk.
fn drive<B: Book>(alloc: Global, book: &mut B, actor: Actor, walk: Walk) -> Turn
    ensures led { Leads walk.way actor (B.booked book.old) (more walk.walking) (B.booked book.new)
        (turn_view walk.way.goal result) }
    ensures over { IsEnd (turn_view walk.way.goal result) }
{
    let mut walk = walk;
    loop {
        match advance(alloc, book, actor, walk) {
            Turn::More(next) => walk = next,
            end => return end,
        }
    }
}

/// Resolves a path below a root (openat2(2), RESOLVE_IN_ROOT), its steps made by the book. In every legal history in
/// which the events that were booked are the actor's own, the end tells what was passed or why it failed, and it is
/// what the path means where others leave its entries alone. No step is left out but for want of memory.
///
/// Errors: those of `Walk::start` and `Walk::take`; NoMemory.
pub fn resolve<B: Book>(
    alloc: Global,
    book: &mut B,
    root: Root,
    path: Path,
    goal: Goal,
    flags: Flags,
) -> Turn
    ensures over { IsEnd (turn_view goal result) }
    ensures tells { TellsAlone (way_from root goal flags) path root.owner.actor (B.booked book.old)
        (B.booked book.new) (turn_view goal result) }
{
    headline();
    let Root { owner, handle } = root;
    let actor = owner.actor;
    match Walk::start(alloc, Root { owner, handle }, path, goal, flags) {
        Turn::More(walk) => drive(alloc, book, actor, walk),
        end => end,
    }
}
