//! An entry removed with all that is below it.
ghost use Rattle.std.specs.Prelude.{◌≡◌, ◌<◌, ◌≤◌};
ghost use Rattle.step_resolver.specs.TurnView.{IsFirstWalk};

use crate::remove_all::clearing::End;
use crate::remove_all::phase::{Phase, WalkTo};
use crate::turn::BulkTurn;
use path_text::{Errno, Flags, Name, Names, NoMemory, PARTS_MAX, Path};
use std::alloc::{AllocFailed, Global};
use std::marker::Model;
use std::mem;
use step_resolver::{Goal, Root, Turn, Walk};
use tree_model::{Answer, LentStep};

mod clearing;
mod copy;
mod frame;
mod laws;
mod like;
mod phase;

pub use clearing::CLEARING_STEPS_MAX;
pub use laws::{
    clearing_limit_is_a_number, quiet_remove_all, raced_removals_need_a_change, remove_all_tells,
};

/// A call that is under way: it removes an entry with all that is below it, by single steps, and follows no link
/// below the target. You can't drop it: make each step that is `due`, and `take` its answer, until the call ends. To
/// give it up, make each Close that is due, and answer `Refused(NoMemory)` to every other step. It lies in one box,
/// and moving it moves a pointer. Contracts see it as a `Removing`: the step that is due, and what the call has come
/// to.
#[derive(Debug)]
pub struct RemoveAll {
    state: Box<State>,
}

// What a call is made of, changed in place at each turn.
#[derive(Debug)]
struct State {
    phase: Phase,
}

impl Model for RemoveAll {
    ghost use Rattle.bulk_ops.specs.RemoveAllOrder.{Removing};

    ghost Value = { Removing };

    ghost use Rattle.bulk_ops.specs.RemoveAllView.{removing_of, IsUnderWay};

    ghost view = { λ r. removing_of r.state.value.phase };

    ghost invariant = { λ r. IsUnderWay r.state.value.phase };
}

impl RemoveAll {
    ghost use Rattle.walk_plan.specs.declared.goal.Goal.TheVariants.{Follow};
    ghost use Rattle.step_resolver.specs.View.{way_from};
    ghost use Rattle.bulk_ops.specs.RemoveAllOrder.{due, steps_left};
    ghost use Rattle.bulk_ops.specs.RemoveAllTurnView.{BeginsTo, StartsTo, TakesTo, steps_to_come, REMOVE_STEPS_MAX};
    ghost use Rattle.bulk_ops.specs.RemoveAllTurnsTell.{TellsBegun, TellsTaken};

    /// Begins to remove the entry of this name in the directory of that path below the root, with all that is below it
    /// (unlink(2), rmdir(2); openat2(2), RESOLVE_IN_ROOT). The flags are those of the walk to the directory. One that
    /// goes on takes memory.
    ///
    /// It may fail before any step: with the errors of `Walk::start`, or else with NoMemory, as if the first step
    /// couldn't be made for want of it. What `take` says of an end holds of these, too.
    pub fn start(
        alloc: Global,
        root: Root,
        directory: Path,
        name: Name,
        flags: Flags,
    ) -> BulkTurn<RemoveAll>
        ensures turn { StartsTo (way_from root Follow flags) name directory result }
        ensures few { steps_to_come result ≤ REMOVE_STEPS_MAX }
        ensures tells { TellsBegun (way_from root Follow flags) name directory result }
    {
        RemoveAll::started(alloc, root, directory, name, flags)
    }

    // The same, as the order of steps has it.
    fn started(
        alloc: Global,
        root: Root,
        directory: Path,
        name: Name,
        flags: Flags,
    ) -> BulkTurn<RemoveAll>
        ensures turn { StartsTo (way_from root Follow flags) name directory result }
        ensures few { steps_to_come result ≤ REMOVE_STEPS_MAX }
    {
        // A path has few parts, which bounds the steps of the walk.
        let few = directory.parts.len() <= PARTS_MAX;
        prove!(few);
        match Walk::start(alloc, root, directory, Goal::Follow, flags) {
            Turn::More(walk) => RemoveAll::first(alloc, walk, name),
            Turn::Failed(error) => BulkTurn::Failed(error),
            // Something is held at the end of a walk, and so no walk ends before its first step.
            Turn::Found(_standing) => unreachable!(),
            Turn::Partial(_standing, _rest) => unreachable!(),
        }
    }

    // The call at the first step of its walk.
    fn first(alloc: Global, walk: Walk, name: Name) -> BulkTurn<RemoveAll>
        requires { IsFirstWalk walk.walking }
        ensures { BeginsTo walk.way name walk.walking result }
    {
        let mut target = Names::new(alloc);
        match target.push(name) {
            Err(_) => BulkTurn::Failed(give_up(walk)),
            Ok(()) => {
                let phase = Phase::Walking(WalkTo { walk, target });
                match Box::new(alloc, State { phase }) {
                    Ok(state) => BulkTurn::More(RemoveAll { state }),
                    Err(AllocFailed { value }) => BulkTurn::Failed(value.give_up()),
                }
            }
        }
    }

    /// The step that is due. It takes no memory: a name is lent from where it lies in the call.
    pub fn due(&self) -> LentStep<'_>
        ensures { result ≡ due self.now }
    {
        self.state.phase.due()
    }

    /// Takes the answer to the due step, and gives the call's next turn. A driver that couldn't make the step, for
    /// want of memory or of room in its book, hands in that refusal. The answer to a Close isn't looked at. A
    /// refused growth counts as NoMemory. Before the call fails it closes everything that it opened, the newest
    /// first, which takes no memory. What was removed stays removed.
    ///
    /// It fails with what its walk fails with; NotDir where the walk's object is no directory; TooMany where the
    /// actor can open no more handles; Busy where a step of clearing would come after `CLEARING_STEPS_MAX` of them;
    /// BadHandle for an answer that doesn't fit the step; and any other refusal of a step.
    ///
    /// If the call ends here, `specs/RemoveAllTells.antt` says of every legal history whose steps of this call led to
    /// the end, whatever others changed in between, what it took away, from where, and why it failed.
    pub fn take(self, alloc: Global, answer: Answer) -> BulkTurn<RemoveAll>
        ensures turn { TakesTo self answer result }
        ensures fewer { steps_to_come result < steps_left self }
        ensures tells { TellsTaken self answer result }
    {
        self.taken(alloc, answer)
    }

    // The same, as the order of steps has it.
    fn taken(self, alloc: Global, answer: Answer) -> BulkTurn<RemoveAll>
        ensures turn { TakesTo self answer result }
        ensures fewer { steps_to_come result < steps_left self }
    {
        let RemoveAll { mut state } = self;
        // Nothing can be moved out of a box: what holds nothing stands in until the next phase is known.
        let phase = mem::replace(&mut state.phase, Phase::Over(End::Removes(0)));
        match phase.taken(alloc, answer) {
            Phase::Over(end) => {
                let State { phase } = Box::into_inner(state);
                phase.let_go();
                match end {
                    End::Fails(error) => BulkTurn::Failed(error),
                    End::Removes(count) => BulkTurn::Removed(count),
                }
            }
            next => {
                mem::replace(&mut state.phase, next).let_go();
                BulkTurn::More(RemoveAll { state })
            }
        }
    }
}

impl State {
    ghost use Rattle.bulk_ops.specs.RemoveAllTurnView.{IsFirstPhase};

    // The same of a call at the first step of its walk.
    fn give_up(self) -> Errno
        requires { IsFirstPhase self.phase }
        ensures { result ≡ Errno.NoMemory }
    {
        let State { phase } = self;
        match phase {
            Phase::Walking(to) => {
                let WalkTo { walk, target: _ } = to;
                give_up(walk)
            }
            _other => unreachable!(),
        }
    }
}

// A walk at its first step is told that there is no memory for it, and ends.
fn give_up(walk: Walk) -> Errno
    requires { IsFirstWalk walk.walking }
    ensures { result ≡ Errno.NoMemory }
{
    match walk.take(Answer::Refused(Errno::NoMemory)) {
        Turn::Failed(error) => error,
        Turn::More(_walk) => unreachable!(),
        Turn::Found(_standing) => unreachable!(),
        Turn::Partial(_standing, _rest) => unreachable!(),
    }
}
