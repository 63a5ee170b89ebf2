//! A call that is under way.
ghost use Rattle.std.specs.Prelude.{◌≡◌, ◌<◌, ◌≤◌, Bool, IsTrue, true, false};
ghost use Rattle.step_resolver.specs.TurnView as walk;

use crate::aim::Wanted;
use crate::answers::reply_to;
use crate::begin::failed;
use crate::below::Below;
use crate::doing::{Doing, Next, Stage};
use crate::first::{First, first_of};
use crate::op::Request;
use crate::reply::Reply;
use std::alloc::Global;
use std::marker::Model;
use std::mem;
use step_resolver::{Root, Turn};
use tree_model::{Answer, LentStep, StepOf};

/// A call that is under way. You can't drop it: make each step that is `due`, and `take` its answer, until the call
/// ends. To give it up, make each Close that is due, and answer `Refused(NoMemory)` to every other step. It lies in
/// a box, and moving it moves a pointer and its root. Contracts see it as a `CallView`: where it walks, and what is
/// due.
#[derive(Debug)]
pub struct Call {
    pub(crate) below: Below,
    pub(crate) stage: Stage,
}

impl Model for Call {
    ghost use Rattle.root_ops.specs.View.{CallView};

    ghost Value = { CallView };

    ghost use Rattle.root_ops.specs.View.{call_view, IsStage};

    ghost view = { λ c. call_view c.below c.stage };

    ghost invariant = { λ c. IsStage c.below c.stage };
}

/// What a call has come to.
#[derive(Debug)]
pub enum CallTurn {
    /// It goes on: a step is due.
    More(Call),
    /// It has ended.
    Done(Reply),
}

impl Call {
    ghost use Rattle.root_ops.specs.Order.{due, more, passes, steps_left, walked, way_of, goal_of};
    ghost use Rattle.root_ops.specs.View.{is_aimed, aim_of, next_view, HoldsNoCall, IsNext};
    ghost use Rattle.root_ops.specs.TurnView.{below_of, turn_view, Keeps, StartsTo, TakesTo, steps_to_come, STEPS_MAX};

    /// Begins a call below the root. The path texts are read and split first, the old one of a Rename before the new
    /// one.
    ///
    /// Faults that come before any step: those of the path text (NotFound of an empty one, Invalid of one with a
    /// NUL, TooLong past 4,095 bytes); for an operation on one entry Invalid of a last part that is no name, NotDir
    /// of a slash at the end where a file or a link is made or a file removed, TooLong of a last name over 255
    /// bytes; those of `Walk::start`; Invalid of a Single that opens or closes a handle; and where the first text
    /// has no fault, NoMemory. A link's text is the MakeLink step's to refuse. To release another owner's handle is
    /// refused by handing it back, as Kept. A Release takes no memory.
    pub fn start(alloc: Global, request: Request, root: Root) -> CallTurn
        ensures turn { StartsTo (below_of root request.flags) request.op (turn_view result) }
        ensures kept { Keeps (below_of root request.flags) result }
        ensures few { steps_to_come result ≤ STEPS_MAX }
    {
        Call::begin(alloc, request, root)
    }

    // The same, as the order of steps has it.
    fn begin(alloc: Global, request: Request, root: Root) -> CallTurn
        ensures turn { StartsTo (below_of root request.flags) request.op (turn_view result) }
        ensures kept { Keeps (below_of root request.flags) result }
    {
        let Request { op, flags } = request;
        let below = Below { root, flags };
        match first_of(alloc, op) {
            Ok(First::Walks(aim, path)) => Call::walk(alloc, below, aim, path),
            Ok(First::Makes(path)) => Call::make(alloc, below, path),
            Ok(First::Clears(path, name)) => Call::clear(alloc, below, path, name),
            Ok(First::Acts(step)) => Call::single(alloc, below, step),
            Ok(First::Releases(standing)) => Call::release(below, standing),
            Err(error) => failed(error),
        }
    }

    /// The step that is due. It takes no memory: a name is lent from where it lies in the call.
    pub fn due(&self) -> LentStep<'_>
        ensures { result ≡ due self.now.below self.now.doing }
    {
        match &self.stage {
            Stage::Releasing(handle) => StepOf::Close(*handle),
            Stage::Walking(walk, _) => walk.due(),
            Stage::Boxed(doing) => doing.due(),
        }
    }

    /// Takes the answer to the due step, and gives the call's next turn. A driver that couldn't make the step, for
    /// want of memory or of room in its book, hands in that refusal. The answer to a Close isn't looked at, but for
    /// that of a Release. An answer that doesn't fit the step counts as BadHandle. A refused growth counts as
    /// NoMemory. Before the call fails it closes everything that it opened, the newest first, which takes no memory.
    ///
    /// Faults: those of `Walk::take` for each walk; then the refusal of the one step on the last name; and for a
    /// Rename of a path with a slash at its end the refusal of Open of the entry, and NotDir where that is no
    /// directory (rename(2)). A MkdirAll and a RemoveAll fail with what those of `bulk_ops` fail with, and what they
    /// did by then stays done.
    pub fn take(self, alloc: Global, answer: Answer) -> CallTurn
        ensures turn { TakesTo self.below self.doing answer (turn_view result) }
        ensures kept { Keeps self.below result }
        ensures fewer { steps_to_come result < steps_left self.below self.doing }
    {
        self.taken(alloc, answer)
    }

    /// Takes the answer to the due step in place, where this is a walk's Open or Close after which the walk surely goes
    /// on: true, and the call is at the next turn, that of `take`. Otherwise false, nothing is changed, and the answer
    /// is for `take`. Most turns pass, and move nothing.
    pub fn pass(&mut self, answer: &Answer) -> bool
        ensures which { result ≡ passes self.old.doing answer.now }
        ensures turn { IsTrue result → TakesTo self.old.below self.old.doing answer.now (more self.new.doing) }
        ensures kept { self.new.below ≡ self.old.below }
        ensures fewer { IsTrue result
            → steps_left self.new.below self.new.doing < steps_left self.old.below self.old.doing }
        ensures left { result ≡ false → self.new ≡ self.old }
    {
        match &mut self.stage {
            Stage::Walking(walk, _) => return walk.pass(answer),
            Stage::Boxed(_) | Stage::Releasing(_) => {}
        }
        false
    }

    // The same, as the order of steps has it.
    fn taken(self, alloc: Global, answer: Answer) -> CallTurn
        ensures turn { TakesTo self.below self.doing answer (turn_view result) }
        ensures kept { Keeps self.below result }
    {
        let Call { below, stage } = self;
        match stage {
            Stage::Releasing(_) => CallTurn::Done(reply_to(Wanted::Done, answer)),
            Stage::Walking(walk, state) => {
                let turn = walk.take(answer);
                Call::walked(alloc, below, state, turn)
            }
            Stage::Boxed(mut state) => {
                // Nothing can be moved out of a box: a step that holds no call stands in until the next one is known.
                let doing = mem::replace(&mut *state, Doing::stand_in(below.handle()));
                let next = below.taken(alloc, doing, answer);
                Call::turned(below, state, next)
            }
        }
    }

    // Where the walk has come to whose aim is in the box. As long as it goes on, the box stays as it is.
    fn walked(alloc: Global, below: Below, mut state: Box<Doing>, turn: Turn) -> CallTurn
        requires aimed { is_aimed state.value ≡ true }
        requires ours { walk.Keeps below.root.owner (way_of below (aim_of state.value)) turn }
        ensures turn { (room : Bool)
            × (turn_view result
            ≡ walked below room (aim_of state.value) (walk.turn_view (goal_of (aim_of state.value)) turn)) }
        ensures kept { Keeps below result }
    {
        if let Turn::More(walk) = turn {
            let stage = Stage::Walking(walk, state);
            return CallTurn::More(Call { below, stage });
        }
        let aim = state.take_aim(below.handle());
        let next = below.walked(alloc, aim, turn);
        Call::turned(below, state, next)
    }

    // What comes next takes the place of the step that stood in.
    pub(crate) fn turned(below: Below, mut state: Box<Doing>, next: Next) -> CallTurn
        requires stand_in { HoldsNoCall state.value }
        requires next { IsNext below next }
        ensures turn { turn_view result ≡ next_view next }
        ensures kept { Keeps below result }
    {
        match next {
            Next::Walks(walk, aim) => {
                mem::replace(&mut *state, Doing::Aimed(aim)).let_go();
                let stage = Stage::Walking(walk, state);
                CallTurn::More(Call { below, stage })
            }
            Next::Due(doing) => {
                // What comes back is the one that stood in. An assignment would have to drop it, and no step can be.
                mem::replace(&mut *state, doing).let_go();
                let stage = Stage::Boxed(state);
                CallTurn::More(Call { below, stage })
            }
            Next::Over(reply) => {
                Box::into_inner(state).let_go();
                CallTurn::Done(reply)
            }
        }
    }
}
