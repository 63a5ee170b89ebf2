//! What a call is doing, and what each answer comes to.
ghost use Rattle.std.specs.Prelude.{◌≡◌, length};

use crate::remove_all::clearing::{Clearing, Closing, End};
use path_text::{Errno, Names};
use std::alloc::Global;
use step_resolver::{Turn, Walk};
use tree_model::{Answer, LentStep};

/// The walk to the directory of the target, and the target's name.
#[derive(Debug)]
pub(crate) struct WalkTo {
    pub(crate) walk: Walk,
    pub(crate) target: Names,
    ghost one: { length target ≡ 1 },
}

/// What a call is doing.
#[derive(Debug)]
pub(crate) enum Phase {
    /// It walks to the directory of the target.
    Walking(WalkTo),
    /// It clears the target.
    Clearing(Clearing),
    /// It closes what it holds.
    Closing(Closing),
    /// It holds nothing any more.
    Over(End),
}

impl Phase {
    ghost use Rattle.bulk_ops.specs.RemoveAllOrder.{due};
    ghost use Rattle.bulk_ops.specs.RemoveAllView.{removing_of, IsUnderWay, IsOver, TakesOn};

    /// The step that is due.
    pub(crate) fn due(&self) -> LentStep<'_>
        requires { IsUnderWay self.now }
        ensures { result ≡ due (removing_of self.now) }
    {
        match self {
            Phase::Walking(to) => to.walk.due(),
            Phase::Clearing(clearing) => clearing.due(),
            Phase::Closing(closing) => closing.due(),
            Phase::Over(_) => unreachable!(),
        }
    }

    /// What the answer to the step that was due comes to.
    pub(crate) fn taken(self, alloc: Global, answer: Answer) -> Phase
        requires { IsUnderWay self }
        ensures { TakesOn (removing_of self) answer result }
    {
        match self {
            Phase::Walking(to) => to.taken(alloc, answer),
            Phase::Clearing(clearing) => clearing.taken(answer),
            Phase::Closing(closing) => closing.closed(),
            Phase::Over(_) => unreachable!(),
        }
    }

    /// Lets go of what holds nothing.
    pub(crate) fn let_go(self)
        requires { IsOver self }
    {
        match self {
            Phase::Over(_) => {}
            _ => unreachable!(),
        }
    }
}

impl WalkTo {
    ghost use Rattle.bulk_ops.specs.RemoveAllView.{walking_of, TakesOn};

    // What the answer to the walk's step comes to: where it found the directory, the target in it is cleared. The
    // whole path is walked, so that the walk's end isn't partial; one that were would miss a directory.
    fn taken(self, alloc: Global, answer: Answer) -> Phase
        ensures { TakesOn (walking_of self) answer result }
    {
        let WalkTo { walk, target } = self;
        match walk.take(answer) {
            Turn::More(walk) => Phase::Walking(WalkTo { walk, target }),
            Turn::Found(standing) => Clearing::begin(alloc, standing.onward(), target),
            Turn::Partial(standing, _rest) => Closing::of(
                None,
                standing.onward(),
                Vec::new(alloc),
                End::Fails(Errno::NotFound),
            ),
            Turn::Failed(error) => Phase::Over(End::Fails(error)),
        }
    }
}
