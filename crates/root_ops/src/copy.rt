//! A copy of a call.
ghost use Rattle.std.specs.Prelude.{◌≡◌, IfOk, true};
ghost use Rattle.root_ops.specs.Order.{walking};
ghost use Rattle.root_ops.specs.View.{IsStage, IsOurWalk, HoldsNoCall, call_view, stage_view, is_aimed, aim_of};

use crate::below::Below;
use crate::call::Call;
use crate::doing::{After, Doing, Stage};
use crate::reply::Reply;
use path_text::NoMemory;
use std::alloc::{AllocFailed, Global};
use std::mem;
use step_resolver::Walk;

mod aims;
mod requests;

impl Call {
    /// An equal call by the same handles, which goes on by itself, as on a copy of the tree. NoMemory where its room
    /// was refused.
    pub fn copy(&self, alloc: Global) -> Result<Call, NoMemory>
        ensures { IfOk result (λ copy. copy ≡ self.now) }
    {
        let below = self.below;
        Ok(Call {
            below,
            stage: below.copy_of(alloc, &self.stage)?,
        })
    }
}

// A step in a box. What can't be boxed holds no call, and is let go.
fn boxed(alloc: Global, doing: Doing) -> Result<Box<Doing>, NoMemory>
    requires { HoldsNoCall doing }
    ensures { IfOk result (λ state. state.value ≡ doing) }
{
    match Box::new(alloc, doing) {
        Ok(state) => Ok(state),
        Err(AllocFailed { value }) => {
            value.let_go();
            Err(NoMemory)
        }
    }
}

impl Below {
    // An equal stage.
    fn copy_of(&self, alloc: Global, stage: &Stage) -> Result<Stage, NoMemory>
        requires { IsStage self.now stage.now }
        ensures same { IfOk result (λ copy. call_view self.now copy ≡ call_view self.now stage.now) }
        ensures kept { IfOk result (λ copy. IsStage self.now copy) }
    {
        match stage {
            Stage::Releasing(handle) => Ok(Stage::Releasing(*handle)),
            Stage::Boxed(doing) => Ok(Stage::Boxed(self.copy_step(alloc, &**doing)?)),
            Stage::Walking(walk, doing) => self.copy_walk(alloc, walk, &**doing),
        }
    }

    // An equal walk with an equal aim. The aim comes first, since a walk can't be let go.
    fn copy_walk(&self, alloc: Global, walk: &Walk, doing: &Doing) -> Result<Stage, NoMemory>
        requires aimed { is_aimed doing.now ≡ true }
        requires ours { IsOurWalk self.now walk.now (aim_of doing.now) }
        ensures same { IfOk result (λ copy. stage_view copy ≡ walking walk.now.walking (aim_of doing.now)) }
        ensures kept { IfOk result (λ copy. IsStage self.now copy) }
    {
        let aim = doing.aim();
        let state = boxed(alloc, Doing::Aimed(aim.copy(alloc)?))?;
        match walk.copy(alloc) {
            Ok(walk) => Ok(Stage::Walking(walk, state)),
            Err(error) => {
                Box::into_inner(state).let_go();
                Err(error)
            }
        }
    }

    // An equal step in a box. Room comes first, with what holds no call in it, since a bulk call can't be let go.
    fn copy_step(&self, alloc: Global, doing: &Doing) -> Result<Box<Doing>, NoMemory>
        ensures { IfOk result (λ copy. copy.value ≡ doing.now) }
    {
        let mut state = boxed(alloc, Doing::stand_in(self.handle()))?;
        match doing.copy(alloc) {
            Ok(doing) => {
                mem::replace(&mut *state, doing).let_go();
                Ok(state)
            }
            Err(error) => {
                Box::into_inner(state).let_go();
                Err(error)
            }
        }
    }
}

impl Doing {
    // An equal step.
    fn copy(&self, alloc: Global) -> Result<Doing, NoMemory>
        ensures { IfOk result (λ copy. copy ≡ self.now) }
    {
        Ok(match self {
            Doing::Aimed(aim) => Doing::Aimed(aim.copy(alloc)?),
            Doing::Acting { wanted, step, held } => Doing::Acting {
                wanted: *wanted,
                step: step.lend().copy(alloc)?,
                held: *held,
            },
            Doing::Checking { old, new, renaming } => Doing::Checking {
                old: *old,
                new: *new,
                renaming: renaming.copy(alloc)?,
            },
            Doing::Closing {
                first,
                others,
                after,
            } => Doing::Closing {
                first: *first,
                others: *others,
                after: after.copy(alloc)?,
            },
            Doing::Making(call) => Doing::Making(call.copy(alloc)?),
            Doing::Removing(call) => Doing::Removing(call.copy(alloc)?),
        })
    }
}

impl After {
    // The same to come.
    fn copy(&self, alloc: Global) -> Result<After, NoMemory>
        ensures { IfOk result (λ copy. copy ≡ self.now) }
    {
        Ok(match self {
            After::Gives(reply) => After::Gives(reply.copy(alloc)?),
            After::Acts { wanted, step, held } => After::Acts {
                wanted: *wanted,
                step: step.lend().copy(alloc)?,
                held: *held,
            },
        })
    }
}

impl Reply {
    // An equal reply.
    fn copy(&self, alloc: Global) -> Result<Reply, NoMemory>
        ensures { IfOk result (λ copy. copy ≡ self.now) }
    {
        Ok(match self {
            Reply::Opened(standing) => Reply::Opened(standing.copy(alloc)?),
            Reply::Text(text) => Reply::Text(text.copy(alloc)?),
            Reply::Done => Reply::Done,
            Reply::Count(count) => Reply::Count(*count),
            Reply::Stepped(answer) => Reply::Stepped(answer.copy(alloc)?),
            Reply::Kept(standing) => Reply::Kept(standing.copy(alloc)?),
            Reply::Fault(error) => Reply::Fault(*error),
        })
    }
}
