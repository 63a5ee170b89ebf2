//! A copy of a call that makes all that is missing.
ghost use Rattle.std.specs.Prelude.{◌≡◌, IfOk};
ghost use Rattle.bulk_ops.specs.MakeAllView.{IsStage, making_of};

use super::{Call, Chain, MkdirAll, Stage};
use crate::held::{held_again, second_again};
use path_text::NoMemory;
use std::alloc::Global;

impl MkdirAll {
    /// An equal call by the same handles, which goes on by itself, as on a copy of the tree. NoMemory where its room
    /// was refused.
    pub fn copy(&self, alloc: Global) -> Result<MkdirAll, NoMemory>
        ensures { IfOk result (λ copy. copy ≡ self.now) }
    {
        let call = self.call;
        Ok(MkdirAll {
            call,
            stage: call.copy_of(alloc, &self.stage)?,
        })
    }
}

impl Call {
    // An equal stage. Room comes first, so that no copy of what is held has to be let go.
    fn copy_of(&self, alloc: Global, stage: &Stage) -> Result<Stage, NoMemory>
        requires { IsStage self.now stage.now }
        ensures same { IfOk result (λ copy. making_of copy ≡ making_of stage.now) }
        ensures kept { IfOk result (λ copy. IsStage self.now copy) }
    {
        Ok(match stage {
            Stage::Walking(walk) => Stage::Walking(walk.copy(alloc)?),
            Stage::Making(held, chain) => {
                let chain = chain.copy(alloc)?;
                Stage::Making(held_again(held), chain)
            }
            Stage::Opening(held, chain) => {
                let chain = chain.copy(alloc)?;
                Stage::Opening(held_again(held), chain)
            }
            Stage::Leaving { old, new, chain } => {
                let chain = chain.copy(alloc)?;
                let (old, new) = (held_again(old), held_again(new));
                Stage::Leaving { old, new, chain }
            }
            Stage::Ending(held, chain) => {
                let chain = chain.copy(alloc)?;
                Stage::Ending(held_again(held), chain)
            }
            Stage::Closing {
                first,
                second,
                error,
            } => Stage::Closing {
                first: held_again(first),
                second: second_again(second),
                error: *error,
            },
        })
    }
}

impl Chain {
    // Equal names, of which as many are passed.
    fn copy(&self, alloc: Global) -> Result<Box<Chain>, NoMemory>
        ensures names { IfOk result (λ copy. copy.value.names ≡ self.now.names) }
        ensures done { IfOk result (λ copy. copy.value.done ≡ self.now.done) }
    {
        let names = self.names.copy(alloc)?;
        let done = self.done;
        Ok(Box::new(alloc, Chain { names, done })?)
    }
}
