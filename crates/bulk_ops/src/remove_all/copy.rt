//! A copy of a call that removes an entry with all that is below it.
ghost use Rattle.std.specs.Prelude.{◌≡◌, IfOk};
ghost use Rattle.bulk_ops.specs.RemoveAllView.{removing_of, walking_of, clearing_of, closing_of, level_of, levels_of, IsUnderWay, IsOver};

use super::{RemoveAll, State};
use crate::held::{held_again, second_again};
use crate::remove_all::clearing::{Clearing, Closing, End, Progress, Stage};
use crate::remove_all::frame::Frame;
use crate::remove_all::phase::{Phase, WalkTo};
use path_text::NoMemory;
use std::alloc::{AllocFailed, Global};
use std::mem;

impl RemoveAll {
    /// An equal call by the same handles, which goes on by itself, as on a copy of the tree. NoMemory where its room
    /// was refused.
    pub fn copy(&self, alloc: Global) -> Result<RemoveAll, NoMemory>
        ensures { IfOk result (λ copy. copy ≡ self.now) }
    {
        let mut state = State::over(alloc)?;
        match self.state.phase.copy(alloc) {
            Ok(phase) => {
                mem::replace(&mut state.phase, phase).let_go();
                Ok(RemoveAll { state })
            }
            Err(error) => {
                Box::into_inner(state).let_go();
                Err(error)
            }
        }
    }
}

impl State {
    // One that holds nothing. Room comes first, so that no copy of a phase has to be let go.
    fn over(alloc: Global) -> Result<Box<State>, NoMemory>
        ensures { IfOk result (λ state. IsOver state.value.phase) }
    {
        let phase = Phase::Over(End::Removes(0));
        match Box::new(alloc, State { phase }) {
            Ok(state) => Ok(state),
            Err(AllocFailed { value }) => {
                value.let_go();
                Err(NoMemory)
            }
        }
    }

    // Lets go of what holds nothing.
    fn let_go(self)
        requires { IsOver self.phase }
    {
        let State { phase } = self;
        phase.let_go();
    }
}

impl Phase {
    // An equal phase.
    fn copy(&self, alloc: Global) -> Result<Phase, NoMemory>
        requires { IsUnderWay self.now }
        ensures same { IfOk result (λ copy. removing_of copy ≡ removing_of self.now) }
        ensures under_way { IfOk result (λ copy. IsUnderWay copy) }
    {
        Ok(match self {
            Phase::Walking(to) => Phase::Walking(to.copy(alloc)?),
            Phase::Clearing(clearing) => Phase::Clearing(clearing.copy(alloc)?),
            Phase::Closing(closing) => Phase::Closing(closing.copy(alloc)?),
            Phase::Over(_) => unreachable!(),
        })
    }
}

impl WalkTo {
    // An equal walk to an equal target.
    fn copy(&self, alloc: Global) -> Result<WalkTo, NoMemory>
        ensures { IfOk result (λ copy. walking_of copy ≡ walking_of self.now) }
    {
        let target = self.target.copy(alloc)?;
        Ok(WalkTo {
            walk: self.walk.copy(alloc)?,
            target,
        })
    }
}

impl Clearing {
    // An equal step of clearing.
    fn copy(&self, alloc: Global) -> Result<Clearing, NoMemory>
        ensures { IfOk result (λ copy. clearing_of copy ≡ clearing_of self.now) }
    {
        let progress = &self.progress;
        let above = copy_frames(alloc, progress.above.as_slice())?;
        match progress.here.copy(alloc) {
            Ok(here) => Ok(Clearing {
                stage: self.stage.copy(),
                progress: Progress {
                    here,
                    above,
                    removed: progress.removed,
                    left: progress.left,
                },
            }),
            Err(error) => {
                forget(above);
                Err(error)
            }
        }
    }
}

impl Closing {
    // An equal closing.
    fn copy(&self, alloc: Global) -> Result<Closing, NoMemory>
        ensures { IfOk result (λ copy. closing_of copy ≡ closing_of self.now) }
    {
        let above = copy_frames(alloc, self.above.as_slice())?;
        Ok(Closing {
            first: held_again(&self.first),
            second: second_again(&self.second),
            above,
            end: self.end,
        })
    }
}

impl Stage {
    // The same stage.
    fn copy(&self) -> Stage
        ensures { result ≡ self.now }
    {
        match self {
            Stage::RemoveFile => Stage::RemoveFile,
            Stage::Open => Stage::Open,
            Stage::List(child) => Stage::List(held_again(child)),
            Stage::Shut(child) => Stage::Shut(held_again(child)),
            Stage::Leave(child) => Stage::Leave(held_again(child)),
            Stage::RemoveDir => Stage::RemoveDir,
        }
    }
}

impl Frame {
    // An equal directory, at the same entry.
    fn copy(&self, alloc: Global) -> Result<Frame, NoMemory>
        ensures { IfOk result (λ copy. level_of copy ≡ level_of self.now) }
    {
        let names = self.names.copy(alloc)?;
        Ok(Frame {
            dir: held_again(&self.dir),
            names,
            at: self.at,
        })
    }
}

// Equal directories, in the same order.
#[tactic(auto, using(crate::proofs::LikeFrames::levels_copied))]
fn copy_frames(alloc: Global, frames: &[Frame]) -> Result<Vec<Frame>, NoMemory>
    ensures { IfOk result (λ copies. levels_of copies.items ≡ levels_of frames.now) }
{
    let mut copies = Vec::new(alloc);
    let reserved = copies.reserve(frames.len());
    if reserved.is_err() {
        copies.destroy_empty();
        return Err(NoMemory);
    }
    for frame in frames {
        match frame.copy(alloc) {
            Ok(copy) => copies.push_reserved(copy),
            Err(error) => {
                forget(copies);
                return Err(error);
            }
        }
    }
    Ok(copies)
}

// Lets copies go that didn't all come to be: what they hold, the call that was copied holds still.
fn forget(mut frames: Vec<Frame>) {
    while let Some(frame) = frames.pop() {
        let _ = frame.into_dir().into_close();
    }
    frames.destroy_empty();
}
