//! Copies of planned calls.
ghost use Rattle.std.specs.Prelude.{◌≡◌, IfOk};

use crate::plan::{Planned, Ref};
use path_text::NoMemory;
use std::alloc::Global;
use tree_model::StepOf;

impl Planned {
    /// An equal call. NoMemory where its room was refused.
    pub fn copy(&self, alloc: Global) -> Result<Planned, NoMemory>
        ensures { IfOk result (λ copy. copy ≡ self.now) }
    {
        Ok(match self {
            Planned::Call(request) => Planned::Call(request.copy_whole(alloc)?),
            Planned::Single(step) => Planned::Single(copy_step(alloc, step)?),
            Planned::Release(call) => Planned::Release(*call),
        })
    }
}

// An equal step.
fn copy_step(alloc: Global, step: &StepOf<Ref>) -> Result<StepOf<Ref>, NoMemory>
    ensures { IfOk result (λ copy. copy ≡ step.now) }
{
    Ok(match step {
        StepOf::Open(dir, name) => StepOf::Open(*dir, name.copy(alloc)?),
        StepOf::Dup(handle) => StepOf::Dup(*handle),
        StepOf::Parent(handle) => StepOf::Parent(*handle),
        StepOf::ReadLink(handle) => StepOf::ReadLink(*handle),
        StepOf::NameBelow(root, handle) => StepOf::NameBelow(*root, *handle),
        StepOf::List(handle) => StepOf::List(*handle),
        StepOf::Close(handle) => StepOf::Close(*handle),
        StepOf::MakeDir(dir, name) => StepOf::MakeDir(*dir, name.copy(alloc)?),
        StepOf::MakeFile(dir, name) => StepOf::MakeFile(*dir, name.copy(alloc)?),
        StepOf::MakeLink(dir, name, text) => {
            StepOf::MakeLink(*dir, name.copy(alloc)?, text.copy(alloc)?)
        }
        StepOf::RemoveFile(dir, name) => StepOf::RemoveFile(*dir, name.copy(alloc)?),
        StepOf::RemoveDir(dir, name) => StepOf::RemoveDir(*dir, name.copy(alloc)?),
        StepOf::Rename(from, old, to, new, mode) => {
            StepOf::Rename(*from, old.copy(alloc)?, *to, new.copy(alloc)?, *mode)
        }
    })
}
