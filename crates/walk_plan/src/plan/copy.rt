//! Copies of a plan.
ghost use Rattle.std.specs.Prelude.{◌≡◌, IfOk};

use super::Plan;
use path_text::NoMemory;
use std::alloc::Global;

impl Plan {
    /// An equal plan. NoMemory where its room was refused.
    pub fn copy(&self, alloc: Global) -> Result<Plan, NoMemory>
        ensures { IfOk result (λ copy. copy ≡ self.now) }
    {
        Ok(Plan {
            inner: self.inner.copy(alloc)?,
            own: self.own.copy(alloc)?,
            names: self.names.copy(alloc)?,
            links_left: self.links_left,
            goal: self.goal,
            flags: self.flags,
        })
    }
}
