//! A copy of what stands.
ghost use Rattle.std.specs.Prelude.{◌≡◌, IfOk};

use crate::states::Standing;
use path_text::NoMemory;
use std::alloc::Global;

impl Standing {
    /// The same object at the same names by the same handle, as on a copy of the tree. NoMemory where the room of the
    /// names was refused.
    pub fn copy(&self, alloc: Global) -> Result<Standing, NoMemory>
        ensures { IfOk result (λ copy. copy ≡ self.now) }
    {
        let names = self.names.copy(alloc)?;
        Ok(Standing {
            owner: self.owner,
            handle: self.handle,
            node: self.node,
            kind: self.kind,
            names,
        })
    }
}
