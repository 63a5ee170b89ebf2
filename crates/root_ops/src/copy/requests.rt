//! A copy of a request, whatever it asks.
ghost use Rattle.std.specs.Prelude.{◌≡◌, IfOk};

use crate::op::{Op, Request};
use path_text::NoMemory;
use std::alloc::Global;

impl Request {
    /// An equal request, of a Release too: it releases the same handle, as on a copy of the tree. NoMemory where its
    /// room was refused.
    pub fn copy_whole(&self, alloc: Global) -> Result<Request, NoMemory>
        ensures { IfOk result (λ copy. copy ≡ self.now) }
    {
        let op = match &self.op {
            Op::Release(standing) => Op::Release(standing.copy(alloc)?),
            other => match other.copy(alloc) {
                Ok(op) => op,
                // It is no Release.
                Err(_) => return Err(NoMemory),
            },
        };
        Ok(Request {
            op,
            flags: self.flags,
        })
    }
}
