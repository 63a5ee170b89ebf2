//! Copies of how calls ended.
ghost use Rattle.std.specs.Prelude.{◌≡◌, IfOk};

use crate::report::Outcome;
use path_text::NoMemory;
use std::alloc::Global;

impl Outcome {
    /// An equal outcome. NoMemory where its room was refused.
    pub fn copy(&self, alloc: Global) -> Result<Outcome, NoMemory>
        ensures { IfOk result (λ copy. copy ≡ self.now) }
    {
        Ok(match self {
            Outcome::Opened { node, kind, names } => Outcome::Opened {
                node: *node,
                kind: *kind,
                names: names.copy(alloc)?,
            },
            Outcome::Text(text) => Outcome::Text(text.copy(alloc)?),
            Outcome::Done => Outcome::Done,
            Outcome::Count(count) => Outcome::Count(*count),
            Outcome::Stepped(answer) => Outcome::Stepped(answer.copy(alloc)?),
            Outcome::Fault(error) => Outcome::Fault(*error),
        })
    }
}
