//! A tree of one's own.
ghost use Rattle.std.specs.Prelude.{◌≡◌, true, IfOk, OnOk, OnErr, IsOk};
ghost use Rattle.tree_model.specs.Steps.{outcome, takes_no_memory};
ghost use Rattle.example_callers.specs.Counting.{counted};

use path_text::{Errno, Names, NoMemory};
use std::alloc::Global;
use tree_model::{Actor, Answer, HandleNo, LentStep, Snapshot, Tree};

/// A tree that counts the steps that are made on it, refused ones too, up to the largest number there is. A step for
/// which there was no memory isn't made, and not counted.
#[derive(Debug, Drop)]
pub struct Counting<T> {
    pub tree: T,
    pub steps: u64,
}

impl<T: Tree> Tree for Counting<T> {
    ghost state = { λ counting. T.state counting.tree };

    fn step(&mut self, alloc: Global, actor: Actor, step: &LentStep<'_>) -> Result<Answer, NoMemory>
        ensures answer { IfOk result (λ answer. answer ≡ (outcome (T.state self.old.tree) actor step.now).answer) }
        ensures after { OnOk result (T.state self.new.tree ≡ (outcome (T.state self.old.tree) actor step.now).after) }
        ensures err { OnErr result (T.state self.new.tree ≡ T.state self.old.tree) }
        ensures no_memory { takes_no_memory step.now ≡ true → IsOk result }
        ensures counted { OnOk result (self.new.steps ≡ counted self.old.steps) }
        ensures not_counted { OnErr result (self.new.steps ≡ self.old.steps) }
    {
        let answer = self.tree.step(alloc, actor, step)?;
        self.steps = self.steps.saturating_add(1);
        Ok(answer)
    }

    fn grant(&mut self, alloc: Global, actor: Actor, names: &Names) -> Result<HandleNo, Errno> {
        self.tree.grant(alloc, actor, names)
    }

    fn held(&self, actor: Actor) -> usize {
        self.tree.held(actor)
    }

    fn snapshot(&self, alloc: Global) -> Result<Snapshot, NoMemory> {
        self.tree.snapshot(alloc)
    }
}
