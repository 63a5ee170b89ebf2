//! What every tree does.
ghost use Rattle.std.specs.Prelude.{◌≡◌, IfOk, OnOk, OnErr, IsOk, true};
ghost use Rattle.tree_model.specs.State.{State};
ghost use Rattle.tree_model.specs.Steps.{outcome, takes_no_memory, held_count, grants, IsGrant};

use crate::answer::Answer;
use crate::number::{Actor, HandleNo};
use crate::snapshot::Snapshot;
use crate::step::LentStep;
use path_text::{Errno, Names, NoMemory};
use std::alloc::Global;

/// The most handles that one actor has open.
pub const HANDLES_MAX: usize = 1024;

/// All node and handle numbers are below this.
pub const NUMBERS_MAX: usize = 0x1_0000_0000_0000;

/// A tree of directories, files and links, on which actors take single steps.
pub trait Tree {
    /// The nodes and the open handles, however they are kept.
    ghost state: { Self → State };

    /// Takes one step of an actor, by the step table. Errors of the table are answered as `Refused`, in its
    /// order, and change nothing. NoMemory where room was refused, which changes nothing either; Close,
    /// RemoveFile and RemoveDir take no memory.
    fn step(&mut self, alloc: Global, actor: Actor, step: &LentStep<'_>) -> Result<Answer, NoMemory>
        ensures answer { IfOk result (λ answer. answer ≡ (outcome (state self.old) actor step.now).answer) }
        ensures after { OnOk result (state self.new ≡ (outcome (state self.old) actor step.now).after) }
        ensures err { OnErr result (state self.new ≡ state self.old) }
        ensures no_memory { takes_no_memory step.now ≡ true → IsOk result };

    /// Opens a directory for an actor by names from the top, following nothing. For use before the first
    /// event. Errors, in this order: at each name NotDir and NotFound, NotDir at the end, TooMany; NoMemory
    /// where room was refused. Each changes nothing.
    fn grant(&mut self, alloc: Global, actor: Actor, names: &Names) -> Result<HandleNo, Errno>
        ensures { IsGrant (state self.old) (state self.new) (grants (state self.old) actor names.now) result };

    /// How many handles the actor has open. Takes no memory.
    fn held(&self, actor: Actor) -> usize
        ensures { result ≡ held_count (state self.now) actor };

    /// The whole of the tree as a value. NoMemory where its room was refused.
    fn snapshot(&self, alloc: Global) -> Result<Snapshot, NoMemory>
        ensures { IfOk result (λ snapshot. snapshot ≡ state self.now) };
}
