//! A tree and plans from which the same world is made each time.
ghost use Rattle.std.specs.Prelude.{◌≡◌, IfOk};

use crate::worlds::beginnings::Beginnings;
use path_text::NoMemory;
use race_core::{ActorPlan, Plans, World};
use std::alloc::Global;
use tree_list::ListTree;

/// A tree, what each actor is to do, and how many lines the book has. Each world is made over copies.
#[derive(Drop)]
pub struct Scene {
    pub tree: ListTree,
    pub plans: Vec<ActorPlan>,
    pub lines: u32,
}

// Equal calls.
fn copy_calls(alloc: Global, calls: &Plans) -> Result<Plans, NoMemory>
    ensures { IfOk result (λ copy. copy ≡ calls.now) }
{
    let mut copies = Plans::new(alloc);
    for call in calls.as_slice() {
        copies.push(call.copy(alloc)?)?;
    }
    Ok(copies)
}

// An equal plan.
fn copy_plan(alloc: Global, plan: &ActorPlan) -> Result<ActorPlan, NoMemory>
    ensures { IfOk result (λ copy. copy ≡ plan.now) }
{
    Ok(ActorPlan {
        root: plan.root.copy(alloc)?,
        calls: copy_calls(alloc, &plan.calls)?,
    })
}

// Equal plans.
fn copy_plans(alloc: Global, plans: &[ActorPlan]) -> Result<Vec<ActorPlan>, NoMemory>
    ensures { IfOk result (λ copies. copies.items ≡ plans.now) }
{
    let mut copies = Vec::with_capacity(alloc, plans.len())?;
    for plan in plans {
        copies.push(copy_plan(alloc, plan)?)?;
    }
    Ok(copies)
}

impl Beginnings<ListTree> for Scene {
    ghost use Rattle.explore.specs.Opened.{opened_world};

    ghost opening = { λ s. opened_world s.tree s.plans.items s.lines };

    /// The world over copies of the tree and the plans. NoMemory also where the world can't be made: see that
    /// `World::new` makes it first.
    fn world(&self, alloc: Global) -> Result<World<ListTree>, NoMemory> {
        let tree = self.tree.copy(alloc)?;
        let plans = copy_plans(alloc, self.plans.as_slice())?;
        match World::new(alloc, tree, plans, self.lines) {
            Ok(world) => Ok(world),
            Err(_) => Err(NoMemory),
        }
    }
}
