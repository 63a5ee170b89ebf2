//! A walk among others, who change the tree between its steps.
ghost use Rattle.std.specs.Prelude.{◌≡◌, ℕ, Some, true};
ghost use Rattle.tree_model.specs.State.{State, is_dir};
ghost use Rattle.tree_model.specs.Steps.{held};
ghost use Rattle.tree_model.specs.Trees.{IsState};
ghost use Rattle.step_resolver.specs.Driver.{node_of, IsOwned};
ghost use Rattle.step_resolver.specs.View.{way_from};
ghost use Rattle.example_callers.specs.AmongOthers.{ByOthers, MayStep, TellsAmong, end_of};

use path_text::{Errno, Flags, Path};
use std::alloc::Global;
use step_machine::answer_to;
use step_resolver::{Goal, Resolved, Root, Turn, Walk, headline};
use tree_model::{Actor, Step, Tree, legal_histories_join};

/// Whoever else acts on a tree.
pub trait Others<T: Tree> {
    /// For a walker: what they may make of themselves and of a tree when they act.
    ghost acts: { ℕ → Self → State → Self → State → Type 0 };

    /// Makes single steps on the tree, none of them as the walker.
    fn act(&mut self, alloc: Global, tree: &mut T, walker: Actor)
        ensures others { ByOthers walker (T.state tree.old) (T.state tree.new) }
        ensures acted { acts walker self.old (T.state tree.old) self.new (T.state tree.new) };
}

/// An actor who makes one and the same step each time, where there is memory for it and he isn't the walker.
#[derive(Debug, Drop)]
pub struct EachTurn {
    pub actor: Actor,
    pub step: Step,
}

impl<T: Tree> Others<T> for EachTurn {
    ghost acts = { λ walker old s new t. (new ≡ old) × MayStep walker old.actor old.step s t };

    fn act(&mut self, alloc: Global, tree: &mut T, walker: Actor) {
        if self.actor != walker {
            // A step that there was no memory for wasn't made.
            let _ = tree.step(alloc, self.actor, &self.step.lend());
        }
    }
}

/// Resolves a path below the root (openat2(2), RESOLVE_IN_ROOT), while others act before each of its steps. There is a
/// legal history of all these steps, and the headline (`specs/Headline.antt` of `step_resolver`) holds of it: what was
/// found was reached part by part, and stood under the root at its names when it was checked. It stays open.
///
/// Errors: those of `Walk::start` and `Walk::take`; NoMemory.
pub fn resolve_among<T: Tree, O: Others<T>>(
    alloc: Global,
    tree: &mut T,
    others: &mut O,
    root: Root,
    path: Path,
    goal: Goal,
    flags: Flags,
) -> Result<Resolved, Errno>
    requires tree { IsState (T.state tree.old) }
    requires root { held (T.state tree.old) root.owner.actor root.handle
        ≡ Some (node_of (T.state tree.old) root.owner.actor root.handle) }
    requires directory { is_dir (T.state tree.old).nodes (node_of (T.state tree.old) root.owner.actor root.handle)
        ≡ true }
    ensures tells { TellsAmong O (O.acts root.owner.actor)
        (way_from root goal flags) path root.owner.actor others.old (T.state tree.old) others.new
        (T.state tree.new) (end_of goal result) }
    ensures owner { IsOwned root.owner result }
{
    // what the end tells, and that the steps make one history
    headline();
    legal_histories_join();
    let Root { owner, handle } = root;
    let actor = owner.actor;
    let mut turn = Walk::start(alloc, Root { owner, handle }, path, goal, flags);
    loop {
        match turn {
            Turn::More(walk) => {
                others.act(alloc, tree, actor);
                let answer = answer_to(alloc, tree, actor, &walk.due());
                turn = walk.take(answer);
            }
            Turn::Found(standing) => return Ok(Resolved::Found(standing)),
            Turn::Partial(standing, rest) => return Ok(Resolved::Partial(standing, rest)),
            Turn::Failed(error) => return Err(error),
        }
    }
}
