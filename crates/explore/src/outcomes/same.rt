//! Whether two runs tell the same.
ghost use Rattle.std.specs.Prelude.{◌≡◌, ◌<◌, ◌≤◌, ℕ, IsTrue, ◌↔◌};
ghost use Rattle.tree_model.specs.Steps.{held_count};
ghost use Rattle.race_core.specs.Renamed.{replies_by};

use race_core::{ACTORS_MAX, Outcomes, like_outcomes};
use tree_model::{Actor, Tree};

/// Whether the calls of each actor ended in the same way but for the numbers of handles.
pub(crate) fn same_replies(replies: &[Outcomes], others: &[Outcomes]) -> bool
    ensures { IsTrue result ↔ (replies_by (λ h. 0) replies.now ≡ replies_by (λ h. 0) others.now) }
{
    if replies.len() != others.len() {
        return false;
    }
    for (actor, outcomes) in replies.iter().enumerate() {
        if !like_outcomes(outcomes.as_slice(), others[actor].as_slice()) {
            return false;
        }
    }
    true
}

/// Whether each of the first actors, as many as that, has as many handles open in the one tree as in the other.
pub(crate) fn same_counts<T: Tree>(tree: &T, other: &T, actors: usize) -> bool
    requires { actors ≤ ACTORS_MAX }
    ensures { IsTrue result ↔ ((a : ℕ) → a < actors
        → held_count (T.state tree.now) a ≡ held_count (T.state other.now) a) }
{
    for at in 0..actors {
        let actor = Actor::new(at as u32);
        if tree.held(actor) != other.held(actor) {
            return false;
        }
    }
    true
}
