//! What a world comes to in the end.
ghost use Rattle.std.specs.Prelude.{◌≡◌, ◌<◌, ◌≤◌, ℕ, length, IsTrue, ◌↔◌};
ghost use Rattle.race_core.specs.declared.opening.TheConstants.{ACTORS_MAX};
ghost use Rattle.tree_model.specs.Steps.{held_count};
ghost use Rattle.local_states.specs.Worlds.{SameOutcome};

use crate::outcomes::same::{same_counts, same_replies};
use race_core::{Outcomes, Report};
use std::marker::Model;
use tree_model::{Snapshot, Tree, same_nodes};

/// The end of a world's run. Contracts see it as an `EndView`.
#[derive(Drop)]
pub struct End<T: Tree> {
    /// The report on the run, without its events.
    pub report: Report<T>,
    /// Of each actor, how many changes it made outside of its root.
    pub outside: Vec<u64>,
    /// The tree of the report, as a value.
    pub nodes: Snapshot,
}

impl<T: Tree> Model for End<T> {
    ghost use Rattle.std.specs.Prelude.{◌≡◌, ◌≤◌, length};
    ghost use Rattle.race_core.specs.declared.opening.TheConstants.{ACTORS_MAX};
    ghost use Rattle.local_states.specs.Worlds.{EndView};

    ghost Value = { EndView };

    ghost view = { λ e. record {
      tree = T.state e.report.tree;
      replies = e.report.replies.items;
      outside = e.outside.items;
    } };

    ghost invariant = { λ e. (e.nodes ≡ T.state e.report.tree) × (length e.report.replies.items ≤ ACTORS_MAX) };
}

impl<T: Tree> End<T> {
    // The actors' replies, of at most 64 actors.
    fn replies(&self) -> &[Outcomes]
        ensures replies { result.now ≡ self.now.replies }
        ensures few { length self.now.replies ≤ ACTORS_MAX }
    {
        self.report.replies.as_slice()
    }

    // Whether each of the first actors, as many as that, has as many handles open as in the other.
    fn holds_as(&self, other: &End<T>, actors: usize) -> bool
        requires { actors ≤ ACTORS_MAX }
        ensures { IsTrue result ↔ ((a : ℕ) → a < actors → held_count self.now.tree a ≡ held_count other.now.tree a) }
    {
        same_counts(&self.report.tree, &other.report.tree, actors)
    }

    // Whether each actor made as many changes outside of its root.
    fn changed_as(&self, other: &End<T>) -> bool
        ensures { IsTrue result ↔ (self.now.outside ≡ other.now.outside) }
    {
        self.outside == other.outside
    }

    // Whether the trees have the same nodes.
    fn has_nodes_of(&self, other: &End<T>) -> bool
        ensures { IsTrue result ↔ (self.now.tree.nodes ≡ other.now.tree.nodes) }
    {
        same_nodes(self.nodes.nodes(), other.nodes.nodes())
    }

    /// Whether they tell the same outcome. What differs first is mostly a reply.
    pub(crate) fn is_same(&self, other: &End<T>) -> bool
        ensures { IsTrue result ↔ SameOutcome self.now other.now }
    {
        let replies = other.replies();
        if !same_replies(self.replies(), replies) {
            return false;
        }
        if !self.holds_as(other, replies.len()) {
            return false;
        }
        if !self.changed_as(other) {
            return false;
        }
        self.has_nodes_of(other)
    }
}
