//! Whether two plans have the same to come.
ghost use Rattle.std.specs.Prelude.{◌≡◌, ◌≤◌, length, drop, IsTrue, ◌↔◌};
ghost use Rattle.walk_plan.specs.Plan.{stayed};
ghost use Rattle.walk_plan.specs.Same.{SameOwn, SameToCome, follows_last};

use super::Plan;
use crate::goal::Goal;
use path_text::{Part, Parts};

impl Plan {
    /// Whether the caller's own parts to come are the same, with a link at the very last one followed in both
    /// or in neither. It asks neither for the parts of links' texts nor for the links left.
    pub fn same_own(&self, other: &Plan) -> bool
        ensures { IsTrue result ↔ SameOwn self.now other.now }
    {
        same_rest(&self.own, 0, self.goal, &other.own, 0, other.goal)
    }

    /// Whether all parts to come are the same, with a link at the caller's very last one followed in both or in
    /// neither, and as many links may still be followed. It doesn't ask for the names passed.
    pub fn same_to_come(&self, other: &Plan) -> bool
        ensures { IsTrue result ↔ SameToCome self.now other.now }
    {
        self.links_left == other.links_left && self.inner.same(&other.inner) && self.same_own(other)
    }

    /// The same of what comes after the next part, whether that is of the caller's text or of a link's.
    pub fn same_after_next(&self, other: &Plan) -> bool
        ensures { IsTrue result ↔ SameToCome (stayed self.now) (stayed other.now) }
    {
        self.links_left == other.links_left
            && self
                .inner
                .same_after(self.inner_passed(), &other.inner, other.inner_passed())
            && same_rest(
                &self.own,
                self.own_passed(),
                self.goal,
                &other.own,
                other.own_passed(),
                other.goal,
            )
    }

    // How many parts of links' texts go where the next part is taken off.
    fn inner_passed(&self) -> usize
        ensures after { drop result self.now.inner ≡ (stayed self.now).inner }
        ensures few { result ≤ length self.now.inner }
    {
        if self.inner.is_empty() { 0 } else { 1 }
    }

    // The same of the caller's own parts.
    fn own_passed(&self) -> usize
        ensures after { drop result self.now.own ≡ (stayed self.now).own }
        ensures few { result ≤ length self.now.own }
    {
        if self.is_own() { 1 } else { 0 }
    }
}

// Not so where the very last part, after so many, is a name at which a link isn't followed.
#[tactic(auto, using(crate::proofs::SameLemmas::last_after, crate::proofs::SameLemmas::none_after))]
fn follows_last(own: &Parts, passed: usize, goal: Goal) -> bool
    ensures { result ≡ follows_last goal (drop passed own.now) }
{
    if passed >= own.len() {
        return true;
    }
    match own.last() {
        Some(Part::Named(_)) => goal.follows_last_link(),
        _ => true,
    }
}

// Whether these own parts, after so many of each, are the same, with a link at the very last one followed in both or
// in neither.
fn same_rest(
    own: &Parts,
    passed: usize,
    goal: Goal,
    others: &Parts,
    others_passed: usize,
    other_goal: Goal,
) -> bool
    requires { (passed ≤ length own.now) × (others_passed ≤ length others.now) }
    ensures { IsTrue result
        ↔ ((drop passed own.now ≡ drop others_passed others.now)
        × (follows_last goal (drop passed own.now) ≡ follows_last other_goal (drop others_passed others.now))) }
{
    own.same_after(passed, others, others_passed)
        && follows_last(own, passed, goal) == follows_last(others, others_passed, other_goal)
}
