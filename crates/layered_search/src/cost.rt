//! What counts in a list of turns, and who may have the next one.
ghost use Rattle.std.specs.Prelude.{◌≡◌, ◌^◌, ◌↔◌, ℕ, IsTrue};
ghost use Rattle.layered_search.specs.Asked.{IsWithin, IsOnly};
ghost use Rattle.layered_search.specs.Points.{no_cost, cost_after, AreWithin, MayGo};

use crate::limits::Bounds;
use crate::system::TransitionSystem;

/// What counts in the turns so far.
#[derive(Clone, Copy, Debug, Default, PartialEq, Eq)]
pub(crate) struct Cost {
    /// Whose the last one was.
    pub(crate) last: Option<u8>,
    pub(crate) cuts: u64,
    pub(crate) changes: u64,
}

/// The cost before the first turn.
pub(crate) fn no_cost() -> Cost
    ensures { result ≡ no_cost }
{
    Cost {
        last: None,
        cuts: 0,
        changes: 0,
    }
}

/// Whether that many cuts are within the bound, if there is one.
pub(crate) fn is_within(most: Option<u64>, cuts: u64) -> bool
    ensures { IsTrue result ↔ IsWithin most cuts }
{
    match most {
        Some(most) => cuts <= most,
        None => true,
    }
}

// Whether the actor is that one, if there is one.
fn is_only(only: Option<u32>, actor: u8) -> bool
    ensures { IsTrue result ↔ IsOnly only actor }
{
    match only {
        Some(only) => u32::from(actor) == only,
        None => true,
    }
}

/// The cost after a turn of that actor in the state of that key.
pub(crate) fn cost_by<S: TransitionSystem>(
    system: &S,
    memory: &S::Memory,
    key: &S::Key,
    cost: Cost,
    actor: u8,
) -> Cost
    requires { AreWithin cost (2 ^ 40) }
    ensures { (n : ℕ) (v : S.State) → (S.keys system.now).IsKey memory.now n v key.now
        → result ≡ cost_after (S.system system.now) v cost actor }
{
    let mut after = cost;
    after.last = Some(actor);
    if let Some(last) = cost.last
        && last != actor
    {
        after.changes += 1;
        if system.is_within(memory, key, last) {
            after.cuts += 1;
        }
    }
    after
}

/// Whether the actor may have the next turn in the state of that key: it has something left to do, its turn leaves the
/// cuts within the bound, and it is the one who alone may have it, where one is named.
pub(crate) fn may_go<S: TransitionSystem>(
    system: &S,
    memory: &S::Memory,
    key: &S::Key,
    cost: Cost,
    bounds: Bounds,
    actor: u8,
) -> bool
    requires { AreWithin cost (2 ^ 40) }
    ensures { (n : ℕ) (v : S.State) → (S.keys system.now).IsKey memory.now n v key.now
        → (IsTrue result ↔ MayGo (S.system system.now) bounds (record { state = v; cost = cost }) actor) }
{
    is_only(bounds.only, actor)
        && system.is_busy(memory, key, actor)
        && is_within(bounds.cuts, cost_by(system, memory, key, cost, actor).cuts)
}
