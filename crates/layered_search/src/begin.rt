//! Whether the turns that all lists are to begin with can be taken.
ghost use Rattle.std.specs.Prelude.{◌≡◌, ◌<◌, ◌≤◌, ◌^◌, ℕ, List, length, take, IfOk, IfErr, OnOk};
ghost use Rattle.layered_search.specs.Limits.{limits_of, scope_of};
ghost use Rattle.layered_search.specs.Asked.{IsOnWay, WhyNot};
ghost use Rattle.layered_search.specs.Points.{AreWithin};
ghost use Rattle.layered_search.specs.States.{IsSoFar, IsTakenAt};
ghost use Rattle.layered_search.specs.System.{state_after};

use crate::cost::{Cost, cost_by, is_within, no_cost};
use crate::frontier::layer::{Turns, turns_and};
use crate::limits::{Limits, SearchFault};
use crate::system::TransitionSystem;
use std::alloc::Global;

// What counts after the turn at that place of the beginning, from the state of that key.
//
// Errors: TooManyTurns where there are more before it than the limit; NotBusy where its actor has nothing left to do;
// TooManyCuts where there are more cuts with it than are asked for.
fn cost_at<S: TransitionSystem>(
    system: &S,
    limits: &Limits,
    memory: &S::Memory,
    key: &S::Key,
    cost: Cost,
    at: usize,
) -> Result<Cost, SearchFault>
    requires few { (S.system system.now).actors ≤ 64 }
    requires known { (n : ℕ) × ((v : S.State) × (S.keys system.now).IsKey memory.now n v key.now) }
    requires within { AreWithin cost (2 ^ 40) }
    requires there { at < length limits.now.scope.begin.items }
    ensures ok { IfOk result (λ after. (is : List ℕ) (n : ℕ) → is ≡ take at limits.now.scope.begin.items
        → (S.keys system.now).IsKey memory.now n (state_after (S.system system.now) is) key.now
        → IsTakenAt (S.system system.now) (scope_of limits.now.scope) is at cost after) }
    ensures few { OnOk result (at ≤ limits.now.turns) }
    ensures err { IfErr result (λ fault. (is : List ℕ) (n : ℕ) → is ≡ take at limits.now.scope.begin.items
        → (S.keys system.now).IsKey memory.now n (state_after (S.system system.now) is) key.now
        → IsSoFar (S.system system.now) (scope_of limits.now.scope) is cost
        → WhyNot (S.system system.now) (limits_of limits.now) fault) }
{
    let actor = limits.scope.begin[at];
    if at > limits.turns as usize {
        return Err(SearchFault::TooManyTurns);
    }
    if actor as usize >= system.actors(key) || !system.is_busy(memory, key, actor as u8) {
        return Err(SearchFault::NotBusy(at));
    }
    let after = cost_by(system, memory, key, cost, actor as u8);
    if !is_within(limits.scope.cuts, after.cuts) {
        return Err(SearchFault::TooManyCuts(at));
    }
    Ok(after)
}

/// Takes the turns that all lists are to begin with, one after another, from the beginning's key.
///
/// Errors: TooManyTurns where there are more than the limit; NotBusy at the first turn of an actor who has nothing left
/// to do; TooManyCuts at the first with which there are more cuts than are asked for; NoMemory where room was refused.
pub(crate) fn can_begin<S: TransitionSystem>(
    alloc: Global,
    system: &S,
    limits: &Limits,
    memory: &mut S::Memory,
    key: &S::Key,
) -> Result<(), SearchFault>
    requires few { (S.system system.now).actors ≤ 64 }
    requires sound { (S.keys system.now).IsSound memory.old }
    requires key { (S.keys system.now).IsKey memory.old 0 (S.system system.now).begin key.now }
    ensures sound { OnOk result ((S.keys system.now).IsSound memory.new) }
    ensures grows { OnOk result ((S.keys system.now).Grows memory.old memory.new) }
    ensures begins { OnOk result (IsOnWay (S.system system.now) (scope_of limits.now.scope)
        limits.now.scope.begin.items) }
    ensures err { IfErr result (WhyNot (S.system system.now) (limits_of limits.now)) }
{
    let begin = limits.scope.begin.as_slice();
    let mut turns = Turns::new(alloc);
    let mut cost = no_cost();
    let mut own: Option<S::Key> = None;
    for at in 0..begin.len() {
        let now = match &own {
            Some(own) => own,
            None => key,
        };
        cost = cost_at(system, limits, memory, now, cost, at)?;
        let actor = begin[at] as u8;
        let next = system.next(alloc, memory, now, turns.as_slice(), actor)?;
        turns = turns_and(alloc, turns.as_slice(), actor)?;
        own = Some(next);
    }
    Ok(())
}
