//! The next layer's states as they are found, with the table in which they are looked up.
ghost use Rattle.std.specs.Prelude.{◌≡◌, ◌↔◌, ◌⊎◌, ◌++◌, ◌∷◌, [], ℕ, drop, length, Some, slice_get, IsTrue, IfOk, IfSome, IfNone};
ghost use Rattle.std.specs.List.{count_by};
ghost use Rattle.layered_search.specs.declared.frontier.layer.Visited.{Visited};
ghost use Rattle.layered_search.specs.Distinct.{Keeps};
ghost use Rattle.layered_search.specs.Marked.{IsSameAt, IsOneAt, IsNew, AreLookedUp, prints_of, IsPut};

use crate::frontier::layer::{Visited, turns_and};
use crate::frontier::table::Table;
use crate::system::TransitionSystem;
use path_text::NoMemory;
use std::alloc::Global;

/// States of which no two have the same key, and where they are looked up by the numbers of their keys.
#[derive(Drop)]
pub(crate) struct VisitedSet<K> {
    pub(crate) states: Vec<Visited<K>>,
    pub(crate) table: Table,
}

// Whether the state at that place has that key.
fn is_same_at<S: TransitionSystem>(
    system: &S,
    states: &[Visited<S::Key>],
    at: usize,
    key: &S::Key,
) -> bool
    ensures { IsTrue result ↔ IsSameAt (S.keys system.now) key.now states.now at }
{
    match states.get(at) {
        Some(other) => system.is_same(key, &other.key),
        None => false,
    }
}

// The place of a state of that key, whose number that is. Where there is none, no state has it.
fn same_at<S: TransitionSystem>(
    system: &S,
    states: &[Visited<S::Key>],
    table: &Table,
    print: u64,
    key: &S::Key,
) -> Option<usize>
    requires prints { table.now ≡ prints_of (S.keys system.now) states.now }
    requires own { print ≡ (S.keys system.now).print_of key.now }
    ensures same { IfSome result (λ at. IsSameAt (S.keys system.now) key.now states.now at) }
    ensures none { IfNone result ((at : ℕ) → IsSameAt (S.keys system.now) key.now states.now at → ⊥) }
{
    let mut place = table.last(print);
    while let Some(at) = place {
        if is_same_at(system, states, at, key) {
            return Some(at);
        }
        place = table.before(at);
    }
    None
}

// Whether the state at that place has a key that counts as one with that.
fn is_one_at<S: TransitionSystem>(
    system: &S,
    states: &[Visited<S::Key>],
    at: usize,
    key: &S::Key,
) -> bool
    ensures { IsTrue result ↔ IsOneAt (S.keys system.now) key.now states.now at }
{
    match states.get(at) {
        Some(other) => system.counts_as_one(key, &other.key),
        None => false,
    }
}

// Whether that key counts as one with none of the states. Those of its number are compared.
fn is_new<S: TransitionSystem>(
    system: &S,
    states: &[Visited<S::Key>],
    table: &Table,
    print: u64,
    key: &S::Key,
) -> bool
    requires prints { table.now ≡ prints_of (S.keys system.now) states.now }
    requires own { print ≡ (S.keys system.now).print_of key.now }
    ensures { IsNew (S.keys system.now) result states.now (length states.now) key.now }
{
    let mut place = table.last(print);
    while let Some(at) = place {
        if is_one_at(system, states, at, key) {
            return false;
        }
        place = table.before(at);
    }
    true
}

/// None yet.
pub(crate) fn no_states<S: TransitionSystem>(system: &S, alloc: Global) -> VisitedSet<S::Key>
    ensures none { result.states.items ≡ [] }
    ensures looked_up { AreLookedUp (S.keys system.now) result.states.items result.table }
{
    VisitedSet {
        states: Vec::new(alloc),
        table: Table::new(alloc),
    }
}

/// The place of the state of that key. Where there is none, one is put after the others, to which these turns and one
/// of that actor lead; it is a new one where its key counts as one with none. NoMemory where its room was refused: the
/// states are as they were then.
pub(crate) fn put<S: TransitionSystem>(
    alloc: Global,
    system: &S,
    known: &mut VisitedSet<S::Key>,
    key: S::Key,
    before: &[u8],
    actor: u8,
) -> Result<usize, NoMemory>
    requires { AreLookedUp (S.keys system.now) known.old.states.items known.old.table }
    ensures looked_up { AreLookedUp (S.keys system.now) known.new.states.items known.new.table }
    ensures keeps { Keeps known.old.states.items known.new.states.items }
    ensures there { IfOk result (λ at. IsSameAt (S.keys system.now) key known.new.states.items at) }
    ensures new { (m : ℕ) (one : Visited S.Key) → slice_get known.new.states.items m ≡ Some one
        → (slice_get known.old.states.items m ≡ Some one) ⊎ IsPut key (before.now ++ actor ∷ []) one }
{
    let print = system.print(&key);
    if let Some(at) = same_at(system, known.states.as_slice(), &known.table, print, &key) {
        return Ok(at);
    }
    let is_new = is_new(system, known.states.as_slice(), &known.table, print, &key);
    let turns = turns_and(alloc, before, actor)?;
    let at = known.states.len();
    known.states.reserve(1)?;
    known.table.push(print)?;
    known.states.push_reserved(Visited { key, turns, is_new });
    Ok(at)
}

/// How many of the states from that place on are new ones.
pub(crate) fn count_states<K>(states: &[Visited<K>], from: usize) -> u64
    ensures { result ≡ count_by (λ (one : Visited K). one.is_new) (drop from states.now) }
{
    let mut count: u64 = 0;
    for at in from..states.len() {
        if states[at].is_new {
            count += 1;
        }
    }
    count
}
