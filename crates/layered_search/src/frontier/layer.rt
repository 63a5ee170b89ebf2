//! The states that lists of so many turns lead to, one of those with the same key each, and the configurations on them.
ghost use Rattle.std.specs.Prelude.{◌≡◌, ◌++◌, ◌∷◌, [], IfOk};

use crate::cost::Cost;
use path_text::NoMemory;
use smallvec::SmallVec;
use std::alloc::Global;

/// A list of turns keeps so many in its value. Where it has more, all are in an allocation.
pub(crate) const TURNS_IN_PLACE: usize = 64;

/// What is kept of so many actors of a state lies in place.
pub(crate) const ACTORS_IN_PLACE: usize = 4;

/// The actors of turns, a byte each: there are at most 64.
pub(crate) type Turns = SmallVec<u8, TURNS_IN_PLACE>;

/// A state, by its key, and a list of turns that leads to it.
#[derive(Drop)]
pub(crate) struct Visited<K> {
    pub(crate) key: K,
    pub(crate) turns: Turns,
    /// Whether it counts as one with no state before it.
    pub(crate) is_new: bool,
}

/// What some lists of turns lead to: a state, with the last actor and the cuts before, where they are bounded.
#[derive(Drop)]
pub(crate) struct Configuration {
    /// The place of the state among those of the layer.
    pub(crate) state: usize,
    /// One of the lists.
    pub(crate) turns: Turns,
    /// What counted in it.
    pub(crate) cost: Cost,
}

/// States that lists of one length lead to, no two of them with the same key, and the configurations on them.
#[derive(Drop)]
pub(crate) struct Layer<K> {
    pub(crate) states: Vec<Visited<K>>,
    pub(crate) configurations: Vec<Configuration>,
}

/// These turns and one of that actor. NoMemory where their room was refused.
pub(crate) fn turns_and(alloc: Global, before: &[u8], actor: u8) -> Result<Turns, NoMemory>
    ensures { IfOk result (λ turns. turns.items ≡ before.now ++ actor ∷ []) }
{
    let mut turns = SmallVec::with_capacity(alloc, before.len() + 1)?;
    turns.extend_from_slice(before)?;
    turns.push(actor)?;
    Ok(turns)
}
