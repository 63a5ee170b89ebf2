//! What a search finds.

use crate::frontier::layer::Turns;

/// An outcome, and a list of turns by which it was found.
#[derive(Drop)]
pub(crate) struct Found<O> {
    pub(crate) turns: Turns,
    pub(crate) outcome: O,
}

/// An outcome, how many lists lead to it, and the least of them.
#[derive(Debug, Drop)]
pub struct Class<O> {
    /// What the lists come to: it is of an end that agrees with theirs.
    pub outcome: O,
    /// The list with the fewest cuts, of these one with the fewest changes of actor, and of these the first one as
    /// lists of numbers go: the actors of the turns, one after another.
    pub least: Vec<u32>,
    /// How many turns of that list cut another actor's call.
    pub cuts: u64,
    /// How many of them are another actor's than the turn before.
    pub changes: u64,
    /// How many lists that are asked for lead to the outcome, exactly below `schedule_graph::COUNT_CAP`.
    pub lists: u64,
}

/// All that was found.
#[derive(Debug, Drop)]
pub struct Findings<O> {
    /// The outcomes, each once.
    pub classes: Vec<Class<O>>,
    /// How many lists are asked for, exactly below `schedule_graph::COUNT_CAP`.
    pub lists: u64,
    /// The number of turns of the longest.
    pub turns: usize,
    /// How many states there are: of those that count as one after as many turns one.
    pub states: u64,
}
