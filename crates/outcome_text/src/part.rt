//! The outcomes of the schedules that begin with some turns: a part of those of all.
use crate::survey::Told;

/// The lists that begin with some turns: how many there are, and the outcomes that they lead to.
#[derive(Debug, Drop)]
pub struct Part {
    /// The actors of these turns.
    pub begin: Vec<u32>,
    /// Of each of them, who might have had it; up to the first that can't be taken.
    pub might: Vec<Vec<u32>>,
    /// How many lists there are: none where the turns can't be taken.
    pub lists: u64,
    /// How many turns the longest has.
    pub turns: u64,
    /// Each outcome.
    pub all: Vec<Told>,
}
