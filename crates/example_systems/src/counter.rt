//! Actors who add one to a number that they share.

use crate::plain::PlainSystem;
use crate::rows::{ROW, entry, with};

/// Each actor reads the number by its first turn, and writes what it has read plus one by its second.
#[derive(Clone, Copy, Debug, PartialEq, Eq)]
pub struct Counter {
    /// How many actors there are. From the fourth on they have nothing to do.
    pub actors: u8,
}

/// How far the actors have come.
#[derive(Clone, Copy, Debug, PartialEq, Eq)]
pub struct Counting {
    /// The number. After 255 comes 0.
    pub number: u8,
    /// What each actor has read and not written yet; 0 before and after.
    pub read: [u8; ROW],
    /// How many turns each has had.
    pub turns: [u8; ROW],
}

impl PlainSystem for Counter {
    ghost use Rattle.example_systems.specs.Counter.{counter, counter_is_plain};

    type State = Counting;

    type Outcome = u8;

    ghost plain = { λ c. counter c.actors };

    ghost print_of = { λ v. v.number };

    ghost is_plain = { λ c. counter_is_plain c.actors };

    fn begin(&self) -> Counting {
        Counting {
            number: 0,
            read: [0; ROW],
            turns: [0; ROW],
        }
    }

    fn actors(&self) -> usize {
        self.actors as usize
    }

    fn is_busy(&self, state: &Counting, actor: u8) -> bool {
        actor < self.actors && entry(&state.turns, actor) < 2
    }

    fn is_within(&self, state: &Counting, actor: u8) -> bool {
        self.is_busy(state, actor) && entry(&state.turns, actor) > 0
    }

    fn turn(&self, state: &Counting, actor: u8) -> Counting {
        if entry(&state.turns, actor) == 0 {
            return Counting {
                number: state.number,
                read: with(&state.read, actor, state.number),
                turns: with(&state.turns, actor, 1),
            };
        }
        Counting {
            number: entry(&state.read, actor).wrapping_add(1),
            read: with(&state.read, actor, 0),
            turns: with(&state.turns, actor, 2),
        }
    }

    fn outcome(&self, state: &Counting) -> u8 {
        state.number
    }

    fn is_same(&self, state: &Counting, other: &Counting) -> bool {
        *state == *other
    }

    fn is_same_outcome(&self, outcome: &u8, other: &u8) -> bool {
        *outcome == *other
    }

    fn print(&self, state: &Counting) -> u64 {
        u64::from(state.number)
    }
}
