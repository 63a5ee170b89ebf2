//! Actors who take a lock before they count.

use crate::plain::PlainSystem;
use crate::rows::{ROW, entry, with};

/// Each actor takes the lock by its first turn, adds one to a number by its second, and lets go of the lock by its
/// third. While the lock is taken nobody else can have a first turn.
#[derive(Clone, Copy, Debug, PartialEq, Eq)]
pub struct Lock {
    /// How many actors there are. From the fourth on they have nothing to do.
    pub actors: u8,
}

/// How far the actors have come.
#[derive(Clone, Copy, Debug, PartialEq, Eq)]
pub struct Locking {
    /// The number. After 255 comes 0.
    pub number: u8,
    /// Whether somebody has the lock.
    pub is_taken: bool,
    /// How many turns each has had.
    pub turns: [u8; ROW],
}

impl PlainSystem for Lock {
    ghost use Rattle.example_systems.specs.Lock.{lock, lock_is_plain};

    type State = Locking;

    type Outcome = u8;

    ghost plain = { λ c. lock c.actors };

    ghost print_of = { λ v. v.number };

    ghost is_plain = { λ c. lock_is_plain c.actors };

    fn begin(&self) -> Locking {
        Locking {
            number: 0,
            is_taken: false,
            turns: [0; ROW],
        }
    }

    fn actors(&self) -> usize {
        self.actors as usize
    }

    fn is_busy(&self, state: &Locking, actor: u8) -> bool {
        actor < self.actors
            && match entry(&state.turns, actor) {
                0 => !state.is_taken,
                turns => turns < 3,
            }
    }

    fn is_within(&self, state: &Locking, actor: u8) -> bool {
        self.is_busy(state, actor) && entry(&state.turns, actor) > 0
    }

    fn turn(&self, state: &Locking, actor: u8) -> Locking {
        let mut after = *state;
        match entry(&state.turns, actor) {
            0 => {
                after.is_taken = true;
                after.turns = with(&state.turns, actor, 1);
            }
            1 => {
                after.number = state.number.wrapping_add(1);
                after.turns = with(&state.turns, actor, 2);
            }
            _ => {
                after.is_taken = false;
                after.turns = with(&state.turns, actor, 3);
            }
        }
        after
    }

    fn outcome(&self, state: &Locking) -> u8 {
        state.number
    }

    fn is_same(&self, state: &Locking, other: &Locking) -> bool {
        *state == *other
    }

    fn is_same_outcome(&self, outcome: &u8, other: &u8) -> bool {
        *outcome == *other
    }

    fn print(&self, state: &Locking) -> u64 {
        u64::from(state.number)
    }
}
