//! Philosophers at a round table, with a fork between any two neighbours.
ghost use Rattle.std.specs.Prelude.{◌≡◌};
ghost use Rattle.example_systems.specs.Philosophers.{right, takes_right_first, first_fork, second_fork};

use crate::plain::PlainSystem;
use crate::rows::{ROW, entry, with};

/// Each philosopher takes one fork by its first turn and the other one by its second, each while it is free. By its
/// third turn it eats, and lays both down.
#[derive(Clone, Copy, Debug, PartialEq, Eq)]
pub struct Philosophers {
    /// How many there are: two or three. From the fourth on they have nothing to do.
    pub actors: u8,
    /// Whether the last one takes the right fork first. All others take the left one first.
    pub is_mixed: bool,
}

/// How far the philosophers have come.
#[derive(Clone, Copy, Debug, PartialEq, Eq)]
pub struct Table {
    /// How many hands hold each fork. The fork on a philosopher's left has the philosopher's number.
    pub hands: [u8; ROW],
    /// How many turns each philosopher has had.
    pub turns: [u8; ROW],
    /// How many have eaten.
    pub eaten: u8,
}

/// What a meal comes to.
#[derive(Clone, Copy, Debug, PartialEq, Eq)]
pub enum Meal {
    /// All have eaten.
    Eaten,
    /// Somebody has not, and nobody can go on.
    Deadlock,
}

impl Philosophers {
    // The fork on the philosopher's right.
    fn right(&self, actor: u8) -> u8
        ensures { result ≡ right self.now actor }
    {
        if (actor as usize) + 1 < self.actors as usize {
            actor + 1
        } else {
            0
        }
    }

    fn takes_right_first(&self, actor: u8) -> bool
        ensures { result ≡ takes_right_first self.now actor }
    {
        self.is_mixed && (actor as usize) + 1 == self.actors as usize
    }

    // The fork that the philosopher takes first.
    fn first_fork(&self, actor: u8) -> u8
        ensures { result ≡ first_fork self.now actor }
    {
        if self.takes_right_first(actor) {
            self.right(actor)
        } else {
            actor
        }
    }

    // The other one.
    fn second_fork(&self, actor: u8) -> u8
        ensures { result ≡ second_fork self.now actor }
    {
        if self.takes_right_first(actor) {
            actor
        } else {
            self.right(actor)
        }
    }
}

impl PlainSystem for Philosophers {
    ghost use Rattle.example_systems.specs.Philosophers.{philosophers, philosophers_are_plain};

    type State = Table;

    type Outcome = Meal;

    ghost plain = { λ p. philosophers p };

    ghost print_of = { λ v. v.eaten };

    ghost is_plain = { λ p. philosophers_are_plain p };

    fn begin(&self) -> Table {
        Table {
            hands: [0; ROW],
            turns: [0; ROW],
            eaten: 0,
        }
    }

    fn actors(&self) -> usize {
        self.actors as usize
    }

    fn is_busy(&self, state: &Table, actor: u8) -> bool {
        actor < self.actors
            && match entry(&state.turns, actor) {
                0 => entry(&state.hands, self.first_fork(actor)) == 0,
                1 => entry(&state.hands, self.second_fork(actor)) == 0,
                turns => turns < 3,
            }
    }

    fn is_within(&self, state: &Table, actor: u8) -> bool {
        self.is_busy(state, actor) && entry(&state.turns, actor) > 0
    }

    fn turn(&self, state: &Table, actor: u8) -> Table {
        let (first, second) = (self.first_fork(actor), self.second_fork(actor));
        let mut after = *state;
        match entry(&state.turns, actor) {
            0 => {
                after.hands = with(&state.hands, first, 1);
                after.turns = with(&state.turns, actor, 1);
            }
            1 => {
                after.hands = with(&state.hands, second, 1);
                after.turns = with(&state.turns, actor, 2);
            }
            _ => {
                after.hands = with(&with(&state.hands, first, 0), second, 0);
                after.turns = with(&state.turns, actor, 3);
                after.eaten = state.eaten.wrapping_add(1);
            }
        }
        after
    }

    fn outcome(&self, state: &Table) -> Meal {
        if state.eaten == self.actors {
            Meal::Eaten
        } else {
            Meal::Deadlock
        }
    }

    fn is_same(&self, state: &Table, other: &Table) -> bool {
        *state == *other
    }

    fn is_same_outcome(&self, outcome: &Meal, other: &Meal) -> bool {
        *outcome == *other
    }

    fn print(&self, state: &Table) -> u64 {
        u64::from(state.eaten)
    }
}
