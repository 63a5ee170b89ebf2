//! Systems whose states are known whole.
ghost use Rattle.std.specs.Prelude.{◌≡◌, ℕ};
ghost use Rattle.layered_search.specs.System.{state_after};
ghost use Rattle.example_systems.specs.Plain.{system_of};

use layered_search::{SearchFault, TransitionSystem};
use path_text::NoMemory;
use std::alloc::Global;

/// A system whose states are values, and no two of which are alike.
pub trait PlainSystem {
    ghost use Rattle.std.specs.Prelude.{◌↔◌, IsTrue};
    ghost use Rattle.example_systems.specs.Plain.{Plain, IsPlain};

    /// What it has come to.
    type State: Drop;

    /// What an end comes to.
    type Outcome: Drop;

    /// The system.
    ghost plain: { Self → Plain Self.State Self.Outcome };

    /// The number by which a state is looked up.
    ghost print_of: { Self.State → ℕ };

    /// Only the actors have turns, and who can't have one is within no call.
    ghost is_plain: { (self : Self) → IsPlain (plain self) };

    /// The state in which each schedule begins.
    fn begin(&self) -> Self::State
        ensures { result ≡ (plain self.now).begin };

    /// How many actors there are.
    fn actors(&self) -> usize
        ensures { result ≡ (plain self.now).actors };

    /// Whether the actor can have a turn.
    fn is_busy(&self, state: &Self::State, actor: u8) -> bool
        ensures { result ≡ (plain self.now).is_busy state.now actor };

    /// Whether another's turn cuts the actor off from a call.
    fn is_within(&self, state: &Self::State, actor: u8) -> bool
        ensures { result ≡ (plain self.now).is_within state.now actor };

    /// The state after the actor's turn.
    fn turn(&self, state: &Self::State, actor: u8) -> Self::State
        ensures { result ≡ (plain self.now).turn state.now actor };

    /// What that state comes to where nobody can have a turn.
    fn outcome(&self, state: &Self::State) -> Self::Outcome
        ensures { result ≡ (plain self.now).outcome state.now };

    /// Whether the states are the same.
    fn is_same(&self, state: &Self::State, other: &Self::State) -> bool
        ensures { IsTrue result ↔ state.now ≡ other.now };

    /// Whether the outcomes are the same.
    fn is_same_outcome(&self, outcome: &Self::Outcome, other: &Self::Outcome) -> bool
        ensures { IsTrue result ↔ outcome.now ≡ other.now };

    /// The number by which the state is looked up: the more states differ in it, the faster is a search.
    fn print(&self, state: &Self::State) -> u64
        ensures { result ≡ print_of state.now };
}

/// A plain system as one that can be searched: a state is its own key, and nothing need be remembered.
#[derive(Debug, Drop)]
pub struct Whole<P>(pub P);

// The state after these turns.
fn after<P: PlainSystem>(plain: &P, turns: &[u8]) -> P::State
    ensures { result ≡ state_after (system_of (P.plain plain.now)) turns.now }
{
    let mut state = plain.begin();
    for actor in turns {
        state = plain.turn(&state, *actor);
    }
    state
}

impl<P: PlainSystem> TransitionSystem for Whole<P> {
    ghost use Rattle.example_systems.specs.Plain.{keys_by, outcomes_of, plain_is_system, plain_has_keys, plain_has_outcomes};

    ghost State = { P.State };

    ghost system = { λ s. system_of (P.plain s.0) };

    type Key = P::State;

    type Memory = ();

    type Outcome = P::Outcome;

    ghost keys = { λ _. keys_by P.print_of };

    ghost outcomes = { λ s. outcomes_of (P.plain s.0) };

    ghost is_system = { λ s. plain_is_system (P.plain s.0) (P.is_plain s.0) };

    ghost are_keys = { λ s. plain_has_keys (P.plain s.0) P.print_of };

    ghost are_outcomes = { λ s. plain_has_outcomes (P.plain s.0) };

    fn begin(&self, _alloc: Global) -> Result<((), P::State), SearchFault> {
        if self.0.actors() > 64 {
            return Err(SearchFault::TooManyActors);
        }
        Ok(((), self.0.begin()))
    }

    fn actors(&self, _key: &P::State) -> usize {
        self.0.actors()
    }

    fn is_busy(&self, _memory: &(), key: &P::State, actor: u8) -> bool {
        self.0.is_busy(key, actor)
    }

    fn is_within(&self, _memory: &(), key: &P::State, actor: u8) -> bool {
        self.0.is_within(key, actor)
    }

    fn next(
        &self,
        _alloc: Global,
        _memory: &mut (),
        key: &P::State,
        _turns: &[u8],
        actor: u8,
    ) -> Result<P::State, NoMemory> {
        Ok(self.0.turn(key, actor))
    }

    fn is_same(&self, key: &P::State, other: &P::State) -> bool {
        self.0.is_same(key, other)
    }

    fn counts_as_one(&self, key: &P::State, other: &P::State) -> bool {
        self.0.is_same(key, other)
    }

    fn print(&self, key: &P::State) -> u64 {
        self.0.print(key)
    }

    fn counts_states(&self, _memory: &()) {}

    fn outcome(&self, _alloc: Global, turns: &[u8]) -> Result<P::Outcome, NoMemory> {
        Ok(self.0.outcome(&after(&self.0, turns)))
    }

    fn is_same_outcome(&self, outcome: &P::Outcome, other: &P::Outcome) -> bool {
        self.0.is_same_outcome(outcome, other)
    }

    fn give_up(&self, _alloc: Global, _memory: ()) {}
}
