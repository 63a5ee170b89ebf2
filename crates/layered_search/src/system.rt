//! A system whose schedules are searched.
ghost use Rattle.std.specs.Prelude.{◌≡◌, ◌≤◌, ◌<◌, ◌^◌, ◌↔◌, ℕ, length, IsTrue, IfOk, IfErr, OnOk};

use path_text::NoMemory;
use schedule_graph::SearchFault;
use std::alloc::Global;

/// A system of actors who take turns. Each turn leads from a state to one other, so a list of turns leads to one state.
/// A search knows a state by a key, and has a memory of what keys mean.
pub trait TransitionSystem {
    ghost use Rattle.layered_search.specs.Asked.{WhyNot};
    ghost use Rattle.layered_search.specs.Limits.{LimitsView};
    ghost use Rattle.layered_search.specs.Lists.{IsOver};
    ghost use Rattle.layered_search.specs.System.{System, Keys, Outcomes, IsSystem, AreKeys, AreOutcomes, Follows, CountStates, state_after};

    /// Its states.
    ghost State: { Type 0 };

    /// The system.
    ghost system: { Self → System State };

    /// A state's key.
    type Key: Drop;

    /// What is known of keys.
    type Memory;

    /// What an end comes to.
    type Outcome: Drop;

    /// What a key means.
    ghost keys: { Self → Keys State Self.Memory Self.Key };

    /// What an outcome means.
    ghost outcomes: { Self → Outcomes State Self.Outcome };

    /// States that are alike go on alike.
    ghost is_system: { (self : Self) → IsSystem (system self) };

    /// Keys that are the same are of states that are alike.
    ghost are_keys: { (self : Self) → AreKeys (system self) (keys self) };

    /// Outcomes that are the same are of states that agree.
    ghost are_outcomes: { (self : Self) → AreOutcomes (system self) (outcomes self) };

    /// A memory, and the key of the beginning.
    ///
    /// Errors: TooManyActors over 64; NoMemory where room was refused.
    fn begin(&self, alloc: Global) -> Result<(Self::Memory, Self::Key), SearchFault>
        ensures sound { IfOk result (λ begun. (keys self.now).IsSound begun.0) }
        ensures key { IfOk result (λ begun. (keys self.now).IsKey begun.0 0 (system self.now).begin begun.1) }
        ensures actors { OnOk result ((system self.now).actors ≤ 64) }
        ensures err { (limits : LimitsView) → IfErr result (WhyNot (system self.now) limits) };

    /// How many actors there are.
    fn actors(&self, key: &Self::Key) -> usize
        ensures { (memory : Self.Memory) (n : ℕ) (v : State) → (keys self.now).IsKey memory n v key.now
            → result ≡ (system self.now).actors };

    /// Whether the actor has something left to do in the state of that key.
    fn is_busy(&self, memory: &Self::Memory, key: &Self::Key, actor: u8) -> bool
        ensures { (n : ℕ) (v : State) → (keys self.now).IsKey memory.now n v key.now
            → result ≡ (system self.now).is_busy v actor };

    /// Whether another's turn cuts the actor off from a call in the state of that key.
    fn is_within(&self, memory: &Self::Memory, key: &Self::Key, actor: u8) -> bool
        ensures { (n : ℕ) (v : State) → (keys self.now).IsKey memory.now n v key.now
            → result ≡ (system self.now).is_within v actor };

    /// The key of the state after these turns and one more of that actor. NoMemory where room was refused.
    fn next(
        &self,
        alloc: Global,
        memory: &mut Self::Memory,
        key: &Self::Key,
        turns: &[u8],
        actor: u8,
    ) -> Result<Self::Key, NoMemory>
        requires sound { (keys self.now).IsSound memory.old }
        requires few { length turns.now < 2 ^ 40 }
        requires here { (keys self.now).IsKey memory.old (length turns.now) (state_after (system self.now) turns.now)
            key.now }
        requires there { actor < (system self.now).actors }
        ensures sound { OnOk result ((keys self.now).IsSound memory.new) }
        ensures grows { OnOk result ((keys self.now).Grows memory.old memory.new) }
        ensures follows { IfOk result (Follows (system self.now) (keys self.now) memory.old memory.new
            (length turns.now) key.now actor) };

    /// Whether the keys are the same.
    fn is_same(&self, key: &Self::Key, other: &Self::Key) -> bool
        ensures { IsTrue result ↔ (keys self.now).AreSame key.now other.now };

    /// Whether they count as one.
    fn counts_as_one(&self, key: &Self::Key, other: &Self::Key) -> bool
        ensures { IsTrue result ↔ (keys self.now).CountAsOne key.now other.now };

    /// The number by which the key is looked up.
    fn print(&self, key: &Self::Key) -> u64
        ensures { result ≡ (keys self.now).print_of key.now };

    /// Keys count as one exactly where their states do.
    fn counts_states(&self, memory: &Self::Memory)
        ensures { CountStates (system self.now) (keys self.now) memory.now };

    /// What the state after these turns comes to, if nobody has anything left to do in it. NoMemory where room was
    /// refused.
    fn outcome(&self, alloc: Global, turns: &[u8]) -> Result<Self::Outcome, NoMemory>
        requires few { length turns.now < 2 ^ 40 }
        ensures { IfOk result (λ outcome. IsOver (system self.now) (state_after (system self.now) turns.now)
            → (outcomes self.now).Tells (state_after (system self.now) turns.now) outcome) };

    /// Whether the outcomes are the same.
    fn is_same_outcome(&self, outcome: &Self::Outcome, other: &Self::Outcome) -> bool
        ensures { IsTrue result ↔ (outcomes self.now).AreSame outcome.now other.now };

    /// Gives up what is known.
    fn give_up(&self, alloc: Global, memory: Self::Memory);
}
