//! A world as a system of actors who take turns.
ghost use Rattle.std.specs.Prelude.{◌≡◌, ◌≤◌, length, [], IfOk, IfErr, OnOk};
ghost use Rattle.race_core.specs.declared.opening.TheConstants.{ACTORS_MAX};
ghost use Rattle.layered_search.specs.Asked.{WhyNot};
ghost use Rattle.layered_search.specs.Limits.{LimitsView};
ghost use Rattle.explore.specs.Effects.{IsSound};
ghost use Rattle.local_states.specs.Keys.{IsKey, AreFew};
ghost use Rattle.local_states.specs.Local.{AreNumbered};
ghost use Rattle.local_states.specs.Worlds.{worlds};

use crate::outcomes::end::End;
use crate::turns::known_turns::KnownTurns;
use crate::worlds::beginnings::Beginnings;
use crate::worlds::replayed::{ended, replay, turns_of};
use layered_search::{SearchFault, TransitionSystem};
use local_states::Key;
use path_text::NoMemory;
use race_core::{ACTORS_MAX, CopyTree, World};
use std::alloc::Global;
use std::marker::PhantomData;
use tree_model::Tree;

/// The worlds that begin so, as a system: whether changes outside of roots are told, and how many changes of that kind
/// were made is a part of an outcome then.
#[derive(Drop)]
pub(crate) struct Worlds<'a, T: Tree, B: Beginnings<T>> {
    pub(crate) beginnings: &'a B,
    pub(crate) told: bool,
    pub(crate) trees: PhantomData<T>,
}

// What is known of worlds after turns from that one: no turn yet, and its own key.
//
// Errors: TooManyActors over 64; NoMemory where room was refused.
fn known_of<T: CopyTree + Drop>(
    alloc: Global,
    told: bool,
    world: &World<T>,
) -> Result<(KnownTurns<T>, Key), SearchFault>
    requires numbered { AreNumbered world.now.seats }
    requires fresh { world.now.book.events ≡ [] }
    ensures sound { IfOk result (λ known. IsSound world.now known.0) }
    ensures told { IfOk result (λ known. known.0.components.told ≡ told) }
    ensures key { IfOk result (λ known. IsKey known.0.components world.now world.now known.1) }
    ensures few { IfOk result (λ known. AreFew 0 known.1) }
    ensures actors { OnOk result (length world.now.seats ≤ ACTORS_MAX) }
    ensures err { (limits : LimitsView) → IfErr result (WhyNot (worlds told world.now) limits) }
{
    if world.actors() > ACTORS_MAX {
        return Err(SearchFault::TooManyActors);
    }
    let mut known = KnownTurns::new(alloc, told, world)?;
    match known.first_key(alloc, world) {
        Ok(key) => Ok((known, key)),
        Err(_) => {
            known.give_up(alloc);
            Err(SearchFault::NoMemory)
        }
    }
}

impl<'a, T: CopyTree + Drop, B: Beginnings<T>> TransitionSystem for Worlds<'a, T, B> {
    ghost use Rattle.race_core.specs.Worlds.{WorldView};
    ghost use Rattle.local_states.specs.Worlds.{worlds, world_outcomes};
    ghost use Rattle.explore.specs.Worlds.{world_keys};
    ghost use Rattle.explore.specs.WorldLaws.{worlds_are_system, worlds_have_keys, worlds_have_outcomes};

    ghost State = { WorldView };

    ghost system = { λ s. worlds s.told (B.opening s.beginnings.now) };

    type Key = Key;

    type Memory = KnownTurns<T>;

    type Outcome = End<T>;

    ghost keys = { λ s. world_keys s.told (B.opening s.beginnings.now) };

    ghost outcomes = { λ s. world_outcomes s.told };

    ghost is_system = { λ s. worlds_are_system s.told (B.opening s.beginnings.now) };

    ghost are_keys = { λ s. worlds_have_keys s.told (B.opening s.beginnings.now) };

    ghost are_outcomes = { λ s. worlds_have_outcomes s.told (B.opening s.beginnings.now) };

    fn begin(&self, alloc: Global) -> Result<(KnownTurns<T>, Key), SearchFault> {
        let world = self.beginnings.world(alloc)?;
        let known = known_of(alloc, self.told, &world);
        world.give_up(alloc);
        known
    }

    fn actors(&self, key: &Key) -> usize {
        key.own.len()
    }

    fn is_busy(&self, memory: &KnownTurns<T>, key: &Key, actor: u8) -> bool {
        memory.components().is_busy(key, actor as usize)
    }

    fn is_within(&self, memory: &KnownTurns<T>, key: &Key, actor: u8) -> bool {
        memory.components().is_within_call(key, actor as usize)
    }

    fn next(
        &self,
        alloc: Global,
        memory: &mut KnownTurns<T>,
        key: &Key,
        turns: &[u8],
        actor: u8,
    ) -> Result<Key, NoMemory> {
        memory.key_after(alloc, self.beginnings, key, turns, u32::from(actor))
    }

    fn is_same(&self, key: &Key, other: &Key) -> bool {
        key.same(other)
    }

    fn counts_as_one(&self, key: &Key, other: &Key) -> bool {
        key.same_but_outside(other)
    }

    fn print(&self, key: &Key) -> u64 {
        key.print().0
    }

    fn counts_states(&self, memory: &KnownTurns<T>) {
        memory.are_interned();
    }

    fn outcome(&self, alloc: Global, turns: &[u8]) -> Result<End<T>, NoMemory> {
        let turns = turns_of(alloc, turns)?;
        match replay(alloc, self.beginnings, self.told, turns.as_slice()) {
            Ok(replayed) => ended(alloc, replayed),
            Err(_) => Err(NoMemory),
        }
    }

    fn is_same_outcome(&self, outcome: &End<T>, other: &End<T>) -> bool {
        outcome.is_same(other)
    }

    fn give_up(&self, alloc: Global, memory: KnownTurns<T>) {
        memory.give_up(alloc);
    }
}
