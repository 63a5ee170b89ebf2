//! What turns come to: looked up where it is known, and else found by a run from the beginning.
ghost use Rattle.std.specs.Prelude.{◌≡◌, ◌<◌, ◌^◌, ◌+◌, ◌-◌, [], ◌≤◌, ℕ, true, length, map, min, Some, slice_get, IfOk, IfSome, OnOk, OnSome};
ghost use Rattle.race_core.specs.Book.{tree_now};
ghost use Rattle.race_core.specs.declared.opening.TheConstants.{ACTORS_MAX};
ghost use Rattle.race_core.specs.Turns.{Luck};
ghost use Rattle.race_core.specs.Worlds.{WorldView, turn};
ghost use Rattle.local_states.specs.declared.keys.Own.{Own};
ghost use Rattle.explore.specs.declared.turns.memo.MemoKey.{MemoKey};
ghost use Rattle.local_states.specs.Worlds.{full, after_turns};
ghost use Rattle.local_states.specs.Counting.{IsTally};
ghost use Rattle.explore.specs.Effects.{AreCompared, IsEffectFrom, IsStart, IsMemoKeyOf, IsRemembered, IsSound};
ghost use Rattle.local_states.specs.Keys.{AreFew, AreInterned, AreRows, Grows, IsKey, IsPartAt};
ghost use Rattle.local_states.specs.Local.{AreNumbered};
ghost use Rattle.local_states.specs.OutOfMemory.{EndsWell};

use crate::turns::memo::{Memo, MemoKey};
use crate::turns::world_counts::{Counts, Start, are_given, open_count, wide};
use crate::worlds::beginnings::Beginnings;
use crate::worlds::replayed::{Replayed, replay, take_turn, told, turns_of};
use local_states::{Components, Effect, Key, Own, Tally};
use path_text::NoMemory;
use race_core::{CopyTree, World};
use smallvec::SmallVec;
use std::alloc::Global;
use std::marker::Model;
use tree_model::{NUMBERS_MAX, Snapshot, Tree};

// How many turns a run goes on by, so that those that aren't known are remembered too.
const LEARNT_MAX: u32 = 256;

/// The components that were met and the turns that are known, of worlds after turns from one opening world. Contracts
/// see them as a `KnownView`.
pub(crate) struct KnownTurns<T: Tree> {
    components: Components,
    memo: Memo,
    start: Start,
    // Whether all numbers of handles that actors know were given. Only then is a turn its actor's own affair: else
    // another's turn may give such a number.
    are_given: bool,
    // A world in which the seats that are kept of parts are given up at last.
    scrap: World<T>,
}

impl<T: Tree> Model for KnownTurns<T> {
    ghost use Rattle.explore.specs.Effects.{KnownView};

    ghost Value = { KnownView };

    ghost view = { λ k. record {
      components = k.components;
      entries = k.memo;
      start = k.start;
      are_given = k.are_given;
    } };
}

impl<T: Tree + Drop> KnownTurns<T> {
    /// No turn is known yet of the worlds after turns from that one; changes outside of roots are told or not. NoMemory
    /// where room was refused.
    pub(crate) fn new(
        alloc: Global,
        told: bool,
        world: &World<T>,
    ) -> Result<KnownTurns<T>, NoMemory>
    where
        T: CopyTree,
        requires few { length world.now.seats ≤ ACTORS_MAX }
        requires numbered { AreNumbered world.now.seats }
        requires fresh { world.now.book.events ≡ [] }
        ensures sound { IfOk result (λ known. IsSound world.now known) }
        ensures told { IfOk result (λ known. known.components.told ≡ told) }
    {
        let tree = world.book().tree().snapshot(alloc)?;
        let numbers = tree.handles().len();
        let are_given = are_given(alloc, world, numbers)?;
        let scrap = world.copy(alloc)?;
        let Ok(components) = Components::new(alloc, told, world.actors()) else {
            scrap.give_up(alloc);
            return Err(NoMemory);
        };
        Ok(KnownTurns {
            components,
            memo: Memo::new(alloc),
            start: Start {
                lines: world.book().lines(),
                numbers,
                open_handles: open_count(tree.handles()),
            },
            are_given,
            scrap,
        })
    }

    /// The components.
    pub(crate) fn components(&self) -> &Components
        ensures { result.now ≡ self.now.components }
    {
        &self.components
    }

    /// No two lists of nodes are equal, and no two parts of an actor the same.
    pub(crate) fn are_interned(&self)
        ensures { AreInterned self.now.components.lists self.now.components.parts }
    {
        self.components.are_interned();
    }

    /// Gives up the seats that are kept of parts.
    pub(crate) fn give_up(self, alloc: Global) {
        let KnownTurns {
            components,
            memo: _,
            start: _,
            are_given: _,
            mut scrap,
        } = self;
        components.give_up(alloc, &mut scrap);
        scrap.give_up(alloc);
    }

    // How many lines are free in the world of that key, or 2 where more are.
    fn room(&self, key: &Key) -> usize
        ensures { result ≡ min (self.now.start.lines
            - (((self.now.start.open_handles + key.now.opened) - key.now.closed) + key.now.events)) 2 }
    {
        let open = wide(self.start.open_handles as u64) + wide(key.opened);
        let taken = open.saturating_sub(wide(key.closed)) + wide(key.events);
        u128::from(self.start.lines).saturating_sub(taken).min(2) as usize
    }

    // All that the actor's turn from the world of that key depends on.
    fn memo_key(&self, key: &Key, actor: usize) -> MemoKey
        requires { actor < length key.now.own.items }
        ensures actor { result.actor ≡ actor }
        ensures is { (w v : WorldView) → IsStart self.now.start w → IsKey self.now.components w v key.now
            → IsMemoKeyOf self.now.components w v result }
    {
        let given = wide(self.start.numbers as u64) + wide(key.opened);
        MemoKey {
            nodes: key.nodes,
            actor,
            part: key.own[actor].part,
            room: self.room(key),
            is_full: given >= NUMBERS_MAX as u128,
        }
    }

    // What the actor's turn comes to, if it is known.
    fn known_effect(&self, key: &Key, actor: usize) -> Option<Effect>
        requires { actor < length key.now.own.items }
        ensures given { OnSome result (self.now.are_given ≡ true) }
        ensures known { IfSome result (λ effect. (w v : WorldView) → IsSound w self.now
            → IsKey self.now.components w v key.now
            → (memo_key : MemoKey) × ((memo_key.actor ≡ actor) × (IsMemoKeyOf self.now.components w v memo_key
            × IsRemembered self.now.components w (record { memo_key = memo_key; effect = effect })))) }
    {
        if !self.are_given {
            return None;
        }
        self.memo.effect(&self.memo_key(key, actor))
    }

    // Remembers what the actor's turn from the world of that key comes to. NoMemory where its room was refused.
    fn remember(&mut self, key: &Key, actor: usize, effect: Effect) -> Result<(), NoMemory>
        requires { actor < length key.now.own.items }
        ensures components { self.new.components ≡ self.old.components }
        ensures given { self.new.are_given ≡ self.old.are_given }
        ensures sound { (w v : WorldView) → IsSound w self.old → IsKey self.old.components w v key.now
            → IsEffectFrom self.old.components v actor effect → IsSound w self.new }
    {
        let memo_key = self.memo_key(key, actor);
        self.memo.put(memo_key, effect)
    }
}

impl<T: CopyTree + Drop> KnownTurns<T> {
    // What the actor's turn came to, to this world, by the numbers before and after it. NoMemory where room was
    // refused.
    fn effect_to(
        &mut self,
        alloc: Global,
        mostly: usize,
        before: Counts,
        after: Counts,
        world: &World<T>,
        tree: &Snapshot,
        actor: usize,
    ) -> Result<Effect, NoMemory>
        requires rows { AreRows self.old.components.parts (length world.now.seats) }
        requires numbered { AreNumbered world.now.seats }
        requires there { actor < length world.now.seats }
        requires tree { tree.now ≡ tree_now world.now.book }
        ensures grows { OnOk result (Grows self.old.components self.new.components) }
        ensures rest { self.new ≡ record self.old { components = self.new.components } }
        ensures nodes { IfOk result (λ effect.
            slice_get self.new.components.lists effect.nodes ≡ Some (tree_now world.now.book).nodes) }
        ensures part { IfOk result (λ effect. IsPartAt self.new.components world.now actor effect.part) }
        ensures compared { IfOk result (λ effect. AreCompared before after effect) }
    {
        Ok(Effect {
            nodes: self.components.put_nodes(alloc, tree.nodes(), mostly)?,
            part: self
                .components
                .put_part(alloc, world, tree.handles(), actor)?,
            event: after.events > before.events,
            opens: after.numbers > before.numbers,
            closes: after.open_handles < before.open_handles,
            outside: after.outside > before.outside,
        })
    }

    // Each actor's part in that world. NoMemory where room was refused.
    fn put_parts(
        &mut self,
        alloc: Global,
        world: &World<T>,
        tree: &Snapshot,
        own: &mut [Own],
    ) -> Result<(), NoMemory>
        requires rows { AreRows self.old.components.parts (length world.now.seats) }
        requires numbered { AreNumbered world.now.seats }
        requires many { length own.old ≡ length world.now.seats }
        requires tree { tree.now ≡ tree_now world.now.book }
        ensures grows { OnOk result (Grows self.old.components self.new.components) }
        ensures rest { self.new ≡ record self.old { components = self.new.components } }
        ensures outside { map (λ o. o.outside) own.new ≡ map (λ o. o.outside) own.old }
        ensures parts { OnOk result ((i : ℕ) (one : Own) → slice_get own.new i ≡ Some one
            → IsPartAt self.new.components world.now i one.part) }
    {
        for actor in 0..own.len() {
            own[actor].part = self
                .components
                .put_part(alloc, world, tree.handles(), actor)?;
        }
        Ok(())
    }

    /// Has the actor take its turn in the world of that key: the key after it, if memory wasn't wanting. It is
    /// remembered, where it is the actor's own affair. NoMemory where room was refused.
    pub(crate) fn key_by(
        &mut self,
        alloc: Global,
        key: &Key,
        world: &mut World<T>,
        tally: &mut Tally,
        actor: u32,
    ) -> Result<Key, NoMemory>
        requires rows { AreRows self.old.components.parts (length world.old.seats) }
        requires numbered { AreNumbered world.old.seats }
        requires there { actor < length world.old.seats }
        requires many { length key.now.own.items ≡ length world.old.seats }
        requires few { (n : ℕ) × ((n < 2 ^ 41) × AreFew n key.now) }
        requires tally { IsTally world.old tally.old }
        requires told { tally.old.told ≡ self.old.components.told }
        ensures turned { OnOk result ((luck : Luck) × (world.new ≡ turn luck world.old actor)) }
        ensures tally { OnOk result (IsTally world.new tally.new) }
        ensures same_told { OnOk result (tally.new.told ≡ tally.old.told) }
        ensures grows { OnOk result (Grows self.old.components self.new.components) }
        ensures sound { OnOk result ((w : WorldView) → IsSound w self.old
            → IsKey self.old.components w world.old key.now → EndsWell world.new → IsSound w self.new) }
        ensures key { IfOk result (λ next. (w : WorldView) → IsSound w self.old
            → IsKey self.old.components w world.old key.now → EndsWell world.new
            → IsKey self.new.components w (turn full world.old actor) next) }
        ensures few { IfOk result (λ next. (n : ℕ) → AreFew n key.now → AreFew (n + 1) next) }
        ensures many { IfOk result (λ next. length next.own.items ≡ length key.now.own.items) }
    {
        let number = actor as usize;
        let tree = world.book().tree().snapshot(alloc)?;
        let before = Counts::of(world, &tree, tally, number);
        take_turn(alloc, world, tally, actor)?;
        let tree = world.book().tree().snapshot(alloc)?;
        let after = Counts::of(world, &tree, tally, number);
        let effect = self.effect_to(alloc, key.nodes, before, after, world, &tree, number)?;
        let mut next = key.after(alloc, number, &effect)?;
        if self.are_given {
            self.remember(key, number, effect)?;
        } else {
            self.put_parts(alloc, world, &tree, next.own.as_mut_slice())?;
        }
        Ok(next)
    }

    // Who goes on from the world of that key: the first actor whose turn isn't known, or else the first that has one.
    fn next_actor(&self, key: &Key, world: &World<T>) -> Option<u32>
        requires { length key.now.own.items ≡ length world.now.seats }
        ensures { IfSome result (λ actor. actor < length world.now.seats) }
    {
        let mut next = None;
        for at in 0..world.actors() {
            let Ok(actor) = u32::try_from(at) else {
                break;
            };
            if !world.has_turns(actor) {
                continue;
            }
            if self.known_effect(key, at).is_none() {
                return Some(actor);
            }
            if next.is_none() {
                next = Some(actor);
            }
        }
        next
    }

    // The same as `key_by`, but that a turn which is known isn't found once more.
    fn go_on_by(
        &mut self,
        alloc: Global,
        key: &Key,
        world: &mut World<T>,
        tally: &mut Tally,
        actor: u32,
    ) -> Result<Key, NoMemory>
        requires rows { AreRows self.old.components.parts (length world.old.seats) }
        requires numbered { AreNumbered world.old.seats }
        requires there { actor < length world.old.seats }
        requires many { length key.now.own.items ≡ length world.old.seats }
        requires few { (n : ℕ) × ((n < 2 ^ 41) × AreFew n key.now) }
        requires tally { IsTally world.old tally.old }
        requires told { tally.old.told ≡ self.old.components.told }
        ensures turned { OnOk result ((luck : Luck) × (world.new ≡ turn luck world.old actor)) }
        ensures tally { OnOk result (IsTally world.new tally.new) }
        ensures same_told { OnOk result (tally.new.told ≡ tally.old.told) }
        ensures grows { OnOk result (Grows self.old.components self.new.components) }
        ensures sound { OnOk result ((w : WorldView) → IsSound w self.old
            → IsKey self.old.components w world.old key.now → EndsWell world.new → IsSound w self.new) }
        ensures key { IfOk result (λ next. (w : WorldView) → IsSound w self.old
            → IsKey self.old.components w world.old key.now → EndsWell world.new
            → IsKey self.new.components w (turn full world.old actor) next) }
        ensures few { IfOk result (λ next. (n : ℕ) → AreFew n key.now → AreFew (n + 1) next) }
        ensures many { IfOk result (λ next. length next.own.items ≡ length key.now.own.items) }
    {
        if let Some(effect) = self.known_effect(key, actor as usize) {
            take_turn(alloc, world, tally, actor)?;
            return key.after(alloc, actor as usize, &effect);
        }
        self.key_by(alloc, key, world, tally, actor)
    }

    // Has the world of that key go on by at most so many turns, and remembers those that weren't known; by none where a
    // turn isn't its actor's own affair. NoMemory where room was refused.
    fn learn(
        &mut self,
        alloc: Global,
        key: &Key,
        world: &mut World<T>,
        tally: &mut Tally,
    ) -> Result<(), NoMemory>
        requires rows { AreRows self.old.components.parts (length world.old.seats) }
        requires numbered { AreNumbered world.old.seats }
        requires many { length key.now.own.items ≡ length world.old.seats }
        requires few { (n : ℕ) × ((n ≤ 2 ^ 40) × AreFew n key.now) }
        requires tally { IsTally world.old tally.old }
        requires told { tally.old.told ≡ self.old.components.told }
        ensures well { OnOk result (EndsWell world.new → EndsWell world.old) }
        ensures grows { OnOk result (Grows self.old.components self.new.components) }
        ensures sound { OnOk result ((w : WorldView) → IsSound w self.old
            → IsKey self.old.components w world.old key.now → EndsWell world.new → IsSound w self.new) }
    {
        let most = if self.are_given { LEARNT_MAX } else { 0 };
        let mut key = key.copy(alloc)?;
        for _turn in 0..most {
            let Some(actor) = self.next_actor(&key, world) else {
                break;
            };
            key = self.go_on_by(alloc, &key, world, tally, actor)?;
        }
        Ok(())
    }

    // The key after the actor's turn from the world of that key, found by a run of its list and on to the end. NoMemory
    // where memory ran short.
    fn find<B: Beginnings<T>>(
        &mut self,
        alloc: Global,
        beginnings: &B,
        from: &Key,
        turns: &[u8],
        actor: u32,
    ) -> Result<Key, NoMemory>
        requires sound { IsSound (B.opening beginnings.now) self.old }
        requires here { IsKey self.old.components (B.opening beginnings.now)
            (after_turns (B.opening beginnings.now) turns.now) from.now }
        requires there { actor < length (B.opening beginnings.now).seats }
        requires few { (n : ℕ) × ((n < 2 ^ 40) × AreFew n from.now) }
        requires short { length turns.now < 2 ^ 40 }
        ensures grows { OnOk result (Grows self.old.components self.new.components) }
        ensures sound { OnOk result (IsSound (B.opening beginnings.now) self.new) }
        ensures key { IfOk result (λ next. IsKey self.new.components (B.opening beginnings.now)
            (turn full (after_turns (B.opening beginnings.now) turns.now) actor) next) }
        ensures few { IfOk result (λ next. (n : ℕ) → AreFew n from.now → AreFew (n + 1) next) }
    {
        let turns = turns_of(alloc, turns)?;
        let Ok(replayed) = replay(alloc, beginnings, self.components.told(), turns.as_slice())
        else {
            return Err(NoMemory);
        };
        let Replayed {
            mut world,
            mut tally,
        } = replayed;
        let key = self.key_by(alloc, from, &mut world, &mut tally, actor);
        let Ok(key) = key else {
            world.give_up(alloc);
            return Err(NoMemory);
        };
        if self.learn(alloc, &key, &mut world, &mut tally).is_err() {
            world.give_up(alloc);
            return Err(NoMemory);
        }
        // Whoever lacked memory tells of it in the end.
        let _report = told(alloc, world)?;
        Ok(key)
    }

    /// The key after the actor's turn from the world of that key, to which these turns lead. NoMemory where memory ran
    /// short, in a run too.
    pub(crate) fn key_after<B: Beginnings<T>>(
        &mut self,
        alloc: Global,
        beginnings: &B,
        key: &Key,
        turns: &[u8],
        actor: u32,
    ) -> Result<Key, NoMemory>
        requires sound { IsSound (B.opening beginnings.now) self.old }
        requires here { IsKey self.old.components (B.opening beginnings.now)
            (after_turns (B.opening beginnings.now) turns.now) key.now }
        requires there { actor < length (B.opening beginnings.now).seats }
        requires few { (n : ℕ) × ((n < 2 ^ 40) × AreFew n key.now) }
        requires short { length turns.now < 2 ^ 40 }
        ensures grows { OnOk result (Grows self.old.components self.new.components) }
        ensures sound { OnOk result (IsSound (B.opening beginnings.now) self.new) }
        ensures key { IfOk result (λ next. (v : WorldView)
            → IsKey self.old.components (B.opening beginnings.now) v key.now
            → IsKey self.new.components (B.opening beginnings.now) (turn full v actor) next) }
        ensures few { IfOk result (λ next. (n : ℕ) → AreFew n key.now → AreFew (n + 1) next) }
    {
        if let Some(effect) = self.known_effect(key, actor as usize) {
            return key.after(alloc, actor as usize, &effect);
        }
        self.find(alloc, beginnings, key, turns, actor)
    }

    /// The key of the opening world. NoMemory where room was refused.
    pub(crate) fn first_key(&mut self, alloc: Global, world: &World<T>) -> Result<Key, NoMemory>
        requires sound { IsSound world.now self.old }
        ensures grows { OnOk result (Grows self.old.components self.new.components) }
        ensures sound { OnOk result (IsSound world.now self.new) }
        ensures key { IfOk result (λ key. IsKey self.new.components world.now world.now key) }
        ensures few { IfOk result (λ key. AreFew 0 key) }
    {
        let tree = world.book().tree().snapshot(alloc)?;
        let mut own = SmallVec::with_capacity(alloc, world.actors())?;
        for _actor in 0..world.actors() {
            own.push(Own {
                part: 0,
                outside: 0,
            })?;
        }
        self.put_parts(alloc, world, &tree, own.as_mut_slice())?;
        Ok(Key {
            nodes: self.components.put_nodes(alloc, tree.nodes(), 0)?,
            events: 0,
            opened: 0,
            closed: 0,
            own,
        })
    }
}
