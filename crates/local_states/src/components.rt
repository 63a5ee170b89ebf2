//! The components of worlds, each once: lists of nodes, and the parts of each actor.
ghost use Rattle.std.specs.Prelude.{◌≡◌, ◌<◌, ◌≤◌, [], ℕ, length, Some, slice_get, IfOk};
ghost use Rattle.tree_model.specs.declared.inode.Inode.{Inode};
ghost use Rattle.race_core.specs.Book.{tree_now};
ghost use Rattle.race_core.specs.declared.opening.TheConstants.{ACTORS_MAX};
ghost use Rattle.race_core.specs.Worlds.{WorldView, is_busy_at, is_within_at};
ghost use Rattle.local_states.specs.Keys.{PartsView, AreApartParts, AreRows, AreInterned, Grows, IsKey, IsPartAt};
ghost use Rattle.local_states.specs.Local.{AreNumbered};

use crate::keys::Key;
use crate::nodes::NodeLists;
use crate::parts::Parts;
use path_text::NoMemory;
use race_core::World;
use std::alloc::Global;
use std::marker::Model;
use tree_model::{Inode, OpenHandle, Tree};

/// The lists of nodes and the actors' parts that were met. They can't be let go, as `Parts`. Contracts see them as a
/// `ComponentsView`.
pub struct Components {
    told: bool,
    lists: NodeLists,
    parts: Vec<Parts>,
}

impl Model for Components {
    ghost use Rattle.local_states.specs.Keys.{ComponentsView, AreInterned};

    ghost Value = { ComponentsView };

    ghost view = { λ c. record { told = c.told; lists = c.lists; parts = c.parts.items } };

    ghost invariant = { λ c. AreInterned c.lists c.parts.items };
}

// No part yet of so many actors. NoMemory where room was refused.
fn no_parts(alloc: Global, actors: usize) -> Result<Vec<Parts>, NoMemory>
    requires { actors ≤ ACTORS_MAX }
    ensures rows { IfOk result (λ parts. AreRows parts.items actors) }
    ensures apart { IfOk result (λ parts. (i : ℕ) (row : PartsView) → slice_get parts.items i ≡ Some row
        → AreApartParts row) }
{
    let mut parts = Vec::new(alloc);
    if parts.reserve(actors).is_err() {
        parts.destroy_empty();
        return Err(NoMemory);
    }
    for actor in 0..actors {
        parts.push_reserved(Parts::new(alloc, actor as u32));
    }
    Ok(parts)
}

impl Components {
    /// None yet, of worlds of so many actors; changes outside of roots are told or not. NoMemory where room was
    /// refused.
    pub fn new(alloc: Global, told: bool, actors: usize) -> Result<Components, NoMemory>
        requires { actors ≤ ACTORS_MAX }
        ensures rows { IfOk result (λ components. AreRows components.parts actors) }
        ensures told { IfOk result (λ components. components.told ≡ told) }
        ensures lists { IfOk result (λ components. components.lists ≡ []) }
    {
        Ok(Components {
            told,
            lists: NodeLists::new(alloc),
            parts: no_parts(alloc, actors)?,
        })
    }

    /// No two lists of nodes are equal, and no two parts of an actor the same.
    pub fn are_interned(&self)
        ensures { AreInterned self.now.lists self.now.parts }
    {
        let _ = &self.lists;
    }

    /// Whether changes outside of roots are told.
    pub fn told(&self) -> bool
        ensures { result ≡ self.now.told }
    {
        self.told
    }

    /// Whether the actor has something left to do in the world of that key.
    pub fn is_busy(&self, key: &Key, actor: usize) -> bool
        ensures { (w v : WorldView) → IsKey self.now w v key.now → result ≡ is_busy_at v.seats actor }
    {
        let Some(own) = key.own.get(actor) else {
            return false;
        };
        let Some(parts) = self.parts.get(actor) else {
            return false;
        };
        parts.is_busy(own.part)
    }

    /// Whether a call of the actor is under way there.
    pub fn is_within_call(&self, key: &Key, actor: usize) -> bool
        ensures { (w v : WorldView) → IsKey self.now w v key.now → result ≡ is_within_at v.seats actor }
    {
        let Some(own) = key.own.get(actor) else {
            return false;
        };
        let Some(parts) = self.parts.get(actor) else {
            return false;
        };
        parts.is_within_call(own.part)
    }

    /// The place of these nodes, mostly that one; they are put after the others where they weren't met. NoMemory where
    /// room was refused.
    pub fn put_nodes(
        &mut self,
        alloc: Global,
        nodes: &[Inode],
        mostly: usize,
    ) -> Result<usize, NoMemory>
        ensures grows { Grows self.old self.new }
        ensures rows { (n : ℕ) → AreRows self.old.parts n → AreRows self.new.parts n }
        ensures there { IfOk result (λ at. slice_get self.new.lists at ≡ Some nodes.now) }
    {
        let place = self.lists.put(alloc, nodes, mostly);
        self.lists.are_once();
        place
    }

    /// The place of the part that the actor has in that world, in whose tree these handles were given; it is put after
    /// the others where it wasn't met. NoMemory where room was refused.
    pub fn put_part<T: Tree>(
        &mut self,
        alloc: Global,
        world: &World<T>,
        opened: &[Option<OpenHandle>],
        actor: usize,
    ) -> Result<usize, NoMemory>
        requires opened { opened.now ≡ (tree_now world.now.book).handles }
        requires rows { AreRows self.old.parts (length world.now.seats) }
        requires there { actor < length world.now.seats }
        requires numbered { AreNumbered world.now.seats }
        ensures grows { Grows self.old self.new }
        ensures rows { (n : ℕ) → AreRows self.old.parts n → AreRows self.new.parts n }
        ensures part { IfOk result (λ at. IsPartAt self.new world.now actor at) }
    {
        let parts = &mut self.parts[actor];
        let place = parts.put(alloc, world, opened);
        parts.are_apart();
        place
    }

    /// Gives up the seats that are kept of parts, in a world that has no part in them.
    pub fn give_up<T: Tree>(self, alloc: Global, scrap: &mut World<T>) {
        let Components {
            told: _,
            lists: _,
            mut parts,
        } = self;
        while let Some(those) = parts.pop() {
            those.give_up(alloc, scrap);
        }
        parts.destroy_empty();
    }
}
