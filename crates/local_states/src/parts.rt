//! The parts that one actor has in worlds, each once: all that its turns depend on beside the nodes.
ghost use Rattle.std.specs.Prelude.{◌≡◌, ◌↔◌, ◌<◌, [], ℕ, List, length, IsTrue, IfOk, IfSome, IfNone, OnOk};
ghost use Rattle.race_core.specs.declared.report.Outcome.{Outcome};
ghost use Rattle.race_core.specs.Book.{tree_now};
ghost use Rattle.race_core.specs.Worlds.{WorldView, is_busy_at, is_within_at};
ghost use Rattle.local_states.specs.Distinct.{AreEachOnce, Keeps};
ghost use Rattle.local_states.specs.HandleTables.{HasHandleTable, IsPartOf, HasOutcomes};
ghost use Rattle.local_states.specs.Keys.{AreApartParts, HasMore, IsPartIn};
ghost use Rattle.local_states.specs.Local.{AreNumbered, SamePartAt};

use crate::handle_tables::HandleTable;
use crate::outcome_table::OutcomeTable;
use path_text::NoMemory;
use race_core::{Seat, World};
use std::alloc::Global;
use std::marker::Model;
use tree_model::{OpenHandle, Tree};

/// What is kept of an actor's part in a world: nothing of the tree, of the history and of the other actors. Contracts
/// see it as a `PartView`.
struct Part {
    // All that the actor has to do and holds but for the outcomes of its calls.
    seat: Seat,
    // The places of these among the outcomes that were met.
    outcomes: Vec<usize>,
    handle_table: HandleTable,
    // Whether the actor has something left to do, and a call under way.
    busy: bool,
    within: bool,
}

impl Model for Part {
    ghost use Rattle.local_states.specs.HandleTables.{PartView};

    ghost Value = { PartView };

    ghost view = { λ p. record {
      seat = p.seat;
      outcomes = p.outcomes.items;
      handle_table = p.handle_table;
      busy = p.busy;
      within = p.within;
    } };
}

/// The parts of the actor of that number, no two of them the same, each known by its place. They can't be let go: the
/// calls under way in them are given up. Contracts see them as a `PartsView`.
pub(crate) struct Parts {
    actor: u32,
    outcomes: OutcomeTable,
    parts: Vec<Part>,
}

impl Model for Parts {
    ghost use Rattle.local_states.specs.HandleTables.{ArePartsOf};
    ghost use Rattle.local_states.specs.Keys.{PartsView};

    ghost Value = { PartsView };

    ghost view = { λ p. record { actor = p.actor; outcomes = p.outcomes; parts = p.parts.items } };

    ghost invariant = { λ p. ArePartsOf p.actor p.outcomes p.parts.items };
}

// Whether the same places stand in both.
fn same_places(places: &[usize], others: &[usize]) -> bool
    ensures { IsTrue result ↔ (places.now ≡ others.now) }
{
    places == others
}

impl Part {
    // Whether the actor of that number, which holds that, and whose calls ended with the outcomes at those places, has
    // this part in the world.
    fn is_in<T: Tree>(
        &self,
        world: &World<T>,
        outcomes: &[usize],
        handle_table: &HandleTable,
        actor: u32,
    ) -> bool
        requires { HasHandleTable world.now actor handle_table.now }
        ensures { (table : List Outcome) (v : WorldView) → AreEachOnce table
            → HasOutcomes table world.now actor outcomes.now → IsPartOf table v actor self.now
            → (IsTrue result ↔ SamePartAt world.now v actor) }
    {
        if !same_places(outcomes, self.outcomes.as_slice()) {
            return false;
        }
        if !handle_table.is_like(&self.handle_table) {
            return false;
        }
        world.is_like_seat(actor as usize, &self.seat)
    }
}

impl Parts {
    /// No part yet.
    pub(crate) fn new(alloc: Global, actor: u32) -> Parts
        ensures { result ≡ record { actor = actor; outcomes = []; parts = [] } }
    {
        Parts {
            actor,
            outcomes: OutcomeTable::new(alloc),
            parts: Vec::new(alloc),
        }
    }

    /// Whether the actor has something left to do where it has the part at that place.
    pub(crate) fn is_busy(&self, at: usize) -> bool
        ensures { (v : WorldView) → IsPartIn self.now v at → result ≡ is_busy_at v.seats self.now.actor }
    {
        match self.parts.get(at) {
            Some(part) => part.busy,
            None => false,
        }
    }

    /// Whether a call of the actor is under way there.
    pub(crate) fn is_within_call(&self, at: usize) -> bool
        ensures { (v : WorldView) → IsPartIn self.now v at → result ≡ is_within_at v.seats self.now.actor }
    {
        match self.parts.get(at) {
            Some(part) => part.within,
            None => false,
        }
    }

    /// No two of them are the same.
    pub(crate) fn are_apart(&self)
        ensures { AreApartParts self.now }
    {
        self.outcomes.are_once();
    }

    // How many there are.
    fn len(&self) -> usize
        ensures { result ≡ length self.now.parts }
    {
        self.parts.len()
    }

    // The place of the part that the actor, which holds that, and whose calls ended with the outcomes at those places,
    // has in the world. Where there is none, no part is the same.
    fn place_of<T: Tree>(
        &self,
        world: &World<T>,
        outcomes: &[usize],
        handle_table: &HandleTable,
    ) -> Option<usize>
        requires handle_table { HasHandleTable world.now self.now.actor handle_table.now }
        requires outcomes { HasOutcomes self.now.outcomes world.now self.now.actor outcomes.now }
        ensures there { IfSome result (λ at. IsPartIn self.now world.now at) }
        ensures nowhere { IfNone result ((at : ℕ) → IsPartIn self.now world.now at → ⊥) }
    {
        self.outcomes.are_once();
        for at in 0..self.parts.len() {
            let part = &self.parts[at];
            if part.is_in(world, outcomes, handle_table, self.actor) {
                return Some(at);
            }
        }
        None
    }

    // Puts a new part after the others: the one that the actor, who holds that, and whose calls ended with the outcomes
    // at those places, has in the world. NoMemory where its room was refused.
    fn push<T: Tree>(
        &mut self,
        alloc: Global,
        world: &World<T>,
        outcomes: Vec<usize>,
        handle_table: HandleTable,
    ) -> Result<(), NoMemory>
        requires handle_table { HasHandleTable world.now self.old.actor handle_table }
        requires outcomes { HasOutcomes self.old.outcomes world.now self.old.actor outcomes.items }
        requires new { (at : ℕ) → IsPartIn self.old world.now at → ⊥ }
        ensures actor { self.new.actor ≡ self.old.actor }
        ensures outcomes { self.new.outcomes ≡ self.old.outcomes }
        ensures keeps { Keeps self.old.parts self.new.parts }
        ensures there { OnOk result (IsPartIn self.new world.now (length self.old.parts)) }
    {
        let actor = self.actor;
        let (busy, within) = (world.has_turns(actor), world.is_within_call(actor));
        self.parts.reserve(1)?;
        // The seat comes last, since it can't be let go.
        let seat = world.seat_without_outcomes(alloc, actor as usize)?;
        self.parts.push_reserved(Part {
            seat,
            outcomes,
            handle_table,
            busy,
            within,
        });
        Ok(())
    }

    /// The place of the part that the actor has in that world, in whose tree these handles were given; it is put after
    /// the others where none is the same. NoMemory where room was refused: there is no new part then.
    pub(crate) fn put<T: Tree>(
        &mut self,
        alloc: Global,
        world: &World<T>,
        opened: &[Option<OpenHandle>],
    ) -> Result<usize, NoMemory>
        requires opened { opened.now ≡ (tree_now world.now.book).handles }
        requires there { self.old.actor < length world.now.seats }
        requires numbered { AreNumbered world.now.seats }
        ensures more { HasMore self.old self.new }
        ensures there { IfOk result (λ at. IsPartIn self.new world.now at) }
    {
        let handle_table = HandleTable::of(alloc, world, opened, self.actor)?;
        let ended = world.outcomes(self.actor as usize);
        let outcomes = self.outcomes.put_all(alloc, ended)?;
        if let Some(at) = self.place_of(world, outcomes.as_slice(), &handle_table) {
            return Ok(at);
        }
        let at = self.len();
        self.push(alloc, world, outcomes, handle_table)?;
        Ok(at)
    }

    /// Gives up the seats that are kept, in a world that has no part in them.
    pub(crate) fn give_up<T: Tree>(self, alloc: Global, scrap: &mut World<T>) {
        let Parts {
            actor: _,
            outcomes: _,
            mut parts,
        } = self;
        while let Some(part) = parts.pop() {
            let Part {
                seat,
                outcomes: _,
                handle_table: _,
                busy: _,
                within: _,
            } = part;
            scrap.give_up_seat(alloc, seat);
        }
        parts.destroy_empty();
    }
}
