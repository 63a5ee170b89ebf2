//! How many handles each actor has open.
ghost use Rattle.std.specs.Prelude.{◌≡◌, ◌<◌, ◌-◌, ℕ, OnOk, OnErr};
ghost use Rattle.tree_slab.specs.Counts.{count_in, SetsCount};

use path_text::NoMemory;
use std::alloc::Global;
use std::collections::HashMap;
use tree_model::Actor;

// Actors with lower numbers than this are counted without a search.
const LOW: usize = 64;

/// How many handles each actor has open. Actors are mostly numbered from 0 on, so the low numbers have a count each,
/// whether they have a handle or not.
#[derive(Debug, Drop)]
pub(crate) struct HeldCounts {
    // by an actor's number
    low: [usize; LOW],
    // by the number of an actor that isn't low; one without a count has no handle open
    high: HashMap<u32, usize>,
}

impl HeldCounts {
    /// No handle is open.
    pub(crate) fn new(alloc: Global) -> HeldCounts
        ensures { (actor : ℕ) → count_in result.low result.high actor ≡ 0 }
    {
        HeldCounts {
            low: [0; LOW],
            high: HashMap::new(alloc),
        }
    }

    /// An actor's count.
    pub(crate) fn of(&self, actor: Actor) -> usize
        ensures { result ≡ count_in self.now.low self.now.high actor }
    {
        let at = actor.number() as usize;
        if at < self.low.len() {
            return self.low[at];
        }
        self.high.get(&actor.number()).copied().unwrap_or(0)
    }

    /// Another count for an actor. NoMemory where room was refused.
    pub(crate) fn set(&mut self, actor: Actor, count: usize) -> Result<(), NoMemory>
        ensures ok { OnOk result (SetsCount (count_in self.old.low self.old.high)
            (count_in self.new.low self.new.high) actor count) }
        ensures err { OnErr result ((other : ℕ)
            → count_in self.new.low self.new.high other ≡ count_in self.old.low self.old.high other) }
    {
        let at = actor.number() as usize;
        if at < self.low.len() {
            self.low[at] = count;
        } else {
            self.high.insert(actor.number(), count)?;
        }
        Ok(())
    }

    /// One less for an actor that has a handle open. Takes no memory.
    pub(crate) fn lower(&mut self, actor: Actor)
        requires { 0 < count_in self.old.low self.old.high actor }
        ensures { SetsCount (count_in self.old.low self.old.high) (count_in self.new.low self.new.high) actor
            (count_in self.old.low self.old.high actor - 1) }
    {
        let at = actor.number() as usize;
        if at < self.low.len() {
            self.low[at] -= 1;
        } else if let Some(count) = self.high.get_mut(&actor.number()) {
            *count -= 1;
        }
    }
}
