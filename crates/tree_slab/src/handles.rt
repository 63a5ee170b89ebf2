//! The handles by their numbers, and how many each actor has open.
ghost use Rattle.std.specs.Prelude.{◌≡◌, ◌<◌, [], ℕ, IfOk, OnOk};
ghost use Rattle.tree_slab.specs.Counts.{IsCounted, CountsPlace, count_in};

use crate::held::HeldCounts;
use path_text::NoMemory;
use std::alloc::Global;
use std::marker::Model;
use tree_model::{Actor, HandleNo, Node, OpenHandle};
use tree_steps::HandleTable;

/// The handles of a tree, a closed one as None. Contracts see them as a list.
#[derive(Debug, Drop)]
pub(crate) struct Handles {
    places: Vec<Option<OpenHandle>>,
    counts: HeldCounts,
}

impl Model for Handles {
    ghost use Rattle.std.specs.Prelude.{List, Option};
    ghost use Rattle.tree_model.specs.declared.inode.OpenHandle.{OpenHandle};

    ghost Value = { List (Option OpenHandle) };

    ghost use Rattle.tree_slab.specs.Counts.{IsCounted, count_in};

    ghost view = { λ h. h.places.items };

    ghost invariant = { λ h. IsCounted h.places.items (count_in h.counts.low h.counts.high) };
}

// Counts a handle for its actor, if it is open. NoMemory where room was refused.
fn count_place(counts: &mut HeldCounts, place: &Option<OpenHandle>) -> Result<(), NoMemory>
    requires { (actor : ℕ) → count_in counts.old.low counts.old.high actor < usize.MAX }
    ensures { OnOk result (CountsPlace (count_in counts.old.low counts.old.high)
        (count_in counts.new.low counts.new.high) place.now) }
{
    let Some(open) = place else {
        return Ok(());
    };
    let count = counts.of(open.actor);
    counts.set(open.actor, count + 1)
}

// The counts of the actors' open handles. NoMemory where room was refused.
fn counts_of(alloc: Global, places: &[Option<OpenHandle>]) -> Result<HeldCounts, NoMemory>
    ensures { IfOk result (λ counts. IsCounted places.now (count_in counts.low counts.high)) }
{
    let mut counts = HeldCounts::new(alloc);
    for place in places {
        count_place(&mut counts, place)?;
    }
    Ok(counts)
}

impl Handles {
    /// These handles. NoMemory where room was refused.
    pub(crate) fn from_vec(
        alloc: Global,
        places: Vec<Option<OpenHandle>>,
    ) -> Result<Handles, NoMemory>
        ensures { IfOk result (λ handles. handles ≡ places.items) }
    {
        let counts = counts_of(alloc, &places)?;
        Ok(Handles { places, counts })
    }

    /// No handle.
    pub(crate) fn new(alloc: Global) -> Handles
        ensures { result ≡ [] }
    {
        Handles {
            places: Vec::new(alloc),
            counts: HeldCounts::new(alloc),
        }
    }
}

impl HandleTable for Handles {
    ghost places = { λ handles. handles };

    fn as_slice(&self) -> &[Option<OpenHandle>] {
        self.places.as_slice()
    }

    fn held(&self, actor: Actor) -> usize {
        self.counts.of(actor)
    }

    fn open(&mut self, actor: Actor, node: Node) -> Result<HandleNo, NoMemory> {
        let held = self.held(actor);
        self.places.reserve(1)?;
        self.counts.set(actor, held + 1)?;
        let handle = HandleNo::new(self.places.len() as u64);
        self.places.push_reserved(Some(OpenHandle { actor, node }));
        Ok(handle)
    }

    fn close(&mut self, actor: Actor, handle: HandleNo) {
        self.counts.lower(actor);
        self.places[handle.number() as usize] = None;
    }
}
