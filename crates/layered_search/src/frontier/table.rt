//! Places by fingerprints. Whoever looks a thing up compares it with those that have its fingerprint.
ghost use Rattle.std.specs.Prelude.{◌≡◌, ◌<◌, ◌++◌, ◌∷◌, [], ℕ, length, Some, slice_get, IfSome, OnOk, OnErr};
ghost use Rattle.layered_search.specs.Chained.{IsLastBelow};

use path_text::NoMemory;
use std::alloc::Global;
use std::collections::HashMap;
use std::marker::Model;

/// The places of things, counted from 0, by their fingerprints: a chain for each, from the last place on. Contracts
/// see it as the list of the fingerprints.
#[derive(Drop)]
pub(crate) struct Table {
    prints: Vec<u64>,
    // Of each place the last one before it that has the same fingerprint.
    befores: Vec<Option<usize>>,
    // The last place of each fingerprint.
    lasts: HashMap<u64, usize>,
}

impl Model for Table {
    ghost use Rattle.std.specs.Prelude.{List, ℕ, nat_eq};
    ghost use Rattle.std.specs.HashMap.{get};
    ghost use Rattle.layered_search.specs.Chained.{AreChained};

    ghost Value = { List ℕ };

    ghost view = { λ t. t.prints.items };

    ghost invariant = { λ t. AreChained t.prints.items t.befores.items (get nat_eq t.lasts) };
}

impl Table {
    /// A table of nothing.
    pub(crate) fn new(alloc: Global) -> Table
        ensures { result ≡ [] }
    {
        Table {
            prints: Vec::new(alloc),
            befores: Vec::new(alloc),
            lasts: HashMap::new(alloc),
        }
    }

    /// The last place of that fingerprint.
    pub(crate) fn last(&self, print: u64) -> Option<usize>
        ensures { IsLastBelow self.now (length self.now) print result }
    {
        self.lasts.get(&print).copied()
    }

    /// The place before that one in its chain.
    pub(crate) fn before(&self, at: usize) -> Option<usize>
        ensures chain { (print : ℕ) → slice_get self.now at ≡ Some print → IsLastBelow self.now at print result }
        ensures below { IfSome result (λ before. before < at) }
    {
        match self.befores.get(at) {
            Some(before) => *before,
            None => None,
        }
    }

    /// Puts the next thing, of that fingerprint, at the next place. NoMemory where its room was refused: the table is
    /// as it was then.
    pub(crate) fn push(&mut self, print: u64) -> Result<(), NoMemory>
        ensures pushed { OnOk result (self.new ≡ self.old ++ print ∷ []) }
        ensures err { OnErr result (self.new ≡ self.old) }
    {
        let before = self.last(print);
        self.prints.reserve(1)?;
        self.befores.reserve(1)?;
        self.lasts.insert(print, self.prints.len())?;
        self.befores.push_reserved(before);
        self.prints.push_reserved(print);
        Ok(())
    }
}
