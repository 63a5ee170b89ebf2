//! What turns come to, remembered.
ghost use Rattle.std.specs.Prelude.{◌≡◌, ◌⊎◌, [], ℕ, Some, slice_get, IfSome};
ghost use Rattle.explore.specs.declared.turns.memo.Entry.{Entry};
ghost use Rattle.explore.specs.Effects.{IsEntry};

use local_states::{Effect, Fingerprint};
use path_text::NoMemory;
use std::alloc::Global;
use std::collections::HashMap;
use std::marker::Model;

/// All that a turn depends on: the nodes, its actor, the actor's part, and how full the book is. By it a turn is looked
/// up: what one turn came to, another with an equal key comes to as well.
#[derive(Clone, Copy, Debug, PartialEq, Eq, Hash)]
pub(crate) struct MemoKey {
    /// The place of the list of nodes.
    pub(crate) nodes: usize,
    /// Whose turn it is.
    pub(crate) actor: usize,
    /// The place of the actor's part.
    pub(crate) part: usize,
    /// How many lines of the book are free, or 2 where more are.
    pub(crate) room: usize,
    /// Whether all numbers of handles were given.
    pub(crate) is_full: bool,
}

impl MemoKey {
    // A number by which it is looked up.
    fn print(&self) -> u64 {
        Fingerprint::new()
            .with(self.nodes as u64)
            .with(self.part as u64)
            .with(self.actor as u64)
            .with(self.room as u64)
            .with(u64::from(self.is_full))
            .0
    }
}

/// A turn that is known.
#[derive(Clone, Copy, Debug, PartialEq, Eq)]
pub(crate) struct Entry {
    /// What it depends on.
    pub(crate) memo_key: MemoKey,
    /// What it comes to.
    pub(crate) effect: Effect,
}

/// The turns that are known. Contracts see them as the list of entries.
#[derive(Drop)]
pub(crate) struct Memo {
    entries: Vec<Entry>,
    // Of each key's number the place of an entry. What is found there is compared, so a wrong place costs time alone.
    places: HashMap<u64, usize>,
}

impl Model for Memo {
    ghost use Rattle.std.specs.Prelude.{List};
    ghost use Rattle.explore.specs.declared.turns.memo.Entry.{Entry};

    ghost Value = { List Entry };

    ghost view = { λ m. m.entries.items };
}

impl Memo {
    /// None yet.
    pub(crate) fn new(alloc: Global) -> Memo
        ensures { result ≡ [] }
    {
        Memo {
            entries: Vec::new(alloc),
            places: HashMap::new(alloc),
        }
    }

    /// What that turn comes to, if it is known.
    pub(crate) fn effect(&self, memo_key: &MemoKey) -> Option<Effect>
        ensures { IfSome result (λ effect. IsEntry self.now memo_key.now effect) }
    {
        let at = self.places.get(&memo_key.print()).copied()?;
        let entry = self.entries.get(at)?;
        if entry.memo_key == *memo_key {
            return Some(entry.effect);
        }
        None
    }

    /// Remembers it. NoMemory where its room was refused: what was known is known then.
    pub(crate) fn put(&mut self, memo_key: MemoKey, effect: Effect) -> Result<(), NoMemory>
        ensures { (at : ℕ) (entry : Entry) → slice_get self.new at ≡ Some entry
            → (slice_get self.old at ≡ Some entry) ⊎ (entry ≡ record { memo_key = memo_key; effect = effect }) }
    {
        self.entries.reserve(1)?;
        self.places.insert(memo_key.print(), self.entries.len())?;
        self.entries.push_reserved(Entry { memo_key, effect });
        Ok(())
    }
}
