//! Worlds as keys: each by the places of its components, and by how much its book and its handles have grown.
ghost use Rattle.std.specs.Prelude.{◌≡◌, ◌↔◌, ◌<◌, ◌^◌, ◌+◌, ℕ, length, map, IsTrue, IfOk};
ghost use Rattle.local_states.specs.Keys.{AreFew, AreSameKeys, AreSameKeysButOutside, IsKeyAfter, print_of};

use crate::fingerprint::Fingerprint;
use path_text::NoMemory;
use smallvec::SmallVec;
use std::alloc::Global;

/// A list that has one thing for each actor keeps those of so many in its value. Where it has more, all are in an
/// allocation.
pub const ACTORS_IN_PLACE: usize = 4;

/// What a turn comes to, as far as it is its actor's own. With it the key before the turn makes the key after it
/// (`Key::after`), without a run.
#[derive(Clone, Copy, Debug, PartialEq, Eq)]
pub struct Effect {
    /// The place of the list of nodes after it.
    pub nodes: usize,
    /// The place of the actor's part after it.
    pub part: usize,
    /// Whether it is an event.
    pub event: bool,
    /// Whether it opens a handle.
    pub opens: bool,
    /// Whether it closes one.
    pub closes: bool,
    /// Whether it changes something outside of the actor's root, where that is told.
    pub outside: bool,
}

/// What a key has of one actor: where its part stands among those that were met, and how many changes it has made. A
/// turn that is known changes it of the turn's actor alone.
#[derive(Clone, Copy, Debug, Default, PartialEq, Eq)]
pub struct Own {
    /// The place of its part.
    pub part: usize,
    /// How many changes it has made outside of its root; 0 where they aren't told.
    pub outside: u64,
}

/// A world after some turns, as the places of its components and how much it has grown by the turns.
#[derive(Debug, Drop)]
pub struct Key {
    /// The place of the list of nodes.
    pub nodes: usize,
    /// How many events there were.
    pub events: u64,
    /// How many handles were opened, and how many closed.
    pub opened: u64,
    pub closed: u64,
    /// What is each actor's own.
    pub own: SmallVec<Own, ACTORS_IN_PLACE>,
}

// Whether the same parts stand in both.
fn same_parts(own: &[Own], others: &[Own]) -> bool
    ensures { IsTrue result ↔ (map (λ o. o.part) own.now ≡ map (λ o. o.part) others.now) }
{
    if own.len() != others.len() {
        return false;
    }
    for at in 0..own.len() {
        if own[at].part != others[at].part {
            return false;
        }
    }
    true
}

impl Key {
    // Whether their numbers are the same, beside what is each actor's own.
    fn same_numbers(&self, other: &Key) -> bool
        ensures { IsTrue result
            ↔ ((self.now.nodes ≡ other.now.nodes) × ((self.now.events ≡ other.now.events)
            × ((self.now.opened ≡ other.now.opened) × (self.now.closed ≡ other.now.closed)))) }
    {
        self.nodes == other.nodes
            && self.events == other.events
            && self.opened == other.opened
            && self.closed == other.closed
    }

    /// Whether the keys are the same.
    pub fn same(&self, other: &Key) -> bool
        ensures { IsTrue result ↔ AreSameKeys self.now other.now }
    {
        self.same_numbers(other) && self.own == other.own
    }

    /// Whether they are the same but for changes outside of roots.
    pub fn same_but_outside(&self, other: &Key) -> bool
        ensures { IsTrue result ↔ AreSameKeysButOutside self.now other.now }
    {
        self.same_numbers(other) && same_parts(self.own.as_slice(), other.own.as_slice())
    }

    /// A number that keys have in common that are the same but for changes outside of roots.
    #[tactic(auto, unfolding(crate::specs::Keys::print_of))]
    pub fn print(&self) -> Fingerprint
        ensures { result.0 ≡ print_of self.now }
    {
        let mut print = Fingerprint::new()
            .with(self.nodes as u64)
            .with(self.events)
            .with(self.opened)
            .with(self.closed);
        for own in self.own.as_slice() {
            print = print.with(own.part as u64);
        }
        print
    }

    /// An equal key. NoMemory where its room was refused.
    pub fn copy(&self, alloc: Global) -> Result<Key, NoMemory>
        ensures { IfOk result (λ key. AreSameKeys key self.now) }
    {
        let own = SmallVec::from_slice(alloc, self.own.as_slice())?;
        Ok(Key {
            nodes: self.nodes,
            events: self.events,
            opened: self.opened,
            closed: self.closed,
            own,
        })
    }

    /// The key after that turn of the actor. NoMemory where its room was refused.
    pub fn after(&self, alloc: Global, actor: usize, effect: &Effect) -> Result<Key, NoMemory>
        requires here { actor < length self.now.own.items }
        requires few { (n : ℕ) × ((n < 2 ^ 41) × AreFew n self.now) }
        ensures { IfOk result (λ key. IsKeyAfter self.now actor effect.now key) }
    {
        let mut key = self.copy(alloc)?;
        let outside = key.own[actor].outside;
        key.nodes = effect.nodes;
        key.events += u64::from(effect.event);
        key.opened += u64::from(effect.opens);
        key.closed += u64::from(effect.closes);
        key.own[actor] = Own {
            part: effect.part,
            outside: outside + u64::from(effect.outside),
        };
        Ok(key)
    }
}
