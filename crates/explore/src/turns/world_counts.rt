//! What is counted in a world: the lines of its book, events, numbers of handles, open handles, and changes outside of
//! roots. By these counts a search knows how full a book is and what a turn added to it. A number of a handle is given
//! where it is among the first so many.
ghost use Rattle.std.specs.Prelude.{◌≡◌, ◌<◌, ◌^◌, ℕ, is_some, count_by, length, Some, slice_get, IfOk, IsTrue};
ghost use Rattle.race_core.specs.Book.{tree_now};
ghost use Rattle.local_states.specs.Counting.{IsTally};
ghost use Rattle.explore.specs.Effects.{AreCountsIn};
ghost use Rattle.local_states.specs.Local.{AreAllGiven};

use local_states::Tally;
use path_text::NoMemory;
use race_core::World;
use std::alloc::Global;
use tree_model::{HandleNo, OpenHandle, Snapshot, Tree};

/// What the opening world has.
#[derive(Clone, Copy, Debug, PartialEq, Eq)]
pub(crate) struct Start {
    /// How many lines its book has.
    pub(crate) lines: u32,
    /// How many numbers of handles were given in it.
    pub(crate) numbers: usize,
    /// How many handles are open.
    pub(crate) open_handles: usize,
}

/// What may grow by a turn of an actor. What the turn comes to is told by these counts before and after it.
#[derive(Clone, Copy, Debug, PartialEq, Eq)]
pub(crate) struct Counts {
    /// How many events there were.
    pub(crate) events: usize,
    /// How many numbers of handles were given.
    pub(crate) numbers: usize,
    /// How many handles are open.
    pub(crate) open_handles: usize,
    /// How many changes the actor has made outside of its root; 0 where they aren't told.
    pub(crate) outside: u64,
}

/// The number with room for sums.
pub(crate) fn wide(number: u64) -> u128
    ensures same { result ≡ number }
    ensures small { result < 2 ^ 64 }
{
    u128::from(number)
}

/// How many of the handles are open.
pub(crate) fn open_count(handles: &[Option<OpenHandle>]) -> usize
    ensures { result ≡ count_by is_some handles.now }
{
    handles.iter().filter(|handle| handle.is_some()).count()
}

impl Counts {
    /// Those of that world.
    pub(crate) fn of<T: Tree>(
        world: &World<T>,
        tree: &Snapshot,
        tally: &Tally,
        actor: usize,
    ) -> Counts
        requires tree { tree.now ≡ tree_now world.now.book }
        requires tally { IsTally world.now tally.now }
        ensures { AreCountsIn tally.now.told world.now actor result }
    {
        Counts {
            events: world.book().events().len(),
            numbers: tree.handles().len(),
            open_handles: open_count(tree.handles()),
            outside: tally.changes_of(actor),
        }
    }
}

// Whether all of the handles are among the first so many.
fn are_below(handles: &[HandleNo], given: usize) -> bool
    ensures { IsTrue result → (at h : ℕ) → slice_get handles.now at ≡ Some h → h < given }
{
    for handle in handles {
        if handle.number() as usize >= given {
            return false;
        }
    }
    true
}

/// Whether all numbers of handles that the actors know were given. NoMemory where room was refused.
pub(crate) fn are_given<T: Tree>(
    alloc: Global,
    world: &World<T>,
    given: usize,
) -> Result<bool, NoMemory>
    requires { given ≡ length (tree_now world.now.book).handles }
    ensures { IfOk result (λ are_given. IsTrue are_given → AreAllGiven world.now) }
{
    for actor in 0..world.actors() {
        let mut handles = Vec::new(alloc);
        world.push_handles(actor, &mut handles)?;
        if !are_below(handles.as_slice(), given) {
            return Ok(false);
        }
    }
    Ok(true)
}
