//! All schedules of a world, by a search of the system that it is.
ghost use Rattle.std.specs.Prelude.{◌≤◌, IfOk, IfErr, OnOk};
ghost use Rattle.explore.specs.Explored.{AreStates, WhyNot, classes_in, scope_with};
ghost use Rattle.explore.specs.Promise.{IsMerged};
ghost use Rattle.explore.specs.Told.{IsToldBy, AreToldBy};

use crate::outcomes::end::End;
use crate::system::Worlds;
use crate::worlds::beginnings::Beginnings;
use crate::worlds::replayed::{ended, replay};
use layered_search::{Class, Findings, Limits, Progress, SearchFault, search};
use path_text::NoMemory;
use race_core::CopyTree;
use std::alloc::Global;
use std::marker::PhantomData;
use tree_model::Tree;

// Goes through the least list of a class once more, and makes its end the class's outcome. NoMemory where room was
// refused.
fn tell_class<T: Tree + Drop, B: Beginnings<T>>(
    alloc: Global,
    beginnings: &B,
    outside: bool,
    class: &mut Class<End<T>>,
) -> Result<(), NoMemory>
    ensures told { OnOk result (IsToldBy (B.opening beginnings.now) outside class.old class.new) }
{
    let Ok(replayed) = replay(alloc, beginnings, outside, class.least.as_slice()) else {
        return Err(NoMemory);
    };
    class.outcome = ended(alloc, replayed)?;
    Ok(())
}

// The same of each class. NoMemory where room was refused.
fn tell_classes<T: Tree + Drop, B: Beginnings<T>>(
    alloc: Global,
    beginnings: &B,
    outside: bool,
    classes: &mut [Class<End<T>>],
) -> Result<(), NoMemory>
    ensures told { OnOk result (AreToldBy (B.opening beginnings.now) outside classes.old classes.new) }
{
    for class in classes.iter_mut() {
        tell_class(alloc, beginnings, outside, class)?;
    }
    Ok(())
}

/// Goes through every full list of turns of that scope, and tells each outcome once, with the number of its lists
/// and the least of them; the outcome is the end of that list. Of worlds in which each actor has the same part, on the
/// same nodes, one is gone on from. Where `outside` says so, an outcome has how many changes each actor made outside of
/// its root, and worlds are taken for one only where these are as many, too. After each layer `progress` is told how
/// many states there were. Where the lists are to begin with some turns, these are taken first.
///
/// Errors: TooManyActors over 64; NotBusy and TooManyCuts of the first turn that the lists are to begin with and can't;
/// TooManyTurns where a list has more turns than the limit; TooManyStates where there are more states than the limit;
/// NoMemory where room was refused, in a world's run too. There are no findings then.
pub fn explore<T: CopyTree + Drop, B: Beginnings<T>, P: Progress>(
    alloc: Global,
    beginnings: &B,
    limits: &Limits,
    outside: bool,
    progress: &mut P,
) -> Result<Findings<End<T>>, SearchFault>
    ensures merged { IfOk result (λ found. IsMerged (B.opening beginnings.now) (scope_with limits.now outside)
        (classes_in found.classes.items) found.lists found.turns) }
    ensures states { IfOk result (λ found. found.states ≤ limits.now.states) }
    ensures counted { IfOk result (λ found.
        AreStates (B.opening beginnings.now) (scope_with limits.now outside) found.states) }
    ensures err { IfErr result (WhyNot (B.opening beginnings.now) limits.now outside) }
{
    let worlds: Worlds<'_, T, B> = Worlds {
        beginnings,
        told: outside,
        trees: PhantomData,
    };
    let mut found = search(alloc, &worlds, limits, progress)?;
    tell_classes(alloc, beginnings, outside, found.classes.as_mut_slice())?;
    Ok(found)
}
