//! What the text says of the outcomes that a search finds.
ghost use Rattle.std.specs.Prelude.{IfOk};
ghost use Rattle.explore.specs.Explored.{class_of, classes_in};
ghost use Rattle.explore_command.specs.Classes.{IsTold, AreTold};

use explore::{Class, End};
use outcome_text::{Found, Told, told_of};
use path_text::NoMemory;
use std::alloc::Global;
use tree_model::{Snapshot, Tree};

// What the text says of an outcome.
fn tell<T: Tree>(
    alloc: Global,
    judged: bool,
    named: &[u32],
    opening: &Snapshot,
    actors: u32,
    class: &Class<End<T>>,
) -> Result<Told, NoMemory>
    ensures { IfOk result (IsTold judged named.now opening.now actors (class_of class.now)) }
{
    let found = Found {
        lists: class.lists,
        cuts: class.cuts,
        changes: class.changes,
        turns: &class.least,
        report: &class.outcome.report,
        outside: &class.outcome.outside,
    };
    told_of(alloc, judged, named, opening, actors, &found)
}

/// What the text says of each outcome, where so many actors are there and these are named; with its lines where it is
/// judged. Each report is let go as soon as it is told. NoMemory where room was refused.
pub(crate) fn tell_all<T: Tree + Drop>(
    alloc: Global,
    judged: bool,
    named: &[u32],
    opening: &Snapshot,
    actors: u32,
    classes: Vec<Class<End<T>>>,
) -> Result<Vec<Told>, NoMemory>
    ensures { IfOk result (λ all. AreTold judged named.now opening.now actors (classes_in classes.items) all.items) }
{
    let mut all = Vec::with_capacity(alloc, classes.len())?;
    for class in classes {
        all.push(tell(alloc, judged, named, opening, actors, &class)?)?;
    }
    Ok(all)
}
