//! A world gone through from the beginning by a list of turns, and what it comes to.
ghost use Rattle.std.specs.Prelude.{◌≡◌, ◌≤◌, [], Bool, false, length, IfOk, IfErr, OnOk};
ghost use Rattle.race_core.specs.Turns.{Luck};
ghost use Rattle.race_core.specs.Worlds.{Runs, RunsTo, turn};
ghost use Rattle.race_core.specs.declared.opening.TheConstants.{ACTORS_MAX};
ghost use Rattle.local_states.specs.Counting.{IsTally};
ghost use Rattle.explore.specs.Explored.{WhyNot};
ghost use Rattle.explore.specs.Search.{IsOver};
ghost use Rattle.local_states.specs.OutOfMemory.{EndsWell, replies_out_of_memory};
ghost use Rattle.explore.specs.Replayed.{ReplayedView};
ghost use Rattle.local_states.specs.Worlds.{IsEndOf};

use crate::outcomes::end::End;
use crate::worlds::beginnings::Beginnings;
use event_log::EventLog;
use layered_search::{Limits, SearchFault};
use local_states::{Tally, tells_out_of_memory};
use path_text::NoMemory;
use race_core::{ACTORS_MAX, Report, World};
use std::alloc::Global;
use std::marker::Model;
use tree_model::Tree;

/// A world after a run from the beginning. The search keeps keys and lists of turns. It makes a run where it needs the
/// world itself: to find a turn that it doesn't know, or the report at the end of a list. Contracts see it as a
/// `ReplayedView`.
pub(crate) struct Replayed<T: Tree> {
    pub(crate) world: World<T>,
    /// The changes outside of roots.
    pub(crate) tally: Tally,
}

impl<T: Tree> Model for Replayed<T> {
    ghost use Rattle.local_states.specs.Counting.{IsTally};
    ghost use Rattle.explore.specs.Replayed.{ReplayedView};

    ghost Value = { ReplayedView };

    ghost view = { λ r. record { told = r.tally.told; world = r.world } };

    ghost invariant = { λ r. IsTally r.world r.tally };
}

/// One turn of that actor, and what was changed outside.
pub(crate) fn take_turn<T: Tree>(
    alloc: Global,
    world: &mut World<T>,
    tally: &mut Tally,
    actor: u32,
) -> Result<(), NoMemory>
    requires tally { IsTally world.old tally.old }
    ensures turned { OnOk result ((luck : Luck) × (world.new ≡ turn luck world.old actor)) }
    ensures tally { OnOk result (IsTally world.new tally.new) }
    ensures told { tally.new.told ≡ tally.old.told }
{
    let events = world.book().events().len();
    if world.turn(alloc, actor).is_err() {
        return Err(NoMemory);
    }
    tally.follow(alloc, world, events)?;
    Ok(())
}

/// The turns, one after another. NoMemory where memory for the report ran short.
pub(crate) fn take_turns<T: Tree>(
    alloc: Global,
    world: &mut World<T>,
    tally: &mut Tally,
    turns: &[u32],
) -> Result<(), NoMemory>
    requires tally { IsTally world.old tally.old }
    ensures ran { OnOk result (Runs world.old turns.now world.new) }
    ensures tally { OnOk result (IsTally world.new tally.new) }
    ensures told { OnOk result (tally.new.told ≡ tally.old.told) }
    ensures actors { OnOk result (length world.new.seats ≡ length world.old.seats) }
{
    for actor in turns {
        take_turn(alloc, world, tally, *actor)?;
    }
    Ok(())
}

// The world after these turns. It comes back where memory for its report ran short.
fn gone<T: Tree + Drop>(
    alloc: Global,
    mut world: World<T>,
    mut tally: Tally,
    turns: &[u32],
) -> Result<Replayed<T>, World<T>>
    requires tally { IsTally world tally }
    ensures ran { IfOk result (λ replayed. Runs world turns.now replayed.world) }
    ensures told { IfOk result (λ replayed. replayed.told ≡ tally.told) }
    ensures actors { IfOk result (λ replayed. length replayed.world.seats ≡ length world.seats) }
{
    match take_turns(alloc, &mut world, &mut tally, turns) {
        Ok(()) => Ok(Replayed { world, tally }),
        Err(_) => Err(world),
    }
}

/// A new world after these turns, in which changes outside of roots are told or not.
///
/// Errors: TooManyActors over 64; NoMemory where it couldn't be made, or where memory for its report ran short.
pub(crate) fn replay<T: Tree + Drop, B: Beginnings<T>>(
    alloc: Global,
    beginnings: &B,
    told: bool,
    turns: &[u32],
) -> Result<Replayed<T>, SearchFault>
    ensures ran { IfOk result (λ replayed. Runs (B.opening beginnings.now) turns.now replayed.world) }
    ensures told { IfOk result (λ replayed. replayed.told ≡ told) }
    ensures actors { IfOk result (λ replayed.
        length replayed.world.seats ≡ length (B.opening beginnings.now).seats) }
    ensures few { OnOk result (length (B.opening beginnings.now).seats ≤ ACTORS_MAX) }
    ensures err { (limits : Limits) (outside : Bool) → IfErr result
        (WhyNot (B.opening beginnings.now) limits outside) }
{
    let world = beginnings.world(alloc)?;
    if world.actors() > ACTORS_MAX {
        world.give_up(alloc);
        return Err(SearchFault::TooManyActors);
    }
    let Ok(tally) = Tally::of(alloc, &world, told) else {
        world.give_up(alloc);
        return Err(SearchFault::NoMemory);
    };
    match gone(alloc, world, tally, turns) {
        Ok(replayed) => Ok(replayed),
        Err(world) => {
            world.give_up(alloc);
            Err(SearchFault::NoMemory)
        }
    }
}

/// The report on a world, once it has gone to its end. NoMemory where memory ran short in its run, too.
pub(crate) fn told<T: Tree + Drop>(alloc: Global, world: World<T>) -> Result<Report<T>, NoMemory>
    ensures ran { IfOk result (λ report.
        RunsTo world [] (T.state report.tree) report.events.events report.replies.items report.kept.items) }
    ensures none { IfOk result (λ report. replies_out_of_memory report.replies.items ≡ false) }
{
    let Ok(report) = world.run(alloc, [].as_slice()) else {
        return Err(NoMemory);
    };
    if tells_out_of_memory(report.replies.as_slice()) {
        return Err(NoMemory);
    }
    Ok(report)
}

/// What the world comes to, once it has gone to its end. NoMemory where memory ran short, on the way to it too.
pub(crate) fn ended<T: Tree + Drop>(
    alloc: Global,
    replayed: Replayed<T>,
) -> Result<End<T>, NoMemory>
    requires { length replayed.world.seats ≤ ACTORS_MAX }
    ensures well { IfOk result (λ end. EndsWell replayed.world) }
    ensures report { IfOk result (λ end. IsOver replayed.world → IsEndOf replayed.told replayed.world end) }
{
    let Replayed { world, tally } = replayed;
    let mut report = told(alloc, world)?;
    report.events = EventLog::new(alloc);
    let nodes = report.tree.snapshot(alloc)?;
    Ok(End {
        report,
        outside: tally.into_counts(),
        nodes,
    })
}

/// The turns of a list that has a byte for each. NoMemory where their room was refused.
pub(crate) fn turns_of(alloc: Global, list: &[u8]) -> Result<Vec<u32>, NoMemory>
    ensures { IfOk result (λ turns. turns.items ≡ list.now) }
{
    let mut turns = Vec::with_capacity(alloc, list.len())?;
    for actor in list {
        turns.push(u32::from(*actor))?;
    }
    Ok(turns)
}
