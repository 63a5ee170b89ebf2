//! A script replayed: its world is made, run to its end, and reported on.
ghost use Rattle.std.specs.Prelude.{◌≡◌, ◌≢◌, [], IfOk, MatchResult};
ghost use Rattle.run_command.specs.Replay.{CanCome, IsReplay, IsRunOf, IsTextOf, told_of};
ghost use Rattle.scripts.specs.Scenario.{said_by, said_for, said_on, IsPlayable};
ghost use Rattle.scripts.specs.Writing.{IsNoRun};

use event_log::Output;
use race_core::{ActorPlan, Report, World, WorldFault};
use report_text::report;
use scripts::{RunFault, Scenario, Script, TurnOrder, read_scenario};
use std::alloc::Global;
use std::io::Write;
use tree_model::Tree;
use tree_slab::SlabTree;

/// How a replay tells that its world wasn't made, or didn't go on. The script's checks have passed: its roots are
/// directories, its turns are actors', and there are few actors and lines.
fn told_of(fault: WorldFault) -> RunFault
    requires { CanCome fault }
    ensures { result ≡ told_of fault }
{
    match fault {
        WorldFault::BookFull => RunFault::BookFull,
        WorldFault::NoMemory => RunFault::NoMemory,
        WorldFault::TooManyActors
        | WorldFault::RootNotFound(_)
        | WorldFault::RootNotDir(_)
        | WorldFault::TooMany(_)
        | WorldFault::NoSuchActor(_)
        | WorldFault::Invalid => unreachable!(),
    }
}

/// Runs what a script says on a tree to its end. Errors: `BookFull` where there are fewer lines than actors;
/// `NoMemory`.
pub fn report_on<T: Tree>(
    alloc: Global,
    tree: T,
    plans: Vec<ActorPlan>,
    schedule: Vec<u32>,
    lines: u32,
) -> Result<Report<T>, RunFault>
where
    T: Drop,
    requires none { (T.state tree).handles ≡ [] }
    requires playable { IsPlayable (said_on (T.state tree) plans.items schedule.items lines) }
    ensures { MatchResult result
        (λ report. IsRunOf (said_on (T.state tree) plans.items schedule.items lines)
        (T.state report.tree) report.events.events report.replies.items)
        (IsNoRun (said_on (T.state tree) plans.items schedule.items lines)) }
{
    let world = match World::new(alloc, tree, plans, lines) {
        Ok(world) => world,
        Err(fault) => return Err(told_of(fault)),
    };
    match world.run(alloc, &schedule) {
        Ok(report) => Ok(report),
        Err(fault) => Err(told_of(fault)),
    }
}

/// Runs a scenario to its end. Errors as of `report_on`.
pub fn report_of(alloc: Global, scenario: Scenario) -> Result<Report<SlabTree>, RunFault>
    requires none { scenario.tree.handles ≡ [] }
    requires playable { IsPlayable (said_by scenario) }
    ensures { MatchResult result
        (λ report. IsRunOf (said_by scenario) report.tree report.events.events report.replies.items)
        (IsNoRun (said_by scenario)) }
{
    let Scenario {
        tree,
        plans,
        schedule,
        lines,
    } = scenario;
    report_on(alloc, tree, plans, schedule, lines)
}

/// The text of the report on a scenario's run. Errors as of `report_on`.
fn text_of(alloc: Global, scenario: Scenario) -> Result<Output, RunFault>
    requires none { scenario.tree.handles ≡ [] }
    requires playable { IsPlayable (said_by scenario) }
    ensures report { MatchResult result (IsTextOf (said_by scenario)) (IsNoRun (said_by scenario)) }
    ensures some { IfOk result (λ text. text ≢ []) }
{
    let actors = scenario.plans.len() as u32;
    let came_to = report_of(alloc, scenario)?;
    let mut text = Output::new(alloc);
    report(alloc, &mut text, &came_to, actors)?;
    Ok(text)
}

/// Runs a script's world in this order of turns, and writes the report: a line for each event, for how each
/// call ended, for each entry of the tree then, and for each actor with how many handles it has open.
///
/// A call that fails is no error: its line says so. Errors, in this order: those of `read_scenario`; `BookFull` where
/// the script gives its book fewer lines than it has actors; `NoMemory`, where room for the world or the report was
/// refused; `WriteFailed`. Nothing is written before the text is whole.
pub fn replay<W: Write>(
    alloc: Global,
    script: &Script,
    writer: &mut W,
    order: &TurnOrder,
) -> Result<(), RunFault>
    ensures run { IsReplay (said_for order.now script.now) (W.contents writer.old) (W.contents writer.new)
        result }
{
    let scenario = read_scenario(alloc, script, order)?;
    let text = text_of(alloc, scenario)?;
    match writer.write_all(text.as_slice()) {
        Ok(()) => Ok(()),
        Err(_) => Err(RunFault::WriteFailed),
    }
}
