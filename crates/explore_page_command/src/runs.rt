//! The runs that lead to the outcomes that a page plays.
ghost use Rattle.std.specs.Prelude.{◌≡◌, ◌≤◌, ◌++◌, ◌∷◌, [], length, map, Some, All, OnOk, MatchResult};
ghost use Rattle.drawings.specs.Calls.{calls_of};
ghost use Rattle.run_command.specs.Drawing.{opened_by};
ghost use Rattle.race_core.specs.declared.report.WorldFault.TheVariants as world_fault;
ghost use Rattle.race_core.specs.Opening.{granted};
ghost use Rattle.scripts.specs.Scenario.{IsPlayable};
ghost use Rattle.run_command.specs.declared.drawing.DrawFault.TheVariants as draw_fault;
ghost use Rattle.scripts.specs.declared.fault.RunFault.TheVariants.{NoMemory as OutOfMemory};
ghost use Rattle.run_command.specs.Replay.{IsRunOf};
ghost use Rattle.explore_page_command.specs.Played.{scene_said, AreTaken, chosen, by_schedule_of, IsPlayed, ArePlayed, IsNoPlay};

use crate::chosen::chosen;
use drawings::{CallWords, Closes, calls_of};
use explore::{Beginnings, Scene};
use outcome_text::{Told, before_tail};
use pages::Played;
use path_text::NoMemory;
use race_core::{Report, WorldFault};
use run_command::{DrawFault, grant_roots, told_of};
use scripts::RunFault;
use std::alloc::Global;
use tree_list::ListTree;

// How it is told that a world didn't go on. Each turn of its schedule is an actor's, so memory alone was wanting.
fn wanting(_fault: WorldFault) -> DrawFault
    requires { _fault ≡ world_fault.NoMemory }
    ensures { result ≡ draw_fault.Run OutOfMemory }
{
    DrawFault::Run(RunFault::NoMemory)
}

// The report on a run of a scene by the schedule that leads to an outcome.
fn report_on(alloc: Global, scene: &Scene, told: &Told) -> Result<Report<ListTree>, DrawFault>
    requires none { scene.now.tree.handles ≡ [] }
    requires playable { IsPlayable (by_schedule_of (scene_said scene.now) told.now) }
    requires enough { length scene.now.plans.items ≤ scene.now.lines }
    ensures { MatchResult result
        (λ report. IsRunOf (by_schedule_of (scene_said scene.now) told.now)
        report.tree report.events.events report.replies.items)
        (λ fault. fault ≡ draw_fault.Run OutOfMemory) }
{
    let turns = told.turns.as_slice();
    let world = scene.world(alloc)?;
    match world.run(alloc, &turns[..before_tail(turns)]) {
        Ok(report) => Ok(report),
        Err(fault) => Err(wanting(fault)),
    }
}

// The run that leads to an outcome.
fn played(
    alloc: Global,
    scene: &Scene,
    opening: &ListTree,
    calls: &[CallWords],
    told: &Told,
) -> Result<Played, DrawFault>
    requires none { scene.now.tree.handles ≡ [] }
    requires playable { IsPlayable (scene_said scene.now) }
    requires enough { length scene.now.plans.items ≤ scene.now.lines }
    requires opened { opened_by (granted scene.now.tree 0 scene.now.plans.items) ≡ Some opening.now }
    requires calls { calls.now ≡ calls_of scene.now.plans.items }
    requires taken { AreTaken (length scene.now.plans.items) told.now }
    ensures { MatchResult result (IsPlayed (by_schedule_of (scene_said scene.now) told.now))
        (IsNoPlay (scene_said scene.now)) }
{
    let report = report_on(alloc, scene, told)?;
    let (events, replies) = (&report.events, &report.replies);
    let again = opening.copy(alloc)?;
    match Played::of(alloc, again, calls, events, replies, Closes::Hidden) {
        Ok(run) => Ok(run),
        Err(fault) => Err(told_of(fault)),
    }
}

// Adds a run.
fn add(runs: &mut Vec<Played>, run: Played) -> Result<(), NoMemory>
    ensures { OnOk result (runs.new.items ≡ runs.old.items ++ run ∷ []) }
{
    runs.push(run)?;
    Ok(())
}

// The runs that lead to these outcomes.
fn all_played(
    alloc: Global,
    scene: &Scene,
    opening: &ListTree,
    calls: &[CallWords],
    some: &[&Told],
) -> Result<Vec<Played>, DrawFault>
    requires none { scene.now.tree.handles ≡ [] }
    requires playable { IsPlayable (scene_said scene.now) }
    requires enough { length scene.now.plans.items ≤ scene.now.lines }
    requires opened { opened_by (granted scene.now.tree 0 scene.now.plans.items) ≡ Some opening.now }
    requires calls { calls.now ≡ calls_of scene.now.plans.items }
    requires taken { All (AreTaken (length scene.now.plans.items)) (map (λ told. told.now) some.now) }
    ensures { MatchResult result
        (λ runs. ArePlayed (scene_said scene.now) (map (λ told. told.now) some.now) runs.items)
        (IsNoPlay (scene_said scene.now)) }
{
    let mut runs = Vec::new(alloc);
    for told in some {
        let run = played(alloc, scene, opening, calls, told)?;
        add(&mut runs, run)?;
    }
    Ok(runs)
}

/// The runs of a scene that lead to the outcomes that a page plays. Errors: `TooManyActors` over the 4 that a picture
/// has; `TooManyLines` where one of these runs has more than 2,000 events or lines; `NoMemory`.
pub(crate) fn runs_of(
    alloc: Global,
    scene: &Scene,
    outcomes: &[Told],
) -> Result<Vec<Played>, DrawFault>
    requires none { scene.now.tree.handles ≡ [] }
    requires playable { IsPlayable (scene_said scene.now) }
    requires enough { length scene.now.plans.items ≤ scene.now.lines }
    requires taken { All (AreTaken (length scene.now.plans.items)) outcomes.now }
    ensures { MatchResult result (λ runs. ArePlayed (scene_said scene.now) (chosen outcomes.now) runs.items)
        (IsNoPlay (scene_said scene.now)) }
{
    let mut opening = scene.tree.copy(alloc)?;
    grant_roots(alloc, &mut opening, &scene.plans)?;
    let calls = calls_of(alloc, &scene.plans)?;
    let some = chosen(alloc, outcomes)?;
    all_played(alloc, scene, &opening, &calls, &some)
}
