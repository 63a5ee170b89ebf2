//! A script explored: all schedules of its world are gone through, and what they come to is written.
ghost use Rattle.std.specs.Prelude.{◌≡◌, ◌≢◌, [], IfOk, MatchResult};
ghost use Rattle.scripts.specs.declared.turns.TurnOrder.TheVariants.{OfScript};
ghost use Rattle.scripts.specs.Scenario.{said_by, said_for, IsPlayable};
ghost use Rattle.explore_command.specs.Explore.{IsExplore, IsNoSurvey, IsSurveyOf};
ghost use Rattle.explore_command.specs.Gauge.{SaysNoMore, WhyTooMuch};
ghost use Rattle.outcome_text.specs.Framed.{text_of};

use crate::gauge::Gauge;
use crate::search::survey_scene;
use crate::waiter::Waiter;
use explore::{Progress, Scene};
use explore_parts::Asked;
use outcome_text::{ExploreFault, Survey};
use scripts::{RunFault, Scenario, Script, TurnOrder, read_scene};
use std::alloc::Global;
use std::io::Write;
use tree_list::ListTree;

// All schedules of what a script says gone through. Errors as of `explore_script`, but for those of the script and
// of writing.
fn surveyed<G: Gauge, P: Progress>(
    alloc: Global,
    scenario: Scenario,
    tree: ListTree,
    asked: &Asked,
    gauge: &G,
    progress: &mut P,
) -> Result<Survey, ExploreFault>
    requires same { tree ≡ scenario.tree }
    requires none { scenario.tree.handles ≡ [] }
    requires playable { IsPlayable (said_by scenario) }
    ensures survey { MatchResult result
        (λ survey. IsSurveyOf asked.now survey.holds (said_by scenario) (text_of survey))
        (IsNoSurvey asked.now (said_by scenario)) }
    ensures some { IfOk result (λ survey. text_of survey ≢ []) }
    ensures memory { MatchResult result (λ _. SaysNoMore (G.may_say gauge.now) asked.now.memory)
        (WhyTooMuch (G.may_say gauge.now)) }
{
    let (plans, lines) = (scenario.plans, scenario.lines);
    if (lines as usize) < plans.len() {
        return Err(ExploreFault::Run(RunFault::BookFull));
    }
    let scene = Scene { tree, plans, lines };
    match survey_scene(alloc, &scene, asked, gauge, progress) {
        Ok(survey) => Ok(survey),
        Err(fault) => Err(fault),
    }
}

/// Goes through all schedules of a script's world, those with at most so many cuts that begin with the turns
/// that are asked for, and writes what they come to. The script's own schedule is checked and not used. The result is
/// whether no property fails. On the way `progress` gets the number of worlds so far, and then that the search is
/// over.
///
/// Errors, in this order: those of `read_scenario`; `BookFull` where the script gives its book fewer lines than it
/// has actors; `NoSuchActor` of the first that is named and isn't there; `NoSuchLine` of the first property that
/// names an actor who isn't there, a call that its actor doesn't have, or a reply that begins with other words than
/// one can; where a limit of memory is asked for, `NoGauge` where `gauge` knows nothing, and `TooMuchMemory` where it
/// says more already; `NotBusy` and `TooManyCuts` of the first turn of the beginning that can't be taken;
/// `TooManyStates` where there are more worlds than are gone through, `TooManyTurns` where a schedule has more turns
/// than the limit, and `TooMuchMemory`, whichever is met first; `NoMemory`; `WriteFailed`. Nothing is written before
/// the text is whole.
pub fn explore_script<W: Write, G: Gauge, P: Waiter>(
    alloc: Global,
    script: &Script,
    writer: &mut W,
    asked: &Asked,
    gauge: &G,
    progress: &mut P,
) -> Result<bool, ExploreFault>
    ensures run { IsExplore asked.now (said_for OfScript script.now) (W.contents writer.old)
        (W.contents writer.new) result }
    ensures memory { MatchResult result (λ _. SaysNoMore (G.may_say gauge.now) asked.now.memory)
        (WhyTooMuch (G.may_say gauge.now)) }
{
    let (scenario, tree) = read_scene(alloc, script, &TurnOrder::OfScript)?;
    let explored = surveyed(alloc, scenario, tree, asked, gauge, progress);
    progress.over();
    let survey = explored?;
    match survey.write(writer) {
        Ok(()) => Ok(survey.holds),
        Err(_) => Err(ExploreFault::Run(RunFault::WriteFailed)),
    }
}
