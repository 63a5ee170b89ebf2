//! A script explored, as a page.
ghost use Rattle.std.specs.Prelude.{◌≡◌, [], IfOk, MatchResult};
ghost use Rattle.explore_command.specs.Gauge.{SaysNoMore};
ghost use Rattle.explore_page_command.specs.ExplorePage.{IsExplorationPage, IsNoExplorationPage, IsExplorePage, WhyPageTookTooMuch};
ghost use Rattle.outcome_text.specs.Framed.{text_of};
ghost use Rattle.scripts.specs.declared.turns.TurnOrder.TheVariants.{OfScript};
ghost use Rattle.scripts.specs.Scenario.{said_by, said_for, IsPlayable};

use crate::fault::ExplorePageFault;
use crate::runs::runs_of;
use drawings::ACTORS_MAX;
use event_log::Output;
use explore::{Progress, Scene};
use explore_command::{Gauge, Waiter, survey_scene};
use explore_parts::Asked;
use outcome_text::{ExploreFault, Survey};
use pages::runs_page;
use path_text::NoMemory;
use run_command::DrawFault;
use scripts::{RunFault, Scenario, Script, TurnOrder, read_scene};
use std::alloc::Global;
use std::io::Write;
use tree_list::ListTree;

// A page, and whether no property fails.
#[derive(Debug, Drop)]
struct Exploration {
    page: Output,
    holds: bool,
}

// The text of a survey.
fn text_in(alloc: Global, survey: &Survey) -> Result<Vec<u8>, NoMemory>
    ensures { IfOk result (λ text. text.items ≡ text_of survey.now) }
{
    let mut text = Vec::new(alloc);
    match survey.write(&mut text) {
        Ok(()) => Ok(text),
        Err(_) => Err(NoMemory),
    }
}

// The page of all schedules of what a script says. Errors as of `explore_page`, but for those of the script and of
// writing.
fn explored<G: Gauge, P: Progress>(
    alloc: Global,
    scenario: Scenario,
    tree: ListTree,
    asked: &Asked,
    gauge: &G,
    progress: &mut P,
) -> Result<Exploration, ExplorePageFault>
    requires same { tree ≡ scenario.tree }
    requires none { scenario.tree.handles ≡ [] }
    requires playable { IsPlayable (said_by scenario) }
    ensures page { MatchResult result
        (λ shown. IsExplorationPage asked.now shown.holds (said_by scenario) shown.page)
        (IsNoExplorationPage asked.now (said_by scenario)) }
    ensures memory { MatchResult result (λ _. SaysNoMore (G.may_say gauge.now) asked.now.memory)
        (WhyPageTookTooMuch (G.may_say gauge.now)) }
{
    let (plans, lines) = (scenario.plans, scenario.lines);
    if plans.len() as u64 > ACTORS_MAX {
        return Err(ExplorePageFault::Draw(DrawFault::TooManyActors));
    }
    if (lines as usize) < plans.len() {
        return Err(ExplorePageFault::Explore(ExploreFault::Run(RunFault::BookFull)));
    }
    let scene = Scene { tree, plans, lines };
    let survey = match survey_scene(alloc, &scene, asked, gauge, progress) {
        Ok(survey) => survey,
        Err(fault) => return Err(ExplorePageFault::Explore(fault)),
    };
    let runs = runs_of(alloc, &scene, &survey.outcomes)?;
    let text = text_in(alloc, &survey)?;
    let mut page = Output::new(alloc);
    runs_page(alloc, &mut page, &text, &runs)?;
    Ok(Exploration {
        page,
        holds: survey.holds,
    })
}

/// Goes through all schedules of a script's world as `explore_script` does, and writes a page of HTML that
/// needs nothing beside itself: it has the text that `explore_script` writes, and plays the first 64 outcomes of this
/// text, each by its least schedule: of each it has the report that `replay --json` writes, and the picture that `draw`
/// draws. The result is whether no property fails. `gauge` is looked at, and `progress` hears, as of `explore_script`.
///
/// Errors, in this order: those of `read_scenario`; `TooManyActors` over the 4 that a picture has; `BookFull` and those
/// that follow it of `explore_script`; `TooManyLines` where a run that is played has more than 2,000 events, or its
/// picture more than 2,000 lines; `NoMemory`; `WriteFailed`. Nothing is written before the page is whole.
#[tactic(auto, using(crate::proofs::Pages::text_some))]
pub fn explore_page<W: Write, G: Gauge, P: Waiter>(
    alloc: Global,
    script: &Script,
    writer: &mut W,
    asked: &Asked,
    gauge: &G,
    progress: &mut P,
) -> Result<bool, ExplorePageFault>
    ensures run { IsExplorePage asked.now (said_for OfScript script.now) (W.contents writer.old)
        (W.contents writer.new) result }
    ensures memory { MatchResult result (λ _. SaysNoMore (G.may_say gauge.now) asked.now.memory)
        (WhyPageTookTooMuch (G.may_say gauge.now)) }
{
    let (scenario, tree) = read_scene(alloc, script, &TurnOrder::OfScript)?;
    let shown = explored(alloc, scenario, tree, asked, gauge, progress);
    progress.over();
    let shown = shown?;
    match writer.write_all(shown.page.as_slice()) {
        Ok(()) => Ok(shown.holds),
        Err(_) => Err(ExplorePageFault::from(RunFault::WriteFailed)),
    }
}
