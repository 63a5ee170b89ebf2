//! All schedules of a world gone through, and the text of their outcomes.
ghost use Rattle.std.specs.Prelude.{◌≡◌, ◌≤◌, length, find, nat_le, IfErr, IfOk, MatchResult};
ghost use Rattle.race_core.specs.declared.opening.TheConstants.{ACTORS_MAX as MOST_ACTORS};
ghost use Rattle.explore.specs.Explored.{classes_in};
ghost use Rattle.explore_command.specs.Surveyed.{IsOfThese, IsTelling, IsSurveyWith, WhyNoSurvey};
ghost use Rattle.outcome_text.specs.Conditions.{counted};
ghost use Rattle.outcome_text.specs.Framed.{text_of};
ghost use Rattle.outcome_text.specs.Order.{in_order};
ghost use Rattle.outcome_text.specs.Unfound.{unfound_by};
ghost use Rattle.explore_command.specs.Classes.{AreTold};
ghost use Rattle.explore_command.specs.Gauge.{IsOfNoGauge, SaysNoMore, WhyTooMuch};

use crate::classes::tell_all;
use crate::gauge::{Bounded, Gauge, look, told_over};
use explore::{Class, End, Findings, Progress, Scene, SearchFault, explore};
use explore_parts::Asked;
use outcome_text::{ExploreFault, Property, Survey, Told, first_untold, told_in_order};
use path_text::NoMemory;
use std::alloc::Global;
use tree_list::ListTree;
use tree_model::Tree;

// The first of these that is none of so many actors.
fn first_foreign(named: &[u32], actors: usize) -> Option<u32>
    ensures { result ≡ find (λ i. nat_le actors i) named.now }
{
    for actor in named {
        if actors <= *actor as usize {
            return Some(*actor);
        }
    }
    None
}

/// What the text says of each outcome that was found, with its lines where it is judged. NoMemory where room was
/// refused.
pub(crate) fn told_in(
    alloc: Global,
    judged: bool,
    scene: &Scene,
    asked: &Asked,
    classes: Vec<Class<End<ListTree>>>,
) -> Result<Vec<Told>, NoMemory>
    requires { length scene.now.plans.items ≤ MOST_ACTORS }
    ensures { IfOk result (λ all. AreTold judged asked.now.named.items scene.now.tree (length scene.now.plans.items)
        (classes_in classes.items) all.items) }
{
    let opening = scene.tree.snapshot(alloc)?;
    let actors = scene.plans.len() as u32;
    tell_all(alloc, judged, &asked.named, &opening, actors, classes)
}

// The text of what was found, and whether no property fails.
fn survey_of(
    alloc: Global,
    scene: &Scene,
    asked: &Asked,
    found: Findings<End<ListTree>>,
) -> Result<Survey, NoMemory>
    requires { length scene.now.plans.items ≤ MOST_ACTORS }
    ensures { IfOk result (λ survey.
        (is : IsTelling asked.now scene.now.tree scene.now.plans.items (classes_in found.classes.items) found.lists
        found.states found.turns survey.holds (text_of survey))
        × (survey.outcomes.items ≡ counted asked.now.properties.items (in_order is.all))) }
{
    let (lists, states, turns) = (found.lists, found.states, found.turns as u64);
    let judged = asked.properties.len() > 0;
    let all = told_in(alloc, judged, scene, asked, found.classes)?;
    told_in_order(alloc, lists, Some(states), turns, all, &asked.properties)
}

/// Whether all who are named are there, and each property names a line that a report can have. Errors: `NoSuchActor`
/// and `NoSuchLine` of the first that isn't; `NoMemory`.
pub(crate) fn check(alloc: Global, scene: &Scene, asked: &Asked) -> Result<(), ExploreFault>
    ensures these { MatchResult result (λ _. IsOfThese asked.now scene.now.plans.items)
        (WhyNoSurvey asked.now scene.now.tree scene.now.plans.items scene.now.lines) }
    ensures none { IfErr result IsOfNoGauge }
{
    if let Some(actor) = first_foreign(&asked.named, scene.plans.len()) {
        return Err(ExploreFault::NoSuchActor(actor));
    }
    if let Some(place) = first_untold(alloc, asked.outside, &scene.plans, &asked.properties)? {
        return Err(ExploreFault::NoSuchLine(place));
    }
    Ok(())
}

// All lists gone through, and the text of what was found. Errors as of `explore`. Where the gauge says too much, there
// is no memory.
fn searched<G: Gauge, P: Progress>(
    alloc: Global,
    scene: &Scene,
    asked: &Asked,
    gauge: &G,
    progress: &mut P,
) -> Result<Survey, SearchFault>
    requires actors { length scene.now.plans.items ≤ MOST_ACTORS }
    requires these { IsOfThese asked.now scene.now.plans.items }
    ensures { MatchResult result
        (IsSurveyWith asked.now scene.now.tree scene.now.plans.items scene.now.lines)
        (λ fault. WhyNoSurvey asked.now scene.now.tree scene.now.plans.items scene.now.lines (unfound_by fault)) }
{
    let bounded = Bounded {
        scene,
        gauge,
        memory: asked.memory,
    };
    match explore(alloc, &bounded, &asked.limits, asked.outside, progress) {
        Ok(found) => Ok(survey_of(alloc, scene, asked, found)?),
        Err(fault) => Err(fault),
    }
}

/// Goes through all full lists of turns of the world of a tree and of plans, those with at most so many cuts that
/// begin with the turns that are asked for, and says what they come to: how many there are, by how many worlds, how
/// many turns the longest has, each outcome once with how many lead to it and a schedule for the least of them, and
/// whether each property holds of every one. Where a property is a condition, only the lists whose report has its line
/// count. The outcomes that are told of come beside, in the order of their least lists. Outcomes are compared with
/// their new nodes numbered anew, so these numbers make no difference between them. The number of steps that acted
/// outside does, where it is asked for. On the way `progress` gets the number of worlds so far. Where a limit of memory
/// is asked for, `gauge` is looked at first, then before each world that is made, and after all; it isn't looked at
/// otherwise.
///
/// Errors, in this order: `NoSuchActor` of the first that is named and isn't there; `NoSuchLine` of the first
/// property that names an actor who isn't there, a call that its actor doesn't have, or a reply that begins with other
/// words than one can; `NoGauge` where `gauge` doesn't know how much memory was taken, and `TooMuchMemory` where it
/// says more already than the limit; `NotBusy` and `TooManyCuts` of the first turn of the beginning that can't be
/// taken; `TooManyStates` and `TooManyTurns` beyond the limits, and `TooMuchMemory`, whichever is met first; `NoMemory`
/// where room was refused, and where the world can't be made.
pub fn survey_scene<G: Gauge, P: Progress>(
    alloc: Global,
    scene: &Scene,
    asked: &Asked,
    gauge: &G,
    progress: &mut P,
) -> Result<Survey, ExploreFault>
    requires { length scene.now.plans.items ≤ MOST_ACTORS }
    ensures survey { MatchResult result
        (IsSurveyWith asked.now scene.now.tree scene.now.plans.items scene.now.lines)
        (WhyNoSurvey asked.now scene.now.tree scene.now.plans.items scene.now.lines) }
    ensures memory { MatchResult result (λ _. SaysNoMore (G.may_say gauge.now) asked.now.memory)
        (WhyTooMuch (G.may_say gauge.now)) }
{
    check(alloc, scene, asked)?;
    look(gauge, asked.memory)?;
    match searched(alloc, scene, asked, gauge, progress) {
        Ok(survey) => {
            look(gauge, asked.memory)?;
            Ok(survey)
        }
        Err(fault) => Err(told_over(gauge, asked.memory, fault)),
    }
}
