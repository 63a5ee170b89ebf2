//! The outcomes of the schedules that begin with some turns: a part of those of all.
ghost use Rattle.std.specs.Prelude.{◌≡◌, ◌≤◌, false, length, IfOk, MatchResult};
ghost use Rattle.race_core.specs.declared.opening.TheConstants.{ACTORS_MAX as MOST_ACTORS};
ghost use Rattle.explore_command.specs.Part.{IsBarredAt, IsBarred, AreWhoMight, AreEachWhoMight, AreFarEnough, HasNone, IsPart};
ghost use Rattle.explore_command.specs.Gauge.{SaysNoMore, WhyTooMuch};
ghost use Rattle.explore_command.specs.Surveyed.{IsOfThese, WhyNoSurvey, scope_asked};
ghost use Rattle.outcome_text.specs.Unfound.{unfound_by};
ghost use Rattle.explore.specs.Opened.{opened_world};

use crate::gauge::{Bounded, Gauge, look, told_over};
use crate::search::{check, told_in};
use explore::{Limits, Progress, Scene, Scope, SearchFault, Silent, explore};
use explore_parts::Asked;
use outcome_text::{ExploreFault, Part};
use path_text::NoMemory;
use std::alloc::Global;

// Equal turns.
fn copy_of(alloc: Global, turns: &[u32]) -> Result<Vec<u32>, NoMemory>
    ensures { IfOk result (λ copy. copy.items ≡ turns.now) }
{
    let mut copy = Vec::new(alloc);
    copy.extend_from_slice(turns)?;
    Ok(copy)
}

// Whether a list can begin with these turns: a search that may go through no world only sees to that.
fn may_begin(alloc: Global, scene: &Scene, asked: &Asked, begin: Vec<u32>) -> Result<bool, NoMemory>
    ensures { IfOk result (λ may. may ≡ false
        → IsBarred (opened_world scene.now.tree scene.now.plans.items scene.now.lines)
        (scope_asked asked.now) begin.items) }
{
    let none = Limits {
        states: 0,
        turns: asked.limits.turns,
        scope: Scope {
            cuts: asked.limits.scope.cuts,
            begin,
        },
    };
    match explore(alloc, scene, &none, asked.outside, &mut Silent) {
        Ok(_) | Err(SearchFault::TooManyStates | SearchFault::TooManyTurns) => Ok(true),
        Err(SearchFault::NotBusy(_) | SearchFault::TooManyCuts(_)) => Ok(false),
        Err(SearchFault::TooManyActors | SearchFault::NoMemory) => Err(NoMemory),
    }
}

// Who might have the turn after these: nobody is left out who can have it.
fn who_might(
    alloc: Global,
    scene: &Scene,
    asked: &Asked,
    turns: &[u32],
) -> Result<Vec<u32>, NoMemory>
    requires { length scene.now.plans.items ≤ MOST_ACTORS }
    ensures { IfOk result (λ might. AreWhoMight
        (opened_world scene.now.tree scene.now.plans.items scene.now.lines) (scope_asked asked.now)
        (length scene.now.plans.items) turns.now might.items) }
{
    let mut might = Vec::new(alloc);
    for actor in 0..scene.plans.len() as u32 {
        let mut begin = copy_of(alloc, turns)?;
        begin.push(actor)?;
        if may_begin(alloc, scene, asked, begin)? {
            might.push(actor)?;
        }
    }
    Ok(might)
}

// Who might have each of the first turns that are asked for, so many.
fn all_might(
    alloc: Global,
    scene: &Scene,
    asked: &Asked,
    turns: usize,
) -> Result<Vec<Vec<u32>>, NoMemory>
    requires actors { length scene.now.plans.items ≤ MOST_ACTORS }
    requires turns { turns ≤ length asked.now.limits.scope.begin.items }
    ensures each { IfOk result (λ all. AreEachWhoMight
        (opened_world scene.now.tree scene.now.plans.items scene.now.lines) (scope_asked asked.now)
        (length scene.now.plans.items) asked.now.limits.scope.begin.items all.items) }
    ensures many { IfOk result (λ all. length all.items ≡ turns) }
{
    let begin = asked.limits.scope.begin.as_slice();
    let mut all = Vec::new(alloc);
    for at in 0..turns {
        let might = who_might(alloc, scene, asked, &begin[..at])?;
        all.push(might)?;
    }
    Ok(all)
}

// The part of no lists, whose turn at that place can't be taken.
fn no_lists(alloc: Global, scene: &Scene, asked: &Asked, at: usize) -> Result<Part, NoMemory>
    requires actors { length scene.now.plans.items ≤ MOST_ACTORS }
    requires barred { IsBarredAt (opened_world scene.now.tree scene.now.plans.items scene.now.lines)
        (scope_asked asked.now) asked.now.limits.scope.begin.items at }
    ensures begin { IfOk result (λ part. part.begin.items ≡ asked.now.limits.scope.begin.items) }
    ensures none { IfOk result HasNone }
    ensures might { IfOk result (λ part. AreEachWhoMight
        (opened_world scene.now.tree scene.now.plans.items scene.now.lines) (scope_asked asked.now)
        (length scene.now.plans.items) asked.now.limits.scope.begin.items part.might.items) }
    ensures far { IfOk result (λ part. AreFarEnough
        (opened_world scene.now.tree scene.now.plans.items scene.now.lines) (scope_asked asked.now)
        asked.now.limits.scope.begin.items (length part.might.items)) }
{
    let begin = copy_of(alloc, asked.limits.scope.begin.as_slice())?;
    let turns = if at < begin.len() {
        at + 1
    } else {
        begin.len()
    };
    Ok(Part {
        begin,
        might: all_might(alloc, scene, asked, turns)?,
        lists: 0,
        turns: 0,
        all: Vec::new(alloc),
    })
}

// The part of the lists that begin with the turns that are asked for. Errors as of `explore`. Where the gauge says too
// much, there is no memory.
fn searched<G: Gauge, P: Progress>(
    alloc: Global,
    scene: &Scene,
    asked: &Asked,
    gauge: &G,
    progress: &mut P,
) -> Result<Part, SearchFault>
    requires actors { length scene.now.plans.items ≤ MOST_ACTORS }
    requires these { IsOfThese asked.now scene.now.plans.items }
    ensures { MatchResult result (IsPart asked.now scene.now.tree scene.now.plans.items scene.now.lines)
        (λ fault. WhyNoSurvey asked.now scene.now.tree scene.now.plans.items scene.now.lines (unfound_by fault)) }
{
    let bounded = Bounded {
        scene,
        gauge,
        memory: asked.memory,
    };
    let found = match explore(alloc, &bounded, &asked.limits, asked.outside, progress) {
        Ok(found) => found,
        Err(SearchFault::NotBusy(at)) => {
            return Ok(no_lists(alloc, scene, asked, at)?);
        }
        Err(SearchFault::TooManyCuts(at)) => {
            return Ok(no_lists(alloc, scene, asked, at)?);
        }
        Err(fault) => return Err(fault),
    };
    let begin = copy_of(alloc, asked.limits.scope.begin.as_slice())?;
    let might = all_might(alloc, scene, asked, begin.len())?;
    Ok(Part {
        begin,
        might,
        lists: found.lists,
        turns: found.turns as u64,
        all: told_in(alloc, true, scene, asked, found.classes)?,
    })
}

/// Goes through the lists that begin with the turns that are asked for: gives each outcome, and how the lists begin.
/// Errors as of `survey_scene`, but that turns which can't be taken make a part of no lists.
pub fn part_of_scene<G: Gauge, P: Progress>(
    alloc: Global,
    scene: &Scene,
    asked: &Asked,
    gauge: &G,
    progress: &mut P,
) -> Result<Part, ExploreFault>
    requires { length scene.now.plans.items ≤ MOST_ACTORS }
    ensures part { MatchResult result (IsPart asked.now scene.now.tree scene.now.plans.items scene.now.lines)
        (WhyNoSurvey asked.now scene.now.tree scene.now.plans.items scene.now.lines) }
    ensures memory { MatchResult result (λ _. SaysNoMore (G.may_say gauge.now) asked.now.memory)
        (WhyTooMuch (G.may_say gauge.now)) }
{
    check(alloc, scene, asked)?;
    look(gauge, asked.memory)?;
    match searched(alloc, scene, asked, gauge, progress) {
        Ok(part) => {
            look(gauge, asked.memory)?;
            Ok(part)
        }
        Err(fault) => Err(told_over(gauge, asked.memory, fault)),
    }
}
