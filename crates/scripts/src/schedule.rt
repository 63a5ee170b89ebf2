//! The schedule of a script: which actor takes each turn.
ghost use Rattle.std.specs.Prelude.{◌≡◌, ◌≤◌, Ok, IfOk, IfErr};
ghost use Rattle.serde_json.specs.View.{view, items_view};
ghost use Rattle.scripts.specs.Checks.{each};
ghost use Rattle.scripts.specs.Fault.{IsFaultOf};
ghost use Rattle.scripts.specs.Limits.{MOST_ACTORS};
ghost use Rattle.scripts.specs.Scenario.{schedule_for};
ghost use Rattle.scripts.specs.Schedule.{turn_at, schedule_of};

use crate::fault::{RunFault, ScriptFault};
use crate::fields::are_over;
use crate::turns::{TurnOrder, turns_asked};
use serde_json::Value;
use std::alloc::Global;

/// The most turns of a schedule.
pub const TURNS_MAX: usize = 100_000;

/// The turn of that number: the number of one of so many actors. Errors: `Turn`.
fn turn_at(actors: usize, at: usize, turn: &Value) -> Result<u32, RunFault>
    requires { actors ≤ MOST_ACTORS }
    ensures ok { IfOk result (λ actor. turn_at actors at (view turn.now) ≡ Ok actor) }
    ensures err { IfErr result (IsFaultOf (turn_at actors at (view turn.now))) }
{
    match turn.as_u64() {
        Some(actor) if actor < actors as u64 => Ok(actor as u32),
        _ => Err(RunFault::Script(ScriptFault::Turn(at))),
    }
}

/// The turns of so many actors. Errors: `Turn` of the first that is refused; `NoMemory`.
fn turns_of(alloc: Global, actors: usize, turns: &[Value]) -> Result<Vec<u32>, RunFault>
    requires { actors ≤ MOST_ACTORS }
    ensures ok { IfOk result (λ schedule. each (turn_at actors) 0 (items_view turns.now) ≡ Ok schedule.items) }
    ensures err { IfErr result (IsFaultOf (each (turn_at actors) 0 (items_view turns.now))) }
{
    let mut schedule = Vec::with_capacity(alloc, turns.len())?;
    for (at, turn) in turns.iter().enumerate() {
        let actor = turn_at(actors, at, turn)?;
        schedule.push(actor)?;
    }
    Ok(schedule)
}

/// The schedule of a script with so many actors, empty where the key is missing. Errors, in this order: `Schedule`
/// where it is no list; `TooManyTurns` past `TURNS_MAX` of them; those of `turns_of`.
fn schedule_of(alloc: Global, actors: usize, script: &Value) -> Result<Vec<u32>, RunFault>
    requires { actors ≤ MOST_ACTORS }
    ensures ok { IfOk result (λ schedule. schedule_of actors (view script.now) ≡ Ok schedule.items) }
    ensures err { IfErr result (IsFaultOf (schedule_of actors (view script.now))) }
{
    let Some(schedule) = script.get("schedule") else {
        return Ok(Vec::new(alloc));
    };
    let Some(turns) = schedule.as_array() else {
        return Err(RunFault::Script(ScriptFault::Schedule));
    };
    if are_over(turns.as_slice(), TURNS_MAX) {
        return Err(RunFault::Script(ScriptFault::TooManyTurns));
    }
    turns_of(alloc, actors, turns.as_slice())
}

/// The schedule of so many actors in this order: the script's, or what is asked for in its place. Errors: those of
/// `schedule_of`, or of `turns_asked`.
pub fn schedule_for(
    alloc: Global,
    actors: usize,
    order: &TurnOrder,
    script: &Value,
) -> Result<Vec<u32>, RunFault>
    requires { actors ≤ MOST_ACTORS }
    ensures ok { IfOk result (λ schedule. schedule_for order.now actors (view script.now) ≡ Ok schedule.items) }
    ensures err { IfErr result (IsFaultOf (schedule_for order.now actors (view script.now))) }
{
    match order {
        TurnOrder::OfScript => schedule_of(alloc, actors, script),
        TurnOrder::Asked(turns) => turns_asked(alloc, actors, turns.as_slice()),
    }
}
