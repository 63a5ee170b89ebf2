//! The turns that a command line asks for in place of a script's.
ghost use Rattle.std.specs.Prelude.{◌≡◌};
ghost use Rattle.serde_json.specs.View.{view};
ghost use Rattle.command_line.specs.Ending.{IsOrder, blamed_of, begun_of, is_actor};

use crate::ending::Fault;
use outcome_text::{ExploreFault, SearchFault};
use scripts::{RunFault, ScriptFault, TurnOrder, read_turns};
use serde_json::Value;
use std::alloc::Global;

/// The order of turns that a command line asks for. Errors: `Schedule` where they have another form; `NoMemory`.
pub fn order_of(alloc: Global, schedule: Option<&str>) -> Result<TurnOrder, Fault>
    ensures { IsOrder schedule.entry result }
{
    let Some(text) = schedule else {
        return Ok(TurnOrder::OfScript);
    };
    match read_turns(alloc, text)? {
        Some(turns) => Ok(TurnOrder::Asked(turns)),
        None => Err(Fault::Schedule),
    }
}

/// The fault that is told where a script in this order has that one: where turns are asked for, the option is at
/// fault for them, and not the script.
pub fn blamed(order: &TurnOrder, fault: Fault) -> Fault
    ensures { result ≡ blamed_of order.now fault }
{
    match (order, fault) {
        (TurnOrder::Asked(_), Fault::Run(RunFault::Script(ScriptFault::Turn(at)))) => {
            Fault::AskedTurn(at)
        }
        (TurnOrder::Asked(_), Fault::Run(RunFault::Script(ScriptFault::TooManyTurns))) => {
            Fault::AskedTurns
        }
        (_, other) => other,
    }
}

// Whether a script has an actor of that number.
fn is_actor(script: &Value, actor: u32) -> bool
    ensures { result ≡ is_actor actor (view script.now) }
{
    match script.get("actors") {
        Some(actors) => actors.get(actor as usize).is_some(),
        None => false,
    }
}

/// The fault that is told where the search of a script with this beginning has that one: a turn of no actor is the
/// command line's fault, and no turn of one who has nothing left to do.
pub fn begun(begin: &[u32], script: &Value, fault: Fault) -> Fault
    ensures { result ≡ begun_of begin.now (view script.now) fault }
{
    let Fault::Explore(ExploreFault::Search(SearchFault::NotBusy(at))) = fault else {
        return fault;
    };
    match begin.get(at) {
        Some(actor) if !is_actor(script, *actor) => Fault::BeginTurn(at),
        _ => fault,
    }
}
