//! The actors of a script: their roots and their calls.
ghost use Rattle.std.specs.Prelude.{◌≡◌, [], Ok, IfOk, IfErr, option_map};
ghost use Rattle.serde_json.specs.View.{view, items_view};
ghost use Rattle.tree_model.specs.State.{TOP};
ghost use Rattle.tree_model.specs.Steps.{directory_at};
ghost use Rattle.tree_model.specs.Trees.{IsState};
ghost use Rattle.scripts.specs.Actors.{root_of, first_actor_of, rooted, IsAtHand};
ghost use Rattle.scripts.specs.Plans.{actor_at, actors_in, actors_of};
ghost use Rattle.scripts.specs.Checks.{each};
ghost use Rattle.scripts.specs.Fault.{IsFaultOf};

use crate::calls::{CALLS_MAX, Purpose, Version, calls_of};
use crate::fault::{Cause, RunFault, ScriptFault};
use crate::fields::{are_over, has_none, list_in};
use path_text::{Errno, Names, NoMemory};
use race_core::ActorPlan;
use serde_json::Value;
use std::alloc::Global;
use tree_list::directory_at;
use tree_model::{Actor, HandleNo, Inode, Tree, steps_keep_trees};

/// The most actors of a script.
pub const ACTORS_MAX: usize = 64;

/// The actor that the program walks as.
pub const ACTOR: u32 = 0;

/// The root that an actor names, if it names one.
pub fn root_of(alloc: Global, actor: &Value) -> Result<Option<Names>, NoMemory>
    ensures { IfOk result (λ names. names ≡ root_of (view actor.now)) }
{
    match actor.get("root").and_then(Value::as_str) {
        Some(path) => Names::read(alloc, path.as_bytes()),
        None => Ok(None),
    }
}

/// The first of the actors that a script names.
pub fn first_actor_of(script: &Value) -> Option<&Value>
    ensures { option_map (λ actor. view actor.now) result ≡ first_actor_of (view script.now) }
{
    script.get("actors").and_then(Value::as_array)?.first()
}

/// The actor of that number: its root, which is a directory of these nodes, and its calls. Errors, in this order:
/// `Actor` where it has another shape, or no such root; `TooManyCalls` past `CALLS_MAX` of them; those of `calls_of`.
fn actor_at(
    alloc: Global,
    purpose: Purpose,
    nodes: &[Inode],
    version: Version,
    at: usize,
    actor: &Value,
) -> Result<ActorPlan, RunFault>
    ensures ok { IfOk result (λ plan. actor_at purpose nodes.now version at (view actor.now) ≡ Ok plan) }
    ensures err { IfErr result (IsFaultOf (actor_at purpose nodes.now version at (view actor.now))) }
{
    let Some(root) = root_of(alloc, actor)? else {
        return Err(RunFault::Script(ScriptFault::Actor(at, Cause::Shape)));
    };
    let Some(calls) = list_in(actor, "calls") else {
        return Err(RunFault::Script(ScriptFault::Actor(at, Cause::Shape)));
    };
    if let Err(error) = directory_at(nodes, &root) {
        let cause = Cause::Refused(error);
        return Err(RunFault::Script(ScriptFault::Actor(at, cause)));
    }
    if are_over(calls, CALLS_MAX) {
        return Err(RunFault::Script(ScriptFault::TooManyCalls(at)));
    }
    let calls = calls_of(alloc, purpose, version, at, calls)?;
    Ok(ActorPlan { root, calls })
}

/// What the actors do, each by its number. Errors: those of the first that is refused.
fn plans_of(
    alloc: Global,
    purpose: Purpose,
    nodes: &[Inode],
    version: Version,
    actors: &[Value],
) -> Result<Vec<ActorPlan>, RunFault>
    ensures ok { IfOk result (λ plans. each (actor_at purpose nodes.now version) 0 (items_view actors.now)
        ≡ Ok plans.items) }
    ensures err { IfErr result (IsFaultOf (each (actor_at purpose nodes.now version) 0 (items_view actors.now))) }
{
    let mut plans = Vec::with_capacity(alloc, actors.len())?;
    for (at, actor) in actors.iter().enumerate() {
        let plan = actor_at(alloc, purpose, nodes, version, at, actor)?;
        plans.push(plan)?;
    }
    Ok(plans)
}

/// The actors of a script. Errors, in this order: `Actors` where there is no list of them, or none in it;
/// `TooManyActors` past `ACTORS_MAX` of them.
fn actors_in(script: &Value) -> Result<&[Value], RunFault>
    ensures ok { IfOk result (λ actors. actors_in (view script.now) ≡ Ok (items_view actors.now)) }
    ensures err { IfErr result (IsFaultOf (actors_in (view script.now))) }
{
    let Some(actors) = list_in(script, "actors") else {
        return Err(RunFault::Script(ScriptFault::Actors));
    };
    if has_none(actors) {
        return Err(RunFault::Script(ScriptFault::Actors));
    }
    if are_over(actors, ACTORS_MAX) {
        return Err(RunFault::Script(ScriptFault::TooManyActors));
    }
    Ok(actors)
}

/// What a script's actors do. Errors, in this order: those of `actors_in`; those of the first actor that is refused;
/// `NoMemory`.
pub fn actors_of(
    alloc: Global,
    purpose: Purpose,
    nodes: &[Inode],
    version: Version,
    script: &Value,
) -> Result<Vec<ActorPlan>, RunFault>
    ensures ok { IfOk result (λ plans. actors_of purpose nodes.now version (view script.now) ≡ Ok plans.items) }
    ensures err { IfErr result (IsFaultOf (actors_of purpose nodes.now version (view script.now))) }
{
    let actors = actors_in(script)?;
    plans_of(alloc, purpose, nodes, version, actors)
}

/// Opens the directory at these names for the actor, who has no handle yet.
pub fn open_root<T: Tree>(alloc: Global, tree: &mut T, names: &Names) -> Result<HandleNo, RunFault>
    requires none { (T.state tree.old).handles ≡ [] }
    requires tree { IsState (T.state tree.old) }
    ensures ok { IfOk result (λ root.
        IsAtHand (rooted (T.state tree.old).nodes (directory_at (T.state tree.old).nodes TOP names.now))
        (T.state tree.new) ACTOR root) }
    ensures err { IfErr result (IsFaultOf
        (rooted (T.state tree.old).nodes (directory_at (T.state tree.old).nodes TOP names.now))) }
{
    // The tree is one with the root open, too.
    steps_keep_trees();
    match tree.grant(alloc, Actor::new(ACTOR), names) {
        Ok(root) => Ok(root),
        Err(error) => {
            if error == Errno::NoMemory {
                Err(RunFault::NoMemory)
            } else {
                Err(RunFault::Script(ScriptFault::Actor(0, Cause::Refused(error))))
            }
        }
    }
}
