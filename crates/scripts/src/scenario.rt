//! A whole script: a tree, what each actor does in it, and in what order.
ghost use Rattle.std.specs.Prelude.{◌≡◌, [], Ok, IfOk, IfErr};
ghost use Rattle.serde_json.specs.View.{view};
ghost use Rattle.tree_model.specs.Trees.{IsState};
ghost use Rattle.scripts.specs.Fault.{IsFaultOf};
ghost use Rattle.scripts.specs.Scenario.{lines_in, header_of, nodes_in, scenario_of, said_as, said_by, said_for, IsPlayable, IsFitFor};

use crate::actors::actors_of;
use crate::calls::{Purpose, Version};
use crate::fault::{RunFault, ScriptFault};
use crate::fields::list_in;
use crate::input::Script;
use crate::schedule::schedule_for;
use crate::script::version_of;
use crate::tree::tree_of;
use crate::turns::TurnOrder;
use race_core::ActorPlan;
use serde_json::Value;
use std::alloc::Global;
use tree_list::{ListTree, copy_nodes};
use tree_slab::SlabTree;

/// The most lines of a script's book, and as many as it has where the script doesn't say.
pub const LINES_MAX: u32 = 1_000_000;

/// What a script says: a tree, what each actor does in it by its number, who takes each turn, and how many lines the
/// book has.
#[derive(Debug, Drop)]
pub struct Scenario {
    pub tree: SlabTree,
    pub plans: Vec<ActorPlan>,
    pub schedule: Vec<u32>,
    pub lines: u32,
}

/// What a script says before its tree.
#[derive(Clone, Copy, Debug)]
pub struct Header {
    pub version: Version,
    pub lines: u32,
}

/// How many lines the book of a script has.
fn lines_in(script: &Value) -> Option<u32>
    ensures { result ≡ lines_in (view script.now) }
{
    let Some(lines) = script.get("lines") else {
        return Some(LINES_MAX);
    };
    match lines.as_u64() {
        Some(lines) if 1 <= lines && lines <= LINES_MAX as u64 => Some(lines as u32),
        _ => None,
    }
}

/// The version and the lines of a script. Errors, in this order: those of `version_of`; `Lines`.
fn header_of(script: &Value) -> Result<Header, RunFault>
    ensures ok { IfOk result (λ header. header_of (view script.now) ≡ Ok header) }
    ensures err { IfErr result (IsFaultOf (header_of (view script.now))) }
{
    let version = version_of(script)?;
    let Some(lines) = lines_in(script) else {
        return Err(RunFault::Script(ScriptFault::Lines));
    };
    Ok(Header { version, lines })
}

/// The tree of a script. Errors, in this order: `Tree` where there is no list of entries, `TooManyEntries` past
/// `ENTRIES_MAX` of them, `TreeEntry` of the first that is refused; `NoMemory`.
fn tree_in(alloc: Global, script: &Value) -> Result<SlabTree, RunFault>
    ensures ok { IfOk result (λ tree. (nodes_in (view script.now) ≡ Ok tree.nodes) × (tree.handles ≡ [])) }
    ensures tree { IfOk result IsState }
    ensures err { IfErr result (IsFaultOf (nodes_in (view script.now))) }
{
    let Some(entries) = list_in(script, "tree") else {
        return Err(RunFault::Script(ScriptFault::Tree));
    };
    tree_of(alloc, entries)
}

/// What a script says, read for this purpose, whose header and tree were read before. Errors: the first check that
/// fails, in this order: those of its actors, each with its calls, and of its schedule, or of the turns that are asked
/// for in its place; `NoMemory`.
fn scenario_on(
    alloc: Global,
    purpose: Purpose,
    script: &Value,
    order: &TurnOrder,
    header: Header,
    tree: SlabTree,
) -> Result<Scenario, RunFault>
    requires head { header_of (view script.now) ≡ Ok header }
    requires nodes { nodes_in (view script.now) ≡ Ok tree.nodes }
    requires none { tree.handles ≡ [] }
    requires tree { IsState tree }
    ensures said { IfOk result (λ scenario. scenario_of purpose order.now (view script.now) ≡ Ok (said_by scenario)) }
    ensures playable { IfOk result (λ scenario. IsPlayable (said_by scenario)) }
    ensures fit { IfOk result (λ scenario. IsFitFor purpose (said_by scenario)) }
    ensures none { IfOk result (λ scenario. scenario.tree.handles ≡ []) }
    ensures tree { IfOk result (λ scenario. IsState scenario.tree) }
    ensures err { IfErr result (IsFaultOf (scenario_of purpose order.now (view script.now))) }
{
    let plans = actors_of(alloc, purpose, tree.nodes(), header.version, script)?;
    let schedule = schedule_for(alloc, plans.len(), order, script)?;
    let lines = header.lines;
    Ok(Scenario {
        tree,
        plans,
        schedule,
        lines,
    })
}

/// What a script says, read for this purpose and with this order of turns. Errors as of `read_scenario`.
pub fn read_as(
    alloc: Global,
    purpose: Purpose,
    script: &Script,
    order: &TurnOrder,
) -> Result<Scenario, RunFault>
    ensures said { IfOk result (λ scenario.
        said_as purpose order.now script.now ≡ Ok (said_by scenario)) }
    ensures playable { IfOk result (λ scenario. IsPlayable (said_by scenario)) }
    ensures fit { IfOk result (λ scenario. IsFitFor purpose (said_by scenario)) }
    ensures none { IfOk result (λ scenario. scenario.tree.handles ≡ []) }
    ensures tree { IfOk result (λ scenario. IsState scenario.tree) }
    ensures err { IfErr result (IsFaultOf (said_as purpose order.now script.now)) }
{
    let script = script.value()?;
    let header = header_of(script)?;
    let tree = tree_in(alloc, script)?;
    scenario_on(alloc, purpose, script, order, header, tree)
}

/// What a script says, with this order of turns. Errors: the first check that fails, in this order: those of
/// `Script::value`, of the script's version and its lines, of its tree, and those of `scenario_on`.
pub fn read_scenario(
    alloc: Global,
    script: &Script,
    order: &TurnOrder,
) -> Result<Scenario, RunFault>
    ensures said { IfOk result (λ scenario. said_for order.now script.now ≡ Ok (said_by scenario)) }
    ensures playable { IfOk result (λ scenario. IsPlayable (said_by scenario)) }
    ensures none { IfOk result (λ scenario. scenario.tree.handles ≡ []) }
    ensures tree { IfOk result (λ scenario. IsState scenario.tree) }
    ensures err { IfErr result (IsFaultOf (said_for order.now script.now)) }
{
    read_as(alloc, Purpose::Turns, script, order)
}

/// What a script says, as of `read_scenario`, and its tree as a list, too. Errors as of `read_scenario`.
pub fn read_scene(
    alloc: Global,
    script: &Script,
    order: &TurnOrder,
) -> Result<(Scenario, ListTree), RunFault>
    ensures said { IfOk result (λ read. said_for order.now script.now ≡ Ok (said_by read.0)) }
    ensures playable { IfOk result (λ read. IsPlayable (said_by read.0)) }
    ensures none { IfOk result (λ read. read.0.tree.handles ≡ []) }
    ensures same { IfOk result (λ read. read.1 ≡ read.0.tree) }
    ensures err { IfErr result (IsFaultOf (said_for order.now script.now)) }
{
    let scenario = read_scenario(alloc, script, order)?;
    let list = ListTree::from_nodes(alloc, copy_nodes(alloc, scenario.tree.nodes())?);
    Ok((scenario, list))
}
