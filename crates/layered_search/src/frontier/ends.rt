//! The classes of what ends come to, and the graph nodes of configurations.
ghost use Rattle.std.specs.Prelude.{◌≡◌, ◌<◌, ◌≤◌, ◌^◌, ℕ, List, length, Option, Some, None, slice_get, IfOk, IfSome, IfNone, OnOk};
ghost use Rattle.smallvec.specs.SmallVec.{SmallVec as Row};
ghost use Rattle.schedule_graph.specs.declared.graph.Edge.{Edge};
ghost use Rattle.schedule_graph.specs.Words.{AreApart, IsLayer};
ghost use Rattle.layered_search.specs.declared.found.Found.{Found};
ghost use Rattle.layered_search.specs.declared.frontier.layer.Configuration.{Configuration};
ghost use Rattle.layered_search.specs.declared.frontier.layer.Visited.{Visited};
ghost use Rattle.layered_search.specs.Expanded.{CanGoOn, IsEndClassBy};
ghost use Rattle.layered_search.specs.Found.{AreTold, found_of};
ghost use Rattle.layered_search.specs.Layers.{graph_node_by};
ghost use Rattle.layered_search.specs.Lists.{IsEnd, IsOver};
ghost use Rattle.layered_search.specs.System.{state_after};

use crate::found::Found;
use crate::frontier::layer::{Configuration, Turns, Visited};
use crate::system::TransitionSystem;
use path_text::NoMemory;
use schedule_graph::{EDGES_IN_PLACE, Edge, Node};
use smallvec::SmallVec;
use std::alloc::Global;

/// Whether nobody has anything left to do in the state of that key.
pub(crate) fn is_over<S: TransitionSystem>(system: &S, memory: &S::Memory, key: &S::Key) -> bool
    requires few { (S.system system.now).actors ≤ 64 }
    requires known { (n : ℕ) × ((v : S.State) × (S.keys system.now).IsKey memory.now n v key.now) }
    ensures { (n : ℕ) (is : List ℕ)
        → (S.keys system.now).IsKey memory.now n (state_after (S.system system.now) is) key.now
        → IsEnd (S.system system.now) result (state_after (S.system system.now) is) }
{
    for actor in 0..system.actors(key) {
        if system.is_busy(memory, key, actor as u8) {
            return false;
        }
    }
    true
}

// The place of the first outcome that is the same.
fn place_of<S: TransitionSystem>(
    system: &S,
    found: &[Found<S::Outcome>],
    outcome: &S::Outcome,
) -> Option<usize>
    ensures there { IfSome result (λ at. (one : Found S.Outcome) × ((slice_get found.now at ≡ Some one)
        × (S.outcomes system.now).AreSame one.outcome outcome.now)) }
    ensures none { IfNone result ((m : ℕ) (one : Found S.Outcome) → slice_get found.now m ≡ Some one
        → (S.outcomes system.now).AreSame one.outcome outcome.now → ⊥) }
{
    for (at, one) in found.iter().enumerate() {
        if system.is_same_outcome(&one.outcome, outcome) {
            return Some(at);
        }
    }
    None
}

// The class of what the list comes to, at its end. A new one is put after the others where none is the same. NoMemory
// where room was refused.
fn class_of<S: TransitionSystem>(
    alloc: Global,
    system: &S,
    turns: &[u8],
    found: &mut Vec<Found<S::Outcome>>,
) -> Result<usize, NoMemory>
    requires short { length turns.now < 2 ^ 40 }
    requires over { IsOver (S.system system.now) (state_after (S.system system.now) turns.now) }
    requires told { AreTold (S.system system.now) (S.outcomes system.now) found.old.items }
    ensures told { OnOk result (AreTold (S.system system.now) (S.outcomes system.now) found.new.items) }
    ensures class { IfOk result (λ at. IsEndClassBy (S.system system.now) (found_of found.old.items)
        (found_of found.new.items) turns.now (Some at)) }
{
    let outcome = system.outcome(alloc, turns)?;
    if let Some(at) = place_of(system, found.as_slice(), &outcome) {
        return Ok(at);
    }
    let at = found.len();
    let mut own = Turns::with_capacity(alloc, turns.len())?;
    own.extend_from_slice(turns)?;
    found.push(Found {
        turns: own,
        outcome,
    })?;
    Ok(at)
}

/// The same, if the state's list is at its end. NoMemory where room was refused.
pub(crate) fn end_class_of<S: TransitionSystem>(
    alloc: Global,
    system: &S,
    memory: &S::Memory,
    visited: &Visited<S::Key>,
    found: &mut Vec<Found<S::Outcome>>,
) -> Result<Option<usize>, NoMemory>
    requires few { (S.system system.now).actors ≤ 64 }
    requires can { CanGoOn (S.system system.now) (S.keys system.now) memory.now visited.now }
    requires told { AreTold (S.system system.now) (S.outcomes system.now) found.old.items }
    ensures told { OnOk result (AreTold (S.system system.now) (S.outcomes system.now) found.new.items) }
    ensures class { IfOk result (λ end_class. IsEndClassBy (S.system system.now) (found_of found.old.items)
        (found_of found.new.items) visited.now.turns.items end_class) }
{
    if !is_over(system, memory, &visited.key) {
        return Ok(None);
    }
    let class = class_of(alloc, system, visited.turns.as_slice(), found)?;
    Ok(Some(class))
}

// An end of that class, if there is one, and else these edges.
fn graph_node_by(end_class: Option<usize>, edges: SmallVec<Edge, EDGES_IN_PLACE>) -> Node
    ensures { result ≡ graph_node_by end_class edges }
{
    match end_class {
        Some(class) => Node::Ends(class),
        None => Node::Goes(edges),
    }
}

/// The graph node of each configuration: an end of its state's class, if that is one, and else the edges from it.
pub(crate) fn graph_nodes_of(
    alloc: Global,
    configurations: &[Configuration],
    end_classes: &[Option<usize>],
    all: Vec<SmallVec<Edge, EDGES_IN_PLACE>>,
) -> Result<Vec<Node>, NoMemory>
    requires many { length all.items ≡ length configurations.now }
    requires on { (t : ℕ) (configuration : Configuration) → slice_get configurations.now t ≡ Some configuration
        → configuration.state < length end_classes.now }
    requires apart { (t : ℕ) (edges : Row Edge) → slice_get all.items t ≡ Some edges → AreApart edges.items }
    ensures many { IfOk result (λ graph_nodes. length graph_nodes.items ≡ length configurations.now) }
    ensures each { IfOk result (λ graph_nodes.
        (t : ℕ) (configuration : Configuration) (edges : Row Edge) (end_class : Option ℕ)
        → slice_get configurations.now t ≡ Some configuration → slice_get all.items t ≡ Some edges
        → slice_get end_classes.now configuration.state ≡ Some end_class
        → slice_get graph_nodes.items t ≡ Some (graph_node_by end_class edges)) }
    ensures apart { IfOk result (λ graph_nodes. IsLayer graph_nodes.items) }
{
    let mut graph_nodes = Vec::with_capacity(alloc, configurations.len())?;
    for (configuration, edges) in configurations.iter().zip(all) {
        graph_nodes.push(graph_node_by(end_classes[configuration.state], edges))?;
    }
    Ok(graph_nodes)
}
