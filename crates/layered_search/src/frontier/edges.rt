//! The edges from each configuration of a layer: the turns of all who may have the next one.
ghost use Rattle.std.specs.Prelude.{◌≡◌, ◌⊎◌, ◌<◌, ℕ, length, Some, slice_get, IsTrue, ◌↔◌, IfOk, IfSome};
ghost use Rattle.layered_search.specs.declared.frontier.layer.Configuration.{Configuration};
ghost use Rattle.layered_search.specs.declared.frontier.transitions.Choice.{Choice};
ghost use Rattle.layered_search.specs.Distinct.{Keeps};
ghost use Rattle.layered_search.specs.Layers.{IsThere};
ghost use Rattle.layered_search.specs.Merged.{bounded_cuts};
ghost use Rattle.layered_search.specs.Spreading.{IsConfigurationAs, IsConfigurationBy, AreConfigurationsBy, IsEdgeTo, AreEdgesTo, AreFit, AreEdgesOfAll};

use crate::cost::Cost;
use crate::frontier::layer::{ACTORS_IN_PLACE, Configuration, turns_and};
use crate::frontier::transitions::Choice;
use crate::limits::Bounds;
use path_text::NoMemory;
use schedule_graph::{EDGES_IN_PLACE, Edge, Place};
use smallvec::SmallVec;
use std::alloc::Global;
use std::collections::HashMap;

// Whether the cuts are the same, where they are bounded.
fn same_cuts(most: Option<u64>, cuts: u64, others: u64) -> bool
    ensures { IsTrue result ↔ (bounded_cuts most cuts ≡ bounded_cuts most others) }
{
    most.is_none() || cuts == others
}

// Whether the configuration is on that state, with what counts from then on.
fn is_configuration_as(
    bounds: Bounds,
    state: usize,
    cost: Cost,
    configuration: &Configuration,
) -> bool
    ensures { IsTrue result ↔ IsConfigurationAs bounds state cost configuration.now }
{
    configuration.state == state
        && configuration.cost.last == cost.last
        && same_cuts(bounds.cuts, configuration.cost.cuts, cost.cuts)
}

// By which number a configuration on that state is looked up: by its cuts only where they are bounded.
fn print_of(bounds: Bounds, state: usize, cost: Cost) -> u64 {
    let last = match cost.last {
        Some(last) => u64::from(last) + 1,
        None => 0,
    };
    let cuts = match bounds.cuts {
        Some(_) => cost.cuts,
        None => 0,
    };
    let with_last = (state as u64).wrapping_mul(65).wrapping_add(last);
    with_last.wrapping_mul(65_537).wrapping_add(cuts)
}

// Whether the configuration at that place is on that state, with what counts from then on.
fn is_there(
    configurations: &[Configuration],
    at: usize,
    bounds: Bounds,
    state: usize,
    cost: Cost,
) -> bool
    ensures { IsTrue result → IsThere bounds state cost configurations.now at }
{
    if at < configurations.len() && is_configuration_as(bounds, state, cost, &configurations[at]) {
        return true;
    }
    false
}

// The place of such a configuration, which is looked up by that number.
fn place_of(
    configurations: &[Configuration],
    table: &HashMap<u64, usize>,
    print: u64,
    bounds: Bounds,
    state: usize,
    cost: Cost,
) -> Option<usize>
    ensures { IfSome result (λ t. IsThere bounds state cost configurations.now t) }
{
    let at = table.get(&print).copied()?;
    if is_there(configurations, at, bounds, state, cost) {
        return Some(at);
    }
    None
}

// The place of a configuration on that state, with what counts after the choice from the other configuration; it is put
// after the others where none is. NoMemory where its room was refused.
fn configuration_at(
    alloc: Global,
    bounds: Bounds,
    configuration: &Configuration,
    choice: &Choice,
    state: usize,
    next: &mut Vec<Configuration>,
    table: &mut HashMap<u64, usize>,
) -> Result<usize, NoMemory>
    ensures keeps { Keeps next.old.items next.new.items }
    ensures there { IfOk result (λ t. IsThere bounds state choice.now.cost next.new.items t) }
    ensures new { (t : ℕ) (successor : Configuration) → slice_get next.new.items t ≡ Some successor
        → (slice_get next.old.items t ≡ Some successor)
        ⊎ IsConfigurationBy configuration.now choice.now state successor }
{
    let cost = choice.cost;
    let print = print_of(bounds, state, cost);
    if let Some(at) = place_of(next.as_slice(), table, print, bounds, state, cost) {
        return Ok(at);
    }
    let at = next.len();
    let turns = turns_and(alloc, configuration.turns.as_slice(), choice.actor)?;
    table.insert(print, at)?;
    next.push(Configuration { state, turns, cost })?;
    Ok(at)
}

// The edge of that choice to a configuration on the next layer's state at that place. NoMemory where its room was
// refused.
fn edge_to(
    alloc: Global,
    bounds: Bounds,
    configuration: &Configuration,
    choice: &Choice,
    state: usize,
    next: &mut Vec<Configuration>,
    table: &mut HashMap<u64, usize>,
) -> Result<Edge, NoMemory>
    ensures keeps { Keeps next.old.items next.new.items }
    ensures configurations { (t : ℕ) (successor : Configuration) → slice_get next.new.items t ≡ Some successor
        → (slice_get next.old.items t ≡ Some successor)
        ⊎ IsConfigurationBy configuration.now choice.now state successor }
    ensures edge { IfOk result (λ edge. IsEdgeTo bounds configuration.now choice.now state next.new.items edge) }
{
    let to = configuration_at(alloc, bounds, configuration, choice, state, next, table)?;
    Ok(Edge {
        label: choice.actor,
        cut: choice.cost.cuts != configuration.cost.cuts,
        change: choice.cost.changes != configuration.cost.changes,
        to: Place::of(to),
    })
}

// The edges of these choices from that configuration, to states at these places. The next layer's configurations grow
// by what they lead to. NoMemory where room was refused.
fn edges_from(
    alloc: Global,
    bounds: Bounds,
    configuration: &Configuration,
    choices: &[Choice],
    places: &[usize],
    next: &mut Vec<Configuration>,
    table: &mut HashMap<u64, usize>,
) -> Result<SmallVec<Edge, EDGES_IN_PLACE>, NoMemory>
    requires at { (k : ℕ) (choice : Choice) → slice_get choices.now k ≡ Some choice → choice.at < length places.now }
    ensures keeps { IfOk result (λ edges. Keeps next.old.items next.new.items) }
    ensures configurations { IfOk result (λ edges.
        AreConfigurationsBy configuration.now choices.now places.now next.old.items next.new.items) }
    ensures edges { IfOk result (λ edges.
        AreEdgesTo bounds configuration.now choices.now places.now next.new.items edges.items) }
{
    let mut edges = SmallVec::with_capacity(alloc, choices.len())?;
    for at in 0..choices.len() {
        let choice = &choices[at];
        let state = places[choice.at];
        let edge = edge_to(alloc, bounds, configuration, choice, state, next, table)?;
        edges.push(edge)?;
    }
    Ok(edges)
}

/// The edges of all choices from each configuration, to states at the places of the transitions from its state; and the
/// next layer's configurations, to which they lead. NoMemory where room was refused.
pub(crate) fn all_edges(
    alloc: Global,
    bounds: Bounds,
    configurations: &[Configuration],
    choices: &[SmallVec<Choice, ACTORS_IN_PLACE>],
    places: &[SmallVec<usize, ACTORS_IN_PLACE>],
) -> Result<(Vec<SmallVec<Edge, EDGES_IN_PLACE>>, Vec<Configuration>), NoMemory>
    requires many { length choices.now ≡ length configurations.now }
    requires fit { AreFit configurations.now choices.now places.now }
    ensures { IfOk result (λ all.
        AreEdgesOfAll bounds configurations.now choices.now places.now all.1.items all.0.items) }
{
    let mut next = Vec::new(alloc);
    let mut table = HashMap::with_capacity(alloc, configurations.len())?;
    let mut all = Vec::with_capacity(alloc, configurations.len())?;
    for at in 0..configurations.len() {
        let configuration = &configurations[at];
        let (those, places) = (
            choices[at].as_slice(),
            places[configuration.state].as_slice(),
        );
        let edges = edges_from(
            alloc,
            bounds,
            configuration,
            those,
            places,
            &mut next,
            &mut table,
        )?;
        all.push(edges)?;
    }
    Ok((all, next))
}
