//! All full lists of turns, by layers of merged states.
ghost use Rattle.std.specs.Prelude.{◌≡◌, ◌<◌, ◌≤◌, ◌+◌, ◌^◌, ◌++◌, ◌∷◌, [], ℕ, List, Some, length, slice_get, IfOk, IfErr, OnOk};
ghost use Rattle.std.specs.Global.{Vec};
ghost use Rattle.smallvec.specs.SmallVec.{SmallVec as Row};
ghost use Rattle.schedule_graph.specs.declared.graph.Node.{Node};
ghost use Rattle.schedule_graph.specs.declared.graph.Edge.{Edge};
ghost use Rattle.layered_search.specs.Limits.{LimitsView, ScopeView, limits_of, scope_of};
ghost use Rattle.layered_search.specs.declared.frontier.layer.Configuration.{Configuration};
ghost use Rattle.layered_search.specs.Asked.{IsOnWay, AreStates, WhyNot, bounds_at};
ghost use Rattle.layered_search.specs.Concluded.{AreShort};
ghost use Rattle.layered_search.specs.Found.{AreTold, found_of, views_of, TellOutcomes, AreClassesOf};
ghost use Rattle.layered_search.specs.Kept.{AreKept, IsFirstOf, layer_of};
ghost use Rattle.layered_search.specs.Layers.{LayerView, AreOn, IsPassed, HasSearched};
ghost use Rattle.layered_search.specs.Promise.{IsMerged};
ghost use Rattle.layered_search.specs.Spreading.{AreApartChoices, AreFit, AreEdgesOfAll, AreGraphNodesBy};
ghost use Rattle.layered_search.specs.States.{IsCounted};

use crate::begin::can_begin;
use crate::cost::no_cost;
use crate::found::{Class, Findings, Found};
use crate::frontier::edges::all_edges;
use crate::frontier::ends::graph_nodes_of;
use crate::frontier::layer::{ACTORS_IN_PLACE, Configuration, Layer, Visited};
use crate::frontier::passing::{Passed, go_on};
use crate::frontier::transitions::{Choice, listed};
use crate::limits::{Bounds, Limits, SearchFault};
use crate::progress::Progress;
use crate::system::TransitionSystem;
use path_text::NoMemory;
use schedule_graph::{Count, Graph};
use smallvec::SmallVec;
use std::alloc::Global;

// The layer of no turns, of one state of that key. NoMemory where room was refused.
fn first<K: Drop>(alloc: Global, key: K) -> Result<Layer<K>, NoMemory>
    ensures { IfOk result (IsFirstOf key) }
{
    let configuration = Configuration {
        state: 0,
        turns: SmallVec::new(alloc),
        cost: no_cost(),
    };
    let mut configurations = Vec::new(alloc);
    configurations.push(configuration)?;
    let visited = Visited {
        key,
        turns: SmallVec::new(alloc),
        is_new: true,
    };
    let mut states = Vec::new(alloc);
    states.push(visited)?;
    Ok(Layer {
        states,
        configurations,
    })
}

// The next layer's configurations. The graph nodes of this layer's configurations are added to the graph: an end where
// the configuration's state has a class, and else the edges of its choices. NoMemory where room was refused.
fn spread(
    alloc: Global,
    bounds: Bounds,
    configurations: &[Configuration],
    choices: &[SmallVec<Choice, ACTORS_IN_PLACE>],
    places: &[SmallVec<usize, ACTORS_IN_PLACE>],
    end_classes: &[Option<usize>],
    graph: &mut Graph,
) -> Result<Vec<Configuration>, NoMemory>
    requires many { length choices.now ≡ length configurations.now }
    requires fit { AreFit configurations.now choices.now places.now }
    requires apart { AreApartChoices choices.now }
    requires on { (t : ℕ) (configuration : Configuration) → slice_get configurations.now t ≡ Some configuration
        → configuration.state < length end_classes.now }
    ensures { IfOk result (λ next. (all : List (Row Edge))
        × ((graph_nodes : Vec Node) × ((graph.new ≡ graph.old ++ graph_nodes ∷ [])
        × (AreEdgesOfAll bounds configurations.now choices.now places.now next.items all
        × AreGraphNodesBy configurations.now end_classes.now all graph_nodes.items)))) }
{
    let (edges, next) = all_edges(alloc, bounds, configurations, choices, places)?;
    let graph_nodes = graph_nodes_of(alloc, configurations, end_classes, edges)?;
    graph.push_layer(graph_nodes)?;
    Ok(next)
}

// Goes from one layer on to the next: what its states come to is found, and the graph nodes of its configurations are
// added to the graph. The next layer, and how many states it has.
//
// Errors: TooManyStates where it would have more than so many; NoMemory where room was refused.
fn pass<S: TransitionSystem>(
    alloc: Global,
    system: &S,
    bounds: Bounds,
    room: u64,
    layer: &Layer<S::Key>,
    memory: &mut S::Memory,
    graph: &mut Graph,
    found: &mut Vec<Found<S::Outcome>>,
) -> Result<(Layer<S::Key>, u64), SearchFault>
    requires actors { (S.system system.now).actors ≤ 64 }
    requires few { length graph.old + 1 < 2 ^ 40 }
    requires on { AreOn (length graph.old) (layer_of layer.now) }
    requires kept { AreKept (S.system system.now) (S.keys system.now) memory.old (length graph.old) layer.now }
    requires told { AreTold (S.system system.now) (S.outcomes system.now) found.old.items }
    ensures told { OnOk result (AreTold (S.system system.now) (S.outcomes system.now) found.new.items) }
    ensures kept { IfOk result (λ next. AreKept (S.system system.now) (S.keys system.now) memory.new
        (length graph.old + 1) next.0) }
    ensures passed { IfOk result (λ next. (graph_nodes : Vec Node)
        × ((graph.new ≡ graph.old ++ graph_nodes ∷ [])
        × IsPassed (S.system system.now) bounds (length graph.old) (layer_of layer.now) (layer_of next.0)
        graph_nodes.items (found_of found.old.items) (found_of found.new.items))) }
    ensures room { IfOk result (λ next. next.1 ≤ room) }
    ensures counted { IfOk result (λ next. (scope : ScopeView) (states : ℕ)
        → bounds ≡ bounds_at scope (length graph.old)
        → IsCounted (S.system system.now) (S.keys system.now) memory.old scope (length graph.old) states layer.now
        → IsCounted (S.system system.now) (S.keys system.now) memory.new scope (length graph.old + 1)
        (states + next.1) next.0) }
    ensures err { (limits : LimitsView) (states : ℕ) → bounds ≡ bounds_at limits.scope (length graph.old)
        → IsCounted (S.system system.now) (S.keys system.now) memory.old limits.scope (length graph.old) states
        layer.now → states + room ≡ limits.states → IfErr result (WhyNot (S.system system.now) limits) }
{
    let (transitions, choices) = listed(alloc, bounds, system, memory, layer)?;
    let transitions = transitions.as_slice();
    let passed = go_on(alloc, system, room, layer, transitions, memory, found)?;
    system.counts_states(memory);
    let Passed {
        known,
        end_classes,
        places,
        states,
    } = passed;
    let (choices, places, end_classes) = (
        choices.as_slice(),
        places.as_slice(),
        end_classes.as_slice(),
    );
    let those = layer.configurations.as_slice();
    let configurations = spread(alloc, bounds, those, choices, places, end_classes, graph)?;
    Ok((
        Layer {
            states: known.states,
            configurations,
        },
        states,
    ))
}

// Goes from layer to layer until nobody may have a turn; how many states there were.
//
// Errors: TooManyTurns where a list has more turns than the limit; TooManyStates where there are more states than the
// limit; NoMemory where room was refused.
fn layers<S: TransitionSystem, P: Progress>(
    alloc: Global,
    system: &S,
    limits: &Limits,
    progress: &mut P,
    key: S::Key,
    memory: &mut S::Memory,
    graph: &mut Graph,
    found: &mut Vec<Found<S::Outcome>>,
) -> Result<u64, SearchFault>
    requires actors { (S.system system.now).actors ≤ 64 }
    requires begins { IsOnWay (S.system system.now) (scope_of limits.now.scope) limits.now.scope.begin.items }
    requires sound { (S.keys system.now).IsSound memory.old }
    requires key { (S.keys system.now).IsKey memory.old 0 (S.system system.now).begin key }
    requires graph { graph.old ≡ [] }
    requires found { found.old.items ≡ [] }
    requires states { 1 ≤ limits.now.states }
    ensures searched { OnOk result ((last : LayerView)
        × ((last.configurations ≡ [])
        × HasSearched (S.system system.now) (scope_of limits.now.scope) last graph.new (found_of found.new.items))) }
    ensures told { OnOk result (AreTold (S.system system.now) (S.outcomes system.now) found.new.items) }
    ensures states { IfOk result (λ states. states ≤ limits.now.states) }
    ensures counted { IfOk result (λ states. AreStates (S.system system.now) (scope_of limits.now.scope) states) }
    ensures depth { OnOk result (length graph.new < 2 ^ 40) }
    ensures err { IfErr result (WhyNot (S.system system.now) (limits_of limits.now)) }
{
    let mut states = 1;
    system.counts_states(memory);
    let mut layer = first(alloc, key)?;
    'layers: while !layer.configurations.is_empty() && graph.depth() <= limits.turns as usize {
        let room = limits.states - states;
        let bounds = limits.scope.bounds(graph.depth());
        let (next, more) = pass(alloc, system, bounds, room, &layer, memory, graph, found)?;
        layer = next;
        states += more;
        progress.passed(states);
    }
    if layer.configurations.is_empty() {
        return Ok(states);
    }
    Err(SearchFault::TooManyTurns)
}

// Goes from layer to layer from the beginning; how many states there were.
//
// Errors: TooManyActors over 64; of the turns that all lists are to begin with, as of `can_begin`; TooManyTurns where a
// list has more turns than the limit; TooManyStates where there are more states than the limit; NoMemory where room was
// refused.
fn go_through<S: TransitionSystem, P: Progress>(
    alloc: Global,
    system: &S,
    limits: &Limits,
    progress: &mut P,
    graph: &mut Graph,
    found: &mut Vec<Found<S::Outcome>>,
) -> Result<u64, SearchFault>
    requires graph { graph.old ≡ [] }
    requires found { found.old.items ≡ [] }
    ensures searched { OnOk result ((last : LayerView)
        × ((last.configurations ≡ [])
        × HasSearched (S.system system.now) (scope_of limits.now.scope) last graph.new (found_of found.new.items))) }
    ensures told { OnOk result (AreTold (S.system system.now) (S.outcomes system.now) found.new.items) }
    ensures states { IfOk result (λ states. states ≤ limits.now.states) }
    ensures counted { IfOk result (λ states. AreStates (S.system system.now) (scope_of limits.now.scope) states) }
    ensures depth { OnOk result (length graph.new < 2 ^ 40) }
    ensures err { IfErr result (WhyNot (S.system system.now) (limits_of limits.now)) }
{
    let (mut memory, key) = system.begin(alloc)?;
    if let Err(fault) = can_begin(alloc, system, limits, &mut memory, &key) {
        system.give_up(alloc, memory);
        return Err(fault);
    }
    if limits.states == 0 {
        system.give_up(alloc, memory);
        return Err(SearchFault::TooManyStates);
    }
    let states = layers(
        alloc,
        system,
        limits,
        progress,
        key,
        &mut memory,
        graph,
        found,
    );
    system.give_up(alloc, memory);
    states
}

// The turns of a list that has a byte for each. NoMemory where their room was refused.
fn turns_of(alloc: Global, list: &[u8]) -> Result<Vec<u32>, NoMemory>
    ensures { IfOk result (λ turns. turns.items ≡ list.now) }
{
    let mut turns = Vec::with_capacity(alloc, list.len())?;
    for actor in list {
        turns.push(u32::from(*actor))?;
    }
    Ok(turns)
}

// The outcomes with their counts, in order. NoMemory where room was refused.
fn classes_of<O: Drop>(
    alloc: Global,
    found: Vec<Found<O>>,
    counts: &[Count],
) -> Result<Vec<Class<O>>, NoMemory>
    requires many { length counts.now ≡ length found.items }
    requires short { AreShort counts.now }
    ensures { IfOk result (λ classes. AreClassesOf found.items counts.now classes.items) }
{
    let mut classes = Vec::with_capacity(alloc, counts.len())?;
    for (one, count) in found.into_iter().zip(counts) {
        let Some(least) = &count.least else {
            unreachable!();
        };
        let Found { turns: _, outcome } = one;
        classes.push(Class {
            outcome,
            least: turns_of(alloc, least.word.as_slice())?,
            cuts: least.cuts,
            changes: least.changes,
            lists: count.words,
        })?;
    }
    Ok(classes)
}

/// Goes through every full list of turns of that scope, and finds each outcome once, with the number of its lists and
/// the least of them. Of states with the same key one is gone on from. After each layer `progress` learns how many
/// states there were.
///
/// Errors: TooManyActors over 64; of the turns that all lists are to begin with, NotBusy and TooManyCuts of the first
/// that can't be taken; TooManyTurns where a list has more turns than the limit; TooManyStates where there are more
/// states than the limit; NoMemory where room was refused. There are no findings then.
pub fn search<S: TransitionSystem, P: Progress>(
    alloc: Global,
    system: &S,
    limits: &Limits,
    progress: &mut P,
) -> Result<Findings<S::Outcome>, SearchFault>
    ensures merged { IfOk result (λ found. IsMerged (S.system system.now) (scope_of limits.now.scope)
        (views_of found.classes.items) found.lists found.turns) }
    ensures outcomes { IfOk result (λ found.
        TellOutcomes (S.system system.now) (S.outcomes system.now) found.classes.items) }
    ensures states { IfOk result (λ found. found.states ≤ limits.now.states) }
    ensures counted { IfOk result (λ found. AreStates (S.system system.now) (scope_of limits.now.scope) found.states) }
    ensures err { IfErr result (WhyNot (S.system system.now) (limits_of limits.now)) }
{
    let mut graph = Graph::new(alloc);
    let mut found = Vec::new(alloc);
    let states = go_through(alloc, system, limits, progress, &mut graph, &mut found)?;
    let counts = graph.counted(alloc, found.len())?;
    let classes = classes_of(alloc, found, counts.classes.as_slice())?;
    Ok(Findings {
        classes,
        lists: counts.all.words,
        turns: counts.all.longest,
        states,
    })
}
