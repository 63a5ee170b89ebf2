//! The transitions from a layer: of each state, the turns of all who may go from some configuration on it.
ghost use Rattle.std.specs.Prelude.{◌≡◌, ◌⊎◌, ◌<◌, ◌≤◌, ◌^◌, ℕ, List, length, Some, slice_get, IfOk, IfSome};
ghost use Rattle.layered_search.specs.declared.frontier.layer.Configuration.{Configuration};
ghost use Rattle.layered_search.specs.declared.frontier.transitions.Transition.{Transition};
ghost use Rattle.layered_search.specs.Distinct.{Keeps};
ghost use Rattle.layered_search.specs.Kept.{HaveKeys, layer_of};
ghost use Rattle.layered_search.specs.Points.{AreWithin};
ghost use Rattle.layered_search.specs.Transitions.{IsOf, IsOneOf, AreChoices, AreTransitions, AreAllChoices, AreNoTransitions};
ghost use Rattle.layered_search.specs.System.{state_after};

use crate::cost::{Cost, cost_by, may_go};
use crate::frontier::layer::{ACTORS_IN_PLACE, Layer};
use crate::limits::Bounds;
use crate::system::TransitionSystem;
use path_text::NoMemory;
use smallvec::SmallVec;
use std::alloc::Global;

/// An actor's turn from a state, and the first configuration on it from which the actor may go.
#[derive(Clone, Copy, Debug, Default, PartialEq, Eq)]
pub(crate) struct Transition {
    /// The place of the configuration among those of the layer.
    pub(crate) configuration: usize,
    pub(crate) actor: u8,
}

/// An actor who may have the next turn from a configuration.
#[derive(Clone, Copy, Debug, Default, PartialEq, Eq)]
pub(crate) struct Choice {
    pub(crate) actor: u8,
    /// What counts after its turn.
    pub(crate) cost: Cost,
    /// The place of its turn among the transitions from the configuration's state.
    pub(crate) at: usize,
}

// The place of the actor's transition.
fn place_of(transitions: &[Transition], actor: u8) -> Option<usize>
    ensures { IfSome result (λ at. IsOf transitions.now actor at) }
{
    for (at, known) in transitions.iter().enumerate() {
        if known.actor == actor {
            return Some(at);
        }
    }
    None
}

// The place of the actor's transition; one from that configuration is put after the others where there is none.
// NoMemory where its room was refused.
fn transition_at(
    transitions: &mut SmallVec<Transition, ACTORS_IN_PLACE>,
    configuration: usize,
    actor: u8,
) -> Result<usize, NoMemory>
    ensures keeps { Keeps transitions.old.items transitions.new.items }
    ensures there { IfOk result (λ at. IsOf transitions.new.items actor at) }
    ensures new { (j : ℕ) (one : Transition) → slice_get transitions.new.items j ≡ Some one
        → (slice_get transitions.old.items j ≡ Some one)
        ⊎ (one ≡ record { configuration = configuration; actor = actor }) }
{
    if let Some(at) = place_of(transitions.as_slice(), actor) {
        return Ok(at);
    }
    let at = transitions.len();
    transitions.push(Transition {
        configuration,
        actor,
    })?;
    Ok(at)
}

// All who may have the next turn from the configuration at that place, on the state of that key, with that cost. The
// state's transitions grow by theirs. NoMemory where room was refused.
fn choices_at<S: TransitionSystem>(
    alloc: Global,
    bounds: Bounds,
    configuration: usize,
    cost: Cost,
    system: &S,
    memory: &S::Memory,
    key: &S::Key,
    transitions: &mut SmallVec<Transition, ACTORS_IN_PLACE>,
) -> Result<SmallVec<Choice, ACTORS_IN_PLACE>, NoMemory>
    requires few { (S.system system.now).actors ≤ 64 }
    requires known { (n : ℕ) × ((v : S.State) × (S.keys system.now).IsKey memory.now n v key.now) }
    requires within { AreWithin cost (2 ^ 40) }
    ensures keeps { IfOk result (λ choices. Keeps transitions.old.items transitions.new.items) }
    ensures new { IfOk result (λ choices. (n : ℕ) (is : List ℕ)
        → (S.keys system.now).IsKey memory.now n (state_after (S.system system.now) is) key.now
        → (j : ℕ) (one : Transition) → slice_get transitions.new.items j ≡ Some one
        → (slice_get transitions.old.items j ≡ Some one)
        ⊎ IsOneOf (S.system system.now) bounds configuration
        (record { state = state_after (S.system system.now) is; cost = cost }) one) }
    ensures choices { IfOk result (λ choices. (n : ℕ) (is : List ℕ)
        → (S.keys system.now).IsKey memory.now n (state_after (S.system system.now) is) key.now
        → AreChoices (S.system system.now) bounds
        (record { state = state_after (S.system system.now) is; cost = cost })
        transitions.new.items choices.items) }
{
    let mut choices = SmallVec::with_capacity(alloc, system.actors(key))?;
    for number in 0..system.actors(key) {
        let actor = number as u8;
        if may_go(system, memory, key, cost, bounds, actor) {
            let at = transition_at(transitions, configuration, actor)?;
            choices.push(Choice {
                actor,
                cost: cost_by(system, memory, key, cost, actor),
                at,
            })?;
        }
    }
    Ok(choices)
}

// No transitions from each of so many states.
fn no_transitions(
    alloc: Global,
    states: usize,
) -> Result<Vec<SmallVec<Transition, ACTORS_IN_PLACE>>, NoMemory>
    ensures { IfOk result (λ transitions. AreNoTransitions states transitions.items) }
{
    let mut transitions = Vec::with_capacity(alloc, states)?;
    for _at in 0..states {
        transitions.push(SmallVec::new(alloc))?;
    }
    Ok(transitions)
}

/// The transitions from each state of the layer, and of each configuration all who may have the next turn. NoMemory
/// where room was refused.
pub(crate) fn listed<S: TransitionSystem>(
    alloc: Global,
    bounds: Bounds,
    system: &S,
    memory: &S::Memory,
    layer: &Layer<S::Key>,
) -> Result<
    (
        Vec<SmallVec<Transition, ACTORS_IN_PLACE>>,
        Vec<SmallVec<Choice, ACTORS_IN_PLACE>>,
    ),
    NoMemory,
>
    requires few { (S.system system.now).actors ≤ 64 }
    requires known { (n : ℕ) × HaveKeys (S.system system.now) (S.keys system.now) memory.now n layer.now.states.items }
    requires within { (t : ℕ) (configuration : Configuration)
        → slice_get layer.now.configurations.items t ≡ Some configuration
        → AreWithin configuration.cost (2 ^ 40) }
    requires on { (t : ℕ) (configuration : Configuration)
        → slice_get layer.now.configurations.items t ≡ Some configuration
        → configuration.state < length layer.now.states.items }
    ensures transitions { IfOk result (λ listed. (n : ℕ)
        → HaveKeys (S.system system.now) (S.keys system.now) memory.now n layer.now.states.items
        → AreTransitions (S.system system.now) bounds (layer_of layer.now) listed.0.items) }
    ensures choices { IfOk result (λ listed. (n : ℕ)
        → HaveKeys (S.system system.now) (S.keys system.now) memory.now n layer.now.states.items
        → AreAllChoices (S.system system.now) bounds (layer_of layer.now) listed.0.items listed.1.items) }
{
    let mut transitions = no_transitions(alloc, layer.states.len())?;
    let mut all = Vec::with_capacity(alloc, layer.configurations.len())?;
    for at in 0..layer.configurations.len() {
        let configuration = &layer.configurations[at];
        let (key, those) = (
            &layer.states[configuration.state].key,
            &mut transitions[configuration.state],
        );
        let choices = choices_at(
            alloc,
            bounds,
            at,
            configuration.cost,
            system,
            memory,
            key,
            those,
        )?;
        all.push(choices)?;
    }
    Ok((transitions, all))
}
