//! A layer's states are gone on from, one after another.
ghost use Rattle.std.specs.Prelude.{◌≡◌, ◌<◌, ◌≤◌, ◌+◌, suc, ℕ, length, IfOk, IfErr, OnOk};
ghost use Rattle.layered_search.specs.Limits.{LimitsView};
ghost use Rattle.layered_search.specs.Asked.{WhyNot, bounds_at};
ghost use Rattle.layered_search.specs.Distinct.{Keeps};
ghost use Rattle.layered_search.specs.Expanded.{Expansion, IsExpansion, CanGoOn, AreThere, IsTaken, AreTaken, IsNext, AreExpanded};
ghost use Rattle.layered_search.specs.Found.{AreTold, found_of};
ghost use Rattle.layered_search.specs.Marked.{AreLookedUp};
ghost use Rattle.layered_search.specs.States.{AreStatesAmong, IsCounted};

use crate::found::Found;
use crate::frontier::ends::end_class_of;
use crate::frontier::layer::{ACTORS_IN_PLACE, Configuration, Layer, Visited};
use crate::frontier::transitions::Transition;
use crate::frontier::visited_set::{VisitedSet, count_states, no_states, put};
use crate::system::TransitionSystem;
use path_text::NoMemory;
use schedule_graph::SearchFault;
use smallvec::SmallVec;
use std::alloc::Global;

/// What the states of a layer came to.
#[derive(Drop)]
pub(crate) struct Passed<K> {
    /// The next layer's states.
    pub(crate) known: VisitedSet<K>,
    /// Of each state the class of what it comes to, where nobody had anything left to do.
    pub(crate) end_classes: Vec<Option<usize>>,
    /// Of each state the places, among the next layer's, of those after its transitions.
    pub(crate) places: Vec<SmallVec<usize, ACTORS_IN_PLACE>>,
    /// How many of the next layer's states are new ones.
    pub(crate) states: u64,
}

// The place of the state after that transition of the state. NoMemory where room was refused.
fn place_after<S: TransitionSystem>(
    alloc: Global,
    system: &S,
    memory: &mut S::Memory,
    visited: &Visited<S::Key>,
    configuration: &Configuration,
    actor: u8,
    known: &mut VisitedSet<S::Key>,
) -> Result<usize, NoMemory>
    requires can { CanGoOn (S.system system.now) (S.keys system.now) memory.old visited.now }
    requires there { actor < (S.system system.now).actors }
    requires looked_up { AreLookedUp (S.keys system.now) known.old.states.items known.old.table }
    ensures looked_up { AreLookedUp (S.keys system.now) known.new.states.items known.new.table }
    ensures taken { IfOk result (λ at.
        IsTaken (S.system system.now) (S.keys system.now) visited.now configuration.now actor memory.old memory.new
        known.old.states.items known.new.states.items at) }
{
    let turns = visited.turns.as_slice();
    let key = system.next(alloc, memory, &visited.key, turns, actor)?;
    put(
        alloc,
        system,
        known,
        key,
        configuration.turns.as_slice(),
        actor,
    )
}

// The places of the states after these transitions of the state. NoMemory where room was refused.
fn places_of<S: TransitionSystem>(
    alloc: Global,
    system: &S,
    memory: &mut S::Memory,
    configurations: &[Configuration],
    visited: &Visited<S::Key>,
    transitions: &[Transition],
    known: &mut VisitedSet<S::Key>,
) -> Result<SmallVec<usize, ACTORS_IN_PLACE>, NoMemory>
    requires can { CanGoOn (S.system system.now) (S.keys system.now) memory.old visited.now }
    requires there { AreThere (S.system system.now) configurations.now transitions.now }
    requires looked_up { AreLookedUp (S.keys system.now) known.old.states.items known.old.table }
    ensures looked_up { AreLookedUp (S.keys system.now) known.new.states.items known.new.table }
    ensures taken { IfOk result (λ places. AreTaken (S.system system.now) (S.keys system.now) configurations.now
        visited.now transitions.now memory.old memory.new known.old.states.items known.new.states.items
        places.items) }
{
    let mut places = SmallVec::with_capacity(alloc, transitions.len())?;
    for at in 0..transitions.len() {
        let one = transitions[at];
        let configuration = &configurations[one.configuration];
        let place = place_after(
            alloc,
            system,
            memory,
            visited,
            configuration,
            one.actor,
            known,
        )?;
        places.push(place)?;
    }
    Ok(places)
}

// The state is gone on from by these transitions. NoMemory where room was refused.
fn take_in<S: TransitionSystem>(
    alloc: Global,
    system: &S,
    memory: &mut S::Memory,
    configurations: &[Configuration],
    visited: &Visited<S::Key>,
    transitions: &[Transition],
    passed: &mut Passed<S::Key>,
    found: &mut Vec<Found<S::Outcome>>,
) -> Result<(), NoMemory>
    requires few { (S.system system.now).actors ≤ 64 }
    requires can { CanGoOn (S.system system.now) (S.keys system.now) memory.old visited.now }
    requires there { AreThere (S.system system.now) configurations.now transitions.now }
    requires told { AreTold (S.system system.now) (S.outcomes system.now) found.old.items }
    requires looked_up { AreLookedUp (S.keys system.now) passed.old.known.states.items passed.old.known.table }
    ensures looked_up { AreLookedUp (S.keys system.now) passed.new.known.states.items passed.new.known.table }
    ensures told { OnOk result (AreTold (S.system system.now) (S.outcomes system.now) found.new.items) }
    ensures expanded { OnOk result ((g : Expansion (S.system system.now) (S.keys system.now))
        → AreExpanded (S.system system.now) (S.keys system.now) g memory.old passed.old.known.states.items
        passed.old.end_classes.items passed.old.places.items (found_of found.old.items)
        → IsNext (S.system system.now) (S.keys system.now) g configurations.now
        (length passed.old.end_classes.items) visited.now transitions.now
        → AreExpanded (S.system system.now) (S.keys system.now) g memory.new passed.new.known.states.items
        passed.new.end_classes.items passed.new.places.items (found_of found.new.items)) }
    ensures more { OnOk result (length passed.new.end_classes.items ≡ suc (length passed.old.end_classes.items)) }
    ensures keeps { OnOk result (Keeps passed.old.known.states.items passed.new.known.states.items) }
    ensures states { OnOk result (passed.new.states ≡ passed.old.states) }
{
    let end_class = end_class_of(alloc, system, memory, visited, found)?;
    let places = places_of(
        alloc,
        system,
        memory,
        configurations,
        visited,
        transitions,
        &mut passed.known,
    )?;
    passed.places.push(places)?;
    passed.end_classes.push(end_class)?;
    Ok(())
}

/// Goes on from the states of the layer by these transitions.
///
/// Errors: TooManyStates where the next layer would have more new ones than so many; NoMemory where room was refused.
pub(crate) fn go_on<S: TransitionSystem>(
    alloc: Global,
    system: &S,
    room: u64,
    layer: &Layer<S::Key>,
    transitions: &[SmallVec<Transition, ACTORS_IN_PLACE>],
    memory: &mut S::Memory,
    found: &mut Vec<Found<S::Outcome>>,
) -> Result<Passed<S::Key>, SearchFault>
    requires few { (S.system system.now).actors ≤ 64 }
    requires told { AreTold (S.system system.now) (S.outcomes system.now) found.old.items }
    requires expansion { (g : Expansion (S.system system.now) (S.keys system.now))
        × IsExpansion (S.system system.now) (S.keys system.now) g memory.old layer.now transitions.now
        (found_of found.old.items) }
    ensures told { OnOk result (AreTold (S.system system.now) (S.outcomes system.now) found.new.items) }
    ensures expanded { IfOk result (λ passed. (g : Expansion (S.system system.now) (S.keys system.now))
        → IsExpansion (S.system system.now) (S.keys system.now) g memory.old layer.now transitions.now
        (found_of found.old.items)
        → AreExpanded (S.system system.now) (S.keys system.now) g memory.new passed.known.states.items
        passed.end_classes.items passed.places.items (found_of found.new.items)
        × (length passed.end_classes.items ≡ length layer.now.states.items)) }
    ensures room { IfOk result (λ passed. passed.states ≤ room) }
    ensures states { IfOk result (λ passed. AreStatesAmong (S.system system.now) (S.keys system.now)
        passed.known.states.items (length passed.known.states.items) passed.states) }
    ensures err { (limits : LimitsView) (g : Expansion (S.system system.now) (S.keys system.now)) (states : ℕ)
        → IsExpansion (S.system system.now) (S.keys system.now) g memory.old layer.now transitions.now
        (found_of found.old.items) → g.bounds ≡ bounds_at limits.scope g.n
        → IsCounted (S.system system.now) (S.keys system.now) memory.old limits.scope g.n states layer.now
        → states + room ≡ limits.states → IfErr result (WhyNot (S.system system.now) limits) }
{
    let mut passed = Passed {
        known: no_states(system, alloc),
        end_classes: Vec::new(alloc),
        places: Vec::new(alloc),
        states: 0,
    };
    let configurations = layer.configurations.as_slice();
    for at in 0..layer.states.len() {
        let (visited, those) = (&layer.states[at], transitions[at].as_slice());
        let had = passed.known.states.len();
        take_in(
            alloc,
            system,
            memory,
            configurations,
            visited,
            those,
            &mut passed,
            found,
        )?;
        passed.states += count_states(passed.known.states.as_slice(), had);
        if passed.states > room {
            system.counts_states(memory);
            return Err(SearchFault::TooManyStates);
        }
    }
    Ok(passed)
}
