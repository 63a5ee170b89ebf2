//! What is kept of worlds, each once; changes outside of roots, as they are counted; and who lacked memory.
ghost use Rattle.std.specs.Prelude.{◌≡◌, ◌≤◌, [], ℕ, length, IfOk};
ghost use Rattle.race_core.specs.declared.opening.TheConstants.{ACTORS_MAX};
ghost use Rattle.local_states.specs.Counting.{IsTally};
ghost use Rattle.local_states.specs.Keys.{AreRows};
ghost use Rattle.local_states.specs.Local.{AreNumbered};

use crate::scenes::{CARRIED_OUT, REMOVED, TWO_MAKE, TWO_RESOLVE, scene_of};
use explore::{Beginnings, Scene};
use local_states::{
    Components, Key, Own, Tally, out_of_memory_is_told, reports_without_out_of_memory_are_one,
    same_parts_go_alike, tells_out_of_memory, turns_are_local,
};
use path_text::{Errno, NoMemory};
use race_core::{ACTORS_MAX, Outcome, Outcomes, World};
use scripts::RunFault;
use smallvec::SmallVec;
use std::alloc::Global;
use std::test::Fail;
use tree_list::ListTree;
use tree_model::{Answer, Tree};

// A new world, in which no step was made yet, of few actors.
fn world_of(alloc: Global, scene: &Scene) -> Result<World<ListTree>, NoMemory>
    ensures few { IfOk result (λ world. length world.seats ≤ ACTORS_MAX) }
    ensures fresh { IfOk result (λ world. world.book.events ≡ []) }
    ensures numbered { IfOk result (λ world. AreNumbered world.seats) }
{
    let world = scene.world(alloc)?;
    if world.actors() > ACTORS_MAX {
        world.give_up(alloc);
        return Err(NoMemory);
    }
    Ok(world)
}

/// The places of a world's nodes, and of its first and its second actor's part.
type Places = (usize, usize, usize);

// The places at which they are put.
fn put(
    alloc: Global,
    components: &mut Components,
    world: &World<ListTree>,
) -> Result<Places, NoMemory>
    requires rows { AreRows components.old.parts (length world.now.seats) }
    requires numbered { AreNumbered world.now.seats }
    ensures rows { (n : ℕ) → AreRows components.old.parts n → AreRows components.new.parts n }
{
    if world.actors() < 2 {
        return Err(NoMemory);
    }
    let tree = world.book().tree().snapshot(alloc)?;
    let nodes = components.put_nodes(alloc, tree.nodes(), 0)?;
    let first = components.put_part(alloc, world, tree.handles(), 0)?;
    let second = components.put_part(alloc, world, tree.handles(), 1)?;
    Ok((nodes, first, second))
}

// The same of a new world.
fn put_new(alloc: Global, components: &mut Components, scene: &Scene) -> Result<Places, NoMemory>
    requires { AreRows components.old.parts 2 }
    ensures { AreRows components.new.parts 2 }
{
    let world = world_of(alloc, scene)?;
    let places = if world.actors() == 2 {
        put(alloc, components, &world)
    } else {
        Err(NoMemory)
    };
    world.give_up(alloc);
    places
}

/// A key of a world at these places, in which nothing has happened.
fn key_at(alloc: Global, places: Places) -> Result<Key, NoMemory> {
    let (nodes, first, second) = places;
    let mut own = SmallVec::new(alloc);
    own.push(Own {
        part: first,
        outside: 0,
    })?;
    own.push(Own {
        part: second,
        outside: 0,
    })?;
    Ok(Key {
        nodes,
        events: 0,
        opened: 0,
        closed: 0,
        own,
    })
}

// Whether both actors, and no third, have something left to do there, and neither has begun it.
fn are_busy(components: &Components, key: &Key) -> bool {
    components.is_busy(key, 0)
        && components.is_busy(key, 1)
        && !components.is_busy(key, 2)
        && !components.is_within_call(key, 0)
        && !components.is_within_call(key, 2)
}

/// Whether one world, met twice, has one place, and another one places of its own.
fn are_once(alloc: Global, components: &mut Components, scenes: &[Scene]) -> Result<bool, NoMemory>
    requires { AreRows components.old.parts 2 }
{
    let [scene, other] = scenes else {
        return Ok(false);
    };
    let places = put_new(alloc, components, scene)?;
    let elsewhere = put_new(alloc, components, other)?;
    let again = put_new(alloc, components, scene)?;
    components.are_interned();
    let key = key_at(alloc, places)?;
    Ok(
        are_places(&places, 0)
            && are_places(&elsewhere, 1)
            && are_places(&again, 0)
            && are_busy(components, &key),
    )
}

fn are_places(places: &Places, at: usize) -> bool {
    let (nodes, first, second) = places;
    *nodes == at && *first == at && *second == at
}

// Whether what is kept of both scenes is kept once.
fn is_kept_once(alloc: Global, told: bool, scenes: &[Scene]) -> Result<bool, NoMemory> {
    let Some(scene) = scenes.first() else {
        return Ok(false);
    };
    let mut scrap = world_of(alloc, scene)?;
    let Ok(mut components) = Components::new(alloc, told, 2) else {
        scrap.give_up(alloc);
        return Err(NoMemory);
    };
    let is_told = components.told() == told;
    let so = are_once(alloc, &mut components, scenes);
    components.give_up(alloc, &mut scrap);
    scrap.give_up(alloc);
    Ok(so? && is_told)
}

fn components_are_once(alloc: Global, told: bool) -> Result<bool, RunFault> {
    let mut scenes = Vec::new(alloc);
    scenes.push(scene_of(alloc, REMOVED)?)?;
    scenes.push(scene_of(alloc, TWO_MAKE)?)?;
    Ok(is_kept_once(alloc, told, scenes.as_slice())?)
}

#[test]
fn nodes_and_parts_are_kept_once(rt: HostRuntime) -> Result<(), Fail> {
    assert!(rt; components_are_once(rt.alloc(), false)?);
    assert!(rt; components_are_once(rt.alloc(), true)?);
    Ok(())
}

// Takes the turns, and counts what they change outside of roots.
fn follow(
    alloc: Global,
    world: &mut World<ListTree>,
    tally: &mut Tally,
    turns: &[u32],
) -> Result<(), NoMemory>
    requires { IsTally world.old tally.old }
{
    for actor in turns {
        let events = world.book().events().len();
        if world.turn(alloc, *actor).is_err() {
            return Err(NoMemory);
        }
        tally.follow(alloc, world, events)?;
    }
    Ok(())
}

/// A script, whether changes are told, the turns; and how many each of two actors has made outside of its root.
type Counted = (&'static str, bool, &'static [u32], [u64; 2]);

/// In the first script the second actor moves `a` out of the first one's root, and the first one makes a directory in
/// it, after that or before it. The first one's turns are its steps: it opens `a`, looks where it is, and makes.
#[rattlefmt::skip]
const COUNTED: [Counted; 5] = [
    (CARRIED_OUT, true, &[0, 0, 1, 1, 1, 1, 1, 1, 1, 1, 0], [1, 0]),
    (CARRIED_OUT, true, &[0, 0, 0, 1, 1, 1, 1, 1, 1, 1, 1], [0, 0]),
    (CARRIED_OUT, true, &[], [0, 0]),
    (CARRIED_OUT, false, &[0, 0, 1, 1, 1, 1, 1, 1, 1, 1, 0], [0, 0]),
    (TWO_RESOLVE, true, &[0, 0, 1, 1], [0, 0]),
];

// Whether each has made as many as it is to have made; where changes aren't told no numbers are.
fn has_counted(tally: Tally, told: bool, wanted: [u64; 2]) -> bool {
    let (first, second) = (tally.changes_of(0), tally.changes_of(1));
    let nobody = tally.changes_of(2);
    let counts = tally.into_counts();
    let listed = counts.len() == if told { 2 } else { 0 };
    first == wanted[0] && second == wanted[1] && nobody == 0 && listed
}

fn is_counted(alloc: Global, counted: &Counted) -> Result<bool, RunFault> {
    let (script, told, turns, wanted) = counted;
    let scene = scene_of(alloc, script)?;
    let mut world = world_of(alloc, &scene)?;
    let Ok(mut tally) = Tally::of(alloc, &world, *told) else {
        world.give_up(alloc);
        return Err(RunFault::NoMemory);
    };
    let followed = follow(alloc, &mut world, &mut tally, turns);
    world.give_up(alloc);
    followed?;
    Ok(has_counted(tally, *told, *wanted))
}

#[test]
fn changes_outside_of_roots_are_counted(rt: HostRuntime) {
    for (at, counted) in COUNTED.iter().enumerate() {
        assert!(rt; is_counted(rt.alloc(), counted) == Ok(true), "row {at}");
    }
}

/// Whether somebody lacked memory where the first actor's only call was done, and the second's second call ended so.
fn lacks(alloc: Global, outcome: Outcome) -> Result<bool, NoMemory> {
    let mut first = Outcomes::new(alloc);
    first.push(Outcome::Done)?;
    let mut second = Outcomes::new(alloc);
    second.push(Outcome::Count(1))?;
    second.push(outcome)?;
    let mut replies = Vec::new(alloc);
    replies.push(first)?;
    replies.push(second)?;
    Ok(tells_out_of_memory(replies.as_slice()))
}

#[test]
fn who_lacks_memory_is_told(rt: HostRuntime) -> Result<(), Fail> {
    let alloc = rt.alloc();
    assert!(rt; lacks(alloc, Outcome::Fault(Errno::NoMemory))?);
    assert!(rt; !lacks(alloc, Outcome::Fault(Errno::NotFound))?);
    assert!(rt; !lacks(alloc, Outcome::Stepped(Answer::Refused(Errno::NoMemory)))?);
    assert!(rt; !tells_out_of_memory(&[]));
    Ok(())
}

// The laws are called as a caller has them at hand. They do nothing.
#[test]
fn laws_are_at_hand() {
    turns_are_local();
    same_parts_go_alike();
    out_of_memory_is_told();
    reports_without_out_of_memory_are_one();
}
