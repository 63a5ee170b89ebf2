//! Worlds after different turns that are the same but for the numbers of handles, and some that aren't.
use crate::plans::{turns, world_after};
use event_log::Output;
use fixtures::column;
use path_text::NoMemory;
use race_core::{World, WorldFault};
use std::alloc::Global;
use tree_list::ListTree;

// Tells the handles of actor 0, one by one.
fn tell_handles(alloc: Global, world: &World<ListTree>, told: &mut Output) -> Result<(), NoMemory> {
    let mut handles = Vec::new(alloc);
    if world.actors() > 0 {
        world.push_handles(0, &mut handles)?;
    }
    for handle in &handles {
        told.text(" ")?;
        told.number(handle.number())?;
    }
    Ok(())
}

// Tells of each actor whether it is alike in both worlds.
fn tell_each(
    world: &World<ListTree>,
    other: &World<ListTree>,
    told: &mut Output,
) -> Result<(), NoMemory> {
    told.text(" by actor:")?;
    for actor in 0..world.actors() {
        if actor < other.actors() {
            let is_like = world.is_like_at(other, actor);
            told.text(if is_like { " like" } else { " unlike" })?;
        }
    }
    Ok(())
}

// Tells whether the worlds are alike, and each actor in them, and the handles of actor 0 in both.
fn tell(
    alloc: Global,
    world: &World<ListTree>,
    other: &World<ListTree>,
    told: &mut Output,
) -> Result<(), NoMemory> {
    let is_like = world.is_like(other);
    told.text(if is_like { "like" } else { "unlike" })?;
    tell_each(world, other, told)?;
    told.text(" with")?;
    tell_handles(alloc, world, told)?;
    told.text(" and")?;
    tell_handles(alloc, other, told)
}

// Whether that is told of the two worlds, each of which then runs to its end.
fn tells(alloc: Global, world: World<ListTree>, other: World<ListTree>, wanted: &str) -> bool {
    let mut told = Output::new(alloc);
    let is_told = tell(alloc, &world, &other, &mut told).is_ok();
    drop(world.run(alloc, &[]));
    drop(other.run(alloc, &[]));
    is_told && told.as_slice() == wanted.as_bytes()
}

// Plans, the turns of a world and those of another, and what is told of them then.
const PAIRS: &str = "\
both_open | 01 | 10 | like by actor: like like with 0 0 2 and 0 0 3
both_open | 0 | 1 | unlike by actor: unlike unlike with 0 0 2 and 0
both_open | 00111 | 11100 | like by actor: like like with 0 2 and 0 3
both_open | 00111 | 0011 | unlike by actor: like unlike with 0 2 and 0 2
one_moves | 001 | 10 | unlike by actor: unlike like with 0 2 and 0
both_make | 01 | 10 | like by actor: like like with 0 and 0
one_lists | 01 | 10 | unlike by actor: unlike like with 0 and 0";

// Whether that is told of the two worlds.
fn compares(alloc: Global, row: &str) -> Result<bool, WorldFault> {
    let (text, rest) = column(row);
    let (digits, rest) = column(rest);
    let (others, wanted) = column(rest);
    let turns_here = turns(alloc, digits).map_err(|_| WorldFault::NoMemory)?;
    let turns_there = turns(alloc, others).map_err(|_| WorldFault::NoMemory)?;
    let world = world_after(alloc, text, &turns_here)?;
    match world_after(alloc, text, &turns_there) {
        Ok(other) => Ok(tells(alloc, world, other, wanted)),
        Err(fault) => {
            drop(world.run(alloc, &[]));
            Err(fault)
        }
    }
}

#[test]
fn worlds_are_compared_but_for_handles(rt: HostRuntime) {
    for row in PAIRS.lines() {
        assert!(rt; compares(rt.alloc(), row) == Ok(true), "{row}");
    }
}
