//! Seats that are kept apart from their worlds, without what came of the calls; and that, compared.
use crate::plans::{turns, world_after};
use path_text::NoMemory;
use race_core::{Outcome, World, WorldFault, is_like_outcome};
use std::alloc::Global;
use tree_list::ListTree;

// Whether each outcome is like that of the same place, and so is its copy.
fn are_like(alloc: Global, outcomes: &[Outcome], others: &[Outcome]) -> Result<bool, NoMemory> {
    if outcomes.len() != others.len() {
        return Ok(false);
    }
    for (at, outcome) in outcomes.iter().enumerate() {
        let copy = outcome.copy(alloc)?;
        let other = &others[at];
        if !is_like_outcome(outcome, other) || !is_like_outcome(&copy, other) {
            return Ok(false);
        }
    }
    Ok(true)
}

// What is found of the first actor of two worlds: how many of its calls have ended in each, whether they ended alike,
// whether all else is alike, and how many events the first world has got once a copy of that was given up in it.
type Found = (usize, usize, bool, bool, usize);

fn compared(
    alloc: Global,
    world: &mut World<ListTree>,
    other: &World<ListTree>,
) -> Result<Found, NoMemory> {
    if world.actors() == 0 || other.actors() == 0 {
        return Err(NoMemory);
    }
    let (outcomes, others) = (world.outcomes(0), other.outcomes(0));
    let (here, there) = (outcomes.len(), others.len());
    let ended_alike = are_like(alloc, outcomes, others)?;
    let seat = other.seat_without_outcomes(alloc, 0)?;
    let is_like = world.is_like_seat(0, &seat);
    let events = world.book().events().len();
    world.give_up_seat(alloc, seat);
    let closes = world.book().events().len().saturating_sub(events);
    Ok((here, there, ended_alike, is_like, closes))
}

// The same of worlds of these plans, after these turns and after others.
fn found(alloc: Global, text: &str, digits: &str, others: &str) -> Result<Found, WorldFault> {
    let turns_here = turns(alloc, digits).map_err(|_| WorldFault::NoMemory)?;
    let turns_there = turns(alloc, others).map_err(|_| WorldFault::NoMemory)?;
    let mut world = world_after(alloc, text, &turns_here)?;
    let other = match world_after(alloc, text, &turns_there) {
        Ok(other) => other,
        Err(fault) => {
            world.give_up(alloc);
            return Err(fault);
        }
    };
    let found = compared(alloc, &mut world, &other);
    world.give_up(alloc);
    other.give_up(alloc);
    found.map_err(|_| WorldFault::NoMemory)
}

// Plans, the turns of two worlds, and what is found of their first actor.
const ROWS: [(&str, &str, &str, Found); 6] = [
    // The walk has opened a handle, which is closed.
    ("both_open", "0", "0", (0, 0, true, true, 1)),
    // Two walks have a handle each, whose numbers differ.
    ("both_open", "01", "10", (0, 0, true, true, 0)),
    ("both_open", "0", "1", (0, 0, true, false, 0)),
    ("both_open", "001", "100", (1, 1, true, true, 0)),
    // A listing has a name more before it is removed.
    ("one_lists", "01", "10", (1, 1, false, true, 0)),
    ("both_make", "0", "", (1, 0, false, false, 0)),
];

#[test]
fn seats_are_compared_without_outcomes(rt: HostRuntime) {
    for (at, (text, digits, others, wanted)) in ROWS.iter().enumerate() {
        assert!(rt;
            found(rt.alloc(), text, digits, others) == Ok(*wanted),
            "row {at}"
        );
    }
}
