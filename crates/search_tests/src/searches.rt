//! Limits of searches, who is told how far they come, and how many states there are. What searches find are outputs of
//! `explore`.
use crate::scenes::{CARRIED_OUT, MOVED_OUT, REMOVED, TWO_RESOLVE, scene_of};
use explore::{Limits, Progress, Scene, Scope, SearchFault, explore};
use path_text::NoMemory;
use scripts::RunFault;
use std::alloc::Global;
use std::test::Fail;

/// The last number of states that was told.
#[derive(Drop)]
struct Last(u64);

impl Progress for Last {
    fn passed(&mut self, states: u64) {
        self.0 = states;
    }
}

/// The most cuts, and whether what is changed outside of roots is told.
type Which = (Option<u64>, bool);

/// A script, the most states and turns, and which lists; the numbers of lists, of states, of the longest list's turns
/// and of outcomes, or why nothing is told.
type Search = (&'static str, u64, u32, Which, Result<Found, SearchFault>);

/// All lists, those without a cut, and all with what is changed outside of roots.
const ALL: Which = (None, false);

const WHOLE: Which = (Some(0), false);

const OUTSIDE: Which = (None, true);

/// The most states and turns, and which lists: those with at most so many cuts that begin with these turns.
fn limits_of(
    alloc: Global,
    states: u64,
    turns: u32,
    cuts: Option<u64>,
    begin: &[u32],
) -> Result<Limits, NoMemory> {
    let mut first = Vec::new(alloc);
    first.extend_from_slice(begin)?;
    Ok(Limits {
        states,
        turns,
        scope: Scope { cuts, begin: first },
    })
}

type Found = (u64, u64, usize, usize);

const SEARCHES: [Search; 12] = [
    (REMOVED, 15, 6, ALL, Ok((6, 15, 6, 3))),
    (REMOVED, 14, 6, ALL, Err(SearchFault::TooManyStates)),
    (REMOVED, 15, 5, ALL, Err(SearchFault::TooManyTurns)),
    (REMOVED, 0, 6, ALL, Err(SearchFault::TooManyStates)),
    (REMOVED, 9, 6, WHOLE, Ok((2, 9, 6, 2))),
    (MOVED_OUT, 70, 14, ALL, Ok((3432, 70, 14, 3))),
    (MOVED_OUT, 37, 14, WHOLE, Ok((4, 37, 14, 2))),
    (MOVED_OUT, 36, 14, WHOLE, Err(SearchFault::TooManyStates)),
    (CARRIED_OUT, 47, 11, ALL, Ok((136, 47, 11, 3))),
    (CARRIED_OUT, 47, 11, OUTSIDE, Ok((136, 47, 11, 4))),
    // neither disturbs the other, and each has two turns: three worlds by three, whoever's handle has which number
    (TWO_RESOLVE, 9, 4, ALL, Ok((6, 9, 4, 1))),
    (TWO_RESOLVE, 8, 4, ALL, Err(SearchFault::TooManyStates)),
];

/// What is found, with 0 states where the last number that was told is another one.
fn found(
    alloc: Global,
    scene: &Scene,
    limits: &Limits,
    outside: bool,
) -> Result<Found, SearchFault> {
    let mut last = Last(0);
    let found = explore(alloc, scene, limits, outside, &mut last)?;
    let states = if last.0 == found.states { last.0 } else { 0 };
    Ok((found.lists, states, found.turns, found.classes.len()))
}

/// The place of the first search, from 0, that finds something else.
fn first_wrong(alloc: Global) -> Result<Option<usize>, RunFault> {
    for (at, (script, states, turns, which, wanted)) in SEARCHES.iter().enumerate() {
        let scene = scene_of(alloc, script)?;
        let (cuts, outside) = *which;
        let limits = limits_of(alloc, *states, *turns, cuts, [].as_slice())?;
        if found(alloc, &scene, &limits, outside) != *wanted {
            return Ok(Some(at));
        }
    }
    Ok(None)
}

#[test]
fn searches_keep_to_limits(rt: HostRuntime) -> Result<(), Fail> {
    assert_eq!(rt; first_wrong(rt.alloc())?, None);
    Ok(())
}

/// A script, the most turns, which lists, and the turns that they begin with; what is found then, or why nothing is.
type Part = (
    &'static str,
    u32,
    Which,
    &'static [u32],
    Result<Found, SearchFault>,
);

const PARTS: [Part; 9] = [
    (REMOVED, 6, ALL, &[0], Ok((5, 13, 6, 2))),
    (REMOVED, 6, ALL, &[1], Ok((1, 3, 2, 1))),
    (REMOVED, 6, ALL, &[0, 1, 0], Ok((1, 5, 4, 1))),
    (REMOVED, 6, ALL, &[0, 0, 0, 0, 0, 1], Ok((1, 7, 6, 1))),
    (REMOVED, 6, ALL, &[0, 1, 1], Err(SearchFault::NotBusy(2))),
    (REMOVED, 6, ALL, &[0, 2], Err(SearchFault::NotBusy(1))),
    (REMOVED, 6, WHOLE, &[0, 1], Err(SearchFault::TooManyCuts(1))),
    (REMOVED, 1, ALL, &[0, 1, 0], Err(SearchFault::TooManyTurns)),
    (MOVED_OUT, 14, WHOLE, &[1, 1], Ok((3, 27, 14, 2))),
];

/// The place of the first part, from 0, of which something else is found.
fn first_wrong_part(alloc: Global) -> Result<Option<usize>, RunFault> {
    for (at, (script, turns, which, begin, wanted)) in PARTS.iter().enumerate() {
        let scene = scene_of(alloc, script)?;
        let (cuts, outside) = *which;
        let limits = limits_of(alloc, 1_000, *turns, cuts, begin)?;
        let got = found(alloc, &scene, &limits, outside);
        if got != *wanted {
            return Ok(Some(at));
        }
    }
    Ok(None)
}

#[test]
fn lists_begin_as_is_asked_for(rt: HostRuntime) -> Result<(), Fail> {
    assert_eq!(rt; first_wrong_part(rt.alloc())?, None);
    Ok(())
}
