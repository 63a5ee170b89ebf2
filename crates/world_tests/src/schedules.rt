//! Every schedule of two actors, and turns one by one.
use crate::plans::{plans, tree, world_after};
use crate::told::{ran, tell_outcome};
use event_log::Output;
use fixtures::PLAIN;
use path_text::{Errno, NoMemory};
use race_core::{Report, WorldFault};
use std::alloc::Global;
use std::test::*;
use tree_list::ListTree;

// One digit of an interleaving for each turn.
fn schedule_of(alloc: Global, mut bits: u32, turns: u32) -> Result<Vec<u32>, NoMemory> {
    let mut schedule = Vec::new(alloc);
    for _ in 0..turns {
        schedule.push(bits % 2)?;
        bits /= 2;
    }
    Ok(schedule)
}

// How actor 0's first call ended.
fn first_outcome(alloc: Global, report: &Report<ListTree>) -> Result<Output, NoMemory> {
    let mut told = Output::new(alloc);
    if let Some(outcomes) = report.replies.first() {
        if let Some(outcome) = outcomes.as_slice().first() {
            tell_outcome(alloc, &mut told, outcome)?;
        }
    }
    Ok(told)
}

// A plan of two actors, how many turns they take together and actor 1 alone, how many schedules so many turns have, and
// the ends that actor 0's call may have.
type Interleaved = (&'static str, u32, u32, u32, &'static str);

const ALL: [Interleaved; 3] = [
    (
        "moved_out",
        14,
        7,
        16384,
        "opened dir 2 /a, fault EAGAIN, fault ENOENT",
    ),
    (
        "file_instead",
        10,
        4,
        1024,
        "opened file 4 /a/b/f, fault ENOTDIR, fault ENOENT, fault EAGAIN",
    ),
    (
        "link_instead",
        10,
        4,
        1024,
        "opened file 4 /a/b/f, fault ENOENT, fault EAGAIN",
    ),
];

// Which of these ends the first call has.
fn place_of(alloc: Global, report: &Report<ListTree>, ends: &str) -> Option<usize> {
    let told = first_outcome(alloc, report).ok()?;
    ends.split(", ")
        .position(|end| told.as_slice() == end.as_bytes())
}

// The same by that schedule.
fn end_by(
    alloc: Global,
    tree: &ListTree,
    all: &Interleaved,
    bits: u32,
) -> Result<Option<usize>, Errno> {
    let (text, turns, _, _, ends) = *all;
    let schedule = schedule_of(alloc, bits, turns)?;
    let plans = plans(alloc, text, PLAIN)?;
    match ran(alloc, tree.copy(alloc)?, plans, &schedule, 1000) {
        Ok(report) => {
            let place = place_of(alloc, &report, ends);
            drop(report);
            Ok(place)
        }
        Err(_) => Ok(None),
    }
}

// Whether the call has one of these ends, however the turns are interleaved, and each of them once at least.
fn has_all(alloc: Global, tree: &ListTree, all: &Interleaved) -> bool {
    let (_, _, others, schedules, ends) = *all;
    let mut seen = [false; 4];
    for bits in 0..schedules {
        if bits.count_ones() == others {
            match end_by(alloc, tree, all, bits) {
                Ok(Some(at)) if at < 4 => seen[at] = true,
                _ => return false,
            }
        }
    }
    seen.iter().filter(|is_seen| **is_seen).count() == ends.split(", ").count()
}

fn first_wrong(alloc: Global) -> Result<&'static str, Errno> {
    let tree = tree(alloc)?;
    for all in &ALL {
        if !has_all(alloc, &tree, all) {
            return Ok(all.0);
        }
    }
    Ok("")
}

#[test]
fn every_schedule_ends_so(rt: HostRuntime) {
    assert_eq!(rt; first_wrong(rt.alloc()), Ok(""));
}

// Whether there are so many events after each turn of actor 0, and so many once the world then ran to its end.
fn has_events(alloc: Global, text: &str, turns: &[usize], end: usize) -> Result<bool, WorldFault> {
    let mut world = world_after(alloc, text, &[])?;
    let mut all = true;
    for events in turns {
        all = world.turn(alloc, 0).is_ok() && world.book().events().len() == *events && all;
    }
    let report = world.run(alloc, &[])?;
    let is_end = report.events.len() == end;
    drop(report);
    Ok(all && is_end)
}

// A busy actor's turn is one step; a call that is done at its start takes its turn without one.
#[test]
fn a_turn_is_one_step(rt: HostRuntime) {
    let text = "/c: resolve a: release 5: list 0";
    assert!(rt; has_events(rt.alloc(), text, &[1, 2, 2, 3, 3], 3) == Ok(true));
}
