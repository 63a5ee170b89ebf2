//! What searches find, beside what each list of turns comes to in a world of its own.
use crate::scenes::{REMOVED, TWO_MAKE, TWO_RESOLVE, scene_of};
use explore::{
    Beginnings, Class, End, Findings, Limits, Scene, Scope, SearchFault, Silent, explore,
};
use fixtures::{PLAIN, standing_of};
use path_text::NoMemory;
use race_core::{Outcomes, Planned, Report, World, like_outcomes};
use root_ops::{Op, Request};
use scripts::RunFault;
use std::alloc::Global;
use std::test::Fail;
use tree_list::ListTree;
use tree_model::{Actor, Tree, same_nodes};

/// The most turns of a list, and two to their power.
type Size = (u32, u32);

/// A script of two actors, how many lines the book has, and how long the lists are.
type Case = (&'static str, u32, Size);

/// Where there are few lines, steps are refused by how full the book is: an Open by one line less than is needed, or
/// by two, and then each other step.
const CASES: [Case; 8] = [
    (REMOVED, 100, (6, 64)),
    (TWO_MAKE, 100, (8, 256)),
    (TWO_RESOLVE, 100, (4, 16)),
    (TWO_RESOLVE, 3, (6, 64)),
    (TWO_RESOLVE, 4, (6, 64)),
    (TWO_RESOLVE, 5, (6, 64)),
    (TWO_RESOLVE, 6, (6, 64)),
    (TWO_RESOLVE, 7, (6, 64)),
];

/// Whether somebody has something left to do.
fn goes_on(world: &World<ListTree>) -> bool {
    world.has_turns(0) || world.has_turns(1)
}

/// The report on the list of turns that the number spells, the first turn its lowest bit, if that is a full list. After
/// its last turn all bits are 0.
fn report_of(alloc: Global, scene: &Scene, turns: u32, number: u32) -> Option<Report<ListTree>> {
    let mut world = scene.world(alloc).ok()?;
    let mut rest = number;
    let mut is_full = true;
    for _ in 0..turns {
        let actor = rest % 2;
        rest /= 2;
        if goes_on(&world) {
            is_full = is_full && world.has_turns(actor) && world.turn(alloc, actor).is_ok();
        } else {
            is_full = is_full && actor == 0;
        }
    }
    is_full = is_full && !goes_on(&world);
    let report = world.run(alloc, [].as_slice()).ok()?;
    if is_full { Some(report) } else { None }
}

/// Whether the calls of each actor ended in the same way but for the numbers of handles.
fn are_same_replies(replies: &[Outcomes], others: &[Outcomes]) -> bool {
    for (outcomes, another) in replies.iter().zip(others.iter()) {
        if !like_outcomes(outcomes.as_slice(), another.as_slice()) {
            return false;
        }
    }
    replies.len() == others.len()
}

/// Whether the trees have the same nodes, and the two actors as many handles open.
fn are_same_trees(alloc: Global, tree: &ListTree, other: &ListTree) -> Result<bool, NoMemory> {
    for number in 0..2 {
        if tree.held(Actor::new(number)) != other.held(Actor::new(number)) {
            return Ok(false);
        }
    }
    let (nodes, others) = (tree.snapshot(alloc)?, other.snapshot(alloc)?);
    Ok(same_nodes(nodes.nodes(), others.nodes()))
}

/// Whether the report has the class's outcome.
fn leads_to(
    alloc: Global,
    class: &Class<End<ListTree>>,
    report: &Report<ListTree>,
) -> Result<bool, NoMemory> {
    let least = &class.outcome.report;
    Ok(
        are_same_replies(least.replies.as_slice(), report.replies.as_slice())
            && are_same_trees(alloc, &least.tree, &report.tree)?,
    )
}

/// How many full lists lead to the class's outcome, of all numbers below that one.
fn lists_to(
    alloc: Global,
    scene: &Scene,
    size: Size,
    class: &Class<End<ListTree>>,
) -> Result<u64, NoMemory> {
    let (turns, numbers) = size;
    let mut lists: u64 = 0;
    for number in 0..numbers {
        if let Some(report) = report_of(alloc, scene, turns, number)
            && leads_to(alloc, class, &report)?
        {
            lists = lists.saturating_add(1);
        }
    }
    Ok(lists)
}

/// How many full lists there are.
fn full_lists(alloc: Global, scene: &Scene, size: Size) -> u64 {
    let (turns, numbers) = size;
    let mut lists: u64 = 0;
    for number in 0..numbers {
        if report_of(alloc, scene, turns, number).is_some() {
            lists = lists.saturating_add(1);
        }
    }
    lists
}

/// Whether as many lists lead to each class as is said, and to all classes as many as there are.
fn are_counted(
    alloc: Global,
    scene: &Scene,
    size: Size,
    found: &Findings<End<ListTree>>,
) -> Result<bool, NoMemory> {
    let mut all: u64 = 0;
    for class in &found.classes {
        if lists_to(alloc, scene, size, class)? != class.lists {
            return Ok(false);
        }
        all = all.saturating_add(class.lists);
    }
    Ok(all == found.lists && found.lists == full_lists(alloc, scene, size))
}

/// What is found of all lists.
fn found(alloc: Global, scene: &Scene) -> Result<Findings<End<ListTree>>, SearchFault> {
    let limits = Limits {
        states: 1_000,
        turns: 100,
        scope: Scope {
            cuts: None,
            begin: Vec::new(alloc),
        },
    };
    explore(alloc, scene, &limits, false, &mut Silent)
}

/// Whether the search finds what the lists come to, each by itself.
fn is_found(alloc: Global, scene: &Scene, size: Size) -> Result<bool, NoMemory> {
    match found(alloc, scene) {
        Ok(found) => are_counted(alloc, scene, size, &found),
        Err(_) => Ok(false),
    }
}

/// The place of the first case, from 0, of which something else is found.
fn first_wrong(alloc: Global) -> Result<Option<usize>, RunFault> {
    for (at, case) in CASES.iter().enumerate() {
        let (script, lines, size) = case;
        let mut scene = scene_of(alloc, script)?;
        scene.lines = *lines;
        if !is_found(alloc, &scene, *size)? {
            return Ok(Some(at));
        }
    }
    Ok(None)
}

#[test]
fn each_list_comes_to_what_is_found(rt: HostRuntime) -> Result<(), Fail> {
    assert_eq!(rt; first_wrong(rt.alloc())?, None);
    Ok(())
}

/// Two actors resolve `a`, and then the first one closes handle 3. That number isn't given yet as they begin; it is the
/// first one's if the other opens `a` before it.
fn scene_of_a_number(alloc: Global) -> Option<Scene> {
    let mut scene = scene_of(alloc, TWO_RESOLVE).ok()?;
    let standing = standing_of(alloc, 3, 0).ok()??;
    let op = Op::Release(standing);
    let plan = scene.plans.get_mut(0)?;
    let close = Planned::Call(Request { op, flags: PLAIN });
    plan.calls.push(close).ok()?;
    Some(scene)
}

/// How many outcomes there are, if what is found is what the lists come to.
fn outcomes_of_a_number(alloc: Global) -> Option<usize> {
    let scene = scene_of_a_number(alloc)?;
    if !is_found(alloc, &scene, (5, 32)).ok()? {
        return None;
    }
    let found = found(alloc, &scene).ok()?;
    Some(found.classes.len())
}

// The handle is closed, or it isn't the actor's.
#[test]
fn numbers_that_were_not_given_are_told_apart(rt: HostRuntime) {
    assert_eq!(rt; outcomes_of_a_number(rt.alloc()), Some(2));
}
