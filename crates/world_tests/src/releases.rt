//! The release of what is another owner's, by a copy of a world.
use crate::plans::tree;
use fixtures::{PLAIN, names_of, standing_of};
use handles::Standing;
use path_text::Errno;
use race_core::{ActorPlan, Planned, Plans, Report, World};
use root_ops::{Op, Request};
use std::alloc::Global;
use std::test::*;
use tree_list::ListTree;

// The plan of an actor at `/c` that is to release that.
fn plan_of(alloc: Global, standing: Standing) -> Result<ActorPlan, Errno> {
    let op = Op::Release(standing);
    let mut calls = Plans::new(alloc);
    calls.push(Planned::Call(Request { op, flags: PLAIN }))?;
    let root = names_of(alloc, "/c")?;
    Ok(ActorPlan { root, calls })
}

// The report on a world of that actor, which is copied after so many turns, and goes on as its copy.
fn report_of_copy(
    alloc: Global,
    plan: ActorPlan,
    turns: u32,
) -> Result<Option<Report<ListTree>>, Errno> {
    let mut plans = Vec::new(alloc);
    plans.push(plan)?;
    let Ok(mut world) = World::new(alloc, tree(alloc)?, plans, 100) else {
        return Ok(None);
    };
    for _ in 0..turns {
        let turned = world.turn(alloc, 0);
        drop(turned);
    }
    let copied = world.copy(alloc);
    world.give_up(alloc);
    match copied {
        Ok(copy) => Ok(copy.run(alloc, &[]).ok()),
        Err(_) => Ok(None),
    }
}

// Whether the report has as many events, outcomes and kept Standings, where an actor is to release what is the owner's
// with that tag, and its world is copied after so many turns.
fn releases(alloc: Global, tag: u64, turns: u32, wanted: [usize; 3]) -> Result<bool, Errno> {
    let Some(standing) = standing_of(alloc, 5, tag)? else {
        return Ok(false);
    };
    let plan = plan_of(alloc, standing)?;
    match report_of_copy(alloc, plan, turns)? {
        Some(report) => {
            let counts = [report.events.len(), report.replies.len(), report.kept.len()];
            drop(report);
            Ok(counts == wanted)
        }
        None => Ok(false),
    }
}

// What is another owner's comes back in the report, without an event, whether it is copied before or after.
#[test]
fn what_is_anothers_is_kept(rt: HostRuntime) {
    let alloc = rt.alloc();
    for turns in 0..2u32 {
        assert!(rt; releases(alloc, 7, turns, [0, 1, 1]) == Ok(true));
        assert!(rt; releases(alloc, 0, turns, [0, 1, 0]) == Ok(true));
    }
}
