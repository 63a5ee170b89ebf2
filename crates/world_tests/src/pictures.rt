//! How much can be drawn. What is drawn, as text and as SVG, are outputs of `draw`.
use drawings::{
    CallWords, Closes, Picture, PictureFault, calls_of, rows_fit, svg_is_well_formed,
    xml_text_is_plain,
};
use event_log::EventLog;
use fixtures::base_tree;
use path_text::{Errno, Names, NoMemory};
use race_core::{ActorPlan, Plans};
use std::alloc::Global;
use std::test::Fail;
use tree_model::{Actor, Answer, HandleNo, StepOf};

/// A case: so many actors, who call for nothing, and so many handles that are closed, drawn or not; and why there is no
/// picture, or how many actors, lines of its heading and other lines it has.
type Case = (u32, u32, Closes, Result<(u64, usize, usize), PictureFault>);

const CASES: [Case; 7] = [
    (0, 10, Closes::Hidden, Err(PictureFault::Actors)),
    (1, 0, Closes::Hidden, Ok((1, 1, 0))),
    (4, 2000, Closes::Hidden, Ok((4, 4, 0))),
    (4, 2001, Closes::Hidden, Err(PictureFault::Lines)),
    (5, 2001, Closes::Hidden, Err(PictureFault::Actors)),
    (2, 1998, Closes::Shown, Ok((2, 2, 1998))),
    (2, 1999, Closes::Shown, Err(PictureFault::Lines)),
];

fn calls_for(alloc: Global, actors: u32) -> Result<Vec<CallWords>, NoMemory> {
    let mut plans = Vec::new(alloc);
    for _ in 0..actors {
        plans.push(ActorPlan {
            root: Names::new(alloc),
            calls: Plans::new(alloc),
        })?;
    }
    calls_of(alloc, &plans)
}

fn closed(alloc: Global, times: u32) -> Result<EventLog, NoMemory> {
    let mut log = EventLog::new(alloc);
    for _ in 0..times {
        log.push(
            Actor::new(0),
            &StepOf::Close(HandleNo::new(0)),
            &Answer::Done,
        )?;
    }
    Ok(log)
}

fn picture_of(
    alloc: Global,
    calls: &[CallWords],
    events: &EventLog,
    closes: Closes,
) -> Result<Result<Picture, PictureFault>, Errno> {
    let tree = base_tree(alloc)?;
    Ok(Picture::of(alloc, tree, calls, events, &[], closes))
}

fn size_of(picture: &Picture) -> (u64, usize, usize) {
    (
        picture.actors(),
        picture.heads().len(),
        picture.lines().len(),
    )
}

/// Whether what is drawn has the wanted size, or isn't drawn for the wanted reason.
fn is_drawn(alloc: Global, case: &Case) -> Result<bool, Errno> {
    let (actors, times, closes, wanted) = case;
    let calls = calls_for(alloc, *actors)?;
    let events = closed(alloc, *times)?;
    Ok(match picture_of(alloc, &calls, &events, *closes)? {
        Ok(picture) => *wanted == Ok(size_of(&picture)),
        Err(fault) => *wanted == Err(fault),
    })
}

#[test]
fn keeps_to_its_limits(rt: HostRuntime) -> Result<(), Fail> {
    xml_text_is_plain();
    svg_is_well_formed();
    rows_fit();
    for (at, case) in CASES.iter().enumerate() {
        assert!(rt; is_drawn(rt.alloc(), case)?, "case {at}");
    }
    Ok(())
}
