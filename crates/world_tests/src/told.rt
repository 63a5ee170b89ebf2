//! What is told of a world's report, as lines of text.
use event_log::{EventLog, Output};
use path_text::NoMemory;
use race_core::{ActorPlan, Outcome, Outcomes, Report, World, WorldFault};
use std::alloc::Global;
use tree_model::{Actor, Tree};

/// The report on a world of that room that was run by that schedule.
pub fn ran<T: Tree + Drop>(
    alloc: Global,
    tree: T,
    plans: Vec<ActorPlan>,
    schedule: &[u32],
    room: u32,
) -> Result<Report<T>, WorldFault> {
    World::new(alloc, tree, plans, room)?.run(alloc, schedule)
}

/// Tells how a call ended, with no newline.
pub fn tell_outcome(alloc: Global, told: &mut Output, outcome: &Outcome) -> Result<(), NoMemory> {
    match outcome {
        Outcome::Opened { node, kind, names } => told.opened_words(alloc, *kind, *node, names),
        Outcome::Fault(error) => told.fault_words(*error),
        Outcome::Text(text) => told.escaped(text.as_slice()),
        Outcome::Done => told.text("done"),
        Outcome::Count(count) => {
            told.text("count ")?;
            told.number(*count)
        }
        Outcome::Stepped(answer) => {
            told.text("stepped ")?;
            told.answer(alloc, answer)
        }
    }
}

// How many of the events are the actor's.
fn own_events(events: &EventLog, actor: Actor) -> u64 {
    let mut own = 0u64;
    for at in 0..events.len() {
        if events.actor(at) == actor {
            own = own.saturating_add(1);
        }
    }
    own
}

// Of an actor: how many handles it holds, and how its calls ended.
fn tell_actor<T: Tree>(
    alloc: Global,
    told: &mut Output,
    tree: &T,
    actor: Actor,
    outcomes: &Outcomes,
) -> Result<(), NoMemory> {
    told.text("held ")?;
    told.number(tree.held(actor) as u64)?;
    for outcome in outcomes.as_slice() {
        told.text(", ")?;
        tell_outcome(alloc, told, outcome)?;
    }
    told.text(";")
}

/// Of each actor: how many handles it holds, and how its calls ended, as `held 1, done;`; and before that where it is
/// wanted how many events are its own.
pub fn tell<T: Tree>(
    alloc: Global,
    told: &mut Output,
    report: &Report<T>,
    with_events: bool,
) -> Result<(), NoMemory> {
    let mut number = 0u32;
    for outcomes in &report.replies {
        let actor = Actor::new(number);
        told.text(if number == 0 { "" } else { " " })?;
        if with_events {
            told.number(own_events(&report.events, actor))?;
            told.text(" ")?;
        }
        tell_actor(alloc, told, &report.tree, actor, outcomes)?;
        number = number.saturating_add(1);
    }
    Ok(())
}

/// Whether what is told of the report, with the numbers of events, begins so.
pub fn begins<T: Tree>(alloc: Global, report: &Report<T>, wanted: &str) -> bool {
    let mut told = Output::new(alloc);
    let is_told = tell(alloc, &mut told, report, true).is_ok();
    is_told && told.as_slice().starts_with(wanted.as_bytes())
}
