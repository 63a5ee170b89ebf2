//! Four sessions on four threads, and whether the closed history tells of each reply.
use crate::calling::{Base, On, Part, held, on_threads, opened, write_reply};
use event_log::{EventLog, Output};
use fixtures::names_of;
use path_text::{Errno, Names, NoMemory};
use root_ops::Reply;
use sessions::{
    Closed, Gate, Pause, Service, Session, calls_stand_in_order, each_call_tells_in_threads,
    services_tell, walks_tell_in_threads,
};
use std::alloc::Global;
use std::sync::atomic::{AtomicU64, Ordering};
use std::sync::{Mutex, Wait};
use std::thread::Threads;
use tree_list::ListTree;
use tree_model::{Actor, Answer, Event, HandleNo, Kind, Node, StepOf, Tree};
use tree_slab::SlabTree;

/// How many calls each of four sessions makes, releases apart.
const ROUNDS: u32 = 900;

/// Counts the steps that are made.
#[derive(Drop)]
struct Counts {
    steps: AtomicU64,
}

impl Gate for Counts {
    fn between(&self, _pause: Pause) {
        self.steps.fetch_add(1, Ordering::SeqCst);
    }
}

/// The calls of a session as it saw them: how many steps it had made after each, and the lines of the replies. What
/// found no memory to be noted is missing.
#[derive(Drop)]
struct Seen {
    actor: Actor,
    steps: Vec<u64>,
    lines: Output,
}

// Notes a call.
fn note(alloc: Global, seen: &mut Seen, gate: &Counts, reply: &Reply) {
    let _ = seen.steps.push(gate.steps.load(Ordering::SeqCst));
    let _ = write_reply(alloc, reply, &mut seen.lines);
}

/// What the four sessions do on their threads, and what they saw.
#[derive(Drop)]
struct Mixing<'a, T: Tree, R: Wait> {
    on: On<'a, T, R>,
    all: Mutex<Vec<Seen>>,
}

impl<'a, T: Tree, R: Wait> Mixing<'a, T, R> {
    // Makes one call, releases what it opened, and notes both.
    fn calls(&self, session: &mut Session, gate: &Counts, asked: &str, seen: &mut Seen) {
        let reply = self.on.ask(session, gate, asked);
        note(self.on.alloc, seen, gate, &reply);
        if let Some(standing) = held(reply) {
            let reply = self.on.release(session, gate, standing);
            note(self.on.alloc, seen, gate, &reply);
            drop(reply);
        }
    }

    // Renames a directory there and back under the others' walks, and opens below it.
    fn mixes(&self, session: &mut Session, seen: &mut Seen) {
        let gate = Counts {
            steps: AtomicU64::new(0),
        };
        for round in 0..ROUNDS {
            let asked = match round % 4 {
                0 => "rename a z",
                1 => "a/b/f",
                2 => "rename z a",
                _ => "z/b/../b/f",
            };
            self.calls(session, &gate, asked, seen);
        }
    }
}

impl<'a, T: Base, R: Wait + Sync> Part for Mixing<'a, T, R> {
    fn takes(&self, session: &mut Session) {
        let mut seen = Seen {
            actor: session.owner().actor,
            steps: Vec::new(self.on.alloc),
            lines: Output::new(self.on.alloc),
        };
        self.mixes(session, &mut seen);
        drop(self.all.lock(self.on.rt).push(seen));
    }
}

// What the sessions saw, each on a thread of its own.
fn all_mix<T: Base, R: Wait + Threads + Sync>(
    rt: &R,
    alloc: Global,
    service: &Service<T>,
    sessions: &mut [Session],
) -> Vec<Seen> {
    let mixing = Mixing {
        on: On::new(rt, alloc, service),
        all: Mutex::new(Vec::new(alloc)),
    };
    on_threads(rt, sessions, &mixing);
    mixing.all.into_inner()
}

/// What the events of one call come to: the names that its walk has passed, what it opened last, and the place of the
/// last event but for the closings.
#[derive(Drop)]
struct Told {
    passed: Names,
    last: Option<(HandleNo, Node, Kind)>,
    end: Option<usize>,
}

// The event at a place.
fn event_at(alloc: Global, events: &EventLog, at: usize) -> Result<Event, NoMemory> {
    if at < events.len() {
        events.event(alloc, at)
    } else {
        Err(NoMemory)
    }
}

// What a walk opened, by a name, by `..` or at its root.
fn pass(passed: &mut Names, step: &StepOf<HandleNo>) -> Result<(), NoMemory> {
    match step {
        StepOf::Open(_, name) => return passed.push_bytes(name.bytes()),
        StepOf::Parent(_) if !passed.is_empty() => passed.pop(),
        _ => passed.clear(),
    }
    Ok(())
}

// One event more.
fn take(told: &mut Told, at: usize, event: &Event) -> Result<(), NoMemory> {
    if matches!(event.step, StepOf::Close(_)) {
        return Ok(());
    }
    told.end = Some(at);
    if let Answer::Opened { handle, node, kind } = &event.answer {
        told.last = Some((*handle, *node, *kind));
        return pass(&mut told.passed, &event.step);
    }
    Ok(())
}

// The reply where the walk ends with this place: what was opened last, at the names that were passed; or elsewhere.
fn judge(
    alloc: Global,
    told: &Told,
    handle: HandleNo,
    names: &Names,
    lines: &mut Output,
) -> Result<(), NoMemory> {
    match told.last {
        Some((last, node, kind)) if last == handle && names.same(&told.passed) => {
            lines.opened(alloc, kind, node, names)
        }
        _ => lines.fault(Errno::Raced),
    }
}

// The reply that the last event but for the closings allows.
fn tell_end(alloc: Global, told: &Told, event: &Event, lines: &mut Output) -> Result<(), NoMemory> {
    match (&event.step, &event.answer) {
        (_, Answer::Opened { .. }) => lines.text("goes on\n"),
        (StepOf::NameBelow(_, handle), Answer::Names(names)) => {
            judge(alloc, told, *handle, names, lines)
        }
        (StepOf::NameBelow(_, _), Answer::NotBelow) => lines.fault(Errno::Raced),
        (StepOf::Rename(_, _, _, _, _), Answer::Done) => lines.text("done\n"),
        (_, Answer::Refused(error)) => lines.fault(*error),
        _ => lines.text("no step of these calls\n"),
    }
}

// What these events come to.
fn take_all(
    alloc: Global,
    events: &EventLog,
    places: &[usize],
    told: &mut Told,
) -> Result<(), NoMemory> {
    for at in places {
        let event = event_at(alloc, events, *at)?;
        let taken = take(told, *at, &event);
        drop(event);
        taken?;
    }
    Ok(())
}

// The line that the events of one call tell. A call of closings alone is a Release.
fn tell_told(
    alloc: Global,
    events: &EventLog,
    told: &Told,
    lines: &mut Output,
) -> Result<(), NoMemory> {
    let Some(at) = told.end else {
        return lines.text("done\n");
    };
    let event = event_at(alloc, events, at)?;
    let written = tell_end(alloc, told, &event, lines);
    drop(event);
    written
}

fn tell(
    alloc: Global,
    events: &EventLog,
    places: &[usize],
    lines: &mut Output,
) -> Result<(), NoMemory> {
    let mut told = Told {
        passed: Names::new(alloc),
        last: None,
        end: None,
    };
    let taken = take_all(alloc, events, places, &mut told);
    let written = tell_told(alloc, events, &told, lines);
    drop(told);
    taken.and(written)
}

// The lines that an actor's events tell, where so many were made after each of its calls.
fn tell_all(
    alloc: Global,
    events: &EventLog,
    own: &[usize],
    steps: &[u64],
    lines: &mut Output,
) -> Result<(), NoMemory> {
    let mut from = 0;
    for step in steps {
        let to = *step as usize;
        match own.get(from..to) {
            Some(places) => tell(alloc, events, places, lines)?,
            None => lines.text("too few events\n")?,
        }
        from = to;
    }
    Ok(())
}

// The places of an actor's events.
fn places_of(alloc: Global, events: &EventLog, actor: Actor) -> Result<Vec<usize>, NoMemory> {
    let mut own = Vec::new(alloc);
    for at in 0..events.len() {
        if events.actor(at) == actor {
            own.push(at)?;
        }
    }
    Ok(own)
}

// Whether an actor's replies are those that its events tell, and each of its events belongs to a call.
fn is_as_told(alloc: Global, events: &EventLog, own: &[usize], seen: &Seen) -> bool {
    let mut lines = Output::new(alloc);
    let told = tell_all(alloc, events, own, seen.steps.as_slice(), &mut lines);
    let is_same = lines.as_slice() == seen.lines.as_slice();
    drop(lines);
    told.is_ok() && is_same && seen.steps.last().copied() == Some(own.len() as u64)
}

// Whether that is so, and no handle of the actor is open but for its root's.
fn is_told_and_closed<T: Tree>(alloc: Global, closed: &Closed<T>, seen: &Seen) -> bool {
    let told = match places_of(alloc, &closed.events, seen.actor) {
        Ok(own) => is_as_told(alloc, &closed.events, own.as_slice(), seen),
        Err(NoMemory) => false,
    };
    told && closed.tree.held(seen.actor) == 1
}

// Whether the event at a place is answered alike when it is made again.
fn is_answered_alike<T: Tree>(alloc: Global, tree: &mut T, events: &EventLog, at: usize) -> bool {
    let Ok(event) = event_at(alloc, events, at) else {
        return false;
    };
    let answer = tree.step(alloc, event.actor, &event.step.lend());
    let alike = match &answer {
        Ok(answer) => answer.same(&event.answer),
        Err(NoMemory) => false,
    };
    drop(answer);
    drop(event);
    alike
}

// Whether the events are answered alike when they are made again on a new tree, where each actor has its root.
fn is_made_again<T: Tree>(alloc: Global, tree: &mut T, events: &EventLog) -> bool {
    for number in 0..4 {
        let root = names_of(alloc, "/c");
        let granted = match &root {
            Ok(root) => tree.grant(alloc, Actor::new(number), root).is_ok(),
            Err(_) => false,
        };
        drop(root);
        if !granted {
            return false;
        }
    }
    for at in 0..events.len() {
        if !is_answered_alike(alloc, tree, events, at) {
            return false;
        }
    }
    true
}

// Whether the events are those of the step table.
fn are_of_the_table<T: Base>(alloc: Global, events: &EventLog) -> bool {
    match T::base(alloc) {
        Ok(mut tree) => is_made_again(alloc, &mut tree, events),
        Err(_) => false,
    }
}

// Whether a closed race is told by its events, of which there are as many as to be a race.
fn is_race_of_four<T: Base>(alloc: Global, closed: &Closed<T>, all: &[Seen]) -> bool {
    for seen in all {
        if !is_told_and_closed(alloc, closed, seen) {
            return false;
        }
    }
    all.len() == 4 && closed.events.len() > 14_000 && are_of_the_table::<T>(alloc, &closed.events)
}

fn race_of_four<T: Base, R: Wait + Threads + Sync>(rt: &R, alloc: Global) -> bool {
    let roots = ["/c", "/c", "/c", "/c"];
    let Some((service, mut sessions)) = opened::<T>(alloc, &roots, 1, 90_000) else {
        return false;
    };
    let all = all_mix(rt, alloc, &service, sessions.as_mut_slice());
    let Some(closed) = service.stop().close(sessions).ok() else {
        return false;
    };
    let told = is_race_of_four(alloc, &closed, all.as_slice());
    drop(closed);
    told
}

/// Four sessions on four threads rename directories under one another's walks: the service closes, its events are those
/// of the step table when they are made again, and each reply is the one that its own events there tell.
#[test]
fn four_threads_close(rt: HostRuntime) {
    calls_stand_in_order();
    walks_tell_in_threads();
    each_call_tells_in_threads();
    services_tell();
    let alloc = rt.alloc();
    assert!(rt; race_of_four::<ListTree, _>(&rt, alloc) && race_of_four::<SlabTree, _>(&rt, alloc));
}
