//! One race: a session's walk has made three steps as another session makes its calls. On two threads, which take
//! turns, and on one.
use crate::calling::{Base, On, Part, comes, on_threads, opened};
use event_log::EventLog;
use sessions::{Closed, Gate, NoGate, Pause, Service, Session};
use std::alloc::Global;
use std::sync::atomic::{AtomicU64, Ordering};
use std::sync::{Mutex, Wait};
use std::thread::Threads;
use tree_list::ListTree;
use tree_model::{Actor, Tree};
use tree_slab::SlabTree;

/// Holds session 1 before its first step until session 0 is before its fourth, and session 0 there until all that
/// session 1 was asked is done.
#[derive(Drop)]
struct Turns {
    zero_waits: AtomicU64,
    one_is_done: AtomicU64,
    ran_out: AtomicU64,
    // How many sessions were told what they are to be.
    told: AtomicU64,
}

impl Turns {
    fn new() -> Turns {
        Turns {
            zero_waits: AtomicU64::new(0),
            one_is_done: AtomicU64::new(0),
            ran_out: AtomicU64::new(0),
            told: AtomicU64::new(0),
        }
    }

    // Waits for a flag, and tells where it doesn't come.
    fn wait_for(&self, flag: &AtomicU64) {
        if !comes(flag) {
            self.ran_out.store(1, Ordering::SeqCst);
        }
    }
}

impl Gate for Turns {
    fn between(&self, pause: Pause) {
        match (pause.actor.number(), pause.call, pause.step) {
            (1, 0, 0) => self.wait_for(&self.zero_waits),
            (0, 0, 3) => {
                self.zero_waits.store(1, Ordering::SeqCst);
                self.wait_for(&self.one_is_done);
            }
            _ => {}
        }
    }
}

// Renames the file under the other's walk, and finds it again.
fn moves_the_file<T: Tree, R: Wait, G: Gate>(
    on: &On<T, R>,
    session: &mut Session,
    gate: &G,
) -> bool {
    let moved = on.is_told(Some(session), gate, "rename c/a/b/f c/a/b/g", "done\n");
    on.is_told(Some(session), gate, "c/a/b/g", "opened file 4 /c/a/b/g\n") && moved
}

// Whether a session misses the file.
fn misses_the_file<T: Tree, R: Wait, G: Gate>(
    on: &On<T, R>,
    session: Option<&mut Session>,
    gate: &G,
) -> bool {
    on.is_told(session, gate, "a/b/f", "fault ENOENT\n")
}

// How many of the first events, or of all, are session 0's.
fn events_of_zero(events: &EventLog, most: usize) -> usize {
    let mut count = 0usize;
    for at in 0..events.len() {
        if at < most && events.actor(at) == Actor::new(0) {
            count = count.saturating_add(1);
        }
    }
    count
}

// Whether there are 28 events, of which session 0 has five, and the first three.
fn is_well<T: Drop>(closed: Closed<T>) -> bool {
    let events = &closed.events;
    let well = events.len() == 28
        && events_of_zero(events, 28) == 5
        && events_of_zero(events, 3) == 3;
    drop(closed);
    well
}

// Whether a service is closed so.
fn closes_well<T: Tree + Drop>(service: Service<T>, sessions: Vec<Session>) -> bool {
    match service.stop().close(sessions).ok() {
        Some(closed) => is_well(closed),
        None => false,
    }
}

/// What the two sessions do on their threads: session 1 moves the file, and session 0 misses it.
#[derive(Drop)]
struct Racing<'a, T: Tree, R: Wait> {
    on: On<'a, T, R>,
    turns: Turns,
}

impl<'a, T: Base, R: Wait + Sync> Part for Racing<'a, T, R> {
    fn takes(&self, session: &mut Session) {
        let turns = &self.turns;
        let told = if session.owner().actor == Actor::new(0) {
            misses_the_file(&self.on, Some(session), turns)
        } else {
            let moved = moves_the_file(&self.on, session, turns);
            turns.one_is_done.store(1, Ordering::SeqCst);
            moved
        };
        if told {
            turns.told.fetch_add(1, Ordering::SeqCst);
        }
    }
}

// Whether both sessions are told what they are to be, and nobody waits in vain.
fn take_turns<T: Base, R: Wait + Threads + Sync>(
    rt: &R,
    alloc: Global,
    service: &Service<T>,
    sessions: &mut [Session],
) -> bool {
    let racing = Racing {
        on: On::new(rt, alloc, service),
        turns: Turns::new(),
    };
    on_threads(rt, sessions, &racing);
    let turns = &racing.turns;
    turns.told.load(Ordering::SeqCst) == 2 && turns.ran_out.load(Ordering::SeqCst) == 0
}

fn on_two_threads<T: Base, R: Wait + Threads + Sync>(rt: &R, alloc: Global) -> bool {
    let Some((service, mut sessions)) = opened::<T>(alloc, &["/c", "/"], 1, 99) else {
        return false;
    };
    let told = take_turns(rt, alloc, &service, sessions.as_mut_slice());
    let well = closes_well(service, sessions);
    told && well
}

/// The one's walk has made three steps as the other's calls begin, and goes on once they are over. A lock that is held
/// for a whole call lets them wait until their turns run out.
#[test]
fn two_threads_take_turns(rt: HostRuntime) {
    let alloc = rt.alloc();
    assert!(rt;
        on_two_threads::<ListTree, _>(&rt, alloc) && on_two_threads::<SlabTree, _>(&rt, alloc)
    );
}

/// Lets session 1 make its calls before session 0's fourth step, and counts the pauses that come in their order.
#[derive(Drop)]
struct Meddles<'a, T: Tree, R: Wait> {
    on: On<'a, T, R>,
    one: Mutex<Session>,
    pauses: AtomicU64,
    is_moved: AtomicU64,
}

impl<'a, T: Base, R: Wait + Sync> Gate for Meddles<'a, T, R> {
    fn between(&self, pause: Pause) {
        let step = self.pauses.load(Ordering::SeqCst);
        let (actor, call) = (Actor::new(0), 0);
        if pause == (Pause { actor, call, step }) {
            self.pauses.store(step.saturating_add(1), Ordering::SeqCst);
        }
        if pause.step == 3 {
            let mut one = self.one.lock(self.on.rt);
            if moves_the_file(&self.on, &mut one, &NoGate) {
                self.is_moved.store(1, Ordering::SeqCst);
            }
        }
    }
}

// Whether session 0 misses the file that session 1 moves in the gate, and the gate is told of each step in its order.
// Both come back to their places.
fn is_meddled_with<T: Base, R: Wait + Sync>(
    rt: &R,
    alloc: Global,
    service: &Service<T>,
    sessions: &mut Vec<Session>,
) -> bool {
    let Some(one) = sessions.pop() else {
        return false;
    };
    let gate = Meddles {
        on: On::new(rt, alloc, service),
        one: Mutex::new(one),
        pauses: AtomicU64::new(0),
        is_moved: AtomicU64::new(0),
    };
    let on = On::new(rt, alloc, service);
    let missed = misses_the_file(&on, sessions.first_mut(), &gate);
    let moved = gate.is_moved.load(Ordering::SeqCst) == 1;
    let in_order = gate.pauses.load(Ordering::SeqCst) == 5;
    let back = sessions.push(gate.one.into_inner()).ok();
    missed && moved && in_order && back.is_some()
}

fn on_one_thread<T: Base, R: Wait + Sync>(rt: &R, alloc: Global) -> bool {
    let Some((service, mut sessions)) = opened::<T>(alloc, &["/c", "/"], 1, 99) else {
        return false;
    };
    let told = is_meddled_with(rt, alloc, &service, &mut sessions);
    let well = closes_well(service, sessions);
    told && well
}

/// The gate itself makes the other session's calls, so that no lock is held while it is called.
#[test]
fn a_gate_makes_calls(rt: HostRuntime) {
    let alloc = rt.alloc();
    assert!(rt;
        on_one_thread::<ListTree, _>(&rt, alloc) && on_one_thread::<SlabTree, _>(&rt, alloc)
    );
}
