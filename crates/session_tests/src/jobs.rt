//! Jobs that are served by sessions on threads.
use crate::calling::{On, comes, events_closed, held, opened, release, resolve, write_reply};
use event_log::Output;
use path_text::NoMemory;
use root_ops::{Reply, Request};
use sessions::{Gate, NoGate, Pause, Service, Session};
use std::alloc::Global;
use std::sync::Wait;
use std::sync::atomic::{AtomicU64, Ordering};
use std::thread::Threads;
use tree_list::ListTree;
use workers::{ServeCause, ServeRefusal, Served, serve, workers_limit_is_a_number};

/// So many of these are the roots of sessions.
const ROOTS: &[&str] = &["/c", "/c", "/c", "/c", "/c", "/c", "/c", "/c", "/c"];

fn roots(count: usize) -> &'static [&'static str] {
    ROOTS.get(..count).unwrap_or(ROOTS)
}

fn jobs_of(alloc: Global, paths: &[&str]) -> Result<Vec<Request>, NoMemory> {
    let mut jobs = Vec::new(alloc);
    for path in paths {
        jobs.push(resolve(alloc, path)?)?;
    }
    Ok(jobs)
}

// The number of the session that a reply leaves with something open.
fn holder(reply: &Reply) -> usize {
    match reply {
        Reply::Opened(standing) => standing.owner().actor.number() as usize,
        _ => usize::MAX,
    }
}

// Releases what a reply opened, by its session.
fn release_opened<R: Wait>(on: &On<ListTree, R>, sessions: &mut [Session], reply: Reply) {
    match sessions.get_mut(holder(&reply)) {
        Some(session) => drop(on.give_back(session, reply)),
        None => drop(reply),
    }
}

// The sessions that served, where each object that was opened is released.
fn release_all<R: Wait>(on: &On<ListTree, R>, served: Served) -> Vec<Session> {
    let Served {
        mut sessions,
        replies,
    } = served;
    for reply in replies {
        release_opened(on, sessions.as_mut_slice(), reply);
    }
    sessions
}

// Whether these lines are the replies to the jobs, one after another.
fn are_lines(alloc: Global, replies: &[Reply], wanted: &str) -> bool {
    let mut lines = Output::new(alloc);
    let mut written = true;
    for reply in replies {
        written = written && write_reply(alloc, reply, &mut lines).is_ok();
    }
    written && lines.as_slice() == wanted.as_bytes()
}

// The events of a service whose jobs were served, each answered by its line, where each object is released and the
// service closed.
fn events_served<R: Wait>(
    rt: &R,
    alloc: Global,
    service: Service<ListTree>,
    served: Option<Served>,
    wanted: &str,
) -> Option<usize> {
    let (told, sessions) = match served {
        Some(served) => {
            let told = are_lines(alloc, served.replies.as_slice(), wanted);
            let on = On::new(rt, alloc, &service);
            (told, release_all(&on, served))
        }
        None => (false, Vec::new(alloc)),
    };
    let events = events_closed(service.stop().close(sessions));
    events.filter(|_| told)
}

// Jobs that were served, if they were.
fn served<R: Threads + Wait + Sync, G: Gate>(
    on: &On<ListTree, R>,
    sessions: Vec<Session>,
    jobs: Result<Vec<Request>, NoMemory>,
    gate: &G,
) -> Option<Served> {
    let jobs = jobs.ok()?;
    serve(on.rt, on.alloc, on.service, sessions, &jobs, gate).ok()
}

// The same where sessions at these roots open these paths.
fn events_of_jobs<R: Threads + Wait + Sync, G: Gate>(
    rt: &R,
    alloc: Global,
    roots: &[&str],
    paths: &[&str],
    wanted: &str,
    gate: &G,
) -> Option<usize> {
    let (service, sessions) = opened::<ListTree>(alloc, roots, 1, 999)?;
    let on = On::new(rt, alloc, &service);
    let served = served(&on, sessions, jobs_of(alloc, paths), gate);
    events_served(rt, alloc, service, served, wanted)
}

// Whether three jobs are answered each in its place by so many workers.
fn stand_by_job<R: Threads + Wait + Sync>(rt: &R, alloc: Global, roots: &[&str]) -> bool {
    let paths = ["a/b/f", "abs/f", "none"];
    let wanted = "opened file 4 /a/b/f\nopened file 4 /a/b/f\nfault ENOENT\n";
    events_of_jobs(rt, alloc, roots, &paths, wanted, &NoGate) == Some(18)
}

#[test]
fn replies_stand_by_job(rt: HostRuntime) {
    for workers in [1, 2, 4, 8] {
        assert!(rt; stand_by_job(&rt, rt.alloc(), roots(workers)), "{workers}");
    }
}

/// Before its second step, each of two sessions waits for the other's.
#[derive(Drop)]
struct Meeting {
    zero_came: AtomicU64,
    one_came: AtomicU64,
    ran_out: AtomicU64,
}

impl Meeting {
    // Tells the other, and waits for it, but not for ever.
    fn meet(&self, mine: &AtomicU64, other: &AtomicU64) {
        mine.store(1, Ordering::SeqCst);
        if !comes(other) {
            self.ran_out.store(1, Ordering::SeqCst);
        }
    }
}

impl Gate for Meeting {
    fn between(&self, pause: Pause) {
        match (pause.call, pause.step, pause.actor.number()) {
            (0, 1, 0) => self.meet(&self.zero_came, &self.one_came),
            (0, 1, _) => self.meet(&self.one_came, &self.zero_came),
            _ => {}
        }
    }
}

// Whether both jobs are answered, and nobody waits in vain.
fn meet_in_jobs<R: Threads + Wait + Sync>(rt: &R, alloc: Global) -> bool {
    let meeting = Meeting {
        zero_came: AtomicU64::new(0),
        one_came: AtomicU64::new(0),
        ran_out: AtomicU64::new(0),
    };
    let wanted = "opened file 4 /a/b/f\nopened file 4 /a/b/f\n";
    let events = events_of_jobs(rt, alloc, roots(2), &["a/b/f", "abs/f"], wanted, &meeting);
    events.is_some() && meeting.ran_out.load(Ordering::SeqCst) == 0
}

/// Two jobs whose calls wait for each other in their midst: one thread for both lets the wait run out.
#[test]
fn two_workers_run_beside_each_other(rt: HostRuntime) {
    assert!(rt; meet_in_jobs(&rt, rt.alloc()));
}

/// Why jobs aren't served, and how many sessions come back.
type Refused = Option<(ServeCause, usize)>;

// Why, and of jobs that are served nothing.
fn why(served: Result<Served, ServeRefusal>) -> Refused {
    let why = match &served {
        Ok(_) => None,
        Err(refusal) => Some((refusal.cause, refusal.sessions.len())),
    };
    drop(served);
    why
}

// Whether one job is served, or refused so, by so many sessions.
fn is_refused<R: Threads + Wait + Sync>(
    rt: &R,
    alloc: Global,
    roots: &[&str],
    wanted: Refused,
) -> bool {
    let Ok(jobs) = jobs_of(alloc, &["a"]) else {
        return false;
    };
    let Some((service, sessions)) = opened::<ListTree>(alloc, roots, 1, 999) else {
        return false;
    };
    let refused = why(serve(rt, alloc, &service, sessions, &jobs, &NoGate));
    drop(service);
    refused == wanted
}

#[test]
fn too_few_and_too_many_are_refused(rt: HostRuntime) {
    workers_limit_is_a_number();
    for (workers, wanted) in [
        (0, Some((ServeCause::NoWorkers, 0))),
        (9, Some((ServeCause::TooManyWorkers, 9))),
        (8, None),
    ] {
        assert!(rt;
            is_refused(&rt, rt.alloc(), roots(workers), wanted),
            "{workers}"
        );
    }
}

// The jobs of releasing what a reply opened.
fn jobs_of_release(alloc: Global, reply: Reply) -> Vec<Request> {
    let mut jobs = Vec::new(alloc);
    if let Some(standing) = held(reply) {
        drop(jobs.push(release(standing)));
    }
    jobs
}

// A reply that was served is served again as jobs, by the same sessions.
fn serve_again<R: Threads + Wait + Sync>(on: &On<ListTree, R>, before: Served) -> Option<Served> {
    let Served {
        sessions,
        mut replies,
    } = before;
    let jobs = match replies.pop() {
        Some(reply) => jobs_of_release(on.alloc, reply),
        None => Vec::new(on.alloc),
    };
    served(on, sessions, Ok(jobs), &NoGate)
}

// Whether a Release as a job is told Invalid, and its service closes with the events of one Resolve alone.
fn is_left_open<R: Threads + Wait + Sync>(rt: &R, alloc: Global) -> bool {
    let Some((service, sessions)) = opened::<ListTree>(alloc, roots(1), 1, 999) else {
        return false;
    };
    let on = On::new(rt, alloc, &service);
    let served = match served(&on, sessions, jobs_of(alloc, &["a/b/f"]), &NoGate) {
        Some(served) => serve_again(&on, served),
        None => None,
    };
    events_served(rt, alloc, service, served, "fault EINVAL\n") == Some(6)
}

#[test]
fn releases_are_no_jobs(rt: HostRuntime) {
    assert!(rt; is_left_open(&rt, rt.alloc()));
}
