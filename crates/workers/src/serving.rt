//! Serving a list of jobs.
ghost use Rattle.std.specs.Prelude.{◌≡◌, ℕ, ◌<◌, [], replicate, length, slice_index, vec_len, IfOk, IfErr, MatchOption};
ghost use Rattle.workers.specs.Room.{HasRoom};
ghost use Rattle.workers.specs.Serve.{HasWorkers, AllWork, AllOnce, IsServed, IsCauseAfter, IsRefused};

use crate::room::{Desk, Room};
use crate::tally::{count_all, first_doubled, first_lost, put_all};
use crate::told::Told;
use crate::worker::{dismiss, hire, work_all};
use path_text::NoMemory;
use root_ops::{Reply, Request};
use sessions::{Gate, Service, Session};
use std::alloc::Global;
use std::sync::Wait;
use std::thread::Threads;
use tree_model::Tree;

/// The most sessions that `serve` takes, since each gets a worker.
pub const WORKERS_MAX: usize = 8;

/// Why jobs weren't served.
#[derive(Clone, Copy, Debug, PartialEq, Eq)]
pub enum ServeCause {
    /// No session was given.
    NoWorkers,
    /// More sessions than 8 were given.
    TooManyWorkers,
    /// Memory was refused, before a worker started.
    NoMemory,
    /// The first job that was answered twice.
    Doubled(usize),
    /// The first job that wasn't answered.
    Lost(usize),
}

/// The sessions in the order in which they were given, and the reply to each job, in the order of the jobs. What a
/// reply opened stays open until its session, which `Standing::owner` tells, is called to release it.
#[derive(Debug, Drop)]
pub struct Served {
    pub sessions: Vec<Session>,
    pub replies: Vec<Reply>,
}

/// Why jobs weren't served, the sessions, and what each was told, in the same order: none where no worker started.
#[derive(Debug, Drop)]
pub struct ServeRefusal {
    pub cause: ServeCause,
    pub sessions: Vec<Session>,
    pub replies: Vec<Told>,
}

impl ServeRefusal {
    // Before a worker started.
    fn at_once(alloc: Global, cause: ServeCause, sessions: Vec<Session>) -> ServeRefusal
        ensures cause { result.cause ≡ cause }
        ensures sessions { result.sessions ≡ sessions }
        ensures replies { result.replies.items ≡ [] }
    {
        ServeRefusal {
            cause,
            sessions,
            replies: Vec::new(alloc),
        }
    }
}

// Why what the workers were told isn't one reply to each job. Every count is 0 before.
fn cause_after(counts: &mut [usize], lists: &[Told]) -> Option<ServeCause>
    requires { (job : ℕ) → job < length counts.old → slice_index counts.old job ≡ 0 }
    ensures { MatchOption result (AllOnce lists.now (length counts.old))
        (λ cause. IsCauseAfter lists.now (length counts.old) cause) }
{
    count_all(counts, lists);
    if let Some(job) = first_doubled(counts) {
        return Some(ServeCause::Doubled(job));
    }
    match first_lost(counts) {
        Some(job) => Some(ServeCause::Lost(job)),
        None => None,
    }
}

// Lets each session work, in the room.
fn employ<T: Tree + Send, R: Threads + Wait + Sync, G: Gate>(
    rt: &R,
    alloc: Global,
    service: &Service<T>,
    sessions: Vec<Session>,
    jobs: &[Request],
    gate: &G,
    desk: Desk,
) -> (Vec<Session>, Vec<Told>)
    requires { HasRoom desk (vec_len sessions) }
    ensures { AllWork service.now jobs.now sessions.items result.1.items result.0.items }
{
    let Desk {
        numbers,
        sheets,
        mut workers,
        sessions: mut back,
        mut lists,
    } = desk;
    hire(alloc, sessions, sheets, &mut workers);
    work_all(
        rt,
        alloc,
        service,
        gate,
        jobs,
        &numbers,
        workers.as_mut_slice(),
    );
    dismiss(workers, &mut back, &mut lists);
    (back, lists)
}

// Serves the jobs in room got before.
fn serve_in<T: Tree + Send, R: Threads + Wait + Sync, G: Gate>(
    rt: &R,
    alloc: Global,
    service: &Service<T>,
    sessions: Vec<Session>,
    jobs: &[Request],
    gate: &G,
    room: Room,
) -> Result<Served, ServeRefusal>
    requires workers { HasWorkers sessions.items }
    requires desk { HasRoom room.desk (vec_len sessions) }
    requires counts { room.counts.items ≡ replicate (length jobs.now) 0 }
    requires replies { vec_len room.replies ≡ length jobs.now }
    ensures served { IfOk result (λ served.
        IsServed service.now jobs.now sessions.items served.sessions.items served.replies.items) }
    ensures refused { IfErr result (λ refused.
        IsRefused service.now jobs.now sessions.items refused.cause refused.replies.items refused.sessions.items) }
{
    let Room {
        desk,
        mut counts,
        mut replies,
    } = room;
    let (sessions, lists) = employ(rt, alloc, service, sessions, jobs, gate, desk);
    if let Some(cause) = cause_after(counts.as_mut_slice(), lists.as_slice()) {
        let replies = lists;
        return Err(ServeRefusal {
            cause,
            sessions,
            replies,
        });
    }
    put_all(replies.as_mut_slice(), lists);
    Ok(Served { sessions, replies })
}

/// Serves the jobs by the sessions, each with a worker of its own, on a thread of its own where one can be made: a
/// worker takes the number of a job, and answers that job by one call of its session with a copy of the request. The
/// jobs stay the caller's. The reply to a Release is Invalid (EINVAL), since what it holds stays the caller's, and
/// to a request that found no memory to be copied NoMemory (ENOMEM), both without a call. Any other reply is that of
/// `Session::call`, which calls the gate before each step, and answers Invalid to a session that isn't the
/// service's.
///
/// Each job's reply stands in its place, and the sessions come back in their order. All room is got before the first
/// worker starts, for each worker that of a reply to each job.
///
/// Errors, in this order: NoWorkers without a session; TooManyWorkers over 8; NoMemory, always before a worker
/// starts; Doubled with the first job that was answered twice; Lost with the first that wasn't answered. The
/// sessions come back, and what each was told, so that each object that was opened can be released.
pub fn serve<T: Tree + Send, R: Threads + Wait + Sync, G: Gate>(
    rt: &R,
    alloc: Global,
    service: &Service<T>,
    sessions: Vec<Session>,
    jobs: &[Request],
    gate: &G,
) -> Result<Served, ServeRefusal>
    ensures served { IfOk result (λ served.
        IsServed service.now jobs.now sessions.items served.sessions.items served.replies.items) }
    ensures refused { IfErr result (λ refused.
        IsRefused service.now jobs.now sessions.items refused.cause refused.replies.items refused.sessions.items) }
{
    if sessions.is_empty() {
        return Err(ServeRefusal::at_once(alloc, ServeCause::NoWorkers, sessions));
    }
    if sessions.len() > WORKERS_MAX {
        return Err(ServeRefusal::at_once(alloc, ServeCause::TooManyWorkers, sessions));
    }
    match Room::new(rt, alloc, sessions.len(), jobs.len()) {
        Ok(room) => serve_in(rt, alloc, service, sessions, jobs, gate, room),
        Err(NoMemory) => Err(ServeRefusal::at_once(alloc, ServeCause::NoMemory, sessions)),
    }
}
