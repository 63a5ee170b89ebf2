//! One worker: a session, and what it was told.
ghost use Rattle.std.specs.Prelude.{◌≡◌, ◌<◌, ◌≤◌, ◌+◌, ◌++◌, map, ℕ, length, slice_index_or, slice_get, vec_len, vec_capacity};
ghost use Rattle.std.specs.Option.{option_copied};
ghost use Rattle.workers.specs.Work.{WorkerView, Answers, WorksOn, idle, sessions_of, lists_of};

use crate::serving::WORKERS_MAX;
use crate::told::{Numbered, Sheet, Told};
use crossbeam_channel::Receiver;
use root_ops::{Reply, Request};
use sessions::{Gate, Service, Session};
use std::alloc::Global;
use std::marker::Model;
use std::sync::Wait;
use std::thread;
use std::thread::Threads;
use tree_model::Tree;

/// A session, with what it was told so far.
#[derive(Debug, Drop)]
pub struct Worker {
    session: Session,
    told: Vec<Numbered>,
    // How many more replies there is room for.
    left: usize,
}

impl Model for Worker {
    ghost use Rattle.std.specs.Prelude.{◌≤◌, ◌+◌, vec_len, vec_capacity};
    ghost use Rattle.workers.specs.Work.{WorkerView};

    ghost Value = { WorkerView };

    ghost view = { λ w. record { session = w.session; told = w.told.items } };

    ghost invariant = { λ w. vec_len w.told + w.left ≤ vec_capacity w.told };
}

// What the session replies to a job, by a call with a copy of it.
fn reply_to<T: Tree, R: Wait, G: Gate>(
    rt: &R,
    alloc: Global,
    service: &Service<T>,
    session: &mut Session,
    gate: &G,
    job: &Request,
) -> Reply
    ensures { Answers service.now session.old job.now session.new result }
{
    match job.copy(alloc) {
        Ok(copy) => session.call(rt, alloc, service, gate, copy),
        Err(error) => Reply::Fault(error),
    }
}

// The job of a number, if there is one.
fn job_at(jobs: &[Request], job: usize) -> Option<&Request>
    ensures { option_copied result ≡ slice_get jobs.now job }
{
    jobs.get(job)
}

impl Worker {
    // A session with its sheet.
    fn new(session: Session, sheet: Sheet) -> Worker
        ensures { result ≡ idle session }
    {
        let Sheet { replies: told } = sheet;
        let left = told.capacity() - told.len();
        Worker {
            session,
            told,
            left,
        }
    }

    fn into_parts(self) -> (Session, Told)
        ensures session { result.0 ≡ self.session }
        ensures told { result.1 ≡ self.told }
    {
        let told = Told { replies: self.told };
        (self.session, told)
    }

    // Takes a job's number, and answers that job. False where there is no room for a reply, or no number is left; a
    // number that no job has is passed over.
    fn take_job<T: Tree, R: Wait, G: Gate>(
        &mut self,
        rt: &R,
        alloc: Global,
        service: &Service<T>,
        gate: &G,
        jobs: &[Request],
        numbers: &Receiver<usize>,
    ) -> bool
        ensures { WorksOn service.now jobs.now self.old self.new }
    {
        if self.left == 0 {
            return false;
        }
        let Ok(job) = numbers.recv(rt) else {
            return false;
        };
        if let Some(request) = job_at(jobs, job) {
            let reply = reply_to(rt, alloc, service, &mut self.session, gate, request);
            self.told.push_reserved(Numbered { job, reply });
            self.left -= 1;
        }
        true
    }

    // Answers jobs until none is left, or no room for a reply.
    fn work<T: Tree, R: Wait, G: Gate>(
        &mut self,
        rt: &R,
        alloc: Global,
        service: &Service<T>,
        gate: &G,
        jobs: &[Request],
        numbers: &Receiver<usize>,
    )
        ensures { WorksOn service.now jobs.now self.old self.new }
    {
        'jobs: for _ in 0..jobs.len() {
            if !self.take_job(rt, alloc, service, gate, jobs, numbers) {
                return;
            }
        }
    }
}

// The last sheet; one without room where there is none.
fn next_sheet(alloc: Global, sheets: &mut Vec<Sheet>) -> Sheet {
    match sheets.pop() {
        Some(sheet) => sheet,
        None => Sheet {
            replies: Vec::new(alloc),
        },
    }
}

/// A worker for each session, each with a sheet of its own, in room got before.
pub fn hire(alloc: Global, sessions: Vec<Session>, sheets: Vec<Sheet>, workers: &mut Vec<Worker>)
    requires { vec_len workers.old + vec_len sessions ≤ vec_capacity workers.old }
    ensures { workers.new.items ≡ workers.old.items ++ map idle sessions.items }
{
    let mut sheets = sheets;
    for session in sessions {
        workers.push_reserved(Worker::new(session, next_sheet(alloc, &mut sheets)));
    }
}

/// All workers work, each on a thread of its own where one can be made, until they are done.
pub fn work_all<T: Tree + Send, R: Threads + Wait + Sync, G: Gate>(
    rt: &R,
    alloc: Global,
    service: &Service<T>,
    gate: &G,
    jobs: &[Request],
    numbers: &Receiver<usize>,
    workers: &mut [Worker],
)
    ensures { (i : ℕ) (d : WorkerView) → i < length workers.old
        → WorksOn service.now jobs.now (slice_index_or workers.old i d) (slice_index_or workers.new i d) }
{
    thread::for_each_mut(
        rt,
        workers,
        WORKERS_MAX,
        &|_, worker| worker.work(rt, alloc, service, gate, jobs, numbers),
    );
}

/// The workers' sessions, and what each was told, in room got before.
pub fn dismiss(workers: Vec<Worker>, sessions: &mut Vec<Session>, lists: &mut Vec<Told>)
    requires sessions { vec_len sessions.old + vec_len workers ≤ vec_capacity sessions.old }
    requires lists { vec_len lists.old + vec_len workers ≤ vec_capacity lists.old }
    ensures sessions { sessions.new.items ≡ sessions.old.items ++ sessions_of workers.items }
    ensures lists { lists.new.items ≡ lists.old.items ++ lists_of workers.items }
{
    for worker in workers {
        let (session, told) = worker.into_parts();
        sessions.push_reserved(session);
        lists.push_reserved(told);
    }
}
