//! A script's jobs: the calls of its first actor, served by workers on threads of their own.
ghost use Rattle.std.specs.Prelude.{◌≡◌, ◌≢◌, ◌<◌, ◌≤◌, ◌++◌, [], ◌∷◌, length, map, replicate, vec_len, All, IfOk, IsTrue, MatchResult};
ghost use Rattle.race_core.specs.declared.plan.Planned.TheVariants.{Call as CallOf};
ghost use Rattle.report_text.specs.Report.{reply_lines};
ghost use Rattle.workers.specs.Serve.{IsServed};
ghost use Rattle.scripts.specs.declared.calls.Purpose.TheVariants.{Jobs as JobsPurpose};
ghost use Rattle.scripts.specs.declared.fault.RunFault.TheVariants.{NoMemory as OutOfMemory};
ghost use Rattle.run_command.specs.declared.jobs.JobsFault.TheVariants as jobs_fault;
ghost use Rattle.scripts.specs.Calls.{is_job};
ghost use Rattle.run_command.specs.Jobs.{outcome_of, opened_by, opened_in, closed_line, told_of_opening, told_of_serving, told_of_closing, CanRefuse, CanUnserve, IsUnserved, IsBegun, IsOurs, AreInPlace, IsReleased, AreReleased, Closes, RefusesToClose, IsJobsText, IsNoService, IsJobs, jobs_said};
ghost use Rattle.scripts.specs.Scenario.{first_root, first_calls, said_by, IsPlayable, IsFitFor};

use event_log::{EventLog, Output};
use handles::Standing;
use path_text::{Errno, Flags, Names, NoMemory};
use race_core::{ActorPlan, Outcome, Outcomes, Planned, Plans};
use root_ops::{Op, Reply, Request};
use scripts::{Purpose, RunFault, Scenario, Script, TurnOrder, read_as};
use sessions::{CloseCause, NoGate, OpenCause, Service, Session};
use std::alloc::Global;
use std::io::Write;
use std::sync::Wait;
use std::thread::Threads;
use thiserror::Error;
use tree_slab::SlabTree;
use workers::{ServeCause, Served, WORKERS_MAX, serve};

/// The tag of the one service that a run opens.
pub const TAG: u64 = 0;

/// Why the service that the jobs were given to didn't come to its end.
#[derive(Clone, Copy, Debug, PartialEq, Eq, Error)]
pub enum ServiceFault {
    /// The first job that was answered twice.
    #[error("serve: doubled {0}")]
    Doubled(usize),
    /// The first job that wasn't answered.
    #[error("serve: lost {0}")]
    Lost(usize),
    /// The session at this place isn't the service's, or comes twice.
    #[error("close: stranger {0}")]
    Stranger(usize),
    /// No session has this number.
    #[error("close: missing {0}")]
    Missing(u32),
    /// The history isn't of the tree that was opened and of its sessions alone.
    #[error("close: opening")]
    Opening,
    /// The session of this number logged other events than the history has.
    #[error("close: mismatch {0}")]
    Mismatch(u32),
}

/// Why a script's jobs have no replies to be written. Nothing was written before it, but by a writer that failed.
#[derive(Clone, Copy, Debug, PartialEq, Eq, Error)]
pub enum JobsFault {
    #[error("{0}")]
    Run(RunFault),
    #[error("{0}")]
    Service(ServiceFault),
}

impl From<RunFault> for JobsFault {
    ghost from_gives = { λ fault told. told ≡ jobs_fault.Run fault };

    fn from(fault: RunFault) -> JobsFault {
        JobsFault::Run(fault)
    }
}

impl From<ServiceFault> for JobsFault {
    ghost from_gives = { λ fault told. told ≡ jobs_fault.Service fault };

    fn from(fault: ServiceFault) -> JobsFault {
        JobsFault::Service(fault)
    }
}

impl From<NoMemory> for JobsFault {
    ghost from_gives = { λ _ told. told ≡ jobs_fault.Run OutOfMemory };

    fn from(_error: NoMemory) -> JobsFault {
        JobsFault::Run(RunFault::NoMemory)
    }
}

// ---- what is served

/// The first actor. The script's checks have passed, so there is one.
fn first_plan(plans: &[ActorPlan]) -> &ActorPlan
    requires { 0 < length plans.now }
    ensures root { result.now.root ≡ first_root plans.now }
    ensures calls { result.now.calls ≡ first_calls plans.now }
{
    match plans.split_first() {
        Some((first, _others)) => first,
        None => unreachable!(),
    }
}

/// The job that a call is. `NoMemory`.
fn job_of(alloc: Global, call: &Planned) -> Result<Request, NoMemory>
    requires { IsTrue (is_job call.now) }
    ensures { IfOk result (λ job. CallOf job ≡ call.now) }
{
    match call {
        Planned::Call(request) => match request.copy(alloc) {
            Ok(job) => Ok(job),
            Err(_) => Err(NoMemory),
        },
        Planned::Single(_) | Planned::Release(_) => unreachable!(),
    }
}

/// The jobs that calls are, in their order. `NoMemory`.
fn jobs_of(alloc: Global, calls: &Plans) -> Result<Vec<Request>, NoMemory>
    requires { All (λ call. IsTrue (is_job call)) calls.now }
    ensures { IfOk result (λ jobs. map CallOf jobs.items ≡ calls.now) }
{
    let mut jobs = Vec::with_capacity(alloc, calls.len())?;
    for call in calls.as_slice() {
        let job = job_of(alloc, call)?;
        jobs.push(job)?;
    }
    Ok(jobs)
}

/// So many times the same root. `NoMemory`.
fn roots_of(alloc: Global, root: &Names, workers: usize) -> Result<Vec<Names>, NoMemory>
    ensures { IfOk result (λ roots. roots.items ≡ replicate workers root.now) }
{
    let mut roots = Vec::with_capacity(alloc, workers)?;
    for worker in 0..workers {
        let copy = root.copy(alloc)?;
        roots.push(copy)?;
    }
    Ok(roots)
}

/// A service over a script's tree, its sessions, and the jobs for them.
struct Begun {
    service: Service<SlabTree>,
    sessions: Vec<Session>,
    jobs: Vec<Request>,
}

/// How it is told that the service wasn't opened. The script's checks have passed: the root is a directory, and there
/// are few workers and lines.
fn told_of_opening(cause: OpenCause) -> RunFault
    requires { CanRefuse cause }
    ensures { result ≡ told_of_opening cause }
{
    match cause {
        OpenCause::BookFull => RunFault::BookFull,
        OpenCause::NoMemory => RunFault::NoMemory,
        OpenCause::TooManySessions
        | OpenCause::RootNotFound(_)
        | OpenCause::RootNotDir(_)
        | OpenCause::TooMany(_)
        | OpenCause::Invalid => unreachable!(),
    }
}

/// Opens a service with a session for each worker at the first actor's root. Errors: `BookFull` where there are fewer
/// lines than workers; `NoMemory`.
fn begin(alloc: Global, scenario: Scenario, workers: usize) -> Result<Begun, RunFault>
    requires none { scenario.tree.handles ≡ [] }
    requires playable { IsPlayable (said_by scenario) }
    requires fit { IsFitFor JobsPurpose (said_by scenario) }
    requires few { workers ≤ WORKERS_MAX }
    ensures begun { MatchResult result
        (λ begun. IsBegun workers (said_by scenario) begun.service begun.sessions.items begun.jobs.items)
        (λ fault. IsNoService workers (said_by scenario) (jobs_fault.Run fault)) }
{
    let Scenario {
        tree,
        plans,
        schedule: _no_turns,
        lines,
    } = scenario;
    let first = first_plan(&plans);
    let jobs = jobs_of(alloc, &first.calls)?;
    let roots = roots_of(alloc, &first.root, workers)?;
    match Service::open(alloc, tree, &roots, TAG, lines) {
        Ok((service, sessions)) => Ok(Begun {
            service,
            sessions,
            jobs,
        }),
        Err(refusal) => Err(told_of_opening(refusal.cause)),
    }
}

// ---- serving

/// How it is told that the jobs weren't served. There are workers, and few of them.
fn told_of_serving(cause: ServeCause) -> JobsFault
    requires { CanUnserve cause }
    ensures { result ≡ told_of_serving cause }
{
    match cause {
        ServeCause::NoMemory => JobsFault::Run(RunFault::NoMemory),
        ServeCause::Doubled(job) => JobsFault::Service(ServiceFault::Doubled(job)),
        ServeCause::Lost(job) => JobsFault::Service(ServiceFault::Lost(job)),
        ServeCause::NoWorkers | ServeCause::TooManyWorkers => unreachable!(),
    }
}

/// Serves the jobs, each session on a thread of its own, and does nothing between their steps.
fn serve_all<R: Threads + Wait + Sync>(
    rt: &R,
    alloc: Global,
    service: &Service<SlabTree>,
    sessions: Vec<Session>,
    jobs: &[Request],
) -> Result<Served, JobsFault>
    requires some { 0 < vec_len sessions }
    requires few { vec_len sessions ≤ WORKERS_MAX }
    ensures { MatchResult result
        (λ served. IsServed service.now jobs.now sessions.items served.sessions.items served.replies.items)
        (IsUnserved service.now jobs.now sessions.items) }
{
    match serve(rt, alloc, service, sessions, jobs, &NoGate) {
        Ok(served) => Ok(served),
        Err(refusal) => Err(told_of_serving(refusal.cause)),
    }
}

// ---- what came of it

/// How a job ended, and what it opened. `NoMemory`.
fn outcome_of(alloc: Global, reply: Reply) -> Result<(Outcome, Option<Standing>), NoMemory>
    ensures outcome { IfOk result (λ told. told.0 ≡ outcome_of reply) }
    ensures opened { IfOk result (λ told. told.1 ≡ opened_by reply) }
{
    Ok(match reply {
        Reply::Opened(standing) => {
            let (node, kind) = (standing.node(), standing.kind());
            let names = standing.names().copy(alloc)?;
            (Outcome::Opened { node, kind, names }, Some(standing))
        }
        Reply::Text(text) => (Outcome::Text(text), None),
        Reply::Done => (Outcome::Done, None),
        Reply::Count(count) => (Outcome::Count(count), None),
        Reply::Stepped(answer) => (Outcome::Stepped(answer), None),
        Reply::Kept(_standing) => (Outcome::Fault(Errno::Invalid), None),
        Reply::Fault(error) => (Outcome::Fault(error), None),
    })
}

/// How the jobs ended, and what they opened, both in the order of the jobs. `NoMemory`.
fn outcomes_of(alloc: Global, replies: Vec<Reply>) -> Result<(Outcomes, Vec<Standing>), NoMemory>
    ensures outcomes { IfOk result (λ told. told.0 ≡ map outcome_of replies.items) }
    ensures opened { IfOk result (λ told. told.1.items ≡ opened_in replies.items) }
{
    let mut outcomes = Outcomes::new(alloc);
    let mut opened = Vec::new(alloc);
    for reply in replies {
        let (outcome, standing) = outcome_of(alloc, reply)?;
        outcomes.push(outcome)?;
        if let Some(standing) = standing {
            opened.push(standing)?;
        }
    }
    Ok((outcomes, opened))
}

/// Releases an object through the session that opened it. The session closes it, unless by its own log it is closed.
fn release<R: Wait>(
    rt: &R,
    alloc: Global,
    service: &Service<SlabTree>,
    sessions: &mut [Session],
    standing: Standing,
)
    requires in_place { AreInPlace service.now sessions.old }
    requires ours { IsOurs service.now standing }
    ensures { IsReleased service.now standing sessions.old sessions.new }
{
    let at = standing.owner().actor.number() as usize;
    let op = Op::Release(standing);
    let flags = Flags::default();
    let _done = sessions[at].call(rt, alloc, service, &NoGate, Request { op, flags });
}

/// Releases all objects, one after another.
fn release_all<R: Wait>(
    rt: &R,
    alloc: Global,
    service: &Service<SlabTree>,
    sessions: &mut [Session],
    opened: Vec<Standing>,
)
    requires in_place { AreInPlace service.now sessions.old }
    requires ours { All (IsOurs service.now) opened.items }
    ensures { AreReleased service.now opened.items sessions.old sessions.new }
{
    for standing in opened {
        release(rt, alloc, service, sessions, standing);
    }
}

/// Closes the service: the history of all its sessions' steps.
fn close(service: Service<SlabTree>, sessions: Vec<Session>) -> Result<EventLog, CloseCause>
    ensures { MatchResult result (λ log. Closes service sessions.items log.events)
        (RefusesToClose service sessions.items) }
{
    match service.stop().close(sessions) {
        Ok(closed) => Ok(closed.events),
        Err(refusal) => Err(refusal.cause),
    }
}

/// How it is told that the service wasn't closed.
fn told_of_closing(cause: CloseCause) -> ServiceFault
    ensures { result ≡ told_of_closing cause }
{
    match cause {
        CloseCause::Stranger(place) => ServiceFault::Stranger(place),
        CloseCause::Missing(number) => ServiceFault::Missing(number),
        CloseCause::Opening => ServiceFault::Opening,
        CloseCause::Mismatch(number) => ServiceFault::Mismatch(number),
    }
}

/// A line for each job, and one for the number of events. `NoMemory`.
fn lines_of(alloc: Global, outcomes: Outcomes, events: u64) -> Result<Output, NoMemory>
    ensures { IfOk result (λ text. text ≡ reply_lines (outcomes ∷ []) ++ closed_line events) }
{
    let mut text = Output::new(alloc);
    report_text::replies(alloc, &mut text, &[outcomes])?;
    text.text("closed ")?;
    text.number(events)?;
    text.text("\n")?;
    Ok(text)
}

/// Serves a scenario's jobs to their end, and has the text of it. Errors, in this order: those of `begin`; those of
/// serving and of closing; `NoMemory`.
fn text_of<R: Threads + Wait + Sync>(
    rt: &R,
    alloc: Global,
    scenario: Scenario,
    workers: usize,
) -> Result<Output, JobsFault>
    requires none { scenario.tree.handles ≡ [] }
    requires playable { IsPlayable (said_by scenario) }
    requires fit { IsFitFor JobsPurpose (said_by scenario) }
    requires some { 0 < workers }
    requires few { workers ≤ WORKERS_MAX }
    ensures text { MatchResult result (IsJobsText workers (said_by scenario))
        (IsNoService workers (said_by scenario)) }
    ensures some { IfOk result (λ text. text ≢ []) }
{
    let Begun {
        service,
        sessions,
        jobs,
    } = begin(alloc, scenario, workers)?;
    let served = serve_all(rt, alloc, &service, sessions, &jobs)?;
    let mut sessions = served.sessions;
    let (outcomes, opened) = outcomes_of(alloc, served.replies)?;
    release_all(rt, alloc, &service, sessions.as_mut_slice(), opened);
    let events = match close(service, sessions) {
        Ok(events) => events,
        Err(cause) => return Err(JobsFault::Service(told_of_closing(cause))),
    };
    let text = lines_of(alloc, outcomes, events.len() as u64)?;
    Ok(text)
}

/// Serves a script's first actor's calls as jobs by so many workers, each with a session of its own at that actor's
/// root and on a thread of its own where one can be made, and writes a line for how each job ended, and one for how
/// many events there were. The jobs have no order: any worker takes any next one. What a job opened is released by its
/// session once all jobs are answered, in the order of the jobs, and then the service is closed.
///
/// A job that fails is no error: its line says so. Errors, in this order: those of `read_scenario`, where a step or
/// a release of the first actor is refused as a call that can't be read; `BookFull` where the script gives its book
/// fewer lines than there are workers; `NoMemory`, where room was refused; `Service`, where the workers left a job
/// over or answered one twice, or the service wasn't closed; `WriteFailed`. Nothing is written before the text is
/// whole.
pub fn run_jobs<R: Threads + Wait + Sync, W: Write>(
    rt: &R,
    alloc: Global,
    script: &Script,
    writer: &mut W,
    workers: usize,
) -> Result<(), JobsFault>
    requires some { 0 < workers }
    requires few { workers ≤ WORKERS_MAX }
    ensures run { IsJobs workers (jobs_said script.now) (W.contents writer.old) (W.contents writer.new)
        result }
{
    let scenario = read_as(alloc, Purpose::Jobs, script, &TurnOrder::OfScript)?;
    let text = text_of(rt, alloc, scenario, workers)?;
    match writer.write_all(text.as_slice()) {
        Ok(()) => Ok(()),
        Err(_) => Err(JobsFault::Run(RunFault::WriteFailed)),
    }
}
