//! What an actor of a world has to do, and what came of it.
ghost use Rattle.std.specs.Prelude.{◌≡◌, IfOk, OnErr, slice_set, not};
ghost use Rattle.root_ops.specs.declared.reply.Reply.TheVariants.{Kept};
ghost use Rattle.race_core.specs.Turns.{handle_at, step_at, request_of, standing_under, left_by, opened_ledger};
ghost use Rattle.race_core.specs.TurnView.{Begins, IsStarted, are_some, taken_down};

use crate::report::{Outcome, Outcomes};
use crate::{Planned, Ref};
use handles::Standing;
use path_text::{Errno, Flags, NoMemory};
use root_ops::{Call, CallTurn, Op, Reply, Request};
use std::alloc::Global;
use std::collections::VecDeque;
use std::marker::Model;
use step_resolver::Root;
use tree_model::{Actor, HandleNo, Step, StepOf};

/// An actor's root, its calls to come, and of each that ended its outcome and what it opened and still keeps.
/// Contracts see it as a `LedgerView`.
#[derive(Drop)]
pub(crate) struct Ledger {
    pub(crate) root: Root,
    pub(crate) to_come: VecDeque<Planned>,
    pub(crate) outcomes: Outcomes,
    pub(crate) standings: Vec<Option<Standing>>,
    // What was another owner's to release.
    pub(crate) kept: Vec<Standing>,
}

impl Model for Ledger {
    ghost use Rattle.race_core.specs.Ledgers.{LedgerView};

    ghost Value = { LedgerView };

    ghost view = { λ l. record {
      root = l.root;
      to_come = l.to_come.items;
      outcomes = l.outcomes;
      standings = l.standings.items;
      kept = l.kept.items;
    } };
}

// The handle that is named, where it is held.
fn handle_at(root: Root, standings: &[Option<Standing>], what: Ref) -> Option<HandleNo>
    ensures { result ≡ handle_at root standings.now what }
{
    match what {
        Ref::Root => Some(root.handle),
        Ref::Call(call) => {
            if call < standings.len() {
                standings[call].as_ref().map(|standing| standing.handle())
            } else {
                None
            }
        }
    }
}

// The step by handles, where each that it names is held.
fn step_at(root: Root, standings: &[Option<Standing>], step: StepOf<Ref>) -> Option<Step>
    ensures { result ≡ step_at (handle_at root standings.now) step }
{
    let at = |what| handle_at(root, standings, what);
    Some(match step {
        StepOf::Open(dir, name) => StepOf::Open(at(dir)?, name),
        StepOf::Dup(handle) => StepOf::Dup(at(handle)?),
        StepOf::Parent(handle) => StepOf::Parent(at(handle)?),
        StepOf::ReadLink(handle) => StepOf::ReadLink(at(handle)?),
        StepOf::NameBelow(below, handle) => StepOf::NameBelow(at(below)?, at(handle)?),
        StepOf::List(handle) => StepOf::List(at(handle)?),
        StepOf::Close(handle) => StepOf::Close(at(handle)?),
        StepOf::MakeDir(dir, name) => StepOf::MakeDir(at(dir)?, name),
        StepOf::MakeFile(dir, name) => StepOf::MakeFile(at(dir)?, name),
        StepOf::MakeLink(dir, name, text) => StepOf::MakeLink(at(dir)?, name, text),
        StepOf::RemoveFile(dir, name) => StepOf::RemoveFile(at(dir)?, name),
        StepOf::RemoveDir(dir, name) => StepOf::RemoveDir(at(dir)?, name),
        StepOf::Rename(from, old, to, new, mode) => {
            StepOf::Rename(at(from)?, old, at(to)?, new, mode)
        }
    })
}

// Takes what a call keeps.
fn take_kept_by(standings: &mut [Option<Standing>], call: usize) -> Option<Standing>
    ensures taken { result ≡ standing_under standings.old call }
    ensures left { standings.new ≡ slice_set standings.old call None }
{
    if call < standings.len() {
        let place = &mut standings[call];
        place.take()
    } else {
        None
    }
}

// What is asked by a planned call, where what it names is held. What is to be released is kept no more.
fn request_of(root: Root, standings: &mut [Option<Standing>], planned: Planned) -> Option<Request>
    ensures request { result ≡ request_of root standings.old planned }
    ensures left { standings.new ≡ left_by planned standings.old }
{
    let op = match planned {
        Planned::Call(request) => return Some(request),
        Planned::Single(step) => Op::Single(step_at(root, standings, step)?),
        Planned::Release(call) => Op::Release(take_kept_by(standings, call)?),
    };
    let flags = Flags {
        beneath: false,
        no_links: false,
    };
    Some(Request { op, flags })
}

// The first turn of a call that asks this. One that names what isn't held is at its end at once.
fn start_call(alloc: Global, root: Root, request: Option<Request>) -> CallTurn
    ensures { IsStarted root request result }
{
    match request {
        Some(request) => Call::start(alloc, request, root),
        None => CallTurn::Done(Reply::Fault(Errno::BadHandle)),
    }
}

impl Ledger {
    /// The ledger of an actor at its root, with these calls to come.
    pub(crate) fn new(alloc: Global, root: Root, to_come: VecDeque<Planned>) -> Ledger
        ensures { result ≡ opened_ledger root to_come.items }
    {
        Ledger {
            root,
            to_come,
            outcomes: Outcomes::new(alloc),
            standings: Vec::new(alloc),
            kept: Vec::new(alloc),
        }
    }

    /// Who the actor is.
    pub(crate) fn actor(&self) -> Actor
        ensures { result ≡ self.now.root.owner.actor }
    {
        self.root.owner.actor
    }

    /// The outcomes, and what was another owner's to release.
    pub(crate) fn into_parts(self) -> (Outcomes, Vec<Standing>)
        ensures outcomes { result.0 ≡ self.outcomes }
        ensures kept { result.1.items ≡ self.kept }
    {
        (self.outcomes, self.kept)
    }

    /// Whether no call is to come.
    pub(crate) fn is_done(&self) -> bool
        ensures { result ≡ not (are_some self.now.to_come) }
    {
        self.to_come.is_empty()
    }

    /// Begins the next call, if one is to come. A call that names what isn't held is at its end at once.
    pub(crate) fn begin(&mut self, alloc: Global) -> Option<CallTurn>
        ensures { Begins self.old self.new result }
    {
        let planned = self.to_come.pop_front()?;
        let request = request_of(self.root, self.standings.as_mut_slice(), planned);
        Some(start_call(alloc, self.root, request))
    }

    /// Takes down how a call ended. NoMemory where the room for that was refused; then nothing is taken down.
    pub(crate) fn end(&mut self, alloc: Global, reply: Reply) -> Result<(), NoMemory>
        ensures taken_down { IfOk result (λ _. self.new ≡ taken_down self.old reply) }
        ensures to_come { self.new.to_come ≡ self.old.to_come }
        ensures not_taken_down { OnErr result (self.new ≡ self.old) }
    {
        let mut opened = None;
        let outcome = match reply {
            Reply::Opened(standing) => {
                let (node, kind) = (standing.node(), standing.kind());
                let names = standing.names().copy(alloc)?;
                opened = Some(standing);
                Outcome::Opened { node, kind, names }
            }
            Reply::Text(text) => Outcome::Text(text),
            Reply::Done => Outcome::Done,
            Reply::Count(count) => Outcome::Count(count),
            Reply::Stepped(answer) => Outcome::Stepped(answer),
            Reply::Kept(standing) => return self.end_kept(standing),
            Reply::Fault(error) => Outcome::Fault(error),
        };
        self.standings.reserve(1)?;
        self.outcomes.push(outcome)?;
        self.standings.push_reserved(opened);
        Ok(())
    }

    // The same of a call that keeps what was another owner's to release.
    fn end_kept(&mut self, standing: Standing) -> Result<(), NoMemory>
        ensures taken_down { IfOk result (λ _. self.new ≡ taken_down self.old (Kept standing)) }
        ensures to_come { self.new.to_come ≡ self.old.to_come }
        ensures not_taken_down { OnErr result (self.new ≡ self.old) }
    {
        self.kept.reserve(1)?;
        self.standings.reserve(1)?;
        self.outcomes.push(Outcome::Fault(Errno::Invalid))?;
        self.standings.push_reserved(None);
        self.kept.push_reserved(standing);
        Ok(())
    }
}
