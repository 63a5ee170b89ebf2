//! A session's calls: one lock hold for each step.
ghost use Rattle.std.specs.Prelude.{◌≡◌, ◌<◌, ◌≤◌, ◌⊎◌, true, false, None, IfOk, IfErr, IfSome};
ghost use Rattle.race_core.specs.Book.{is_close};
ghost use Rattle.step_resolver.specs.Order.{IsWant};
ghost use Rattle.tree_model.specs.StepLaws.{opened_count};
ghost use Rattle.tree_model.specs.declared.answer.Answer.TheVariants.{Done as DoneAnswer, Refused as RefusedAnswer};
ghost use Rattle.tree_model.specs.declared.step.StepOf.TheVariants.{Close as CloseStep};
ghost use Rattle.path_text.specs.declared.errno.Errno.TheVariants.{BadHandle as NoHandle};
ghost use Rattle.handles.specs.Objects.{StandingObject};
ghost use Rattle.root_ops.specs.declared.op.Op.TheVariants.{Release as ReleaseOp};
ghost use Rattle.root_ops.specs.Order.{more, ends, releasing, steps_left};
ghost use Rattle.root_ops.specs.TurnView.{turn_view, below_of, Keeps};
ghost use Rattle.root_ops.specs.View.{reply_view, IsOwned};
ghost use Rattle.sessions.specs.Call.{logs_step, root_of, IsAnswer, Leads, LeadsFirst, Made, Called, ReleaseTells, EndsRelease, is_of, is_book_full, released_by, turned_away};
ghost use Rattle.sessions.specs.Session.{leaves_open};

use crate::gate::{Gate, Pause};
use crate::service::Service;
use crate::session::Session;
use crate::shared::OwnLog;
use path_text::Errno;
use root_ops::{Call, CallTurn, Op, Reply, Request};
use std::alloc::Global;
use std::sync::Wait;
use tree_model::{Answer, HandleNo, LentStep, StepOf, Tree};

// How many handles an answer has opened.
fn opened_count(answer: &Answer) -> usize
    ensures { result ≡ opened_count answer.now }
{
    match answer {
        Answer::Opened { .. } => 1,
        _ => 0,
    }
}

// The handle that is to be released.
fn released_by(op: &Op) -> Option<HandleNo>
    ensures { result ≡ released_by op.now }
{
    match op {
        Op::Release(standing) => Some(standing.handle()),
        _ => None,
    }
}

// What a session that isn't the service's is told.
fn turned_away(op: Op) -> Reply
    ensures { result ≡ turned_away op }
{
    match op {
        Op::Release(standing) => Reply::Kept(standing),
        _ => Reply::Fault(Errno::Invalid),
    }
}

// Whether the reply is that the book was full.
fn is_book_full(reply: &Reply) -> bool
    ensures { result ≡ is_book_full reply.now }
{
    match reply {
        Reply::Fault(error) => *error == Errno::BookFull,
        _ => false,
    }
}

// Waits until there is room for one more line, which there is already where a handle is open.
fn wait_for_room<R: Wait>(rt: &R, log: &mut OwnLog, open_handles: usize)
    requires { open_handles ≤ log.old.room }
    ensures events { log.new.events ≡ log.old.events }
    ensures room { 0 < log.new.room }
    ensures kept { log.old.room ≤ log.new.room }
{
    if open_handles > 0 {
        return;
    }
    for _ in rt.forever() {
        if log.reserve_one().is_ok() {
            return;
        }
    }
    unreachable!()
}

impl Session {
    // Makes a step that is no Close in one lock hold, and logs it: the book has it and the log, or neither. Errors:
    // BookFull, where the book refused it for that, and NoMemory.
    fn make<T: Tree, R: Wait>(
        &mut self,
        rt: &R,
        alloc: Global,
        service: &Service<T>,
        step: &LentStep<'_>,
    ) -> Result<Answer, Errno>
        requires { is_close step.now ≡ false }
        ensures ok { IfOk result (λ answer. self.new ≡ logs_step self.old step.now answer) }
        ensures err { IfErr result (λ error. IsWant error × (self.new ≡ self.old)) }
    {
        let Some(lines) = self.open_handles.checked_add(2) else {
            return Err(Errno::NoMemory);
        };
        let actor = self.owner.actor;
        let answer = service
            .book
            .lock(rt)
            .make(alloc, actor, step, &mut self.log, lines)?;
        self.open_handles += opened_count(&answer);
        Ok(answer)
    }

    // Closes a handle in one lock hold, and logs it. The book refuses it only where the handle isn't open, as where
    // another service's session with this tag closed it; the line that is logged all the same is one that the book
    // lacks, which `Stopped::close` tells.
    fn close<T: Tree, R: Wait>(
        &mut self,
        rt: &R,
        alloc: Global,
        service: &Service<T>,
        handle: HandleNo,
    )
        ensures { self.new ≡ logs_step self.old (CloseStep handle) DoneAnswer }
    {
        wait_for_room(rt, &mut self.log, self.open_handles);
        let actor = self.owner.actor;
        service
            .book
            .lock(rt)
            .close(alloc, actor, handle, &mut self.log);
        self.open_handles = self.open_handles.saturating_sub(1);
    }

    // Closes a handle in one lock hold, and logs it, in the book and in the log; or in neither, and false, where the
    // book has it not open, or the log no room, since it leaves no handle open.
    fn close_open<T: Tree, R: Wait>(
        &mut self,
        rt: &R,
        alloc: Global,
        service: &Service<T>,
        handle: HandleNo,
    ) -> bool
        ensures closed { result ≡ true → self.new ≡ logs_step self.old (CloseStep handle) DoneAnswer }
        ensures left { result ≡ false → self.new ≡ self.old }
    {
        if self.open_handles == 0 {
            return false;
        }
        let actor = self.owner.actor;
        let closed = service
            .book
            .lock(rt)
            .release(alloc, actor, handle, &mut self.log);
        if !closed {
            return false;
        }
        self.open_handles -= 1;
        true
    }

    // Closes what is to be released, and logs it. BadHandle, and no step, only where the handle isn't open by the log
    // either. One that is open by the log and not by the book is closed as any other, which `Stopped::close` tells.
    fn release<T: Tree, R: Wait>(
        &mut self,
        rt: &R,
        alloc: Global,
        service: &Service<T>,
        handle: HandleNo,
    ) -> Answer
        ensures { ((self.new ≡ logs_step self.old (CloseStep handle) DoneAnswer) × (result ≡ DoneAnswer))
            ⊎ ((self.new ≡ self.old) × (result ≡ RefusedAnswer NoHandle)
            × (leaves_open self.old.root self.old.log handle ≡ false)) }
    {
        if self.close_open(rt, alloc, service, handle) {
            return Answer::Done;
        }
        if !self.log.leaves_open(handle, self.root == handle) {
            return Answer::Refused(Errno::BadHandle);
        }
        self.close(rt, alloc, service, handle);
        Answer::Done
    }

    // The answer to the step that is due, which is made and logged, or the refusal for which it wasn't made.
    fn answer_due<T: Tree, R: Wait>(
        &mut self,
        rt: &R,
        alloc: Global,
        service: &Service<T>,
        call: &Call,
    ) -> Answer
        ensures { IsAnswer call.now.below call.now.doing self.old self.new result }
    {
        let step = call.due();
        if let StepOf::Close(handle) = step {
            self.close(rt, alloc, service, handle);
            return Answer::Done;
        }
        match self.make(rt, alloc, service, &step) {
            Ok(answer) => answer,
            Err(error) => Answer::Refused(error),
        }
    }

    // Makes the step that is due, and lets the call take its answer in place, or gives it back.
    fn pass_due<T: Tree, R: Wait>(
        &mut self,
        rt: &R,
        alloc: Global,
        service: &Service<T>,
        call: &mut Call,
    ) -> Option<Answer>
        ensures passed { result ≡ None
            → Leads call.old.below self.old (more call.old.doing) self.new (more call.new.doing) }
        ensures below { call.new.below ≡ call.old.below }
        ensures fewer { result ≡ None
            → steps_left call.new.below call.new.doing < steps_left call.old.below call.old.doing }
        ensures left { IfSome result (λ answer. (call.new ≡ call.old)
            × IsAnswer call.old.below call.old.doing self.old self.new answer) }
    {
        let answer = self.answer_due(rt, alloc, service, call);
        if call.pass(&answer) {
            return None;
        }
        Some(answer)
    }

    // Closes what is to be released, and takes the answer.
    fn give_back<T: Tree, R: Wait>(
        &mut self,
        rt: &R,
        alloc: Global,
        service: &Service<T>,
        call: Call,
        handle: HandleNo,
    ) -> CallTurn
        requires { call.doing ≡ releasing handle }
        ensures led { Leads call.below self.old (more call.doing) self.new (turn_view result) }
        ensures kept { Keeps call.below result }
        ensures released { (standing : StandingObject) → standing.handle ≡ handle
            → EndsRelease self.old standing (turn_view result) }
    {
        let answer = self.release(rt, alloc, service, handle);
        call.take(alloc, answer)
    }

    // Makes the steps that are due, one after another, up to the reply. The gate is called before each.
    fn drive<T: Tree, R: Wait, G: Gate>(
        &mut self,
        rt: &R,
        alloc: Global,
        service: &Service<T>,
        gate: &G,
        number: u64,
        call: Call,
    ) -> Reply
        ensures led { Leads call.below self.old (more call.doing) self.new (ends (reply_view result)) }
        ensures owned { IsOwned call.below.root.owner result }
    {
        let actor = self.owner.actor;
        let first = self.log.len();
        let mut call = call;
        loop {
            let step = self.log.len().saturating_sub(first) as u64;
            gate.between(Pause {
                actor,
                call: number,
                step,
            });
            match self.pass_due(rt, alloc, service, &mut call) {
                None => {}
                Some(answer) => match call.take(alloc, answer) {
                    CallTurn::More(next) => call = next,
                    CallTurn::Done(reply) => return reply,
                },
            }
        }
    }

    /// Carries out an operation below the session's root, each step in a lock hold of its own, and logs its events.
    /// The gate is called before each step, with no lock held. Where the reply is BookFull the session is marked for
    /// good.
    ///
    /// The reply is Invalid (EINVAL) if the session has another tag than the service, or a number that the service
    /// hasn't. A Release then hands back what it holds, and nothing is logged. Errors otherwise: those of
    /// `Call::start` and `Call::take`; BookFull (ENOSPC) where the book had no line for a step; NoMemory. A step
    /// that is so answered changed nothing and isn't logged. A Release of this owner's is made: BadHandle (EBADF) comes
    /// only where by the session's own log the handle isn't open, as after another Release of it.
    pub fn call<T: Tree, R: Wait, G: Gate>(
        &mut self,
        rt: &R,
        alloc: Global,
        service: &Service<T>,
        gate: &G,
        request: Request,
    ) -> Reply
        ensures called { is_of service.now self.old ≡ true → Called self.old request self.new result }
        ensures stranger { is_of service.now self.old ≡ false
            → (self.new ≡ self.old) × (result ≡ turned_away request.op) }
    {
        if !service.has(self) {
            return turned_away(request.op);
        }
        let number = self.calls;
        self.calls = number.saturating_add(1);
        let reply = self.carry_out(rt, alloc, service, gate, number, request);
        self.marked = self.marked || is_book_full(&reply);
        reply
    }

    // The call's first turn, after its only step where it is a Release.
    fn first_turn<T: Tree, R: Wait, G: Gate>(
        &mut self,
        rt: &R,
        alloc: Global,
        service: &Service<T>,
        gate: &G,
        number: u64,
        request: Request,
    ) -> CallTurn
        ensures led { LeadsFirst (below_of (root_of self.old) request.flags) request.op self.old
            self.new (turn_view result) }
        ensures kept { Keeps (below_of (root_of self.old) request.flags) result }
        ensures released { (standing : StandingObject) → request.op ≡ ReleaseOp standing
            → EndsRelease self.old standing (turn_view result) }
    {
        let released = released_by(&request.op);
        match (Call::start(alloc, request, self.root()), released) {
            (CallTurn::More(call), Some(handle)) => {
                let actor = self.owner.actor;
                gate.between(Pause {
                    actor,
                    call: number,
                    step: 0,
                });
                self.give_back(rt, alloc, service, call, handle)
            }
            (turn, _) => turn,
        }
    }

    // Makes all the call's steps.
    fn carry_out<T: Tree, R: Wait, G: Gate>(
        &mut self,
        rt: &R,
        alloc: Global,
        service: &Service<T>,
        gate: &G,
        number: u64,
        request: Request,
    ) -> Reply
        ensures made { Made self.old request self.new result }
        ensures released { (standing : StandingObject) → request.op ≡ ReleaseOp standing
            → ReleaseTells self.old standing (reply_view result) }
    {
        match self.first_turn(rt, alloc, service, gate, number, request) {
            CallTurn::More(call) => self.drive(rt, alloc, service, gate, number, call),
            CallTurn::Done(reply) => reply,
        }
    }
}
