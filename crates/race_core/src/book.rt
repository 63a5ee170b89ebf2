//! A tree and the history of the steps on it.
ghost use Rattle.std.specs.Prelude.{◌≡◌, ◌<◌, ◌≤◌, ◌+◌, ◌++◌, [], ◌∷◌, suc, false, is_some, count_by, Err, MatchResult, MatchOption, IfOk, IfErr};
ghost use Rattle.event_log.specs.Records.{event_with};
ghost use Rattle.tree_model.specs.History.{IsLegal};
ghost use Rattle.tree_model.specs.StepLaws.{open_count, opened_count};
ghost use Rattle.race_core.specs.Book.{opened_book, MayRefuse, tree_now, free_lines, lines_needed, is_close, refusal, answer_now, booked, closed_now, is_done};
ghost use Rattle.tree_model.specs.Steps.{outcome, held};
ghost use Rattle.tree_model.specs.declared.step.StepOf.TheVariants.{Close as CloseStep};

use event_log::EventLog;
use path_text::{Errno, NoMemory};
use std::alloc::Global;
use std::marker::Model;
use tree_model::{Actor, Answer, HandleNo, LentStep, OpenHandle, Snapshot, StepOf, Tree};

mod copy;

/// The most lines that a book has.
pub const LINES_MAX: u32 = 1_000_000;

/// A tree, its opening snapshot and the events of all steps since. Contracts see the opening tree, the events and
/// the number of lines; the tree is the one that the events lead to.
#[derive(Debug, Drop)]
pub struct Book<T: Tree> {
    tree: T,
    opening: Snapshot,
    events: EventLog,
    lines: u32,
    // How many handles are open, whosever they are.
    open_handles: usize,
}

impl<T: Tree> Model for Book<T> {
    ghost use Rattle.race_core.specs.Book.{BookedHistory, IsBook};

    ghost Value = { BookedHistory };

    ghost view = { λ b. record { opening = b.opening; events = b.events.events; lines = b.lines } };

    ghost invariant = { λ b. IsBook b.opening (T.state b.tree) b.events.events b.lines b.open_handles b.events.room };
}

/// Why a book wasn't opened, and the tree, which is as it was.
#[derive(Debug, Drop)]
pub struct OpenRefusal<T> {
    pub cause: Errno,
    pub tree: T,
}

// How many handles are open.
fn open_count(handles: &[Option<OpenHandle>]) -> usize
    ensures { result ≡ count_by is_some handles.now }
{
    handles.iter().filter(|handle| handle.is_some()).count()
}

// How many handles an answer has opened.
fn opened_count(answer: &Answer) -> usize
    ensures { result ≡ opened_count answer.now }
{
    match answer {
        Answer::Opened { .. } => 1,
        _ => 0,
    }
}

// Whether the answer is `Done`.
fn is_done(answer: &Answer) -> bool
    ensures { result ≡ is_done answer.now }
{
    match answer {
        Answer::Done => true,
        _ => false,
    }
}

// Closes a handle, and tells whether it was open and the actor's; else the tree is as it was.
fn close_handle<T: Tree>(tree: &mut T, alloc: Global, actor: Actor, handle: HandleNo) -> bool
    ensures was_held { result ≡ is_some (held (T.state tree.old) actor handle) }
    ensures after { T.state tree.new ≡ (outcome (T.state tree.old) actor (CloseStep handle)).after }
{
    let step = StepOf::Close(handle);
    match tree.step(alloc, actor, &step) {
        Ok(answer) => is_done(&answer),
        Err(_error) => false,
    }
}

/// How many free lines a step needs: two where it may open a handle, for itself and for the handle's Close, none for a
/// Close, whose line is kept, and one else.
fn lines_needed(step: &LentStep<'_>) -> u32
    ensures { result ≡ lines_needed step.now }
{
    match step {
        StepOf::Open(_, _) | StepOf::Dup(_) | StepOf::Parent(_) => 2,
        StepOf::Close(_) => 0,
        _ => 1,
    }
}

impl<T: Tree> Book<T> {
    /// A book of that many lines over a tree, whose state now is the opening one. One line is kept for the Close of
    /// each open handle.
    ///
    /// Errors: Invalid over 1,000,000 lines; else BookFull (ENOSPC) where there are fewer lines than open handles, or
    /// NoMemory where room was refused, in place of BookFull too. The tree comes back with each.
    pub fn open(alloc: Global, tree: T, lines: u32) -> Result<Book<T>, OpenRefusal<T>>
        ensures opened { IfOk result (λ book. (book ≡ opened_book (T.state tree) lines)
            × (open_count (T.state tree) ≤ lines)) }
        ensures refused { IfErr result (λ refused. (refused.tree ≡ tree)
            × MayRefuse (T.state tree) lines refused.cause) }
        ensures bounded { IfOk result (λ _. lines ≤ LINES_MAX) }
    {
        if lines > LINES_MAX {
            let cause = Errno::Invalid;
            return Err(OpenRefusal { cause, tree });
        }
        let Ok(opening) = tree.snapshot(alloc) else {
            let cause = Errno::NoMemory;
            return Err(OpenRefusal { cause, tree });
        };
        let open_handles = open_count(opening.handles());
        if open_handles > lines as usize {
            let cause = Errno::BookFull;
            return Err(OpenRefusal { cause, tree });
        }
        let mut events = EventLog::new(alloc);
        if events.reserve(open_handles).is_err() {
            let cause = Errno::NoMemory;
            return Err(OpenRefusal { cause, tree });
        }
        Ok(Book {
            tree,
            opening,
            events,
            lines,
            open_handles,
        })
    }

    /// The tree as the events left it.
    pub fn tree(&self) -> &T
        ensures { T.state result.now ≡ tree_now self.now }
    {
        &self.tree
    }

    /// The tree as the book was opened.
    pub fn opening(&self) -> &Snapshot
        ensures { result.now ≡ self.now.opening }
    {
        &self.opening
    }

    /// The events of all steps, which are a legal history from the opening tree on.
    pub fn events(&self) -> &EventLog
        ensures events { result.now.events ≡ self.now.events }
        ensures legal { IsLegal self.now.opening self.now.events }
    {
        &self.events
    }

    /// How many lines it has at most.
    pub fn lines(&self) -> u32
        ensures { result ≡ self.now.lines }
    {
        self.lines
    }

    /// How many lines are free: neither an event's nor kept for the Close of an open handle. They never rise.
    pub fn free(&self) -> u32
        ensures { result ≡ free_lines self.now }
    {
        self.lines - (self.events.len() + self.open_handles) as u32
    }

    /// Takes one step of an actor, by the step table, and books it with its answer, which it gives.
    ///
    /// Errors, each of which changes nothing: BookFull (ENOSPC) where there are fewer free lines than the step
    /// needs, two for Open, Dup and Parent, none for Close and one for the others; BadHandle (EBADF) for the Close
    /// of a handle that isn't open or not the actor's; NoMemory where room was refused, never for a Close. A step
    /// that the tree refuses otherwise is an event too.
    pub fn step(
        &mut self,
        alloc: Global,
        actor: Actor,
        step: &LentStep<'_>,
    ) -> Result<Answer, Errno>
        ensures answer { MatchOption (refusal self.old actor step.now)
            (MatchResult result (λ answer. answer ≡ answer_now self.old actor step.now)
            (λ error. (error ≡ Errno.NoMemory) × (is_close step.now ≡ false))) (λ fault. result ≡ Err fault) }
        ensures after { MatchResult result (λ _. self.new ≡ booked self.old actor step.now)
            (λ _. self.new ≡ self.old) }
    {
        if self.free() < lines_needed(step) {
            return Err(Errno::BookFull);
        }
        match step {
            StepOf::Close(handle) => self.close(alloc, actor, *handle),
            _ => Ok(self.make(alloc, actor, step)?),
        }
    }

    // Closes a handle, and books it on the line that was kept for it. BadHandle where it isn't open or not the
    // actor's.
    fn close(&mut self, alloc: Global, actor: Actor, handle: HandleNo) -> Result<Answer, Errno>
        ensures answer { result ≡ closed_now self.old actor handle }
        ensures after { MatchResult result (λ _. self.new ≡ booked self.old actor (CloseStep handle))
            (λ _. self.new ≡ self.old) }
    {
        if !close_handle(&mut self.tree, alloc, actor, handle) {
            return Err(Errno::BadHandle);
        }
        self.events.push_close(actor, handle);
        self.open_handles -= 1;
        Ok(Answer::Done)
    }

    /// Takes a step of an actor that is no Close as `step` does, and adds its event to another log too: to both, or
    /// to neither. That log has that many lines of room before it gets the event, for this one and for Closes to
    /// come.
    ///
    /// Errors, each of which changes nothing: BookFull (ENOSPC) as for `step`; NoMemory where room was refused, the
    /// other log's too.
    pub fn step_into(
        &mut self,
        alloc: Global,
        actor: Actor,
        step: &LentStep<'_>,
        own: &mut EventLog,
        own_lines: usize,
    ) -> Result<Answer, Errno>
        requires no_close { is_close step.now ≡ false }
        requires own_lines { 0 < own_lines }
        ensures answer { MatchOption (refusal self.old actor step.now)
            (MatchResult result (λ answer. answer ≡ answer_now self.old actor step.now)
            (λ error. error ≡ Errno.NoMemory)) (λ fault. result ≡ Err fault) }
        ensures after { MatchResult result (λ _. self.new ≡ booked self.old actor step.now)
            (λ _. self.new ≡ self.old) }
        ensures own { MatchResult result
            (λ answer. own.new.events ≡ own.old.events ++ event_with actor step.now answer ∷ [])
            (λ _. own.new.events ≡ own.old.events) }
        ensures own_room { MatchResult result (λ _. own_lines ≤ suc own.new.room) (λ _. own.old.room ≤ own.new.room) }
    {
        if self.free() < lines_needed(step) {
            return Err(Errno::BookFull);
        }
        Ok(self.make_into(alloc, actor, step, own, own_lines)?)
    }

    /// Closes a handle as `step` does, and adds the event to another log too: to both; or to neither, and BadHandle
    /// (EBADF), where the handle isn't open or not the actor's. Takes no memory.
    pub fn close_into(
        &mut self,
        alloc: Global,
        actor: Actor,
        handle: HandleNo,
        own: &mut EventLog,
    ) -> Result<Answer, Errno>
        requires { 0 < own.old.room }
        ensures answer { result ≡ closed_now self.old actor handle }
        ensures after { MatchResult result (λ _. self.new ≡ booked self.old actor (CloseStep handle))
            (λ _. self.new ≡ self.old) }
        ensures own { MatchResult result
            (λ answer. own.new.events ≡ own.old.events ++ event_with actor (CloseStep handle) answer ∷ [])
            (λ _. own.new.events ≡ own.old.events) }
        ensures own_room { MatchResult result (λ _. own.old.room ≡ suc own.new.room)
            (λ _. own.new.room ≡ own.old.room) }
    {
        let answer = self.close(alloc, actor, handle)?;
        own.push_close(actor, handle);
        Ok(answer)
    }

    // Makes a step that is no Close, and books it. NoMemory where room was refused, for the names or the text of an
    // answer too: a step that is so answered changed nothing.
    fn make(&mut self, alloc: Global, actor: Actor, step: &LentStep<'_>) -> Result<Answer, NoMemory>
        requires lines { lines_needed step.now ≤ free_lines self.old }
        requires no_close { is_close step.now ≡ false }
        ensures answer { IfOk result (λ answer. answer ≡ answer_now self.old actor step.now) }
        ensures after { MatchResult result (λ _. self.new ≡ booked self.old actor step.now)
            (λ _. self.new ≡ self.old) }
    {
        self.events.reserve(self.open_handles + 2)?;
        self.events.reserve_texts(step)?;
        let answer = self.tree.step(alloc, actor, step)?;
        self.events.reserve_event(step, &answer)?;
        self.events.push_reserved(actor, step, &answer);
        self.open_handles += opened_count(&answer);
        Ok(answer)
    }

    // Makes a step that is no Close, and adds it to the book and to the other log. NoMemory where room was refused,
    // for the names or the text of an answer too: a step that is so answered changed nothing.
    fn make_into(
        &mut self,
        alloc: Global,
        actor: Actor,
        step: &LentStep<'_>,
        own: &mut EventLog,
        own_lines: usize,
    ) -> Result<Answer, NoMemory>
        requires lines { lines_needed step.now ≤ free_lines self.old }
        requires no_close { is_close step.now ≡ false }
        requires own_lines { 0 < own_lines }
        ensures answer { IfOk result (λ answer. answer ≡ answer_now self.old actor step.now) }
        ensures after { MatchResult result (λ _. self.new ≡ booked self.old actor step.now)
            (λ _. self.new ≡ self.old) }
        ensures own { MatchResult result
            (λ answer. own.new.events ≡ own.old.events ++ event_with actor step.now answer ∷ [])
            (λ _. own.new.events ≡ own.old.events) }
        ensures own_room { MatchResult result (λ _. own_lines ≤ suc own.new.room) (λ _. own.old.room ≤ own.new.room) }
    {
        self.events.reserve(self.open_handles + 2)?;
        own.reserve(own_lines)?;
        self.events.reserve_texts(step)?;
        own.reserve_texts(step)?;
        let answer = self.tree.step(alloc, actor, step)?;
        self.events.reserve_event(step, &answer)?;
        own.reserve_event(step, &answer)?;
        self.events.push_reserved(actor, step, &answer);
        own.push_reserved(actor, step, &answer);
        self.open_handles += opened_count(&answer);
        Ok(answer)
    }

    /// The tree, the events and the tree as the book was opened: the events are legal from it, and lead to the tree.
    pub fn into_parts(self) -> (T, EventLog, Snapshot)
        ensures tree { T.state result.0 ≡ tree_now self }
        ensures events { result.1.events ≡ self.events }
        ensures opening { result.2 ≡ self.opening }
        ensures legal { IsLegal self.opening self.events }
    {
        let Book {
            tree,
            opening,
            events,
            lines: _,
            open_handles: _,
        } = self;
        (tree, events, opening)
    }
}
