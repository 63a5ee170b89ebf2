//! The book that sessions share under the lock, and the log that each of them has of its own.
ghost use Rattle.std.specs.Prelude.{◌≡◌, ◌<◌, ◌≤◌, ◌++◌, [], ◌∷◌, suc, length, true, false, Err, MatchResult, MatchOption, OnOk};
ghost use Rattle.event_log.specs.Handles.{open_after};
ghost use Rattle.event_log.specs.Records.{event_with};
ghost use Rattle.race_core.specs.Book.{is_close, refusal, answer_now, booked};
ghost use Rattle.sessions.specs.Shared.{closes};
ghost use Rattle.tree_model.specs.declared.answer.Answer.TheVariants.{Done as DoneAnswer};
ghost use Rattle.tree_model.specs.declared.step.StepOf.TheVariants.{Close as CloseStep};

use event_log::EventLog;
use path_text::{Errno, NoMemory};
use race_core::Book;
use std::alloc::Global;
use std::marker::Model;
use tree_model::{Actor, Answer, HandleNo, LentStep, Tree};

/// One session's own log. Events get into it by steps on the shared book alone.
#[derive(Debug, Drop)]
pub(crate) struct OwnLog {
    log: EventLog,
}

impl Model for OwnLog {
    ghost use Rattle.event_log.specs.Log.{Log};

    ghost Value = { Log };

    ghost view = { λ l. l.log };
}

impl OwnLog {
    /// No events. Only who has the tree makes a log: once it is in its book, there is none but the sessions' logs.
    pub(crate) fn new<T: Tree>(alloc: Global, _tree: &T) -> OwnLog
        ensures { result.events ≡ [] }
    {
        OwnLog {
            log: EventLog::new(alloc),
        }
    }

    /// Gets room for one more line. NoMemory where it was refused; no room is lost then.
    pub(crate) fn reserve_one(&mut self) -> Result<(), NoMemory>
        ensures events { self.new.events ≡ self.old.events }
        ensures ok { OnOk result (0 < self.new.room) }
        ensures room { self.old.room ≤ self.new.room }
    {
        self.log.reserve(1)
    }

    /// How many events there are.
    pub(crate) fn len(&self) -> usize
        ensures { result ≡ length self.now.events }
    {
        self.log.len()
    }

    /// Whether a handle is open after all events, where `was` says whether it was open before the first.
    pub(crate) fn leaves_open(&self, handle: HandleNo, was: bool) -> bool
        ensures { result ≡ open_after handle was self.now.events }
    {
        self.log.leaves_open(handle, was)
    }

    /// The events.
    pub(crate) fn events(&self) -> &EventLog
        ensures { result.now ≡ self.now }
    {
        &self.log
    }
}

/// A book on which each step is made into a session's own log too. Contracts see the book.
#[derive(Debug, Drop)]
pub(crate) struct SharedBook<T: Tree> {
    book: Book<T>,
}

impl<T: Tree> Model for SharedBook<T> {
    ghost use Rattle.race_core.specs.Book.{BookedHistory};

    ghost Value = { BookedHistory };

    ghost view = { λ s. s.book };
}

impl<T: Tree> SharedBook<T> {
    /// The book, from now on with logs beside it.
    pub(crate) fn new(book: Book<T>) -> SharedBook<T>
        ensures { result ≡ book }
    {
        SharedBook { book }
    }

    /// Makes a step that is no Close, and adds it to the book and to the log: to both, or to neither. The log has
    /// that many lines of room before it gets the event. Errors, each of which changes nothing: BookFull, and
    /// NoMemory.
    pub(crate) fn make(
        &mut self,
        alloc: Global,
        actor: Actor,
        step: &LentStep<'_>,
        own: &mut OwnLog,
        lines: usize,
    ) -> Result<Answer, Errno>
        requires no_close { is_close step.now ≡ false }
        requires lines { 0 < lines }
        ensures answer { MatchOption (refusal self.old actor step.now)
            (MatchResult result (λ answer. answer ≡ answer_now self.old actor step.now)
            (λ error. error ≡ Errno.NoMemory)) (λ fault. result ≡ Err fault) }
        ensures after { MatchResult result (λ _. self.new ≡ booked self.old actor step.now)
            (λ _. self.new ≡ self.old) }
        ensures own { MatchResult result
            (λ answer. own.new.events ≡ own.old.events ++ event_with actor step.now answer ∷ [])
            (λ _. own.new.events ≡ own.old.events) }
        ensures own_room { MatchResult result (λ _. lines ≤ suc own.new.room) (λ _. own.old.room ≤ own.new.room) }
    {
        self.book.step_into(alloc, actor, step, &mut own.log, lines)
    }

    /// Closes a handle, in the book and in the log: in both; or in neither, and false, where it isn't open or not
    /// the actor's. Takes no memory.
    pub(crate) fn release(
        &mut self,
        alloc: Global,
        actor: Actor,
        handle: HandleNo,
        own: &mut OwnLog,
    ) -> bool
        requires { 0 < own.old.room }
        ensures told { result ≡ closes self.old actor handle }
        ensures made { result ≡ true → self.new ≡ booked self.old actor (CloseStep handle) }
        ensures logged { result ≡ true
            → (own.new.events ≡ own.old.events ++ event_with actor (CloseStep handle) DoneAnswer ∷ [])
            × (own.old.room ≡ suc own.new.room) }
        ensures left { result ≡ false → self.new ≡ self.old }
        ensures own_left { result ≡ false → (own.new.events ≡ own.old.events) × (own.new.room ≡ own.old.room) }
    {
        match self.book.close_into(alloc, actor, handle, &mut own.log) {
            Ok(_answer) => true,
            Err(_error) => false,
        }
    }

    /// Closes a handle, in the book and in the log. Where it isn't open or not the actor's the book refuses it, and
    /// the log has the line all the same. Takes no memory.
    pub(crate) fn close(&mut self, alloc: Global, actor: Actor, handle: HandleNo, own: &mut OwnLog)
        requires { 0 < own.old.room }
        ensures made { closes self.old actor handle ≡ true → self.new ≡ booked self.old actor (CloseStep handle) }
        ensures left { closes self.old actor handle ≡ false → self.new ≡ self.old }
        ensures own { own.new.events ≡ own.old.events ++ event_with actor (CloseStep handle) DoneAnswer ∷ [] }
        ensures own_room { own.old.room ≡ suc own.new.room }
    {
        if !self.release(alloc, actor, handle, own) {
            own.log.push_close(actor, handle);
        }
    }

    /// The book.
    pub(crate) fn into_book(self) -> Book<T>
        ensures { result ≡ self }
    {
        self.book
    }
}
