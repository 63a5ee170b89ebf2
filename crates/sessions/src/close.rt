//! Closing a service: the book's history against the sessions' logs.
ghost use Rattle.std.specs.Prelude.{◌≡◌, ℕ, ◌==◌, ◌<◌, IsTrue, ◌↔◌, MatchOption, IfOk, IfErr, IfSome, ◌+◌, length, slice_get, None};
ghost use Rattle.std.specs.List.{list_any};
ghost use Rattle.step_resolver.specs.WalkHistory.{own_events};
ghost use Rattle.sessions.specs.Close.{least, is_stranger, is_missing, AllKnown, HasItsHistory, IsFit, FitsAt, AllFit, FirstUnfit, IsClosable, IsCause, IsClosed};
ghost use Rattle.tree_model.specs.History.{after_events, IsLegal};

use crate::service::Service;
use crate::session::Session;
use event_log::EventLog;
use race_core::Book;
use std::marker::Model;
use tree_model::{Actor, Snapshot, Tree};

/// A service whose book was taken out of its lock. Contracts see the book, the tag, the number of sessions, and the
/// number of lines and the tree with which the service was opened.
#[derive(Debug, Drop)]
pub struct Stopped<T: Tree> {
    book: Book<T>,
    tag: u64,
    count: u32,
    lines: u32,
    opening: Snapshot,
}

impl<T: Tree> Model for Stopped<T> {
    ghost use Rattle.sessions.specs.Close.{StoppedView};

    ghost Value = { StoppedView };

    ghost view = { λ s. record { book = s.book; tag = s.tag; count = s.count; lines = s.lines; opening = s.opening } };
}

/// Why a service isn't closed.
#[derive(Clone, Copy, Debug, PartialEq, Eq)]
pub enum CloseCause {
    /// The session at this place has another tag, a number that the service hasn't, or that of a session before it.
    Stranger(usize),
    /// No session has this number.
    Missing(u32),
    /// The book was opened on another tree or with another number of lines, or has an event of no session.
    Opening,
    /// The log of the session of this number isn't its own events in the book; or it found the book full, and the book
    /// has two free lines or more.
    Mismatch(u32),
}

/// Why a service isn't closed, and all that was to be closed, unchanged.
#[derive(Debug, Drop)]
pub struct CloseRefusal<T: Tree> {
    pub cause: CloseCause,
    pub stopped: Stopped<T>,
    pub sessions: Vec<Session>,
}

/// A closed service: the tree, the events of all its sessions, and the tree as it was opened.
#[derive(Debug, Drop)]
pub struct Closed<T> {
    pub tree: T,
    pub events: EventLog,
    pub opening: Snapshot,
}

impl<T: Tree> Service<T> {
    /// Takes the book out of its lock. No contract can say that it is the one that the sessions wrote; `close`
    /// compares. Takes no memory.
    pub fn stop(self) -> Stopped<T>
        ensures tag { result.tag ≡ self.tag }
        ensures count { result.count ≡ self.count }
        ensures lines { result.lines ≡ self.lines }
        ensures opening { result.opening ≡ self.opening }
    {
        let Service {
            book,
            tag,
            count,
            lines,
            opening,
        } = self;
        Stopped {
            book: book.into_inner().into_book(),
            tag,
            count,
            lines,
            opening,
        }
    }
}

// Whether one of the sessions has the actor's number.
fn is_among(sessions: &[Session], actor: Actor) -> bool
    ensures { result ≡ list_any (λ s. s.owner.actor == actor) sessions.now }
{
    sessions.iter().any(|session| session.owner.actor == actor)
}

// Whether the events are all of actors below that number.
fn all_known(events: &EventLog, count: u32) -> bool
    ensures { IsTrue result ↔ AllKnown count events.now.events }
{
    for at in 0..events.len() {
        if events.actor(at).number() >= count {
            return false;
        }
    }
    true
}

// Whether the event at a place is the actor's.
fn is_by(events: &EventLog, at: usize, actor: Actor) -> bool
    requires { at < length events.now.events }
    ensures { IfSome (slice_get events.now.events at) (λ event. IsTrue result ↔ (event.actor ≡ actor)) }
{
    events.actor(at) == actor
}

// The place after that one, where the log has an event there, and it is the one at a place of the others.
fn after_same(log: &EventLog, next: usize, events: &EventLog, at: usize) -> Option<usize>
    requires { at < length events.now.events }
    ensures { MatchOption result (slice_get log.now.events next ≡ slice_get events.now.events at → ⊥)
        (λ after. (slice_get log.now.events next ≡ slice_get events.now.events at) × (after ≡ next + 1)) }
{
    if next < log.len() && log.same_at(next, events, at) {
        Some(next + 1)
    } else {
        None
    }
}

// Whether the log is exactly the actor's events, each once and in their order.
fn is_own(events: &EventLog, actor: Actor, log: &EventLog) -> bool
    ensures { IsTrue result ↔ (log.now.events ≡ own_events actor events.now.events) }
{
    let mut next = 0;
    for at in 0..events.len() {
        if !is_by(events, at, actor) {
            continue;
        }
        match after_same(log, next, events, at) {
            Some(after) => next = after,
            None => return false,
        }
    }
    next == log.len()
}

impl<T: Tree> Stopped<T> {
    // Whether the session at a place is none of the service's, or has the number of one before it.
    fn is_stranger(&self, sessions: &[Session], at: usize) -> bool
        requires { at < length sessions.now }
        ensures { result ≡ is_stranger self.now sessions.now at }
    {
        let session = &sessions[at];
        session.owner.tag != self.tag
            || session.owner.actor.number() >= self.count
            || is_among(&sessions[..at], session.owner.actor)
    }

    // The first place of such a session.
    fn stranger(&self, sessions: &[Session]) -> Option<usize>
        ensures { result ≡ least (is_stranger self.now sessions.now) (length sessions.now) }
    {
        for at in 0..sessions.len() {
            if self.is_stranger(sessions, at) {
                return Some(at);
            }
        }
        None
    }

    // The least number that no session has.
    fn missing(&self, sessions: &[Session]) -> Option<u32>
        ensures { result ≡ least (is_missing sessions.now) self.now.count }
    {
        for number in 0..self.count {
            if !is_among(sessions, Actor::new(number)) {
                return Some(number);
            }
        }
        None
    }

    // Whether the book was opened on the service's tree with its lines, and has the events of its sessions alone.
    fn has_its_history(&self) -> bool
        ensures { IsTrue result ↔ HasItsHistory self.now }
    {
        self.opening.same(self.book.opening())
            && self.lines == self.book.lines()
            && all_known(self.book.events(), self.count)
    }

    // Whether the session's log is its own events, and it found the book full only where it is.
    fn is_fit(&self, session: &Session) -> bool
        ensures { IsTrue result ↔ IsFit self.now session.now }
    {
        is_own(
            self.book.events(),
            session.owner.actor,
            session.log.events(),
        ) && (!session.marked || self.book.free() < 2)
    }

    // Whether the session at a place is fit, where it has that number.
    fn fits_at(&self, sessions: &[Session], at: usize, number: u32) -> bool
        requires { at < length sessions.now }
        ensures { IsTrue result ↔ FitsAt self.now number (slice_get sessions.now at) }
    {
        let session = &sessions[at];
        session.owner.actor.number() != number || self.is_fit(session)
    }

    // Whether each session of that number is fit.
    fn all_fit(&self, sessions: &[Session], number: u32) -> bool
        ensures { IsTrue result ↔ AllFit self.now sessions.now number }
    {
        for at in 0..sessions.len() {
            if !self.fits_at(sessions, at, number) {
                return false;
            }
        }
        true
    }

    // The least number whose session isn't fit.
    fn unfit(&self, sessions: &[Session]) -> Option<u32>
        ensures { MatchOption result ((i : ℕ) → i < self.now.count → AllFit self.now sessions.now i)
            (λ i. FirstUnfit self.now sessions.now i) }
    {
        for number in 0..self.count {
            if !self.all_fit(sessions, number) {
                return Some(number);
            }
        }
        None
    }

    // Why these sessions don't close it.
    fn cause(&self, sessions: &[Session]) -> Option<CloseCause>
        ensures { MatchOption result (IsClosable self.now sessions.now)
            (λ cause. IsCause self.now sessions.now cause) }
    {
        if let Some(at) = self.stranger(sessions) {
            return Some(CloseCause::Stranger(at));
        }
        if let Some(number) = self.missing(sessions) {
            return Some(CloseCause::Missing(number));
        }
        if !self.has_its_history() {
            return Some(CloseCause::Opening);
        }
        match self.unfit(sessions) {
            Some(number) => Some(CloseCause::Mismatch(number)),
            None => None,
        }
    }

    /// Closes the service with its sessions: the events are a legal history from the opening tree and lead to the
    /// tree that is given, each session's log is exactly its own events, each once and in its order, and there are
    /// no others. Takes no memory.
    ///
    /// Errors, in this order, each exactly where it holds: Stranger at the first place of a session that isn't the
    /// service's, or comes twice; Missing for the least number without a session; Opening where the book was opened
    /// on another tree or with other lines, or has another's event; Mismatch for the least number whose session's
    /// log isn't its events, or which found the book full while two lines are free. All comes back unchanged, and
    /// `Stopped::into_parts` gives up the tree.
    pub fn close(self, sessions: Vec<Session>) -> Result<Closed<T>, CloseRefusal<T>>
        ensures closed { IfOk result (λ closed. IsClosable self sessions.items
            × IsClosed self sessions.items (T.state closed.tree) closed.events.events closed.opening) }
        ensures refused { IfErr result (λ refused. IsCause self sessions.items refused.cause
            × (refused.stopped ≡ self) × (refused.sessions ≡ sessions)) }
    {
        match self.cause(sessions.as_slice()) {
            Some(cause) => Err(CloseRefusal {
                cause,
                stopped: self,
                sessions,
            }),
            None => {
                let (tree, events, opening) = self.book.into_parts();
                Ok(Closed {
                    tree,
                    events,
                    opening,
                })
            }
        }
    }

    /// The tree, the events and the tree as it was opened, of the book that was under the lock, whoever's events
    /// these are: they are legal from that opening, and lead to the tree. For a service that isn't closed, too.
    /// Takes no memory.
    pub fn into_parts(self) -> (T, EventLog, Snapshot)
        ensures tree { T.state result.0 ≡ after_events self.book.opening self.book.events }
        ensures events { result.1.events ≡ self.book.events }
        ensures opening { result.2 ≡ self.book.opening }
        ensures legal { IsLegal self.book.opening self.book.events }
    {
        self.book.into_parts()
    }
}
