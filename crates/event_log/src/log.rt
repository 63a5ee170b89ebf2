//! The log itself.
ghost use Rattle.std.specs.Prelude.{◌≡◌, ℕ, List, ◌≤◌, ◌<◌, suc, ◌+◌, ◌++◌, [], ◌∷◌, length, take, slice_get, Some, IsTrue, ◌↔◌, IfOk, IfSome, OnOk, OnErr, IsOk};
ghost use Rattle.tree_model.specs.declared.answer.Answer.TheVariants.{Done as DoneAnswer};
ghost use Rattle.tree_model.specs.declared.step.StepOf.TheVariants.{Close as CloseStep};
ghost use Rattle.event_log.specs.Output.{Gains};
ghost use Rattle.event_log.specs.Words.{event_words};
ghost use Rattle.event_log.specs.Handles.{open_after};
ghost use Rattle.event_log.specs.Records.{event_with, event_texts, events_read, texts_of, IsLog};
ghost use Rattle.event_log.specs.Shapes.{step_texts, answer_texts};

use crate::compare::{is_answer, is_step};
use crate::output::Output;
use crate::print::{write_answer, write_step};
use crate::read::{after_step, back, lent_step, read_answer};
use crate::shape::{AnswerShape, Record, StepShape};
use crate::write::{add_event, answer_len, step_len};
use path_text::NoMemory;
use std::alloc::Global;
use std::marker::Model;
use tree_model::{Actor, Answer, Event, HandleNo, LentStep};

mod copy;

/// Events in their order, kept as records. Contracts see the events, and for how many more events and bytes of
/// names and texts there is memory already.
#[derive(Debug, Drop)]
pub struct EventLog {
    records: Vec<Record>,
    // The names and texts of all events, one after another.
    bytes: Vec<u8>,
}

impl Model for EventLog {
    ghost use Rattle.std.specs.Prelude.{◌-◌, vec_len, vec_capacity};
    ghost use Rattle.event_log.specs.Log.{Log};
    ghost use Rattle.event_log.specs.Records.{events_read, IsLog};

    ghost Value = { Log };

    ghost view = { λ l. record {
      events = events_read l.bytes.items l.records.items;
      room = vec_capacity l.records - vec_len l.records;
      text_room = vec_capacity l.bytes - vec_len l.bytes;
    } };

    ghost invariant = { λ l. IsLog l.bytes.items l.records.items };
}

// Where the names and texts of the event at a place begin; past the last event, where the buffer ends.
fn start_of(records: &[Record], bytes: &[u8], at: usize) -> usize
    requires { IsLog bytes.now records.now }
    ensures { result ≡ length (texts_of (take at (events_read bytes.now records.now))) }
{
    if at < records.len() {
        records[at].start
    } else {
        bytes.len()
    }
}

// The names and texts of the event at a place.
fn texts_at<'a>(records: &[Record], bytes: &'a [u8], at: usize) -> &'a [u8]
    requires log { IsLog bytes.now records.now }
    requires within { at < length records.now }
    ensures { IfSome (slice_get (events_read bytes.now records.now) at) (λ event. result.now ≡ event_texts event) }
{
    let start = start_of(records, bytes, at);
    let end = start_of(records, bytes, at + 1);
    &bytes[start..end]
}

// Whether a handle is open after the events of these records, where `was` says whether it was open before.
fn is_open_after(records: &[Record], handle: HandleNo, was: bool) -> bool
    ensures { (bytes : List ℕ) → result ≡ open_after handle was (events_read bytes records.now) }
{
    let mut is_open = was;
    for record in records {
        is_open = record.leaves(handle, is_open);
    }
    is_open
}

impl EventLog {
    /// No events. Takes no memory.
    pub fn new(alloc: Global) -> EventLog
        ensures { result.events ≡ [] }
    {
        EventLog {
            records: Vec::new(alloc),
            bytes: Vec::new(alloc),
        }
    }

    /// Gets room for that many more events. NoMemory where it was refused; no room is lost then.
    pub fn reserve(&mut self, more: usize) -> Result<(), NoMemory>
        ensures events { self.new.events ≡ self.old.events }
        ensures ok { OnOk result (more ≤ self.new.room) }
        ensures room { self.old.room ≤ self.new.room }
        ensures text_room { self.old.text_room ≤ self.new.text_room }
    {
        self.records.reserve(more)?;
        Ok(())
    }

    /// Gets room for the names and the text of a step. NoMemory where it was refused; no room is lost then.
    pub fn reserve_texts(&mut self, step: &LentStep<'_>) -> Result<(), NoMemory>
        ensures events { self.new.events ≡ self.old.events }
        ensures ok { OnOk result (length (step_texts step.now) ≤ self.new.text_room) }
        ensures room { self.old.room ≤ self.new.room }
        ensures text_room { self.old.text_room ≤ self.new.text_room }
    {
        self.bytes.reserve(step_len(step))?;
        Ok(())
    }

    /// Gets room for an event, and for its names and texts. NoMemory where it was refused; no room is lost then. It
    /// takes no memory where there is that room.
    pub fn reserve_event(&mut self, step: &LentStep<'_>, answer: &Answer) -> Result<(), NoMemory>
        ensures events { self.new.events ≡ self.old.events }
        ensures ok { OnOk result ((0 < self.new.room)
            × (length (step_texts step.now ++ answer_texts answer.now) ≤ self.new.text_room)) }
        ensures room { self.old.room ≤ self.new.room }
        ensures text_room { self.old.text_room ≤ self.new.text_room }
        ensures fits { 0 < self.old.room
            → length (step_texts step.now ++ answer_texts answer.now) ≤ self.old.text_room → IsOk result }
    {
        // No memory holds more bytes than can be counted.
        let left = usize::MAX - self.bytes.len();
        let size = step_len(step);
        if size > left {
            return Err(NoMemory);
        }
        let Some(more) = answer_len(answer, left - size) else {
            return Err(NoMemory);
        };
        self.records.reserve(1)?;
        self.bytes.reserve(size + more)?;
        Ok(())
    }

    /// Adds an event at the end, for which there is room. Takes no memory.
    pub fn push_reserved(&mut self, actor: Actor, step: &LentStep<'_>, answer: &Answer)
        requires room { 0 < self.old.room }
        requires text_room { length (step_texts step.now ++ answer_texts answer.now) ≤ self.old.text_room }
        ensures events { self.new.events ≡ self.old.events ++ event_with actor step.now answer.now ∷ [] }
        ensures room { self.old.room ≡ suc self.new.room }
    {
        let start = self.bytes.len();
        add_event(&mut self.bytes, step, answer);
        self.records.push_reserved(Record {
            start,
            actor,
            step: StepShape::of(step),
            answer: AnswerShape::of(answer),
        });
    }

    /// Adds an event at the end. NoMemory where room was refused; the events are then unchanged.
    pub fn push(
        &mut self,
        actor: Actor,
        step: &LentStep<'_>,
        answer: &Answer,
    ) -> Result<(), NoMemory>
        ensures ok { OnOk result (self.new.events ≡ self.old.events ++ event_with actor step.now answer.now ∷ []) }
        ensures err { OnErr result (self.new.events ≡ self.old.events) }
    {
        self.reserve_event(step, answer)?;
        self.push_reserved(actor, step, answer);
        Ok(())
    }

    /// Adds the event of a handle that its actor closed, at the end. Takes no memory.
    pub fn push_close(&mut self, actor: Actor, handle: HandleNo)
        requires { 0 < self.old.room }
        ensures events { self.new.events ≡ self.old.events ++ event_with actor (CloseStep handle) DoneAnswer ∷ [] }
        ensures room { self.old.room ≡ suc self.new.room }
    {
        self.records.push_reserved(Record {
            start: self.bytes.len(),
            actor,
            step: StepShape::Close(handle),
            answer: AnswerShape::Done,
        });
    }

    /// How many events there are.
    pub fn len(&self) -> usize
        ensures { result ≡ length self.now.events }
    {
        self.records.len()
    }

    /// Whether there is no event.
    pub fn is_empty(&self) -> bool
        ensures { IsTrue result ↔ (self.now.events ≡ []) }
    {
        self.records.is_empty()
    }

    /// The event at a place, counted from 0. NoMemory where its room was refused.
    pub fn event(&self, alloc: Global, at: usize) -> Result<Event, NoMemory>
        requires { at < length self.now.events }
        ensures { IfOk result (λ event. slice_get self.now.events at ≡ Some event) }
    {
        let record = &self.records[at];
        let own = back(self.bytes.as_slice(), record.start);
        let step = lent_step(&record.step, own).copy(alloc)?;
        let answer = read_answer(alloc, &record.answer, after_step(&record.step, own))?;
        Ok(Event {
            actor: record.actor,
            step,
            answer,
        })
    }

    /// Adds what the event at a place, counted from 0, did, with no newline: `STEP = ANSWER`. It is written from
    /// where it is kept, and takes no memory but for the text. NoMemory where the text's room was refused.
    pub fn write_event(&self, out: &mut Output, at: usize) -> Result<(), NoMemory>
        requires { at < length self.now.events }
        ensures { IfSome (slice_get self.now.events at) (λ event. Gains out.old out.new (event_words event) result) }
    {
        let record = &self.records[at];
        let own = back(self.bytes.as_slice(), record.start);
        write_step(out, &record.step, own)?;
        out.text(" = ")?;
        write_answer(out, &record.answer, after_step(&record.step, own))
    }

    /// Whose event stands at a place, counted from 0. Takes no memory.
    pub fn actor(&self, at: usize) -> Actor
        requires { at < length self.now.events }
        ensures { IfSome (slice_get self.now.events at) (λ event. result ≡ event.actor) }
    {
        self.records[at].actor
    }

    /// Whether a handle is open after all events, where `was` says whether it was open before the first. Takes no
    /// memory.
    pub fn leaves_open(&self, handle: HandleNo, was: bool) -> bool
        ensures { result ≡ open_after handle was self.now.events }
    {
        is_open_after(self.records.as_slice(), handle, was)
    }

    /// Whether the event at a place, counted from 0, is that one. Takes no memory.
    pub fn is(&self, at: usize, actor: Actor, step: &LentStep<'_>, answer: &Answer) -> bool
        requires { at < length self.now.events }
        ensures { IsTrue result ↔ (slice_get self.now.events at ≡ Some (event_with actor step.now answer.now)) }
    {
        let record = &self.records[at];
        let own = back(self.bytes.as_slice(), record.start);
        record.actor == actor
            && is_step(&record.step, own, step)
            && is_answer(&record.answer, after_step(&record.step, own), answer)
    }

    /// Whether the event at a place is equal to another log's at another place, both counted from 0. Takes no
    /// memory.
    pub fn same_at(&self, at: usize, other: &EventLog, there: usize) -> bool
        requires here { at < length self.now.events }
        requires there { there < length other.now.events }
        ensures { IsTrue result ↔ (slice_get self.now.events at ≡ slice_get other.now.events there) }
    {
        let (mine, theirs) = (&self.records[at], &other.records[there]);
        if !mine.is_like(theirs) {
            return false;
        }
        let texts = texts_at(self.records.as_slice(), self.bytes.as_slice(), at);
        texts == texts_at(other.records.as_slice(), other.bytes.as_slice(), there)
    }
}
