//! The lines of events.
ghost use Rattle.std.specs.Prelude.{◌<◌, length, IfSome, slice_get};
ghost use Rattle.event_log.specs.Output.{Gains};
ghost use Rattle.event_log.specs.Words.{event_words};
ghost use Rattle.report_text.specs.Report.{event_line, event_lines};

use crate::words::numbered;
use event_log::{EventLog, Output};
use path_text::NoMemory;
use std::alloc::Global;
use tree_model::Event;

/// Adds what an event did, with no newline: `STEP = ANSWER`. NoMemory where its room was refused.
pub fn event_words(alloc: Global, out: &mut Output, event: &Event) -> Result<(), NoMemory>
    ensures { Gains out.old out.new (event_words event.now) result }
{
    out.step(&event.step.lend())?;
    out.text(" = ")?;
    out.answer(alloc, &event.answer)
}

// Adds the line of the event at a place.
fn event(out: &mut Output, log: &EventLog, at: usize) -> Result<(), NoMemory>
    requires { at < length log.now.events }
    ensures { IfSome (slice_get log.now.events at) (λ event. Gains out.old out.new (event_line at event) result) }
{
    numbered(out, "event ", at as u64)?;
    numbered(out, " actor ", u64::from(log.actor(at).number()))?;
    out.text(" ")?;
    log.write_event(out, at)?;
    out.text("\n")
}

/// Adds the line of each event, counted from 0: `event K actor I STEP = ANSWER`. The events are written from where
/// they are kept, so no memory is taken but for the text. NoMemory where the text's room was refused.
pub fn events(out: &mut Output, log: &EventLog) -> Result<(), NoMemory>
    ensures { Gains out.old out.new (event_lines log.now.events) result }
{
    for at in 0..log.len() {
        event(out, log, at)?;
    }
    Ok(())
}
