//! The lines of how calls ended.
ghost use Rattle.event_log.specs.Output.{Gains};
ghost use Rattle.report_text.specs.Report.{reply_words, reply_line, actor_lines, reply_lines};

use crate::words::numbered;
use event_log::Output;
use path_text::NoMemory;
use race_core::{Outcome, Outcomes};
use std::alloc::Global;

/// Adds how a call ended, with no newline: `opened KIND NODE PATH`, `text TEXT`, `done`, `count N`, `stepped ANSWER`
/// or `fault ENAME`. NoMemory where its room was refused.
pub fn reply_words(alloc: Global, out: &mut Output, outcome: &Outcome) -> Result<(), NoMemory>
    ensures { Gains out.old out.new (reply_words outcome.now) result }
{
    match outcome {
        Outcome::Opened { node, kind, names } => out.opened_words(alloc, *kind, *node, names),
        Outcome::Text(text) => {
            out.text("text ")?;
            out.escaped(text.as_slice())
        }
        Outcome::Done => out.text("done"),
        Outcome::Count(count) => numbered(out, "count ", *count),
        Outcome::Stepped(answer) => {
            out.text("stepped ")?;
            out.answer(alloc, answer)
        }
        Outcome::Fault(error) => out.fault_words(*error),
    }
}

// Adds the line of a call, by its actor's number and its own.
fn reply(
    alloc: Global,
    out: &mut Output,
    actor: u64,
    call: u64,
    outcome: &Outcome,
) -> Result<(), NoMemory>
    ensures { Gains out.old out.new (reply_line actor call outcome.now) result }
{
    numbered(out, "reply ", actor)?;
    numbered(out, " ", call)?;
    out.text(" ")?;
    reply_words(alloc, out, outcome)?;
    out.text("\n")
}

/// Adds the line of each call of an actor, by the actor's number and the call's, its calls counted from 0: `reply I J
/// REPLY`. NoMemory where its room was refused.
pub fn replies_of(
    alloc: Global,
    out: &mut Output,
    actor: u64,
    outcomes: &[Outcome],
) -> Result<(), NoMemory>
    ensures { Gains out.old out.new (actor_lines actor outcomes.now) result }
{
    for (call, outcome) in outcomes.iter().enumerate() {
        reply(alloc, out, actor, call as u64, outcome)?;
    }
    Ok(())
}

/// Adds the line of each call of each actor, the actors' numbers and each one's calls counted from 0: `reply I J
/// REPLY`. NoMemory where its room was refused.
pub fn replies(alloc: Global, out: &mut Output, replies: &[Outcomes]) -> Result<(), NoMemory>
    ensures { Gains out.old out.new (reply_lines replies.now) result }
{
    for (actor, outcomes) in replies.iter().enumerate() {
        replies_of(alloc, out, actor as u64, outcomes.as_slice())?;
    }
    Ok(())
}
