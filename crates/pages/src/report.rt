//! The report of a run as JSON.
ghost use Rattle.event_log.specs.Output.{Gains};
ghost use Rattle.report_text.specs.Report.{numbered};
ghost use Rattle.pages.specs.Run.{reply_at, replies_at, replies_words, replies_part, opening_part, events_words, events_part, report_json};

use crate::changes::changes;
use crate::history::add_events;
use event_log::{EventLog, Output};
use path_text::NoMemory;
use race_core::{Outcome, Outcomes};
use report_text::json_words::{comma, text};
use report_text::reply_words;
use std::alloc::Global;
use tree_list::ListTree;
use tree_model::{Snapshot, Tree};

// Adds how a call ended, by its place.
fn reply(alloc: Global, out: &mut Output, at: usize, outcome: &Outcome) -> Result<(), NoMemory>
    ensures { Gains out.old out.new (reply_at at outcome.now) result }
{
    let mut words = Output::new(alloc);
    reply_words(alloc, &mut words, outcome)?;
    comma(out, at)?;
    text(out, words.as_slice())
}

// Adds how an actor's calls ended.
fn all_replies(alloc: Global, out: &mut Output, outcomes: &[Outcome]) -> Result<(), NoMemory>
    ensures { Gains out.old out.new (numbered reply_at 0 outcomes.now) result }
{
    for (at, outcome) in outcomes.iter().enumerate() {
        reply(alloc, out, at, outcome)?;
    }
    Ok(())
}

// Adds the list of how an actor's calls ended, by the actor's place.
fn replies(alloc: Global, out: &mut Output, at: usize, outcomes: &[Outcome]) -> Result<(), NoMemory>
    ensures { Gains out.old out.new (replies_at at outcomes.now) result }
{
    comma(out, at)?;
    out.text("[")?;
    all_replies(alloc, out, outcomes)?;
    out.text("]")
}

// Adds these lists of all actors.
fn all_actors(alloc: Global, out: &mut Output, actors: &[Outcomes]) -> Result<(), NoMemory>
    ensures { Gains out.old out.new (numbered replies_at 0 actors.now) result }
{
    for (at, outcomes) in actors.iter().enumerate() {
        replies(alloc, out, at, outcomes.as_slice())?;
    }
    Ok(())
}

// Adds the list of how the calls ended.
fn add_actors(alloc: Global, out: &mut Output, actors: &[Outcomes]) -> Result<(), NoMemory>
    ensures { Gains out.old out.new (replies_words actors.now) result }
{
    out.text("[")?;
    all_actors(alloc, out, actors)?;
    out.text("]")
}

// Adds how the calls ended, up to the list of the events.
#[tactic(auto, unfolding(crate::specs::Run::replies_part))]
fn add_replies(alloc: Global, out: &mut Output, actors: &[Outcomes]) -> Result<(), NoMemory>
    ensures { Gains out.old out.new (replies_part actors.now) result }
{
    out.text(",\"replies\":")?;
    add_actors(alloc, out, actors)?;
    out.text(",\"events\":")
}

// Adds the version of the form, and what the tree has as the run begins.
#[tactic(auto, unfolding(crate::specs::Run::opening_part))]
fn add_opening(alloc: Global, out: &mut Output, opening: &Snapshot) -> Result<(), NoMemory>
    ensures { Gains out.old out.new (opening_part opening.now) result }
{
    out.text("{\"version\":1")?;
    changes(alloc, out, &[], &[], opening)
}

// Adds the list of the events.
fn list_events(
    alloc: Global,
    out: &mut Output,
    tree: ListTree,
    events: &EventLog,
) -> Result<(), NoMemory>
    ensures { Gains out.old out.new (events_words tree events.now.events) result }
{
    out.text("[")?;
    add_events(alloc, out, tree, events)?;
    out.text("]")
}

// Adds the events and the end.
#[tactic(auto, unfolding(crate::specs::Run::events_part))]
fn add_history(
    alloc: Global,
    out: &mut Output,
    tree: ListTree,
    events: &EventLog,
) -> Result<(), NoMemory>
    ensures { Gains out.old out.new (events_part tree events.now.events) result }
{
    list_events(alloc, out, tree, events)?;
    out.text("}\n")
}

/// Adds the report of a run from a tree in which the actors' roots are granted, as one line of JSON (RFC 8259): an
/// object with
///
/// - `version`, which is 1;
/// - `nodes`, the nodes of the tree as the run begins, each `[NODE,KIND,PARENT,NAME]`, or `[NODE,KIND]` where it stands
///   nowhere, as the top; and `handles`, the open handles, each `[HANDLE,ACTOR,NODE]`;
/// - `replies`, for each actor how each of its calls ended, in the words of a report's lines;
/// - `events`, of each its `actor`, its `step` and its `answer` in the words of a report's line, and the `nodes` and
///   `handles` that are new or have changed since just before it; one that was closed is `[HANDLE]`.
///
/// Names are written as in a report's lines, so each byte is printed ASCII. A copy of the tree is made for each event.
/// NoMemory where room was refused.
#[tactic(auto, unfolding(crate::specs::Run::report_json))]
pub fn report_json(
    alloc: Global,
    out: &mut Output,
    tree: ListTree,
    events: &EventLog,
    replies: &[Outcomes],
) -> Result<(), NoMemory>
    ensures { Gains out.old out.new (report_json tree events.now.events replies.now) result }
{
    let opening = tree.snapshot(alloc)?;
    add_opening(alloc, out, &opening)?;
    add_replies(alloc, out, replies)?;
    add_history(alloc, out, tree, events)
}
