//! The events of a run, each with what it changed.
ghost use Rattle.std.specs.Prelude.{◌≡◌, IfOk};
ghost use Rattle.event_log.specs.Output.{Gains};
ghost use Rattle.event_log.specs.Words.{line_of, step_words, answer_words};
ghost use Rattle.tree_model.specs.History.{after_event};
ghost use Rattle.pages.specs.History.{step_part, answer_part, deed_words, event_words, events_from};

use crate::changes::changes;
use event_log::{EventLog, Output};
use path_text::NoMemory;
use report_text::json_words::{comma, text};
use report_text::numbered;
use std::alloc::Global;
use tree_list::ListTree;
use tree_model::{Event, Snapshot, Tree};

// The words of a step.
fn step_of(alloc: Global, event: &Event) -> Result<Output, NoMemory>
    ensures { IfOk result (λ words. words ≡ line_of (step_words event.now.step)) }
{
    let mut words = Output::new(alloc);
    words.step(&event.step.lend())?;
    Ok(words)
}

// The words of an answer.
fn answer_of(alloc: Global, event: &Event) -> Result<Output, NoMemory>
    ensures { IfOk result (λ words. words ≡ line_of (answer_words event.now.answer)) }
{
    let mut words = Output::new(alloc);
    words.answer(alloc, &event.answer)?;
    Ok(words)
}

// Adds a step.
#[tactic(auto, unfolding(crate::specs::History::step_part))]
fn add_step(alloc: Global, out: &mut Output, event: &Event) -> Result<(), NoMemory>
    ensures { Gains out.old out.new (step_part event.now) result }
{
    let words = step_of(alloc, event)?;
    out.text(",\"step\":")?;
    text(out, words.as_slice())
}

// Adds an answer.
#[tactic(auto, unfolding(crate::specs::History::answer_part))]
fn add_answer(alloc: Global, out: &mut Output, event: &Event) -> Result<(), NoMemory>
    ensures { Gains out.old out.new (answer_part event.now) result }
{
    let words = answer_of(alloc, event)?;
    out.text(",\"answer\":")?;
    text(out, words.as_slice())
}

// Adds who made a step, the step and its answer.
#[tactic(auto, unfolding(crate::specs::History::deed_words))]
fn deed(alloc: Global, out: &mut Output, event: &Event) -> Result<(), NoMemory>
    ensures { Gains out.old out.new (deed_words event.now) result }
{
    numbered(out, "{\"actor\":", u64::from(event.actor.number()))?;
    add_step(alloc, out, event)?;
    add_answer(alloc, out, event)
}

// Adds an event that led from one tree to another.
fn add_event(
    alloc: Global,
    out: &mut Output,
    before: &Snapshot,
    after: &Snapshot,
    at: usize,
    event: &Event,
) -> Result<(), NoMemory>
    requires led { after.now ≡ after_event before.now event.now }
    ensures { Gains out.old out.new (event_words before.now at event.now) result }
{
    comma(out, at)?;
    deed(alloc, out, event)?;
    changes(alloc, out, before.nodes(), before.handles(), after)?;
    out.text("}")
}

/// Adds all events, whose steps are made again one by one on the tree that is given.
pub(crate) fn add_events(
    alloc: Global,
    out: &mut Output,
    mut tree: ListTree,
    events: &EventLog,
) -> Result<(), NoMemory>
    ensures { Gains out.old out.new (events_from tree 0 events.now.events) result }
{
    let mut before = tree.snapshot(alloc)?;
    for at in 0..events.len() {
        let event = events.event(alloc, at)?;
        let _answer = tree.step(alloc, event.actor, &event.step.lend())?;
        let after = tree.snapshot(alloc)?;
        add_event(alloc, out, &before, &after, at, &event)?;
        before = after;
    }
    Ok(())
}
