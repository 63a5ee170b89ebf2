//! The heading: each actor's root, and how its calls ended.
ghost use Rattle.std.specs.Prelude.{◌≡◌, ◌++◌, ◌<◌, ◌≤◌, [], length, slice_get, IfOk, OnOk};
ghost use Rattle.std.specs.Option.{option_copied};
ghost use Rattle.event_log.specs.Output.{Gains};
ghost use Rattle.drawings.specs.Picture.{root_head, reply_tone, reply_text, call_head, call_heads, outcomes_at, actor_heads, heads_of};

use crate::calls::CallWords;
use crate::picture::{ACTORS_MAX, Head, Tone};
use crate::places::{add_place, way_of};
use event_log::Output;
use path_text::NoMemory;
use race_core::{Outcome, Outcomes};
use report_text::reply_words;
use std::alloc::Global;
use tree_model::{Actor, HandleNo, Snapshot};

// The line of an actor's root.
fn root_head(alloc: Global, opening: &Snapshot, actor: u32) -> Result<Head, NoMemory>
    ensures { IfOk result (λ head. head ≡ root_head opening.now actor) }
{
    let number = u64::from(actor);
    let way = way_of(alloc, opening, Actor::new(actor), HandleNo::new(number))?;
    let mut text = Output::new(alloc);
    text.text("actor ")?;
    text.number(number)?;
    text.text(" below ")?;
    add_place(alloc, &mut text, &way)?;
    Ok(Head {
        tone: Tone::Plain,
        text,
    })
}

// How an answer looks.
fn reply_tone(reply: Option<&Outcome>) -> Tone
    ensures { result ≡ reply_tone (option_copied reply.entry) }
{
    match reply {
        Some(Outcome::Fault(_)) => Tone::Failed,
        Some(Outcome::Stepped(_)) | None => Tone::Plain,
        Some(_) => Tone::Good,
    }
}

// Adds how a call ended.
fn add_reply(alloc: Global, out: &mut Output, reply: Option<&Outcome>) -> Result<(), NoMemory>
    ensures { Gains out.old out.new (reply_text (option_copied reply.entry)) result }
{
    match reply {
        Some(outcome) => {
            out.text(" = ")?;
            reply_words(alloc, out, outcome)
        }
        None => Ok(()),
    }
}

// The line of the call of that number.
fn call_head(
    alloc: Global,
    call: &Output,
    outcomes: &[Outcome],
    number: usize,
) -> Result<Head, NoMemory>
    ensures { IfOk result (λ head. head ≡ call_head call.now (slice_get outcomes.now number)) }
{
    let reply = outcomes.get(number);
    let mut text = Output::new(alloc);
    text.text("  ")?;
    text.bytes(call.as_slice())?;
    add_reply(alloc, &mut text, reply)?;
    Ok(Head {
        tone: reply_tone(reply),
        text,
    })
}

// Adds the line of each call of an actor.
fn add_calls(
    alloc: Global,
    heads: &mut Vec<Head>,
    outcomes: &[Outcome],
    calls: &[Output],
) -> Result<(), NoMemory>
    ensures { OnOk result (heads.new.items ≡ heads.old.items ++ call_heads outcomes.now calls.now) }
{
    for (number, call) in calls.iter().enumerate() {
        let head = call_head(alloc, call, outcomes, number)?;
        heads.push(head)?;
    }
    Ok(())
}

// How an actor's calls ended.
fn outcomes_at(replies: &[Outcomes], actor: usize) -> &[Outcome]
    ensures { result.now ≡ outcomes_at replies.now actor }
{
    match replies.get(actor) {
        Some(outcomes) => outcomes.as_slice(),
        None => &[],
    }
}

// Adds the lines of an actor.
fn add_actor(
    alloc: Global,
    heads: &mut Vec<Head>,
    opening: &Snapshot,
    replies: &[Outcomes],
    actor: usize,
    calls: &CallWords,
) -> Result<(), NoMemory>
    requires { actor < ACTORS_MAX }
    ensures { OnOk result (heads.new.items ≡ heads.old.items ++ actor_heads opening.now replies.now actor calls.now) }
{
    let root = root_head(alloc, opening, actor as u32)?;
    heads.push(root)?;
    add_calls(alloc, heads, outcomes_at(replies, actor), &calls.calls)
}

/// The lines of all actors.
pub(crate) fn heads_of(
    alloc: Global,
    opening: &Snapshot,
    calls: &[CallWords],
    replies: &[Outcomes],
) -> Result<Vec<Head>, NoMemory>
    requires { length calls.now ≤ ACTORS_MAX }
    ensures { IfOk result (λ heads. heads.items ≡ heads_of opening.now calls.now replies.now) }
{
    let mut heads = Vec::new(alloc);
    for (actor, own) in calls.iter().enumerate() {
        add_actor(alloc, &mut heads, opening, replies, actor, own)?;
    }
    Ok(heads)
}
