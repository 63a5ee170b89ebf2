//! What is told of a report.
ghost use Rattle.std.specs.Prelude.{◌≡◌, IfOk};
ghost use Rattle.event_log.specs.Output.{Gains};
ghost use Rattle.outcome_text.specs.Outcome.{is_named, named_lines_of, named_lines, outside_line, outside_lines, named_outside_of, named_outside, outcome_lines, judged_lines};

use crate::changes::changes;
use event_log::Output;
use path_text::{Bytes, NoMemory};
use race_core::{Outcome, Outcomes};
use report_text::{held, numbered, replies, replies_of, rows};
use std::alloc::Global;
use tree_model::{Snapshot, Tree};

// Whether an actor is one of those that are named.
fn is_named(named: &[u32], actor: u64) -> bool
    ensures { result ≡ is_named named.now actor }
{
    named.iter().any(|number| u64::from(*number) == actor)
}

// Adds the line of each call of an actor, where it is named.
fn named_replies_of(
    alloc: Global,
    out: &mut Output,
    named: &[u32],
    actor: u64,
    outcomes: &[Outcome],
) -> Result<(), NoMemory>
    ensures { Gains out.old out.new (named_lines_of named.now actor outcomes.now) result }
{
    if is_named(named, actor) {
        replies_of(alloc, out, actor, outcomes)
    } else {
        Ok(())
    }
}

// Adds the line of each call of the actors that are named.
fn named_replies(
    alloc: Global,
    out: &mut Output,
    named: &[u32],
    replies: &[Outcomes],
) -> Result<(), NoMemory>
    ensures { Gains out.old out.new (named_lines named.now replies.now) result }
{
    for (actor, outcomes) in replies.iter().enumerate() {
        named_replies_of(alloc, out, named, actor as u64, outcomes.as_slice())?;
    }
    Ok(())
}

// Adds how many steps of an actor acted outside of its root.
fn outside_by(out: &mut Output, actor: u64, steps: u64) -> Result<(), NoMemory>
    ensures { Gains out.old out.new (outside_line actor steps) result }
{
    numbered(out, "outside ", actor)?;
    numbered(out, " ", steps)?;
    out.text("\n")
}

// Adds how many steps of each actor did.
fn all_outside(out: &mut Output, outside: &[u64]) -> Result<(), NoMemory>
    ensures { Gains out.old out.new (outside_lines outside.now) result }
{
    for (actor, steps) in outside.iter().enumerate() {
        outside_by(out, actor as u64, *steps)?;
    }
    Ok(())
}

// Adds how many did, where the actor is named.
fn named_outside_of(out: &mut Output, named: &[u32], actor: u64, steps: u64) -> Result<(), NoMemory>
    ensures { Gains out.old out.new (named_outside_of named.now actor steps) result }
{
    if is_named(named, actor) {
        outside_by(out, actor, steps)
    } else {
        Ok(())
    }
}

// Adds how many steps of each of the actors that are named did.
fn named_outside(out: &mut Output, named: &[u32], outside: &[u64]) -> Result<(), NoMemory>
    ensures { Gains out.old out.new (named_outside named.now outside.now) result }
{
    for (actor, steps) in outside.iter().enumerate() {
        named_outside_of(out, named, actor as u64, *steps)?;
    }
    Ok(())
}

/// What a report comes to: its replies and its nodes, by whatever numbers, the tree whose handles count, and how many
/// steps of each actor acted outside of its root, where they were counted.
#[derive(Debug, Drop)]
pub(crate) struct Ended<'a, T> {
    pub replies: &'a [Outcomes],
    pub nodes: &'a Snapshot,
    pub tree: &'a T,
    pub outside: &'a [u64],
}

/// Adds what is printed of a report: where actors are named their replies alone, and else the replies of all, how
/// the entries of the tree differ from those of the opening one, and how many handles each of so many actors has
/// open; and then how many steps of these actors acted outside, where they were counted. NoMemory where its room was
/// refused.
pub(crate) fn outcome_lines<T: Tree>(
    alloc: Global,
    out: &mut Output,
    named: &[u32],
    opening: &Snapshot,
    ended: &Ended<T>,
    actors: u32,
) -> Result<(), NoMemory>
    ensures { Gains out.old out.new
        (outcome_lines named.now opening.now ended.now.replies.now
        (record { nodes = ended.now.nodes.now.nodes; handles = (T.state ended.now.tree.now).handles })
        ended.now.outside.now actors) result }
{
    if !named.is_empty() {
        named_replies(alloc, out, named, ended.replies)?;
        return named_outside(out, named, ended.outside);
    }
    replies(alloc, out, ended.replies)?;
    changes(alloc, out, "minus ", opening, ended.nodes)?;
    changes(alloc, out, "plus ", ended.nodes, opening)?;
    held(out, ended.tree, actors)?;
    all_outside(out, ended.outside)
}

/// Where a report is judged, all its lines but those of events, and then how many steps of each actor acted outside,
/// where they were counted. NoMemory where their room was refused.
pub(crate) fn judged_lines<T: Tree>(
    alloc: Global,
    judged: bool,
    ended: &Ended<T>,
    actors: u32,
) -> Result<Bytes, NoMemory>
    ensures { IfOk result (λ lines. lines ≡ judged_lines judged ended.now.replies.now
        (record { nodes = ended.now.nodes.now.nodes; handles = (T.state ended.now.tree.now).handles })
        ended.now.outside.now actors) }
{
    if !judged {
        return Bytes::from_slice(alloc, &[]);
    }
    let mut out = Output::new(alloc);
    replies(alloc, &mut out, ended.replies)?;
    rows(alloc, &mut out, ended.nodes)?;
    held(&mut out, ended.tree, actors)?;
    all_outside(&mut out, ended.outside)?;
    Bytes::from_slice(alloc, out.as_slice())
}
