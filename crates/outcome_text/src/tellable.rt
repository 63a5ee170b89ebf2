//! Which properties name a line that a report on a world's run can have.
ghost use Rattle.std.specs.Prelude.{◌≡◌, ◌++◌, IfOk, decimal};
ghost use Rattle.std.specs.List.{list_any};
ghost use Rattle.outcome_text.specs.Tellable.{meets, reply_start, meets_reply, is_reply_of, is_reply, is_of_actor, is_count, can_be_told, first_untold};

use crate::property::{Property, tells};
use event_log::Output;
use path_text::NoMemory;
use race_core::{ActorPlan, Planned};
use report_text::numbered;
use std::alloc::Global;

// Whether one of the two is the other's beginning, by words.
fn meets(text: &[u8], start: &[u8]) -> bool
    ensures { result ≡ meets text.now start.now }
{
    tells(text, start) || tells(start, text)
}

// What a reply begins with: a word, or `fault` and the name of an error.
const REPLY_HEADS: [&str; 20] = [
    "opened",
    "text",
    "done",
    "count",
    "stepped",
    "fault ENOENT",
    "fault EBADF",
    "fault EAGAIN",
    "fault ENOMEM",
    "fault EBUSY",
    "fault EEXIST",
    "fault EXDEV",
    "fault ENOTDIR",
    "fault EISDIR",
    "fault EINVAL",
    "fault EMFILE",
    "fault ENOSPC",
    "fault ENAMETOOLONG",
    "fault ENOTEMPTY",
    "fault ELOOP",
];

// Whether a text meets the line of a reply that begins so, by the numbers of the actor and of its call.
#[tactic(auto, unfolding(crate::specs::Tellable::reply_start))]
fn meets_head(
    alloc: Global,
    text: &[u8],
    actor: u64,
    call: u64,
    head: &str,
) -> Result<bool, NoMemory>
    ensures { IfOk result (λ is. is ≡ meets text.now (reply_start actor call head.now)) }
{
    let mut start = Output::new(alloc);
    numbered(&mut start, "reply ", actor)?;
    numbered(&mut start, " ", call)?;
    start.text(" ")?;
    start.text(head)?;
    Ok(meets(text, start.as_slice()))
}

// Whether it meets that of a reply that begins with one of these.
fn meets_one(
    alloc: Global,
    text: &[u8],
    actor: u64,
    call: u64,
    heads: &[&str],
) -> Result<bool, NoMemory>
    ensures { IfOk result (λ is.
        is ≡ list_any (λ head. meets text.now (reply_start actor call head.now)) heads.now) }
{
    for head in heads {
        if meets_head(alloc, text, actor, call, head)? {
            return Ok(true);
        }
    }
    Ok(false)
}

// Whether it meets that of the reply to a call.
#[tactic(auto, unfolding(crate::specs::Tellable::meets_reply))]
fn meets_reply(alloc: Global, text: &[u8], actor: u64, call: u64) -> Result<bool, NoMemory>
    ensures { IfOk result (λ is. is ≡ meets_reply text.now actor call) }
{
    meets_one(alloc, text, actor, call, &REPLY_HEADS)
}

// Whether it meets that of one of an actor's calls.
fn is_reply_of(alloc: Global, text: &[u8], actor: u64, calls: &[Planned]) -> Result<bool, NoMemory>
    ensures { IfOk result (λ is. is ≡ is_reply_of text.now actor calls.now) }
{
    for (call, _) in calls.iter().enumerate() {
        if meets_reply(alloc, text, actor, call as u64)? {
            return Ok(true);
        }
    }
    Ok(false)
}

// Whether it meets that of a call of one of the actors.
fn is_reply(alloc: Global, text: &[u8], plans: &[ActorPlan]) -> Result<bool, NoMemory>
    ensures { IfOk result (λ is. is ≡ is_reply text.now plans.now) }
{
    for (actor, plan) in plans.iter().enumerate() {
        if is_reply_of(alloc, text, actor as u64, plan.calls.as_slice())? {
            return Ok(true);
        }
    }
    Ok(false)
}

// Whether a text meets the line of an actor that begins with that word, by the actor's number.
fn meets_line(alloc: Global, text: &[u8], word: &str, actor: u64) -> Result<bool, NoMemory>
    ensures { IfOk result (λ is. is ≡ meets text.now (word.now ++ decimal actor)) }
{
    let mut start = Output::new(alloc);
    numbered(&mut start, word, actor)?;
    Ok(meets(text, start.as_slice()))
}

// Whether it meets that of one of the actors.
fn is_of_actor(
    alloc: Global,
    text: &[u8],
    word: &str,
    plans: &[ActorPlan],
) -> Result<bool, NoMemory>
    ensures { IfOk result (λ is. is ≡ is_of_actor text.now word.now plans.now) }
{
    for (actor, _) in plans.iter().enumerate() {
        if meets_line(alloc, text, word, actor as u64)? {
            return Ok(true);
        }
    }
    Ok(false)
}

// Whether it meets that of an actor's handles, or of its steps outside where they are counted.
fn is_count(
    alloc: Global,
    outside: bool,
    plans: &[ActorPlan],
    text: &[u8],
) -> Result<bool, NoMemory>
    ensures { IfOk result (λ is. is ≡ is_count outside plans.now text.now) }
{
    if is_of_actor(alloc, text, "held ", plans)? {
        return Ok(true);
    }
    if outside {
        is_of_actor(alloc, text, "outside ", plans)
    } else {
        Ok(false)
    }
}

// Whether a report can have a line that a text is, begins or is begun by: one of an entry, whatever it says; one that
// counts an actor's handles or steps; or one of the reply to a call.
fn can_be_told(
    alloc: Global,
    outside: bool,
    plans: &[ActorPlan],
    text: &[u8],
) -> Result<bool, NoMemory>
    ensures { IfOk result (λ can. can ≡ can_be_told outside plans.now text.now) }
{
    if meets(text, b"row") || is_count(alloc, outside, plans, text)? {
        return Ok(true);
    }
    is_reply(alloc, text, plans)
}

/// The place, counted from 0, of the first property that names an actor who isn't there, a call that its actor doesn't
/// have, or a reply that begins with other words than one can. NoMemory where room was refused.
pub fn first_untold(
    alloc: Global,
    outside: bool,
    plans: &[ActorPlan],
    properties: &[Property],
) -> Result<Option<usize>, NoMemory>
    ensures { IfOk result (λ place. place ≡ first_untold outside plans.now properties.now) }
{
    for (place, property) in properties.iter().enumerate() {
        if !can_be_told(alloc, outside, plans, property.text.as_slice())? {
            return Ok(Some(place));
        }
    }
    Ok(None)
}
