//! The outcomes of all schedules, made of those of parts of them.
ghost use Rattle.std.specs.Prelude.{◌≡◌, ◌<◌, ◌++◌, ◌∷◌, [], false, true, IfOk, MatchOption, MatchResult};
ghost use Rattle.std.specs.List.{list_any};
ghost use Rattle.outcome_text.specs.declared.merging.MergeFault.TheVariants as merge_fault;
ghost use Rattle.outcome_text.specs.Framed.{text_of};
ghost use Rattle.outcome_text.specs.Nearby.{AreSome};
ghost use Rattle.outcome_text.specs.Merge.{has_lists, lacks_turn, has_gap, all_lists, longest, all_of, IsJoined, IsWhole, WhyNoWhole};

use crate::apart::first_overlap;
use crate::begins::first_of;
use crate::counts::plus;
use crate::nearby::{in_word_order, is_there};
use crate::order::in_order;
use crate::part::Part;
use crate::property::Property;
use crate::ranked::{Survey, told_ordered};
use crate::survey::Told;
use path_text::NoMemory;
use std::alloc::Global;
use thiserror::Error;

/// Why parts make no whole. Parts are named by their places, counted from 0.
#[derive(Clone, Copy, Debug, PartialEq, Eq, Error)]
pub enum MergeFault {
    /// It is no part.
    #[error("part {0} is none")]
    NotAPart(usize),
    /// It ends with a digest that isn't its own: a byte of it was changed.
    #[error("part {0} isn't as it was written")]
    Spoilt(usize),
    /// Its line has more bytes than are read.
    #[error("part {0} is longer than 16777216 bytes")]
    LineTooLong(usize),
    /// There are more than are read.
    #[error("there are more than 65536 parts")]
    TooMany,
    /// All lines together have more bytes than are read.
    #[error("parts are longer than 268435456 bytes")]
    TooLong,
    /// It answers another question than the first.
    #[error("part {0} is of another question than part 0")]
    OtherQuestion(usize),
    /// The two have the same beginning, or one of them begins the other.
    #[error("parts {0} and {1} overlap")]
    Overlap(usize, usize),
    /// Some schedules are in no part: those that begin as that part does, but that this turn of it is that actor's.
    #[error("no part has turn {1} of part {0} by actor {2}")]
    Missing(usize, usize, u32),
    /// No part has a schedule.
    #[error("no part has a schedule")]
    NoSchedule,
    #[error("read failed")]
    ReadFailed,
    #[error("write failed")]
    WriteFailed,
    #[error("no memory")]
    NoMemory,
}

impl From<NoMemory> for MergeFault {
    ghost from_gives = { λ _ fault. fault ≡ merge_fault.NoMemory };

    fn from(_error: NoMemory) -> MergeFault {
        MergeFault::NoMemory
    }
}

// Equal turns, and one more of that actor.
fn turns_and(alloc: Global, turns: &[u32], actor: u32) -> Result<Vec<u32>, NoMemory>
    ensures { IfOk result (λ more. more.items ≡ turns.now ++ actor ∷ []) }
{
    let mut more = Vec::new(alloc);
    more.extend_from_slice(turns)?;
    more.push(actor)?;
    Ok(more)
}

// Whether there is none for these turns and then that actor's.
fn lacks_turn(
    alloc: Global,
    parts: &[Part],
    ordered: &[&Part],
    turns: &[u32],
    actor: u32,
) -> Result<bool, NoMemory>
    requires { AreSome parts.now ordered.now }
    ensures { IfOk result (λ lacks. lacks ≡ lacks_turn parts.now turns.now actor) }
{
    let begin = turns_and(alloc, turns, actor)?;
    Ok(!is_there(parts, ordered, begin.as_slice()))
}

// The first of these actors by whom no part has the turn after these.
fn first_missing_of(
    alloc: Global,
    parts: &[Part],
    ordered: &[&Part],
    turns: &[u32],
    might: &[u32],
) -> Result<Option<u32>, NoMemory>
    requires { AreSome parts.now ordered.now }
    ensures { IfOk result (λ actor. MatchOption actor (list_any (lacks_turn parts.now turns.now) might.now ≡ false)
        (λ _. list_any (lacks_turn parts.now turns.now) might.now ≡ true)) }
{
    for actor in might {
        if lacks_turn(alloc, parts, ordered, turns, *actor)? {
            return Ok(Some(*actor));
        }
    }
    Ok(None)
}

// The first turn of a part's beginning that no part has by an actor who might have had it, and the actor.
fn first_missing_by(
    alloc: Global,
    parts: &[Part],
    ordered: &[&Part],
    part: &Part,
) -> Result<Option<(usize, u32)>, NoMemory>
    requires { AreSome parts.now ordered.now }
    ensures { IfOk result (λ missing. MatchOption missing (has_gap parts.now part.now ≡ false)
        (λ _. has_gap parts.now part.now ≡ true)) }
{
    for (at, might) in part.might.iter().enumerate() {
        let turns = first_of(part.begin.as_slice(), at);
        if let Some(actor) = first_missing_of(alloc, parts, ordered, turns, might.as_slice())? {
            return Ok(Some((at, actor)));
        }
    }
    Ok(None)
}

// The same of the first part of which there is one.
fn first_missing(alloc: Global, parts: &[Part]) -> Result<Option<(usize, usize, u32)>, NoMemory>
    ensures { IfOk result (λ missing. MatchOption missing (list_any (has_gap parts.now) parts.now ≡ false)
        (λ _. list_any (has_gap parts.now) parts.now ≡ true)) }
{
    let ordered = in_word_order(alloc, parts)?;
    for (place, part) in parts.iter().enumerate() {
        if let Some((turn, actor)) = first_missing_by(alloc, parts, &ordered, part)? {
            return Ok(Some((place, turn, actor)));
        }
    }
    Ok(None)
}

// Whether some part has lists.
fn have_lists(parts: &[Part]) -> bool
    ensures { result ≡ list_any has_lists parts.now }
{
    for part in parts {
        if part.lists > 0 {
            return true;
        }
    }
    false
}

// How many lists all parts have.
fn all_lists(parts: &[Part]) -> u64
    ensures { result ≡ all_lists parts.now }
{
    let mut lists = 0;
    for part in parts {
        lists = plus(lists, part.lists);
    }
    lists
}

// How many turns the longest list of any part has.
fn longest(parts: &[Part]) -> u64
    ensures { result ≡ longest parts.now }
{
    let mut turns = 0;
    for part in parts {
        if part.turns > turns {
            turns = part.turns;
        }
    }
    turns
}

// The outcomes of all parts, of one part after another.
fn all_of(alloc: Global, parts: Vec<Part>) -> Result<Vec<Told>, NoMemory>
    ensures { IfOk result (λ all. all.items ≡ all_of parts.items) }
{
    let mut all = Vec::new(alloc);
    for part in parts {
        let mut told = part.all;
        all.append(&mut told)?;
    }
    Ok(all)
}

// The text of all lists of these parts, and whether no property fails.
fn joined(alloc: Global, parts: Vec<Part>, properties: &[Property]) -> Result<Survey, NoMemory>
    ensures { IfOk result (λ survey. IsJoined parts.items properties.now survey.holds (text_of survey)) }
{
    let (lists, turns) = (all_lists(&parts), longest(&parts));
    let ordered = in_order(all_of(alloc, parts)?)?;
    told_ordered(alloc, lists, None, turns, ordered, properties)
}

/// The text of all schedules, made of parts of them, and whether no property fails.
///
/// Errors, in this order: `Overlap` of the first two parts of which one begins with the other, or as it does;
/// `Missing` where schedules are in no part; `NoSchedule` where no part has any; `NoMemory`.
pub fn merge(alloc: Global, parts: Vec<Part>, properties: &[Property]) -> Result<Survey, MergeFault>
    ensures { MatchResult result (λ survey. IsWhole parts.items properties.now survey.holds (text_of survey))
        (WhyNoWhole parts.items) }
{
    if let Some((one, other)) = first_overlap(alloc, &parts)? {
        return Err(MergeFault::Overlap(one, other));
    }
    if let Some((part, turn, actor)) = first_missing(alloc, &parts)? {
        return Err(MergeFault::Missing(part, turn, actor));
    }
    if !have_lists(&parts) {
        return Err(MergeFault::NoSchedule);
    }
    Ok(joined(alloc, parts, properties)?)
}
