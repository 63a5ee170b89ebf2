//! The text of what a search found.
ghost use Rattle.std.specs.Prelude.{◌≡◌, ◌++◌, find, take, IfOk};
ghost use Rattle.std.specs.Option.{option_copied};
ghost use Rattle.event_log.specs.Output.{Gains};
ghost use Rattle.outcome_text.specs.Framed.{framed};
ghost use Rattle.outcome_text.specs.Looks.{AreSums};
ghost use Rattle.outcome_text.specs.Survey.{block_of, lists_breaking, breaks, witness_words, states_words, numbers_text, block_words, blocks_text, woven, property_text, properties_text, holds, all_hold, outcome_text};

use crate::begins::first_of;
use crate::counts::{counted, plus};
use crate::looks::sums_of;
use crate::property::Property;
use event_log::Output;
use path_text::{Bytes, NoMemory};
use report_text::numbered;
use std::alloc::Global;
use std::collections::HashMap;

/// An outcome as it is printed, and of how many lists of turns.
#[derive(Debug, Drop)]
pub struct Told {
    /// How many lists.
    pub lists: u64,
    /// How many cuts the least of them has.
    pub cuts: u64,
    /// How many of its turns are another actor's than the turn before.
    pub changes: u64,
    /// Its turns: actors' numbers.
    pub turns: Vec<u32>,
    /// The schedule that leads to the least of them.
    pub schedule: Output,
    /// What is printed of its report where the nodes that the opening tree doesn't have are numbered anew.
    pub look: Bytes,
    /// With its own numbers the same is printed up to here,
    pub same: usize,
    /// and then this.
    pub rest: Bytes,
    /// Where it is judged by properties, all lines of its report but those of events.
    pub lines: Bytes,
}

impl Told {
    // The beginning of what is printed, which the look has too.
    pub(crate) fn begin(&self) -> &[u8]
        ensures { result.now ≡ take self.now.same self.now.look }
    {
        first_of(self.look.as_slice(), self.same)
    }

    /// What is printed of its report. NoMemory where its room was refused.
    pub fn block(&self, alloc: Global) -> Result<Output, NoMemory>
        ensures { IfOk result (λ block. block ≡ block_of self.now) }
    {
        let mut out = Output::new(alloc);
        out.bytes(self.begin())?;
        out.bytes(self.rest.as_slice())?;
        Ok(out)
    }

    // Adds how many cuts the least list has, and the schedule that leads to it.
    #[tactic(auto, unfolding(crate::specs::Survey::witness_words))]
    fn witness(&self, out: &mut Output) -> Result<(), NoMemory>
        ensures { Gains out.old out.new (witness_words self.now) result }
    {
        numbered(out, " cuts ", self.cuts)?;
        out.text(" schedule ")?;
        out.bytes(self.schedule.as_slice())?;
        out.text("\n")
    }
}

// Adds by how many worlds the lists were found, if they were found by a search.
fn states_line(out: &mut Output, states: Option<u64>) -> Result<(), NoMemory>
    ensures { Gains out.old out.new (states_words states) result }
{
    match states {
        Some(states) => numbered(out, "\nstates ", states),
        None => Ok(()),
    }
}

// Adds how many lists there are, by how many worlds, how many turns the longest has, and how many outcomes look
// different.
fn numbers(
    out: &mut Output,
    lists: u64,
    states: Option<u64>,
    longest: u64,
    outcomes: u64,
) -> Result<(), NoMemory>
    ensures { Gains out.old out.new (numbers_text lists states longest outcomes) result }
{
    counted(out, "schedules ", lists)?;
    states_line(out, states)?;
    numbered(out, "\nturns ", longest)?;
    numbered(out, "\noutcomes ", outcomes)?;
    out.text("\n")
}

// The line before a block by its number, of so many lists.
fn head(alloc: Global, number: u64, lists: u64, told: &Told) -> Result<Output, NoMemory>
    ensures { IfOk result (λ head. head ++ block_of told.now ≡ block_words number lists told.now) }
{
    let mut out = Output::new(alloc);
    numbered(&mut out, "outcome ", number)?;
    counted(&mut out, " schedules ", lists)?;
    told.witness(&mut out)?;
    Ok(out)
}

// The line before the block of each that looks like none before it. Takes its lists out of the table.
fn heads(
    alloc: Global,
    sums: &mut HashMap<&[u8], u64>,
    all: &[Told],
) -> Result<Vec<Option<Output>>, NoMemory>
    requires { AreSums sums.old all.now }
    ensures { IfOk result (λ heads. woven heads.items all.now ≡ blocks_text all.now) }
{
    let mut number = 0;
    let mut heads = Vec::with_capacity(alloc, all.len())?;
    for told in all {
        if let Some(lists) = sums.remove(told.look.as_slice()) {
            heads.push(Some(head(alloc, number, lists, told)?))?;
            number += 1;
        } else {
            heads.push(None)?;
        }
    }
    Ok(heads)
}

// The first that breaks a property.
fn first_breaking<'a>(all: &'a [Told], property: &Property) -> Option<&'a Told>
    ensures { option_copied result ≡ find (breaks property.now) all.now }
{
    for told in all {
        if property.fails(told.lines.as_slice()) {
            return Some(told);
        }
    }
    None
}

// How many lists come to what breaks a property.
fn lists_breaking(all: &[Told], property: &Property) -> u64
    ensures { result ≡ lists_breaking all.now property.now }
{
    let mut lists = 0;
    for told in all {
        if property.fails(told.lines.as_slice()) {
            lists = plus(lists, told.lists);
        }
    }
    lists
}

// Adds a property's line. A condition has its own.
fn property_line(out: &mut Output, all: &[Told], property: &Property) -> Result<(), NoMemory>
    ensures { Gains out.old out.new (property_text all.now property.now) result }
{
    if property.is_condition() {
        return Ok(());
    }
    out.text(property.rule.word())?;
    out.bytes(property.text.as_slice())?;
    out.text(" = ")?;
    let Some(told) = first_breaking(all, property) else {
        return out.text("holds\n");
    };
    counted(out, "fails ", lists_breaking(all, property))?;
    told.witness(out)
}

// Adds the line of each property.
fn property_lines(out: &mut Output, all: &[Told], properties: &[Property]) -> Result<(), NoMemory>
    ensures { Gains out.old out.new (properties_text all.now properties.now) result }
{
    for property in properties {
        property_line(out, all, property)?;
    }
    Ok(())
}

// Whether a property holds of these outcomes: none breaks it, or, of a condition, there are some.
fn holds(all: &[Told], property: &Property) -> bool
    ensures { result ≡ holds all.now property.now }
{
    if property.is_condition() {
        return !all.is_empty();
    }
    first_breaking(all, property).is_none()
}

/// Whether no outcome breaks one of these properties, and, where one is a condition, there are outcomes.
pub fn all_hold(all: &[Told], properties: &[Property]) -> bool
    ensures { result ≡ all_hold all.now properties.now }
{
    for property in properties {
        if !holds(all, property) {
            return false;
        }
    }
    true
}

/// The text of outcomes but for their blocks, which stay where they are.
#[derive(Debug, Drop)]
pub struct Frame {
    /// What comes before the blocks.
    pub front: Output,
    /// Of each outcome the line before its block; of one that looks like one before it none.
    pub heads: Vec<Option<Output>>,
    /// What comes behind the blocks.
    pub back: Output,
}

/// The text of outcomes, which come in the order of their least lists, where there are so many lists, by so many
/// worlds if they were found by a search, and the longest has so many turns: these numbers, how many outcomes look
/// different, a block for each of these, the lines of conditions, which are given, and the line of each property.
/// NoMemory where room was refused.
pub(crate) fn frame_of(
    alloc: Global,
    lists: u64,
    states: Option<u64>,
    longest: u64,
    all: &[Told],
    conditions: Output,
    properties: &[Property],
) -> Result<Frame, NoMemory>
    ensures { IfOk result (λ frame. framed frame all.now
        ≡ outcome_text lists states longest all.now conditions properties.now) }
{
    let mut sums = sums_of(alloc, all)?;
    let mut front = Output::new(alloc);
    numbers(&mut front, lists, states, longest, sums.len() as u64)?;
    let heads = heads(alloc, &mut sums, all)?;
    let mut back = conditions;
    property_lines(&mut back, all, properties)?;
    Ok(Frame { front, heads, back })
}
