//! Conditions: which outcomes count, and how many lists come to them.
ghost use Rattle.std.specs.Prelude.{◌≡◌};
ghost use Rattle.std.specs.List.{list_any};
ghost use Rattle.event_log.specs.Output.{Gains};
ghost use Rattle.outcome_text.specs.Survey.{lists_where};
ghost use Rattle.outcome_text.specs.Conditions.{is_met, counts, counted, lists_counted, lists_having, condition_text, conditions_text};
ghost use Rattle.outcome_text.specs.Property.{is_condition};

use crate::counts::{counted as add_counted, plus};
use crate::property::Property;
use crate::survey::Told;
use event_log::Output;
use path_text::NoMemory;

// Whether an outcome has the line of a property, if that is a condition.
fn is_met(told: &Told, property: &Property) -> bool
    ensures { result ≡ is_met told.now property.now }
{
    !(property.is_condition() && property.fails(told.lines.as_slice()))
}

// Whether it has the line of each condition.
fn counts(properties: &[Property], told: &Told) -> bool
    ensures { result ≡ counts properties.now told.now }
{
    properties.iter().all(|property| is_met(told, property))
}

/// The outcomes that count: those with the line of each condition.
pub(crate) fn counted(all: Vec<Told>, properties: &[Property]) -> Vec<Told>
    ensures { result.items ≡ counted properties.now all.items }
{
    let mut kept = all;
    kept.retain(|told| counts(properties, told));
    kept
}

// Whether there is a condition.
fn has_condition(properties: &[Property]) -> bool
    ensures { result ≡ list_any is_condition properties.now }
{
    properties.iter().any(|property| property.is_condition())
}

// How many lists come to the outcomes that count.
fn lists_met(all: &[Told], properties: &[Property]) -> u64
    ensures { result ≡ lists_where (counts properties.now) all.now }
{
    let mut lists = 0;
    for told in all {
        if counts(properties, told) {
            lists = plus(lists, told.lists);
        }
    }
    lists
}

/// How many of so many lists count: all of them where there is no condition.
pub(crate) fn lists_counted(lists: u64, properties: &[Property], all: &[Told]) -> u64
    ensures { result ≡ lists_counted lists properties.now all.now }
{
    if has_condition(properties) {
        lists_met(all, properties)
    } else {
        lists
    }
}

// How many lists come to a report with a property's line.
fn lists_having(all: &[Told], property: &Property) -> u64
    ensures { result ≡ lists_having all.now property.now }
{
    let mut lists = 0;
    for told in all {
        if !property.fails(told.lines.as_slice()) {
            lists = plus(lists, told.lists);
        }
    }
    lists
}

// Adds the line of a condition: how many of so many lists come to a report with its text.
#[tactic(auto, unfolding(crate::specs::Conditions::condition_text))]
fn condition_line(
    out: &mut Output,
    lists: u64,
    all: &[Told],
    property: &Property,
) -> Result<(), NoMemory>
    ensures { Gains out.old out.new (condition_text lists all.now property.now) result }
{
    if !property.is_condition() {
        return Ok(());
    }
    out.text(property.rule.word())?;
    out.bytes(property.text.as_slice())?;
    add_counted(out, " = ", lists_having(all, property))?;
    add_counted(out, " of ", lists)?;
    out.text("\n")
}

/// Adds the line of each condition. NoMemory where room was refused.
pub(crate) fn condition_lines(
    out: &mut Output,
    lists: u64,
    all: &[Told],
    properties: &[Property],
) -> Result<(), NoMemory>
    ensures { Gains out.old out.new (conditions_text lists all.now properties.now) result }
{
    for property in properties {
        condition_line(out, lists, all, property)?;
    }
    Ok(())
}
