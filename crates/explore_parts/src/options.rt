//! What is asked, by the texts of a command line's options.
ghost use Rattle.std.specs.Prelude.{◌≡◌, ◌≢◌, ◌≤◌, ◌<◌, ◌++◌, ℕ, true, false, length, replicate, OnOk, IfOk, MatchOption, MatchResult, decimal};
ghost use Rattle.scripts.specs.Turns.{turns_of};
ghost use Rattle.outcome_text.specs.declared.asked.OptionFault.TheVariants as option_fault;
ghost use Rattle.explore_parts.specs.Options.{AllSay, SaysCuts, SaysBegin, IsNoBegin, SaysMost, SaysMemory, IsUnsaid, are_properties, properties_by, property_texts, properties_asked, AreAsked, IsOptionFault};
ghost use Rattle.outcome_text.specs.Asked.{texts_in};

use crate::asked::{Asked, MEMORY_MAX, TURNS_MAX};
use layered_search::{Limits, Scope};
use outcome_text::{OptionFault, Options, Property, Rule, read_property};
use path_text::NoMemory;
use scripts::{Turns, number_of, read_turns};
use std::alloc::Global;

/// The most cuts that may be asked for.
pub const CUTS_MAX: u32 = 1_000_000;

/// The most worlds that may be asked for.
pub const STATES_MAX: u32 = 10_000_000;

/// How many worlds are gone through at most where nothing is said.
pub const STATES: u32 = 100_000;

// The numbers that texts say, if each says one.
fn numbers_in(alloc: Global, texts: &[&str]) -> Result<Option<Vec<u32>>, NoMemory>
    ensures { IfOk result (λ said.
        MatchOption said (IsUnsaid (AllSay (texts_in texts.now)))
        (λ numbers. AllSay (texts_in texts.now) numbers.items)) }
{
    let mut numbers = Vec::with_capacity(alloc, texts.len())?;
    for text in texts {
        let Some(number) = number_of(text) else {
            return Ok(None);
        };
        numbers.push(number)?;
    }
    Ok(Some(numbers))
}

// The number that a text says, if it says one from the least to the most.
fn number_within(text: &str, least: u32, most: u32) -> Option<u32>
    ensures { MatchOption result ((n : ℕ) → least ≤ n → n ≤ most → text.now ≢ decimal n)
        (λ n. (text.now ≡ decimal n) × (least ≤ n) × (n ≤ most)) }
{
    let number = number_of(text)?;
    if least <= number && number <= most {
        Some(number)
    } else {
        None
    }
}

// The bound on the cuts that a text says, if there is a text.
fn cuts_in(text: Option<&str>) -> Result<Option<u64>, OptionFault>
    ensures { MatchResult result (SaysCuts text.entry)
        (λ fault. (fault ≡ option_fault.Cuts) × IsUnsaid (SaysCuts text.entry)) }
{
    let Some(text) = text else {
        return Ok(None);
    };
    match number_within(text, 0, CUTS_MAX) {
        Some(cuts) => Ok(Some(u64::from(cuts))),
        None => Err(OptionFault::Cuts),
    }
}

// Adds the turns of one actor.
fn add_turns(begin: &mut Vec<u32>, turns: Turns) -> Result<(), NoMemory>
    ensures { OnOk result (begin.new.items ≡ begin.old.items ++ replicate turns.times turns.actor) }
{
    for taken in 0..turns.times {
        begin.push(turns.actor)?;
    }
    Ok(())
}

// The turns one by one, if there are at most so many.
fn one_by_one(alloc: Global, said: &[Turns]) -> Result<Option<Vec<u32>>, NoMemory>
    ensures { IfOk result (λ begin. MatchOption begin (TURNS_MAX < length (turns_of said.now))
        (λ turns. (turns.items ≡ turns_of said.now) × (length turns.items ≤ TURNS_MAX))) }
{
    let mut begin = Vec::new(alloc);
    for turns in said {
        if turns.times as usize > TURNS_MAX as usize - begin.len() {
            return Ok(None);
        }
        add_turns(&mut begin, *turns)?;
    }
    Ok(Some(begin))
}

// The turns that a text says, if there is a text.
fn begin_in(alloc: Global, text: Option<&str>) -> Result<Vec<u32>, OptionFault>
    ensures { MatchResult result (λ begin. SaysBegin text.entry begin.items)
        (λ fault. fault ≢ option_fault.NoMemory → (fault ≡ option_fault.Begin) × IsNoBegin text.entry) }
{
    let Some(text) = text else {
        return Ok(Vec::new(alloc));
    };
    let Some(said) = read_turns(alloc, text)? else {
        return Err(OptionFault::Begin);
    };
    match one_by_one(alloc, said.as_slice())? {
        Some(begin) => Ok(begin),
        None => Err(OptionFault::Begin),
    }
}

// How many worlds a text says, or the usual number where there is none.
fn states_in(text: Option<&str>) -> Result<u64, OptionFault>
    ensures { MatchResult result (SaysMost text.entry)
        (λ fault. (fault ≡ option_fault.States) × IsUnsaid (SaysMost text.entry)) }
{
    let Some(text) = text else {
        return Ok(u64::from(STATES));
    };
    match number_within(text, 1, STATES_MAX) {
        Some(most) => Ok(u64::from(most)),
        None => Err(OptionFault::States),
    }
}

// How many megabytes a text says, if there is a text.
fn memory_in(text: Option<&str>) -> Result<Option<u32>, OptionFault>
    ensures { MatchResult result (SaysMemory text.entry)
        (λ fault. (fault ≡ option_fault.Memory) × IsUnsaid (SaysMemory text.entry)) }
{
    let Some(text) = text else {
        return Ok(None);
    };
    match number_within(text, 1, MEMORY_MAX) {
        Some(most) => Ok(Some(most)),
        None => Err(OptionFault::Memory),
    }
}

// Adds the properties that texts say by that rule. Whether each text says one.
fn add_properties(
    alloc: Global,
    properties: &mut Vec<Property>,
    outside: bool,
    rule: Rule,
    texts: &[&str],
) -> Result<bool, NoMemory>
    ensures all { IfOk result (λ all. all ≡ are_properties outside (texts_in texts.now)) }
    ensures added { IfOk result (λ all. all ≡ true
        → properties.new.items ≡ properties.old.items ++ properties_by rule (texts_in texts.now)) }
{
    for text in texts {
        let Some(property) = read_property(alloc, outside, rule, text)? else {
            return Ok(false);
        };
        properties.push(property)?;
    }
    Ok(true)
}

// The properties that the options say, if each of their texts says one: those by `when`, those by `never`, those by
// `always`.
fn properties_in(alloc: Global, options: &Options) -> Result<Vec<Property>, OptionFault>
    ensures { MatchResult result
        (λ properties. (properties.items ≡ properties_asked options.now)
        × (are_properties options.now.outside (property_texts options.now) ≡ true))
        (λ fault. fault ≢ option_fault.NoMemory → (fault ≡ option_fault.Text)
        × (are_properties options.now.outside (property_texts options.now) ≡ false)) }
{
    let outside = options.outside;
    let mut properties = Vec::new(alloc);
    if add_properties(alloc, &mut properties, outside, Rule::When, options.when)?
        && add_properties(alloc, &mut properties, outside, Rule::Never, options.never)?
        && add_properties(
            alloc,
            &mut properties,
            outside,
            Rule::Always,
            options.always,
        )?
    {
        return Ok(properties);
    }
    Err(OptionFault::Text)
}

/// What the texts of options ask for: of the properties those by `when` first, then those by `never`, then those by
/// `always`.
///
/// Errors, in this order: `Actor` where one of `actors` is no number below 2^32; `Cuts` where `cuts` is no number up
/// to 1,000,000; `Begin` where `begin` says no turns, or more than 100,000; `States` where `states` is no number from 1
/// to 10,000,000; `Memory` where `memory` is no number from 1 to 1,000,000; `Text` where one of `when`, `never` or
/// `always` is no property's (`read_property`); `NoMemory` where room was refused, whatever else is wrong. Numbers are
/// written in decimal digits, with no zero before them.
pub fn read_asked(alloc: Global, options: Options) -> Result<Asked, OptionFault>
    ensures { MatchResult result (AreAsked options.entry) (IsOptionFault options.entry) }
{
    let Some(named) = numbers_in(alloc, options.actors)? else {
        return Err(OptionFault::Actor);
    };
    let cuts = cuts_in(options.cuts)?;
    let begin = begin_in(alloc, options.begin)?;
    let states = states_in(options.states)?;
    let memory = memory_in(options.memory)?;
    let properties = properties_in(alloc, &options)?;
    let limits = Limits {
        states,
        turns: TURNS_MAX,
        scope: Scope { cuts, begin },
    };
    Ok(Asked {
        named,
        limits,
        outside: options.outside,
        memory,
        properties,
    })
}
