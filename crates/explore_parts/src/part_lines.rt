//! A part as a line of JSON.
ghost use Rattle.std.specs.Prelude.{◌≡◌, IfOk};
ghost use Rattle.report_text.specs.Report.{numbered};
ghost use Rattle.event_log.specs.Output.{Gains};
ghost use Rattle.explore_parts.specs.PartText.{cuts_words, flag_words, property_words, properties_words, subject_words, scope_words, wanted_words, question_words, count_words, texts_words, told_words, outcomes_words, turns_words, found_words, part_words, part_line};

use crate::asked::Asked;
use crate::lists::{lists, numbers};
use crate::seal::seal;
use event_log::Output;
use outcome_text::{Part, Property, Told};
use path_text::NoMemory;
use report_text::json_words::{comma, text};
use report_text::numbered;
use std::alloc::Global;

// Adds a bound on cuts, or `null` for none.
fn cuts(out: &mut Output, cuts: Option<u64>) -> Result<(), NoMemory>
    ensures { Gains out.old out.new (cuts_words cuts) result }
{
    match cuts {
        Some(cuts) => out.number(cuts),
        None => out.text("null"),
    }
}

// Adds whether it is so.
fn flag(out: &mut Output, flag: bool) -> Result<(), NoMemory>
    ensures { Gains out.old out.new (flag_words flag) result }
{
    out.text(if flag { "true" } else { "false" })
}

// Adds a property by its place.
fn property(alloc: Global, out: &mut Output, at: usize, property: &Property) -> Result<(), NoMemory>
    ensures { Gains out.old out.new (property_words at property.now) result }
{
    let mut said = Output::new(alloc);
    said.text(property.rule.word())?;
    said.bytes(property.text.as_slice())?;
    comma(out, at)?;
    text(out, said.as_slice())
}

// Adds the properties of a list.
fn all_properties(alloc: Global, out: &mut Output, all: &[Property]) -> Result<(), NoMemory>
    ensures { Gains out.old out.new (numbered property_words 0 all.now) result }
{
    for (at, one) in all.iter().enumerate() {
        property(alloc, out, at, one)?;
    }
    Ok(())
}

// Adds a list of properties.
fn properties(alloc: Global, out: &mut Output, all: &[Property]) -> Result<(), NoMemory>
    ensures { Gains out.old out.new (properties_words all.now) result }
{
    out.text("[")?;
    all_properties(alloc, out, all)?;
    out.text("]")
}

// Adds the script with that digest, and who is named.
#[tactic(auto, unfolding(crate::specs::PartText::subject_words))]
fn subject(out: &mut Output, script: &[u8], asked: &Asked) -> Result<(), NoMemory>
    ensures { Gains out.old out.new (subject_words script.now asked.now) result }
{
    out.text("{\"script\":")?;
    text(out, script)?;
    out.text(",\"actors\":")?;
    numbers(out, &asked.named)
}

// Adds which schedules count, and what is counted.
#[tactic(auto, unfolding(crate::specs::PartText::scope_words))]
fn scope(out: &mut Output, asked: &Asked) -> Result<(), NoMemory>
    ensures { Gains out.old out.new (scope_words asked.now) result }
{
    out.text(",\"cuts\":")?;
    cuts(out, asked.limits.scope.cuts)?;
    out.text(",\"outside\":")?;
    flag(out, asked.outside)
}

// Adds the properties that are asked for.
#[tactic(auto, unfolding(crate::specs::PartText::wanted_words))]
fn wanted(alloc: Global, out: &mut Output, asked: &Asked) -> Result<(), NoMemory>
    ensures { Gains out.old out.new (wanted_words asked.now) result }
{
    out.text(",\"properties\":")?;
    properties(alloc, out, &asked.properties)?;
    out.text("}")
}

// Adds what is asked of all schedules: of the script with that digest, whatever turns they begin with.
#[tactic(auto, unfolding(crate::specs::PartText::question_words))]
fn question(alloc: Global, out: &mut Output, script: &[u8], asked: &Asked) -> Result<(), NoMemory>
    ensures { Gains out.old out.new (question_words script.now asked.now) result }
{
    subject(out, script, asked)?;
    scope(out, asked)?;
    wanted(alloc, out, asked)
}

// Adds of how many schedules an outcome is, and how the least counts.
#[tactic(auto, unfolding(crate::specs::PartText::count_words))]
fn told_counts(out: &mut Output, told: &Told) -> Result<(), NoMemory>
    ensures { Gains out.old out.new (count_words told.now) result }
{
    numbered(out, "{\"schedules\":", told.lists)?;
    numbered(out, ",\"cuts\":", told.cuts)?;
    numbered(out, ",\"changes\":", told.changes)
}

// Adds the texts of an outcome.
#[tactic(auto, unfolding(crate::specs::PartText::texts_words))]
fn told_texts(alloc: Global, out: &mut Output, told: &Told) -> Result<(), NoMemory>
    ensures { Gains out.old out.new (texts_words told.now) result }
{
    out.text(",\"block\":")?;
    text(out, told.block(alloc)?.as_slice())?;
    out.text(",\"look\":")?;
    text(out, told.look.as_slice())?;
    out.text(",\"lines\":")?;
    text(out, told.lines.as_slice())
}

// Adds an outcome by its place.
#[tactic(auto, unfolding(crate::specs::PartText::told_words))]
fn told(alloc: Global, out: &mut Output, at: usize, told: &Told) -> Result<(), NoMemory>
    ensures { Gains out.old out.new (told_words at told.now) result }
{
    comma(out, at)?;
    told_counts(out, told)?;
    out.text(",\"least\":")?;
    numbers(out, &told.turns)?;
    told_texts(alloc, out, told)?;
    out.text("}")
}

// Adds the outcomes of a list.
fn all_told(alloc: Global, out: &mut Output, all: &[Told]) -> Result<(), NoMemory>
    ensures { Gains out.old out.new (numbered told_words 0 all.now) result }
{
    for (at, one) in all.iter().enumerate() {
        told(alloc, out, at, one)?;
    }
    Ok(())
}

// Adds a list of outcomes.
fn outcomes(alloc: Global, out: &mut Output, all: &[Told]) -> Result<(), NoMemory>
    ensures { Gains out.old out.new (outcomes_words all.now) result }
{
    out.text("[")?;
    all_told(alloc, out, all)?;
    out.text("]")
}

// Adds how a part begins, and who might have had each turn.
#[tactic(auto, unfolding(crate::specs::PartText::turns_words))]
fn part_turns(out: &mut Output, part: &Part) -> Result<(), NoMemory>
    ensures { Gains out.old out.new (turns_words part.now) result }
{
    out.text(",\"begin\":")?;
    numbers(out, &part.begin)?;
    out.text(",\"might\":")?;
    lists(out, &part.might)
}

// Adds how many schedules a part has, how long they are, and their outcomes.
#[tactic(auto, unfolding(crate::specs::PartText::found_words))]
fn part_found(alloc: Global, out: &mut Output, part: &Part) -> Result<(), NoMemory>
    ensures { Gains out.old out.new (found_words part.now) result }
{
    numbered(out, ",\"schedules\":", part.lists)?;
    numbered(out, ",\"turns\":", part.turns)?;
    out.text(",\"outcomes\":")?;
    outcomes(alloc, out, &part.all)
}

// Adds a part of what is asked of the script with that digest: an object of JSON, but for its end.
#[tactic(auto, unfolding(crate::specs::PartText::part_words))]
fn part_words(
    alloc: Global,
    out: &mut Output,
    script: &[u8],
    asked: &Asked,
    part: &Part,
) -> Result<(), NoMemory>
    ensures { Gains out.old out.new (part_words script.now asked.now part.now) result }
{
    out.text("{\"part of\":")?;
    question(alloc, out, script, asked)?;
    part_turns(out, part)?;
    part_found(alloc, out, part)
}

/// A part of what is asked of the script with that digest, as a line that ends with its own digest. NoMemory where its
/// room was refused.
pub fn part_text(
    alloc: Global,
    script: &[u8],
    asked: &Asked,
    part: &Part,
) -> Result<Output, NoMemory>
    ensures { IfOk result (λ line. line ≡ part_line script.now asked.now part.now) }
{
    let mut out = Output::new(alloc);
    part_words(alloc, &mut out, script, asked, part)?;
    seal(alloc, &mut out)?;
    out.text("\n")?;
    Ok(out)
}
