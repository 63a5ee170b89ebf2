//! Parts read again.
ghost use Rattle.std.specs.Prelude.{◌≡◌, ◌≢◌, ◌<◌, ◌^◌, ◌++◌, ◌∷◌, [], ℕ, List, Some, None, true, MatchOption, MatchResult, OnOk, codes, string_bytes};
ghost use Rattle.std.specs.List.{All};
ghost use Rattle.std.specs.Str.{chars};
ghost use Rattle.serde_json.specs.Data.{array};
ghost use Rattle.serde_json.specs.Find.{get, as_array};
ghost use Rattle.serde_json.specs.View.{view, items_view};
ghost use Rattle.outcome_text.specs.Property.{rule_word};
ghost use Rattle.explore_parts.specs.declared.part_read.PartFault.TheVariants.{Shape, NoMemory as OutOfMemory};
ghost use Rattle.explore_parts.specs.Options.{IsUnsaid};
ghost use Rattle.explore_parts.specs.PartRead.{SaysNumber, SaysActor, SaysText, ItemsSay, SaysList, SaysActors, Under, SaysTold, SaysPart, SaysProperty, SaysProperties, SaysQuestion, IsReading};

use event_log::Output;
use outcome_text::{Part, Property, Rule, Told, beside, read_property, schedule_words};
use path_text::{Bytes, NoMemory};
use serde_json::Value;
use std::alloc::{AllocError, Global};
use thiserror::Error;

/// Why a value is read as no part.
#[derive(Clone, Copy, Debug, PartialEq, Eq, Error)]
pub(crate) enum PartFault {
    /// It has another shape.
    #[error("shape")]
    Shape,
    #[error("no memory")]
    NoMemory,
}

impl From<NoMemory> for PartFault {
    ghost from_gives = { λ _ fault. fault ≡ OutOfMemory };

    fn from(_error: NoMemory) -> PartFault {
        PartFault::NoMemory
    }
}

impl From<AllocError> for PartFault {
    ghost from_gives = { λ _ fault. fault ≡ OutOfMemory };

    fn from(_error: AllocError) -> PartFault {
        PartFault::NoMemory
    }
}

// Adds one more.
fn add<T: Drop>(all: &mut Vec<T>, one: T) -> Result<(), NoMemory>
    ensures { OnOk result (all.new.items ≡ all.old.items ++ one ∷ []) }
{
    all.push(one)?;
    Ok(())
}

// What stands under a key.
fn under<'a>(value: &'a Value, key: &str) -> Result<&'a Value, PartFault>
    ensures { MatchResult result (λ found. get key.now (view value.now) ≡ Some (view found.now))
        (λ _. get key.now (view value.now) ≡ None) }
{
    match value.get(key) {
        Some(found) => Ok(found),
        None => Err(PartFault::Shape),
    }
}

// The number that a value says.
fn number_of(value: &Value) -> Result<u64, PartFault>
    ensures { IsReading SaysNumber (view value.now) result }
{
    match value.as_u64() {
        Some(number) => Ok(number),
        None => Err(PartFault::Shape),
    }
}

// The number under a key.
fn number(value: &Value, key: &str) -> Result<u64, PartFault>
    ensures { IsReading (Under key.now SaysNumber) (view value.now) result }
{
    number_of(under(value, key)?)
}

// The elements of a list.
fn items(value: &Value) -> Result<&[Value], PartFault>
    ensures { MatchResult result (λ items. view value.now ≡ array (items_view items.now))
        (λ _. as_array (view value.now) ≡ None) }
{
    match value.as_array() {
        Some(items) => Ok(items.as_slice()),
        None => Err(PartFault::Shape),
    }
}

// The bytes whose numbers the characters of a text have.
fn bytes_of(alloc: Global, text: &str) -> Result<Output, PartFault>
    ensures { MatchResult result (λ bytes. (chars text.now ≡ bytes) × All (λ byte. byte < 2 ^ 8) bytes)
        (λ fault. fault ≡ Shape → All (λ byte. byte < 2 ^ 8) (chars text.now) → ⊥) }
{
    let mut out = Output::new(alloc);
    for character in text.chars() {
        let Ok(byte) = u8::try_from(character) else {
            return Err(PartFault::Shape);
        };
        out.bytes([byte].as_slice())?;
    }
    Ok(out)
}

// The text that a value says.
fn text_of(alloc: Global, value: &Value) -> Result<Bytes, PartFault>
    ensures { IsReading SaysText (view value.now) result }
{
    match value.as_str() {
        Some(text) => Ok(Bytes::from_slice(alloc, bytes_of(alloc, text)?.as_slice())?),
        None => Err(PartFault::Shape),
    }
}

// The text under a key.
fn text(alloc: Global, value: &Value, key: &str) -> Result<Bytes, PartFault>
    ensures { IsReading (Under key.now SaysText) (view value.now) result }
{
    text_of(alloc, under(value, key)?)
}

// An actor's number.
fn actor(value: &Value) -> Result<u32, PartFault>
    ensures { IsReading SaysActor (view value.now) result }
{
    let Some(number) = value.as_u64() else {
        return Err(PartFault::Shape);
    };
    match u32::try_from(number) {
        Ok(actor) => Ok(actor),
        Err(_) => Err(PartFault::Shape),
    }
}

// The actors' numbers that values say.
fn all_actors(alloc: Global, values: &[Value]) -> Result<Vec<u32>, PartFault>
    ensures { MatchResult result (λ actors. ItemsSay SaysActor (items_view values.now) actors.items)
        (λ fault. fault ≡ Shape → IsUnsaid (ItemsSay SaysActor (items_view values.now))) }
{
    let mut actors = Vec::new(alloc);
    for value in values {
        add(&mut actors, actor(value)?)?;
    }
    Ok(actors)
}

// Actors' numbers.
fn actors(alloc: Global, value: &Value) -> Result<Vec<u32>, PartFault>
    ensures { IsReading SaysActors (view value.now) result }
{
    all_actors(alloc, items(value)?)
}

// The actors' numbers under a key.
fn actors_under(alloc: Global, value: &Value, key: &str) -> Result<Vec<u32>, PartFault>
    ensures { IsReading (Under key.now SaysActors) (view value.now) result }
{
    actors(alloc, under(value, key)?)
}

// The lists of actors' numbers that values say.
fn all_lists(alloc: Global, values: &[Value]) -> Result<Vec<Vec<u32>>, PartFault>
    ensures { MatchResult result (λ lists. ItemsSay SaysActors (items_view values.now) lists.items)
        (λ fault. fault ≡ Shape → IsUnsaid (ItemsSay SaysActors (items_view values.now))) }
{
    let mut lists = Vec::new(alloc);
    for value in values {
        add(&mut lists, actors(alloc, value)?)?;
    }
    Ok(lists)
}

// The lists of actors' numbers under a key.
fn lists_under(alloc: Global, value: &Value, key: &str) -> Result<Vec<Vec<u32>>, PartFault>
    ensures { MatchResult result
        (λ lists. Under key.now (SaysList SaysActors) (view value.now) lists.items)
        (λ fault. fault ≡ Shape → IsUnsaid (Under key.now (SaysList SaysActors) (view value.now))) }
{
    all_lists(alloc, items(under(value, key)?)?)
}

// An outcome. Its schedule is that of its least list.
fn told(alloc: Global, value: &Value) -> Result<Told, PartFault>
    ensures { IsReading SaysTold (view value.now) result }
{
    let turns = actors_under(alloc, value, "least")?;
    let mut leads = Output::new(alloc);
    schedule_words(&mut leads, &turns)?;
    let block = text(alloc, value, "block")?;
    let look = text(alloc, value, "look")?;
    let (same, rest) = beside(alloc, look.as_slice(), block.as_slice())?;
    Ok(Told {
        lists: number(value, "schedules")?,
        cuts: number(value, "cuts")?,
        changes: number(value, "changes")?,
        turns,
        schedule: leads,
        look,
        same,
        rest,
        lines: text(alloc, value, "lines")?,
    })
}

// The outcomes that values say.
fn all_told(alloc: Global, values: &[Value]) -> Result<Vec<Told>, PartFault>
    ensures { MatchResult result (λ all. ItemsSay SaysTold (items_view values.now) all.items)
        (λ fault. fault ≡ Shape → IsUnsaid (ItemsSay SaysTold (items_view values.now))) }
{
    let mut all = Vec::new(alloc);
    for value in values {
        add(&mut all, told(alloc, value)?)?;
    }
    Ok(all)
}

// The outcomes under a key.
fn told_under(alloc: Global, value: &Value, key: &str) -> Result<Vec<Told>, PartFault>
    ensures { MatchResult result (λ all. Under key.now (SaysList SaysTold) (view value.now) all.items)
        (λ fault. fault ≡ Shape → IsUnsaid (Under key.now (SaysList SaysTold) (view value.now))) }
{
    all_told(alloc, items(under(value, key)?)?)
}

/// The part that a value says. Errors: `Shape` where it says none; `NoMemory`.
pub(crate) fn part(alloc: Global, value: &Value) -> Result<Part, PartFault>
    ensures { IsReading SaysPart (view value.now) result }
{
    let begin = actors_under(alloc, value, "begin")?;
    let might = lists_under(alloc, value, "might")?;
    if might.len() > begin.len() {
        return Err(PartFault::Shape);
    }
    Ok(Part {
        begin,
        might,
        lists: number(value, "schedules")?,
        turns: number(value, "turns")?,
        all: told_under(alloc, value, "outcomes")?,
    })
}

// A rule, and the text after its word.
fn rule_of(text: &str) -> Option<(Rule, &str)>
    ensures { MatchOption result ((rule : Rule) (rest : List ℕ) → text.now ≢ rule_word rule ++ rest)
        (λ said. text.now ≡ rule_word said.0 ++ said.1.now) }
{
    if let Some(rest) = text.strip_prefix("when ") {
        Some((Rule::When, rest))
    } else if let Some(rest) = text.strip_prefix("never ") {
        Some((Rule::Never, rest))
    } else if let Some(rest) = text.strip_prefix("always ") {
        Some((Rule::Always, rest))
    } else {
        None
    }
}

// The property that a value says.
fn property(alloc: Global, value: &Value) -> Result<Property, PartFault>
    ensures { IsReading SaysProperty (view value.now) result }
{
    let Some(said) = value.as_str() else {
        return Err(PartFault::Shape);
    };
    let Some((rule, text)) = rule_of(said) else {
        return Err(PartFault::Shape);
    };
    match read_property(alloc, true, rule, text)? {
        Some(property) => Ok(property),
        None => Err(PartFault::Shape),
    }
}

// The properties that values say.
fn all_properties(alloc: Global, values: &[Value]) -> Result<Vec<Property>, PartFault>
    ensures { MatchResult result (λ all. ItemsSay SaysProperty (items_view values.now) all.items)
        (λ fault. fault ≡ Shape → IsUnsaid (ItemsSay SaysProperty (items_view values.now))) }
{
    let mut all = Vec::new(alloc);
    for value in values {
        add(&mut all, property(alloc, value)?)?;
    }
    Ok(all)
}

/// The properties of the question that a part answers. Errors: `Shape` where it says none; `NoMemory`.
pub(crate) fn properties(alloc: Global, value: &Value) -> Result<Vec<Property>, PartFault>
    ensures { MatchResult result (λ all. SaysProperties (view value.now) all.items)
        (λ fault. fault ≡ Shape → IsUnsaid (SaysProperties (view value.now))) }
{
    let question = under(value, "part of")?;
    all_properties(alloc, items(under(question, "properties")?)?)
}

/// The question that a part answers, as text. Errors: `Shape` where there is none; `NoMemory`.
pub(crate) fn question(alloc: Global, value: &Value) -> Result<String, PartFault>
    ensures { MatchResult result
        (λ text. SaysQuestion (view value.now) (string_bytes text))
        (λ fault. fault ≡ Shape → get (codes "part of") (view value.now) ≡ None) }
{
    Ok(under(value, "part of")?.to_string(alloc)?)
}
