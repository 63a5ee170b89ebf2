//! Parts read again, and made one: what `inroot explore --merge` reads and writes.
ghost use Rattle.std.specs.Prelude.{◌≡◌, Some, IfOk, IfSome, OnOk, string_bytes};
ghost use Rattle.serde_json.specs.Read.{read};
ghost use Rattle.serde_json.specs.View.{view};
ghost use Rattle.explore_parts.specs.Merging.{Asks, Adds, LinesSay, lines_in, IsMerge};

use crate::part_read::{PartFault, part, properties, question};
use crate::seal::{SealFault, check_seal};
use outcome_text::{MergeFault, Part, Property, merge};
use scripts::is_too_deep;
use serde_json::Value;
use std::alloc::Global;
use std::io::{ErrorKind, Read, Write};

/// The most bytes of the line of a part, its newline not counted.
pub const LINE_BYTES_MAX: usize = 16_777_216;

/// The most parts that are merged.
pub const MERGED_MAX: usize = 65_536;

/// The most bytes of all their lines, with newlines and empty lines.
pub const MERGED_BYTES_MAX: usize = 268_435_456;

// All that a reader has left.
fn read_all<R: Read>(alloc: Global, reader: &mut R) -> Result<Vec<u8>, MergeFault>
    ensures { IfOk result (λ all. IfSome (R.remaining reader.old) (λ input. all.items ≡ input)) }
{
    let mut all = Vec::new(alloc);
    let mut block = [0u8; 4096];
    for _ in 0..u64::MAX {
        if all.len() > MERGED_BYTES_MAX {
            return Err(MergeFault::TooLong);
        }
        match reader.read(&mut block) {
            Ok(0) => return Ok(all),
            Ok(count) => {
                let Ok(()) = all.extend_from_slice(&block[..count]) else {
                    return Err(MergeFault::NoMemory);
                };
            }
            Err(error) if error.kind() == ErrorKind::Interrupted => {}
            Err(_) => return Err(MergeFault::ReadFailed),
        }
    }
    Err(MergeFault::ReadFailed)
}

// Why the line at that place isn't as it was written.
fn unsealed(place: usize, fault: SealFault) -> MergeFault {
    match fault {
        SealFault::NoSum => MergeFault::NotAPart(place),
        SealFault::Spoilt => MergeFault::Spoilt(place),
        SealFault::NoMemory => MergeFault::NoMemory,
    }
}

// Why there is no part at that place.
fn unread(place: usize, fault: PartFault) -> MergeFault {
    match fault {
        PartFault::Shape => MergeFault::NotAPart(place),
        PartFault::NoMemory => MergeFault::NoMemory,
    }
}

// The value of a line of JSON, whose lists and objects stand in one another as in a script at most.
fn value_of(alloc: Global, place: usize, line: &[u8]) -> Result<Value, MergeFault>
    ensures { IfOk result (λ value. read line.now ≡ Some (view value)) }
{
    if is_too_deep(line) {
        return Err(MergeFault::NotAPart(place));
    }
    match Value::from_slice(alloc, line) {
        Ok(value) => Ok(value),
        Err(error) if error.is_memory() => Err(MergeFault::NoMemory),
        Err(_) => Err(MergeFault::NotAPart(place)),
    }
}

// Parts, the question that they answer, and its properties.
#[derive(Debug, Drop)]
struct Parts {
    parts: Vec<Part>,
    question: String,
    properties: Vec<Property>,
}

// Sees to it that a part is of the question of those before it; the first has that question.
fn take_question(alloc: Global, parts: &mut Parts, value: &Value) -> Result<(), MergeFault>
    ensures { OnOk result (Asks parts.old parts.new (view value.now)) }
{
    let place = parts.parts.len();
    let asked = question(alloc, value).map_err(|fault| unread(place, fault))?;
    if place == 0 {
        parts.properties = properties(alloc, value).map_err(|fault| unread(place, fault))?;
        parts.question = asked;
        return Ok(());
    }
    if parts.question != asked {
        return Err(MergeFault::OtherQuestion(place));
    }
    Ok(())
}

// Adds the part that a line says.
fn add_line(alloc: Global, parts: &mut Parts, line: &[u8]) -> Result<(), MergeFault>
    ensures { OnOk result (Adds parts.old parts.new line.now) }
{
    let place = parts.parts.len();
    if place >= MERGED_MAX {
        return Err(MergeFault::TooMany);
    }
    if line.len() > LINE_BYTES_MAX {
        return Err(MergeFault::LineTooLong(place));
    }
    check_seal(alloc, line).map_err(|fault| unsealed(place, fault))?;
    let value = value_of(alloc, place, line)?;
    take_question(alloc, parts, &value)?;
    let part = part(alloc, &value).map_err(|fault| unread(place, fault))?;
    if parts.parts.push(part).is_err() {
        return Err(MergeFault::NoMemory);
    }
    Ok(())
}

// The parts that lines say, one each. Empty lines are passed over.
fn parts_in(alloc: Global, text: &[u8]) -> Result<Parts, MergeFault>
    ensures { IfOk result (λ parts.
        LinesSay (string_bytes parts.question) parts.properties.items (lines_in text.now) parts.parts.items) }
{
    let mut parts = Parts {
        parts: Vec::new(alloc),
        question: String::new(alloc),
        properties: Vec::new(alloc),
    };
    for line in text.split(|byte| *byte == b'\n') {
        if !line.is_empty() {
            add_line(alloc, &mut parts, line)?;
        }
    }
    Ok(parts)
}

/// Reads parts, a line each, and writes what all schedules come to, without the number of states: parts share some.
/// The result is whether no property fails.
///
/// Empty lines are passed over.
///
/// Errors, in this order: those of reading, which are `ReadFailed`, `TooLong` past `MERGED_BYTES_MAX` bytes, and
/// `NoMemory`; of the first line that is refused `TooMany` where it is one more than `MERGED_MAX`, `LineTooLong` past
/// `LINE_BYTES_MAX` bytes, `NotAPart` where it ends with no digest, `Spoilt` where it ends with another digest than its
/// own, `NotAPart` where it is no part otherwise, and `OtherQuestion` where it is of another question than the first
/// line; those of `merge`; `WriteFailed`. Nothing is written before the text is whole.
pub fn merge_parts<R: Read, W: Write>(
    alloc: Global,
    reader: &mut R,
    writer: &mut W,
) -> Result<bool, MergeFault>
    ensures { IsMerge (R.remaining reader.old) (W.contents writer.old) (W.contents writer.new) result }
{
    let text = read_all(alloc, reader)?;
    let parts = parts_in(alloc, text.as_slice())?;
    let survey = merge(alloc, parts.parts, &parts.properties)?;
    match survey.write(writer) {
        Ok(()) => Ok(survey.holds),
        Err(_) => Err(MergeFault::WriteFailed),
    }
}
