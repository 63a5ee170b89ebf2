//! What a script has where it is refused.
ghost use Rattle.std.specs.Prelude.{◌≡◌, option_map, IfOk};
ghost use Rattle.event_log.specs.Output.{Gains};
ghost use Rattle.serde_json.specs.View.{view};
ghost use Rattle.command_line.specs.Entry.{item_under, call_at, entry_of, printed_byte, printed, shown, IsShownOf, IsTold};

use event_log::Output;
use path_text::NoMemory;
use scripts::{Cause, Loose, ScriptFault};
use serde_json::Value;
use std::alloc::Global;

/// How many bytes of an entry are shown.
pub const ENTRY_MAX: usize = 200;

// The element at that place of the list under a key.
fn item_under<'a>(value: &'a Value, key: &str, at: usize) -> Option<&'a Value>
    ensures { option_map (λ item. view item.now) result ≡ item_under key.now at (view value.now) }
{
    value.get(key)?.get(at)
}

// The call of that number of an actor.
fn call_at(script: &Value, actor: usize, call: usize) -> Option<&Value>
    ensures { option_map (λ item. view item.now) result ≡ call_at actor call (view script.now) }
{
    item_under(item_under(script, "actors", actor)?, "calls", call)
}

/// The entry of the tree, the actor, its root, the call or the turn of a script that is refused.
pub fn entry_of(script: &Value, fault: ScriptFault) -> Option<&Value>
    ensures { option_map (λ item. view item.now) result ≡ entry_of fault (view script.now) }
{
    match fault {
        ScriptFault::TreeEntry(at, _) => item_under(script, "tree", at),
        ScriptFault::Actor(actor, Cause::Refused(_)) => {
            item_under(script, "actors", actor)?.get("root")
        }
        ScriptFault::Actor(actor, Cause::Shape) | ScriptFault::Loose(Loose::ActorKey(actor)) =>
            item_under(script, "actors", actor),
        ScriptFault::Call(actor, call, _)
        | ScriptFault::Loose(
            Loose::CallKey(actor, call, _)
            | Loose::Restriction(actor, call)
            | Loose::Label(actor, call),
        ) => call_at(script, actor, call),
        ScriptFault::NoJob(call) => call_at(script, 0, call),
        ScriptFault::Turn(at) => item_under(script, "schedule", at),
        _ => None,
    }
}

// Adds a byte, or where it isn't printed `\x` and two hexadecimal digits.
pub(crate) fn add_byte(out: &mut Output, byte: u8) -> Result<(), NoMemory>
    ensures { Gains out.old out.new (printed_byte byte) result }
{
    match byte {
        b' ' => out.text(" "),
        b'\\' => out.text("\\"),
        _ => out.escaped(&[byte]),
    }
}

// Adds a text as it is printed.
pub(crate) fn add_printed(out: &mut Output, text: &[u8]) -> Result<(), NoMemory>
    ensures { Gains out.old out.new (printed text.now) result }
{
    for byte in text {
        add_byte(out, *byte)?;
    }
    Ok(())
}

// Adds the beginning of a text of JSON, so that no byte of it reaches a terminal as anything but what is printed.
// NoMemory where room was refused.
fn add_shown(out: &mut Output, text: &[u8]) -> Result<(), NoMemory>
    ensures { Gains out.old out.new (shown text.now) result }
{
    if text.len() <= ENTRY_MAX {
        return add_printed(out, text);
    }
    let (head, _tail) = text.split_at(ENTRY_MAX);
    add_printed(out, head)?;
    out.text("~")
}

// What is shown of a value. NoMemory where room was refused.
fn shown_of(alloc: Global, value: &Value) -> Result<Output, NoMemory>
    ensures { IfOk result (λ text. IsShownOf (view value.now) text) }
{
    let Ok(text) = value.to_string(alloc) else {
        return Err(NoMemory);
    };
    let mut out = Output::new(alloc);
    add_shown(&mut out, text.as_bytes())?;
    Ok(out)
}

/// The text of the entry that a script is refused for, if it is one's, to be told to somebody. NoMemory where room was
/// refused.
pub fn entry_text(
    alloc: Global,
    script: &Value,
    fault: ScriptFault,
) -> Result<Option<Output>, NoMemory>
    ensures { IfOk result (λ told. IsTold (entry_of fault (view script.now)) told) }
{
    match entry_of(script, fault) {
        Some(entry) => Ok(Some(shown_of(alloc, entry)?)),
        None => Ok(None),
    }
}
