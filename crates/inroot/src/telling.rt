//! What is told of a fault on standard error.
use command_line::{
    Fault, add_caret, add_excerpt, add_no_json, advise, entry_text, position_of, reason_of,
};
use event_log::Output;
use path_text::NoMemory;
use scripts::{JsonFault, RunFault, Script, ScriptFault};
use serde_json::Value;
use std::alloc::Global;
use std::io::{self, Write};

/// What a fault is told by.
#[derive(Drop)]
pub struct Told {
    /// How many states may be gone through.
    pub states: u64,
    /// The text of the property that no report can have a line for.
    pub line: Vec<u8>,
    /// The script, once it is read, and the empty text before.
    pub script: Script,
}

impl Told {
    /// Nothing yet.
    pub fn new(alloc: Global) -> Told {
        Told {
            states: 0,
            line: Vec::new(alloc),
            script: Script::of(alloc, Vec::new(alloc)),
        }
    }
}

/// The line of a start and a text.
fn line_of(alloc: Global, start: &str, text: &[u8]) -> Result<Output, NoMemory> {
    let mut line = Output::new(alloc);
    line.text(start)?;
    line.bytes(text)?;
    line.text("\n")?;
    Ok(line)
}

/// Writes a line by one write, so nobody reads half a line. Returns whether memory sufficed for the line.
fn write_line(rt: &HostRuntime, start: &str, text: &[u8]) -> io::Result<bool> {
    match line_of(rt.alloc(), start, text) {
        Ok(line) => {
            rt.stderr().write_all(line.as_slice())?;
            Ok(true)
        }
        Err(_) => Ok(false),
    }
}

/// Writes the line of a text, unless the text is empty. Returns whether memory sufficed for the text and the line.
fn tell_line(rt: &HostRuntime, added: Result<(), NoMemory>, text: &Output) -> io::Result<bool> {
    if added.is_err() || text.as_slice().is_empty() {
        return Ok(added.is_ok());
    }
    write_line(rt, "inroot: ", text.as_slice())
}

/// Shows the line of a place, and points to the place. Leaves out the caret where the line had no memory.
fn point(rt: &HostRuntime, place: JsonFault, script: &[u8]) -> io::Result<()> {
    let mut excerpt = Output::new(rt.alloc());
    let added = add_excerpt(&mut excerpt, script, place);
    if tell_line(rt, added, &excerpt)? {
        let mut caret = Output::new(rt.alloc());
        let added = add_caret(&mut caret, script, place);
        let _ = tell_line(rt, added, &caret)?;
    }
    Ok(())
}

/// Tells why a script is no JSON text, and points to where. Leaves out what follows a line that had no memory.
fn tell_no_json(rt: &HostRuntime, fault: JsonFault, script: &[u8]) -> io::Result<()> {
    let mut reason = Output::new(rt.alloc());
    let added = add_no_json(&mut reason, script, fault);
    if tell_line(rt, added, &reason)? {
        point(rt, fault, script)?;
    }
    Ok(())
}

/// Tells where a script is refused, and what it has there if that is one of its entries. Returns whether memory
/// sufficed.
fn tell_entry(
    rt: &HostRuntime,
    fault: ScriptFault,
    place: Option<JsonFault>,
    script: &Value,
) -> io::Result<bool> {
    let alloc = rt.alloc();
    let start = match place {
        Some(JsonFault { line, column, .. }) => {
            format!(in alloc; "inroot: {fault} at line {line}, column {column}: ")
        }
        None => format!(in alloc; "inroot: {fault}: "),
    };
    match (start, entry_text(alloc, script, fault)) {
        (Ok(start), Ok(Some(entry))) => write_line(rt, start.as_str(), entry.as_slice()),
        (start, entry) => Ok(start.is_ok() && entry.is_ok()),
    }
}

/// Tells what is wrong with a script, or else what was wanted, and what the script has there.
fn tell_script(rt: &HostRuntime, fault: ScriptFault, script: &Script) -> io::Result<()> {
    if let ScriptFault::NotJson(fault) = fault {
        return tell_no_json(rt, fault, script.bytes());
    }
    let value = script.value().ok();
    if let Some(reason) = value.and_then(|value| reason_of(value, fault)) {
        eprintln!(rt; "inroot: {reason}")?;
    } else if let Some(detail) = RunFault::Script(fault).detail() {
        eprintln!(rt; "inroot: {detail}")?;
    }
    let Some(value) = value else {
        return Ok(());
    };
    let place = position_of(script.bytes(), fault);
    match (tell_entry(rt, fault, place, value)?, place) {
        (true, Some(place)) => point(rt, place, script.bytes()),
        _ => Ok(()),
    }
}

/// Tells a fault on standard error, and more of it in the lines below: what is wrong with a script and what it has
/// there, or the limit that was met. What was told where it was met, or by the answer, isn't told again.
pub fn tell(rt: &HostRuntime, fault: Fault, told: &Told) -> io::Result<()> {
    match fault {
        Fault::Usage | Fault::PropertyFails | Fault::NoScript => return Ok(()),
        _ => {}
    }
    eprintln!(rt; "inroot: {fault}")?;
    if let Fault::Run(RunFault::Script(refused)) = fault {
        return tell_script(rt, refused, &told.script);
    }
    let mut advice = Output::new(rt.alloc());
    let added = advise(&mut advice, fault, told.states, told.line.as_slice());
    let _ = tell_line(rt, added, &advice)?;
    Ok(())
}
