//! The script that the program reads, and what a search is asked of it.
use crate::telling::Told;
use command_line::{Fault, begun, can_be_named, row_line};
use explore_parts::Asked;
use outcome_text::ExploreFault;
use path_text::Bytes;
use scripts::{TurnOrder, read_scenario, read_script};
use std::alloc::Global;
use std::fs::File;
use std::io::IsTerminal;

/// The bytes of the script: of the file that is named, or of standard input. Says on a terminal that it waits for one.
pub fn script_of(rt: &HostRuntime, named: Option<&str>) -> Result<Vec<u8>, Fault> {
    let alloc = rt.alloc();
    let Some(name) = named else {
        if rt.stdin().is_terminal() {
            let _ = eprintln!(rt;
                "inroot: waits for a script on this terminal, up to Control-D; to read a file, name it as the last argument"
            );
        }
        return Ok(read_script(alloc, &mut rt.stdin())?);
    };
    match File::open(rt, name) {
        Ok(mut file) => Ok(read_script(alloc, &mut file)?),
        Err(error) => {
            // The status says it where standard error can't.
            let _ = eprintln!(rt; "inroot: {name:?}: {error}");
            Err(Fault::NoScript)
        }
    }
}

/// Puts the numbers of directories in the place of their paths into the lines that are asked for. Fails where no report
/// can have such a line; but a script that is refused is told first.
pub fn number_rows(alloc: Global, asked: &mut Asked, told: &mut Told) -> Result<(), Fault> {
    if asked.properties.is_empty() {
        return Ok(());
    }
    // A script that can't be read is told where it is searched.
    let Ok(value) = told.script.value() else {
        return Ok(());
    };
    for (place, property) in asked.properties.iter_mut().enumerate() {
        let text = property.text.as_slice();
        match row_line(alloc, value, text)? {
            Some(line) if can_be_named(told.script.bytes(), text) => {
                property.text = Bytes::from_slice(alloc, line.as_slice())?;
            }
            _ => {
                told.line = Vec::from_slice(alloc, text)?;
                read_scenario(alloc, &told.script, &TurnOrder::OfScript)?;
                return Err(Fault::from(ExploreFault::NoSuchLine(place)));
            }
        }
    }
    Ok(())
}

/// The fault that is told of a search, and by which line.
pub fn searched(alloc: Global, asked: &Asked, fault: Fault, told: &mut Told) -> Fault {
    if let Fault::Explore(ExploreFault::NoSuchLine(place)) = fault {
        if let Some(property) = asked.properties.get(place) {
            // Without room for it the line is told without its text.
            if let Ok(line) = Vec::from_slice(alloc, property.text.as_slice()) {
                told.line = line;
            }
        }
    }
    match told.script.value() {
        Ok(value) => begun(asked.limits.scope.begin.as_slice(), value, fault),
        Err(_) => fault,
    }
}
