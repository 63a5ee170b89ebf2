//! Steps read from the lines that they are written as.
ghost use Rattle.std.specs.Prelude.{◌≡◌, ℕ, ◌<◌, ◌^◌, Some, IfOk, IfSome, decimal};
ghost use Rattle.event_log.specs.Output.{hex_digit};
ghost use Rattle.event_log.specs.Words.{line_of, mode_word, step_words};
ghost use Rattle.tree_model.specs.declared.step.Mode.{Mode};

use crate::output::Output;
use path_text::{Bytes, Errno, Name, NoMemory};
use std::alloc::Global;
use tree_model::{HandleNo, Mode, Step, StepOf};

/// The number of a handle, where the word is one.
fn handle_of(word: &str) -> Option<HandleNo>
    ensures { (handle : ℕ) → handle < 2 ^ 64 → word.now ≡ decimal handle → result ≡ Some handle }
{
    match word.parse::<u64>() {
        Ok(number) => Some(HandleNo::new(number)),
        Err(_) => None,
    }
}

/// What a hexadecimal digit stands for, and for any other byte 0.
fn digit_of(byte: u8) -> u8
    ensures small { result < 16 }
    ensures digit { (digit : ℕ) → digit < 16 → byte ≡ hex_digit digit → result ≡ digit }
{
    match byte {
        b'0'..=b'9' => byte - b'0',
        b'a'..=b'f' => byte - b'a' + 10,
        _ => 0,
    }
}

/// The bytes that a word stands for.
fn bytes_of(alloc: Global, word: &str) -> Result<Vec<u8>, NoMemory> {
    let mut bytes = Vec::new(alloc);
    let mut left = word.as_bytes();
    loop {
        match left {
            [] => return Ok(bytes),
            [b'\\', b'x', high, low, rest @ ..] => {
                bytes.push(digit_of(*high) * 16 + digit_of(*low))?;
                left = rest;
            }
            [byte, rest @ ..] => {
                bytes.push(*byte)?;
                left = rest;
            }
        }
    }
}

/// The name that a word stands for, where it is one.
fn name_of(alloc: Global, word: &str) -> Result<Option<Name>, NoMemory> {
    let bytes = bytes_of(alloc, word)?;
    match Name::new(alloc, &bytes) {
        Ok(name) => Ok(Some(name)),
        Err(Errno::NoMemory) => Err(NoMemory),
        Err(_) => Ok(None),
    }
}

/// How a rename treats an entry that is there already, where the word says so.
fn mode_of(word: &str) -> Option<Mode>
    ensures { (mode : Mode) → word.now ≡ mode_word mode → result ≡ Some mode }
{
    match word {
        "plain" => Some(Mode::Plain),
        "noreplace" => Some(Mode::NoReplace),
        "exchange" => Some(Mode::Exchange),
        _ => None,
    }
}

/// The step with a handle and nothing else.
fn step_on_handle(verb: &str, handle: HandleNo) -> Option<Step> {
    match verb {
        "dup" => Some(StepOf::Dup(handle)),
        "parent" => Some(StepOf::Parent(handle)),
        "read_link" => Some(StepOf::ReadLink(handle)),
        "list" => Some(StepOf::List(handle)),
        "close" => Some(StepOf::Close(handle)),
        _ => None,
    }
}

/// The step with a directory and a name, and nothing else.
fn step_on_entry(verb: &str, dir: HandleNo, name: Name) -> Option<Step> {
    match verb {
        "open" => Some(StepOf::Open(dir, name)),
        "make_dir" => Some(StepOf::MakeDir(dir, name)),
        "make_file" => Some(StepOf::MakeFile(dir, name)),
        "remove_file" => Some(StepOf::RemoveFile(dir, name)),
        "remove_dir" => Some(StepOf::RemoveDir(dir, name)),
        _ => None,
    }
}

/// The step of two handles, or of a directory and a name.
fn step_of_three(
    alloc: Global,
    verb: &str,
    first: &str,
    second: &str,
) -> Result<Option<Step>, NoMemory> {
    let Some(dir) = handle_of(first) else {
        return Ok(None);
    };
    if verb == "below" {
        return Ok(handle_of(second).map(|handle| StepOf::NameBelow(dir, handle)));
    }
    let name = name_of(alloc, second)?;
    Ok(name.and_then(|name| step_on_entry(verb, dir, name)))
}

/// An entry, as its directory's handle and its name.
fn entry_of(alloc: Global, dir: &str, name: &str) -> Result<Option<(HandleNo, Name)>, NoMemory> {
    let Some(dir) = handle_of(dir) else {
        return Ok(None);
    };
    let name = name_of(alloc, name)?;
    Ok(name.map(|name| (dir, name)))
}

/// The step that makes a link.
fn link_of(alloc: Global, dir: &str, name: &str, text: &str) -> Result<Option<Step>, NoMemory> {
    let Some((dir, name)) = entry_of(alloc, dir, name)? else {
        return Ok(None);
    };
    let text = Bytes::from_vec(bytes_of(alloc, text)?);
    Ok(Some(StepOf::MakeLink(dir, name, text)))
}

/// The step that renames an entry, each entry as its directory's handle and its name.
fn rename_of(
    alloc: Global,
    from: (&str, &str),
    to: (&str, &str),
    mode: &str,
) -> Result<Option<Step>, NoMemory> {
    let Some(mode) = mode_of(mode) else {
        return Ok(None);
    };
    let Some((from, old)) = entry_of(alloc, from.0, from.1)? else {
        return Ok(None);
    };
    let Some((to, new)) = entry_of(alloc, to.0, to.1)? else {
        return Ok(None);
    };
    Ok(Some(StepOf::Rename(from, old, to, new, mode)))
}

/// The step that these words may be those of.
fn step_of(alloc: Global, words: &[&str]) -> Result<Option<Step>, NoMemory> {
    match words {
        [verb, handle] => Ok(handle_of(handle).and_then(|handle| step_on_handle(verb, handle))),
        [verb, first, second] => step_of_three(alloc, verb, first, second),
        ["make_link", dir, name, text] => link_of(alloc, dir, name, text),
        ["rename", from, old, to, new, mode] => rename_of(alloc, (from, old), (to, new), mode),
        _ => Ok(None),
    }
}

/// The step that this line may be that of: each byte of a step's line is a blank or printed ASCII.
fn step_in(alloc: Global, line: &[u8]) -> Result<Option<Step>, NoMemory> {
    let Ok(text) = str::from_utf8(line) else {
        return Ok(None);
    };
    let words = text.split(' ').collect::<Vec<&str>>(alloc)?;
    step_of(alloc, words.as_slice())
}

/// The step whose line this is, with no newline at its end. NoMemory where its room was refused.
pub fn read_step(alloc: Global, line: &[u8]) -> Result<Option<Step>, NoMemory>
    ensures { IfOk result (λ read. IfSome read (λ step. line_of (step_words step) ≡ line.now)) }
{
    let Some(step) = step_in(alloc, line)? else {
        return Ok(None);
    };
    let mut written = Output::new(alloc);
    written.step(&step.lend())?;
    if written.as_slice() == line {
        Ok(Some(step))
    } else {
        Ok(None)
    }
}
