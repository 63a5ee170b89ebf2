//! Why a script is no JSON text, and where.
ghost use Rattle.std.specs.Prelude.{◌≡◌, ◌++◌, option_map};
ghost use Rattle.std.specs.List.{list_all};
ghost use Rattle.event_log.specs.Output.{Gains};
ghost use Rattle.command_line.specs.NoJson.{is_white, place_words, quoted, quoted_at, wrong, parts_at, last_of, first_of, blank_byte, blanks, plain_reason, not_utf8, IsTold, unexpected, excerpt, caret};

use crate::advice::add_number;
use crate::cut::line_at;
use crate::entry::{add_byte, add_printed};
use event_log::Output;
use path_text::NoMemory;
use scripts::JsonFault;

/// How many bytes are shown before the one that is pointed to, and how many from this one on.
pub const BEFORE_MAX: usize = 60;

pub const BEHIND_MAX: usize = 40;

// The byte order mark of UTF-8.
const ORDER_MARK: [u8; 3] = [0xef, 0xbb, 0xbf];

// Whether a byte is one of the four blanks of JSON.
pub(crate) fn is_white(byte: u8) -> bool
    ensures { result ≡ is_white byte }
{
    byte == b' ' || byte == b'\t' || byte == b'\n' || byte == b'\r'
}

fn are_white(text: &[u8]) -> bool
    ensures { result ≡ list_all is_white text.now }
{
    text.iter().all(|byte| is_white(*byte))
}

// The line that has the fault, before the byte that is at fault and from there on; none where there is no such byte.
fn parts_at(script: &[u8], fault: JsonFault) -> Option<(&[u8], &[u8])>
    ensures { option_map (λ parts. (parts.0.now, parts.1.now)) result ≡ parts_at script.now fault }
{
    let line = line_at(script, fault.line);
    if fault.is_cut_short || fault.column == 0 || line.len() < fault.column {
        return None;
    }
    Some(line.split_at(fault.column - 1))
}

// The last of these bytes, as many as are shown.
fn last_of(bytes: &[u8]) -> &[u8]
    ensures { result.now ≡ last_of bytes.now }
{
    bytes.split_at(bytes.len().saturating_sub(BEFORE_MAX)).1
}

// The first of these bytes, as many as are shown.
fn first_of(bytes: &[u8]) -> &[u8]
    ensures { result.now ≡ first_of bytes.now }
{
    if bytes.len() <= BEHIND_MAX {
        return bytes;
    }
    bytes.split_at(BEHIND_MAX).0
}

// Adds words, and where a text is at fault.
fn add_place(out: &mut Output, words: &str, fault: JsonFault) -> Result<(), NoMemory>
    ensures { Gains out.old out.new (words.now ++ place_words fault) result }
{
    out.text(words)?;
    out.text(" at line ")?;
    out.number(fault.line as u64)?;
    out.text(", column ")?;
    out.number(fault.column as u64)
}

// Adds the first of these bytes, which may not stand there, between marks.
fn add_first(out: &mut Output, from: &[u8]) -> Result<(), NoMemory>
    ensures { Gains out.old out.new (quoted from.now) result }
{
    let Some(byte) = from.first() else {
        return Ok(());
    };
    out.text(": unexpected '")?;
    add_byte(out, *byte)?;
    out.text("'")
}

// Adds the byte that is at fault, if there is one.
fn add_at(out: &mut Output, script: &[u8], fault: JsonFault) -> Result<(), NoMemory>
    ensures { Gains out.old out.new (quoted_at (parts_at script.now fault)) result }
{
    match parts_at(script, fault) {
        Some((_, from)) => add_first(out, from),
        None => Ok(()),
    }
}

// Adds words, where a text is at fault, and by which byte.
fn add_wrong(out: &mut Output, words: &str, script: &[u8], fault: JsonFault) -> Result<(), NoMemory>
    ensures { Gains out.old out.new (wrong words.now script.now fault) result }
{
    add_place(out, words, fault)?;
    add_at(out, script, fault)
}

// Adds which byte of a text is no JSON's, or that the text ends too soon.
fn add_unexpected(out: &mut Output, script: &[u8], fault: JsonFault) -> Result<(), NoMemory>
    ensures { Gains out.old out.new (unexpected script.now fault) result }
{
    if fault.is_cut_short {
        add_place(out, "the text ends too soon", fault)
    } else {
        add_wrong(out, "not valid JSON", script, fault)
    }
}

// Why a script is no JSON text, where its first bytes say it.
fn plain_reason(script: &[u8]) -> Option<&'static str>
    ensures { option_map (λ text. text.now) result ≡ plain_reason script.now }
{
    if are_white(script) {
        Some("the script is empty: name its file, or give the script on standard input")
    } else if script.starts_with(&ORDER_MARK) {
        Some("a byte order mark stands before the JSON text: take out the first three bytes")
    } else {
        None
    }
}

// Adds how much of a script is UTF-8.
fn add_not_utf8(out: &mut Output, valid: usize) -> Result<(), NoMemory>
    ensures { Gains out.old out.new (not_utf8 valid) result }
{
    add_number(out, "not UTF-8 after byte ", valid as u64, " of the script")
}

/// Adds why a script is no JSON text: it is empty, begins with a byte order mark, is no UTF-8, ends too soon, or has a
/// byte that may not stand there. NoMemory where room was refused.
pub fn add_no_json(out: &mut Output, script: &[u8], fault: JsonFault) -> Result<(), NoMemory>
    ensures { IsTold script.now fault out.old out.new result }
{
    if let Some(reason) = plain_reason(script) {
        return out.text(reason);
    }
    match str::from_utf8(script) {
        Ok(_) => add_unexpected(out, script, fault),
        Err(error) => add_not_utf8(out, error.valid_up_to()),
    }
}

/// Adds what of its line stands around the byte that is at fault, if there is one. NoMemory where room was refused.
pub fn add_excerpt(out: &mut Output, script: &[u8], fault: JsonFault) -> Result<(), NoMemory>
    ensures { Gains out.old out.new (excerpt script.now fault) result }
{
    let Some((before, from)) = parts_at(script, fault) else {
        return Ok(());
    };
    add_printed(out, last_of(before))?;
    add_printed(out, first_of(from))
}

// Adds as many blanks as a byte has columns.
fn add_blank_byte(out: &mut Output, byte: u8) -> Result<(), NoMemory>
    ensures { Gains out.old out.new (blank_byte byte) result }
{
    if (0x20..=0x7e).contains(&byte) {
        out.text(" ")
    } else {
        out.text("    ")
    }
}

fn add_blanks(out: &mut Output, text: &[u8]) -> Result<(), NoMemory>
    ensures { Gains out.old out.new (blanks text.now) result }
{
    for byte in text {
        add_blank_byte(out, *byte)?;
    }
    Ok(())
}

/// Adds a caret that stands below the byte that is at fault, where it is shown. NoMemory where room was refused.
pub fn add_caret(out: &mut Output, script: &[u8], fault: JsonFault) -> Result<(), NoMemory>
    ensures { Gains out.old out.new (caret script.now fault) result }
{
    let Some((before, _from)) = parts_at(script, fault) else {
        return Ok(());
    };
    add_blanks(out, last_of(before))?;
    out.text("^")
}
