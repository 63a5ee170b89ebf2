//! The line of an entry that a property asks for: its directory's path, and its name.
ghost use Rattle.std.specs.Prelude.{◌≡◌, IfOk};
ghost use Rattle.serde_json.specs.View.{view, items_view};
ghost use Rattle.command_line.specs.Rows.{is_text, is_dir_at, node_among, node_at, row_line, can_be_named};

use crate::cut::{cut, is_within};
use event_log::Output;
use path_text::NoMemory;
use serde_json::Value;
use std::alloc::Global;

// Whether the element of an entry at that place is that text.
fn is_text(entry: &Value, at: usize, text: &[u8]) -> bool
    ensures { result ≡ is_text at text.now (view entry.now) }
{
    match entry.get(at).and_then(Value::as_str) {
        Some(element) => element.as_bytes() == text,
        None => false,
    }
}

// Whether an entry of a script's tree is the directory with that path.
fn is_dir_at(entry: &Value, path: &[u8]) -> bool
    ensures { result ≡ is_dir_at path.now (view entry.now) }
{
    is_text(entry, 0, b"dir") && is_text(entry, 1, path)
}

// The number of the first of these entries that is the directory with that path. Entry K, counted from 0, is node
// K + 1.
fn node_among(entries: &[Value], path: &[u8]) -> Option<u64>
    ensures { result ≡ node_among path.now 1 (items_view entries.now) }
{
    for (at, entry) in entries.iter().enumerate() {
        if is_dir_at(entry, path) {
            return Some(at as u64 + 1);
        }
    }
    None
}

// The number of the directory with that path in a script's tree.
fn node_at(script: &Value, path: &[u8]) -> Option<u64>
    ensures { result ≡ node_at path.now (view script.now) }
{
    if path == b"/".as_slice() {
        return Some(0);
    }
    let entries = script.get("tree")?.as_array()?;
    node_among(entries, path)
}

/// The line that a property's text stands for: of `row` and the path of a directory, the same with the directory's
/// number; of any other text, the text. None where no directory of the script's tree has that path. NoMemory where room
/// was refused.
pub fn row_line(alloc: Global, script: &Value, text: &[u8]) -> Result<Option<Output>, NoMemory>
    ensures { IfOk result (λ line. line ≡ row_line text.now (view script.now)) }
{
    let mut out = Output::new(alloc);
    let (word, rest) = cut(text, b' ');
    let (path, behind) = cut(rest, b' ');
    if word != b"row".as_slice() || !path.starts_with(b"/") {
        out.bytes(text)?;
        return Ok(Some(out));
    }
    let Some(node) = node_at(script, path) else {
        return Ok(None);
    };
    out.text("row ")?;
    out.number(node)?;
    if !behind.is_empty() {
        out.text(" ")?;
        out.bytes(behind)?;
    }
    Ok(Some(out))
}

/// Whether an entry can have the name that a property's text wants, by the bytes of the script: each name is a part of
/// one of the script's texts. Bytes that are escaped are passed over.
pub fn can_be_named(script: &[u8], text: &[u8]) -> bool
    ensures { result ≡ can_be_named script.now text.now }
{
    let (word, rest) = cut(text, b' ');
    let (_parent, rest) = cut(rest, b' ');
    let (name, _rest) = cut(rest, b' ');
    word != b"row".as_slice()
        || name.contains(&b'\\')
        || script.contains(&b'\\')
        || name.is_empty()
        || is_within(name, script)
}
