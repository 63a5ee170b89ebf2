//! The tree of a script: its entries, and the indexed tree that they name.
ghost use Rattle.std.specs.Prelude.{◌≡◌, [], Ok, IfOk, IfErr, option_map};
ghost use Rattle.serde_json.specs.View.{view, items_view};
ghost use Rattle.tree_model.specs.Trees.{IsState};
ghost use Rattle.tree_list.specs.Build.{top_alone, with_nodes};
ghost use Rattle.scripts.specs.declared.fault.RunFault.TheVariants as run_fault;
ghost use Rattle.scripts.specs.Fault.{IsFaultOf};
ghost use Rattle.scripts.specs.Tree.{names_of, text_at, has_elements, new_of, entry_of, entries_of, tree_of, told_by};

use crate::fault::{Cause, RunFault, ScriptFault};
use path_text::{Bytes, Errno, Names, NoMemory};
use serde_json::Value;
use std::alloc::Global;
use tree_list::{BuildFault, Entry, New};
use tree_slab::SlabTree;

/// The most entries of a script's tree.
pub const ENTRIES_MAX: usize = 10_000;

// The most entries that a script's tree remembers beside its maps.
const CAP: usize = 1_024;

/// The element of an array at a place, if it is a text.
fn text_at(value: &Value, at: usize) -> Option<&str>
    ensures { option_map (λ text. text.now) result ≡ text_at at (view value.now) }
{
    value.get(at).and_then(Value::as_str)
}

/// Whether an array has no more than that many elements.
fn has_elements(value: &Value, count: usize) -> bool
    ensures { result ≡ has_elements count (view value.now) }
{
    value.get(count).is_none()
}

/// The names of a path that has a slash before each, if all of them are names, and there is one.
fn names_of(alloc: Global, path: &[u8]) -> Result<Option<Names>, NoMemory>
    ensures { IfOk result (λ names. names ≡ names_of path.now) }
{
    if path == b"/".as_slice() {
        return Ok(None);
    }
    Names::read(alloc, path)
}

/// What a new entry of that kind is, if the array has as many elements as it wants.
fn new_of(alloc: Global, kind: &str, value: &Value) -> Result<Option<New>, NoMemory>
    ensures { IfOk result (λ what. what ≡ new_of kind.now (view value.now)) }
{
    if kind == "dir" && has_elements(value, 2) {
        return Ok(Some(New::Dir));
    }
    if kind == "file" && has_elements(value, 2) {
        return Ok(Some(New::File));
    }
    if kind == "link" && has_elements(value, 3) {
        let Some(text) = text_at(value, 2) else {
            return Ok(None);
        };
        let text = Bytes::from_slice(alloc, text.as_bytes())?;
        return Ok(Some(New::Link(text)));
    }
    Ok(None)
}

/// The entry that a value says, if it has the shape of one.
fn entry_of(alloc: Global, value: &Value) -> Result<Option<Entry>, NoMemory>
    ensures { IfOk result (λ entry. entry ≡ entry_of (view value.now)) }
{
    let Some(kind) = text_at(value, 0) else {
        return Ok(None);
    };
    let Some(what) = new_of(alloc, kind, value)? else {
        return Ok(None);
    };
    let Some(path) = text_at(value, 1) else {
        return Ok(None);
    };
    let Some(at) = names_of(alloc, path.as_bytes())? else {
        return Ok(None);
    };
    Ok(Some(Entry { at, what }))
}

/// The entries that values say, up to the first that has another shape.
fn entries_of(alloc: Global, values: &[Value]) -> Result<Vec<Entry>, NoMemory>
    ensures { IfOk result (λ entries. entries.items ≡ entries_of (items_view values.now)) }
{
    let mut entries = Vec::with_capacity(alloc, values.len())?;
    for value in values {
        let Some(entry) = entry_of(alloc, value)? else {
            return Ok(entries);
        };
        entries.push(entry)?;
    }
    Ok(entries)
}

/// How a run tells that its tree can't be built.
fn told_by(fault: BuildFault) -> RunFault
    ensures { result ≡ told_by fault.cause fault.at }
{
    if fault.cause == Errno::NoMemory {
        RunFault::NoMemory
    } else {
        RunFault::Script(ScriptFault::TreeEntry(fault.at, Cause::Refused(fault.cause)))
    }
}

/// The top alone. `NoMemory`.
fn top_alone(alloc: Global) -> Result<SlabTree, RunFault>
    ensures ok { IfOk result (λ tree. tree ≡ with_nodes top_alone) }
    ensures err { IfErr result (λ fault. fault ≡ run_fault.NoMemory) }
{
    // the cap is one that is never refused
    match SlabTree::new(alloc, CAP) {
        Ok(tree) => Ok(tree),
        Err(_) => Err(RunFault::NoMemory),
    }
}

/// The tree with the entries that values say. Errors: `TooManyEntries` past `ENTRIES_MAX` of them, `TreeEntry` of the
/// first whose shape, place or link text is refused; `NoMemory`.
pub fn tree_of(alloc: Global, values: &[Value]) -> Result<SlabTree, RunFault>
    ensures ok { IfOk result (λ tree. (tree_of (items_view values.now) ≡ Ok tree.nodes) × (tree.handles ≡ [])) }
    ensures tree { IfOk result IsState }
    ensures err { IfErr result (IsFaultOf (tree_of (items_view values.now))) }
{
    if values.len() > ENTRIES_MAX {
        return Err(RunFault::Script(ScriptFault::TooManyEntries));
    }
    let entries = entries_of(alloc, values)?;
    let shaped = entries.len();
    let mut tree = top_alone(alloc)?;
    match tree.add_all(alloc, &entries) {
        Ok(()) if shaped == values.len() => Ok(tree),
        Ok(()) => Err(RunFault::Script(ScriptFault::TreeEntry(shaped, Cause::Shape))),
        Err(fault) => Err(told_by(fault)),
    }
}
