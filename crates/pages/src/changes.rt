//! What a tree has that an earlier one didn't have, or had elsewhere.
ghost use Rattle.std.specs.Prelude.{◌≡◌, ◌++◌, IfOk, OnOk};
ghost use Rattle.std.specs.Option.{option_copied};
ghost use Rattle.report_text.specs.Report.{numbered};
ghost use Rattle.event_log.specs.Output.{Gains};
ghost use Rattle.pages.specs.Changes.{same_place, has_moved, moved_one, moved, place_words, node_words, node_at, nodes_words, same_handle, has_changed, changed_one, changed, open_words, handle_words, handle_at, handles_words, changes_words};

use event_log::Output;
use path_text::NoMemory;
use report_text::json_words::{comma, text};
use report_text::numbered;
use std::alloc::Global;
use tree_model::{Inode, OpenHandle, Place, Snapshot};

// Whether two places are one, or there is none.
fn same_place(place: &Option<Place>, other: &Option<Place>) -> bool
    ensures { result ≡ same_place place.now other.now }
{
    match (place, other) {
        (None, None) => true,
        (Some(p), Some(q)) => p.parent == q.parent && p.name.bytes() == q.name.bytes(),
        _ => false,
    }
}

// Whether a node is new, or stands elsewhere than before.
fn has_moved(old: Option<&Inode>, inode: &Inode) -> bool
    ensures { result ≡ has_moved (option_copied old.entry) inode.now }
{
    match old {
        Some(old) => !same_place(&old.place, &inode.place),
        None => true,
    }
}

// Adds the number of a node if it has moved.
fn add_if_moved(
    numbers: &mut Vec<usize>,
    before: &[Inode],
    x: usize,
    inode: &Inode,
) -> Result<(), NoMemory>
    ensures { OnOk result (numbers.new.items ≡ numbers.old.items ++ moved_one before.now x inode.now) }
{
    if has_moved(before.get(x), inode) {
        numbers.push(x)?;
    }
    Ok(())
}

// The numbers of the nodes that have moved.
fn moved(alloc: Global, before: &[Inode], after: &[Inode]) -> Result<Vec<usize>, NoMemory>
    ensures { IfOk result (λ numbers. numbers.items ≡ moved before.now after.now) }
{
    let mut numbers = Vec::new(alloc);
    for (x, inode) in after.iter().enumerate() {
        add_if_moved(&mut numbers, before, x, inode)?;
    }
    Ok(numbers)
}

// Adds where a node stands.
fn add_place(alloc: Global, out: &mut Output, place: &Option<Place>) -> Result<(), NoMemory>
    ensures { Gains out.old out.new (place_words place.now) result }
{
    match place {
        Some(place) => {
            let mut name = Output::new(alloc);
            name.escaped(place.name.bytes())?;
            numbered(out, ",", place.parent.number())?;
            out.text(",")?;
            text(out, name.as_slice())
        }
        None => Ok(()),
    }
}

// Adds a node as it stands.
#[tactic(auto, unfolding(crate::specs::Changes::node_words))]
fn add_node(alloc: Global, out: &mut Output, x: usize, inode: &Inode) -> Result<(), NoMemory>
    ensures { Gains out.old out.new (node_words x inode.now) result }
{
    numbered(out, "[", x as u64)?;
    out.text(",\"")?;
    out.kind(inode.object.kind())?;
    out.text("\"")?;
    add_place(alloc, out, &inode.place)?;
    out.text("]")
}

// Adds the node of that number by its place in a list.
fn node_at(
    alloc: Global,
    out: &mut Output,
    nodes: &[Inode],
    at: usize,
    x: usize,
) -> Result<(), NoMemory>
    ensures { Gains out.old out.new (node_at nodes.now at x) result }
{
    comma(out, at)?;
    match nodes.get(x) {
        Some(inode) => add_node(alloc, out, x, inode),
        None => Ok(()),
    }
}

// Adds the nodes of these numbers.
fn all_nodes(
    alloc: Global,
    out: &mut Output,
    nodes: &[Inode],
    numbers: &[usize],
) -> Result<(), NoMemory>
    ensures { Gains out.old out.new (numbered (node_at nodes.now) 0 numbers.now) result }
{
    for (at, x) in numbers.iter().enumerate() {
        node_at(alloc, out, nodes, at, *x)?;
    }
    Ok(())
}

// Whether two handles are one, or both are closed.
fn same_handle(handle: Option<OpenHandle>, other: Option<OpenHandle>) -> bool
    ensures { result ≡ same_handle handle other }
{
    match (handle, other) {
        (None, None) => true,
        (Some(p), Some(q)) => p.actor == q.actor && p.node == q.node,
        _ => false,
    }
}

// Whether a handle is new, or was closed.
fn has_changed(old: Option<&Option<OpenHandle>>, handle: Option<OpenHandle>) -> bool
    ensures { result ≡ has_changed (option_copied old.entry) handle }
{
    match old {
        Some(old) => !same_handle(*old, handle),
        None => true,
    }
}

// Adds the number of a handle if it has changed.
fn add_if_changed(
    numbers: &mut Vec<usize>,
    before: &[Option<OpenHandle>],
    h: usize,
    handle: Option<OpenHandle>,
) -> Result<(), NoMemory>
    ensures { OnOk result (numbers.new.items ≡ numbers.old.items ++ changed_one before.now h handle) }
{
    if has_changed(before.get(h), handle) {
        numbers.push(h)?;
    }
    Ok(())
}

// The numbers of the handles that have changed.
fn changed(
    alloc: Global,
    before: &[Option<OpenHandle>],
    after: &[Option<OpenHandle>],
) -> Result<Vec<usize>, NoMemory>
    ensures { IfOk result (λ numbers. numbers.items ≡ changed before.now after.now) }
{
    let mut numbers = Vec::new(alloc);
    for (h, handle) in after.iter().enumerate() {
        add_if_changed(&mut numbers, before, h, *handle)?;
    }
    Ok(numbers)
}

// Adds whose a handle is, and where it leads.
fn add_open(out: &mut Output, handle: Option<OpenHandle>) -> Result<(), NoMemory>
    ensures { Gains out.old out.new (open_words handle) result }
{
    match handle {
        Some(open) => {
            numbered(out, ",", u64::from(open.actor.number()))?;
            numbered(out, ",", open.node.number())
        }
        None => Ok(()),
    }
}

// Adds a handle as it is.
#[tactic(auto, unfolding(crate::specs::Changes::handle_words))]
fn add_handle(out: &mut Output, h: usize, handle: Option<OpenHandle>) -> Result<(), NoMemory>
    ensures { Gains out.old out.new (handle_words h handle) result }
{
    numbered(out, "[", h as u64)?;
    add_open(out, handle)?;
    out.text("]")
}

// Adds the handle of that number by its place in a list.
fn handle_at(
    out: &mut Output,
    handles: &[Option<OpenHandle>],
    at: usize,
    h: usize,
) -> Result<(), NoMemory>
    ensures { Gains out.old out.new (handle_at handles.now at h) result }
{
    comma(out, at)?;
    match handles.get(h) {
        Some(handle) => add_handle(out, h, *handle),
        None => Ok(()),
    }
}

// Adds the handles of these numbers.
fn all_handles(
    out: &mut Output,
    handles: &[Option<OpenHandle>],
    numbers: &[usize],
) -> Result<(), NoMemory>
    ensures { Gains out.old out.new (numbered (handle_at handles.now) 0 numbers.now) result }
{
    for (at, h) in numbers.iter().enumerate() {
        handle_at(out, handles, at, *h)?;
    }
    Ok(())
}

// Adds the nodes that a tree has and another hadn't, or had elsewhere.
fn add_nodes(
    alloc: Global,
    out: &mut Output,
    before: &[Inode],
    after: &[Inode],
) -> Result<(), NoMemory>
    ensures { Gains out.old out.new (nodes_words before.now after.now) result }
{
    let numbers = moved(alloc, before, after)?;
    all_nodes(alloc, out, after, &numbers)
}

// Adds the handles that a tree has and another hadn't, or that are closed since.
fn add_handles(
    alloc: Global,
    out: &mut Output,
    before: &[Option<OpenHandle>],
    after: &[Option<OpenHandle>],
) -> Result<(), NoMemory>
    ensures { Gains out.old out.new (handles_words before.now after.now) result }
{
    let numbers = changed(alloc, before, after)?;
    all_handles(out, after, &numbers)
}

/// Adds what a tree has that one of these nodes and handles hasn't.
#[tactic(auto, unfolding(crate::specs::Changes::changes_words))]
pub(crate) fn changes(
    alloc: Global,
    out: &mut Output,
    nodes: &[Inode],
    handles: &[Option<OpenHandle>],
    after: &Snapshot,
) -> Result<(), NoMemory>
    ensures { Gains out.old out.new (changes_words nodes.now handles.now after.now) result }
{
    out.text(",\"nodes\":[")?;
    add_nodes(alloc, out, nodes, after.nodes())?;
    out.text("],\"handles\":[")?;
    add_handles(alloc, out, handles, after.handles())?;
    out.text("]")
}
