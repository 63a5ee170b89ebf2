//! Sections of lines, told of the plain tree where the indexed ones tell the same.
use crate::trees::{indexed, plain, tell};
use event_log::Output;
use path_text::{Errno, NoMemory};
use std::alloc::Global;
use tree_list::ListTree;
use tree_model::{Snapshot, Tree};
use tree_slab::SlabTree;

/// Whether each indexed tree tells that, too.
fn tell_same(
    alloc: Global,
    indexed: &mut [SlabTree],
    actor: u32,
    what: &str,
    plain: &[u8],
) -> Result<bool, Errno> {
    for tree in indexed.iter_mut() {
        let mut told = Output::new(alloc);
        tell(alloc, tree, actor, what, &mut told)?;
        if told.as_slice() != plain {
            return Ok(false);
        }
    }
    Ok(true)
}

fn write_row(out: &mut Output, line: &str, told: &[u8], is_same: bool) -> Result<(), NoMemory> {
    out.text(line)?;
    out.text(" = ")?;
    out.bytes(told)?;
    out.text(if is_same {
        "\n"
    } else {
        ", but otherwise in an indexed tree\n"
    })
}

/// Takes a line on each tree.
fn tell_row(
    alloc: Global,
    list: &mut ListTree,
    indexed: &mut [SlabTree],
    line: &str,
    out: &mut Output,
) -> Result<(), Errno> {
    let (actor, what) = line.split_once(' ').unwrap_or((line, ""));
    let actor = actor.parse().unwrap_or(0);
    let mut told = Output::new(alloc);
    tell(alloc, list, actor, what, &mut told)?;
    let is_same = tell_same(alloc, indexed, actor, what, told.as_slice())?;
    Ok(write_row(out, line, told.as_slice(), is_same)?)
}

/// Whether each indexed tree is that.
fn are_same(alloc: Global, indexed: &[SlabTree], whole: &Snapshot) -> Result<bool, NoMemory> {
    for tree in indexed {
        if !tree.snapshot(alloc)?.same(whole) {
            return Ok(false);
        }
    }
    Ok(true)
}

/// How many nodes, entries and handles there are, the numbers of the next, and whether the trees are the same.
fn tell_end(
    alloc: Global,
    list: &ListTree,
    indexed: &[SlabTree],
    out: &mut Output,
) -> Result<(), NoMemory> {
    let whole = list.snapshot(alloc)?;
    let entries = whole.rows(alloc)?.len();
    let (nodes, handles) = (whole.nodes().len(), whole.handles().len());
    let (node, handle) = (whole.next_node(), whole.next_handle());
    let told = format!(in alloc;
        "nodes {nodes}, entries {entries}, handles {handles}, next node {node}, next handle {handle}"
    )?;
    out.text(told.as_str())?;
    let is_same = are_same(alloc, indexed, &whole)?;
    out.text(if is_same {
        ", the same in all\n"
    } else {
        ", not the same in all\n"
    })
}

fn tell_section(alloc: Global, text: &str, out: &mut Output) -> Result<(), Errno> {
    let (head, lines) = text.split_once('\n').unwrap_or((text, ""));
    let is_top = head.starts_with("top: ");
    let mut list = plain(alloc, is_top)?;
    let mut indexed = indexed(alloc, is_top, &list)?;
    out.text(head)?;
    out.text("\n")?;
    for line in lines.lines() {
        tell_row(alloc, &mut list, &mut indexed, line, out)?;
    }
    tell_end(alloc, &list, &indexed, out)?;
    Ok(())
}

/// What all sections tell.
pub fn tell_all(alloc: Global, text: &str) -> Result<Output, Errno> {
    let mut out = Output::new(alloc);
    for section in text.split("\n\n") {
        if !out.as_slice().is_empty() {
            out.text("\n")?;
        }
        tell_section(alloc, section, &mut out)?;
    }
    Ok(out)
}
