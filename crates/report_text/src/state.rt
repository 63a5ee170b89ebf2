//! The lines of a tree's entries and of its open handles.
ghost use Rattle.std.specs.List.{flat_map};
ghost use Rattle.event_log.specs.Output.{Gains};
ghost use Rattle.report_text.specs.Report.{place_words, entry_line, row_line, row_lines, held_line, held_lines};

use crate::words::numbered;
use event_log::Output;
use path_text::NoMemory;
use std::alloc::Global;
use tree_model::{Actor, Inode, Kind, Row, Snapshot, Tree, object_at};

// Adds a row's directory, its name and its node.
fn place(out: &mut Output, row: &Row) -> Result<(), NoMemory>
    ensures { Gains out.old out.new (place_words row.now) result }
{
    numbered(out, "row ", row.parent.number())?;
    out.text(" ")?;
    out.escaped(row.name.bytes())?;
    numbered(out, " ", row.child.number())
}

// Adds the line of a row of a node of that kind.
fn entry(out: &mut Output, row: &Row, kind: Kind) -> Result<(), NoMemory>
    ensures { Gains out.old out.new (entry_line row.now kind) result }
{
    place(out, row)?;
    out.text(" ")?;
    out.kind(kind)?;
    out.text("\n")
}

// Adds the line of a row. A row's node is always there.
fn row(out: &mut Output, nodes: &[Inode], row: &Row) -> Result<(), NoMemory>
    ensures { Gains out.old out.new (row_line nodes.now row.now) result }
{
    match object_at(nodes, row.child) {
        Some(object) => entry(out, row, object.kind()),
        None => Ok(()),
    }
}

// Adds the line of each row.
fn all_rows(out: &mut Output, nodes: &[Inode], rows: &[Row]) -> Result<(), NoMemory>
    ensures { Gains out.old out.new (flat_map (row_line nodes.now) rows.now) result }
{
    for stood in rows {
        row(out, nodes, stood)?;
    }
    Ok(())
}

/// Adds the line of each entry of a tree, by the directory's number and then by the bytes of the name:
/// `row PARENT NAME CHILD KIND`. NoMemory where its room was refused.
pub fn rows(alloc: Global, out: &mut Output, snapshot: &Snapshot) -> Result<(), NoMemory>
    ensures { Gains out.old out.new (row_lines snapshot.now.nodes) result }
{
    let rows = snapshot.rows(alloc)?;
    all_rows(out, snapshot.nodes(), &rows)
}

// Adds the line of an actor's open handles.
fn held_by<T: Tree>(out: &mut Output, tree: &T, actor: u32) -> Result<(), NoMemory>
    ensures { Gains out.old out.new (held_line (T.state tree.now) actor) result }
{
    numbered(out, "held ", u64::from(actor))?;
    numbered(out, " ", tree.held(Actor::new(actor)) as u64)?;
    out.text("\n")
}

/// Adds how many handles each of the first actors, as many as that, has open, its root's among them: `held I N`.
/// NoMemory where its room was refused.
pub fn held<T: Tree>(out: &mut Output, tree: &T, actors: u32) -> Result<(), NoMemory>
    ensures { Gains out.old out.new (held_lines (T.state tree.now) actors) result }
{
    for actor in 0..actors {
        held_by(out, tree, actor)?;
    }
    Ok(())
}
