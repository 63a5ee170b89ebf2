//! What became of a tree's entries.
ghost use Rattle.std.specs.Prelude.{◌≡◌};
ghost use Rattle.std.specs.List.{flat_map};
ghost use Rattle.event_log.specs.Output.{Gains};
ghost use Rattle.outcome_text.specs.Changes.{stands, object_words, place_words, entry_words, change_words, changes_text};

use event_log::Output;
use path_text::NoMemory;
use std::alloc::Global;
use tree_model::{Inode, Object, Row, Snapshot, object_at, place_at};

// Whether an entry is one of that tree.
fn stands(nodes: &[Inode], row: &Row) -> bool
    ensures { result ≡ stands nodes.now row.now }
{
    match place_at(nodes, row.child) {
        Some(place) => place.parent == row.parent && place.name.bytes() == row.name.bytes(),
        None => false,
    }
}

// Adds what a node is: for a link with its text.
fn object(out: &mut Output, object: &Object) -> Result<(), NoMemory>
    ensures { Gains out.old out.new (object_words object.now) result }
{
    match object {
        Object::Dir => out.text("dir"),
        Object::File => out.text("file"),
        Object::Link(text) => {
            out.text("link ")?;
            out.escaped(text.as_slice())
        }
    }
}

// Adds an entry's directory, its name and its node, with a blank behind each.
fn place(out: &mut Output, row: &Row) -> Result<(), NoMemory>
    ensures { Gains out.old out.new (place_words row.now) result }
{
    out.number(row.parent.number())?;
    out.text(" ")?;
    out.escaped(row.name.bytes())?;
    out.text(" ")?;
    out.number(row.child.number())?;
    out.text(" ")
}

// Adds an entry of these nodes after a word. An entry's node is always there.
fn entry(out: &mut Output, word: &str, nodes: &[Inode], row: &Row) -> Result<(), NoMemory>
    ensures { Gains out.old out.new (entry_words word.now nodes.now row.now) result }
{
    let Some(what) = object_at(nodes, row.child) else {
        return Ok(());
    };
    out.text(word)?;
    place(out, row)?;
    object(out, what)?;
    out.text("\n")
}

// Adds the same, unless the entry is one of the other tree too.
fn change(
    out: &mut Output,
    word: &str,
    nodes: &[Inode],
    others: &[Inode],
    row: &Row,
) -> Result<(), NoMemory>
    ensures { Gains out.old out.new (change_words word.now nodes.now others.now row.now) result }
{
    if stands(others, row) {
        return Ok(());
    }
    entry(out, word, nodes, row)
}

// Adds those of these entries that the other tree doesn't have.
fn all_changes(
    out: &mut Output,
    word: &str,
    nodes: &[Inode],
    others: &[Inode],
    rows: &[Row],
) -> Result<(), NoMemory>
    ensures { Gains out.old out.new (flat_map (change_words word.now nodes.now others.now) rows.now) result }
{
    for row in rows {
        change(out, word, nodes, others, row)?;
    }
    Ok(())
}

/// Adds the entries of a tree that the other one doesn't have, each after that word: its directory, its name, its
/// node and what that is, for a link with its text. They come by the directory's number and then by the bytes of the
/// name. NoMemory where its room was refused.
pub(crate) fn changes(
    alloc: Global,
    out: &mut Output,
    word: &str,
    tree: &Snapshot,
    other: &Snapshot,
) -> Result<(), NoMemory>
    ensures { Gains out.old out.new (changes_text word.now tree.now.nodes other.now.nodes) result }
{
    let rows = tree.rows(alloc)?;
    all_changes(out, word, tree.nodes(), other.nodes(), &rows)
}
