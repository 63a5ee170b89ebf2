//! Where what the other actors hold stands after an event, where it stands elsewhere than before.
ghost use Rattle.std.specs.Prelude.{◌≡◌, ◌≤◌, ◌++◌, IfOk, OnOk};
ghost use Rattle.event_log.specs.Output.{Gains};
ghost use Rattle.drawings.specs.Notes.{newest_in, is_outside, now_words, outside_words, note_line, note_if_moved, note_of, notes_below};
ghost use Rattle.drawings.specs.Places.{way_to, place_words};

use crate::picture::{ACTORS_MAX, Line, Tone};
use crate::places::{add_place, held, way_to};
use event_log::Output;
use path_text::{Names, NoMemory};
use std::alloc::Global;
use tree_list::is_within;
use tree_model::{Actor, HandleNo, Inode, Node, OpenHandle, Snapshot, top};

// The node of the newest of these handles that is open and the actor's.
fn newest_in(actor: Actor, handles: &[Option<OpenHandle>]) -> Option<Node>
    ensures { result ≡ newest_in actor handles.now }
{
    let mut newest = None;
    for place in handles {
        if let Some(open) = place {
            if open.actor == actor {
                newest = Some(open.node);
            }
        }
    }
    newest
}

/// Whether a node stands in the tree, and neither is a root nor stands below it.
pub(crate) fn is_outside(nodes: &[Inode], root: Node, x: Node) -> bool
    ensures { result ≡ is_outside nodes.now root x }
{
    is_within(nodes, top(), x) && !is_within(nodes, root, x)
}

// The place of a node.
fn place_of(alloc: Global, nodes: &[Inode], x: Node) -> Result<Output, NoMemory>
    ensures { IfOk result (λ place. place ≡ place_words (way_to nodes.now x)) }
{
    let way = way_to(alloc, nodes, x)?;
    let mut place = Output::new(alloc);
    add_place(alloc, &mut place, &way)?;
    Ok(place)
}

// Adds where a node stands now.
fn add_now(alloc: Global, out: &mut Output, way: &Option<Names>) -> Result<(), NoMemory>
    ensures { Gains out.old out.new (now_words way.now) result }
{
    match way {
        Some(names) => {
            out.text("now at ")?;
            out.escaped(&names.print(alloc)?)
        }
        None => out.text("now gone"),
    }
}

// Adds of which root that is outside.
fn add_outside(
    alloc: Global,
    out: &mut Output,
    nodes: &[Inode],
    root: Node,
    x: Node,
) -> Result<(), NoMemory>
    ensures { Gains out.old out.new (outside_words nodes.now root x) result }
{
    if !is_outside(nodes, root, x) {
        return Ok(());
    }
    let way = way_to(alloc, nodes, root)?;
    out.text(", OUTSIDE ")?;
    add_place(alloc, out, &way)
}

// The note of an actor on where a node stands.
fn note_line(
    alloc: Global,
    nodes: &[Inode],
    actor: u64,
    root: Node,
    x: Node,
) -> Result<Line, NoMemory>
    ensures { IfOk result (λ line. line ≡ note_line nodes.now actor root x) }
{
    let way = way_to(alloc, nodes, x)?;
    let mut text = Output::new(alloc);
    add_now(alloc, &mut text, &way)?;
    add_outside(alloc, &mut text, nodes, root, x)?;
    Ok(Line {
        moment: None,
        actor,
        tone: if is_outside(nodes, root, x) {
            Tone::Bad
        } else {
            Tone::Plain
        },
        text,
    })
}

// Adds a note where another place is told of the node than before.
fn add_if_moved(
    alloc: Global,
    lines: &mut Vec<Line>,
    before: &[Inode],
    after: &[Inode],
    actor: u64,
    root: Node,
    x: Node,
) -> Result<(), NoMemory>
    ensures { OnOk result (lines.new.items ≡ lines.old.items ++ note_if_moved before.now after.now actor root x) }
{
    let old = place_of(alloc, before, x)?;
    let new = place_of(alloc, after, x)?;
    if old.as_slice() != new.as_slice() {
        lines.push(note_line(alloc, after, actor, root, x)?)?;
    }
    Ok(())
}

// Adds the note of an actor after an event of actor `by`.
fn add_note(
    alloc: Global,
    lines: &mut Vec<Line>,
    opening: &Snapshot,
    before: &Snapshot,
    after: &Snapshot,
    by: Actor,
    actor: u32,
) -> Result<(), NoMemory>
    ensures { OnOk result (lines.new.items ≡ lines.old.items ++ note_of opening.now before.now after.now by actor) }
{
    let own = Actor::new(actor);
    if by == own {
        return Ok(());
    }
    let Some(root) = held(opening, own, HandleNo::new(u64::from(actor))) else {
        return Ok(());
    };
    let Some(x) = newest_in(own, after.handles()) else {
        return Ok(());
    };
    add_if_moved(
        alloc,
        lines,
        before.nodes(),
        after.nodes(),
        u64::from(actor),
        root,
        x,
    )
}

/// Adds the notes of the actors below that number after an event of actor `by`.
pub(crate) fn add_notes(
    alloc: Global,
    lines: &mut Vec<Line>,
    opening: &Snapshot,
    before: &Snapshot,
    after: &Snapshot,
    by: Actor,
    actors: u64,
) -> Result<(), NoMemory>
    requires { actors ≤ ACTORS_MAX }
    ensures { OnOk result (lines.new.items
        ≡ lines.old.items ++ notes_below opening.now before.now after.now by actors) }
{
    for actor in 0..actors {
        add_note(alloc, lines, opening, before, after, by, actor as u32)?;
    }
    Ok(())
}
