//! Rows of bulk calls: `PATH WORDS | STEPS END | HELD ENTRIES | PLACES | BEFORE | AFTER OTHERS`.
//!
//! Actor 0 calls on a path below `/c`, in which `x*256` stands for so many `x`, with the restrictions of the words, or
//! with `each` without one, with `beneath` and with `no_links`, on a tree of its own each time. So many steps lead to
//! the end. Then the actor has so many handles open, the root's among them, the tree has so many entries, and nodes
//! stand at these places, as `12 /c/a/n, none /c/m`. The other makes its steps before the call begins, and those of the
//! last column after so many of the call's.
use crate::bulk_calls::{Bulk, Scene, base_scene, called, is_end, others_act};
use crate::requests::number;
use fixtures::{BENEATH, NO_LINKS, PLAIN, column, cut, flags_of, names_of};
use path_text::{Errno, Flags, Names, NoMemory};
use std::alloc::Global;
use tree_list::ListTree;
use tree_model::{Actor, Inode, Snapshot, Tree, child, top};

/// The columns of a row.
#[derive(Clone, Copy)]
struct Row {
    call: &'static str,
    end: &'static str,
    counts: &'static str,
    places: &'static str,
    before: &'static str,
    others: &'static str,
}

fn row_of(line: &'static str) -> Row {
    let (call, rest) = column(line);
    let (end, rest) = column(rest);
    let (counts, rest) = column(rest);
    let (places, rest) = column(rest);
    let (before, others) = column(rest);
    Row {
        call,
        end,
        counts,
        places,
        before,
        others,
    }
}

// The number of the node at these names from the top, and None where none is there.
fn node_at(nodes: &[Inode], names: &Names) -> Option<u64> {
    let mut at = Some(top());
    for next in 0..names.len() {
        at = match at {
            Some(dir) => child(nodes, dir, names.get(next)),
            None => None,
        };
    }
    match at {
        Some(node) => Some(node.number()),
        None => None,
    }
}

// Whether that node stands at that path from the top.
fn stands(alloc: Global, nodes: &[Inode], place: &str) -> bool {
    let (node, path) = cut(place);
    match names_of(alloc, path) {
        Ok(names) => node_at(nodes, &names) == node.parse::<u64>().ok(),
        Err(_) => false,
    }
}

fn all_stand(alloc: Global, nodes: &[Inode], places: &str) -> bool {
    for place in places.split(", ") {
        if !stands(alloc, nodes, place) {
            return false;
        }
    }
    true
}

fn count_entries(alloc: Global, snapshot: &Snapshot) -> Result<usize, NoMemory> {
    let rows = snapshot.rows(alloc)?;
    Ok(rows.len())
}

// Whether the tree is left with so many entries, and these nodes.
fn is_left(alloc: Global, tree: &ListTree, entries: &str, places: &str) -> Result<bool, NoMemory> {
    let snapshot = tree.snapshot(alloc)?;
    let count = count_entries(alloc, &snapshot)?;
    let is_left = count as u64 == number(entries) && all_stand(alloc, snapshot.nodes(), places);
    drop(snapshot);
    Ok(is_left)
}

fn path_of(alloc: Global, text: &str) -> Result<String, Errno> {
    let Some(begun) = text.strip_suffix("x*256") else {
        return Ok(String::from_str(alloc, text)?);
    };
    let mut path = String::from_str(alloc, begun)?;
    for _ in 0..256 {
        path.push('x')?;
    }
    Ok(path)
}

// Whether the call on that path ends so, in so many steps.
fn ends<C: Bulk>(alloc: Global, scene: &mut Scene, path: &str, flags: Flags, row: &Row) -> bool {
    let (steps, wanted) = cut(row.end);
    let end = called::<C, Scene>(alloc, scene, path, flags);
    let is_end = is_end(alloc, &end, wanted);
    drop(end);
    is_end && scene.steps == number(steps)
}

// Whether a row's call ends so in a scene, and leaves what it is to leave.
fn ends_so<C: Bulk>(
    alloc: Global,
    scene: &mut Scene,
    row: &Row,
    flags: Flags,
) -> Result<bool, Errno> {
    others_act(alloc, &mut scene.tree, row.before);
    let (after, others) = cut(row.others);
    scene.steps = 0;
    scene.after = number(after);
    scene.others = others;
    let path = path_of(alloc, cut(row.call).0)?;
    let is_end = ends::<C>(alloc, scene, path.as_str(), flags, row);
    let (held, entries) = cut(row.counts);
    let holds = scene.tree.held(Actor::new(0)) as u64 == number(held);
    Ok(is_end && holds && is_left(alloc, &scene.tree, entries, row.places)?)
}

// The same in a scene of its own.
fn ends_anew<C: Bulk>(alloc: Global, at: &str, row: &Row, flags: Flags) -> Result<bool, Errno> {
    let mut scene = base_scene(alloc, at)?;
    ends_so::<C>(alloc, &mut scene, row, flags)
}

fn ends_with_each<C: Bulk>(alloc: Global, at: &str, row: &Row) -> bool {
    for flags in [PLAIN, BENEATH, NO_LINKS] {
        if ends_anew::<C>(alloc, at, row, flags) != Ok(true) {
            return false;
        }
    }
    true
}

/// Whether a row holds where the other has handles on these directories. A line after `#` is a remark.
pub fn holds<C: Bulk>(alloc: Global, at: &str, line: &'static str) -> bool {
    let row = row_of(line);
    match cut(row.call).1 {
        _ if line.starts_with('#') => true,
        "each" => ends_with_each::<C>(alloc, at, &row),
        words => ends_anew::<C>(alloc, at, &row, flags_of(words)) == Ok(true),
    }
}

/// The first row that doesn't hold, and of none nothing, where each call is made on what the calls before it left.
pub fn wrong_in_turn<C: Bulk>(
    alloc: Global,
    at: &str,
    lines: &'static str,
) -> Result<&'static str, Errno> {
    let mut scene = base_scene(alloc, at)?;
    for line in lines.lines() {
        if !ends_so::<C>(alloc, &mut scene, &row_of(line), PLAIN)? {
            return Ok(line);
        }
    }
    Ok("")
}
