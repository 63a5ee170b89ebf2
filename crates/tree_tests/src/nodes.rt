//! Values compared and copied with ample memory, and the rows of a small tree. A table is plain data, and a maker
//! turns a row into its value.
use crate::rows::step_of;
use fixtures::answer_of;
use path_text::{Bytes, Errno, Name};
use std::alloc::Global;
use std::test::Fail;
use tree_model::{
    Actor, Inode, Kind, Node, Object, OpenHandle, Place, Row, Snapshot, child, has_entries, is_dir,
    is_gone, object_at, parent, place_at, same_nodes, top,
};

/// One step of each kind at least, no two of them equal.
const STEPS: &str =
    "open 3 a, open 3 b, dup 3, dup 4, parent 3, read_link 3, below 3 4, below 4 3, list 3, close 3, make_dir 3 a, \
    make_file 3 a, make_link 3 a ../x, make_link 3 a x, remove_file 3 a, remove_dir 3 a, rename 3 a 4 b plain, \
    rename 3 a 4 b noreplace, rename 3 a 4 b exchange";

/// One answer of each kind at least, no two of them equal.
const ANSWERS: &str =
    "dir 1 2, dir 2 2, dir 1 3, link 1 2, text a, text b, names a, names b, not_below, listed a, listed , done, \
    refused ENOENT, refused ENOTDIR";

/// A node's word, its parent and name, empty where it stands nowhere, and its text.
type NodeRow = (&'static str, u64, &'static str, &'static str);

/// The top, `/c`, `/c/a`, `/c/a/b`, the file `/c/a/b/f`, the links `/c/up` and `/c/abs`, `/secret`, the file
/// `/secret/key`, and a file that was removed.
const NODES: [NodeRow; 10] = [
    ("dir", 0, "", ""),
    ("dir", 0, "c", ""),
    ("dir", 1, "a", ""),
    ("dir", 2, "b", ""),
    ("file", 3, "f", ""),
    ("link", 1, "up", "/a/b"),
    ("link", 1, "abs", "../../a"),
    ("dir", 0, "secret", ""),
    ("file", 7, "key", ""),
    ("file", 0, "", ""),
];

/// Whether the copy of a row's step is equal to another row's.
fn copy_is_step(alloc: Global, line: &str, other: &str) -> Result<bool, Errno> {
    let step = step_of(alloc, line)?;
    let copy = step.lend().copy(alloc)?;
    let another = step_of(alloc, other)?;
    Ok(copy.lend().same(&another.lend()))
}

fn kind(word: &str) -> Kind {
    match word {
        "dir" => Kind::Dir,
        "file" => Kind::File,
        _ => Kind::Link,
    }
}

fn copy_is_answer(alloc: Global, words: &str, other: &str) -> Result<bool, Errno> {
    let first = answer_of(alloc, words);
    let copy = first.copy(alloc)?;
    let another = answer_of(alloc, other);
    Ok(copy.same(&another))
}

fn place(alloc: Global, parent: u64, name: &str) -> Result<Option<Place>, Errno> {
    if name.is_empty() {
        return Ok(None);
    }
    let name = Name::new(alloc, name.as_bytes())?;
    Ok(Some(Place {
        parent: Node::new(parent),
        name,
    }))
}

fn object(alloc: Global, word: &str, text: &str) -> Result<Object, Errno> {
    match word {
        "dir" => Ok(Object::Dir),
        "file" => Ok(Object::File),
        _ => Ok(Object::Link(Bytes::from_slice(alloc, text.as_bytes())?)),
    }
}

fn inode(alloc: Global, row: &NodeRow) -> Result<Inode, Errno> {
    let (word, parent, name, text) = *row;
    let object = object(alloc, word, text)?;
    let place = place(alloc, parent, name)?;
    Ok(Inode { object, place })
}

/// Whether the copy of a row's node is equal to another row's, and of the row's kind.
fn copy_is_inode(alloc: Global, row: &NodeRow, other: &NodeRow) -> Result<bool, Errno> {
    let first = inode(alloc, row)?;
    let copy = first.copy(alloc)?;
    let another = inode(alloc, other)?;
    Ok(copy.same(&another) && copy.object.kind() == kind(row.0))
}

/// Whether each value is equal to its own copy alone.
fn steps_differ(alloc: Global) -> Result<bool, Errno> {
    for (i, line) in STEPS.split(", ").enumerate() {
        for (j, other) in STEPS.split(", ").enumerate() {
            if copy_is_step(alloc, line, other)? != (i == j) {
                return Ok(false);
            }
        }
    }
    Ok(true)
}

fn answers_differ(alloc: Global) -> Result<bool, Errno> {
    for (i, words) in ANSWERS.split(", ").enumerate() {
        for (j, other) in ANSWERS.split(", ").enumerate() {
            if copy_is_answer(alloc, words, other)? != (i == j) {
                return Ok(false);
            }
        }
    }
    Ok(true)
}

fn inodes_differ(alloc: Global) -> Result<bool, Errno> {
    for (i, row) in NODES.iter().enumerate() {
        for (j, other) in NODES.iter().enumerate() {
            if copy_is_inode(alloc, row, other)? != (i == j) {
                return Ok(false);
            }
        }
    }
    Ok(true)
}

#[test]
fn values_equal_their_copies_alone(rt: HostRuntime) -> Result<(), Fail> {
    let alloc = rt.alloc();
    assert!(rt; steps_differ(alloc)? && answers_differ(alloc)? && inodes_differ(alloc)?);
    Ok(())
}

fn inodes(alloc: Global) -> Result<Vec<Inode>, Errno> {
    let mut inodes = Vec::new(alloc);
    for row in &NODES {
        inodes.push(inode(alloc, row)?)?;
    }
    Ok(inodes)
}

/// A handle that is closed, and one on a node.
fn handles(alloc: Global, node: u64) -> Result<Vec<Option<OpenHandle>>, Errno> {
    let mut handles = Vec::new(alloc);
    handles.push(None)?;
    handles.push(Some(OpenHandle {
        actor: Actor::new(5),
        node: Node::new(node),
    }))?;
    Ok(handles)
}

fn snapshot(alloc: Global, node: u64) -> Result<Snapshot, Errno> {
    let inodes = inodes(alloc)?;
    Ok(Snapshot::new(inodes, handles(alloc, node)?))
}

/// Whether the snapshot is that with a handle on node 3 alone.
fn is_with_node_3(alloc: Global, taken: &Snapshot) -> Result<bool, Errno> {
    for node in 0..10 {
        let other = snapshot(alloc, node)?;
        if taken.same(&other) != (node == 3) {
            return Ok(false);
        }
    }
    Ok(true)
}

fn are_counted(taken: &Snapshot) -> bool {
    taken.nodes().len() == 10
        && taken.handles().len() == 2
        && taken.next_node() == 10
        && taken.next_handle() == 2
}

/// The rows of the tree: a directory, a name and what stands there.
const ROWS: [(u64, &str, u64); 8] = [
    (0, "c", 1),
    (0, "secret", 7),
    (1, "a", 2),
    (1, "abs", 6),
    (1, "up", 5),
    (2, "b", 3),
    (3, "f", 4),
    (7, "key", 8),
];

fn are_rows(rows: &[Row]) -> bool {
    for (row, (parent, name, child)) in rows.iter().zip(&ROWS) {
        if row.parent.number() != *parent
            || row.name.bytes() != name.as_bytes()
            || row.child.number() != *child
        {
            return false;
        }
    }
    rows.len() == ROWS.len()
}

/// Whether the snapshot has the table's nodes, and not where the last is left out, or is another.
fn has_nodes(alloc: Global, taken: &Snapshot) -> Result<bool, Errno> {
    let mut inodes = inodes(alloc)?;
    let whole = same_nodes(taken.nodes(), &inodes);
    let _ = inodes.pop();
    let fewer = same_nodes(taken.nodes(), &inodes);
    inodes.push(inode(alloc, &NODES[0])?)?;
    let other = same_nodes(taken.nodes(), &inodes);
    Ok(whole && !fewer && !other)
}

fn snapshots_are_right(alloc: Global) -> Result<bool, Errno> {
    let taken = snapshot(alloc, 3)?;
    let rows = taken.rows(alloc)?;
    let has_all = has_nodes(alloc, &taken)?;
    Ok(are_counted(&taken) && are_rows(&rows) && has_all && is_with_node_3(alloc, &taken)?)
}

#[test]
fn snapshots_are_compared_counted_and_listed(rt: HostRuntime) -> Result<(), Fail> {
    assert!(rt; snapshots_are_right(rt.alloc())?);
    Ok(())
}

/// A node, what it is, whether it is gone and whether it has entries, its parent and the name at which it stands.
type Reading = (u64, &'static str, bool, bool, Option<u64>, &'static str);

const READINGS: [Reading; 6] = [
    (0, "dir", false, true, Some(0), ""),
    (1, "dir", false, true, Some(0), "c"),
    (3, "dir", false, true, Some(2), "b"),
    (4, "file", false, false, Some(3), "f"),
    (6, "link", false, false, Some(1), "abs"),
    (9, "file", true, false, None, ""),
];

fn word_of(object: Option<&Object>) -> &'static str {
    match object {
        Some(Object::Dir) => "dir",
        Some(Object::File) => "file",
        Some(Object::Link(_)) => "link",
        None => "none",
    }
}

fn is_named(place: Option<&Place>, name: &str) -> bool {
    match place {
        Some(place) => place.name.bytes() == name.as_bytes(),
        None => name.is_empty(),
    }
}

fn reads(nodes: &[Inode], wanted: &Reading) -> bool {
    let (node, word, gone, entries, above, name) = *wanted;
    let x = Node::new(node);
    (x == top()) == (node == 0)
        && is_dir(nodes, x) == (word == "dir")
        && word_of(object_at(nodes, x)) == word
        && is_gone(nodes, x) == gone
        && has_entries(nodes, x) == entries
        && parent(nodes, x) == above.map(Node::new)
        && is_named(place_at(nodes, x), name)
}

/// A directory, a name, and what stands there.
const CHILDREN: [(u64, &str, Option<u64>); 6] = [
    (0, "c", Some(1)),
    (0, "a", None),
    (1, "abs", Some(6)),
    (6, "b", None),
    (7, "key", Some(8)),
    (9, "key", None),
];

#[test]
fn nodes_and_children_are_read(rt: HostRuntime) -> Result<(), Fail> {
    let nodes = inodes(rt.alloc())?;
    for wanted in &READINGS {
        assert!(rt; reads(&nodes, wanted), "node {}", wanted.0);
    }
    for (dir, name, wanted) in &CHILDREN {
        let found = child(&nodes, Node::new(*dir), name.as_bytes());
        assert!(rt; found == wanted.map(Node::new), "{dir} {name}");
    }
    Ok(())
}
