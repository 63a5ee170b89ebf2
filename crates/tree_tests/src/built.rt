//! Trees built of lists of entries, and lists that are refused.
use crate::grown::grown;
use fixtures::{BASE, base_tree, column, cut, entries, names_of};
use path_text::{Bytes, Errno};
use std::alloc::Global;
use std::test::Fail;
use tree_list::{BuildFault, Entry, ListTree, New, copy_nodes};
use tree_model::{Actor, Tree, same_nodes};
use tree_slab::SlabTree;

/// Two entries, the place of the first that is refused, and why.
const REFUSED: &str = "\
/c/, / | 1 EEXIST
/x/y/, /c/ | 0 ENOENT
/c/, /c/x/y | 1 ENOENT
/f, /f/x/ | 1 ENOTDIR
/f, /f/x/y/ | 1 ENOENT
/f, /f/x/y/z/ | 1 ENOENT
/l -> c, /l/x/ | 1 ENOTDIR
/l -> c, /l/x/y/ | 1 ENOENT
/c/, /c | 1 EEXIST
/l -> , / | 0 ENOENT
/c/, / ->  | 1 ENOENT
/c/, /x/y -> \0 | 1 EINVAL";

fn is_refused(fault: Option<BuildFault>, at: usize, cause: &str) -> bool {
    match fault {
        Some(fault) => fault.at == at && fault.cause.name() == cause,
        None => false,
    }
}

/// Why the plain tree, the indexed one and listed nodes refuse a list of entries.
fn faults_of(alloc: Global, rows: &str) -> Result<[Option<BuildFault>; 3], Errno> {
    let entries = entries(alloc, rows)?;
    let plain = ListTree::from_entries(alloc, &entries).err();
    let mut tree = SlabTree::new(alloc, 4)?;
    let indexed = tree.add_all(alloc, &entries).err();
    let (listed, _) = grown(alloc, rows)?;
    Ok([plain, indexed, listed])
}

fn are_refused(alloc: Global, row: &str) -> Result<bool, Errno> {
    let (rows, end) = column(row);
    let (at, cause) = cut(end);
    let at = at.parse().unwrap_or(usize::MAX);
    let [plain, indexed, listed] = faults_of(alloc, rows)?;
    let is_plain = is_refused(plain, at, cause) && is_refused(listed, at, cause);
    Ok(is_plain && is_refused(indexed, at, cause))
}

#[test]
fn refuses_the_first_wrong_entry(rt: HostRuntime) -> Result<(), Fail> {
    for row in REFUSED.lines() {
        assert!(rt; are_refused(rt.alloc(), row)?, "{row}");
    }
    Ok(())
}

/// A link at `/l` with a text of that length.
fn long_link(alloc: Global, len: usize) -> Result<Entry, Errno> {
    let at = names_of(alloc, "/l")?;
    let text = Vec::from_elem(alloc, b'x', len)?;
    let what = New::Link(Bytes::from_vec(text));
    Ok(Entry { at, what })
}

fn fault_of_length(alloc: Global, len: usize) -> Result<Option<BuildFault>, Errno> {
    let mut entries = Vec::new(alloc);
    entries.push(long_link(alloc, len)?)?;
    Ok(ListTree::from_entries(alloc, &entries).err())
}

fn is_bounded(alloc: Global) -> Result<bool, Errno> {
    Ok(
        fault_of_length(alloc, 1)?.is_none()
            && fault_of_length(alloc, 4095)?.is_none()
            && is_refused(fault_of_length(alloc, 4096)?, 0, "ENAMETOOLONG"),
    )
}

#[test]
fn bounds_a_links_text(rt: HostRuntime) -> Result<(), Fail> {
    assert!(rt; is_bounded(rt.alloc())?);
    Ok(())
}

/// Entries below those of the base tree, of each kind.
const MORE: &str = "/c/a/more/, /c/a/more/deep/, /c/a/more/deep/f, /l -> c/a/more";

/// Adds more entries: whether the tree then has the nodes of the plain tree that is built of all, and its handle still.
fn is_same_once_added(alloc: Global, tree: &mut SlabTree, built: &ListTree) -> Result<bool, Errno> {
    let actor = Actor::new(0);
    tree.grant(alloc, actor, &names_of(alloc, "/c")?)?;
    let more = entries(alloc, MORE)?;
    if tree.add_all(alloc, &more).is_err() {
        return Ok(false);
    }
    let whole = built.snapshot(alloc)?;
    Ok(same_nodes(tree.nodes(), whole.nodes()) && tree.held(actor) == 1)
}

/// The plain tree with the base tree's entries and more.
fn all_built(alloc: Global) -> Result<Option<ListTree>, Errno> {
    let mut all = entries(alloc, BASE)?;
    for entry in entries(alloc, MORE)? {
        all.push(entry)?;
    }
    Ok(ListTree::from_entries(alloc, &all).ok())
}

fn are_more(alloc: Global) -> Result<bool, Errno> {
    let Some(built) = all_built(alloc)? else {
        return Ok(false);
    };
    let mut tree = SlabTree::new(alloc, 4)?;
    let base = entries(alloc, BASE)?;
    Ok(tree.add_all(alloc, &base).is_ok() && is_same_once_added(alloc, &mut tree, &built)?)
}

#[test]
fn entries_are_added_to_a_tree(rt: HostRuntime) -> Result<(), Fail> {
    assert!(rt; are_more(rt.alloc())?);
    Ok(())
}

/// Whether the plain tree of another one's nodes has these, and no handle.
fn are_its_nodes(alloc: Global) -> Result<bool, Errno> {
    let mut base = base_tree(alloc)?;
    base.grant(alloc, Actor::new(0), &names_of(alloc, "/c")?)?;
    let whole = base.snapshot(alloc)?;
    let tree = ListTree::from_nodes(alloc, copy_nodes(alloc, whole.nodes())?);
    let (nodes, handles) = tree.into_parts();
    Ok(same_nodes(&nodes, whole.nodes()) && handles.is_empty())
}

#[test]
fn nodes_make_a_tree(rt: HostRuntime) -> Result<(), Fail> {
    assert!(rt; are_its_nodes(rt.alloc())?);
    Ok(())
}
