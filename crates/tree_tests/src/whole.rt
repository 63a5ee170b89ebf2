//! Copies of the plain tree, and how many entries the indexed tree may remember.
use fixtures::{base_tree, first_wrong, names_of};
use path_text::{Errno, NoMemory};
use std::alloc::Global;
use std::test::Fail;
use tree_list::ListTree;
use tree_model::{Actor, Tree};
use tree_slab::SlabTree;

const BEFORE: &str = "0 dup 0 = opened 1 1 dir
0 close 1 = done
0 remove_file 0 abs = done";

/// The base tree, and handle 0 of actor 0 on `/c`.
fn granted(alloc: Global) -> Result<ListTree, Errno> {
    let mut tree = base_tree(alloc)?;
    let root = names_of(alloc, "/c")?;
    tree.grant(alloc, Actor::new(0), &root)?;
    Ok(tree)
}

fn are_equal(alloc: Global, tree: &ListTree, other: &ListTree) -> Result<bool, NoMemory> {
    let whole = tree.snapshot(alloc)?;
    let another = other.snapshot(alloc)?;
    Ok(whole.same(&another))
}

fn is_right(alloc: Global, tree: &mut ListTree, rows: &str) -> Result<bool, NoMemory> {
    let wrong = first_wrong(alloc, tree, rows)?;
    Ok(wrong.is_none())
}

/// Whether a copy is equal, and a step on it leaves the tree.
fn copy_stands_apart(alloc: Global, tree: &ListTree) -> Result<bool, NoMemory> {
    let mut copy = tree.copy(alloc)?;
    Ok(
        are_equal(alloc, tree, &copy)?
            && is_right(alloc, &mut copy, "0 remove_file 0 up = done")?
            && !are_equal(alloc, tree, &copy)?,
    )
}

fn copies_stand_apart(alloc: Global) -> Result<bool, Errno> {
    let mut tree = granted(alloc)?;
    Ok(
        is_right(alloc, &mut tree, BEFORE)?
            && copy_stands_apart(alloc, &tree)?
            && is_right(alloc, &mut tree, "0 open 0 up = opened 2 6 link")?,
    )
}

#[test]
fn copies_are_equal_and_apart(rt: HostRuntime) -> Result<(), Fail> {
    assert!(rt; copies_stand_apart(rt.alloc())?);
    Ok(())
}

fn is_refused(alloc: Global, cap: usize) -> bool {
    SlabTree::new(alloc, cap).err() == Some(Errno::Invalid)
}

#[test]
fn refuses_caps(rt: HostRuntime) -> Result<(), Fail> {
    assert!(rt; is_refused(rt.alloc(), 0) && is_refused(rt.alloc(), 65_537));
    Ok(())
}
