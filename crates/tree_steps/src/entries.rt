//! What changes a directory's entries, each change refused as the step table says before it is made.
ghost use Rattle.std.specs.Prelude.{◌≡◌, Some, Ok, Err, true, false, MatchOption};
ghost use Rattle.tree_model.specs.declared.inode.Object.{Object};
ghost use Rattle.tree_model.specs.State.{child, is_dir, is_gone};
ghost use Rattle.tree_model.specs.Entries.{makes, removes_file, removes_dir, replace_fault, renames_child, renames};
ghost use Rattle.tree_model.specs.Trees.{HasPathText};
ghost use Rattle.tree_steps.specs.Changes.{CanMake, IsChange, IsGrowth};

use crate::read::is_within;
use crate::tables::NodeTable;
use path_text::{Errno, LentName, NoMemory};
use std::alloc::Global;
use tree_model::{Mode, NUMBERS_MAX, Node, Object, Place, is_dir, is_gone};

// Refuses a step for what an entry leads to.
fn refuse<N: NodeTable>(
    nodes: &mut N,
    at: &Place,
    error: Errno,
) -> Result<Result<(), Errno>, NoMemory>
    ensures error { result ≡ Ok (Err error) }
    ensures same { N.inodes nodes.new ≡ N.inodes nodes.old }
{
    nodes.note(at.parent, &at.name.lend());
    Ok(Err(error))
}

/// Why no node can be made at an entry. Errors, in this order: NotDir, NotFound where the directory was removed,
/// Exists, TooMany.
pub fn make_fault<N: NodeTable>(nodes: &mut N, dir: Node, name: &LentName<'_>) -> Option<Errno>
    ensures fault { MatchOption result (CanMake (N.inodes nodes.old) dir name.now)
        (λ fault. (object : Object) → makes (N.inodes nodes.old) dir name.now object ≡ Err fault) }
    ensures same { N.inodes nodes.new ≡ N.inodes nodes.old }
{
    if !is_dir(nodes.as_slice(), dir) {
        return Some(Errno::NotDir);
    }
    if is_gone(nodes.as_slice(), dir) {
        return Some(Errno::NotFound);
    }
    if nodes.look(dir, name).is_some() {
        nodes.note(dir, name);
        return Some(Errno::Exists);
    }
    (nodes.as_slice().len() >= NUMBERS_MAX).then_some(Errno::TooMany)
}

/// Makes a node at an entry that wasn't there.
pub(crate) fn make<N: NodeTable>(
    nodes: &mut N,
    alloc: Global,
    dir: Node,
    name: &LentName<'_>,
    object: Object,
) -> Result<Result<(), Errno>, NoMemory>
    requires { HasPathText object }
    ensures { IsGrowth (N.inodes nodes.old) (N.inodes nodes.new)
        (makes (N.inodes nodes.old) dir name.now object) result }
{
    if let Some(fault) = make_fault(nodes, dir, name) {
        return Ok(Err(fault));
    }
    let place = Place {
        parent: dir,
        name: name.copy(alloc)?,
    };
    nodes.add(alloc, place, object)?;
    Ok(Ok(()))
}

/// Removes the entry of what is no directory. Takes no memory.
pub(crate) fn remove_file<N: NodeTable>(
    nodes: &mut N,
    dir: Node,
    name: &LentName<'_>,
) -> Result<(), Errno>
    ensures { IsChange (N.inodes nodes.old) (N.inodes nodes.new)
        (removes_file (N.inodes nodes.old) dir name.now) result }
{
    if !is_dir(nodes.as_slice(), dir) {
        return Err(Errno::NotDir);
    }
    let Some(file) = nodes.look(dir, name) else {
        return Err(Errno::NotFound);
    };
    if is_dir(nodes.as_slice(), file) {
        return Err(Errno::IsDir);
    }
    nodes.take_out(dir, name, file);
    Ok(())
}

/// Removes the entry of an empty directory. Takes no memory.
pub(crate) fn remove_dir<N: NodeTable>(
    nodes: &mut N,
    dir: Node,
    name: &LentName<'_>,
) -> Result<(), Errno>
    ensures { IsChange (N.inodes nodes.old) (N.inodes nodes.new)
        (removes_dir (N.inodes nodes.old) dir name.now) result }
{
    if !is_dir(nodes.as_slice(), dir) {
        return Err(Errno::NotDir);
    }
    let Some(removed) = nodes.look(dir, name) else {
        return Err(Errno::NotFound);
    };
    if !is_dir(nodes.as_slice(), removed) {
        return Err(Errno::NotDir);
    }
    if nodes.has_entries(removed) {
        return Err(Errno::NotEmpty);
    }
    nodes.take_out(dir, name, removed);
    Ok(())
}

// Why a node can't take the place of another.
fn replace_fault<N: NodeTable>(nodes: &N, moved: Node, there: Node) -> Option<Errno>
    ensures { result ≡ replace_fault (N.inodes nodes.now) moved there }
{
    let inodes = nodes.as_slice();
    match (is_dir(inodes, moved), is_dir(inodes, there)) {
        (true, false) => Some(Errno::NotDir),
        (false, true) => Some(Errno::IsDir),
        (true, true) if nodes.has_entries(there) => Some(Errno::NotEmpty),
        _ => None,
    }
}

// Renames a node that was found to an entry of a directory that stands.
fn rename_child<N: NodeTable>(
    nodes: &mut N,
    alloc: Global,
    from: Place,
    to: Place,
    moved: Node,
    mode: Mode,
) -> Result<Result<(), Errno>, NoMemory>
    requires dir { is_dir (N.inodes nodes.old) from.parent ≡ true }
    requires to_dir { is_dir (N.inodes nodes.old) to.parent ≡ true }
    requires stays { is_gone (N.inodes nodes.old) to.parent ≡ false }
    requires moved { child (N.inodes nodes.old) from.parent from.name ≡ Some moved }
    ensures { IsGrowth (N.inodes nodes.old) (N.inodes nodes.new)
        (renames_child (N.inodes nodes.old) moved from.parent from.name to.parent to.name mode
        (child (N.inodes nodes.old) to.parent to.name)) result }
{
    match (mode, nodes.look(to.parent, &to.name.lend())) {
        (Mode::Exchange, None) => return refuse(nodes, &to, Errno::NotFound),
        (Mode::NoReplace, Some(_)) => return refuse(nodes, &to, Errno::Exists),
        (_, Some(there)) if there == moved => {}
        _ if is_within(nodes.as_slice(), moved, to.parent) => return Ok(Err(Errno::Invalid)),
        (_, None) => nodes.move_to(alloc, &from, to, moved)?,
        (Mode::Plain, Some(there)) => {
            if let Some(fault) = replace_fault(nodes, moved, there) {
                return Ok(Err(fault));
            }
            nodes.replace(&from, to, moved, there);
        }
        (Mode::Exchange, Some(there)) => {
            if is_within(nodes.as_slice(), there, from.parent) {
                return Ok(Err(Errno::Invalid));
            }
            nodes.exchange(from, to, moved, there);
        }
    }
    Ok(Ok(()))
}

/// Renames one entry to another, whose own node it replaces or changes places with, as the mode says.
/// Only a new entry takes memory.
pub(crate) fn rename<N: NodeTable>(
    nodes: &mut N,
    alloc: Global,
    from: Place,
    to: Place,
    mode: Mode,
) -> Result<Result<(), Errno>, NoMemory>
    ensures { IsGrowth (N.inodes nodes.old) (N.inodes nodes.new)
        (renames (N.inodes nodes.old) from.parent from.name to.parent to.name mode) result }
{
    if !is_dir(nodes.as_slice(), from.parent) {
        return Ok(Err(Errno::NotDir));
    }
    if !is_dir(nodes.as_slice(), to.parent) {
        return Ok(Err(Errno::NotDir));
    }
    let Some(moved) = nodes.look(from.parent, &from.name.lend()) else {
        return refuse(nodes, &from, Errno::NotFound);
    };
    if is_gone(nodes.as_slice(), to.parent) {
        return Ok(Err(Errno::NotFound));
    }
    rename_child(nodes, alloc, from, to, moved, mode)
}
