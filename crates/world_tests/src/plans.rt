//! What worlds are made of: trees, turns, and plans read from text: each actor's root, and its calls each after a
//! colon, with a semicolon between two actors.
//!
//! A step and a report have many parts, and each place where one is dropped is long to prove: they are moved, or given
//! to `drop`.
ghost use Rattle.std.specs.Prelude.{IfOk};
ghost use Rattle.tree_model.specs.Trees.{IsTree};

use event_log::read_step;
use fixtures::{BASE, PLAIN, cut, entries, entry, names_of};
use path_text::{Bytes, Errno, Flags, NoMemory};
use race_core::{ActorPlan, Planned, Plans, Ref, World, WorldFault};
use root_ops::{Op, Request};
use std::alloc::Global;
use tree_list::ListTree;
use tree_model::{HandleNo, Step, StepOf};

/// The base tree, and that entry as node 11.
pub fn tree_with(alloc: Global, row: &str) -> Result<ListTree, Errno>
    ensures { IfOk result (λ tree. IsTree tree.nodes) }
{
    let mut entries = entries(alloc, BASE)?;
    entries.push(entry(alloc, row)?)?;
    ListTree::from_entries(alloc, &entries).map_err(|fault| fault.cause)
}

/// The base tree, and an empty directory `/c/e`.
pub fn tree(alloc: Global) -> Result<ListTree, Errno>
    ensures { IfOk result (λ tree. IsTree tree.nodes) }
{
    tree_with(alloc, "/c/e/")
}

// In a planned step handle 0 stands for the root, and handle k for what call k - 1 keeps.
fn at(handle: HandleNo) -> Ref {
    match handle.number() {
        0 => Ref::Root,
        number => Ref::Call((number as usize).saturating_sub(1)),
    }
}

fn planned_step(step: Step) -> StepOf<Ref> {
    match step {
        StepOf::MakeDir(dir, name) => StepOf::MakeDir(at(dir), name),
        StepOf::MakeFile(dir, name) => StepOf::MakeFile(at(dir), name),
        StepOf::MakeLink(dir, name, text) => StepOf::MakeLink(at(dir), name, text),
        StepOf::RemoveFile(dir, name) => StepOf::RemoveFile(at(dir), name),
        StepOf::RemoveDir(dir, name) => StepOf::RemoveDir(at(dir), name),
        StepOf::Rename(from, old, to, new, mode) => {
            StepOf::Rename(at(from), old, at(to), new, mode)
        }
        StepOf::List(dir) => StepOf::List(at(dir)),
        other => {
            drop(other);
            StepOf::Dup(Ref::Root)
        }
    }
}

fn op_on(word: &str, path: Bytes) -> Op {
    match word {
        "resolve" => Op::Resolve(path),
        "mkdir_all" => Op::MkdirAll(path),
        _ => Op::RemoveAll(path),
    }
}

// A step's line; or `release K`; or `resolve`, `mkdir_all` or `remove_all` and a path, with these restrictions.
fn planned(alloc: Global, call: &str, flags: Flags) -> Result<Planned, NoMemory> {
    if let Some(step) = read_step(alloc, call.as_bytes())? {
        return Ok(Planned::Single(planned_step(step)));
    }
    let (word, rest) = cut(call);
    if word == "release" {
        return Ok(Planned::Release(if rest == "0" { 0 } else { 1 }));
    }
    let op = op_on(word, Bytes::from_slice(alloc, rest.as_bytes())?);
    Ok(Planned::Call(Request { op, flags }))
}

fn plan(alloc: Global, line: &str, flags: Flags) -> Result<ActorPlan, Errno> {
    let mut parts = line.split(": ");
    let root = names_of(alloc, parts.next().unwrap_or(""))?;
    let mut calls = Plans::new(alloc);
    for call in parts {
        calls.push(planned(alloc, call, flags)?)?;
    }
    Ok(ActorPlan { root, calls })
}

// The plans that a word stands for.
fn named(plans: &str) -> &str {
    match plans {
        "alone" => "/c: resolve a/b/f",
        "moved_out" => "/c: resolve a/b/..; : resolve c/a: resolve secret: rename 1 b 2 b plain",
        "file_instead" => "/c: resolve a/b/f; /c: resolve a: rename 1 b 0 b2 plain: make_file 1 b",
        "link_instead" => {
            "/c: resolve a/b/f; /c: resolve a: rename 1 b 0 b2 plain: make_link 1 b /secret"
        }
        "both_open" => "/c: resolve a; /c: resolve a: release 0",
        "one_moves" => "/c: resolve a; /c: rename 0 a 0 a2 plain",
        "one_lists" => "/c: list 0; /c: remove_dir 0 e",
        "both_make" => "/c: make_dir 0 x; /c: make_dir 0 y",
        plans => plans,
    }
}

/// The plans of each actor, all calls with these restrictions.
pub fn plans(alloc: Global, text: &str, flags: Flags) -> Result<Vec<ActorPlan>, Errno> {
    let mut plans = Vec::new(alloc);
    for line in named(text).split("; ") {
        plans.push(plan(alloc, line, flags)?)?;
    }
    Ok(plans)
}

/// The actors whose turns these are, a digit each.
pub fn turns(alloc: Global, digits: &str) -> Result<Vec<u32>, NoMemory> {
    let mut turns = Vec::new(alloc);
    for digit in digits.as_bytes() {
        turns.push(u32::from(digit.saturating_sub(b'0')))?;
    }
    Ok(turns)
}

/// The world of these plans, after these turns.
pub fn world_after(
    alloc: Global,
    text: &str,
    turns: &[u32],
) -> Result<World<ListTree>, WorldFault> {
    let plans = plans(alloc, text, PLAIN).map_err(|_| WorldFault::NoMemory)?;
    let tree = tree(alloc).map_err(|_| WorldFault::NoMemory)?;
    let mut world = World::new(alloc, tree, plans, 1000)?;
    for actor in turns {
        let _turned = world.turn(alloc, *actor);
    }
    Ok(world)
}
