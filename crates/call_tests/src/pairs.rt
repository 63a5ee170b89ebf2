//! Pairs of bulk calls that are under way, alike but for the numbers of their handles or not:
//! `STEPS PATH | STEPS PATH | LIKENESS | HANDLES | HANDLES`, and `while OTHERS`.
//!
//! A path, and how many steps its call has made; the same of another call, in the tree where each later handle has a
//! greater number, and before whose steps others make theirs; whether the two are `like` or `unlike`; and the handles
//! of each.
use crate::bulk_calls::{Bulk, Scene, advance, base_scene, grant, run};
use crate::requests::number;
use bulk_ops::BulkTurn;
use fixtures::{PLAIN, are_numbers, column, cut};
use path_text::Errno;
use std::alloc::Global;

// The call on a path after so many steps.
fn under_way<C: Bulk>(alloc: Global, scene: &mut Scene, call: &str) -> BulkTurn<C> {
    let (steps, path) = cut(call);
    let turn = match C::begin(alloc, path, PLAIN) {
        Ok(turn) => turn,
        Err(error) => BulkTurn::Failed(error),
    };
    advance(alloc, scene, turn, number(steps))
}

// Whether a call has these handles; one that has ended has none.
fn has_handles<C: Bulk>(alloc: Global, turn: &BulkTurn<C>, numbers: &str) -> bool {
    let mut handles = Vec::new(alloc);
    let is_pushed = match turn {
        BulkTurn::More(call) => call.push_handles(&mut handles).is_ok(),
        _ => true,
    };
    is_pushed && are_numbers(&handles, numbers)
}

// Whether both are under way, and alike.
fn are_alike<C: Bulk>(turn: &BulkTurn<C>, other: &BulkTurn<C>) -> bool {
    match (turn, other) {
        (BulkTurn::More(call), BulkTurn::More(other)) => call.is_like(other),
        _ => false,
    }
}

// Whether the two calls are as the row has it. Both are driven to their ends.
fn are_so<C: Bulk>(alloc: Global, scene: &mut Scene, other_scene: &mut Scene, row: &str) -> bool {
    let (call, rest) = column(row);
    let (others_call, rest) = column(rest);
    let (likeness, rest) = column(rest);
    let (handles, others_handles) = column(rest);
    let turn = under_way::<C>(alloc, scene, call);
    let other = under_way::<C>(alloc, other_scene, others_call);
    let are_so = are_alike(&turn, &other) == (likeness == "like")
        && has_handles(alloc, &turn, handles)
        && has_handles(alloc, &other, others_handles);
    drop(run(alloc, scene, turn));
    drop(run(alloc, other_scene, other));
    are_so
}

// The same on two base trees, of which the other has one handle more.
fn are_so_on_trees<C: Bulk>(alloc: Global, at: &str, line: &'static str) -> Result<bool, Errno> {
    let (row, others) = line.split_once(" while ").unwrap_or((line, ""));
    let mut first = base_scene(alloc, at)?;
    let mut second = base_scene(alloc, at)?;
    grant(alloc, &mut second.tree, 0, "/c/a")?;
    second.others = others;
    Ok(are_so::<C>(alloc, &mut first, &mut second, row))
}

/// Whether a row holds where the other has handles on these directories. A line after `#` is a remark.
pub fn is_so<C: Bulk>(alloc: Global, at: &str, line: &'static str) -> bool {
    line.starts_with('#') || are_so_on_trees::<C>(alloc, at, line) == Ok(true)
}
