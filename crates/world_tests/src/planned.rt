//! Plans: calls are added one by one, read, copied, and taken out in order.
use fixtures::{PLAIN, names_of};
use path_text::{Bytes, Errno};
use race_core::{ActorPlan, Planned, Plans};
use root_ops::{Op, Request};
use std::alloc::Global;
use std::test::*;

fn resolve_and_release(alloc: Global, path: &str) -> Result<ActorPlan, Errno> {
    let mut calls = Plans::new(alloc);
    let op = Op::Resolve(Bytes::from_slice(alloc, path.as_bytes())?);
    calls.push(Planned::Call(Request { op, flags: PLAIN }))?;
    calls.push(Planned::Release(0))?;
    Ok(ActorPlan {
        root: names_of(alloc, "/c")?,
        calls,
    })
}

// What kind of call it is, as a letter; or a blank.
fn kind(call: Option<&Planned>) -> char {
    match call {
        Some(Planned::Call(_)) => 'c',
        Some(Planned::Single(_)) => 's',
        Some(Planned::Release(_)) => 'r',
        None => ' ',
    }
}

// A copy of the first call, the calls that are taken out, and what is left of them are of these kinds.
fn are_two_calls(alloc: Global, path: &str) -> Result<bool, Errno> {
    let plan = resolve_and_release(alloc, path)?;
    let copy = match plan.calls.as_slice().first() {
        Some(first) => Some(first.copy(alloc)?),
        None => None,
    };
    let is_whole = plan.calls.len() == 2 && !plan.calls.is_empty();
    let mut calls = plan.calls.into_calls();
    let first = calls.pop_front();
    let second = calls.pop_front();
    let third = calls.pop_front();
    let taken = [
        kind(first.as_ref()),
        kind(second.as_ref()),
        kind(third.as_ref()),
    ];
    Ok(is_whole && kind(copy.as_ref()) == 'c' && taken == ['c', 'r', ' '])
}

#[test]
fn calls_come_in_their_order(rt: HostRuntime) {
    assert!(rt; are_two_calls(rt.alloc(), "a/b") == Ok(true));
}
