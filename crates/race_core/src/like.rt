//! Whether what two actors have to do and hold is the same but for the numbers of their handles, and which handles
//! these are, one by one.
ghost use Rattle.std.specs.Prelude.{◌≡◌, ◌++◌, ℕ, List, map, ◌↔◌, IsTrue, IfOk};
ghost use Rattle.std.specs.List.{flat_map};

mod ledgers;
mod seats;
mod worlds;

pub use ledgers::{is_like_outcome, like_outcomes};
use path_text::NoMemory;
use std::collections::VecDeque;
use tree_model::HandleNo;

/// What may hold handles by their numbers.
pub(crate) trait Like {
    /// It with other numbers for its handles.
    ghost by: { (ℕ → ℕ) → Self → Self };

    /// The handles, one by one.
    ghost handles: { Self → List ℕ };

    /// Whether the two are the same but for the numbers of their handles. Takes no memory.
    fn is_like(&self, other: &Self) -> bool
        ensures { IsTrue result ↔ (by (λ h. 0) self.now ≡ by (λ h. 0) other.now) };

    /// Appends the handles. NoMemory where their room was refused; some of them may have been appended.
    fn push_handles(&self, into: &mut Vec<HandleNo>) -> Result<(), NoMemory>
        ensures { IfOk result (λ u. into.new.items ≡ into.old.items ++ handles self.now) };
}

/// Whether there are as many of both, and each two are the same but for the numbers of their handles.
pub(crate) fn like_all<L: Like>(all: &[L], others: &[L]) -> bool
    ensures { IsTrue result ↔ (map (L.by (λ h. 0)) all.now ≡ map (L.by (λ h. 0)) others.now) }
{
    if all.len() != others.len() {
        return false;
    }
    for (at, one) in all.iter().enumerate() {
        if !one.is_like(&others[at]) {
            return false;
        }
    }
    true
}

/// Whether there are as many in both queues, and each two are the same but for the numbers of their handles.
pub(crate) fn like_queues<L: Like>(queue: &VecDeque<L>, other: &VecDeque<L>) -> bool
    ensures { IsTrue result ↔ (map (L.by (λ h. 0)) queue.now.items ≡ map (L.by (λ h. 0)) other.now.items) }
{
    if queue.len() != other.len() {
        return false;
    }
    for at in 0..queue.len() {
        let one = &queue[at];
        if !one.is_like(&other[at]) {
            return false;
        }
    }
    true
}

/// Appends the handles of all. NoMemory where their room was refused; some of them may have been appended.
pub(crate) fn push_all<L: Like>(all: &[L], into: &mut Vec<HandleNo>) -> Result<(), NoMemory>
    ensures { IfOk result (λ u. into.new.items ≡ into.old.items ++ flat_map L.handles all.now) }
{
    for one in all {
        one.push_handles(into)?;
    }
    Ok(())
}

/// Appends the handles of all in the queue. NoMemory as for a slice.
pub(crate) fn push_queue<L: Like>(
    queue: &VecDeque<L>,
    into: &mut Vec<HandleNo>,
) -> Result<(), NoMemory>
    ensures { IfOk result (λ u. into.new.items ≡ into.old.items ++ flat_map L.handles queue.now.items) }
{
    let (front, back) = queue.as_slices();
    push_all(front, into)?;
    push_all(back, into)
}
