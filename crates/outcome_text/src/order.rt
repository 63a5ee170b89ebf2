//! Outcomes in the order of their least lists.
ghost use Rattle.std.specs.Prelude.{◌≡◌, not, IfOk};
ghost use Rattle.std.specs.Ordering.{is_lt};
ghost use Rattle.outcome_text.specs.Order.{comes_before, in_order};

use crate::survey::Told;
use path_text::NoMemory;
use std::cmp::Ordering;

// How the least lists of two outcomes stand: by their cuts, then by their changes of actor, then as lists.
fn compare(told: &Told, other: &Told) -> Ordering
    ensures { is_lt result ≡ not (comes_before other.now told.now) }
{
    let turns = told.turns.as_slice().cmp(other.turns.as_slice());
    let changes = told.changes.cmp(&other.changes);
    told.cuts.cmp(&other.cuts).then(changes.then(turns))
}

/// Outcomes in the order of their least lists; of those with the same one the first comes first. NoMemory where room
/// was refused.
pub(crate) fn in_order(all: Vec<Told>) -> Result<Vec<Told>, NoMemory>
    ensures { IfOk result (λ ordered. ordered.items ≡ in_order all.items) }
{
    let mut ordered = all;
    ordered.sort_by(compare)?;
    Ok(ordered)
}
