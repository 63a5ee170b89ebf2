//! Whether parts are apart: no two of them are there of which one begins with the other, or as it does.
ghost use Rattle.std.specs.Prelude.{◌≡◌, ◌<◌, false, true, length, IfOk, IfSome, MatchOption};
ghost use Rattle.std.specs.List.{list_any};
ghost use Rattle.std.specs.List.Sorted.{IsPermutation};
ghost use Rattle.outcome_text.specs.Apart.{is_below, parts_in, rise, rise_after};
ghost use Rattle.outcome_text.specs.Merge.{goes_along, are_apart};

use crate::nearby::go_along;
use crate::part::Part;
use path_text::NoMemory;
use std::alloc::Global;

// A part, and its place among all.
#[derive(Clone, Copy)]
struct Placed<'a> {
    place: usize,
    part: &'a Part,
}

// All parts, each with its place.
fn with_places<'a>(alloc: Global, parts: &'a [Part]) -> Result<Vec<Placed<'a>>, NoMemory>
    ensures { IfOk result (λ all. parts_in all.items ≡ parts.now) }
{
    let mut all = Vec::with_capacity(alloc, parts.len())?;
    for (place, part) in parts.iter().enumerate() {
        all.push(Placed { place, part })?;
    }
    Ok(all)
}

// The same, by their beginnings in the order of words.
fn in_word_order<'a>(alloc: Global, parts: &'a [Part]) -> Result<Vec<Placed<'a>>, NoMemory>
    ensures { IfOk result (λ all. IsPermutation parts.now (parts_in all.items)) }
{
    let mut all = with_places(alloc, parts)?;
    all.sort_by(|one, other| one.part.begin.as_slice().cmp(other.part.begin.as_slice()))?;
    Ok(all)
}

// Whether the first list has the lesser number where the two first differ.
fn is_below(turns: &[u32], others: &[u32]) -> bool
    ensures { result ≡ is_below turns.now others.now }
{
    for (at, turn) in turns.iter().enumerate() {
        if at >= others.len() {
            return false;
        }
        let other = others[at];
        if *turn != other {
            return *turn < other;
        }
    }
    false
}

// Whether the beginning of each of these parts, that one in front, is below that of the next.
fn rise_after(first: &Part, parts: &[Placed<'_>]) -> bool
    ensures { result ≡ rise_after first.now (parts_in parts.now) }
{
    let mut last = first;
    for placed in parts {
        let part = placed.part;
        if !is_below(last.begin.as_slice(), part.begin.as_slice()) {
            return false;
        }
        last = part;
    }
    true
}

// Whether the beginning of each part is below that of the next.
fn rise(parts: &[Placed<'_>]) -> bool
    ensures { result ≡ rise (parts_in parts.now) }
{
    let Some((first, rest)) = parts.split_first() else {
        return true;
    };
    rise_after(first.part, rest)
}

// The place of the first part that goes along with that one.
fn first_along(parts: &[Part], part: &Part) -> Option<usize>
    ensures { MatchOption result (list_any (goes_along part.now) parts.now ≡ false)
        (λ at. (list_any (goes_along part.now) parts.now ≡ true) × (at < length parts.now)) }
{
    for (at, other) in parts.iter().enumerate() {
        if go_along(part.begin.as_slice(), other.begin.as_slice()) {
            return Some(at);
        }
    }
    None
}

// The first place of a part that goes along with another. In the order of words, those that begin with a part's turns
// stand right behind it.
fn first_place(ordered: &[Placed<'_>]) -> usize {
    let mut first = usize::MAX;
    let Some((mut shortest, rest)) = ordered.split_first() else {
        return first;
    };
    for placed in rest {
        let begin = placed.part.begin.as_slice();
        if begin.starts_with(shortest.part.begin.as_slice()) {
            first = first.min(shortest.place).min(placed.place);
        } else {
            shortest = placed;
        }
    }
    first
}

// The part at that place and the first behind it that goes along with it.
fn overlap_at(parts: &[Part], at: usize) -> Option<(usize, usize)>
    ensures { IfSome result (λ _. are_apart parts.now ≡ false) }
{
    let part = parts.get(at)?;
    let after = at + 1;
    let place = first_along(&parts[after..], part)?;
    Some((at, after + place))
}

// The first two parts that go along.
fn first_of_all(parts: &[Part]) -> Option<(usize, usize)>
    ensures { MatchOption result (are_apart parts.now ≡ true) (λ _. are_apart parts.now ≡ false) }
{
    for (at, part) in parts.iter().enumerate() {
        let after = at + 1;
        if let Some(place) = first_along(&parts[after..], part) {
            return Some((at, after + place));
        }
    }
    None
}

/// The first two parts of which one begins with the other, or as it does. NoMemory where room was refused.
pub(crate) fn first_overlap(
    alloc: Global,
    parts: &[Part],
) -> Result<Option<(usize, usize)>, NoMemory>
    ensures { IfOk result (λ overlap.
        MatchOption overlap (are_apart parts.now ≡ true) (λ _. are_apart parts.now ≡ false)) }
{
    let ordered = in_word_order(alloc, parts)?;
    if rise(&ordered) {
        return Ok(None);
    }
    // Only where nothing is found there are all looked at.
    match overlap_at(parts, first_place(&ordered)) {
        Some(overlap) => Ok(Some(overlap)),
        None => Ok(first_of_all(parts)),
    }
}
