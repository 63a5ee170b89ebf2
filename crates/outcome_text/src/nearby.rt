//! Parts by the turns that they begin with.
ghost use Rattle.std.specs.Prelude.{◌≡◌, true, IfOk};
ghost use Rattle.std.specs.List.{list_any};
ghost use Rattle.outcome_text.specs.Nearby.{AreSome, holds_some};
ghost use Rattle.outcome_text.specs.Merge.{go_along, is_there};

use crate::part::Part;
use path_text::NoMemory;
use std::alloc::Global;

/// Whether one of two lists begins with the other.
pub(crate) fn go_along(turns: &[u32], others: &[u32]) -> bool
    ensures { result ≡ go_along turns.now others.now }
{
    turns.starts_with(others) || others.starts_with(turns)
}

// The parts that have lists.
fn with_lists<'a>(alloc: Global, parts: &'a [Part]) -> Result<Vec<&'a Part>, NoMemory>
    ensures { IfOk result (λ some. AreSome parts.now some.items) }
{
    let mut some = Vec::new(alloc);
    for part in parts {
        if part.lists > 0 {
            some.push(part)?;
        }
    }
    Ok(some)
}

/// The parts that have lists, by their beginnings in the order of words. NoMemory where room was refused.
pub(crate) fn in_word_order<'a>(alloc: Global, parts: &'a [Part]) -> Result<Vec<&'a Part>, NoMemory>
    ensures { IfOk result (λ some. AreSome parts.now some.items) }
{
    let mut some = with_lists(alloc, parts)?;
    some.sort_by(|part, other| part.begin.as_slice().cmp(other.begin.as_slice()))?;
    Ok(some)
}

// Whether the part at that place has lists, and goes along with these turns.
fn holds_at(ordered: &[&Part], at: usize, turns: &[u32]) -> bool
    ensures { result ≡ true → list_any (λ part. holds_some turns.now part.now) ordered.now ≡ true }
{
    match ordered.get(at) {
        Some(part) => part.lists > 0 && go_along(part.begin.as_slice(), turns),
        None => false,
    }
}

// Whether one of the two parts between which these turns stand does. In the order of words, those that begin with the
// turns stand behind that place, and the one that the turns begin with stands before it.
fn holds_near(ordered: &[&Part], turns: &[u32]) -> bool
    ensures { result ≡ true → list_any (λ part. holds_some turns.now part.now) ordered.now ≡ true }
{
    let at = ordered.partition_point(|part| part.begin.as_slice() < turns);
    holds_at(ordered, at, turns) || (at > 0 && holds_at(ordered, at - 1, turns))
}

// Whether a part that has lists goes along with these turns.
fn is_in(parts: &[Part], turns: &[u32]) -> bool
    ensures { result ≡ is_there parts.now turns.now }
{
    for part in parts {
        if part.lists > 0 && go_along(part.begin.as_slice(), turns) {
            return true;
        }
    }
    false
}

/// The same, where some of the parts stand in the order of words: only where none of these goes along are all looked
/// at.
pub(crate) fn is_there(parts: &[Part], ordered: &[&Part], turns: &[u32]) -> bool
    requires { AreSome parts.now ordered.now }
    ensures { result ≡ is_there parts.now turns.now }
{
    holds_near(ordered, turns) || is_in(parts, turns)
}
