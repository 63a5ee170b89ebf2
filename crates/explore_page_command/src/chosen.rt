//! The outcomes that a page plays.
ghost use Rattle.std.specs.Prelude.{◌≡◌, IfOk, OnOk, map};
ghost use Rattle.outcome_text.specs.Survey.{looks_like, is_new};
ghost use Rattle.explore_page_command.specs.Played.{with_chosen, chosen};

use outcome_text::Told;
use path_text::NoMemory;
use std::alloc::Global;

/// The most outcomes that a page plays.
pub const PLAYED_MAX: usize = 64;

// Whether two outcomes look the same.
fn looks_like(told: &Told, other: &Told) -> bool
    ensures { result ≡ looks_like told.now other.now }
{
    other.look.as_slice() == told.look.as_slice()
}

// Whether an outcome looks like none of those before it.
fn is_new(earlier: &[Told], told: &Told) -> bool
    ensures { result ≡ is_new earlier.now told.now }
{
    for other in earlier {
        if looks_like(told, other) {
            return false;
        }
    }
    true
}

// Adds an outcome if it looks like none of those before it, and there is room on the page.
fn add_if_chosen<'a>(
    some: &mut Vec<&'a Told>,
    earlier: &[Told],
    told: &'a Told,
) -> Result<(), NoMemory>
    ensures { OnOk result (map (λ one. one.now) some.new.items
        ≡ with_chosen (map (λ one. one.now) some.old.items) earlier.now told.now) }
{
    if some.len() < PLAYED_MAX && is_new(earlier, told) {
        some.push(told)?;
    }
    Ok(())
}

/// The outcomes that a page plays: the first of those that have a block in the text. NoMemory where room was refused.
pub(crate) fn chosen<'a>(alloc: Global, outcomes: &'a [Told]) -> Result<Vec<&'a Told>, NoMemory>
    ensures { IfOk result (λ some. map (λ told. told.now) some.items ≡ chosen outcomes.now) }
{
    let mut some = Vec::new(alloc);
    for (at, told) in outcomes.iter().enumerate() {
        add_if_chosen(&mut some, &outcomes[..at], told)?;
    }
    Ok(some)
}
