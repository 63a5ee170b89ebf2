//! Lists of numbers as JSON.
ghost use Rattle.report_text.specs.Report.{numbered};
ghost use Rattle.event_log.specs.Output.{Gains};
ghost use Rattle.explore_parts.specs.Lists.{number_words, numbers_words, list_words, lists_words};

use event_log::Output;
use path_text::NoMemory;
use report_text::json_words::comma;

// Adds a number of a list by its place.
fn number(out: &mut Output, at: usize, number: u64) -> Result<(), NoMemory>
    ensures { Gains out.old out.new (number_words at number) result }
{
    comma(out, at)?;
    out.number(number)
}

// Adds the numbers of a list.
fn all_numbers(out: &mut Output, all: &[u32]) -> Result<(), NoMemory>
    ensures { Gains out.old out.new (numbered number_words 0 all.now) result }
{
    for (at, one) in all.iter().enumerate() {
        number(out, at, u64::from(*one))?;
    }
    Ok(())
}

/// Adds a list of numbers.
pub(crate) fn numbers(out: &mut Output, all: &[u32]) -> Result<(), NoMemory>
    ensures { Gains out.old out.new (numbers_words all.now) result }
{
    out.text("[")?;
    all_numbers(out, all)?;
    out.text("]")
}

// Adds a list of a list by its place.
fn list(out: &mut Output, at: usize, all: &[u32]) -> Result<(), NoMemory>
    ensures { Gains out.old out.new (list_words at all.now) result }
{
    comma(out, at)?;
    numbers(out, all)
}

// Adds the lists of a list.
fn all_lists(out: &mut Output, all: &[Vec<u32>]) -> Result<(), NoMemory>
    ensures { Gains out.old out.new (numbered (λ at one. list_words at one.items) 0 all.now) result }
{
    for (at, one) in all.iter().enumerate() {
        list(out, at, one.as_slice())?;
    }
    Ok(())
}

/// Adds a list of lists of numbers.
pub(crate) fn lists(out: &mut Output, all: &[Vec<u32>]) -> Result<(), NoMemory>
    ensures { Gains out.old out.new (lists_words all.now) result }
{
    out.text("[")?;
    all_lists(out, all)?;
    out.text("]")
}
