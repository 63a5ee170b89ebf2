//! Numbers of lists, exact below a bound.
ghost use Rattle.std.specs.Prelude.{◌≡◌, ◌≤◌, ◌+◌, ◌++◌, min};
ghost use Rattle.event_log.specs.Output.{Gains};
ghost use Rattle.outcome_text.specs.Counts.{count_words};

use event_log::Output;
use path_text::NoMemory;

/// Numbers of schedules are exact below this.
pub const COUNT_MAX: u64 = 1_000_000_000_000_000_000;

/// A sum, or the bound where that is no less.
pub(crate) fn plus(count: u64, more: u64) -> u64
    requires { count ≤ COUNT_MAX }
    ensures sum { result ≡ min (count + more) COUNT_MAX }
    ensures bounded { result ≤ COUNT_MAX }
{
    (count + more.min(COUNT_MAX)).min(COUNT_MAX)
}

// Adds a number of lists: its digits below the bound, and from there on `1000000000000000000+`.
#[tactic(auto, unfolding(crate::specs::Counts::count_words))]
fn count(out: &mut Output, count: u64) -> Result<(), NoMemory>
    ensures { Gains out.old out.new (count_words count) result }
{
    if count < COUNT_MAX {
        out.number(count)
    } else {
        out.text("1000000000000000000+")
    }
}

/// Adds a text and a number of lists after it. NoMemory where its room was refused.
pub(crate) fn counted(out: &mut Output, text: &str, lists: u64) -> Result<(), NoMemory>
    ensures { Gains out.old out.new (text.now ++ count_words lists) result }
{
    out.text(text)?;
    count(out, lists)
}
