//! What is told in the line after a fault: the limit that was met, and what helps.
ghost use Rattle.std.specs.Prelude.{◌≡◌, ◌++◌, decimal};
ghost use Rattle.event_log.specs.Output.{Gains};
ghost use Rattle.command_line.specs.Advice.{memory_advice, states_advice, turn_advice, actor_advice, line_hint, line_advice, search_advice, explore_advice, advice_of};

use crate::ending::Fault;
use event_log::Output;
use outcome_text::{ExploreFault, SearchFault};
use path_text::NoMemory;
use scripts::RunFault;

/// The most megabytes that may be asked for.
const MEMORY_MAX: u32 = 1_000_000;

/// The most states that may be asked for.
const STATES_MAX: u64 = 10_000_000;

/// Adds a number between two texts.
pub(crate) fn add_number(
    out: &mut Output,
    before: &str,
    number: u64,
    after: &str,
) -> Result<(), NoMemory>
    ensures { Gains out.old out.new (before.now ++ (decimal number ++ after.now)) result }
{
    out.text(before)?;
    out.number(number)?;
    out.text(after)
}

// Adds what is told of a search that may go through so many states.
fn add_states(out: &mut Output, states: u64) -> Result<(), NoMemory>
    ensures { Gains out.old out.new (states_advice states) result }
{
    if states < STATES_MAX {
        return add_number(
            out,
            "more than ",
            states,
            " states; --states takes up to 10000000",
        );
    }
    add_number(
        out,
        "more than ",
        states,
        " states; --cuts and --begin leave fewer",
    )
}

// Adds what is told of a search that may take so many megabytes.
fn add_memory(out: &mut Output, most: u32) -> Result<(), NoMemory>
    ensures { Gains out.old out.new (memory_advice most) result }
{
    let number = u64::from(most);
    if most < MEMORY_MAX {
        return add_number(
            out,
            "more than ",
            number,
            " MB; --memory takes up to 1000000",
        );
    }
    add_number(
        out,
        "more than ",
        number,
        " MB; --cuts and --begin leave fewer states",
    )
}

// Adds what is told of a turn of a beginning.
fn add_turn(out: &mut Output, at: usize, words: &str) -> Result<(), NoMemory>
    ensures { Gains out.old out.new (turn_advice at words.now) result }
{
    add_number(out, "turn ", at as u64, words)
}

// Adds what is told of an actor who isn't there.
fn add_actor(out: &mut Output, actor: u32) -> Result<(), NoMemory>
    ensures { Gains out.old out.new (actor_advice actor) result }
{
    let number = u64::from(actor);
    add_number(
        out,
        "--actor ",
        number,
        " is none of the script's; its first actor is 0",
    )
}

// Adds what is told of a search that gives nothing.
fn advise_search(out: &mut Output, fault: SearchFault, states: u64) -> Result<(), NoMemory>
    ensures { Gains out.old out.new (search_advice fault states) result }
{
    match fault {
        SearchFault::TooManyStates => add_states(out, states),
        SearchFault::TooManyTurns => {
            out.text("a schedule has more than 100000 turns, and no option takes more")
        }
        SearchFault::NotBusy(at) => add_turn(
            out,
            at,
            " of --begin, counted from 0, is of an actor who has nothing left to do",
        ),
        SearchFault::TooManyCuts(at) => add_turn(
            out,
            at,
            " of --begin, counted from 0, makes more cuts than --cuts takes",
        ),
        _ => Ok(()),
    }
}

// Which words a line has.
fn line_hint(line: &[u8]) -> &'static str
    ensures { result.now ≡ line_hint line.now }
{
    if line.starts_with(b"reply") {
        "after reply ACTOR CALL comes opened, text, done, count, stepped or fault ERROR"
    } else if line.starts_with(b"row") {
        "after row comes the number or the path of a directory, and then a name that the script has"
    } else {
        "after held or outside comes the number of an actor"
    }
}

// Adds bytes between two texts, and another text.
fn add_between(
    out: &mut Output,
    before: &str,
    bytes: &[u8],
    after: &str,
    last: &str,
) -> Result<(), NoMemory>
    ensures { Gains out.old out.new (before.now ++ (bytes.now ++ (after.now ++ last.now))) result }
{
    out.text(before)?;
    out.bytes(bytes)?;
    out.text(after)?;
    out.text(last)
}

// Adds what is told of a line that no report can have.
fn add_line(out: &mut Output, line: &[u8]) -> Result<(), NoMemory>
    ensures { Gains out.old out.new (line_advice line.now) result }
{
    let before = "no report of the script has a line with '";
    add_between(out, before, line, "': ", line_hint(line))
}

// Adds what is told of an exploration that gives no answer.
fn advise_explore(
    out: &mut Output,
    fault: ExploreFault,
    states: u64,
    line: &[u8],
) -> Result<(), NoMemory>
    ensures { Gains out.old out.new (explore_advice fault states line.now) result }
{
    match fault {
        ExploreFault::NoSuchActor(actor) => add_actor(out, actor),
        ExploreFault::NoSuchLine(_) => add_line(out, line),
        ExploreFault::Search(fault) => advise_search(out, fault, states),
        ExploreFault::TooMuchMemory(most) => add_memory(out, most),
        ExploreFault::NoGauge => {
            out.text("--memory reads in /proc/self/status how much is taken, and could not")
        }
        ExploreFault::Run(_) => Ok(()),
    }
}

/// Adds what is told in the line after a fault, without the line's end, and nothing where there is no more to tell.
/// `states` is how many states a search may go through, and `line` the text of a property for which no report can have
/// a line. NoMemory where room was refused.
pub fn advise(out: &mut Output, fault: Fault, states: u64, line: &[u8]) -> Result<(), NoMemory>
    ensures { Gains out.old out.new (advice_of fault states line.now) result }
{
    match fault {
        Fault::AskedTurn(_) | Fault::BeginTurn(_) => out.text(
            "a turn is an actor's number, counted from 0",
        ),
        Fault::AskedTurns => out.text("a schedule has at most 100000 turns"),
        Fault::Explore(fault) => advise_explore(out, fault, states, line),
        Fault::DrawActors => out.text("a picture has at most 4 actors"),
        Fault::DrawLines => out.text("a picture has at most 2000 lines, and its run 2000 events"),
        Fault::ReplayEvents => out.text("a report as JSON has at most 2000 events"),
        Fault::Run(RunFault::BookFull) => {
            out.text("\"lines\" is too small: each actor, or each worker of run, has one")
        }
        _ => Ok(()),
    }
}
