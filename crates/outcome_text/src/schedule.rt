//! How a list of turns is written as a schedule.
ghost use Rattle.std.specs.Prelude.{◌≡◌, ◌≤◌, length, take};
ghost use Rattle.event_log.specs.Output.{Gains};
ghost use Rattle.outcome_text.specs.Schedule.{begins_to_rise, without_tail, turns_words, turns_text, schedule_words};

use event_log::Output;
use path_text::NoMemory;

// Whether the first number isn't above the second, if there are two.
fn begins_to_rise(list: &[u32]) -> bool
    ensures { result ≡ begins_to_rise list.now }
{
    match list {
        [first, second, ..] => *first <= *second,
        _ => true,
    }
}

/// How many turns come before the longest tail that rises: those of the schedule that leads to a full list.
pub fn before_tail(list: &[u32]) -> usize
    ensures within { result ≤ length list.now }
    ensures before { take result list.now ≡ without_tail list.now }
{
    let mut kept = list.len();
    while kept > 0 && begins_to_rise(&list[kept - 1..]) {
        kept -= 1;
    }
    kept
}

// Adds so many turns of one actor: `I`, or `I*N` where they are more than one.
fn add_turns(out: &mut Output, actor: u32, times: u64) -> Result<(), NoMemory>
    ensures { Gains out.old out.new (turns_words actor times) result }
{
    out.number(u64::from(actor))?;
    if times == 1 {
        return Ok(());
    }
    out.text("*")?;
    out.number(times)
}

// Adds turns, or `-` for none.
fn turns(out: &mut Output, list: &[u32]) -> Result<(), NoMemory>
    ensures { Gains out.old out.new (turns_text list.now) result }
{
    let Some((first, rest)) = list.split_first() else {
        return out.text("-");
    };
    let (mut actor, mut times) = (*first, 1u64);
    for next in rest {
        if *next == actor {
            times += 1;
        } else {
            add_turns(out, actor, times)?;
            out.text(",")?;
            (actor, times) = (*next, 1);
        }
    }
    add_turns(out, actor, times)
}

/// Adds the schedule that leads to a full list of turns: the list without its longest tail that rises, since a run
/// goes on by the actors' numbers once its schedule ends. It is `-` for none, or commas between `I` and `I*N`.
/// NoMemory where its room was refused.
#[tactic(auto, unfolding(crate::specs::Schedule::schedule_words))]
pub fn schedule_words(out: &mut Output, list: &[u32]) -> Result<(), NoMemory>
    ensures { Gains out.old out.new (schedule_words list.now) result }
{
    turns(out, &list[..before_tail(list)])
}
