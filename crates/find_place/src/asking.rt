//! Where the object of a program's descriptor stands, as a dialogue.
ghost use Rattle.std.specs.Prelude.{◌≡◌};
ghost use Rattle.dialogue.specs.Dialogue.{ran};
ghost use Rattle.find_place.specs.Place.{ask_place, found, lost, unfound};
ghost use Rattle.find_place.specs.Questions.{came_to, told_of};

use crate::places::{Facts, Told, place};
use crate::questions::{Answer, Asked, Question, ask};
use system_calls::errors::{EAGAIN, ENOENT};

// Nothing tells a place: the object was removed, or is outside, or others move it.
fn lost<'a>(gone: bool) -> Told<'a>
    ensures { told_of result ≡ lost gone }
{
    if gone { Err(ENOENT) } else { Err(EAGAIN) }
}

// Only of a directory there is more to ask.
#[tactic(auto, using(dialogue::proofs::TalkLemmas::ran_then, dialogue::proofs::TalkLemmas::ran_ends), unfolding(crate::specs::Place::unfound))]
fn unfound<'a>(answers: &mut &[Answer<'a>], looked: &Answer<'a>, error: u32) -> Asked<'a, Told<'a>>
    ensures { came_to told_of result answers.new.now ≡ ran (unfound looked.now error) answers.old.now }
{
    if error != EAGAIN {
        return Ok(Err(error));
    }
    if !looked.yes {
        return Ok(lost(looked.links == 0));
    }
    let removed = ask(answers, Question::Removed)?;
    Ok(lost(removed.yes || looked.links == 0))
}

#[tactic(auto, using(dialogue::proofs::TalkLemmas::ran_then, dialogue::proofs::TalkLemmas::ran_ends), unfolding(crate::specs::Place::found))]
fn found<'a>(answers: &mut &[Answer<'a>], looked: &Answer<'a>) -> Asked<'a, Told<'a>>
    ensures { came_to told_of result answers.new.now ≡ ran (found looked.now) answers.old.now }
{
    let facts = Facts {
        directory: looked.yes,
        seen: false,
    };
    match place(answers, &facts)? {
        Ok(names) => Ok(Ok(names)),
        Err(error) => unfound(answers, looked, error),
    }
}

/// Asks where the object of a descriptor stands: it is looked at, the descriptor is copied, and by the copy the place
/// is asked for. Takes no memory.
///
/// Errors: ENOENT (2) of what has no place and was removed; EAGAIN (11) of anything else that has none; any other one
/// of the last question, as `place` has them.
#[tactic(auto, using(dialogue::proofs::TalkLemmas::ran_then, dialogue::proofs::TalkLemmas::ran_ends), unfolding(crate::specs::Place::ask_place))]
pub fn ask_place<'a>(answers: &mut &[Answer<'a>]) -> Asked<'a, Told<'a>>
    ensures { came_to told_of result answers.new.now ≡ ran ask_place answers.old.now }
{
    let looked = ask(answers, Question::Look)?;
    if looked.error != 0 {
        return Ok(Err(looked.error));
    }
    let copied = ask(answers, Question::Copy)?;
    if copied.error != 0 {
        return Ok(Err(copied.error));
    }
    let told = found(answers, &looked)?;
    ask(answers, Question::Close)?;
    Ok(told)
}
