//! At which names an object stands below a root, as a dialogue.
ghost use Rattle.std.specs.Prelude.{◌≡◌};
ghost use Rattle.dialogue.specs.Dialogue.{ran};
ghost use Rattle.find_place.specs.Place.{confirmed, finds_object, is_there, link, link_error, look_up_error, place};
ghost use Rattle.find_place.specs.Questions.{asked_of, came_to, is_top, told_of};

use crate::questions::{Answer, Asked, Question, ask};
use path_text::TEXT_MAX;
use system_calls::errors::{EAGAIN, ENAMETOOLONG, ENOENT, ENOSYS};
use system_calls::{ends_as_gone, is_elsewhere, is_named, is_same_object, place_told};

/// What is known before the first question.
#[derive(Clone, Copy, Debug, PartialEq, Eq)]
pub struct Facts {
    /// The object is a directory.
    pub directory: bool,
    /// The kernel opened the object by names from the root, with RESOLVE_BENEATH (openat2(2)), right before.
    pub seen: bool,
}

/// The names at which the object stands, a slash before each, or a slash alone; or an error (errno(3)).
pub type Told<'a> = Result<&'a [u8], u32>;

// The root alone stands at a slash alone.
fn is_top(place: &[u8]) -> bool
    ensures { result ≡ is_top place.now }
{
    place.len() == 1
}

// Why no text was read. There is no such /proc if it has no such link; and a text that fills its room may be cut off.
fn link_error(answer: &Answer<'_>) -> u32
    ensures { result ≡ link_error answer.now }
{
    if answer.error == ENOENT {
        ENOSYS
    } else if answer.error == 0 && answer.text.len() > TEXT_MAX {
        ENAMETOOLONG
    } else {
        answer.error
    }
}

#[tactic(auto, using(dialogue::proofs::TalkLemmas::ran_then, dialogue::proofs::TalkLemmas::ran_ends), unfolding(crate::specs::Place::link))]
fn link<'a>(answers: &mut &[Answer<'a>], question: Question<'a>) -> Asked<'a, Told<'a>>
    ensures { came_to told_of result answers.new.now ≡ ran (link (asked_of question.entry)) answers.old.now }
{
    let answer = ask(answers, question)?;
    let error = link_error(&answer);
    Ok(if error == 0 {
        Ok(answer.text)
    } else {
        Err(error)
    })
}

// Whether the object was gone by then. The kernel looks at that before it takes the names. So the link of what isn't
// called so is read again: text and look-up may tell where a removed object would be. A name of its own may end as the
// kernel writes of what is gone: a directory that is called so and isn't dead has that name, and of anything else
// nobody knows.
#[tactic(auto, using(dialogue::proofs::TalkLemmas::ran_then, dialogue::proofs::TalkLemmas::ran_ends), unfolding(crate::specs::Place::is_there))]
fn is_there<'a>(answers: &mut &[Answer<'a>], facts: &Facts, place: &'a [u8]) -> Asked<'a, Told<'a>>
    ensures { came_to told_of result answers.new.now ≡ ran (is_there facts.now place.now) answers.old.now }
{
    if !ends_as_gone(place) {
        let again = match link(answers, Question::LinkAgain)? {
            Ok(text) => text,
            Err(error) => return Ok(Err(error)),
        };
        return if is_named(again, place) {
            Ok(Ok(place))
        } else {
            Ok(Err(EAGAIN))
        };
    }
    if !facts.directory {
        return Ok(Err(EAGAIN));
    }
    let dead = ask(answers, Question::Dead)?;
    Ok(if dead.yes { Err(EAGAIN) } else { Ok(place) })
}

/// Whether the look-up of a place's names has found the object itself: device, inode and mount are the same. The root
/// may be mounted over itself: of a slash alone any mount will do. Any other look-up ends in an error.
pub fn finds_object(place: &[u8], answer: &Answer<'_>) -> bool
    ensures { result ≡ finds_object place.now answer.now }
{
    answer.error == 0 && is_same_object(&answer.held, &answer.found, is_top(place))
}

// Where the witnesses don't agree, neither says that it stood elsewhere at one moment.
fn look_up_error(error: u32) -> u32
    ensures { result ≡ look_up_error error }
{
    if error == 0 || is_elsewhere(error) {
        EAGAIN
    } else {
        error
    }
}

// What was seen below the root may have left its mount since, or was removed as it was seen. A slash alone is also the
// text of what has left its mount.
#[tactic(auto, using(dialogue::proofs::TalkLemmas::ran_then, dialogue::proofs::TalkLemmas::ran_ends), unfolding(crate::specs::Place::confirmed))]
fn confirmed<'a>(answers: &mut &[Answer<'a>], facts: &Facts, place: &'a [u8]) -> Asked<'a, Told<'a>>
    ensures { came_to told_of result answers.new.now ≡ ran (confirmed facts.now place.now) answers.old.now }
{
    if facts.seen && !is_top(place) {
        return if ends_as_gone(place) {
            is_there(answers, facts, place)
        } else {
            Ok(Ok(place))
        };
    }
    let look = ask(answers, Question::LookUp(place))?;
    if !finds_object(place, &look) {
        return Ok(Err(look_up_error(look.error)));
    }
    if is_top(place) {
        Ok(Ok(place))
    } else {
        is_there(answers, facts, place)
    }
}

/// At which names the object stands, by what the questions were answered.
///
/// Errors: EAGAIN (11), the witnesses don't agree, so the object is being moved; ENOSYS (38) of a link that isn't in
/// /proc; ENAMETOOLONG (36) of a text of more than 4,095 bytes. Any other is the answer's own. Takes no memory.
#[tactic(auto, using(dialogue::proofs::TalkLemmas::ran_then, dialogue::proofs::TalkLemmas::ran_ends), unfolding(crate::specs::Place::place))]
pub fn place<'a>(answers: &mut &[Answer<'a>], facts: &Facts) -> Asked<'a, Told<'a>>
    ensures { came_to told_of result answers.new.now ≡ ran (place facts.now) answers.old.now }
{
    let root = match link(answers, Question::RootLink)? {
        Ok(text) => text,
        Err(error) => return Ok(Err(error)),
    };
    let text = match link(answers, Question::ObjectLink)? {
        Ok(text) => text,
        Err(error) => return Ok(Err(error)),
    };
    match place_told(root, text) {
        None => Ok(Err(EAGAIN)),
        Some(place) => confirmed(answers, facts, place),
    }
}
