//! How far a call has come, and one pass over its path, as a dialogue.
ghost use Rattle.std.specs.Prelude.{◌≡◌};
ghost use Rattle.dialogue.specs.Dialogue.{ran, ran_by_of};
ghost use Rattle.open_or_make.specs.Pass.{begin, between, create, ended, find, led, make_missing, openings, pass, read_link};

use crate::asking::{Asked, Outcome, Question, ask};
use crate::paths::kept_length;
use path_text::TEXT_MAX;
use system_calls::errors::{EAGAIN, EEXIST, EINVAL, ELOOP, ENAMETOOLONG, ENOENT};
use system_calls::{Opening, next_try};

// So many links are followed.
const LINKS: u32 = 40;

// The steps of a call have these numbers.
const NO_STEP: u8 = 0;

const STEP_READ_LINK: u8 = 4;

const STEP_MAKE_FILE: u8 = 9;

/// How far a call has come before a pass. The driver keeps it, beside a room of bytes that has the path at its
/// beginning.
#[repr(C)]
#[derive(Clone, Copy, Debug, PartialEq, Eq)]
pub struct Course {
    /// So many bytes of the room are the path.
    pub length: usize,
    /// So many links were followed.
    pub links: u32,
    /// So many times somebody came in between, if they are fewer than 4,294,967,295.
    pub between: u32,
    /// The error of the flags (errno(3)), by which no call is made; or 0.
    pub error: u8,
    /// What is there is looked for.
    pub finds: bool,
    /// What is missing is made.
    pub makes: bool,
    /// A link at the path's end may be followed.
    pub follows: bool,
    /// Where somebody comes in between, another try may be made.
    pub may_retry: bool,
    /// Somebody came in between just now.
    pub again: bool,
}

/// How a pass ends.
#[derive(Clone, Copy, Debug, PartialEq, Eq)]
pub enum Came {
    /// The reply is this descriptor.
    Given(u32),
    /// The reply is the last call's error.
    Failed(u32),
    /// The reply is an error of its own, at a step: 4 to read a link, 9 to make a file; or 0, before any call.
    Fails(u32, u8),
    /// The path is looked at once more.
    Again(Course),
    /// A link's text stands behind so many bytes of the path, in the place of what comes there (`lay_link`).
    Led(Course, usize),
}

/// Begins a call on a path of so many bytes: what it does by the flags of open(2), in which no link is read if links
/// are refused; and whether it may be tried again if somebody comes in between. Takes no memory.
pub fn begin(length: usize, opening: &Opening, no_links: bool, may_retry: bool) -> Course
    ensures { result ≡ begin length opening.now no_links may_retry }
{
    Course {
        length,
        links: 0,
        between: 0,
        error: opening.error,
        finds: opening.finds,
        makes: opening.makes,
        follows: opening.follows && !no_links,
        may_retry,
        again: false,
    }
}

// The reply is what the last call gave.
fn ended(outcome: &Outcome) -> Came
    ensures { result ≡ ended outcome.now }
{
    if outcome.error == 0 {
        Came::Given(outcome.descriptor)
    } else {
        Came::Failed(outcome.error)
    }
}

// Somebody came in between: the path is looked at once more.
fn between(course: &Course) -> Came
    ensures { result ≡ between course.now }
{
    Came::Again(Course {
        between: course.between.saturating_add(1),
        again: true,
        ..*course
    })
}

// A link is there, which has this text: the path to which it leads takes the place of the path.
fn led(course: &Course, path: &[u8], text: &[u8]) -> Came
    ensures { result ≡ led course.now path.now text.now }
{
    let kept = kept_length(path, text);
    let length = kept + text.len();
    if length > TEXT_MAX {
        return Came::Fails(ENAMETOOLONG, STEP_READ_LINK);
    }
    if course.links >= LINKS {
        return Came::Fails(ELOOP, STEP_READ_LINK);
    }
    let now = Course {
        length,
        links: course.links + 1,
        again: false,
        ..*course
    };
    Came::Led(now, kept)
}

// An entry stands there, which may be a link.
#[tactic(auto, using(dialogue::proofs::TalkLemmas::ran_then, dialogue::proofs::TalkLemmas::ran_ends), unfolding(crate::specs::Pass::read_link))]
fn read_link(outcomes: &mut &[Outcome], course: &Course, path: &[u8], read: &[u8]) -> Asked<Came>
    ensures { ran_by_of openings (λ x. x) (λ q. q) result outcomes.new.now
        ≡ ran (read_link course.now path.now read.now) outcomes.old.now }
{
    let link = ask(outcomes, Question::ReadLink)?;
    if link.error == EINVAL || link.error == ENOENT {
        return Ok(between(course));
    }
    if link.error != 0 {
        return Ok(Came::Failed(link.error));
    }
    if read.is_empty() {
        return Ok(between(course));
    }
    Ok(led(course, path, read))
}

// What is missing is made.
#[tactic(auto, using(dialogue::proofs::TalkLemmas::ran_then, dialogue::proofs::TalkLemmas::ran_ends), unfolding(crate::specs::Pass::create))]
fn create(outcomes: &mut &[Outcome], course: &Course, path: &[u8], read: &[u8]) -> Asked<Came>
    ensures { ran_by_of openings (λ x. x) (λ q. q) result outcomes.new.now
        ≡ ran (create course.now path.now read.now) outcomes.old.now }
{
    let made = ask(outcomes, Question::Create)?;
    if made.error != EEXIST || !course.finds {
        return Ok(ended(&made));
    }
    if !course.follows {
        return Ok(between(course));
    }
    read_link(outcomes, course, path, read)
}

// Nothing is there. If somebody has just come in between, to make it takes another try.
#[tactic(auto, using(dialogue::proofs::TalkLemmas::ran_then, dialogue::proofs::TalkLemmas::ran_ends), unfolding(crate::specs::Pass::make_missing))]
fn make_missing(outcomes: &mut &[Outcome], course: &Course, path: &[u8], read: &[u8]) -> Asked<Came>
    ensures { ran_by_of openings (λ x. x) (λ q. q) result outcomes.new.now
        ≡ ran (make_missing course.now path.now read.now) outcomes.old.now }
{
    if course.again {
        let again = next_try(course.between, course.may_retry, EAGAIN, false);
        if !again.due {
            return Ok(Came::Fails(EAGAIN, STEP_MAKE_FILE));
        }
        if again.pause > 0 {
            ask(outcomes, Question::Wait(again.pause))?;
        }
    }
    create(outcomes, course, path, read)
}

#[tactic(auto, using(dialogue::proofs::TalkLemmas::ran_then, dialogue::proofs::TalkLemmas::ran_ends), unfolding(crate::specs::Pass::find))]
fn find(outcomes: &mut &[Outcome], course: &Course, path: &[u8], read: &[u8]) -> Asked<Came>
    ensures { ran_by_of openings (λ x. x) (λ q. q) result outcomes.new.now
        ≡ ran (find course.now path.now read.now) outcomes.old.now }
{
    let found = ask(outcomes, Question::Find)?;
    if found.error != ENOENT || !course.makes {
        return Ok(ended(&found));
    }
    make_missing(outcomes, course, path, read)
}

/// One pass over the path. READ: the text that was read last. Takes no memory.
///
/// If what is there is only looked for, one call finds it. If what is made must be missing, one call makes it. Else, if
/// nothing is found, a file is made. If an entry is there by then, and a link may be followed, the link there is read,
/// and the next pass is over the path to which it leads, at most 40 times. If somebody came in between, so that what
/// stood there is no link or is gone, the path is looked at once more: there are 32 tries at most.
///
/// Errors of its own: that of the flags; ENAMETOOLONG (36) of a path over 4,095 bytes to which a link leads, and then
/// ELOOP (40) of the forty-first link; EAGAIN (11) after so many tries.
#[tactic(auto, using(dialogue::proofs::TalkLemmas::ran_then, dialogue::proofs::TalkLemmas::ran_ends), unfolding(crate::specs::Pass::pass))]
pub fn pass(outcomes: &mut &[Outcome], course: &Course, path: &[u8], read: &[u8]) -> Asked<Came>
    ensures { ran_by_of openings (λ x. x) (λ q. q) result outcomes.new.now
        ≡ ran (pass course.now path.now read.now) outcomes.old.now }
{
    if course.error != 0 {
        return Ok(Came::Fails(u32::from(course.error), NO_STEP));
    }
    if course.finds {
        find(outcomes, course, path, read)
    } else {
        create(outcomes, course, path, read)
    }
}
