//! One pass over the path, as a dialogue.
ghost use Rattle.std.specs.Prelude.{◌≡◌};
ghost use Rattle.dialogue.specs.Dialogue.{ran, ran_by_of};
ghost use Rattle.make_through_links.specs.Asking.{asked_of, makings};
ghost use Rattle.make_through_links.specs.Pass.{create, find, look, make, make_question, pass, read_end, read_link};

use crate::asking::{Asked, Question, ask};
use crate::making::{
    Came, Making, NO_STEP, STEP_MAKE_FILE, STEP_READ_LINK, again, ended, followed, followed_at_end,
    unparted,
};
use open_or_make::{Outcome, behind, front};
use path_text::name_length;
use system_calls::errors::{EEXIST, EINVAL, EISDIR, ENOENT};

// An entry stands at the file's name.
#[tactic(auto, using(dialogue::proofs::TalkLemmas::ran_then, dialogue::proofs::TalkLemmas::ran_ends), unfolding(crate::specs::Pass::read_end))]
fn read_end<'n>(
    outcomes: &mut &[Outcome],
    making: &Making,
    path: &'n [u8],
    read: &[u8],
) -> Asked<'n, Came>
    ensures { ran_by_of makings (λ x. x) asked_of result outcomes.new.now
        ≡ ran (read_end making.now path.now read.now) outcomes.old.now }
{
    let link = ask(outcomes, Question::ReadEnd(path))?;
    if link.error == EINVAL || link.error == ENOENT {
        return Ok(again(&unparted(making)));
    }
    if link.error != 0 {
        return Ok(Came::Failed(link.error));
    }
    if !making.follows {
        return Ok(Came::Fails(ENOENT, STEP_MAKE_FILE));
    }
    if read.is_empty() {
        return Ok(again(&unparted(making)));
    }
    Ok(followed_at_end(making, path, read))
}

// The directories above the file are there by now.
#[tactic(auto, using(dialogue::proofs::TalkLemmas::ran_then, dialogue::proofs::TalkLemmas::ran_ends), unfolding(crate::specs::Pass::create))]
fn create<'n>(
    outcomes: &mut &[Outcome],
    making: &Making,
    path: &'n [u8],
    read: &[u8],
) -> Asked<'n, Came>
    ensures { ran_by_of makings (λ x. x) asked_of result outcomes.new.now
        ≡ ran (create making.now path.now read.now) outcomes.old.now }
{
    let made = ask(outcomes, Question::Create(path))?;
    if made.error == EEXIST {
        read_end(outcomes, making, path, read)
    } else {
        Ok(ended(&made))
    }
}

// So much of the directories' path is there, and the name behind that ends there.
#[tactic(auto, using(dialogue::proofs::TalkLemmas::ran_then, dialogue::proofs::TalkLemmas::ran_ends), unfolding(crate::specs::Pass::read_link))]
fn read_link<'n>(
    outcomes: &mut &[Outcome],
    making: &Making,
    path: &'n [u8],
    dir: usize,
    end: usize,
    read: &[u8],
) -> Asked<'n, Came>
    ensures { ran_by_of makings (λ x. x) asked_of result outcomes.new.now
        ≡ ran (read_link making.now path.now dir end read.now) outcomes.old.now }
{
    let above = front(path, making.above);
    let link = ask(outcomes, Question::ReadLink(front(above, end)))?;
    if link.error == EINVAL {
        return Ok(again(making));
    }
    if link.error != 0 {
        return Ok(Came::Failed(link.error));
    }
    if read.is_empty() {
        return Ok(Came::Fails(ENOENT, STEP_READ_LINK));
    }
    Ok(followed(making, path, dir, read))
}

// The directories' path leads to what is missing.
#[tactic(auto, using(dialogue::proofs::TalkLemmas::ran_then, dialogue::proofs::TalkLemmas::ran_ends), unfolding(crate::specs::Pass::look))]
fn look<'n>(
    outcomes: &mut &[Outcome],
    making: &Making,
    path: &'n [u8],
    read: &[u8],
) -> Asked<'n, Came>
    ensures { ran_by_of makings (λ x. x) asked_of result outcomes.new.now
        ≡ ran (look making.now path.now read.now) outcomes.old.now }
{
    let above = front(path, making.above);
    let there = ask(outcomes, Question::Partial(above))?;
    if there.error != 0 {
        return Ok(Came::Failed(there.error));
    }
    ask(outcomes, Question::Close(there.descriptor))?;
    let dir = there.rest as usize;
    let name = name_length(behind(above, dir));
    if name == 0 {
        return Ok(again(making));
    }
    read_link(outcomes, making, path, dir, dir + name, read)
}

fn make_question<'n>(file: bool, above: &'n [u8]) -> Question<'n>
    ensures { asked_of result ≡ make_question file above.now }
{
    if file {
        Question::MakeAbove(above)
    } else {
        Question::Make(above)
    }
}

// The directories are made.
#[tactic(auto, using(dialogue::proofs::TalkLemmas::ran_then, dialogue::proofs::TalkLemmas::ran_ends), unfolding(crate::specs::Pass::make))]
fn make<'n>(
    outcomes: &mut &[Outcome],
    making: &Making,
    path: &'n [u8],
    read: &[u8],
) -> Asked<'n, Came>
    ensures { ran_by_of makings (λ x. x) asked_of result outcomes.new.now
        ≡ ran (make making.now path.now read.now) outcomes.old.now }
{
    let above = front(path, making.above);
    let made = ask(outcomes, make_question(making.file, above))?;
    if made.error == ENOENT && making.follows && (making.file || !above.is_empty()) {
        return look(outcomes, making, path, read);
    }
    if made.error != 0 || !making.file {
        return Ok(ended(&made));
    }
    ask(outcomes, Question::Close(made.descriptor))?;
    create(outcomes, making, path, read)
}

// A file is looked for before it is made.
#[tactic(auto, using(dialogue::proofs::TalkLemmas::ran_then, dialogue::proofs::TalkLemmas::ran_ends), unfolding(crate::specs::Pass::find))]
fn find<'n>(
    outcomes: &mut &[Outcome],
    making: &Making,
    path: &'n [u8],
    read: &[u8],
) -> Asked<'n, Came>
    ensures { ran_by_of makings (λ x. x) asked_of result outcomes.new.now
        ≡ ran (find making.now path.now read.now) outcomes.old.now }
{
    let found = ask(outcomes, Question::Find(path))?;
    if found.error == 0 && found.directory {
        ask(outcomes, Question::Close(found.descriptor))?;
        return Ok(Came::Fails(EISDIR, NO_STEP));
    }
    if found.error != ENOENT || path.is_empty() {
        return Ok(ended(&found));
    }
    let parted = ask(outcomes, Question::Split(path))?;
    if parted.error != 0 {
        return Ok(Came::Fails(parted.error, NO_STEP));
    }
    let now = Making {
        above: parted.rest as usize,
        parted: true,
        ..*making
    };
    make(outcomes, &now, path, read)
}

/// One pass over the path. READ: the text that was read last. Takes no memory.
///
/// The directories of the path are made. If their path leads to what is missing, and links may be followed, it is seen
/// how much of the path is there, and the link is read that stands there. Its text takes the link's place in the path,
/// or that of all up to there if it begins with a slash. Then the next pass begins. This goes on at most 40 times.
///
/// If a file is wanted, it is looked for first. If nothing is there, the last name is taken apart, the directories
/// above are made, and then the file is. If an entry is there by then, it is read as a link, and followed like that, if
/// it may be.
///
/// If somebody came in between, so that what stood there is no link or is gone, the path is walked once more: there
/// are 32 tries at most.
///
/// Errors of its own: EISDIR (21) of a directory where a file is wanted; that of a path without a last name; ENOENT
/// (2) of a link that isn't to be followed, or has no text; ELOOP (40) of the forty-first link, and then ENAMETOOLONG
/// (36) of a path over 4,095 bytes to which a link leads; EAGAIN (11) after so many tries.
#[tactic(auto, using(dialogue::proofs::TalkLemmas::ran_then, dialogue::proofs::TalkLemmas::ran_ends), unfolding(crate::specs::Pass::pass))]
pub fn pass<'n>(
    outcomes: &mut &[Outcome],
    making: &Making,
    path: &'n [u8],
    read: &[u8],
) -> Asked<'n, Came>
    ensures { ran_by_of makings (λ x. x) asked_of result outcomes.new.now
        ≡ ran (pass making.now path.now read.now) outcomes.old.now }
{
    if making.pause > 0 {
        ask(outcomes, Question::Wait(making.pause))?;
    }
    if making.file && !making.parted {
        find(outcomes, making, path, read)
    } else {
        make(outcomes, making, path, read)
    }
}
