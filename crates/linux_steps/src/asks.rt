//! What each step asks for.
ghost use Rattle.std.specs.Prelude.{◌≡◌};
ghost use Rattle.dialogue.specs.Dialogue.{asked_of, ran, ran_by};
ghost use Rattle.linux_steps.specs.Steps.{by_path, closing, kind_by_mode, opening, look_error};

use dialogue::{Answer, Asked, How, Question, ask};
use system_calls::errors::ENOSYS;
use system_calls::kind_of;
use tree_model::Kind;

/// Opens a place in the tree: O_PATH, O_NOFOLLOW.
pub(crate) fn by_path(directory: bool, no_xdev: bool) -> How
    ensures { result ≡ by_path directory no_xdev }
{
    How {
        path: true,
        directory,
        no_follow: true,
        no_xdev,
    }
}

#[tactic(auto, using(dialogue::proofs::TalkLemmas::ran_then, dialogue::proofs::TalkLemmas::ran_ends), unfolding(crate::specs::Steps::opening))]
pub(crate) fn opened<'n>(
    answers: &mut &[Answer],
    question: Question<'n>,
) -> Asked<'n, Result<u32, u32>>
    ensures { ran_by (λ x. x) asked_of result answers.new.now
        ≡ ran (opening (asked_of question.entry)) answers.old.now }
{
    let answer = ask(answers, question)?;
    Ok(if answer.error == 0 {
        Ok(answer.value)
    } else {
        Err(answer.error)
    })
}

#[tactic(auto, using(dialogue::proofs::TalkLemmas::ran_then, dialogue::proofs::TalkLemmas::ran_ends), unfolding(crate::specs::Steps::closing))]
pub(crate) fn close<'n>(answers: &mut &[Answer], fd: u32) -> Asked<'n, ()>
    ensures { ran_by (λ x. x) asked_of result answers.new.now ≡ ran (closing fd) answers.old.now }
{
    ask(answers, Question::Close(fd))?;
    Ok(())
}

/// Why statx(2) told nothing of an object, or 0. If a filter refuses statx(2), a C library may give what fstat(2) says;
/// or a filter says that the call was made, which then was not.
pub fn look_error(about: &Answer) -> u32
    ensures { result ≡ look_error about.now }
{
    if about.error == 0 && !about.has_mount {
        ENOSYS
    } else {
        about.error
    }
}

pub(crate) fn kind_by_mode(mode: u16) -> Kind
    ensures { result ≡ kind_by_mode mode }
{
    match kind_of(mode as u32) {
        1 => Kind::Dir,
        3 => Kind::Link,
        _ => Kind::File,
    }
}
