//! One question, over the answers that are left.
ghost use Rattle.std.specs.Prelude.{◌≡◌};
ghost use Rattle.dialogue.specs.Dialogue.{again, asked_of, calling, is_look, ran, ran_by};

use crate::calls::{Answer, Question};
use system_calls::errors::EINTR;

/// What came of the answers; or the system call that is due.
pub type Asked<'n, T> = Result<T, Question<'n>>;

const O_PATH: u32 = 0o10000000;

#[inline(always)]
fn is_look(question: &Question<'_>) -> bool
    ensures { result ≡ is_look (asked_of question.now) }
{
    match question {
        Question::OpenName(..)
        | Question::OpenSame(..)
        | Question::OpenAbove(..)
        | Question::LookUp(..)
        | Question::Stat(_)
        | Question::StatName(..)
        | Question::FileSystem(_)
        | Question::ReadEntries(_)
        | Question::ReadLink(_)
        | Question::ReadObjectLink(..)
        | Question::ReadThread(_)
        | Question::CopyProc => true,
        Question::Open(_, _, flags, _) => flags & O_PATH == O_PATH,
        _ => false,
    }
}

// A signal came before anything was seen. What opens for use, or changes something, is the caller's to repeat; after
// close(2) the descriptor is closed all the same.
#[inline(always)]
fn is_again(question: &Question<'_>, answer: &Answer) -> bool
    ensures { result ≡ again (asked_of question.now) answer.now }
{
    is_look(question) && answer.error == EINTR
}

/// Takes the next answer, except for signals (EINTR), after which a system call that only looks is made again; or the
/// system call is due, since it wasn't made yet.
#[tactic(auto, unfolding(crate::specs::Dialogue::ran, crate::specs::Dialogue::asking))]
#[inline(always)]
pub fn ask<'n>(answers: &mut &[Answer], question: Question<'n>) -> Asked<'n, Answer>
    ensures { ran_by (λ a. a) asked_of result answers.new.now
        ≡ ran (calling (asked_of question.entry)) answers.old.now }
{
    while let Some((answer, rest)) = answers.split_first() {
        *answers = rest;
        if !is_again(&question, answer) {
            return Ok(*answer);
        }
    }
    Err(question)
}
