//! A /proc that the program hands in.
ghost use Rattle.std.specs.Prelude.{◌≡◌};
ghost use Rattle.dialogue.specs.Dialogue.{asked_of, ran, ran_by};
ghost use Rattle.find_proc.specs.HandIn.{checked, copied, hand_in, is_believed};

use crate::asks::{File, Known, fails_closed, file_of, has_floor, is_proc, opened_above};
use crate::search::by_path;
use dialogue::{Answer, Asked, Question, ask};
use system_calls::errors::{EBUSY, EINVAL, ENOSYS};

// Whether it is one, or why not.
#[tactic(auto, using(dialogue::proofs::TalkLemmas::ran_then, dialogue::proofs::TalkLemmas::ran_ends), unfolding(crate::specs::HandIn::checked))]
fn checked<'n>(answers: &mut &[Answer], known: &Known, fd: u32) -> Asked<'n, Result<(), u32>>
    ensures { ran_by (λ x. x) asked_of result answers.new.now ≡ ran (checked known.now fd) answers.old.now }
{
    if !has_floor(answers, known)? {
        return Ok(Err(ENOSYS));
    }
    Ok(match is_proc(answers, fd)? {
        Ok(true) => Ok(()),
        Ok(false) => Err(EINVAL),
        Err(error) => Err(error),
    })
}

/// Whether a descriptor is of a proc(5), on a mount that follows links.
#[tactic(auto, using(dialogue::proofs::TalkLemmas::ran_then, dialogue::proofs::TalkLemmas::ran_ends), unfolding(crate::specs::HandIn::is_believed))]
pub(crate) fn is_believed<'n>(answers: &mut &[Answer], known: &Known, fd: u32) -> Asked<'n, bool>
    ensures { ran_by (λ x. x) asked_of result answers.new.now ≡ ran (is_believed known.now fd) answers.old.now }
{
    Ok(match checked(answers, known, fd)? {
        Ok(()) => true,
        Err(_) => false,
    })
}

// A copy of a proc(5): its descriptor, and which file it is.
#[tactic(auto, using(dialogue::proofs::TalkLemmas::ran_then, dialogue::proofs::TalkLemmas::ran_ends), unfolding(crate::specs::HandIn::copied))]
fn copied<'n>(
    answers: &mut &[Answer],
    known: &Known,
    fd: u32,
) -> Asked<'n, Result<(u32, File), u32>>
    ensures { ran_by (λ x. x) asked_of result answers.new.now ≡ ran (copied known.now fd) answers.old.now }
{
    match checked(answers, known, fd)? {
        Ok(()) => (),
        Err(error) => return Ok(Err(error)),
    }
    let again = Question::Open(fd, b".", by_path(known.machine.directory), 0);
    let copy = match opened_above(answers, again)? {
        Ok(copy) => copy,
        Err(error) => return Ok(Err(error)),
    };
    match file_of(answers, copy)? {
        Ok(file) => Ok(Ok((copy, file))),
        Err(error) => fails_closed(answers, copy, error),
    }
}

/// Takes a proc(5) that the program hands in, by a copy. The program's place is claimed first: a child that is made
/// from then on never goes by /proc.
///
/// Errors: EINVAL (22) of what is none, and a system call's own; then EBUSY (16) if the program has one already.
#[tactic(auto, using(dialogue::proofs::TalkLemmas::ran_then, dialogue::proofs::TalkLemmas::ran_ends), unfolding(crate::specs::HandIn::hand_in))]
pub fn hand_in<'n>(answers: &mut &[Answer], known: &Known, fd: u32) -> Asked<'n, Result<(), u32>>
    ensures { ran_by (λ x. x) asked_of result answers.new.now ≡ ran (hand_in known.now fd) answers.old.now }
{
    let claimed = ask(answers, Question::Claim(true))?.error == 0;
    let (copy, file) = match copied(answers, known, fd)? {
        Ok(copy) => copy,
        Err(error) => {
            if claimed {
                ask(answers, Question::Release)?;
            }
            return Ok(Err(error));
        }
    };
    if !claimed {
        return fails_closed(answers, copy, EBUSY);
    }
    let keep = Question::Keep(copy, file.device, file.inode, file.mount, true);
    ask(answers, keep)?;
    Ok(Ok(()))
}
