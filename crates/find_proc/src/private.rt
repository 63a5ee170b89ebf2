//! A proc(5) of the library's own, which is mounted nowhere.
ghost use Rattle.std.specs.Prelude.{◌≡◌};
ghost use Rattle.dialogue.specs.Dialogue.{asked_of, ran, ran_by};
ghost use Rattle.find_proc.specs.Private.{believed, made, made_or_copied, make_private, mounted, new_believed, opening};

use crate::asks::{Known, fails_closed};
use crate::handed::{hand_in, is_believed};
use dialogue::{Answer, Asked, Question, ask};
use system_calls::errors::{EBUSY, ENOSYS};

// What opens something.
#[tactic(auto, using(dialogue::proofs::TalkLemmas::ran_then, dialogue::proofs::TalkLemmas::ran_ends), unfolding(crate::specs::Private::opening))]
fn opened<'n>(answers: &mut &[Answer], question: Question<'n>) -> Asked<'n, Result<u32, u32>>
    ensures { ran_by (λ x. x) asked_of result answers.new.now
        ≡ ran (opening (asked_of question.entry)) answers.old.now }
{
    let opened = ask(answers, question)?;
    Ok(if opened.error == 0 {
        Ok(opened.value)
    } else {
        Err(opened.error)
    })
}

#[tactic(auto, using(dialogue::proofs::TalkLemmas::ran_then, dialogue::proofs::TalkLemmas::ran_ends), unfolding(crate::specs::Private::mounted))]
fn mounted<'n>(answers: &mut &[Answer], context: u32) -> Asked<'n, Result<u32, u32>>
    ensures { ran_by (λ x. x) asked_of result answers.new.now ≡ ran (mounted context) answers.old.now }
{
    let created = ask(answers, Question::Configure(context, false))?;
    if created.error == 0 {
        opened(answers, Question::Mount(context))
    } else {
        Ok(Err(created.error))
    }
}

// A new one, of processes alone if the kernel can (Linux 5.8).
#[tactic(auto, using(dialogue::proofs::TalkLemmas::ran_then, dialogue::proofs::TalkLemmas::ran_ends), unfolding(crate::specs::Private::made))]
fn made<'n>(answers: &mut &[Answer]) -> Asked<'n, Result<u32, u32>>
    ensures { ran_by (λ x. x) asked_of result answers.new.now ≡ ran (made) answers.old.now }
{
    let context = match opened(answers, Question::NewProc)? {
        Ok(context) => context,
        Err(error) => return Ok(Err(error)),
    };
    ask(answers, Question::Configure(context, true))?;
    let mounted = mounted(answers, context)?;
    ask(answers, Question::Close(context))?;
    Ok(mounted)
}

// It is a proc(5) that has the calling thread. What isn't is closed.
#[tactic(auto, using(dialogue::proofs::TalkLemmas::ran_then, dialogue::proofs::TalkLemmas::ran_ends), unfolding(crate::specs::Private::believed))]
fn believed<'n>(answers: &mut &[Answer], known: &Known, fd: u32) -> Asked<'n, Result<u32, u32>>
    ensures { ran_by (λ x. x) asked_of result answers.new.now ≡ ran (believed known.now fd) answers.old.now }
{
    if !is_believed(answers, known, fd)? {
        return fails_closed(answers, fd, ENOSYS);
    }
    let thread = ask(answers, Question::ReadThread(fd))?;
    if thread.error == 0 {
        Ok(Ok(fd))
    } else {
        fails_closed(answers, fd, ENOSYS)
    }
}

#[tactic(auto, using(dialogue::proofs::TalkLemmas::ran_then, dialogue::proofs::TalkLemmas::ran_ends), unfolding(crate::specs::Private::new_believed))]
fn new_believed<'n>(answers: &mut &[Answer], known: &Known) -> Asked<'n, Result<u32, u32>>
    ensures { ran_by (λ x. x) asked_of result answers.new.now ≡ ran (new_believed known.now) answers.old.now }
{
    match made(answers)? {
        Ok(fd) => believed(answers, known, fd),
        Err(error) => Ok(Err(error)),
    }
}

// A new one is made; or the one at /proc is copied, without the mounts below it. The first error counts.
#[tactic(auto, using(dialogue::proofs::TalkLemmas::ran_then, dialogue::proofs::TalkLemmas::ran_ends), unfolding(crate::specs::Private::made_or_copied))]
fn made_or_copied<'n>(answers: &mut &[Answer], known: &Known) -> Asked<'n, Result<u32, u32>>
    ensures { ran_by (λ x. x) asked_of result answers.new.now ≡ ran (made_or_copied known.now) answers.old.now }
{
    let why = match new_believed(answers, known)? {
        Ok(fd) => return Ok(Ok(fd)),
        Err(error) => error,
    };
    match opened(answers, Question::CopyProc)? {
        Ok(fd) => believed(answers, known, fd),
        Err(_) => Ok(Err(why)),
    }
}

/// Makes a proc(5) of the library's own, which nobody can mount over: a new one; or where the kernel allows none, a
/// copy of the mount at /proc. The program has it handed in.
///
/// Errors: EBUSY (16) if the program has one already; ENOSYS (38) if what was made or copied is none; the first one,
/// if neither worked; and that of handing it in.
#[tactic(auto, using(dialogue::proofs::TalkLemmas::ran_then, dialogue::proofs::TalkLemmas::ran_ends), unfolding(crate::specs::Private::make_private))]
pub fn make_private<'n>(answers: &mut &[Answer], known: &Known) -> Asked<'n, Result<(), u32>>
    ensures { ran_by (λ x. x) asked_of result answers.new.now ≡ ran (make_private known.now) answers.old.now }
{
    if known.kept.claimed {
        return Ok(Err(EBUSY));
    }
    let fd = match made_or_copied(answers, known)? {
        Ok(fd) => fd,
        Err(error) => return Ok(Err(error)),
    };
    let handed = hand_in(answers, known, fd)?;
    ask(answers, Question::Close(fd))?;
    Ok(handed)
}
