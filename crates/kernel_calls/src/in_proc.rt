//! What is done to an object by its link in /proc, if the kernel takes no descriptor that only names it.
ghost use Rattle.std.specs.Prelude.{◌≡◌};
ghost use Rattle.dialogue.specs.Dialogue.{asked_of, ran, ran_by};
ghost use Rattle.kernel_calls.specs.InProc.{act_by, act_of, act_twice, by_proc, done_in, error_or_none, failed_in, from_top, gives, tried_in, is_at_top, is_unknown, object_of, proc_error, question_of};

use dialogue::{Answer, Asked, Question, ask};
use find_proc::{AT_FDCWD, Known, find, is_lost};
use linux_steps::look_error;
use system_calls::errors::{EACCES, EBADF, ENOENT, ENOSYS, ENOTDIR, EPERM};
use system_calls::{Object, is_same_object};

const ESRCH: u32 = 3;

/// What is done: opened by these flags; given a mode; given a name in a directory; or the request's system call for
/// extended attributes.
#[derive(Clone, Copy)]
pub enum Act<'n> {
    Open(u32),
    Mode(u32),
    Link(u32, &'n [u8]),
    Attribute,
}

fn question_of<'n>(act: Act<'n>, proc: u32, fd: u32) -> Question<'n>
    ensures { asked_of result ≡ question_of (act_of act.entry) proc fd }
{
    match act {
        Act::Open(flags) => Question::OpenObject(proc, fd, flags),
        Act::Mode(mode) => Question::ChangeMode(proc, fd, mode),
        Act::Link(dir, name) => Question::Link(proc, fd, dir, name),
        Act::Attribute => Question::AttributeAt(proc, fd),
    }
}

/// What a system call gave.
#[tactic(auto, using(dialogue::proofs::TalkLemmas::ran_then, dialogue::proofs::TalkLemmas::ran_ends), unfolding(crate::specs::InProc::gives))]
#[inline(always)]
pub fn gives<'n>(answers: &mut &[Answer], question: Question<'n>) -> Asked<'n, Result<u32, u32>>
    ensures { ran_by (λ x. x) asked_of result answers.new.now
        ≡ ran (gives (asked_of question.entry)) answers.old.now }
{
    let gave = ask(answers, question)?;
    Ok(if gave.error == 0 {
        Ok(gave.value)
    } else {
        Err(gave.error)
    })
}

fn error_or_none(error: u32, is_none: bool) -> u32
    ensures { result ≡ error_or_none error is_none }
{
    if is_none { ENOSYS } else { error }
}

/// The error of a system call on a descriptor's name in a /proc. If there is no such link at all, or the number is
/// another file's by now, there is no such /proc.
#[tactic(auto, using(dialogue::proofs::TalkLemmas::ran_then, dialogue::proofs::TalkLemmas::ran_ends), unfolding(crate::specs::InProc::proc_error))]
pub fn proc_error<'n>(
    answers: &mut &[Answer],
    known: &Known,
    proc: u32,
    fd: u32,
    error: u32,
) -> Asked<'n, u32>
    ensures { ran_by (λ x. x) asked_of result answers.new.now
        ≡ ran (proc_error known.now proc fd error) answers.old.now }
{
    if error == ENOENT {
        let gave = ask(answers, Question::ReadObjectLink(proc, fd))?;
        return Ok(error_or_none(error, gave.error == ENOENT));
    }
    if error == EACCES || (error == EPERM || error == ESRCH) {
        let lost = is_lost(answers, known, proc)?;
        return Ok(error_or_none(error, lost));
    }
    Ok(error)
}

fn object_of(answer: &Answer) -> Object
    ensures { result ≡ object_of answer.now }
{
    Object {
        device: answer.device,
        inode: answer.inode,
        mount: answer.mount,
    }
}

// A filter may refuse a system call that it doesn't know by EPERM. It does so then for what is no directory, too.
#[tactic(auto, using(dialogue::proofs::TalkLemmas::ran_then, dialogue::proofs::TalkLemmas::ran_ends), unfolding(crate::specs::InProc::is_unknown))]
fn is_unknown<'n>(answers: &mut &[Answer], error: u32) -> Asked<'n, bool>
    ensures { ran_by (λ x. x) asked_of result answers.new.now ≡ ran (is_unknown error) answers.old.now }
{
    if error != EPERM {
        return Ok(error == ENOSYS);
    }
    Ok(ask(answers, Question::NoAttribute)?.error == EPERM)
}

// One that was handed in may be of the same file system, and mounted elsewhere or nowhere.
#[tactic(auto, using(dialogue::proofs::TalkLemmas::ran_then, dialogue::proofs::TalkLemmas::ran_ends), unfolding(crate::specs::InProc::is_at_top))]
fn is_at_top<'n>(answers: &mut &[Answer], proc: u32) -> Asked<'n, bool>
    ensures { ran_by (λ x. x) asked_of result answers.new.now ≡ ran (is_at_top proc) answers.old.now }
{
    let there = ask(answers, Question::StatName(AT_FDCWD, b"/proc"))?;
    if look_error(&there) != 0 {
        return Ok(false);
    }
    let here = ask(answers, Question::Stat(proc))?;
    Ok(look_error(&here) == 0 && is_same_object(&object_of(&there), &object_of(&here), false))
}

// Linux 6.13 has system calls that take a name in a directory. Before that all take a path: it begins at the top, if
// /proc there is the directory that is open, by the same mount.
#[tactic(auto, using(dialogue::proofs::TalkLemmas::ran_then, dialogue::proofs::TalkLemmas::ran_ends), unfolding(crate::specs::InProc::from_top))]
fn from_top<'n>(
    answers: &mut &[Answer],
    proc: u32,
    fd: u32,
    error: u32,
) -> Asked<'n, Result<u32, u32>>
    ensures { ran_by (λ x. x) asked_of result answers.new.now ≡ ran (from_top proc fd error) answers.old.now }
{
    if !is_unknown(answers, error)? {
        return Ok(Err(error));
    }
    if !is_at_top(answers, proc)? {
        return Ok(Err(ENOSYS));
    }
    gives(answers, Question::Attribute(fd))
}

#[tactic(auto, using(dialogue::proofs::TalkLemmas::ran_then, dialogue::proofs::TalkLemmas::ran_ends), unfolding(crate::specs::InProc::done_in))]
fn done_in<'n>(
    answers: &mut &[Answer],
    proc: u32,
    fd: u32,
    act: Act<'n>,
) -> Asked<'n, Result<u32, u32>>
    ensures { ran_by (λ x. x) asked_of result answers.new.now
        ≡ ran (done_in proc fd (act_of act.entry)) answers.old.now }
{
    let error = match gives(answers, question_of(act, proc, fd))? {
        Ok(value) => return Ok(Ok(value)),
        Err(error) => error,
    };
    match act {
        Act::Attribute => from_top(answers, proc, fd, error),
        _ => Ok(Err(error)),
    }
}

// What it gave; and whether a failure may be this /proc's.
#[tactic(auto, using(dialogue::proofs::TalkLemmas::ran_then, dialogue::proofs::TalkLemmas::ran_ends), unfolding(crate::specs::InProc::failed_in))]
fn failed_in<'n>(
    answers: &mut &[Answer],
    known: &Known,
    proc: u32,
    fd: u32,
    error: u32,
) -> Asked<'n, (Result<u32, u32>, bool)>
    ensures { ran_by (λ x. x) asked_of result answers.new.now
        ≡ ran (failed_in known.now proc fd error) answers.old.now }
{
    let why = proc_error(answers, known, proc, fd, error)?;
    if why == ENOSYS || why == ENOTDIR {
        return Ok((Err(why), is_lost(answers, known, proc)?));
    }
    Ok((Err(why), false))
}

#[tactic(auto, using(dialogue::proofs::TalkLemmas::ran_then, dialogue::proofs::TalkLemmas::ran_ends), unfolding(crate::specs::InProc::tried_in))]
fn tried_in<'n>(
    answers: &mut &[Answer],
    known: &Known,
    proc: u32,
    fd: u32,
    act: Act<'n>,
) -> Asked<'n, (Result<u32, u32>, bool)>
    ensures { ran_by (λ x. x) asked_of result answers.new.now
        ≡ ran (tried_in known.now proc fd (act_of act.entry)) answers.old.now }
{
    match done_in(answers, proc, fd, act)? {
        Ok(value) => Ok((Ok(value), false)),
        Err(error) => failed_in(answers, known, proc, fd, error),
    }
}

// By a /proc that is at hand, or SURELY by one that was checked. One of the call's own is closed.
#[tactic(auto, using(dialogue::proofs::TalkLemmas::ran_then, dialogue::proofs::TalkLemmas::ran_ends), unfolding(crate::specs::InProc::act_by))]
fn act_by<'n>(
    answers: &mut &[Answer],
    known: &mut Known,
    fd: u32,
    act: Act<'n>,
    surely: bool,
) -> Asked<'n, (Result<u32, u32>, bool)>
    ensures { ran_by (λ r. record { value = r; known = known.new }) asked_of result answers.new.now
        ≡ ran (act_by known.old fd (act_of act.entry) surely) answers.old.now }
{
    let proc = match find(answers, known, surely)? {
        Ok(proc) => proc,
        Err(error) => return Ok((Err(error), false)),
    };
    let done = tried_in(answers, known, proc.fd, fd, act)?;
    if proc.own {
        ask(answers, Question::Close(proc.fd))?;
    }
    Ok(done)
}

// The same once more by one that was checked, if somebody closed the program's.
#[tactic(auto, using(dialogue::proofs::TalkLemmas::ran_then, dialogue::proofs::TalkLemmas::ran_ends), unfolding(crate::specs::InProc::act_twice))]
fn act_twice<'n>(
    answers: &mut &[Answer],
    known: &mut Known,
    fd: u32,
    act: Act<'n>,
) -> Asked<'n, Result<u32, u32>>
    ensures { ran_by (λ r. record { value = r; known = known.new }) asked_of result answers.new.now
        ≡ ran (act_twice known.old fd (act_of act.entry)) answers.old.now }
{
    let (first, lost) = act_by(answers, known, fd, act, false)?;
    if !lost {
        return Ok(first);
    }
    let (again, _) = act_by(answers, known, fd, act, true)?;
    Ok(again)
}

/// Does it to the object of a descriptor: what that gave, or an error. EBADF: it is none; ENOSYS: there is no /proc.
#[tactic(auto, using(dialogue::proofs::TalkLemmas::ran_then, dialogue::proofs::TalkLemmas::ran_ends), unfolding(crate::specs::InProc::by_proc))]
pub fn by_proc<'n>(
    answers: &mut &[Answer],
    known: &mut Known,
    fd: u32,
    act: Act<'n>,
) -> Asked<'n, Result<u32, u32>>
    ensures { ran_by (λ r. record { value = r; known = known.new }) asked_of result answers.new.now
        ≡ ran (by_proc known.old fd (act_of act.entry)) answers.old.now }
{
    let error = match act_twice(answers, known, fd, act)? {
        Ok(value) => return Ok(Ok(value)),
        Err(error) => error,
    };
    if error == ENOSYS && ask(answers, Question::IsOpen(fd))?.error != 0 {
        return Ok(Err(EBADF));
    }
    Ok(Err(error))
}
