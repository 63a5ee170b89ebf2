//! One look-up by the kernel, which walks a path as a whole.
ghost use Rattle.std.specs.Prelude.{◌≡◌};
ghost use Rattle.std.specs.List.{list_all};
ghost use Rattle.dialogue.specs.Dialogue.{asked_of, ran, ran_by};
ghost use Rattle.kernel_calls.specs.Look.{forget, is_missing, is_slash, look_up, may_walk, openat2, opened, walk};
ghost use Rattle.kernel_calls.specs.Path.{at_of};

use crate::flags::{BENEATH, NO_LINKS, O_CLOEXEC, O_PATH, RESOLVE_NO_SYMLINKS, has, resolve_of};
use crate::path::PathOf;
use crate::steps;
use dialogue::{Answer, Asked, Question, ask};
use find_proc::Known;
use kernel_walks::{follows_at_once, misses_at_once};
use path_text::{Flags, SLASH};
use system_calls::errors::{EACCES, EINTR, ENOENT, ENOSYS, EPERM};

/// A path below a root, by flags of inroot.h.
#[derive(Clone, Copy)]
pub struct Below<'n> {
    pub root: u32,
    pub flags: u32,
    pub path: PathOf<'n>,
    /// The first answer is that of this path's look-up: so the path was looked at before.
    pub looked: bool,
}

/// What a call by the kernel's walk comes to.
#[derive(Clone, Copy, Debug, PartialEq, Eq)]
pub enum Outcome {
    /// A descriptor, or 0 if nothing is given. Above the descriptor stands the kind, if the call asks for that.
    Value(u64),
    /// An error (errno(3)), and the step to blame.
    Fails(u32, u8),
    /// The same, about the entry's name.
    FailsAt(u32, u8),
    /// Single steps are to make the call.
    Steps,
}

fn is_slashes(text: &[u8]) -> bool
    ensures { result ≡ list_all is_slash text.now }
{
    text.iter().all(|byte| *byte == SLASH)
}

// For a path of slashes alone the kernel doesn't search the root, as the steps do.
#[inline(always)]
fn may_walk(at: &Below<'_>) -> bool
    ensures { result ≡ may_walk (at_of at.now) }
{
    let flags = Flags {
        beneath: has(at.flags, BENEATH),
        no_links: has(at.flags, NO_LINKS),
    };
    let text = at.path.text();
    !is_slashes(text) && follows_at_once(flags, text)
}

/// An error of openat2(2) that a filter may give has the thread forget that the kernel has openat2(2).
#[tactic(auto, using(dialogue::proofs::TalkLemmas::ran_then, dialogue::proofs::TalkLemmas::ran_ends), unfolding(crate::specs::Look::forget))]
#[inline(always)]
pub fn forget<'n>(answers: &mut &[Answer], known: &mut Known, error: u32) -> Asked<'n, ()>
    ensures { ran_by (λ _. known.new) asked_of result answers.new.now
        ≡ ran (forget known.old error) answers.old.now }
{
    if error == ENOSYS || error == EPERM || error == EACCES {
        if known.has_floor {
            ask(answers, Question::Know(false))?;
        }
        known.has_floor = false;
    }
    Ok(())
}

/// openat2(2).
#[tactic(auto, using(dialogue::proofs::TalkLemmas::ran_then, dialogue::proofs::TalkLemmas::ran_ends), unfolding(crate::specs::Look::opened))]
#[inline(always)]
pub fn opened<'n>(
    answers: &mut &[Answer],
    known: &mut Known,
    question: Question<'n>,
) -> Asked<'n, Result<u32, u32>>
    ensures { ran_by (λ r. record { value = r; known = known.new }) asked_of result answers.new.now
        ≡ ran (opened known.old (asked_of question.entry)) answers.old.now }
{
    let opened = ask(answers, question)?;
    if opened.error == 0 {
        return Ok(Ok(opened.value));
    }
    forget(answers, known, opened.error)?;
    Ok(Err(opened.error))
}

/// openat2(2) of a path in a directory.
#[inline(always)]
pub fn openat2<'n>(dir: u32, path: &'n [u8], how: u32, mode: u32, resolve: u32) -> Question<'n>
    ensures { asked_of result ≡ openat2 dir path.now how mode resolve }
{
    if has(how, O_PATH) {
        Question::LookUp(dir, path, how, resolve)
    } else {
        Question::OpenPath(dir, path, how | O_CLOEXEC, mode, resolve)
    }
}

/// What the look-up opens, by flags of open(2); or an error, 0 where the kernel may not walk the path.
#[tactic(auto, using(dialogue::proofs::TalkLemmas::ran_then, dialogue::proofs::TalkLemmas::ran_ends), unfolding(crate::specs::Look::look_up))]
#[inline(always)]
pub fn look_up<'n>(
    answers: &mut &[Answer],
    known: &mut Known,
    at: &Below<'n>,
    how: u32,
    mode: u32,
) -> Asked<'n, Result<u32, u32>>
    ensures { ran_by (λ r. record { value = r; known = known.new }) asked_of result answers.new.now
        ≡ ran (look_up known.old (at_of at.now) how mode) answers.old.now }
{
    if !at.looked && !may_walk(at) {
        return Ok(Err(0));
    }
    let question = openat2(at.root, at.path.text(), how, mode, resolve_of(at.flags));
    opened(answers, known, question)
}

// Of a path of names alone: whether one of them is missing, and no link's target.
#[tactic(auto, using(dialogue::proofs::TalkLemmas::ran_then, dialogue::proofs::TalkLemmas::ran_ends), unfolding(crate::specs::Look::is_missing))]
#[inline(never)]
fn is_missing<'n>(answers: &mut &[Answer], known: &mut Known, at: &Below<'n>) -> Asked<'n, bool>
    ensures { ran_by (λ r. record { value = r; known = known.new }) asked_of result answers.new.now
        ≡ ran (is_missing known.old (at_of at.now)) answers.old.now }
{
    if !misses_at_once(has(at.flags, BENEATH), at.path.text(), at.path.place()) {
        return Ok(false);
    }
    let resolve = resolve_of(at.flags) | RESOLVE_NO_SYMLINKS;
    let question = openat2(at.root, at.path.text(), O_PATH, 0, resolve);
    match opened(answers, known, question)? {
        Ok(fd) => {
            ask(answers, Question::Close(fd))?;
            Ok(false)
        }
        Err(error) => Ok(error == ENOENT),
    }
}

/// Opens what a path means by flags of open(2), or says why not; by single steps, where the kernel may not go that
/// way. A signal ends an opening for use alone.
#[tactic(auto, using(dialogue::proofs::TalkLemmas::ran_then, dialogue::proofs::TalkLemmas::ran_ends), unfolding(crate::specs::Look::walk))]
#[inline(always)]
pub fn walk<'n>(
    answers: &mut &[Answer],
    known: &mut Known,
    at: &Below<'n>,
    how: u32,
    mode: u32,
) -> Asked<'n, Result<u32, Outcome>>
    ensures { ran_by (λ r. record { value = r; known = known.new }) asked_of result answers.new.now
        ≡ ran (walk known.old (at_of at.now) how mode) answers.old.now }
{
    let error = match look_up(answers, known, at, how, mode)? {
        Ok(fd) => return Ok(Ok(fd)),
        Err(error) => error,
    };
    if error == EINTR {
        return Ok(Err(Outcome::Fails(EINTR, steps::REOPEN)));
    }
    if error == ENOENT && is_missing(answers, known, at)? {
        return Ok(Err(Outcome::Fails(ENOENT, steps::OPEN)));
    }
    Ok(Err(Outcome::Steps))
}
