//! A try from its beginning to its end: another /proc, the root's own errors, and whether another try follows.
ghost use Rattle.std.specs.Prelude.{◌≡◌};
ghost use Rattle.dialogue.specs.Dialogue.{ran};
ghost use Rattle.call_course.specs.Course.{came_to};
ghost use Rattle.call_course.specs.Tries.{a_try, by_another, closing, directory_error, judged, made, may_go_by_another, over, pause_before, rooted};

use crate::runs::{Run, by_one};
use crate::things::{Answer, Asked, Facts, Thing, ask};
use system_calls::errors::{EAGAIN, ENOSYS, ENOTDIR};
use system_calls::next_try;

const DIRECTORY: u64 = 1;

/// So many tries may follow the first one.
pub const LAST: u32 = 31;

/// What a try came to.
#[derive(Clone, Copy, Debug, PartialEq, Eq)]
pub struct Tried {
    /// Where there is no error, what the call gives: a descriptor, a text's length, a count, or 0.
    pub value: u64,
    /// 0, or the error by which the try has failed.
    pub error: u32,
    /// The value is a descriptor that is open.
    pub holds: bool,
    /// The error is the root's own.
    pub is_root: bool,
    /// Another try follows. Else the call has come to this.
    pub again: bool,
}

/// The pause before a try that so many others may follow.
pub fn pause_before(left: u32) -> u32
    ensures { result ≡ pause_before left }
{
    next_try(LAST.saturating_sub(left), true, EAGAIN, false).pause
}

// It may have failed for a /proc that isn't one any more, and has changed nothing.
fn may_go_by_another(r: Run) -> bool
    ensures { result ≡ may_go_by_another r }
{
    (r.error == ENOSYS || r.error == ENOTDIR) && !r.changed && r.has_proc && !r.owns_proc
}

#[tactic(auto, using(dialogue::proofs::TalkLemmas::ran_then, dialogue::proofs::TalkLemmas::ran_ends), unfolding(crate::specs::Tries::by_another))]
fn by_another(answers: &mut &[Answer], facts: Facts, r: Run) -> Asked<Run>
    ensures { came_to result answers.new.now ≡ ran (by_another facts r) answers.old.now }
{
    if ask(answers, Thing::LookAtProc)?.error == 0 {
        return Ok(r);
    }
    let other = ask(answers, Thing::AnotherProc)?;
    if other.error != 0 {
        return Ok(Run {
            error: other.error,
            ..r
        });
    }
    by_one(answers, facts, true, other.owns_proc)
}

#[tactic(auto, using(dialogue::proofs::TalkLemmas::ran_then, dialogue::proofs::TalkLemmas::ran_ends), unfolding(crate::specs::Tries::made))]
fn made(answers: &mut &[Answer], facts: Facts) -> Asked<Run>
    ensures { came_to result answers.new.now ≡ ran (made facts) answers.old.now }
{
    let r = by_one(answers, facts, false, false)?;
    if may_go_by_another(r) {
        by_another(answers, facts, r)
    } else {
        Ok(r)
    }
}

fn over(facts: Facts, left: u32, r: Run) -> Tried
    ensures { result ≡ over facts left r }
{
    let begun = (LAST + 1).saturating_sub(left);
    Tried {
        value: r.value,
        error: r.error,
        holds: r.holds,
        is_root: false,
        again: next_try(begun, facts.may_retry && !r.changed, r.error, false).due,
    }
}

// What is wrong with a directory, as fstat(2) says it.
fn directory_error(error: u32, kind: u64) -> u32
    ensures { result ≡ directory_error error kind }
{
    if error != 0 {
        error
    } else if kind == DIRECTORY {
        0
    } else {
        ENOTDIR
    }
}

fn rooted(facts: Facts, left: u32, r: Run, a: Answer) -> Tried
    ensures { result ≡ rooted facts left r a }
{
    let error = directory_error(a.error, a.value);
    if error == 0 {
        return over(facts, left, r);
    }
    Tried {
        value: r.value,
        error,
        holds: r.holds,
        is_root: true,
        again: false,
    }
}

// Nobody has looked at the root yet where no step was made: its errors come first.
#[tactic(auto, using(dialogue::proofs::TalkLemmas::ran_then, dialogue::proofs::TalkLemmas::ran_ends), unfolding(crate::specs::Tries::judged))]
fn judged(answers: &mut &[Answer], facts: Facts, left: u32, r: Run) -> Asked<Tried>
    ensures { came_to result answers.new.now ≡ ran (judged facts left r) answers.old.now }
{
    if r.error == 0 || r.stepped {
        return Ok(over(facts, left, r));
    }
    let a = ask(answers, Thing::LookAtRoot)?;
    Ok(rooted(facts, left, r, a))
}

#[tactic(auto, using(dialogue::proofs::TalkLemmas::ran_then, dialogue::proofs::TalkLemmas::ran_ends), unfolding(crate::specs::Tries::closing))]
fn closing(answers: &mut &[Answer], facts: Facts, left: u32, r: Run) -> Asked<Tried>
    ensures { came_to result answers.new.now ≡ ran (closing facts left r) answers.old.now }
{
    if r.owns_proc {
        ask(answers, Thing::CloseProc)?;
    }
    judged(answers, facts, left, r)
}

/// A try of a call, which so many others may follow: 31 at first, and one less each time. Takes no memory.
#[tactic(auto, using(dialogue::proofs::TalkLemmas::ran_then, dialogue::proofs::TalkLemmas::ran_ends), unfolding(crate::specs::Tries::a_try))]
pub fn a_try(answers: &mut &[Answer], facts: Facts, left: u32) -> Asked<Tried>
    ensures { came_to result answers.new.now ≡ ran (a_try facts left) answers.old.now }
{
    ask(answers, Thing::Begin(pause_before(left)))?;
    let r = made(answers, facts)?;
    closing(answers, facts, left, r)
}
