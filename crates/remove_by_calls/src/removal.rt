//! One call of a removal, and what follows it, as a dialogue.
ghost use Rattle.std.specs.Prelude.{◌≡◌};
ghost use Rattle.dialogue.specs.Dialogue.{ran};
ghost use Rattle.remove_by_calls.specs.Removal.{a_call, again, all_closed, at_root, begun, call_at_root, call_in_place, called, came_to, crowded, done, in_place, inner, inner_closed, kept_one, outer_closed, pause_before, place_at, tried};

use crate::answers::{Answer, Met, met_of};
use crate::asking::{Asked, Question, ask};
use system_calls::errors::EAGAIN;
use system_calls::next_try;

// A table has so many places.
const PLACES: u8 = 16;

// A count that a program can be given: of 63 bits.
const COUNT_MAX: u64 = 0x7fff_ffff_ffff_ffff;

/// How far a removal has come before a call. The driver keeps it, beside a table of 16 places, whose numbers are 0 to
/// 15.
#[derive(Clone, Copy, Debug, PartialEq, Eq)]
pub struct Removal {
    /// So many entries were removed, if they are fewer than 9,223,372,036,854,775,807.
    pub removed: u64,
    /// So many times in a row a call at the root, with those in places behind it, has removed nothing.
    pub idle: u32,
    /// The number of the outermost place that is kept.
    pub outermost: u8,
    /// So many places are kept, with numbers that follow one another; 0 follows 15.
    pub kept: u8,
}

/// What a call has come to, with what followed it.
#[derive(Clone, Copy, Debug, PartialEq, Eq)]
pub enum Came {
    /// The entry is gone, and so many entries were removed in all.
    Removed(u64),
    /// It failed by this error (errno(3)).
    Fails(u32),
    /// Another call follows.
    Again(Removal),
}

// ---- what is kept of a removal

// The place so many further in than the outermost one.
fn place_at(removal: &Removal, further: u8) -> u8
    ensures { result ≡ place_at removal.now further }
{
    ((u32::from(removal.outermost) + u32::from(further)) % 16) as u8
}

fn inner(removal: &Removal) -> u8
    ensures { result ≡ inner removal.now }
{
    place_at(removal, removal.kept.saturating_sub(1))
}

// A call at the root is one more try.
fn tried(removal: Removal) -> Removal
    ensures { result ≡ tried removal }
{
    Removal {
        idle: removal.idle.saturating_add(1),
        ..removal
    }
}

// A call removed so many.
fn called(removal: Removal, removed: u64) -> Removal
    ensures { result ≡ called removal removed }
{
    Removal {
        removed: removal.removed.saturating_add(removed).min(COUNT_MAX),
        idle: if removed > 0 { 0 } else { removal.idle },
        ..removal
    }
}

// ---- places are kept and closed

#[tactic(auto, using(dialogue::proofs::TalkLemmas::ran_then, dialogue::proofs::TalkLemmas::ran_ends), unfolding(crate::specs::Removal::kept_one))]
fn kept_one(answers: &mut &[Answer], removal: Removal) -> Asked<Came>
    ensures { came_to result answers.new.now ≡ ran (kept_one removal) answers.old.now }
{
    ask(answers, Question::Keep(place_at(&removal, removal.kept)))?;
    Ok(Came::Again(Removal {
        kept: removal.kept.saturating_add(1),
        ..removal
    }))
}

#[tactic(auto, using(dialogue::proofs::TalkLemmas::ran_then, dialogue::proofs::TalkLemmas::ran_ends), unfolding(crate::specs::Removal::inner_closed))]
fn inner_closed(answers: &mut &[Answer], removal: Removal) -> Asked<Removal>
    ensures { came_to result answers.new.now ≡ ran (inner_closed removal) answers.old.now }
{
    ask(answers, Question::Close(inner(&removal)))?;
    Ok(Removal {
        kept: removal.kept.saturating_sub(1),
        ..removal
    })
}

#[tactic(auto, using(dialogue::proofs::TalkLemmas::ran_then, dialogue::proofs::TalkLemmas::ran_ends), unfolding(crate::specs::Removal::outer_closed))]
fn outer_closed(answers: &mut &[Answer], removal: Removal) -> Asked<Removal>
    ensures { came_to result answers.new.now ≡ ran (outer_closed removal) answers.old.now }
{
    ask(answers, Question::Close(removal.outermost))?;
    Ok(Removal {
        outermost: place_at(&removal, 1),
        kept: removal.kept.saturating_sub(1),
        ..removal
    })
}

#[tactic(auto, using(dialogue::proofs::TalkLemmas::ran_then, dialogue::proofs::TalkLemmas::ran_ends), unfolding(crate::specs::Removal::all_closed))]
fn all_closed(answers: &mut &[Answer], removal: Removal) -> Asked<Removal>
    ensures { came_to result answers.new.now ≡ ran (all_closed removal removal.kept) answers.old.now }
{
    let mut left = removal.kept;
    while left > 0 {
        left -= 1;
        ask(answers, Question::Close(place_at(&removal, left)))?;
    }
    Ok(Removal { kept: 0, ..removal })
}

// ---- what follows a call

fn again(may_retry: bool, removal: Removal, error: u32) -> Came
    ensures { result ≡ again may_retry removal error }
{
    if next_try(removal.idle, may_retry, error, false).due {
        Came::Again(removal)
    } else {
        Came::Fails(error)
    }
}

fn done(may_retry: bool, removal: Removal) -> Came
    ensures { result ≡ done may_retry removal }
{
    if removal.kept == 0 && removal.idle != 0 {
        again(may_retry, removal, EAGAIN)
    } else {
        Came::Again(removal)
    }
}

fn crowded(may_retry: bool, error: u32, removal: Removal) -> Came
    ensures { result ≡ crowded may_retry error removal }
{
    if removal.kept == 0 {
        again(may_retry, removal, error)
    } else {
        Came::Again(removal)
    }
}

#[tactic(auto, using(dialogue::proofs::TalkLemmas::ran_then, dialogue::proofs::TalkLemmas::ran_ends), unfolding(crate::specs::Removal::at_root))]
fn at_root(answers: &mut &[Answer], may_retry: bool, removal: Removal, met: Met) -> Asked<Came>
    ensures { came_to result answers.new.now ≡ ran (at_root may_retry removal met) answers.old.now }
{
    match met {
        Met::Gone => Ok(Came::Removed(removal.removed)),
        Met::Deeper => kept_one(answers, removal),
        Met::Bound => Ok(Came::Again(removal)),
        Met::Crowded(error) => Ok(again(may_retry, removal, error)),
        Met::Failed(error) => Ok(again(may_retry, removal, error)),
    }
}

#[tactic(auto, using(dialogue::proofs::TalkLemmas::ran_then, dialogue::proofs::TalkLemmas::ran_ends), unfolding(crate::specs::Removal::in_place))]
fn in_place(answers: &mut &[Answer], may_retry: bool, removal: Removal, met: Met) -> Asked<Came>
    ensures { came_to result answers.new.now ≡ ran (in_place may_retry removal met) answers.old.now }
{
    match met {
        Met::Gone => {
            let left = inner_closed(answers, removal)?;
            Ok(done(may_retry, left))
        }
        Met::Deeper => {
            if removal.kept == PLACES {
                let left = outer_closed(answers, removal)?;
                return kept_one(answers, left);
            }
            kept_one(answers, removal)
        }
        Met::Bound => Ok(Came::Again(removal)),
        Met::Crowded(error) => {
            let left = outer_closed(answers, removal)?;
            Ok(crowded(may_retry, error, left))
        }
        Met::Failed(error) => {
            let left = all_closed(answers, removal)?;
            Ok(again(may_retry, left, error))
        }
    }
}

// ---- a call, and what follows it

fn pause_before(removal: &Removal) -> u32
    ensures { result ≡ pause_before removal.now }
{
    next_try(removal.idle, true, EAGAIN, false).pause
}

#[tactic(auto, using(dialogue::proofs::TalkLemmas::ran_then, dialogue::proofs::TalkLemmas::ran_ends), unfolding(crate::specs::Removal::call_at_root))]
fn call_at_root(answers: &mut &[Answer], may_retry: bool, removal: &Removal) -> Asked<Came>
    ensures { came_to result answers.new.now ≡ ran (call_at_root may_retry removal.now) answers.old.now }
{
    let a = ask(answers, Question::AtRoot(pause_before(removal)))?;
    let now = called(tried(*removal), a.removed);
    at_root(answers, may_retry, now, met_of(&a))
}

#[tactic(auto, using(dialogue::proofs::TalkLemmas::ran_then, dialogue::proofs::TalkLemmas::ran_ends), unfolding(crate::specs::Removal::call_in_place))]
fn call_in_place(answers: &mut &[Answer], may_retry: bool, removal: &Removal) -> Asked<Came>
    ensures { came_to result answers.new.now ≡ ran (call_in_place may_retry removal.now) answers.old.now }
{
    let a = ask(answers, Question::InPlace(inner(removal)))?;
    let now = called(*removal, a.removed);
    in_place(answers, may_retry, now, met_of(&a))
}

/// Begins a removal. Takes no memory.
pub fn begin() -> Removal
    ensures { result ≡ begun }
{
    Removal {
        removed: 0,
        idle: 0,
        outermost: 0,
        kept: 0,
    }
}

/// A call of a removal, and what follows it: which may be tried again or not if somebody comes in between. Takes no
/// memory.
///
/// A call that came to a place is followed by one in this place. If a call in a place has removed what was there, the
/// place is closed, and a call in the one around it follows. If no place is left, a call at the root follows, which
/// says in the end that the entry is gone. A call that ended by its bound of steps is made once more, if it removed
/// something. If all 16 places are kept, or no descriptor is left for a call in a place and others are kept, the
/// outermost one is closed.
///
/// Any other error ends it, once each place is closed: the last call's own, or EAGAIN (11) if neither the last call at
/// the root nor any in a place since has removed anything, though nothing failed. Where it may be tried again, EAGAIN
/// doesn't end it, unless that came 32 times in a row.
#[tactic(auto, using(dialogue::proofs::TalkLemmas::ran_then, dialogue::proofs::TalkLemmas::ran_ends), unfolding(crate::specs::Removal::a_call))]
pub fn a_call(answers: &mut &[Answer], may_retry: bool, removal: &Removal) -> Asked<Came>
    ensures { came_to result answers.new.now ≡ ran (a_call may_retry removal.now) answers.old.now }
{
    if removal.kept == 0 {
        call_at_root(answers, may_retry, removal)
    } else {
        call_in_place(answers, may_retry, removal)
    }
}
