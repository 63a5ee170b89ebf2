//! A try by one /proc: the proved call is driven to its reply, or a place is asked for.
ghost use Rattle.std.specs.Prelude.{◌≡◌};
ghost use Rattle.dialogue.specs.Dialogue.{ran};
ghost use Rattle.call_course.specs.Course.{came_to};
ghost use Rattle.call_course.specs.Runs.{closed, conversed, done, is_left, new_run, noted, placed, replied, reply_error, by_one, took, walked};

use crate::things::{Answer, Asked, Facts, Thing, ask};
use system_calls::errors::{EAGAIN, EIO, ENOMEM};

// What the proved call's reply is, by its number.
const OPENED: u8 = 32;

const TEXT: u8 = 33;

const DONE: u8 = 34;

const COUNT: u8 = 35;

/// What a try has come to, and what is known of it.
#[derive(Clone, Copy, Debug, PartialEq, Eq)]
pub struct Run {
    /// What it gives: a descriptor, a text's length, a count, or 0.
    pub value: u64,
    /// 0, or the error by which it has failed.
    pub error: u32,
    /// The value is a descriptor that is open.
    pub holds: bool,
    pub stepped: bool,
    /// An entry was changed, and another try would not find it.
    pub changed: bool,
    pub has_proc: bool,
    pub owns_proc: bool,
}

// Nothing is known but the error that was there before, and the /proc.
fn new_run(facts: Facts, has_proc: bool, owns_proc: bool) -> Run
    ensures { result ≡ new_run facts has_proc owns_proc }
{
    Run {
        value: 0,
        error: facts.error,
        holds: false,
        stepped: false,
        changed: false,
        has_proc,
        owns_proc,
    }
}

// What a try's thing says of the try.
fn noted(facts: Facts, r: Run, a: Answer) -> Run
    ensures { result ≡ noted facts r a }
{
    Run {
        stepped: r.stepped || a.stepped,
        changed: r.changed || (a.changed && !facts.finds_again),
        has_proc: a.has_proc,
        owns_proc: r.owns_proc || a.owns_proc,
        ..r
    }
}

fn placed(r: Run, a: Answer) -> Run
    ensures { result ≡ placed r a }
{
    if a.error == 0 {
        Run {
            value: a.length,
            ..r
        }
    } else {
        Run {
            error: a.error,
            ..r
        }
    }
}

fn took(r: Run, a: Answer) -> Run
    ensures { result ≡ took r a }
{
    if a.error == 0 {
        Run {
            value: a.value,
            holds: true,
            ..r
        }
    } else {
        Run {
            error: a.error,
            ..r
        }
    }
}

// After a step that wasn't made the call fails for want of memory, and for no other reason: then by the kernel's error.
fn reply_error(a: Answer) -> u32
    ensures { result ≡ reply_error a }
{
    if a.error == 0 {
        EIO
    } else if a.error == ENOMEM && a.unmade != 0 {
        a.unmade
    } else {
        a.error
    }
}

// A call that changed an entry gives what it made, where that is asked for.
fn done(facts: Facts, r: Run, a: Answer) -> Run
    ensures { result ≡ done facts r a }
{
    if !facts.gives {
        r
    } else if a.made != 0 {
        Run {
            value: u64::from(a.made - 1),
            holds: true,
            ..r
        }
    } else if a.unopened == 0 {
        Run { error: EAGAIN, ..r }
    } else {
        Run {
            error: a.unopened,
            ..r
        }
    }
}

// A reply that opened nothing.
fn replied(facts: Facts, r: Run, a: Answer) -> Run
    ensures { result ≡ replied facts r a }
{
    match a.reply {
        DONE => done(facts, r, a),
        TEXT => Run {
            value: a.length,
            ..r
        },
        COUNT => Run {
            value: a.value,
            ..r
        },
        _ => Run {
            error: reply_error(a),
            ..r
        },
    }
}

#[tactic(auto, using(dialogue::proofs::TalkLemmas::ran_then, dialogue::proofs::TalkLemmas::ran_ends), unfolding(crate::specs::Runs::conversed))]
fn conversed(answers: &mut &[Answer], facts: Facts, r: Run, a: Answer) -> Asked<Run>
    ensures { came_to result answers.new.now ≡ ran (conversed facts r a) answers.old.now }
{
    if a.reply != OPENED {
        return Ok(replied(facts, r, a));
    }
    let taken = ask(answers, Thing::Take)?;
    Ok(took(noted(facts, r, taken), taken))
}

// What was made isn't handed out.
fn is_left(facts: Facts, a: Answer) -> bool
    ensures { result ≡ is_left facts a }
{
    a.made != 0 && !(a.reply == DONE && facts.gives)
}

#[tactic(auto, using(dialogue::proofs::TalkLemmas::ran_then, dialogue::proofs::TalkLemmas::ran_ends), unfolding(crate::specs::Runs::closed))]
fn closed(answers: &mut &[Answer], facts: Facts, a: Answer, r: Run) -> Asked<Run>
    ensures { came_to result answers.new.now ≡ ran (closed facts a r) answers.old.now }
{
    ask(answers, Thing::LetGo)?;
    if is_left(facts, a) {
        ask(answers, Thing::Close(a.made - 1))?;
    }
    Ok(r)
}

#[tactic(auto, using(dialogue::proofs::TalkLemmas::ran_then, dialogue::proofs::TalkLemmas::ran_ends), unfolding(crate::specs::Runs::walked))]
fn walked(answers: &mut &[Answer], facts: Facts, r: Run) -> Asked<Run>
    ensures { came_to result answers.new.now ≡ ran (walked facts r) answers.old.now }
{
    let a = ask(answers, Thing::Converse)?;
    let gained = conversed(answers, facts, noted(facts, r, a), a)?;
    closed(answers, facts, a, gained)
}

/// A try by one /proc. A try of a call that has failed before does nothing.
#[tactic(auto, using(dialogue::proofs::TalkLemmas::ran_then, dialogue::proofs::TalkLemmas::ran_ends), unfolding(crate::specs::Runs::by_one))]
pub(crate) fn by_one(
    answers: &mut &[Answer],
    facts: Facts,
    has_proc: bool,
    owns_proc: bool,
) -> Asked<Run>
    ensures { came_to result answers.new.now ≡ ran (by_one facts has_proc owns_proc) answers.old.now }
{
    let r = new_run(facts, has_proc, owns_proc);
    if facts.error != 0 {
        ask(answers, Thing::LetGo)?;
        return Ok(r);
    }
    if !facts.places {
        return walked(answers, facts, r);
    }
    let a = ask(answers, Thing::Place)?;
    Ok(placed(noted(facts, r, a), a))
}
