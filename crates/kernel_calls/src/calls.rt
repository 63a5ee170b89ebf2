//! Calls on paths that the kernel walks: what is at the end; an entry there is made, removed or renamed.
ghost use Rattle.std.specs.Prelude.{◌≡◌, true, false};
ghost use Rattle.dialogue.specs.Dialogue.{asked_of, ran, ran_by};
ghost use Rattle.kernel_calls.specs.Calls.{EndsNext, IsBare, change_entry, ended, is_plain, left, not_renamed, rename, rename_from, rename_in, resolve, with_kind};
ghost use Rattle.kernel_calls.specs.Entry.{closed_by, named_of};
ghost use Rattle.kernel_calls.specs.Path.{at_of};

use crate::change::{Change, Wanted, make_change};
use crate::entry::{
    Behind, Dir, LastName, NOT_BEHIND, closes_of, closes_of_both, find_directory, leave,
};
use crate::flags::{O_PATH, bit};
use crate::look::{Below, Outcome, walk};
use crate::steps;
use dialogue::{Answer, Asked, Question, ask};
use find_proc::{Known, has_floor};
use linux_steps::look_error;
use path_text::TEXT_MAX;
use system_calls::kind_of;

// The kind of what was opened stands above the descriptor.
#[tactic(auto, using(dialogue::proofs::TalkLemmas::ran_then, dialogue::proofs::TalkLemmas::ran_ends), unfolding(crate::specs::Calls::with_kind))]
#[inline(never)]
fn with_kind<'n>(answers: &mut &[Answer], fd: u32) -> Asked<'n, Outcome>
    ensures { ran_by (λ r. r) asked_of result answers.new.now ≡ ran (with_kind fd) answers.old.now }
{
    let about = ask(answers, Question::Stat(fd))?;
    if look_error(&about) != 0 {
        ask(answers, Question::Close(fd))?;
        return Ok(Outcome::Steps);
    }
    let kind = kind_of(about.mode as u32);
    Ok(Outcome::Value(kind as u64 * 0x1_0000_0000 + fd as u64))
}

/// Opens what a path means: the link at its end itself, unless it FOLLOWS; only a DIRECTORY; and tells its kind, if the
/// call ASKS.
#[tactic(auto, using(dialogue::proofs::TalkLemmas::ran_then, dialogue::proofs::TalkLemmas::ran_ends), unfolding(crate::specs::Calls::resolve))]
#[inline(always)]
pub fn resolve<'n>(
    answers: &mut &[Answer],
    known: &mut Known,
    at: &Below<'n>,
    follows: bool,
    directory: bool,
    asks: bool,
) -> Asked<'n, Outcome>
    ensures { ran_by (λ r. record { value = r; known = known.new }) asked_of result answers.new.now
        ≡ ran (resolve known.old (at_of at.now) follows directory asks) answers.old.now }
{
    let last = bit(!follows, known.machine.nofollow);
    let wanted = bit(directory, known.machine.directory);
    let fd = match walk(answers, known, at, O_PATH | last | wanted, 0)? {
        Ok(fd) => fd,
        Err(why) => return Ok(why),
    };
    if asks {
        with_kind(answers, fd)
    } else {
        Ok(Outcome::Value(fd as u64))
    }
}

// ---- an entry

// A link's text is the first that is wrong of a call that makes one; and what is given must be looked at.
#[tactic(auto, using(dialogue::proofs::TalkLemmas::ran_then, dialogue::proofs::TalkLemmas::ran_ends), unfolding(crate::specs::Calls::is_plain))]
#[inline(always)]
fn is_plain<'n>(
    answers: &mut &[Answer],
    known: &Known,
    gives: bool,
    step: u8,
    text: &[u8],
) -> Asked<'n, bool>
    ensures { ran_by (λ r. r) asked_of result answers.new.now
        ≡ ran (is_plain known.now gives step text.now) answers.old.now }
{
    let is_text = !text.is_empty() && text.len() <= TEXT_MAX;
    if step == steps::MAKE_LINK && !is_text {
        return Ok(false);
    }
    if !gives {
        return Ok(true);
    }
    has_floor(answers, known)
}

/// Makes or removes the entry NAMED, by a change's STEP; TEXT is that of a link that is made, and READ what was read
/// last. If the reply ENDS the call, the directory is closed BEHIND the change.
#[tactic(auto, using(dialogue::proofs::TalkLemmas::ran_then, dialogue::proofs::TalkLemmas::ran_ends), unfolding(crate::specs::Calls::change_entry))]
#[inline(always)]
pub fn change_entry<'n>(
    answers: &mut &[Answer],
    known: &mut Known,
    at: &Below<'n>,
    named: LastName<'n>,
    wanted: &Wanted,
    step: u8,
    text: &'n [u8],
    read: &[u8],
    ends: bool,
    behind: &mut Behind,
) -> Asked<'n, Outcome>
    ensures ran { ran_by (λ r. ended known.new (closed_by behind.new.closes) r) asked_of
        result answers.new.now
        ≡ ran (change_entry known.old (at_of at.now) (named_of named.entry) wanted.now step text.now read.now ends)
        answers.old.now }
    ensures next { behind.new.changes ≡ true → IsBare wanted.now → EndsNext
        (change_entry known.old (at_of at.now) (named_of named.entry) wanted.now step text.now read.now ends)
        answers.old.now (closed_by behind.new.closes) }
{
    *behind = NOT_BEHIND;
    if !is_plain(answers, known, wanted.gives, step, text)? {
        return Ok(Outcome::Steps);
    }
    let dir = match find_directory(answers, known, at, named.above)? {
        Ok(dir) => dir,
        Err(why) => return Ok(why),
    };
    let change = Change {
        step,
        dir: dir.fd,
        name: named.name,
        other: 0,
        text,
    };
    if ends {
        *behind = Behind {
            closes: closes_of(dir),
            changes: !wanted.gives,
        };
    }
    let outcome = make_change(answers, known, wanted, &change, read)?;
    behind.changes = false;
    leave(answers, dir, ends)?;
    Ok(outcome)
}

// Where the new entry's directory can't be opened, the old one's is closed.
#[tactic(auto, using(dialogue::proofs::TalkLemmas::ran_then, dialogue::proofs::TalkLemmas::ran_ends), unfolding(crate::specs::Calls::not_renamed))]
fn not_renamed<'n>(
    answers: &mut &[Answer],
    from: Dir,
    why: Outcome,
    ends: bool,
    behind: &mut Behind,
) -> Asked<'n, Outcome>
    ensures ran { ran_by (λ r. left (closed_by behind.new.closes) r) asked_of
        result answers.new.now ≡ ran (not_renamed from why ends) answers.old.now }
    ensures next { behind.new.changes ≡ false }
{
    let is_behind = ends && why != Outcome::Steps;
    *behind = NOT_BEHIND;
    if is_behind {
        behind.closes = closes_of(from);
    }
    leave(answers, from, is_behind)?;
    Ok(why)
}

// Both directories are open.
#[tactic(auto, using(dialogue::proofs::TalkLemmas::ran_then, dialogue::proofs::TalkLemmas::ran_ends), unfolding(crate::specs::Calls::rename_in))]
fn rename_in<'n>(
    answers: &mut &[Answer],
    known: &mut Known,
    wanted: &Wanted,
    from: Dir,
    name: &'n [u8],
    to: Dir,
    new: &'n [u8],
    ends: bool,
    behind: &mut Behind,
) -> Asked<'n, Outcome>
    ensures ran { ran_by (λ r. ended known.new (closed_by behind.new.closes) r) asked_of
        result answers.new.now
        ≡ ran (rename_in known.old wanted.now from name.now to new.now ends) answers.old.now }
    ensures next { behind.new.changes ≡ true → IsBare wanted.now → EndsNext
        (rename_in known.old wanted.now from name.now to new.now ends) answers.old.now
        (closed_by behind.new.closes) }
{
    let change = Change {
        step: steps::RENAME,
        dir: from.fd,
        name,
        other: to.fd,
        text: new,
    };
    *behind = NOT_BEHIND;
    if ends {
        *behind = Behind {
            closes: closes_of_both(to, from),
            changes: true,
        };
    }
    let outcome = make_change(answers, known, wanted, &change, b"")?;
    behind.changes = false;
    leave(answers, to, ends)?;
    leave(answers, from, ends)?;
    Ok(outcome)
}

#[tactic(auto, using(dialogue::proofs::TalkLemmas::ran_then, dialogue::proofs::TalkLemmas::ran_ends), unfolding(crate::specs::Calls::rename_from))]
fn rename_from<'n>(
    answers: &mut &[Answer],
    known: &mut Known,
    wanted: &Wanted,
    from: Dir,
    name: &'n [u8],
    at: &Below<'n>,
    to: LastName<'n>,
    ends: bool,
    behind: &mut Behind,
) -> Asked<'n, Outcome>
    ensures ran { ran_by (λ r. ended known.new (closed_by behind.new.closes) r) asked_of
        result answers.new.now
        ≡ ran (rename_from known.old wanted.now from name.now (at_of at.now) (named_of to.entry) ends) answers.old.now }
    ensures next { behind.new.changes ≡ true → IsBare wanted.now → EndsNext
        (rename_from known.old wanted.now from name.now (at_of at.now) (named_of to.entry) ends) answers.old.now
        (closed_by behind.new.closes) }
{
    *behind = NOT_BEHIND;
    match find_directory(answers, known, at, to.above)? {
        Ok(dir) => rename_in(
            answers, known, wanted, from, name, dir, to.name, ends, behind,
        ),
        Err(why) => not_renamed(answers, from, why, ends, behind),
    }
}

/// Renames the entry FROM of one path to the entry TO of the other. If the reply ENDS the call, the directories are
/// closed BEHIND the change.
#[tactic(auto, using(dialogue::proofs::TalkLemmas::ran_then, dialogue::proofs::TalkLemmas::ran_ends), unfolding(crate::specs::Calls::rename))]
pub fn rename<'n>(
    answers: &mut &[Answer],
    known: &mut Known,
    at: &Below<'n>,
    from: LastName<'n>,
    other: &Below<'n>,
    to: LastName<'n>,
    wanted: &Wanted,
    ends: bool,
    behind: &mut Behind,
) -> Asked<'n, Outcome>
    ensures ran { ran_by (λ r. ended known.new (closed_by behind.new.closes) r) asked_of
        result answers.new.now
        ≡ ran (rename known.old (at_of at.now) (named_of from.entry) (at_of other.now) (named_of to.entry)
        wanted.now ends)
        answers.old.now }
    ensures next { behind.new.changes ≡ true → IsBare wanted.now → EndsNext
        (rename known.old (at_of at.now) (named_of from.entry) (at_of other.now) (named_of to.entry) wanted.now ends)
        answers.old.now (closed_by behind.new.closes) }
{
    *behind = NOT_BEHIND;
    match find_directory(answers, known, at, from.above)? {
        Ok(dir) => rename_from(
            answers, known, wanted, dir, from.name, other, to, ends, behind,
        ),
        Err(why) => Ok(why),
    }
}
