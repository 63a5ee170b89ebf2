//! An entry: the directory that has it, and its name.
ghost use Rattle.std.specs.Prelude.{◌≡◌, ◌++◌, MatchOption};
ghost use Rattle.path_text.specs.declared.path.Split.{Split};
ghost use Rattle.dialogue.specs.Dialogue.{asked_of, ran, ran_by};
ghost use Rattle.root_ops.specs.Acts.{IsEntry};
ghost use Rattle.root_ops.specs.CallHistory.{IsPath};
ghost use Rattle.kernel_walks.specs.Split.{IsPartedAt, rule_of};
ghost use Rattle.kernel_calls.specs.Entry.{IsAbove, IsFront, IsNamed, IsNameless, closed_by, find_directory, leave, own_of, slashed_of};
ghost use Rattle.kernel_calls.specs.Path.{at_of, text_in};

use crate::flags::{BENEATH, O_PATH, has};
use crate::look::{Below, Outcome, walk};
use crate::path::{PathOf, unslashed};
use dialogue::{Answer, Asked, Question, ask};
use find_proc::Known;
use kernel_walks::{Parted, split};
use path_text::SLASH;

/// A directory that is open.
#[derive(Clone, Copy, Debug, PartialEq, Eq)]
pub struct Dir {
    pub fd: u32,
    /// The directory is to be closed; else it is the root.
    pub own: bool,
}

/// A path's last name, and its directory's path without the slashes at its end; none where that is the root.
#[derive(Clone, Copy)]
pub struct LastName<'n> {
    pub above: Option<PathOf<'n>>,
    pub name: &'n [u8],
}

/// Descriptors that are closed: so many.
#[repr(C)]
#[derive(Clone, Copy, Debug, PartialEq, Eq)]
pub struct Closes {
    pub first: u32,
    pub second: u32,
    pub count: u32,
}

pub const NO_CLOSES: Closes = Closes {
    first: 0,
    second: 0,
    count: 0,
};

/// What is closed behind the call's end; and whether the change is due, so that the reply is 0 if no error comes.
#[derive(Clone, Copy, Debug, PartialEq, Eq)]
pub struct Behind {
    pub closes: Closes,
    pub changes: bool,
}

pub const NOT_BEHIND: Behind = Behind {
    closes: NO_CLOSES,
    changes: false,
};

/// Where a path's last name stands in it.
#[inline(always)]
pub fn parts(path: PathOf<'_>, takes_slash: bool) -> Option<Parted>
    ensures { MatchOption result (IsNameless (text_in path.entry.slashed.now) takes_slash)
        (λ parted. (split : Split) × IsEntry (text_in path.entry.slashed.now) (rule_of takes_slash) split
        × IsPartedAt (text_in path.entry.slashed.now) split parted) }
{
    let parted = split(path.text(), takes_slash);
    if parted.error == 0 {
        Some(parted)
    } else {
        None
    }
}

#[inline(always)]
fn above<'n>(path: PathOf<'n>, parted: &Parted) -> Option<PathOf<'n>>
    ensures front { IsFront path.entry.slashed.now (slashed_of result) }
    ensures above { (split : Split) → IsPath (text_in path.entry.slashed.now)
        → IsPartedAt (text_in path.entry.slashed.now) split parted.now → IsAbove split (slashed_of result) }
{
    let end = unslashed(path.text(), parted.name);
    if end == 0 {
        None
    } else {
        Some(path.front(end))
    }
}

/// Divides a path; one without a last name isn't divided.
#[inline(always)]
pub fn named<'n>(path: PathOf<'n>, takes_slash: bool) -> Option<LastName<'n>>
    ensures { IsNamed path.entry.slashed.now takes_slash result }
{
    let parted = parts(path, takes_slash)?;
    Some(LastName {
        above: above(path, &parted),
        name: path.piece(parted.name, parted.length),
    })
}

/// Opens the directory that has the entry at a path's end. If that is the root itself no look-up is made.
#[tactic(auto, using(dialogue::proofs::TalkLemmas::ran_then, dialogue::proofs::TalkLemmas::ran_ends), unfolding(crate::specs::Entry::find_directory))]
#[inline(always)]
pub fn find_directory<'n>(
    answers: &mut &[Answer],
    known: &mut Known,
    at: &Below<'n>,
    above: Option<PathOf<'n>>,
) -> Asked<'n, Result<Dir, Outcome>>
    ensures { ran_by (λ r. record { value = r; known = known.new }) asked_of result answers.new.now
        ≡ ran (find_directory known.old (at_of at.now) (slashed_of above.entry)) answers.old.now }
{
    if has(at.flags, BENEATH) && at.path.text().first() == Some(&SLASH) {
        return Ok(Err(Outcome::Steps));
    }
    let path = match above {
        Some(path) => path,
        None => return Ok(Ok(Dir {
            fd: at.root,
            own: false,
        })),
    };
    let how = O_PATH | known.machine.directory;
    Ok(
        match walk(answers, known, &Below { path, ..*at }, how, 0)? {
            Ok(fd) => Ok(Dir { fd, own: true }),
            Err(why) => Err(why),
        },
    )
}

/// Closes the directory, unless that is done behind the call's end.
#[tactic(auto, using(dialogue::proofs::TalkLemmas::ran_then, dialogue::proofs::TalkLemmas::ran_ends), unfolding(crate::specs::Entry::leave))]
#[inline(always)]
pub fn leave<'n>(answers: &mut &[Answer], dir: Dir, is_behind: bool) -> Asked<'n, ()>
    ensures { ran_by (λ r. r) asked_of result answers.new.now ≡ ran (leave dir is_behind) answers.old.now }
{
    if dir.own && !is_behind {
        ask(answers, Question::Close(dir.fd))?;
    }
    Ok(())
}

/// What is closed behind the call's end: this directory.
#[inline(always)]
pub(crate) fn closes_of(dir: Dir) -> Closes
    ensures { closed_by result ≡ own_of dir }
{
    if dir.own {
        Closes {
            first: dir.fd,
            second: 0,
            count: 1,
        }
    } else {
        NO_CLOSES
    }
}

/// This directory, and then the other one.
#[inline(always)]
pub(crate) fn closes_of_both(one: Dir, other: Dir) -> Closes
    ensures { closed_by result ≡ own_of one ++ own_of other }
{
    if one.own && other.own {
        Closes {
            first: one.fd,
            second: other.fd,
            count: 2,
        }
    } else if one.own {
        closes_of(one)
    } else {
        closes_of(other)
    }
}
