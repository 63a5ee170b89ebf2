//! A name in a directory, or the directory once more.
ghost use Rattle.std.specs.Prelude.{◌≡◌};
ghost use Rattle.dialogue.specs.Dialogue.{asked_of, ran, ran_by};
ghost use Rattle.linux_steps.specs.Steps.{by_kind, close_step, dup_step, missing, open_any, open_step};

use crate::asks::{by_path, close, kind_by_mode, look_error, opened};
use crate::ended::Ended;
use dialogue::{Answer, Asked, Question, ask};
use path_text::Errno;
use system_calls::errors::{ENOENT, ENOTDIR};
use tree_model::Kind;

fn missing(error: u32) -> Ended
    ensures { result ≡ missing error }
{
    if error == ENOENT {
        Ended::Refused(Errno::NotFound)
    } else {
        Ended::Unmade(error)
    }
}

#[tactic(auto, using(dialogue::proofs::TalkLemmas::ran_then, dialogue::proofs::TalkLemmas::ran_ends), unfolding(crate::specs::Steps::by_kind))]
fn by_kind<'n>(answers: &mut &[Answer], fd: u32) -> Asked<'n, Ended>
    ensures { ran_by (λ x. x) asked_of result answers.new.now ≡ ran (by_kind fd) answers.old.now }
{
    let about = ask(answers, Question::Stat(fd))?;
    let error = look_error(&about);
    if error == 0 {
        return Ok(Ended::Opened(fd, kind_by_mode(about.mode)));
    }
    close(answers, fd)?;
    Ok(Ended::Unmade(error))
}

#[tactic(auto, using(dialogue::proofs::TalkLemmas::ran_then, dialogue::proofs::TalkLemmas::ran_ends), unfolding(crate::specs::Steps::open_any))]
fn open_any<'n>(
    answers: &mut &[Answer],
    dir: u32,
    name: &'n [u8],
    no_xdev: bool,
) -> Asked<'n, Ended>
    ensures { ran_by (λ x. x) asked_of result answers.new.now ≡ ran (open_any dir name.now no_xdev) answers.old.now }
{
    match opened(
        answers,
        Question::OpenName(dir, name, by_path(false, no_xdev)),
    )? {
        Ok(fd) => by_kind(answers, fd),
        Err(error) => Ok(missing(error)),
    }
}

/// Opens the object at a name in a directory; a link itself is opened, and not what it leads to. It is opened as a
/// directory at first, which most names on a path are, and else as what it is.
///
/// NO_XDEV: a mount ends it, by EXDEV (RESOLVE_NO_XDEV). Refused by NotFound where there is no such entry (ENOENT); any
/// other error ends it as not made.
#[tactic(auto, using(dialogue::proofs::TalkLemmas::ran_then, dialogue::proofs::TalkLemmas::ran_ends), unfolding(crate::specs::Steps::open_step))]
pub fn open_step<'n>(
    answers: &mut &[Answer],
    dir: u32,
    name: &'n [u8],
    no_xdev: bool,
) -> Asked<'n, Ended>
    ensures { ran_by (λ x. x) asked_of result answers.new.now ≡ ran (open_step dir name.now no_xdev) answers.old.now }
{
    match opened(
        answers,
        Question::OpenName(dir, name, by_path(true, no_xdev)),
    )? {
        Ok(fd) => Ok(Ended::Opened(fd, Kind::Dir)),
        Err(ENOTDIR) => open_any(answers, dir, name, no_xdev),
        Err(error) => Ok(missing(error)),
    }
}

/// Opens a directory once more. Any error ends it as not made.
#[tactic(auto, using(dialogue::proofs::TalkLemmas::ran_then, dialogue::proofs::TalkLemmas::ran_ends), unfolding(crate::specs::Steps::dup_step))]
pub fn dup_step<'n>(answers: &mut &[Answer], dir: u32, no_xdev: bool) -> Asked<'n, Ended>
    ensures { ran_by (λ x. x) asked_of result answers.new.now ≡ ran (dup_step dir no_xdev) answers.old.now }
{
    Ok(
        match opened(answers, Question::OpenSame(dir, by_path(true, no_xdev)))? {
            Ok(fd) => Ended::Opened(fd, Kind::Dir),
            Err(error) => Ended::Unmade(error),
        },
    )
}

/// Closes what is open, which close(2) does whatever it gives.
#[tactic(auto, using(dialogue::proofs::TalkLemmas::ran_then, dialogue::proofs::TalkLemmas::ran_ends), unfolding(crate::specs::Steps::close_step))]
pub fn close_step<'n>(answers: &mut &[Answer], fd: u32) -> Asked<'n, Ended>
    ensures { ran_by (λ x. x) asked_of result answers.new.now ≡ ran (close_step fd) answers.old.now }
{
    close(answers, fd)?;
    Ok(Ended::Done)
}
