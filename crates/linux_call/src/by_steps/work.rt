//! The system calls of a step that opens something, or reads a link: a dialogue of `linux_steps`.
use crate::walk::{NO_XDEV, forget, has};
use dialogue::{Answer, Asked, Question};
use find_proc::Known;
use linux_steps::{Ended, LinkEntry, dup_step, open_step, parent_step, read_link_step};

/// What a step is about, by descriptors.
#[derive(Clone, Copy)]
pub(crate) enum Work<'n> {
    /// A name in a directory.
    Open(u32, &'n [u8]),
    Dup(u32),
    Parent(u32),
    /// A link, and whether it is surely one; and its entry where the link was opened last. Each link that is read is
    /// one that the walk, or the caller, follows.
    ReadLink(u32, bool, Option<LinkEntry<'n>>),
}

fn ended<'n>(answers: &mut &[Answer], no_xdev: bool, work: Work<'n>) -> Asked<'n, Ended> {
    match work {
        Work::Open(dir, name) => open_step(answers, dir, name, no_xdev),
        Work::Dup(dir) => dup_step(answers, dir, no_xdev),
        Work::Parent(dir) => parent_step(answers, dir, no_xdev),
        Work::ReadLink(link, is_link, entry) => read_link_step(answers, link, is_link, entry),
    }
}

// The error of openat2(2), if that was the last of so many system calls.
fn last_error(answers: &[Answer], count: usize, no_xdev: bool, work: Work<'_>) -> u32 {
    if count == 0 || count > answers.len() {
        return 0;
    }
    match ended(&mut &answers[..count - 1], no_xdev, work) {
        Err(
            Question::OpenName(_, _, how)
            | Question::OpenSame(_, how)
            | Question::OpenAbove(_, how),
        ) if how.no_xdev || !how.no_follow => answers[count - 1].error,
        _ => 0,
    }
}

/// Makes a step. FLAGS: those of the call; under INROOT_NO_XDEV only what is on the directory's mount is opened.
pub(crate) fn make<'n>(
    answers: &mut &[Answer],
    known: &mut Known,
    flags: u32,
    work: Work<'n>,
) -> Asked<'n, Ended> {
    let (all, no_xdev) = (*answers, has(flags, NO_XDEV));
    let ended = ended(answers, no_xdev, work)?;
    if let Ended::Unmade(_) = ended {
        let count = all.len().saturating_sub(answers.len());
        forget(answers, known, last_error(all, count, no_xdev, work))?;
    }
    Ok(ended)
}
