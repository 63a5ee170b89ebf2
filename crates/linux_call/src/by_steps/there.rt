//! Whether a directory is there still.
use dialogue::{Answer, Asked};
use linux_steps::{There, is_there};

/// Whether somebody removed the directory.
pub(crate) fn is_dead<'n>(answers: &mut &[Answer], fd: u32) -> Asked<'n, bool> {
    Ok(matches!(is_there(answers, fd)?, There::No))
}

/// Whether somebody may have, since that can't be known.
pub(crate) fn may_be_dead<'n>(answers: &mut &[Answer], fd: u32) -> Asked<'n, bool> {
    Ok(!matches!(is_there(answers, fd)?, There::Yes))
}
