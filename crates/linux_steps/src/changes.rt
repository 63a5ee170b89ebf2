//! How a step that changes an entry ends.
ghost use Rattle.std.specs.Prelude.{◌≡◌};
ghost use Rattle.linux_steps.specs.Changes.{change_ended, not_changed, not_made, not_renamed};

use crate::ended::Ended;
use path_text::{Bytes, Errno};
use system_calls::errors::{EEXIST, EISDIR, ENAMETOOLONG, ENOENT, ENOTDIR, ENOTEMPTY};
use tree_model::{LentStep, Mode, StepOf};

fn not_made(error: u32) -> Ended
    ensures { result ≡ not_made error }
{
    match error {
        ENOENT => Ended::Refused(Errno::NotFound),
        EEXIST => Ended::Refused(Errno::Exists),
        _ => Ended::Unmade(error),
    }
}

fn not_renamed(mode: Mode, error: u32) -> Ended
    ensures { result ≡ not_renamed mode error }
{
    match (mode, error) {
        (_, ENOENT) => Ended::Refused(Errno::NotFound),
        (Mode::Plain, ENOTDIR) => Ended::Refused(Errno::NotDir),
        (Mode::Plain, EISDIR) => Ended::Refused(Errno::IsDir),
        (Mode::Plain, ENOTEMPTY) => Ended::Refused(Errno::NotEmpty),
        (Mode::NoReplace, EEXIST) => Ended::Refused(Errno::Exists),
        _ => Ended::Unmade(error),
    }
}

fn not_changed(step: &LentStep<'_>, error: u32) -> Ended
    ensures { result ≡ not_changed step.now error }
{
    match (step, error) {
        (StepOf::MakeDir(_, _) | StepOf::MakeFile(_, _), _) => not_made(error),
        (StepOf::MakeLink(_, _, text), ENAMETOOLONG) if text.as_slice().len() > 4095 => {
            Ended::Refused(Errno::TooLong)
        }
        (StepOf::MakeLink(_, _, _), _) => not_made(error),
        (StepOf::RemoveFile(_, _) | StepOf::RemoveDir(_, _), ENOENT) => {
            Ended::Refused(Errno::NotFound)
        }
        (StepOf::RemoveFile(_, _), EISDIR) => Ended::Refused(Errno::IsDir),
        (StepOf::RemoveDir(_, _), ENOTDIR) => Ended::Refused(Errno::NotDir),
        (StepOf::RemoveDir(_, _), ENOTEMPTY) => Ended::Refused(Errno::NotEmpty),
        (StepOf::Rename(_, _, _, _, mode), _) => not_renamed(*mode, error),
        _ => Ended::Unmade(error),
    }
}

/// How a step that makes, removes or renames an entry ends by what its one system call gave: 0, or an error. A change
/// is never made again. SECOND_NAME: an object that is there gets another name (linkat(2)), and no error but EEXIST is
/// the new entry's.
///
/// Refused by the errors that the step table has for the step; any other ends it as not made.
pub fn change_ended(step: &LentStep<'_>, second_name: bool, error: u32) -> Ended
    ensures { result ≡ change_ended step.now second_name error }
{
    if error == 0 {
        Ended::Done
    } else if second_name && error != EEXIST {
        Ended::Unmade(error)
    } else {
        not_changed(step, error)
    }
}
