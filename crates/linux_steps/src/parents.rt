//! Whether a directory is there still, and the directory above it.
ghost use Rattle.std.specs.Prelude.{◌≡◌};
ghost use Rattle.dialogue.specs.Dialogue.{asked_of, ran, ran_by};
ghost use Rattle.linux_steps.specs.Steps.{above_missing, by_entries, by_file_system, by_read, keeps_links, parent_step, there, to_read};

use crate::asks::{by_path, close, look_error, opened};
use crate::ended::{Ended, There};
use dialogue::{Answer, Asked, How, Question, ask};
use path_text::Errno;
use system_calls::errors::{EAGAIN, ENOENT};
use tree_model::Kind;

const OVERLAYFS: u64 = 0x794c_7630;

const CGROUP: u64 = 0x0027_e0eb;

const CGROUP2: u64 = 0x6367_7270;

const RDTGROUP: u64 = 0x0765_5821;

const BTRFS: u64 = 0x9123_683e;

fn keeps_links(file_system: u64) -> bool
    ensures { result ≡ keeps_links file_system }
{
    file_system == OVERLAYFS
        || (file_system == CGROUP2
            || (file_system == CGROUP || (file_system == RDTGROUP || file_system == BTRFS)))
}

fn to_read() -> How
    ensures { result ≡ to_read }
{
    How {
        path: false,
        directory: true,
        no_follow: true,
        no_xdev: false,
    }
}

fn by_read(error: u32) -> There
    ensures { result ≡ by_read error }
{
    match error {
        0 => There::Yes,
        ENOENT => There::No,
        _ => There::Unknown,
    }
}

// ENOENT is a removed directory's. Of one that may not be read it can't be known.
#[tactic(auto, using(dialogue::proofs::TalkLemmas::ran_then, dialogue::proofs::TalkLemmas::ran_ends), unfolding(crate::specs::Steps::by_entries))]
fn by_entries<'n>(answers: &mut &[Answer], dir: u32) -> Asked<'n, There>
    ensures { ran_by (λ x. x) asked_of result answers.new.now ≡ ran (by_entries dir) answers.old.now }
{
    let fd = match opened(answers, Question::OpenSame(dir, to_read()))? {
        Ok(fd) => fd,
        Err(ENOENT) => return Ok(There::No),
        Err(_) => return Ok(There::Unknown),
    };
    let read = ask(answers, Question::ReadEntries(fd))?;
    close(answers, fd)?;
    Ok(by_read(read.error))
}

#[tactic(auto, using(dialogue::proofs::TalkLemmas::ran_then, dialogue::proofs::TalkLemmas::ran_ends), unfolding(crate::specs::Steps::by_file_system))]
fn by_file_system<'n>(answers: &mut &[Answer], dir: u32) -> Asked<'n, There>
    ensures { ran_by (λ x. x) asked_of result answers.new.now ≡ ran (by_file_system dir) answers.old.now }
{
    let about = ask(answers, Question::FileSystem(dir))?;
    if about.error != 0 {
        return Ok(There::Unknown);
    }
    if !keeps_links(about.file_system) {
        return Ok(There::Yes);
    }
    by_entries(answers, dir)
}

/// Whether a directory is there still. A removed one has no link (stat(2)); but on overlayfs one of a lower layer keeps
/// some, and so does a removed control group (cgroups(7)), a resctrl group, and a subvolume of btrfs: such a one is
/// read.
#[tactic(auto, using(dialogue::proofs::TalkLemmas::ran_then, dialogue::proofs::TalkLemmas::ran_ends), unfolding(crate::specs::Steps::there))]
pub fn is_there<'n>(answers: &mut &[Answer], dir: u32) -> Asked<'n, There>
    ensures { ran_by (λ x. x) asked_of result answers.new.now ≡ ran (there dir) answers.old.now }
{
    let about = ask(answers, Question::Stat(dir))?;
    let error = look_error(&about);
    if error != 0 {
        return Ok(There::Fails(error));
    }
    if about.links == 0 {
        return Ok(There::No);
    }
    by_file_system(answers, dir)
}

// The kernel says ENOENT of `..`, too, where somebody moved the directory out of the mount by which it was opened. Then
// others are in the way.
fn above_missing(there: There) -> Ended
    ensures { result ≡ above_missing there }
{
    match there {
        There::No => Ended::Refused(Errno::NotFound),
        There::Yes | There::Unknown | There::Fails(_) => Ended::Unmade(EAGAIN),
    }
}

/// Opens the directory above a directory. The `..` of a removed one isn't believed; where that can't be known, it is.
///
/// Refused by NotFound where the directory was removed. EAGAIN: it has left its mount. Any other error ends it as not
/// made.
#[tactic(auto, using(dialogue::proofs::TalkLemmas::ran_then, dialogue::proofs::TalkLemmas::ran_ends), unfolding(crate::specs::Steps::parent_step))]
pub fn parent_step<'n>(answers: &mut &[Answer], dir: u32, no_xdev: bool) -> Asked<'n, Ended>
    ensures { ran_by (λ x. x) asked_of result answers.new.now ≡ ran (parent_step dir no_xdev) answers.old.now }
{
    let fd = match opened(answers, Question::OpenAbove(dir, by_path(true, no_xdev)))? {
        Ok(fd) => fd,
        Err(ENOENT) => return Ok(above_missing(is_there(answers, dir)?)),
        Err(error) => return Ok(Ended::Unmade(error)),
    };
    match is_there(answers, dir)? {
        There::Yes | There::Unknown => Ok(Ended::Opened(fd, Kind::Dir)),
        There::No => {
            close(answers, fd)?;
            Ok(Ended::Refused(Errno::NotFound))
        }
        There::Fails(error) => {
            close(answers, fd)?;
            Ok(Ended::Unmade(error))
        }
    }
}
