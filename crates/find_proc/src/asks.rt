//! What is known of the program's /proc, and what answers show of one.
ghost use Rattle.std.specs.Prelude.{◌≡◌};
ghost use Rattle.dialogue.specs.Dialogue.{asked_of, ran, ran_by};
ghost use Rattle.find_proc.specs.Asks.{above_error, file_of, has_floor, is_proc, is_short, opened_above, fails_closed};

use dialogue::{Answer, Asked, Question, ask};
use system_calls::MachineFlags;
use system_calls::errors::{EBADF, EMFILE, ENFILE, ENOMEM, ENOSYS};

/// In the place of a directory: the current one (openat(2)).
pub const AT_FDCWD: u32 = 0xffff_ff9c;

// In the place of a directory: none.
const NO_DIRECTORY: u32 = 0xffff_ffff;

const NO_MAGICLINKS: u32 = 0x02;

const PROC: u64 = 0x9fa0;

const NOSYMFOLLOW: u64 = 0x2000;

/// Which file of a proc(5) it is, and on which mount (statx(2)).
#[repr(C)]
#[derive(Clone, Copy, Debug, PartialEq, Eq)]
pub struct File {
    pub device: u64,
    pub inode: u64,
    pub mount: u64,
}

/// The program's /proc.
#[repr(C)]
#[derive(Clone, Copy, Debug, PartialEq, Eq)]
pub struct Kept {
    pub file: File,
    pub fd: u32,
    /// There is one. Else the other two aren't looked at.
    pub there: bool,
    /// The program has handed one in, or is about to.
    pub handed_in: bool,
    /// The program's place is taken: there is one, or somebody is about to fill the place.
    pub claimed: bool,
}

/// What is known before a call: the program's /proc, the numbers of the machine, and whether this thread has seen that
/// the kernel has what the library needs.
#[repr(C)]
#[derive(Clone, Copy, Debug, PartialEq, Eq)]
pub struct Known {
    pub kept: Kept,
    pub machine: MachineFlags,
    pub has_floor: bool,
}

/// A /proc by which a call goes.
#[derive(Clone, Copy, Debug, PartialEq, Eq)]
pub struct Proc {
    pub fd: u32,
    /// The call is to close it.
    pub own: bool,
}

/// No descriptor, or no memory, is left.
pub(crate) fn is_short(error: u32) -> bool
    ensures { result ≡ is_short error }
{
    error == EMFILE || (error == ENFILE || error == ENOMEM)
}

/// Whether the kernel has what the library needs: openat2(2), and the numbers of mounts (statx(2)). A filter may
/// refuse either by any error, or say that the call was made. Where there is no directory, no file system is asked. If
/// no descriptor is left nobody knows, and what needs one fails by that.
#[tactic(auto, using(dialogue::proofs::TalkLemmas::ran_then, dialogue::proofs::TalkLemmas::ran_ends), unfolding(crate::specs::Asks::has_floor))]
pub fn has_floor<'n>(answers: &mut &[Answer], known: &Known) -> Asked<'n, bool>
    ensures { ran_by (λ x. x) asked_of result answers.new.now ≡ ran (has_floor known.now) answers.old.now }
{
    if known.has_floor {
        return Ok(true);
    }
    let look = Question::LookUp(NO_DIRECTORY, b".", known.machine.directory, NO_MAGICLINKS);
    let opened = ask(answers, look)?;
    let is_known = opened.error == EBADF;
    if !is_known && !is_short(opened.error) {
        return Ok(false);
    }
    let about = ask(answers, Question::Stat(AT_FDCWD))?;
    let has = about.error == 0 && about.has_mount;
    if has && is_known {
        ask(answers, Question::Know(true))?;
    }
    Ok(has)
}

/// Which file is open.
#[tactic(auto, using(dialogue::proofs::TalkLemmas::ran_then, dialogue::proofs::TalkLemmas::ran_ends), unfolding(crate::specs::Asks::file_of))]
pub(crate) fn file_of<'n>(answers: &mut &[Answer], fd: u32) -> Asked<'n, Result<File, u32>>
    ensures { ran_by (λ x. x) asked_of result answers.new.now ≡ ran (file_of fd) answers.old.now }
{
    let about = ask(answers, Question::Stat(fd))?;
    if about.error != 0 {
        return Ok(Err(about.error));
    }
    if !about.has_mount {
        return Ok(Err(ENOSYS));
    }
    Ok(Ok(File {
        device: about.device,
        inode: about.inode,
        mount: about.mount,
    }))
}

/// Whether what is open is of a proc(5), on a mount that follows links; or why that can't be asked.
#[tactic(auto, using(dialogue::proofs::TalkLemmas::ran_then, dialogue::proofs::TalkLemmas::ran_ends), unfolding(crate::specs::Asks::is_proc))]
pub(crate) fn is_proc<'n>(answers: &mut &[Answer], fd: u32) -> Asked<'n, Result<bool, u32>>
    ensures { ran_by (λ x. x) asked_of result answers.new.now ≡ ran (is_proc fd) answers.old.now }
{
    let about = ask(answers, Question::FileSystem(fd))?;
    Ok(if about.error != 0 {
        Err(about.error)
    } else {
        Ok(about.file_system == PROC && about.flags & NOSYMFOLLOW != NOSYMFOLLOW)
    })
}

/// Opens something by a question, on a number above those of the standard files.
#[tactic(auto, using(dialogue::proofs::TalkLemmas::ran_then, dialogue::proofs::TalkLemmas::ran_ends), unfolding(crate::specs::Asks::opened_above))]
pub(crate) fn opened_above<'n>(
    answers: &mut &[Answer],
    question: Question<'n>,
) -> Asked<'n, Result<u32, u32>>
    ensures { ran_by (λ x. x) asked_of result answers.new.now
        ≡ ran (opened_above (asked_of question.entry)) answers.old.now }
{
    let opened = ask(answers, question)?;
    if opened.error != 0 {
        return Ok(Err(opened.error));
    }
    if opened.value > 2 {
        return Ok(Ok(opened.value));
    }
    let copied = ask(answers, Question::CopyAbove(opened.value))?;
    ask(answers, Question::Close(opened.value))?;
    Ok(if copied.error != 0 {
        Err(above_error(copied.error))
    } else {
        Ok(copied.value)
    })
}

/// Closes it: there is none, for this error.
#[tactic(auto, using(dialogue::proofs::TalkLemmas::ran_then, dialogue::proofs::TalkLemmas::ran_ends), unfolding(crate::specs::Asks::fails_closed))]
pub(crate) fn fails_closed<'n, T>(
    answers: &mut &[Answer],
    fd: u32,
    error: u32,
) -> Asked<'n, Result<T, u32>>
    ensures { ran_by (λ x. x) asked_of result answers.new.now ≡ ran (fails_closed fd error) answers.old.now }
{
    ask(answers, Question::Close(fd))?;
    Ok(Err(error))
}

// EINVAL: no number is left above those.
fn above_error(error: u32) -> u32
    ensures { result ≡ above_error error }
{
    if error == system_calls::errors::EINVAL {
        EMFILE
    } else {
        error
    }
}
