//! A /proc for a call: the program's, or a new one.
ghost use Rattle.std.specs.Prelude.{◌≡◌, bit_or, OnErr, Ok};
ghost use Rattle.dialogue.specs.Dialogue.{asked_of, ran, ran_by};
ghost use Rattle.find_proc.specs.Asks.{by_path};
ghost use Rattle.find_proc.specs.Find.{find, is_at_hand, is_it, is_lost, open_error, owned, seen, find_new};

use crate::asks::{
    AT_FDCWD, File, Kept, Known, Proc, file_of, has_floor, is_proc, is_short, opened_above,
};
use dialogue::{Answer, Asked, Question, ask};
use system_calls::errors::ENOSYS;

const O_CLOEXEC: u32 = 0o2000000;

const O_PATH: u32 = 0o10000000;

/// The flags by which a directory of a proc(5) is opened.
pub(crate) fn by_path(directory: u32) -> u32
    ensures { result ≡ by_path directory }
{
    O_PATH | O_CLOEXEC | directory
}

// The file that is kept; or any one on its mount, which may be another file of that proc(5).
fn is_it(kept: &Kept, file: &File, surely: bool) -> bool
    ensures { result ≡ is_it kept.now surely file.now }
{
    file.mount != 0
        && (file.mount == kept.file.mount
            && (file.device == kept.file.device && (!surely || file.inode == kept.file.inode)))
}

// Whether the program's descriptor is what is kept of it.
#[tactic(auto, using(dialogue::proofs::TalkLemmas::ran_then, dialogue::proofs::TalkLemmas::ran_ends), unfolding(crate::specs::Find::is_at_hand))]
fn is_at_hand<'n>(answers: &mut &[Answer], kept: &Kept, surely: bool) -> Asked<'n, bool>
    ensures { ran_by (λ x. x) asked_of result answers.new.now ≡ ran (is_at_hand kept.now surely) answers.old.now }
{
    if !kept.there {
        return Ok(false);
    }
    Ok(match file_of(answers, kept.fd)? {
        Ok(file) => is_it(kept, &file, surely),
        Err(_) => false,
    })
}

/// Whether somebody closed the program's /proc, by which a call went, so that its number is another file.
#[tactic(auto, using(dialogue::proofs::TalkLemmas::ran_then, dialogue::proofs::TalkLemmas::ran_ends), unfolding(crate::specs::Find::is_lost))]
pub fn is_lost<'n>(answers: &mut &[Answer], known: &Known, fd: u32) -> Asked<'n, bool>
    ensures { ran_by (λ x. x) asked_of result answers.new.now ≡ ran (is_lost known.now fd) answers.old.now }
{
    if !known.kept.there || known.kept.fd != fd {
        return Ok(false);
    }
    if !has_floor(answers, known)? {
        return Ok(true);
    }
    Ok(!is_at_hand(answers, &known.kept, true)?)
}

// Which one was opened, if it is a proc(5).
#[tactic(auto, using(dialogue::proofs::TalkLemmas::ran_then, dialogue::proofs::TalkLemmas::ran_ends), unfolding(crate::specs::Find::seen))]
fn seen<'n>(answers: &mut &[Answer], fd: u32) -> Asked<'n, Result<File, u32>>
    ensures { ran_by (λ x. x) asked_of result answers.new.now ≡ ran (seen fd) answers.old.now }
{
    match is_proc(answers, fd)? {
        Ok(true) => file_of(answers, fd),
        _ => Ok(Err(ENOSYS)),
    }
}

fn open_error(error: u32) -> u32
    ensures { result ≡ open_error error }
{
    if is_short(error) { error } else { ENOSYS }
}

// The new one is the program's, if the program has none; else the call's.
#[tactic(auto, using(dialogue::proofs::TalkLemmas::ran_then, dialogue::proofs::TalkLemmas::ran_ends), unfolding(crate::specs::Find::owned))]
fn owned<'n>(answers: &mut &[Answer], kept: &mut Kept, fd: u32, file: File) -> Asked<'n, Proc>
    ensures found { ran_by (λ p. record { proc = Ok p; kept = kept.new }) asked_of result answers.new.now
        ≡ ran (owned kept.old fd file) answers.old.now }
    ensures due { OnErr result (kept.new ≡ kept.old) }
{
    let claimed = ask(answers, Question::Claim(false))?;
    if claimed.error != 0 {
        return Ok(Proc { fd, own: true });
    }
    let keep = Question::Keep(fd, file.device, file.inode, file.mount, false);
    ask(answers, keep)?;
    *kept = Kept {
        file,
        fd,
        there: true,
        handed_in: false,
        claimed: true,
    };
    Ok(Proc { fd, own: false })
}

// A new one, if there is one at /proc.
#[tactic(auto, using(dialogue::proofs::TalkLemmas::ran_then, dialogue::proofs::TalkLemmas::ran_ends), unfolding(crate::specs::Find::find_new))]
fn find_new<'n>(answers: &mut &[Answer], known: &mut Known) -> Asked<'n, Result<Proc, u32>>
    ensures found { ran_by (λ r. record { proc = r; kept = known.new.kept }) asked_of result answers.new.now
        ≡ ran (find_new known.old) answers.old.now }
    ensures rest { known.new ≡ record known.old { kept = known.new.kept } }
    ensures due { OnErr result (known.new ≡ known.old) }
{
    let flags = by_path(known.machine.directory) | known.machine.nofollow;
    let fd = match opened_above(answers, Question::Open(AT_FDCWD, b"/proc", flags, 0))? {
        Ok(fd) => fd,
        Err(error) => return Ok(Err(open_error(error))),
    };
    match seen(answers, fd)? {
        Ok(file) => Ok(Ok(owned(answers, &mut known.kept, fd, file)?)),
        Err(error) => {
            ask(answers, Question::Close(fd))?;
            Ok(Err(error))
        }
    }
}

/// A /proc for a call. The one at hand is asked which file it is: any one on the mount that is kept, or SURELY the
/// very file. If it isn't, or there is none, /proc is opened, unless the program has handed one in; and is believed if
/// it is a proc(5) on a mount that follows links. It becomes the program's if that has none.
///
/// Errors: ENOSYS (38) if the kernel lacks what the library needs, if none is at hand and none may be opened, or if
/// /proc can't be opened or is no proc(5); EMFILE, ENFILE and ENOMEM of opening it; and that of looking at it.
#[tactic(auto, using(dialogue::proofs::TalkLemmas::ran_then, dialogue::proofs::TalkLemmas::ran_ends), unfolding(crate::specs::Find::find))]
pub fn find<'n>(
    answers: &mut &[Answer],
    known: &mut Known,
    surely: bool,
) -> Asked<'n, Result<Proc, u32>>
    ensures found { ran_by (λ r. record { proc = r; kept = known.new.kept }) asked_of result answers.new.now
        ≡ ran (find known.old surely) answers.old.now }
    ensures rest { known.new ≡ record known.old { kept = known.new.kept } }
    ensures due { OnErr result (known.new ≡ known.old) }
{
    if !has_floor(answers, known)? {
        return Ok(Err(ENOSYS));
    }
    if is_at_hand(answers, &known.kept, surely)? {
        return Ok(Ok(Proc {
            fd: known.kept.fd,
            own: false,
        }));
    }
    if known.kept.handed_in {
        return Ok(Err(ENOSYS));
    }
    find_new(answers, known)
}
