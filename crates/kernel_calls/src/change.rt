//! The one system call of a change, by a directory that is open and a name in it; and a descriptor of what it made.
ghost use Rattle.std.specs.Prelude.{◌≡◌, ◌&&◌};
ghost use Rattle.dialogue.specs.Dialogue.{asked_of, ran, ran_by};
ghost use Rattle.kernel_calls.specs.Change.{changing_of, flags_of, give, given, is_made, is_opened, made_of, make, make_change, mode_of, opening, question_of};

use crate::flags::{NO_XDEV, O_CLOEXEC, O_PATH, RESOLVE_NO_XDEV, has};
use crate::in_proc::{Act, by_proc, gives};
use crate::look::{Outcome, forget};
use crate::steps;
use dialogue::{Answer, Asked, Question};
use find_proc::Known;
use give_entry::Made;

const S_IFMT: u32 = 0o170000;

const S_IFREG: u32 = 0o100000;

const S_IFDIR: u32 = 0o040000;

const S_IFLNK: u32 = 0o120000;

// O_RDONLY, O_CREAT, O_EXCL, O_NOCTTY and O_CLOEXEC.
const NEW: u32 = 0o100 | 0o200 | 0o400 | 0o2000000;

/// A change: its step, a directory, a name in it, and a link's text; or the other directory and name of a rename.
#[derive(Clone, Copy)]
pub struct Change<'n> {
    pub step: u8,
    pub dir: u32,
    pub name: &'n [u8],
    pub other: u32,
    pub text: &'n [u8],
}

/// How a change is made.
#[derive(Clone, Copy, Debug, PartialEq, Eq)]
pub struct Wanted {
    /// The device of a node.
    pub device: u64,
    /// The flags of inroot.h.
    pub flags: u32,
    /// The mode of what is made, with its kind if it is a file.
    pub mode: u32,
    /// The flags of open(2), or of renameat2(2).
    pub how: u32,
    /// The object that gets another name.
    pub fd: u32,
    /// An object gets another name.
    pub linked: bool,
    /// A new file is opened as it is made.
    pub opens: bool,
    /// What was made is opened, and given.
    pub gives: bool,
}

// A file that the call opens, or gives, is known by the descriptor by which it is made.
fn is_opened(wanted: &Wanted, step: u8) -> bool
    ensures { result ≡ is_opened wanted.now step }
{
    let is_given_file = wanted.gives && wanted.mode & S_IFMT == S_IFREG;
    step == steps::MAKE_FILE && !wanted.linked && (wanted.opens || is_given_file)
}

// The flags by which a new file is opened.
fn flags_of(wanted: &Wanted, nofollow: u32) -> u32
    ensures { result ≡ flags_of wanted.now nofollow }
{
    if wanted.opens {
        wanted.how
    } else {
        NEW | nofollow
    }
}

#[inline(always)]
fn question_of<'n>(wanted: &Wanted, change: &Change<'n>, nofollow: u32) -> Question<'n>
    ensures { asked_of result ≡ question_of wanted.now (changing_of change.now) nofollow }
{
    let (dir, name, mode) = (change.dir, change.name, wanted.mode);
    if change.step == steps::MAKE_DIR {
        return Question::MakeDirectory(dir, name, mode);
    }
    if is_opened(wanted, change.step) {
        return Question::Open(dir, name, flags_of(wanted, nofollow), mode & !S_IFMT);
    }
    match change.step {
        steps::MAKE_FILE => Question::MakeNode(dir, name, mode, wanted.device),
        steps::MAKE_LINK => Question::MakeLink(dir, name, change.text),
        steps::REMOVE_FILE => Question::Remove(dir, name, false),
        steps::REMOVE_DIR => Question::Remove(dir, name, true),
        _ => Question::Rename(dir, name, change.other, change.text, wanted.how),
    }
}

fn is_linked(wanted: &Wanted, step: u8) -> bool
    ensures { result ≡ wanted.now.linked && is_made step }
{
    wanted.linked && (step == steps::MAKE_FILE || step == steps::MAKE_LINK)
}

// The object of a descriptor gets another name through its link in /proc. If the object is a link, linkat(2) doesn't
// follow it.
#[tactic(auto, using(dialogue::proofs::TalkLemmas::ran_then, dialogue::proofs::TalkLemmas::ran_ends), unfolding(crate::specs::Change::make))]
#[inline(always)]
fn make<'n>(
    answers: &mut &[Answer],
    known: &mut Known,
    wanted: &Wanted,
    change: &Change<'n>,
) -> Asked<'n, Result<u32, u32>>
    ensures { ran_by (λ r. record { value = r; known = known.new }) asked_of result answers.new.now
        ≡ ran (make known.old wanted.now (changing_of change.now)) answers.old.now }
{
    if is_linked(wanted, change.step) {
        return by_proc(
            answers,
            known,
            wanted.fd,
            Act::Link(change.dir, change.name),
        );
    }
    gives(answers, question_of(wanted, change, known.machine.nofollow))
}

// By which kind the entry is known that was made.
fn mode_of(wanted: &Wanted, step: u8) -> u32
    ensures { result ≡ mode_of wanted.now step }
{
    match step {
        steps::MAKE_DIR => S_IFDIR,
        steps::MAKE_LINK => S_IFLNK,
        _ => wanted.mode,
    }
}

fn made_of(wanted: &Wanted, step: u8, made: Option<u32>) -> Made
    ensures { result ≡ made_of wanted.now step made }
{
    if let Some(fd) = made {
        return Made::File(fd);
    }
    if wanted.linked {
        return Made::Name(wanted.fd);
    }
    Made::Entry(mode_of(wanted, step), wanted.device)
}

fn opening<'n>(change: &Change<'n>, stays: bool, nofollow: u32) -> Question<'n>
    ensures { asked_of result ≡ opening (changing_of change.now) stays nofollow }
{
    let (dir, name) = (change.dir, change.name);
    if stays {
        Question::LookUp(dir, name, nofollow, RESOLVE_NO_XDEV)
    } else {
        Question::Open(dir, name, O_PATH | O_CLOEXEC | nofollow, 0)
    }
}

/// Opens the entry by its name, and checks that it is the one: `give_entry` says how. MADE: by this descriptor the file
/// was made. READ: the text that was read last. Under INROOT_NO_XDEV what is mounted over the entry isn't it; an error
/// that a filter may give has the thread forget that the kernel has openat2(2).
#[tactic(auto, using(dialogue::proofs::TalkLemmas::ran_then, dialogue::proofs::TalkLemmas::ran_ends), unfolding(crate::specs::Change::give))]
#[inline(never)]
fn give<'n>(
    answers: &mut &[Answer],
    known: &mut Known,
    wanted: &Wanted,
    change: &Change<'n>,
    made: Option<u32>,
    read: &[u8],
) -> Asked<'n, Result<u32, u32>>
    ensures { ran_by (λ r. record { value = r; known = known.new }) asked_of result answers.new.now
        ≡ ran (give known.old wanted.now (changing_of change.now) made read.now) answers.old.now }
{
    let stays = has(wanted.flags, NO_XDEV);
    let open = opening(change, stays, known.machine.nofollow);
    let made = made_of(wanted, change.step, made);
    let error = match give_entry::give(answers, open, made, change.text, read)? {
        Ok(fd) => return Ok(Ok(fd)),
        Err(error) => error,
    };
    if stays {
        forget(answers, known, error)?;
    }
    Ok(Err(error))
}

// What was made is given, or 0.
#[tactic(auto, using(dialogue::proofs::TalkLemmas::ran_then, dialogue::proofs::TalkLemmas::ran_ends), unfolding(crate::specs::Change::given))]
#[inline(always)]
fn given<'n>(
    answers: &mut &[Answer],
    known: &mut Known,
    wanted: &Wanted,
    change: &Change<'n>,
    made: Option<u32>,
    read: &[u8],
) -> Asked<'n, Outcome>
    ensures { ran_by (λ r. record { value = r; known = known.new }) asked_of result answers.new.now
        ≡ ran (given known.old wanted.now (changing_of change.now) made read.now) answers.old.now }
{
    if !wanted.gives {
        return Ok(Outcome::Value(made.unwrap_or(0) as u64));
    }
    Ok(match give(answers, known, wanted, change, made, read)? {
        Ok(fd) => Outcome::Value(fd as u64),
        Err(error) => Outcome::FailsAt(error, steps::GIVE),
    })
}

/// Makes it, and opens what it made if the call gives that. READ: the text that was read last.
#[tactic(auto, using(dialogue::proofs::TalkLemmas::ran_then, dialogue::proofs::TalkLemmas::ran_ends), unfolding(crate::specs::Change::make_change))]
#[inline(always)]
pub fn make_change<'n>(
    answers: &mut &[Answer],
    known: &mut Known,
    wanted: &Wanted,
    change: &Change<'n>,
    read: &[u8],
) -> Asked<'n, Outcome>
    ensures { ran_by (λ r. record { value = r; known = known.new }) asked_of result answers.new.now
        ≡ ran (make_change known.old wanted.now (changing_of change.now) read.now) answers.old.now }
{
    let value = match make(answers, known, wanted, change)? {
        Ok(value) => value,
        Err(error) => return Ok(Outcome::FailsAt(error, change.step)),
    };
    let made = if is_opened(wanted, change.step) {
        Some(value)
    } else {
        None
    };
    given(answers, known, wanted, change, made, read)
}
