//! The entry that a call has made: opened by its name, and compared with what was made.
ghost use Rattle.std.specs.Prelude.{◌≡◌, take};
ghost use Rattle.dialogue.specs.Dialogue.{asked_of, ran, ran_by};
ghost use Rattle.give_entry.specs.Giving.{compared, give, look_error, object_of, open_error, opened, read_back, seen};
ghost use Rattle.give_entry.specs.Made.{is_of_kind};

use dialogue::{Answer, Asked, Question, ask};
use system_calls::errors::{EAGAIN, ENOENT, ENOSYS};
use system_calls::{Object, is_same_object};

const S_IFMT: u32 = 0o170000;

const S_IFCHR: u32 = 0o020000;

const S_IFBLK: u32 = 0o060000;

const S_IFREG: u32 = 0o100000;

const S_IFLNK: u32 = 0o120000;

/// What the call has made.
#[derive(Clone, Copy, Debug, PartialEq, Eq)]
pub enum Made {
    /// Another name of an object, which this descriptor is of.
    Name(u32),
    /// A file, by this descriptor, which is closed in the end.
    File(u32),
    /// Any other entry: its kind, by the bits of S_IFMT, and the number of a device.
    Entry(u32, u64),
}

// Whether it is of the kind that the call has made, and if that is a device, has its number.
fn is_of_kind(made: Made, mode: u32, device: u64) -> bool
    ensures { result ≡ is_of_kind made mode device }
{
    let kind = mode & S_IFMT;
    match made {
        Made::Name(_) => true,
        Made::File(_) => kind == S_IFREG,
        Made::Entry(wanted, number) => {
            let is_device = kind == S_IFCHR || kind == S_IFBLK;
            kind == wanted & S_IFMT && (!is_device || device == number)
        }
    }
}

// Why statx(2) told nothing of an object, or 0: also where a filter kept it from telling the mount.
fn look_error(about: &Answer) -> u32
    ensures { result ≡ look_error about.now }
{
    if about.error == 0 && !about.has_mount {
        ENOSYS
    } else {
        about.error
    }
}

fn object_of(about: &Answer) -> Object
    ensures { result ≡ object_of about.now }
{
    Object {
        device: about.device,
        inode: about.inode,
        mount: about.mount,
    }
}

fn front(text: &[u8], length: usize) -> &[u8]
    ensures { result.now ≡ take length text.now }
{
    if length < text.len() {
        &text[..length]
    } else {
        text
    }
}

// Whether the object is the one that the other descriptor is of.
#[tactic(auto, using(dialogue::proofs::TalkLemmas::ran_then, dialogue::proofs::TalkLemmas::ran_ends), unfolding(crate::specs::Giving::compared))]
fn compared<'n>(answers: &mut &[Answer], about: &Answer, other: u32) -> Asked<'n, Result<(), u32>>
    ensures { ran_by (λ x. x) asked_of result answers.new.now ≡ ran (compared about.now other) answers.old.now }
{
    let that = ask(answers, Question::Stat(other))?;
    let error = look_error(&that);
    if error != 0 {
        return Ok(Err(error));
    }
    let is = is_same_object(&object_of(about), &object_of(&that), false);
    Ok(if is { Ok(()) } else { Err(EAGAIN) })
}

// Whether the link has the text that the call has written.
#[tactic(auto, using(dialogue::proofs::TalkLemmas::ran_then, dialogue::proofs::TalkLemmas::ran_ends), unfolding(crate::specs::Giving::read_back))]
fn read_back<'n>(
    answers: &mut &[Answer],
    fd: u32,
    text: &[u8],
    read: &[u8],
) -> Asked<'n, Result<(), u32>>
    ensures { ran_by (λ x. x) asked_of result answers.new.now ≡ ran (read_back fd text.now read.now) answers.old.now }
{
    let gave = ask(answers, Question::ReadLink(fd))?;
    if gave.error != 0 {
        return Ok(Err(gave.error));
    }
    let is = front(read, gave.value as usize) == text;
    Ok(if is { Ok(()) } else { Err(EAGAIN) })
}

// Whether what was opened is the entry that the call has made, or why not.
#[tactic(auto, using(dialogue::proofs::TalkLemmas::ran_then, dialogue::proofs::TalkLemmas::ran_ends), unfolding(crate::specs::Giving::seen))]
fn seen<'n>(
    answers: &mut &[Answer],
    fd: u32,
    made: Made,
    text: &[u8],
    read: &[u8],
) -> Asked<'n, Result<(), u32>>
    ensures { ran_by (λ x. x) asked_of result answers.new.now
        ≡ ran (seen fd made text.now read.now) answers.old.now }
{
    let about = ask(answers, Question::Stat(fd))?;
    let error = look_error(&about);
    if error != 0 {
        return Ok(Err(error));
    }
    if !is_of_kind(made, about.mode as u32, about.node) {
        return Ok(Err(EAGAIN));
    }
    match made {
        Made::Name(other) => compared(answers, &about, other),
        Made::File(other) => compared(answers, &about, other),
        Made::Entry(mode, _) => {
            if mode & S_IFMT == S_IFLNK {
                read_back(answers, fd, text, read)
            } else {
                Ok(Ok(()))
            }
        }
    }
}

// There is no such entry any more (ENOENT).
fn open_error(error: u32) -> u32
    ensures { result ≡ open_error error }
{
    if error == ENOENT { EAGAIN } else { error }
}

// The entry, if it is the one.
#[tactic(auto, using(dialogue::proofs::TalkLemmas::ran_then, dialogue::proofs::TalkLemmas::ran_ends), unfolding(crate::specs::Giving::opened))]
fn opened<'n>(
    answers: &mut &[Answer],
    opening: Question<'n>,
    made: Made,
    text: &[u8],
    read: &[u8],
) -> Asked<'n, Result<u32, u32>>
    ensures { ran_by (λ x. x) asked_of result answers.new.now
        ≡ ran (opened (asked_of opening.entry) made text.now read.now) answers.old.now }
{
    let gave = ask(answers, opening)?;
    if gave.error != 0 {
        return Ok(Err(open_error(gave.error)));
    }
    match seen(answers, gave.value, made, text, read)? {
        Ok(()) => Ok(Ok(gave.value)),
        Err(error) => {
            ask(answers, Question::Close(gave.value))?;
            Ok(Err(error))
        }
    }
}

/// Opens a descriptor of the entry that a call has just made. OPENING asks for the entry by its name, with O_PATH and
/// O_NOFOLLOW. It must be the object that got another name, or the file that was made, by the same mount. Else it must
/// be of the kind that was made, a device by its number, and a link by its TEXT. READ: the text that was read last.
///
/// Errors: EAGAIN (11) if there is no such entry (ENOENT), or it isn't the one; any other error of the last call.
#[tactic(auto, using(dialogue::proofs::TalkLemmas::ran_then, dialogue::proofs::TalkLemmas::ran_ends), unfolding(crate::specs::Giving::give))]
pub fn give<'n>(
    answers: &mut &[Answer],
    opening: Question<'n>,
    made: Made,
    text: &[u8],
    read: &[u8],
) -> Asked<'n, Result<u32, u32>>
    ensures { ran_by (λ x. x) asked_of result answers.new.now
        ≡ ran (give (asked_of opening.entry) made text.now read.now) answers.old.now }
{
    let given = opened(answers, opening, made, text, read)?;
    match made {
        Made::File(fd) => {
            ask(answers, Question::Close(fd))?;
            Ok(given)
        }
        _ => Ok(given),
    }
}
