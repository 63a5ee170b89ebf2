//! What is due, as C gets it: a system call with its arguments, or the call's end.
ghost use Rattle.std.specs.Prelude.{◌≡◌, ◌<◌, ◌+◌, MatchOption, false, length, take};
ghost use Rattle.dialogue.specs.Dialogue.{asked_of};
ghost use Rattle.linux_call.specs.Turns.{IsEnd};
ghost use Rattle.linux_call.specs.Whole.{outcome_of};
ghost use Rattle.linux_call.specs.Due.{HasTexts, IsAskedBy, IsLaid, IsOn, is_entry_call, is_path_call, is_look_call};

use crate::attributes::MOST_BYTES;
use crate::path::front;
use crate::request::{Reply, Request};
use crate::walk::{O_CLOEXEC, O_PATH, RESOLVE_BENEATH, RESOLVE_NO_MAGICLINKS, RESOLVE_NO_XDEV};
use dialogue::{How, Question};
use system_calls::MachineFlags;
use system_calls::errors::EIO;

/// Where the second text of what is due lies in the room; the first lies at the room's beginning. A NUL ends each.
pub(crate) const SECOND: usize = 4352;

/// Where the name lies that the error of a part was about.
pub(crate) const NAME: usize = 8704;

const FOLLOWED: u32 = RESOLVE_BENEATH | RESOLVE_NO_MAGICLINKS;

/// What is due. Which field is which argument stands at each number of WHAT in the header for C.
#[repr(C)]
#[derive(Clone, Copy, Debug)]
pub struct Due {
    /// Flags, a device, the size of an attribute; or the value of a reply.
    pub number: u64,
    /// Bits of RESOLVE; or an inode.
    pub resolve: u64,
    /// A mount.
    pub mount: u64,
    pub fd: u32,
    pub other: u32,
    pub mode: u32,
    /// The answer is to lie there among the answers.
    pub at: u32,
    /// At the end, so many descriptors are to be closed.
    pub closes: u32,
    pub first_closed: u32,
    pub second_closed: u32,
    pub what: u8,
    /// The step to blame for an error.
    pub step: u8,
    /// A signal has the system call made again.
    pub again: bool,
}

const NOTHING: Due = Due {
    number: 0,
    resolve: 0,
    mount: 0,
    fd: 0,
    other: 0,
    mode: 0,
    at: 0,
    closes: 0,
    first_closed: 0,
    second_closed: 0,
    what: 0,
    step: 0,
    again: false,
};

// The numbers of WHAT.
const OPENAT2: u8 = 1;

const OPENAT: u8 = 2;

const STATX: u8 = 3;

const FSTATFS: u8 = 4;

const GETDENTS: u8 = 5;

const READLINKAT: u8 = 6;

const CLOSE: u8 = 7;

const GETFD: u8 = 8;

const DUPFD: u8 = 9;

const MKDIRAT: u8 = 10;

const MKNODAT: u8 = 11;

const SYMLINKAT: u8 = 12;

const LINKAT: u8 = 13;

const UNLINKAT: u8 = 14;

const RENAMEAT2: u8 = 15;

const FCHMODAT: u8 = 16;

const FCHOWNAT: u8 = 17;

const UTIMENSAT: u8 = 18;

const XATTR_AT: u8 = 19;

const XATTR: u8 = 20;

const FSOPEN: u8 = 21;

const FSCONFIG: u8 = 22;

const FSMOUNT: u8 = 23;

const OPEN_TREE: u8 = 24;

const NANOSLEEP: u8 = 25;

const CLAIM: u8 = 26;

const KEEP: u8 = 27;

const RELEASE: u8 = 28;

const KNOW: u8 = 29;

const FSTAT: u8 = 30;

const VALUE: u8 = 32;

const FAILS: u8 = 33;

fn flags_of(machine: &MachineFlags, how: &How) -> u64 {
    let path = if how.path { O_PATH } else { 0 };
    let directory = if how.directory { machine.directory } else { 0 };
    // What is opened to be read is no link.
    let nofollow = if how.path && how.no_follow {
        machine.nofollow
    } else {
        0
    };
    (O_CLOEXEC | path | directory | nofollow) as u64
}

fn resolve_of(how: &How) -> u64 {
    let followed = if how.no_follow { 0 } else { FOLLOWED };
    let no_xdev = if how.no_xdev { RESOLVE_NO_XDEV } else { 0 };
    (followed | no_xdev) as u64
}

// Without a bit of RESOLVE by openat(2), which each filter knows.
fn by_how(machine: &MachineFlags, dir: u32, how: &How) -> Due {
    let resolve = resolve_of(how);
    Due {
        what: if resolve == 0 { OPENAT } else { OPENAT2 },
        fd: dir,
        number: flags_of(machine, how),
        resolve,
        again: true,
        ..NOTHING
    }
}

#[inline(always)]
fn opens(dir: u32, flags: u32, mode: u32, resolve: u32, again: bool) -> Due
    ensures on { IsOn 1 dir result }
    ensures rest { (result.number ≡ flags) × (result.mode ≡ mode) × (result.resolve ≡ resolve) }
{
    Due {
        what: OPENAT2,
        fd: dir,
        number: flags as u64,
        resolve: resolve as u64,
        mode,
        again,
        ..NOTHING
    }
}

fn on(what: u8, fd: u32) -> Due
    ensures { IsOn what fd result }
{
    Due {
        what,
        fd,
        ..NOTHING
    }
}

fn looks(what: u8, fd: u32) -> Due
    ensures { IsOn what fd result }
{
    Due {
        again: true,
        ..on(what, fd)
    }
}

// What is open, by a name in a /proc.
fn in_proc(what: u8, proc: u32, number: u64, mode: u32) -> Due
    ensures on { IsOn what proc result }
    ensures rest { (result.number ≡ number) × (result.mode ≡ mode) }
{
    Due {
        number,
        mode,
        ..on(what, proc)
    }
}

fn proc_place(fd: u32, device: u64, inode: u64, mount: u64, handed_in: bool) -> Due {
    Due {
        number: device,
        resolve: inode,
        mount,
        mode: handed_in as u32,
        ..on(KEEP, fd)
    }
}

fn look_due(question: &Question<'_>, machine: &MachineFlags) -> Option<Due>
    ensures { MatchOption result (is_look_call (asked_of question.now) ≡ false) (IsAskedBy (asked_of question.now)) }
{
    Some(match *question {
        Question::OpenName(dir, _, how)
        | Question::OpenSame(dir, how)
        | Question::OpenAbove(dir, how) => { by_how(machine, dir, &how) }
        Question::Stat(fd) | Question::StatName(fd, _) => looks(STATX, fd),
        Question::FileSystem(fd) => looks(FSTATFS, fd),
        Question::ReadEntries(fd) => looks(GETDENTS, fd),
        Question::ReadLink(fd) | Question::ReadObjectLink(fd, _) | Question::ReadThread(fd) => {
            looks(READLINKAT, fd)
        }
        Question::IsOpen(fd) => on(GETFD, fd),
        Question::Status(fd) => on(FSTAT, fd),
        _ => return None,
    })
}

fn entry_due(question: &Question<'_>) -> Option<Due>
    ensures { MatchOption result (is_entry_call (asked_of question.now) ≡ false) (IsAskedBy (asked_of question.now)) }
{
    Some(match *question {
        Question::Open(dir, _, flags, mode) => Due {
            what: OPENAT,
            ..opens(dir, flags, mode, 0, flags & O_PATH == O_PATH)
        },
        Question::OpenObject(proc, _, flags) => in_proc(OPENAT, proc, flags as u64, 0),
        Question::MakeDirectory(dir, _, mode) => in_proc(MKDIRAT, dir, 0, mode),
        Question::MakeNode(dir, _, mode, device) => in_proc(MKNODAT, dir, device, mode),
        Question::MakeLink(dir, _, _) => on(SYMLINKAT, dir),
        Question::Link(proc, _, dir, _) => Due {
            other: dir,
            ..on(LINKAT, proc)
        },
        Question::Remove(dir, _, directory) => in_proc(UNLINKAT, dir, directory as u64, 0),
        Question::Rename(from, _, to, _, flags) => Due {
            other: to,
            number: flags as u64,
            ..on(RENAMEAT2, from)
        },
        Question::ChangeMode(proc, _, mode) => in_proc(FCHMODAT, proc, 0, mode),
        Question::ChangeOwner(fd, user, group) => Due {
            other: user,
            mode: group,
            ..on(FCHOWNAT, fd)
        },
        Question::ChangeTimes(fd) => on(UTIMENSAT, fd),
        _ => return None,
    })
}

fn other_due(question: &Question<'_>, size: u64) -> Due
    ensures { is_path_call (asked_of question.now) ≡ false → is_look_call (asked_of question.now) ≡ false
        → is_entry_call (asked_of question.now) ≡ false → IsAskedBy (asked_of question.now) result }
{
    match *question {
        Question::AttributeAt(proc, _) => in_proc(XATTR_AT, proc, size, 0),
        Question::NoAttribute => in_proc(XATTR_AT, 0xffff_ffff, size, 0),
        Question::Attribute(_) => in_proc(XATTR, 0, size, 0),
        Question::NewProc => on(FSOPEN, 0),
        Question::Configure(fd, restricts) => in_proc(FSCONFIG, fd, restricts as u64, 0),
        Question::Mount(fd) => on(FSMOUNT, fd),
        Question::CopyProc => looks(OPEN_TREE, 0),
        Question::Wait(time) => on(NANOSLEEP, time),
        Question::Claim(handed_in) => on(CLAIM, handed_in as u32),
        Question::Keep(fd, device, inode, mount, handed_in) => {
            proc_place(fd, device, inode, mount, handed_in)
        }
        Question::Release => on(RELEASE, 0),
        Question::Know(known) => on(KNOW, known as u32),
        Question::CopyAbove(fd) => on(DUPFD, fd),
        Question::Close(fd) => on(CLOSE, fd),
        _ => NOTHING,
    }
}

// ---- texts

// Lays a text there, and a NUL behind it. If they don't fit, the text is empty.
#[inline(always)]
pub(crate) fn lay(room: &mut [u8], at: usize, text: &[u8])
    ensures laid { at + length text.now < length room.old → IsLaid room.new at text.now }
    ensures front { take at room.new ≡ take at room.old }
{
    if at < room.len() && text.len() < room.len() - at {
        room[at..at + text.len()].copy_from_slice(text);
        room[at + text.len()] = 0;
    } else if at < room.len() {
        room[at] = 0;
    }
}

const DIGITS: usize = 10;

/// Writes a number's decimal digits at a room's end: how many.
#[inline(never)]
pub(crate) fn decimal(number: u32, room: &mut [u8; 10]) -> usize {
    let mut left = number;
    let mut count = 1;
    for at in 0..DIGITS {
        if left > 0 {
            count = at + 1;
        }
        room[DIGITS - 1 - at] = b'0' + (left % 10) as u8;
        left /= 10;
    }
    count
}

/// The digits that lie there.
pub(crate) fn digits(room: &[u8; 10], count: usize) -> &[u8] {
    if count <= DIGITS {
        &room[DIGITS - count..]
    } else {
        &room[..0]
    }
}

// The name in a /proc of what this thread has open, behind some front.
fn lay_object(room: &mut [u8], front: &[u8], fd: u32) {
    let mut number = [0u8; 10];
    let count = decimal(fd, &mut number);
    lay(room, 0, front);
    lay(room, front.len(), digits(&number, count));
}

fn lay_texts(question: &Question<'_>, room: &mut [u8])
    ensures { is_path_call (asked_of question.now) ≡ false → HasTexts (asked_of question.now) room.new }
{
    match *question {
        Question::OpenName(_, text, _)
        | Question::Open(_, text, _, _)
        | Question::StatName(_, text)
        | Question::MakeDirectory(_, text, _)
        | Question::MakeNode(_, text, _, _)
        | Question::Remove(_, text, _) => lay(room, 0, text),
        Question::OpenSame(_, _) | Question::NoAttribute => lay(room, 0, b"."),
        Question::OpenAbove(_, _) => lay(room, 0, b".."),
        Question::ReadThread(_) => lay(room, 0, b"thread-self"),
        Question::MakeLink(_, name, text) | Question::Rename(_, name, _, text, _) => {
            lay(room, 0, name);
            lay(room, SECOND, text);
        }
        Question::Link(_, fd, _, name) => {
            lay_object(room, b"thread-self/fd/", fd);
            lay(room, SECOND, name);
        }
        Question::OpenObject(_, fd, _)
        | Question::ReadObjectLink(_, fd)
        | Question::ChangeMode(_, fd, _)
        | Question::AttributeAt(_, fd) => lay_object(room, b"thread-self/fd/", fd),
        Question::Attribute(fd) => lay_object(room, b"/proc/thread-self/fd/", fd),
        _ => lay(room, 0, b""),
    }
}

// ---- what is due

/// The system call that is due; its texts are laid in the room.
#[inline(always)]
pub(crate) fn due_of(question: &Question<'_>, request: &Request, room: &mut [u8]) -> Due
    ensures call { IsAskedBy (asked_of question.now) result }
    ensures texts { HasTexts (asked_of question.now) room.new }
{
    match *question {
        Question::LookUp(dir, path, flags, resolve) => {
            lay(room, 0, path);
            return opens(dir, flags | O_PATH | O_CLOEXEC, 0, resolve, true);
        }
        Question::OpenPath(dir, path, flags, mode, resolve) => {
            lay(room, 0, path);
            return opens(dir, flags, mode, resolve, false);
        }
        _ => {}
    }
    due_of_other(question, request, room)
}

#[inline(never)]
fn due_of_other(question: &Question<'_>, request: &Request, room: &mut [u8]) -> Due
    ensures call { is_path_call (asked_of question.now) ≡ false → IsAskedBy (asked_of question.now) result }
    ensures texts { is_path_call (asked_of question.now) ≡ false → HasTexts (asked_of question.now) room.new }
{
    lay_texts(question, room);
    let machine = &request.known.machine;
    if let Some(due) = look_due(question, machine) {
        return due;
    }
    if let Some(due) = entry_due(question) {
        return due;
    }
    other_due(question, request.size.min(MOST_BYTES))
}

fn failing(error: u32, step: u8) -> Due
    ensures { (result.what ≡ 33) × (result.number ≡ error) × (result.step ≡ step) × (result.closes ≡ 0) }
{
    Due {
        what: FAILS,
        number: error as u64,
        step,
        ..NOTHING
    }
}

fn name_length(names: &[u8]) -> usize {
    for at in 0..names.len() {
        if names[at] == 0 {
            return at;
        }
    }
    names.len()
}

// The name that lies there is laid at the room's beginning.
fn lay_name(room: &mut [u8]) {
    if room.len() > NAME {
        let (before, names) = room.split_at_mut(NAME);
        lay(before, 0, front(names, name_length(names)));
    }
}

/// The end; the name that an error was about is laid in the room.
#[inline(always)]
pub(crate) fn end_of(reply: &Reply<'_>, room: &mut [u8]) -> Due
    ensures { IsEnd (outcome_of reply.now) result × (result.closes ≡ 0) }
{
    match *reply {
        Reply::Value(number, name) => {
            lay(room, 0, name);
            Due {
                what: VALUE,
                number,
                ..NOTHING
            }
        }
        Reply::Fails(error, step, name) => {
            lay(room, 0, name);
            failing(error, step)
        }
        Reply::Failed(error, step) => {
            lay_name(room);
            failing(error, step)
        }
        Reply::Steps => failing(EIO, 0),
    }
}
