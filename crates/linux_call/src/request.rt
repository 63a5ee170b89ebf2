//! What a call is asked for, and what it replies.
ghost use Rattle.std.specs.Prelude.{◌≡◌};
ghost use Rattle.kernel_calls.specs.declared.look.Outcome.TheVariants as outcomes;
ghost use Rattle.linux_call.specs.Whole.{outcome_of, plain};

use crate::steps;
use find_proc::Known;
use kernel_calls::Outcome;
use system_calls::errors::{EBADF, EIO};

/// What a call is asked for: WHAT is one of the numbers below. Its texts come beside it.
#[repr(C)]
#[derive(Clone, Copy, Debug)]
pub struct Request {
    pub known: Known,
    /// How many bytes the first text has.
    pub length: u64,
    /// The device of a node.
    pub device: u64,
    /// How many bytes an attribute's value has, or the room for a place.
    pub size: u64,
    /// The nanoseconds of the time of the last access, and of the last change.
    pub accessed: u64,
    pub changed: u64,
    pub root: u32,
    /// The object that a call is about.
    pub fd: u32,
    /// The flags of inroot.h.
    pub flags: u32,
    /// Those of open(2), of setxattr(2), or of renameat2(2).
    pub how: u32,
    /// The mode of what is made, with its kind if it is a file.
    pub mode: u32,
    /// The mode of the directories above a file that is made with them.
    pub above: u32,
    pub user: u32,
    pub group: u32,
    pub what: u8,
    /// A new file is opened as it is made.
    pub opens: bool,
    /// An object gets another name.
    pub linked: bool,
    /// What was made is opened, and given.
    pub gives: bool,
    /// Only a directory is of use.
    pub directory: bool,
    /// The kind of what was opened is asked for.
    pub asks_kind: bool,
}

// The calls of inroot.h.
pub(crate) const RESOLVE: u8 = 1;

pub(crate) const RESOLVE_NOFOLLOW: u8 = 2;

pub(crate) const READ_TEXT: u8 = 3;

pub(crate) const MKFILE: u8 = 4;

pub(crate) const MKDIR: u8 = 5;

pub(crate) const SYMLINK: u8 = 6;

pub(crate) const UNLINK: u8 = 7;

pub(crate) const RMDIR: u8 = 8;

pub(crate) const RENAME: u8 = 9;

pub(crate) const MKDIR_ALL: u8 = 10;

pub(crate) const REMOVE_ALL: u8 = 11;

pub(crate) const OPEN_AT: u8 = 16;

pub(crate) const STATUS: u8 = 17;

pub(crate) const READ_LINK: u8 = 18;

pub(crate) const MAKE_NODE: u8 = 19;

pub(crate) const MAKE_DIRECTORIES: u8 = 20;

pub(crate) const MAKE_FILE: u8 = 21;

pub(crate) const LINK: u8 = 22;

pub(crate) const LINK_OBJECT: u8 = 23;

pub(crate) const OPEN_PARENT: u8 = 24;

pub(crate) const PLACE: u8 = 25;

pub(crate) const REOPEN: u8 = 26;

pub(crate) const CHANGE_MODE: u8 = 27;

pub(crate) const CHANGE_OWNER: u8 = 28;

pub(crate) const CHANGE_TIMES: u8 = 29;

pub(crate) const SET_ATTRIBUTE: u8 = 30;

pub(crate) const GET_ATTRIBUTE: u8 = 31;

pub(crate) const LIST_ATTRIBUTES: u8 = 32;

pub(crate) const REMOVE_ATTRIBUTE: u8 = 33;

pub(crate) const USE_PROC: u8 = 34;

pub(crate) const USE_PRIVATE_PROC: u8 = 35;

pub(crate) const PROC_OPEN: u8 = 36;

pub(crate) const PROC_READ_LINK: u8 = 37;

// A call that has failed by the error MODE, behind those of its root.
pub(crate) const FAILED: u8 = 38;

// The bits of a mode (inode(7)).
pub(crate) const MODE_BITS: u32 = 0o7777;

pub(crate) const S_IFMT: u32 = 0o170000;

pub(crate) const S_IFREG: u32 = 0o100000;

// Kinds of objects (`kind_of`).
pub(crate) const A_DIRECTORY: u8 = 1;

pub(crate) const A_LINK: u8 = 3;

/// What a call replies.
#[derive(Clone, Copy)]
pub(crate) enum Reply<'n> {
    /// A number, and a name that is laid in the room.
    Value(u64, &'n [u8]),
    /// An error (errno(3)), the step to blame and the name that this was about.
    Fails(u32, u8, &'n [u8]),
    /// The same, of which the name lies in the room (`due::NAME`).
    Failed(u32, u8),
    /// Single steps are to make the call.
    Steps,
}

impl<'n> Reply<'n> {
    /// What a call by the kernel's walk came to, on an entry of this name.
    #[inline(always)]
    pub(crate) fn of(outcome: Outcome, name: &'n [u8]) -> Reply<'n>
        ensures { outcome_of result ≡ plain outcome }
    {
        match outcome {
            Outcome::Value(number) => Reply::Value(number, b""),
            Outcome::Fails(error, step) => Reply::Fails(error, step, b""),
            Outcome::FailsAt(error, step) => Reply::Fails(error, step, name),
            Outcome::Steps => Reply::Steps,
        }
    }

    /// The number, the error or 0, and the step to blame.
    pub(crate) fn outcome(&self) -> (u64, u32, u8) {
        match *self {
            Reply::Value(number, _) => (number, 0, steps::NONE),
            Reply::Fails(error, step, _) | Reply::Failed(error, step) => (0, error, step),
            Reply::Steps => (0, EIO, steps::NONE),
        }
    }
}

pub(crate) fn value<'n>(number: u32) -> Reply<'n>
    ensures { outcome_of result ≡ outcomes.Value number }
{
    Reply::Value(number as u64, b"")
}

/// An error for which no step is to blame.
pub(crate) fn refused<'n>(error: u32) -> Reply<'n> {
    Reply::Fails(error, steps::NONE, b"")
}

/// What a step gave, or the error for which it is to blame.
#[inline(always)]
pub(crate) fn given<'n>(outcome: Result<u32, u32>, step: u8) -> Reply<'n> {
    match outcome {
        Ok(number) => value(number),
        Err(error) => Reply::Fails(error, step, b""),
    }
}

/// What a call on a descriptor replies: EBADF is of the descriptor, and no step is to blame.
pub(crate) fn told<'n>(outcome: Result<u32, u32>, step: u8) -> Reply<'n> {
    match outcome {
        Err(EBADF) => refused(EBADF),
        other => given(other, step),
    }
}
