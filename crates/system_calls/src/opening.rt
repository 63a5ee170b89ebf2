//! What a call opens and makes, by flags of open(2).
ghost use Rattle.std.specs.Prelude.{◌≡◌, ◌==◌, false};
ghost use Rattle.system_calls.specs.OpenFlags.{access, are_among, has, o_tmpfile, O_CREAT, O_EXCL};
ghost use Rattle.system_calls.specs.Opening.{contradict, done, error_of_directory, error_of_other, fits_mode, flags_of_path, found_flags, is_nameless, is_new, made_flags, opening_of, opens, path_flags, reopen_flags, reopens, use_flags};

use crate::errors::{EINVAL, EISDIR, ENOTDIR};

// The numbers of <fcntl.h> that are the same on x86-64 and on arm64.
const O_WRONLY: u32 = 0o1;

const O_RDWR: u32 = 0o2;

const O_ACCMODE: u32 = 0o3;

const O_CREAT: u32 = 0o100;

const O_EXCL: u32 = 0o200;

const O_NOCTTY: u32 = 0o400;

const O_TRUNC: u32 = 0o1000;

const O_APPEND: u32 = 0o2000;

const O_NONBLOCK: u32 = 0o4000;

const O_NOATIME: u32 = 0o1000000;

const O_CLOEXEC: u32 = 0o2000000;
// With the bit of O_DSYNC.
const O_SYNC: u32 = 0o4010000;

const O_PATH: u32 = 0o10000000;
// Of O_TMPFILE without the bit of O_DIRECTORY.
const TMPFILE_ALONE: u32 = 0o20000000;

const ALWAYS: u32 = O_CLOEXEC | O_NOCTTY;

const FOR_USE: u32 = O_WRONLY
    | O_RDWR
    | O_TRUNC
    | O_APPEND
    | O_NONBLOCK
    | O_SYNC
    | O_NOATIME
    | ALWAYS;

const FOR_PATH: u32 = O_PATH | ALWAYS;

const NEW: u32 = O_CREAT | O_EXCL;

const MADE: u32 = O_CREAT | O_EXCL | ALWAYS;

const MODE_BITS: u32 = 0o7777;

/// The flags of open(2) whose numbers differ between machines, as <fcntl.h> has them on the machine that the call is
/// made on. A C library may give O_LARGEFILE as 0.
#[repr(C)]
#[derive(Clone, Copy, Debug, PartialEq, Eq)]
pub struct MachineFlags {
    /// O_DIRECTORY
    pub directory: u32,
    /// O_NOFOLLOW
    pub nofollow: u32,
    /// O_DIRECT
    pub direct: u32,
    /// O_LARGEFILE
    pub largefile: u32,
}

/// What a call does by flags of open(2).
#[repr(C)]
#[derive(Clone, Copy, Debug, PartialEq, Eq)]
pub struct Opening {
    /// 0; or EINVAL (22), and nothing is done.
    pub error: u8,
    /// What is there is looked for, and opened.
    pub finds: bool,
    /// What is missing is made. If it isn't looked for, it must be missing.
    pub makes: bool,
    /// A link at the path's end is followed.
    pub follows: bool,
    /// Only a directory is wanted.
    pub directory: bool,
    /// It matters of which kind the object is that was found.
    pub asks_kind: bool,
    /// The object is given by a descriptor of O_PATH, and not opened for use.
    pub by_path: bool,
    /// In the directory that was found a file without a name is made.
    pub nameless: bool,
    /// If the object that was found is a directory, 0 or why it isn't opened: EISDIR (21).
    pub directory_error: u8,
    /// If it is none, 0 or why it isn't opened: ENOTDIR (20).
    pub other_error: u8,
    /// By these flags what was found is opened through its descriptor, or a nameless file is made in it.
    pub found_flags: u32,
    /// By these flags a missing file is made by its name, and opened.
    pub made_flags: u32,
}

// Whether the flags have this one: all of its bits.
fn has(flags: u32, flag: u32) -> bool
    ensures { result ≡ has flags flag }
{
    flags & flag == flag
}

// Whether the flags have no bits but these.
fn are_among(flags: u32, known: u32) -> bool
    ensures { result ≡ are_among flags known }
{
    flags & known == flags
}

fn access(flags: u32) -> u32
    ensures { result ≡ access flags }
{
    flags & O_ACCMODE
}

fn tmpfile(machine: &MachineFlags) -> u32
    ensures { result ≡ o_tmpfile machine.now }
{
    TMPFILE_ALONE | machine.directory
}

fn use_flags(machine: &MachineFlags) -> u32
    ensures { result ≡ use_flags machine.now }
{
    FOR_USE | machine.directory | machine.direct | machine.largefile
}

fn path_flags(machine: &MachineFlags) -> u32
    ensures { result ≡ path_flags machine.now }
{
    FOR_PATH | machine.directory
}

fn reopens(machine: &MachineFlags, flags: u32) -> bool
    ensures { result ≡ reopens machine.now flags }
{
    if has(flags, O_PATH) {
        are_among(flags, path_flags(machine))
    } else {
        are_among(flags, use_flags(machine)) && access(flags) != O_ACCMODE
    }
}

fn is_nameless(machine: &MachineFlags, flags: u32) -> bool
    ensures { result ≡ is_nameless machine.now flags }
{
    has(flags, tmpfile(machine))
}

fn is_new(machine: &MachineFlags, flags: u32) -> bool
    ensures { result ≡ is_new machine.now flags }
{
    has(flags, O_CREAT) || is_nameless(machine, flags)
}

fn flags_of_path(machine: &MachineFlags, flags: u32) -> u32
    ensures { result ≡ flags_of_path machine.now flags }
{
    if has(flags, O_PATH) {
        path_flags(machine) | (NEW | machine.nofollow)
    } else if is_nameless(machine, flags) {
        use_flags(machine) | (O_EXCL | machine.nofollow | tmpfile(machine))
    } else {
        use_flags(machine) | (NEW | machine.nofollow)
    }
}

fn contradict(machine: &MachineFlags, flags: u32) -> bool
    ensures { result ≡ contradict machine.now flags }
{
    access(flags) == O_ACCMODE
        || (has(flags, O_CREAT) && has(flags, machine.directory))
        || (has(flags, O_EXCL) && !is_new(machine, flags))
        || (is_nameless(machine, flags) && access(flags) == 0)
}

fn fits_mode(machine: &MachineFlags, flags: u32, mode: u32) -> bool
    ensures { result ≡ fits_mode machine.now flags mode }
{
    if is_new(machine, flags) {
        mode <= MODE_BITS
    } else {
        mode == 0
    }
}

fn opens(machine: &MachineFlags, flags: u32, mode: u32) -> bool
    ensures { result ≡ opens machine.now flags mode }
{
    are_among(flags, flags_of_path(machine, flags))
        && !contradict(machine, flags)
        && fits_mode(machine, flags, mode)
}

fn found_flags(machine: &MachineFlags, flags: u32) -> u32
    ensures { result ≡ found_flags machine.now flags }
{
    flags & (use_flags(machine) | (O_EXCL | tmpfile(machine))) | ALWAYS
}

fn made_flags(machine: &MachineFlags, flags: u32) -> u32
    ensures { result ≡ made_flags machine.now flags }
{
    flags | (MADE | machine.nofollow)
}

fn error_of_directory(flags: u32) -> u8
    ensures { result ≡ error_of_directory flags }
{
    if has(flags, O_CREAT) { EISDIR as u8 } else { 0 }
}

fn error_of_other(machine: &MachineFlags, flags: u32) -> u8
    ensures { result ≡ error_of_other machine.now flags }
{
    if has(flags, O_PATH) && has(flags, machine.directory) {
        ENOTDIR as u8
    } else {
        0
    }
}

// What is done by flags that are taken.
fn done(machine: &MachineFlags, flags: u32) -> Opening
    ensures { result ≡ done machine.now flags }
{
    Opening {
        error: 0,
        finds: !(has(flags, O_CREAT) && has(flags, O_EXCL)),
        makes: has(flags, O_CREAT),
        follows: !has(flags, machine.nofollow),
        directory: has(flags, machine.directory),
        asks_kind: has(flags, O_CREAT) || has(flags, machine.directory),
        by_path: has(flags, O_PATH),
        nameless: is_nameless(machine, flags),
        directory_error: error_of_directory(flags),
        other_error: error_of_other(machine, flags),
        found_flags: found_flags(machine, flags),
        made_flags: made_flags(machine, flags),
    }
}

/// What a call on a path does by flags of open(2), and by the mode of what it makes (inode(7)).
///
/// Errors: EINVAL (22) of a flag that isn't among those of `flags_of_path` (`specs/Opening.antt`), so of all but a few
/// beside O_PATH; of O_WRONLY with O_RDWR; of O_CREAT with O_DIRECTORY or O_TMPFILE; of O_EXCL without O_CREAT or
/// O_TMPFILE; of O_TMPFILE without writing; of a mode over 07777, or other than 0 without O_CREAT and O_TMPFILE. Takes
/// no memory.
pub fn opening_of(machine: &MachineFlags, flags: u32, mode: u32) -> Opening
    ensures { result ≡ opening_of machine.now flags mode }
{
    if opens(machine, flags, mode) {
        done(machine, flags)
    } else {
        Opening {
            error: EINVAL as u8,
            finds: false,
            makes: false,
            follows: false,
            directory: false,
            asks_kind: false,
            by_path: false,
            nameless: false,
            directory_error: 0,
            other_error: 0,
            found_flags: 0,
            made_flags: 0,
        }
    }
}

/// The flags by which what a descriptor is open on is opened once more, for other flags of open(2); or 0, where these
/// are refused by EINVAL: a flag that isn't among those of `use_flags`, under O_PATH those of `path_flags`
/// (`specs/Opening.antt`), and O_WRONLY with O_RDWR. Takes no memory.
pub fn reopen_flags(machine: &MachineFlags, flags: u32) -> u32
    ensures { result ≡ reopen_flags machine.now flags }
{
    if reopens(machine, flags) {
        flags | ALWAYS
    } else {
        0
    }
}
