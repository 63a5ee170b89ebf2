//! The errors of path resolution, by their numbers and names on Linux for x86-64.
ghost use Rattle.std.specs.Prelude.{◌≡◌};
ghost use Rattle.path_text.specs.declared.errno.Errno.TheVariants.{NoMemory as OutOfMemory};

use std::alloc::{AllocError, AllocFailed};
use std::error::Error;
use std::fmt;

/// Why a call was refused. Each is printed by its E name (errno(3)).
#[derive(Clone, Copy, Debug, PartialEq, Eq)]
pub enum Errno {
    /// No entry of that name, an empty path text, or a directory that was removed (ENOENT).
    NotFound,
    /// No such handle is open, or it is another actor's (EBADF).
    BadHandle,
    /// The tree changed during a resolution, and what it came to may be outside of the root (EAGAIN of
    /// openat2(2)).
    Raced,
    /// Memory was refused (ENOMEM).
    NoMemory,
    /// The object is in use (EBUSY of rmdir(2)). No call of this repository answers it.
    Busy,
    /// An entry of that name is there already (EEXIST).
    Exists,
    /// The path leads out of the root under `beneath` (EXDEV of openat2(2)).
    CrossRoot,
    /// An object that a part is looked up in, or that must be a directory, is no directory (ENOTDIR).
    NotDir,
    /// A directory, where another object is wanted (EISDIR).
    IsDir,
    /// A text with a NUL, bytes that are no name, or an object that the call doesn't take, as a directory moved
    /// below itself (EINVAL).
    Invalid,
    /// The actor holds as many handles as it may, or the numbers of nodes or handles are used up (EMFILE).
    TooMany,
    /// The book has no line left for the event (ENOSPC).
    BookFull,
    /// A path text over 4,095 bytes, or a name over 255 (ENAMETOOLONG).
    TooLong,
    /// A directory that is to be removed or replaced has entries (ENOTEMPTY).
    NotEmpty,
    /// More than 40 links, or a link where none may be followed (ELOOP).
    Loop,
}

impl Errno {
    ghost use Rattle.path_text.specs.Errno.{number_of, name_of};

    /// The error's number, as errno(3) has it for x86-64.
    pub fn number(self) -> u8
        ensures { result ≡ number_of self }
    {
        match self {
            Errno::NotFound => 2,
            Errno::BadHandle => 9,
            Errno::Raced => 11,
            Errno::NoMemory => 12,
            Errno::Busy => 16,
            Errno::Exists => 17,
            Errno::CrossRoot => 18,
            Errno::NotDir => 20,
            Errno::IsDir => 21,
            Errno::Invalid => 22,
            Errno::TooMany => 24,
            Errno::BookFull => 28,
            Errno::TooLong => 36,
            Errno::NotEmpty => 39,
            Errno::Loop => 40,
        }
    }

    /// The error's E name, as errno(3) has it.
    pub fn name(self) -> &'static str
        ensures { result.now ≡ name_of self }
    {
        match self {
            Errno::NotFound => "ENOENT",
            Errno::BadHandle => "EBADF",
            Errno::Raced => "EAGAIN",
            Errno::NoMemory => "ENOMEM",
            Errno::Busy => "EBUSY",
            Errno::Exists => "EEXIST",
            Errno::CrossRoot => "EXDEV",
            Errno::NotDir => "ENOTDIR",
            Errno::IsDir => "EISDIR",
            Errno::Invalid => "EINVAL",
            Errno::TooMany => "EMFILE",
            Errno::BookFull => "ENOSPC",
            Errno::TooLong => "ENAMETOOLONG",
            Errno::NotEmpty => "ENOTEMPTY",
            Errno::Loop => "ELOOP",
        }
    }
}

impl fmt::Display for Errno {
    ghost use Rattle.std.specs.Prelude.{Some};
    ghost use Rattle.path_text.specs.Errno.{name_of};

    ghost output = { λ error. Some (name_of error) };

    fn fmt<W: fmt::Write>(&self, f: &mut fmt::Formatter<W>) -> fmt::Result {
        f.write_str(self.name())
    }
}

impl Error for Errno {}

/// A growth that was refused, as an error by itself. What met it is unchanged, unless it says otherwise.
#[derive(Clone, Copy, Debug, PartialEq, Eq)]
pub struct NoMemory;

impl fmt::Display for NoMemory {
    ghost use Rattle.std.specs.Prelude.{Some};
    ghost use Rattle.path_text.specs.Errno.{name_of};
    ghost use Rattle.path_text.specs.declared.errno.Errno.TheVariants.{NoMemory as OutOfMemory};

    ghost output = { λ _. Some (name_of OutOfMemory) };

    fn fmt<W: fmt::Write>(&self, f: &mut fmt::Formatter<W>) -> fmt::Result {
        f.write_str(Errno::NoMemory.name())
    }
}

impl Error for NoMemory {}

impl From<AllocError> for NoMemory {
    fn from(_error: AllocError) -> NoMemory {
        NoMemory
    }
}

impl<T: Drop> From<AllocFailed<T>> for NoMemory {
    fn from(_error: AllocFailed<T>) -> NoMemory {
        NoMemory
    }
}

impl From<NoMemory> for Errno {
    ghost from_gives = { λ _ error. error ≡ OutOfMemory };

    fn from(_error: NoMemory) -> Errno {
        Errno::NoMemory
    }
}

impl From<AllocError> for Errno {
    ghost from_gives = { λ _ error. error ≡ OutOfMemory };

    fn from(_error: AllocError) -> Errno {
        Errno::NoMemory
    }
}

impl<T: Drop> From<AllocFailed<T>> for Errno {
    ghost from_gives = { λ _ error. error ≡ OutOfMemory };

    fn from(_error: AllocFailed<T>) -> Errno {
        Errno::NoMemory
    }
}
