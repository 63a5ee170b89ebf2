//! What is done with an object that a call has found.
ghost use Rattle.std.specs.Prelude.{◌≡◌};
ghost use Rattle.system_calls.specs.Uses.{use_of};

use crate::opening::Opening;

/// The call fails.
pub const USE_FAILS: u8 = 0;

/// The descriptor by which it was found is the reply.
pub const USE_GIVES: u8 = 1;

/// It is opened once more, through that descriptor.
pub const USE_REOPENS: u8 = 2;

/// A file without a name is made in it.
pub const USE_MAKES: u8 = 3;

const DIRECTORY: u8 = 1;

/// The one thing that is done with it.
#[repr(C)]
#[derive(Clone, Copy, Debug, PartialEq, Eq)]
pub struct Use {
    /// The flags of open(2) by which it is opened once more, or a file is made in it. Else 0.
    pub flags: u32,
    /// What is done.
    pub what: u8,
    /// Where the call fails, the number of the error (errno(3)). Else 0.
    pub error: u8,
}

fn does(what: u8, flags: u32) -> Use
    ensures { result ≡ record { flags = flags; what = what; error = 0 } }
{
    Use {
        flags,
        what,
        error: 0,
    }
}

/// What is done with an object of this kind, as `kind_of` gives it. If the opening doesn't ask for the kind, any will
/// do. `opening` is one that was taken.
///
/// Errors: EISDIR (21) of a directory under O_CREAT; ENOTDIR (20) of what is none under O_PATH and O_DIRECTORY. Takes
/// no memory.
pub fn use_of(opening: &Opening, kind: u8) -> Use
    ensures { result ≡ use_of opening.now kind }
{
    let error = if kind == DIRECTORY {
        opening.directory_error
    } else {
        opening.other_error
    };
    if error != 0 {
        Use {
            flags: 0,
            what: USE_FAILS,
            error,
        }
    } else if opening.by_path {
        does(USE_GIVES, 0)
    } else if opening.nameless {
        does(USE_MAKES, opening.found_flags)
    } else {
        does(USE_REOPENS, opening.found_flags)
    }
}
