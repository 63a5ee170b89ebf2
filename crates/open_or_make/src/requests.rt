//! What each call is asked for.
ghost use Rattle.std.specs.Prelude.{◌≡◌};
ghost use Rattle.open_or_make.specs.Requests.{creating, finding, reading, request_of};

use crate::asking::Question;
use system_calls::Opening;

// The operations of a call have these numbers.
const RESOLVE: u8 = 1;

const RESOLVE_NOFOLLOW: u8 = 2;

const READLINK: u8 = 3;

const MKFILE: u8 = 4;

const S_IFREG: u32 = 0o100000;

/// What a call is asked for. The driver makes it on the path of that moment.
#[repr(C)]
#[derive(Clone, Copy, Debug, PartialEq, Eq)]
pub struct Request {
    /// The mode of a new file, with its kind if it isn't opened as it is made.
    pub bits: u32,
    /// By these flags a new file is opened as it is made (open(2)).
    pub flags: u32,
    /// The operation: 1 to resolve, 2 without following a link at the end, 3 to read a link, 4 to make a file.
    pub op: u8,
    /// Only a directory is of use.
    pub directory: bool,
    /// It is told of which kind the object is.
    pub asks_kind: bool,
    /// A new file is opened as it is made.
    pub opens: bool,
    /// A new file is made, and its name opened then.
    pub gives: bool,
    /// The text that is read is walked afterwards.
    pub walks: bool,
}

const NOTHING: Request = Request {
    bits: 0,
    flags: 0,
    op: READLINK,
    directory: false,
    asks_kind: false,
    opens: false,
    gives: false,
    walks: false,
};

fn finding(opening: &Opening) -> Request
    ensures { result ≡ finding opening.now }
{
    Request {
        op: if opening.follows {
            RESOLVE
        } else {
            RESOLVE_NOFOLLOW
        },
        directory: opening.directory,
        asks_kind: opening.asks_kind,
        ..NOTHING
    }
}

fn creating(opening: &Opening, mode: u32) -> Request
    ensures { result ≡ creating opening.now mode }
{
    Request {
        op: MKFILE,
        bits: if opening.by_path {
            mode | S_IFREG
        } else {
            mode
        },
        flags: opening.made_flags,
        opens: !opening.by_path,
        gives: opening.by_path,
        ..NOTHING
    }
}

fn reading() -> Request
    ensures { result ≡ reading }
{
    Request {
        walks: true,
        ..NOTHING
    }
}

/// What a call is asked for, by the opening, the mode of a new file, and which call it is. Takes no memory.
///
/// What is there is resolved, with its link at the end or without, as the flags say. A new file is opened as it is
/// made, by the flags of the opening; or, if it is only named by its descriptor, made as a regular file, whose name is
/// opened then.
pub fn request_of(opening: &Opening, mode: u32, question: Question) -> Request
    ensures { result ≡ request_of opening.now mode question }
{
    match question {
        Question::Find => finding(opening),
        Question::Create => creating(opening, mode),
        _ => reading(),
    }
}
