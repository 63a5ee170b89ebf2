//! How far a call has come, and how one pass over its path ends.
ghost use Rattle.std.specs.Prelude.{◌≡◌, ◌≤◌, ◌<◌, length};
ghost use Rattle.open_or_make.specs.Pass.{LINKS};
ghost use Rattle.make_through_links.specs.Ends.{again, begin, ended, followed, followed_at_end, led, link_error, unparted};

use open_or_make::{Outcome, behind, front, front_length, joined_length, rest_at};
use path_text::TEXT_MAX;
use system_calls::errors::{EAGAIN, ELOOP, ENAMETOOLONG};
use system_calls::next_try;

// So many links are followed.
const LINKS: u32 = 40;

// The steps of a call have these numbers.
pub(crate) const NO_STEP: u8 = 0;

pub(crate) const STEP_READ_LINK: u8 = 4;

pub(crate) const STEP_MAKE_DIR: u8 = 8;

pub(crate) const STEP_MAKE_FILE: u8 = 9;

/// How far a call has come before a pass. The driver keeps it, beside a room of bytes that has the path at its
/// beginning.
#[repr(C)]
#[derive(Clone, Copy, Debug, PartialEq, Eq)]
pub struct Making {
    /// So many bytes of the room are the path.
    pub length: usize,
    /// So many of them are the path of the directories; what comes behind is the file's name, once it was taken apart.
    pub above: usize,
    /// So many nanoseconds pass before the next call.
    pub pause: u32,
    /// So many links were followed.
    pub links: u32,
    /// This is the so-manieth try: somebody came in between at each before.
    pub tries: u32,
    /// A file is wanted at the path's end, and not a directory.
    pub file: bool,
    /// Its name was taken apart.
    pub parted: bool,
    /// A link that leads to what is missing may be followed.
    pub follows: bool,
    /// Where somebody comes in between, another try may be made.
    pub may_retry: bool,
}

/// How a pass ends.
#[derive(Clone, Copy, Debug, PartialEq, Eq)]
pub enum Came {
    /// The reply is this descriptor.
    Given(u32),
    /// The reply is the last call's error.
    Failed(u32),
    /// The reply is an error of its own, at a step: 4 to read a link, 8 to make a directory, 9 to make a file; or 0.
    Fails(u32, u8),
    /// The same path is walked again.
    Again(Making),
    /// A link's text stands behind so many bytes of the path, before what comes from so many on (`lay_link`).
    Led(Making, usize, usize),
}

/// Begins a call on a path of so many bytes: whether a file is wanted at its end, or a directory; whether a link that
/// leads to what is missing is followed; and whether it may be tried again if somebody comes in between. Takes no
/// memory.
pub fn begin(length: usize, file: bool, follows: bool, may_retry: bool) -> Making
    ensures { result ≡ begin length file follows may_retry }
{
    Making {
        length,
        above: length,
        pause: 0,
        links: 0,
        tries: 1,
        file,
        parted: false,
        follows,
        may_retry,
    }
}

// The reply is what the last call gave.
pub(crate) fn ended(outcome: &Outcome) -> Came
    ensures { result ≡ ended outcome.now }
{
    if outcome.error == 0 {
        Came::Given(outcome.descriptor)
    } else {
        Came::Failed(outcome.error)
    }
}

// Somebody came in between. The path is walked again, if another try is due.
pub(crate) fn again(making: &Making) -> Came
    ensures { result ≡ again making.now }
{
    let next = next_try(making.tries, making.may_retry, EAGAIN, false);
    if next.due {
        Came::Again(Making {
            pause: next.pause,
            tries: making.tries + 1,
            ..*making
        })
    } else {
        Came::Fails(EAGAIN, STEP_MAKE_DIR)
    }
}

// The file's name isn't taken apart.
pub(crate) fn unparted(making: &Making) -> Making
    ensures { result ≡ unparted making.now }
{
    Making {
        above: making.length,
        parted: false,
        ..*making
    }
}

// Why no further link is followed that makes a path of so many bytes, or 0.
fn link_error(links: u32, length: usize) -> u32
    ensures exact { result ≡ link_error links length }
    ensures few { result ≡ 0 → links < LINKS }
{
    if links >= LINKS {
        ELOOP
    } else if length > TEXT_MAX {
        ENAMETOOLONG
    } else {
        0
    }
}

// A link of a directory whose path has so many bytes is followed, if it may be: what comes behind the link begins
// there.
fn led(making: &Making, path: &[u8], dir: usize, at: usize, text: &[u8]) -> Came
    requires { dir ≤ at }
    ensures { result ≡ led making.now path.now dir at text.now }
{
    let before = front(path, front_length(text, dir));
    let length = joined_length(before, text, behind(path, at));
    let error = link_error(making.links, length);
    if error != 0 {
        return Came::Fails(error, STEP_READ_LINK);
    }
    let name = behind(path, making.above).len();
    let now = Making {
        length,
        above: length.saturating_sub(name),
        pause: 0,
        links: making.links + 1,
        ..*making
    };
    Came::Led(now, before.len(), at)
}

// A link stands in the directories' path, behind so many bytes.
pub(crate) fn followed(making: &Making, path: &[u8], dir: usize, text: &[u8]) -> Came
    ensures { result ≡ followed making.now path.now dir text.now }
{
    let missing = behind(front(path, making.above), dir);
    led(making, path, dir, dir + rest_at(missing), text)
}

// A link stands at the path's end.
pub(crate) fn followed_at_end(making: &Making, path: &[u8], text: &[u8]) -> Came
    ensures { result ≡ followed_at_end making.now path.now text.now }
{
    let dir = front(path, making.above).len();
    led(&unparted(making), path, dir, path.len(), text)
}
