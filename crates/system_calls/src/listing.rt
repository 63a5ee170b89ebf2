//! A directory's names in the order of their bytes.
ghost use Rattle.std.specs.Prelude.{◌≡◌, ◌≤◌, ◌++◌, length, drop, map, IfOk};
ghost use Rattle.path_text.specs.Print.{after_slashes};
ghost use Rattle.path_text.specs.Text.{pieces};
ghost use Rattle.system_calls.specs.Listing.{AreInOrder, Sorts};

use crate::records::lay_name;
use path_text::{Errno, SLASH};
use std::alloc::{AllocError, Global};

/// The error of a room that is too short: ERANGE of errno(3).
pub const NO_ROOM: u8 = 34;

/// What was sorted.
#[repr(C)]
#[derive(Clone, Copy, Debug, PartialEq, Eq)]
pub struct Sorted {
    /// So many bytes of names lie in the room now.
    pub length: usize,
    /// 0, or the number of the error (errno(3)).
    pub error: u8,
}

// The pieces of a text between its slashes, in the order of their bytes.
fn sorted_pieces<'a>(alloc: Global, text: &'a [u8]) -> Result<Vec<&'a [u8]>, AllocError>
    ensures { IfOk result (λ names. AreInOrder (pieces text.now) (map (λ name. name.now) names.items)) }
{
    let mut names: Vec<&[u8]> = text
        .split(|byte| *byte == SLASH)
        .filter(|piece| !piece.is_empty())
        .collect(alloc)?;
    names.sort_unstable();
    Ok(names)
}

// Lays a slash and a name, one after another, at the room's beginning. Tells how many bytes these are.
fn lay_names(names: &[&[u8]], room: &mut [u8]) -> usize
    requires { length (after_slashes (map (λ name. name.now) names.now)) ≤ length room.old }
    ensures count { result ≡ length (after_slashes (map (λ name. name.now) names.now)) }
    ensures bytes { room.new ≡ after_slashes (map (λ name. name.now) names.now)
        ++ drop (length (after_slashes (map (λ name. name.now) names.now))) room.old }
{
    let mut used = 0;
    for name in names {
        lay_name(name, used, room);
        used += name.len() + 1;
    }
    used
}

/// Sorts names by their bytes. The text is the names with a slash before each, as `take_names` lays them. At the
/// room's beginning they then lie in the order of their bytes, with a slash before each; no names are a slash
/// alone. What the room had behind that stays. It needs room for a byte more than the text has.
///
/// Errors, in this order: ERANGE (34) of a room that is no longer than the text; ENOMEM (12). Nothing is laid then.
pub fn sort_names(alloc: Global, text: &[u8], room: &mut [u8]) -> Sorted
    ensures { Sorts text.now room.old room.new result }
{
    if room.len() <= text.len() {
        return Sorted {
            length: 0,
            error: NO_ROOM,
        };
    }
    let Ok(sorted) = sorted_pieces(alloc, text) else {
        return Sorted {
            length: 0,
            error: Errno::NoMemory.number(),
        };
    };
    let names = sorted.as_slice();
    if names.is_empty() {
        room[0] = SLASH;
        return Sorted {
            length: 1,
            error: 0,
        };
    }
    let length = lay_names(names, room);
    Sorted { length, error: 0 }
}
