//! What a try opens, and how.
ghost use Rattle.std.specs.Prelude.{◌≡◌, ◌≤◌, length};
ghost use Rattle.open_partial.specs.Beginnings.{IsBeginning};
ghost use Rattle.open_partial.specs.Trials.{trial_of};

use crate::beginnings::beginning;

// The operations of a call have these numbers.
const RESOLVE: u8 = 1;

const RESOLVE_NOFOLLOW: u8 = 2;

/// What a try opens.
#[repr(C)]
#[derive(Clone, Copy, Debug, PartialEq, Eq)]
pub struct Trial {
    /// So many bytes of the path.
    pub length: usize,
    /// The operation: 1 to resolve, 2 without following a link at the end.
    pub op: u8,
    /// Only a directory is of use.
    pub directory: bool,
    /// In the place of no bytes it is `.`.
    pub dot: bool,
}

/// What a try opens of this path: so many of its first pieces. The whole path is opened as what it means; its link at
/// the end is followed if it `follows`. Less is a directory on the way to what comes behind, and links are followed
/// there; no piece and no slash is the directory where the path begins. Takes no memory.
pub fn trial_of(pieces: usize, whole: bool, text: &[u8], follows: bool) -> Trial
    ensures beginning { IsBeginning text.now pieces result.length }
    ensures within { result.length ≤ length text.now }
    ensures exact { result ≡ trial_of whole follows result.length }
{
    let length = beginning(text, pieces);
    Trial {
        length,
        op: if whole && !follows {
            RESOLVE_NOFOLLOW
        } else {
            RESOLVE
        },
        directory: !whole,
        dot: !whole && length == 0,
    }
}
