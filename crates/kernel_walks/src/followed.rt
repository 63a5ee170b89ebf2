//! A path that one system call walks as a whole, through links.
ghost use Rattle.std.specs.Prelude.{◌≡◌};
ghost use Rattle.std.specs.List.{list_all};
ghost use Rattle.path_text.specs.Text.{between_slashes};
ghost use Rattle.kernel_walks.specs.Followed.{follows_at_once, is_short};

use path_text::{Flags, NAME_MAX, Path, SLASH};

// Whether no piece between the slashes is longer than a name may be.
fn are_short(text: &[u8]) -> bool
    ensures { result ≡ list_all is_short (between_slashes text.now) }
{
    for piece in text.split(|byte| *byte == SLASH) {
        if piece.len() > NAME_MAX {
            return false;
        }
    }
    true
}

/// Whether one system call may walk this path as a whole, through links and `..` (openat2(2), RESOLVE_IN_ROOT or
/// RESOLVE_BENEATH, and RESOLVE_NO_SYMLINKS where no link may be followed). If that opens something, it stands for the
/// steps of the walk, which nobody is told, and by `kernel_walks_tell` what it opened was reached by the path's parts
/// and stood below the root. Takes no memory.
///
/// True of a text of 1 to 4,095 bytes without NUL, in which no part has more than 255. False of a path that begins with
/// a slash where that leads out (RESOLVE_BENEATH).
pub fn follows_at_once(flags: Flags, path: &[u8]) -> bool
    ensures { result ≡ follows_at_once flags path.now }
{
    !(flags.beneath && path.first() == Some(&SLASH))
        && Path::fault_of(path).is_none()
        && are_short(path)
}
