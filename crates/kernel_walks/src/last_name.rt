//! Where a path's last name stands in it.
ghost use Rattle.std.specs.Prelude.{◌≡◌, ◌≢◌, [], false, not, ◌&&◌};
ghost use Rattle.path_text.specs.Text.{ends_with_slash, part_of};
ghost use Rattle.kernel_walks.specs.Split.{piece_fault, refused, IsCutAt, IsParted};

use path_text::{Errno, NAME_MAX, Path, before_slashes, ends_with_slash};

/// Where a path's last name stands in it, or why it has none. What comes before the name is its directory's path, which
/// is empty where that is the one that the path begins at.
#[repr(C)]
#[derive(Clone, Copy, Debug, PartialEq, Eq)]
pub struct Parted {
    /// How many bytes come before the name.
    pub name: usize,
    /// How many bytes the name has.
    pub length: usize,
    /// Whether a slash stands at the path's end.
    pub slash: bool,
    /// 0, or the number of the error (errno(3)). Then the others are 0.
    pub error: u8,
}

fn refused(error: Errno) -> Parted
    ensures { result ≡ refused error }
{
    Parted {
        name: 0,
        length: 0,
        slash: false,
        error: error.number(),
    }
}

// How much comes before the last piece of a text that ends in one.
fn before_piece(text: &[u8]) -> usize
    requires some { text.now ≢ [] }
    requires last { ends_with_slash text.now ≡ false }
    ensures { IsCutAt text.now result }
{
    path_text::before_piece(text).len()
}

// Whether a slash is there and is not taken away.
fn refuses(slash: bool, takes_slash: bool) -> bool
    ensures { result ≡ slash && not takes_slash }
{
    slash && !takes_slash
}

// Why this piece is no last name, where a slash at its end is refused or not.
fn piece_fault(piece: &[u8], refuses: bool) -> Option<Errno>
    ensures { result ≡ piece_fault (part_of piece.now) refuses }
{
    if piece == b".".as_slice() || piece == b"..".as_slice() {
        return Some(Errno::Invalid);
    }
    if refuses {
        return Some(Errno::NotDir);
    }
    if piece.len() > NAME_MAX {
        return Some(Errno::TooLong);
    }
    None
}

/// Where the last name of a path stands in it, as the calls on one entry take their path apart: what comes before the
/// name is the path of the directory. Takes no memory.
///
/// Errors, in this order: NotFound of an empty text (ENOENT), Invalid of one with a NUL, TooLong of one over 4,095
/// bytes (ENAMETOOLONG); Invalid where no name is left at the end, but nothing, `.` or `..` (EINVAL), NotDir of a
/// slash at the end unless it is taken away (ENOTDIR), TooLong of a name over 255 bytes.
pub fn split(path: &[u8], takes_slash: bool) -> Parted
    ensures { IsParted path.now takes_slash result }
{
    if let Some(fault) = Path::fault_of(path) {
        return refused(fault);
    }
    let ended = before_slashes(path);
    if ended.is_empty() {
        return refused(Errno::Invalid);
    }
    let slash = ends_with_slash(path);
    let name = before_piece(ended);
    if let Some(fault) = piece_fault(&ended[name..], refuses(slash, takes_slash)) {
        return refused(fault);
    }
    Parted {
        name,
        length: ended.len() - name,
        slash,
        error: 0,
    }
}
