//! A call by names alone, one of which was missing as they were looked up at once.
ghost use Rattle.std.specs.Prelude.{◌≡◌, ◌==◌};
ghost use Rattle.std.specs.List.{list_all, list_any};
ghost use Rattle.path_text.specs.Name.{NUL, is_name};
ghost use Rattle.path_text.specs.Print.{names_read};
ghost use Rattle.path_text.specs.Text.{between_slashes};
ghost use Rattle.kernel_walks.specs.AtOnce.{fits_piece, has_names, misses_at_once, spells_place};

use path_text::{NAME_MAX, Path, SLASH};

// Whether a piece is neither empty nor `.` nor `..`, and isn't too long for a name.
fn fits_piece(piece: &[u8]) -> bool
    ensures { result ≡ fits_piece piece.now }
{
    !piece.is_empty()
        && piece != b".".as_slice()
        && piece != b"..".as_slice()
        && !(piece.len() > NAME_MAX)
}

// Whether each piece between the slashes is so.
fn are_pieces(text: &[u8]) -> bool
    ensures { result ≡ list_all fits_piece (between_slashes text.now) }
{
    for piece in text.split(|byte| *byte == SLASH) {
        if !fits_piece(piece) {
            return false;
        }
    }
    true
}

fn has_nul(text: &[u8]) -> bool
    ensures { result ≡ list_any (λ b. b == NUL) text.now }
{
    text.contains(&0)
}

// Whether each piece between the slashes is a name. No piece has a slash, and one with NUL is in a text with NUL.
fn are_names(text: &[u8]) -> bool
    ensures { result ≡ list_all is_name (between_slashes text.now) }
{
    !has_nul(text) && are_pieces(text)
}

// Whether it is a slash before each of one or more names.
fn has_names(place: &[u8]) -> bool
    ensures { result ≡ has_names (names_read place.now) }
{
    match place.split_first() {
        Some((&SLASH, [])) => false,
        Some((&SLASH, names)) => are_names(names),
        _ => false,
    }
}

// Whether the path is the place's, with the slash at its beginning or without.
fn spells_place(path: &[u8], place: &[u8]) -> bool
    ensures { result ≡ spells_place path.now place.now }
{
    match place.split_first() {
        Some((_, names)) => path == place || path == names,
        None => false,
    }
}

/// Whether the path is the names of this place alone, with the slash at its beginning or without. If one of them is
/// missing in the directory that those before it led to, a resolve of the path fails by ENOENT, by
/// `fails_at_once_tell`, whichever of them that is (openat2(2), RESOLVE_NO_SYMLINKS). Takes no memory.
///
/// `place` is a slash before each name. False of a path that is none or has another part; and of one that begins with a
/// slash where that leads out (RESOLVE_BENEATH).
pub fn misses_at_once(beneath: bool, path: &[u8], place: &[u8]) -> bool
    ensures { result ≡ misses_at_once beneath path.now place.now }
{
    !(beneath && path.first() == Some(&SLASH))
        && Path::fault_of(path).is_none()
        && has_names(place)
        && spells_place(path, place)
}
