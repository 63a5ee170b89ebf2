//! Where an object stands below a root, in the text that the kernel told of it.
ghost use Rattle.std.specs.Prelude.{◌≡◌};
ghost use Rattle.std.specs.Option.{option_copied};
ghost use Rattle.system_calls.specs.Place.{ends_as_gone, is_named, last_part, place_below, place_told};

use path_text::{SLASH, TEXT_MAX, begins_with_slash};

/// Whether a text ends in ` (deleted)`, as the kernel writes of what was removed. A name may end so, too.
pub fn ends_as_gone(text: &[u8]) -> bool
    ensures { result ≡ ends_as_gone text.now }
{
    text.ends_with(b" (deleted)".as_slice())
}

// A path's place below a directory.
fn place_below<'a>(root: &[u8], path: &'a [u8]) -> Option<&'a [u8]>
    ensures { option_copied result ≡ place_below root.now path.now }
{
    if !begins_with_slash(root) || !begins_with_slash(path) {
        return None;
    }
    if root == b"/".as_slice() {
        return Some(path);
    }
    let rest = path.strip_prefix(root)?;
    match rest.first() {
        None => Some(b"/".as_slice()),
        Some(&SLASH) => Some(rest),
        Some(_) => None,
    }
}

/// Where an object stands below a root, by the texts of their links in /proc/pid/fd (proc(5)), without a NUL.
///
/// The place is what comes behind the root's path: a slash before each name, or a slash alone for the root itself.
/// It is told by the whole text: `/srv/root2` isn't below `/srv/root`. None is told where one of the paths doesn't
/// begin with a slash, and of a path of more than 4,095 bytes, which readlink(2) may have cut off.
pub fn place_told<'a>(root: &[u8], path: &'a [u8]) -> Option<&'a [u8]>
    ensures { option_copied result ≡ place_told root.now path.now }
{
    if path.len() > TEXT_MAX {
        return None;
    }
    place_below(root, path)
}

// What stands behind the last slash.
fn last_part(text: &[u8]) -> &[u8]
    ensures { result.now ≡ last_part text.now }
{
    let mut at = text.len();
    while at > 0 && text[at - 1] != SLASH {
        at -= 1;
    }
    &text[at..]
}

/// Whether an object that was found at a place has a name still, by what a link of /proc/pid/fd tells of it
/// afterwards (proc(5)): that text doesn't end in ` (deleted)`, or its last name is that of the place, and so ends
/// in these bytes itself.
pub fn is_named(again: &[u8], place: &[u8]) -> bool
    ensures { result ≡ is_named again.now place.now }
{
    !ends_as_gone(again) || last_part(again) == last_part(place)
}
