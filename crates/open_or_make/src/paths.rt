//! Where a path goes on behind a link.
ghost use Rattle.std.specs.Prelude.{◌≡◌, ◌+◌, ◌-◌, ◌≤◌, ◌<◌, ◌^◌, ◌∷◌, ◌++◌, ◌==◌, if◌then◌else◌, length, take, drop};
ghost use Rattle.path_text.specs.Text.{begins_with_slash};
ghost use Rattle.path_text.specs.declared.name.TheConstants.{SLASH};
ghost use Rattle.open_or_make.specs.Paths.{before_rest, directory_length, kept_length, rest_at, slashes_size, way};

use path_text::{SLASH, begins_with_slash, name_length};

/// A text's first bytes, so many at most.
pub fn front(text: &[u8], length: usize) -> &[u8]
    ensures { result.now ≡ take length text.now }
{
    if length < text.len() {
        &text[..length]
    } else {
        text
    }
}

/// What comes behind so many bytes of a text.
pub fn behind(text: &[u8], at: usize) -> &[u8]
    ensures { result.now ≡ drop at text.now }
{
    if at < text.len() {
        &text[at..]
    } else {
        &text[..0]
    }
}

// How many slashes a text begins with.
fn slashes_length(text: &[u8]) -> usize
    ensures exact { result ≡ slashes_size text.now }
    ensures within { result ≤ length text.now }
{
    match text.iter().position(|byte| *byte != SLASH) {
        Some(at) => at,
        None => text.len(),
    }
}

/// Where a text goes on behind its first name and the slashes there.
pub fn rest_at(text: &[u8]) -> usize
    ensures exact { result ≡ rest_at text.now }
    ensures within { result ≤ length text.now }
{
    let name = name_length(text);
    name + slashes_length(&text[name..])
}

/// How long the path of a link's directory is, of so many bytes, before this text.
pub fn front_length(text: &[u8], dir: usize) -> usize
    ensures exact { result ≡ (if begins_with_slash text.now then 0 else dir) }
    ensures within { result ≤ dir }
{
    if begins_with_slash(text) { 0 } else { dir }
}

// How many bytes come before a path's last name.
fn directory_length(path: &[u8]) -> usize
    ensures exact { result ≡ directory_length path.now }
    ensures within { result ≤ length path.now }
{
    let mut at = path.len();
    while at > 0 && path[at - 1] != SLASH {
        at -= 1;
    }
    at
}

// So many bytes of a path stay before the text of the link at its end.
pub(crate) fn kept_length(path: &[u8], text: &[u8]) -> usize
    ensures exact { result ≡ kept_length path.now text.now }
    ensures within { result ≤ length path.now }
{
    front_length(text, directory_length(path))
}

/// How long a path is of a link's text, what comes before it, and what comes behind the link.
pub fn joined_length(front: &[u8], text: &[u8], rest: &[u8]) -> usize
    requires { length front.now + length rest.now < 2 ^ 63 }
    ensures { result ≡ length (front.now ++ before_rest text.now rest.now) }
{
    if rest.is_empty() {
        front.len() + text.len()
    } else {
        front.len() + rest.len() + 1 + text.len()
    }
}

// Lays a text at the beginning of the room.
fn lay(text: &[u8], room: &mut [u8])
    requires { length text.now ≤ length room.old }
    ensures exact { take (length text.now) room.new ≡ text.now }
    ensures rest { drop (length text.now) room.new ≡ drop (length text.now) room.old }
    ensures size { length room.new ≡ length room.old }
{
    room[..text.len()].copy_from_slice(text);
}

// Lays what comes behind the link behind so many bytes, and a slash before it.
fn make_way(size: usize, at: usize, path_length: usize, room: &mut [u8])
    requires at { at ≤ path_length }
    requires path { path_length ≤ length room.old }
    requires room { size + 1 + (path_length - at) ≤ length room.old }
    ensures exact { take (1 + (path_length - at)) (drop size room.new) ≡ SLASH ∷ drop at (take path_length room.old) }
    ensures size { length room.new ≡ length room.old }
{
    room.copy_within(at..path_length, size + 1);
    room[size] = SLASH;
}

// Lays a link's text before what comes behind the link in a path.
fn lay_before(text: &[u8], at: usize, path_length: usize, room: &mut [u8])
    requires at { at ≤ path_length }
    requires path { path_length ≤ length room.old }
    requires room { (if path_length - at == 0 then length text.now else length text.now + 1 + (path_length - at))
        ≤ length room.old }
    ensures exact { take (if path_length - at == 0 then length text.now else length text.now + 1 + (path_length - at))
        room.new ≡ before_rest text.now (drop at (take path_length room.old)) }
    ensures size { length room.new ≡ length room.old }
{
    if at < path_length {
        make_way(text.len(), at, path_length, room);
    }
    lay(text, room);
}

fn way_length(text: &[u8], front: usize, at: usize, path_length: usize, room: &[u8]) -> usize
    requires front { front ≤ at }
    requires at { at ≤ path_length }
    requires path { path_length ≤ length room.now }
    ensures { result ≡ length (way (take path_length room.now) text.now front at) }
{
    joined_length(&room[..front], text, &room[at..path_length])
}

// Lays a link's text into a path, where there is room.
fn lay_within(text: &[u8], front: usize, at: usize, path_length: usize, room: &mut [u8])
    requires front { front ≤ at }
    requires at { at ≤ path_length }
    requires path { path_length ≤ length room.old }
    requires room { length (way (take path_length room.old) text.now front at) ≤ length room.old }
    ensures exact { take (length (way (take path_length room.old) text.now front at)) room.new
        ≡ way (take path_length room.old) text.now front at }
    ensures size { length room.new ≡ length room.old }
{
    lay_before(text, at - front, path_length - front, &mut room[front..]);
}

/// Lays a link's text into the path of so many bytes at the beginning of a room: behind its first FRONT bytes, and
/// before what comes from AT on. Nothing changes where there is no room for that. Takes no memory.
pub fn lay_link(text: &[u8], front: usize, at: usize, path_length: usize, room: &mut [u8])
    ensures lays { front ≤ at → at ≤ path_length → path_length ≤ length room.old
        → length (way (take path_length room.old) text.now front at) ≤ length room.old
        → take (length (way (take path_length room.old) text.now front at)) room.new
        ≡ way (take path_length room.old) text.now front at }
    ensures size { length room.new ≡ length room.old }
{
    if front > at || at > path_length || path_length > room.len() {
        return;
    }
    if way_length(text, front, at, path_length, room) <= room.len() {
        lay_within(text, front, at, path_length, room);
    }
}
