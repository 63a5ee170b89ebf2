//! The meaning of a path, computed: a plain program that resolves a path in the nodes of a tree that stands
//! still. It is slow, recurses for each link and takes no memory; a walk is compared with it.
ghost use Rattle.std.specs.Prelude.{◌≡◌, ◌<◌, ◌||◌, nat_lt, length, slice_get, MatchResult, Some};
ghost use Rattle.path_text.specs.Text.{pieces, part_of, parts_of, has_final_slash, begins_with_slash};
ghost use Rattle.walk_plan.specs.Plan.{leads_out};
ghost use Rattle.step_resolver.specs.Asked.{Cur, ask, asked};
ghost use Rattle.step_resolver.specs.Meaning.{from_of, above_of, link_in, part_means, parts_mean, resolution, is_object, is_error, resolved};
ghost use Rattle.step_resolver.specs.Plain.{arrival, meant};

use path_text::{
    Errno, Flags, NAME_MAX, Path, SLASH, begins_with_slash, count_pieces, has_final_slash,
};
use std::marker::Model;
use tree_model::{Inode, Node, Object, child, is_dir, object_at, parent};
use walk_plan::LINKS_MAX;

// Where a path is resolved.
#[derive(Drop)]
struct Ground<'a> {
    nodes: &'a [Inode],
    root: Node,
    flags: Flags,
}

impl<'a> Model for Ground<'a> {
    ghost use Rattle.step_resolver.specs.Meaning.{Ground};

    ghost Value = { Ground };

    ghost view = { λ g. record { nodes = g.nodes.now; root = g.root; flags = g.flags } };
}

/// Where the parts of a path lead, and how many more links may be followed from there.
#[derive(Clone, Copy)]
struct Arrived {
    node: Node,
    links: u8,
}

// The piece of that place in a text.
fn piece_at(text: &[u8], at: usize) -> &[u8]
    requires { at < length (pieces text.now) }
    ensures { slice_get (pieces text.now) at ≡ Some result.now }
{
    text.split(|byte| *byte == SLASH)
        .filter(|piece| !piece.is_empty())
        .nth(at)
        .unwrap_or(text)
}

// Whether a link at a part is followed: where the very last one would be, or where another part comes next.
fn is_followed(follow: bool, slash: bool, next: usize, count: usize) -> bool
    ensures { result ≡ (follow || slash || nat_lt next count) }
{
    follow || slash || next < count
}

// Where a link's text begins.
fn from_of(root: Node, dir: Node, text: &[u8]) -> Node
    ensures { result ≡ from_of root dir text.now }
{
    if begins_with_slash(text) { root } else { dir }
}

// Whether a link may not be followed under `beneath`.
fn leads_out(flags: Flags, text: &[u8]) -> bool
    ensures { result ≡ leads_out (begins_with_slash text.now) flags }
{
    flags.beneath && begins_with_slash(text)
}

// What `..` means.
fn above(on: &Ground, here: Arrived) -> Result<Arrived, Errno>
    ensures { result ≡ arrival (above_of on.now here.node here.links) }
{
    if here.node == on.root {
        return if on.flags.beneath {
            Err(Errno::CrossRoot)
        } else {
            Ok(here)
        };
    }
    match parent(on.nodes, here.node) {
        Some(node) => Ok(Arrived {
            node,
            links: here.links,
        }),
        None => Err(Errno::NotFound),
    }
}

// What `.` means.
fn entered(on: &Ground, here: Arrived) -> Result<Arrived, Errno>
    ensures { result ≡ arrival (part_means (meant on.now) on.now here.node Cur here.links) }
{
    if is_dir(on.nodes, here.node) {
        Ok(here)
    } else {
        Err(Errno::NotDir)
    }
}

// What a link means that is followed.
#[cycle(meaning)]
fn link_means(on: &Ground, here: Arrived, text: &[u8]) -> Result<Arrived, Errno>
    ensures { result ≡ arrival (link_in (meant on.now) on.now here.node text.now here.links) }
{
    if here.links == 0 || on.flags.no_links {
        return Err(Errno::Loop);
    }
    if leads_out(on.flags, text) {
        return Err(Errno::CrossRoot);
    }
    let from = from_of(on.root, here.node, text);
    text_means(on, from, text, true, here.links - 1)
}

// What one part means.
#[cycle(meaning)]
fn piece_means(on: &Ground, here: Arrived, piece: &[u8], follow: bool) -> Result<Arrived, Errno>
    ensures { result ≡ arrival
        (part_means (meant on.now) on.now here.node (ask follow (part_of piece.now)) here.links) }
{
    if !is_dir(on.nodes, here.node) {
        return Err(Errno::NotDir);
    }
    if piece == b".".as_slice() {
        return Ok(here);
    }
    if piece == b"..".as_slice() {
        return above(on, here);
    }
    if piece.len() > NAME_MAX {
        return Err(Errno::TooLong);
    }
    let Some(node) = child(on.nodes, here.node, piece) else {
        return Err(Errno::NotFound);
    };
    match object_at(on.nodes, node) {
        Some(Object::Link(text)) if follow => link_means(on, here, text.as_slice()),
        _ => Ok(Arrived {
            node,
            links: here.links,
        }),
    }
}

// What the parts of a text mean, one after another.
#[cycle(meaning)]
fn text_means(
    on: &Ground,
    from: Node,
    text: &[u8],
    follow: bool,
    links: u8,
) -> Result<Arrived, Errno>
    ensures { result ≡ arrival (parts_mean (meant on.now) on.now from (asked follow (parts_of text.now)) links) }
{
    let count = count_pieces(text);
    let slash = has_final_slash(text, count);
    let mut here = Arrived { node: from, links };
    for at in 0..count {
        let is_followed = is_followed(follow, slash, at + 1, count);
        here = piece_means(on, here, piece_at(text, at), is_followed)?;
    }
    if slash { entered(on, here) } else { Ok(here) }
}

/// The object that a path means in the tree of these nodes, below that root: what openat2(2) with
/// RESOLVE_IN_ROOT resolves it to where nothing changes meanwhile. A link at the path's very end is followed
/// only where `follow` says so (O_NOFOLLOW of open(2)). Takes no memory.
///
/// Errors: first those of the text, NotFound (ENOENT) where it is empty, Invalid where it has a NUL, TooLong
/// past 4,095 bytes; CrossRoot (EXDEV) under `beneath` for an absolute one. Then the first that its parts
/// meet in order: NotDir for a part of what is no directory, CrossRoot under `beneath` for `..` at the root,
/// NotFound for `..` of a directory that was removed, TooLong for a name past 255 bytes, NotFound for one
/// that isn't there, Loop for the 41st link, and for the first under `no_links`, CrossRoot under `beneath`
/// for a link whose text is absolute (path_resolution(7), openat2(2)).
pub fn resolve_whole(
    nodes: &[Inode],
    root: Node,
    text: &[u8],
    follow: bool,
    flags: Flags,
) -> Result<Node, Errno>
    ensures { MatchResult result
        (λ node. resolution (resolved nodes.now root text.now follow flags) ≡ is_object node)
        (λ error. resolution (resolved nodes.now root text.now follow flags) ≡ is_error error) }
{
    if let Some(fault) = Path::fault_of(text) {
        return Err(fault);
    }
    if leads_out(flags, text) {
        return Err(Errno::CrossRoot);
    }
    let on = Ground { nodes, root, flags };
    let Arrived { node, .. } = text_means(&on, root, text, follow, LINKS_MAX)?;
    Ok(node)
}
