//! The first turn of a call: most calls begin with one look-up.
ghost use Rattle.std.specs.Prelude.{◌≡◌, ◌&&◌, ℕ, List, bit_or, false, true, drop, MatchOption, Some};
ghost use Rattle.path_text.specs.Text.{begins_with_slash};
ghost use Rattle.kernel_calls.specs.Entry.{EntryAt, IsDivision};
ghost use Rattle.kernel_calls.specs.Flags.{has};
ghost use Rattle.kernel_calls.specs.Look.{look_up};
ghost use Rattle.kernel_calls.specs.Path.{at_of};
ghost use Rattle.linux_call.specs.Turns.{IsAsked, IsFirst, IsLinkText, IsPlain, IsWhole, path_flags};
ghost use Rattle.linux_call.specs.Whole.{CallDialogue, makes, opening, removes, takes_slash};

use crate::calls::is_wrong;
use crate::due::{Due, due_of};
use crate::inner::fault_of;
use crate::makes::takes_slash;
use crate::open_at;
use crate::path::PathOf;
use crate::progress::Progress;
use crate::request::*;
use crate::walk::{BENEATH, Below, EXACT, GIVE, NOFOLLOW, O_PATH, bit, has};
use kernel_calls::{LastName, named};
use path_text::{SLASH, TEXT_MAX};
use system_calls::Opening;

// The look-up of a path is due, if the kernel may walk the path.
#[inline(always)]
fn looks_up(request: &Request, at: &Below<'_>, how: u32, mode: u32, room: &mut [u8]) -> Option<Due>
    ensures { MatchOption result (Unit {0}) (λ d.
        IsAsked (look_up request.now.known (at_of at.now) how mode) d room.new) }
{
    match Progress::new(&[], request.known, false).look_up(at, how, mode) {
        Err(question) => Some(due_of(&question, request, room)),
        Ok(_) => None,
    }
}

// The same, by these flags of inroot.h, if nothing is wrong with them.
#[inline(always)]
fn walks(
    request: &Request,
    flags: u32,
    path: PathOf<'_>,
    how: u32,
    mode: u32,
    room: &mut [u8],
) -> Option<Due>
    ensures { MatchOption result (Unit {0}) (λ d. IsAsked (look_up request.now.known
        (record { root = request.now.root; flags = flags; slashed = path.entry.slashed.now; looked = false }) how mode)
        d room.new) }
{
    if fault_of(flags, request.root) != 0 || has(flags, EXACT) {
        return None;
    }
    let at = Below {
        root: request.root,
        flags,
        path,
        looked: false,
    };
    looks_up(request, &at, how, mode, room)
}

#[inline(always)]
fn open_first(request: &Request, path: PathOf<'_>, room: &mut [u8]) -> Option<Due>
    ensures { MatchOption result (Unit {0}) (λ d. IsAsked (look_up request.now.known
        (record {
          root = request.now.root;
          flags = (opening request.now).flags;
          slashed = path.entry.slashed.now;
          looked = false;
        })
        (path_flags request.now) 0) d room.new) }
{
    let machine = &request.known.machine;
    let last = bit(has(request.flags, NOFOLLOW), machine.nofollow);
    let directory = bit(request.directory, machine.directory);
    let flags = request.flags & !NOFOLLOW;
    walks(request, flags, path, O_PATH | last | directory, 0, room)
}

// What a call changes besides is without fault.
#[inline(always)]
fn is_fine(request: &Request, second: PathOf<'_>) -> bool
    ensures { result ≡ true → request.now.what ≡ 6 → IsLinkText (drop 1 second.entry.slashed.now) }
{
    match request.what {
        SYMLINK => !second.text().is_empty() && second.text().len() <= TEXT_MAX,
        RENAME => named(second, false).is_some(),
        _ => true,
    }
}

#[inline(always)]
fn leads_out(flags: u32, path: PathOf<'_>) -> bool
    ensures { result ≡ (has flags 1 && begins_with_slash (drop 1 path.entry.slashed.now)) }
{
    has(flags, BENEATH) && path.text().first() == Some(&SLASH)
}

// The look-up of the directory that has the entry which a call changes. Under INROOT_GIVE it is asked first what the
// kernel has.
#[inline(always)]
fn change_first(
    request: &Request,
    flags: u32,
    path: PathOf<'_>,
    second: PathOf<'_>,
    room: &mut [u8],
) -> Option<Due>
    ensures { MatchOption result (Unit {0}) (λ d. (n : EntryAt) × (above : List ℕ)
        × IsDivision path.entry.slashed.now (takes_slash request.now.what) n × (n.above ≡ Some above)
        × (has flags 1 && begins_with_slash (drop 1 path.entry.slashed.now) ≡ false)
        × (request.now.what ≡ 6 → IsLinkText (drop 1 second.entry.slashed.now))
        × IsAsked (look_up request.now.known
        (record { root = request.now.root; flags = flags; slashed = above; looked = false })
        (bit_or 2097152 request.now.known.machine.directory) 0) d room.new) }
{
    if !is_fine(request, second) || is_wrong(request) || leads_out(flags, path) {
        return None;
    }
    match named(path, takes_slash(request.what)) {
        Some(
            LastName {
                above: Some(above),
                ..
            },
        ) => {
            let how = O_PATH | request.known.machine.directory;
            walks(request, flags, above, how, 0, room)
        }
        _ => None,
    }
}

#[inline(always)]
fn makes(what: u8) -> bool
    ensures { result ≡ makes what }
{
    match what {
        MKDIR | SYMLINK | MAKE_NODE => true,
        _ => false,
    }
}

#[inline(always)]
fn removes(what: u8) -> bool
    ensures { result ≡ removes what }
{
    match what {
        UNLINK | RMDIR | RENAME => true,
        _ => false,
    }
}

// Most calls begin with the look-up that `run` would ask for: that takes no more than this.
#[inline(always)]
pub(crate) fn look_up_first(
    request: &Request,
    opening: &Opening,
    first: &[u8],
    second: &[u8],
    room: &mut [u8],
) -> Option<Due>
    ensures { MatchOption result (Unit {0}) (λ d. IsPlain request.now → (s : CallDialogue)
        → IsWhole request.now first.now second.now s → IsFirst request.now first.now s d room.new) }
{
    let path = PathOf::new(first).front(request.length as usize);
    let (flags, other) = (request.flags, PathOf::new(second));
    if request.what == RESOLVE {
        return open_first(request, path, room);
    }
    if makes(request.what) {
        return if has(flags, GIVE) {
            None
        } else {
            change_first(request, flags & !GIVE, path, other, room)
        };
    }
    if removes(request.what) {
        return change_first(request, flags, path, other, room);
    }
    if request.what == OPEN_AT && opening.error == 0 && opening.finds {
        let how = open_at::how_of(&request.known.machine, opening);
        let mode = open_at::mode_of(request, opening);
        walks(request, flags, path, how, mode, room)
    } else {
        None
    }
}
