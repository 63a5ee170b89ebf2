//! Whole calls, by the kernel's walk and by single steps: each system call that is due, by answers that Linux gives.
ghost use Rattle.std.specs.Prelude.{◌≡◌, true, IsSome};

use crate::talks::{known, nothing};
use dialogue::Answer;
use find_proc::{Kept, Known};
use fixtures::rows::{name_of, number};
use linux_call::{Due, Request, State, turn};
use std::alloc::{AllocError, Global};
use std::process::Abort;

// What may be due: a system call, another thing, or the end.
const DUE: [(&str, u8); 16] = [
    ("openat2", 1),
    ("openat", 2),
    ("statx", 3),
    ("fstatfs", 4),
    ("getdents64", 5),
    ("readlinkat", 6),
    ("close", 7),
    ("dup", 9),
    ("mkdirat", 10),
    ("unlinkat", 14),
    ("renameat2", 15),
    ("claim", 26),
    ("keep", 27),
    ("fstat", 30),
    ("value", 32),
    ("fails", 33),
];

const CALLS: [(&str, u8); 9] = [
    ("resolve", 1),
    ("mkdir", 5),
    ("rename", 9),
    ("remove_all", 11),
    ("open_at", 16),
    ("status", 17),
    ("make_file", 21),
    ("open_parent", 24),
    ("place", 25),
];

// What is due of a call by as many answers; TEXTS: its texts, before each a slash.
#[derive(Drop)]
struct Talk {
    request: Request,
    texts: (&'static [u8], &'static [u8]),
    answers: [Answer; 16],
    read: [u8; 4352],
    room: [u8; 9216],
}

// A call below the root 3, or on the object 5. EXACT, GIVE: flags of inroot.h; BARE: the program has no /proc yet;
// LACKING: nor is it known that the kernel has what is needed; OPENS: O_RDWR and O_CREAT.
fn request(words: &str, length: usize) -> Request {
    let name = words.split('+').next().unwrap_or("");
    let mut what = 0;
    for (call, number) in CALLS {
        if call == name {
            what = number;
        }
    }
    let (known, is_bare) = (known(), words.contains("+bare"));
    Request {
        known: Known {
            kept: Kept {
                there: !is_bare,
                claimed: !is_bare,
                ..known.kept
            },
            has_floor: !words.contains("+lacking"),
            ..known
        },
        length: length as u64,
        device: 0,
        size: 100,
        accessed: 0,
        changed: 0,
        root: 3,
        fd: 5,
        flags: if words.contains("+exact") {
            16384
        } else if words.contains("+give") {
            256
        } else {
            0
        },
        how: if words.contains("+opens") { 0o102 } else { 0 },
        mode: 0o700,
        above: 0,
        user: 0,
        group: 0,
        what,
        opens: false,
        linked: false,
        gives: false,
        directory: false,
        asks_kind: false,
    }
}

fn begun(call: &'static str) -> Talk {
    let (words, paths) = call.split_once(' ').unwrap_or((call, "/"));
    let (first, second) = paths.split_once(' ').unwrap_or((paths, "/"));
    Talk {
        request: request(words, first.len().saturating_sub(1)),
        texts: (first.as_bytes(), second.as_bytes()),
        answers: [nothing(); 16],
        read: [0; 4352],
        room: [0; 9216],
    }
}

// Takes a turn.
fn take(alloc: Global, talk: &mut Talk, state: &mut State) -> Due
    requires { state.old.by_steps ≡ true → IsSome state.old.steps.held }
    ensures { state.new.by_steps ≡ true → IsSome state.new.steps.held }
{
    let mut first = [0u8; 4098];
    let length = talk.texts.0.len().min(first.len());
    first[..length].copy_from_slice(&talk.texts.0[..length]);
    let mut due = Due {
        number: 0,
        resolve: 0,
        mount: 0,
        fd: 0,
        other: 0,
        mode: 0,
        at: 0,
        closes: 0,
        first_closed: 0,
        second_closed: 0,
        what: 0,
        step: 0,
        again: false,
    };
    turn(
        alloc,
        &mut talk.request,
        state,
        &mut first,
        talk.texts.1,
        &mut talk.read,
        &mut talk.answers,
        &mut due,
        &mut talk.room,
    );
    due
}

// A text that ends at its NUL.
fn text(alloc: Global, bytes: &[u8]) -> Result<String, AllocError> {
    let end = bytes.iter().position(|byte| *byte == 0).unwrap_or(0);
    String::from_utf8_lossy(alloc, bytes.get(..end).unwrap_or(b"?"))
}

// What is due, with its descriptors and texts; or the end, with the text that a place is, and what is closed then.
fn shown(alloc: Global, talk: &Talk, due: &Due) -> Result<String, AllocError> {
    let mut word = "?";
    for (name, what) in DUE {
        if what == due.what {
            word = name;
        }
    }
    let name = text(alloc, &talk.room)?;
    let closes = if due.closes == 1 {
        format!(in alloc; " closes {}", due.first_closed)?
    } else {
        String::new(alloc)
    };
    match word {
        "fails" => {
            let error = name_of((due.number % 256) as u32);
            format!(in alloc; "fails {error} at {}{closes}", due.step)
        }
        "value" if talk.request.what == 25 => {
            let read = talk.read.get(..due.number as usize).unwrap_or(b"?");
            let read = String::from_utf8_lossy(alloc, read)?;
            format!(in alloc; "value {} {read}", due.number)
        }
        "value" => format!(in alloc; "value {}{closes}", due.number),
        "renameat2" => {
            let other = text(alloc, talk.room.get(4352..).unwrap_or(b""))?;
            format!(in alloc; "renameat2 {} {name} {} {other}", due.fd, due.other)
        }
        _ if name.as_str().is_empty() => format!(in alloc; "{word} {}", due.fd),
        _ => format!(in alloc; "{word} {} {name}", due.fd),
    }
}

// One record of a directory: `x`.
const ONE: &str = "\0\0\0\0\0\0\0\0\0\0\0\0\0\0\0\0\x18\0\x08x\0\0\0\0";

// A descriptor, a length or an error; a text that was read. Else it tells of a directory, in a proc(5) or of one: the
// library asks what matters.
fn give(talk: &mut Talk, at: u32, gave: &str) -> Option<()> {
    let (word, rest) = gave.split_once(' ').unwrap_or((gave, ""));
    let mut answer = Answer {
        file_system: 0x9fa0,
        device: 1,
        inode: 7,
        mount: 3,
        links: 2,
        mode: 0o040755,
        has_mount: true,
        ..nothing()
    };
    let read = if word == "one" { ONE } else { rest };
    match word {
        "is" => answer.value = number(rest)?,
        "file" => answer.mode = 0o100644,
        "link" => answer.mode = 0o120777,
        "another" => answer.inode = 8,
        "removed" => answer.links = 0,
        "one" | "reads" => {
            answer.value = read.len().min(4096) as u32;
            talk.read
                .get_mut(..read.len())?
                .copy_from_slice(read.as_bytes());
        }
        error => answer.error = number(error)?,
    }
    *talk.answers.get_mut(at as usize)? = answer;
    Some(())
}

// Each part of a row, `DUE = GAVE`, is due by the answers before it; the last part has no answer.
fn goes(rt: &impl Abort, alloc: Global, row: &'static str) -> Result<(), AllocError> {
    let (call, parts) = row.split_once(": ").unwrap_or(("", row));
    let mut talk = begun(call);
    let mut state = State::empty(alloc);
    for part in parts.split("; ") {
        let due = take(alloc, &mut talk, &mut state);
        let shown = shown(alloc, &talk, &due)?;
        let (wanted, gave) = part.split_once(" = ").unwrap_or((part, ""));
        assert!(rt; shown.as_str() == wanted, "{row}: {shown}");
        let is_given = gave.is_empty() || give(&mut talk, due.at, gave).is_some();
        assert!(rt; is_given, "{row}: {gave}");
    }
    Ok(())
}

/// A call with its texts, and its system calls. Descriptor 4294967196 is AT_FDCWD, and 4294967295 is none.
const ROWS: &str = "\
# one look-up opens an object, and of names alone another one says that none of them was a link
resolve /a/f: openat2 3 a/f = is 7; value 7
resolve /a/f: openat2 3 a/f = ENOENT; openat2 3 a/f = ENOENT; fails ENOENT at 1
# an entry is changed in the directory that a look-up opened
mkdir /a/b/n/: openat2 3 a/b = is 7; mkdirat 7 n = EEXIST; fails EEXIST at 8 closes 7
rename /f /d/g: openat2 3 d = is 7; renameat2 3 f 7 g = ok; value 0 closes 7
# what is found is looked at, since a directory is none that the caller wants; what is missing is made
open_at+opens /a/f: openat2 3 a/f = is 7; statx 7 = file; value 7
open_at+opens /a/f: openat2 3 a/f = ENOENT; openat2 3 a/f = ENOENT; openat2 3 a = is 8; openat 8 f = is 9; \
close 8 = ok; value 9
status /a: openat2 3 a = is 7; fstat 7 = EIO; close 7 = ok; fails EIO at 19
# the directories above a file are made first
make_file /d/f: openat2 3 d/f = ENOENT; openat2 3 d/f = ENOENT; openat2 3 d/ = ENOENT; mkdirat 3 d = ok; \
openat2 3 d/ = is 7; close 7 = ok; openat2 3 d = is 8; openat 8 f = EIO; close 8
# a file is found by single steps
resolve+exact+bare /a/f: openat 3 a = is 10; openat 10 f = ENOTDIR; openat 10 f = is 11; statx 11 = file; \
close 10 = ok; openat2 3 a/f = is 12; statx 11 = file; statx 12 = file; close 11 = ok; \
openat 4294967196 /proc = is 20; fstatfs 20 = ok; statx 20 = ok; claim 0 = ok; keep 20 = ok; \
readlinkat 20 thread-self/fd/3 = reads /root; readlinkat 20 thread-self/fd/12 = reads /root/a/f; value 12
# a tree is removed
remove_all+exact+bare /t: openat 3 . = is 9; unlinkat 9 t = EISDIR; openat 9 t = is 10; openat 10 . = is 11; \
getdents64 11 = one; getdents64 11 = ok; close 11 = ok; unlinkat 10 x = ok; close 10 = ok; unlinkat 9 t = ok; \
close 9 = ok; value 2
# what the kernel lacks ends a call, and the root's error comes first
resolve+exact+bare+lacking /a: openat2 4294967295 . = ENOSYS; fails ENOSYS at 14
open_parent+bare /: statx 3 = ok; fails ENOENT at 0
open_parent+bare /: statx 3 = file; fails ENOTDIR at 0
# the kernel gives a walk up
mkdir+give+bare /a/d: openat2 3 a = EAGAIN; openat 3 a = is 10; openat2 3 a = is 12; statx 10 = ok; statx 12 = ok; \
close 10 = ok; mkdirat 12 d = ok; openat 12 d = is 11; statx 11 = ok; close 12 = ok; value 11
# an object's place is told; a directory that was removed is asked itself, since another one is at its names by now
place+bare /: statx 5 = ok; dup 5 = is 6; openat 4294967196 /proc = is 20; fstatfs 20 = ok; statx 20 = ok; \
claim 0 = EBUSY; readlinkat 20 thread-self/fd/3 = reads /root; readlinkat 20 thread-self/fd/6 = reads /root/a; \
openat2 3 a = is 12; statx 6 = ok; statx 12 = ok; close 6 = ok; readlinkat 20 thread-self/fd/12 = reads /root/a; \
close 12 = ok; close 20 = ok; value 2 /a
place+bare /: statx 5 = ok; dup 5 = is 6; openat 4294967196 /proc = is 20; fstatfs 20 = ok; statx 20 = ok; \
claim 0 = EBUSY; readlinkat 20 thread-self/fd/3 = reads /root; readlinkat 20 thread-self/fd/6 = reads /root/a; \
openat2 3 a = is 12; statx 6 = ok; statx 12 = another; close 12 = ok; statx 6 = removed; close 6 = ok; \
close 20 = ok; statx 3 = ok; fails ENOENT at 5
# a link is followed and left
resolve+exact+bare /l: openat 3 l = ENOTDIR; openat 3 l = is 10; statx 10 = link; fstatfs 10 = ok; fstatfs 10 = ok; \
openat2 3 l = EXDEV; readlinkat 10 = reads a/..; close 10 = ok; openat 3 a = is 11; openat 11 .. = is 12; \
statx 11 = ok; fstatfs 11 = ok; close 11 = ok; openat 4294967196 /proc = is 20; fstatfs 20 = ok; statx 20 = ok; \
claim 0 = EBUSY; readlinkat 20 thread-self/fd/3 = reads /root; readlinkat 20 thread-self/fd/12 = reads /root; \
openat2 3 . = is 13; statx 12 = ok; statx 13 = ok; close 12 = ok; close 20 = ok; value 13";

#[test]
fn calls_are_made_so(rt: HostRuntime) -> Result<(), AllocError> {
    for row in ROWS.lines() {
        if !row.starts_with('#') {
            goes(&rt, rt.alloc(), row)?;
        }
    }
    Ok(())
}
