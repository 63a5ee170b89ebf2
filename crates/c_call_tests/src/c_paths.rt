//! What is decided of a call from C by its path: whether one system call may walk it, and where its last name stands.
ghost use Rattle.std.specs.Prelude.{◌<◌, ◌≤◌};

use kernel_walks::{Parted, follows_at_once, misses_at_once, split};
use path_text::Flags;
use std::test::Fail;

/// RESOLVE_BENEATH, RESOLVE_NO_SYMLINKS and a path, and whether openat2(2) may walk that whole.
const FOLLOWED: [(bool, bool, &str, bool); 13] = [
    (false, false, "a/b", true),
    (false, false, "a/../../l/.", true),
    (false, false, "/a//b/", true),
    (false, false, "l", true),
    (true, false, "a/l", true),
    (true, false, "..", true),
    // No link may be followed.
    (false, true, "a/l", true),
    (true, true, "a", true),
    // A slash at the beginning leads out.
    (true, false, "/a", false),
    (true, false, "/", false),
    // Texts that are no path.
    (false, false, "", false),
    (false, false, "a\0b", false),
    (true, true, "", false),
];

fn flags(beneath: bool, no_links: bool) -> Flags {
    Flags { beneath, no_links }
}

#[test]
fn links_are_followed_at_once(rt: HostRuntime) -> Result<(), Fail> {
    for (beneath, no_links, path, wanted) in &FOLLOWED {
        let followed = follows_at_once(flags(*beneath, *no_links), path.as_bytes());
        assert!(rt; followed == *wanted, "{path}");
    }
    Ok(())
}

// Whether a path of two parts is walked whole, the first of which has so many bytes.
fn is_part_followed(bytes: usize) -> bool
    requires { bytes < 300 }
{
    let mut path = [b'a'; 300];
    path[bytes] = b'/';
    follows_at_once(flags(false, false), path.as_slice())
}

// Whether a path of so many slashes is walked whole.
fn is_path_followed(bytes: usize) -> bool
    requires { bytes ≤ 4096 }
{
    let path = [b'/'; 4096];
    follows_at_once(flags(false, false), &path[..bytes])
}

// NAME_MAX and PATH_MAX of limits.h, the second of which counts a NUL.
#[test]
fn lengths_are_those_of_linux(rt: HostRuntime) -> Result<(), Fail> {
    assert!(rt; is_part_followed(255));
    assert!(rt; !is_part_followed(256));
    assert!(rt; is_path_followed(4095));
    assert!(rt; !is_path_followed(4096));
    Ok(())
}

/// A path and a place; and whether a resolve fails where a name of that is missing.
const MISSED: [(&str, &str, bool); 11] = [
    ("a/f", "/a/f", true),
    ("/a/f", "/a/f", true),
    // Another part, another place, and none.
    ("a/./f", "/a/f", false),
    ("a/f/", "/a/f", false),
    ("a//f", "/a/f", false),
    ("a/../f", "/a/../f", false),
    ("a/f", "/a/g", false),
    ("a/f", "a/f", false),
    ("/", "/", false),
    ("", "/", false),
    ("a", "", false),
];

#[test]
fn names_are_missed_at_once(rt: HostRuntime) -> Result<(), Fail> {
    for (path, place, wanted) in &MISSED {
        let missed = misses_at_once(false, path.as_bytes(), place.as_bytes());
        assert!(rt; missed == *wanted, "{path}");
    }
    // A slash at the beginning leads out of the root.
    assert!(rt; !misses_at_once(true, b"/a/f", b"/a/f"));
    Ok(())
}

fn parted(name: usize, length: usize, slash: bool, error: u8) -> Parted {
    Parted {
        name,
        length,
        slash,
        error,
    }
}

/// A path, whether a slash at its end is taken away, and how many bytes come before its last name and are in it,
/// whether there was a slash, and the error.
const PARTED: [(&str, bool, (usize, usize, bool, u8)); 17] = [
    ("f", false, (0, 1, false, 0)),
    ("/f", false, (1, 1, false, 0)),
    ("a/bc", false, (2, 2, false, 0)),
    ("a//../f", false, (6, 1, false, 0)),
    ("a/b/", true, (2, 1, true, 0)),
    ("a/b//", true, (2, 1, true, 0)),
    ("a/b", true, (2, 1, false, 0)),
    ("...", false, (0, 3, false, 0)),
    // ENOTDIR, EINVAL, ENOENT
    ("a/b/", false, (0, 0, false, 20)),
    ("", true, (0, 0, false, 2)),
    ("/", true, (0, 0, false, 22)),
    ("//", false, (0, 0, false, 22)),
    ("a/.", false, (0, 0, false, 22)),
    ("a/..", false, (0, 0, false, 22)),
    ("../", true, (0, 0, false, 22)),
    ("./", false, (0, 0, false, 22)),
    ("a\0", true, (0, 0, false, 22)),
];

#[test]
fn paths_are_taken_apart(rt: HostRuntime) -> Result<(), Fail> {
    for (path, takes_slash, (name, length, slash, error)) in &PARTED {
        let wanted = parted(*name, *length, *slash, *error);
        assert!(rt; split(path.as_bytes(), *takes_slash) == wanted, "{path}");
    }
    Ok(())
}
