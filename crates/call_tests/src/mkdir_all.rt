//! MkdirAll on the plain tree, with another's steps in between, as mkdir(2), path_resolution(7) and openat2(2) tell.
use crate::bulk_calls::{base_scene, called, is_end};
use crate::bulk_rows::{holds, wrong_in_turn};
use crate::pairs::is_so;
use bulk_ops::MkdirAll;
use fixtures::PLAIN;
use path_text::Errno;
use std::alloc::Global;
use std::test::*;
use tree_model::{Actor, Tree};

// Where the other's handles 1, 2 and 3 are.
const OTHER_AT: &str = "/c /c/a /secret";

const ROWS: &str = "\
# what is missing is made
abs/n/m | 15 opened dir 12 /a/b/n/m | 2 12 | 11 /c/a/b/n, 12 /c/a/b/n/m
a/b | 4 opened dir 3 /a/b | 2 10 | 3 /c/a/b
/ | 2 opened dir 1 / | 2 10 | 1 /c
n/./m/ | 10 opened dir 12 /n/m | 2 12 | 11 /c/n, 12 /c/n/m
a/n beneath | 7 opened dir 11 /a/n | 2 11 | 11 /c/a/n
a/n no_links | 7 opened dir 11 /a/n | 2 11 | 11 /c/a/n
# nothing is made where a call fails first
dang/q | 4 fault ENOENT | 1 10 | none /c/n, none /c/x, none /c/m, none /c/a/b/n
x/../m | 4 fault ENOENT | 1 10 | none /c/n, none /c/x, none /c/m, none /c/a/b/n
x/.. | 4 fault ENOENT | 1 10 | none /c/n, none /c/x, none /c/m, none /c/a/b/n
a/b/f/q | 6 fault ENOTDIR | 1 10 | none /c/n, none /c/x, none /c/m, none /c/a/b/n
a/b/f | 7 fault ENOTDIR | 1 10 | none /c/n, none /c/x, none /c/m, none /c/a/b/n
/n beneath | 0 fault EXDEV | 1 10 | none /c/n, none /c/x, none /c/m, none /c/a/b/n
abs/n no_links | 2 fault ELOOP | 1 10 | none /c/n, none /c/x, none /c/m, none /c/a/b/n
loop/n | 122 fault ELOOP | 1 10 | none /c/n, none /c/x, none /c/m, none /c/a/b/n
# the rest is looked through first
n/m/x*256 | 4 fault ENAMETOOLONG | 1 10 | none /c/n, none /c/a/n
n/../x*256 | 4 fault ENOENT | 1 10 | none /c/n, none /c/a/n
a/n/./x*256 | 4 fault ENAMETOOLONG | 1 10 | none /c/n, none /c/a/n
# no link is on the way, so each is the same with every restriction
# what it made is replaced by a link out of the root
a/n/m each | 7 fault ENOTDIR | 1 11 | 12 /c/a/n, none /secret/m |  | 4 remove_dir 2 n, make_link 2 n /secret
# the directory is moved out of the root
a/n each | 8 fault EAGAIN | 1 11 | 11 /secret/a/n, none /c/a |  | 6 rename 1 a 3 a plain
# what it made is taken away
a/n/m each | 6 fault EAGAIN | 1 10 | none /c/a/n |  | 4 remove_dir 2 n
# what it entered is taken away
a/n/m each | 8 fault EAGAIN | 1 10 | none /c/a/n |  | 6 remove_dir 2 n
# another is faster
a/n/m each | 10 opened dir 12 /a/n/m | 2 12 | 11 /c/a/n, 12 /c/a/n/m |  | 3 make_dir 2 n
# a file is there first
a/n/m each | 7 fault ENOTDIR | 1 11 | 11 /c/a/n, none /secret/m |  | 3 make_file 2 n";

#[test]
fn makes_what_is_missing_among_others(rt: HostRuntime) {
    for line in ROWS.lines() {
        assert!(rt; holds::<MkdirAll>(rt.alloc(), OTHER_AT, line), "{line}");
    }
}

// The first leaves open what it made.
const AGAIN: &str = "\
abs/n/m | 15 opened dir 12 /a/b/n/m | 2 12 | 0 /
abs/n/m | 11 opened dir 12 /a/b/n/m | 3 12 | 0 /";

#[test]
fn finds_again_what_it_made(rt: HostRuntime) {
    assert_eq!(rt;
        wrong_in_turn::<MkdirAll>(rt.alloc(), OTHER_AT, AGAIN),
        Ok("")
    );
}

// Whether a call fails and closes all, that is told of want of memory at each step from a number on, but for a Close.
fn closes_all(alloc: Global, from: u64) -> Result<bool, Errno> {
    let mut scene = base_scene(alloc, OTHER_AT)?;
    scene.memory = from;
    let end = called::<MkdirAll, _>(alloc, &mut scene, "abs/n/m", PLAIN);
    let is_end = is_end(alloc, &end, "fault ENOMEM");
    drop(end);
    Ok(is_end && scene.tree.held(Actor::new(0)) == 1)
}

#[test]
fn closes_what_it_holds_where_memory_ends(rt: HostRuntime) {
    for from in 0..15_u64 {
        assert!(rt;
            closes_all(rt.alloc(), from) == Ok(true),
            "from step {from}"
        );
    }
}

const PAIRS: &str = "\
0 n/m | 0 n/m | like
6 n/m | 6 n/m | like | 5 | 6
5 n/m | 5 n/m | like | 4 5 | 5 6
# on another node
5 n/m | 5 n/m | unlike | 4 5 | 5 6 while make_file 1 z
# at another step
3 n/m | 4 n/m | unlike | 4 | 5
# with another name to come
3 n/m | 3 n/k | unlike | 4 | 5
# what is only closed is on no node, and has no names
3 x/.. | 3 y/../m | like | 4 | 5
3 a/x/.. | 3 x/.. | like | 4 | 5";

#[test]
fn is_like_another_but_for_handles(rt: HostRuntime) {
    for line in PAIRS.lines() {
        assert!(rt; is_so::<MkdirAll>(rt.alloc(), OTHER_AT, line), "{line}");
    }
}
