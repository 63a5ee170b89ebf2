//! The plain program on three trees. What is wanted of the paths was told by Linux on real files that stand the
//! same way: by openat2(2) with RESOLVE_IN_ROOT, or RESOLVE_BENEATH in its place, RESOLVE_NO_SYMLINKS, O_PATH,
//! and O_NOFOLLOW where the last link isn't followed.
use fixtures::{BASE, PLAIN, cut, flags_of, tree_of};
use path_text::{Errno, Flags, NoMemory};
use std::alloc::Global;
use step_resolver::resolve_whole;
use tree_model::{Inode, Node, Snapshot, Tree};

/// A directory with a chain of links: `k1` to `a`, `k2` to `k1` and so on.
const CHAIN: &str =
    "/c/, /c/a/, /c/k1 -> a, /c/k2 -> k1, /c/k3 -> k2, /c/k4 -> k3, /c/k5 -> k4, /c/k6 -> k5, /c/k7 -> k6, \
    /c/k8 -> k7, /c/k9 -> k8, /c/k10 -> k9, /c/k11 -> k10, /c/k12 -> k11, /c/k13 -> k12, /c/k14 -> k13, \
    /c/k15 -> k14, /c/k16 -> k15, /c/k17 -> k16, /c/k18 -> k17, /c/k19 -> k18, /c/k20 -> k19, /c/k21 -> k20, \
    /c/k22 -> k21, /c/k23 -> k22, /c/k24 -> k23, /c/k25 -> k24, /c/k26 -> k25, /c/k27 -> k26, /c/k28 -> k27, \
    /c/k29 -> k28, /c/k30 -> k29, /c/k31 -> k30, /c/k32 -> k31, /c/k33 -> k32, /c/k34 -> k33, /c/k35 -> k34, \
    /c/k36 -> k35, /c/k37 -> k36, /c/k38 -> k37, /c/k39 -> k38, /c/k40 -> k39, /c/k41 -> k40";

/// Links between directories that stand side by side, and `/outside` beside their root.
const CROSSING: &str =
    "/r/, /r/x/, /r/x/y/, /r/x/y/z, /r/p/, /r/p/q -> ../x/y/, /r/x/y/back -> ../../p, /r/p/abs -> /x, \
    /r/p/abs2 -> /p/abs/y, /r/chain -> p/abs2, /r/x/file -> y/z, /r/x/file_slash -> y/z/, /r/top -> /, \
    /r/above -> .., /r/x/y/dot -> ., /r/self -> ./self, /r/two -> x/other, /r/x/other -> ../two, /r/gone -> x/none, \
    /r/deep -> p/q/back/q/back/abs/y/dot/z, /r/slashes -> x//y/./../y, /r/x/escape -> ../../../../outside, /outside/, \
    /outside/secret, /r/sneak -> /../outside/secret, /r/.../, /r/.../..a, /r/dots -> ..././..a, /r/x/y/z_dir -> z/, \
    /r/x/y/z_up -> z/..";

// A line is the number of a node, or the name of an error, and the paths that come to it. The paths begin at the node
// of the line with `from` above them, which tells whether a last link is followed, and the restrictions; `''` is the
// empty path.

const BASE_PATHS: &str = "\
from 1
4 a/b/f abs/f abs/../b/f abs/./f up/b/f up/../a/b/f a//b///f a/b/./f a/b/../b/../b/f
1 / .. ../.. ../../.. a/.. a/../.. abs/../.. up/.. /// /. /.. a/b/../..
ENOENT '' dang dang/ dang/q dang/.. none none/ none/x none/.. a/none a/b/none a/none/../b secret ../secret /../secret
ENOENT /secret/key a/abs a/up abs/none up/none ..a a. ... a/... c /c /c/a up/up abs/abs
2 a /a /../../a abs/.. up //a ./a a/b/..
3 /a/b a/b a/../../a/b abs abs/ abs/. up/b ././a/./b/. a/b/.
ENOTDIR a/b/f/ a/b/f/. a/b/f/.. abs/f/x a/b/f/x a/b/f/../f abs/f/ abs/f/..
ELOOP loop loop/ loop/x
from 1 nofollow
5 abs a/../abs
3 abs/ abs/.
2 abs/.. up/ up/. a
4 abs/f a/b/f
6 up /up abs/../../up
7 loop
ELOOP loop/ loop/.
8 dang
ENOENT dang/
1 /
from 1 beneath
EXDEV / /a //a /.. .. ../a a/../.. a/b/../../.. abs abs/f up up/b ./..
1 a/.. a/b/../.. .
4 a/../a/b/f a/b/f
ELOOP loop
ENOENT dang none/.. none/../.. secret
2 a
ENOTDIR a/b/f/.. a/b/f/
from 1 no_links
ELOOP abs/f abs up up/b loop dang abs/..
3 /../a/b
4 a/b/f
1 .. /
ENOENT none
ENOTDIR a/b/f/
from 1 nofollow no_links
6 up
5 abs
7 loop
ELOOP up/ abs/ abs/f
2 a
8 dang
from 1 beneath no_links
ELOOP abs up
EXDEV /a ..
4 a/b/f
from 1 nofollow beneath
5 abs
6 up a/../up
EXDEV abs/ up/ /abs ..
from 1 nofollow beneath no_links
5 abs
6 up
ELOOP up/ abs/..
EXDEV /up
from 0
4 c/a/b/f
ENOENT /c/up c/up/b c/abs c/up/../a c/dang
10 secret/key
0 .. /
ELOOP c/loop
from 0 nofollow
6 c/up
5 c/abs
from 0 beneath
EXDEV c/up c/../..
from 3
4 f ../f /f
3 .. ../../..
ENOTDIR f/
ENOENT ../../abs
from 3 beneath
EXDEV ..
4 f
3 .";

const CHAIN_PATHS: &str = "\
from 1
2 k1 k2 k20 k39 k40 k40/ k40/. k39/../k1 k38/../k1/../k1 k8/../k8/../k8/../k8/../k8 k8/../k8/../k8/../k8/../k8/../a
2 k20/../k20
ELOOP k41 k41/ k41/.. k40/../k1 k39/../k2 k38/../k1/../k2 k8/../k8/../k8/../k8/../k8/../k1 k20/../k21
1 k40/..
ENOENT k40/k1 k40/none k40/../none k40/../k0
from 1 nofollow
43 k41 k40/../k41
ELOOP k41/ k40/../k41/
3 k40/../k1
from 1 beneath
2 k40
ELOOP k41
from 1 no_links
ELOOP k1 k41
2 a
from 1 nofollow no_links
43 k41
3 k1";

const CROSSING_PATHS: &str = "\
from 1
4 x/y/z p/q/z p/q/../file p/q/back/q/z p/abs2/z chain/z x/file x/y/dot/dot/z deep slashes/z
3 p/q p/q/ p/abs/y p/abs2 chain x/y/dot slashes x/y/back/q/back/q p/q/dot/../y
2 p/q/.. p/abs p/abs2/.. chain/.. top/x top/top/top/x above/x x/y/back/abs2/back/q/..
5 p/q/back
1 chain/back/.. top top/.. above above/above .../..
ENOTDIR x/file/ x/file_slash x/file_slash/ deep/ dots/.. x/y/z_dir x/y/z_up
ELOOP self self/.. two x/other two/..
ENOENT gone gone/.. x/escape outside ../outside sneak p/abs/escape
26 ...
27 ..././..a dots
from 1 nofollow
6 p/q
3 p/q/
10 chain
12 x/file_slash
17 two
13 top
1 top/
28 dots
15 p/abs2/dot
30 x/y/z_up
from 1 beneath
3 p/q p/q/back/q slashes
EXDEV p/abs chain top above x/escape sneak deep x/y/back/../.. p/../x/../..
1 x/y/back/..
ELOOP two
27 dots
ENOTDIR x/y/z_up
from 1 no_links
ELOOP p/q chain two gone dots
4 x/y/z
3 x/y/../y
from 1 nofollow no_links
6 p/q
ELOOP chain/z top/.
13 top
from 1 nofollow beneath
25 sneak
14 above";

/// Where paths begin, and how they are walked.
#[derive(Clone, Copy)]
struct Beginning {
    root: Node,
    follow: bool,
    flags: Flags,
}

fn begins_at(words: &str) -> Beginning {
    let (root, rest) = cut(words);
    Beginning {
        root: Node::new(root.parse().unwrap_or(u64::MAX)),
        follow: !rest.contains("nofollow"),
        flags: flags_of(rest),
    }
}

fn is_wanted(found: Result<Node, Errno>, wanted: &str) -> bool {
    match found {
        Ok(node) => wanted.parse::<u64>().ok() == Some(node.number()),
        Err(error) => error.name() == wanted,
    }
}

/// How many paths a line has that come to what the line wants. None where one doesn't.
fn count_right(nodes: &[Inode], from: &Beginning, wanted: &str, paths: &str) -> Option<usize> {
    let mut count = 0usize;
    for path in paths.split(' ') {
        let path = if path == "''" { "" } else { path };
        let found = resolve_whole(nodes, from.root, path.as_bytes(), from.follow, from.flags);
        if !is_wanted(found, wanted) {
            return None;
        }
        count = count.saturating_add(1);
    }
    Some(count)
}

/// The first line that is wrong, or what is wrong of the number of paths.
fn wrong_line<'a>(nodes: &[Inode], lines: &'a str, paths: usize) -> &'a str {
    let mut from = begins_at("");
    let mut right = 0usize;
    for line in lines.lines() {
        match cut(line) {
            ("from", words) => from = begins_at(words),
            (wanted, words) => match count_right(nodes, &from, wanted, words) {
                Some(count) => right = right.saturating_add(count),
                None => return line,
            },
        }
    }
    if right == paths {
        ""
    } else {
        "another number of paths"
    }
}

fn snapshot_of(alloc: Global, rows: &str) -> Result<Snapshot, Errno> {
    Ok(tree_of(alloc, rows)?.snapshot(alloc)?)
}

fn wrong_on<'a>(alloc: Global, rows: &str, lines: &'a str, paths: usize) -> &'a str {
    match snapshot_of(alloc, rows) {
        Ok(snapshot) => wrong_line(snapshot.nodes(), lines, paths),
        Err(_) => "no tree",
    }
}

#[test]
fn paths_lead_where_they_do_on_linux(rt: HostRuntime) {
    for (rows, lines, paths) in [
        (BASE, BASE_PATHS, 185),
        (CHAIN, CHAIN_PATHS, 37),
        (CROSSING, CROSSING_PATHS, 95),
    ] {
        let wrong = wrong_on(rt.alloc(), rows, lines, paths);
        assert!(rt; wrong.is_empty(), "{wrong}");
    }
}

// A text's beginning, a byte, how many of these come after it, and what is wanted.
type Text<'a> = (&'a str, u8, u32, &'a str);

const TEXTS: [Text; 8] = [
    ("", b'/', 4095, "1"),
    ("", b'/', 4096, "ENAMETOOLONG"),
    ("a", 0, 1, "EINVAL"),
    ("", 0, 5000, "EINVAL"),
    ("none/", b'x', 300, "ENOENT"),
    ("a/", b'x', 255, "ENOENT"),
    ("a/", b'x', 256, "ENAMETOOLONG"),
    ("a/b/f/", b'x', 256, "ENOTDIR"),
];

fn long_text(alloc: Global, first: &str, byte: u8, count: u32) -> Result<Vec<u8>, NoMemory> {
    let mut text = Vec::from_slice(alloc, first.as_bytes())?;
    for _ in 0..count {
        text.push(byte)?;
    }
    Ok(text)
}

fn is_resolved(alloc: Global, nodes: &[Inode], row: &Text<'_>) -> bool {
    let (first, byte, count, wanted) = row;
    match long_text(alloc, first, *byte, *count) {
        Ok(text) => is_wanted(
            resolve_whole(nodes, Node::new(1), &text, true, PLAIN),
            wanted,
        ),
        Err(_) => false,
    }
}

fn is_right(alloc: Global, row: &Text<'_>) -> bool {
    match snapshot_of(alloc, BASE) {
        Ok(snapshot) => is_resolved(alloc, snapshot.nodes(), row),
        Err(_) => false,
    }
}

#[test]
fn faults_of_texts(rt: HostRuntime) {
    for (at, row) in TEXTS.iter().enumerate() {
        assert!(rt; is_right(rt.alloc(), row), "row {at}");
    }
}
