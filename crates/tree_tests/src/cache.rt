//! Caches, call by call.

use path_text::{Errno, Name};
use std::alloc::Global;
use std::test::Fail;
use tree_model::Node;
use tree_slab::DentryCache;

/// Calls: what is called, the directory, the name, and the node that is noted or found; `-` is no such entry, and `?`
/// nothing remembered.
const TWO: &str = "note 1 a 2
look 1 a 2
look 1 q ?
note 1 q -
look 1 q -
note 2 b 3
look 1 a ?
forget 1 q
look 1 q ?
look 2 b 3
forget 2 b
look 2 b ?";

/// At a cap of one each other entry that is noted pushes the one before out; a look-up of another doesn't.
const ONE: &str = "note 1 a 2
look 1 b ?
look 1 a 2
note 1 b -
look 1 a ?
note 1 b 4
look 1 b 4
note 2 b 5
look 1 b ?
look 2 b 5
forget 1 b
look 2 b 5";

/// What was looked up last stays, and the rest keeps its order.
const THREE: &str = "note 1 a 2
note 1 b 3
note 2 a 4
look 1 a 2
note 3 c 5
look 1 b ?
look 1 a 2
look 2 a 4
forget 3 c
look 3 c ?
note 4 d -
note 4 e -
look 1 a ?
look 2 a 4
look 4 d -
look 4 e -";

fn wanted_of(word: &str) -> Option<Option<Node>> {
    match word {
        "?" => None,
        "-" => Some(None),
        number => match number.parse() {
            Ok(node) => Some(Some(Node::new(node))),
            Err(_) => None,
        },
    }
}

/// Makes a call that has a name. Whether it found what is wanted, where it is a look-up.
fn is_answered(
    alloc: Global,
    cache: &mut DentryCache,
    call: &str,
    dir: Node,
    rest: &str,
) -> Result<bool, Errno> {
    let (name, said) = rest.split_once(' ').unwrap_or((rest, "?"));
    let name = Name::new(alloc, name.as_bytes())?;
    let said = wanted_of(said);
    match call {
        "look" => Ok(cache.look(dir, &name.lend()) == said),
        "note" => {
            cache.note(dir, &name.lend(), said.flatten())?;
            Ok(true)
        }
        _ => {
            cache.forget(dir, &name.lend());
            Ok(call == "forget")
        }
    }
}

/// Makes a call of a line.
fn is_right(alloc: Global, cache: &mut DentryCache, line: &str) -> Result<bool, Errno> {
    let (call, rest) = line.split_once(' ').unwrap_or((line, ""));
    let (dir, rest) = rest.split_once(' ').unwrap_or((rest, ""));
    is_answered(
        alloc,
        cache,
        call,
        Node::new(dir.parse().unwrap_or(0)),
        rest,
    )
}

/// The first line that finds something else, and how many entries are remembered then.
fn first_wrong(alloc: Global, cap: usize, lines: &str) -> Result<(Option<usize>, usize), Errno> {
    let mut cache = DentryCache::new(alloc, cap)?;
    for (at, line) in lines.lines().enumerate() {
        if !is_right(alloc, &mut cache, line)? {
            return Ok((Some(at), cache.len()));
        }
    }
    Ok((None, cache.len()))
}

/// Caps, calls, and how many entries are remembered at last.
const CALLS: [(usize, &str, usize); 3] = [(2, TWO, 0), (1, ONE, 1), (3, THREE, 3)];

fn first_wrong_cap(alloc: Global) -> Result<Option<usize>, Errno> {
    for (cap, lines, left) in CALLS {
        if first_wrong(alloc, cap, lines)? != (None, left) {
            return Ok(Some(cap));
        }
    }
    Ok(None)
}

#[test]
fn finds_what_was_noted(rt: HostRuntime) -> Result<(), Fail> {
    assert_eq!(rt; first_wrong_cap(rt.alloc())?, None);
    Ok(())
}

/// How many entries a new cache remembers, or why there is none.
fn begins(alloc: Global, cap: usize) -> Result<usize, Errno> {
    let cache = DentryCache::new(alloc, cap)?;
    Ok(cache.len())
}

/// The first cap that is refused or taken wrongly.
fn first_wrong_bound(alloc: Global) -> Option<usize> {
    for (cap, wanted) in [
        (0, Err(Errno::Invalid)),
        (1, Ok(0)),
        (65_536, Ok(0)),
        (65_537, Err(Errno::Invalid)),
    ] {
        if begins(alloc, cap) != wanted {
            return Some(cap);
        }
    }
    None
}

#[test]
fn refuses_caps(rt: HostRuntime) -> Result<(), Fail> {
    assert_eq!(rt; first_wrong_bound(rt.alloc()), None);
    Ok(())
}

/// A name of 255 bytes.
fn long_name(alloc: Global, last: u8) -> Result<Name, Errno> {
    let mut bytes = Vec::from_elem(alloc, b'x', 254)?;
    bytes.push(last)?;
    Name::new(alloc, &bytes)
}

/// Whether a name of 255 bytes is told from one that differs in the last.
fn tells_long_names(alloc: Global) -> Result<bool, Errno> {
    let (kept, another) = (long_name(alloc, b'x')?, long_name(alloc, b'y')?);
    let (name, other) = (kept.lend(), another.lend());
    let mut cache = DentryCache::new(alloc, 4)?;
    let dir = Node::new(1);
    cache.note(dir, &name, Some(Node::new(2)))?;
    Ok(cache.look(dir, &name) == Some(Some(Node::new(2))) && cache.look(dir, &other).is_none())
}

#[test]
fn holds_long_names(rt: HostRuntime) -> Result<(), Fail> {
    assert!(rt; tells_long_names(rt.alloc())?);
    Ok(())
}
