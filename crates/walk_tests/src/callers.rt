//! Each caller, called once.
ghost use Rattle.std.specs.Prelude.{IfOk};
ghost use Rattle.step_resolver.specs.Driver.{node_of, IsReady};

use example_callers::{Counting, EachTurn, look_up, node_at, resolve_among};
use fixtures::{PLAIN, entries, names_of};
use handles::Owner;
use path_text::{Errno, Name, Path};
use std::alloc::Global;
use step_resolver::{Goal, Resolved, Root, resolve};
use tree_list::ListTree;
use tree_model::{Actor, HandleNo, StepOf, Tree, steps_keep_trees};

// Entry k is node k + 1.
const ENTRIES: &str = "/c/, /c/a/, /c/a/b/, /c/link -> /a/b, /host/";

// How a path is used, each below `/c`.
#[derive(Clone, Copy)]
enum Use {
    // it is looked up in a tree of these entries
    NodeAt,
    // it is resolved for a goal
    Resolve(Goal),
    // `a/b` is resolved, while somebody else removes that directory of `/c/a` before each step
    Among,
    // it is looked up, and the steps are counted
    Counting,
}

// A use, a path, and what it comes to: a node's or the steps' number, and how many parts are left.
type Row<'a> = (Use, &'a str, Result<(u64, usize), Errno>);

const ROWS: [Row; 15] = [
    (Use::NodeAt, "a/b", Ok((3, 0))),
    (Use::NodeAt, "../../link/.", Ok((3, 0))),
    (Use::NodeAt, "host", Err(Errno::NotFound)),
    (Use::Resolve(Goal::Follow), "a/b", Ok((3, 0))),
    (Use::Resolve(Goal::Follow), "link", Ok((3, 0))),
    (Use::Resolve(Goal::NoFollow), "link", Ok((4, 0))),
    (Use::Resolve(Goal::NoFollow), "link/", Ok((3, 0))),
    (Use::Resolve(Goal::NoFollow), "none", Err(Errno::NotFound)),
    (Use::Resolve(Goal::Deepest), "a/b", Ok((3, 0))),
    (Use::Resolve(Goal::Deepest), "link/../n/m", Ok((2, 2))),
    (Use::Resolve(Goal::Deepest), "none", Ok((1, 1))),
    (Use::Among, "none", Ok((3, 0))),
    (Use::Among, "b", Err(Errno::NotFound)),
    // Open a, NameBelow, Close; and for one name more: Open b, and Close of a.
    (Use::Counting, "a", Ok((3, 0))),
    (Use::Counting, "a/b", Ok((5, 0))),
];

// The tree, with the walker's root `/c`. The other actor has handle 0, on `/c/a`.
fn tree(alloc: Global) -> Result<(ListTree, Root), Errno>
    ensures { IfOk result (λ made.
        IsReady made.0 made.1.owner.actor made.1.handle (node_of made.0 made.1.owner.actor made.1.handle)) }
{
    steps_keep_trees();
    let entries = entries(alloc, ENTRIES)?;
    let names = names_of(alloc, "/c/a")?;
    let root = names_of(alloc, "/c")?;
    let mut tree = match ListTree::from_entries(alloc, &entries) {
        Ok(tree) => tree,
        Err(fault) => return Err(fault.cause),
    };
    tree.grant(alloc, Actor::new(1), &names)?;
    let owner = Owner {
        tag: 0,
        actor: Actor::new(0),
    };
    let handle = tree.grant(alloc, owner.actor, &root)?;
    Ok((tree, Root { owner, handle }))
}

fn node_below(alloc: Global, text: &str) -> Result<(u64, usize), Errno> {
    let entries = entries(alloc, ENTRIES)?;
    let root = names_of(alloc, "/c")?;
    let node = node_at(alloc, &entries, &root, text.as_bytes(), PLAIN)?;
    Ok((node.number(), 0))
}

fn end_of(resolved: Resolved) -> (u64, usize) {
    match resolved {
        Resolved::Found(standing) => (standing.node().number(), 0),
        Resolved::Partial(standing, rest) => (standing.node().number(), rest.len()),
    }
}

fn end_for(alloc: Global, text: &str, goal: Goal) -> Result<(u64, usize), Errno> {
    let (mut tree, root) = tree(alloc)?;
    let path = Path::parse(alloc, text.as_bytes())?;
    Ok(end_of(resolve(alloc, &mut tree, root, path, goal, PLAIN)?))
}

fn end_among(alloc: Global, removed: &str) -> Result<(u64, usize), Errno> {
    let (mut tree, root) = tree(alloc)?;
    let name = Name::new(alloc, removed.as_bytes())?;
    let mut other = EachTurn {
        actor: Actor::new(1),
        step: StepOf::RemoveDir(HandleNo::new(0), name),
    };
    let path = Path::parse(alloc, b"a/b")?;
    let goal = Goal::Follow;
    Ok(end_of(resolve_among(alloc, &mut tree, &mut other, root, path, goal, PLAIN)?))
}

// How many steps it takes to look up a path on the tree, its last Close among them.
fn steps_along(alloc: Global, text: &str) -> Result<(u64, usize), Errno> {
    let (tree, root) = tree(alloc)?;
    let mut counting = Counting { tree, steps: 0 };
    let path = Path::parse(alloc, text.as_bytes())?;
    look_up(alloc, &mut counting, root, path, PLAIN)?;
    Ok((counting.steps, 0))
}

fn told(alloc: Global, used: Use, text: &str) -> Result<(u64, usize), Errno> {
    match used {
        Use::NodeAt => node_below(alloc, text),
        Use::Resolve(goal) => end_for(alloc, text, goal),
        Use::Among => end_among(alloc, text),
        Use::Counting => steps_along(alloc, text),
    }
}

#[test]
fn paths_come_to_their_ends(rt: HostRuntime) {
    for (at, (used, text, wanted)) in ROWS.iter().enumerate() {
        assert!(rt;
            told(rt.alloc(), *used, text) == *wanted,
            "row {at}, {text}"
        );
    }
}
