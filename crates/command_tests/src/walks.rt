//! Walks over the plain tree and over the indexed one that no script makes: to the deepest directory, and with few
//! handles left.
use event_log::Output;
use fixtures::{PLAIN, base_tree, first_wrong, names_of, root};
use handles::Standing;
use path_text::{Errno, NoMemory, Path};
use std::alloc::Global;
use step_resolver::{Goal, Turn, Walk, advance};
use tree_model::{Actor, HandleNo, StepOf, Tree};
use tree_slab::SlabTree;

/// Who walks, below `/c` by handle 0.
const WALKER: u32 = 0;

/// The path and the goal; how often the root is opened before; the end, and how many events and handles the walker has
/// then; and that the file of `/c/a/b`, which another has open by handle 1, is there still.
type Case<'a> = (&'a str, Goal, u32, &'a str, &'a str);

#[rattlefmt::skip]
const CASES: [Case; 4] = [
    ("a/n/m", Goal::Deepest, 0, "opened dir 2 /a\n3 2", "1 open 1 f = opened 3 4 file"),
    ("dang/q", Goal::Deepest, 0, "fault ENOENT\n4 1", "1 open 1 f = opened 3 4 file"),
    ("a", Goal::Follow, 1022, "opened dir 2 /a\n2 1024", "1 open 1 f = opened 1025 4 file"),
    ("a/b", Goal::Follow, 1022, "fault EMFILE\n3 1023", "1 open 1 f = opened 1025 4 file"),
];

/// The walk's end, and how many events it had.
fn walked<T: Tree>(alloc: Global, tree: &mut T, mut turn: Turn) -> (Result<Standing, Errno>, u32) {
    let mut events: u32 = 0;
    loop {
        match turn {
            Turn::More(walk) => {
                events = events.saturating_add(1);
                turn = advance(alloc, tree, Actor::new(WALKER), walk);
            }
            Turn::Found(standing) => return (Ok(standing), events),
            Turn::Partial(standing, _rest) => return (Ok(standing), events),
            Turn::Failed(error) => return (Err(error), events),
        }
    }
}

/// The end as the program tells it, and the two numbers. The deepest directory is told as what was opened.
fn told(
    alloc: Global,
    end: &Result<Standing, Errno>,
    events: u32,
    held: usize,
) -> Result<Output, NoMemory> {
    let mut line = Output::new(alloc);
    match end {
        Ok(standing) => { line.opened(alloc, standing.kind(), standing.node(), standing.names())? }
        Err(error) => line.fault(*error)?,
    }
    line.number(events as u64)?;
    line.text(" ")?;
    line.number(held as u64)?;
    Ok(line)
}

/// Grants the walker its root and the other its directory, and opens the root so often.
fn open<T: Tree>(alloc: Global, tree: &mut T, more: u32) -> Result<(), Errno> {
    tree.grant(alloc, Actor::new(WALKER), &names_of(alloc, "/c")?)?;
    tree.grant(alloc, Actor::new(1), &names_of(alloc, "/c/a/b")?)?;
    for _ in 0..more {
        tree.step(alloc, Actor::new(WALKER), &StepOf::Dup(HandleNo::new(0)))?;
    }
    Ok(())
}

/// What is told of a walk along a path.
fn told_of<T: Tree>(alloc: Global, tree: &mut T, path: &str, goal: Goal) -> Result<Output, Errno> {
    let path = Path::parse(alloc, path.as_bytes())?;
    let (end, events) = walked(alloc, tree, Walk::start(alloc, root(0), path, goal, PLAIN));
    Ok(told(alloc, &end, events, tree.held(Actor::new(WALKER)))?)
}

/// Whether the walk comes to that end, and leaves that tree.
fn holds<T: Tree>(alloc: Global, tree: &mut T, case: &Case<'_>) -> Result<bool, Errno> {
    let (path, goal, more, wanted, entry) = *case;
    open(alloc, tree, more)?;
    let line = told_of(alloc, tree, path, goal)?;
    Ok(line.as_slice() == wanted.as_bytes() && first_wrong(alloc, tree, entry)?.is_none())
}

fn holds_on_list(alloc: Global, case: &Case<'_>) -> Result<bool, Errno> {
    let mut list = base_tree(alloc)?;
    holds(alloc, &mut list, case)
}

fn base_slab(alloc: Global) -> Result<SlabTree, Errno> {
    let list = base_tree(alloc)?;
    SlabTree::from_list(alloc, &list, 64)
}

fn holds_on_slab(alloc: Global, case: &Case<'_>) -> Result<bool, Errno> {
    let mut slab = base_slab(alloc)?;
    holds(alloc, &mut slab, case)
}

#[test]
fn walks_end_as_told(rt: HostRuntime) {
    for case in &CASES {
        let on_both = holds_on_list(rt.alloc(), case) == Ok(true)
            && holds_on_slab(rt.alloc(), case) == Ok(true);
        assert!(rt; on_both, "{}", case.0);
    }
}
