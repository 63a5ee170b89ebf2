//! Worlds: what is told of their reports, and the faults of their making and of their runs.
use crate::plans::{plans, tree, turns};
use crate::told::{begins, ran};
use event_log::Output;
use fixtures::{BENEATH, NO_LINKS, PLAIN, base_tree, column, names_of};
use path_text::{Errno, Flags, NoMemory};
use race_core::{ActorPlan, Plans, World, WorldFault};
use std::alloc::Global;
use tree_list::ListTree;
use tree_model::{Row, Tree};
use tree_slab::SlabTree;

// Plans, turns, how many lines the book has, and what is told of the report first.
const RUNS: &str = "\
moved_out | 1111110001 | 1000 | 7 held 1, fault EAGAIN;
/c: resolve a/b/..; : resolve c/a: resolve secret: rename 1 b 2 b plain: rename 2 b 1 b plain | 11111100011 | 1000 | \
    7 held 2, opened dir 2 /a;
/c: resolve a/b/f; : resolve c: rename 0 secret 0 s2 plain: make_dir 1 z: remove_dir 1 z | 11000111 | 1000 | \
    6 held 2, opened file 4 /a/b/f;
/c: resolve a/b/..; : resolve secret: rename 0 c 1 c2 plain | 110001 | 1000 | 7 held 2, opened dir 2 /a;
/c: resolve e/..; /c: remove_dir 0 e | 01 | 1000 | 3 held 1, fault EAGAIN;
file_instead | 11011 | 1000 | 4 held 1, fault ENOTDIR;
link_instead | 11011 | 1000 | 6 held 1, fault ENOENT;
/c: resolve abs/f; /c: remove_file 0 abs | 0001 | 1000 | 9 held 2, opened file 4 /a/b/f;
# the book runs full
alone |  | 8 | 6 held 2, opened file 4 /a/b/f;
alone |  | 7 | 6 held 1, fault ENOSPC;
alone |  | 4 | 2 held 1, fault ENOSPC;
# what is released is kept no more, and a call that names what isn't held makes no step
/c: resolve a: release 0: release 0: make_dir 1 x: resolve none: list 0: release 999 |  | 100 | 5 held 1, \
    opened dir 2 /a, done, fault EBADF, fault EBADF, fault ENOENT, stepped listed 6 a abs dang e loop up, fault EBADF;";

// Whether a row's end, its last two columns, is told.
fn tells<T: Tree + Drop>(
    alloc: Global,
    tree: T,
    plans: Vec<ActorPlan>,
    turns: &[u32],
    end: &str,
) -> bool {
    let (room, wanted) = column(end);
    match ran(alloc, tree, plans, turns, room.parse().unwrap_or(0)) {
        Ok(report) => {
            let is_told = begins(alloc, &report, wanted);
            drop(report);
            is_told
        }
        Err(_) => false,
    }
}

fn indexed_tree(alloc: Global) -> Result<SlabTree, Errno> {
    let list = tree(alloc)?;
    let slab = SlabTree::from_list(alloc, &list, 4);
    drop(list);
    slab
}

// Whether a row is told on both trees.
fn both_tell(alloc: Global, row: &str) -> Result<bool, Errno> {
    let (text, rest) = column(row);
    let (digits, end) = column(rest);
    let turns = turns(alloc, digits)?;
    let (first, second) = (plans(alloc, text, PLAIN)?, plans(alloc, text, PLAIN)?);
    let is_told = tells(alloc, tree(alloc)?, first, &turns, end);
    Ok(tells(alloc, indexed_tree(alloc)?, second, &turns, end) && is_told)
}

#[test]
fn schedules_are_run(rt: HostRuntime) {
    for row in RUNS.lines() {
        let is_told = row.starts_with('#') || both_tell(rt.alloc(), row) == Ok(true);
        assert!(rt; is_told, "{row}");
    }
}

// Plans, turns, how many lines the book has, and the fault of the world's making or of its run.
type Faulty = (&'static str, &'static str, u32, WorldFault);

const FAULTS: [Faulty; 6] = [
    ("/c; /c", "5", 9, WorldFault::NoSuchActor(5)),
    ("/c; /none", "", 9, WorldFault::RootNotFound(1)),
    ("/c/abs; /none", "", 9, WorldFault::RootNotDir(0)),
    ("/c; /none", "", 1_000_001, WorldFault::RootNotFound(1)),
    ("/c", "", 1_000_001, WorldFault::Invalid),
    ("/c; /c", "", 1, WorldFault::BookFull),
];

// The fault of a world's making or of its run.
fn fault_of(alloc: Global, row: &Faulty) -> Result<Option<WorldFault>, Errno> {
    let (text, digits, room, _) = *row;
    let (plans, turns) = (plans(alloc, text, PLAIN)?, turns(alloc, digits)?);
    match ran(alloc, tree(alloc)?, plans, &turns, room) {
        Ok(report) => {
            drop(report);
            Ok(None)
        }
        Err(fault) => Ok(Some(fault)),
    }
}

#[test]
fn faults_come_in_order(rt: HostRuntime) {
    for (at, row) in FAULTS.iter().enumerate() {
        assert!(rt; fault_of(rt.alloc(), row) == Ok(Some(row.3)), "row {at}");
    }
}

// So many actors, all at `/c`, with nothing to do.
fn idle_plans(alloc: Global, actors: usize) -> Result<Vec<ActorPlan>, Errno> {
    let mut plans = Vec::new(alloc);
    for _ in 0..actors {
        let root = names_of(alloc, "/c")?;
        let calls = Plans::new(alloc);
        plans.push(ActorPlan { root, calls })?;
    }
    Ok(plans)
}

// The fault of the making of a world of that many actors, or else that of a turn of actor 64, where actor 63 had one
// and the report has all actors.
fn fault_of_many(alloc: Global, actors: usize) -> Result<Option<WorldFault>, Errno> {
    let plans = idle_plans(alloc, actors)?;
    let mut world = match World::new(alloc, tree(alloc)?, plans, 100) {
        Ok(world) => world,
        Err(fault) => return Ok(Some(fault)),
    };
    let turned = world.turn(alloc, 64);
    let idle = world.turn(alloc, 63);
    match world.run(alloc, &[]) {
        Ok(report) => {
            let has_all = report.replies.len() == actors;
            drop(report);
            Ok(if has_all && idle.is_ok() {
                turned.err()
            } else {
                None
            })
        }
        Err(fault) => Ok(Some(fault)),
    }
}

#[test]
fn too_many_actors_are_refused(rt: HostRuntime) {
    let alloc = rt.alloc();
    let is_refused = fault_of_many(alloc, 65) == Ok(Some(WorldFault::TooManyActors));
    assert!(rt; is_refused && fault_of_many(alloc, 64) == Ok(Some(WorldFault::NoSuchActor(64))));
}

// Tells an entry: the directory's number, the name and the node's number.
fn tell_row(told: &mut Output, row: &Row) -> Result<(), NoMemory> {
    told.number(row.parent.number())?;
    told.text(" ")?;
    told.bytes(row.name.bytes())?;
    told.text(" ")?;
    told.number(row.child.number())?;
    told.text(",")
}

fn rows_of(alloc: Global, tree: &ListTree) -> Result<Vec<Row>, NoMemory> {
    let snapshot = tree.snapshot(alloc)?;
    let rows = snapshot.rows(alloc);
    drop(snapshot);
    rows
}

// Whether the tree has these entries, each with a comma after it.
fn has_rows(alloc: Global, tree: &ListTree, wanted: &str) -> Result<bool, NoMemory> {
    let rows = rows_of(alloc, tree)?;
    let mut told = Output::new(alloc);
    for row in &rows {
        tell_row(&mut told, row)?;
    }
    Ok(told.as_slice() == wanted.as_bytes())
}

// Of a bulk call among others: the plans, the turns, what is told of actor 0 and then of the other, and the rows. The
// plan of a mkdir makes node 11, and the link instead of it is node 12.
const BULK: &str = "\
/c: remove_all a; /c: resolve a: rename 1 b 0 b2 plain: make_link 1 b /secret | 1100000011 | 12 held 1, count 2; | \
    0 c 1,0 secret 9,1 abs 5,1 b2 3,1 dang 8,1 loop 7,1 up 6,3 f 4,9 key 10,
/c: mkdir_all a/n/m; /c: resolve a: remove_dir 1 n: make_link 1 n /secret | 11000011 | 7 held 1, fault ENOTDIR; | \
    0 c 1,0 secret 9,1 a 2,1 abs 5,1 dang 8,1 loop 7,1 up 6,2 b 3,2 n 12,3 f 4,9 key 10,
/c: mkdir_all a/n; /: resolve c: resolve secret: rename 1 a 2 a plain | 11110000001 | 8 held 1, fault EAGAIN; | \
    0 c 1,0 secret 9,1 abs 5,1 dang 8,1 loop 7,1 up 6,2 b 3,2 n 11,3 f 4,9 a 2,9 key 10,";

// Whether these are told, and these rows left.
fn bulk_tells(alloc: Global, row: &str, flags: Flags) -> Result<bool, Errno> {
    let (text, rest) = column(row);
    let (digits, rest) = column(rest);
    let (wanted, rows) = column(rest);
    let (plans, turns) = (plans(alloc, text, flags)?, turns(alloc, digits)?);
    match ran(alloc, base_tree(alloc)?, plans, &turns, 1000) {
        Ok(report) => {
            let is_told = begins(alloc, &report, wanted)
                && has_rows(alloc, &report.tree, rows) == Ok(true);
            drop(report);
            Ok(is_told)
        }
        Err(_) => Ok(false),
    }
}

#[test]
fn bulk_calls_among_others(rt: HostRuntime) {
    for flags in [PLAIN, BENEATH, NO_LINKS] {
        for row in BULK.lines() {
            assert!(rt; bulk_tells(rt.alloc(), row, flags) == Ok(true), "{row}");
        }
    }
}
