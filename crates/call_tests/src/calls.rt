//! Calls over the plain tree and over the indexed one: each operation and each of its refusals where nobody else acts,
//! and the bulk calls among others' steps, as openat2(2), mkdir(2), symlink(2), unlink(2), rmdir(2), rename(2) and
//! readlink(2) tell of them.
ghost use Rattle.std.specs.Prelude.{◌<◌};
ghost use Rattle.root_ops.specs.Order.{steps_left};
ghost use Rattle.root_ops.specs.TurnView.{steps_to_come};

use crate::copies::run_copies;
use crate::passes::run_passing;
use crate::requests::{asked, number};
use event_log::Output;
use fixtures::{PLAIN, answered, base_tree, column, cut, flags_of, names_of, root};
use handles::Standing;
use path_text::{Errno, Flags, NoMemory};
use root_ops::{Call, CallTurn, Op, Reply, Request, run_call};
use std::alloc::Global;
use std::test::*;
use step_resolver::Root;
use tree_model::{Actor, Answer, HandleNo, Tree};
use tree_slab::SlabTree;

/// The tag of the root's owner.
pub const OWN: u64 = 7;

// Below, a line has calls on one base tree, one after another and each released again; of each: the number of its
// steps, or `*`, and its reply. After a backslash it goes on.

const RENAMES: &str = "rename a a/b/x plain -> 9 fault EINVAL
rename a a/b exchange -> * fault EINVAL
rename abs a/b/f exchange -> * done, no_follow abs -> * opened file 4 /abs, no_follow a/b/f -> * opened link 5 /a/b/f
rename a abs plain -> * fault ENOTDIR
rename a/b/f a/b/f plain -> * done, resolve a/b/f -> 6 opened file 4 /a/b/f
rename a/b/f a/b/f noreplace -> * fault EEXIST
rename a/b/f/ x plain -> * fault ENOTDIR, resolve a/b/f -> * opened file 4 /a/b/f
rename a/b/f x/ plain -> * fault ENOTDIR
rename abs a/b plain -> * fault EISDIR
rename a/b a plain -> * fault ENOTEMPTY
rename a/ z plain -> * done, resolve z -> * opened dir 2 /z
rename a z/ plain -> * done, resolve z/b/f -> * opened file 4 /z/b/f
rename none z plain -> * fault ENOENT
rename none/ z plain -> * fault ENOENT
rename a none exchange -> * fault ENOENT
rename a/b/f/x z plain -> * fault ENOTDIR
rename a/. none/.. plain -> 0 fault EINVAL
rename a .. plain -> 0 fault EINVAL
rename a/b/x/y none/z plain -> 5 fault ENOENT
rename a none/z plain -> * fault ENOENT";

const CHANGES: &str =
    "create_file a/n -> 4 done, create_file a/n -> * fault EEXIST, resolve a/n -> * opened file 11 /a/n, \
    create_file abs -> * fault EEXIST, create_file x/ -> 0 fault ENOTDIR, create_file a/b/f/x -> * fault ENOTDIR, \
    create_dir d/ -> * done, resolve d -> * opened dir 12 /d, create_link l  -> * fault ENOENT, \
    create_link l q -> * done, no_follow l -> * opened link 13 /l, read_link abs -> * text /a/b, \
    read_link a -> * fault EINVAL, read_link abs/ -> * fault EINVAL, remove_file a -> * fault EISDIR, \
    remove_dir abs -> * fault ENOTDIR, remove_dir a -> * fault ENOTEMPTY, remove_dir a/. -> 0 fault EINVAL, \
    remove_dir / -> 0 fault EINVAL, remove_file abs -> * done, no_follow abs -> * fault ENOENT, \
    remove_all d -> 8 count 1, dup 0 -> 0 fault EINVAL
create_dir none/d -> * fault ENOENT, create_dir a -> * fault EEXIST, create_dir .. -> 0 fault EINVAL
create_link a q -> * fault EEXIST, create_link l/ q -> 0 fault ENOTDIR, create_link abs/l q -> * done, \
    read_link a/b/l -> * text q
remove_file none -> * fault ENOENT, remove_file a/b/f/ -> 0 fault ENOTDIR, remove_file loop/x -> * fault ELOOP
remove_dir none -> * fault ENOENT, create_dir d -> * done, remove_dir d/ -> * done, resolve d -> * fault ENOENT
read_link none -> * fault ENOENT, read_link up -> * text ../../a
no_follow up/ -> * opened dir 2 /a, resolve up -> * opened dir 2 /a, resolve  -> 0 fault ENOENT, \
    no_follow / -> 2 opened dir 1 /";

const BULK: &str =
    "mkdir_all abs/n/m -> 15 opened dir 12 /a/b/n/m, mkdir_all abs/n/m -> * opened dir 12 /a/b/n/m, \
    mkdir_all a/b/f -> * fault ENOTDIR, mkdir_all a/b/f/q -> * fault ENOTDIR
mkdir_all dang/q -> * fault ENOENT, mkdir_all x/../m -> * fault ENOENT, resolve x -> * fault ENOENT, \
    mkdir_all / -> * opened dir 1 /, mkdir_all  -> 0 fault ENOENT
create_link a/b/s /secret -> * done, remove_all a -> 15 count 4, remove_all a -> 4 count 0, \
    resolve a -> * fault ENOENT
remove_all a/b/ -> * count 2, resolve a -> * opened dir 2 /a, remove_all abs -> * count 1, \
    remove_all abs/ -> * count 0
remove_all a/.. -> 0 fault EINVAL, remove_all / -> 0 fault EINVAL, remove_all a/b/f/x -> * fault ENOTDIR, \
    remove_all none/x -> * fault ENOENT";

const SINGLES: &str = "list 0 -> 1 stepped listed 5 a abs dang loop up
make_dir 0 d -> 1 stepped done, make_dir 0 d -> 1 fault EEXIST, below 0 0 -> 1 stepped names /
dup 0 -> 0 fault EINVAL, open 0 a -> 0 fault EINVAL, parent 0 -> 0 fault EINVAL, close 0 -> 0 fault EINVAL, \
    list 9 -> 1 fault EBADF";

const WITH_BENEATH: &str = "resolve /a -> 0 fault EXDEV
resolve .. -> 0 fault EXDEV
resolve abs/f -> 3 fault EXDEV
resolve up -> 3 fault EXDEV
resolve a/../.. -> 5 fault EXDEV
resolve a/b/f -> 6 opened file 4 /a/b/f
rename a/b/f /x plain -> 5 fault EXDEV
mkdir_all /n -> 0 fault EXDEV, mkdir_all a/n -> * opened dir 11 /a/n, remove_all /a -> 0 fault EXDEV
resolve abs -> * fault EXDEV
create_link l q -> * done
rename a/b x plain -> * done
remove_all a -> * count 3";

const WITH_NO_LINKS: &str = "resolve abs/f -> 2 fault ELOOP
resolve up -> * fault ELOOP
no_follow up -> * opened link 6 /up
no_follow up/ -> * fault ELOOP
resolve /../a/b -> * opened dir 3 /a/b
read_link abs -> * text /a/b
remove_all abs/f -> * fault ELOOP, remove_all abs -> 4 count 1, mkdir_all up/n -> * fault ELOOP";

const WITH_BOTH: &str = "resolve abs -> * fault ELOOP
resolve /a -> 0 fault EXDEV";

const OPENED: &str = "resolve a -> * opened dir 2 /a";

/// How a call is carried out.
#[derive(Clone, Copy, PartialEq, Eq)]
enum How {
    /// Each answer is taken.
    Taken,
    /// Each answer is offered to `pass` first.
    Passed,
    /// By `run_call`, which tells no number of steps.
    Whole,
    /// It is a copy of the request that is asked, and each step a copy of the call that makes it.
    Copied,
}

/// What is said of the calls of some lines.
#[derive(Clone, Copy)]
struct Table<'a> {
    flags: Flags,
    /// Others make these steps after so many of each call. Their handles are 1 on `/c`, 2 on `/c/a` and 3 on `/secret`.
    others: &'a str,
    /// What a call opened: the step that is made before the release; the tag of the owner that releases, how many
    /// handles the root's owner has then, and how the release ends.
    before: &'a str,
    released: &'a str,
}

// `WORDS | AFTER OTHERS | BEFORE | TAG HELD END`.
fn table_of(columns: &str) -> Table<'_> {
    let (words, rest) = column(columns);
    let (others, rest) = column(rest);
    let (before, released) = column(rest);
    Table {
        flags: flags_of(words),
        others,
        before,
        released: if released.is_empty() {
            "7 1 1 done"
        } else {
            released
        },
    }
}

// What is said of the calls, and lines of them, each line on a tree of its own. Nobody else acts.
const ALONE: [(&str, &str); 10] = [
    ("", RENAMES),
    ("", CHANGES),
    ("", BULK),
    ("", SINGLES),
    ("beneath", WITH_BENEATH),
    ("no_links", WITH_NO_LINKS),
    ("beneath no_links", WITH_BOTH),
    ("", OPENED),
    (" |  |  | 8 2 0 kept", OPENED),
    (" |  | close 4 | 7 1 1 fault EBADF", OPENED),
];

const AMONG_OTHERS: [(&str, &str); 3] = [
    (
        " | 6 rename 2 b 1 b2 plain, make_link 2 b /secret",
        "remove_all a -> 12 count 2",
    ),
    (
        " | 4 remove_dir 2 n, make_link 2 n /secret",
        "mkdir_all a/n/m -> 7 fault ENOTDIR",
    ),
    (
        " | 6 rename 1 a 3 a plain",
        "mkdir_all a/n -> 8 fault EAGAIN",
    ),
];

/// Opens that directory for an actor.
pub fn grant<T: Tree>(
    alloc: Global,
    tree: &mut T,
    actor: u32,
    path: &str,
) -> Result<HandleNo, Errno> {
    tree.grant(alloc, Actor::new(actor), &names_of(alloc, path)?)
}

/// Opens the root, and the others' directories after it; and tells whether that was done.
pub fn open<T: Tree>(alloc: Global, tree: &mut T) -> bool {
    grant(alloc, tree, 0, "/c").is_ok()
        && grant(alloc, tree, 1, "/c").is_ok()
        && grant(alloc, tree, 1, "/c/a").is_ok()
        && grant(alloc, tree, 1, "/secret").is_ok()
}

/// The answer to the step that is due.
pub fn made<T: Tree>(alloc: Global, tree: &mut T, call: &Call) -> Answer {
    let step = call.due();
    let answer = tree.step(alloc, Actor::new(0), &step);
    drop(step);
    answer.unwrap_or(Answer::Refused(Errno::NoMemory))
}

/// What a call has come to after its due step.
pub fn step<T: Tree>(alloc: Global, tree: &mut T, call: Call) -> CallTurn
    ensures { steps_to_come result < steps_left call.below call.doing }
{
    let answer = made(alloc, tree, &call);
    call.take(alloc, answer)
}

// Makes the others' steps.
fn others_act<T: Tree>(alloc: Global, tree: &mut T, others: &str) {
    for line in others.split(", ") {
        let _told = answered(alloc, tree, 1, line);
    }
}

/// The reply at a call's end, and the number of steps to there, where others make theirs after so many of these.
pub fn run<T: Tree>(
    alloc: Global,
    tree: &mut T,
    mut turn: CallTurn,
    after: u32,
    others: &str,
) -> (Reply, u32) {
    let mut steps: u32 = 0;
    loop {
        if steps == after {
            others_act(alloc, tree, others);
        }
        match turn {
            CallTurn::More(call) => {
                steps = steps.saturating_add(1);
                turn = step(alloc, tree, call);
            }
            CallTurn::Done(reply) => return (reply, steps),
        }
    }
}

// The same by a row's words: after how many steps, and then the others' steps.
fn run_among<T: Tree>(alloc: Global, tree: &mut T, turn: CallTurn, others: &str) -> (Reply, u32) {
    let (after, steps) = cut(others);
    run(alloc, tree, turn, after.parse().unwrap_or(u32::MAX), steps)
}

fn tell(alloc: Global, told: &mut Output, reply: &Reply) -> Result<(), NoMemory> {
    match reply {
        Reply::Opened(standing) => {
            told.opened_words(alloc, standing.kind(), standing.node(), standing.names())
        }
        Reply::Text(text) => {
            told.text("text ")?;
            told.escaped(text.as_slice())
        }
        Reply::Done => told.text("done"),
        Reply::Count(count) => {
            told.text("count ")?;
            told.number(*count)
        }
        Reply::Stepped(answer) => {
            told.text("stepped ")?;
            told.answer(alloc, answer)
        }
        Reply::Kept(_) => told.text("kept"),
        Reply::Fault(error) => told.fault_words(*error),
    }
}

// Tells the number of a call's steps and the reply. As the number it tells what is wanted, where that is `*`
// or none is known.
fn tell_end(
    alloc: Global,
    told: &mut Output,
    reply: &Reply,
    steps: Option<u32>,
    wanted: &str,
) -> Result<(), NoMemory> {
    match (steps, cut(wanted).0) {
        (Some(steps), number) if number != "*" => told.number(u64::from(steps))?,
        (_, number) => told.text(number)?,
    }
    told.text(" ")?;
    tell(alloc, told, reply)
}

// Whether a call's end is told so.
fn is_end(alloc: Global, reply: &Reply, steps: Option<u32>, wanted: &str) -> bool {
    let mut told = Output::new(alloc);
    let is_told = tell_end(alloc, &mut told, reply, steps, wanted).is_ok();
    is_told && told.as_slice() == wanted.as_bytes()
}

// The reply to what is asked, and the number of steps to there where that is known.
fn replied<T: Tree>(
    alloc: Global,
    tree: &mut T,
    request: Request,
    root: Root,
    table: &Table,
    how: How,
) -> (Reply, Option<u32>) {
    if how == How::Whole {
        return (run_call(alloc, tree, request, root), None);
    }
    let turn = Call::start(alloc, request, root);
    let (reply, steps) = match how {
        How::Copied => run_copies(alloc, tree, turn),
        How::Passed => run_passing(alloc, tree, turn, &mut 0),
        _ => run_among(alloc, tree, turn, table.others),
    };
    (reply, Some(steps))
}

// Whether what was opened is released so.
fn is_released<T: Tree>(
    alloc: Global,
    tree: &mut T,
    standing: Standing,
    table: &Table,
    how: How,
) -> bool {
    let _told = answered(alloc, tree, 0, table.before);
    let (tag, rest) = cut(table.released);
    let (held, end) = cut(rest);
    let op = Op::Release(standing);
    let request = Request { op, flags: PLAIN };
    let (reply, steps) = replied(alloc, tree, request, root(number(tag)), &table_of(""), how);
    let is_right = is_end(alloc, &reply, steps, end);
    drop(reply);
    is_right && tree.held(Actor::new(0)) as u64 == number(held)
}

// Whether what a reply opened is released so. Of one that opened nothing the root's handle alone is to be open.
fn releases<T: Tree>(alloc: Global, tree: &mut T, reply: Reply, table: &Table, how: How) -> bool {
    match reply {
        Reply::Opened(standing) => is_released(alloc, tree, standing, table, how),
        other => {
            drop(other);
            tree.held(Actor::new(0)) == 1
        }
    }
}

// Whether a call of a line ends so, and what it opened is released.
fn ends<T: Tree>(alloc: Global, tree: &mut T, call: &str, table: &Table, how: How) -> bool {
    let (words, wanted) = call.split_once(" -> ").unwrap_or((call, ""));
    let request = asked(alloc, words, table.flags, how == How::Copied);
    let (reply, steps) = replied(alloc, tree, request, root(OWN), table, how);
    let is_right = is_end(alloc, &reply, steps, wanted);
    releases(alloc, tree, reply, table, how) && is_right
}

// Whether each call of a line ends so.
fn all_end<T: Tree>(alloc: Global, tree: &mut T, line: &str, table: &Table, how: How) -> bool {
    let mut all = open(alloc, tree);
    for call in line.split(", ") {
        all = ends(alloc, tree, call, table, how) && all;
    }
    all
}

fn all_end_on_list(alloc: Global, line: &str, table: &Table, how: How) -> bool {
    let Ok(mut list) = base_tree(alloc) else {
        return false;
    };
    let all = all_end(alloc, &mut list, line, table, how);
    drop(list);
    all
}

fn indexed_tree(alloc: Global) -> Result<SlabTree, Errno> {
    let list = base_tree(alloc)?;
    let slab = SlabTree::from_list(alloc, &list, 16);
    drop(list);
    slab
}

fn all_end_on_slab(alloc: Global, line: &str, table: &Table, how: How) -> bool {
    let Ok(mut slab) = indexed_tree(alloc) else {
        return false;
    };
    let all = all_end(alloc, &mut slab, line, table, how);
    drop(slab);
    all
}

// The first line of which a call ends otherwise on one of the trees, and of none nothing.
fn wrong_line<'a>(alloc: Global, lines: &'a str, table: &Table, how: How) -> &'a str {
    for line in lines.lines() {
        if !all_end_on_list(alloc, line, table, how) || !all_end_on_slab(alloc, line, table, how) {
            return line;
        }
    }
    ""
}

#[test]
fn operations_end_as_they_do_on_linux(rt: HostRuntime) {
    for how in [How::Taken, How::Passed, How::Whole, How::Copied] {
        for (columns, lines) in ALONE {
            assert_eq!(rt; wrong_line(rt.alloc(), lines, &table_of(columns), how), "");
        }
    }
    for (columns, lines) in AMONG_OTHERS {
        assert_eq!(rt;
            wrong_line(rt.alloc(), lines, &table_of(columns), How::Taken),
            ""
        );
    }
}
