//! Requests, answers and calls that differ in the numbers of their handles alone, and others that don't.
use crate::calls::{OWN, grant, open, run, step};
use crate::requests::request_of;
use fixtures::{PLAIN, are_numbers, base_tree, column, root};
use path_text::{Errno, NoMemory};
use root_ops::{Call, CallTurn, Request, like_answers, push_answer_handles};
use std::alloc::Global;
use step_resolver::Root;
use tree_list::ListTree;
use tree_model::{Answer, HandleNo, Kind, Node};

// Two requests, whether they are alike, and the handles of the first.
const REQUESTS: &str = "\
resolve a | resolve a | like
resolve a | resolve b | unlike
resolve a | no_follow a | unlike
create_link l q | create_link l r | unlike
rename a b plain | rename a b exchange | unlike
list 3 | list 4 | like | 3
list 3 | close 3 | unlike | 3
below 5 6 | below 0 0 | like | 5 6
make_link 2 l q | make_link 2 l r | unlike | 2
rename 2 b 1 c plain | rename 1 b 1 c plain | like | 2 1
rename 2 b 1 c plain | rename 2 b 1 d plain | unlike | 2 1
rename 2 b 1 c plain | rename 2 b 1 c exchange | unlike | 2 1";

// Whether the request has these handles.
fn has_handles(alloc: Global, request: &Request, numbers: &str) -> bool {
    let mut handles = Vec::new(alloc);
    request.push_handles(&mut handles).is_ok() && are_numbers(&handles, numbers)
}

// Whether a row's requests are as the row says.
fn are_so(alloc: Global, row: &str) -> bool {
    let (line, rest) = column(row);
    let (other, rest) = column(rest);
    let (likeness, numbers) = column(rest);
    let request = request_of(alloc, line, PLAIN);
    let other = request_of(alloc, other, PLAIN);
    let is_like = request.is_like(&other) == (likeness == "like");
    let are_so = is_like && has_handles(alloc, &request, numbers);
    drop(request);
    drop(other);
    are_so
}

fn opened(handle: u64, node: u64) -> Answer {
    Answer::Opened {
        handle: HandleNo::new(handle),
        node: Node::new(node),
        kind: Kind::Dir,
    }
}

// Whether handle 7 on node 1 is told like that handle on that node.
fn is_told_like(handle: u64, node: u64) -> bool {
    let (answer, other) = (opened(7, 1), opened(handle, node));
    let is_like = like_answers(&answer, &other);
    drop(answer);
    drop(other);
    is_like
}

// Pushes the answer's handles, and tells whether that was done.
fn pushes(answer: Answer, handles: &mut Vec<HandleNo>) -> bool {
    let is_pushed = push_answer_handles(&answer, handles).is_ok();
    drop(answer);
    is_pushed
}

// Whether two answers have the handle that the first opened.
fn have_their_handle(alloc: Global) -> bool {
    let mut handles = Vec::new(alloc);
    pushes(opened(7, 1), &mut handles)
        && pushes(Answer::Done, &mut handles)
        && are_numbers(&handles, "7")
}

// A call, another on an equal tree where each handle's number is one greater, and whether the two are alike.
const CALLS: &str = "\
resolve abs/f | resolve abs/f | like
read_link a/../abs | read_link a/../abs | like
create_link a/l q | create_link a/l q | like
rename a/b/ z plain | rename a/b/ z plain | like
rename abs up/none/x exchange | rename abs up/none/x exchange | like
mkdir_all abs/n/m | mkdir_all abs/n/m | like
remove_all a | remove_all a | like
list 0 | list 1 | like
resolve a | no_follow a | unlike
create_dir n | create_file n | unlike
rename a/b x plain | rename a/b x noreplace | unlike
rename a/b c/x plain | rename a/b c/y plain | unlike";

fn handles_of(alloc: Global, call: &Call) -> Result<Vec<HandleNo>, NoMemory> {
    let mut handles = Vec::new(alloc);
    call.push_handles(&mut handles)?;
    Ok(handles)
}

// Whether each of the others is one greater.
fn are_next(handles: &[HandleNo], others: &[HandleNo]) -> bool {
    handles.len() == others.len()
        && handles.iter().zip(others).all(|(handle, other)| handle.number().checked_add(1)
            == Some(other.number()))
}

// Whether the calls are alike, and each handle of the other is one greater.
fn are_alike(alloc: Global, call: &Call, other: &Call) -> Result<bool, NoMemory> {
    let handles = handles_of(alloc, call)?;
    Ok(call.is_like(other) && are_next(&handles, &handles_of(alloc, other)?))
}

// Whether nothing was due any more.
fn was_over(alloc: Global, tree: &mut ListTree, turn: CallTurn) -> bool {
    let (reply, steps) = run(alloc, tree, turn, 0, "");
    drop(reply);
    steps == 0
}

// Whether the calls are alike at each turn, of which there is one at least, and their ends both come at once.
fn go_alike(
    alloc: Global,
    tree: &mut ListTree,
    mut turn: CallTurn,
    other_tree: &mut ListTree,
    mut other_turn: CallTurn,
) -> bool {
    let mut all = true;
    let mut any = false;
    loop {
        match turn {
            CallTurn::More(call) => match other_turn {
                CallTurn::More(other) => {
                    all = are_alike(alloc, &call, &other) == Ok(true) && all;
                    any = true;
                    turn = step(alloc, tree, call);
                    other_turn = step(alloc, other_tree, other);
                }
                CallTurn::Done(reply) => {
                    drop(reply);
                    return was_over(alloc, tree, CallTurn::More(call));
                }
            },
            CallTurn::Done(reply) => {
                drop(reply);
                return was_over(alloc, other_tree, other_turn) && all && any;
            }
        }
    }
}

// The first turn of a call by that handle on the root.
fn started(alloc: Global, line: &str, handle: u64) -> CallTurn {
    let owner = root(OWN).owner;
    let handle = HandleNo::new(handle);
    Call::start(
        alloc,
        request_of(alloc, line, PLAIN),
        Root { owner, handle },
    )
}

// Whether the call on a tree, and the other on one with a handle more, are alike to their ends.
fn are_alike_on(
    alloc: Global,
    tree: &mut ListTree,
    line: &str,
    more: &mut ListTree,
    other: &str,
) -> bool {
    let is_open = open(alloc, tree)
        && grant(alloc, more, 1, "/secret").is_ok()
        && open(alloc, more);
    let turn = started(alloc, line, 0);
    let other_turn = started(alloc, other, 1);
    go_alike(alloc, tree, turn, more, other_turn) && is_open
}

// Whether a row's calls are alike or not on two base trees, as the row says.
fn go_so(alloc: Global, row: &str) -> Result<bool, Errno> {
    let (line, rest) = column(row);
    let (other, likeness) = column(rest);
    let mut tree = base_tree(alloc)?;
    let mut more = base_tree(alloc)?;
    Ok(are_alike_on(alloc, &mut tree, line, &mut more, other) == (likeness == "like"))
}

#[test]
fn calls_are_alike_but_for_handles(rt: HostRuntime) {
    for row in REQUESTS.lines() {
        assert!(rt; are_so(rt.alloc(), row), "{row}");
    }
    for row in CALLS.lines() {
        assert!(rt; go_so(rt.alloc(), row) == Ok(true), "{row}");
    }
}

#[test]
fn answers_are_alike_but_for_handles(rt: HostRuntime) {
    let are_alike = is_told_like(8, 1) && !is_told_like(7, 2);
    assert!(rt; are_alike && have_their_handle(rt.alloc()));
}
