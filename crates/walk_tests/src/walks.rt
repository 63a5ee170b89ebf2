//! Walks driven by answers made by hand: the steps in their order, and the ends, as openat2(2) and
//! path_resolution(7) tell of them.
//!
//! A walk is a path below handle 0 and the words of its goal and its restrictions, as `l nofollow no_links`.
//! Its steps come each with the answer after an arrow: `=>` where the answer passes in place, `->` where it
//! must be taken.
use crate::words::{are_parts, goal_of};
use event_log::Output;
use fixtures::{answer_of, are_numbers, column, cut, flags_of, root};
use handles::Standing;
use path_text::{Errno, Path};
use std::alloc::Global;
use step_resolver::{Turn, Walk};
use tree_model::Answer;

// A walk, its steps, and its end: `more` where it goes on, and `opened dir 11 /a left b ..` where it is held at /a with
// the parts `b` and `..` left.
const WALKS: &str = "\
# a walk begins at the root
/ | dup 0 -> dir 4 1, below 0 4 -> names / | opened dir 1 /
/../.. | dup 0 -> dir 4 1, below 0 4 -> names / | opened dir 1 /
/a beneath |  | fault EXDEV
./.. beneath |  | fault EXDEV
/ | dup 0 -> refused EMFILE | fault EMFILE
# names and links are passed
a/b | open 0 a => dir 4 11, open 4 b => file 5 12, close 4 => done, below 0 5 -> names /a/b | opened file 12 /a/b
l/b | open 0 l => link 4 11, read_link 4 -> text c/d, close 4 -> done, open 0 c => dir 5 12, open 5 d => dir 6 13, \
    close 5 => done, open 6 b => file 7 14, close 6 => done, below 0 7 -> names /c/d/b | opened file 14 /c/d/b
a/l | open 0 a => dir 4 11, open 4 l => link 5 12, read_link 5 -> text /c, close 5 -> done, close 4 -> done, \
    open 0 c => dir 6 13, below 0 6 -> names /c | opened dir 13 /c
l nofollow no_links | open 0 l => link 4 11, below 0 4 -> names /l | opened link 11 /l
l no_links | open 0 l => link 4 11, close 4 -> done | fault ELOOP
l beneath | open 0 l => link 4 11, read_link 4 -> text /c, close 4 -> done | fault EXDEV
f/ | open 0 f => file 4 11, close 4 -> done | fault ENOTDIR
# the place is checked after a parent and at the end
a/.. | open 0 a => dir 4 11, parent 4 -> dir 5 1, close 4 -> done, below 0 5 -> names /, below 0 5 -> names / | \
    opened dir 1 /
a/../b | open 0 a => dir 4 11, parent 4 -> dir 5 20, close 4 -> done, below 0 5 -> not_below, close 5 -> done | \
    fault EAGAIN
a/.. | open 0 a => dir 4 11, parent 4 -> refused ENOENT, close 4 -> done | fault EAGAIN
a | open 0 a => dir 4 11, below 0 4 -> names /b, close 4 -> done | fault EAGAIN
# a walk ends in the deepest directory
a/b/../c deepest | open 0 a => dir 4 11, open 4 b => refused ENOENT, below 0 4 -> names /a | \
    opened dir 11 /a left b .. c
a deepest | open 0 a -> refused ENOENT, dup 0 -> dir 4 1, below 0 4 -> names / | opened dir 1 / left a
l/b deepest | open 0 l => link 4 11, read_link 4 -> text none, close 4 -> done, open 0 none -> refused ENOENT | \
    fault ENOENT
a/b | open 0 a => dir 4 11, open 4 b => refused ENOENT, close 4 -> done | fault ENOENT
# what is held is closed before a walk fails
a/l | open 0 a => dir 4 11, open 4 l => link 5 12, read_link 5 -> refused ENOMEM, close 5 -> done, \
    close 4 -> refused ENOMEM | fault ENOMEM
a/b | open 0 a => dir 4 11, open 4 b => refused ENOSPC, close 4 -> done | fault ENOSPC
a | open 0 a -> names /a | fault EBADF
a | open 0 a => dir 4 11, below 0 4 -> done, close 4 -> not_below | fault EBADF
a | open 0 a => dir 4 11 | more
# what else passes in place, and what does not
a/l | open 0 a => dir 4 11, open 4 l => link 5 12, read_link 5 -> text b, close 5 => done, open 4 b => dir 6 13, \
    close 4 => refused ENOMEM, below 0 6 -> names /a/b | opened dir 13 /a/b
a/b/.. | open 0 a => dir 4 11, open 4 b => dir 5 12, close 4 => done, parent 5 -> dir 6 11, close 5 -> done, \
    below 0 6 -> names /a, below 0 6 -> names /a | opened dir 11 /a
a/f/b | open 0 a => dir 4 11, open 4 f => file 5 12, close 4 => done, close 5 -> done | fault ENOTDIR
a/l no_links | open 0 a => dir 4 11, open 4 l => link 5 12, close 5 -> done, close 4 -> done | fault ELOOP
a/b | open 0 a => dir 4 11, open 4 b => not_below, close 4 -> done | fault EBADF
a/b | open 0 a -> refused ENOENT | fault ENOENT";

// The steps that a word stands for.
fn steps_of(steps: &str) -> &str {
    match steps {
        "opens" => "open 0 a => dir 4 11",
        "reads" => "open 0 a => dir 4 11, open 4 b => link 5 12",
        "closes" => "open 0 a => dir 4 11, open 4 b => link 5 12, read_link 5 -> done",
        others => others,
    }
}

fn start(alloc: Global, call: &str) -> Turn {
    let (path, words) = cut(call);
    match Path::parse(alloc, path.as_bytes()) {
        Ok(path) => Walk::start(alloc, root(7), path, goal_of(words), flags_of(words)),
        Err(error) => Turn::Failed(error),
    }
}

// Only the line takes memory.
fn is_due(alloc: Global, walk: &Walk, line: &str) -> bool {
    let mut written = Output::new(alloc);
    written.step(&walk.due()).is_ok() && written.as_slice() == line.as_bytes()
}

// A line's step and its answer, and whether that passes in place.
fn parts_of(line: &str) -> (&str, &str, bool) {
    match line.split_once(" => ") {
        Some((step, answer)) => (step, answer, true),
        None => {
            let (step, answer) = line.split_once(" -> ").unwrap_or((line, ""));
            (step, answer, false)
        }
    }
}

// The turn after a line's answer, and whether its step was due. Where the answer is offered to `pass`, also
// whether it passed as the line says, and left its step due where it didn't.
fn answered(alloc: Global, mut walk: Walk, line: &str, offers: bool) -> (Turn, bool) {
    let (step, words, passes) = parts_of(line);
    let answer = answer_of(alloc, words);
    let was_due = is_due(alloc, &walk, step);
    if !offers {
        return (walk.take(answer), was_due);
    }
    if walk.pass(&answer) {
        return (Turn::More(walk), was_due && passes);
    }
    let still_due = is_due(alloc, &walk, step);
    (walk.take(answer), was_due && still_due && !passes)
}

// What the steps lead to, and whether each was due in its turn, and passed as its line says where it was
// offered.
fn walked(alloc: Global, call: &str, steps: &str, offers: bool) -> (Turn, bool) {
    let mut turn = start(alloc, call);
    let mut all_right = true;
    for line in steps_of(steps).split(", ").filter(|line| !line.is_empty()) {
        turn = match turn {
            Turn::More(walk) => {
                let (next, is_right) = answered(alloc, walk, line, offers);
                all_right = all_right & is_right;
                next
            }
            ended => {
                all_right = false;
                ended
            }
        };
    }
    (turn, all_right)
}

// Tells each step that it wasn't made, until the walk ends.
fn give_up(alloc: Global, mut turn: Turn) {
    loop {
        match turn {
            Turn::More(walk) => turn = walk.take(Answer::Refused(Errno::NoMemory)),
            Turn::Found(_standing) => return,
            Turn::Partial(_standing, _rest) => return,
            Turn::Failed(_error) => return,
        }
    }
}

fn stands(alloc: Global, held: &Standing, words: &str) -> bool {
    let mut line = Output::new(alloc);
    line.opened_words(alloc, held.kind(), held.node(), held.names())
        .is_ok()
        && line.as_slice() == words.as_bytes()
}

fn is_end(alloc: Global, turn: &Turn, end: &str) -> bool {
    match turn {
        Turn::More(_) => end == "more",
        Turn::Found(held) => stands(alloc, held, end),
        Turn::Partial(held, rest) => match end.split_once(" left ") {
            Some((words, parts)) => stands(alloc, held, words) && are_parts(&rest, parts),
            None => false,
        },
        Turn::Failed(error) => cut(end).0 == "fault" && cut(end).1 == error.name(),
    }
}

// Whether the steps are right, and the walk comes to its end.
fn holds(alloc: Global, row: &str, offers: bool) -> bool {
    let (call, rest) = column(row);
    let (steps, end) = column(rest);
    let (turn, all_right) = walked(alloc, call, steps, offers);
    let is_end = is_end(alloc, &turn, end);
    give_up(alloc, turn);
    all_right && is_end
}

// Each walk, where each answer is taken, and where it is offered to `pass` first.
#[test]
fn walks_step_and_end_so(rt: HostRuntime) {
    let alloc = rt.alloc();
    for row in WALKS.lines().filter(|row| !row.starts_with('#')) {
        assert!(rt;
            holds(alloc, row, false) && holds(alloc, row, true),
            "{row}"
        );
    }
}

// The steps of a walk along `a/b`; another walk and its steps; and whether the two are like each other, and go the same
// way.
const LIKE: &str = "\
opens | a/b | open 0 a => dir 7 11 | walk way
opens | a/b deepest | open 0 a => dir 7 11 | walk
opens | a/b nofollow | opens | neither
opens | a/b | open 0 a => dir 4 12 | way
opens | a/c | opens | way
opens | c/b | open 0 c => dir 4 11 | way
opens | l/b | open 0 l => link 4 9, read_link 4 -> text a, close 4 -> done, open 0 a => dir 4 11 | way
opens | a/b | reads | way
reads | a/b | open 0 a => dir 5 11, open 5 b => link 6 12 | walk way
reads | a/b | open 0 a => dir 4 11, open 4 b => link 5 13 | way
closes | a/b | open 0 a => dir 5 11, open 5 b => link 6 12, read_link 6 -> done | walk way
closes | a/b | open 0 a => dir 4 11, open 4 b => done | way";

// Whether the walks are like each other, and whether they go the same way. Nothing where one of them ended.
fn likeness(turn: &Turn, other: &Turn) -> &'static str {
    match (turn, other) {
        (Turn::More(walk), Turn::More(others)) => {
            match (walk.is_like(others), walk.goes_like(others)) {
                (true, true) => "walk way",
                (true, false) => "walk",
                (false, true) => "way",
                (false, false) => "neither",
            }
        }
        _ => "",
    }
}

// Whether that is told of the two. The other walk's answers are taken, also where the first one's pass.
fn is_told(alloc: Global, row: &str, offers: bool) -> bool {
    let (steps, rest) = column(row);
    let (call, rest) = column(rest);
    let (others_steps, told) = column(rest);
    let (turn, is_right) = walked(alloc, "a/b", steps, offers);
    let (other, is_other_right) = walked(alloc, call, others_steps, false);
    let likeness = likeness(&turn, &other);
    give_up(alloc, turn);
    give_up(alloc, other);
    is_right && is_other_right && likeness == told
}

#[test]
fn walks_that_are_like_each_other(rt: HostRuntime) {
    let alloc = rt.alloc();
    for row in LIKE.lines() {
        assert!(rt;
            is_told(alloc, row, false) && is_told(alloc, row, true),
            "{row}"
        );
    }
}

// The steps of a walk along `a/b/..`, and the handles that it then holds, in their order.
const HELD: &str = "\
opens | 4
 | 
reads | 4 5
closes | 5 4
open 0 a => dir 4 11, open 4 b => dir 5 12 | 4 5
open 0 a => dir 4 11, open 4 b => link 5 12, read_link 5 -> text c | 5 4
open 0 a => dir 4 11, open 4 b => done | 4";

// Whether a walk below handle 0 holds these handles.
fn holds_handles(alloc: Global, turn: &Turn, numbers: &str) -> bool {
    let mut handles = Vec::new(alloc);
    let told = match turn {
        Turn::More(walk) => walk.push_handles(&mut handles).is_ok() & (walk.root().number() == 0),
        _ => false,
    };
    told && are_numbers(handles.as_slice(), numbers)
}

fn comes_to_hold(alloc: Global, row: &str, offers: bool) -> bool {
    let (steps, numbers) = column(row);
    let (turn, is_right) = walked(alloc, "a/b/..", steps, offers);
    let holds = holds_handles(alloc, &turn, numbers);
    give_up(alloc, turn);
    is_right && holds
}

#[test]
fn handles_that_a_walk_holds(rt: HostRuntime) {
    let alloc = rt.alloc();
    for row in HELD.lines() {
        assert!(rt;
            comes_to_hold(alloc, row, false) && comes_to_hold(alloc, row, true),
            "{row}"
        );
    }
}
