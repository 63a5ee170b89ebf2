//! RemoveAll on the plain tree, with another's steps in between, and one that is answered by hand, as unlink(2) and
//! rmdir(2) tell.
use crate::bulk_calls::{Answers, called, is_end};
use crate::bulk_rows::{holds, wrong_in_turn};
use bulk_ops::RemoveAll;
use fixtures::PLAIN;
use path_text::{Errno, Names, NoMemory};
use std::alloc::Global;
use std::test::*;
use tree_model::{Answer, HandleNo, Kind, LentStep, Node, StepOf};

// Where the other's handle 1 is.
const OTHER_AT: &str = "/c";

const ROWS: &str = "\
a | 15 count 4 | 1 7 | none /c/a, 10 /secret/key | open 1 a, open 2 b, make_link 3 s /secret
none | 4 count 0 | 1 10 | 4 /c/a/b/f
d | 8 count 1 | 1 10 | none /c/d, 4 /c/a/b/f | make_dir 1 d
abs/f | 9 count 1 | 1 9 | 3 /c/a/b, none /c/a/b/f
abs/f no_links | 2 fault ELOOP | 1 10 | 4 /c/a/b/f
abs no_links | 4 count 1 | 1 9 | none /c/abs, 4 /c/a/b/f
/abs beneath | 0 fault EXDEV | 1 10 | 5 /c/abs
a/b/f/x | 8 fault ENOTDIR | 1 10 | 4 /c/a/b/f
none/x | 1 fault ENOENT | 1 10 | 4 /c/a/b/f
# what is below it is moved away, and a link out of the root is there instead
a each | 12 count 2 | 1 9 | none /c/a, 4 /c/b2/f, 10 /secret/key | open 1 a | 6 rename 2 b 1 b2 plain, \
    make_link 2 b /secret
# a file is there instead
a | 7 count 1 | 1 10 | none /c/a, 2 /c/b, 4 /c/b/b/f |  | 3 rename 1 a 1 b plain, make_file 1 a";

#[test]
fn removes_with_all_below(rt: HostRuntime) {
    for line in ROWS.lines() {
        assert!(rt; holds::<RemoveAll>(rt.alloc(), OTHER_AT, line), "{line}");
    }
}

const AGAIN: &str = "\
a | 14 count 3 | 1 7 | none /c/a
a | 4 count 0 | 1 7 | none /c/a";

#[test]
fn finds_nothing_the_second_time(rt: HostRuntime) {
    assert_eq!(rt;
        wrong_in_turn::<RemoveAll>(rt.alloc(), OTHER_AT, AGAIN),
        Ok("")
    );
}

// A tree in which each directory is empty when it is listed, and not when it is removed, until it has been asked for so
// many steps; how many were made on it, and how many Closes among them.
#[derive(Drop)]
struct Filling {
    until: u64,
    steps: u64,
    closes: u64,
}

impl Answers for Filling {
    fn answer(&mut self, alloc: Global, step: &LentStep<'_>) -> Result<Answer, NoMemory> {
        self.steps = self.steps.saturating_add(1);
        if matches!(step, StepOf::Close(_)) {
            self.closes = self.closes.saturating_add(1);
        }
        Ok(match step {
            StepOf::RemoveDir(_, _) => self.dir_removed(),
            _ => answer_by_hand(alloc, step, self.steps),
        })
    }
}

impl Filling {
    // The first three times somebody has put a file in the directory's place, which is a directory again when that is
    // to be removed: each takes one step more, so that a call may come to its end at any of four steps in turn.
    fn dir_removed(&self) -> Answer {
        if self.closes <= 3 {
            Answer::Refused(Errno::NotDir)
        } else if self.steps < self.until {
            Answer::Refused(Errno::NotEmpty)
        } else {
            Answer::Done
        }
    }
}

fn answer_by_hand(alloc: Global, step: &LentStep<'_>, handle: u64) -> Answer {
    match step {
        StepOf::Dup(_) | StepOf::Open(_, _) => Answer::Opened {
            handle: HandleNo::new(handle),
            node: Node::new(handle),
            kind: Kind::Dir,
        },
        StepOf::NameBelow(_, _) => Answer::Names(Names::new(alloc)),
        StepOf::List(_) => Answer::Listed(Names::new(alloc)),
        StepOf::RemoveFile(_, _) => Answer::Refused(Errno::IsDir),
        _ => Answer::Done,
    }
}

// The walk has two steps, and the last one closes its directory. Four RemoveFile, and otherwise Open, List, Close and
// RemoveDir in turn: the last of 600,000 steps of clearing is a RemoveDir.
fn ends_at(alloc: Global, until: u64, end: &str) -> bool {
    let mut tree = Filling {
        until,
        steps: 0,
        closes: 0,
    };
    let last = called::<RemoveAll, Filling>(alloc, &mut tree, "t", PLAIN);
    let is_end = is_end(alloc, &last, end);
    drop(last);
    is_end && tree.steps == 600_003 && tree.closes == 150_000
}

#[test]
fn clears_in_as_many_steps_as_it_may_take(rt: HostRuntime) {
    assert!(rt; ends_at(rt.alloc(), 600_002, "count 1"));
}

#[test]
fn gives_up_a_directory_that_others_fill(rt: HostRuntime) {
    assert!(rt; ends_at(rt.alloc(), 600_003, "fault EBUSY"));
}
