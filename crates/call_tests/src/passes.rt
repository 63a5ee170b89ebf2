//! Calls whose answers pass in place where they may.
ghost use Rattle.std.specs.Prelude.{◌<◌};
ghost use Rattle.root_ops.specs.Order.{steps_left};
ghost use Rattle.root_ops.specs.TurnView.{steps_to_come};

use crate::calls::{OWN, made, open};
use crate::requests::{number, request_of};
use fixtures::{PLAIN, base_tree, column, cut, root};
use root_ops::{Call, CallTurn, Reply};
use std::alloc::Global;
use tree_model::Tree;

// What a call has come to after its due step, whose answer is offered to `pass` first. Counts it if it
// passes.
fn step_in_place<T: Tree>(alloc: Global, tree: &mut T, mut call: Call, passed: &mut u32) -> CallTurn
    ensures { steps_to_come result < steps_left call.below call.doing }
{
    let answer = made(alloc, tree, &call);
    if call.pass(&answer) {
        *passed = passed.saturating_add(1);
        return CallTurn::More(call);
    }
    call.take(alloc, answer)
}

/// The reply at a call's end, and the number of steps to there. Counts those whose answer passed.
pub fn run_passing<T: Tree>(
    alloc: Global,
    tree: &mut T,
    mut turn: CallTurn,
    passed: &mut u32,
) -> (Reply, u32) {
    let mut steps: u32 = 0;
    loop {
        match turn {
            CallTurn::More(call) => {
                steps = steps.saturating_add(1);
                turn = step_in_place(alloc, tree, call, passed);
            }
            CallTurn::Done(reply) => return (reply, steps),
        }
    }
}

// A call on the base tree, the number of its steps, and how many of their answers pass: of its walks the
// Opens, but for one that is refused at the root, and the Closes after which the walk goes on below the root.
const PASSES: &str = "\
# Opens a, b and f, closes a and b
resolve a/b/f | 6 5
resolve none | 1 0
# Opens abs, reads and closes it, opens a, b and f, closes a and b
resolve abs/f | 9 6
# Opens a and none, and closes a before it fails
resolve a/none | 3 2
# Opens a. The step on the name and the Close after it are no walk's.
create_file a/n | 4 1
# Opens a, b and x, which is missing, for the one walk
rename a/b/x/y none/z plain | 5 4
list 0 | 1 0";

// Whether a row's call makes so many steps, of which so many pass.
fn passes_so<T: Tree>(alloc: Global, tree: &mut T, row: &str) -> bool {
    let (line, counts) = column(row);
    let (steps, passes) = cut(counts);
    let turn = Call::start(alloc, request_of(alloc, line, PLAIN), root(OWN));
    let mut passed: u32 = 0;
    let (reply, count) = run_passing(alloc, tree, turn, &mut passed);
    drop(reply);
    u64::from(count) == number(steps) && u64::from(passed) == number(passes)
}

fn passes_so_on_tree(alloc: Global, row: &str) -> bool {
    let Ok(mut tree) = base_tree(alloc) else {
        return false;
    };
    let is_open = open(alloc, &mut tree);
    let is_so = passes_so(alloc, &mut tree, row);
    drop(tree);
    is_open && is_so
}

#[test]
fn answers_of_walks_pass(rt: HostRuntime) {
    for row in PASSES.lines() {
        assert!(rt;
            row.starts_with('#') || passes_so_on_tree(rt.alloc(), row),
            "{row}"
        );
    }
}
