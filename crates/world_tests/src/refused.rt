//! Worlds on a tree that refuses memory to one of the steps that are made on it, each in turn.
ghost use Rattle.std.specs.Prelude.{◌≡◌, ◌↔◌, IsTrue, false};
ghost use Rattle.tree_model.specs.Steps.{takes_no_memory};

use crate::plans::{plans, tree_with, turns};
use crate::told::{ran, tell};
use event_log::Output;
use fixtures::{PLAIN, column};
use path_text::{Errno, Names, NoMemory};
use race_core::Report;
use std::alloc::Global;
use tree_list::ListTree;
use tree_model::{Actor, Answer, HandleNo, LentStep, Snapshot, StepOf, Tree};

fn takes_memory(step: &LentStep<'_>) -> bool
    ensures { IsTrue result ↔ (takes_no_memory step.now ≡ false) }
{
    match step {
        StepOf::Close(_) | StepOf::RemoveFile(_, _) | StepOf::RemoveDir(_, _) => false,
        _ => true,
    }
}

// A tree that has no memory for one step: the first that takes memory after so many that do.
#[derive(Debug, Drop)]
struct Short {
    tree: ListTree,
    before: u32,
    refused: u32,
}

impl Short {
    fn refuses(&mut self) -> bool
        ensures { self.new.tree ≡ self.old.tree }
    {
        if self.before > 0 {
            self.before -= 1;
            return false;
        }
        let is_first = self.refused == 0;
        self.refused = 1;
        is_first
    }
}

impl Tree for Short {
    ghost state = { λ short. short.tree };

    fn step(
        &mut self,
        alloc: Global,
        actor: Actor,
        step: &LentStep<'_>,
    ) -> Result<Answer, NoMemory> {
        if takes_memory(step) && self.refuses() {
            return Err(NoMemory);
        }
        self.tree.step(alloc, actor, step)
    }

    fn grant(&mut self, alloc: Global, actor: Actor, names: &Names) -> Result<HandleNo, Errno> {
        self.tree.grant(alloc, actor, names)
    }

    fn held(&self, actor: Actor) -> usize {
        self.tree.held(actor)
    }

    fn snapshot(&self, alloc: Global) -> Result<Snapshot, NoMemory> {
        self.tree.snapshot(alloc)
    }
}

// Plans, turns, after how many steps that take memory the next one is refused, and what is told then. By the greatest
// number no step was left to refuse.
//
// The call that met the refusal tells ENOMEM, and holds nothing; the others tell what the steps come to that were made.
// What another actor opens isn't there to be moved where that was refused.
const WORLDS: &str = "\
alone |  | 0 1 2 3 | 1 refused; held 1, fault ENOMEM;
alone |  | 4 | 0 refused; held 2, opened file 4 /a/b/f;
/c: resolve abs/f; /: resolve secret/key | 0101 | 0 2 4 5 6 7 | 1 refused; held 1, fault ENOMEM; held 2, \
    opened file 10 /secret/key;
/c: resolve abs/f; /: resolve secret/key | 0101 | 1 3 8 | 1 refused; held 2, opened file 4 /a/b/f; held 1, fault ENOMEM;
/c: resolve abs/f; /: resolve secret/key | 0101 | 9 | 0 refused; held 2, opened file 4 /a/b/f; held 2, \
    opened file 10 /secret/key;
moved_out | 1111110001 | 0 1 2 | 1 refused; held 2, opened dir 2 /a; held 2, fault ENOMEM, opened dir 9 /secret, \
    fault EBADF;
moved_out | 1111110001 | 3 4 | 1 refused; held 2, opened dir 2 /a; held 2, opened dir 2 /c/a, fault ENOMEM, fault EBADF;
moved_out | 1111110001 | 5 6 8 9 | 1 refused; held 1, fault ENOMEM; held 3, opened dir 2 /c/a, opened dir 9 /secret, \
    stepped done;
moved_out | 1111110001 | 7 | 1 refused; held 2, opened dir 2 /a; held 3, opened dir 2 /c/a, opened dir 9 /secret, \
    fault ENOMEM;
moved_out | 1111110001 | 10 | 0 refused; held 1, fault EAGAIN; held 3, opened dir 2 /c/a, opened dir 9 /secret, \
    stepped done;
/c: remove_all a: remove_all a |  | 0 1 2 3 4 5 | 1 refused; held 1, fault ENOMEM, count 4;
/c: remove_all a: remove_all a |  | 6 7 | 1 refused; held 1, count 4, fault ENOMEM;
/c: remove_all a: remove_all a |  | 8 | 0 refused; held 1, count 4, count 0;
/c: mkdir_all abs/n/m: mkdir_all abs/n/m |  | 0 1 2 3 4 5 6 7 8 9 10 | 1 refused; held 2, fault ENOMEM, \
    opened dir 13 /a/b/n/m;
/c: mkdir_all abs/n/m: mkdir_all abs/n/m |  | 11 12 13 14 15 16 17 | 1 refused; held 2, opened dir 13 /a/b/n/m, \
    fault ENOMEM;
/c: mkdir_all abs/n/m: mkdir_all abs/n/m |  | 18 | 0 refused; held 3, opened dir 13 /a/b/n/m, opened dir 13 /a/b/n/m;";

// Tells how many steps were refused, and how all ended.
fn tell_all(alloc: Global, told: &mut Output, report: &Report<Short>) -> Result<(), NoMemory> {
    told.number(report.tree.refused as u64)?;
    told.text(" refused; ")?;
    tell(alloc, told, report, false)
}

// The base tree with a link to `/secret`, node 11, which refuses the step after so many.
fn refusing(alloc: Global, before: u32) -> Result<Short, Errno> {
    let tree = tree_with(alloc, "/c/a/b/s -> /secret")?;
    Ok(Short {
        tree,
        before,
        refused: 0,
    })
}

// Whether that is told where the step after so many is refused.
fn is_told(
    alloc: Global,
    text: &str,
    digits: &str,
    before: u32,
    wanted: &str,
) -> Result<bool, Errno> {
    let (plans, turns) = (plans(alloc, text, PLAIN)?, turns(alloc, digits)?);
    match ran(alloc, refusing(alloc, before)?, plans, &turns, 1000) {
        Ok(report) => {
            let mut told = Output::new(alloc);
            let is_told = tell_all(alloc, &mut told, &report).is_ok();
            drop(report);
            Ok(is_told && told.as_slice() == wanted.as_bytes())
        }
        Err(_) => Ok(false),
    }
}

// Whether that is told as each of these steps is refused in turn.
fn tells(alloc: Global, row: &str) -> bool {
    let (text, rest) = column(row);
    let (digits, rest) = column(rest);
    let (numbers, wanted) = column(rest);
    for number in numbers.split(' ') {
        let before = number.parse().unwrap_or(u32::MAX);
        if is_told(alloc, text, digits, before, wanted) != Ok(true) {
            return false;
        }
    }
    true
}

#[test]
fn each_step_is_refused(rt: HostRuntime) {
    for row in WORLDS.lines() {
        assert!(rt; tells(rt.alloc(), row), "{row}");
    }
}
