//! Worlds that are copied in the midst of calls, and books.
use crate::plans::{tree, turns, world_after};
use crate::told::tell;
use event_log::Output;
use fixtures::column;
use path_text::{Errno, NoMemory};
use race_core::{Book, Report, World, WorldFault};
use std::alloc::Global;
use tree_list::ListTree;
use tree_model::{Actor, HandleNo, StepOf};

// Plans, the turns that a world of them takes, and other turns. The world is copied before each of its turns, where
// each kind of call is under way once: a walk with a link before the copy and after it, a rename's two walks, both bulk
// calls, a step of one's own, a release; and what is kept, calls that are to come and those that ended.
const FORKED: &str = "\
moved_out | 11111100010000 | 000000
/c: remove_all a: resolve abs/f; /: resolve c/a/b: make_file 1 new | 00011100001100000000 | 1111110101
/c: mkdir_all abs/n/m: mkdir_all e/x/y; /c: remove_all a/b: release 0 | 00000001100110101111 | 101010
/c: resolve a: resolve abs/b: rename 1 b 0 b2 plain: release 0: list 0: read_link 0 | 000000000000
/c: resolve a/b/../../abs/f: resolve loop: resolve up/f; /c: make_link 0 l a/b: resolve l/f | \
    0000100000000111000000 | 1111111
alone | 00000";

// How each call ended, and then each event.
fn tell_all(alloc: Global, told: &mut Output, report: &Report<ListTree>) -> Result<(), NoMemory> {
    tell(alloc, told, report, true)?;
    for at in 0..report.events.len() {
        report.events.write_event(told, at)?;
        told.text("\n")?;
    }
    Ok(())
}

// What is told of a world that goes on by these turns, and then to its end. Nothing where it has none.
fn told_of(alloc: Global, world: World<ListTree>, turns: &[u32]) -> Output {
    let mut told = Output::new(alloc);
    if let Ok(report) = world.run(alloc, turns) {
        if tell_all(alloc, &mut told, &report).is_err() {
            told = Output::new(alloc);
        }
        drop(report);
    }
    told
}

// The same of a world of these plans that isn't copied, after its turns so far.
fn told_without(
    alloc: Global,
    text: &str,
    before: &[u32],
    after: &[u32],
) -> Result<Output, WorldFault> {
    Ok(told_of(alloc, world_after(alloc, text, before)?, after))
}

// What is told of a copy, made after these turns, that goes on by others, and then of the world itself by its own.
fn told_of_both(
    alloc: Global,
    text: &str,
    before: &[u32],
    others: &[u32],
    after: &[u32],
) -> Result<(Output, Output), WorldFault> {
    let world = world_after(alloc, text, before)?;
    let of_copy = match world.copy(alloc) {
        Ok(copy) => told_of(alloc, copy, others),
        Err(_) => Output::new(alloc),
    };
    Ok((of_copy, told_of(alloc, world, after)))
}

// Whether a world that is copied after these turns ends as one that isn't, and its copy as one that takes those turns
// first and then the others.
fn ends_alike(
    alloc: Global,
    text: &str,
    before: &[u32],
    others: &[u32],
    after: &[u32],
) -> Result<bool, WorldFault> {
    let of_copy = told_without(alloc, text, before, others)?;
    let of_world = told_without(alloc, text, before, after)?;
    let (copy, world) = told_of_both(alloc, text, before, others, after)?;
    let is_told = !copy.as_slice().is_empty() && !world.as_slice().is_empty();
    Ok(is_told && copy.as_slice() == of_copy.as_slice() && world.as_slice() == of_world.as_slice())
}

// Whether that is so before each turn of a row, by the same turns and by others.
fn all_end_alike(alloc: Global, row: &str) -> Result<bool, NoMemory> {
    let (text, rest) = column(row);
    let (digits, others) = column(rest);
    let (turns, others) = (turns(alloc, digits)?, turns(alloc, others)?);
    for at in 0..turns.len() {
        let (before, after) = (&turns[..at], &turns[at..]);
        if ends_alike(alloc, text, before, after, after) != Ok(true)
            || ends_alike(alloc, text, before, &others, after) != Ok(true)
        {
            return Ok(false);
        }
    }
    Ok(true)
}

#[test]
fn copies_go_on_by_themselves(rt: HostRuntime) {
    for row in FORKED.lines() {
        assert!(rt; all_end_alike(rt.alloc(), row) == Ok(true), "{row}");
    }
}

// How many events a world of these plans has, in which one turn was made, and a copy of it that is given up after two
// more.
fn events_of(alloc: Global, text: &str) -> Result<Option<(usize, usize)>, WorldFault> {
    let world = world_after(alloc, text, &[0])?;
    let counts = match world.copy(alloc) {
        Ok(mut copy) => {
            let turned = copy.turn(alloc, 0).is_ok() && copy.turn(alloc, 0).is_ok();
            let events = copy.book().events().len();
            copy.give_up(alloc);
            if turned {
                Some((world.book().events().len(), events))
            } else {
                None
            }
        }
        Err(_) => None,
    };
    world.give_up(alloc);
    Ok(counts)
}

// A copy is given up in the midst of a call, and so is the world.
#[test]
fn copies_are_given_up(rt: HostRuntime) {
    assert!(rt; events_of(rt.alloc(), "alone") == Ok(Some((1, 3))));
}

// How many events and free lines a book of that many lines has, and a copy of it in which a handle was opened.
fn books_of(alloc: Global, lines: u32) -> Result<Option<[u64; 4]>, Errno> {
    let Ok(book) = Book::open(alloc, tree(alloc)?, lines) else {
        return Ok(None);
    };
    let Ok(mut copy) = book.copy(alloc) else {
        return Ok(None);
    };
    let step = StepOf::Dup(HandleNo::new(0));
    let made = copy.step(alloc, Actor::new(0), &step);
    drop(made);
    drop(step);
    let counts = [
        book.events().len() as u64,
        book.free() as u64,
        copy.events().len() as u64,
        copy.free() as u64,
    ];
    Ok(Some(counts))
}

// Nobody has a handle there, so the step is refused, and is an event.
#[test]
fn books_are_copied(rt: HostRuntime) {
    assert!(rt; books_of(rt.alloc(), 10) == Ok(Some([0, 10, 1, 9])));
}
