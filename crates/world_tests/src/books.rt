//! Books: steps as lines of text, by tables.
use event_log::{EventLog, Output, read_step};
use fixtures::{cut, names_of, tree_of};
use path_text::{Errno, NoMemory};
use race_core::Book;
use std::alloc::Global;
use tree_list::ListTree;
use tree_model::{Actor, Answer, HandleNo, LentStep, StepOf, Tree};

/// Directories `/c` and `/c/a` and a link in `/c`, and handle 0 of actor 0 on `/c`.
fn tree(alloc: Global) -> Result<ListTree, Errno> {
    let mut tree = tree_of(alloc, "/c/, /c/a/, /c/abs -> /a/b")?;
    tree.grant(alloc, Actor::new(0), &names_of(alloc, "/c")?)?;
    Ok(tree)
}

/// A book of that many lines over the tree, where it is opened.
fn opened(alloc: Global, lines: u32) -> Result<Book<ListTree>, Errno> {
    match Book::open(alloc, tree(alloc)?, lines) {
        Ok(book) => Ok(book),
        Err(refusal) => {
            let cause = refusal.cause;
            drop(refusal);
            Err(cause)
        }
    }
}

/// Tells the book's answer, or its refusal.
fn tell(alloc: Global, told: &mut Output, answer: Result<Answer, Errno>) -> Result<(), NoMemory> {
    match answer {
        Ok(answer) => {
            let is_told = told.answer(alloc, &answer);
            drop(answer);
            is_told
        }
        Err(error) => told.text(error.name()),
    }
}

/// The answer to a step that is logged beside the book, too.
fn step_into(
    alloc: Global,
    book: &mut Book<ListTree>,
    actor: Actor,
    step: &LentStep<'_>,
    own: &mut EventLog,
) -> Result<Answer, Errno> {
    match step {
        StepOf::Close(handle) => {
            own.reserve(1)?;
            book.close_into(alloc, actor, *handle, own)
        }
        _ => book.step_into(alloc, actor, step, own, 1),
    }
}

/// Whether a step gets that answer or that refusal of the book: `ACTOR STEP = ANSWER`. It is made into the other log
/// too, where there is one.
fn is_answered(
    alloc: Global,
    book: &mut Book<ListTree>,
    own: Option<&mut EventLog>,
    row: &str,
) -> Result<bool, NoMemory> {
    let (who, rest) = cut(row);
    let (line, wanted) = rest.split_once(" = ").unwrap_or((rest, ""));
    let Some(step) = read_step(alloc, line.as_bytes())? else {
        return Ok(false);
    };
    let actor = Actor::new(if who == "0" { 0 } else { 1 });
    let answer = match own {
        Some(own) => step_into(alloc, book, actor, &step.lend(), own),
        None => book.step(alloc, actor, &step.lend()),
    };
    drop(step);
    let mut told = Output::new(alloc);
    tell(alloc, &mut told, answer)?;
    Ok(told.as_slice() == wanted.as_bytes())
}

/// Whether two logs have the same events.
fn are_same(log: &EventLog, other: &EventLog) -> bool {
    for at in 0..log.len() {
        if at >= other.len() || !log.same_at(at, other, at) {
            return false;
        }
    }
    log.len() == other.len()
}

/// Whether a book of that many lines answers all rows so, and has as many events and free lines then. Where the rows
/// are made into another log too, that has the book's events then.
fn keeps(alloc: Global, row: &Kept, is_logged: bool) -> bool {
    let (lines, rows, events, free) = *row;
    let Ok(mut book) = opened(alloc, lines) else {
        return false;
    };
    let mut own = EventLog::new(alloc);
    let mut all = true;
    for line in rows.lines() {
        let answered = if is_logged {
            is_answered(alloc, &mut book, Some(&mut own), line)
        } else {
            is_answered(alloc, &mut book, None, line)
        };
        all = answered == Ok(true) && all;
    }
    let counts = book.events().len() == events && book.free() == free;
    let same = !is_logged || are_same(book.events(), &own);
    drop(book);
    drop(own);
    all && counts && same
}

/// A step that opens takes two lines, one of them for its Close, which is never refused for want of lines.
const CLOSED: &str = "0 open 0 a = opened 1 2 dir
0 dup 0 = ENOSPC
0 list 0 = ENOSPC
1 close 0 = EBADF
0 close 1 = done
0 close 0 = done
0 close 0 = EBADF";

/// Steps of each kind, and refusals of the tree, which are events too.
const STEPS: &str = "0 open 0 abs = opened 1 3 link
0 read_link 1 = text /a/b
0 below 0 1 = names /abs
0 list 0 = listed 2 a abs
0 open 0 none = refused ENOENT
1 dup 0 = refused EBADF
0 make_dir 0 d = done
0 rename 0 d 0 e plain = done
0 remove_dir 0 e = done
0 parent 0 = opened 2 0 dir
0 close 1 = done";

/// How many lines a book has, its steps and their answers, and its events and its free lines then.
type Kept = (u32, &'static str, usize, u32);

const BOOKS: [Kept; 3] = [
    (2, "0 open 0 a = ENOSPC\n0 close 0 = done", 1, 1),
    (3, CLOSED, 3, 0),
    (20, STEPS, 11, 7),
];

#[test]
fn lines_are_kept_for_closes(rt: HostRuntime) {
    for row in &BOOKS {
        let keeps = keeps(rt.alloc(), row, false) && keeps(rt.alloc(), row, true);
        assert!(rt; keeps, "a book of {} lines", row.0);
    }
}

/// Why a book of that many lines isn't opened, and the handles of the tree that came back.
fn refused(alloc: Global, lines: u32) -> Result<Option<(Errno, usize)>, Errno> {
    match Book::open(alloc, tree(alloc)?, lines) {
        Ok(book) => {
            drop(book);
            Ok(None)
        }
        Err(refusal) => {
            let told = (refusal.cause, refusal.tree.held(Actor::new(0)));
            drop(refusal);
            Ok(Some(told))
        }
    }
}

#[test]
fn books_are_refused(rt: HostRuntime) {
    let alloc = rt.alloc();
    let opens = refused(alloc, 1) == Ok(None) && refused(alloc, 1_000_000) == Ok(None);
    let is_full = refused(alloc, 0) == Ok(Some((Errno::BookFull, 1)));
    let is_invalid = refused(alloc, 1_000_001) == Ok(Some((Errno::Invalid, 1)));
    assert!(rt; opens && is_full && is_invalid);
}

/// Whether the log has that step of actor 0 with its answer, and nothing else.
fn has_alone(events: &EventLog, step: &LentStep<'_>, answer: &Result<Answer, Errno>) -> bool {
    match answer {
        Ok(answer) => events.len() == 1 && events.is(0, Actor::new(0), step, answer),
        Err(_) => false,
    }
}

/// The number of the next handle.
fn next_handle(alloc: Global, tree: &ListTree) -> Result<u64, NoMemory> {
    let snapshot = tree.snapshot(alloc)?;
    let next = snapshot.next_handle();
    drop(snapshot);
    Ok(next)
}

/// Whether a book gives back its tree with what was done to it, its events, and the tree as it was opened.
fn gives_its_parts(alloc: Global, mut book: Book<ListTree>) -> bool {
    let dup = StepOf::Dup(HandleNo::new(0));
    let answer = book.step(alloc, Actor::new(0), &dup);
    let is_made = book.tree().held(Actor::new(0)) == 2 && book.opening().next_handle() == 1;
    let (tree, events, opening) = book.into_parts();
    let is_event = has_alone(&events, &dup, &answer);
    let is_after = opening.next_handle() == 1 && next_handle(alloc, &tree) == Ok(2);
    drop(dup);
    drop(answer);
    drop(tree);
    drop(events);
    drop(opening);
    is_made && is_event && is_after
}

#[test]
fn parts_come_back(rt: HostRuntime) {
    let alloc = rt.alloc();
    let come_back = match opened(alloc, 9) {
        Ok(book) => gives_its_parts(alloc, book),
        Err(_) => false,
    };
    assert!(rt; come_back);
}
