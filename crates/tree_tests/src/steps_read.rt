//! Each form of a line, and the lines that are none.
use super::rows::{ANSWERS, STEPS, words_and_line};
use event_log::{Output, read_step};
use fixtures::{answer_of, names_of};
use path_text::{Errno, NoMemory};
use std::alloc::Global;
use std::test::Fail;
use tree_model::{Kind, Node};

const OTHERS: [&str; 20] = [
    "",
    "dup",
    "dup 01",
    "dup +1",
    "dup 18446744073709551616",
    "dup 1 ",
    "dup 1\n",
    " dup 1",
    "unlink 1 a",
    "open 1 .",
    "open 1 a/b",
    "open 1 \\x61",
    "open 1 \\xC3",
    "open 1 \\x2",
    "open 1 \\",
    "open 1 é",
    "below 1 a",
    "make_link 1 a",
    "rename 1 a 2 b",
    "rename 1 a 2 b swap",
];

/// Whether the line is read, and its step is written as it again.
fn is_read(alloc: Global, line: &str) -> Result<bool, NoMemory> {
    let Some(step) = read_step(alloc, line.as_bytes())? else {
        return Ok(false);
    };
    let mut written = Output::new(alloc);
    written.step(&step.lend())?;
    Ok(written.as_slice() == line.as_bytes())
}

#[test]
fn reads_each_step(rt: HostRuntime) -> Result<(), Fail> {
    for line in STEPS.lines() {
        assert!(rt; is_read(rt.alloc(), line)?, "{line}");
    }
    Ok(())
}

#[test]
fn reads_nothing_else(rt: HostRuntime) -> Result<(), Fail> {
    for line in &OTHERS {
        assert!(rt; read_step(rt.alloc(), line.as_bytes())?.is_none(), "{line}");
    }
    Ok(())
}

fn is_written(alloc: Global, row: &str) -> Result<bool, NoMemory> {
    let (words, line) = words_and_line(row);
    let answer = answer_of(alloc, words);
    let mut written = Output::new(alloc);
    written.answer(alloc, &answer)?;
    Ok(written.as_slice() == line.as_bytes())
}

#[test]
fn writes_each_answer(rt: HostRuntime) -> Result<(), Fail> {
    for row in ANSWERS.lines() {
        assert!(rt; is_written(rt.alloc(), row)?, "{row}");
    }
    Ok(())
}

/// The lines of an object that was opened, and of a call that was refused.
fn write_replies(alloc: Global, lines: &mut Output) -> Result<(), Errno> {
    let names = names_of(alloc, "/a")?;
    lines.opened(alloc, Kind::Dir, Node::new(2), &names)?;
    Ok(lines.fault(Errno::Raced)?)
}

#[test]
fn writes_replies(rt: HostRuntime) -> Result<(), Fail> {
    let mut lines = Output::new(rt.alloc());
    write_replies(rt.alloc(), &mut lines)?;
    assert!(rt; lines.as_slice() == b"opened dir 2 /a\nfault EAGAIN\n".as_slice());
    Ok(())
}
