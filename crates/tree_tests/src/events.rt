//! Logs of each step with each answer, there and back.
use super::rows::{ANSWERS, STEPS, step_of, words_and_line};
use event_log::{EventLog, Output};
use fixtures::answer_of;
use path_text::{Errno, LentBytes, Name, NoMemory};
use std::alloc::Global;
use std::test::Fail;
use tree_model::{Actor, Answer, Event, HandleNo, StepOf};

/// The event of a step and an answer, each answer to an actor of its own.
fn event_of(alloc: Global, step: &str, actor: usize, row: &str) -> Result<Event, Errno> {
    Ok(Event {
        actor: Actor::new(u32::try_from(actor).unwrap_or(u32::MAX)),
        step: step_of(alloc, step)?,
        answer: answer_of(alloc, words_and_line(row).0),
    })
}

/// Each step with each answer.
fn filled(alloc: Global) -> Result<EventLog, Errno> {
    let mut log = EventLog::new(alloc);
    for step in STEPS.lines() {
        for (actor, row) in ANSWERS.lines().enumerate() {
            let event = event_of(alloc, step, actor, row)?;
            log.push(event.actor, &event.step.lend(), &event.answer)?;
        }
    }
    Ok(log)
}

/// Whether the event of a place is that, read back and compared in place.
fn holds_at(alloc: Global, log: &EventLog, at: usize, event: &Event) -> Result<bool, NoMemory> {
    if at >= log.len() || !log.is(at, event.actor, &event.step.lend(), &event.answer) {
        return Ok(false);
    }
    let read = log.event(alloc, at)?;
    let is_step = read.step.lend().same(&event.step.lend());
    Ok(read.actor == event.actor && is_step && read.answer.same(&event.answer))
}

fn reads_back(alloc: Global) -> Result<bool, Errno> {
    let log = filled(alloc)?;
    let mut at = 0usize;
    for step in STEPS.lines() {
        for (actor, row) in ANSWERS.lines().enumerate() {
            if !holds_at(alloc, &log, at, &event_of(alloc, step, actor, row)?)? {
                return Ok(false);
            }
            at = at.saturating_add(1);
        }
    }
    Ok(at == 209 && log.len() == 209 && !log.is_empty())
}

#[test]
fn reads_back_each_event(rt: HostRuntime) -> Result<(), Fail> {
    assert!(rt; reads_back(rt.alloc())?);
    Ok(())
}

/// Writes the events of a log, a line each.
fn write_events(out: &mut Output, log: &EventLog) -> Result<(), NoMemory> {
    for at in 0..log.len() {
        log.write_event(out, at)?;
        out.text("\n")?;
    }
    Ok(())
}

/// Writes the lines of each step with each answer.
fn write_rows(out: &mut Output) -> Result<(), NoMemory> {
    for step in STEPS.lines() {
        for row in ANSWERS.lines() {
            out.text(step)?;
            out.text(" = ")?;
            out.text(words_and_line(row).1)?;
            out.text("\n")?;
        }
    }
    Ok(())
}

fn writes(alloc: Global) -> Result<bool, Errno> {
    let log = filled(alloc)?;
    let mut written = Output::new(alloc);
    write_events(&mut written, &log)?;
    let mut wanted = Output::new(alloc);
    write_rows(&mut wanted)?;
    Ok(written.as_slice() == wanted.as_slice())
}

#[test]
fn writes_each_event(rt: HostRuntime) -> Result<(), Fail> {
    assert!(rt; writes(rt.alloc())?);
    Ok(())
}

/// Whether two logs that were filled in the same way have equal events at equal places alone.
fn are_same_in_place(log: &EventLog, other: &EventLog) -> bool {
    for at in 0..log.len() {
        for there in 0..other.len() {
            if log.same_at(at, other, there) != (at == there) {
                return false;
            }
        }
    }
    log.len() == other.len()
}

fn tells_apart(alloc: Global) -> Result<bool, Errno> {
    let log = filled(alloc)?;
    let other = filled(alloc)?;
    Ok(are_same_in_place(&log, &log) && are_same_in_place(&log, &other))
}

#[test]
fn tells_events_apart(rt: HostRuntime) -> Result<(), Fail> {
    assert!(rt; tells_apart(rt.alloc())?);
    Ok(())
}

/// Adds a step that had room for its event beforehand, and a Close where there is room for it.
fn add_two(alloc: Global, log: &mut EventLog) -> Result<(), Errno> {
    let step = step_of(alloc, "make_dir 0 a")?;
    log.reserve(2)?;
    log.reserve_event(&step.lend(), &Answer::Done)?;
    log.push_reserved(Actor::new(1), &step.lend(), &Answer::Done);
    log.push_close(Actor::new(1), HandleNo::new(4));
    Ok(())
}

fn closes(alloc: Global) -> Result<bool, Errno> {
    let mut log = EventLog::new(alloc);
    add_two(alloc, &mut log)?;
    let close = step_of(alloc, "close 4")?;
    Ok(log.len() == 2 && log.is(1, Actor::new(1), &close.lend(), &Answer::Done))
}

#[test]
fn adds_a_close(rt: HostRuntime) -> Result<(), Fail> {
    assert!(rt; closes(rt.alloc())?);
    Ok(())
}

/// Steps with their answers, and whether after each of them handle 5 is open, and handle 6, which was open before.
const LEFT: [(&str, &str, bool, bool); 6] = [
    ("open 0 a", "file 5 12", true, true),
    ("close 5", "refused EMFILE", true, true),
    ("close 6", "done", true, false),
    ("close 5", "done", false, false),
    ("remove_file 0 a", "done", false, false),
    ("dup 0", "file 5 12", true, false),
];

fn leaves_open(alloc: Global) -> Result<bool, Errno> {
    let mut log = EventLog::new(alloc);
    for (line, words, five, six) in &LEFT {
        let step = step_of(alloc, line)?;
        let answer = answer_of(alloc, words);
        log.push(Actor::new(0), &step.lend(), &answer)?;
        let is_five = log.leaves_open(HandleNo::new(5), false);
        let is_six = log.leaves_open(HandleNo::new(6), true);
        if is_five != *five || is_six != *six {
            return Ok(false);
        }
    }
    Ok(true)
}

#[test]
fn tells_open_handles(rt: HostRuntime) -> Result<(), Fail> {
    assert!(rt; leaves_open(rt.alloc())?);
    Ok(())
}

/// So many texts of the longest length that their bytes are more than 32 MiB.
const MANY: usize = 8_200;

/// Whether a log takes them all while there is memory, and the last is read where it lies.
fn takes_many_texts(alloc: Global) -> Result<bool, Errno> {
    let name = Name::new(alloc, b"l")?;
    let text = Vec::from_elem(alloc, b'x', 4_095)?;
    let step = StepOf::MakeLink(HandleNo::new(0), name.lend(), LentBytes::of(&text));
    let mut log = EventLog::new(alloc);
    for _ in 0..MANY {
        log.push(Actor::new(0), &step, &Answer::Done)?;
    }
    log.push(Actor::new(1), &step, &Answer::Done)?;
    if log.len() != MANY + 1 {
        return Ok(false);
    }
    Ok(log.is(MANY, Actor::new(1), &step, &Answer::Done) && !log.same_at(0, &log, MANY))
}

#[test]
fn takes_texts_while_there_is_memory(rt: HostRuntime) -> Result<(), Fail> {
    assert!(rt; takes_many_texts(rt.alloc())?);
    Ok(())
}
