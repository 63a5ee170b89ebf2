//! Names and texts added to the buffer.
ghost use Rattle.std.specs.Prelude.{◌≡◌, ◌≤◌, ◌<◌, ◌+◌, ◌++◌, length, vec_len, vec_capacity, MatchOption};
ghost use Rattle.event_log.specs.Shapes.{step_texts, answer_texts, pieces_of};

use path_text::Names;
use tree_model::{Answer, LentStep, StepOf};

/// How many bytes the names and the text of a step have.
pub(crate) fn step_len(step: &LentStep<'_>) -> usize
    ensures { result ≡ length (step_texts step.now) }
{
    match step {
        StepOf::Open(_, name)
        | StepOf::MakeDir(_, name)
        | StepOf::MakeFile(_, name)
        | StepOf::RemoveFile(_, name)
        | StepOf::RemoveDir(_, name) => name.bytes().len(),
        StepOf::MakeLink(_, name, text) => name.bytes().len() + text.as_slice().len(),
        StepOf::Rename(_, old, _, new, _) => old.bytes().len() + new.bytes().len(),
        _ => 0,
    }
}

// How many bytes the names have, each after its length. None where they are more than that many.
fn names_len(names: &Names, most: usize) -> Option<usize>
    ensures { MatchOption result (most < length (pieces_of names.now))
        (λ size. (size ≡ length (pieces_of names.now)) × (size ≤ most)) }
{
    let mut size = 0;
    for at in 0..names.len() {
        let more = names.get(at).len() + 1;
        if more > most - size {
            return None;
        }
        size += more;
    }
    Some(size)
}

/// How many bytes the names or the text of an answer have. None where they are more than that many.
pub(crate) fn answer_len(answer: &Answer, most: usize) -> Option<usize>
    ensures { MatchOption result (most < length (answer_texts answer.now))
        (λ size. (size ≡ length (answer_texts answer.now)) × (size ≤ most)) }
{
    match answer {
        Answer::Text(text) => {
            let size = text.as_slice().len();
            if size > most { None } else { Some(size) }
        }
        Answer::Names(names) | Answer::Listed(names) => names_len(names, most),
        _ => Some(0),
    }
}

// Adds a text, for which there is room.
fn add(bytes: &mut Vec<u8>, text: &[u8])
    requires { vec_len bytes.old + length text.now ≤ vec_capacity bytes.old }
    ensures items { bytes.new.items ≡ bytes.old.items ++ text.now }
    ensures len { vec_len bytes.new ≡ vec_len bytes.old + length text.now }
    ensures room { vec_capacity bytes.old ≤ vec_capacity bytes.new }
{
    let added = bytes.extend_from_slice(text);
    prove!(added.is_ok());
}

// Adds two texts, for which there is room.
fn add_two(bytes: &mut Vec<u8>, first: &[u8], second: &[u8])
    requires { vec_len bytes.old + length (first.now ++ second.now) ≤ vec_capacity bytes.old }
    ensures items { bytes.new.items ≡ bytes.old.items ++ (first.now ++ second.now) }
    ensures room { vec_capacity bytes.old ≤ vec_capacity bytes.new }
{
    add(bytes, first);
    add(bytes, second);
}

// Adds the names and the text of a step, for which there is room.
fn add_step(bytes: &mut Vec<u8>, step: &LentStep<'_>)
    requires { vec_len bytes.old + length (step_texts step.now) ≤ vec_capacity bytes.old }
    ensures items { bytes.new.items ≡ bytes.old.items ++ step_texts step.now }
    ensures room { vec_capacity bytes.old ≤ vec_capacity bytes.new }
{
    match step {
        StepOf::Open(_, name)
        | StepOf::MakeDir(_, name)
        | StepOf::MakeFile(_, name)
        | StepOf::RemoveFile(_, name)
        | StepOf::RemoveDir(_, name) => add(bytes, name.bytes()),
        StepOf::MakeLink(_, name, text) => add_two(bytes, name.bytes(), text.as_slice()),
        StepOf::Rename(_, old, _, new, _) => add_two(bytes, old.bytes(), new.bytes()),
        _ => {}
    }
}

// Adds names, each after its length, for which there is room.
fn add_names(bytes: &mut Vec<u8>, names: &Names)
    requires { vec_len bytes.old + length (pieces_of names.now) ≤ vec_capacity bytes.old }
    ensures { bytes.new.items ≡ bytes.old.items ++ pieces_of names.now }
{
    for at in 0..names.len() {
        let name = names.get(at);
        bytes.push_reserved(name.len() as u8);
        add(bytes, name);
    }
}

// Adds the names or the text of an answer, for which there is room.
fn add_answer(bytes: &mut Vec<u8>, answer: &Answer)
    requires { vec_len bytes.old + length (answer_texts answer.now) ≤ vec_capacity bytes.old }
    ensures { bytes.new.items ≡ bytes.old.items ++ answer_texts answer.now }
{
    match answer {
        Answer::Text(text) => add(bytes, text.as_slice()),
        Answer::Names(names) | Answer::Listed(names) => add_names(bytes, names),
        _ => {}
    }
}

/// Adds the names and texts of an event, for which there is room.
pub(crate) fn add_event(bytes: &mut Vec<u8>, step: &LentStep<'_>, answer: &Answer)
    requires { vec_len bytes.old + length (step_texts step.now ++ answer_texts answer.now) ≤ vec_capacity bytes.old }
    ensures { bytes.new.items ≡ bytes.old.items ++ (step_texts step.now ++ answer_texts answer.now) }
{
    add_step(bytes, step);
    add_answer(bytes, answer);
}
