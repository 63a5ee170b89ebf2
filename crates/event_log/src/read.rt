//! Names, steps and answers read back from the buffer.
ghost use Rattle.std.specs.Prelude.{◌≡◌, length, take, drop, None, IfOk};
ghost use Rattle.path_text.specs.Name.{name_fault};
ghost use Rattle.path_text.specs.Names.{AreNames};
ghost use Rattle.event_log.specs.Shapes.{step_read, step_rest, answer_read, first_piece, after_piece, pieces_read, HasStepNames, HasAnswerNames};

use crate::shape::{AnswerShape, StepShape};
use path_text::{Bytes, LentBytes, LentName, Names, NoMemory};
use std::alloc::Global;
use tree_model::{Answer, LentStep, StepOf};

/// The first bytes, as many as that, or all.
pub(crate) fn front(bytes: &[u8], size: usize) -> &[u8]
    ensures { result.now ≡ take size bytes.now }
{
    if size < bytes.len() {
        &bytes[..size]
    } else {
        bytes
    }
}

/// The bytes after as many as that, or none.
pub(crate) fn back(bytes: &[u8], size: usize) -> &[u8]
    ensures { result.now ≡ drop size bytes.now }
{
    &bytes[size.min(bytes.len())..]
}

/// The bytes after the names and the text of a step of that shape.
pub(crate) fn after_step<'a>(shape: &StepShape, bytes: &'a [u8]) -> &'a [u8]
    ensures { result.now ≡ step_rest shape.now bytes.now }
{
    match shape {
        StepShape::Open(size, _)
        | StepShape::MakeDir(size, _)
        | StepShape::MakeFile(size, _)
        | StepShape::RemoveFile(size, _)
        | StepShape::RemoveDir(size, _) => back(bytes, *size as usize),
        StepShape::MakeLink(size, _, length) => back(back(bytes, *size as usize), *length),
        StepShape::Rename(old, new, _, _, _) => back(back(bytes, *old as usize), *new as usize),
        _ => bytes,
    }
}

/// The bytes of a piece that follows its length, as many as there are.
pub(crate) fn first_piece(bytes: &[u8]) -> &[u8]
    ensures { result.now ≡ first_piece bytes.now }
{
    match bytes.split_first() {
        Some((size, rest)) => front(rest, *size as usize),
        None => bytes,
    }
}

/// The bytes after that piece.
pub(crate) fn after_piece(bytes: &[u8]) -> &[u8]
    ensures { result.now ≡ after_piece bytes.now }
{
    match bytes.split_first() {
        Some((size, rest)) => back(rest, *size as usize),
        None => bytes,
    }
}

// The name that the first bytes are, as many as that.
fn name_at(bytes: &[u8], size: u8) -> LentName<'_>
    requires { name_fault (take size bytes.now) ≡ None }
    ensures { result ≡ take size bytes.now }
{
    LentName::of(front(bytes, size as usize))
}

// That many names, each after its length.
fn names_of(alloc: Global, count: usize, bytes: &[u8]) -> Result<Names, NoMemory>
    requires { AreNames (pieces_read count bytes.now) }
    ensures { IfOk result (λ names. names ≡ pieces_read count bytes.now) }
{
    let mut names = Names::new(alloc);
    let mut rest = bytes;
    for at in 0..count {
        names.push_bytes(first_piece(rest))?;
        rest = after_piece(rest);
    }
    Ok(names)
}

/// The step of that shape, whose names and text are lent: the bytes begin with them.
pub(crate) fn lent_step<'a>(shape: &StepShape, bytes: &'a [u8]) -> LentStep<'a>
    requires { HasStepNames (step_read shape.now bytes.now) }
    ensures { result ≡ step_read shape.now bytes.now }
{
    match shape {
        StepShape::Open(size, dir) => StepOf::Open(*dir, name_at(bytes, *size)),
        StepShape::Dup(handle) => StepOf::Dup(*handle),
        StepShape::Parent(handle) => StepOf::Parent(*handle),
        StepShape::ReadLink(handle) => StepOf::ReadLink(*handle),
        StepShape::NameBelow(root, handle) => StepOf::NameBelow(*root, *handle),
        StepShape::List(handle) => StepOf::List(*handle),
        StepShape::Close(handle) => StepOf::Close(*handle),
        StepShape::MakeDir(size, dir) => StepOf::MakeDir(*dir, name_at(bytes, *size)),
        StepShape::MakeFile(size, dir) => StepOf::MakeFile(*dir, name_at(bytes, *size)),
        StepShape::MakeLink(size, dir, length) => {
            let text = front(back(bytes, *size as usize), *length);
            StepOf::MakeLink(*dir, name_at(bytes, *size), LentBytes::of(text))
        }
        StepShape::RemoveFile(size, dir) => StepOf::RemoveFile(*dir, name_at(bytes, *size)),
        StepShape::RemoveDir(size, dir) => StepOf::RemoveDir(*dir, name_at(bytes, *size)),
        StepShape::Rename(old, new, mode, from, to) => {
            let other = name_at(back(bytes, *old as usize), *new);
            StepOf::Rename(*from, name_at(bytes, *old), *to, other, *mode)
        }
    }
}

/// The answer of that shape, whose names or text the bytes begin with. NoMemory where its room was refused.
pub(crate) fn read_answer(
    alloc: Global,
    shape: &AnswerShape,
    bytes: &[u8],
) -> Result<Answer, NoMemory>
    requires { HasAnswerNames (answer_read shape.now bytes.now) }
    ensures { IfOk result (λ answer. answer ≡ answer_read shape.now bytes.now) }
{
    Ok(match shape {
        AnswerShape::Opened(kind, handle, node) => Answer::Opened {
            handle: *handle,
            node: *node,
            kind: *kind,
        },
        AnswerShape::Text(size) => Answer::Text(Bytes::from_slice(alloc, front(bytes, *size))?),
        AnswerShape::Names(count) => Answer::Names(names_of(alloc, *count, bytes)?),
        AnswerShape::NotBelow => Answer::NotBelow,
        AnswerShape::Listed(count) => Answer::Listed(names_of(alloc, *count, bytes)?),
        AnswerShape::Done => Answer::Done,
        AnswerShape::Refused(error) => Answer::Refused(*error),
    })
}
