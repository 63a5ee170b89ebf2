//! What lies in the buffer, compared with a step or an answer in place.
ghost use Rattle.std.specs.Prelude.{◌≡◌, IsTrue, ◌↔◌};
ghost use Rattle.event_log.specs.Shapes.{step_read, answer_read, pieces_read};

use crate::read::{after_piece, back, first_piece, front};
use crate::shape::{AnswerShape, StepShape};
use path_text::Names;
use tree_model::{Answer, LentStep, StepOf};

/// Whether the step of that shape, whose names and text the bytes begin with, is that one.
pub(crate) fn is_step(shape: &StepShape, bytes: &[u8], step: &LentStep<'_>) -> bool
    ensures { IsTrue result ↔ (step_read shape.now bytes.now ≡ step.now) }
{
    match (shape, step) {
        (StepShape::Open(size, dir), StepOf::Open(d, n)) => {
            dir == d && front(bytes, *size as usize) == n.bytes()
        }
        (StepShape::Dup(handle), StepOf::Dup(h)) => handle == h,
        (StepShape::Parent(handle), StepOf::Parent(h)) => handle == h,
        (StepShape::ReadLink(handle), StepOf::ReadLink(h)) => handle == h,
        (StepShape::NameBelow(root, handle), StepOf::NameBelow(r, h)) => root == r && handle == h,
        (StepShape::List(handle), StepOf::List(h)) => handle == h,
        (StepShape::Close(handle), StepOf::Close(h)) => handle == h,
        (StepShape::MakeDir(size, dir), StepOf::MakeDir(d, n)) => {
            dir == d && front(bytes, *size as usize) == n.bytes()
        }
        (StepShape::MakeFile(size, dir), StepOf::MakeFile(d, n)) => {
            dir == d && front(bytes, *size as usize) == n.bytes()
        }
        (StepShape::MakeLink(size, dir, length), StepOf::MakeLink(d, n, t)) => {
            dir == d
                && front(bytes, *size as usize) == n.bytes()
                && front(back(bytes, *size as usize), *length) == t.as_slice()
        }
        (StepShape::RemoveFile(size, dir), StepOf::RemoveFile(d, n)) => {
            dir == d && front(bytes, *size as usize) == n.bytes()
        }
        (StepShape::RemoveDir(size, dir), StepOf::RemoveDir(d, n)) => {
            dir == d && front(bytes, *size as usize) == n.bytes()
        }
        (StepShape::Rename(old, new, mode, from, to), StepOf::Rename(f, o, t, n, m)) => {
            from == f
                && to == t
                && mode == m
                && front(bytes, *old as usize) == o.bytes()
                && front(back(bytes, *old as usize), *new as usize) == n.bytes()
        }
        _ => false,
    }
}

// Whether that many names, each after its length, are those.
fn are_names(count: usize, bytes: &[u8], names: &Names) -> bool
    ensures { IsTrue result ↔ (pieces_read count bytes.now ≡ names.now) }
{
    if names.len() != count {
        return false;
    }
    let mut rest = bytes;
    for at in 0..count {
        if first_piece(rest) != names.get(at) {
            return false;
        }
        rest = after_piece(rest);
    }
    true
}

/// Whether the answer of that shape, whose names or text the bytes begin with, is that one.
pub(crate) fn is_answer(shape: &AnswerShape, bytes: &[u8], answer: &Answer) -> bool
    ensures { IsTrue result ↔ (answer_read shape.now bytes.now ≡ answer.now) }
{
    match (shape, answer) {
        (
            AnswerShape::Opened(kind, handle, node),
            Answer::Opened {
                handle: h,
                node: n,
                kind: k,
            },
        ) => kind == k && handle == h && node == n,
        (AnswerShape::Text(size), Answer::Text(t)) => front(bytes, *size) == t.as_slice(),
        (AnswerShape::Names(count), Answer::Names(n)) => are_names(*count, bytes, n),
        (AnswerShape::NotBelow, Answer::NotBelow) => true,
        (AnswerShape::Listed(count), Answer::Listed(n)) => are_names(*count, bytes, n),
        (AnswerShape::Done, Answer::Done) => true,
        (AnswerShape::Refused(error), Answer::Refused(e)) => error == e,
        _ => false,
    }
}
