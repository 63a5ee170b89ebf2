//! What lies in the buffer, written as the words of a line in place.
ghost use Rattle.path_text.specs.Print.{printed};
ghost use Rattle.event_log.specs.Output.{Gains, escaped};
ghost use Rattle.event_log.specs.Words.{line_of, step_words, answer_words};
ghost use Rattle.event_log.specs.Shapes.{step_read, answer_read, pieces_read, HasStepNames};
ghost use Rattle.event_log.specs.Printed.{names_after};

use crate::head::AnswerHead;
use crate::output::Output;
use crate::read::{after_piece, first_piece, front, lent_step};
use crate::shape::{AnswerShape, StepShape};
use path_text::NoMemory;

/// Adds the step of that shape, whose names and text the bytes begin with. NoMemory where its room was refused.
pub(crate) fn write_step(out: &mut Output, shape: &StepShape, bytes: &[u8]) -> Result<(), NoMemory>
    requires { HasStepNames (step_read shape.now bytes.now) }
    ensures { Gains out.old out.new (line_of (step_words (step_read shape.now bytes.now))) result }
{
    out.step(&lent_step(shape, bytes))
}

// Adds a mark and a name for each of that many names, each of which lies after its length.
fn write_names(out: &mut Output, mark: &str, count: usize, bytes: &[u8]) -> Result<(), NoMemory>
    ensures { Gains out.old out.new (names_after mark.now (pieces_read count bytes.now)) result }
{
    let mut rest = bytes;
    for at in 0..count {
        out.text(mark)?;
        out.escaped(first_piece(rest))?;
        rest = after_piece(rest);
    }
    Ok(())
}

// Adds that many names as an absolute path.
fn write_path(out: &mut Output, count: usize, bytes: &[u8]) -> Result<(), NoMemory>
    ensures { Gains out.old out.new (escaped (printed (pieces_read count bytes.now))) result }
{
    if count == 0 {
        return out.text("/");
    }
    write_names(out, "/", count, bytes)
}

/// Adds the answer of that shape, whose names or text the bytes begin with. NoMemory where its room was refused.
pub(crate) fn write_answer(
    out: &mut Output,
    shape: &AnswerShape,
    bytes: &[u8],
) -> Result<(), NoMemory>
    ensures { Gains out.old out.new (line_of (answer_words (answer_read shape.now bytes.now))) result }
{
    match shape {
        AnswerShape::Opened(kind, handle, node) => out.answer_head(AnswerHead::Opened {
            handle: *handle,
            node: *node,
            kind: *kind,
        }),
        AnswerShape::Text(size) => out.answer_head(AnswerHead::Text(front(bytes, *size))),
        AnswerShape::Names(count) => {
            out.answer_head(AnswerHead::Names)?;
            write_path(out, *count, bytes)
        }
        AnswerShape::NotBelow => out.answer_head(AnswerHead::NotBelow),
        AnswerShape::Listed(count) => {
            out.answer_head(AnswerHead::Listed(*count))?;
            write_names(out, " ", *count, bytes)
        }
        AnswerShape::Done => out.answer_head(AnswerHead::Done),
        AnswerShape::Refused(error) => out.answer_head(AnswerHead::Refused(*error)),
    }
}
