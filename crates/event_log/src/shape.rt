//! Steps and answers without their names and texts, and the records that are made of them.
ghost use Rattle.std.specs.Prelude.{◌≡◌, ℕ, List, IsTrue, ◌↔◌};
ghost use Rattle.event_log.specs.Handles.{left_after};
ghost use Rattle.event_log.specs.Shapes.{step_shape, answer_shape, HasStepNames, HasAnswerNames};
ghost use Rattle.event_log.specs.Records.{event_read, IsLike};

use path_text::Errno;
use tree_model::{Actor, Answer, HandleNo, Kind, LentStep, Mode, Node, StepOf};

/// A step with the length of each of its names and texts in its place.
#[derive(Clone, Copy, Debug)]
pub(crate) enum StepShape {
    Open(u8, HandleNo),
    Dup(HandleNo),
    Parent(HandleNo),
    ReadLink(HandleNo),
    NameBelow(HandleNo, HandleNo),
    List(HandleNo),
    Close(HandleNo),
    MakeDir(u8, HandleNo),
    MakeFile(u8, HandleNo),
    MakeLink(u8, HandleNo, usize),
    RemoveFile(u8, HandleNo),
    RemoveDir(u8, HandleNo),
    Rename(u8, u8, Mode, HandleNo, HandleNo),
}

/// An answer with the length of its text, or how many names it has, in their place.
#[derive(Clone, Copy, Debug)]
pub(crate) enum AnswerShape {
    Opened(Kind, HandleNo, Node),
    Text(usize),
    Names(usize),
    NotBelow,
    Listed(usize),
    Done,
    Refused(Errno),
}

/// An event without its names and texts, which begin at `start` in the log's buffer.
#[derive(Clone, Copy, Debug)]
pub(crate) struct Record {
    pub(crate) start: usize,
    pub(crate) actor: Actor,
    pub(crate) step: StepShape,
    pub(crate) answer: AnswerShape,
}

// What an event costs beside its names and texts.
const _: () = prove!(size_of::<Record>() == 64);

impl StepShape {
    /// The shape of a step, whose names are valid.
    pub(crate) fn of(step: &LentStep<'_>) -> StepShape
        ensures shape { result ≡ step_shape step.now }
        ensures valid { HasStepNames step.now }
    {
        match step {
            StepOf::Open(dir, name) => StepShape::Open(name.bytes().len() as u8, *dir),
            StepOf::Dup(handle) => StepShape::Dup(*handle),
            StepOf::Parent(handle) => StepShape::Parent(*handle),
            StepOf::ReadLink(handle) => StepShape::ReadLink(*handle),
            StepOf::NameBelow(root, handle) => StepShape::NameBelow(*root, *handle),
            StepOf::List(handle) => StepShape::List(*handle),
            StepOf::Close(handle) => StepShape::Close(*handle),
            StepOf::MakeDir(dir, name) => StepShape::MakeDir(name.bytes().len() as u8, *dir),
            StepOf::MakeFile(dir, name) => StepShape::MakeFile(name.bytes().len() as u8, *dir),
            StepOf::MakeLink(dir, name, text) => {
                StepShape::MakeLink(name.bytes().len() as u8, *dir, text.as_slice().len())
            }
            StepOf::RemoveFile(dir, name) => StepShape::RemoveFile(name.bytes().len() as u8, *dir),
            StepOf::RemoveDir(dir, name) => StepShape::RemoveDir(name.bytes().len() as u8, *dir),
            StepOf::Rename(from, old, to, new, mode) => StepShape::Rename(
                old.bytes().len() as u8,
                new.bytes().len() as u8,
                *mode,
                *from,
                *to,
            ),
        }
    }

    /// Whether the two are equal.
    pub(crate) fn same(&self, other: &StepShape) -> bool
        ensures { IsTrue result ↔ (self.now ≡ other.now) }
    {
        match (self, other) {
            (StepShape::Open(size, dir), StepShape::Open(s, d)) => size == s && dir == d,
            (StepShape::Dup(handle), StepShape::Dup(h)) => handle == h,
            (StepShape::Parent(handle), StepShape::Parent(h)) => handle == h,
            (StepShape::ReadLink(handle), StepShape::ReadLink(h)) => handle == h,
            (StepShape::NameBelow(root, handle), StepShape::NameBelow(r, h)) => {
                root == r && handle == h
            }
            (StepShape::List(handle), StepShape::List(h)) => handle == h,
            (StepShape::Close(handle), StepShape::Close(h)) => handle == h,
            (StepShape::MakeDir(size, dir), StepShape::MakeDir(s, d)) => size == s && dir == d,
            (StepShape::MakeFile(size, dir), StepShape::MakeFile(s, d)) => size == s && dir == d,
            (StepShape::MakeLink(size, dir, length), StepShape::MakeLink(s, d, l)) => {
                size == s && dir == d && length == l
            }
            (StepShape::RemoveFile(size, dir), StepShape::RemoveFile(s, d)) => {
                size == s && dir == d
            }
            (StepShape::RemoveDir(size, dir), StepShape::RemoveDir(s, d)) => size == s && dir == d,
            (StepShape::Rename(old, new, mode, from, to), StepShape::Rename(o, n, m, f, t)) => {
                old == o && new == n && mode == m && from == f && to == t
            }
            _ => false,
        }
    }
}

impl AnswerShape {
    /// The shape of an answer, whose names are valid.
    pub(crate) fn of(answer: &Answer) -> AnswerShape
        ensures shape { result ≡ answer_shape answer.now }
        ensures valid { HasAnswerNames answer.now }
    {
        match answer {
            Answer::Opened { handle, node, kind } => AnswerShape::Opened(*kind, *handle, *node),
            Answer::Text(text) => AnswerShape::Text(text.as_slice().len()),
            Answer::Names(names) => AnswerShape::Names(names.len()),
            Answer::NotBelow => AnswerShape::NotBelow,
            Answer::Listed(names) => AnswerShape::Listed(names.len()),
            Answer::Done => AnswerShape::Done,
            Answer::Refused(error) => AnswerShape::Refused(*error),
        }
    }

    /// Whether the two are equal.
    pub(crate) fn same(&self, other: &AnswerShape) -> bool
        ensures { IsTrue result ↔ (self.now ≡ other.now) }
    {
        match (self, other) {
            (AnswerShape::Opened(kind, handle, node), AnswerShape::Opened(k, h, n)) => {
                kind == k && handle == h && node == n
            }
            (AnswerShape::Text(length), AnswerShape::Text(l)) => length == l,
            (AnswerShape::Names(count), AnswerShape::Names(c)) => count == c,
            (AnswerShape::NotBelow, AnswerShape::NotBelow) => true,
            (AnswerShape::Listed(count), AnswerShape::Listed(c)) => count == c,
            (AnswerShape::Done, AnswerShape::Done) => true,
            (AnswerShape::Refused(error), AnswerShape::Refused(e)) => error == e,
            _ => false,
        }
    }
}

impl Record {
    /// Whether the two are alike but for where their names and texts begin.
    pub(crate) fn is_like(&self, other: &Record) -> bool
        ensures { IsTrue result ↔ IsLike self.now other.now }
    {
        self.actor == other.actor && self.step.same(&other.step) && self.answer.same(&other.answer)
    }

    /// Whether a handle is open after the event, where `was` says whether it was open before.
    pub(crate) fn leaves(&self, handle: HandleNo, was: bool) -> bool
        ensures { (bytes : List ℕ) → result
            ≡ left_after handle was (event_read bytes self.now).answer (event_read bytes self.now).step }
    {
        match (&self.answer, &self.step) {
            (AnswerShape::Opened(_, opened, _), _) => was || *opened == handle,
            (AnswerShape::Done, StepShape::Close(closed)) => was && *closed != handle,
            _ => was,
        }
    }
}
