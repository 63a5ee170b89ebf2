//! Steps and answers as the words of a line.
ghost use Rattle.std.specs.Prelude.{◌≡◌, ◌∷◌, [], map, decimal};
ghost use Rattle.event_log.specs.Output.{Gains, escaped};
ghost use Rattle.event_log.specs.Head.{head_line};
ghost use Rattle.event_log.specs.Words.{line_of, after_blanks, mode_word, step_words, answer_words};

use crate::head::AnswerHead;
use crate::output::Output;
use path_text::{Names, NoMemory};
use std::alloc::Global;
use tree_model::{Answer, HandleNo, LentStep, Mode, StepOf};

/// The word for how a rename treats an entry that is there already.
fn mode_word(mode: Mode) -> &'static str
    ensures { result.now ≡ mode_word mode }
{
    match mode {
        Mode::Plain => "plain",
        Mode::NoReplace => "noreplace",
        Mode::Exchange => "exchange",
    }
}

impl Output {
    /// Adds a word and a handle.
    fn on_handle(&mut self, word: &str, handle: HandleNo) -> Result<(), NoMemory>
        ensures { Gains self.old self.new (line_of (word.now ∷ decimal handle ∷ [])) result }
    {
        self.text(word)?;
        self.text(" ")?;
        self.number(handle.number())
    }

    /// Adds a word, a directory's handle and a name in it.
    fn on_entry(&mut self, word: &str, dir: HandleNo, name: &[u8]) -> Result<(), NoMemory>
        ensures { Gains self.old self.new (line_of (word.now ∷ decimal dir ∷ escaped name.now ∷ [])) result }
    {
        self.on_handle(word, dir)?;
        self.text(" ")?;
        self.escaped(name)
    }

    /// Adds where a rename leads, and how.
    fn new_entry(&mut self, dir: HandleNo, name: &[u8], mode: Mode) -> Result<(), NoMemory>
        ensures { Gains self.old self.new (line_of (decimal dir ∷ escaped name.now ∷ mode_word mode ∷ [])) result }
    {
        self.number(dir.number())?;
        self.text(" ")?;
        self.escaped(name)?;
        self.text(" ")?;
        self.text(mode_word(mode))
    }

    /// Adds a step as the words of a line, with no newline. NoMemory where its room was refused.
    pub fn step(&mut self, step: &LentStep<'_>) -> Result<(), NoMemory>
        ensures { Gains self.old self.new (line_of (step_words step.now)) result }
    {
        match step {
            StepOf::Open(dir, name) => self.on_entry("open", *dir, name.bytes()),
            StepOf::Dup(handle) => self.on_handle("dup", *handle),
            StepOf::Parent(handle) => self.on_handle("parent", *handle),
            StepOf::ReadLink(handle) => self.on_handle("read_link", *handle),
            StepOf::NameBelow(root, handle) => {
                self.on_handle("below", *root)?;
                self.text(" ")?;
                self.number(handle.number())
            }
            StepOf::List(handle) => self.on_handle("list", *handle),
            StepOf::Close(handle) => self.on_handle("close", *handle),
            StepOf::MakeDir(dir, name) => self.on_entry("make_dir", *dir, name.bytes()),
            StepOf::MakeFile(dir, name) => self.on_entry("make_file", *dir, name.bytes()),
            StepOf::MakeLink(dir, name, text) => {
                self.on_entry("make_link", *dir, name.bytes())?;
                self.text(" ")?;
                self.escaped(text.as_slice())
            }
            StepOf::RemoveFile(dir, name) => self.on_entry("remove_file", *dir, name.bytes()),
            StepOf::RemoveDir(dir, name) => self.on_entry("remove_dir", *dir, name.bytes()),
            StepOf::Rename(from, old, to, new, mode) => {
                self.on_entry("rename", *from, old.bytes())?;
                self.text(" ")?;
                self.new_entry(*to, new.bytes(), *mode)
            }
        }
    }

    /// Adds a blank and a name for each of the names.
    fn names_after_blanks(&mut self, names: &Names) -> Result<(), NoMemory>
        ensures { Gains self.old self.new (after_blanks (map escaped names.now)) result }
    {
        for at in 0..names.len() {
            self.text(" ")?;
            self.escaped(names.get(at))?;
        }
        Ok(())
    }

    /// Adds what the line of an answer begins with: all of it, but for the names, with the blank before a path of
    /// them. NoMemory where its room was refused.
    pub fn answer_head(&mut self, head: AnswerHead) -> Result<(), NoMemory>
        ensures { Gains self.old self.new (head_line head.entry) result }
    {
        match head {
            AnswerHead::Opened { handle, node, kind } => {
                self.on_handle("opened", handle)?;
                self.text(" ")?;
                self.number(node.number())?;
                self.text(" ")?;
                self.kind(kind)
            }
            AnswerHead::Text(text) => {
                self.text("text ")?;
                self.escaped(text)
            }
            AnswerHead::Names => self.text("names "),
            AnswerHead::NotBelow => self.text("not_below"),
            AnswerHead::Listed(count) => {
                self.text("listed ")?;
                self.number(count as u64)
            }
            AnswerHead::Done => self.text("done"),
            AnswerHead::Refused(error) => {
                self.text("refused ")?;
                self.text(error.name())
            }
        }
    }

    /// Adds an answer as the words of a line, with no newline. NoMemory where its room was refused.
    pub fn answer(&mut self, alloc: Global, answer: &Answer) -> Result<(), NoMemory>
        ensures { Gains self.old self.new (line_of (answer_words answer.now)) result }
    {
        match answer {
            Answer::Opened { handle, node, kind } => self.answer_head(AnswerHead::Opened {
                handle: *handle,
                node: *node,
                kind: *kind,
            }),
            Answer::Text(text) => self.answer_head(AnswerHead::Text(text.as_slice())),
            Answer::Names(names) => {
                let path = names.print(alloc)?;
                self.answer_head(AnswerHead::Names)?;
                self.escaped(&path)
            }
            Answer::NotBelow => self.answer_head(AnswerHead::NotBelow),
            Answer::Listed(names) => {
                self.answer_head(AnswerHead::Listed(names.len()))?;
                self.names_after_blanks(names)
            }
            Answer::Done => self.answer_head(AnswerHead::Done),
            Answer::Refused(error) => self.answer_head(AnswerHead::Refused(*error)),
        }
    }
}
