//! What an event did, told in the tree just before it.
ghost use Rattle.std.specs.Prelude.{◌≡◌};
ghost use Rattle.std.specs.List.{flat_map};
ghost use Rattle.event_log.specs.Output.{Gains};
ghost use Rattle.drawings.specs.Events.{with_place, with_entry, mode_words, spaced, step_text, verdict_words, answer_text, event_text};

use crate::places::{add_entry, add_place, way_of};
use event_log::Output;
use path_text::{Name, Names, NoMemory};
use std::alloc::Global;
use tree_model::{Actor, Answer, Event, HandleNo, Mode, Snapshot, Step, StepOf};

// Adds a word, and where an actor's handle leads.
fn with_place(
    alloc: Global,
    out: &mut Output,
    tree: &Snapshot,
    actor: Actor,
    word: &str,
    handle: HandleNo,
) -> Result<(), NoMemory>
    ensures { Gains out.old out.new (with_place tree.now actor word.now handle) result }
{
    let way = way_of(alloc, tree, actor, handle)?;
    out.text(word)?;
    add_place(alloc, out, &way)
}

// Adds a word, and an entry of the directory of an actor's handle.
fn with_entry(
    alloc: Global,
    out: &mut Output,
    tree: &Snapshot,
    actor: Actor,
    word: &str,
    dir: HandleNo,
    name: &Name,
) -> Result<(), NoMemory>
    ensures { Gains out.old out.new (with_entry tree.now actor word.now dir name.now) result }
{
    let way = way_of(alloc, tree, actor, dir)?;
    out.text(word)?;
    add_entry(alloc, out, way, name)
}

/// How a rename treats an entry that is there, unless it replaces it.
pub(crate) fn mode_words(mode: Mode) -> &'static str
    ensures { result.now ≡ mode_words mode }
{
    match mode {
        Mode::Plain => "",
        Mode::NoReplace => " noreplace",
        Mode::Exchange => " exchange",
    }
}

// Adds a step of an actor.
fn add_step(
    alloc: Global,
    out: &mut Output,
    tree: &Snapshot,
    actor: Actor,
    step: &Step,
) -> Result<(), NoMemory>
    ensures { Gains out.old out.new (step_text tree.now actor step.now) result }
{
    match step {
        StepOf::Open(dir, name) => {
            out.text("open ")?;
            out.escaped(name.bytes())?;
            with_place(alloc, out, tree, actor, " in ", *dir)
        }
        StepOf::Dup(handle) => {
            with_place(alloc, out, tree, actor, "open ", *handle)?;
            out.text(" again")
        }
        StepOf::Parent(handle) => with_place(alloc, out, tree, actor, "open .. of ", *handle),
        StepOf::ReadLink(handle) => with_place(alloc, out, tree, actor, "read_link ", *handle),
        StepOf::NameBelow(root, handle) => {
            with_place(alloc, out, tree, actor, "CHECK ", *handle)?;
            with_place(alloc, out, tree, actor, " below ", *root)
        }
        StepOf::List(handle) => with_place(alloc, out, tree, actor, "list ", *handle),
        StepOf::Close(handle) => with_place(alloc, out, tree, actor, "close ", *handle),
        StepOf::MakeDir(dir, name) => with_entry(alloc, out, tree, actor, "make_dir ", *dir, name),
        StepOf::MakeFile(dir, name) => {
            with_entry(alloc, out, tree, actor, "make_file ", *dir, name)
        }
        StepOf::MakeLink(dir, name, text) => {
            with_entry(alloc, out, tree, actor, "make_link ", *dir, name)?;
            out.text(" to ")?;
            out.escaped(text.as_slice())
        }
        StepOf::RemoveFile(dir, name) => {
            with_entry(alloc, out, tree, actor, "remove_file ", *dir, name)
        }
        StepOf::RemoveDir(dir, name) => {
            with_entry(alloc, out, tree, actor, "remove_dir ", *dir, name)
        }
        StepOf::Rename(from, old, to, new, mode) => {
            with_entry(alloc, out, tree, actor, "rename ", *from, old)?;
            with_entry(alloc, out, tree, actor, " to ", *to, new)?;
            out.text(mode_words(*mode))
        }
    }
}

// Adds a blank and a name for each of the names.
fn add_names(out: &mut Output, names: &Names) -> Result<(), NoMemory>
    ensures { Gains out.old out.new (flat_map spaced names.now) result }
{
    for at in 0..names.len() {
        out.text(" ")?;
        out.escaped(names.get(at))?;
    }
    Ok(())
}

// What a check said, which stands before all else.
fn verdict_words(answer: &Answer) -> &'static str
    ensures { result.now ≡ verdict_words answer.now }
{
    match answer {
        Answer::Names(_) => "yes: ",
        Answer::NotBelow => "NO: ",
        _ => "",
    }
}

// Adds what a step was answered.
fn add_answer(alloc: Global, out: &mut Output, answer: &Answer) -> Result<(), NoMemory>
    ensures { Gains out.old out.new (answer_text answer.now) result }
{
    match answer {
        Answer::Opened { node, kind, .. } => {
            out.text(" = ")?;
            out.kind(*kind)?;
            out.text(" ")?;
            out.number(node.number())
        }
        Answer::Text(text) => {
            out.text(" = ")?;
            out.escaped(text.as_slice())
        }
        Answer::Names(names) => {
            out.text(" = ")?;
            out.escaped(&names.print(alloc)?)
        }
        Answer::NotBelow => Ok(()),
        Answer::Listed(names) => {
            out.text(" =")?;
            add_names(out, names)
        }
        Answer::Done => out.text(" = done"),
        Answer::Refused(error) => {
            out.text(" = ")?;
            out.text(error.name())
        }
    }
}

/// What an event did, told in the tree just before it.
pub(crate) fn event_text(
    alloc: Global,
    out: &mut Output,
    tree: &Snapshot,
    event: &Event,
) -> Result<(), NoMemory>
    ensures { Gains out.old out.new (event_text tree.now event.now) result }
{
    out.text(verdict_words(&event.answer))?;
    add_step(alloc, out, tree, event.actor, &event.step)?;
    add_answer(alloc, out, &event.answer)
}
