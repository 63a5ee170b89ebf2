//! What an actor calls for, in the words that a script has for it.
ghost use Rattle.std.specs.Prelude.{◌≡◌, map, IfOk};
ghost use Rattle.event_log.specs.Output.{Gains};
ghost use Rattle.drawings.specs.Calls.{with_ref, with_name, with_text, single_words, op_words, word_if, call_words, calls_of};

use crate::events::mode_words;
use event_log::Output;
use path_text::{Bytes, Name, NoMemory};
use race_core::{ActorPlan, Planned, Ref};
use root_ops::Op;
use std::alloc::Global;
use std::marker::Model;
use tree_model::StepOf;

/// What an actor calls for, by the calls' numbers. Contracts see it as the list of the calls' words.
#[derive(Debug, Drop)]
pub struct CallWords {
    pub(crate) calls: Vec<Output>,
}

impl Model for CallWords {
    ghost use Rattle.std.specs.Prelude.{List, ℕ};

    ghost Value = { List (List ℕ) };

    ghost view = { λ c. c.calls.items };
}

// Adds a word, and what a planned step names.
fn with_ref(out: &mut Output, word: &str, object: Ref) -> Result<(), NoMemory>
    ensures { Gains out.old out.new (with_ref word.now object) result }
{
    out.text(word)?;
    match object {
        Ref::Root => out.text("root"),
        Ref::Call(number) => {
            out.text("call ")?;
            out.number(number as u64)
        }
    }
}

// Adds a word, and an entry of what a planned step names.
fn with_name(out: &mut Output, word: &str, name: &Name, dir: Ref) -> Result<(), NoMemory>
    ensures { Gains out.old out.new (with_name word.now name.now dir) result }
{
    out.text(word)?;
    out.escaped(name.bytes())?;
    with_ref(out, " in ", dir)
}

// Adds a planned step.
fn add_single(out: &mut Output, step: &StepOf<Ref>) -> Result<(), NoMemory>
    ensures { Gains out.old out.new (single_words step.now) result }
{
    match step {
        StepOf::Open(dir, name) => with_name(out, "open ", name, *dir),
        StepOf::Dup(object) => {
            with_ref(out, "open ", *object)?;
            out.text(" again")
        }
        StepOf::Parent(object) => with_ref(out, "open .. of ", *object),
        StepOf::ReadLink(object) => with_ref(out, "read_link ", *object),
        StepOf::NameBelow(root, object) => {
            with_ref(out, "check ", *object)?;
            with_ref(out, " below ", *root)
        }
        StepOf::List(object) => with_ref(out, "list ", *object),
        StepOf::Close(object) => with_ref(out, "close ", *object),
        StepOf::MakeDir(dir, name) => with_name(out, "make_dir ", name, *dir),
        StepOf::MakeFile(dir, name) => with_name(out, "make_file ", name, *dir),
        StepOf::MakeLink(dir, name, text) => {
            with_name(out, "make_link ", name, *dir)?;
            out.text(" to ")?;
            out.escaped(text.as_slice())
        }
        StepOf::RemoveFile(dir, name) => with_name(out, "remove_file ", name, *dir),
        StepOf::RemoveDir(dir, name) => with_name(out, "remove_dir ", name, *dir),
        StepOf::Rename(from, old, to, new, mode) => {
            with_name(out, "rename ", old, *from)?;
            with_name(out, " to ", new, *to)?;
            out.text(mode_words(*mode))
        }
    }
}

// Adds a word and a text.
fn with_text(out: &mut Output, word: &str, text: &Bytes) -> Result<(), NoMemory>
    ensures { Gains out.old out.new (with_text word.now text.now) result }
{
    out.text(word)?;
    out.escaped(text.as_slice())
}

// Adds an operation.
fn add_op(out: &mut Output, op: &Op) -> Result<(), NoMemory>
    ensures { Gains out.old out.new (op_words op.now) result }
{
    match op {
        Op::Resolve(path) => with_text(out, "resolve ", path),
        Op::ResolveNoFollow(path) => with_text(out, "resolve_nofollow ", path),
        Op::ReadLink(path) => with_text(out, "read_link ", path),
        Op::CreateFile(path) => with_text(out, "create_file ", path),
        Op::CreateDir(path) => with_text(out, "create_dir ", path),
        Op::CreateLink(path, text) => {
            with_text(out, "create_link ", path)?;
            with_text(out, " to ", text)
        }
        Op::RemoveFile(path) => with_text(out, "remove_file ", path),
        Op::RemoveDir(path) => with_text(out, "remove_dir ", path),
        Op::Rename(old, new, mode) => {
            with_text(out, "rename ", old)?;
            with_text(out, " to ", new)?;
            out.text(mode_words(*mode))
        }
        Op::MkdirAll(path) => with_text(out, "mkdir_all ", path),
        Op::RemoveAll(path) => with_text(out, "remove_all ", path),
        Op::Single(_) => out.text("step"),
        Op::Release(_) => out.text("release"),
    }
}

// Adds a word where it is so.
fn word_if(out: &mut Output, holds: bool, word: &str) -> Result<(), NoMemory>
    ensures { Gains out.old out.new (word_if holds word.now) result }
{
    out.text(if holds { word } else { "" })
}

// The words of a planned call.
fn call_words(alloc: Global, call: &Planned) -> Result<Output, NoMemory>
    ensures { IfOk result (λ words. words ≡ call_words call.now) }
{
    let mut words = Output::new(alloc);
    match call {
        Planned::Call(request) => {
            add_op(&mut words, &request.op)?;
            word_if(&mut words, request.flags.beneath, " beneath")?;
            word_if(&mut words, request.flags.no_links, " no_links")?;
        }
        Planned::Single(step) => add_single(&mut words, step)?,
        Planned::Release(number) => {
            words.text("release call ")?;
            words.number(*number as u64)?;
        }
    }
    Ok(words)
}

// What an actor calls for.
fn words_of(alloc: Global, calls: &[Planned]) -> Result<CallWords, NoMemory>
    ensures { IfOk result (λ words. words ≡ map call_words calls.now) }
{
    let mut words = Vec::new(alloc);
    for call in calls {
        words.push(call_words(alloc, call)?)?;
    }
    Ok(CallWords { calls: words })
}

/// What each actor calls for: an operation's name with its paths and restrictions, a step with its names, in which
/// `call J` is what the actor's call of that number opened, or a release. NoMemory where room was refused.
pub fn calls_of(alloc: Global, plans: &[ActorPlan]) -> Result<Vec<CallWords>, NoMemory>
    ensures { IfOk result (λ calls. calls.items ≡ calls_of plans.now) }
{
    let mut calls = Vec::new(alloc);
    for plan in plans {
        calls.push(words_of(alloc, plan.calls.as_slice())?)?;
    }
    Ok(calls)
}
