//! The program: resolves paths below a root, over the tree that a script gives, replays, draws and explores scripts of
//! calls that race, and lets workers make a script's calls.
//!
//! It hands the words of its command line to `command_line`, and the script and standard output to `run_command`,
//! `explore_command`, `explore_parts` and `explore_page_command`, where it is stated what a run writes; it ends with
//! the status that `command_line` says of what happened.
#![tactic(auto)]

ghost use Rattle.std.specs.Prelude.{◌<◌, ◌≤◌};

mod files;
mod reading;
mod taken;
mod telling;
mod waiting;

use clap::ArgMatches;
use command_line::{
    Drawing, Fault, Request, Screen, Walking, asked, blamed, command, is_strict, order_of,
    script_named, status, style_of,
};
use drawings::Closes;
use explore_command::{explore_part, explore_script};
use explore_page_command::{ExplorePageFault, explore_page};
use explore_parts::{Asked, merge_parts, read_asked};
use files::FilesRead;
use reading::{number_rows, script_of, searched};
use run_command::{Style, draw, draw_page, replay, replay_json, run_jobs, walk};
use scripts::{RunFault, Script, TurnOrder, check_strictly};
use std::alloc::Global;
use std::io::IsTerminal;
use std::process::ExitCode;
use std::sync::Wait;
use std::thread::Threads;
use std::{env, io};
use taken::Taken;
use telling::{Told, tell};
use waiting::Waiting;

/// Tells help, the version or a usage fault, and how the program ends after it.
fn told_by(rt: &HostRuntime, error: &clap::Error) -> Result<(), Fault> {
    if error.kind() == clap::error::ErrorKind::OutOfMemory {
        return Err(Fault::Run(RunFault::NoMemory));
    }
    let printed = error.print(rt);
    if error.use_stderr() {
        // The status says it where standard error can't.
        return Err(Fault::Usage);
    }
    match printed {
        Ok(()) => Ok(()),
        Err(_) => Err(Fault::Run(RunFault::WriteFailed)),
    }
}

/// The words of the command line.
fn words(rt: &HostRuntime) -> Result<Vec<String>, Fault> {
    match env::args(rt) {
        Ok(words) => Ok(words.collect(rt.alloc())?),
        Err(error) if error.kind() == io::ErrorKind::InvalidData => Err(Fault::NotUtf8),
        Err(_) => Err(Fault::Run(RunFault::NoMemory)),
    }
}

/// How many workers there are to be, 1 to 8.
#[derive(Drop)]
struct Workers {
    count: usize,
    ghost some: { 0 < count },
    ghost few: { count ≤ 8 },
}

/// What is asked for, with the texts of its options read.
#[derive(Drop)]
enum Task<'a> {
    Walk(Walking<'a>),
    Replay(TurnOrder),
    Json(TurnOrder),
    Draw(TurnOrder, Style),
    Page(TurnOrder, Closes),
    Run(Workers),
    Explore(Asked),
    ExplorePage(Asked),
    Part(Asked),
    Merge(&'a [&'a str]),
}

/// A variable of the environment, if it is set to a text that isn't empty.
fn variable(rt: &HostRuntime, name: &str) -> Option<String> {
    match env::var(rt, name) {
        Ok(text) if !text.is_empty() => Some(text),
        _ => None,
    }
}

/// How the picture is drawn that is asked for.
fn style_on(rt: &HostRuntime, drawing: Drawing<'_>) -> Result<Style, Fault> {
    let columns = variable(rt, "COLUMNS");
    let is_dumb = match variable(rt, "TERM") {
        Some(term) => term.as_str() == "dumb",
        None => true,
    };
    let screen = Screen {
        is_terminal: rt.stdout().is_terminal(),
        columns: columns.as_deref(),
        is_plain: is_dumb || variable(rt, "NO_COLOR").is_some(),
    };
    style_of(drawing, screen)
}

/// What the arguments ask for. Reads the texts of the options.
fn task_of<'m>(rt: &HostRuntime, matches: &'m ArgMatches<'_>) -> Result<Task<'m>, Fault> {
    let alloc = rt.alloc();
    Ok(match asked(matches).ok_or(Fault::NoRequest)? {
        Request::Walk(walking) => Task::Walk(walking),
        Request::Replay(replaying) if replaying.json => {
            Task::Json(order_of(alloc, replaying.schedule)?)
        }
        Request::Replay(replaying) => Task::Replay(order_of(alloc, replaying.schedule)?),
        Request::Draw(drawing) if drawing.html => Task::Page(
            order_of(alloc, drawing.schedule)?,
            drawing.closes,
        ),
        Request::Draw(drawing) => Task::Draw(
            order_of(alloc, drawing.schedule)?,
            style_on(rt, drawing)?,
        ),
        Request::Run(count) => Task::Run(Workers { count }),
        Request::Explore(options) => Task::Explore(read_asked(alloc, options)?),
        Request::ExplorePage(options) => Task::ExplorePage(read_asked(alloc, options)?),
        Request::Part(options) => Task::Part(read_asked(alloc, options)?),
        Request::Merge(files) => Task::Merge(files),
    })
}

/// How the program ends by whether no property fails.
fn judged(holds: bool) -> Result<(), Fault> {
    if holds {
        Ok(())
    } else {
        Err(Fault::PropertyFails)
    }
}

/// Does it, over a script. Only `run` starts threads.
fn perform<R: Threads + Wait + Sync>(
    rt: &HostRuntime,
    threads: &R,
    task: &Task<'_>,
    script: &Script,
) -> Result<(), Fault> {
    let (alloc, mut output) = (rt.alloc(), rt.stdout());
    match task {
        Task::Walk(asked) => {
            let path = asked.path.as_bytes();
            walk(alloc, script, &mut output, path, asked.flags)?;
        }
        Task::Replay(order) => {
            if let Err(fault) = replay(alloc, script, &mut output, order) {
                return Err(blamed(order, Fault::from(fault)));
            }
        }
        Task::Json(order) => {
            if let Err(fault) = replay_json(alloc, script, &mut output, order) {
                return Err(blamed(order, Fault::from(fault)));
            }
        }
        Task::Page(order, closes) => {
            if let Err(fault) = draw_page(alloc, script, &mut output, order, *closes) {
                return Err(blamed(order, Fault::from(fault)));
            }
        }
        Task::Draw(order, style) => {
            if let Err(fault) = draw(alloc, script, &mut output, order, *style) {
                return Err(blamed(order, Fault::from(fault)));
            }
        }
        Task::Run(workers) => {
            run_jobs(threads, alloc, script, &mut output, workers.count)?;
        }
        Task::Explore(asked) => {
            let mut waiting = Waiting::new(rt, asked.limits.states);
            let taken = Taken::new(rt);
            let (told, wait) = (&mut output, &mut waiting);
            return judged(explore_script(alloc, script, told, asked, &taken, wait)?);
        }
        Task::ExplorePage(asked) => {
            let mut waiting = Waiting::new(rt, asked.limits.states);
            let taken = Taken::new(rt);
            let (told, wait) = (&mut output, &mut waiting);
            return match explore_page(alloc, script, told, asked, &taken, wait) {
                Ok(holds) => judged(holds),
                Err(ExplorePageFault::Explore(fault)) => Err(Fault::from(fault)),
                Err(ExplorePageFault::Draw(fault)) => Err(Fault::from(fault)),
            };
        }
        Task::Part(asked) => {
            let mut waiting = Waiting::new(rt, asked.limits.states);
            let taken = Taken::new(rt);
            let (told, wait) = (&mut output, &mut waiting);
            explore_part(alloc, script, told, asked, &taken, wait)?;
        }
        Task::Merge([]) => return judged(merge_parts(alloc, &mut rt.stdin(), &mut output)?),
        Task::Merge(files) => {
            let mut parts = FilesRead::new(rt, files);
            return judged(merge_parts(alloc, &mut parts, &mut output)?);
        }
    }
    Ok(())
}

/// What is asked of a search, if there is to be one.
fn search_of<'t>(task: &'t mut Task<'_>) -> Option<&'t mut Asked> {
    match task {
        Task::Explore(asked) | Task::ExplorePage(asked) | Task::Part(asked) => Some(asked),
        _ => None,
    }
}

/// Reads the command line, and does what it asks for over the script, which is read once. Where it asks for strictness,
/// the whole script is looked at strictly first. Parts are no script, and are read as they come.
fn run<R: Threads + Wait + Sync>(
    rt: &HostRuntime,
    threads: &R,
    told: &mut Told,
) -> Result<(), Fault> {
    let alloc = rt.alloc();
    let words = words(rt)?;
    let matches = match command(alloc)?.try_get_matches_from(words.as_slice()) {
        Ok(matches) => matches,
        Err(error) => return told_by(rt, &error),
    };
    let mut task = task_of(rt, &matches)?;
    if let Task::Merge(_) = task {
        return perform(rt, threads, &task, &told.script);
    }
    told.script = Script::of(alloc, script_of(rt, script_named(&matches))?);
    if is_strict(&matches) {
        check_strictly(&told.script)?;
    }
    if let Some(asked) = search_of(&mut task) {
        told.states = asked.limits.states;
        number_rows(alloc, asked, told)?;
    }
    let ended = perform(rt, threads, &task, &told.script);
    match (search_of(&mut task), ended) {
        (Some(asked), Err(fault)) => Err(searched(alloc, asked, fault, told)),
        (_, ended) => ended,
    }
}

fn main(rt: HostRuntime) -> ExitCode {
    let mut told = Told::new(rt.alloc());
    let ended = run(&rt, &rt, &mut told);
    if let Err(fault) = ended {
        // The status says it where standard error can't.
        let _ = tell(&rt, fault, &told);
    }
    ExitCode::from(status(&ended))
}
