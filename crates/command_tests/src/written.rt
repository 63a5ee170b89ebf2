//! What is written of a script: pictures, pages, reports as JSON and the replies to jobs; or why nothing is.
use drawings::{Closes, PictureFault};
use run_command::{
    DrawFault, Form, JobsFault, JsonFault, Style, draw, draw_page, grant_roots,
    json_limits_are_numbers, replay_json, run_jobs, told_of,
};
use scripts::{ACTORS_MAX, RunFault, Script, ScriptFault, TurnOrder, read_scene};
use std::alloc::Global;
use std::sync::Wait;
use std::thread::Threads;
use tree_model::{Actor, Tree};

/// An actor resolves `e/..`, and another removes `e` meanwhile.
const REMOVED: &str = r#"{"version":1,"tree":[["dir","/e"]],"actors":[
{"root":"/","calls":[{"op":"resolve","path":"e/.."}]},
{"root":"/","calls":[{"op":"step","step":"remove_dir","on":"root","name":"e"}]}],"schedule":[0,1]}"#;

/// Five actors: more than a picture has columns.
const FIVE: &str =
    r#"{"version":1,"tree":[],"actors":[{"root":"/","calls":[]},{"root":"/","calls":[]},
{"root":"/","calls":[]},{"root":"/","calls":[]},{"root":"/","calls":[]}]}"#;

/// Three jobs below `/c`.
const JOBS: &str =
    r#"{"version":1,"tree":[["dir","/c"],["dir","/c/a"]],"actors":[{"root":"/c","calls":[
{"op":"create_dir","path":"d"},{"op":"resolve","path":"a"},{"op":"resolve","path":"none"}]}]}"#;

/// A command, a script, how what is written begins, and why nothing is written, if nothing is.
type Case<'a> = (&'a str, &'a str, &'a str, Option<Why>);

/// Why nothing is written.
#[derive(Clone, Copy, Debug, PartialEq, Eq)]
enum Why {
    Run(RunFault),
    Actors,
    Lines,
    Service,
}

const NO_OBJECT: Option<Why> = Some(Why::Run(RunFault::Script(ScriptFault::NotObject)));

#[rattlefmt::skip]
const CASES: [Case; 11] = [
    ("draw", REMOVED, "<svg xmlns='http://www.w3.org/2000/svg' xml:space='preserve' ", None),
    ("page", REMOVED, "<!doctype html>\n", None),
    ("json", REMOVED, "{\"version\":1,", None),
    ("jobs", JOBS, "reply 0 0 done\nreply 0 1 opened dir 2 /a\nreply 0 2 fault ENOENT\nclosed ", None),
    ("draw", FIVE, "", Some(Why::Actors)),
    ("page", FIVE, "", Some(Why::Actors)),
    ("json", FIVE, "{\"version\":1,", None),
    ("draw", "7", "", NO_OBJECT),
    ("page", "7", "", NO_OBJECT),
    ("json", "7", "", NO_OBJECT),
    ("jobs", "7", "", NO_OBJECT),
];

fn of_picture(fault: DrawFault) -> Why {
    match fault {
        DrawFault::Run(fault) => Why::Run(fault),
        DrawFault::TooManyActors => Why::Actors,
        DrawFault::TooManyLines => Why::Lines,
    }
}

fn of_report(fault: JsonFault) -> Why {
    match fault {
        JsonFault::Run(fault) => Why::Run(fault),
        JsonFault::TooManyEvents => Why::Lines,
    }
}

fn of_jobs(fault: JobsFault) -> Why {
    match fault {
        JobsFault::Run(fault) => Why::Run(fault),
        JobsFault::Service(_) => Why::Service,
    }
}

/// Writes what a command writes of a script, as SVG and without closes.
fn write<R: Threads + Wait + Sync>(
    rt: &R,
    alloc: Global,
    command: &str,
    script: &Script,
    text: &mut Vec<u8>,
) -> Result<(), Why> {
    let order = TurnOrder::OfScript;
    let style = Style {
        form: Form::Svg,
        closes: Closes::Hidden,
    };
    match command {
        "draw" => draw(alloc, script, text, &order, style).map_err(of_picture),
        "page" => draw_page(alloc, script, text, &order, Closes::Hidden).map_err(of_picture),
        "json" => replay_json(alloc, script, text, &order).map_err(of_report),
        _ => run_jobs(rt, alloc, script, text, 2).map_err(of_jobs),
    }
}

/// Whether a command writes a text that begins so, or nothing for that reason.
fn writes<R: Threads + Wait + Sync>(rt: &R, alloc: Global, case: &Case) -> Option<bool> {
    let (command, script, begins, wanted) = *case;
    let bytes = Vec::from_slice(alloc, script.as_bytes()).ok()?;
    let mut text = Vec::new(alloc);
    let why = write(rt, alloc, command, &Script::of(alloc, bytes), &mut text).err();
    let is_text = text.starts_with(begins.as_bytes()) && text.is_empty() == wanted.is_some();
    Some(is_text && why == wanted)
}

#[test]
fn commands_write_what_they_are_asked_for(rt: HostRuntime) {
    json_limits_are_numbers();
    for case in &CASES {
        assert!(rt;
            writes(&rt, rt.alloc(), case) == Some(true),
            "{} {}",
            case.0,
            case.1
        );
    }
}

/// Whether each of five actors has its root alone, once roots are granted.
fn have_roots(alloc: Global) -> Option<bool> {
    let script = Script::of(alloc, Vec::from_slice(alloc, FIVE.as_bytes()).ok()?);
    let (scenario, mut tree) = read_scene(alloc, &script, &TurnOrder::OfScript).ok()?;
    if scenario.plans.len() > ACTORS_MAX {
        return None;
    }
    grant_roots(alloc, &mut tree, &scenario.plans).ok()?;
    for number in 0..6 {
        let wanted = if number < 5 { 1 } else { 0 };
        if tree.held(Actor::new(number)) != wanted {
            return Some(false);
        }
    }
    Some(true)
}

#[test]
fn roots_are_granted(rt: HostRuntime) {
    assert!(rt; have_roots(rt.alloc()) == Some(true));
}

/// Why there is no picture, and how that is told.
const PICTURES: [(PictureFault, Why); 3] = [
    (PictureFault::Actors, Why::Actors),
    (PictureFault::Lines, Why::Lines),
    (PictureFault::NoMemory, Why::Run(RunFault::NoMemory)),
];

#[test]
fn pictures_that_are_none_are_told(rt: HostRuntime) {
    for (fault, wanted) in PICTURES {
        assert!(rt; of_picture(told_of(fault)) == wanted, "{wanted:?}");
    }
}
