//! The statuses, and what a command line asks for.
use clap::ArgMatches;
use command_line::{
    Drawing, Fault, Request, Screen, asked, blamed, command, is_strict, order_of, script_named,
    status, style_of,
};
use drawings::{Closes, Colours, Legend};
use event_log::Output;
use outcome_text::{ExploreFault, OptionFault, Options, SearchFault};
use path_text::NoMemory;
use run_command::{Form, ServiceFault};
use scripts::{RunFault, ScriptFault, TurnOrder};
use std::alloc::Global;

/// The fault of a search that gives nothing.
pub fn searched(fault: SearchFault) -> Fault {
    Fault::from(ExploreFault::from(fault))
}

#[test]
fn ends_with_its_statuses(rt: HostRuntime) {
    for (ended, want) in [
        (Ok(()), 0),
        (Err(Fault::PropertyFails), 1),
        (Err(Fault::Options(OptionFault::Cuts)), 2),
        (Err(Fault::Options(OptionFault::Begin)), 2),
        (Err(Fault::Options(OptionFault::NoMemory)), 4),
        (Err(Fault::Explore(ExploreFault::NoSuchActor(0))), 2),
        (Err(Fault::Explore(ExploreFault::NoSuchLine(0))), 2),
        (Err(searched(SearchFault::TooManyStates)), 4),
        (Err(searched(SearchFault::TooManyTurns)), 4),
        (Err(searched(SearchFault::NotBusy(0))), 4),
        (Err(searched(SearchFault::TooManyCuts(0))), 4),
        (Err(Fault::Usage), 2),
        (Err(Fault::NotUtf8), 2),
        (Err(Fault::Schedule), 2),
        (Err(Fault::AskedTurn(3)), 2),
        (Err(Fault::AskedTurns), 2),
        (Err(Fault::BeginTurn(0)), 2),
        (Err(Fault::Width), 2),
        (Err(Fault::Color), 2),
        (Err(Fault::NoScript), 4),
        (Err(Fault::NoRequest), 4),
        (Err(Fault::Run(RunFault::Script(ScriptFault::TooLong))), 3),
        (Err(Fault::Run(RunFault::ReadFailed)), 4),
        (Err(Fault::Run(RunFault::WriteFailed)), 4),
        (Err(Fault::Run(RunFault::NoMemory)), 4),
        (Err(Fault::Run(RunFault::BookFull)), 4),
        (Err(Fault::DrawActors), 4),
        (Err(Fault::DrawLines), 4),
        (Err(Fault::ReplayEvents), 4),
        (Err(Fault::Service(ServiceFault::Lost(0))), 4),
    ] {
        assert!(rt; status(&ended) == want, "{ended:?}");
    }
}

// A command line without its first word, and what it asks for: a walk's path and restrictions; the turns of a replay or
// a drawing, how it is written, and whether with what is closed; the workers of a run. A script that is read strictly
// and its file come last.
const LINES: &str = "\
walk a = walk a
walk a file = walk a of file
walk --no-links -- -a = walk -a no_links
walk -b -L a file = walk a beneath no_links of file
walk a --strict = walk a strict
walk --no-links a = walk a no_links
replay = replay script text
replay --schedule 0*3,1 = replay 0*3,1 text
replay --schedule=1 --json = replay 1 json
replay file = replay script text of file
replay file a = none
replay file --json = replay script json of file
replay --strict = replay script text strict
replay --html = none
replay --svg = none
--strict replay = none
draw --all = draw script picture shown
draw --schedule=- --svg = draw - svg hidden
draw --html --all = draw script page shown
draw --html --svg = none
draw --json = none
draw --all --strict = draw script picture shown strict
draw -- -file = draw script picture hidden of -file
run --workers 1 = run 1
run --workers=8 = run 8
run --workers 0 = none
run --workers 9 = none
run --workers x = none
run --workers = none
run = none
run --workers 1 --strict = run 1 strict
run --workers 1 file = run 1 of file
explore = explore
explore --strict --cuts 1 = explore strict
explore --never row file = explore of file
explore --merge = merge";

/// The word where that is so, and else nothing.
fn word_if(is_so: bool, word: &str) -> &str {
    if is_so { word } else { "" }
}

/// How a drawing that is asked for is written.
fn form_of(drawing: Drawing) -> &'static str {
    match (drawing.html, drawing.svg) {
        (true, _) => " page",
        (false, true) => " svg",
        (false, false) => " picture",
    }
}

/// Tells what is asked for.
fn tell_request(out: &mut Output, request: Request) -> Result<(), NoMemory> {
    match request {
        Request::Walk(walk) => {
            out.text("walk ")?;
            out.text(walk.path)?;
            out.text(word_if(walk.flags.beneath, " beneath"))?;
            out.text(word_if(walk.flags.no_links, " no_links"))
        }
        Request::Replay(replaying) => {
            out.text("replay ")?;
            out.text(replaying.schedule.unwrap_or("script"))?;
            out.text(if replaying.json { " json" } else { " text" })
        }
        Request::Draw(drawing) => {
            out.text("draw ")?;
            out.text(drawing.schedule.unwrap_or("script"))?;
            out.text(form_of(drawing))?;
            let are_shown = drawing.closes == Closes::Shown;
            out.text(if are_shown { " shown" } else { " hidden" })
        }
        Request::Run(workers) => {
            out.text("run ")?;
            out.number(workers as u64)
        }
        Request::Explore(_) => out.text("explore"),
        Request::ExplorePage(_) => out.text("page"),
        Request::Part(_) => out.text("part"),
        Request::Merge(_) => out.text("merge"),
    }
}

/// Tells what is asked for, whether strictly, and of which file.
fn tell(out: &mut Output, matches: &ArgMatches) -> Result<(), NoMemory> {
    match asked(matches) {
        Some(request) => tell_request(out, request)?,
        None => out.text("nothing")?,
    }
    out.text(word_if(is_strict(matches), " strict"))?;
    match script_named(matches) {
        Some(file) => {
            out.text(" of ")?;
            out.text(file)
        }
        None => Ok(()),
    }
}

/// Whether a command line asks for that, and where it is refused for none.
fn asks(alloc: Global, line: &str, wanted: &str) -> Option<bool> {
    let mut words = Vec::new(alloc);
    words.push("inroot").ok()?;
    for word in line.split(' ') {
        words.push(word).ok()?;
    }
    let command = command(alloc).ok()?;
    let Ok(matches) = command.try_get_matches_from(words.as_slice()) else {
        return Some(wanted == "none");
    };
    let mut told = Output::new(alloc);
    tell(&mut told, &matches).ok()?;
    Some(told.as_slice() == wanted.as_bytes())
}

#[test]
fn reads_its_command_line(rt: HostRuntime) {
    for row in LINES.lines() {
        let (line, wanted) = row.split_once(" = ").unwrap_or((row, ""));
        assert!(rt; asks(rt.alloc(), line, wanted) == Some(true), "{row}");
    }
}

/// Whether a command line asks for an exploration with these options.
fn asks_explored(alloc: Global, words: &[&str], want: Options) -> Option<bool> {
    let matches = command(alloc).ok()?.try_get_matches_from(words).ok()?;
    let Some(Request::Explore(options)) = asked(&matches) else {
        return None;
    };
    let are_so = options.actors == want.actors
        && options.cuts == want.cuts
        && options.begin == want.begin
        && options.states == want.states
        && options.memory == want.memory
        && options.outside == want.outside
        && options.when == want.when
        && options.never == want.never
        && options.always == want.always;
    Some(are_so)
}

#[rattlefmt::skip]
const EXPLORED: &[&str] = &[
    "inroot", "explore", "--actor", "0", "--never", "held 0 2", "--actor=2", "--cuts", "1", "--begin", "0,1*2",
    "--states=7", "--memory", "512", "--outside", "--when", "row", "--always", "held 1 1",
];

#[test]
fn reads_what_is_to_be_explored(rt: HostRuntime) {
    assert!(rt;
        asks_explored(rt.alloc(), &["inroot", "explore"], Options::default()) == Some(true)
    );
    let want = Options {
        actors: &["0", "2"],
        cuts: Some("1"),
        begin: Some("0,1*2"),
        states: Some("7"),
        memory: Some("512"),
        outside: true,
        when: &["row"],
        never: &["held 0 2"],
        always: &["held 1 1"],
    };
    assert!(rt; asks_explored(rt.alloc(), EXPLORED, want) == Some(true));
}

/// How many pieces of turns a text asks for: none where it stands for the script's.
fn pieces_asked(alloc: Global, schedule: Option<&str>) -> Result<Option<usize>, Fault> {
    match order_of(alloc, schedule)? {
        TurnOrder::OfScript => Ok(None),
        TurnOrder::Asked(turns) => Ok(Some(turns.len())),
    }
}

#[test]
fn reads_the_turns_that_are_asked_for(rt: HostRuntime) {
    for (schedule, want) in [
        (None, Ok(None)),
        (Some("-"), Ok(Some(0))),
        (Some("0,1*5"), Ok(Some(2))),
        (Some("x"), Err(Fault::Schedule)),
    ] {
        assert!(rt; pieces_asked(rt.alloc(), schedule) == want, "{schedule:?}");
    }
}

/// How a picture looks: its columns, its colours, and whether it is said that closes are left out; or why there is
/// none.
type Look = Result<(usize, Colours, Legend), Fault>;

fn look_of(drawing: Drawing, screen: Screen) -> Look {
    match style_of(drawing, screen)?.form {
        Form::Text(look) => Ok((look.columns.count(), look.colours, look.legend)),
        Form::Svg => Err(Fault::NoRequest),
    }
}

/// The width and the colours that are asked for.
type Wish<'a> = (Option<&'a str>, Option<&'a str>);

/// The columns of what is written to, whether it is a terminal, and whether that has no colours.
type Onto<'a> = (Option<&'a str>, bool, bool);

#[rattlefmt::skip]
const LOOKS: [(Wish, Onto, Look); 10] = [
    ((None, None), (Some("60"), false, false), Ok((100, Colours::Off, Legend::Off))),
    ((None, None), (Some("60"), true, false), Ok((60, Colours::On, Legend::NoCloses))),
    ((None, None), (None, true, true), Ok((80, Colours::Off, Legend::NoCloses))),
    ((None, None), (Some("39"), true, false), Ok((80, Colours::On, Legend::NoCloses))),
    ((None, Some("always")), (None, false, true), Ok((100, Colours::On, Legend::Off))),
    ((None, Some("never")), (None, true, false), Ok((80, Colours::Off, Legend::NoCloses))),
    ((Some("40"), Some("auto")), (None, false, false), Ok((40, Colours::Off, Legend::NoCloses))),
    ((Some("39"), None), (None, true, false), Err(Fault::Width)),
    ((Some("10001"), Some("on")), (None, true, false), Err(Fault::Width)),
    ((None, Some("on")), (None, true, false), Err(Fault::Color)),
];

#[test]
fn draws_as_it_is_asked_to(rt: HostRuntime) {
    for ((width, color), (columns, is_terminal, is_plain), want) in LOOKS {
        let drawing = Drawing {
            schedule: None,
            svg: false,
            html: false,
            closes: Closes::Hidden,
            width,
            color,
        };
        let screen = Screen {
            is_terminal,
            columns,
            is_plain,
        };
        assert!(rt;
            look_of(drawing, screen) == want,
            "{width:?} {color:?} {columns:?}"
        );
    }
}

/// The fault that is told where turns are asked for.
fn blamed_for(alloc: Global, asked: &str, fault: ScriptFault) -> Result<Fault, Fault> {
    let order = order_of(alloc, Some(asked))?;
    Ok(blamed(&order, Fault::Run(RunFault::Script(fault))))
}

#[test]
fn blames_the_turns_that_are_asked_for(rt: HostRuntime) {
    let script = Fault::Run(RunFault::Script(ScriptFault::Lines));
    for (fault, want) in [
        (ScriptFault::Turn(3), Fault::AskedTurn(3)),
        (ScriptFault::TooManyTurns, Fault::AskedTurns),
        (ScriptFault::Lines, script),
    ] {
        assert!(rt;
            blamed_for(rt.alloc(), "0*3,7", fault) == Ok(want),
            "{want:?}"
        );
    }
}
