//! The commands and their options, as clap takes them, and what help says of them.
use clap::builder::ValueParser;
use clap::{Arg, ArgAction, Command};
use run_command::WORKERS_MAX;
use std::alloc::{AllocError, Global};

// The names of the commands, the ids of the path that `walk` takes and of the script's file, and the options by their
// ids, which are their names.
pub(crate) const WALK: &str = "walk";

pub(crate) const REPLAY: &str = "replay";

pub(crate) const DRAW: &str = "draw";

pub(crate) const RUN: &str = "run";

pub(crate) const PATH: &str = "PATH";

pub(crate) const SCRIPT: &str = "SCRIPT";

pub(crate) const BENEATH: &str = "beneath";

pub(crate) const NO_LINKS: &str = "no-links";

pub(crate) const SCHEDULE: &str = "schedule";

pub(crate) const JSON: &str = "json";

pub(crate) const SVG: &str = "svg";

pub(crate) const HTML: &str = "html";

pub(crate) const ALL: &str = "all";

pub(crate) const WIDTH: &str = "width";

pub(crate) const COLOR: &str = "color";

pub(crate) const WORKERS: &str = "workers";

pub(crate) const EXPLORE: &str = "explore";

pub(crate) const ACTOR: &str = "actor";

pub(crate) const CUTS: &str = "cuts";

pub(crate) const BEGIN: &str = "begin";

pub(crate) const PART: &str = "part";

pub(crate) const MERGE: &str = "merge";

pub(crate) const STATES: &str = "states";

pub(crate) const MEMORY: &str = "memory";

pub(crate) const OUTSIDE: &str = "outside";

pub(crate) const WHEN: &str = "when";

pub(crate) const NEVER: &str = "never";

pub(crate) const ALWAYS: &str = "always";

pub(crate) const STRICT: &str = "strict";

/// What help says of the statuses.
const STATUSES: &str = "Statuses:
  0  the answer was written, also where it is a fault as 'fault ENOENT'
  1  a property of explore fails, or no schedule meets --when; the answer was written
  2  a wrong command line
  3  a script that is refused
  4  any other fault

Example:
  inroot walk a/b/f examples/base.json";

/// What help says of `walk` beside its arguments.
const WALKING: &str = "The script is a JSON text, as
  {\"version\":1,\"tree\":[[\"dir\",\"/c\"],[\"file\",\"/c/f\"]],\"actors\":[{\"root\":\"/c\"}]}
The other commands want \"calls\" of each actor, too.

Example:
  inroot walk a/b/f examples/base.json";

// What an option takes.
#[derive(Clone, Copy)]
enum Takes<'a> {
    Nothing,
    // Nothing, and it isn't beside the option of that name.
    NothingBeside(&'a str),
    // Any number of values, which help names so, and it is alone.
    AnyAlone(&'a str),
    // A value, which help names so.
    Once(&'a str),
    // The same, and it may come more than once.
    Often(&'a str),
}

// An option: its name, what it takes, and what help says of it.
#[derive(Clone, Copy)]
struct Row<'a>(&'a str, Takes<'a>, &'a str);

// The option of every command by which its script is read strictly.
const STRICTLY: Row<'static> = Row(
    STRICT,
    Takes::Nothing,
    "Refuse unknown keys, restrictions in version 1 and unused labels",
);

// The option with the turns that are taken in place of the script's schedule.
const TURNS: Row<'static> = Row(
    SCHEDULE,
    Takes::Once("TURNS"),
    "Take these turns, and not the script's: I or I*N between commas, for actor I; - for none",
);

// The option with its letter, if it has one: those that inroot-fs(1) has, too.
fn named<'a>(alloc: Global, name: &'a str) -> Arg<'a> {
    let arg = Arg::new(alloc, name).long(name);
    match name {
        BENEATH => arg.short('b'),
        NO_LINKS => arg.short('L'),
        _ => arg,
    }
}

// An option as clap takes it.
fn option<'a>(alloc: Global, row: Row<'a>) -> Result<Arg<'a>, AllocError> {
    let Row(name, takes, help) = row;
    let arg = named(alloc, name).help(help);
    match takes {
        Takes::Nothing => Ok(arg.action(ArgAction::SetTrue)),
        Takes::NothingBeside(other) => arg.action(ArgAction::SetTrue).conflicts_with(other),
        Takes::AnyAlone(value) => Ok(
            arg.action(ArgAction::Set)
                .num_args(0..)
                .value_name(value)
                .exclusive(true),
        ),
        Takes::Once(value) => Ok(arg.action(ArgAction::Set).value_name(value)),
        Takes::Often(value) => Ok(arg.action(ArgAction::Append).value_name(value)),
    }
}

// The file of the script, as clap takes it.
fn script_file<'a>(alloc: Global) -> Arg<'a> {
    Arg::new(alloc, SCRIPT).action(ArgAction::Set).help(
        "The script's file; without one the script is standard input",
    )
}

// Adds options in their order, and behind them the script's file.
fn with<'a>(
    alloc: Global,
    mut command: Command<'a>,
    options: &[Row<'a>],
) -> Result<Command<'a>, AllocError> {
    for row in options {
        command = command.arg(option(alloc, *row)?)?;
    }
    command.arg(script_file(alloc))
}

// A command, with what help says of it.
fn described<'a>(
    alloc: Global,
    name: &'a str,
    about: &'a str,
    usage: &'a str,
    help: &'a str,
) -> Command<'a> {
    Command::new(alloc, name)
        .about(about)
        .override_usage(usage)
        .after_help(help)
}

const WALK_OPTIONS: [Row<'static>; 3] = [
    Row(
        BENEATH,
        Takes::Nothing,
        "Refuse what leads out of the root, an absolute path too",
    ),
    Row(NO_LINKS, Takes::Nothing, "Follow no symbolic link"),
    STRICTLY,
];

// The command `walk`.
fn walk<'a>(alloc: Global) -> Result<Command<'a>, AllocError> {
    let walk = described(
        alloc,
        WALK,
        "Resolve PATH below the first actor's root, and print what it opens",
        "inroot walk [OPTIONS] <PATH> [SCRIPT]",
        WALKING,
    );
    let path = Arg::new(alloc, PATH)
        .required(true)
        .action(ArgAction::Set)
        .help("The path to resolve");
    with(alloc, walk.arg(path)?, &WALK_OPTIONS)
}

/// What help says of `replay` beside its arguments.
const REPLAYING: &str =
    "The script is a JSON text, with the actors' calls and a schedule of their turns.

Prints a line for each event, for how each call ended, for each entry of the tree
then, and for each actor with how many handles it has open. As JSON it is one line, for a
run of at most 2000 events.

Example:
  inroot replay examples/attacks/moved-out.json";

const REPLAY_OPTIONS: [Row<'static>; 3] = [
    Row(
        JSON,
        Takes::Nothing,
        "Print JSON: the tree at the beginning, and what each event changed",
    ),
    TURNS,
    STRICTLY,
];

// The command `replay`.
fn replay<'a>(alloc: Global) -> Result<Command<'a>, AllocError> {
    let replay = described(
        alloc,
        REPLAY,
        "Run the actors' calls by the schedule, and print what came of them",
        "inroot replay [OPTIONS] [SCRIPT]",
        REPLAYING,
    );
    with(alloc, replay, &REPLAY_OPTIONS)
}

/// What help says of `draw` beside its arguments.
const DRAWING: &str = "The script is a JSON text, as for replay, with at most 4 actors.

Draws what each actor calls for and how it ended, and then a column for each actor, in
which its steps stand at their moments, but for the handles that it closes. A run that
is drawn has at most 2000 events, and a picture 2000 lines.

As text it has 100 columns; on a terminal as many as COLUMNS says in the environment,
or 80. Red is what stands outside of the root, yellow a call that failed, green a check
that says yes, and a call that did what it was to do. NO_COLOR asks for no colours.

Example:
  inroot draw examples/attacks/moved-out.json";

const DRAW_OPTIONS: [Row<'static>; 7] = [
    Row(SVG, Takes::Nothing, "Draw as SVG and not as text"),
    Row(
        HTML,
        Takes::NothingBeside(SVG),
        "Draw a page for a browser, with the tree of each moment",
    ),
    Row(ALL, Takes::Nothing, "Show each handle that is closed, too"),
    Row(
        WIDTH,
        Takes::Once("N"),
        "Draw the text in N columns, 40 to 10000",
    ),
    Row(
        COLOR,
        Takes::Once("WHEN"),
        "Draw the text in colours: never, auto or always; auto is on a terminal",
    ),
    TURNS,
    STRICTLY,
];

// The command `draw`.
fn draw<'a>(alloc: Global) -> Result<Command<'a>, AllocError> {
    let draw = described(
        alloc,
        DRAW,
        "Run the actors' calls by the schedule, and draw who did what when",
        "inroot draw [OPTIONS] [SCRIPT]",
        DRAWING,
    );
    with(alloc, draw, &DRAW_OPTIONS)
}

/// What help says of `run` beside its arguments.
const RUNNING: &str =
    "The script is a JSON text. The calls of its first actor are jobs: no step and no release. Workers, each a thread with that actor's root, take them in any order.

Prints a line for how each job ended, and one for how many events there were.

Example:
  inroot run --workers 4 examples/jobs.json";

// The command `run`.
fn run<'a>(alloc: Global) -> Result<Command<'a>, AllocError> {
    let workers = Row(
        WORKERS,
        Takes::Once("N"),
        "How many workers there are, 1 to 8",
    );
    let workers = option(alloc, workers)?
        .required(true)
        .value_parser(ValueParser::unsigned(1, WORKERS_MAX as u64));
    let run = described(
        alloc,
        RUN,
        "Let workers make the first actor's calls side by side, and print how they ended",
        "inroot run [OPTIONS] --workers <N> [SCRIPT]",
        RUNNING,
    );
    with(alloc, run.arg(workers)?, &[STRICTLY])
}

/// What help says of `explore` beside its arguments.
const EXPLORING: &str = "The script is a JSON text, as for replay. Its schedule isn't used.

Prints how many schedules there are, how many different states they go through, how many
turns the longest has, and a block for each outcome: how many schedules lead to it, and
one that replay takes, with how many calls it cuts. A line has TEXT where it is TEXT, or
begins with TEXT and a blank, as 'reply 0 0 fault' or 'held 0 1'. In place of a
directory's number its path stands, too: 'row /c made'.

Example:
  inroot explore --actor 0 examples/attacks/moved-out.json";

const EXPLORE_OPTIONS: [Row<'static>; 13] = [
    Row(
        ACTOR,
        Takes::Often("I"),
        "Tell the replies of actor I alone; may be given more than once",
    ),
    Row(
        CUTS,
        Takes::Once("K"),
        "Only schedules that cut calls at most K times",
    ),
    Row(
        STATES,
        Takes::Once("N"),
        "Give up past N different states: 1 to 10000000, or 100000",
    ),
    Row(
        MEMORY,
        Takes::Once("N"),
        "Give up where more than N MB are taken: 1 to 1000000, of 1000000 bytes",
    ),
    Row(
        BEGIN,
        Takes::Once("TURNS"),
        "Only schedules that begin so: I or I*N between commas, for actor I; - for none",
    ),
    Row(
        HTML,
        Takes::NothingBeside(PART),
        "Print a page for a browser, which plays the first 64 outcomes",
    ),
    Row(
        PART,
        Takes::Nothing,
        "Print a line of JSON for --merge: this is a part of all schedules",
    ),
    Row(
        MERGE,
        Takes::AnyAlone("FILE"),
        "Read such lines of these files, or of standard input, and print what all schedules come to",
    ),
    Row(
        OUTSIDE,
        Takes::Nothing,
        "Tell how many steps of each actor acted outside of its root",
    ),
    Row(
        WHEN,
        Takes::Often("TEXT"),
        "Only schedules whose report has a line with TEXT",
    ),
    Row(
        NEVER,
        Takes::Often("TEXT"),
        "Tell whether no report has a line with TEXT",
    ),
    Row(
        ALWAYS,
        Takes::Often("TEXT"),
        "Tell whether every report has a line with TEXT",
    ),
    STRICTLY,
];

// The command `explore`.
fn explore<'a>(alloc: Global) -> Result<Command<'a>, AllocError> {
    let explore = described(
        alloc,
        EXPLORE,
        "Run the actors' calls by every schedule, and print what came of them",
        "inroot explore [OPTIONS] [SCRIPT]",
        EXPLORING,
    );
    with(alloc, explore, &EXPLORE_OPTIONS)
}

// Adds a command, if there was room for it.
fn add<'a>(
    program: Command<'a>,
    command: Result<Command<'a>, AllocError>,
) -> Result<Command<'a>, AllocError> {
    program.subcommand(command?)
}

/// The commands of the program.
pub fn command<'a>(alloc: Global) -> Result<Command<'a>, AllocError> {
    let program = Command::new(alloc, "inroot")
        .version("0.2.0")
        .about(
            "Resolve paths below a root, replay, draw and explore races, and run calls side by side, over the tree of a script",
        )
        .override_usage("inroot <COMMAND> [SCRIPT]")
        .after_help(STATUSES)
        .subcommand_required(true);
    let program = add(program, walk(alloc))?;
    let program = add(program, replay(alloc))?;
    let program = add(program, draw(alloc))?;
    let program = add(program, run(alloc))?;
    add(program, explore(alloc))
}
