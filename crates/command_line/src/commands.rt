//! What a command line asks for.
ghost use Rattle.std.specs.Prelude.{◌≡◌, IfSome};
ghost use Rattle.command_line.specs.Command.{IsAsked, IsDrawing, IsExploration, IsExploreRequest, IsReplaying, IsRequest, IsSchedule, IsScript, IsStrict, IsWorkers, texts_given};
ghost use Rattle.outcome_text.specs.Asked.{texts_in};

use crate::options::{
    ACTOR, ALL, ALWAYS, BEGIN, BENEATH, COLOR, CUTS, DRAW, EXPLORE, HTML, JSON, MEMORY, MERGE,
    NEVER, NO_LINKS, OUTSIDE, PART, PATH, REPLAY, RUN, SCHEDULE, SCRIPT, STATES, STRICT, SVG, WALK,
    WHEN, WIDTH, WORKERS,
};
use clap::ArgMatches;
use drawings::Closes;
use outcome_text::Options;
use path_text::Flags;
use run_command::WORKERS_MAX;

/// A path to walk, with these restrictions (openat2(2)).
#[derive(Clone, Copy, Debug)]
pub struct Walking<'a> {
    pub path: &'a str,
    pub flags: Flags,
}

/// A picture to draw, with the texts of its options.
#[derive(Clone, Copy, Debug)]
pub struct Drawing<'a> {
    /// The turns that are asked for in place of the script's.
    pub schedule: Option<&'a str>,
    /// As SVG, and not as text.
    pub svg: bool,
    /// As a page, and not as text.
    pub html: bool,
    pub closes: Closes,
    pub width: Option<&'a str>,
    pub color: Option<&'a str>,
}

/// A report to make.
#[derive(Clone, Copy, Debug)]
pub struct Replaying<'a> {
    /// The turns that are asked for in place of the script's.
    pub schedule: Option<&'a str>,
    /// As JSON, and not as text.
    pub json: bool,
}

/// What a command line asks for.
#[derive(Clone, Copy, Debug)]
pub enum Request<'a> {
    Walk(Walking<'a>),
    Replay(Replaying<'a>),
    Draw(Drawing<'a>),
    /// By so many workers, 1 to 8.
    Run(usize),
    /// With the texts of its options.
    Explore(Options<'a>),
    /// The same, as a page.
    ExplorePage(Options<'a>),
    /// The same, as a part of all schedules.
    Part(Options<'a>),
    /// Of parts, in place of a script: of these files, or of standard input without one.
    Merge(&'a [&'a str]),
}

/// The walk that the arguments of `walk` ask for, if they have a path.
fn walk_asked<'a>(matches: &ArgMatches<'a>) -> Option<Walking<'a>>
    ensures { IsAsked matches.now result }
{
    let path = matches.get_str(PATH)?;
    let flags = Flags {
        beneath: matches.get_flag(BENEATH),
        no_links: matches.get_flag(NO_LINKS),
    };
    Some(Walking { path, flags })
}

/// The turns that the arguments of `replay` or `draw` ask for.
fn schedule_asked<'a>(matches: &ArgMatches<'a>) -> Option<&'a str>
    ensures { IsSchedule matches.now result }
{
    matches.get_str(SCHEDULE)
}

/// The report that the arguments of `replay` ask for.
fn replay_asked<'a>(matches: &ArgMatches<'a>) -> Replaying<'a>
    ensures { IsReplaying matches.now result }
{
    Replaying {
        schedule: schedule_asked(matches),
        json: matches.get_flag(JSON),
    }
}

/// The picture that the arguments of `draw` ask for.
fn drawing_asked<'a>(matches: &ArgMatches<'a>) -> Drawing<'a>
    ensures { IsDrawing matches.now result }
{
    let closes = if matches.get_flag(ALL) {
        Closes::Shown
    } else {
        Closes::Hidden
    };
    Drawing {
        schedule: schedule_asked(matches),
        svg: matches.get_flag(SVG),
        html: matches.get_flag(HTML),
        closes,
        width: matches.get_str(WIDTH),
        color: matches.get_str(COLOR),
    }
}

/// How many workers the arguments of `run` ask for, if it is a number that there may be.
fn workers_asked(matches: &ArgMatches<'_>) -> Option<usize>
    ensures { IfSome result (IsWorkers matches.now) }
{
    let workers = matches.get_one::<usize>(WORKERS)?;
    if workers == 0 || workers > WORKERS_MAX {
        return None;
    }
    Some(workers)
}

/// The texts of an option that may come more than once; none where it doesn't come.
fn texts_of<'m>(matches: &'m ArgMatches<'_>, id: &str) -> &'m [&'m str]
    ensures { texts_in result.now ≡ texts_given matches.now id.now }
{
    matches.get_strs(id).unwrap_or(&[])
}

/// The texts of the options that the arguments of `explore` have.
fn exploration_asked<'m>(matches: &'m ArgMatches<'_>) -> Options<'m>
    ensures { IsExploration matches.now result }
{
    Options {
        actors: texts_of(matches, ACTOR),
        cuts: matches.get_str(CUTS),
        begin: matches.get_str(BEGIN),
        states: matches.get_str(STATES),
        memory: matches.get_str(MEMORY),
        outside: matches.get_flag(OUTSIDE),
        when: texts_of(matches, WHEN),
        never: texts_of(matches, NEVER),
        always: texts_of(matches, ALWAYS),
    }
}

/// The request that the arguments of `explore` make.
fn request_of_explore<'m>(matches: &'m ArgMatches<'_>) -> Request<'m>
    ensures { IsExploreRequest matches.now result }
{
    if let Some(files) = matches.get_strs(MERGE) {
        return Request::Merge(files);
    }
    let options = exploration_asked(matches);
    if matches.get_flag(PART) {
        Request::Part(options)
    } else if matches.get_flag(HTML) {
        Request::ExplorePage(options)
    } else {
        Request::Explore(options)
    }
}

/// Whether the command that was named is to read its script strictly.
pub fn is_strict(matches: &ArgMatches<'_>) -> bool
    ensures { IsStrict matches.now result }
{
    match matches.subcommand() {
        Some((_name, own)) => own.get_flag(STRICT),
        None => false,
    }
}

/// The file that the script of the command stands in, if the command line names one.
pub fn script_named<'m>(matches: &'m ArgMatches<'_>) -> Option<&'m str>
    ensures { IsScript matches.now result }
{
    match matches.subcommand() {
        Some((_name, own)) => own.get_str(SCRIPT),
        None => None,
    }
}

/// The request of a command line, with the options of the command that was named, if it has one.
pub fn asked<'m>(matches: &'m ArgMatches<'_>) -> Option<Request<'m>>
    ensures { IsRequest matches.now result }
{
    if let Some(matches) = matches.subcommand_matches(REPLAY) {
        return Some(Request::Replay(replay_asked(matches)));
    }
    if let Some(matches) = matches.subcommand_matches(DRAW) {
        return Some(Request::Draw(drawing_asked(matches)));
    }
    if let Some(matches) = matches.subcommand_matches(RUN) {
        return Some(Request::Run(workers_asked(matches)?));
    }
    if let Some(matches) = matches.subcommand_matches(EXPLORE) {
        return Some(request_of_explore(matches));
    }
    let walk = walk_asked(matches.subcommand_matches(WALK)?)?;
    Some(Request::Walk(walk))
}
