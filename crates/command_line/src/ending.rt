//! How the program ends.
ghost use Rattle.std.specs.Prelude.{◌≡◌};
ghost use Rattle.command_line.specs.Ending.{status_of, told_of, json_told_of, jobs_told_of, options_told_of, explore_told_of, merge_told_of};
ghost use Rattle.command_line.specs.declared.ending.Fault.TheVariants.{Run};
ghost use Rattle.scripts.specs.declared.fault.RunFault.TheVariants.{NoMemory as OutOfMemory};

use outcome_text::{ExploreFault, MergeFault, OptionFault};
use path_text::NoMemory;
use run_command::{DrawFault, JobsFault, JsonFault, ServiceFault};
use scripts::RunFault;
use std::alloc::AllocError;
use thiserror::Error;

/// Why the program ends without its answer.
#[derive(Clone, Copy, Debug, PartialEq, Eq, Error)]
pub enum Fault {
    /// A command line that is refused. What is wrong with it was told with the usage.
    #[error("usage")]
    Usage,
    #[error("an argument is not UTF-8")]
    NotUtf8,
    /// Turns that are asked for and have another form.
    #[error("--schedule is I or I*N between commas, I an actor and N 1 to 100000, or - for none")]
    Schedule,
    /// The first turn that is asked for and no actor's, by its place, counted from 0.
    #[error("--schedule: turn {0} is no actor's")]
    AskedTurn(usize),
    /// More turns are asked for than a schedule may have.
    #[error("--schedule: too many turns")]
    AskedTurns,
    /// The first turn of a beginning that is no actor's, by its place, counted from 0.
    #[error("--begin: turn {0} is no actor's")]
    BeginTurn(usize),
    #[error("--width is a number from 40 to 10000")]
    Width,
    #[error("--color is never, auto or always")]
    Color,
    /// The script's file can't be opened. Why was told with its name.
    #[error("no script")]
    NoScript,
    /// A command line that was taken, and has no command with its path: the table of the options is wrong.
    #[error("the command line has no request")]
    NoRequest,
    #[error("{0}")]
    Run(RunFault),
    /// An option of `explore` that has another form.
    #[error("{0}")]
    Options(OptionFault),
    /// A property of `explore` fails. The answer says so.
    #[error("a property fails")]
    PropertyFails,
    /// Schedules aren't explored.
    #[error("{0}")]
    Explore(ExploreFault),
    /// Parts make no whole.
    #[error("merge: {0}")]
    Merge(MergeFault),
    /// There are more actors than a picture has columns.
    #[error("draw: actors")]
    DrawActors,
    /// The run has more events and replies than a picture has lines.
    #[error("draw: lines")]
    DrawLines,
    /// The run has more events than are told as JSON.
    #[error("replay: events")]
    ReplayEvents,
    /// Jobs weren't served, or their service wasn't closed.
    #[error("{0}")]
    Service(ServiceFault),
}

impl From<RunFault> for Fault {
    ghost from_gives = { λ fault told. told ≡ Run fault };

    fn from(fault: RunFault) -> Fault {
        Fault::Run(fault)
    }
}

impl From<DrawFault> for Fault {
    ghost from_gives = { λ fault told. told ≡ told_of fault };

    fn from(fault: DrawFault) -> Fault {
        match fault {
            DrawFault::Run(fault) => Fault::Run(fault),
            DrawFault::TooManyActors => Fault::DrawActors,
            DrawFault::TooManyLines => Fault::DrawLines,
        }
    }
}

impl From<JsonFault> for Fault {
    ghost from_gives = { λ fault told. told ≡ json_told_of fault };

    fn from(fault: JsonFault) -> Fault {
        match fault {
            JsonFault::Run(fault) => Fault::Run(fault),
            JsonFault::TooManyEvents => Fault::ReplayEvents,
        }
    }
}

impl From<JobsFault> for Fault {
    ghost from_gives = { λ fault told. told ≡ jobs_told_of fault };

    fn from(fault: JobsFault) -> Fault {
        match fault {
            JobsFault::Run(fault) => Fault::Run(fault),
            JobsFault::Service(fault) => Fault::Service(fault),
        }
    }
}

impl From<OptionFault> for Fault {
    ghost from_gives = { λ fault told. told ≡ options_told_of fault };

    fn from(fault: OptionFault) -> Fault {
        match fault {
            OptionFault::NoMemory => Fault::Run(RunFault::NoMemory),
            other => Fault::Options(other),
        }
    }
}

impl From<ExploreFault> for Fault {
    ghost from_gives = { λ fault told. told ≡ explore_told_of fault };

    fn from(fault: ExploreFault) -> Fault {
        match fault {
            ExploreFault::Run(fault) => Fault::Run(fault),
            other => Fault::Explore(other),
        }
    }
}

impl From<MergeFault> for Fault {
    ghost from_gives = { λ fault told. told ≡ merge_told_of fault };

    fn from(fault: MergeFault) -> Fault {
        match fault {
            MergeFault::ReadFailed => Fault::Run(RunFault::ReadFailed),
            MergeFault::WriteFailed => Fault::Run(RunFault::WriteFailed),
            MergeFault::NoMemory => Fault::Run(RunFault::NoMemory),
            other => Fault::Merge(other),
        }
    }
}

impl From<NoMemory> for Fault {
    ghost from_gives = { λ _ told. told ≡ Run OutOfMemory };

    fn from(_error: NoMemory) -> Fault {
        Fault::Run(RunFault::NoMemory)
    }
}

impl From<AllocError> for Fault {
    ghost from_gives = { λ _ told. told ≡ Run OutOfMemory };

    fn from(_error: AllocError) -> Fault {
        Fault::Run(RunFault::NoMemory)
    }
}

/// The status that the program ends with: 0 with an answer, a fault of the path too, and with help or the version; 1
/// with an answer that says that a property fails; 2 for a command line that is refused; 3 for a script that is
/// refused; 4 for any other fault.
pub fn status(ended: &Result<(), Fault>) -> u8
    ensures { result ≡ status_of ended.now }
{
    match ended {
        Ok(()) => 0,
        Err(Fault::PropertyFails) => 1,
        Err(Fault::Run(RunFault::Script(_))) => 3,
        Err(Fault::Explore(ExploreFault::NoSuchActor(_) | ExploreFault::NoSuchLine(_))) => 2,
        Err(
            Fault::NoScript
            | Fault::NoRequest
            | Fault::Run(_)
            | Fault::Options(OptionFault::NoMemory)
            | Fault::Explore(_)
            | Fault::Merge(_)
            | Fault::DrawActors
            | Fault::DrawLines
            | Fault::ReplayEvents
            | Fault::Service(_),
        ) => 4,
        Err(
            Fault::Usage
            | Fault::NotUtf8
            | Fault::Schedule
            | Fault::AskedTurn(_)
            | Fault::AskedTurns
            | Fault::BeginTurn(_)
            | Fault::Width
            | Fault::Color
            | Fault::Options(_),
        ) => 2,
    }
}
