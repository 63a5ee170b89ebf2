//! Why `explore` gives no answer.
ghost use Rattle.std.specs.Prelude.{◌≡◌};
ghost use Rattle.outcome_text.specs.declared.fault.ExploreFault.TheVariants as explore_fault;
ghost use Rattle.outcome_text.specs.Unfound.{unfound_by};
ghost use Rattle.scripts.specs.declared.fault.RunFault.TheVariants.{NoMemory as OutOfMemory};

use path_text::NoMemory;
pub use schedule_graph::SearchFault;
use scripts::RunFault;
use thiserror::Error;

/// Why there is no answer. Nothing was written before it, but by a writer that failed.
#[derive(Clone, Copy, Debug, PartialEq, Eq, Error)]
pub enum ExploreFault {
    #[error("{0}")]
    Run(RunFault),
    /// The first actor that is named and isn't there.
    #[error("explore: actor {0}")]
    NoSuchActor(u32),
    /// The first property that no report can have a line for, by its place, counted from 0.
    #[error("explore: property {0}")]
    NoSuchLine(usize),
    /// The search gives nothing. Want of memory is `Run`'s.
    #[error("explore: {0}")]
    Search(SearchFault),
    /// More than so many megabytes were taken.
    #[error("explore: memory")]
    TooMuchMemory(u32),
    /// How much memory was taken isn't known.
    #[error("explore: gauge")]
    NoGauge,
}

impl From<RunFault> for ExploreFault {
    ghost from_gives = { λ fault told. told ≡ explore_fault.Run fault };

    fn from(fault: RunFault) -> ExploreFault {
        ExploreFault::Run(fault)
    }
}

impl From<NoMemory> for ExploreFault {
    ghost from_gives = { λ _ told. told ≡ explore_fault.Run OutOfMemory };

    fn from(_error: NoMemory) -> ExploreFault {
        ExploreFault::Run(RunFault::NoMemory)
    }
}

impl From<SearchFault> for ExploreFault {
    ghost from_gives = { λ fault told. told ≡ unfound_by fault };

    /// A world never has more actors than it may have, so they are no fault of their own.
    fn from(fault: SearchFault) -> ExploreFault {
        match fault {
            SearchFault::TooManyActors | SearchFault::NoMemory => {
                ExploreFault::Run(RunFault::NoMemory)
            }
            other => ExploreFault::Search(other),
        }
    }
}
