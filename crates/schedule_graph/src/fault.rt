//! Why a search of schedules gives nothing.
ghost use Rattle.std.specs.Prelude.{◌≡◌};
ghost use Rattle.schedule_graph.specs.declared.fault.SearchFault.TheVariants as search_fault;

use path_text::NoMemory;
use thiserror::Error;

/// Why a search of all schedules gives no findings. `explore` says when, in `WhyNot` of its `specs/Explored.antt`.
#[derive(Clone, Copy, Debug, PartialEq, Eq, Error)]
pub enum SearchFault {
    /// There are more than 64 actors.
    #[error("actors")]
    TooManyActors,
    /// A schedule has more turns than the limit.
    #[error("turns")]
    TooManyTurns,
    /// There are more states than the limit: worlds, of those with the same parts after as many turns one.
    #[error("states")]
    TooManyStates,
    /// The turn at that place of the beginning, counted from 0, is of an actor who has nothing left to do then.
    #[error("begin {0}")]
    NotBusy(usize),
    /// With the turn at that place of the beginning, counted from 0, there are more cuts than are asked for.
    #[error("cuts {0}")]
    TooManyCuts(usize),
    /// Room was refused.
    #[error("no memory")]
    NoMemory,
}

impl From<NoMemory> for SearchFault {
    ghost from_gives = { λ _ fault. fault ≡ search_fault.NoMemory };

    fn from(_error: NoMemory) -> SearchFault {
        SearchFault::NoMemory
    }
}
