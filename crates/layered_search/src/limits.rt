//! What a search is bounded by.
ghost use Rattle.std.specs.Prelude.{◌≡◌};
ghost use Rattle.layered_search.specs.Limits.{scope_of};
ghost use Rattle.layered_search.specs.Asked.{bounds_at};

pub use schedule_graph::SearchFault;

/// Which lists of turns are gone through.
#[derive(Debug, Drop)]
pub struct Scope {
    /// Only the lists with at most so many cuts, or all of them.
    pub cuts: Option<u64>,
    /// Only the lists that begin with turns of these actors; with none all of them.
    pub begin: Vec<u32>,
}

/// What a turn is bound by.
#[derive(Clone, Copy, Debug, PartialEq, Eq)]
pub(crate) struct Bounds {
    /// The list has at most so many cuts then, or any number.
    pub(crate) cuts: Option<u64>,
    /// Whose alone the turn may be, or anybody's.
    pub(crate) only: Option<u32>,
}

impl Scope {
    /// What the turn after so many is bound by.
    pub(crate) fn bounds(&self, turns: usize) -> Bounds
        ensures { result ≡ bounds_at (scope_of self.now) turns }
    {
        Bounds {
            cuts: self.cuts,
            only: self.begin.get(turns).copied(),
        }
    }
}

/// What is gone through at most.
#[derive(Debug, Drop)]
pub struct Limits {
    /// The most states.
    pub states: u64,
    /// The most turns of a list.
    pub turns: u32,
    /// Which lists.
    pub scope: Scope,
}
