//! Whether two actors are the same but for the numbers of their handles.
ghost use Rattle.std.specs.Prelude.{◌↔◌, IsTrue};
ghost use Rattle.std.specs.Option.{option_map};
ghost use Rattle.race_core.specs.Renamed.{call_by, doing_call_handles, seat_by, seat_handles, LikeSeats};
ghost use Rattle.race_core.specs.WithoutOutcomes.{without_outcomes};

use super::Like;
use crate::seat::Seat;
use path_text::NoMemory;
use root_ops::Call;
use tree_model::HandleNo;

impl Like for Option<Call> {
    ghost by = { λ f. option_map (call_by f) };

    ghost handles = { doing_call_handles };

    fn is_like(&self, other: &Option<Call>) -> bool {
        match (self, other) {
            (None, None) => true,
            (Some(call), Some(c)) => call.is_like(c),
            _ => false,
        }
    }

    fn push_handles(&self, into: &mut Vec<HandleNo>) -> Result<(), NoMemory> {
        match self {
            None => Ok(()),
            Some(call) => call.push_handles(into),
        }
    }
}

impl Like for Seat {
    ghost by = { seat_by };

    ghost handles = { seat_handles };

    fn is_like(&self, other: &Seat) -> bool {
        self.ledger.is_like(&other.ledger) && self.doing.is_like(&other.doing)
    }

    fn push_handles(&self, into: &mut Vec<HandleNo>) -> Result<(), NoMemory> {
        self.ledger.push_handles(into)?;
        self.doing.push_handles(into)
    }
}

impl Seat {
    /// Whether it is the same as another, which has no outcomes, but for its outcomes and the numbers of handles.
    pub(crate) fn is_like_without_outcomes(&self, other: &Seat) -> bool
        ensures { IsTrue result ↔ LikeSeats (without_outcomes self.now) other.now }
    {
        if !other.ledger.outcomes.is_empty() {
            return false;
        }
        if !self.ledger.is_like_beside_outcomes(&other.ledger) {
            return false;
        }
        self.doing.is_like(&other.doing)
    }
}
