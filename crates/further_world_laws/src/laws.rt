//! What a world is left with that is given up: laws, each the contract of a function without a body.
ghost use Rattle.further_world_laws.specs.GivenUpWorlds.{CutShortLikewise, GivenUpClosesAll, GivenUpIsReported, GivingUpEnds};

use race_core::{actors_calls_stand_in_order, handles_at_end, turns_join_runs};

/// A world that is given up after some turns, each Ok, is left as one that ran to its end on the same turns: its tree
/// and its events are those of a report of a world over the same tree, in which each actor plans just the calls that
/// it had begun. The outcomes are those taken down so far, and that of the call under way, which opens nothing: it
/// went to its end without memory, and made its Closes alone. Where the last turn says NoMemory, since there was no
/// room to take down how a call ended, the world is given up as if the turn had been Ok. Every world can be given up.
pub fn given_up_is_reported()
    ensures reported { GivenUpIsReported }
    ensures short { CutShortLikewise }
    ensures ends { GivingUpEnds }
{
    turns_join_runs();
}

/// Once a world is given up, what an actor holds is what its calls that had ended left open, as at the end of a
/// report, with its root and what was open before; and nothing else. So whatever a call under way had opened is
/// closed (close(2)); a Release under way has closed its own. The actor's plan closes only what its calls opened.
pub fn given_up_closes_all()
    ensures { GivenUpClosesAll }
{
    given_up_is_reported();
    actors_calls_stand_in_order();
    handles_at_end();
}
