//! Whether memory ran short in a run.
ghost use Rattle.std.specs.Prelude.{◌≡◌};
ghost use Rattle.local_states.specs.OutOfMemory.{outcome_out_of_memory, any_out_of_memory, replies_out_of_memory};

use path_text::Errno;
use race_core::{Outcome, Outcomes};

// Whether the call found no memory.
fn outcome_out_of_memory(outcome: &Outcome) -> bool
    ensures { result ≡ outcome_out_of_memory outcome.now }
{
    match outcome {
        Outcome::Fault(Errno::NoMemory) => true,
        _ => false,
    }
}

// Whether one of these calls did.
fn any_out_of_memory(outcomes: &[Outcome]) -> bool
    ensures { result ≡ any_out_of_memory outcomes.now }
{
    for outcome in outcomes {
        if outcome_out_of_memory(outcome) {
            return true;
        }
    }
    false
}

/// Whether a call of some actor did.
pub fn tells_out_of_memory(replies: &[Outcomes]) -> bool
    ensures { result ≡ replies_out_of_memory replies.now }
{
    for outcomes in replies {
        if any_out_of_memory(outcomes.as_slice()) {
            return true;
        }
    }
    false
}
