//! The limit of this crate as a number: a law, the contract of a function without a body.
ghost use Rattle.std.specs.Prelude.{◌≡◌};
ghost use Rattle.schedule_graph.specs.declared.count.TheConstants.{COUNT_CAP};

/// Numbers of words are told apart up to 10^18.
pub fn count_cap_is_a_number()
    ensures { COUNT_CAP ≡ 1000000000000000000 }
{}
