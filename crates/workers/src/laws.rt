//! The limit of this crate as a number: a law, the contract of a function without a body.
ghost use Rattle.std.specs.Prelude.{◌≡◌};
ghost use Rattle.workers.specs.declared.serving.TheConstants.{WORKERS_MAX};

/// At most 8 sessions are served at once, each by a worker of its own.
pub fn workers_limit_is_a_number()
    ensures { WORKERS_MAX ≡ 8 }
{}
