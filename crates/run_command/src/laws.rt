//! What holds of what is written: its limit.
ghost use Rattle.std.specs.Prelude.{◌≡◌};
ghost use Rattle.run_command.specs.declared.page.TheConstants.{EVENTS_MAX};

/// The limit of a report as JSON, as a number: at most 2,000 events.
pub fn json_limits_are_numbers()
    ensures { EVENTS_MAX ≡ 2000 }
{}
