//! What holds of a page: its limit.
ghost use Rattle.std.specs.Prelude.{◌≡◌};
ghost use Rattle.explore_page_command.specs.declared.chosen.TheConstants.{PLAYED_MAX};

/// The limit of the outcomes that a page plays, as a number: the first 64.
pub fn played_limit_is_a_number()
    ensures { PLAYED_MAX ≡ 64 }
{}
