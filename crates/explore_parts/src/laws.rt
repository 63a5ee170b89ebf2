//! What may be asked, and what the line of a part says: laws, each the contract of a function without a body.
ghost use Rattle.std.specs.Prelude.{◌≡◌};
ghost use Rattle.explore_parts.specs.declared.asked.TheConstants.{MEGABYTE, MEMORY_MAX, TURNS_MAX};
ghost use Rattle.explore_parts.specs.declared.options.TheConstants.{CUTS_MAX, STATES_MAX, STATES};
ghost use Rattle.explore_parts.specs.ReadBack.{LinesSayTheirParts, ValuesSayOnePart};

/// What may be asked: at most 1,000,000 cuts and 10,000,000 worlds, of which 100,000 are gone through where nothing is
/// said; lists of at most 100,000 turns; and 1,000,000 megabytes, of 1,000,000 bytes each.
pub fn explore_limits_are_numbers()
    ensures cuts { CUTS_MAX ≡ 1000000 }
    ensures states { STATES_MAX ≡ 10000000 }
    ensures unasked { STATES ≡ 100000 }
    ensures turns { TURNS_MAX ≡ 100000 }
    ensures memory { MEMORY_MAX ≡ 1000000 }
    ensures megabyte { MEGABYTE ≡ 1000000 }
{}

/// The line of a part is read as a value that says this part, for parts of the numbers that the machine holds.
pub fn lines_say_their_parts()
    ensures { LinesSayTheirParts }
{}

/// A value says one part: what is read of a part's line is that part.
pub fn values_say_one_part()
    ensures { ValuesSayOnePart }
{}
