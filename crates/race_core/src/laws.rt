//! What holds of every book, and the limits of worlds: laws, each the contract of a function without a body.
ghost use Rattle.std.specs.Prelude.{◌≡◌};
ghost use Rattle.race_core.specs.BookLaws.{FreeLinesNeverRise};
ghost use Rattle.race_core.specs.declared.book.TheConstants.{LINES_MAX};
ghost use Rattle.race_core.specs.declared.opening.TheConstants.{ACTORS_MAX};

/// The free lines never rise: a step takes a line, one that opens a handle keeps another for its Close, and a Close
/// takes the line that was kept for it.
pub fn free_lines_never_rise()
    ensures { FreeLinesNeverRise }
{}

/// The limits of worlds, as numbers: a book has at most 1,000,000 lines, and a world at most 64 actors.
pub fn world_limits_are_numbers()
    ensures lines { LINES_MAX ≡ 1000000 }
    ensures actors { ACTORS_MAX ≡ 64 }
{}
