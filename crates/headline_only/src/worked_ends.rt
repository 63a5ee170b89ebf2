//! Worked ends of walks: laws, each the contract of a function without a body.
ghost use Rattle.headline_only.specs.WorkedEnds.{FoundIsWorked, WrongEndsAreRefused};

/// Five legal histories, computed, and an end of a walk in each that no resolution with the contract of `resolve` can
/// come to: another object than the path's; a directory outside of the root, the check at `..` being skipped; an object
/// that stood at the names passed only by checks of several moments; the directory of a remembered handle, in place of
/// the parent; and ENOENT after a step that made an entry. The contract says nothing of the order of steps.
pub fn wrong_ends_are_refused()
    ensures { WrongEndsAreRefused }
{}

/// A walk along a path that never stood there whole until its last name was opened: a legal history, computed, in which
/// it finds its object, and what that tells.
pub fn found_is_worked()
    ensures { FoundIsWorked }
{}
