//! What holds of every removal: laws, each the contract of a function without a body.
ghost use Rattle.std.specs.Prelude.{◌≡◌, ◌<◌, false};
ghost use Rattle.system_calls.specs.Errors.{EBUSY};
ghost use Rattle.remove_by_calls.specs.Answers.{met_of};
ghost use Rattle.remove_by_calls.specs.Promises.{RemovalsHold};
ghost use Rattle.remove_by_calls.specs.declared.answers.Answer.{Answer};
ghost use Rattle.remove_by_calls.specs.declared.answers.Met.TheVariants.{Bound, Failed};

/// Of each whole conversation of so many calls, whatever the answers are. A call is made at the root, or in the
/// innermost place that is kept. A place is kept once, where a call came to it, by a number that is free; what is
/// closed is kept; and in the end each one has been closed.
///
/// Where it ends with a count, a call at the root said that the entry is gone. It fails by the last call's error, or by
/// EAGAIN where others removed what was there. No call follows one that met an error which isn't about bounds or
/// EAGAIN.
///
/// It comes to an end, unless its calls come to ever more places or remove ever more entries: there are four questions
/// for each call that came to a place, 34 for each entry that was removed, and 32 more, at most.
pub fn removals_hold()
    ensures { RemovalsHold }
{}

/// The kernel's EBUSY is an error, and never taken for the bound of a call's steps.
pub fn what_is_busy_is_no_bound()
    ensures busy { (a : Answer) → a.deeper ≡ false → a.error ≡ EBUSY → 0 < a.unmade → met_of a ≡ Failed EBUSY }
    ensures bound { (a : Answer) → met_of a ≡ Bound → (a.error ≡ EBUSY) × (a.unmade ≡ 0) × (0 < a.removed) }
{}
