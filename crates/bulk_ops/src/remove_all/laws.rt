//! What the end of every call tells, in every history and in a quiet one: laws, each the contract of a function
//! without a body.
ghost use Rattle.std.specs.Prelude.{◌≡◌};
ghost use Rattle.bulk_ops.specs.declared.remove_all.clearing.TheConstants.{CLEARING_STEPS_MAX};
ghost use Rattle.bulk_ops.specs.RacedCalls.{RacedRemovalsNeedAChange};
ghost use Rattle.bulk_ops.specs.RemoveAllQuiet.{QuietRemoveAll};
ghost use Rattle.bulk_ops.specs.RemoveAllTells.{RemoveAllTells};

/// For every interleaving of actors' single steps, what a call takes away is the target in the directory that its
/// walk found, or an entry of a directory that was reached from the target by names alone, at rising moments of the
/// call, and never through a link (unlink(2), rmdir(2)). This holds after a fault too, and the walk leaves all
/// entries. The count is the number of its removals; on `Removed` the last step but for closings was on the target's
/// name in that directory, and took it away or found none. A fault is the walk's, or one that an own event shows;
/// Busy comes only after `CLEARING_STEPS_MAX` steps of clearing. At each end closings alone come after so many of
/// them, and the actor's open handles are those from before.
pub fn remove_all_tells()
    ensures { RemoveAllTells }
{}

/// Where no other actor takes a step in the window, a call that ends with a count took away the target with every
/// row below it, in the directory that the directory part means in the tree as the window began, and changed nothing
/// else; the count is the number of these rows (unlink(2), rmdir(2); openat2(2)). Where it fails, but for want of
/// memory, of room in the book, of handles or of steps, it changed nothing: the directory part means this failure,
/// or what is no directory.
pub fn quiet_remove_all()
    ensures { QuietRemoveAll }
{}

/// A call takes at most 600,000 steps of clearing.
pub fn clearing_limit_is_a_number()
    ensures { CLEARING_STEPS_MAX ≡ 600000 }
{}

/// A call that ends in Raced met a step of another in its window that made, removed or renamed an entry (openat2(2),
/// EAGAIN).
pub fn raced_removals_need_a_change()
    ensures { RacedRemovalsNeedAChange }
{}
