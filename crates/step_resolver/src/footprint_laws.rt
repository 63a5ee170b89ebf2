//! What a walk ends with where the entries that its path reads are left alone: laws, each the contract of a
//! function without a body.
ghost use Rattle.step_resolver.specs.Changes.{RacedWalksNeedAChange};
ghost use Rattle.step_resolver.specs.FootprintLaws.{QuietWalksMean, RacedTellsOfChange, WalksMean};

/// For every interleaving of actors' single steps, where no other actor changes an entry that the path reads in
/// the tree as the walk's window begins, the walk's end is what the path means in that tree: its object or its
/// error, and for the deepest directory that directory and the rest, unless memory, room in the book or handles
/// ran short. This holds whatever else changes, a move of the root itself included.
pub fn walks_mean()
    ensures { WalksMean }
{}

/// Where no other actor acts in the walk's window, no node is changed, its end is what the path means in the tree
/// as it stood, and its object stands there at the names that are told; unless memory, room in the book or
/// handles ran short.
pub fn quiet_walks_mean()
    ensures { QuietWalksMean }
{}

/// A walk that ends in EAGAIN (openat2(2)) met a change: an event of another actor in its window changed what
/// stands at an entry that the path reads in the tree as the window begins.
pub fn raced_tells_of_change()
    ensures { RacedTellsOfChange }
{}

/// So it met a step of another in its window that made, removed or renamed an entry.
pub fn raced_walks_need_a_change()
    ensures { RacedWalksNeedAChange }
{}
