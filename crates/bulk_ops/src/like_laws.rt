//! What comparing calls but for their handles means: a law, the contract of a function without a body.
ghost use Rattle.bulk_ops.specs.Renamed.{LikeMakingAgrees, LikeRemovingAgrees};

/// Calls that are the same but for the numbers of their handles, listed one by one, and in which each place has a
/// handle that gets the same number, are the same with these numbers.
pub fn like_bulk_calls_agree()
    ensures making { LikeMakingAgrees }
    ensures removing { LikeRemovingAgrees }
{}
