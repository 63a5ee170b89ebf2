//! What holds of worlds that are the same but for the numbers of their handles: a law, the contract of a function
//! without a body.
ghost use Rattle.race_core.specs.Renamed.{LikeSeatsAgree};

/// Two actors that have the same to do, to tell and to hold but for the numbers of their handles, and whose handles,
/// listed one by one, get the same new numbers, are the same with these.
pub fn like_seats_agree()
    ensures { LikeSeatsAgree }
{}
