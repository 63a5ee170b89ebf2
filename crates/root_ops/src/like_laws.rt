//! Requests, answers and calls that are the same but for the numbers of their handles: a law, the contract of a
//! function without a body.
ghost use Rattle.root_ops.specs.Renamed.{LikeAnswersAgree, LikeRequestsAgree, LikeCallsAgree};

/// Two answers, two requests or two calls that are the same but for their handles, each of which gets one number in
/// both, are the same with these numbers.
pub fn like_calls_agree()
    ensures answers { LikeAnswersAgree }
    ensures requests { LikeRequestsAgree }
    ensures calls { LikeCallsAgree }
{}
