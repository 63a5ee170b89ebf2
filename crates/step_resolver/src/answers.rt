//! What an answer that a step doesn't go on with counts as.
ghost use Rattle.std.specs.Prelude.{◌≡◌};
ghost use Rattle.step_resolver.specs.Order.{refusal_of};
ghost use Rattle.step_resolver.specs.View.{check_refusal};

use path_text::Errno;
use tree_model::Answer;

/// The refusal that an answer is. One that doesn't fit the step counts as BadHandle.
pub fn refusal_of(answer: &Answer) -> Errno
    ensures { result ≡ refusal_of answer.now }
{
    match answer {
        Answer::Refused(error) => *error,
        _ => Errno::BadHandle,
    }
}

/// Why the check of a place failed, where it did: other names, or none, are Raced (EAGAIN of openat2(2)).
pub fn check_refusal(answer: &Answer) -> Errno
    ensures { result ≡ check_refusal answer.now }
{
    match answer {
        Answer::Names(_) | Answer::NotBelow => Errno::Raced,
        other => refusal_of(other),
    }
}
