//! What the answer to a call's own step gives.
ghost use Rattle.std.specs.Prelude.{◌≡◌};
ghost use Rattle.handles.specs.declared.owner.Owner.{Owner};
ghost use Rattle.root_ops.specs.Order.{reply_to};
ghost use Rattle.root_ops.specs.View.{reply_view, IsOwned};

use crate::aim::Wanted;
use crate::reply::Reply;
use step_resolver::refusal_of;
use tree_model::Answer;

/// The reply that an answer gives. Part of its caller, which mostly knows what is wanted.
#[inline(always)]
pub(crate) fn reply_to(wanted: Wanted, answer: Answer) -> Reply
    ensures reply { reply_view result ≡ reply_to wanted answer }
    ensures owner { (owner : Owner) → IsOwned owner result }
{
    match wanted {
        Wanted::Done => match answer {
            Answer::Done => Reply::Done,
            other => Reply::Fault(refusal_of(&other)),
        },
        Wanted::Text => match answer {
            Answer::Text(text) => Reply::Text(text),
            other => Reply::Fault(refusal_of(&other)),
        },
        Wanted::Any => match answer {
            Answer::Refused(error) => Reply::Fault(error),
            other => Reply::Stepped(other),
        },
    }
}
