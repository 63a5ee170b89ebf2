//! Answers, and the replies that they give.
ghost use Rattle.std.specs.Prelude.{◌≡◌, ◌++◌, ◌↔◌, IsTrue, IfOk, reverse};
ghost use Rattle.step_resolver.specs.TurnView.{standing_handle};
ghost use Rattle.root_ops.specs.Order.{opened};
ghost use Rattle.root_ops.specs.Renamed.{answer_by, answer_handles, standing_by, reply_by, reply_handles};
ghost use Rattle.root_ops.specs.View.{reply_view};

use crate::reply::Reply;
use handles::Standing;
use path_text::NoMemory;
use tree_model::{Answer, HandleNo};

/// Whether the answers are the same but for the number of a handle.
pub fn like_answers(answer: &Answer, other: &Answer) -> bool
    ensures { IsTrue result ↔ (answer_by (λ h. 0) answer.now ≡ answer_by (λ h. 0) other.now) }
{
    match (answer, other) {
        (
            Answer::Opened {
                handle: _,
                node,
                kind,
            },
            Answer::Opened {
                handle: _,
                node: n,
                kind: k,
            },
        ) => node == n && kind == k,
        (Answer::Text(text), Answer::Text(t)) => text.same(t),
        (Answer::Names(names), Answer::Names(n)) => names.same(n),
        (Answer::NotBelow, Answer::NotBelow) => true,
        (Answer::Listed(names), Answer::Listed(n)) => names.same(n),
        (Answer::Done, Answer::Done) => true,
        (Answer::Refused(error), Answer::Refused(e)) => error == e,
        _ => false,
    }
}

/// Appends the handle that the answer opened, where it opened one. NoMemory where its room was refused.
pub fn push_answer_handles(answer: &Answer, into: &mut Vec<HandleNo>) -> Result<(), NoMemory>
    ensures { IfOk result (λ u. into.new.items ≡ into.old.items ++ answer_handles answer.now) }
{
    if let Answer::Opened {
        handle,
        node: _,
        kind: _,
    } = answer
    {
        into.push(*handle)?;
    }
    Ok(())
}

/// Whether the objects are the same but for the handle's number: one owner's, on one node, at the same names.
pub fn like_standings(standing: &Standing, other: &Standing) -> bool
    ensures { IsTrue result ↔ (standing_by (λ h. 0) standing.now ≡ standing_by (λ h. 0) other.now) }
{
    standing.owner() == other.owner()
        && standing.node() == other.node()
        && standing.kind() == other.kind()
        && standing.names().same(other.names())
}

// Whether the replies of these objects, opened, are the same but for the handle's number: they don't tell the owner.
#[tactic(auto, using(step_resolver::proofs::Underway::AfterParent::reversed_same))]
fn like_opened(standing: &Standing, other: &Standing) -> bool
    ensures { IsTrue result
        ↔ (reply_by (λ h. 0) (opened (standing_handle standing.now) (reverse standing.now.names))
        ≡ reply_by (λ h. 0) (opened (standing_handle other.now) (reverse other.now.names))) }
{
    standing.node() == other.node()
        && standing.kind() == other.kind()
        && standing.names().same(other.names())
}

/// Whether the replies are the same but for the number of a handle.
pub(crate) fn like_replies(reply: &Reply, other: &Reply) -> bool
    ensures { IsTrue result ↔ (reply_by (λ h. 0) (reply_view reply.now) ≡ reply_by (λ h. 0) (reply_view other.now)) }
{
    match (reply, other) {
        (Reply::Opened(standing), Reply::Opened(s)) => like_opened(standing, s),
        (Reply::Text(text), Reply::Text(t)) => text.same(t),
        (Reply::Done, Reply::Done) => true,
        (Reply::Count(count), Reply::Count(c)) => count == c,
        (Reply::Stepped(answer), Reply::Stepped(a)) => like_answers(answer, a),
        (Reply::Kept(standing), Reply::Kept(s)) => like_standings(standing, s),
        (Reply::Fault(error), Reply::Fault(e)) => error == e,
        _ => false,
    }
}

/// Appends the handle that the reply tells of, where it tells of one.
pub(crate) fn push_reply_handles(reply: &Reply, into: &mut Vec<HandleNo>) -> Result<(), NoMemory>
    ensures { IfOk result (λ u. into.new.items ≡ into.old.items ++ reply_handles (reply_view reply.now)) }
{
    match reply {
        Reply::Opened(standing) | Reply::Kept(standing) => into.push(standing.handle())?,
        Reply::Stepped(answer) => push_answer_handles(answer, into)?,
        Reply::Text(_) | Reply::Done | Reply::Count(_) | Reply::Fault(_) => {}
    }
    Ok(())
}
