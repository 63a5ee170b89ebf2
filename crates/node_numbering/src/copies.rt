//! Nodes and replies copied with other numbers of nodes.
ghost use Rattle.std.specs.Prelude.{◌≡◌, ◌<◌, Some, IfOk, length, slice_get};
ghost use Rattle.node_numbering.specs.Exchanges.{after_all, AreWithin};
ghost use Rattle.node_numbering.specs.Renumbered.{answer_on, outcome_on, outcomes_on, replies_on, place_on, inode_on, AreNodesOn};

use crate::exchange::{Exchange, number_after, number_before};
use path_text::NoMemory;
use race_core::{Outcome, Outcomes};
use std::alloc::Global;
use tree_model::{Answer, Inode, Node, Place};

// A place whose directory has its number after these.
fn place_on(alloc: Global, exchanges: &[Exchange], place: &Place) -> Result<Place, NoMemory>
    ensures { IfOk result (λ copy. copy ≡ place_on (after_all exchanges.now) place.now) }
{
    Ok(Place {
        parent: number_after(exchanges, place.parent),
        name: place.name.copy(alloc)?,
    })
}

// The same of a node.
fn inode_on(alloc: Global, exchanges: &[Exchange], inode: &Inode) -> Result<Inode, NoMemory>
    ensures { IfOk result (λ copy. copy ≡ inode_on (after_all exchanges.now) inode.now) }
{
    let place = match &inode.place {
        Some(place) => Some(place_on(alloc, exchanges, place)?),
        None => None,
    };
    Ok(Inode {
        object: inode.object.copy(alloc)?,
        place,
    })
}

// The node of that number.
fn node_at(nodes: &[Inode], node: Node) -> &Inode
    requires { node < length nodes.now }
    ensures { slice_get nodes.now node ≡ Some result.now }
{
    &nodes[node.number() as usize]
}

/// The nodes, each at the place of its number after these. NoMemory where room was refused.
pub(crate) fn nodes_on(
    alloc: Global,
    exchanges: &[Exchange],
    nodes: &[Inode],
) -> Result<Vec<Inode>, NoMemory>
    requires { AreWithin 0 (length nodes.now) exchanges.now }
    ensures { IfOk result (λ others. AreNodesOn (after_all exchanges.now) nodes.now others.items) }
{
    let mut others = Vec::with_capacity(alloc, nodes.len())?;
    for number in 0..nodes.len() {
        let old = number_before(exchanges, Node::new(number as u64));
        others.push(inode_on(alloc, exchanges, node_at(nodes, old))?)?;
    }
    Ok(others)
}

// An answer whose node has its number after these.
fn answer_on(alloc: Global, exchanges: &[Exchange], answer: &Answer) -> Result<Answer, NoMemory>
    ensures { IfOk result (λ copy. copy ≡ answer_on (after_all exchanges.now) answer.now) }
{
    match answer {
        Answer::Opened { handle, node, kind } => Ok(Answer::Opened {
            handle: *handle,
            node: number_after(exchanges, *node),
            kind: *kind,
        }),
        other => other.copy(alloc),
    }
}

// The same of how a call ended.
fn outcome_on(alloc: Global, exchanges: &[Exchange], outcome: &Outcome) -> Result<Outcome, NoMemory>
    ensures { IfOk result (λ copy. copy ≡ outcome_on (after_all exchanges.now) outcome.now) }
{
    Ok(match outcome {
        Outcome::Opened { node, kind, names } => Outcome::Opened {
            node: number_after(exchanges, *node),
            kind: *kind,
            names: names.copy(alloc)?,
        },
        Outcome::Text(text) => Outcome::Text(text.copy(alloc)?),
        Outcome::Done => Outcome::Done,
        Outcome::Count(count) => Outcome::Count(*count),
        Outcome::Stepped(answer) => Outcome::Stepped(answer_on(alloc, exchanges, answer)?),
        Outcome::Fault(error) => Outcome::Fault(*error),
    })
}

// The same of an actor's calls.
fn outcomes_on(
    alloc: Global,
    exchanges: &[Exchange],
    outcomes: &[Outcome],
) -> Result<Outcomes, NoMemory>
    ensures { IfOk result (λ copies. copies ≡ outcomes_on (after_all exchanges.now) outcomes.now) }
{
    let mut copies = Outcomes::new(alloc);
    for outcome in outcomes {
        copies.push(outcome_on(alloc, exchanges, outcome)?)?;
    }
    Ok(copies)
}

/// The replies of each actor, with the numbers that nodes have after these. NoMemory where room was refused.
pub(crate) fn replies_on(
    alloc: Global,
    exchanges: &[Exchange],
    replies: &[Outcomes],
) -> Result<Vec<Outcomes>, NoMemory>
    ensures { IfOk result (λ copies. copies.items ≡ replies_on (after_all exchanges.now) replies.now) }
{
    let mut copies = Vec::with_capacity(alloc, replies.len())?;
    for outcomes in replies {
        copies.push(outcomes_on(alloc, exchanges, outcomes.as_slice())?)?;
    }
    Ok(copies)
}
