//! An outcome whose new nodes are numbered anew.
ghost use Rattle.std.specs.Prelude.{IfOk};
ghost use Rattle.node_numbering.specs.Meeting.{numbers};
ghost use Rattle.node_numbering.specs.Renumbered.{IsRenumbered, AreByNumbers};

use crate::copies::{nodes_on, replies_on};
use crate::meeting::exchanges;
use path_text::NoMemory;
use race_core::Outcomes;
use std::alloc::Global;
use tree_model::Inode;

/// The nodes of an outcome's tree, each at the place of its new number, and the replies of each actor by these
/// numbers.
#[derive(Debug, Drop)]
pub struct Renumbered {
    pub nodes: Vec<Inode>,
    pub replies: Vec<Outcomes>,
}

/// An outcome by other numbers of its new nodes, which are those from `known` on: they are numbered in the order in
/// which they are met. Where no actor is named, that is first in the tree, by the number of a directory that was met
/// before and the bytes of the name, and then in the replies, by the actors and their calls; where actors are named,
/// in their replies alone. The numbers of handles stay. NoMemory where room was refused.
///
/// Two outcomes that become equal are alike: one bijection of new nodes takes the one to the other. That alike
/// outcomes become equal is tested, and not proved.
pub fn renumber(
    alloc: Global,
    known: usize,
    named: &[u32],
    nodes: &[Inode],
    replies: &[Outcomes],
) -> Result<Renumbered, NoMemory>
    ensures alike { IfOk result (λ r. IsRenumbered known nodes.now replies.now r.nodes.items r.replies.items) }
    ensures met { IfOk result (λ r. AreByNumbers (numbers known named.now nodes.now replies.now) nodes.now replies.now
        r.nodes.items r.replies.items) }
{
    let exchanges = exchanges(alloc, known, named, nodes, replies)?;
    let nodes = nodes_on(alloc, &exchanges, nodes)?;
    let replies = replies_on(alloc, &exchanges, replies)?;
    Ok(Renumbered { nodes, replies })
}
