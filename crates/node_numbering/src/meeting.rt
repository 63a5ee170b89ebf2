//! The order in which new nodes are met. It names no new node by the number that it got, so that alike outcomes give
//! their new nodes the same numbers.
ghost use Rattle.std.specs.Prelude.{◌≡◌, ◌<◌, ◌≤◌, ◌-◌, [], length, IfSome, IfOk};
ghost use Rattle.std.specs.Option.{option_and_then};
ghost use Rattle.node_numbering.specs.Exchanges.{AreWithin};
ghost use Rattle.node_numbering.specs.Meeting.{unmet, entry_in, is_before, comes_before, in_tree, opened, in_calls, is_told, in_replies, found, numbered_on};
ghost use Rattle.node_numbering.specs.Seen.{seen, seen_entry};

use crate::exchange::{Exchange, number_after};
use path_text::{Name, NoMemory};
use race_core::{Outcome, Outcomes};
use std::alloc::Global;
use tree_model::{Answer, Inode, Node};

// The search for the node that is met next, where nodes have their numbers after the exchanges: it gets the number
// `next`.
#[derive(Clone, Copy)]
struct Search<'a> {
    exchanges: &'a [Exchange],
    next: Node,
    nodes: &'a [Inode],
}

// An entry of the tree: the directory's number, the name, and the node's number.
#[derive(Clone, Copy)]
struct Entry<'a> {
    dir: Node,
    name: &'a Name,
    node: Node,
}

impl Entry<'_> {
    // Whether it comes before the other: by the directory's number, then by the bytes of the name.
    fn is_before(&self, other: &Entry) -> bool
        ensures { result ≡ is_before (seen self.now) (seen other.now) }
    {
        if self.dir != other.dir {
            return self.dir < other.dir;
        }
        self.name.bytes().cmp(other.name.bytes()).is_lt()
    }

    // The same, if there is another one.
    fn comes_before(&self, other: &Option<Entry>) -> bool
        ensures { result ≡ comes_before (seen self.now) (seen_entry other.now) }
    {
        match other {
            Some(other) => self.is_before(other),
            None => true,
        }
    }
}

impl Search<'_> {
    // A node's number, if the node wasn't met yet.
    fn unmet(&self, node: Node) -> Option<Node>
        ensures is { result ≡ unmet self.now.exchanges.now self.now.next (length self.now.nodes.now) node }
        ensures within { IfSome result (λ y. (self.now.next ≤ y) × (y < length self.now.nodes.now)) }
    {
        let number = number_after(self.exchanges, node);
        if self.next <= number && number.number() < self.nodes.len() as u64 {
            Some(number)
        } else {
            None
        }
    }

    // The entry of that node, if it wasn't met yet and stands in a directory that was.
    fn entry<'b>(&self, node: Node, inode: &'b Inode) -> Option<Entry<'b>>
        ensures is { seen_entry result
            ≡ entry_in self.now.exchanges.now self.now.next (length self.now.nodes.now) node inode.now.place }
        ensures within { IfSome result (λ e. (self.now.next ≤ e.node) × (e.node < length self.now.nodes.now)) }
    {
        let place = inode.place.as_ref()?;
        let dir = number_after(self.exchanges, place.parent);
        if self.next <= dir {
            return None;
        }
        let node = self.unmet(node)?;
        let name = &place.name;
        Some(Entry { dir, name, node })
    }

    // The number of the node whose entry comes first of these.
    fn in_tree(&self) -> Option<Node>
        ensures is { result ≡ in_tree self.now.exchanges.now self.now.next self.now.nodes.now }
        ensures within { IfSome result (λ y. (self.now.next ≤ y) × (y < length self.now.nodes.now)) }
    {
        let mut first: Option<Entry> = None;
        for (x, inode) in self.nodes.iter().enumerate() {
            if let Some(entry) = self.entry(Node::new(x as u64), inode) {
                if entry.comes_before(&first) {
                    first = Some(entry);
                }
            }
        }
        match first {
            Some(entry) => Some(entry.node),
            None => None,
        }
    }

    // The number of the node that a call opened, if it wasn't met yet.
    fn in_call(&self, outcome: &Outcome) -> Option<Node>
        ensures is { result ≡ option_and_then
            (unmet self.now.exchanges.now self.now.next (length self.now.nodes.now)) (opened outcome.now) }
        ensures within { IfSome result (λ y. (self.now.next ≤ y) × (y < length self.now.nodes.now)) }
    {
        self.unmet(opened(outcome)?)
    }

    // The number of the first node that was opened in these calls and wasn't met yet.
    fn in_calls(&self, outcomes: &[Outcome]) -> Option<Node>
        ensures is { result
            ≡ in_calls self.now.exchanges.now self.now.next (length self.now.nodes.now) outcomes.now }
        ensures within { IfSome result (λ y. (self.now.next ≤ y) × (y < length self.now.nodes.now)) }
    {
        for outcome in outcomes {
            let found = self.in_call(outcome);
            if found.is_some() {
                return found;
            }
        }
        None
    }

    // The same for the calls of the actors that are named, or of all where none is.
    fn in_replies(&self, named: &[u32], replies: &[Outcomes]) -> Option<Node>
        ensures is { result
            ≡ in_replies self.now.exchanges.now self.now.next (length self.now.nodes.now) named.now 0 replies.now }
        ensures within { IfSome result (λ y. (self.now.next ≤ y) × (y < length self.now.nodes.now)) }
    {
        for (actor, outcomes) in replies.iter().enumerate() {
            if is_told(named, actor as u64) {
                let found = self.in_calls(outcomes.as_slice());
                if found.is_some() {
                    return found;
                }
            }
        }
        None
    }

    // The number of the node that is met next: in the tree, unless actors are named, and else in replies.
    fn found(&self, named: &[u32], replies: &[Outcomes]) -> Option<Node>
        ensures is { result
            ≡ found named.now self.now.nodes.now replies.now self.now.exchanges.now self.now.next }
        ensures within { IfSome result (λ y. (self.now.next ≤ y) × (y < length self.now.nodes.now)) }
    {
        if named.is_empty() {
            let found = self.in_tree();
            if found.is_some() {
                return found;
            }
        }
        self.in_replies(named, replies)
    }
}

// The node that a call opened.
fn opened(outcome: &Outcome) -> Option<Node>
    ensures { result ≡ opened outcome.now }
{
    match outcome {
        Outcome::Opened { node, .. } | Outcome::Stepped(Answer::Opened { node, .. }) => Some(*node),
        _ => None,
    }
}

// Whether an actor is one of those that are named, or none is.
fn is_told(named: &[u32], actor: u64) -> bool
    ensures { result ≡ is_told named.now actor }
{
    if named.is_empty() {
        return true;
    }
    for number in named {
        if u64::from(*number) == actor {
            return true;
        }
    }
    false
}

/// What exchanges the nodes from `known` on, so that they are numbered as they are met: where no actor is named, the
/// entries of directories that were met come first, by the directory's number and the bytes of the name, and then
/// the nodes that calls opened; where actors are named, only what their calls opened. Nodes that aren't met come
/// last. NoMemory where room was refused.
pub(crate) fn exchanges(
    alloc: Global,
    known: usize,
    named: &[u32],
    nodes: &[Inode],
    replies: &[Outcomes],
) -> Result<Vec<Exchange>, NoMemory>
    ensures within { IfOk result (λ exchanges. AreWithin known (length nodes.now) exchanges.items) }
    ensures met { IfOk result (λ exchanges. exchanges.items
        ≡ numbered_on named.now nodes.now replies.now (length nodes.now - known) known []) }
{
    let mut exchanges = Vec::new(alloc);
    for number in known..nodes.len() {
        let one = Node::new(number as u64);
        let search = Search {
            exchanges: exchanges.as_slice(),
            next: one,
            nodes,
        };
        let Some(other) = search.found(named, replies) else {
            break;
        };
        if one != other {
            exchanges.push(Exchange { one, other })?;
        }
    }
    Ok(exchanges)
}
