//! What the text says of an outcome.
ghost use Rattle.std.specs.Prelude.{◌≡◌, IfOk};
ghost use Rattle.outcome_text.specs.Outcome.{outcome_lines};
ghost use Rattle.outcome_text.specs.Telling.{IsLook, IsToldOf};

use crate::begins::beside;
use crate::outcome::{Ended, judged_lines, outcome_lines};
use crate::schedule::schedule_words;
use crate::survey::Told;
use event_log::Output;
use node_numbering::renumber;
use path_text::{Bytes, NoMemory};
use race_core::Report;
use std::alloc::Global;
use tree_model::{Snapshot, Tree};

/// An outcome as it was found.
#[derive(Debug, Drop)]
pub struct Found<'a, T> {
    /// How many full lists of turns lead to it.
    pub lists: u64,
    /// How many turns of the least of them come right after a turn of another actor who is within a call.
    pub cuts: u64,
    /// How many are another actor's than the turn before.
    pub changes: u64,
    /// The turns of the least: actors' numbers.
    pub turns: &'a [u32],
    /// Its report.
    pub report: &'a Report<T>,
    /// How many steps of each actor acted outside of its root, where they were counted.
    pub outside: &'a [u64],
}

// What is printed of a report, in no more room than it takes.
fn printed<T: Tree>(
    alloc: Global,
    named: &[u32],
    opening: &Snapshot,
    ended: &Ended<T>,
    actors: u32,
) -> Result<Bytes, NoMemory>
    ensures { IfOk result (λ text. text
        ≡ outcome_lines named.now opening.now ended.now.replies.now
        (record { nodes = ended.now.nodes.now.nodes; handles = (T.state ended.now.tree.now).handles })
        ended.now.outside.now actors) }
{
    let mut text = Output::new(alloc);
    outcome_lines(alloc, &mut text, named, opening, ended, actors)?;
    Bytes::from_slice(alloc, text.as_slice())
}

// What is printed of a report whose new nodes are numbered anew.
fn look<T: Tree>(
    alloc: Global,
    named: &[u32],
    opening: &Snapshot,
    ended: &Ended<T>,
    actors: u32,
) -> Result<Bytes, NoMemory>
    ensures { IfOk result (IsLook named.now opening.now actors ended.now.replies.now
        (record { nodes = ended.now.nodes.now.nodes; handles = (T.state ended.now.tree.now).handles })
        ended.now.outside.now) }
{
    let known = opening.nodes().len();
    let anew = renumber(alloc, known, named, ended.nodes.nodes(), ended.replies)?;
    let nodes = Snapshot::new(anew.nodes, Vec::new(alloc));
    let renumbered = Ended {
        replies: &anew.replies,
        nodes: &nodes,
        tree: ended.tree,
        outside: ended.outside,
    };
    printed(alloc, named, opening, &renumbered, actors)
}

/// What the text says of an outcome, where so many actors are there: the replies of the actors that are named alone, or
/// where none is all replies, how the entries of the tree differ from those of the opening one, and how many handles
/// each actor has open; and then how many steps acted outside, where they were counted. The same is made with the
/// nodes of the run numbered anew, by which outcomes are told apart. The lines by which it is judged are made only
/// where it is. NoMemory where room was refused.
pub fn told_of<T: Tree>(
    alloc: Global,
    judged: bool,
    named: &[u32],
    opening: &Snapshot,
    actors: u32,
    found: &Found<T>,
) -> Result<Told, NoMemory>
    ensures { IfOk result
        (IsToldOf judged named.now opening.now actors found.now.lists found.now.cuts found.now.changes
        found.now.turns.now
        found.now.report.now.replies.items (T.state found.now.report.now.tree) found.now.outside.now) }
{
    let report = found.report;
    let mut turns = Vec::new(alloc);
    turns.extend_from_slice(found.turns)?;
    let mut leads = Output::new(alloc);
    schedule_words(&mut leads, found.turns)?;
    let nodes = report.tree.snapshot(alloc)?;
    let ended = Ended {
        replies: &report.replies,
        nodes: &nodes,
        tree: &report.tree,
        outside: found.outside,
    };
    let block = printed(alloc, named, opening, &ended, actors)?;
    let look = look(alloc, named, opening, &ended, actors)?;
    let (same, rest) = beside(alloc, look.as_slice(), block.as_slice())?;
    Ok(Told {
        lists: found.lists,
        cuts: found.cuts,
        changes: found.changes,
        turns,
        schedule: leads,
        look,
        same,
        rest,
        lines: judged_lines(alloc, judged, &ended, actors)?,
    })
}
