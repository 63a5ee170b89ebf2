//! The whole text.
ghost use Rattle.event_log.specs.Output.{Gains};
ghost use Rattle.report_text.specs.Report.{report_text};

use crate::history::events;
use crate::outcomes::replies;
use crate::state::{held, rows};
use event_log::Output;
use path_text::NoMemory;
use race_core::Report;
use std::alloc::Global;
use tree_model::Tree;

/// Adds the text of a report: a line for each event, then for each call, then for each entry of the tree, then for
/// each of the first actors, as many as that. NoMemory where its room was refused, and a part of the text may have
/// been added then.
pub fn report<T: Tree>(
    alloc: Global,
    out: &mut Output,
    report: &Report<T>,
    actors: u32,
) -> Result<(), NoMemory>
    ensures { Gains out.old out.new
        (report_text report.now.events.events report.now.replies.items (T.state report.now.tree) actors) result }
{
    events(out, &report.events)?;
    replies(alloc, out, &report.replies)?;
    let snapshot = report.tree.snapshot(alloc)?;
    rows(alloc, out, &snapshot)?;
    held(out, &report.tree, actors)
}
