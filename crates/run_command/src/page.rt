//! A script's run as JSON, and as a page that a browser shows.
ghost use Rattle.std.specs.Prelude.{◌≡◌, ◌≢◌, [], ◌∷◌, IfOk, IfErr, MatchResult};
ghost use Rattle.drawings.specs.Picture.{drawn_of};
ghost use Rattle.run_command.specs.declared.page.JsonFault.TheVariants as json_fault;
ghost use Rattle.scripts.specs.declared.fault.RunFault.TheVariants.{NoMemory as OutOfMemory};
ghost use Rattle.run_command.specs.Drawing.{IsNoDrawing, IsUndrawn};
ghost use Rattle.run_command.specs.Page.{IsJsonOf, IsNoJson, IsUntold, IsJson, IsPageOf, IsPage};
ghost use Rattle.pages.specs.Page.{page_of, played_of};
ghost use Rattle.pages.specs.Run.{report_json};
ghost use Rattle.report_text.specs.Report.{report_text};
ghost use Rattle.scripts.specs.Scenario.{said_by, said_for, IsPlayable};

use crate::drawing::{DrawFault, run_of};
use drawings::{CallWords, Closes, calls_of};
use event_log::Output;
use pages::{Played, report_json, runs_page};
use path_text::NoMemory;
use race_core::Report;
use report_text::report;
use scripts::{RunFault, Scenario, Script, TurnOrder, read_scene};
use std::alloc::Global;
use std::io::Write;
use thiserror::Error;
use tree_list::ListTree;
use tree_slab::SlabTree;

/// The most events of a run that is told as JSON.
pub const EVENTS_MAX: usize = 2000;

/// Why a run wasn't told as JSON.
#[derive(Clone, Copy, Debug, PartialEq, Eq, Error)]
pub enum JsonFault {
    #[error("{0}")]
    Run(RunFault),
    /// The run has more events than are told.
    #[error("replay: events")]
    TooManyEvents,
}

impl From<RunFault> for JsonFault {
    ghost from_gives = { λ fault told. told ≡ json_fault.Run fault };

    fn from(fault: RunFault) -> JsonFault {
        JsonFault::Run(fault)
    }
}

impl From<NoMemory> for JsonFault {
    ghost from_gives = { λ _ told. told ≡ json_fault.Run OutOfMemory };

    fn from(_error: NoMemory) -> JsonFault {
        JsonFault::Run(RunFault::NoMemory)
    }
}

/// A report as JSON, from a tree in which the run's roots are granted. Errors: `TooManyEvents` over 2,000; `NoMemory`.
fn json_text(alloc: Global, tree: ListTree, came_to: &Report<SlabTree>) -> Result<Output, JsonFault>
    ensures ok { IfOk result (λ text.
        text ≡ report_json tree came_to.now.events.events came_to.now.replies.items) }
    ensures err { IfErr result (IsUntold came_to.now.events.events) }
{
    if came_to.events.len() > EVENTS_MAX {
        return Err(JsonFault::TooManyEvents);
    }
    let mut text = Output::new(alloc);
    report_json(alloc, &mut text, tree, &came_to.events, &came_to.replies)?;
    Ok(text)
}

/// The report on a scenario's run as JSON, whose steps are made again on the same tree. Errors: those of `report_of`;
/// `NoMemory`; `TooManyEvents` over 2,000.
fn json_of(alloc: Global, scenario: Scenario, mut tree: ListTree) -> Result<Output, JsonFault>
    requires same { tree ≡ scenario.tree }
    requires none { scenario.tree.handles ≡ [] }
    requires playable { IsPlayable (said_by scenario) }
    ensures told { MatchResult result (IsJsonOf (said_by scenario)) (IsNoJson (said_by scenario)) }
    ensures some { IfOk result (λ text. text ≢ []) }
{
    let came_to = run_of(alloc, scenario, &mut tree)?;
    json_text(alloc, tree, &came_to)
}

/// Runs a script's world in this order of turns, and writes the report as one line of JSON: the tree as the run begins,
/// each event with what it changed, and how each call ended.
///
/// Errors, in this order: those of `read_scenario`; `BookFull` where the script gives its book fewer lines than it
/// has actors; `TooManyEvents` where the run has more than 2,000; `NoMemory`, where room for the world or the report
/// was refused, in place of either of the last two too; `WriteFailed`. Nothing is written before the text is whole.
pub fn replay_json<W: Write>(
    alloc: Global,
    script: &Script,
    writer: &mut W,
    order: &TurnOrder,
) -> Result<(), JsonFault>
    ensures run { IsJson (said_for order.now script.now) (W.contents writer.old) (W.contents writer.new)
        result }
{
    let (scenario, tree) = read_scene(alloc, script, order)?;
    let text = json_of(alloc, scenario, tree)?;
    match writer.write_all(text.as_slice()) {
        Ok(()) => Ok(()),
        Err(_) => Err(JsonFault::Run(RunFault::WriteFailed)),
    }
}

// The page of a text and of one run.
fn page_with(alloc: Global, text: &[u8], run: Played) -> Result<Output, NoMemory>
    ensures { IfOk result (λ page. page ≡ page_of text.now (run ∷ [])) }
{
    let mut runs = Vec::new(alloc);
    runs.push(run)?;
    let mut whole = Output::new(alloc);
    runs_page(alloc, &mut whole, text, &runs)?;
    Ok(whole)
}

/// The page of a run, from a tree in which its roots are granted. Errors as of `picture_text`.
fn page_played(
    alloc: Global,
    tree: ListTree,
    calls: &[CallWords],
    came_to: &Report<SlabTree>,
    actors: u32,
    closes: Closes,
) -> Result<Output, DrawFault>
    ensures ok { IfOk result (λ page. page ≡ page_of
        (report_text came_to.now.events.events came_to.now.replies.items came_to.now.tree actors)
        (played_of closes tree calls.now came_to.now.events.events came_to.now.replies.items ∷ [])) }
    ensures err { IfErr result (IsUndrawn came_to.now.events.events
        (drawn_of closes tree calls.now came_to.now.events.events came_to.now.replies.items)) }
{
    let (events, replies) = (&came_to.events, &came_to.replies);
    let run = Played::of(alloc, tree, calls, events, replies, closes)?;
    let mut text = Output::new(alloc);
    report(alloc, &mut text, came_to, actors)?;
    Ok(page_with(alloc, text.as_slice(), run)?)
}

/// The page of a scenario's run. Errors as of a drawing.
fn page_of(
    alloc: Global,
    scenario: Scenario,
    mut tree: ListTree,
    closes: Closes,
) -> Result<Output, DrawFault>
    requires same { tree ≡ scenario.tree }
    requires none { scenario.tree.handles ≡ [] }
    requires playable { IsPlayable (said_by scenario) }
    ensures shown { MatchResult result (IsPageOf closes (said_by scenario)) (IsNoDrawing closes (said_by scenario)) }
    ensures some { IfOk result (λ text. text ≢ []) }
{
    let calls = calls_of(alloc, &scenario.plans)?;
    let actors = scenario.plans.len() as u32;
    let came_to = run_of(alloc, scenario, &mut tree)?;
    page_played(alloc, tree, &calls, &came_to, actors, closes)
}

/// Runs a script's world in this order of turns, and writes a page of HTML that needs nothing beside itself:
/// it has the report as `replay` writes it, as text and as JSON, and the picture as `draw` draws it, with the closes
/// that are asked for. A script of the page shows the tree of each moment. Names have no byte in it that begins a tag.
///
/// Errors, in this order: those of `draw`, for the same reasons.
pub fn draw_page<W: Write>(
    alloc: Global,
    script: &Script,
    writer: &mut W,
    order: &TurnOrder,
    closes: Closes,
) -> Result<(), DrawFault>
    ensures run { IsPage closes (said_for order.now script.now) (W.contents writer.old)
        (W.contents writer.new) result }
{
    let (scenario, tree) = read_scene(alloc, script, order)?;
    let text = page_of(alloc, scenario, tree, closes)?;
    match writer.write_all(text.as_slice()) {
        Ok(()) => Ok(()),
        Err(_) => Err(DrawFault::Run(RunFault::WriteFailed)),
    }
}
