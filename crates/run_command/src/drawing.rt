//! A script drawn: its world is run to its end, and a picture of it is written.
ghost use Rattle.std.specs.Prelude.{◌≡◌, ◌≢◌, ◌≤◌, [], length, Some, IfOk, IfErr, MatchResult, OnOk};
ghost use Rattle.drawings.specs.Picture.{drawn_of};
ghost use Rattle.race_core.specs.Opening.{granted};
ghost use Rattle.run_command.specs.declared.drawing.DrawFault.TheVariants as draw_fault;
ghost use Rattle.scripts.specs.declared.fault.RunFault.TheVariants.{NoMemory as OutOfMemory};
ghost use Rattle.run_command.specs.Drawing.{form_text, opened_by, told_of};
ghost use Rattle.run_command.specs.Drawing.{IsDraw, IsDrawingOf, IsNoDrawing, IsRunFrom, IsUndrawn, IsWellFormed};
ghost use Rattle.scripts.specs.Scenario.{said_by, said_for, IsPlayable};
ghost use Rattle.scripts.specs.Writing.{IsNoRun};
ghost use Rattle.event_log.specs.Output.{Gains};

use crate::play::report_of;
use drawings::{CallWords, Closes, Look, Picture, PictureFault, calls_of};
use event_log::Output;
use path_text::NoMemory;
use race_core::{ActorPlan, Report};
use scripts::{ACTORS_MAX, RunFault, Scenario, Script, TurnOrder, read_scene};
use std::alloc::Global;
use std::io::Write;
use thiserror::Error;
use tree_list::ListTree;
use tree_model::{Actor, Tree};
use tree_slab::SlabTree;

/// How a picture is written.
#[derive(Clone, Copy, Debug, PartialEq, Eq)]
pub enum Form {
    /// As text that looks so.
    Text(Look),
    /// As SVG (Scalable Vector Graphics 1.1, W3C).
    Svg,
}

/// What is drawn of a run, and how.
#[derive(Clone, Copy, Debug, PartialEq, Eq)]
pub struct Style {
    pub form: Form,
    pub closes: Closes,
}

/// Why nothing was drawn.
#[derive(Clone, Copy, Debug, PartialEq, Eq, Error)]
pub enum DrawFault {
    #[error("{0}")]
    Run(RunFault),
    /// There are more actors than a picture has columns.
    #[error("draw: actors")]
    TooManyActors,
    /// The run has more events, or its picture more lines, than a picture may have.
    #[error("draw: lines")]
    TooManyLines,
}

impl From<RunFault> for DrawFault {
    ghost from_gives = { λ fault told. told ≡ draw_fault.Run fault };

    fn from(fault: RunFault) -> DrawFault {
        DrawFault::Run(fault)
    }
}

impl From<NoMemory> for DrawFault {
    ghost from_gives = { λ _ told. told ≡ draw_fault.Run OutOfMemory };

    fn from(_error: NoMemory) -> DrawFault {
        DrawFault::Run(RunFault::NoMemory)
    }
}

/// How it is told that there is no picture of some actors.
pub fn told_of(fault: PictureFault) -> DrawFault
    ensures { result ≡ told_of fault }
{
    match fault {
        PictureFault::Actors => DrawFault::TooManyActors,
        PictureFault::Lines => DrawFault::TooManyLines,
        PictureFault::NoMemory => DrawFault::Run(RunFault::NoMemory),
    }
}

impl From<PictureFault> for DrawFault {
    ghost from_gives = { λ fault told. told ≡ told_of fault };

    fn from(fault: PictureFault) -> DrawFault {
        told_of(fault)
    }
}

/// Adds a picture in its form.
fn add_picture(
    alloc: Global,
    out: &mut Output,
    picture: &Picture,
    form: Form,
) -> Result<(), NoMemory>
    ensures told { Gains out.old out.new (form_text form picture.now) result }
    ensures well_formed { OnOk result (IsWellFormed form (form_text form picture.now)) }
{
    match form {
        Form::Text(look) => picture.text(alloc, out, look),
        Form::Svg => picture.svg(alloc, out),
    }
}

/// Grants each actor its root, in the order of their numbers. `NoMemory` where room was refused; where a script's
/// checks have passed, no root is refused otherwise.
pub fn grant_roots(alloc: Global, tree: &mut ListTree, plans: &[ActorPlan]) -> Result<(), NoMemory>
    requires { length plans.now ≤ ACTORS_MAX }
    ensures { OnOk result (opened_by (granted tree.old 0 plans.now) ≡ Some tree.new) }
{
    for (actor, plan) in plans.iter().enumerate() {
        match tree.grant(alloc, Actor::new(actor as u32), &plan.root) {
            Ok(_root) => {}
            Err(_) => return Err(NoMemory),
        }
    }
    Ok(())
}

/// Grants the roots on a scenario's tree, from which its steps can be made again, and runs the scenario to its end.
/// Errors: those of `report_of`; `NoMemory`.
pub(crate) fn run_of(
    alloc: Global,
    scenario: Scenario,
    tree: &mut ListTree,
) -> Result<Report<SlabTree>, RunFault>
    requires same { tree.old ≡ scenario.tree }
    requires none { scenario.tree.handles ≡ [] }
    requires playable { IsPlayable (said_by scenario) }
    ensures { MatchResult result
        (λ report. IsRunFrom tree.new (said_by scenario) report.tree report.events.events report.replies.items)
        (IsNoRun (said_by scenario)) }
{
    grant_roots(alloc, tree, &scenario.plans)?;
    let report = report_of(alloc, scenario)?;
    Ok(report)
}

/// The text of a run's picture, from a tree in which its roots are granted. Errors: those of `Picture::of`, as they
/// are told; `NoMemory`.
fn picture_text(
    alloc: Global,
    tree: ListTree,
    calls: &[CallWords],
    came_to: &Report<SlabTree>,
    style: Style,
) -> Result<Output, DrawFault>
    ensures ok { IfOk result (λ text. text ≡ form_text style.form
        (drawn_of style.closes tree calls.now came_to.now.events.events came_to.now.replies.items)) }
    ensures well_formed { IfOk result (IsWellFormed style.form) }
    ensures err { IfErr result (IsUndrawn came_to.now.events.events
        (drawn_of style.closes tree calls.now came_to.now.events.events came_to.now.replies.items)) }
{
    let picture = Picture::of(
        alloc,
        tree,
        calls,
        &came_to.events,
        &came_to.replies,
        style.closes,
    )?;
    let mut text = Output::new(alloc);
    add_picture(alloc, &mut text, &picture, style.form)?;
    Ok(text)
}

/// The drawing of a scenario's run, whose steps are made again on the same tree. Errors: those of `report_of`;
/// `TooManyActors` over the 4 that a picture has; `NoMemory`; `TooManyLines` over 2,000 events or lines.
fn drawing_of(
    alloc: Global,
    scenario: Scenario,
    mut tree: ListTree,
    style: Style,
) -> Result<Output, DrawFault>
    requires same { tree ≡ scenario.tree }
    requires none { scenario.tree.handles ≡ [] }
    requires playable { IsPlayable (said_by scenario) }
    ensures drawn { MatchResult result (IsDrawingOf style (said_by scenario))
        (IsNoDrawing style.closes (said_by scenario)) }
    ensures some { IfOk result (λ text. text ≢ []) }
{
    let calls = calls_of(alloc, &scenario.plans)?;
    let came_to = run_of(alloc, scenario, &mut tree)?;
    picture_text(alloc, tree, &calls, &came_to, style)
}

/// Runs a script's world in this order of turns, and writes a picture of it: a heading with each actor's
/// root and how its calls ended, and a column for each actor, in which its steps stand at their moments, those that
/// close a handle only where they are asked for. As SVG it is well-formed XML, whatever names the script has.
///
/// Errors, in this order: those of `read_scenario`; `BookFull` where the script gives its book fewer lines than it
/// has actors; `TooManyActors` over 4; `TooManyLines` where the run has more than 2,000 events or the picture more
/// than 2,000 lines; `NoMemory`, where room for the world or the picture was refused, in place of any of the last
/// three too; `WriteFailed`. Nothing is written before the picture is whole.
pub fn draw<W: Write>(
    alloc: Global,
    script: &Script,
    writer: &mut W,
    order: &TurnOrder,
    style: Style,
) -> Result<(), DrawFault>
    ensures run { IsDraw style (said_for order.now script.now) (W.contents writer.old)
        (W.contents writer.new) result }
{
    let (scenario, tree) = read_scene(alloc, script, order)?;
    let text = drawing_of(alloc, scenario, tree, style)?;
    match writer.write_all(text.as_slice()) {
        Ok(()) => Ok(()),
        Err(_) => Err(DrawFault::Run(RunFault::WriteFailed)),
    }
}
