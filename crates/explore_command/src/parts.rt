//! Parts written: what `inroot explore --part` writes.
ghost use Rattle.explore_command.specs.ExplorePart.{IsExplorePart};

use crate::gauge::Gauge;
use crate::part::part_of_scene;
use crate::waiter::Waiter;
use explore::Scene;
use explore_parts::{Asked, part_text, sum_of};
use outcome_text::ExploreFault;
use scripts::{RunFault, Script, TurnOrder, read_scene};
use std::alloc::Global;
use std::io::Write;

/// Goes through a script's schedules that begin with the turns that are asked for, and writes what they come to as a
/// line of JSON that `merge_parts` reads, and that ends with its digest.
///
/// Errors as of `explore_script`, but that turns which can't be taken make a part of no schedules.
pub fn explore_part<W: Write, G: Gauge, P: Waiter>(
    alloc: Global,
    script: &Script,
    writer: &mut W,
    asked: &Asked,
    gauge: &G,
    progress: &mut P,
) -> Result<(), ExploreFault>
    ensures { IsExplorePart asked.now script.now (W.contents writer.old) (W.contents writer.new) result }
{
    let (scenario, tree) = read_scene(alloc, script, &TurnOrder::OfScript)?;
    let (plans, lines) = (scenario.plans, scenario.lines);
    if (lines as usize) < plans.len() {
        return Err(ExploreFault::Run(RunFault::BookFull));
    }
    let scene = Scene { tree, plans, lines };
    let explored = part_of_scene(alloc, &scene, asked, gauge, progress);
    progress.over();
    let part = match explored {
        Ok(part) => part,
        Err(fault) => return Err(fault),
    };
    let Ok(digest) = sum_of(alloc, script.bytes()) else {
        return Err(ExploreFault::Run(RunFault::NoMemory));
    };
    let Ok(text) = part_text(alloc, digest.as_bytes(), asked, &part) else {
        return Err(ExploreFault::Run(RunFault::NoMemory));
    };
    match writer.write_all(text.as_slice()) {
        Ok(()) => Ok(()),
        Err(_) => Err(ExploreFault::Run(RunFault::WriteFailed)),
    }
}
