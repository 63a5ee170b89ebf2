//! A page that plays runs.
ghost use Rattle.std.specs.List.{flat_map};
ghost use Rattle.event_log.specs.Output.{Gains};
ghost use Rattle.pages.specs.Page.{beginning, before_runs, before_report, before_picture, after_run, ending, text_part, report_part, picture_part, run_part, page_of};
ghost use Rattle.pages.specs.Shown.{picture_json};

use crate::embedded::{html_text, script_text};
use crate::fixed::{BEGINNING, END, PICTURE, REPORT, RUN_END, RUNS};
use crate::picture::picture_json;
use crate::played::Played;
use event_log::Output;
use path_text::NoMemory;
use std::alloc::Global;

// Adds what a page begins with.
#[tactic(auto, unfolding(crate::specs::Page::beginning))]
fn add_beginning(out: &mut Output) -> Result<(), NoMemory>
    ensures { Gains out.old out.new beginning result }
{
    out.text(BEGINNING)
}

// Adds what stands before the runs.
#[tactic(auto, unfolding(crate::specs::Page::before_runs))]
fn add_before_runs(out: &mut Output) -> Result<(), NoMemory>
    ensures { Gains out.old out.new before_runs result }
{
    out.text(RUNS)
}

// Adds what stands before a report.
#[tactic(auto, unfolding(crate::specs::Page::before_report))]
fn add_before_report(out: &mut Output) -> Result<(), NoMemory>
    ensures { Gains out.old out.new before_report result }
{
    out.text(REPORT)
}

// Adds what stands before a picture.
#[tactic(auto, unfolding(crate::specs::Page::before_picture))]
fn add_before_picture(out: &mut Output) -> Result<(), NoMemory>
    ensures { Gains out.old out.new before_picture result }
{
    out.text(PICTURE)
}

// Adds what stands behind a run.
#[tactic(auto, unfolding(crate::specs::Page::after_run))]
fn add_after_run(out: &mut Output) -> Result<(), NoMemory>
    ensures { Gains out.old out.new after_run result }
{
    out.text(RUN_END)
}

// Adds what a page ends with.
#[tactic(auto, unfolding(crate::specs::Page::ending))]
fn add_ending(out: &mut Output) -> Result<(), NoMemory>
    ensures { Gains out.old out.new ending result }
{
    out.text(END)
}

// Adds the text, up to the runs.
#[tactic(auto, unfolding(crate::specs::Page::text_part))]
fn add_text(out: &mut Output, text: &[u8]) -> Result<(), NoMemory>
    ensures { Gains out.old out.new (text_part text.now) result }
{
    add_beginning(out)?;
    html_text(out, text)?;
    add_before_runs(out)
}

// Adds a report as JSON.
#[tactic(auto, unfolding(crate::specs::Page::report_part))]
fn add_report(out: &mut Output, report: &[u8]) -> Result<(), NoMemory>
    ensures { Gains out.old out.new (report_part report.now) result }
{
    add_before_report(out)?;
    script_text(out, report)
}

// Adds a picture as JSON, and the end of its run.
#[tactic(auto, unfolding(crate::specs::Page::picture_part))]
fn add_picture(out: &mut Output, picture: &[u8]) -> Result<(), NoMemory>
    ensures { Gains out.old out.new (picture_part picture.now) result }
{
    add_before_picture(out)?;
    script_text(out, picture)?;
    add_after_run(out)
}

// Adds a run.
#[tactic(auto, unfolding(crate::specs::Page::run_part))]
fn add_run(alloc: Global, out: &mut Output, run: &Played) -> Result<(), NoMemory>
    ensures { Gains out.old out.new (run_part run.now) result }
{
    let mut shown = Output::new(alloc);
    picture_json(&mut shown, &run.picture)?;
    add_report(out, run.report.as_slice())?;
    add_picture(out, shown.as_slice())
}

// Adds the runs.
fn add_runs(alloc: Global, out: &mut Output, runs: &[Played]) -> Result<(), NoMemory>
    ensures { Gains out.old out.new (flat_map run_part runs.now) result }
{
    for run in runs {
        add_run(alloc, out, run)?;
    }
    Ok(())
}

/// Adds a page: a fixed beginning, a text, which is shown where no script runs, of each run the report as JSON and its
/// picture as JSON, each in an element `script` that holds data, and a fixed end with the script that shows them. The
/// text is the report of the one run, or what is told of an exploration, whose outcomes the runs lead to. The page
/// loads nothing. In the text of HTML `&` and `<` are entities, and in the data each `<` is `\u003c`, so no byte of
/// them begins a tag. NoMemory where room was refused.
#[tactic(auto, unfolding(crate::specs::Page::page_of))]
pub fn runs_page(
    alloc: Global,
    out: &mut Output,
    text: &[u8],
    runs: &[Played],
) -> Result<(), NoMemory>
    ensures { Gains out.old out.new (page_of text.now runs.now) result }
{
    add_text(out, text)?;
    add_runs(alloc, out, runs)?;
    add_ending(out)
}
