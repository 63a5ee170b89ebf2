//! Outcomes told in the order of their least lists.
ghost use Rattle.std.specs.Prelude.{◌≡◌, IfOk};
ghost use Rattle.outcome_text.specs.Order.{in_order};
ghost use Rattle.outcome_text.specs.Conditions.{counted, told_text, told_holds};
ghost use Rattle.outcome_text.specs.Framed.{text_of};

use crate::conditions::{condition_lines, counted, lists_counted};
use crate::order::in_order;
use crate::property::Property;
use crate::survey::{Frame, Told, all_hold, frame_of};
use event_log::Output;
use path_text::NoMemory;
use std::alloc::Global;

/// The text of a survey, whether no property fails, and the outcomes that it tells of. The text's blocks are those of
/// the outcomes.
#[derive(Debug, Drop)]
pub struct Survey {
    pub frame: Frame,
    pub holds: bool,
    /// Those that count, in the order of their least lists.
    pub outcomes: Vec<Told>,
}

/// The text of these outcomes, in the order of their least lists, as `outcome_text` tells them, and whether no property
/// fails. Where a property is a condition, only the outcomes that have its line count, and it fails if none does.
/// NoMemory where room was refused.
pub fn told_in_order(
    alloc: Global,
    lists: u64,
    states: Option<u64>,
    longest: u64,
    all: Vec<Told>,
    properties: &[Property],
) -> Result<Survey, NoMemory>
    ensures text { IfOk result (λ survey.
        text_of survey ≡ told_text lists states longest (in_order all.items) properties.now) }
    ensures holds { IfOk result (λ survey. survey.holds ≡ told_holds (in_order all.items) properties.now) }
    ensures outcomes { IfOk result (λ survey. survey.outcomes.items ≡ counted properties.now (in_order all.items)) }
{
    let ordered = in_order(all)?;
    told_ordered(alloc, lists, states, longest, ordered, properties)
}

/// The same of outcomes that are in this order. NoMemory where room was refused.
pub(crate) fn told_ordered(
    alloc: Global,
    lists: u64,
    states: Option<u64>,
    longest: u64,
    ordered: Vec<Told>,
    properties: &[Property],
) -> Result<Survey, NoMemory>
    ensures text { IfOk result (λ survey.
        text_of survey ≡ told_text lists states longest ordered.items properties.now) }
    ensures holds { IfOk result (λ survey. survey.holds ≡ told_holds ordered.items properties.now) }
    ensures outcomes { IfOk result (λ survey. survey.outcomes.items ≡ counted properties.now ordered.items) }
{
    let mut conditions = Output::new(alloc);
    condition_lines(&mut conditions, lists, &ordered, properties)?;
    let schedules = lists_counted(lists, properties, &ordered);
    let all = counted(ordered, properties);
    let frame = frame_of(
        alloc, schedules, states, longest, &all, conditions, properties,
    )?;
    let holds = all_hold(&all, properties);
    Ok(Survey {
        frame,
        holds,
        outcomes: all,
    })
}
