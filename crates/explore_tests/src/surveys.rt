//! Outcomes told in their order, schedules as words, and properties that no report can have a line for.
use event_log::Output;
use outcome_text::{
    Property, Rule, Told, all_hold, before_tail, first_untold, read_property, schedule_words,
    told_in_order,
};
use path_text::{Bytes, NoMemory};
use scripts::RunFault;
use search_tests::scenes::{MOVED_OUT, scene_of};
use std::alloc::Global;

/// The cuts and the turns of an outcome's least list, and what is printed of it.
type Least = (u64, &'static [u32], &'static str);

/// By the second only the cuts are fewer, by the third only the turns come before.
const LEAST: [Least; 3] = [
    (1, &[1, 0], "reply 0 0 done\n"),
    (0, &[1, 1], "reply 0 0 fault ENOENT\n"),
    (1, &[0, 1], "reply 0 0 fault EAGAIN\n"),
];

fn told_of(alloc: Global, least: &Least) -> Result<Told, NoMemory> {
    let (cuts, turns, block) = least;
    let mut list = Vec::new(alloc);
    list.extend_from_slice(turns)?;
    let mut schedule = Output::new(alloc);
    schedule_words(&mut schedule, turns)?;
    Ok(Told {
        lists: 2,
        cuts: *cuts,
        changes: 1,
        turns: list,
        schedule,
        look: Bytes::from_slice(alloc, block.as_bytes())?,
        same: block.len(),
        rest: Bytes::from_slice(alloc, b"")?,
        lines: Bytes::from_slice(alloc, block.as_bytes())?,
    })
}

fn property_of(alloc: Global, rule: Rule, text: &str) -> Result<Property, NoMemory> {
    let text = Bytes::from_slice(alloc, text.as_bytes())?;
    Ok(Property { rule, text })
}

/// What is told where all outcomes count.
const SURVEY: &str = "schedules 6
states 9
turns 2
outcomes 3
outcome 0 schedules 2 cuts 0 schedule -
reply 0 0 fault ENOENT
outcome 1 schedules 2 cuts 1 schedule -
reply 0 0 fault EAGAIN
outcome 2 schedules 2 cuts 1 schedule 1
reply 0 0 done
never reply 0 0 done = fails 2 cuts 1 schedule 1
";

/// The same where the outcomes that are faults alone count.
const CHOSEN: &str = "schedules 4
states 9
turns 2
outcomes 2
outcome 0 schedules 2 cuts 0 schedule -
reply 0 0 fault ENOENT
outcome 1 schedules 2 cuts 1 schedule -
reply 0 0 fault EAGAIN
when reply 0 0 fault = 4 of 6
never reply 0 0 done = holds
";

/// Where none counts.
const UNMET: &str = "schedules 0
states 9
turns 2
outcomes 0
when reply 0 0 text = 0 of 6
never reply 0 0 done = holds
";

/// Which outcomes count, what is told then, and whether none of them is `done` and there are some.
const SURVEYS: [(Option<&str>, &str, bool); 3] = [
    (None, SURVEY, false),
    (Some("reply 0 0 fault"), CHOSEN, true),
    (Some("reply 0 0 text"), UNMET, false),
];

/// Whether that is told of the outcomes that count.
fn is_surveyed(
    alloc: Global,
    condition: Option<&str>,
    wanted: &str,
    holds: bool,
) -> Result<bool, NoMemory> {
    let mut all = Vec::new(alloc);
    for least in LEAST.iter() {
        all.push(told_of(alloc, least)?)?;
    }
    let mut properties = Vec::new(alloc);
    if let Some(condition) = condition {
        properties.push(property_of(alloc, Rule::When, condition)?)?;
    }
    properties.push(property_of(alloc, Rule::Never, "reply 0 0 done")?)?;
    let survey = told_in_order(alloc, 6, Some(9), 2, all, &properties)?;
    let are_well = all_hold(&survey.outcomes, &properties) == holds && survey.holds == holds;
    let mut text = Vec::new(alloc);
    let is_written = survey.write(&mut text).is_ok();
    Ok(are_well && is_written && text.as_slice() == wanted.as_bytes())
}

#[test]
fn outcomes_that_count_are_told_in_order(rt: HostRuntime) {
    for (condition, wanted, holds) in SURVEYS {
        let is_so = is_surveyed(rt.alloc(), condition, wanted, holds);
        assert!(rt; is_so == Ok(true), "{wanted}");
    }
}

/// Turns, how many of them come before the last rise, and the schedule that leads to them.
const SCHEDULES: [(&[u32], usize, &str); 5] = [
    (&[], 0, "-"),
    (&[0, 0, 1], 0, "-"),
    (&[1, 0, 0, 1], 1, "1"),
    (&[1, 1, 0, 2, 1], 4, "1*2,0,2"),
    (&[2, 2, 2, 1], 3, "2*3"),
];

fn is_schedule(alloc: Global, turns: &[u32], wanted: &str) -> Result<bool, NoMemory> {
    let mut words = Output::new(alloc);
    schedule_words(&mut words, turns)?;
    Ok(words.as_slice() == wanted.as_bytes())
}

#[test]
fn schedules_are_without_their_last_rise(rt: HostRuntime) {
    for (turns, before, wanted) in SCHEDULES {
        let is_so = before_tail(turns) == before
            && is_schedule(rt.alloc(), turns, wanted) == Ok(true);
        assert!(rt; is_so, "{wanted}");
    }
}

/// A text of a property, and whether a report can have such a line, where nothing outside is counted, and where it is.
const TEXTS: [(&str, bool, bool); 9] = [
    ("row", true, true),
    ("held 1", true, true),
    ("held 2", false, false),
    ("reply 0 0 opened", true, true),
    ("reply 0 0 made", false, false),
    ("reply 1 2", true, true),
    ("reply 1 3", false, false),
    ("outside 0", false, true),
    ("outside 2", false, false),
];

/// Whether a report can have a line with that text, where steps outside are counted or aren't.
fn can_have(alloc: Global, text: &str) -> Result<(bool, bool), RunFault> {
    let scene = scene_of(alloc, MOVED_OUT)?;
    let mut one = Vec::new(alloc);
    one.push(property_of(alloc, Rule::Always, text)?)?;
    let untold = first_untold(alloc, false, &scene.plans, &one)?;
    let untold_outside = first_untold(alloc, true, &scene.plans, &one)?;
    Ok((untold.is_none(), untold_outside.is_none()))
}

#[test]
fn lines_that_no_report_has_are_found(rt: HostRuntime) {
    for (text, within, outside) in TEXTS {
        assert!(rt;
            can_have(rt.alloc(), text) == Ok((within, outside)),
            "{text}"
        );
    }
}

/// A text, and whether it is a property's, where nothing outside is counted, and where it is.
const READ: [(&str, bool, bool); 8] = [
    ("row", true, true),
    ("held 2", true, true),
    ("reply 0 0 made", true, true),
    ("outside 0", false, true),
    ("rows 1", false, false),
    ("held ", false, false),
    ("row \t1", false, false),
    ("", false, false),
];

/// Whether a text is read as a property by each rule, with that rule and that text, or by none.
fn is_read(alloc: Global, outside: bool, text: &str, wanted: bool) -> Result<bool, NoMemory> {
    for rule in [Rule::When, Rule::Never, Rule::Always] {
        let is_so = match read_property(alloc, outside, rule, text)? {
            Some(read) => wanted && read.rule == rule && read.text.as_slice() == text.as_bytes(),
            None => !wanted,
        };
        if !is_so {
            return Ok(false);
        }
    }
    Ok(true)
}

#[test]
fn properties_are_read(rt: HostRuntime) {
    for (text, within, outside) in READ {
        let are_so = is_read(rt.alloc(), false, text, within) == Ok(true)
            && is_read(rt.alloc(), true, text, outside) == Ok(true);
        assert!(rt; are_so, "{text}");
    }
}

#[test]
fn rules_are_words(rt: HostRuntime) {
    assert_eq!(rt;
        (Rule::When.word(), Rule::Never.word(), Rule::Always.word()),
        ("when ", "never ", "always ")
    );
}
