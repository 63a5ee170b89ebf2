//! Parts of searches: what each tells, and that parts which have all schedules make what the whole search writes.
use explore::{Scene, explore};
use explore_command::{Silent, explore_part, explore_script, part_of_scene, survey_scene};
use explore_parts::{Asked, merge_parts, part_text, read_asked, sum_of};
use outcome_text::{Options, Part, Survey, merge};
use race_core::ACTORS_MAX;
use search_tests::scenes::{
    CARRIED_OUT, MOVED_OUT, REMOVED, THREE_MAKE, TWO_MAKE, TWO_RESOLVE, scene_of, script_of,
};
use std::alloc::Global;

/// The actors that are named, the most cuts, whether steps outside of roots are counted, and the properties by `never`
/// and by `always`.
pub type Question = (
    &'static [&'static str],
    Option<&'static str>,
    bool,
    &'static [&'static str],
    &'static [&'static str],
);

/// What is asked of all schedules, or of those with at most so many cuts.
pub fn all_within(cuts: Option<&'static str>) -> Question {
    (&[], cuts, false, &[], &[])
}

/// A script, what is asked of it, and whether no property fails.
type Case = (&'static str, Question, bool);

#[rattlefmt::skip]
const CASES: [Case; 11] = [
    (REMOVED, (&[], None, false, &["reply 0 0 fault EAGAIN"], &[]), false),
    // without a cut the directory is removed before the resolution or after it
    (REMOVED, (&[], Some("0"), false, &["reply 0 0 fault EAGAIN"], &["reply 1 0 stepped done"]), true),
    // nobody takes a handle from actor 1: its root, and the two that it opens
    (MOVED_OUT, (&["0"], None, false, &[], &["held 1 3"]), true),
    (MOVED_OUT, (&["0"], Some("1"), false, &["reply 0 0 fault EAGAIN"], &["reply 1 2 stepped done"]), false),
    (CARRIED_OUT, (&[], None, true, &[], &["outside 0 0"]), false),
    // nothing is outside of actor 1's root
    (CARRIED_OUT, (&["0"], None, true, &["outside 1 1"], &["outside 1 0"]), true),
    (TWO_MAKE, (&[], None, false, &[], &[]), true),
    (TWO_MAKE, (&["1"], Some("2"), false, &[], &["reply 0 1 opened"]), true),
    (TWO_RESOLVE, (&[], None, false, &["held 0 3"], &["held 0 2"]), true),
    (THREE_MAKE, (&[], None, false, &[], &["reply 2 0 stepped done"]), true),
    (THREE_MAKE, (&["1", "0"], None, false, &[], &["reply 0 0 stepped done"]), false),
];

/// The beginnings of parts, each as a text. With an empty text no beginning is asked for.
type Cover = &'static [&'static str];

/// Parts that have each schedule of three actors once, in no order. Where there are two actors, a beginning with a turn
/// of actor 2 has no schedules.
#[rattlefmt::skip]
const COVERS: [Cover; 5] = [
    &[""],
    &["-"],
    &["2", "0", "1"],
    &["1,2", "0,0", "2,1", "2,2", "1,0", "0,1", "2,0", "0,2", "1,1"],
    &["0,2", "2", "0,0", "1", "0,1"],
];

/// What is asked of the schedules that begin so.
pub fn asked_of(alloc: Global, question: &Question, begin: &'static str) -> Option<Asked> {
    let (actors, cuts, outside, never, always) = question;
    let when: &'static [&'static str] = &[];
    let options = Options {
        actors: *actors,
        cuts: *cuts,
        begin: if begin.is_empty() { None } else { Some(begin) },
        states: None,
        memory: None,
        outside: *outside,
        when,
        never: *never,
        always: *always,
    };
    read_asked(alloc, options).ok()
}

/// Adds a part of what is asked of a script as a line.
pub fn add_part(alloc: Global, lines: &mut Vec<u8>, script: &str, asked: &Asked) -> Option<()> {
    let script = script_of(alloc, script).ok()?;
    explore_part(alloc, &script, lines, asked, &Silent, &mut Silent).ok()
}

/// The parts of a cover as lines, in the cover's order.
fn lines_of(alloc: Global, case: &Case, cover: Cover) -> Option<Vec<u8>> {
    let (script, question, _) = case;
    let mut lines = Vec::new(alloc);
    for begin in cover {
        let asked = asked_of(alloc, question, *begin)?;
        add_part(alloc, &mut lines, script, &asked)?;
    }
    Some(lines)
}

/// What parts make that are lines, and whether no property fails.
pub fn merged(alloc: Global, lines: &[u8]) -> Option<(Vec<u8>, bool)> {
    let mut reader = lines;
    let mut text = Vec::new(alloc);
    let holds = merge_parts(alloc, &mut reader, &mut text).ok()?;
    Some((text, holds))
}

/// What the whole search writes, and whether no property fails.
fn whole(alloc: Global, case: &Case) -> Option<(Vec<u8>, bool)> {
    let (script, question, _) = case;
    let asked = asked_of(alloc, question, "")?;
    let script = script_of(alloc, script).ok()?;
    let mut text = Vec::new(alloc);
    let holds = explore_script(alloc, &script, &mut text, &asked, &Silent, &mut Silent).ok()?;
    Some((text, holds))
}

/// Whether a text is the other one without its line `states`. The other one must have that line.
fn is_without_states(text: &[u8], other: &[u8]) -> Option<bool> {
    let (text, other) = (str::from_utf8(text).ok()?, str::from_utf8(other).ok()?);
    let (before, rest) = other.split_once("\nstates ")?;
    let (_, after) = rest.split_once('\n')?;
    Some(text.strip_prefix(before)?.strip_prefix('\n')? == after)
}

/// Whether the parts of a cover make what the whole search writes, and properties hold as is wanted.
fn makes_whole(alloc: Global, case: &Case, cover: Cover) -> Option<bool> {
    let (_, _, wanted) = case;
    let (written, holds) = whole(alloc, case)?;
    let lines = lines_of(alloc, case, cover)?;
    let (text, hold) = merged(alloc, &lines)?;
    Some(is_without_states(&text, &written)? && holds == *wanted && hold == *wanted)
}

/// The place of the first cover, from 0, whose parts make something else.
fn wrong_cover(alloc: Global, case: &Case) -> Option<usize> {
    for (at, cover) in COVERS.iter().enumerate() {
        if makes_whole(alloc, case, *cover) != Some(true) {
            return Some(at);
        }
    }
    None
}

#[test]
fn parts_make_what_the_whole_search_writes(rt: HostRuntime) {
    for (at, case) in CASES.iter().enumerate() {
        assert_eq!(rt; wrong_cover(rt.alloc(), case), None, "case {at}");
    }
}

/// What is told of a part, where there may be so many actors.
fn part_of(alloc: Global, scene: &Scene, asked: &Asked) -> Option<Part> {
    if scene.plans.len() > ACTORS_MAX {
        return None;
    }
    part_of_scene(alloc, scene, asked, &Silent, &mut Silent).ok()
}

/// What is told of the whole, where there may be so many actors.
fn survey_of(alloc: Global, scene: &Scene, asked: &Asked) -> Option<Survey> {
    if scene.plans.len() > ACTORS_MAX {
        return None;
    }
    survey_scene(alloc, scene, asked, &Silent, &mut Silent).ok()
}

/// A script, the most cuts, and a beginning; who might have each of its turns, up to the first that can't be taken; and
/// the numbers of schedules, of the longest one's turns and of outcomes.
type Row = (
    &'static str,
    Option<&'static str>,
    &'static str,
    &'static [&'static [u32]],
    (u64, u64, usize),
);

const NONE: (u64, u64, usize) = (0, 0, 0);

#[rattlefmt::skip]
const ROWS: [Row; 16] = [
    (REMOVED, None, "", &[], (6, 6, 3)),
    (REMOVED, None, "0", &[&[0, 1]], (5, 6, 2)),
    (REMOVED, None, "1", &[&[0, 1]], (1, 2, 1)),
    (REMOVED, None, "1,0", &[&[0, 1], &[0]], (1, 2, 1)),
    // an actor has nothing left to do, or isn't there
    (REMOVED, None, "1,1", &[&[0, 1], &[0]], NONE),
    (REMOVED, None, "1,0*2", &[&[0, 1], &[0], &[]], NONE),
    (REMOVED, None, "0,1*2,0", &[&[0, 1], &[0, 1], &[0]], NONE),
    (REMOVED, None, "2,0", &[&[0, 1]], NONE),
    // actor 0 is cut
    (REMOVED, Some("0"), "0,1", &[&[0, 1], &[0]], NONE),
    (REMOVED, Some("1"), "0,1", &[&[0, 1], &[0, 1]], (1, 4, 1)),
    // two actors of seven turns each: 13 turns of which 6 are actor 0's, and 12 of which 5 are, or 6
    (MOVED_OUT, None, "0", &[&[0, 1]], (1_716, 14, 3)),
    // with two turns of its own actor 0 has opened what is moved: it is there
    (MOVED_OUT, None, "0*2", &[&[0, 1], &[0, 1]], (792, 14, 2)),
    (MOVED_OUT, None, "1,0", &[&[0, 1], &[0, 1]], (924, 14, 3)),
    (MOVED_OUT, Some("0"), "1*2", &[&[0, 1], &[1]], (3, 14, 2)),
    // two actors of two turns each
    (TWO_RESOLVE, None, "1,0", &[&[0, 1], &[0, 1]], (2, 4, 1)),
    // three actors of one turn each
    (THREE_MAKE, None, "1,0", &[&[0, 1, 2], &[0, 2]], (1, 3, 1)),
];

/// Whether the rows are the same.
fn are_same(rows: &[Vec<u32>], others: &[&[u32]]) -> bool {
    for (row, other) in rows.iter().zip(others.iter()) {
        if row.as_slice() != *other {
            return false;
        }
    }
    rows.len() == others.len()
}

/// Whether a part is written as its line, with its script's digest.
fn is_line(alloc: Global, script: &str, asked: &Asked, part: &Part) -> Option<bool> {
    let digest = sum_of(alloc, script.as_bytes()).ok()?;
    let line = part_text(alloc, digest.as_bytes(), asked, part).ok()?;
    let mut written = Vec::new(alloc);
    add_part(alloc, &mut written, script, asked)?;
    Some(written.as_slice() == line.as_slice())
}

/// Texts and their digests, of FIPS 180-4's examples.
const DIGESTS: [(&str, &str); 2] = [
    (
        "",
        "e3b0c44298fc1c149afbf4c8996fb92427ae41e4649b934ca495991b7852b855",
    ),
    (
        "abc",
        "ba7816bf8f01cfea414140de5dae2223b00361a396177a9cb410ff61f20015ad",
    ),
];

#[test]
fn digests_are_those_of_the_standard(rt: HostRuntime) {
    for (text, wanted) in DIGESTS {
        let is_so = match sum_of(rt.alloc(), text.as_bytes()) {
            Ok(sum) => sum.as_str() == wanted,
            Err(_) => false,
        };
        assert!(rt; is_so, "{text}");
    }
}

/// Whether the part of a row is told as the row wants.
fn is_told(alloc: Global, row: &Row) -> Option<bool> {
    let (script, cuts, begin, might, numbers) = row;
    let scene = scene_of(alloc, script).ok()?;
    let asked = asked_of(alloc, &all_within(*cuts), *begin)?;
    let part = part_of(alloc, &scene, &asked)?;
    let told = (part.lists, part.turns, part.all.len());
    let is_line = is_line(alloc, script, &asked, &part)?;
    Some(are_same(&part.might, might) && told == *numbers && is_line)
}

#[test]
fn parts_tell_who_might_have_turns(rt: HostRuntime) {
    for (at, row) in ROWS.iter().enumerate() {
        assert_eq!(rt; is_told(rt.alloc(), row), Some(true), "row {at}");
    }
}

/// A script, and how the text begins that its parts make.
type Head = (&'static str, &'static str);

const HEADS: [Head; 5] = [
    (REMOVED, "schedules 6\nturns 6\noutcomes 3\n"),
    (MOVED_OUT, "schedules 3432\nturns 14\noutcomes 3\n"),
    (CARRIED_OUT, "schedules 136\nturns 11\noutcomes 3\n"),
    (TWO_RESOLVE, "schedules 6\nturns 4\noutcomes 1\n"),
    // either of the two has the name first, whoever made which node
    (THREE_MAKE, "schedules 6\nturns 3\noutcomes 2\n"),
];

/// The parts of a cover.
fn parts_of(alloc: Global, scene: &Scene, cover: Cover) -> Option<Vec<Part>> {
    let mut parts = Vec::new(alloc);
    for begin in cover {
        let asked = asked_of(alloc, &all_within(None), *begin)?;
        parts.push(part_of(alloc, scene, &asked)?).ok()?;
    }
    Some(parts)
}

/// How many schedules the parts have.
fn all_lists(parts: &[Part]) -> u64 {
    let mut lists: u64 = 0;
    for part in parts {
        lists = lists.saturating_add(part.lists);
    }
    lists
}

/// Whether the parts of a cover have as many schedules as the whole search finds, and make its text.
fn comes_to(alloc: Global, head: &Head, cover: Cover) -> Option<bool> {
    let (script, begins) = head;
    let scene = scene_of(alloc, script).ok()?;
    let asked = asked_of(alloc, &all_within(None), "")?;
    let found = explore(alloc, &scene, &asked.limits, asked.outside, &mut Silent).ok()?;
    let survey = survey_of(alloc, &scene, &asked)?;
    let parts = parts_of(alloc, &scene, cover)?;
    let lists = all_lists(&parts);
    let made = merge(alloc, parts, &asked.properties).ok()?;
    let (mut text, mut whole) = (Vec::new(alloc), Vec::new(alloc));
    made.write(&mut text).ok()?;
    survey.write(&mut whole).ok()?;
    let is_whole = is_without_states(&text, &whole)?;
    Some(is_whole && text.starts_with(begins.as_bytes()) && lists == found.lists)
}

/// The place of the first cover, from 0, whose parts come to something else.
fn wrong_parts(alloc: Global, head: &Head) -> Option<usize> {
    for (at, cover) in COVERS.iter().enumerate() {
        if comes_to(alloc, head, *cover) != Some(true) {
            return Some(at);
        }
    }
    None
}

#[test]
fn parts_have_all_schedules(rt: HostRuntime) {
    for head in &HEADS {
        assert_eq!(rt; wrong_parts(rt.alloc(), head), None, "{}", head.1);
    }
}
