//! Plans, step by step.
use crate::words::{are_parts, are_printed, goal_of, text_of};
use fixtures::{PLAIN, cut, flags_of};
use path_text::{Bytes, Errno, Flags, Name, Part, Path};
use std::alloc::Global;
use walk_plan::Plan;

// A step, its text, and what the plan then shows: the next part, and nothing where no part is left; what that part is,
// as `standing_of` tells it; the links left; and the names passed.
//
// `path`, with the words of its goal and its restrictions, begins another plan; `along` does so, and passes all its
// parts; and `unbegun` tells why none can begin. `pass` passes a part, and `down` another name in its place; `link`
// follows a link with that text, `links` forty of them, and `refused` tells why that can't be done. `named` asks for
// the next name.
type Row<'a> = (&'a str, &'a [u8], &'a [u8], &'a str, u8, &'a [u8]);

const LONG: [u8; 4096] = [b'/'; 4096];

const ROWS: [Row; 57] = [
    // a link to an absolute path
    ("path", b"abs/f", b"abs", "own", 40, b"/"),
    ("link", b"/a/b", b"a", "", 39, b"/"),
    ("pass", b"", b"b", "", 39, b"/a"),
    ("pass", b"", b"f", "own last", 39, b"/a/b"),
    // a link's text comes before the rest
    ("path nofollow", b"a/up/f", b"a", "own", 40, b"/"),
    ("pass", b"", b"up", "own", 40, b"/a"),
    ("link", b"x/../k", b"x", "", 39, b"/a"),
    ("pass", b"", b"..", "", 39, b"/a/x"),
    ("pass", b"", b"k", "", 39, b"/a"),
    ("link", b"y/z", b"y", "", 38, b"/a"),
    ("pass", b"", b"z", "", 38, b"/a/y"),
    ("pass", b"", b"f", "own last", 38, b"/a/y/z"),
    ("link", b"/g", b"g", "last", 37, b"/"),
    ("pass", b"", b"", "", 37, b"/g"),
    // the budget is of the whole path
    ("path", b"k/../k/../k", b"k", "own", 40, b"/"),
    ("link", b"j", b"j", "", 39, b"/"),
    ("link", b"a", b"a", "", 38, b"/"),
    ("pass", b"", b"..", "own", 38, b"/a"),
    ("pass", b"", b"k", "own", 38, b"/"),
    ("link", b"a", b"a", "", 37, b"/"),
    ("pass", b"", b"..", "own", 37, b"/a"),
    ("pass", b"", b"k", "own last", 37, b"/"),
    ("link", b"a", b"a", "last", 36, b"/"),
    ("pass", b"", b"", "", 36, b"/a"),
    // a link upward
    ("path beneath", b"l", b"l", "own last", 40, b"/"),
    ("link", b"../a/b", b"..", "", 39, b"/"),
    // names passed
    ("along", b"a/b/f", b"", "", 40, b"/a/b/f"),
    ("along", b"/a//b/.", b"", "", 40, b"/a/b"),
    ("along", b"../../a", b"", "", 40, b"/a"),
    ("along", b"a/b/../c/", b"", "", 40, b"/a/c"),
    ("along", b"a/..", b"", "", 40, b"/"),
    ("along", b"/", b"", "", 40, b"/"),
    // forty links and no more
    ("path", b"loop/f", b"loop", "own", 40, b"/"),
    ("links", b"loop", b"loop", "", 0, b"/"),
    ("refused ELOOP", b"loop", b"loop", "", 0, b"/"),
    ("refused ELOOP", b"", b"loop", "", 0, b"/"),
    // links that are refused
    ("path", b"l/f", b"l", "own", 40, b"/"),
    ("refused ENOENT", b"", b"l", "own", 40, b"/"),
    ("refused EINVAL", b"a\0", b"l", "own", 40, b"/"),
    ("refused ENAMETOOLONG", &LONG, b"l", "own", 40, b"/"),
    ("path beneath", b"l/f", b"l", "own", 40, b"/"),
    ("refused EXDEV", b"/a", b"l", "own", 40, b"/"),
    ("refused EXDEV", b"/", b"l", "own", 40, b"/"),
    ("refused EINVAL", b"/\0", b"l", "own", 40, b"/"),
    ("refused ENOENT", b"", b"l", "own", 40, b"/"),
    ("refused ENAMETOOLONG", &LONG, b"l", "own", 40, b"/"),
    ("path no_links", b"l/f", b"l", "own", 40, b"/"),
    ("refused ELOOP", b"a", b"l", "own", 40, b"/"),
    ("refused ELOOP", b"", b"l", "own", 40, b"/"),
    // another name is passed
    ("path", b"a/b", b"a", "own", 40, b"/"),
    ("named", b"a", b"a", "own", 40, b"/"),
    ("down", b"c", b"b", "own last", 40, b"/c"),
    // absolute paths
    ("unbegun EXDEV beneath", b"/a", b"b", "own last", 40, b"/c"),
    ("unbegun EXDEV beneath", b"//", b"b", "own last", 40, b"/c"),
    ("path beneath", b"..", b"..", "own last", 40, b"/"),
    ("path", b"/a", b"a", "own last", 40, b"/"),
    ("path no_links", b"/a", b"a", "own last", 40, b"/"),
];

fn plan_of(alloc: Global, text: &[u8], words: &str) -> Result<Plan, Errno> {
    let path = Path::parse(alloc, text)?;
    Plan::new(alloc, path, goal_of(words), flags_of(words))
}

// The next part, and nothing where no part is left.
fn next_text(plan: &Plan) -> &[u8] {
    plan.next().map_or(b"".as_slice(), text_of)
}

// Whether the next part is of the caller's own text, and whether it is the last.
fn standing_of(plan: &Plan) -> &'static str {
    match (plan.is_own(), plan.is_last()) {
        (true, true) => "own last",
        (true, false) => "own",
        (false, true) => "last",
        (false, false) => "",
    }
}

// Where no part is left, no link is followed any more.
fn shows(alloc: Global, plan: &Plan, row: &Row<'_>) -> bool {
    let (_, _, next, standing, links_left, names) = row;
    next_text(plan) == *next
        && standing_of(plan) == *standing
        && plan.links_left() == *links_left
        && are_printed(alloc, plan.names(), names)
        && (plan.next().is_some() || !plan.follows_next_link())
}

// Takes the next part off as a walk does at which every name is a directory. Whether one was left, and not too long.
fn pass(plan: &mut Plan) -> bool {
    match plan.next() {
        Some(Part::Cur) => plan.stayed(),
        Some(Part::Up) if plan.names().is_empty() => plan.stayed(),
        Some(Part::Up) => plan.went_up(),
        Some(Part::Named(name)) if !name.is_too_long() => return plan.entered().is_ok(),
        _ => return false,
    }
    true
}

fn pass_all(plan: &mut Plan) -> bool {
    let mut all = true;
    for _ in 0..5 {
        all = all && (plan.next().is_none() || pass(plan));
    }
    all
}

// What following a link gives, where the next part is a name.
fn follow(alloc: Global, plan: &mut Plan, text: &[u8]) -> Option<Result<bool, Errno>> {
    let text = Bytes::from_slice(alloc, text).ok()?;
    match plan.next() {
        Some(Part::Named(_)) => Some(plan.through(text)),
        _ => None,
    }
}

// Whether a link could be followed, and an absolute text was told as one.
fn followed(alloc: Global, plan: &mut Plan, text: &[u8]) -> bool {
    follow(alloc, plan, text) == Some(Ok(text.first() == Some(&b'/')))
}

fn follow_forty(alloc: Global, plan: &mut Plan, text: &[u8]) -> bool {
    let mut all = true;
    for _ in 0..40 {
        all = all && followed(alloc, plan, text);
    }
    all
}

fn refuses(alloc: Global, plan: &mut Plan, text: &[u8], error: &str) -> bool {
    matches!(follow(alloc, plan, text), Some(Err(told)) if told.name() == error)
}

fn is_named(plan: &Plan, name: &[u8]) -> bool {
    match plan.next() {
        Some(Part::Named(next)) if !next.is_too_long() => plan.next_name().bytes() == name,
        _ => false,
    }
}

// Passes this name in place of the next part. Whether that is a name.
fn go_down(alloc: Global, plan: &mut Plan, name: &[u8]) -> bool {
    match (plan.next(), Name::new(alloc, name)) {
        (Some(Part::Named(_)), Ok(name)) => plan.went_down(name).is_ok(),
        _ => false,
    }
}

// Why the plan can't begin anew with that path. None where it does.
fn begin(alloc: Global, plan: &mut Plan, text: &[u8], words: &str) -> Option<Errno> {
    match plan_of(alloc, text, words) {
        Ok(begun) => {
            *plan = begun;
            None
        }
        Err(error) => Some(error),
    }
}

fn is_unbegun(alloc: Global, plan: &mut Plan, text: &[u8], rest: &str) -> bool {
    let (error, words) = cut(rest);
    matches!(begin(alloc, plan, text, words), Some(told) if told.name() == error)
}

// Makes a row's step. Whether it could be made.
fn step(alloc: Global, plan: &mut Plan, row: &Row<'_>) -> bool {
    let (words, text, _, _, _, _) = row;
    let (verb, rest) = cut(words);
    match verb {
        "path" => begin(alloc, plan, text, rest).is_none(),
        "along" => begin(alloc, plan, text, rest).is_none() && pass_all(plan),
        "unbegun" => is_unbegun(alloc, plan, text, rest),
        "pass" => pass(plan),
        "link" => followed(alloc, plan, text),
        "links" => follow_forty(alloc, plan, text),
        "refused" => refuses(alloc, plan, text, rest),
        "named" => is_named(plan, text),
        "down" => go_down(alloc, plan, text),
        _ => false,
    }
}

// The restrictions of the row's plan, where those of the row before it are these.
fn flags_at(row: &Row<'_>, before: Flags) -> Flags {
    let (words, _, _, _, _, _) = row;
    match cut(words) {
        ("path" | "along", rest) => flags_of(rest),
        _ => before,
    }
}

// The place of the first row that doesn't hold of a plan without restrictions.
fn wrong_row(alloc: Global, plan: &mut Plan, rows: &[Row<'_>]) -> Option<usize> {
    let mut flags = PLAIN;
    for (at, row) in rows.iter().enumerate() {
        flags = flags_at(row, flags);
        if !step(alloc, plan, row) || !shows(alloc, plan, row) || plan.flags() != flags {
            return Some(at);
        }
    }
    None
}

// A path, its goal, whether that follows a last link, and whether the next part's link is followed.
type Last<'a> = (&'a str, &'a str, bool, bool);

const LAST: [Last; 7] = [
    ("l/f", "nofollow", false, true),
    ("l/", "nofollow", false, true),
    ("l", "nofollow", false, false),
    ("l", "", true, true),
    ("l", "deepest", true, true),
    (".", "", true, false),
    ("..", "deepest", true, false),
];

fn follows(alloc: Global, plan: &mut Plan, row: &Last<'_>) -> bool {
    let (text, words, of_goal, of_next) = row;
    let goal = goal_of(words);
    begin(alloc, plan, text.as_bytes(), words).is_none()
        && plan.goal() == goal
        && goal.follows_last_link() == *of_goal
        && plan.follows_next_link() == *of_next
}

fn wrong_last(alloc: Global, plan: &mut Plan, rows: &[Last<'_>]) -> Option<usize> {
    for (at, row) in rows.iter().enumerate() {
        if !follows(alloc, plan, row) {
            return Some(at);
        }
    }
    None
}

// A path, and the text of a link that is followed, or nothing; the same of another plan, with its goal; and what of the
// two is the same, as `same_of` tells it.
type Pair<'a> = (&'a str, &'a str, &'a str, &'a str, &'a str, &'a str);

const PAIRS: [Pair; 7] = [
    ("a/b", "", "a/b", "deepest", "", "own all after"),
    ("a/b", "", "a/b", "nofollow", "", ""),
    ("a/b/", "", "a/b/", "nofollow", "", "own all after"),
    ("a/b", "", "c/b", "", "", "after"),
    ("l/b", "x/y", "l/b", "", "x/z", "own"),
    ("l/b", "x", "l/b", "", "y", "own after"),
    ("x/b", "", "l/b", "", "x", ""),
];

// What of the plans is the same: the own parts to come, all, what comes after the next part.
fn same_of(plan: &Plan, other: &Plan) -> &'static str {
    match (
        plan.same_own(other),
        plan.same_to_come(other),
        plan.same_after_next(other),
    ) {
        (true, true, true) => "own all after",
        (true, false, true) => "own after",
        (true, false, false) => "own",
        (false, false, true) => "after",
        (false, false, false) => "",
        _ => "other",
    }
}

// Whether a plan begins, and a link is followed where it has a text.
fn goes_so(alloc: Global, plan: &mut Plan, text: &str, words: &str, link: &str) -> bool {
    begin(alloc, plan, text.as_bytes(), words).is_none()
        && (link.is_empty() || followed(alloc, plan, link.as_bytes()))
}

fn are_same(alloc: Global, plan: &mut Plan, other: &mut Plan, pair: &Pair<'_>) -> bool {
    let (text, link, others_text, words, others_link, same) = pair;
    goes_so(alloc, plan, text, "", link)
        && goes_so(alloc, other, others_text, words, others_link)
        && same_of(plan, other) == *same
}

fn wrong_pair(
    alloc: Global,
    plan: &mut Plan,
    other: &mut Plan,
    pairs: &[Pair<'_>],
) -> Option<usize> {
    for (at, pair) in pairs.iter().enumerate() {
        if !are_same(alloc, plan, other, pair) {
            return Some(at);
        }
    }
    None
}

// The place of the first wrong row of each table. Two plans serve for all rows, since each function that has one by
// value is dear to prove.
fn wrong_with(alloc: Global, plan: &mut Plan, other: &mut Plan) -> [Option<usize>; 3] {
    [
        wrong_row(alloc, plan, ROWS.as_slice()),
        wrong_last(alloc, plan, LAST.as_slice()),
        wrong_pair(alloc, plan, other, PAIRS.as_slice()),
    ]
}

fn wrong_rows(alloc: Global) -> Result<[Option<usize>; 3], Errno> {
    let mut plan = plan_of(alloc, b"/", "")?;
    let mut other = plan_of(alloc, b"/", "")?;
    Ok(wrong_with(alloc, &mut plan, &mut other))
}

#[test]
fn plans_show_what_is_to_come(rt: HostRuntime) {
    let wrong = wrong_rows(rt.alloc());
    assert!(rt; wrong == Ok([None; 3]), "{wrong:?}");
}

// Whether the parts left are these, where the next one is of the caller's own text.
fn is_rest(plan: Plan, words: &str) -> bool {
    plan.is_own() && are_parts(&plan.rest(), words)
}

// Whether these are left of a path once a link at its first part is followed, and the link's part is passed.
fn leaves(alloc: Global, text: &str, link: &str, words: &str) -> Result<bool, Errno> {
    let mut plan = plan_of(alloc, text.as_bytes(), "deepest")?;
    let passed = followed(alloc, &mut plan, link.as_bytes()) && pass(&mut plan);
    Ok(is_rest(plan, words) && passed)
}

#[test]
fn the_rest(rt: HostRuntime) {
    assert!(rt; leaves(rt.alloc(), "l/n/../m/", "a", "n .. m .") == Ok(true));
}
