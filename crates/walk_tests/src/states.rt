//! A handle's states, each call with values from outside.
use crate::words::{are_printed, closes, let_go, owner, reached_by};
use fixtures::{answer_of, names_of};
use handles::{Reached, Standing};
use path_text::Names;
use std::alloc::Global;
use step_resolver::like_held;
use tree_model::{HandleNo, Kind, Node};

// What opens handle 5 on the directory 11.
const OPENED: &str = "dir 5 11";

// An answer, and whether something is reached by it.
const ANSWERS: [(&str, bool); 7] = [
    (OPENED, true),
    ("text a", false),
    ("names /a", false),
    ("not_below", false),
    ("listed /a", false),
    ("done", false),
    ("refused ENOENT", false),
];

// The names expected, the answer, and whether what was opened then stands, comes back, or stands and goes onward.
const JUDGED: [(&str, &str, &str); 14] = [
    ("/a", "names /a", "stands"),
    ("/a", "names /a/b", "back"),
    ("/a", "names /b", "back"),
    ("/a", "names /", "back"),
    ("/a", "not_below", "back"),
    ("/a", "listed /a", "back"),
    ("/a", "text a", "back"),
    ("/a", OPENED, "back"),
    ("/a", "done", "back"),
    ("/a", "refused ENOENT", "back"),
    ("/", "names /", "stands"),
    ("/", "names /a", "back"),
    ("/", "not_below", "back"),
    ("/a", "names /a", "onward"),
];

fn is_opened(handle: HandleNo, node: Node, kind: Kind) -> bool {
    handle.number() == 5 && node.number() == 11 && kind == Kind::Dir
}

// Whether it is what was opened, the owner's, and its close is that of that handle.
fn is_as_opened(reached: Reached) -> bool {
    let same = is_opened(reached.handle(), reached.node(), reached.kind())
        & (reached.owner() == owner());
    same & closes(reached.into_close(), 5)
}

// The same, standing at those names.
fn stands_as_opened(standing: Standing, names: &Names) -> bool {
    let same = is_opened(standing.handle(), standing.node(), standing.kind())
        & (standing.owner() == owner())
        & standing.names().same(names);
    same & closes(standing.into_close(), 5)
}

// Whether what stands at `/a` prints that, and goes onward as it was opened.
fn goes_onward(alloc: Global, standing: Standing) -> bool {
    are_printed(alloc, standing.names(), b"/a") & is_as_opened(standing.onward())
}

fn reaches(alloc: Global, answer: &str) -> bool {
    match reached_by(alloc, answer) {
        Some(reached) => is_as_opened(reached),
        None => false,
    }
}

// What was opened, judged by that answer to the question whether it stands at these names.
fn judged(alloc: Global, expected: &Names, answer: &str) -> Option<Result<Standing, Reached>> {
    match reached_by(alloc, OPENED) {
        Some(reached) => Some(reached.judge(answer_of(alloc, answer), expected)),
        None => None,
    }
}

// Whether what was opened comes to that by this answer, and tells the same as before.
fn comes_to(alloc: Global, expected: &Names, answer: &str, state: &str) -> bool {
    match judged(alloc, expected, answer) {
        Some(Ok(standing)) if state == "onward" => goes_onward(alloc, standing),
        Some(Ok(standing)) => stands_as_opened(standing, expected) & (state == "stands"),
        Some(Err(reached)) => is_as_opened(reached) & (state == "back"),
        None => false,
    }
}

fn is_judged(alloc: Global, expected: &str, answer: &str, state: &str) -> bool {
    match names_of(alloc, expected) {
        Ok(names) => comes_to(alloc, &names, answer, state),
        Err(_) => false,
    }
}

#[test]
fn reaches_only_what_was_opened(rt: HostRuntime) {
    for (answer, wanted) in ANSWERS {
        assert!(rt; reaches(rt.alloc(), answer) == wanted, "{answer}");
    }
}

#[test]
fn stands_only_at_the_expected_names(rt: HostRuntime) {
    for (expected, answer, state) in JUDGED {
        assert!(rt;
            is_judged(rt.alloc(), expected, answer, state),
            "{expected} {answer}"
        );
    }
}

// What is opened beside `dir 5 11`, and whether it is the same but for its handle.
const BESIDE: [(&str, bool); 3] = [
    ("dir 4 11", true),
    ("dir 5 12", false),
    ("file 5 11", false),
];

// Whether two answers open the same but for its handle. Nothing where one of them opens nothing.
fn is_like(alloc: Global, opened: &str, other: &str) -> Option<bool> {
    let held = reached_by(alloc, opened)?;
    let like = match reached_by(alloc, other) {
        Some(other) => {
            let like = like_held(&held, &other);
            let_go(other);
            Some(like)
        }
        None => None,
    };
    let_go(held);
    like
}

#[test]
fn what_is_held_but_for_its_handle(rt: HostRuntime) {
    for (other, like) in BESIDE {
        assert!(rt; is_like(rt.alloc(), OPENED, other) == Some(like), "{other}");
    }
}
