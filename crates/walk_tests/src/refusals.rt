//! What an answer that a step doesn't go on with counts as.
use fixtures::answer_of;
use path_text::Errno;
use std::alloc::Global;
use step_resolver::{check_refusal, refusal_of};

/// An answer, the refusal that it is, and why the check of a place fails by it.
const ANSWERS: [(&str, Errno, Errno); 8] = [
    ("dir 5 11", Errno::BadHandle, Errno::BadHandle),
    ("text a", Errno::BadHandle, Errno::BadHandle),
    ("names /a", Errno::BadHandle, Errno::Raced),
    ("not_below", Errno::BadHandle, Errno::Raced),
    ("listed /a", Errno::BadHandle, Errno::BadHandle),
    ("done", Errno::BadHandle, Errno::BadHandle),
    ("refused ENOENT", Errno::NotFound, Errno::NotFound),
    ("refused ENOSPC", Errno::BookFull, Errno::BookFull),
];

fn counts(alloc: Global, row: &(&str, Errno, Errno)) -> bool {
    let (words, refusal, raced) = row;
    let answer = answer_of(alloc, words);
    refusal_of(&answer) == *refusal && check_refusal(&answer) == *raced
}

#[test]
fn answers_count_as_refusals(rt: HostRuntime) {
    for row in &ANSWERS {
        assert!(rt; counts(rt.alloc(), row), "{}", row.0);
    }
}
