//! What words of a row say: goals, parts, and what an answer opens.
use fixtures::{answer_of, cut};
use handles::{Owner, Reached};
use path_text::{Names, Part, Parts};
use std::alloc::Global;
use tree_model::{Actor, Step, StepOf};
use walk_plan::Goal;

/// The goal that words name: `deepest`, `nofollow`, or none.
pub fn goal_of(words: &str) -> Goal {
    if words.contains("deepest") {
        Goal::Deepest
    } else if words.contains("nofollow") {
        Goal::NoFollow
    } else {
        Goal::Follow
    }
}

/// A part as it is written.
pub fn text_of<'a>(part: Part<'a>) -> &'a [u8] {
    match part {
        Part::Cur => b".",
        Part::Up => b"..",
        Part::Named(name) => name.bytes(),
    }
}

/// Whether the parts are these words.
pub fn are_parts(parts: &Parts, words: &str) -> bool {
    let mut left = words;
    for at in 0..parts.len() {
        let (word, others) = cut(left);
        if text_of(parts.get(at)) != word.as_bytes() {
            return false;
        }
        left = others;
    }
    left.is_empty()
}

/// Whether the names are printed so.
pub fn are_printed(alloc: Global, names: &Names, path: &[u8]) -> bool {
    match names.print(alloc) {
        Ok(printed) => printed.as_slice() == path,
        Err(_) => false,
    }
}

/// Whose handles are opened.
pub fn owner() -> Owner {
    Owner {
        tag: 7,
        actor: Actor::new(2),
    }
}

/// What the answer that words say opens for that owner.
pub fn reached_by(alloc: Global, words: &str) -> Option<Reached> {
    Reached::of(owner(), &answer_of(alloc, words))
}

/// Whether that step closes the handle of that number.
pub fn closes(step: Step, number: u64) -> bool {
    matches!(step, StepOf::Close(handle) if handle.number() == number)
}

/// Lets go what was opened.
pub fn let_go(reached: Reached) {
    let _ = reached.into_close();
}
