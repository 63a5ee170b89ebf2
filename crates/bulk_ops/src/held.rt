//! What is held, once more, for a copy of the call that holds it.
ghost use Rattle.std.specs.Prelude.{◌≡◌};

use handles::Reached;
use tree_model::Answer;

/// The same object by the same handle, made anew of what it shows: for a copy of a call, and so for no one outside of
/// this crate.
pub(crate) fn held_again(held: &Reached) -> Reached
    ensures { result ≡ held.now }
{
    let answer = Answer::Opened {
        handle: held.handle(),
        node: held.node(),
        kind: held.kind(),
    };
    match Reached::of(held.owner(), &answer) {
        Some(again) => again,
        // Something was opened.
        None => unreachable!(),
    }
}

/// The same, where something is held.
pub(crate) fn second_again(held: &Option<Reached>) -> Option<Reached>
    ensures { result ≡ held.now }
{
    match held {
        Some(held) => Some(held_again(held)),
        None => None,
    }
}
