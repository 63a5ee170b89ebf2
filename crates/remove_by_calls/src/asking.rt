//! What a removal asks for.
ghost use Rattle.std.specs.Prelude.{◌≡◌};
ghost use Rattle.dialogue.specs.Dialogue.{asking, ran};
ghost use Rattle.remove_by_calls.specs.Removal.{came_to, steps};

use crate::answers::Answer;

/// What is asked for, by the number of a place.
#[derive(Clone, Copy, Debug, PartialEq, Eq)]
pub enum Question {
    /// A call at the root, after a pause of so many nanoseconds.
    AtRoot(u32),
    /// A call in that place.
    InPlace(u8),
    /// The place to which the last call came is kept there.
    Keep(u8),
    /// That place is closed.
    Close(u8),
}

/// What came of the answers; or the question that is due.
pub type Asked<T> = Result<T, Question>;

// Takes the next answer; or the question is due, since it wasn't asked yet.
#[tactic(auto, unfolding(dialogue::specs::Dialogue::ran, dialogue::specs::Dialogue::asking))]
pub(crate) fn ask(answers: &mut &[Answer], question: Question) -> Asked<Answer>
    ensures { came_to result answers.new.now ≡ ran (asking steps question) answers.old.now }
{
    match answers.split_first() {
        Some((answer, rest)) => {
            *answers = rest;
            Ok(*answer)
        }
        None => Err(question),
    }
}
