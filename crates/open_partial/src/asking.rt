//! What a search asks for, and what that gave.
ghost use Rattle.std.specs.Prelude.{◌≡◌};
ghost use Rattle.dialogue.specs.Dialogue.{asking, ran};
ghost use Rattle.open_partial.specs.Search.{came_to, pieces_of};

/// What is asked for.
#[derive(Clone, Copy, Debug, PartialEq, Eq)]
pub enum Question {
    /// So many of the path's first pieces are opened: the whole path as what it means, or a part as a directory.
    Try(usize, bool),
    /// A descriptor is closed.
    Close(u32),
}

/// What a try gave. What a close gave isn't looked at.
#[derive(Clone, Copy, Debug, Default, PartialEq, Eq)]
pub struct Outcome {
    /// 0, or the number of its error (errno(3)).
    pub error: u32,
    /// If that is 0, the descriptor that it opened.
    pub descriptor: u32,
}

/// What came of the outcomes; or the question that is due.
pub type Asked<T> = Result<T, Question>;

// Takes the next outcome; or the question is due, since it wasn't asked yet.
#[tactic(auto, unfolding(dialogue::specs::Dialogue::ran, dialogue::specs::Dialogue::asking))]
pub(crate) fn ask(outcomes: &mut &[Outcome], question: Question) -> Asked<Outcome>
    ensures { came_to result outcomes.new.now ≡ ran (asking pieces_of question) outcomes.old.now }
{
    match outcomes.split_first() {
        Some((outcome, rest)) => {
            *outcomes = rest;
            Ok(*outcome)
        }
        None => Err(question),
    }
}
