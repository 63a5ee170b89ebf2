//! One call on a pass's path, and what it gave.
ghost use Rattle.std.specs.Prelude.{◌≡◌};
ghost use Rattle.dialogue.specs.Dialogue.{asking, ran, ran_by_of};
ghost use Rattle.open_or_make.specs.Pass.{openings};

/// What is asked for: a call on the path, as the pass has it; or that time passes.
#[derive(Clone, Copy, Debug, PartialEq, Eq)]
pub enum Question {
    /// What is at the path's end is looked for, through links, and opened.
    Find,
    /// A new file is made at the path's end, and opened.
    Create,
    /// The text of the link at the path's end is read.
    ReadLink,
    /// So many nanoseconds pass.
    Wait(u32),
}

/// What a call gave.
#[repr(C)]
#[derive(Clone, Copy, Debug, PartialEq, Eq)]
pub struct Outcome {
    /// So many bytes of the path come before its last name, where it was taken apart; or before what is missing.
    pub rest: u32,
    /// The number of its error (errno(3)), or 0.
    pub error: u32,
    /// If that is 0, the descriptor that it opened.
    pub descriptor: u32,
    /// A directory was found.
    pub directory: bool,
}

/// What came of the outcomes; or the call that is due.
pub type Asked<T> = Result<T, Question>;

// Takes the next outcome; or the call is due, since it wasn't made yet.
#[tactic(auto, unfolding(dialogue::specs::Dialogue::ran, dialogue::specs::Dialogue::asking))]
#[inline(always)]
pub(crate) fn ask(outcomes: &mut &[Outcome], question: Question) -> Asked<Outcome>
    ensures { ran_by_of openings (λ a. a) (λ q. q) result outcomes.new.now
        ≡ ran (asking openings question) outcomes.old.now }
{
    match outcomes.split_first() {
        Some((outcome, rest)) => {
            *outcomes = rest;
            Ok(*outcome)
        }
        None => Err(question),
    }
}
