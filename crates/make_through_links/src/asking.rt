//! One whole call on a part of the path, and what it gave.
ghost use Rattle.std.specs.Prelude.{◌≡◌};
ghost use Rattle.dialogue.specs.Dialogue.{asking, ran, ran_by_of};
ghost use Rattle.make_through_links.specs.Asking.{asked_of, makings};

use open_or_make::Outcome;

/// What is asked for: a call on these bytes of the path; or something beside the path.
#[derive(Clone, Copy, Debug)]
pub enum Question<'n> {
    /// What is at the path's end is looked for, through links: a file is wanted.
    Find(&'n [u8]),
    /// The path's last name is taken apart from the path of its directory.
    Split(&'n [u8]),
    /// The directories above a file are made where they are missing, and the last one is opened.
    MakeAbove(&'n [u8]),
    /// The directories of the path are made where they are missing, and the last one is opened.
    Make(&'n [u8]),
    /// As much of the directories' path as is there is opened.
    Partial(&'n [u8]),
    /// The text of the link is read at which the directories' path leads to what is missing.
    ReadLink(&'n [u8]),
    /// A new file is made, and opened.
    Create(&'n [u8]),
    /// The text of the link is read that stands at the file's name.
    ReadEnd(&'n [u8]),
    /// A descriptor is closed.
    Close(u32),
    /// So many nanoseconds pass.
    Wait(u32),
}

/// What came of the outcomes; or the call that is due.
pub type Asked<'n, T> = Result<T, Question<'n>>;

// Takes the next outcome; or the call is due, since it wasn't made yet.
#[tactic(auto, unfolding(dialogue::specs::Dialogue::ran, dialogue::specs::Dialogue::asking))]
#[inline(always)]
pub(crate) fn ask<'n>(outcomes: &mut &[Outcome], question: Question<'n>) -> Asked<'n, Outcome>
    ensures { ran_by_of makings (λ a. a) asked_of result outcomes.new.now
        ≡ ran (asking makings (asked_of question.entry)) outcomes.old.now }
{
    match outcomes.split_first() {
        Some((outcome, rest)) => {
            *outcomes = rest;
            Ok(*outcome)
        }
        None => Err(question),
    }
}
