//! What is asked for, and what answered that.
ghost use Rattle.std.specs.Prelude.{◌≡◌, ◌∷◌, []};
ghost use Rattle.std.specs.Option.{MatchOption};
ghost use Rattle.dialogue.specs.Dialogue.{asking, ran};
ghost use Rattle.find_place.specs.Questions.{asked_of, came_to, questions};

use system_calls::Object;

/// What is asked for.
#[derive(Clone, Copy, Debug)]
pub enum Question<'a> {
    /// The object is looked at: statx(2).
    Look,
    /// The descriptor is copied: fcntl(2) with F_DUPFD_CLOEXEC. A look-up may put its own in the copy's place.
    Copy,
    /// The text of the root's link in /proc (proc(5)).
    RootLink,
    /// The text of the object's link.
    ObjectLink,
    /// What a place's names lead to from the root: openat2(2) with RESOLVE_BENEATH, and statx(2) of this and of the
    /// object.
    LookUp(&'a [u8]),
    /// The text of the object's link, after that.
    LinkAgain,
    /// Whether the directory may have been removed, since that can't be known.
    Dead,
    /// Whether the directory was removed.
    Removed,
    /// The copy is closed.
    Close,
}

/// What a question was answered.
#[derive(Clone, Copy, Debug)]
pub struct Answer<'a> {
    /// To RootLink, ObjectLink and LinkAgain: the text that was read.
    pub text: &'a [u8],
    /// To LookUp: the object that the question is about.
    pub held: Object,
    /// To LookUp: what was found.
    pub found: Object,
    /// To Look: how many names it has.
    pub links: u64,
    /// 0, or the number of an error (errno(3)). To Dead, Removed and Close it isn't looked at.
    pub error: u32,
    /// To Look: it is a directory. To Dead and Removed: yes.
    pub yes: bool,
}

/// What came of the answers; or the question that is due.
pub type Asked<'a, T> = Result<T, Question<'a>>;

// Takes the first one, if there is one.
fn first<'b, A>(answers: &mut &'b [A]) -> Option<&'b A>
    ensures { MatchOption result ((answers.old.now ≡ []) × (answers.new.now ≡ []))
        (λ a. answers.old.now ≡ a.now ∷ answers.new.now) }
{
    match answers.split_first() {
        Some((answer, rest)) => {
            *answers = rest;
            Some(answer)
        }
        None => None,
    }
}

// Takes the next answer; or the question is due, since it wasn't asked yet.
#[tactic(auto, unfolding(dialogue::specs::Dialogue::ran, dialogue::specs::Dialogue::asking))]
pub(crate) fn ask<'a>(answers: &mut &[Answer<'a>], question: Question<'a>) -> Asked<'a, Answer<'a>>
    ensures { came_to (λ a. a) result answers.new.now
        ≡ ran (asking questions (asked_of question.entry)) answers.old.now }
{
    match first(answers) {
        Some(answer) => Ok(*answer),
        None => Err(question),
    }
}
