//! What a listing asks for, and what that gave.
ghost use Rattle.std.specs.Prelude.{◌≡◌};
ghost use Rattle.dialogue.specs.Dialogue.{asking, ran};
ghost use Rattle.list_directory.specs.Reading.{came_to, listing_of};

/// What is asked for.
#[derive(Clone, Copy, Debug, PartialEq, Eq)]
pub enum Question {
    /// The directory is opened: openat(2) of `.` with O_RDONLY, O_DIRECTORY and O_CLOEXEC.
    Open,
    /// Records are read by this descriptor, getdents64(2), and their names taken by `take_read`.
    Read(u32),
    /// The descriptor is closed.
    Close(u32),
    /// The names in the room are sorted, so many bytes.
    Sort(usize),
}

/// What that gave. What a close gave isn't looked at.
#[derive(Clone, Copy, Debug, Default, PartialEq, Eq)]
pub struct Outcome {
    /// 0, or the number of the error (errno(3)) of the system call, of the records, or of the sort.
    pub error: u32,
    /// Of Open without an error, the descriptor.
    pub descriptor: u32,
    /// Of Read without an error, so many bytes of the room are names now.
    pub used: usize,
    /// Of Read without an error: there were no more records, or no room for the next name.
    pub last: bool,
}

/// What came of the outcomes; or the question that is due.
pub type Asked<T> = Result<T, Question>;

// Takes the next outcome; or the question is due, since it wasn't asked yet.
#[tactic(auto, unfolding(dialogue::specs::Dialogue::ran, dialogue::specs::Dialogue::asking))]
pub(crate) fn ask(outcomes: &mut &[Outcome], question: Question) -> Asked<Outcome>
    ensures { came_to result outcomes.new.now ≡ ran (asking listing_of question) outcomes.old.now }
{
    match outcomes.split_first() {
        Some((outcome, rest)) => {
            *outcomes = rest;
            Ok(*outcome)
        }
        None => Err(question),
    }
}
