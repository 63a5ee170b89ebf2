//! How often a program asks for a place, and what its answer is.
ghost use Rattle.std.specs.Prelude.{◌≡◌};
ghost use Rattle.find_place.specs.Again.{next_question};

use system_calls::errors::{EAGAIN, ERANGE, EXDEV};

const MOST: u32 = 8;

/// The place is asked for again; or that is the end, by an error or 0.
#[repr(C)]
#[derive(Clone, Copy, Debug, PartialEq, Eq)]
pub struct NextQuestion {
    /// The number of the error (errno(3)); 0 if there is none.
    pub error: u32,
    /// Another question is due.
    pub again: bool,
}

/// What comes after so many questions for a place. The last one gave 0 and the length of the names, or an error
/// (errno(3)). The room for them, and for a NUL, has so many bytes. EAGAIN (11) has it asked again, since others may
/// be moving the object: eight times at most. Takes no memory.
///
/// Errors: EXDEV (18) after so many questions, since the object is then taken to be outside; any other one of the
/// question; ERANGE (34) of a room that is too small.
pub fn next_question(asked: u32, error: u32, length: usize, size: usize) -> NextQuestion
    ensures { result ≡ next_question asked error length size }
{
    let again = error == EAGAIN && asked < MOST;
    let error = if again {
        0
    } else if error == EAGAIN {
        EXDEV
    } else if error == 0 && size <= length {
        ERANGE
    } else {
        error
    };
    NextQuestion { error, again }
}
