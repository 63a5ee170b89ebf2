//! The names of a directory's entries, in the order of their bytes, a slash before each. For a large directory they
//! are a part: the others' turn comes when the call finds that it isn't empty.
use crate::path::piece;
use crate::walk::O_CLOEXEC;
use dialogue::{Answer, Asked, Question, ask};
use list_directory::{
    Asked as Due, Came, Listing, Outcome, Question as Step, a_part, part_size, take_read,
};
use std::alloc::Global;
use system_calls::errors::{EIO, ENOMEM};
use system_calls::sort_names;

// As if the call held so much already: then a part has 64 kilobytes at most, which are soon made.
const HELD: usize = 4 * 1024 * 1024 - 4 * 65536;

// A part asks so many questions at most.
const QUESTIONS: usize = 4;

fn failed(error: u32) -> Outcome {
    Outcome {
        error,
        ..Outcome::default()
    }
}

/// A directory that is being listed.
#[derive(Drop)]
pub(crate) struct Names {
    listing: Listing,
    // What the questions of the part under way gave.
    outcomes: [Outcome; QUESTIONS],
    count: usize,
    /// What is due, or the end.
    pub came: Due<Came>,
    // Room for the names, and how much of it this directory gets.
    room: Vec<u8>,
    size: usize,
}

impl Names {
    pub(crate) fn new(alloc: Global) -> Names {
        Names {
            listing: Listing::default(),
            outcomes: [Outcome::default(); QUESTIONS],
            count: 0,
            came: Err(Step::Open),
            room: Vec::new(alloc),
            size: 0,
        }
    }

    /// Begins, where the call holds so many bytes of other directories' names. The room is made once, as large as the
    /// first part that the call lists: no later one is larger.
    pub(crate) fn begin(&mut self, held: usize) {
        let (size, length) = (part_size(held.max(HELD)), self.room.len());
        self.size = size;
        self.listing = Listing::default();
        self.count = 0;
        self.came = if length >= size || self.room.resize(size, 0u8).is_ok() {
            Err(Step::Open)
        } else {
            Ok(Came::Failed(ENOMEM))
        };
    }

    /// The system call that is due on a directory; or 0 or an error, and a number.
    pub(crate) fn due<'s>(
        &self,
        answers: &mut &[Answer],
        directory: u32,
        fd: u32,
    ) -> Asked<'s, (u32, u32)> {
        let gave = match self.came {
            Err(Step::Open) => ask(answers, Question::Open(fd, b".", O_CLOEXEC | directory, 0))?,
            Err(Step::Read(dir)) => ask(answers, Question::ReadEntries(dir))?,
            Err(Step::Close(dir)) => ask(answers, Question::Close(dir))?,
            _ => return Ok((0, 0)),
        };
        Ok((gave.error, gave.value))
    }

    // Takes the names of records.
    fn read(&mut self, records: &[u8]) -> Outcome {
        let (used, size) = (self.listing.used, self.size);
        if used > size || size > self.room.len() {
            return failed(EIO);
        }
        let room = self.room.as_mut_slice();
        take_read(records, &mut room[..size], used)
    }

    // Keeps the names in order: 0 or an error.
    fn sort(&self, alloc: Global, used: usize, names: &mut Vec<u8>) -> u32 {
        let unsorted = piece(self.room.as_slice(), 0, used);
        names.clear();
        if names.extend_from_slice(unsorted).is_err() || names.push(0).is_err() {
            return ENOMEM;
        }
        let sorted = sort_names(alloc, unsorted, names.as_mut_slice());
        names.truncate(sorted.length);
        sorted.error as u32
    }

    fn hear(&mut self, outcome: Outcome) {
        let at = self.count;
        if at >= QUESTIONS {
            self.came = Ok(Came::Failed(EIO));
            return;
        }
        self.outcomes[at] = outcome;
        self.count = at + 1;
        let mut outcomes = &self.outcomes[..at + 1];
        self.came = a_part(&mut outcomes, &self.listing);
        if let Ok(Came::Again(listing)) = self.came {
            self.listing = listing;
            self.count = 0;
            let mut outcomes = &self.outcomes[..0];
            self.came = a_part(&mut outcomes, &self.listing);
        }
    }

    /// Takes what that gave: of ReadEntries, what was read last. The names in order come to NAMES.
    pub(crate) fn take(
        &mut self,
        alloc: Global,
        error: u32,
        value: u32,
        read: &[u8],
        names: &mut Vec<u8>,
    ) {
        let outcome = match self.came {
            Err(Step::Read(_)) if error == 0 => self.read(piece(read, 0, value as usize)),
            Err(Step::Sort(used)) => failed(self.sort(alloc, used, names)),
            Ok(_) => return,
            _ => Outcome {
                descriptor: value,
                ..failed(error)
            },
        };
        self.hear(outcome);
    }
}
