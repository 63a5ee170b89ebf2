//! Which system call comes next as a directory is listed, by answers that the kernel gives.
use crate::records::put_record;
use crate::rows::{Room, all_go, name_of, number, shown};
use list_directory::{Asked, Came, Listing, Outcome, Question, a_part, part_size, take_read};
use std::alloc::{AllocError, Global};

const MIB: usize = 1_048_576;

const DASHES: [u8; 512] = [b'-'; 512];

// A listing with the least part, whose room has 512 bytes; and what came so far in the part under way.
#[derive(Drop)]
struct Directory {
    alloc: Global,
    listing: Listing,
    outcomes: [Outcome; 4],
    count: usize,
    room: [u8; 512],
}

impl Directory {
    fn came(&self) -> Asked<Came> {
        let mut outcomes = &self.outcomes[..self.count.min(4)];
        a_part(&mut outcomes, &self.listing)
    }

    // How many bytes of names there are, as the outcomes tell.
    fn used(&self) -> usize {
        let mut used = self.listing.used;
        for outcome in &self.outcomes {
            used = used.max(outcome.used);
        }
        used
    }

    fn hear(&mut self, outcome: Outcome) -> Option<()> {
        if self.count >= 4 {
            return None;
        }
        self.outcomes[self.count] = outcome;
        self.count += 1;
        if let Ok(Came::Again(listing)) = self.came() {
            self.listing = listing;
            self.count = 0;
        }
        Some(())
    }

    // Takes what a call gave, and the records that it read.
    fn go_on(&mut self, error: u32, records: &[u8]) -> Option<()> {
        let is_read = matches!(self.came(), Err(Question::Read(7)));
        if is_read && error == 0 && self.listing.used <= 512 {
            let outcome = take_read(records, &mut self.room, self.listing.used);
            return self.hear(outcome);
        }
        self.hear(Outcome {
            error,
            descriptor: 7,
            ..Outcome::default()
        })
    }
}

impl Room for Directory {
    fn begun(alloc: Global, _: &'static str) -> Directory {
        Directory {
            alloc,
            listing: Listing::default(),
            outcomes: [Outcome::default(); 4],
            count: 0,
            room: DASHES,
        }
    }

    // With the names that were read, or a dash.
    fn due(&self, alloc: Global) -> Result<String, AllocError> {
        let names = shown(alloc, &self.room, self.used().max(1))?;
        match self.came() {
            Err(Question::Open) => format!(in alloc; "open {names}"),
            Err(Question::Read(_)) => format!(in alloc; "read {names}"),
            Err(Question::Close(_)) => format!(in alloc; "close {names}"),
            Err(Question::Sort(_)) => format!(in alloc; "sort {names}"),
            Ok(Came::Listed(_)) => format!(in alloc; "ends {names}"),
            Ok(Came::Failed(error)) => format!(in alloc; "fails {names} {}", name_of(error)),
            Ok(Came::Again(_)) => format!(in alloc; "again"),
        }
    }

    // An error's name; records of names, of each its letter and how often that comes; or what is no record.
    fn take(&mut self, gave: &'static str) -> Option<()> {
        let (what, names) = gave.split_once(' ').unwrap_or((gave, ""));
        if what != "names" {
            let error = if what == "no" { 0 } else { number(what)? };
            return self.go_on(error, names.as_bytes());
        }
        let mut records = Vec::new(self.alloc);
        for word in names.split(' ') {
            let (letter, count) = word.split_once('*')?;
            let count: u8 = count.parse().ok()?;
            let mut name = [*letter.as_bytes().first()?; 256];
            name[usize::from(count)] = 0;
            let size = u16::from(count) + 20;
            put_record(&mut records, name.get(..usize::from(size - 19))?, size).ok()?;
        }
        self.go_on(0, records.as_slice())
    }

    // No byte behind the names was written.
    fn is_right(&mut self) -> bool {
        self.room.get(self.used()..) == DASHES.get(self.used()..)
    }
}

const LISTINGS: &str = "\
# a directory is opened, read, closed and sorted
open - = ok; read - = names .*1 b*2 .*2; read /bb = names a*1; read /bb/a = ok; close /bb/a = ok; sort /bb/a = ok; \
ends /bb/a
# a name for which there is no room ends the reading
open - = ok; read - = names a*255 b*255; read 512 bytes = names c*1; close 512 bytes
open - = ok; read - = names a*255 b*254 c*1; close 511 bytes
# a directory that is gone has no more names
open - = ok; read - = names a*1; read /a = ENOENT; close /a = ok; sort /a
open - = ENOENT; fails - ENOENT
# any other error closes it and fails; close(2) may fail, too
open - = ok; read - = EACCES; close - = EIO; fails - EACCES
open - = EACCES; fails - EACCES
open - = ok; read - = ok; close - = EIO; sort - = ENOMEM; fails - ENOMEM
# what is no record closes it and fails
open - = ok; read - = no record; close - = ok; fails - EIO
# no descriptor left ends a listing
open - = EMFILE; fails - EMFILE
open - = ENFILE; fails - ENFILE
# a signal has the call made again
open - = EINTR; open - = ok; read - = EINTR; read - = ok; close -";

#[test]
fn a_directory_is_listed(rt: HostRuntime) -> Result<(), AllocError> {
    all_go::<Directory>(&rt, rt.alloc(), LISTINGS)
}

// How many bytes of names a call holds, and how many there may be in a room.
const PARTS: [(usize, usize); 9] = [
    (0, MIB),
    (4, MIB - 1),
    (MIB, 786_432),
    (4 * MIB - 131_072, 32_768),
    (4 * MIB - 131_068, 32_767),
    (4 * MIB - 2_052, 513),
    (4 * MIB - 2_048, 512),
    (4 * MIB, 512),
    (usize::MAX, 512),
];

#[test]
fn each_part_is_a_fourth_of_what_is_left(rt: HostRuntime) -> Result<(), AllocError> {
    for (held, size) in &PARTS {
        assert!(rt; part_size(*held) == *size, "{held}");
    }
    Ok(())
}
