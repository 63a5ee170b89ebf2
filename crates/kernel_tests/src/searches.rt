//! How much of a path is tried next, by what tries before gave.
use crate::rows::{Room, all_go, name_of, number};
use open_partial::{Asked, Came, Outcome, Question, Search, a_try, begin, beginning, trial_of};
use std::alloc::{AllocError, Global};
use system_calls::errors::ENOENT;

#[derive(Drop)]
struct Path {
    text: &'static str,
    search: Search,
    // What this try's questions gave.
    outcomes: [Outcome; 2],
    heard: usize,
    follows: bool,
}

impl Path {
    fn now(&self) -> Asked<Came> {
        let mut left = &self.outcomes[..self.heard.min(2)];
        a_try(&mut left, &self.search)
    }

    // Takes an answer, and begins the next try behind this one's end.
    fn hear(&mut self, error: u32, descriptor: u32) -> Option<()> {
        *self.outcomes.get_mut(self.heard)? = Outcome { error, descriptor };
        self.heard += 1;
        if let Ok(Came::Again(next)) = self.now() {
            self.search = next;
            self.heard = 0;
        }
        Some(())
    }
}

impl Room for Path {
    fn begun(_: Global, words: &'static str) -> Path {
        let (text, link) = words.split_once(' ').unwrap_or(("", ""));
        let search = begin(text.as_bytes());
        let follows = link == "followed";
        Path {
            text,
            search,
            outcomes: [Outcome::default(); 2],
            heard: 0,
            follows,
        }
    }

    // Of a try so many pieces and bytes, the operation, and whether it must be a directory, maybe `.`.
    fn due(&self, alloc: Global) -> Result<String, AllocError> {
        match self.now() {
            Err(Question::Close(fd)) => format!(in alloc; "close {fd}"),
            Ok(Came::Found(there, fd)) => format!(in alloc; "ends {there} {fd}"),
            Ok(Came::Failed(error)) => format!(in alloc; "fails {}", name_of(error)),
            Ok(Came::Again(_)) => format!(in alloc; "again"),
            Err(Question::Try(tried, whole)) => {
                let trial = trial_of(tried, whole, self.text.as_bytes(), self.follows);
                let directory = if trial.directory { " directory" } else { "" };
                let dot = if trial.dot { " dot" } else { "" };
                format!(in alloc; "try {tried} {} {}{directory}{dot}", trial.length, trial.op)
            }
        }
    }

    // A descriptor, or an error's name.
    fn take(&mut self, gave: &'static str) -> Option<()> {
        match gave.split_once(' ') {
            Some((_, descriptor)) => self.hear(0, number(descriptor)?),
            None => self.hear(number(gave)?, 0),
        }
    }
}

/// A path, whose link at the end is followed or not; and a conversation.
const SEARCHES: &str = "\
# the whole path is tried first
/a//b/c/ followed: try 3 8 1 = is 7; ends 3 7
/a//b/c/ followed: try 3 8 1 = EACCES; fails EACCES
# a path of no piece is tried once
 itself: try 0 0 2 = ENOENT; fails ENOENT
// itself: try 0 2 2 = is 7; ends 0 7
# halves are tried up to what is missing
a/b/c/d/e followed: try 5 9 1 = ENOENT; try 2 4 1 directory = is 7; try 3 6 1 directory = is 8; close 7 = ok; \
try 4 8 1 directory = ENOTDIR; ends 3 8
a/b/c/d/e followed: try 5 9 1 = ENOENT; try 2 4 1 directory = is 7; try 3 6 1 directory = is 8; close 7 = ok; \
try 4 8 1 directory = is 9; close 8 = EACCES; ends 4 9
# where nothing is there the beginning is given, and a part is opened as a directory
a/b followed: try 2 3 1 = ENOENT; try 1 2 1 directory = ENOTDIR; try 0 0 1 directory dot = is 7; ends 0 7
a/b itself: try 2 3 2 = ENOENT; try 1 2 1 directory = ENOENT; try 0 0 1 directory dot = ENOENT; fails ENOENT
/a/b followed: try 2 4 1 = ENOENT; try 1 3 1 directory = ENOENT; try 0 1 1 directory
# another error closes what is open
a/b/c/d followed: try 4 7 1 = ENOENT; try 2 4 1 directory = EACCES; fails EACCES
a/b/c/d followed: try 4 7 1 = ENOENT; try 2 4 1 directory = is 7; try 3 6 1 directory = EACCES; close 7 = ok; \
fails EACCES";

#[test]
fn parts_are_tried(rt: HostRuntime) -> Result<(), AllocError> {
    all_go::<Path>(&rt, rt.alloc(), SEARCHES)
}

// How many bytes come before the piece of this number, in turn: with the slashes behind the one before.
const BEGINNINGS: [(&str, &[usize]); 4] = [
    ("//ab/c///d", &[2, 5, 9, 10, 10]),
    ("a/", &[0, 2]),
    ("///", &[3]),
    ("", &[0, 0, 0, 0]),
];

#[test]
fn a_beginning_has_the_slashes_behind_it(rt: HostRuntime) -> Result<(), AllocError> {
    for (text, lengths) in &BEGINNINGS {
        for (pieces, length) in lengths.iter().enumerate() {
            assert!(rt; beginning(text.as_bytes(), pieces) == *length, "{text}");
        }
    }
    assert!(rt; beginning(b"//ab/c///d", usize::MAX) == 10);
    Ok(())
}

// Each try but the last finds something missing: of 2,048 pieces, as a path of 4,095 bytes may have.
#[test]
fn thirteen_tries_are_the_most(rt: HostRuntime) -> Result<(), AllocError> {
    let text = [[b'a', b'/']; 2048];
    let search = begin(text.as_flattened());
    let mut path = Path {
        text: "",
        search,
        outcomes: [Outcome::default(); 2],
        heard: 0,
        follows: false,
    };
    let mut count: u32 = 0;
    for _ in 0..20 {
        if let Err(Question::Try(tried, _)) = path.now() {
            let error = if tried == 0 { 0 } else { ENOENT };
            count = count.wrapping_add(1);
            assert!(rt; path.hear(error, 7).is_some());
        }
    }
    assert!(rt; count == 13 && path.now() == Ok(Came::Found(0, 7)));
    Ok(())
}
