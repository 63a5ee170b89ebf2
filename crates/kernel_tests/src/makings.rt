//! Which call comes next as all missing parts of a path are made, by answers that a kernel gives.
use crate::rows::{ROOM, Room, all_go, goes, laid, letters, name_of, number, shown};
use make_through_links::{Asked, Came, Making, Question, begin, pass};
use open_or_make::{Outcome, front_length, joined_length, lay_link, rest_at};
use std::alloc::{AllocError, Global};
use system_calls::errors::EAGAIN;
use system_calls::next_try;

// The outcomes of a pass, with the text that was read last.
#[derive(Drop)]
struct Path {
    making: Making,
    room: [u8; ROOM],
    outcomes: [Outcome; 7],
    heard: usize,
    text: &'static [u8],
}

const WORKS: Outcome = Outcome {
    rest: 0,
    error: 0,
    descriptor: 0,
    directory: false,
};

impl Path {
    // How the pass goes on.
    fn passes<'n>(&'n self) -> Asked<'n, Came> {
        let mut left = self.outcomes.get(..self.heard).unwrap_or(&[]);
        let path = self.room.get(..self.making.length).unwrap_or(&[]);
        pass(&mut left, &self.making, path, self.text)
    }
}

// A path by its text, or how long it is, and its last two bytes.
fn path_shown(alloc: Global, path: &[u8]) -> Result<String, AllocError> {
    let all = shown(alloc, path, path.len())?;
    if path.len() <= 99 {
        return Ok(all);
    }
    let end = String::from_utf8_lossy(alloc, &path[path.len() - 2..])?;
    format!(in alloc; "{all} to {end}")
}

impl Room for Path {
    // What is wanted, and a path: `all` its directories, or a `file`; `no_links` or `no_file_links`, through none;
    // `once`, in one try.
    fn begun(_: Global, words: &'static str) -> Path {
        let (wanted, path) = words.split_once(' ').unwrap_or((words, ""));
        let follows = !wanted.contains("no_");
        Path {
            making: begin(
                path.len(),
                wanted.contains("file"),
                follows,
                wanted != "once",
            ),
            room: laid(path),
            outcomes: [WORKS; 7],
            heard: 0,
            text: b"",
        }
    }

    fn due(&self, alloc: Global) -> Result<String, AllocError> {
        let (word, path) = match self.passes() {
            Ok(Came::Given(fd)) => return format!(in alloc; "gives {fd}"),
            Ok(Came::Failed(error)) => return format!(in alloc; "fails {}", name_of(error)),
            Ok(Came::Fails(error, step)) => {
                return format!(in alloc; "fails {} at {step}", name_of(error));
            }
            Ok(_) => return format!(in alloc; "goes on"),
            Err(Question::Close(fd)) => return format!(in alloc; "close {fd}"),
            Err(Question::Wait(pause)) => return format!(in alloc; "wait {pause}"),
            Err(Question::Find(path)) => ("find", path),
            Err(Question::Split(path)) => ("split", path),
            Err(Question::MakeAbove(path)) => ("above", path),
            Err(Question::Make(path)) => ("make", path),
            Err(Question::Partial(path)) => ("partial", path),
            Err(Question::ReadLink(path)) => ("read", path),
            Err(Question::Create(path)) => ("create", path),
            Err(Question::ReadEnd(path)) => ("end", path),
        };
        let path = path_shown(alloc, path)?;
        match self.making.links {
            0 => format!(in alloc; "{word} {path}"),
            links => format!(in alloc; "{word} {path} by {links}"),
        }
    }

    // An error's name; a link's text, or so many letters; a descriptor, perhaps of a directory; how many bytes come
    // before the name, or are there, up to an open directory. The next pass begins where one has ended.
    fn take(&mut self, gave: &'static str) -> Option<()> {
        let (what, rest) = gave.split_once(' ').unwrap_or((gave, ""));
        let (first, second) = rest.split_once(' ').unwrap_or((rest, "0"));
        let mut outcome = WORKS;
        self.text = b"";
        match what {
            "is" => self.text = rest.as_bytes(),
            "letters" => self.text = letters(rest)?,
            "opens" | "opens_directory" | "partly" => {
                outcome.descriptor = number(first)?;
                outcome.rest = number(second)?;
                outcome.directory = what == "opens_directory";
            }
            "parted" => outcome.rest = number(rest)?,
            error => outcome.error = number(error)?,
        }
        *self.outcomes.get_mut(self.heard)? = outcome;
        self.heard += 1;
        let next = match self.passes() {
            Ok(Came::Led(next, front, at)) => {
                let length = self.making.length;
                lay_link(self.text, front, at, length, &mut self.room);
                next
            }
            Ok(Came::Again(next)) => next,
            _ => return Some(()),
        };
        self.making = next;
        self.heard = 0;
        Some(())
    }
}

const MAKINGS: &str = "\
# one call makes all, or says why not
all a/b: make a/b = opens 5; gives 5
all a/b: make a/b = EACCES; fails EACCES
all a/b: make a/b = ENOENT; partial a/b = EACCES; fails EACCES
no_links a/b: make a/b = ENOENT; fails ENOENT
all : make  = ENOENT; fails ENOENT
# a link to what is missing is followed
all var/run//lock/x: make var/run//lock/x = ENOENT; partial var/run//lock/x = partly 7 4; close 7 = ok; \
read var/run = is /run; make /run/lock/x by 1 = ENOENT; partial /run/lock/x by 1 = partly 9 10; close 9 = ok; \
read /run/lock/x by 1 = is y; make /run/lock/y by 2 = opens 4; gives 4
# a file is found; or what is above it is made, then the file
file a/x/f: find a/x/f = opens 6; gives 6
no_file_links a/x/f: find a/x/f = ENOENT; split a/x/f = parted 4; above a/x/ = ENOENT; fails ENOENT
file a/x/f: find a/x/f = ENOENT; split a/x/f = parted 4; above a/x/ = opens 8; close 8 = ok; \
create a/x/f = opens 9; gives 9
file a/x/f: find a/x/f = ENOENT; split a/x/f = parted 4; above a/x/ = opens 8; close 8 = ok; \
create a/x/f = EACCES; fails EACCES
# a directory is no file, and a path has a last name
file a: find a = opens_directory 6; close 6 = ok; fails EISDIR at 0
file a/: find a/ = ENOENT; split a/ = ENOTDIR; fails ENOTDIR at 0
file : find  = ENOENT; fails ENOENT
# a link at the end is followed, to directories that are missing
file etc/to: find etc/to = ENOENT; split etc/to = parted 4; above etc/ = opens 8; close 8 = ok; \
create etc/to = EEXIST; end etc/to = EACCES; fails EACCES
file etc/to: find etc/to = ENOENT; split etc/to = parted 4; above etc/ = opens 8; close 8 = ok; \
create etc/to = EEXIST; end etc/to = is ../run/stub; find etc/../run/stub by 1 = ENOENT; \
split etc/../run/stub by 1 = parted 11; above etc/../run/ by 1 = ENOENT; partial etc/../run/ by 1 = partly 9 7; \
close 9 = ok; read etc/../run by 1 = is /r; above /r/ by 2 = opens 10; close 10 = ok; create /r/stub by 2
# no link is followed without leave, and each other entry is looked at again
no_file_links l: find l = ENOENT; split l = parted 0; above  = opens 8; close 8 = ok; create l = EEXIST; \
end l = is x; fails ENOENT at 9
file l: find l = ENOENT; split l = parted 0; above  = opens 8; close 8 = ok; create l = EEXIST; end l = EINVAL; find l
file l: find l = ENOENT; split l = parted 0; above  = opens 8; close 8 = ok; create l = EEXIST; end l = ENOENT; find l
# a link without a text leads nowhere
all l: make l = ENOENT; partial l = partly 3 0; close 3 = ok; read l = is; fails ENOENT at 4
all l: make l = ENOENT; partial l = partly 3 0; close 3 = ok; read l = ENOENT; fails ENOENT
# a path has 4,095 bytes
all l: make l = ENOENT; partial l = partly 3 0; close 3 = ok; read l = letters 4096; fails ENAMETOOLONG at 4
all l: make l = ENOENT; partial l = partly 3 0; close 3 = ok; read l = letters 4095; make 4095 bytes to aa by 1
all l/x: make l/x = ENOENT; partial l/x = partly 3 0; close 3 = ok; read l = letters 4094; fails ENAMETOOLONG at 4
all l/x: make l/x = ENOENT; partial l/x = partly 3 0; close 3 = ok; read l = letters 4093; make 4095 bytes to /x by 1
all d/l: make d/l = ENOENT; partial d/l = partly 3 2; close 3 = ok; read d/l = letters 4094; fails ENAMETOOLONG at 4
all d/l: make d/l = ENOENT; partial d/l = partly 3 2; close 3 = ok; read d/l = letters 4093; make 4095 bytes to aa by 1
# what came in between is walked again, and not if one try is all
all d/n: make d/n = ENOENT; partial d/n = partly 3 3; close 3 = ok; make d/n
all d/n: make d/n = ENOENT; partial d/n = partly 3 2; close 3 = ok; read d/n = EINVAL; make d/n
once d: make d = ENOENT; partial d = partly 3 1; close 3 = ok; fails EAGAIN at 8";

#[test]
fn makes_all_that_is_missing(rt: HostRuntime) -> Result<(), AllocError> {
    all_go::<Path>(&rt, rt.alloc(), MAKINGS)
}

#[test]
fn follows_forty_links(rt: HostRuntime) -> Result<(), AllocError> {
    let mut path = Path::begun(rt.alloc(), "all a");
    for _ in 0..40 {
        for gave in ["ENOENT", "partly 3 0", "ok", "is b"] {
            assert!(rt; path.take(gave).is_some());
        }
    }
    let talk =
        "make b by 40 = ENOENT; partial b by 40 = partly 3 0; close 3 = ok; read b by 40 = is c; \
        fails ELOOP at 4";
    goes(&rt, rt.alloc(), &mut path, talk)
}

#[test]
fn gives_up_after_32_tries(rt: HostRuntime) -> Result<(), AllocError> {
    let mut path = Path::begun(rt.alloc(), "file d/n");
    for times in 1..33 {
        for gave in ["ENOENT", "parted 2", "opens 8", "ok", "EEXIST", "ENOENT"] {
            assert!(rt; path.take(gave).is_some());
        }
        let pause = next_try(times, true, EAGAIN, false).pause;
        assert!(rt; times == 32 || path.making.tries == times + 1);
        if times < 32 && pause > 0 {
            let waits = if let Err(Question::Wait(time)) = path.passes() {
                time == pause
            } else {
                false
            };
            assert!(rt; waits && path.take("ok").is_some());
        }
    }
    goes(&rt, rt.alloc(), &mut path, "fails EAGAIN at 8")
}

// A link's text; where it goes on behind its first name; how many of seven bytes come before it; and how long the path
// is of these seven, the text and nothing, or `rest`, behind it.
const TEXTS: [(&str, usize, usize, usize, usize); 5] = [
    ("", 0, 7, 7, 12),
    ("name", 4, 7, 11, 16),
    ("a//b/c", 3, 7, 13, 18),
    ("/a/b", 1, 0, 11, 16),
    ("//", 2, 0, 9, 14),
];

#[test]
fn link_texts_stand_in_paths(rt: HostRuntime) {
    for (text, rest, front, alone, joined) in &TEXTS {
        let text = text.as_bytes();
        assert!(rt; rest_at(text) == *rest && front_length(text, 7) == *front);
        let (bare, all) = (
            joined_length(b"on/the/", text, b""),
            joined_length(b"on/the/", text, b"rest"),
        );
        assert!(rt; bare == *alone && all == *joined, "{bare} {all}");
    }
}
