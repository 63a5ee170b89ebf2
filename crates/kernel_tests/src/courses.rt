//! Which call comes next as a file is opened, or made where it is missing, by answers that a kernel gives.
use crate::openings::X86_64;
use crate::rows::{ROOM, Room, all_go, goes, laid, letters, name_of, number, shown};
use open_or_make::{
    Asked, Came, Course, Outcome, Question, Request, begin, lay_link, pass, request_of,
};
use std::alloc::{AllocError, Global};
use system_calls::errors::EAGAIN;
use system_calls::{next_try, opening_of};

// The outcomes of a pass, with the text that was read last.
#[derive(Drop)]
struct File {
    course: Course,
    room: [u8; ROOM],
    outcomes: [Outcome; 4],
    heard: usize,
    text: &'static [u8],
}

fn outcome(error: u32) -> Outcome {
    Outcome {
        rest: 0,
        error,
        descriptor: 0,
        directory: false,
    }
}

impl File {
    // How the pass goes on.
    fn passes(&self) -> Asked<Came> {
        let mut left = self.outcomes.get(..self.heard).unwrap_or(&[]);
        let path = self.room.get(..self.course.length).unwrap_or(&[]);
        pass(&mut left, &self.course, path, self.text)
    }
}

impl Room for File {
    // A path, and what is wanted there: `once`, in one try; `no_links`, through none.
    fn begun(_: Global, words: &'static str) -> File {
        let (path, wanted) = words.split_once(' ').unwrap_or((words, ""));
        let (flags, mode) = match wanted {
            "found" => (0, 0),
            "new" => (0o300, 0o600),
            "excl" => (0o200, 0),
            "mode" => (0, 0o600),
            "nofollow" => (0o400100, 0o600),
            _ => (0o100, 0o600),
        };
        let opening = opening_of(&X86_64, flags, mode);
        File {
            course: begin(path.len(), &opening, wanted == "no_links", wanted != "once"),
            room: laid(path),
            outcomes: [outcome(0); 4],
            heard: 0,
            text: b"",
        }
    }

    fn due(&self, alloc: Global) -> Result<String, AllocError> {
        let path = shown(alloc, &self.room, self.course.length)?;
        let word = match self.passes() {
            Ok(Came::Fails(error, step)) => {
                return format!(in alloc; "fails {} at {step} of {path}", name_of(error));
            }
            Err(Question::Wait(pause)) => return format!(in alloc; "wait {pause}"),
            Ok(_) => "ends",
            Err(Question::Find) => "find",
            Err(Question::Create) => "create",
            Err(Question::ReadLink) => "read",
        };
        match self.course.links {
            0 => format!(in alloc; "{word} {path}"),
            links => format!(in alloc; "{word} {path} by {links}"),
        }
    }

    // An error's name; a link's text, or so many letters. The next pass begins where one has ended.
    fn take(&mut self, gave: &'static str) -> Option<()> {
        let (what, rest) = gave.split_once(' ').unwrap_or((gave, ""));
        let (error, text) = match what {
            "is" => (0, rest.as_bytes()),
            "letters" => (0, letters(rest)?),
            error => (number(error)?, &b""[..]),
        };
        *self.outcomes.get_mut(self.heard)? = outcome(error);
        self.heard += 1;
        self.text = text;
        match self.passes() {
            Ok(Came::Led(course, front)) => {
                let length = self.course.length;
                lay_link(text, front, length, length, &mut self.room);
                self.course = course;
                self.heard = 0;
            }
            Ok(Came::Again(course)) => {
                self.course = course;
                self.heard = 0;
            }
            _ => {}
        }
        Some(())
    }
}

const COURSES: &str = "\
# what is there is opened
a: find a = ok; ends a
a: find a = EACCES; ends a
a: find a = EEXIST; ends a
# what is missing is made
a once: find a = ENOENT; create a = ok; ends a
a once: find a = ENOENT; create a = ENOENT; ends a
a once: find a = ENOENT; create a = EEXIST; read a
# links are followed; a name alone has no directory
dir/link: find dir/link = ENOENT; create dir/link = EEXIST; read dir/link = is on/next; \
find dir/on/next by 1 = ENOENT; create dir/on/next by 1 = EEXIST; \
read dir/on/next by 1 = is /f; find /f by 2 = ENOENT; create /f by 2 = EEXIST; \
read /f by 2 = is g; find /g by 3 = ok; ends /g by 3
link: find link = ENOENT; create link = EEXIST; read link = is ab; find ab by 1
# no link is read without leave
a nofollow: find a = ENOENT; create a = EEXIST; find a
a no_links: find a = ENOENT; create a = EEXIST; find a
a: find a = ENOENT; create a = EEXIST; read a
# a path has 4,095 bytes
d/l: find d/l = ENOENT; create d/l = EEXIST; read d/l = letters 4094; fails ENAMETOOLONG at 4 of d/l
d/l: find d/l = ENOENT; create d/l = EEXIST; read d/l = letters 4093; find 4095 bytes by 1
# what came in between is looked at again, and once if one try is all
a: find a = ENOENT; create a = EEXIST; read a = ENOENT; find a
a: find a = ENOENT; create a = EEXIST; read a = EINVAL; find a
a: find a = ENOENT; create a = EEXIST; read a = ok; find a
a: find a = ENOENT; create a = EEXIST; read a = EACCES; ends a
a once: find a = ENOENT; create a = EEXIST; read a = ENOENT; find a = ok; ends a
a once: find a = ENOENT; create a = EEXIST; read a = ENOENT; find a = ENOENT; fails EAGAIN at 9 of a
# one call finds or makes
a found: find a = ENOENT; ends a
a found: find a = ok; ends a
a new: create a = EEXIST; ends a
a new: create a = ok; ends a
# refused flags make no call
a excl: fails EINVAL at 0 of a
a mode: fails EINVAL at 0 of a";

#[test]
fn a_file_is_found_or_made(rt: HostRuntime) -> Result<(), AllocError> {
    all_go::<File>(&rt, rt.alloc(), COURSES)
}

#[test]
fn follows_forty_links(rt: HostRuntime) -> Result<(), AllocError> {
    let mut file = File::begun(rt.alloc(), "a");
    for _ in 0..40 {
        for gave in ["ENOENT", "EEXIST", "is b"] {
            assert!(rt; file.take(gave).is_some());
        }
    }
    let talk =
        "find b by 40 = ENOENT; create b by 40 = EEXIST; read b by 40 = is c; fails ELOOP at 4 of b";
    goes(&rt, rt.alloc(), &mut file, talk)
}

#[test]
fn gives_up_after_32_tries(rt: HostRuntime) -> Result<(), AllocError> {
    let mut file = File::begun(rt.alloc(), "a");
    assert!(rt; file.take("ENOENT").is_some());
    for times in 1..32 {
        for gave in ["EEXIST", "ENOENT", "ENOENT"] {
            assert!(rt; file.take(gave).is_some());
        }
        let pause = next_try(times, true, EAGAIN, false).pause;
        assert!(rt; file.course.between == times);
        if pause > 0 {
            assert!(rt; file.passes() == Err(Question::Wait(pause)) && file.take("ok").is_some());
        }
    }
    let talk = "create a = EEXIST; read a = ENOENT; find a = ENOENT; fails EAGAIN at 9 of a";
    goes(&rt, rt.alloc(), &mut file, talk)
}

// Flags, and a call; of what is asked for the mode's bits, the flags, the operation, and what else is so.
const REQUESTS: [(u32, Question, (u32, u32, u8), &str); 7] = [
    (0, Question::Find, (0, 0, 1), ""),
    (0o400000, Question::Find, (0, 0, 2), ""),
    (0o200000, Question::Find, (0, 0, 1), "directory asks_kind"),
    (0o100, Question::Find, (0, 0, 1), "asks_kind"),
    (0o100, Question::ReadLink, (0, 0, 3), "walks"),
    // O_CREAT, O_EXCL, O_NOCTTY, O_NOFOLLOW, O_CLOEXEC; and O_PATH
    (0o100, Question::Create, (0o640, 0o2400700, 4), "opens"),
    (
        0o10000100,
        Question::Create,
        (0o100640, 0o12400700, 4),
        "gives",
    ),
];

#[test]
fn a_call_is_asked_for_by_the_flags(rt: HostRuntime) -> Result<(), AllocError> {
    for (opened, call, (bits, flags, op), so) in &REQUESTS {
        let mode = if opened & 0o100 == 0 { 0 } else { 0o640 };
        let request = Request {
            bits: *bits,
            flags: *flags,
            op: *op,
            directory: so.contains("directory"),
            asks_kind: so.contains("asks_kind"),
            opens: so.contains("opens"),
            gives: so.contains("gives"),
            walks: so.contains("walks"),
        };
        let asked = request_of(&opening_of(&X86_64, *opened, mode), mode, *call);
        assert!(rt; asked == request, "{asked:?}");
    }
    Ok(())
}
