//! Code that asks, as a room: what is due of a call by as many answers.
use crate::openings::X86_64;
use crate::rows::{Room, name_of, number};
use dialogue::{Answer, Asked, Question};
use find_proc::{File, Kept, Known, find, hand_in, has_floor, is_lost, make_private};
use give_entry::{Made, give};
use std::alloc::{AllocError, Global};

/// The file that a kept /proc is.
pub(crate) const FILE: File = File {
    device: 5,
    inode: 1,
    mount: 41,
};

const DONE: Result<(u32, bool), u32> = Ok((0, false));

/// A call by its words, and what came so far.
#[derive(Clone, Copy)]
pub(crate) struct Talk {
    call: &'static str,
    pub known: Known,
    answers: [Answer; 16],
    count: usize,
}

pub(crate) fn works() -> Answer {
    Answer {
        file_system: 0,
        flags: 0,
        device: 0,
        inode: 0,
        mount: 0,
        node: 0,
        value: 0,
        error: 0,
        links: 0,
        mode: 0,
        has_mount: false,
    }
}

// The mode of an object of that kind; or 0.
fn mode_of(kind: &str) -> u16 {
    match kind {
        "directory" => 0o040755,
        "sticky" => 0o042700,
        "fifo" => 0o010600,
        "file" => 0o100640,
        "device" => 0o020600,
        "disk" => 0o060600,
        "link" => 0o120777,
        _ => 0,
    }
}

// An object: inode, mount, kind and device; the kernel may not say the number of the mount.
fn seen(words: &str, has_mount: bool) -> Option<Answer> {
    let mut words = words.split(' ');
    Some(Answer {
        device: 5,
        inode: words.next()?.parse().ok()?,
        mount: words.next()?.parse().ok()?,
        mode: mode_of(words.next().unwrap_or("")),
        node: words.next().unwrap_or("0").parse().ok()?,
        has_mount,
        ..works()
    })
}

fn system(file_system: u64, flags: u64) -> Answer {
    Answer {
        file_system,
        flags,
        ..works()
    }
}

fn answer_of(gave: &str) -> Option<Answer> {
    let (what, rest) = gave.split_once(' ').unwrap_or((gave, ""));
    match what {
        "sees" | "unnumbered" => seen(rest, what == "sees"),
        "is" => Some(Answer {
            value: number(rest)?,
            ..works()
        }),
        "proc" => Some(system(0x9fa0, 0)),
        "proc_without_links" => Some(system(0x9fa0, 0x2000)),
        "ext4" => Some(system(0xef53, 0)),
        error => Some(Answer {
            error: number(error)?,
            ..works()
        }),
    }
}

// What was made: a file or a name of what descriptor 6 is open on, or an entry, and nothing tells which one.
fn made(what: &str) -> Made {
    match what {
        "new_file" => Made::File(6),
        "name" => Made::Name(6),
        kind => Made::Entry(u32::from(mode_of(kind)), 259),
    }
}

// A descriptor, and whether it is the call's own; or 0, and whether it is so.
fn run<'n>(
    call: &str,
    known: &mut Known,
    answers: &[Answer],
) -> Asked<'n, Result<(u32, bool), u32>> {
    let mut left = answers;
    let (what, rest) = call.split_once(' ').unwrap_or((call, ""));
    Ok(match what {
        "floor" => Ok((0, has_floor(&mut left, known)?)),
        "find" => match find(&mut left, known, rest.ends_with("surely"))? {
            Ok(proc) => Ok((proc.fd, proc.own)),
            Err(error) => Err(error),
        },
        "lost" => Ok((0, is_lost(&mut left, known, 9)?)),
        "lost_another" => Ok((0, is_lost(&mut left, known, 10)?)),
        "hand_in" => hand_in(&mut left, known, 7)?.and(DONE),
        "make" => make_private(&mut left, known)?.and(DONE),
        _ => {
            let open = Question::Open(3, b"name", 0o12400000, 0);
            match give(&mut left, open, made(what), b"on/file", b"on/file and more")? {
                Ok(fd) => Ok((fd, false)),
                Err(error) => Err(error),
            }
        }
    })
}

impl Talk {
    /// What is known in the end.
    pub(crate) fn after(&self) -> Known {
        let mut known = self.known;
        let _ = run(self.call, &mut known, &self.answers[..self.count.min(16)]);
        known
    }
}

impl Room for Talk {
    /// A call by its words. `there`: a /proc is kept, which may be handed in; `floor`: the kernel has what is needed.
    fn begun(_: Global, call: &'static str) -> Talk {
        let there = call.contains("there");
        let kept = Kept {
            file: FILE,
            fd: 9,
            there,
            handed_in: call.contains("handed"),
            claimed: there,
        };
        Talk {
            call,
            known: Known {
                kept,
                machine: X86_64,
                has_floor: call.contains("floor"),
            },
            answers: [works(); 16],
            count: 0,
        }
    }

    fn due(&self, alloc: Global) -> Result<String, AllocError> {
        let mut known = self.known;
        match run(self.call, &mut known, &self.answers[..self.count.min(16)]) {
            Ok(Ok((value, flag))) => format!(in alloc; "is {value} {flag}"),
            Ok(Err(error)) => format!(in alloc; "fails {}", name_of(error)),
            Err(_) if known != self.known => format!(in alloc; "another one is known"),
            Err(Question::Open(fd, path, flags, mode)) => {
                let path = String::from_utf8_lossy(alloc, path)?;
                format!(in alloc; "Open({fd}, {path}, {flags:o}, {mode})")
            }
            Err(Question::LookUp(fd, path, flags, resolve)) => {
                let path = String::from_utf8_lossy(alloc, path)?;
                format!(in alloc; "LookUp({fd}, {path}, {flags:o}, {resolve})")
            }
            Err(question) => format!(in alloc; "{question:?}"),
        }
    }

    fn take(&mut self, gave: &'static str) -> Option<()> {
        if self.count >= 16 {
            return None;
        }
        self.answers[self.count] = answer_of(gave)?;
        self.count += 1;
        Some(())
    }

    // No other /proc is kept.
    fn is_right(&mut self) -> bool {
        self.after() == self.known
    }
}
