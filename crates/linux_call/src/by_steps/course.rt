//! From a call's beginning to its result: the things that `call_course` asks for.
use crate::by_steps::slots::{ROOT, Slot};
use crate::by_steps::state::{Ended, Part, Stage, Steps};
use crate::by_steps::talk::Talk;
use crate::by_steps::tries::Course;
use crate::by_steps::work::{Work, make};
use crate::path::front;
use crate::request::{
    MKDIR, MKDIR_ALL, MKFILE, READ_TEXT, REMOVE_ALL, RENAME, RESOLVE, RESOLVE_NOFOLLOW, RMDIR,
    SYMLINK, UNLINK,
};
use crate::steps;
use crate::walk::{BENEATH, NO_LINKS, has};
use call_course::{Answer, Thing, take};
use dialogue::{Answer as Gave, Asked, Question, ask};
use find_place::BY_ROOT;
use find_proc::{Known, Proc, find, is_lost};
use linux_steps::{Ended as Made, look_error};
use path_text::{Bytes, Errno, Flags};
use root_ops::{Op, Reply};
use std::alloc::Global;
use system_calls::errors::{EIO, ENOSYS};
use system_calls::kind_of;
use tree_model::Mode;

const DIRECTORY: u8 = 1;

// Lays a text at a room's beginning.
fn lay(text: &[u8], room: &mut [u8]) {
    let laid = front(text, room.len());
    if laid.len() <= room.len() {
        room[..laid.len()].copy_from_slice(laid);
    }
}

fn mode_of(mode: u8) -> Result<Mode, Errno> {
    match mode {
        0 => Ok(Mode::Plain),
        1 => Ok(Mode::NoReplace),
        2 => Ok(Mode::Exchange),
        _ => Err(Errno::Invalid),
    }
}

// A reply's number in `call_course`, a count, how long a text is, and an error.
fn told(reply: &Reply) -> (u8, u64, u64, u32) {
    match reply {
        Reply::Opened(_) => (32, 0, 0, 0),
        Reply::Text(text) => (33, 0, text.as_slice().len() as u64, 0),
        Reply::Done => (34, 0, 0, 0),
        Reply::Count(count) => (35, *count, 0, 0),
        Reply::Fault(error) => (38, 0, 0, error.number() as u32),
        _ => (0, 0, 0, 0),
    }
}

impl Steps {
    // ---- what is due

    // What the proved call opened, out of its handle: the root is opened anew.
    fn take_due<'s>(&'s self, known: &mut Known, answers: &mut &[Gave]) -> Asked<'s, Part> {
        let handle = self.talk.handle();
        let slot = self.attempt.handles.at(handle);
        let taking = take(handle == ROOT, slot.fd.is_some());
        if taking.error != 0 {
            return Ok(Part::Thing(taking.error, 0));
        }
        if !taking.anew {
            return Ok(Part::Thing(0, slot.fd.unwrap_or(0) as u64));
        }
        let work = Work::Dup(self.attempt.handles.fd(handle));
        Ok(match make(answers, known, self.request.flags, work)? {
            Made::Opened(fd, _) => Part::Thing(0, fd as u64),
            Made::Unmade(error) => Part::Thing(error, 0),
            _ => Part::Thing(EIO, 0),
        })
    }

    fn look_at_root<'s>(&'s self, answers: &mut &[Gave]) -> Asked<'s, Part> {
        let about = ask(answers, Question::Stat(self.root))?;
        let kind = kind_of(about.mode as u32);
        Ok(Part::Thing(look_error(&about), kind as u64))
    }

    fn close_due<'s>(&'s self, answers: &mut &[Gave], fd: Option<u32>) -> Asked<'s, Part> {
        if let Some(fd) = fd {
            ask(answers, Question::Close(fd))?;
        }
        Ok(Part::Thing(0, 0))
    }

    fn own_proc(&self) -> Option<u32> {
        match self.attempt.proc {
            Some(proc) if proc.own => Some(proc.fd),
            _ => None,
        }
    }

    /// The system call of the thing that comes next; or what the thing came to.
    pub(crate) fn thing_due<'s>(
        &'s self,
        known: &mut Known,
        answers: &mut &[Gave],
    ) -> Asked<'s, Part> {
        match self.course.next {
            Thing::Begin(pause) => {
                if pause > 0 {
                    ask(answers, Question::Wait(pause))?;
                }
                Ok(Part::Thing(0, 0))
            }
            Thing::Take => self.take_due(known, answers),
            Thing::Close(fd) => self.close_due(answers, Some(fd)),
            Thing::CloseProc => self.close_due(answers, self.own_proc()),
            Thing::LookAtProc => match self.attempt.proc {
                Some(proc) => Ok(Part::Thing(is_lost(answers, known, proc.fd)? as u32, 0)),
                None => Ok(Part::Thing(0, 0)),
            },
            Thing::AnotherProc => Ok(Part::Another(find(answers, known, true)?)),
            Thing::LookAtRoot => self.look_at_root(answers),
            _ => Ok(Part::Thing(0, 0)),
        }
    }

    // ---- what came of it

    // What is known of the try by now.
    fn noted(&self, error: u32, value: u64) -> Answer {
        Answer {
            value,
            error,
            stepped: self.attempt.stepped,
            changed: self.attempt.changed,
            has_proc: self.attempt.proc.is_some(),
            owns_proc: self.attempt.owns_proc(),
            ..Answer::default()
        }
    }

    // No step of the call is to blame for the root's own error.
    fn advance(&mut self, answer: Answer, read: &mut [u8]) -> Option<Ended> {
        if let Some(tried) = self.course.take(self.facts, answer) {
            if tried.is_root {
                self.attempt.step = 0;
            }
            let failed = tried.error != 0;
            return self.run_over(
                if failed {
                    Err(tried.error)
                } else {
                    Ok(tried.value)
                },
                read,
            );
        }
        if self.course.next == Thing::Place {
            self.attempt.step = steps::NAME_BELOW;
            self.begin_to_ask();
        } else {
            self.stage = Stage::Course;
        }
        None
    }

    fn op(&self, alloc: Global) -> Result<Op, Errno> {
        let path = Bytes::from_slice(alloc, self.path())?;
        Ok(match self.request.what {
            RESOLVE => Op::Resolve(path),
            RESOLVE_NOFOLLOW => Op::ResolveNoFollow(path),
            READ_TEXT => Op::ReadLink(path),
            MKFILE => Op::CreateFile(path),
            MKDIR => Op::CreateDir(path),
            SYMLINK => Op::CreateLink(path, Bytes::from_slice(alloc, self.second.as_slice())?),
            UNLINK => Op::RemoveFile(path),
            RMDIR => Op::RemoveDir(path),
            RENAME => {
                let new = Bytes::from_slice(alloc, self.second.as_slice())?;
                Op::Rename(path, new, mode_of(self.rename_mode())?)
            }
            MKDIR_ALL => Op::MkdirAll(path),
            REMOVE_ALL => Op::RemoveAll(path),
            _ => return Err(Errno::Invalid),
        })
    }

    // Begins the proved call. Where there is no memory, that is its reply.
    fn converse(&mut self, alloc: Global) {
        self.attempt.handles.clear();
        self.talk = Talk::failed(alloc, Errno::NoMemory);
        if self.attempt.handles.reserve() {
            let root = Slot::new(Some(self.root), DIRECTORY, BY_ROOT);
            self.attempt.handles.put(root);
            let flags = Flags {
                beneath: has(self.request.flags, BENEATH),
                no_links: has(self.request.flags, NO_LINKS),
            };
            self.talk = match self.op(alloc) {
                Ok(op) => Talk::begin(alloc, op, flags),
                Err(error) => Talk::failed(alloc, error),
            };
        }
        self.tell();
    }

    // The kind of what was opened is known.
    fn taken(&mut self) {
        let handle = self.talk.handle();
        let slot = self.attempt.handles.at(handle);
        self.kind = slot.kind;
        if take(handle == ROOT, slot.fd.is_some()).anew {
            self.attempt.step = steps::DUP;
        }
    }

    /// A thing was done.
    pub(crate) fn thing_done(
        &mut self,
        alloc: Global,
        error: u32,
        value: u64,
        read: &mut [u8],
    ) -> Option<Ended> {
        match self.course.next {
            Thing::Converse => {
                self.converse(alloc);
                return None;
            }
            Thing::Begin(_) => self.attempt.reset(&self.request),
            Thing::Take => self.taken(),
            Thing::LetGo => {
                self.attempt.handles.clear();
                self.attempt.names = Vec::new(alloc);
            }
            _ => (),
        }
        let answer = self.noted(error, value);
        self.advance(answer, read)
    }

    /// The try begins anew by another /proc, if there is one.
    pub(crate) fn another_found(
        &mut self,
        found: Result<Proc, u32>,
        read: &mut [u8],
    ) -> Option<Ended> {
        let error = match found {
            Ok(proc) => {
                self.attempt.reset(&self.request);
                self.attempt.proc = Some(proc);
                0
            }
            Err(error) => error,
        };
        let answer = self.noted(error, 0);
        self.advance(answer, read)
    }

    /// The place of the request's object was asked for.
    pub(crate) fn placed(&mut self, error: u32, length: u64, read: &mut [u8]) -> Option<Ended> {
        let answer = Answer {
            length,
            ..self.noted(error, length)
        };
        self.advance(answer, read)
    }

    /// The proved call has replied.
    pub(crate) fn replied(&mut self, read: &mut [u8]) -> Option<Ended> {
        let (reply, value, length, error) = told(self.talk.reply());
        let made = match self.attempt.made {
            Some(fd) => fd.saturating_add(1),
            None => 0,
        };
        let answer = Answer {
            length,
            unmade: self.attempt.unmade,
            unopened: self.attempt.unopened,
            made,
            reply,
            ..self.noted(error, value)
        };
        self.advance(answer, read)
    }

    /// Nothing is done where the kernel lacks what the library needs.
    pub(crate) fn floor_seen(&mut self, has: bool, read: &mut [u8]) -> Option<Ended> {
        self.course = Course::begin();
        if has {
            self.stage = Stage::Course;
            return None;
        }
        self.attempt.reset(&self.request);
        self.attempt.step = steps::KERNEL;
        self.run_over(Err(ENOSYS), read)
    }

    // ---- the end

    fn run_over(&mut self, outcome: Result<u64, u32>, read: &mut [u8]) -> Option<Ended> {
        let is_removal = self.removing.is_some();
        match outcome {
            Ok(_) if is_removal => self.run_removed(0),
            Err(error) if is_removal => self.run_removed(error),
            Ok(value) => Some(self.ended(value, read)),
            Err(error) => Some(Ended::Fails(error, self.attempt.step)),
        }
    }

    // The kind of what was opened stands above the descriptor, if it is asked for.
    fn ended(&self, value: u64, read: &mut [u8]) -> Ended {
        if self.facts.places {
            lay(self.search.names(), read);
        }
        if let Reply::Text(text) = self.talk.reply() {
            lay(text.as_slice(), read);
        }
        Ended::Value(if self.request.asks_kind {
            self.kind as u64 * 0x1_0000_0000 + (value & 0xffff_ffff)
        } else {
            value
        })
    }
}
