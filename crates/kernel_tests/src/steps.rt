//! Single steps by answers that Linux gives, each as a dialogue; and how a change ends by what its system call gave.
use crate::rows::{Room, all_go, letters, name_of, number};
use crate::talk::works;
use dialogue::{Answer, Asked, Question};
use linux_steps::{
    Ended, LinkEntry, change_ended, dup_step, is_there, look_error, open_step, parent_step,
    read_link_step,
};
use path_text::{LentBytes, LentName};
use std::alloc::{AllocError, Global};
use system_calls::errors::{EACCES, EINTR, ENOSYS};
use tree_model::{HandleNo, LentStep, Mode, StepOf};

// A step by its words, and what came so far.
#[derive(Clone, Copy)]
struct Step {
    words: &'static str,
    answers: [Answer; 6],
    count: usize,
}

fn renamed(mode: Mode) -> LentStep<'static> {
    StepOf::Rename(
        HandleNo::new(3),
        LentName::of(b"n"),
        HandleNo::new(4),
        LentName::of(b"m"),
        mode,
    )
}

// How a change ends, by its name and the error of its system call.
fn changed(words: &str) -> Option<Ended> {
    let (what, error) = words.split_once(' ')?;
    let (dir, name) = (HandleNo::new(3), LentName::of(b"n"));
    let text = letters(if what == "symlink_4096" {
        "4096"
    } else {
        "4095"
    })?;
    let change = match what {
        "mkdir" => StepOf::MakeDir(dir, name),
        "mknod" | "link" => StepOf::MakeFile(dir, name),
        "unlink" => StepOf::RemoveFile(dir, name),
        "rmdir" => StepOf::RemoveDir(dir, name),
        "rename" => renamed(Mode::Plain),
        "noreplace" => renamed(Mode::NoReplace),
        "exchange" => renamed(Mode::Exchange),
        _ => StepOf::MakeLink(dir, name, LentBytes::of(text)),
    };
    Some(change_ended(&change, what == "link", number(error)?))
}

fn run(words: &str, answers: &[Answer]) -> Asked<'static, Option<Ended>> {
    let mut left = answers;
    let entry = LinkEntry {
        dir: 3,
        name: b"exe",
    };
    let ended = match words {
        "open" => open_step(&mut left, 3, b"f", true)?,
        "dup" => dup_step(&mut left, 3, true)?,
        "parent" => parent_step(&mut left, 3, false)?,
        "link" => read_link_step(&mut left, 7, true, Some(entry))?,
        "no_link" => read_link_step(&mut left, 7, false, Some(entry))?,
        "lone_link" => read_link_step(&mut left, 7, true, None)?,
        change => return Ok(changed(change)),
    };
    Ok(Some(ended))
}

fn letter(holds: bool, letter: &'static str) -> &'static str {
    if holds { letter } else { "" }
}

// Of openat2(2) the directory, the name, and by which flags: O_PATH, O_DIRECTORY, O_NOFOLLOW, RESOLVE_NO_XDEV.
fn asked(alloc: Global, question: Question<'_>) -> Result<String, AllocError> {
    let (fd, name, how) = match question {
        Question::OpenName(fd, name, how) => (fd, name, how),
        Question::OpenSame(fd, how) => (fd, &b"."[..], how),
        Question::OpenAbove(fd, how) => (fd, &b".."[..], how),
        other => return format!(in alloc; "{other:?}"),
    };
    let name = String::from_utf8_lossy(alloc, name)?;
    let (path, directory) = (letter(how.path, "p"), letter(how.directory, "d"));
    let (no_follow, no_xdev) = (letter(how.no_follow, "n"), letter(how.no_xdev, "x"));
    format!(in alloc; "open {fd} {name} {path}{directory}{no_follow}{no_xdev}")
}

// <linux/magic.h>
fn file_system(name: &str) -> Option<u64> {
    Some(match name {
        "ext4" => 0xef53,
        "proc" => 0x9fa0,
        "overlayfs" => 0x794c_7630,
        "cgroup" => 0x0027_e0eb,
        "cgroup2" => 0x6367_7270,
        "resctrl" => 0x0765_5821,
        "btrfs" => 0x9123_683e,
        _ => return None,
    })
}

impl Room for Step {
    fn begun(_: Global, words: &'static str) -> Step {
        Step {
            words,
            answers: [works(); 6],
            count: 0,
        }
    }

    fn due(&self, alloc: Global) -> Result<String, AllocError> {
        let answers = &self.answers[..self.count.min(6)];
        if self.words == "there" {
            return match is_there(&mut &answers[..], 3) {
                Ok(there) => format!(in alloc; "{there:?}"),
                Err(question) => asked(alloc, question),
            };
        }
        match run(self.words, answers) {
            Ok(Some(Ended::Refused(error))) => format!(in alloc; "refused {error}"),
            Ok(Some(Ended::Unmade(error))) => format!(in alloc; "unmade {}", name_of(error)),
            Ok(Some(ended)) => format!(in alloc; "{ended:?}"),
            Ok(None) => format!(in alloc; "no step"),
            Err(question) => asked(alloc, question),
        }
    }

    // A descriptor or a length; how many links; a type of file system; an error.
    fn take(&mut self, gave: &'static str) -> Option<()> {
        let mut answer = Answer {
            mode: 0o100644,
            has_mount: gave != "unnumbered",
            ..works()
        };
        let (word, of) = gave.split_once(' ').unwrap_or((gave, ""));
        match word {
            "is" => answer.value = number(of)?,
            "links" => answer.links = number(of)?,
            "unnumbered" => (),
            "nosymfollow" => answer.flags = 0x2000,
            _ => match file_system(word) {
                Some(system) => answer.file_system = system,
                None => answer.error = number(word)?,
            },
        }
        *self.answers.get_mut(self.count)? = answer;
        self.count += 1;
        Some(())
    }
}

/// A step, its system calls and what each gave, and how the step ends.
const STEPS: &str = "\
# openat2(2): ENOTDIR of what is no directory; statx(2) says what that is, and on which mount
open: open 3 f pdnx = EINTR; open 3 f pdnx = is 7; Opened(7, Dir)
open: open 3 f pdnx = ENOENT; refused ENOENT
open: open 3 f pdnx = ENOTDIR; open 3 f pnx = ENOTDIR; unmade ENOTDIR
open: open 3 f pdnx = ENOTDIR; open 3 f pnx = is 7; Stat(7) = ok; Opened(7, File)
open: open 3 f pdnx = ENOTDIR; open 3 f pnx = is 7; Stat(7) = EIO; Close(7) = ok; unmade EIO
open: open 3 f pdnx = ENOTDIR; open 3 f pnx = is 7; Stat(7) = unnumbered; Close(7) = ok; unmade ENOSYS
# other errors end a step
open: open 3 f pdnx = EMFILE; unmade EMFILE
open: open 3 f pdnx = EXDEV; unmade EXDEV
open: open 3 f pdnx = EACCES; unmade EACCES
dup: open 3 . pdnx = EMFILE; unmade EMFILE
dup: open 3 . pdnx = EXDEV; unmade EXDEV
parent: open 3 .. pdn = EMFILE; unmade EMFILE
parent: open 3 .. pdn = EACCES; unmade EACCES
# a directory is opened once more
dup: open 3 . pdnx = is 7; Opened(7, Dir)
# statx(2): a directory is there by its links
there: Stat(3) = links 2; FileSystem(3) = ext4; Yes
there: Stat(3) = links 0; No
there: Stat(3) = EIO; Fails(5)
there: Stat(3) = links 2; FileSystem(3) = EIO; Unknown
# rmdir(2), getdents64(2): ENOENT of a removed directory, which may keep its links
there: Stat(3) = links 2; FileSystem(3) = overlayfs; open 3 . dn = ENOENT; No
there: Stat(3) = links 2; FileSystem(3) = cgroup; open 3 . dn = ENOENT; No
there: Stat(3) = links 2; FileSystem(3) = cgroup2; open 3 . dn = ENOENT; No
there: Stat(3) = links 2; FileSystem(3) = resctrl; open 3 . dn = EACCES; Unknown
there: Stat(3) = links 2; FileSystem(3) = btrfs; open 3 . dn = is 8; ReadEntries(8) = ok; Close(8) = ok; Yes
there: Stat(3) = links 2; FileSystem(3) = btrfs; open 3 . dn = is 8; ReadEntries(8) = ENOENT; Close(8) = ok; No
there: Stat(3) = links 2; FileSystem(3) = btrfs; open 3 . dn = is 8; ReadEntries(8) = EIO; Close(8) = ok; Unknown
# the directory above is opened, if it is there
parent: open 3 .. pdn = is 7; Stat(3) = links 2; FileSystem(3) = ext4; Opened(7, Dir)
parent: open 3 .. pdn = is 7; Stat(3) = links 2; FileSystem(3) = EIO; Opened(7, Dir)
parent: open 3 .. pdn = is 7; Stat(3) = links 0; Close(7) = ok; refused ENOENT
parent: open 3 .. pdn = is 7; Stat(3) = EIO; Close(7) = ok; unmade EIO
parent: open 3 .. pdn = ENOENT; Stat(3) = links 2; FileSystem(3) = ext4; unmade EAGAIN
parent: open 3 .. pdn = ENOENT; Stat(3) = links 0; refused ENOENT
# readlink(2); mount(8), nosymfollow
link: FileSystem(7) = ext4; FileSystem(7) = ext4; ReadLink(7) = is 4; Text(4)
link: FileSystem(7) = nosymfollow; unmade ELOOP
link: FileSystem(7) = EIO; unmade EIO
link: FileSystem(7) = ext4; FileSystem(7) = ext4; ReadLink(7) = EINVAL; unmade EINVAL
no_link: FileSystem(7) = ext4; FileSystem(7) = ext4; ReadLink(7) = ENOENT; refused EINVAL
no_link: FileSystem(7) = ext4; FileSystem(7) = ext4; ReadLink(7) = EIO; unmade EIO
# openat2(2), RESOLVE_NO_MAGICLINKS: ELOOP; each link that is read is followed
lone_link: FileSystem(7) = proc; FileSystem(7) = proc; unmade ELOOP
link: FileSystem(7) = proc; FileSystem(7) = proc; open 3 exe p = ELOOP; unmade ELOOP
link: FileSystem(7) = proc; FileSystem(7) = proc; open 3 exe p = ENOSYS; unmade ELOOP
link: FileSystem(7) = proc; FileSystem(7) = proc; open 3 exe p = EMFILE; unmade EMFILE
link: FileSystem(7) = proc; FileSystem(7) = proc; open 3 exe p = ENOENT; unmade ENOENT
link: FileSystem(7) = proc; FileSystem(7) = proc; open 3 exe p = EXDEV; ReadLink(7)
link: FileSystem(7) = proc; FileSystem(7) = proc; open 3 exe p = ENOTDIR; ReadLink(7)
link: FileSystem(7) = proc; FileSystem(7) = proc; open 3 exe p = is 9; Close(9)";

#[test]
fn steps_are_dialogues(rt: HostRuntime) -> Result<(), AllocError> {
    all_go::<Step>(&rt, rt.alloc(), STEPS)
}

/// Changes, each with the error of its system call, and how they end.
const CHANGES: &str = "\
mkdir ok, mknod ok, symlink ok, unlink ok, rmdir ok, rename ok, noreplace ok, exchange ok, link ok: Done
# mkdir(2), mknod(2), symlink(2): ENOENT, EEXIST; ENOSPC, EROFS and EINTR aren't of a name
mkdir ENOENT, unlink ENOENT: refused ENOENT
mkdir EEXIST, mknod EEXIST, symlink EEXIST: refused EEXIST
mkdir EINTR: unmade EINTR
mkdir ENAMETOOLONG: unmade ENAMETOOLONG
mknod ENOSPC: unmade ENOSPC
symlink EROFS: unmade EROFS
# unlink(2): EISDIR; rmdir(2): ENOTDIR, ENOTEMPTY, but no EBUSY of a mount
unlink EISDIR: refused EISDIR
unlink ENOTDIR: unmade ENOTDIR
rmdir ENOTDIR: refused ENOTDIR
rmdir ENOTEMPTY: refused ENOTEMPTY
rmdir EBUSY: unmade EBUSY
# renameat2(2): a directory in a file's place, and the other way round; RENAME_NOREPLACE; RENAME_EXCHANGE
rename ENOTDIR: refused ENOTDIR
rename EISDIR: refused EISDIR
rename ENOTEMPTY: refused ENOTEMPTY
rename EEXIST, exchange EEXIST: unmade EEXIST
noreplace EEXIST: refused EEXIST
noreplace ENOTEMPTY: unmade ENOTEMPTY
# symlink(2): ENAMETOOLONG of the text; linkat(2): ENOENT may be the object's
symlink_4096 ENAMETOOLONG: refused ENAMETOOLONG
symlink ENAMETOOLONG: unmade ENAMETOOLONG
link ENOENT: unmade ENOENT
link EEXIST: refused EEXIST";

#[test]
fn changes_end_by_their_error(rt: HostRuntime) -> Result<(), AllocError> {
    all_go::<Step>(&rt, rt.alloc(), CHANGES)
}

// statx(2): its own error; ENOSYS where the kernel doesn't say which object it is.
#[test]
fn looks_have_their_errors(rt: HostRuntime) {
    for (error, has_mount, wanted) in [
        (0, true, 0),
        (0, false, ENOSYS),
        (EACCES, true, EACCES),
        (EACCES, false, EACCES),
        (EINTR, true, EINTR),
    ] {
        let about = Answer {
            has_mount,
            error,
            ..works()
        };
        assert_eq!(&rt; look_error(&about), wanted);
    }
}
