//! A call on paths within a call: the kernel walks, or single steps make it.
ghost use Rattle.std.specs.Prelude.{◌≡◌, [], false, true, Ok};
ghost use Rattle.dialogue.specs.Dialogue.{asked_of, ran, ran_by};
ghost use Rattle.kernel_calls.specs.Calls.{EndsNext, IsBare, ended};
ghost use Rattle.kernel_calls.specs.Entry.{closed_by};
ghost use Rattle.kernel_calls.specs.Flags.{has};
ghost use Rattle.linux_call.specs.Whole.{CallDialogue, EXACT, Follows, IsByKernel, IsWalked, at_in, besides, fault_of, is_open, outcome_of, wanted_of};

use crate::by_steps::Ended;
use crate::path::Texts;
use crate::progress::{Progress, Said};
use crate::request::*;
use crate::steps;
use crate::walk::{BENEATH, EXACT, NO_LINKS, NO_RETRY, NO_XDEV, has, path_below};
use dialogue::{Answer, Asked, Question};
use find_proc::{File, Kept, Known, has_floor};
use system_calls::errors::{EBADF, EINVAL, ENOSYS};

// The flags of inroot.h that every call on a path takes.
const ALL_CALLS: u32 = BENEATH | NO_LINKS | NO_RETRY | NO_XDEV | EXACT;

/// What is wrong with flags and root, or 0.
#[inline(always)]
pub(crate) fn fault_of(flags: u32, root: u32) -> u32
    ensures { result ≡ fault_of flags root }
{
    if flags & !ALL_CALLS != 0 {
        EINVAL
    } else if root >= 0x8000_0000 {
        EBADF
    } else {
        0
    }
}

const THERE: u64 = 1;

const HANDED_IN: u64 = 2;

const CLAIMED: u64 = 4;

const HAS_FLOOR: u64 = 8;

fn bit(holds: bool, bit: u64) -> u64 {
    if holds { bit } else { 0 }
}

/// What a call by single steps came to, and what is known by then, as an answer.
pub(crate) fn answer_of(ended: Ended, known: &Known) -> Answer {
    let (value, error, step) = match ended {
        Ended::Value(value) => (value, 0, steps::NONE),
        Ended::Fails(error, step) => (0, error, step),
    };
    let kept = known.kept;
    Answer {
        file_system: value,
        flags: bit(kept.there, THERE)
            | bit(kept.handed_in, HANDED_IN)
            | bit(kept.claimed, CLAIMED)
            | bit(known.has_floor, HAS_FLOOR),
        device: kept.file.device,
        inode: kept.file.inode,
        mount: kept.file.mount,
        node: 0,
        value: kept.fd,
        error,
        links: step as u32,
        mode: 0,
        has_mount: false,
    }
}

fn known_by(answer: &Answer, known: &Known) -> Known {
    let flags = answer.flags;
    Known {
        kept: Kept {
            file: File {
                device: answer.device,
                inode: answer.inode,
                mount: answer.mount,
            },
            fd: answer.value,
            there: flags & THERE != 0,
            handed_in: flags & HANDED_IN != 0,
            claimed: flags & CLAIMED != 0,
        },
        machine: known.machine,
        has_floor: flags & HAS_FLOOR != 0,
    }
}

impl Progress<'_> {
    #[inline(never)]
    fn blame<'n>(&mut self, step: u8) -> Asked<'n, u8>
        ensures { self.new.behind ≡ self.old.behind }
    {
        let has = has_floor(&mut self.answers, &self.known)?;
        Ok(if has { step } else { steps::KERNEL })
    }

    /// If the kernel lacks what the library needs, that is to blame. Of an entry that was made the step stays.
    #[inline(always)]
    pub(crate) fn blamed<'n>(&mut self, reply: Reply<'n>) -> Said<'n>
        ensures reply { is_open (outcome_of reply.entry) ≡ false
            → result ≡ Ok reply.entry }
        ensures rest { self.new.behind ≡ self.old.behind }
    {
        Ok(match reply {
            Reply::Fails(ENOSYS, step, name) if step != steps::GIVE => {
                Reply::Fails(ENOSYS, self.blame(step)?, name)
            }
            other => other,
        })
    }

    #[inline(always)]
    fn by_kernel<'n>(&mut self, asked: &Request, texts: Texts<'n>) -> Said<'n>
        ensures ran { has asked.now.flags EXACT ≡ false → closed_by self.old.behind.closes ≡ [] → (s : CallDialogue)
            → IsByKernel asked.now self.old.known (at_in asked.now texts.entry) (besides texts.entry) self.old.ends s
            → ran_by (λ r. ended self.new.known (closed_by self.new.behind.closes) (outcome_of r)) asked_of
            result self.new.answers.now ≡ ran s self.old.answers.now }
        ensures next { has asked.now.flags EXACT ≡ false → IsBare (wanted_of asked.now)
            → self.old.behind.changes ≡ false → self.new.behind.changes ≡ true → (s : CallDialogue)
            → IsByKernel asked.now self.old.known (at_in asked.now texts.entry) (besides texts.entry) self.old.ends s
            → EndsNext s self.old.answers.now (closed_by self.new.behind.closes) }
    {
        let at = path_below(asked, &texts);
        if has(asked.flags, EXACT) {
            return Ok(Reply::Steps);
        }
        match asked.what {
            RESOLVE | RESOLVE_NOFOLLOW => self.resolve(asked, &at),
            MKDIR_ALL => self.open_all(asked, &at),
            RENAME => self.rename(asked, &at, texts.second),
            MKFILE | MKDIR | SYMLINK | UNLINK | RMDIR => self.change_entry(asked, &at, texts),
            _ => Ok(Reply::Steps),
        }
    }

    /// A call by single steps, which is then told beside.
    #[inline(never)]
    pub(crate) fn by_steps<'n>(&mut self, asked: &Request, texts: Texts<'n>) -> Said<'n>
        ensures { self.new.behind ≡ self.old.behind }
    {
        let second = if asked.what == RENAME {
            texts.second.text()
        } else {
            texts.target
        };
        self.inner = Some(Request {
            known: self.known,
            ..*asked
        });
        let answer = self.ask(Question::BySteps(texts.first.text(), second))?;
        self.known = known_by(&answer, &self.known);
        Ok(if answer.error == 0 {
            Reply::Value(answer.file_system, b"")
        } else {
            Reply::Failed(answer.error, (answer.links % 256) as u8)
        })
    }

    /// Makes a call on paths: by the kernel's walk, or by single steps where the kernel doesn't make it.
    #[inline(never)]
    pub(crate) fn carry_out<'n>(&mut self, asked: &Request, texts: Texts<'n>) -> Said<'n>
        ensures ran { IsWalked asked.now.flags asked.now.root → closed_by self.old.behind.closes ≡ []
            → (s : CallDialogue) → IsByKernel asked.now self.old.known (at_in asked.now texts.entry)
            (besides texts.entry) self.old.ends s
            → Follows (ran s self.old.answers.now) (closed_by self.new.behind.closes) result }
        ensures next { IsWalked asked.now.flags asked.now.root → IsBare (wanted_of asked.now)
            → self.old.behind.changes ≡ false → self.new.behind.changes ≡ true → (s : CallDialogue)
            → IsByKernel asked.now self.old.known (at_in asked.now texts.entry) (besides texts.entry) self.old.ends s
            → EndsNext s self.old.answers.now (closed_by self.new.behind.closes) }
    {
        let fault = fault_of(asked.flags, asked.root);
        if fault != 0 {
            return Ok(refused(fault));
        }
        match self.by_kernel(asked, texts)? {
            Reply::Steps => self.by_steps(asked, texts),
            reply => self.blamed(reply),
        }
    }
}
