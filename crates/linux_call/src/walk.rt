//! One look-up by the kernel, which walks a path as a whole; and the flags of inroot.h.
ghost use Rattle.std.specs.Prelude.{◌≡◌};
ghost use Rattle.dialogue.specs.Dialogue.{asked_of, ran, ran_by};
ghost use Rattle.kernel_calls.specs.Look.{came_to, look_up};
ghost use Rattle.kernel_calls.specs.Path.{at_of};
ghost use Rattle.linux_call.specs.Whole.{at_in};

use crate::path::Texts;
use crate::progress::{Number, Progress};
use crate::request::{Reply, Request};
use dialogue::Asked;
pub(crate) use kernel_calls::flags::*;
pub(crate) use kernel_calls::{Below, forget, openat2, opened};

pub(crate) const NOFOLLOW: u32 = 4;

pub(crate) const NO_RETRY: u32 = 8;

pub(crate) const FOLLOW: u32 = 16;

pub(crate) const GIVE: u32 = 256;

pub(crate) const DIRECTORY: u32 = 1024;

pub(crate) const EXACT: u32 = 16384;

/// The first path of a request.
#[inline(always)]
pub(crate) fn path_below<'n>(request: &Request, texts: &Texts<'n>) -> Below<'n>
    ensures { at_of result ≡ at_in request.now texts.now }
{
    Below {
        root: request.root,
        flags: request.flags,
        path: texts.first,
        looked: texts.looked,
    }
}

impl Progress<'_> {
    /// What the look-up opens, by flags of open(2); or an error, 0 where the kernel may not walk the path.
    #[inline(always)]
    pub(crate) fn look_up<'n>(&mut self, at: &Below<'n>, how: u32, mode: u32) -> Number<'n>
        ensures { ran_by (λ r. came_to self.new.known r) asked_of result self.new.answers.now
            ≡ ran (look_up self.old.known (at_of at.now) how mode) self.old.answers.now }
    {
        kernel_calls::look_up(&mut self.answers, &mut self.known, at, how, mode)
    }

    /// Opens what a path means by flags of open(2), or says why not.
    #[inline(always)]
    pub(crate) fn walk<'n>(
        &mut self,
        at: &Below<'n>,
        how: u32,
        mode: u32,
    ) -> Asked<'n, Result<u32, Reply<'n>>> {
        let found = kernel_calls::walk(&mut self.answers, &mut self.known, at, how, mode)?;
        Ok(match found {
            Ok(fd) => Ok(fd),
            Err(why) => Err(Reply::of(why, b"")),
        })
    }
}
