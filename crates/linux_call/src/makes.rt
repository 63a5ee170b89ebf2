//! Calls on paths that the kernel walks, as `kernel_calls` makes them; and all directories of a path.
ghost use Rattle.std.specs.Prelude.{◌≡◌, ◌||◌, if◌then◌else◌, [], false, true};
ghost use Rattle.dialogue.specs.Dialogue.{asked_of, ran, ran_by};
ghost use Rattle.kernel_calls.specs.Calls.{EndsNext, IsBare, ended};
ghost use Rattle.kernel_calls.specs.Entry.{EntryAt, IsDivision, closed_by, named_of};
ghost use Rattle.kernel_calls.specs.Path.{at_of};
ghost use Rattle.linux_call.specs.Whole.{Besides, besides, changed_by, opened_by, outcome_of, renamed_by, step_of, takes_slash, wanted_of};

use crate::path::{PathOf, Texts};
use crate::progress::{Number, Progress, Said};
use crate::request::{MKDIR, MKFILE, RESOLVE, RMDIR, Reply, Request, SYMLINK, UNLINK, value};
use crate::steps;
use crate::walk::{Below, O_PATH};
use dialogue::{Asked, Question};
use kernel_calls::{Change, LastName, Wanted, named};
use system_calls::errors::{EEXIST, ENOENT};

// So many directories that are missing one in the other are made by look-ups from the root.
const MISSING_MAX: u32 = 16;

#[inline(always)]
fn step_of(what: u8) -> u8
    ensures { result ≡ step_of what }
{
    match what {
        MKFILE => steps::MAKE_FILE,
        MKDIR => steps::MAKE_DIR,
        SYMLINK => steps::MAKE_LINK,
        UNLINK => steps::REMOVE_FILE,
        _ => steps::REMOVE_DIR,
    }
}

#[inline(always)]
fn wanted_of(request: &Request) -> Wanted
    ensures { result ≡ wanted_of request.now }
{
    Wanted {
        device: request.device,
        flags: request.flags,
        mode: request.mode,
        how: request.how,
        fd: request.fd,
        linked: request.linked,
        opens: request.opens,
        gives: request.gives,
    }
}

/// The name of a directory may end with slashes.
#[inline(always)]
pub(crate) fn takes_slash(what: u8) -> bool
    ensures { result ≡ takes_slash what }
{
    what == MKDIR || what == RMDIR
}

// What was read last, if the call looks at that.
#[inline(always)]
fn text_read<'n>(request: &Request, read: &'n [u8]) -> &'n [u8]
    ensures { result.now ≡ (if request.now.gives || request.now.linked then read.now else []) }
{
    if request.gives || request.linked {
        read
    } else {
        b""
    }
}

// The path of the directory so many levels above; none is the root.
fn levels_above(path: PathOf<'_>, levels: u32) -> Option<Option<PathOf<'_>>> {
    let mut here = Some(path);
    for _ in 0..levels {
        here = named(here?, true)?.above;
    }
    Some(here)
}

impl Progress<'_> {
    #[tactic(auto, using(dialogue::proofs::TalkLemmas::ran_then, dialogue::proofs::TalkLemmas::ran_ends))]
    #[inline(always)]
    pub(crate) fn resolve<'n>(&mut self, request: &Request, at: &Below<'n>) -> Said<'n>
        ensures ran { ran_by (λ r. ended self.new.known [] (outcome_of r)) asked_of result self.new.answers.now
            ≡ ran (opened_by request.now self.old.known (at_of at.now)) self.old.answers.now }
        ensures rest { (self.new.behind ≡ self.old.behind) × (self.new.ends ≡ self.old.ends) }
    {
        let (answers, known) = (&mut self.answers, &mut self.known);
        let follows = request.what == RESOLVE;
        let asks = request.asks_kind;
        let outcome = kernel_calls::resolve(answers, known, at, follows, request.directory, asks)?;
        Ok(Reply::of(outcome, b""))
    }

    // ---- an entry

    /// Makes a change in a directory that is open, and opens what it made if the call gives that. READ: the text that
    /// was read last.
    #[inline(always)]
    pub(crate) fn make_change<'n>(
        &mut self,
        request: &Request,
        change: &Change<'n>,
        read: &[u8],
    ) -> Said<'n> {
        let (answers, known) = (&mut self.answers, &mut self.known);
        let outcome = kernel_calls::make_change(answers, known, &wanted_of(request), change, read)?;
        Ok(Reply::of(outcome, change.name))
    }

    // Makes or removes the entry of that name.
    #[tactic(auto, using(dialogue::proofs::TalkLemmas::ran_then, dialogue::proofs::TalkLemmas::ran_ends))]
    #[inline(always)]
    fn change_named<'n>(
        &mut self,
        request: &Request,
        at: &Below<'n>,
        entry: LastName<'n>,
        texts: Texts<'n>,
    ) -> Said<'n>
        ensures ran { ran_by (λ r. ended self.new.known (closed_by self.new.behind.closes) (outcome_of r)) asked_of
            result self.new.answers.now ≡ ran (changed_by request.now self.old.known (at_of at.now)
            (named_of entry.entry) (besides texts.entry) self.old.ends) self.old.answers.now }
        ensures next { self.new.behind.changes ≡ true → IsBare (wanted_of request.now) → EndsNext (changed_by
            request.now self.old.known (at_of at.now) (named_of entry.entry) (besides texts.entry) self.old.ends)
            self.old.answers.now (closed_by self.new.behind.closes) }
        ensures rest { self.new.ends ≡ self.old.ends }
    {
        let outcome = kernel_calls::change_entry(
            &mut self.answers,
            &mut self.known,
            at,
            entry,
            &wanted_of(request),
            step_of(request.what),
            texts.target,
            text_read(request, texts.read),
            self.ends,
            &mut self.behind,
        )?;
        Ok(Reply::of(outcome, entry.name))
    }

    /// Makes or removes an entry.
    #[inline(always)]
    pub(crate) fn change_entry<'n>(
        &mut self,
        request: &Request,
        at: &Below<'n>,
        texts: Texts<'n>,
    ) -> Said<'n>
        ensures ran { (n : EntryAt) → IsDivision at.now.path.slashed.now (takes_slash request.now.what) n
            → ran_by (λ r. ended self.new.known (closed_by self.new.behind.closes) (outcome_of r)) asked_of
            result self.new.answers.now ≡ ran (changed_by request.now self.old.known (at_of at.now) n
            (besides texts.entry) self.old.ends) self.old.answers.now }
        ensures next { (n : EntryAt) → IsDivision at.now.path.slashed.now (takes_slash request.now.what) n
            → self.new.behind.changes ≡ true → IsBare (wanted_of request.now) → EndsNext (changed_by request.now
            self.old.known (at_of at.now) n (besides texts.entry) self.old.ends) self.old.answers.now
            (closed_by self.new.behind.closes) }
        ensures rest { self.new.ends ≡ self.old.ends }
    {
        match named(at.path, takes_slash(request.what)) {
            Some(entry) => self.change_named(request, at, entry, texts),
            None => Ok(Reply::Steps),
        }
    }

    #[tactic(auto, using(dialogue::proofs::TalkLemmas::ran_then, dialogue::proofs::TalkLemmas::ran_ends))]
    fn rename_named<'n>(
        &mut self,
        request: &Request,
        at: &Below<'n>,
        from: LastName<'n>,
        to: PathOf<'n>,
        new: LastName<'n>,
    ) -> Said<'n>
        ensures ran { (b : Besides) → b.second ≡ to.entry.slashed.now
            → ran_by (λ r. ended self.new.known (closed_by self.new.behind.closes) (outcome_of r)) asked_of
            result self.new.answers.now ≡ ran (renamed_by request.now self.old.known (at_of at.now)
            (named_of from.entry) b (named_of new.entry) self.old.ends) self.old.answers.now }
        ensures next { (b : Besides) → b.second ≡ to.entry.slashed.now → self.new.behind.changes ≡ true
            → IsBare (wanted_of request.now) → EndsNext (renamed_by request.now self.old.known (at_of at.now)
            (named_of from.entry) b (named_of new.entry) self.old.ends) self.old.answers.now
            (closed_by self.new.behind.closes) }
        ensures rest { self.new.ends ≡ self.old.ends }
    {
        let other = Below {
            path: to,
            looked: false,
            ..*at
        };
        let outcome = kernel_calls::rename(
            &mut self.answers,
            &mut self.known,
            at,
            from,
            &other,
            new,
            &wanted_of(request),
            self.ends,
            &mut self.behind,
        )?;
        Ok(Reply::of(outcome, from.name))
    }

    /// Renames an entry. What both paths end in comes first. With a slash there the steps look whether a directory is
    /// there.
    pub(crate) fn rename<'n>(
        &mut self,
        request: &Request,
        at: &Below<'n>,
        to: PathOf<'n>,
    ) -> Said<'n>
        ensures ran { (n m : EntryAt) (b : Besides) → b.second ≡ to.entry.slashed.now
            → IsDivision at.now.path.slashed.now false n → IsDivision b.second false m
            → ran_by (λ r. ended self.new.known (closed_by self.new.behind.closes) (outcome_of r)) asked_of
            result self.new.answers.now ≡ ran (renamed_by request.now self.old.known (at_of at.now) n b m
            self.old.ends) self.old.answers.now }
        ensures next { (n m : EntryAt) (b : Besides) → b.second ≡ to.entry.slashed.now
            → IsDivision at.now.path.slashed.now false n → IsDivision b.second false m
            → self.new.behind.changes ≡ true → IsBare (wanted_of request.now) → EndsNext (renamed_by request.now
            self.old.known (at_of at.now) n b m self.old.ends) self.old.answers.now
            (closed_by self.new.behind.closes) }
        ensures rest { self.new.ends ≡ self.old.ends }
    {
        let from = match named(at.path, false) {
            Some(from) => from,
            None => return Ok(Reply::Steps),
        };
        match named(to, false) {
            Some(new) => self.rename_named(request, at, from, to, new),
            None => Ok(Reply::Steps),
        }
    }

    // ---- all directories of a path

    // The directory so many levels above: the root, or one to be closed; or an error.
    fn open_above<'n>(&mut self, at: &Below<'n>, levels: u32) -> Number<'n> {
        let path = match levels_above(at.path, levels) {
            Some(Some(path)) => path,
            Some(None) => return Ok(Ok(at.root)),
            None => return Ok(Err(0)),
        };
        let how = O_PATH | self.known.machine.directory;
        self.look_up(&Below { path, ..*at }, how, 0)
    }

    // How many levels above a directory is there, which is open then; or none.
    fn lowest<'n>(&mut self, at: &Below<'n>) -> Asked<'n, Option<(u32, u32)>> {
        for levels in 1..MISSING_MAX + 1 {
            match self.open_above(at, levels)? {
                Ok(dir) => return Ok(Some((levels, dir))),
                Err(ENOENT) => (),
                Err(_) => return Ok(None),
            }
        }
        Ok(None)
    }

    // Makes the directory so many levels above, in the one above that, which is closed. One that others have made
    // counts.
    fn make_one<'n>(
        &mut self,
        at: &Below<'n>,
        dir: u32,
        levels: u32,
        mode: u32,
    ) -> Asked<'n, bool> {
        let path = match levels_above(at.path, levels) {
            Some(Some(path)) => path,
            _ => at.path,
        };
        let made = match named(path, true) {
            Some(entry) => {
                let made = self.ask(Question::MakeDirectory(dir, entry.name, mode))?;
                made.error == 0 || made.error == EEXIST
            }
            None => false,
        };
        if dir != at.root {
            self.close(dir)?;
        }
        Ok(made)
    }

    // Makes the directories that are missing, from the top on: whether all are there.
    fn make_missing<'n>(&mut self, at: &Below<'n>, mode: u32) -> Asked<'n, bool> {
        let (levels, mut dir) = match self.lowest(at)? {
            Some(found) => found,
            None => return Ok(false),
        };
        for below in 0..levels {
            let here = levels - 1 - below;
            if !self.make_one(at, dir, here, mode)? {
                return Ok(false);
            }
            if here == 0 {
                return Ok(true);
            }
            dir = match self.open_above(at, here)? {
                Ok(next) => next,
                Err(_) => return Ok(false),
            };
        }
        Ok(true)
    }

    /// Opens the last directory of a path, and makes those that are missing first. If that can't be done so, the steps
    /// go on from what was made.
    #[inline(never)]
    pub(crate) fn open_all<'n>(&mut self, request: &Request, at: &Below<'n>) -> Said<'n> {
        let how = O_PATH | self.known.machine.directory;
        match self.look_up(at, how, 0)? {
            Ok(fd) => return Ok(value(fd)),
            Err(ENOENT) => (),
            Err(_) => return Ok(Reply::Steps),
        }
        if !self.make_missing(at, request.mode)? {
            return Ok(Reply::Steps);
        }
        Ok(match self.look_up(at, how, 0)? {
            Ok(fd) => value(fd),
            Err(_) => Reply::Steps,
        })
    }
}
