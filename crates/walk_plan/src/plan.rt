//! The plan of a walk: its parts to come, the names that it passed, the links that it may still follow.
ghost use Rattle.std.specs.Prelude.{◌≡◌, ◌≢◌, ◌≤◌, ◌<◌, [], ◌++◌, ◌==◌, false, length, IfOk, OnOk, OnErr, Some, None, Ok, Err, if◌then◌else◌, IsTrue, IfErr, unwrap_or};
ghost use Rattle.path_text.specs.declared.errno.Errno.TheVariants.{CrossRoot};
ghost use Rattle.path_text.specs.declared.part.Part.TheVariants.{Up, Named};
ghost use Rattle.path_text.specs.declared.name.TheConstants.{NAME_MAX};
ghost use Rattle.path_text.specs.declared.path.TheConstants.{PARTS_MAX};
ghost use Rattle.std.specs.List.{list_any};
ghost use Rattle.path_text.specs.Name.{NUL};
ghost use Rattle.path_text.specs.Text.{begins_with_slash, parts_of, reading_of, text_fault};
ghost use Rattle.walk_plan.specs.Plan.{IsPlan, IsNameAnd, IfName, CanStay, next_part, is_last, is_own, is_name, follows_next_link, stayed, went_up, went_down, spliced, through, through_fault, leads_out, begun, first_part, after_first, own_after_next};

use crate::goal::Goal;
use path_text::{
    Bytes, Errno, Flags, LentName, Name, Names, NoMemory, Part, Parts, Path, begins_with_slash,
};
use std::alloc::Global;
use std::marker::Model;

mod copy;
mod same;

/// The most links that are followed along one path (path_resolution(7), MAXSYMLINKS of the Linux kernel).
pub const LINKS_MAX: u8 = 40;

/// What a walk along a path still has to do. Contracts see it as a `PlanState`.
#[derive(Debug, Drop)]
pub struct Plan {
    // the parts of links' texts
    inner: Parts,
    // the caller's own parts
    own: Parts,
    // from the root to where the walk is, the outermost first
    names: Names,
    links_left: u8,
    goal: Goal,
    flags: Flags,
}

impl Model for Plan {
    ghost use Rattle.walk_plan.specs.Plan.{PlanState};

    ghost Value = { PlanState };

    ghost use Rattle.walk_plan.specs.View.{plan_of, HasLimits};

    ghost view = { plan_of };

    ghost invariant = { HasLimits };
}

impl Plan {
    /// The plan of a walk along the path, from the root: 40 links may be followed, no name was passed.
    /// CrossRoot for an absolute path under `beneath` (EXDEV of openat2(2)). Takes no memory.
    pub fn new(alloc: Global, path: Path, goal: Goal, flags: Flags) -> Result<Plan, Errno>
        ensures { result ≡ (if leads_out path.absolute flags then Err CrossRoot
            else Ok (begun path goal flags)) }
    {
        if flags.beneath && path.absolute {
            return Err(Errno::CrossRoot);
        }
        Ok(Plan {
            inner: Parts::new(alloc),
            own: path.parts,
            names: Names::new(alloc),
            links_left: LINKS_MAX,
            goal,
            flags,
        })
    }

    /// The next part, if one is left.
    pub fn next<'a>(&'a self) -> Option<Part<'a>>
        ensures { result ≡ next_part self.now }
    {
        next_of(&self.inner, &self.own)
    }

    /// Whether the next part is the last one to come.
    #[tactic(auto, using(crate::proofs::PartsLemmas::is_single_of_both))]
    pub fn is_last(&self) -> bool
        ensures { result ≡ is_last self.now }
    {
        self.inner.len() + self.own.len() == 1
    }

    /// Whether the next part is of the caller's own text, and not of a link's. False where no part is left.
    pub fn is_own(&self) -> bool
        ensures { result ≡ is_own self.now }
    {
        self.inner.is_empty() && !self.own.is_empty()
    }

    /// Whether a link at the next part, which is a name, is followed: at the very last part of the
    /// caller's text it is so only where the goal says it. False where the next part is no name.
    pub fn follows_next_link(&self) -> bool
        ensures { result ≡ follows_next_link self.now }
    {
        matches!(self.next(), Some(Part::Named(_)))
            && (self.goal.follows_last_link() || !(self.is_own() && self.is_last()))
    }

    /// The name that the next part is, lent from the text that it stands in.
    pub fn next_name(&self) -> LentName<'_>
        requires { IsNameAnd (next_part self.now) (λ name. length name ≤ NAME_MAX) }
        ensures { next_part self.now ≡ Some (Named result) }
    {
        match self.next() {
            Some(Part::Named(component)) => component.name(),
            // the caller sees to it that the next part is a name
            _ => unreachable!(),
        }
    }

    /// The names passed, from the root to where the walk is, the outermost first.
    pub fn names(&self) -> &Names
        ensures { result.now ≡ self.now.names }
    {
        &self.names
    }

    /// How many links may still be followed, at most 40.
    pub fn links_left(&self) -> u8
        ensures count { result ≡ self.now.links_left }
        ensures limits { IsPlan self.now }
    {
        self.links_left
    }

    /// What the walk is to reach.
    pub fn goal(&self) -> Goal
        ensures { result ≡ self.now.goal }
    {
        self.goal
    }

    /// The restrictions of the call.
    pub fn flags(&self) -> Flags
        ensures { result ≡ self.now.flags }
    {
        self.flags
    }

    /// Takes the next part off, at which the walk stays where it is: `.`, or `..` where no name was
    /// passed. Takes no memory.
    pub fn stayed(&mut self)
        requires { CanStay (next_part self.old) self.old.names }
        ensures { self.new ≡ stayed self.old }
    {
        take_next(&mut self.inner, &mut self.own);
    }

    /// Takes the next part off, which is `..`, and drops the last name. Takes no memory.
    pub fn went_up(&mut self)
        requires up { next_part self.old ≡ Some Up }
        requires named { self.old.names ≢ [] }
        ensures { self.new ≡ went_up self.old }
    {
        take_next(&mut self.inner, &mut self.own);
        self.names.pop();
    }

    /// Takes the next part off, which is a name, and adds `name` to those passed. NoMemory where room
    /// was refused: the plan is then unchanged, and `name` is dropped.
    pub fn went_down(&mut self, name: Name) -> Result<(), NoMemory>
        requires { IsTrue (is_name (next_part self.old)) }
        ensures ok { OnOk result (self.new ≡ went_down self.old name) }
        ensures err { OnErr result (self.new ≡ self.old) }
    {
        self.names.push(name)?;
        take_next(&mut self.inner, &mut self.own);
        Ok(())
    }

    /// Takes the next part off, which is a name, and passes it: its own bytes become the last name.
    /// NoMemory where room was refused: the plan is then unchanged.
    pub fn entered(&mut self) -> Result<(), NoMemory>
        requires { IsNameAnd (next_part self.old) (λ name. length name ≤ NAME_MAX) }
        ensures ok { OnOk result
            (IfName (next_part self.old) (λ name. self.new ≡ went_down self.old name)) }
        ensures err { OnErr result (self.new ≡ self.old) }
    {
        // The first name gets room for all that are to come.
        if self.names.is_empty() {
            self.names.reserve_for(&self.inner, &self.own)?;
        }
        // A name, as is required.
        if let Some(Part::Named(component)) = next_of(&self.inner, &self.own) {
            self.names.push_bytes(component.bytes())?;
        }
        take_next(&mut self.inner, &mut self.own);
        Ok(())
    }

    /// Follows a link with this text, which stands at the next part, a name: the parts of the text come
    /// in that part's place, and one link less may be followed. The answer is whether the text is
    /// absolute; then no names are passed any more, since the walk goes on from the root.
    ///
    /// Errors, in this order: Loop where no link may be followed any more, or none at all (`no_links`;
    /// ELOOP of openat2(2)); the text's faults, as of `Path::parse`; CrossRoot for an absolute text under
    /// `beneath` (EXDEV); NoMemory where room was refused. Each leaves the plan unchanged.
    pub fn through(&mut self, text: Bytes) -> Result<bool, Errno>
        requires { IsTrue (is_name (next_part self.old)) }
        ensures followed { OnOk result (through_fault self.old text ≡ None) }
        ensures ok { OnOk result (self.new ≡ through self.old text) }
        ensures answer { IfOk result (λ absolute. absolute ≡ begins_with_slash text) }

        // The first fault, and NoMemory only where there is none.
        ensures error { IfErr result
            (λ error. error ≡ unwrap_or (through_fault self.old text) Errno.NoMemory) }
        ensures err { OnErr result (self.new ≡ self.old) }
    {
        self.check_link(text.as_slice())?;
        let absolute = begins_with_slash(text.as_slice());
        self.follow(text, absolute)?;
        Ok(absolute)
    }

    // Why a link with this text isn't followed, where it isn't.
    fn check_link(&self, text: &[u8]) -> Result<(), Errno>
        ensures ok { OnOk result (through_fault self.now text.now ≡ None) }
        ensures error { IfErr result (λ error. Some error ≡ through_fault self.now text.now) }
    {
        if self.flags.no_links || self.links_left == 0 {
            return Err(Errno::Loop);
        }
        if let Some(fault) = Path::fault_of(text) {
            return Err(fault);
        }
        if self.leads_out(text) {
            return Err(Errno::CrossRoot);
        }
        Ok(())
    }

    // Whether the text begins at the root, and may not.
    fn leads_out(&self, text: &[u8]) -> bool
        ensures { result ≡ leads_out (begins_with_slash text.now) self.now.flags }
    {
        self.flags.beneath && begins_with_slash(text)
    }

    // Follows a link with this text. NoMemory where room was refused, before anything changed.
    fn follow(&mut self, text: Bytes, absolute: bool) -> Result<(), NoMemory>
        requires left { 0 < self.old.links_left }
        requires text { text_fault text ≡ None }
        requires absolute { absolute ≡ begins_with_slash text }
        ensures ok { OnOk result (self.new ≡ spliced self.old (reading_of text)) }
        ensures err { OnErr result (self.new ≡ self.old) }
    {
        splice(&mut self.inner, &mut self.own, text)?;
        self.links_left -= 1;
        if absolute {
            self.names.clear();
        }
        Ok(())
    }

    /// The caller's own parts that are still to come: those of the path less what was taken off. Takes
    /// no memory.
    pub fn rest(self) -> Parts
        requires { IsTrue (is_own self) }
        ensures parts { result ≡ self.own }
        ensures few { length result ≤ PARTS_MAX }
    {
        self.own
    }
}

// The next part: of those of links' texts, which come first, else of the own ones.
#[tactic(auto, using(crate::proofs::PartsLemmas::first_is))]
fn next_of<'a>(inner: &'a Parts, own: &'a Parts) -> Option<Part<'a>>
    ensures { result ≡ first_part (inner.now ++ own.now) }
{
    if inner.is_empty() {
        own.first()
    } else {
        inner.first()
    }
}

// Takes the next part off: from the parts of links' texts, which come first, else from the own ones.
#[tactic(auto, using(crate::proofs::PartsLemmas::after_first_is))]
fn take_next(inner: &mut Parts, own: &mut Parts)
    ensures inner { inner.new ≡ after_first inner.old }
    ensures own { own.new ≡ own_after_next inner.old own.old }
{
    if inner.is_empty() {
        own.drop_first();
    } else {
        inner.drop_first();
    }
}

// Puts the parts of the text in the place of the next one. NoMemory where room was refused, before anything changed.
#[tactic(auto, using(crate::proofs::PartsLemmas::after_first_is))]
fn splice(inner: &mut Parts, own: &mut Parts, text: Bytes) -> Result<(), NoMemory>
    requires { list_any (λ b. b == NUL) text ≡ false }
    ensures inner { OnOk result (inner.new ≡ parts_of text ++ after_first inner.old) }
    ensures own { OnOk result (own.new ≡ own_after_next inner.old own.old) }
    ensures err { OnErr result ((inner.new ≡ inner.old) × (own.new ≡ own.old)) }
{
    let from_own = inner.is_empty();
    let _ = inner.replace_first(text)?;
    if from_own {
        own.drop_first();
    }
    Ok(())
}
