//! Whether two calls are the same but for their handles, and which handles these are.
ghost use Rattle.std.specs.Prelude.{◌≡◌, ◌≤◌, ◌<◌, ◌++◌, ◌↔◌, drop, length, IsTrue, IfOk};
ghost use Rattle.bulk_ops.specs.RemoveAllView.{removing_of, walking_of, clearing_of, closing_of, to_close, stage_of, end_of, level_of, levels_of, dirs_of, name_at, IsUnderWay};
ghost use Rattle.bulk_ops.specs.Renamed.{level_by, levels_by, stage_by, stage_handles, removing_handles, LikeRemoving};

use crate::remove_all::RemoveAll;
use crate::remove_all::clearing::{Clearing, Closing, End, Progress, Stage};
use crate::remove_all::frame::Frame;
use crate::remove_all::phase::{Phase, WalkTo};
use path_text::{Names, NoMemory};
use tree_model::HandleNo;

impl RemoveAll {
    /// Whether the same step is due, and all that is to come after it is the same, but for the numbers of handles.
    pub fn is_like(&self, other: &RemoveAll) -> bool
        ensures { IsTrue result ↔ LikeRemoving self.now other.now }
    {
        self.state.phase.is_like(&other.state.phase)
    }

    /// Appends its handles. NoMemory where their room was refused; some of them may then be there.
    pub fn push_handles(&self, into: &mut Vec<HandleNo>) -> Result<(), NoMemory>
        ensures { IfOk result (λ u. into.new.items ≡ into.old.items ++ removing_handles self.now) }
    {
        self.state.phase.push_handles(into)
    }
}

impl Phase {
    // Whether they are the same but for the numbers of handles.
    fn is_like(&self, other: &Phase) -> bool
        requires self_under_way { IsUnderWay self.now }
        requires other_under_way { IsUnderWay other.now }
        ensures { IsTrue result ↔ LikeRemoving (removing_of self.now) (removing_of other.now) }
    {
        match (self, other) {
            (Phase::Walking(to), Phase::Walking(t)) => to.is_like(t),
            (Phase::Clearing(clearing), Phase::Clearing(c)) => clearing.is_like(c),
            (Phase::Closing(closing), Phase::Closing(c)) => closing.is_like(c),
            _ => false,
        }
    }

    // Appends its handles.
    fn push_handles(&self, into: &mut Vec<HandleNo>) -> Result<(), NoMemory>
        requires { IsUnderWay self.now }
        ensures { IfOk result (λ u. into.new.items ≡ into.old.items ++ removing_handles (removing_of self.now)) }
    {
        match self {
            Phase::Walking(to) => {
                into.push(to.walk.root())?;
                to.walk.push_handles(into)
            }
            Phase::Clearing(clearing) => clearing.push_handles(into),
            Phase::Closing(closing) => closing.push_handles(into),
            Phase::Over(_) => unreachable!(),
        }
    }
}

impl WalkTo {
    // Whether they are the same but for the numbers of handles.
    fn is_like(&self, other: &WalkTo) -> bool
        ensures { IsTrue result ↔ LikeRemoving (walking_of self.now) (walking_of other.now) }
    {
        self.walk.goes_like(&other.walk)
            && self.walk.is_like(&other.walk)
            && same_name(&self.target, 0, &other.target, 0)
    }
}

impl Clearing {
    // Whether they are the same but for the numbers of handles.
    fn is_like(&self, other: &Clearing) -> bool
        ensures { IsTrue result ↔ LikeRemoving (clearing_of self.now) (clearing_of other.now) }
    {
        self.stage.is_like(&other.stage) && self.progress.is_like(&other.progress)
    }

    // Appends its handles.
    fn push_handles(&self, into: &mut Vec<HandleNo>) -> Result<(), NoMemory>
        ensures { IfOk result (λ u. into.new.items ≡ into.old.items ++ removing_handles (clearing_of self.now)) }
    {
        self.stage.push_handles(into)?;
        into.push(self.progress.here.dir.handle())?;
        push_dirs(self.progress.above.as_slice(), into)
    }
}

impl Closing {
    // Whether as many are to be closed, and the end is the same. Nothing else is told of what is only closed.
    fn is_like(&self, other: &Closing) -> bool
        ensures { IsTrue result ↔ LikeRemoving (closing_of self.now) (closing_of other.now) }
    {
        self.count() == other.count() && same_ends(self.end, other.end)
    }

    // How many are to be closed after the first.
    fn count(&self) -> usize
        ensures { result ≡ length (to_close self.now) }
    {
        let second = if self.second.is_some() { 1 } else { 0 };
        second + self.above.len()
    }

    // Appends its handles.
    fn push_handles(&self, into: &mut Vec<HandleNo>) -> Result<(), NoMemory>
        ensures { IfOk result (λ u. into.new.items ≡ into.old.items ++ removing_handles (closing_of self.now)) }
    {
        into.push(self.first.handle())?;
        if let Some(second) = &self.second {
            into.push(second.handle())?;
        }
        push_dirs(self.above.as_slice(), into)
    }
}

impl Stage {
    // Whether the same is due, but for the number of what was opened.
    fn is_like(&self, other: &Stage) -> bool
        ensures { IsTrue result ↔ (stage_by (λ h. 0) (stage_of self.now) ≡ stage_by (λ h. 0) (stage_of other.now)) }
    {
        match (self, other) {
            (Stage::RemoveFile, Stage::RemoveFile) => true,
            (Stage::Open, Stage::Open) => true,
            (Stage::List(_), Stage::List(_)) => true,
            (Stage::Shut(_), Stage::Shut(_)) => true,
            (Stage::Leave(_), Stage::Leave(_)) => true,
            (Stage::RemoveDir, Stage::RemoveDir) => true,
            _ => false,
        }
    }

    // Appends the handle of what was opened.
    fn push_handles(&self, into: &mut Vec<HandleNo>) -> Result<(), NoMemory>
        ensures { IfOk result (λ u. into.new.items ≡ into.old.items ++ stage_handles (stage_of self.now)) }
    {
        match self {
            Stage::List(child) | Stage::Shut(child) | Stage::Leave(child) => {
                into.push(child.handle())?;
            }
            Stage::RemoveFile | Stage::Open | Stage::RemoveDir => {}
        }
        Ok(())
    }
}

impl Progress {
    // Whether the same is left to be cleared, and as much was removed.
    fn is_like(&self, other: &Progress) -> bool
        ensures { IsTrue result
            ↔ ((level_by (λ h. 0) (level_of self.now.here) ≡ level_by (λ h. 0) (level_of other.now.here))
            × (levels_by (λ h. 0) (levels_of self.now.above.items)
            ≡ levels_by (λ h. 0) (levels_of other.now.above.items)) × (self.now.removed ≡ other.now.removed)
            × (self.now.left ≡ other.now.left)) }
    {
        self.removed == other.removed
            && self.left == other.left
            && self.here.is_like(&other.here)
            && like_frames(self.above.as_slice(), other.above.as_slice())
    }
}

impl Frame {
    // Whether the same entries are left to be cleared; those before them aren't looked at.
    fn is_like(&self, other: &Frame) -> bool
        ensures { IsTrue result ↔ (level_by (λ h. 0) (level_of self.now) ≡ level_by (λ h. 0) (level_of other.now)) }
    {
        same_from(&self.names, self.at, &other.names, other.at)
    }
}

// Whether the same entries are left in each of them.
fn like_frames(frames: &[Frame], others: &[Frame]) -> bool
    ensures { IsTrue result ↔ (levels_by (λ h. 0) (levels_of frames.now) ≡ levels_by (λ h. 0) (levels_of others.now)) }
{
    if frames.len() != others.len() {
        return false;
    }
    for (place, frame) in frames.iter().enumerate() {
        if !frame.is_like(&others[place]) {
            return false;
        }
    }
    true
}

// Whether the names from these places on are the same.
fn same_from(names: &Names, at: usize, others: &Names, place: usize) -> bool
    requires at_within { at ≤ length names.now }
    requires place_within { place ≤ length others.now }
    ensures { IsTrue result ↔ (drop at names.now ≡ drop place others.now) }
{
    let count = names.len() - at;
    if others.len() - place != count {
        return false;
    }
    for k in 0..count {
        if !same_name(names, at + k, others, place + k) {
            return false;
        }
    }
    true
}

// Whether the same name is at both places.
fn same_name(names: &Names, at: usize, others: &Names, place: usize) -> bool
    requires at_within { at < length names.now }
    requires place_within { place < length others.now }
    ensures { IsTrue result ↔ (name_at names.now at ≡ name_at others.now place) }
{
    names.get(at) == others.get(place)
}

// Whether the calls end in the same way.
fn same_ends(end: End, other: End) -> bool
    ensures { IsTrue result ↔ (end_of end ≡ end_of other) }
{
    match (end, other) {
        (End::Fails(error), End::Fails(e)) => error == e,
        (End::Removes(count), End::Removes(c)) => count == c,
        _ => false,
    }
}

// Appends the handles of these directories, the last first.
fn push_dirs(frames: &[Frame], into: &mut Vec<HandleNo>) -> Result<(), NoMemory>
    ensures { IfOk result (λ u. into.new.items ≡ into.old.items ++ dirs_of frames.now) }
{
    let count = frames.len();
    for below in 0..count {
        into.push(frames[count - 1 - below].dir.handle())?;
    }
    Ok(())
}
