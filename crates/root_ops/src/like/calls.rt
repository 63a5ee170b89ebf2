//! Calls that are under way.
ghost use Rattle.std.specs.Prelude.{◌≡◌, ◌++◌, ◌↔◌, true, IsTrue, IfOk};
ghost use Rattle.root_ops.specs.declared.below.Below.{Below as Place};
ghost use Rattle.root_ops.specs.Renamed.{numbers_by, root_by, below_by, after_by, after_handles, doing_by, doing_handles, call_by, call_handles};
ghost use Rattle.root_ops.specs.View.{list_of, after_view, doing_view, stage_view, IsOurs, IsStage};

use crate::below::Below;
use crate::call::Call;
use crate::doing::{After, Doing, Handles, Stage};
use crate::like::aims::{like_aims, push_aim_handles, same_renaming};
use crate::like::answers::{like_replies, push_reply_handles};
use crate::like::steps::{like_steps, push_step_handles};
use path_text::NoMemory;
use step_resolver::Root;
use tree_model::HandleNo;

/// Whether the roots are the same but for the handle's number.
pub fn like_roots(root: &Root, other: &Root) -> bool
    ensures { IsTrue result ↔ (root_by (λ h. 0) root.now ≡ root_by (λ h. 0) other.now) }
{
    root.owner == other.owner
}

// Whether calls walk there in the same way, below roots that are the same but for the handle's number.
fn like_belows(below: &Below, other: &Below) -> bool
    ensures { IsTrue result ↔ (below_by (λ h. 0) below.now ≡ below_by (λ h. 0) other.now) }
{
    like_roots(&below.root, &other.root) && below.flags == other.flags
}

// Whether they are equally many.
fn like_many(held: &Handles, other: &Handles) -> bool
    ensures { IsTrue result ↔ (numbers_by (λ h. 0) (list_of held.now) ≡ numbers_by (λ h. 0) (list_of other.now)) }
{
    match (held, other) {
        (Handles::Empty, Handles::Empty) => true,
        (Handles::One(_), Handles::One(_)) => true,
        (Handles::Two(_, _), Handles::Two(_, _)) => true,
        (Handles::Three(_, _, _), Handles::Three(_, _, _)) => true,
        _ => false,
    }
}

// Appends them in their order.
fn push_held(held: &Handles, into: &mut Vec<HandleNo>) -> Result<(), NoMemory>
    ensures { IfOk result (λ u. into.new.items ≡ into.old.items ++ list_of held.now) }
{
    match held {
        Handles::Empty => {}
        Handles::One(first) => into.push(*first)?,
        Handles::Two(first, second) => {
            into.push(*first)?;
            into.push(*second)?;
        }
        Handles::Three(first, second, third) => {
            into.push(*first)?;
            into.push(*second)?;
            into.push(*third)?;
        }
    }
    Ok(())
}

// Whether the same is to come but for the handles.
fn like_afters(after: &After, other: &After) -> bool
    ensures { IsTrue result ↔ (after_by (λ h. 0) (after_view after.now) ≡ after_by (λ h. 0) (after_view other.now)) }
{
    match (after, other) {
        (After::Gives(reply), After::Gives(r)) => like_replies(reply, r),
        (
            After::Acts { wanted, step, held },
            After::Acts {
                wanted: w,
                step: s,
                held: h,
            },
        ) => wanted == w && like_steps(step, s) && like_many(held, h),
        _ => false,
    }
}

// Appends the handles of what is to come.
fn push_after_handles(after: &After, into: &mut Vec<HandleNo>) -> Result<(), NoMemory>
    ensures { IfOk result (λ u. into.new.items ≡ into.old.items ++ after_handles (after_view after.now)) }
{
    match after {
        After::Gives(reply) => push_reply_handles(reply, into),
        After::Acts {
            wanted: _,
            step,
            held,
        } => {
            push_step_handles(step, into)?;
            push_held(held, into)
        }
    }
}

// Whether the same is due but for the handles, of what is no walk.
fn like_doings(doing: &Doing, other: &Doing) -> bool
    requires this { (below : Place) × IsOurs below doing.now }
    requires other { (below : Place) × IsOurs below other.now }
    ensures { IsTrue result ↔ (doing_by (λ h. 0) (doing_view doing.now) ≡ doing_by (λ h. 0) (doing_view other.now)) }
{
    match (doing, other) {
        (
            Doing::Acting { wanted, step, held },
            Doing::Acting {
                wanted: w,
                step: s,
                held: h,
            },
        ) => wanted == w && like_steps(step, s) && like_many(held, h),
        (
            Doing::Checking {
                old: _,
                new: _,
                renaming,
            },
            Doing::Checking {
                old: _,
                new: _,
                renaming: r,
            },
        ) => same_renaming(renaming, r),
        (
            Doing::Closing {
                first: _,
                others,
                after,
            },
            Doing::Closing {
                first: _,
                others: o,
                after: a,
            },
        ) => like_many(others, o) && like_afters(after, a),
        (Doing::Making(call), Doing::Making(c)) => call.is_like(c),
        (Doing::Removing(call), Doing::Removing(c)) => call.is_like(c),
        _ => false,
    }
}

// Appends the handles of what is due, which is no walk.
fn push_doing_handles(doing: &Doing, into: &mut Vec<HandleNo>) -> Result<(), NoMemory>
    requires { (below : Place) × IsOurs below doing.now }
    ensures { IfOk result (λ u. into.new.items ≡ into.old.items ++ doing_handles (doing_view doing.now)) }
{
    match doing {
        Doing::Aimed(_) => unreachable!(),
        Doing::Acting {
            wanted: _,
            step,
            held,
        } => {
            push_step_handles(step, into)?;
            push_held(held, into)
        }
        Doing::Checking {
            old,
            new,
            renaming: _,
        } => {
            into.push(*old)?;
            into.push(*new)?;
            Ok(())
        }
        Doing::Closing {
            first,
            others,
            after,
        } => {
            into.push(*first)?;
            push_held(others, into)?;
            push_after_handles(after, into)
        }
        Doing::Making(call) => call.push_handles(into),
        Doing::Removing(call) => call.push_handles(into),
    }
}

// Whether the same is due but for the handles.
fn like_stages(stage: &Stage, other: &Stage) -> bool
    requires this { (below : Place) × IsStage below stage.now }
    requires other { (below : Place) × IsStage below other.now }
    ensures { IsTrue result ↔ (doing_by (λ h. 0) (stage_view stage.now) ≡ doing_by (λ h. 0) (stage_view other.now)) }
{
    match (stage, other) {
        (Stage::Walking(walk, state), Stage::Walking(w, s)) => {
            walk.is_like(w) && like_aims(state.aim(), s.aim())
        }
        (Stage::Boxed(doing), Stage::Boxed(d)) => like_doings(doing, d),
        (Stage::Releasing(_), Stage::Releasing(_)) => true,
        _ => false,
    }
}

// Appends the handles of what is due.
fn push_stage_handles(stage: &Stage, into: &mut Vec<HandleNo>) -> Result<(), NoMemory>
    requires { (below : Place) × IsStage below stage.now }
    ensures { IfOk result (λ u. into.new.items ≡ into.old.items ++ doing_handles (stage_view stage.now)) }
{
    match stage {
        Stage::Walking(walk, state) => {
            walk.push_handles(into)?;
            push_aim_handles(state.aim(), into)
        }
        Stage::Boxed(doing) => push_doing_handles(doing, into),
        Stage::Releasing(handle) => {
            into.push(*handle)?;
            Ok(())
        }
    }
}

impl Call {
    /// Whether the other is the same call but for the numbers of handles: below a root of the same owner, with the
    /// same restrictions, and with the same due.
    pub fn is_like(&self, other: &Call) -> bool
        ensures { IsTrue result ↔ (call_by (λ h. 0) self.now ≡ call_by (λ h. 0) other.now) }
    {
        like_belows(&self.below, &other.below) && like_stages(&self.stage, &other.stage)
    }

    /// Appends its handles: the root's, those of the step that is due, and those that are held. NoMemory where their
    /// room was refused.
    pub fn push_handles(&self, into: &mut Vec<HandleNo>) -> Result<(), NoMemory>
        ensures { IfOk result (λ u. into.new.items ≡ into.old.items ++ call_handles self.now) }
    {
        into.push(self.below.handle())?;
        push_stage_handles(&self.stage, into)
    }
}
