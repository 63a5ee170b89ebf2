//! Whether two calls are the same but for their handles, and which handles these are.
ghost use Rattle.std.specs.Prelude.{◌≡◌, ◌≤◌, ◌++◌, ◌↔◌, length, IsTrue, IfOk};
ghost use Rattle.bulk_ops.specs.Renamed.{numbers_by, LikeMaking, making_handles};
ghost use Rattle.step_resolver.specs.View.{numbers_of};

use crate::make_all::{Chain, MkdirAll, Stage};
use handles::Reached;
use path_text::NoMemory;
use step_resolver::like_held;
use tree_model::HandleNo;

impl MkdirAll {
    /// Whether the same step is due, and all that is to come after it is the same, but for the numbers of handles.
    pub fn is_like(&self, other: &MkdirAll) -> bool
        ensures { IsTrue result ↔ LikeMaking self.now.making other.now.making }
    {
        match (&self.stage, &other.stage) {
            (Stage::Walking(walk), Stage::Walking(w)) => walk.is_like(w),
            (Stage::Making(held, chain), Stage::Making(h, c)) => {
                like_held(held, h) && chain.same(c)
            }
            (Stage::Opening(held, chain), Stage::Opening(h, c)) => {
                like_held(held, h) && chain.same(c)
            }
            (
                Stage::Leaving { old: _, new, chain },
                Stage::Leaving {
                    old: _,
                    new: n,
                    chain: c,
                },
            ) => { like_held(new, n) && chain.same(c) }
            (Stage::Ending(held, chain), Stage::Ending(h, c)) => {
                like_held(held, h) && chain.names.same(&c.names)
            }
            (
                Stage::Closing {
                    first: _,
                    second,
                    error,
                },
                Stage::Closing {
                    first: _,
                    second: s,
                    error: e,
                },
            ) => same_count(second, s) && error == e,
            _ => false,
        }
    }

    /// Appends its handles. NoMemory where their room was refused; some of them may then be there.
    pub fn push_handles(&self, into: &mut Vec<HandleNo>) -> Result<(), NoMemory>
        ensures { IfOk result (λ u. into.new.items ≡ into.old.items ++ making_handles self.now.making) }
    {
        match &self.stage {
            Stage::Walking(walk) => walk.push_handles(into)?,
            Stage::Making(held, _) | Stage::Opening(held, _) | Stage::Ending(held, _) => {
                into.push(held.handle())?;
            }
            Stage::Leaving { old, new, chain: _ } => {
                into.push(old.handle())?;
                into.push(new.handle())?;
            }
            Stage::Closing {
                first,
                second,
                error: _,
            } => {
                into.push(first.handle())?;
                if let Some(second) = second {
                    into.push(second.handle())?;
                }
            }
        }
        Ok(())
    }
}

impl Chain {
    ghost use Rattle.bulk_ops.specs.MakeAllView.{passed, to_come};

    // Whether the same names are passed, and the same are to come.
    fn same(&self, other: &Chain) -> bool
        requires self_within { self.now.done ≤ length self.now.names }
        requires other_within { other.now.done ≤ length other.now.names }
        ensures { IsTrue result ↔ ((passed self.now ≡ passed other.now) × (to_come self.now ≡ to_come other.now)) }
    {
        self.done == other.done && self.names.same(&other.names)
    }
}

// Whether something is held in both, or in neither.
fn same_count(held: &Option<Reached>, other: &Option<Reached>) -> bool
    ensures { IsTrue result
        ↔ (numbers_by (λ h. 0) (numbers_of held.now) ≡ numbers_by (λ h. 0) (numbers_of other.now)) }
{
    held.is_some() == other.is_some()
}
