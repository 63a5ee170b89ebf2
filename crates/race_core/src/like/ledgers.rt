//! Whether what two actors have to do, and what came of it, is the same but for the numbers of handles.
ghost use Rattle.std.specs.Prelude.{◌≡◌, ◌∷◌, [], ◌↔◌, IsTrue};
ghost use Rattle.std.specs.Option.{option_map};
ghost use Rattle.race_core.specs.Renamed.{planned_by, planned_handles, outcome_by, outcomes_by, outcome_handles, standing_by, option_handles, ledger_by, ledger_handles};

use super::{Like, like_all, like_queues, push_all, push_queue};
use crate::ledger::Ledger;
use crate::report::Outcome;
use crate::{Planned, Ref};
use handles::Standing;
use path_text::NoMemory;
use root_ops::{like_answers, like_roots, like_standings, push_answer_handles};
use tree_model::{HandleNo, StepOf};

// Whether the two steps are one. They name no handle by its number.
fn same_steps(step: &StepOf<Ref>, other: &StepOf<Ref>) -> bool
    ensures { IsTrue result ↔ (step.now ≡ other.now) }
{
    match (step, other) {
        (StepOf::Open(dir, name), StepOf::Open(d, n)) => dir == d && name.same(n),
        (StepOf::Dup(handle), StepOf::Dup(h)) => handle == h,
        (StepOf::Parent(handle), StepOf::Parent(h)) => handle == h,
        (StepOf::ReadLink(handle), StepOf::ReadLink(h)) => handle == h,
        (StepOf::NameBelow(root, handle), StepOf::NameBelow(r, h)) => root == r && handle == h,
        (StepOf::List(handle), StepOf::List(h)) => handle == h,
        (StepOf::Close(handle), StepOf::Close(h)) => handle == h,
        (StepOf::MakeDir(dir, name), StepOf::MakeDir(d, n)) => dir == d && name.same(n),
        (StepOf::MakeFile(dir, name), StepOf::MakeFile(d, n)) => dir == d && name.same(n),
        (StepOf::MakeLink(dir, name, text), StepOf::MakeLink(d, n, t)) => {
            dir == d && name.same(n) && text.same(t)
        }
        (StepOf::RemoveFile(dir, name), StepOf::RemoveFile(d, n)) => dir == d && name.same(n),
        (StepOf::RemoveDir(dir, name), StepOf::RemoveDir(d, n)) => dir == d && name.same(n),
        (StepOf::Rename(from, old, to, new, mode), StepOf::Rename(f, o, t, n, m)) => {
            from == f && old.same(o) && to == t && new.same(n) && mode == m
        }
        _ => false,
    }
}

impl Like for Planned {
    ghost by = { planned_by };

    ghost handles = { planned_handles };

    fn is_like(&self, other: &Planned) -> bool {
        match (self, other) {
            (Planned::Call(request), Planned::Call(r)) => request.is_like(r),
            (Planned::Single(step), Planned::Single(s)) => same_steps(step, s),
            (Planned::Release(call), Planned::Release(c)) => call == c,
            _ => false,
        }
    }

    fn push_handles(&self, into: &mut Vec<HandleNo>) -> Result<(), NoMemory> {
        match self {
            Planned::Call(request) => request.push_handles(into),
            _ => Ok(()),
        }
    }
}

impl Like for Outcome {
    ghost by = { outcome_by };

    ghost handles = { outcome_handles };

    fn is_like(&self, other: &Outcome) -> bool {
        match (self, other) {
            (
                Outcome::Opened { node, kind, names },
                Outcome::Opened {
                    node: n,
                    kind: k,
                    names: m,
                },
            ) => node == n && kind == k && names.same(m),
            (Outcome::Text(text), Outcome::Text(t)) => text.same(t),
            (Outcome::Done, Outcome::Done) => true,
            (Outcome::Count(count), Outcome::Count(c)) => count == c,
            (Outcome::Stepped(answer), Outcome::Stepped(a)) => like_answers(answer, a),
            (Outcome::Fault(error), Outcome::Fault(e)) => error == e,
            _ => false,
        }
    }

    fn push_handles(&self, into: &mut Vec<HandleNo>) -> Result<(), NoMemory> {
        match self {
            Outcome::Stepped(answer) => push_answer_handles(answer, into),
            _ => Ok(()),
        }
    }
}

impl Like for Standing {
    ghost by = { standing_by };

    ghost handles = { λ s. s.handle ∷ [] };

    fn is_like(&self, other: &Standing) -> bool {
        like_standings(self, other)
    }

    fn push_handles(&self, into: &mut Vec<HandleNo>) -> Result<(), NoMemory> {
        into.push(self.handle())?;
        Ok(())
    }
}

impl Like for Option<Standing> {
    ghost by = { λ f. option_map (standing_by f) };

    ghost handles = { option_handles };

    fn is_like(&self, other: &Option<Standing>) -> bool {
        match (self, other) {
            (None, None) => true,
            (Some(standing), Some(s)) => like_standings(standing, s),
            _ => false,
        }
    }

    fn push_handles(&self, into: &mut Vec<HandleNo>) -> Result<(), NoMemory> {
        match self {
            None => Ok(()),
            Some(standing) => standing.push_handles(into),
        }
    }
}

impl Like for Ledger {
    ghost by = { ledger_by };

    ghost handles = { ledger_handles };

    #[tactic(auto, using(crate::proofs::LikeSeats::outcomes_map))]
    fn is_like(&self, other: &Ledger) -> bool {
        self.is_like_beside_outcomes(other)
            && like_all(self.outcomes.as_slice(), other.outcomes.as_slice())
    }

    fn push_handles(&self, into: &mut Vec<HandleNo>) -> Result<(), NoMemory> {
        into.push(self.root.handle)?;
        push_queue(&self.to_come, into)?;
        push_all(self.outcomes.as_slice(), into)?;
        push_all(self.standings.as_slice(), into)?;
        push_all(self.kept.as_slice(), into)
    }
}

impl Ledger {
    /// Whether all but the outcomes is the same but for the numbers of handles. Takes no memory.
    #[tactic(auto, using(crate::proofs::LikeSeats::plans_map, crate::proofs::LikeSeats::standings_map, crate::proofs::LikeSeats::kept_map))]
    pub(crate) fn is_like_beside_outcomes(&self, other: &Ledger) -> bool
        ensures { IsTrue result
            ↔ (ledger_by (λ h. 0) (record self.now { outcomes = [] })
            ≡ ledger_by (λ h. 0) (record other.now { outcomes = [] })) }
    {
        if !like_roots(&self.root, &other.root) || !like_queues(&self.to_come, &other.to_come) {
            return false;
        }
        if !like_all(self.standings.as_slice(), other.standings.as_slice()) {
            return false;
        }
        like_all(self.kept.as_slice(), other.kept.as_slice())
    }
}

/// Whether a call ended in the same way as another, but for the numbers of handles.
pub fn is_like_outcome(outcome: &Outcome, other: &Outcome) -> bool
    ensures { IsTrue result ↔ (outcome_by (λ h. 0) outcome.now ≡ outcome_by (λ h. 0) other.now) }
{
    outcome.is_like(other)
}

/// Whether the calls ended in the same way, one by one, but for the numbers of handles.
pub fn like_outcomes(outcomes: &[Outcome], others: &[Outcome]) -> bool
    ensures { IsTrue result ↔ (outcomes_by (λ h. 0) outcomes.now ≡ outcomes_by (λ h. 0) others.now) }
{
    like_all(outcomes, others)
}
