//! Copies of what an actor has to do, and of what came of it.
ghost use Rattle.std.specs.Prelude.{◌≡◌, [], IfOk};
ghost use Rattle.race_core.specs.WithoutOutcomes.{without_outcomes};

use crate::Planned;
use crate::ledger::Ledger;
use crate::report::Outcomes;
use crate::seat::Seat;
use handles::Standing;
use path_text::NoMemory;
use root_ops::Call;
use std::alloc::Global;
use std::collections::VecDeque;

mod outcomes;

impl Seat {
    /// An equal seat. NoMemory where room was refused.
    pub(crate) fn copy(&self, alloc: Global) -> Result<Seat, NoMemory>
        ensures { IfOk result (λ copy. copy ≡ self.now) }
    {
        // The call comes last, since it can't be let go.
        let ledger = self.ledger.copy(alloc)?;
        let doing = copy_doing(alloc, &self.doing)?;
        Ok(Seat { ledger, doing })
    }

    /// The same without what came of the calls that ended. NoMemory where room was refused.
    pub(crate) fn copy_without_outcomes(&self, alloc: Global) -> Result<Seat, NoMemory>
        ensures { IfOk result (λ copy. copy ≡ without_outcomes self.now) }
    {
        let ledger = self.ledger.copy_without_outcomes(alloc)?;
        let doing = copy_doing(alloc, &self.doing)?;
        Ok(Seat { ledger, doing })
    }
}

// An equal call under way, if there is one.
fn copy_doing(alloc: Global, doing: &Option<Call>) -> Result<Option<Call>, NoMemory>
    ensures { IfOk result (λ copy. copy ≡ doing.now) }
{
    match doing {
        Some(call) => Ok(Some(call.copy(alloc)?)),
        None => Ok(None),
    }
}

impl Ledger {
    // An equal ledger.
    fn copy(&self, alloc: Global) -> Result<Ledger, NoMemory>
        ensures { IfOk result (λ copy. copy ≡ self.now) }
    {
        let mut copy = self.copy_without_outcomes(alloc)?;
        copy.outcomes = copy_outcomes(alloc, &self.outcomes)?;
        Ok(copy)
    }

    // The same without outcomes.
    fn copy_without_outcomes(&self, alloc: Global) -> Result<Ledger, NoMemory>
        ensures { IfOk result (λ copy. copy ≡ record self.now { outcomes = [] }) }
    {
        Ok(Ledger {
            root: self.root,
            to_come: copy_calls(alloc, &self.to_come)?,
            outcomes: Outcomes::new(alloc),
            standings: copy_standings(alloc, self.standings.as_slice())?,
            kept: copy_kept(alloc, self.kept.as_slice())?,
        })
    }
}

// Equal calls.
fn copy_calls(alloc: Global, calls: &VecDeque<Planned>) -> Result<VecDeque<Planned>, NoMemory>
    ensures { IfOk result (λ copies. copies.items ≡ calls.now.items) }
{
    let mut copies = VecDeque::new(alloc);
    for at in 0..calls.len() {
        copies.push_back(calls[at].copy(alloc)?)?;
    }
    Ok(copies)
}

// Equal outcomes.
fn copy_outcomes(alloc: Global, outcomes: &Outcomes) -> Result<Outcomes, NoMemory>
    ensures { IfOk result (λ copies. copies ≡ outcomes.now) }
{
    let mut copies = Outcomes::new(alloc);
    for outcome in outcomes.as_slice() {
        copies.push(outcome.copy(alloc)?)?;
    }
    Ok(copies)
}

// Copies of what each call opened and still keeps.
fn copy_standings(
    alloc: Global,
    standings: &[Option<Standing>],
) -> Result<Vec<Option<Standing>>, NoMemory>
    ensures { IfOk result (λ copies. copies.items ≡ standings.now) }
{
    let mut copies = Vec::new(alloc);
    for standing in standings {
        copies.push(match standing {
            Some(standing) => Some(standing.copy(alloc)?),
            None => None,
        })?;
    }
    Ok(copies)
}

// Copies of what was another owner's to release.
fn copy_kept(alloc: Global, kept: &[Standing]) -> Result<Vec<Standing>, NoMemory>
    ensures { IfOk result (λ copies. copies.items ≡ kept.now) }
{
    let mut copies = Vec::new(alloc);
    for standing in kept {
        copies.push(standing.copy(alloc)?)?;
    }
    Ok(copies)
}
