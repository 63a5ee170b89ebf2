//! What the definitions come to on a small machine: a law, the contract of a function without a body.
ghost use Rattle.step_machine.specs.WorkedLookUp.{LookUpIsWorked};

/// A call that opens one name and closes what it opened, computed: which lines lead to its ends, and that no others do.
pub fn worked_look_up()
    ensures { LookUpIsWorked }
{}
