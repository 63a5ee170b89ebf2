//! Laws of the definition of a script, each the contract of a function without a body.
ghost use Rattle.std.specs.Prelude.{◌≡◌};
ghost use Rattle.scripts.specs.declared.input.TheConstants.{READS_MAX};
ghost use Rattle.scripts.specs.CallFaultLaws.{EachRefusalIsTold};
ghost use Rattle.scripts.specs.TreeLaws.{FirstRefusedIsTold};

/// The fault `tree K` is told exactly where the first K entries make a tree and entry K is refused after them: for
/// its shape, or for its place or its link text, as is told with it.
pub fn first_refused_entry_is_told()
    ensures { FirstRefusedIsTold }
{}

/// Of a call something is told as wrong exactly where the call is refused. So `call I J` always comes with what is
/// wrong.
pub fn each_refusal_is_told()
    ensures { EachRefusalIsTold }
{}

/// A script is read by at most 2,097,152 reads.
pub fn reads_limit_is_a_number()
    ensures { READS_MAX ≡ 2097152 }
{}
