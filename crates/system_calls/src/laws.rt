//! What the definitions of this crate come to, as laws: each function's contract is one, and its body is empty.
ghost use Rattle.std.specs.Prelude.{◌≡◌, ℕ, ◌+◌, bit_and, bit_or, true, false};
ghost use Rattle.system_calls.specs.declared.opening.MachineFlags.{MachineFlags};
ghost use Rattle.system_calls.specs.OpenFlags.{has, IsOfMachine, O_CREAT, O_EXCL};
ghost use Rattle.system_calls.specs.Opening.{contradict, opening_of, opens, refused, ALWAYS};
ghost use Rattle.system_calls.specs.Tries.{PausesAddUp};
ghost use Rattle.system_calls.specs.Uses.{use_by, use_of};

/// Flags that contradict each other are refused, whatever else is asked.
pub fn contradictions_are_refused()
    ensures { (machine : MachineFlags) (flags mode : ℕ) → contradict machine flags ≡ true
        → opening_of machine flags mode ≡ refused }
{}

/// What was found is opened on both machines by flags that make nothing, and that don't stop at the link in /proc by
/// which it is opened.
pub fn what_is_found_is_only_opened()
    ensures creates { (machine : MachineFlags) (flags mode : ℕ) → IsOfMachine machine
        → bit_and (opening_of machine flags mode).found_flags O_CREAT ≡ 0 }
    ensures follows { (machine : MachineFlags) (flags mode : ℕ) → IsOfMachine machine
        → bit_and (opening_of machine flags mode).found_flags machine.nofollow ≡ 0 }
{}

/// What is missing is made by flags that open nothing that is there already, nor what a link leads to.
pub fn what_is_made_is_new()
    ensures { (machine : MachineFlags) (flags mode : ℕ) → (opening_of machine flags mode).makes ≡ true
        → has (opening_of machine flags mode).made_flags (bit_or (O_CREAT + O_EXCL + ALWAYS) machine.nofollow) ≡ true }
{}

/// The kind of what was found decides something only where it is asked for.
pub fn kinds_are_asked_for()
    ensures { (machine : MachineFlags) (flags mode : ℕ) → (opening_of machine flags mode).asks_kind ≡ false
        → (kind other : ℕ)
        → use_of (opening_of machine flags mode) kind ≡ use_of (opening_of machine flags mode) other }
{}

/// What is done with what was found is what open(2) means by the flags, where these are taken.
pub fn what_is_found_is_used_so()
    ensures { (machine : MachineFlags) (flags mode kind : ℕ) → opens machine flags mode ≡ true
        → use_of (opening_of machine flags mode) kind ≡ use_by machine flags kind }
{}

/// All pauses of a call together, where each try but the last one is followed by another: 18,270,000 nanoseconds.
pub fn pauses_add_up()
    ensures { PausesAddUp }
{}
