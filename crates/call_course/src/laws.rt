//! What holds of every call: laws, each the contract of a function without a body.
ghost use Rattle.std.specs.Prelude.{◌≡◌, ◌≢◌, ◌++◌, ℕ, Bool, false, Option, Some};
ghost use Rattle.system_calls.specs.Errors.{ENOMEM};
ghost use Rattle.call_course.specs.Promises.{CallsHold};
ghost use Rattle.call_course.specs.Taking.{given_by, had, listed, opened_by, taken, IsOwn};

/// What holds of each whole call, from its first try to the last one's end. There are 13 things for each of 32 tries at
/// most, and each comes where it may (`May` of `specs/Seen.antt`). `Ends` says what is left in the end.
pub fn calls_hold()
    ensures { CallsHold }
{}

/// What a call takes out of a handle is the handle's descriptor, which isn't the caller's own; or one that was opened
/// anew. The handle's descriptor, unless it is the caller's own, and the one that was opened are each given, once.
/// There is no error but ENOMEM of a descriptor that was let go, and that of the opening.
pub fn what_is_taken_is_the_calls_own()
    ensures own { (shared held : Bool) (fd given : ℕ) (anew : Option ℕ)
        → given_by (taken shared held) fd anew ≡ Some given → IsOwn shared held fd anew given }
    ensures once { (shared held : Bool) (fd : ℕ) (anew : Option ℕ)
        → opened_by (taken shared held) anew ++ had shared held fd ≡ listed (given_by (taken shared held) fd anew) }
    ensures fails { (shared held : Bool) → (taken shared held).error ≢ 0
        → ((taken shared held).error ≡ ENOMEM) × (held ≡ false) }
{}
