//! What holds of every run of calls: laws, each the contract of a function without a body.
ghost use Rattle.std.specs.Prelude.{◌≡◌};
ghost use Rattle.tree_slab.specs.declared.cache.TheConstants.{CAP_MAX};
ghost use Rattle.tree_slab.specs.Calls.{HitsAreNotedLast, NotesAreFound, NotesAreKept, CallsKeepCaches};

/// After any calls, what a look-up finds was noted last of that entry, and not forgotten since.
pub fn hits_are_noted_last()
    ensures { HitsAreNotedLast }
{}

/// What was just noted is found.
pub fn notes_are_found()
    ensures { NotesAreFound }
{}

/// What was noted is found while fewer calls than the cap follow, none of which notes that entry anew or forgets it.
pub fn notes_are_kept()
    ensures { NotesAreKept }
{}

/// No call makes an entry be remembered twice, or more than the cap.
pub fn calls_keep_caches()
    ensures { CallsKeepCaches }
{}

/// A cap is at most 65,536.
pub fn cap_limit_is_a_number()
    ensures { CAP_MAX ≡ 65536 }
{}
