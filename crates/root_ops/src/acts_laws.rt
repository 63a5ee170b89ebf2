//! What a call does once its walks are over: a law, the contract of a function without a body.
ghost use Rattle.root_ops.specs.Acts.{CallsAct};

/// The step after the walks, in every legal history, whoever acts meanwhile. Where a create, a remove or a rename is
/// Done, one own event after its walks changed entries: its step, through the handles that the walks found, on what
/// these are open on, as the step table says of the entries at that event's moment. A link's text is the one that
/// was there as it was read. A fault is that of a text or its split, that of a walk, the refusal of that own event
/// by the step table, or a want; of a rename after a slash also that the entry was no directory, or could not be
/// opened. A rename has two walks with the call's flags, the second begun after the first, and the headline holds of
/// both (mknod(2), mkdir(2), symlink(2), readlink(2), unlink(2), rmdir(2), renameat2(2)).
pub fn calls_act()
    ensures { CallsAct }
{}
