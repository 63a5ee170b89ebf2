//! What holds of every conversation: laws, each the contract of a function without a body.
ghost use Rattle.give_entry.specs.Promises.{EachIsClosed, FailsByTheLast, FewCome, GivesTheOne, GivesWhatFits};

/// What is given was opened by the entry's name, and looked at since. It is of the kind that the call has made, and a
/// device has its number. If a descriptor tells which object the call has made, it is this object, by the same mount;
/// else a link has the text that the call wrote.
pub fn what_is_given_was_seen_to_be_the_one()
    ensures { GivesTheOne }
{}

/// The first system call opens the entry, and no other one opens anything. What is looked at, read or closed is open
/// then. In the end nothing is open but what is given: each descriptor is closed once, or given; the one by which the
/// file was made is closed.
pub fn each_descriptor_is_closed_once_or_given()
    ensures { EachIsClosed }
{}

/// It fails by the last error that it met. EAGAIN says that there was no such entry, or that it isn't the one; no error
/// of a system call is told as another, except for ENOENT of the open.
pub fn why_it_fails()
    ensures { FailsByTheLast }
{}

/// It is given if no error was met.
pub fn what_fits_is_given()
    ensures { GivesWhatFits }
{}

/// There are five exchanges at most, except for signals.
pub fn calls_are_few()
    ensures { FewCome }
{}
