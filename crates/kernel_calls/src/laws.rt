//! What holds of every conversation: laws, each the contract of a function without a body.
ghost use Rattle.kernel_calls.specs.Promises.{EntriesHold, LinksHold, PathsHold, RenamesHold};

/// What a path means is opened by one look-up of the whole path from the root, by RESOLVE_IN_ROOT or RESOLVE_BENEATH
/// and RESOLVE_NO_MAGICLINKS, and by the call's flags of open(2). The reply is its descriptor, which alone is open in
/// the end; the error is that of the look-up. A look-up that failed isn't made again, but after ENOENT to see if a name
/// is missing. There are seven exchanges at most, except for signals.
pub fn paths_are_looked_up_as_a_whole()
    ensures { PathsHold }
{}

/// An entry is made or removed by its name, in the directory that one look-up from the root opened: a look-up of just
/// the path of the entry's directory, by RESOLVE_IN_ROOT or RESOLVE_BENEATH, RESOLVE_NO_MAGICLINKS and O_DIRECTORY; or
/// in the root itself, if there is no such path. No look-up has failed then. There is one change at most, and behind it
/// no look-up but that of the entry which was made.
///
/// What is looked at, read or closed is open then. In the end nothing is open but the reply's descriptor, and what is
/// closed behind the call's end; the root is never closed. A reply without an error comes only behind a change that had
/// none; the error is that of the change, or of the look-up which failed; single steps make the call only if no change
/// was made. There are 16 exchanges at most, except for signals.
pub fn entries_are_changed_where_they_stand()
    ensures { EntriesHold }
{}

/// The same of a rename: both directories were opened by look-ups of just their paths, and are open, or are the root.
pub fn entries_are_renamed_where_they_stand()
    ensures { RenamesHold }
{}

/// The same of a call that gives a descriptor's object another name. One linkat(2) makes the name, and a second is made
/// only behind one that failed; each by the entry's name and directory, through the object's link in a /proc: the
/// program's, or one that the call has opened at /proc by O_PATH. There are 58 exchanges at most, except for signals.
pub fn objects_are_linked_where_entries_stand()
    ensures { LinksHold }
{}
