//! What an operation means where nobody else acts: laws, each the contract of a function without a body.
ghost use Rattle.root_ops.specs.Quiet.{QuietCallsMean};
ghost use Rattle.root_ops.specs.QuietWorked.{RenameIsWorked};
ghost use Rattle.root_ops.specs.MeaningLaws.{OperationsKeepTrees, OperationsKeepNodes, ErrorsChangeNothing};
ghost use Rattle.root_ops.specs.MeaningWorked.{RenamesAreWorked, MovesAreWorked, MadeAreWorked, ToldAreWorked, RemovedAreWorked};

/// What an operation means leads from a tree to a tree, in which each node is what it was and, if it is no bulk
/// call, at most one is new; and an error changes no node.
pub fn operations_keep_trees()
    ensures trees { OperationsKeepTrees }
    ensures nodes { OperationsKeepNodes }
    ensures errors { ErrorsChangeNothing }
{}

/// What operations of each kind come to on a small tree, computed: what is made, removed and renamed, which nodes
/// there are afterwards, and which error comes where nothing is.
pub fn worked_operations()
    ensures renames { RenamesAreWorked }
    ensures moves { MovesAreWorked }
    ensures made { MadeAreWorked }
    ensures told { ToldAreWorked }
    ensures removed { RemovedAreWorked }
{}

/// Where no other actor acts in a call's window, and its root's handle is open, the actor's own and on a directory,
/// the reply and the nodes after it are those that the operation means in the tree as the window begins: an object
/// is open by a new handle and stands at the names that are told, and an error changes no node. Otherwise memory,
/// room in the book or handles ran short at one of the call's lines or at its first turn, which is the reply, and no
/// node is changed either; but a MkdirAll may have made a part of what is meant, from its first directory on, and a
/// RemoveAll, which may run short of steps too, may have removed a part. It holds in every legal history, where the
/// Close of a Release is left out only if its handle isn't open.
pub fn quiet_calls_mean()
    ensures { QuietCallsMean }
{}

/// A rename of a directory by a path with a slash at its end: a legal history in which nobody else acts, computed,
/// with each of its nine steps, and what it comes to.
pub fn worked_rename()
    ensures { RenameIsWorked }
{}
