//! What holds of every tree and every step: laws, each the contract of a function without a body.
ghost use Rattle.std.specs.Prelude.{◌≡◌};
ghost use Rattle.tree_model.specs.declared.tree.TheConstants.{HANDLES_MAX, NUMBERS_MAX};
ghost use Rattle.tree_model.specs.BaseLaws.{BaseIsTree, BaseOpens, BasePlaces, BaseEntries, BaseGone, BaseRenames, BaseRenamed};
ghost use Rattle.tree_model.specs.HistoryLaws.{LegalAtEachMoment, EventsLeadOn, TreesBeginAndEnd, LegalHistoriesJoin, LegalGoesOn, LegalWhenCut, HistoriesKeepTrees, ObjectsStayForGood, NumbersGrowByEvents, HandlesStayAmongOthers};
ghost use Rattle.tree_model.specs.PlaceLaws.{ChildStandsAtEntry, GoneNodesAreEmpty, EntriesStand, GoneNodesAreParentless, LookupsLeadToNodes, NotFoundIsMissing, StandsAtOneWay, NamesBelowAreStanding, NameBelowIsStanding, ListedAreEntries, ListedOnce};
ghost use Rattle.tree_model.specs.RowLaws.{RowsAreInOrder, RowsAreOneList, RowsArePlaces, EntriesHaveOneRow};
ghost use Rattle.tree_model.specs.StepLaws.{StepsKeepTrees, GrantsKeepTrees, TellingChangesNothing, NodesAreLeft, HandlesAreLeft, NumbersGrow, NumbersGrowByOne, ObjectsStay, OthersHandlesStay, OwnHandlesStay, ClosedIsClosed, OpenedIsOpen, HandlesAreCounted, OthersCountsStay, LimitsAreKept};

/// Every step leads from a tree to a tree: no entry is in what is no directory, no two nodes have one entry,
/// and no node becomes its own ancestor. So does a handle that is granted.
pub fn steps_keep_trees()
    ensures steps { StepsKeepTrees }
    ensures grants { GrantsKeepTrees }
{}

/// What a step leaves as it was: a refused one and one that only tells something leave everything (`telling`),
/// one that isn't on entries (Open, Dup, Parent, ReadLink, NameBelow, List and Close) leaves all nodes (`nodes`),
/// and one on entries all handles (`handles`), whoever makes it and in any state.
pub fn steps_leave_the_rest()
    ensures telling { TellingChangesNothing }
    ensures nodes { NodesAreLeft }
    ensures handles { HandlesAreLeft }
{}

/// Numbers are never used twice, a step brings at most one more of each, and a node stays what it is.
pub fn numbers_stay()
    ensures grow { NumbersGrow }
    ensures by_one { NumbersGrowByOne }
    ensures objects { ObjectsStay }
{}

/// Handles stay open on their nodes, whatever others do, until their own actor closes them.
pub fn handles_stay()
    ensures others { OthersHandlesStay }
    ensures own { OwnHandlesStay }
    ensures closed { ClosedIsClosed }
    ensures opened { OpenedIsOpen }
{}

/// An entry leads to the one node that stands there.
pub fn entries_lead_to_nodes()
    ensures child { ChildStandsAtEntry }
{}

/// A node that is gone has no entries and no parent. So the directory of an entry is not gone, nor is what stands
/// there, nor any parent: whoever looks up names and goes up from a directory that stands meets none without a
/// parent while nothing changes, and from one that is gone he finds no entry.
pub fn gone_nodes_have_no_entries()
    ensures empty { GoneNodesAreEmpty }
    ensures entries { EntriesStand }
    ensures parents { GoneNodesAreParentless }
{}

/// Whatever a step looks up is there: NotFound only ever tells of a missing entry, or of the parent of a node
/// that is gone.
pub fn lookups_lead_to_nodes()
    ensures nodes { LookupsLeadToNodes }
    ensures missing { NotFoundIsMissing }
{}

/// NameBelow's names are those at which the one node stands below the other, and there are none where it stands
/// at none.
pub fn name_below_is_standing()
    ensures one_way { StandsAtOneWay }
    ensures names { NamesBelowAreStanding }
    ensures answer { NameBelowIsStanding }
{}

/// List's names are those of the directory's entries, each once, in the order of their bytes.
pub fn listed_in_order()
    ensures entries { ListedAreEntries }
    ensures once { ListedOnce }
{}

/// The rows of a tree are its entries, in the one order there is.
pub fn rows_are_entries()
    ensures order { RowsAreInOrder }
    ensures one_list { RowsAreOneList }
    ensures places { RowsArePlaces }
    ensures one_row { EntriesHaveOneRow }
{}

/// A history is legal exactly where each event has the step table's answer in the tree at its moment, and leads
/// to the tree at the next.
pub fn histories_are_step_by_step()
    ensures answers { LegalAtEachMoment }
    ensures trees { EventsLeadOn }
    ensures ends { TreesBeginAndEnd }
{}

/// A legal history stays legal when it is cut, and goes on by what is legal in the tree that it leaves.
pub fn legal_histories_join()
    ensures joined { LegalHistoriesJoin }
    ensures one_more { LegalGoesOn }
    ensures cut { LegalWhenCut }
{}

/// At each moment of a history there is a tree, in which each node is what it was, with at most one new number
/// for each event, and whose handles of one actor no other has touched.
pub fn histories_keep_trees()
    ensures trees { HistoriesKeepTrees }
    ensures objects { ObjectsStayForGood }
    ensures numbers { NumbersGrowByEvents }
    ensures handles { HandlesStayAmongOthers }
{}

/// How many handles are open after a step, and that no step leads past the limits.
pub fn handles_are_counted()
    ensures counted { HandlesAreCounted }
    ensures others { OthersCountsStay }
    ensures limits { LimitsAreKept }
{}

/// A small tree with each kind of node is one, and the step table's answers on it.
pub fn base_tree_answers()
    ensures tree { BaseIsTree }
    ensures opens { BaseOpens }
    ensures places { BasePlaces }
    ensures entries { BaseEntries }
    ensures gone { BaseGone }
    ensures renames { BaseRenames }
    ensures renamed { BaseRenamed }
{}

/// The limits of a tree, as numbers: an actor has at most 1,024 handles open (getrlimit(2), RLIMIT_NOFILE), and a tree
/// numbers at most 2^48 nodes and as many handles.
pub fn tree_limits_are_numbers()
    ensures handles { HANDLES_MAX ≡ 1024 }
    ensures numbers { NUMBERS_MAX ≡ 281474976710656 }
{}
