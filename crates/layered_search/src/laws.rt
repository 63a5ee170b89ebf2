//! What holds of all schedules: laws, the contracts of functions without a body.
ghost use Rattle.layered_search.specs.Concluded.{FoundClassesHaveLeasts, CountsConclude};
ghost use Rattle.layered_search.specs.Merged.{WordsAreLists};
ghost use Rattle.layered_search.specs.Search.{ChosenListsStandForAll};

use crate::system::TransitionSystem;

/// Where of each list that was chosen, and each actor who has something left to do after it, one was chosen that leads
/// to a state like that after the actor's turn, there the chosen lists come to all that the full lists come to.
pub fn chosen_lists_stand_for_all<S: TransitionSystem>(system: &S)
    ensures { ChosenListsStandForAll (S.system system.now) }
{}

/// What a layered graph stands for. Where its first graph node is for the beginning, each graph node that ends words
/// for states in which nobody has anything left to do, and the edges from each other graph node are the turns of all
/// actors who may have the next one, there the graph's words are exactly the lists that are asked for: of each the
/// class says the outcome, and the edges the cuts and the changes of actor.
pub fn words_are_lists<S: TransitionSystem>(system: &S)
    ensures { WordsAreLists (S.system system.now) }
{}

/// What is concluded from the counts of such a graph. Where each class was found by a list that is asked for, and no
/// two have the same outcome, there each class has a least list that was counted. And where each class has that list
/// and the number that was counted of it, there the classes are what all lists that are asked for come to: all
/// outcomes, each once, the least list of each, and how many lists lead to it; and so many lists there are in all, the
/// longest of that length.
pub fn counts_conclude<S: TransitionSystem>(system: &S)
    ensures leasts { FoundClassesHaveLeasts (S.system system.now) }
    ensures merged { CountsConclude (S.system system.now) }
{}
