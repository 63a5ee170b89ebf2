//! What all schedules of a world come to: laws, each the contract of a function without a body.
ghost use Rattle.further_world_laws.specs.OneAnswer.{AnswersAreOne};
ghost use Rattle.further_world_laws.specs.Parts.{AllBeginningsCover, PartsMakeTheWhole, SearchesTellParts, WholeIsAPart};

/// There is one answer to what all schedules of a world come to, or those with few cuts. Two answers of which
/// `IsMerged` of `explore` holds tell the same: as many lists, as many turns in the longest, and the same outcomes,
/// each with the same least list, report and number of lists. So however a search is carried out, it tells the same but
/// for the order of its classes and the number of its states.
pub fn answers_are_one()
    ensures { AnswersAreOne }
{}

/// The answers for parts of all schedules make the answer for all of them. A part is the lists that begin with the
/// same turns. Where each list that is asked for is in just one part, an answer is that for all if and only if it is
/// made of the parts' answers so. There are as many lists as in all of them, up to `COUNT_CAP`, and at least one. The
/// longest has as many turns as the longest of any part. The parts' classes with one outcome are one class: it has as
/// many lists as they, up to the cap, and the least of their least lists, with its report. All lists are one part, too:
/// that which begins with no turns.
pub fn merged_parts_are_whole()
    ensures parts { PartsMakeTheWhole }
    ensures whole { WholeIsAPart }
{}

/// What a search of the lists that begin with some turns tells is the answer for that part. So what searches of all
/// beginnings of one length tell makes the answer for all lists.
pub fn searches_tell_parts()
    ensures { SearchesTellParts }
{}

/// All beginnings of one length part all schedules so: each list that is asked for begins with just one list of that
/// many turns, each of an actor who has something left to do then, with no more cuts than are asked for; or it is a
/// full list of fewer turns itself.
pub fn all_beginnings_cover()
    ensures { AllBeginningsCover }
{}
