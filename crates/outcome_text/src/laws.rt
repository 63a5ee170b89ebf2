//! What holds of replies, of the numbers that are told, and of outcomes that are told in pieces: laws, each the
//! contract of a function without a body.
ghost use Rattle.std.specs.Prelude.{◌≡◌};
ghost use Rattle.outcome_text.specs.declared.counts.TheConstants.{COUNT_MAX};
ghost use Rattle.outcome_text.specs.InPieces.{OneListIsToldAsOne, PiecesTellTheWhole, SameReportsAreToldAlike};
ghost use Rattle.outcome_text.specs.Tellable.{RepliesHaveHeads, RepliesPass};

/// Each reply begins, by words, with one of those that a property's text may go on with. So a text isn't refused that
/// is the line of a reply, or begins it and ends with a word.
pub fn replies_have_heads()
    ensures heads { RepliesHaveHeads }
    ensures pass { RepliesPass }
{}

/// Numbers of schedules are exact below 10^18.
pub fn count_limit_is_a_number()
    ensures { COUNT_MAX ≡ 1000000000000000000 }
{}

/// Outcomes that are told in pieces are told as the whole is: by the same text, and with the same answer. An outcome's
/// pieces look the same and have the same lines; the first of them, in the order of their least lists, is told as the
/// outcome is, but for the number of lists; and as many lists come to the pieces as to the whole, whatever is asked of
/// looks and lines. So it doesn't matter for the text in how many parts its schedules were gone through.
pub fn pieces_tell_the_whole()
    ensures { PiecesTellTheWhole }
{}

/// Reports with the same replies, nodes, counts of open handles and steps outside look the same and have the same
/// lines, whatever schedules lead to them. What is told of one least schedule is the same but for the number of lists.
pub fn same_reports_are_told_alike()
    ensures alike { SameReportsAreToldAlike }
    ensures one { OneListIsToldAsOne }
{}
