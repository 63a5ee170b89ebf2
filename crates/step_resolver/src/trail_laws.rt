//! How trails and stops are put together: laws, each the contract of a function without a body.
ghost use Rattle.step_resolver.specs.TrailLaws.{MomentsAndLinks, MoreLinksLead, QuietMeaningsAreReached, QuietTrailsMean, StopsOfMore, TrailsAppend, TrailsSplit};

/// A trail over parts, then a trail or a stop over others from where it leads, is one over both.
pub fn trails_append()
    ensures trails { TrailsAppend }
    ensures stops { StopsOfMore }
{}

/// A trail or a stop over appended parts is a trail over the first and then one over the second, or a stop in the
/// first.
pub fn trails_split()
    ensures { TrailsSplit }
{}

/// Along a trail moments never fall and the links left never rise; with more links left at its beginning, as many
/// more are left at its end.
pub fn links_add_up()
    ensures rising { MomentsAndLinks }
    ensures more { MoreLinksLead }
{}

/// Where nothing changes meanwhile, what a trail leads to is what its parts mean, with the same links left, and it
/// stands at the names passed; and where the parts mean an object, a trail leads to it.
pub fn quiet_trails_mean()
    ensures means { QuietTrailsMean }
    ensures reached { QuietMeaningsAreReached }
{}
