//! Laws of the meaning of a path, each the contract of a function without a body.
ghost use Rattle.step_resolver.specs.MeaningLaws.{AppendedPartsMean, NestingDoesNotMatter, LinksNeverRise, LinksAreTheirTexts, DeepestIsFrontAndRest, DeepestMeansTheSame, PartsFailAsPaths, PartsLeadBelow, UpIsNeverMissing};
ghost use Rattle.step_resolver.specs.WorkedPaths.{NamesAreWorked, LinksAreWorked, BudgetIsWorked, SlashesAreWorked, LengthsAreWorked, BeneathIsWorked, NoLinksAreWorked, TrailIsWorked};

/// Over appended parts it is the meaning of the first parts, then that of the others from there, with the
/// entries that both read.
pub fn meaning_of_appended_parts()
    ensures { AppendedPartsMean }
{}

/// The bound on how deep links may be nested doesn't matter once it is no less than the links left, which
/// never rise.
pub fn nesting_does_not_matter()
    ensures same { NestingDoesNotMatter }
    ensures links { LinksNeverRise }
{}

/// A link that is followed means its text, put before the parts that come after it, with one link less
/// (path_resolution(7)).
pub fn links_are_their_texts()
    ensures { LinksAreTheirTexts }
{}

/// The deepest directory of a path: the object, where the whole path means one; else, where the parts are a
/// front that means a directory and a rest whose first name is missing in it, that directory and that rest;
/// else the error. It has the meaning of the whole, and reads the same entries.
pub fn deepest_is_front_and_rest()
    ensures exact { DeepestIsFrontAndRest }
    ensures same { DeepestMeansTheSame }
{}

/// The parts of a path mean an object, or fail with ENOENT, ENOTDIR, ENAMETOOLONG, ELOOP or EXDEV
/// (path_resolution(7), openat2(2)).
pub fn errors_of_parts()
    ensures { PartsFailAsPaths }
{}

/// In a tree, `..` never finds a place without a parent: whatever parts mean from the root is the root itself or
/// stands in a directory, so going up never fails with ENOENT.
pub fn up_is_never_missing()
    ensures below { PartsLeadBelow }
    ensures up { UpIsNeverMissing }
{}

/// What paths of each kind come to on a small tree, computed: names and the texts that are none, links, the forty
/// of them that are followed, slashes, long names and texts, both restrictions; and a trail through a link.
pub fn worked_paths()
    ensures names { NamesAreWorked }
    ensures links { LinksAreWorked }
    ensures budget { BudgetIsWorked }
    ensures slashes { SlashesAreWorked }
    ensures lengths { LengthsAreWorked }
    ensures beneath { BeneathIsWorked }
    ensures no_links { NoLinksAreWorked }
    ensures trail { TrailIsWorked }
{}
