//! What holds of drawings.
ghost use Rattle.std.specs.Prelude.{◌≡◌};
ghost use Rattle.drawings.specs.declared.look.TheConstants.{COLUMNS, COLUMNS_MIN, COLUMNS_MAX};
ghost use Rattle.drawings.specs.declared.picture.TheConstants.{ACTORS_MAX, LINES_MAX};
ghost use Rattle.drawings.specs.declared.svg.TheConstants.{SHOWN_MAX, HEAD_MAX};
ghost use Rattle.drawings.specs.declared.text.TheConstants.{MARK_COLUMNS};
ghost use Rattle.drawings.specs.DrawingLaws.{XmlTextIsPlain, SvgIsWellFormed, RowsFit, NothingIsCut, PiecesFit, MarksFit, HeadingFits, LegendFits};

/// In SVG no byte of a name, a path or a link's text stands as markup, whatever it is: what is shown of any text has
/// printed bytes and blanks alone, and `&`, `<`, `>` and the quotation marks only as entities.
pub fn xml_text_is_plain()
    ensures { XmlTextIsPlain }
{}

/// As SVG a picture is well-formed XML, whatever its texts are: one element, in which each element that is opened is
/// closed by its own name, no attribute stands twice, and all else is text in which no byte stands as markup.
pub fn svg_is_well_formed()
    ensures { SvgIsWellFormed }
{}

/// As text no line is wider than the columns that it may have, but for what begins and ends a colour, and each moment
/// has room. The rows of a line have all of its text, in order.
pub fn rows_fit()
    ensures rows { RowsFit }
    ensures whole { NothingIsCut }
    ensures pieces { PiecesFit }
    ensures marks { MarksFit }
    ensures heading { HeadingFits }
    ensures legend { LegendFits }
{}

/// The limits of a drawing, as numbers: at most 4 actors and 2,000 lines; as text 100 columns a line, or 40 to 10,000
/// where that is asked for, 6 of them for the moment; as SVG at most 55 bytes of a text, and 1,000 in the heading.
pub fn drawing_limits_are_numbers()
    ensures actors { ACTORS_MAX ≡ 4 }
    ensures lines { LINES_MAX ≡ 2000 }
    ensures columns { COLUMNS ≡ 100 }
    ensures fewest { COLUMNS_MIN ≡ 40 }
    ensures most { COLUMNS_MAX ≡ 10000 }
    ensures marks { MARK_COLUMNS ≡ 6 }
    ensures shown { SHOWN_MAX ≡ 55 }
    ensures heading { HEAD_MAX ≡ 1000 }
{}
