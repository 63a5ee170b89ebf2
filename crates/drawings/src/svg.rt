//! A picture as SVG (Scalable Vector Graphics 1.1, W3C).
ghost use Rattle.std.specs.Prelude.{◌≡◌, ◌<◌, ◌≤◌, ◌+◌, length, All, OnOk, codes};
ghost use Rattle.event_log.specs.Output.{Gains};
ghost use Rattle.drawings.specs.declared.picture.Head.{Head as HeadValue};
ghost use Rattle.drawings.specs.DrawingLaws.{AreBytes, IsLine};
ghost use Rattle.drawings.specs.Xml.{IsDocument};
ghost use Rattle.drawings.specs.Svg.{tag, xml_byte, xml_text, tone_end, text_at, life_line, column_x, names_y, heading_y, line_y, svg_heading, svg_headings, svg_column, svg_columns, svg_dot, dot_if, svg_place, svg_line, svg_lines, heading_width, wider, widest, svg_head, about, svg_of};

use crate::cells::{actor_name, cut, mark_of};
use crate::picture::{ACTORS_MAX, Head, LINES_MAX, Line, Picture, Tone};
use event_log::Output;
use path_text::NoMemory;
use std::alloc::Global;

/// How many bytes of a line are shown.
pub const SHOWN_MAX: usize = 55;

/// How many bytes of a line of the heading are shown.
pub const HEAD_MAX: usize = 1000;

// Adds one byte of a text: what XML takes for markup as its entity (XML 1.0, section 4.6), a blank and any other
// printed byte as it is, and the rest as `\x` and two hexadecimal digits.
fn xml_byte(out: &mut Output, byte: u8) -> Result<(), NoMemory>
    ensures { Gains out.old out.new (xml_byte byte) result }
{
    match byte {
        b'&' => out.text("&amp;"),
        b'<' => out.text("&lt;"),
        b'>' => out.text("&gt;"),
        b'"' => out.text("&quot;"),
        b'\'' => out.text("&apos;"),
        b' ' => out.text(" "),
        b'\\' => out.text("\\"),
        _ => out.escaped(&[byte]),
    }
}

// Adds a text of an element.
fn xml_text(out: &mut Output, text: &[u8]) -> Result<(), NoMemory>
    ensures { Gains out.old out.new (xml_text text.now) result }
{
    for byte in text {
        xml_byte(out, *byte)?;
    }
    Ok(())
}

// Adds two numbers, with a text before each, and a last text.
fn tag(
    out: &mut Output,
    first: &str,
    x: u64,
    second: &str,
    y: u64,
    last: &str,
) -> Result<(), NoMemory>
    ensures { Gains out.old out.new (tag first.now x second.now y last.now) result }
{
    out.text(first)?;
    out.number(x)?;
    out.text(second)?;
    out.number(y)?;
    out.text(last)
}

// What ends the opening tag of a text.
fn tone_end(tone: Tone) -> &'static str
    ensures { result.now ≡ tone_end tone }
{
    match tone {
        Tone::Plain => "'>",
        Tone::Good => "' fill='#1a7f37'>",
        Tone::Failed => "' fill='#9a6700'>",
        Tone::Bad => "' fill='#c0182b'>",
    }
}

// Adds a text that begins at a place.
#[tactic(auto, unfolding(crate::specs::Svg::text_at))]
fn text_at(out: &mut Output, x: u64, y: u64, tone: Tone, text: &[u8]) -> Result<(), NoMemory>
    ensures { Gains out.old out.new (text_at x y tone text.now) result }
{
    tag(out, "<text x='", x, "' y='", y, tone_end(tone))?;
    xml_text(out, text)?;
    out.text("</text>\n")
}

// Where the column of an actor begins.
fn column_x(actor: u64) -> u64
    requires { actor < ACTORS_MAX }
    ensures x { result ≡ column_x actor }
    ensures small { result ≤ 1538 }
{
    56 + 494 * actor
}

// Where the names of the columns stand, below so many lines of the heading.
fn names_y(heads: usize) -> u64
    requires { heads ≤ LINES_MAX }
    ensures y { result ≡ names_y heads }
    ensures small { result ≤ 44033 }
{
    33 + 22 * heads as u64
}

// Where the text of a line of the heading stands.
fn heading_y(at: usize) -> u64
    requires { at ≤ LINES_MAX }
    ensures { result ≡ heading_y at }
{
    22 + 22 * at as u64
}

// Where the text of a line stands; past the last line, where the picture ends.
fn line_y(at: usize) -> u64
    requires { at ≤ LINES_MAX }
    ensures y { result ≡ line_y at }
    ensures small { result ≤ 44066 }
{
    66 + 22 * at as u64
}

// Adds a line of the heading by its place.
fn heading(out: &mut Output, alloc: Global, at: usize, head: &Head) -> Result<(), NoMemory>
    requires { at ≤ LINES_MAX }
    ensures told { Gains out.old out.new (svg_heading at head.now) result }
    ensures bytes { AreBytes head.now.text }
{
    let mut text = Output::new(alloc);
    let whole = head.text.as_slice();
    cut(&mut text, HEAD_MAX, whole)?;
    text_at(out, 8, heading_y(at), head.tone, text.as_slice())
}

// Adds the heading.
fn headings(alloc: Global, out: &mut Output, heads: &[Head]) -> Result<(), NoMemory>
    requires { length heads.now ≤ LINES_MAX }
    ensures told { Gains out.old out.new (svg_headings heads.now) result }
    ensures bytes { OnOk result (All (λ (head : HeadValue). AreBytes head.text) heads.now) }
{
    for (at, head) in heads.iter().enumerate() {
        heading(out, alloc, at, head)?;
    }
    Ok(())
}

// Adds a line down from below the columns' names.
#[tactic(auto, unfolding(crate::specs::Svg::life_line))]
fn life_line(out: &mut Output, x: u64, start: u64, end: u64) -> Result<(), NoMemory>
    ensures { Gains out.old out.new (life_line x start end) result }
{
    tag(out, "<path stroke='#8a93a5' d='M", x, " ", start, "V")?;
    out.number(end)?;
    out.text("'/>\n")
}

// Adds an actor's name and its life line, below so many lines of the heading.
fn column(
    alloc: Global,
    out: &mut Output,
    heads: usize,
    end: u64,
    actor: u64,
) -> Result<(), NoMemory>
    requires few { actor < ACTORS_MAX }
    requires short { heads ≤ LINES_MAX }
    ensures { Gains out.old out.new (svg_column heads end actor) result }
{
    let (x, y) = (column_x(actor), names_y(heads));
    let name = actor_name(alloc, actor)?;
    text_at(out, x, y, Tone::Plain, name.as_slice())?;
    life_line(out, x + 8, y + 11, end)
}

// Adds the column of each actor.
fn columns(
    alloc: Global,
    out: &mut Output,
    heads: usize,
    end: u64,
    actors: u64,
) -> Result<(), NoMemory>
    requires few { actors ≤ ACTORS_MAX }
    requires short { heads ≤ LINES_MAX }
    ensures { Gains out.old out.new (svg_columns heads end actors) result }
{
    for actor in 0..actors {
        column(alloc, out, heads, end, actor)?;
    }
    Ok(())
}

// Adds the dot on a life line.
#[tactic(auto, unfolding(crate::specs::Svg::svg_dot))]
fn dot(out: &mut Output, x: u64, y: u64) -> Result<(), NoMemory>
    ensures { Gains out.old out.new (svg_dot x y) result }
{
    tag(out, "<circle r='4' cx='", x, "' cy='", y, "'/>\n")
}

// Adds the dot of what has a moment.
fn dot_if(out: &mut Output, dotted: bool, x: u64, y: u64) -> Result<(), NoMemory>
    ensures { Gains out.old out.new (dot_if dotted x y) result }
{
    if dotted { dot(out, x, y) } else { Ok(()) }
}

// Adds what stands in the column of a line's actor, where it has one.
fn place(alloc: Global, out: &mut Output, actors: u64, y: u64, line: &Line) -> Result<(), NoMemory>
    requires actors { actors ≤ ACTORS_MAX }
    requires low { 5 ≤ y }
    ensures told { Gains out.old out.new (svg_place actors y line.now) result }
    ensures bytes { AreBytes line.now.text }
{
    let told = line.text.as_slice();
    if line.actor >= actors {
        return Ok(());
    }
    let x = column_x(line.actor);
    let mut text = Output::new(alloc);
    cut(&mut text, SHOWN_MAX, told)?;
    dot_if(out, line.moment.is_some(), x + 8, y - 5)?;
    text_at(out, x + 26, y, line.tone, text.as_slice())
}

// Adds a line by its place in the picture.
fn line(
    alloc: Global,
    out: &mut Output,
    actors: u64,
    at: usize,
    line: &Line,
) -> Result<(), NoMemory>
    requires actors { actors ≤ ACTORS_MAX }
    requires short { at < LINES_MAX }
    ensures told { Gains out.old out.new (svg_line actors at line.now) result }
    ensures bytes { OnOk result (IsLine line.now) }
{
    let y = line_y(at);
    let mark = mark_of(alloc, line.moment)?;
    text_at(out, 8, y, Tone::Plain, mark.as_slice())?;
    place(alloc, out, actors, y, line)
}

// Adds all lines, below so many of the heading.
fn lines(
    alloc: Global,
    out: &mut Output,
    actors: u64,
    heads: usize,
    lines: &[Line],
) -> Result<(), NoMemory>
    requires actors { actors ≤ ACTORS_MAX }
    requires short { heads + length lines.now ≤ LINES_MAX }
    ensures told { Gains out.old out.new (svg_lines actors heads lines.now) result }
    ensures bytes { OnOk result (All IsLine lines.now) }
{
    for (at, drawn) in lines.iter().enumerate() {
        line(alloc, out, actors, heads + at, drawn)?;
    }
    Ok(())
}

// How wide a line of the heading is.
fn heading_width(head: &Head) -> u64
    ensures width { result ≡ heading_width head.now }
    ensures small { result ≤ 8016 }
{
    let whole = head.text.as_slice().len();
    let shown = if whole <= HEAD_MAX { whole } else { HEAD_MAX };
    16 + 8 * shown as u64
}

// The greater of two widths.
fn wider(width: u64, other: u64) -> u64
    ensures { result ≡ wider width other }
{
    if width < other { other } else { width }
}

// How wide a picture is that has this width for its columns: no line of the heading is wider.
fn widest(columns: u64, heads: &[Head]) -> u64
    requires { columns ≤ 8016 }
    ensures width { result ≡ widest columns heads.now }
    ensures small { result ≤ 8016 }
{
    let mut width = columns;
    for head in heads {
        width = wider(width, heading_width(head));
    }
    width
}

// Adds the opening tag.
#[tactic(auto, unfolding(crate::specs::Svg::svg_head))]
fn head(out: &mut Output, width: u64, height: u64) -> Result<(), NoMemory>
    ensures { Gains out.old out.new (svg_head width height) result }
{
    tag(
        out,
        "<svg xmlns='http://www.w3.org/2000/svg' xml:space='preserve' style='background:white' font-family='monospace' font-size='13' viewBox='0 0 ",
        width,
        " ",
        height,
        "' width='",
    )?;
    tag(out, "", width, "' height='", height, "'>\n")
}

// Adds what the picture is, what its colours say, and that blanks count for browsers, which read no xml:space above.
#[tactic(auto, unfolding(crate::specs::Svg::about))]
fn about(out: &mut Output) -> Result<(), NoMemory>
    ensures { Gains out.old out.new about result }
{
    out.text("<title>A run of calls below a root</title>\n")?;
    out.text(
        "<desc>A column for each actor, and a line for each step at its moment. Red: what is outside of the root is opened or held, or a check says no. Green: a check says yes, or a call did what it was to do. Brown: a call failed. Where a moment is missing, an actor closed a handle.</desc>\n",
    )?;
    out.text("<style>text{white-space:pre}</style>\n")
}

impl Picture {
    /// Adds the picture as SVG, in ASCII: what it is, the heading's lines, for each actor its name and a life line,
    /// and each line's moment, dot and text. The picture is as wide as its heading. A text over 55 bytes is cut, and
    /// ends in a tilde; of the heading one over 1,000. What is well is green, what failed is brown, and what stands
    /// outside is red. No byte of a text stands as markup: `&`, `<`, `>` and the quotation marks are entities.
    /// NoMemory where its room was refused.
    pub fn svg(&self, alloc: Global, out: &mut Output) -> Result<(), NoMemory>
        ensures told { Gains out.old out.new (svg_of self.now) result }
        ensures xml { OnOk result (IsDocument (codes "svg") (svg_of self.now)) }
    {
        let heads = self.heads.len();
        let end = line_y(heads + self.lines.len());
        head(out, widest(48 + 494 * self.actors, &self.heads), end)?;
        about(out)?;
        headings(alloc, out, &self.heads)?;
        columns(alloc, out, heads, end, self.actors)?;
        lines(alloc, out, self.actors, heads, &self.lines)?;
        out.text("</svg>\n")
    }
}
