//! A picture as text.
ghost use Rattle.std.specs.Prelude.{◌≡◌, ◌<◌, ◌≤◌, IfOk};
ghost use Rattle.std.specs.List.{flat_map};
ghost use Rattle.event_log.specs.Output.{Gains};
ghost use Rattle.drawings.specs.declared.look.TheConstants.{COLUMNS_MIN};
ghost use Rattle.drawings.specs.declared.look.Colours.TheVariants.{Off};
ghost use Rattle.drawings.specs.Cells.{actor_name};
ghost use Rattle.drawings.specs.Text.{cell_width, tone_begin, tone_end, cell, no_tone, shown, tone_shown, cells, head_row, mark_at, line_row, line_rows, heading_row, legend_text, table, text_of};

use crate::cells::{actor_name, cut, fitted, mark_of, row_end, to_right};
use crate::look::{Colours, Legend, Look};
use crate::picture::{ACTORS_MAX, Head, Line, Picture, Tone};
use event_log::Output;
use path_text::NoMemory;
use std::alloc::Global;

/// How wide the moment at the beginning of a line is.
pub const MARK_COLUMNS: usize = 6;

// How wide the cell of each actor is.
fn cell_width(actors: u64, columns: usize) -> usize
    requires some { 0 < actors }
    requires few { actors ≤ ACTORS_MAX }
    requires enough { COLUMNS_MIN ≤ columns }
    ensures width { result ≡ cell_width actors columns }
    ensures some { 0 < result }
{
    (columns - 8) / actors as usize - 3
}

// What a terminal takes for the colour of a tone, and none where it has none.
fn tone_begin(colours: Colours, tone: Tone) -> &'static str
    ensures { result.now ≡ tone_begin colours tone }
{
    match (colours, tone) {
        (Colours::Off, _) | (Colours::On, Tone::Plain) => "",
        (Colours::On, Tone::Good) => "\x1b[32m",
        (Colours::On, Tone::Failed) => "\x1b[33m",
        (Colours::On, Tone::Bad) => "\x1b[31m",
    }
}

// What ends it.
fn tone_end(colours: Colours, tone: Tone) -> &'static str
    ensures { result.now ≡ tone_end colours tone }
{
    match (colours, tone) {
        (Colours::Off, _) | (Colours::On, Tone::Plain) => "",
        (Colours::On, _) => "\x1b[0m",
    }
}

// Adds a bar and a cell.
fn cell(
    out: &mut Output,
    width: usize,
    colours: Colours,
    tone: Tone,
    text: &[u8],
) -> Result<(), NoMemory>
    requires { 0 < width }
    ensures { Gains out.old out.new (cell width colours tone text.now) result }
{
    out.text(" | ")?;
    out.text(tone_begin(colours, tone))?;
    fitted(out, width, text)?;
    out.text(tone_end(colours, tone))
}

// Adds the name of each actor.
fn names(alloc: Global, out: &mut Output, actors: u64, width: usize) -> Result<(), NoMemory>
    requires { 0 < width }
    ensures { Gains out.old out.new (cells actors width Off no_tone actor_name) result }
{
    for actor in 0..actors {
        let name = actor_name(alloc, actor)?;
        cell(out, width, Colours::Off, Tone::Plain, name.as_slice())?;
    }
    Ok(())
}

// What the column of an actor shows of a line: a piece of its text where the line is the actor's.
fn shown<'a>(line: &Line, piece: &'a [u8], actor: u64) -> &'a [u8]
    ensures { result.now ≡ shown line.now piece.now actor }
{
    if actor == line.actor { piece } else { &[] }
}

// How it looks.
fn tone_shown(line: &Line, actor: u64) -> Tone
    ensures { result ≡ tone_shown line.now actor }
{
    if actor == line.actor {
        line.tone
    } else {
        Tone::Plain
    }
}

// Adds each actor's cell of a row.
fn cells(
    out: &mut Output,
    actors: u64,
    width: usize,
    colours: Colours,
    line: &Line,
    piece: &[u8],
) -> Result<(), NoMemory>
    requires { 0 < width }
    ensures { Gains out.old out.new
        (cells actors width colours (tone_shown line.now) (shown line.now piece.now)) result }
{
    for actor in 0..actors {
        let tone = tone_shown(line, actor);
        cell(out, width, colours, tone, shown(line, piece, actor))?;
    }
    Ok(())
}

// Adds the names of the columns.
fn head_row(alloc: Global, out: &mut Output, actors: u64, columns: usize) -> Result<(), NoMemory>
    requires some { 0 < actors }
    requires few { actors ≤ ACTORS_MAX }
    requires enough { COLUMNS_MIN ≤ columns }
    ensures { Gains out.old out.new (head_row actors columns) result }
{
    to_right(out, MARK_COLUMNS, &[])?;
    names(alloc, out, actors, cell_width(actors, columns))?;
    out.text(" |\n")
}

// What stands for a moment in the row of that number.
fn mark_at(alloc: Global, moment: Option<u64>, at: usize) -> Result<Output, NoMemory>
    ensures { IfOk result (λ mark. mark ≡ mark_at moment at) }
{
    mark_of(alloc, if at == 0 { moment } else { None })
}

// Adds the row of that number of a line, which shows a piece of the line's text.
fn line_row(
    alloc: Global,
    out: &mut Output,
    actors: u64,
    columns: usize,
    colours: Colours,
    line: &Line,
    at: usize,
    piece: &[u8],
) -> Result<(), NoMemory>
    requires some { 0 < actors }
    requires few { actors ≤ ACTORS_MAX }
    requires enough { COLUMNS_MIN ≤ columns }
    ensures { Gains out.old out.new (line_row actors columns colours line.now at piece.now) result }
{
    let mark = mark_at(alloc, line.moment, at)?;
    to_right(out, MARK_COLUMNS, mark.as_slice())?;
    cells(
        out,
        actors,
        cell_width(actors, columns),
        colours,
        line,
        piece,
    )?;
    out.text(" |\n")
}

// Adds the rows of a line: as many as its text needs.
fn line_rows(
    alloc: Global,
    out: &mut Output,
    actors: u64,
    columns: usize,
    colours: Colours,
    line: &Line,
) -> Result<(), NoMemory>
    requires some { 0 < actors }
    requires few { actors ≤ ACTORS_MAX }
    requires enough { COLUMNS_MIN ≤ columns }
    ensures { Gains out.old out.new (line_rows actors columns colours line.now) result }
{
    let text = line.text.as_slice();
    let mut rest = text;
    for at in 0..text.len() {
        if rest.is_empty() {
            break;
        }
        let end = row_end(cell_width(actors, columns), rest);
        line_row(alloc, out, actors, columns, colours, line, at, &rest[..end])?;
        rest = &rest[end..];
    }
    Ok(())
}

// Adds all lines.
fn all_rows(
    alloc: Global,
    out: &mut Output,
    actors: u64,
    columns: usize,
    colours: Colours,
    lines: &[Line],
) -> Result<(), NoMemory>
    requires some { 0 < actors }
    requires few { actors ≤ ACTORS_MAX }
    requires enough { COLUMNS_MIN ≤ columns }
    ensures { Gains out.old out.new (flat_map (line_rows actors columns colours) lines.now) result }
{
    for line in lines {
        line_rows(alloc, out, actors, columns, colours, line)?;
    }
    Ok(())
}

// Adds a line of the heading.
fn heading_row(
    out: &mut Output,
    columns: usize,
    colours: Colours,
    head: &Head,
) -> Result<(), NoMemory>
    requires { COLUMNS_MIN ≤ columns }
    ensures { Gains out.old out.new (heading_row columns colours head.now) result }
{
    out.text(tone_begin(colours, head.tone))?;
    cut(out, columns, head.text.as_slice())?;
    out.text(tone_end(colours, head.tone))?;
    out.text("\n")
}

// Adds the heading.
fn heading_rows(
    out: &mut Output,
    columns: usize,
    colours: Colours,
    heads: &[Head],
) -> Result<(), NoMemory>
    requires { COLUMNS_MIN ≤ columns }
    ensures { Gains out.old out.new (flat_map (heading_row columns colours) heads.now) result }
{
    for head in heads {
        heading_row(out, columns, colours, head)?;
    }
    Ok(())
}

// What is said below the heading.
fn legend_text(legend: Legend) -> &'static str
    ensures { result.now ≡ legend_text legend }
{
    match legend {
        Legend::Off => "",
        Legend::NoCloses => "closes are left out (--all shows them)\n",
    }
}

impl Picture {
    // Adds the table.
    fn table(
        &self,
        alloc: Global,
        out: &mut Output,
        columns: usize,
        colours: Colours,
    ) -> Result<(), NoMemory>
        requires { COLUMNS_MIN ≤ columns }
        ensures { Gains out.old out.new (table columns colours self.now) result }
    {
        head_row(alloc, out, self.actors, columns)?;
        all_rows(alloc, out, self.actors, columns, colours, &self.lines)
    }

    /// Adds the picture as text: its heading, an empty line, and a table: the columns' names, and then each line,
    /// with its moment and a column for each actor. No line is wider than the columns that `look` has: a text that is
    /// too wide for its column goes on in the next row, and in the heading it is cut, and ends in a tilde. With colours
    /// what begins and ends one stands around a line of the heading and a cell: what is well is green, what failed is
    /// yellow, and what stands outside is red. NoMemory where its room was refused.
    pub fn text(&self, alloc: Global, out: &mut Output, look: Look) -> Result<(), NoMemory>
        ensures { Gains out.old out.new (text_of look self.now) result }
    {
        let columns = look.columns.count();
        heading_rows(out, columns, look.colours, &self.heads)?;
        out.text(legend_text(look.legend))?;
        out.text("\n")?;
        self.table(alloc, out, columns, look.colours)
    }
}
