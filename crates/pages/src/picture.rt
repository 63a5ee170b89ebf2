//! A picture as JSON.
ghost use Rattle.std.specs.Prelude.{◌≡◌};
ghost use Rattle.event_log.specs.Output.{Gains};
ghost use Rattle.report_text.specs.Report.{numbered};
ghost use Rattle.pages.specs.Shown.{tone_word, toned_words, head_words, moment_words, line_words, heads_words, lines_words, actors_part, heading_part, lines_part, picture_json};

use drawings::{Head, Line, Picture, Tone};
use event_log::Output;
use path_text::NoMemory;
use report_text::json_words::{comma, text};
use report_text::numbered;

// The word for how a text looks.
fn tone_word(tone: Tone) -> &'static str
    ensures { result.now ≡ tone_word tone }
{
    match tone {
        Tone::Plain => "plain",
        Tone::Good => "good",
        Tone::Failed => "failed",
        Tone::Bad => "bad",
    }
}

// Adds how a text looks, and the text, at the end of an object.
#[tactic(auto, unfolding(crate::specs::Shown::toned_words))]
fn toned(out: &mut Output, tone: Tone, told: &[u8]) -> Result<(), NoMemory>
    ensures { Gains out.old out.new (toned_words tone told.now) result }
{
    out.text("\"tone\":\"")?;
    out.text(tone_word(tone))?;
    out.text("\",\"text\":")?;
    text(out, told)?;
    out.text("}")
}

// Adds a line of the heading by its place.
fn head(out: &mut Output, at: usize, head: &Head) -> Result<(), NoMemory>
    ensures { Gains out.old out.new (head_words at head.now) result }
{
    comma(out, at)?;
    out.text("{")?;
    toned(out, head.tone, head.text.as_slice())
}

// Adds the lines of the heading.
fn heads(out: &mut Output, all: &[Head]) -> Result<(), NoMemory>
    ensures { Gains out.old out.new (numbered head_words 0 all.now) result }
{
    for (at, one) in all.iter().enumerate() {
        head(out, at, one)?;
    }
    Ok(())
}

// Adds the list of the lines of the heading.
fn list_heads(out: &mut Output, all: &[Head]) -> Result<(), NoMemory>
    ensures { Gains out.old out.new (heads_words all.now) result }
{
    out.text("[")?;
    heads(out, all)?;
    out.text("]")
}

// Adds a moment, or `null` where there is none.
fn moment(out: &mut Output, moment: Option<u64>) -> Result<(), NoMemory>
    ensures { Gains out.old out.new (moment_words moment) result }
{
    match moment {
        Some(moment) => out.number(moment),
        None => out.text("null"),
    }
}

// Adds a line by its place.
fn line(out: &mut Output, at: usize, line: &Line) -> Result<(), NoMemory>
    ensures { Gains out.old out.new (line_words at line.now) result }
{
    comma(out, at)?;
    out.text("{\"moment\":")?;
    moment(out, line.moment)?;
    numbered(out, ",\"actor\":", line.actor)?;
    out.text(",")?;
    toned(out, line.tone, line.text.as_slice())
}

// Adds the lines.
fn lines(out: &mut Output, all: &[Line]) -> Result<(), NoMemory>
    ensures { Gains out.old out.new (numbered line_words 0 all.now) result }
{
    for (at, one) in all.iter().enumerate() {
        line(out, at, one)?;
    }
    Ok(())
}

// Adds the list of the lines.
fn list_lines(out: &mut Output, all: &[Line]) -> Result<(), NoMemory>
    ensures { Gains out.old out.new (lines_words all.now) result }
{
    out.text("[")?;
    lines(out, all)?;
    out.text("]")
}

// Adds how many actors a picture has.
#[tactic(auto, unfolding(crate::specs::Shown::actors_part))]
fn actors(out: &mut Output, picture: &Picture) -> Result<(), NoMemory>
    ensures { Gains out.old out.new (actors_part picture.now) result }
{
    numbered(out, "{\"actors\":", picture.actors())
}

// Adds the heading of a picture, up to the list of the lines.
#[tactic(auto, unfolding(crate::specs::Shown::heading_part))]
fn heading(out: &mut Output, picture: &Picture) -> Result<(), NoMemory>
    ensures { Gains out.old out.new (heading_part picture.now) result }
{
    out.text(",\"heading\":")?;
    list_heads(out, picture.heads())?;
    out.text(",\"lines\":")
}

// Adds the lines below it, and the end.
#[tactic(auto, unfolding(crate::specs::Shown::lines_part))]
fn below(out: &mut Output, picture: &Picture) -> Result<(), NoMemory>
    ensures { Gains out.old out.new (lines_part picture.now) result }
{
    list_lines(out, picture.lines())?;
    out.text("}\n")
}

/// Adds a picture as one line of JSON: how many actors it has, its heading and its lines.
#[tactic(auto, unfolding(crate::specs::Shown::picture_json))]
pub(crate) fn picture_json(out: &mut Output, picture: &Picture) -> Result<(), NoMemory>
    ensures { Gains out.old out.new (picture_json picture.now) result }
{
    actors(out, picture)?;
    heading(out, picture)?;
    below(out, picture)
}
