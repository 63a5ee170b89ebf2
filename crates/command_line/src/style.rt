//! How a picture is drawn that a command line asks for.
ghost use Rattle.std.specs.Prelude.{◌≡◌, ◌≢◌, ◌≤◌, ℕ, decimal, MatchOption};
ghost use Rattle.drawings.specs.declared.look.TheConstants.{COLUMNS_MIN, COLUMNS_MAX};
ghost use Rattle.command_line.specs.Style.{IsWide, IsColumns, colours_by, IsColours, legend_by, is_seen, form_by, IsStyle};

use crate::commands::Drawing;
use crate::ending::Fault;
use drawings::{Closes, Colours, Columns, Legend, Look};
use run_command::{Form, Style};
use scripts::number_of;

/// What a picture is drawn on.
#[derive(Clone, Copy, Debug)]
pub struct Screen<'a> {
    /// Whether standard output is a terminal.
    pub is_terminal: bool,
    /// What the environment says of its columns (COLUMNS).
    pub columns: Option<&'a str>,
    /// Whether the environment wants no colours (NO_COLOR, or a TERM without any).
    pub is_plain: bool,
}

/// How many columns are taken for a terminal's where the environment doesn't say it.
pub const TERMINAL_COLUMNS: usize = 80;

// The number of columns that a text says, if a picture may have so many.
fn columns_in(text: &str) -> Option<Columns>
    ensures { MatchOption result ((n : ℕ) → COLUMNS_MIN ≤ n → n ≤ COLUMNS_MAX → text.now ≢ decimal n)
        (λ columns. text.now ≡ decimal columns.count) }
{
    let number = number_of(text)?;
    Columns::new(number as usize)
}

// How many columns a terminal has.
fn terminal_columns(columns: Option<&str>) -> Columns
    ensures { IsWide columns.entry result.count }
{
    if let Some(text) = columns {
        if let Some(columns) = columns_in(text) {
            return columns;
        }
    }
    match Columns::new(TERMINAL_COLUMNS) {
        Some(columns) => columns,
        None => unreachable!(),
    }
}

// How many columns a picture has.
fn columns_for(width: Option<&str>, screen: Screen<'_>) -> Result<Columns, Fault>
    ensures { IsColumns width.entry screen.entry result }
{
    if let Some(text) = width {
        return match columns_in(text) {
            Some(columns) => Ok(columns),
            None => Err(Fault::Width),
        };
    }
    if screen.is_terminal {
        Ok(terminal_columns(screen.columns))
    } else {
        Ok(Columns::usual())
    }
}

// Whether a word asks for colours, if it is one of three.
fn colours_by(word: &str, on_screen: Colours) -> Option<Colours>
    ensures { result ≡ colours_by word.now on_screen }
{
    match word {
        "never" => Some(Colours::Off),
        "auto" => Some(on_screen),
        "always" => Some(Colours::On),
        _ => None,
    }
}

// Whether a picture has colours.
fn colours_for(color: Option<&str>, screen: Screen<'_>) -> Result<Colours, Fault>
    ensures { IsColours color.entry screen.entry result }
{
    let on_screen = if screen.is_terminal && !screen.is_plain {
        Colours::On
    } else {
        Colours::Off
    };
    let Some(word) = color else {
        return Ok(on_screen);
    };
    match colours_by(word, on_screen) {
        Some(colours) => Ok(colours),
        None => Err(Fault::Color),
    }
}

// Whether it is said that closes are left out: where somebody looks at the picture, as is asked for by its width.
fn legend_by(closes: Closes, is_seen: bool) -> Legend
    ensures { result ≡ legend_by closes is_seen }
{
    match closes {
        Closes::Hidden if is_seen => Legend::NoCloses,
        Closes::Hidden | Closes::Shown => Legend::Off,
    }
}

// Whether somebody looks at the picture.
fn is_seen(drawing: Drawing<'_>, screen: Screen<'_>) -> bool
    ensures { result ≡ is_seen drawing.entry screen.entry }
{
    screen.is_terminal || drawing.width.is_some()
}

// The form of a picture that looks so as text.
fn form_by(svg: bool, look: Look) -> Form
    ensures { result ≡ form_by svg look }
{
    if svg { Form::Svg } else { Form::Text(look) }
}

/// How a picture is drawn. Errors: `Width` where that is no number of columns that a picture may have; `Color` where
/// that is none of `never`, `auto` and `always`.
pub fn style_of(drawing: Drawing<'_>, screen: Screen<'_>) -> Result<Style, Fault>
    ensures { IsStyle drawing.entry screen.entry result }
{
    let columns = columns_for(drawing.width, screen)?;
    let colours = colours_for(drawing.color, screen)?;
    let seen = is_seen(drawing, screen);
    let legend = legend_by(drawing.closes, seen);
    let look = Look {
        columns,
        colours,
        legend,
    };
    let form = form_by(drawing.svg, look);
    Ok(Style {
        form,
        closes: drawing.closes,
    })
}
