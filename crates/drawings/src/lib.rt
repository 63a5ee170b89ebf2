//! Drawings of a run: a heading with each actor's root and how its calls ended, and a column for each actor, in
//! which its steps are shown at their moments, by where things stood just before.
//!
//! A `Picture` is a stated function of the tree at the opening, of what the actors call for, of the events and of
//! how the calls ended. It is drawn as text of at most so many columns, in the colours of a terminal where they are
//! asked for, or as SVG, in which no byte of a name can be taken for markup. The layers above use `calls_of`,
//! `Picture::of`, `Picture::text` and `Picture::svg`.
#![tactic(auto)]

mod calls;
mod cells;
mod events;
mod heading;
mod laws;
mod look;
mod notes;
mod picture;
mod places;
mod svg;
mod text;

pub use calls::{CallWords, calls_of};
pub use laws::{drawing_limits_are_numbers, rows_fit, svg_is_well_formed, xml_text_is_plain};
pub use look::{COLUMNS, COLUMNS_MAX, COLUMNS_MIN, Colours, Columns, Legend, Look};
pub use picture::{ACTORS_MAX, Closes, Head, LINES_MAX, Line, Picture, PictureFault, Tone};
