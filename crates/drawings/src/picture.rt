//! A picture as its heading and its lines.
ghost use Rattle.std.specs.Prelude.{◌≡◌, ◌≤◌, ◌++◌, IfOk, IfErr, OnOk};
ghost use Rattle.tree_model.specs.History.{after_event};
ghost use Rattle.drawings.specs.Picture.{opened_tone, event_tone, moment_line, is_shown, line_if, moment_lines, lines_from, drawn_of, CanBeDrawn, IsPictureFault};
ghost use Rattle.drawings.specs.declared.picture.PictureFault.TheVariants as picture_fault;

use crate::calls::CallWords;
use crate::events::event_text;
use crate::heading::heads_of;
use crate::notes::{add_notes, is_outside};
use crate::places::held;
use event_log::{EventLog, Output};
use path_text::NoMemory;
use race_core::Outcomes;
use std::alloc::Global;
use std::marker::Model;
use thiserror::Error;
use tree_list::ListTree;
use tree_model::{Actor, Answer, Event, HandleNo, Node, Snapshot, StepOf, Tree};

/// The most actors that are drawn.
pub const ACTORS_MAX: u64 = 4;

/// The most lines that a picture has, those of its heading among them.
pub const LINES_MAX: usize = 2000;

/// How what is told looks.
#[derive(Clone, Copy, Debug, PartialEq, Eq)]
pub enum Tone {
    Plain,
    /// A call did what it was to do, or what was asked for stands below the root.
    Good,
    /// A call failed.
    Failed,
    /// Something is opened or held outside of the root, or doesn't stand below it.
    Bad,
}

/// Whether a picture shows that handles were closed, which changes nothing that is drawn. A Close that is refused is
/// shown anyway.
#[derive(Clone, Copy, Debug, PartialEq, Eq)]
pub enum Closes {
    Hidden,
    Shown,
}

/// A line of the heading: an actor's root, or how a call of it ended.
#[derive(Debug, Drop)]
pub struct Head {
    pub tone: Tone,
    pub text: Output,
}

/// A line of a picture: what an actor did, or where what it holds stands after another's event.
#[derive(Debug, Drop)]
pub struct Line {
    /// The event's place in the history, counted from 0; none of a note.
    pub moment: Option<u64>,
    pub actor: u64,
    pub tone: Tone,
    pub text: Output,
}

/// A picture that can be drawn. Contracts see how many actors it has, its heading and its lines.
#[derive(Debug, Drop)]
pub struct Picture {
    pub(crate) actors: u64,
    pub(crate) heads: Vec<Head>,
    pub(crate) lines: Vec<Line>,
}

impl Model for Picture {
    ghost use Rattle.drawings.specs.Picture.{Drawn, CanBeDrawn};

    ghost Value = { Drawn };

    ghost view = { λ p. record { actors = p.actors; heads = p.heads.items; lines = p.lines.items } };

    ghost invariant = { λ p. CanBeDrawn (record { actors = p.actors; heads = p.heads.items; lines = p.lines.items }) };
}

/// Why there is no picture.
#[derive(Clone, Copy, Debug, PartialEq, Eq, Error)]
pub enum PictureFault {
    /// There is no actor, or there are more than 4.
    #[error("a picture has 1 to 4 actors")]
    Actors,
    /// There are more than 2,000 events or lines.
    #[error("a picture has at most 2000 lines")]
    Lines,
    /// Room was refused.
    #[error("no memory")]
    NoMemory,
}

impl From<NoMemory> for PictureFault {
    ghost from_gives = { λ _ fault. fault ≡ picture_fault.NoMemory };

    fn from(_error: NoMemory) -> PictureFault {
        PictureFault::NoMemory
    }
}

// How it looks that an actor opened a node.
fn opened_tone(opening: &Snapshot, tree: &Snapshot, actor: Actor, node: Node) -> Tone
    ensures { result ≡ opened_tone opening.now tree.now actor node }
{
    match held(opening, actor, HandleNo::new(u64::from(actor.number()))) {
        Some(root) => {
            if is_outside(tree.nodes(), root, node) {
                Tone::Bad
            } else {
                Tone::Plain
            }
        }
        None => Tone::Plain,
    }
}

// How an event looks, in the tree just before it.
fn event_tone(opening: &Snapshot, tree: &Snapshot, event: &Event) -> Tone
    ensures { result ≡ event_tone opening.now tree.now event.now }
{
    match &event.answer {
        Answer::Names(_) => Tone::Good,
        Answer::NotBelow => Tone::Bad,
        Answer::Opened { node, .. } => opened_tone(opening, tree, event.actor, *node),
        _ => Tone::Plain,
    }
}

// The line of an event, told in the tree just before it.
fn moment_line(
    alloc: Global,
    opening: &Snapshot,
    tree: &Snapshot,
    moment: u64,
    event: &Event,
) -> Result<Line, NoMemory>
    ensures { IfOk result (λ line. line ≡ moment_line opening.now tree.now moment event.now) }
{
    let mut text = Output::new(alloc);
    event_text(alloc, &mut text, tree, event)?;
    Ok(Line {
        moment: Some(moment),
        actor: u64::from(event.actor.number()),
        tone: event_tone(opening, tree, event),
        text,
    })
}

// Whether an event has a line.
fn is_shown(closes: Closes, event: &Event) -> bool
    ensures { result ≡ is_shown closes event.now }
{
    match (closes, &event.step, &event.answer) {
        (Closes::Hidden, StepOf::Close(_), Answer::Done) => false,
        _ => true,
    }
}

// Adds the line of an event, if it has one.
fn add_line(
    alloc: Global,
    lines: &mut Vec<Line>,
    closes: Closes,
    opening: &Snapshot,
    before: &Snapshot,
    moment: u64,
    event: &Event,
) -> Result<(), NoMemory>
    ensures { OnOk result (lines.new.items ≡ lines.old.items
        ++ line_if (is_shown closes event.now) (moment_line opening.now before.now moment event.now)) }
{
    if is_shown(closes, event) {
        let line = moment_line(alloc, opening, before, moment, event)?;
        lines.push(line)?;
    }
    Ok(())
}

// Adds the line of an event that led from one tree to another, and the notes of the other actors.
fn add_moment(
    alloc: Global,
    lines: &mut Vec<Line>,
    closes: Closes,
    actors: u64,
    opening: &Snapshot,
    before: &Snapshot,
    after: &Snapshot,
    moment: u64,
    event: &Event,
) -> Result<(), NoMemory>
    requires few { actors ≤ ACTORS_MAX }
    requires led { after.now ≡ after_event before.now event.now }
    ensures { OnOk result (lines.new.items
        ≡ lines.old.items ++ moment_lines closes actors opening.now before.now moment event.now) }
{
    add_line(alloc, lines, closes, opening, before, moment, event)?;
    add_notes(alloc, lines, opening, before, after, event.actor, actors)
}

// The lines of all events, whose steps are made again one by one.
fn lines_of(
    alloc: Global,
    closes: Closes,
    actors: u64,
    opening: &Snapshot,
    mut tree: ListTree,
    events: &EventLog,
) -> Result<Vec<Line>, NoMemory>
    requires few { actors ≤ ACTORS_MAX }
    requires same { opening.now ≡ tree }
    ensures { IfOk result (λ lines. lines.items
        ≡ lines_from closes actors opening.now opening.now 0 events.now.events) }
{
    let mut lines = Vec::new(alloc);
    let mut before = tree.snapshot(alloc)?;
    for at in 0..events.len() {
        let event = events.event(alloc, at)?;
        let _answer = tree.step(alloc, event.actor, &event.step.lend())?;
        let after = tree.snapshot(alloc)?;
        let moment = at as u64;
        add_moment(
            alloc, &mut lines, closes, actors, opening, &before, &after, moment, &event,
        )?;
        before = after;
    }
    Ok(lines)
}

impl Picture {
    /// The picture of a run from a tree in which the actors' roots are granted, each by the handle of its actor's
    /// number; `calls` has what each actor calls for. The heading has a line for each root, and for each call `CALL
    /// = REPLY`. Then comes a line for each event, which shows where things stood just before it; `closes` says
    /// whether the closes that are done have one. After an event, each other actor whose newest open handle's object
    /// was moved gets a note. An event of an actor that isn't there has a line and no column.
    ///
    /// Errors, in this order: `Actors` where there is no actor or there are more than 4; `Lines` over 2,000 events,
    /// shown or not; `NoMemory` where room was refused; `Lines` over 2,000 lines.
    pub fn of(
        alloc: Global,
        tree: ListTree,
        calls: &[CallWords],
        events: &EventLog,
        replies: &[Outcomes],
        closes: Closes,
    ) -> Result<Picture, PictureFault>
        ensures ok { IfOk result (λ picture. picture ≡ drawn_of closes tree calls.now events.now.events replies.now) }
        ensures fits { IfOk result CanBeDrawn }
        ensures err { IfErr result (IsPictureFault events.now.events
            (drawn_of closes tree calls.now events.now.events replies.now)) }
    {
        let actors = calls.len() as u64;
        if actors == 0 || actors > ACTORS_MAX {
            return Err(PictureFault::Actors);
        }
        // A long run is told before its steps are made again.
        if events.len() > LINES_MAX {
            return Err(PictureFault::Lines);
        }
        let opening = tree.snapshot(alloc)?;
        let heads = heads_of(alloc, &opening, calls, replies)?;
        let lines = lines_of(alloc, closes, actors, &opening, tree, events)?;
        if lines.len() > LINES_MAX || heads.len() > LINES_MAX - lines.len() {
            return Err(PictureFault::Lines);
        }
        Ok(Picture {
            actors,
            heads,
            lines,
        })
    }

    /// How many actors the picture has.
    pub fn actors(&self) -> u64
        ensures { result ≡ self.now.actors }
    {
        self.actors
    }

    /// The heading's lines in order.
    pub fn heads(&self) -> &[Head]
        ensures { result.now ≡ self.now.heads }
    {
        self.heads.as_slice()
    }

    /// The lines in order.
    pub fn lines(&self) -> &[Line]
        ensures { result.now ≡ self.now.lines }
    {
        self.lines.as_slice()
    }
}
