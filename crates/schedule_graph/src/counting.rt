//! The words are counted along the layers: for each node of a layer what leads to it.
ghost use Rattle.std.specs.Prelude.{◌≡◌, ◌<◌, ◌+◌, ◌^◌, suc, Some, None, length, replicate, IfOk, OnOk};
ghost use Rattle.schedule_graph.specs.Words.{rank, node_at, AreLayers};
ghost use Rattle.schedule_graph.specs.Counted.{IsCount, AreCounts};
ghost use Rattle.schedule_graph.specs.Led.{width_at, LeadsTo, IsTable, IsNext, AreTold};

use crate::count::{Count, Counts, Least};
use crate::graph::Node;
use path_text::NoMemory;
use std::alloc::Global;

// How many nodes the widest layer has. All tables get room for so many: so a table fits where one was given back.
fn widest(layers: &[Vec<Node>]) -> usize {
    let mut most = 0;
    for layer in layers {
        most = layer.len().max(most);
    }
    most
}

// As many counts of nothing, with room for so many.
fn blank(alloc: Global, room: usize, width: usize) -> Result<Vec<Count>, NoMemory>
    ensures { IfOk result (λ counts. counts.items
        ≡ replicate width (record { words = 0; longest = 0; least = None })) }
{
    let mut counts = Vec::with_capacity(alloc, room)?;
    for _ in 0..width {
        counts.push(Count::none())?;
    }
    Ok(counts)
}

// How many nodes that layer has.
fn width_at(layers: &[Vec<Node>], k: usize) -> usize
    ensures { result ≡ width_at layers.now k }
{
    if k < layers.len() { layers[k].len() } else { 0 }
}

// That node of that layer.
fn node_at(layers: &[Vec<Node>], k: usize, s: usize) -> &Node
    requires { s < width_at layers.now k }
    ensures { node_at layers.now k s ≡ Some result.now }
{
    let layer = layers[k].as_slice();
    &layer[s]
}

// What leads to each node of the first layer: the word of no labels to the first one.
fn first_table(alloc: Global, layers: &[Vec<Node>], room: usize) -> Result<Vec<Count>, NoMemory>
    ensures width { IfOk result (λ table. length table.items ≡ width_at layers.now 0) }
    ensures table { IfOk result (λ table. IsTable layers.now 0 table.items) }
{
    let width = width_at(layers, 0);
    let mut table = blank(alloc, room, width)?;
    if width > 0 {
        table[0].add(1, Least::start(alloc));
    }
    Ok(table)
}

// Counts what leads to that node in the nodes that its edges lead to.
fn spread(
    alloc: Global,
    layers: &[Vec<Node>],
    k: usize,
    s: usize,
    count: &Count,
    next: &mut [Count],
) -> Result<(), NoMemory>
    requires layers { AreLayers layers.now }
    requires depth { k + 1 < 2 ^ 64 }
    requires node { s < width_at layers.now k }
    requires count { IsCount (rank layers.now) (LeadsTo layers.now k s) count.now }
    requires next { IsNext layers.now k s next.old }
    ensures { OnOk result (IsNext layers.now k (suc s) next.new) }
{
    let Node::Goes(edges) = node_at(layers, k, s) else {
        return Ok(());
    };
    let Some(least) = &count.least else {
        return Ok(());
    };
    for edge in edges.as_slice() {
        let to = edge.to.number();
        if to < next.len() {
            next[to].add_by(alloc, count.words, least, edge)?;
        }
    }
    Ok(())
}

// Counts what leads to that node in its class, where words end there.
fn tell(
    alloc: Global,
    layers: &[Vec<Node>],
    k: usize,
    s: usize,
    count: &Count,
    counts: &mut Counts,
) -> Result<(), NoMemory>
    requires node { s < width_at layers.now k }
    requires count { IsCount (rank layers.now) (LeadsTo layers.now k s) count.now }
    requires counts { AreTold layers.now k s counts.old }
    ensures classes { OnOk result (length counts.new.classes.items ≡ length counts.old.classes.items) }
    ensures counts { OnOk result (AreTold layers.now k (suc s) counts.new) }
{
    let Node::Ends(class) = node_at(layers, k, s) else {
        return Ok(());
    };
    let Some(least) = &count.least else {
        return Ok(());
    };
    counts.all.add(count.words, least.copy(alloc)?);
    if *class < counts.classes.len() {
        counts.classes[*class].add(count.words, least.copy(alloc)?);
    }
    Ok(())
}

// Counts on from a layer to the next: what leads to each node of that. The words that end here are told.
fn passed(
    alloc: Global,
    layers: &[Vec<Node>],
    room: usize,
    k: usize,
    table: &[Count],
    counts: &mut Counts,
) -> Result<Vec<Count>, NoMemory>
    requires layers { AreLayers layers.now }
    requires depth { k + 1 < 2 ^ 64 }
    requires width { length table.now ≡ width_at layers.now k }
    requires table { IsTable layers.now k table.now }
    requires counts { AreTold layers.now k 0 counts.old }
    ensures width { IfOk result (λ next. length next.items ≡ width_at layers.now (suc k)) }
    ensures next { IfOk result (λ next. IsTable layers.now (suc k) next.items) }
    ensures classes { OnOk result (length counts.new.classes.items ≡ length counts.old.classes.items) }
    ensures counts { OnOk result (AreTold layers.now (suc k) 0 counts.new) }
{
    let mut next = blank(alloc, room, width_at(layers, k + 1))?;
    for (s, count) in table.iter().enumerate() {
        spread(alloc, layers, k, s, count, next.as_mut_slice())?;
        tell(alloc, layers, k, s, count, counts)?;
    }
    Ok(next)
}

/// Counts the words of the layers. NoMemory where room was refused.
pub(crate) fn count_layers(
    alloc: Global,
    layers: &[Vec<Node>],
    classes: usize,
) -> Result<Counts, NoMemory>
    requires { AreLayers layers.now }
    ensures each { IfOk result (λ counts. length counts.classes.items ≡ classes) }
    ensures counts { IfOk result (λ counts. AreCounts layers.now counts) }
{
    let mut counts = Counts {
        classes: blank(alloc, classes, classes)?,
        all: Count::none(),
    };
    let room = widest(layers);
    let mut table = first_table(alloc, layers, room)?;
    for k in 0..layers.len() {
        table = passed(alloc, layers, room, k, table.as_slice(), &mut counts)?;
    }
    Ok(counts)
}
