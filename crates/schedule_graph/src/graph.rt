//! A layered graph.
ghost use Rattle.std.specs.Prelude.{◌≡◌, [], ◌∷◌, ◌++◌, length, OnOk, OnErr, IfOk};
ghost use Rattle.schedule_graph.specs.Words.{IsLayer};
ghost use Rattle.schedule_graph.specs.Counted.{AreCounts};

use crate::count::Counts;
use crate::counting::count_layers;
use path_text::NoMemory;
use smallvec::SmallVec;
use std::alloc::Global;
use std::marker::Model;

/// So many edges of a node lie in the node itself. Where it has more, all are in an allocation.
pub const EDGES_IN_PLACE: usize = 4;

/// The number of a node in its layer, in two halves: so an edge takes 12 bytes in place of 16, and there are very many.
/// Contracts see it as the number.
#[derive(Debug, Default, Drop)]
pub struct Place {
    high: u32,
    low: u32,
}

impl Model for Place {
    ghost use Rattle.std.specs.Prelude.{ℕ, ◌+◌, ◌*◌, ◌^◌};

    ghost Value = { ℕ };

    ghost view = { λ place. place.high * 2 ^ 32 + place.low };
}

// Below this a number fits in one half.
const HALF: usize = 1 << 32;

impl Place {
    /// That number.
    pub fn of(number: usize) -> Place
        ensures { result ≡ number }
    {
        Place {
            high: (number / HALF) as u32,
            low: (number % HALF) as u32,
        }
    }

    /// The number.
    pub fn number(&self) -> usize
        ensures { result ≡ self.now }
    {
        self.high as usize * HALF + self.low as usize
    }
}

/// An edge from a node to one of the next layer.
#[derive(Debug, Default, Drop)]
pub struct Edge {
    /// The label of this edge.
    pub label: u8,
    /// Whether it counts as a cut.
    pub cut: bool,
    /// Whether it counts as a change.
    pub change: bool,
    /// The number of the node that it leads to, among those of the next layer.
    pub to: Place,
}

/// A node of a layer.
#[derive(Debug, Drop)]
pub enum Node {
    /// A word that comes here is whole, and of the class with that number.
    Ends(usize),
    /// A word that comes here goes on by one of these edges, no two of them with the same label.
    Goes(SmallVec<Edge, EDGES_IN_PLACE>),
}

/// A layered graph. Its words are those from the first node of its first layer. Contracts see it as the list of its
/// layers.
#[derive(Debug, Drop)]
pub struct Graph {
    layers: Vec<Vec<Node>>,
}

impl Model for Graph {
    ghost use Rattle.std.specs.Prelude.{List};
    ghost use Rattle.std.specs.Global.{Vec};
    ghost use Rattle.schedule_graph.specs.declared.graph.Node.{Node};
    ghost use Rattle.schedule_graph.specs.Words.{AreLayers};

    ghost Value = { List (Vec Node) };

    ghost view = { λ graph. graph.layers.items };

    ghost invariant = { λ graph. AreLayers graph.layers.items };
}

impl Graph {
    /// A graph with no layers, and so with no words.
    pub fn new(alloc: Global) -> Graph
        ensures { result ≡ [] }
    {
        Graph {
            layers: Vec::new(alloc),
        }
    }

    /// How many layers there are.
    pub fn depth(&self) -> usize
        ensures { result ≡ length self.now }
    {
        self.layers.len()
    }

    /// Adds the next layer. The edges of the layer before lead to its nodes; one that leads to none is no part of a
    /// word. NoMemory where its room was refused; the graph is unchanged then.
    pub fn push_layer(&mut self, layer: Vec<Node>) -> Result<(), NoMemory>
        requires { IsLayer layer.items }
        ensures ok { OnOk result (self.new ≡ self.old ++ layer ∷ []) }
        ensures err { OnErr result (self.new ≡ self.old) }
    {
        self.layers.push(layer)?;
        Ok(())
    }

    /// For each of the first classes, as many as that, how many words it has, and the least of them; and the same for
    /// the words of all classes together. Takes about as long as there are edges, and labels in a word, together.
    /// NoMemory where room was refused.
    pub fn counted(&self, alloc: Global, classes: usize) -> Result<Counts, NoMemory>
        ensures each { IfOk result (λ counts. length counts.classes.items ≡ classes) }
        ensures counts { IfOk result (λ counts. AreCounts self.now counts) }
    {
        count_layers(alloc, self.layers.as_slice(), classes)
    }
}
