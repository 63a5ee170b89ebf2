//! The words of a layered graph: how many there are of each class, and the least of them.
//!
//! A node of layer k stands for lists of k labels; an edge leads from it, by a label, to a node of layer k+1, and a
//! node without edges ends its words in a class. A graph with few nodes has very many words, so the words are counted
//! along the layers and never listed. The layer above pushes its layers one after another and rests on the contract
//! of `Graph::counted`, `AreCounts`: each class's words, and all words, are so many, and that one is the least.
//! `SearchFault` is why a search that makes such a graph gives nothing: who tells it knows no search.
#![tactic(auto)]

mod count;
mod counting;
mod fault;
mod graph;
mod laws;

pub use count::{COUNT_CAP, Count, Counts, LABELS_IN_PLACE, Least, is_not_after};
pub use fault::SearchFault;
pub use graph::{EDGES_IN_PLACE, Edge, Graph, Node, Place};
pub use laws::count_cap_is_a_number;
