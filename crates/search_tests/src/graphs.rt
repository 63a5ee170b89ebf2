//! Small graphs, with the counts that are wanted.
ghost use Rattle.std.specs.Prelude.{Some, IfOk};
ghost use Rattle.schedule_graph.specs.Words.{AreApart, IsLayer, edges_from};

use path_text::NoMemory;
use schedule_graph::{
    COUNT_CAP, Count, EDGES_IN_PLACE, Edge, Graph, Node, Place, count_cap_is_a_number, is_not_after,
};
use smallvec::SmallVec;
use std::alloc::Global;

/// A node: the edges by labels 0, 1, ..., each with its mark (1 a cut, 2 a change, 3 both) and where it leads to; or,
/// where there are none, the class of the words that end there.
type Drawn<'a> = (usize, &'a [(u8, usize)]);

/// The number of words, the longest one's length, and the least one's cuts, changes and labels.
type Wanted<'a> = (u64, usize, Option<(u64, u64, &'a [u8])>);

/// The nodes of each layer, and what they come to: of each of two classes, and of all.
type Case<'a> = (&'a [&'a [Drawn<'a>]], Wanted<'a>, Wanted<'a>, Wanted<'a>);

const END: &[(u8, usize)] = &[];

const NONE: Wanted<'_> = (0, 0, None);

#[rattlefmt::skip]
const CASES: &[Case<'_>] = &[
    // no layers
    (&[], NONE, NONE, NONE),
    // no nodes
    (&[&[]], NONE, NONE, NONE),
    // the word of no labels
    (&[&[(1, END)]], NONE, (1, 0, Some((0, 0, &[]))), (1, 0, Some((0, 0, &[])))),
    // two actors of one turn each, in either order
    (&[&[(0, &[(0, 0), (0, 1)])], &[(0, &[(0, 0), (2, 0)]), (0, &[(2, 0)])], &[(0, END)]],
        (3, 2, Some((0, 0, &[0, 0]))), NONE, (3, 2, Some((0, 0, &[0, 0])))),
    // fewer changes don't outweigh a cut, nor an earlier word a change
    (&[&[(0, &[(0, 0), (0, 1), (0, 2)])], &[(0, &[(1, 0)]), (0, &[(2, 0)]), (0, &[(2, 0), (2, 1)])],
        &[(0, END), (1, END)]],
        (3, 2, Some((0, 1, &[1, 0]))), (1, 2, Some((0, 1, &[2, 1]))), (4, 2, Some((0, 1, &[1, 0])))),
    // words of one class have several lengths, and the longer one is the least
    (&[&[(0, &[(3, 0), (0, 1)])], &[(1, END), (0, &[(2, 0)])], &[(1, END)]], NONE, (2, 2, Some((0, 1, &[1, 0]))),
        (2, 2, Some((0, 1, &[1, 0])))),
    // the lesser of two words is kept where they meet, whichever came first
    (&[&[(0, &[(1, 0), (0, 1)])], &[(0, &[(0, 0)]), (0, &[(0, 0)])], &[(0, &[(0, 0), (1, 0)])], &[(0, END)]],
        (4, 3, Some((0, 0, &[1, 0, 0]))), NONE, (4, 3, Some((0, 0, &[1, 0, 0])))),
    // an edge to no node is of no word, and a class that isn't asked for is in none but all
    (&[&[(0, &[(0, 5), (0, 1), (0, 0)])], &[(2, END), (0, END)]], (1, 1, Some((0, 0, &[1]))), NONE,
        (2, 1, Some((0, 0, &[1])))),
    // more edges than lie in a node
    (&[&[(0, &[(1, 0), (1, 0), (2, 0), (3, 0), (0, 0)])], &[(0, END)]], (5, 1, Some((0, 0, &[4]))), NONE,
        (5, 1, Some((0, 0, &[4])))),
    // words that lead nowhere
    (&[&[(0, &[(0, 0)])], &[(0, &[(0, 0)])]], NONE, NONE, NONE),
];

fn edges_of(
    alloc: Global,
    drawn: &[(u8, usize)],
) -> Result<SmallVec<Edge, EDGES_IN_PLACE>, NoMemory>
    ensures { IfOk result (λ edges. AreApart edges.items) }
{
    let mut edges = SmallVec::new(alloc);
    for (at, (mark, to)) in drawn.iter().enumerate() {
        let Ok(label) = u8::try_from(at) else {
            break;
        };
        edges.push(Edge {
            label,
            cut: *mark % 2 == 1,
            change: *mark >= 2,
            to: Place::of(*to),
        })?;
    }
    Ok(edges)
}

fn node_of(alloc: Global, drawn: &Drawn<'_>) -> Result<Node, NoMemory>
    ensures { IfOk result (λ node. AreApart (edges_from (Some node))) }
{
    let (class, edges) = drawn;
    if edges.is_empty() {
        return Ok(Node::Ends(*class));
    }
    Ok(Node::Goes(edges_of(alloc, edges)?))
}

fn layer_of(alloc: Global, nodes: &[Drawn<'_>]) -> Result<Vec<Node>, NoMemory>
    ensures { IfOk result (λ layer. IsLayer layer.items) }
{
    let mut layer = Vec::new(alloc);
    for drawn in nodes {
        layer.push(node_of(alloc, drawn)?)?;
    }
    Ok(layer)
}

fn graph_of(alloc: Global, layers: &[&[Drawn<'_>]]) -> Result<Graph, NoMemory> {
    let mut graph = Graph::new(alloc);
    for nodes in layers {
        graph.push_layer(layer_of(alloc, nodes)?)?;
    }
    Ok(graph)
}

fn is_so(count: &Count, wanted: &Wanted<'_>) -> bool {
    let (words, longest, least) = wanted;
    let is_least = match (&count.least, least) {
        (Some(one), Some((cuts, changes, word))) => {
            one.cuts == *cuts && one.changes == *changes && one.word.as_slice() == *word
        }
        (None, None) => true,
        _ => false,
    };
    count.words == *words && count.longest == *longest && is_least
}

fn comes_to(alloc: Global, case: &Case<'_>) -> Result<bool, NoMemory> {
    let (layers, first, second, all) = case;
    let counts = graph_of(alloc, layers)?.counted(alloc, 2)?;
    Ok(match counts.classes.as_slice() {
        [one, other] => is_so(one, first) && is_so(other, second) && is_so(&counts.all, all),
        _ => false,
    })
}

#[test]
fn graphs_are_counted(rt: HostRuntime) {
    for (at, case) in CASES.iter().enumerate() {
        assert!(rt; comes_to(rt.alloc(), case) == Ok(true), "case {at}");
    }
}

/// So many layers, each of one node with two edges, the second of them a change; and the end.
fn doubled(alloc: Global, layers: usize) -> Result<Graph, NoMemory> {
    let mut graph = Graph::new(alloc);
    for _ in 0..layers {
        graph.push_layer(layer_of(alloc, &[(0, &[(2, 0), (0, 0)])])?)?;
    }
    graph.push_layer(layer_of(alloc, &[(0, END)])?)?;
    Ok(graph)
}

/// Whether there are so many words, in the one class and in all, and the least is without a change.
fn are_so_many(alloc: Global, layers: usize, words: u64) -> Result<bool, NoMemory> {
    let counts = doubled(alloc, layers)?.counted(alloc, 1)?;
    Ok(match (counts.classes.as_slice(), &counts.all.least) {
        ([of_class], Some(least)) => {
            counts.all.words == words
                && counts.all.longest == layers
                && of_class.words == words
                && least.changes == 0
                && least.word.len() == layers
        }
        _ => false,
    })
}

const DOUBLED: [(usize, u64); 5] = [
    (59, 1 << 59),
    (60, COUNT_CAP),
    (64, COUNT_CAP),
    (70, COUNT_CAP),
    (100, COUNT_CAP),
];

#[test]
fn many_words_are_counted_up_to_the_cap(rt: HostRuntime) {
    count_cap_is_a_number();
    for (layers, words) in DOUBLED {
        assert!(rt;
            are_so_many(rt.alloc(), layers, words) == Ok(true),
            "{layers}"
        );
    }
}

/// Two words, the first of which isn't after the other.
const IN_ORDER: [(&[u8], &[u8]); 8] = [
    (&[], &[]),
    (&[], &[0]),
    (&[0, 1], &[0, 1]),
    (&[0, 1], &[0, 1, 0]),
    (&[0, 1], &[0, 2]),
    (&[0, 9], &[1, 0]),
    (&[9], &[10]),
    (&[0, 1, 7], &[0, 2]),
];

/// Of two that differ, the other is after the first.
#[test]
fn words_are_in_order(rt: HostRuntime) {
    for (labels, others) in IN_ORDER {
        let are_equal = labels == others;
        let is_so = is_not_after(labels, others) && is_not_after(others, labels) == are_equal;
        assert!(rt; is_so, "{labels:?} {others:?}");
    }
}

/// Numbers around the bound of a half, and the ends of the range.
const NUMBERS: [usize; 7] = [
    0,
    1,
    4_294_967_295,
    4_294_967_296,
    4_294_967_297,
    1_311_768_467_463_790_320,
    18_446_744_073_709_551_615,
];

#[test]
fn a_place_is_its_number(rt: HostRuntime) {
    for number in NUMBERS {
        assert_eq!(rt; Place::of(number).number(), number);
    }
}
