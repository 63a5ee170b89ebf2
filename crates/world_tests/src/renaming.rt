//! Outcomes as text, so that each test is a row: the nodes by their numbers and then, after each bar, an actor's
//! replies. `1x` is a directory of that name in node 1, `1xf` a file, and `-` stands nowhere; `3` is a call that opened
//! node 3, `s3` a step that did, and `.` another call.
use node_numbering::{Renumbered, renumber};
use path_text::{Errno, Name, Names, NoMemory};
use race_core::{Outcome, Outcomes};
use std::alloc::Global;
use std::test::Fail;
use tree_model::{Answer, HandleNo, Inode, Kind, Node, Object, Place, same_nodes};

/// How many nodes the opening tree has, the actors that are named, an outcome, and the same one numbered anew.
type Row = (usize, &'static [u32], &'static str, &'static str);

const ROWS: [Row; 10] = [
    // Two race to make entries: whoever is first, the entries have the same numbers.
    (2, &[], "- 0a 1x 1yf | 2 | s3", "- 0a 1x 1yf | 2 | s3"),
    (2, &[], "- 0a 1yf 1x | 3 | s2", "- 0a 1x 1yf | 2 | s3"),
    // A directory is met before what stands in it.
    (1, &[], "- 2b 0a 1c", "- 0a 1b 2c"),
    // What stands in a directory with a lower number comes first, whatever its name.
    (2, &[], "- 0b 1a 0c", "- 0b 0c 1a"),
    // Three go round.
    (1, &[], "- 0c 0a 0b | 1 2 3", "- 0a 0b 0c | 3 1 2"),
    // What stands nowhere is met in replies, actor by actor, and else comes last.
    (1, &[], "- - - 0a - | s4 | . 2", "- 0a - - - | s2 | . 3"),
    // The nodes of the opening tree keep their numbers.
    (3, &[], "- 0b 0a | 2 | 1", "- 0b 0a | 2 | 1"),
    // A number that no node has stays.
    (1, &[], "- 0a | 7 1", "- 0a | 7 1"),
    // Where actors are named, what they opened is all that is met.
    (1, &[1], "- 0a 0b 0c | 1 | 3 s2", "- 0c 0b 0a | 3 | 1 s2"),
    (1, &[1], "- 0b 0a | 1 | 2", "- 0a 0b | 2 | 1"),
];

/// The node of a digit's byte.
fn node_of(digit: u8) -> Node {
    Node::new(u64::from(digit.saturating_sub(b'0')))
}

fn inode_of(alloc: Global, word: &[u8]) -> Result<Inode, Errno> {
    let [digit, name, rest @ ..] = word else {
        return Ok(Inode {
            object: Object::Dir,
            place: None,
        });
    };
    let name = Name::new(alloc, [*name].as_slice())?;
    let parent = node_of(*digit);
    Ok(Inode {
        object: if rest.is_empty() {
            Object::Dir
        } else {
            Object::File
        },
        place: Some(Place { parent, name }),
    })
}

fn outcome_of(alloc: Global, word: &[u8]) -> Outcome {
    match word {
        [b'.'] => Outcome::Done,
        [digit] => Outcome::Opened {
            node: node_of(*digit),
            kind: Kind::Dir,
            names: Names::new(alloc),
        },
        [_, digit] => Outcome::Stepped(Answer::Opened {
            handle: HandleNo::new(5),
            node: node_of(*digit),
            kind: Kind::Dir,
        }),
        _ => Outcome::Done,
    }
}

fn nodes_of(alloc: Global, words: &str) -> Result<Vec<Inode>, Errno> {
    let mut nodes = Vec::new(alloc);
    for word in words.split(' ') {
        nodes.push(inode_of(alloc, word.as_bytes())?)?;
    }
    Ok(nodes)
}

fn outcomes_of(alloc: Global, words: &str) -> Result<Outcomes, NoMemory> {
    let mut outcomes = Outcomes::new(alloc);
    for word in words.split(' ') {
        outcomes.push(outcome_of(alloc, word.as_bytes()))?;
    }
    Ok(outcomes)
}

/// The outcome that a text says.
fn read(alloc: Global, text: &str) -> Result<Renumbered, Errno> {
    let mut parts = text.split(" | ");
    let nodes = nodes_of(alloc, parts.next().unwrap_or(""))?;
    let mut replies = Vec::new(alloc);
    for part in parts {
        replies.push(outcomes_of(alloc, part)?)?;
    }
    Ok(Renumbered { nodes, replies })
}

/// What a call opened, by a step or not.
fn opened(outcome: &Outcome) -> Option<(bool, Node)> {
    match outcome {
        Outcome::Opened { node, .. } => Some((false, *node)),
        Outcome::Stepped(Answer::Opened { node, .. }) => Some((true, *node)),
        _ => None,
    }
}

fn same_calls(calls: &[Outcome], others: &[Outcome]) -> bool {
    for (call, other) in calls.iter().zip(others) {
        if opened(call) != opened(other) {
            return false;
        }
    }
    calls.len() == others.len()
}

fn same_replies(replies: &[Outcomes], others: &[Outcomes]) -> bool {
    for (calls, other) in replies.iter().zip(others) {
        if !same_calls(calls.as_slice(), other.as_slice()) {
            return false;
        }
    }
    replies.len() == others.len()
}

fn is_renumbered(alloc: Global, row: &Row) -> Result<bool, Errno> {
    let (known, named, text, wanted) = row;
    let given = read(alloc, text)?;
    let wanted = read(alloc, wanted)?;
    let anew = renumber(alloc, *known, named, &given.nodes, &given.replies)?;
    Ok(same_nodes(&anew.nodes, &wanted.nodes) && same_replies(&anew.replies, &wanted.replies))
}

#[test]
fn numbers_nodes_as_they_are_met(rt: HostRuntime) -> Result<(), Fail> {
    for row in &ROWS {
        assert!(rt; is_renumbered(rt.alloc(), row)?, "{}", row.2);
    }
    Ok(())
}
