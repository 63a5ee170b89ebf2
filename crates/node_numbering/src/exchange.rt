//! Numbers of nodes exchanged two by two.
ghost use Rattle.std.specs.Prelude.{◌≡◌};
ghost use Rattle.node_numbering.specs.Exchanges.{exchanged, after_all, before_all};

use tree_model::Node;

/// Two nodes that change numbers. They may be one.
#[derive(Clone, Copy, Debug, PartialEq, Eq)]
pub(crate) struct Exchange {
    pub one: Node,
    pub other: Node,
}

impl Exchange {
    // What a node's number is after it; and what it was before it, which is the same.
    fn exchanged(self, node: Node) -> Node
        ensures { result ≡ exchanged self.one self.other node }
    {
        if node == self.one {
            self.other
        } else if node == self.other {
            self.one
        } else {
            node
        }
    }
}

/// What a node's number is after these, one after another.
pub(crate) fn number_after(exchanges: &[Exchange], node: Node) -> Node
    ensures { result ≡ after_all exchanges.now node }
{
    let mut number = node;
    for exchange in exchanges {
        number = exchange.exchanged(number);
    }
    number
}

/// What it was before them.
pub(crate) fn number_before(exchanges: &[Exchange], node: Node) -> Node
    ensures { result ≡ before_all exchanges.now node }
{
    let mut number = node;
    let mut left = exchanges.len();
    while left > 0 {
        left -= 1;
        number = exchanges[left].exchanged(number);
    }
    number
}
