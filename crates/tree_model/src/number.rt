//! The numbers of nodes, handles and actors.
ghost use Rattle.std.specs.Prelude.{◌≡◌, ℕ};

use std::marker::Model;

/// The number of a node: they count up from 0, which is the top, and none is used twice.
#[derive(Clone, Copy, Debug, PartialEq, Eq, PartialOrd, Ord)]
pub struct Node {
    number: u64,
}

impl Model for Node {
    ghost Value = { ℕ };

    ghost view = { λ n. n.number };

    ghost inverse = { λ n. record { number = n } };
}

impl Node {
    /// The node of that number.
    pub fn new(number: u64) -> Node
        ensures { result ≡ number }
    {
        Node { number }
    }

    /// The node's number.
    pub fn number(self) -> u64
        ensures { result ≡ self }
    {
        self.number
    }
}

/// The number of an open handle: they count up from 0, and none is used twice.
#[derive(Clone, Copy, Debug, PartialEq, Eq, PartialOrd, Ord)]
pub struct HandleNo {
    number: u64,
}

impl Model for HandleNo {
    ghost Value = { ℕ };

    ghost view = { λ h. h.number };

    ghost inverse = { λ n. record { number = n } };
}

impl HandleNo {
    /// The handle of that number.
    pub fn new(number: u64) -> HandleNo
        ensures { result ≡ number }
    {
        HandleNo { number }
    }

    /// The handle's number.
    pub fn number(self) -> u64
        ensures { result ≡ self }
    {
        self.number
    }
}

/// The number of an actor: whoever takes steps on a tree.
#[derive(Clone, Copy, Debug, PartialEq, Eq, PartialOrd, Ord)]
pub struct Actor {
    number: u32,
}

impl Model for Actor {
    ghost Value = { ℕ };

    ghost view = { λ a. a.number };

    ghost inverse = { λ n. record { number = n } };
}

impl Actor {
    /// The actor of that number.
    pub fn new(number: u32) -> Actor
        ensures { result ≡ number }
    {
        Actor { number }
    }

    /// The actor's number.
    pub fn number(self) -> u32
        ensures { result ≡ self }
    {
        self.number
    }
}
