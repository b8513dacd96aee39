//! A node, by its place.

ghost use Rattle.std.specs.Prelude.{◌≡◌};

use std::marker::Model;

/// A node of an environment, by its place, in the order of the places. A contract sees the place.
/// The default is the first node.
#[derive(Clone, Copy, Debug, Default, PartialEq, Eq, PartialOrd, Ord, Hash)]
pub struct Node {
    place: u8,
}

impl Model for Node {
    ghost use Rattle.std.specs.Prelude.{ℕ};

    ghost Value = { ℕ };

    ghost view = { λ n. n.place };

    ghost inverse = { λ n. record { place = n } };
}

impl Node {
    /// The node at a place, from 0. An environment need not have it: each call that takes a node
    /// says what it then does.
    pub fn at(place: u8) -> Node
        ensures { result ≡ place }
    {
        Node { place }
    }

    /// Its place, from 0.
    pub fn place(self) -> u8
        ensures { result ≡ self }
    {
        self.place
    }
}
