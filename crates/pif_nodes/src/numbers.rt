ghost use Rattle.std.specs.Prelude.{◌≡◌, ℕ};

use std::marker::Model;

/// The number of a node of a table, from 0.
#[derive(Clone, Copy, Debug, PartialEq, Eq)]
pub struct Node {
    number: u32,
}

impl Model for Node {
    ghost Value = { ℕ };

    ghost view = { λ n. n.number };

    ghost inverse = { λ n. record { number = n } };
}

impl Node {
    /// The node `number`.
    pub const fn new(number: u32) -> Self
        ensures { result ≡ number }
    {
        Node { number }
    }

    /// The number.
    pub const fn get(self) -> u32
        ensures { result ≡ self }
    {
        self.number
    }
}

/// The number of a list of a table, from 0.
#[derive(Clone, Copy, Debug, PartialEq, Eq)]
pub struct List {
    index: u32,
}

impl Model for List {
    ghost Value = { ℕ };

    ghost view = { λ l. l.index };

    ghost inverse = { λ n. record { index = n } };
}

impl List {
    /// The list `number`.
    pub const fn new(number: u32) -> Self
        ensures { result ≡ number }
    {
        List { index: number }
    }

    /// The number.
    pub const fn get(self) -> u32
        ensures { result ≡ self }
    {
        self.index
    }
}
