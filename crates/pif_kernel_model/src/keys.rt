ghost use Rattle.std.specs.Prelude.{◌≡◌, ℕ};

use std::marker::Model;

/// Names an owner state, from when it is made to its end.
#[derive(Clone, Copy, Debug, PartialEq, Eq)]
pub struct Key {
    number: usize,
}

impl Model for Key {
    ghost Value = { ℕ };

    ghost view = { λ k. k.number };

    ghost inverse = { λ n. record { number = n } };
}

impl Key {
    /// The key of this number.
    pub fn new(number: usize) -> Self
        ensures { result ≡ number }
    {
        Key { number }
    }

    /// Its number.
    pub fn get(self) -> usize
        ensures { result ≡ self }
    {
        self.number
    }
}
