//! The value that a pass holds.
ghost use Rattle.std.specs.Prelude.{◌≡◌};
ghost use Rattle.std.specs.Borrow.{sem};
ghost use Rattle.pif_quick.specs.Quick.{pass_number, held_value, held_word};
ghost use Rattle.pif_quick.specs.Lent.{LendsValue};

use super::{Held, Pass};

impl<T> Held<T> {
    /// The value.
    pub fn value(&self) -> &T
        ensures { result.now ≡ held_value self.now }
    {
        &self.value
    }

    /// The value, to be written. What was held stays in all else what it was.
    pub fn value_mut(&mut self) -> &mut T
        ensures* writes_back { sem 𝓛 (LendsValue T.row self.entry result) }
        ensures value { result.now ≡ held_value self.old }
    {
        &mut self.value
    }

    /// The number of its word.
    pub fn word(&self) -> usize
        ensures { result ≡ held_word self.now }
    {
        self.word
    }
}

impl<T> Pass<T> {
    /// The pass's number, 1 to 64.
    pub fn number(&self) -> u8
        ensures { result ≡ pass_number self.now }
    {
        self.number
    }
}
