//! The order of the passes that wait.
ghost use Rattle.std.specs.Prelude.{◌≡◌, ◌==◌, [], ◌∷◌, ◌++◌, ◌<◌, IsTrue, IsFalse, is_some, length};
ghost use Rattle.std.specs.List.{position};
ghost use Rattle.pif_quick.specs.Waits.{waits_for_word, next_at, without_next};

use arrayvec::ArrayVec;

/// A pass that waits for a word.
#[derive(Clone, Copy, Default)]
struct Parked {
    word: usize,
    pass: u8,
}

/// The passes that wait, the first that came first. There is room for 64.
#[derive(Drop)]
pub(crate) struct Order {
    parked: ArrayVec<Parked, 64>,
}

impl Order {
    /// Nobody waits.
    pub(crate) fn new() -> Order
        ensures { result.parked.items ≡ [] }
    {
        Order {
            parked: ArrayVec::new(),
        }
    }

    /// Whether the pass waits.
    pub(crate) fn has(&self, pass: u8) -> bool
        ensures { result ≡ is_some (position (λ p. p.pass == pass) self.now.parked.items) }
    {
        self.place_of(pass).is_some()
    }

    /// Where the pass stands in the order.
    fn place_of(&self, pass: u8) -> Option<usize>
        ensures { result ≡ position (λ p. p.pass == pass) self.now.parked.items }
    {
        self.parked
            .as_slice()
            .iter()
            .position(|parked| parked.pass == pass)
    }

    /// Where the first that waits for the word stands in the order.
    fn first_place(&self, word: usize) -> Option<usize>
        ensures { result ≡ position (waits_for_word word) self.now.parked.items }
    {
        self.parked
            .as_slice()
            .iter()
            .position(|parked| parked.word == word)
    }

    /// Puts the pass behind the others. Answers false, with nothing changed, if there is no room.
    pub(crate) fn park(&mut self, word: usize, pass: u8) -> bool
        ensures parked { IsTrue result → self.new.parked.items ≡ self.old.parked.items ++ (record { word = word; pass = pass }) ∷ [] }
        ensures full { IsFalse result → (length self.old.parked.items ≡ 64) × (self.new ≡ self.old) }
    {
        self.parked.try_push(Parked { word, pass }).is_ok()
    }

    /// The first that waits for the word.
    pub(crate) fn first(&self, word: usize) -> Option<u8>
        ensures { result ≡ next_at word self.now.parked.items }
    {
        self.parked
            .as_slice()
            .iter()
            .find(|parked| parked.word == word)
            .map(|parked| parked.pass)
    }

    /// Takes the first that waits for the word out of the order. The others keep their places.
    pub(crate) fn leave_first(&mut self, word: usize)
        ensures { self.new.parked.items ≡ without_next word self.old.parked.items }
    {
        if let Some(place) = self.first_place(word) {
            self.parked.remove(place);
        }
    }
}
