ghost use Rattle.std.specs.Prelude.{ℕ, ◌≡◌, List, map};
ghost use Rattle.pif_text_core.specs.Texts.{name_in};

use pif_types::Tid;
use std::marker::Model;

/// The names of threads for a person, of which that of t1 is the first. One that is empty, or that isn't there, is
/// none.
#[derive(Drop)]
pub struct Names<'n> {
    list: &'n [&'n str],
}

impl<'n> Model for Names<'n> {
    ghost Value = { List (List ℕ) };

    ghost view = { λ n. map (λ name. name.now) n.list.now };
}

impl<'n> Names<'n> {
    /// These names.
    pub fn new(list: &'n [&'n str]) -> Names<'n>
        ensures { result ≡ map (λ name. name.now) list.now }
    {
        Names { list }
    }

    /// The name of a thread; empty if it has none.
    pub fn of(&self, thread: Tid) -> &'n str
        ensures { result.now ≡ name_in self.now thread }
    {
        let place = (thread.get() - 1) as usize;
        if place < self.list.len() {
            self.list[place]
        } else {
            ""
        }
    }
}
