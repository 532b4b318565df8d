//! The calls that never wait.
ghost use Rattle.std.specs.Prelude.{◌≡◌, ◌<◌, ◌⊎◌, IfSome, IfNone, MatchResult, ℕ};
ghost use Rattle.pif_quick.specs.Turns.{Agree};
ghost use Rattle.pif_quick.specs.Quick.{word_count, pass_number, record_at, IsPassOf, AreSound, IsIdle, IsUnchanged, IsTurnOf, LocksWord, UnlocksWord};

use super::{Held, Pass, Quick, SPACING};
use crate::place;
use std::snapshot::Snapshot;

impl<T: Drop> Quick<T> {
    /// Locks the word `m` if it is free, by one compare-exchange, and gives its value. `None`, with nothing changed,
    /// if it isn't free.
    pub fn try_lock(&self, pass: &mut Pass<T>, m: usize) -> Option<Held<T>>
        requires word { m < word_count self.now }
        requires own { IsPassOf self.now pass.old }
        ensures own { IsPassOf self.now pass.new }
        ensures sound { AreSound pass.new }
        ensures locked { IfSome result (λ h. LocksWord self.now m pass.old pass.new h) }
        ensures busy { IfNone result (IsUnchanged pass.old pass.new) }
    {
        let number = pass.number;
        let place = &mut pass.places[m];
        match place::take(&self.board.shared, place, SPACING * m, number) {
            Ok(value) => Some(Held {
                value,
                word: m,
                pass: number,
                home: Snapshot::of(&self.board.shared),
            }),
            Err(_) => None,
        }
    }

    /// Unlocks the word of `held` with the value that it has, by one compare-exchange, if no pass waits for it.
    /// Gives `held` back, with nothing changed, if the word is marked for a pass that waits.
    pub fn unlock_quiet(&self, pass: &mut Pass<T>, held: Held<T>) -> Result<(), Held<T>>
        requires own { IsPassOf self.now pass.old }
        requires turn { IsTurnOf self.now pass.old held }
        ensures own { IsPassOf self.now pass.new }
        ensures sound { AreSound pass.new }
        ensures told { MatchResult result (λ _. UnlocksWord held pass.old pass.new) (λ h. (h ≡ held) × IsUnchanged pass.old pass.new) }
    {
        let Held {
            value,
            word,
            pass: holder,
            home,
        } = held;
        let number = pass.number;
        let place = &mut pass.places[word];
        match place::release(&self.board.shared, place, SPACING * word, number, value) {
            Ok(()) => Ok(()),
            Err(value) => Err(Held {
                value,
                word,
                pass: holder,
                home,
            }),
        }
    }

    /// Whether the word `m` is marked: a pass waits for it, or did.
    pub fn marked(&self, pass: &mut Pass<T>, m: usize) -> bool
        requires word { m < word_count self.now }
        requires own { IsPassOf self.now pass.old }
        ensures own { IsPassOf self.now pass.new }
        ensures sound { AreSound pass.new }
        ensures kept { IsUnchanged pass.old pass.new }
    {
        let place = &mut pass.places[m];
        pif_word::has_waiters(place::look(&self.board.shared, place, SPACING * m))
    }

    /// Lets two passes meet: their records of each word then agree, so that one of the two has seen all that the other
    /// has seen of it. Changes no word, and no record. Not both may hold a value.
    pub fn meet(&self, one: &mut Pass<T>, other: &mut Pass<T>)
        requires own { IsPassOf self.now one.old × IsPassOf self.now other.old }
        requires idle { IsIdle one.old ⊎ IsIdle other.old }
        ensures own { IsPassOf self.now one.new × IsPassOf self.now other.new }
        ensures sound { AreSound one.new × AreSound other.new }
        ensures kept { IsUnchanged one.old one.new × IsUnchanged other.old other.new }
        ensures agree { (m : ℕ) → m < word_count self.now → Agree (record_at one.new m) (record_at other.new m) }
    {
        for m in 0..self.count {
            let place = &mut one.places[m];
            place::meet(&self.board.shared, place, &mut other.places[m], SPACING * m);
        }
    }
}
