//! The calls that may wait.
ghost use Rattle.std.specs.Prelude.{◌≡◌, ◌<◌, IfSome, IfNone, vec_len};
ghost use Rattle.pif_quick.specs.Turns.{IsOpen, OpensTurn, closed};
ghost use Rattle.pif_quick.specs.Places.{record_of, pass_of, IsPlaceOf, IsPlaceOfPass};
ghost use Rattle.pif_quick.specs.Quick.{word_count, IsPassOf, AreSound, IsTurnOf, LocksWord, UnlocksWord};

use super::{Held, Pass, Quick, SPACING};
use crate::place;
use crate::rule::Place;
use pif_word::number;
use std::hint::spin_loop;
use std::snapshot::Snapshot;
use std::sync::Wait;
use std::thread;

/// How often a pass tries to take a word before it marks the word and sleeps.
const TRIES: u32 = 40;

/// How many of the tries have a pause of the processor behind them that is twice as long as the one before. Behind each
/// of the others the pause is as long as the last of these, and then the thread yields.
const SPINS: u32 = 7;

/// The pause behind a try.
fn pause(tries: u32) {
    for _ in 0..1u32 << tries.min(SPINS - 1) {
        spin_loop();
    }
    if tries >= SPINS {
        thread::yield_now();
    }
}

impl<T: Drop> Quick<T> {
    /// Locks the word `m`, and gives its value. If the word isn't free, tries for a while; then marks it, and sleeps
    /// until it is handed over. A pass that holds the word itself waits for good.
    pub fn lock<R: Wait>(&self, rt: &R, pass: &mut Pass<T>, m: usize) -> Held<T>
        requires word { m < word_count self.now }
        requires own { IsPassOf self.now pass.old }
        ensures own { IsPassOf self.now pass.new }
        ensures sound { AreSound pass.new }
        ensures locked { LocksWord self.now m pass.old pass.new result }
    {
        let holder = pass.number;
        let place = &mut pass.places[m];
        let value = self.wait_for(rt, place, SPACING * m, holder);
        Held {
            value,
            word: m,
            pass: holder,
            home: Snapshot::of(&self.board.shared),
        }
    }

    /// Unlocks the word of `held` with the value that it has. If the word is marked, hands it to the pass that has
    /// waited longest for it, or frees it if none waits.
    pub fn unlock<R: Wait>(&self, rt: &R, pass: &mut Pass<T>, held: Held<T>)
        requires own { IsPassOf self.now pass.old }
        requires turn { IsTurnOf self.now pass.old held }
        ensures own { IsPassOf self.now pass.new }
        ensures sound { AreSound pass.new }
        ensures unlocked { UnlocksWord held pass.old pass.new }
    {
        let Held {
            value,
            word,
            pass: _,
            home: _,
        } = held;
        let holder = pass.number;
        let place = &mut pass.places[word];
        self.give_back(rt, place, SPACING * word, holder, value);
    }

    /// Whether the pass with this number stands in the order of those that wait. It does from when it is to sleep until
    /// a word is handed to it.
    pub fn is_parked<R: Wait>(&self, rt: &R, number: u8) -> bool {
        self.order.lock(rt).has(number)
    }

    /// Takes the word with its value, and waits for it if it isn't free.
    fn wait_for<R: Wait>(&self, rt: &R, place: &mut Place<T>, word: usize, pass: u8) -> T
        requires place { IsPlaceOf self.now.board.shared.table_id word pass place.old }
        requires numbered { pass < vec_len self.now.handed }
        ensures place { IsPlaceOf self.now.board.shared.table_id word pass place.new }
        ensures taken { OpensTurn pass result (record_of place.old) (record_of place.new) }
    {
        let shelf = &self.board.shared;
        match place::take(shelf, place, word, pass) {
            Ok(value) => return value,
            Err(bits) if number(bits) == u32::from(pass) => self.wait_for_good(rt, pass),
            Err(_) => {}
        }
        for _ in rt.forever() {
            if let Some(value) = self.take_soon(place, word, pass) {
                return value;
            }
            self.park(rt, place, word, pass);
            if let Some(value) = place::claim(shelf, place, word, pass) {
                return value;
            }
        }
        unreachable!()
    }

    /// Tries to take the word with its value, `TRIES` times, with longer and longer pauses between.
    fn take_soon(&self, place: &mut Place<T>, word: usize, pass: u8) -> Option<T>
        requires { IsPlaceOf self.now.board.shared.table_id word pass place.old }
        ensures place { IsPlaceOf self.now.board.shared.table_id word pass place.new }
        ensures taken { IfSome result (λ v. OpensTurn pass v (record_of place.old) (record_of place.new)) }
        ensures kept { IfNone result (record_of place.new ≡ record_of place.old) }
    {
        for tries in 0..TRIES {
            let taken = place::take_free(&self.board.shared, place, word, pass);
            if taken.is_some() {
                return taken;
            }
            pause(tries);
        }
        None
    }

    /// Never returns.
    fn wait_for_good<R: Wait>(&self, rt: &R, pass: u8)
        requires { pass < vec_len self.now.handed }
        ensures { ⊥ }
    {
        for _ in rt.forever() {
            drop(self.handed[usize::from(pass)].wait(rt, self.order.lock(rt)));
        }
        unreachable!()
    }

    /// Marks the word and sleeps until it is handed over. Returns at once if it is free, and if it has changed.
    fn park<R: Wait>(&self, rt: &R, place: &mut Place<T>, word: usize, pass: u8)
        requires place { IsPlaceOfPass self.now.board.shared.table_id word place.old }
        requires numbered { pass < vec_len self.now.handed }
        ensures { (place.new.table_id ≡ place.old.table_id) × (place.new.me ≡ place.old.me) }
    {
        let shelf = &self.board.shared;
        let mut order = self.order.lock(rt);
        let bits = place::look(shelf, place, word);
        // Marked under the lock of the order. Otherwise the holder could hand the word over before this pass stands in
        // the order, and this pass would sleep with nobody to wake it.
        if number(bits) == 0 || !place::mark(shelf, place, word, bits) {
            return;
        }
        if order.park(word, pass) {
            let handed = &self.handed[usize::from(pass)];
            drop(handed.wait_while(rt, order, |order| order.has(pass)));
        } else {
            drop(order);
            thread::yield_now();
        }
    }

    /// Wakes the pass to which a word was handed.
    fn wake(&self, next: Option<u8>) {
        if let Some(next) = next
            && let Some(handed) = self.handed.get(usize::from(next))
        {
            handed.notify_one();
        }
    }

    /// Puts the value home, and releases the word or hands it over.
    fn give_back<R: Wait>(&self, rt: &R, place: &mut Place<T>, word: usize, pass: u8, value: T)
        requires place { IsPlaceOf self.now.board.shared.table_id word pass place.old }
        requires open_turn { IsOpen (record_of place.old) }
        ensures place { IsPlaceOf self.now.board.shared.table_id word pass place.new }
        ensures given { record_of place.new ≡ closed pass value (record_of place.old) }
    {
        let shelf = &self.board.shared;
        let mut value = value;
        for _ in rt.forever() {
            value = match place::release(shelf, place, word, pass, value) {
                Ok(()) => return,
                Err(value) => value,
            };
            let mut order = self.order.lock(rt);
            value = match place::hand_over(shelf, place, word, pass, &mut order, value) {
                Ok(next) => {
                    // Woken once the lock is free, for which it would have to wait otherwise.
                    drop(order);
                    self.wake(next);
                    return;
                }
                Err(value) => value,
            };
        }
        unreachable!()
    }
}
