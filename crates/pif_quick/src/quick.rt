//! The words with their values, the passes, and what a pass holds.
ghost use Rattle.std.specs.Prelude.{◌≡◌, ◌*◌, ◌<◌, ◌^◌};

mod calls;
mod open;
mod value;
mod waits;

use crate::parking::Order;
use crate::rule::{Board, Place, Shelf};
use std::snapshot::Snapshot;
use std::sync::{Condvar, Mutex};

/// Words with a value each, of which a pass at a time has one. Each pass that waits sleeps on a `Condvar` of its own,
/// at the place of its number; the first is nobody's.
#[derive(Drop)]
pub struct Quick<T: Drop> {
    board: Board<T>,
    order: Mutex<Order>,
    handed: Vec<Condvar>,
    count: usize,
    ghost sized: { (board.shared.table_id.words ≡ 8 * count) × (board.shared.table_id.slots ≡ 8 * count) × (8 * count < 2 ^ 64) },
}

/// The right of one thread to lock words, and what it knows of each. It goes with the words that it was made with.
#[derive(Drop)]
pub struct Pass<T> {
    number: u8,
    places: Vec<Place<T>>,
}

/// A value that a pass holds, with its word. It goes with the words that it was locked among: no other `Quick` takes
/// it. A `Held` that is let go leaves its word locked for good: give it back by `unlock_quiet` or `unlock`.
#[derive(Drop)]
pub struct Held<T> {
    value: T,
    word: usize,
    pass: u8,
    home: Snapshot<Shelf<T>>,
}

/// How many places of the table lie between two words, so that no two share a line of the cache (64 bytes).
const SPACING: usize = 8;
