//! New words, and their passes.
ghost use Rattle.std.specs.Prelude.{◌≡◌, ℕ, ◌+◌, ◌*◌, ◌<◌, ◌≤◌, ◌^◌, [], ◌∷◌, ◌++◌, replicate, slice_get, slice_index_or, All, vec_len, IfOk, OnOk};
ghost use Rattle.pif_quick.specs.declared.quick.Pass.{Pass};
ghost use Rattle.pif_quick.specs.Rule.{opening_at};
ghost use Rattle.pif_quick.specs.Places.{dealer_at};
ghost use Rattle.pif_quick.specs.Quick.{word_count, pass_number, spaced, spread, IsDealtPass, IsPassOf, AreSound, IsIdle, IsFresh};

use super::{Pass, Quick, SPACING};
use crate::parking::Order;
use crate::rule::{Board, Deal, Page, Place, Shelf};
use atomic_table::Table;
use pif_types::{NoMemory, push_within, with_room};
use std::alloc::Global;
use std::snapshot::Snapshot;
use std::sync::{Condvar, Mutex};

/// The values, each with room behind it.
fn spread_out<T: Drop>(alloc: Global, values: Vec<T>) -> Result<Vec<Option<T>>, NoMemory>
    ensures { IfOk result (λ s. s.items ≡ spread values.items) }
{
    let mut slots = Vec::new(alloc);
    for value in values {
        push_spaced(&mut slots, value)?;
    }
    Ok(slots)
}

/// Puts a value behind the others, with room behind it.
fn push_spaced<T: Drop>(slots: &mut Vec<Option<T>>, value: T) -> Result<(), NoMemory>
    ensures { OnOk result (slots.new.items ≡ slots.old.items ++ spaced value) }
{
    push(slots, Some(value))?;
    for _ in 1..SPACING {
        push(slots, None)?;
    }
    Ok(())
}

/// Puts a slot behind the others.
fn push<T: Drop>(slots: &mut Vec<Option<T>>, slot: Option<T>) -> Result<(), NoMemory>
    ensures { OnOk result (slots.new.items ≡ slots.old.items ++ slot ∷ []) }
{
    match slots.push(slot) {
        Ok(()) => Ok(()),
        Err(_) => Err(NoMemory),
    }
}

/// So many words, each 0.
fn free_words(alloc: Global, count: usize) -> Result<Vec<u64>, NoMemory>
    ensures { IfOk result (λ w. w.items ≡ replicate count 0) }
{
    match vec![in alloc; 0; count] {
        Ok(words) => Ok(words),
        Err(_) => Err(NoMemory),
    }
}

/// The table with the words and values, its dealer, and how many values there are.
fn lay_out<T: Drop>(alloc: Global, values: Vec<T>) -> Result<(Board<T>, Place<T>, usize), NoMemory>
    ensures count { IfOk result (λ r. (r.2 ≡ vec_len values) × (8 * r.2 < 2 ^ 64)) }
    ensures sized { IfOk result (λ r. (r.0.shared.table_id.words ≡ 8 * r.2) × (r.0.shared.table_id.slots ≡ 8 * r.2)) }
    ensures key { IfOk result (λ r. r.0.shared.key.value.items ≡ spread values.items) }
    ensures dealer { IfOk result (λ r. (r.1.table_id ≡ r.0.shared.table_id) × (r.1.me ≡ (dealer_at r.0.shared.key.value.items 0 1, []))) }
{
    let slots = spread_out(alloc, values)?;
    let words = free_words(alloc, slots.len())?;
    let count = slots.len() / SPACING;
    let key = Snapshot::of(&slots);
    match Table::new(alloc, words.as_slice(), slots, &key) {
        Ok((board, dealer)) => Ok((board, dealer, count)),
        Err(_) => Err(NoMemory),
    }
}

/// A pass with a seat at each word.
fn deal<T>(
    alloc: Global,
    shelf: &Shelf<T>,
    dealer: &mut Place<T>,
    number: u8,
    count: usize,
) -> Result<Pass<T>, NoMemory>
    requires dealer { (dealer.old.table_id ≡ shelf.now.table_id) × (dealer.old.me ≡ (dealer_at shelf.now.key.value.items 0 number, [])) }
    requires sized { (shelf.now.table_id.words ≡ 8 * count) × (shelf.now.table_id.slots ≡ 8 * count) }
    requires opened { (m : ℕ) → m < count → (x : T) × (opening_at shelf.now.key.value.items (8 * m) ≡ Some x) }
    requires numbered { 1 ≤ number }
    ensures dealer { OnOk result ((dealer.new.table_id ≡ shelf.now.table_id) × (dealer.new.me ≡ (dealer_at shelf.now.key.value.items (8 * count) number, []))) }
    ensures dealt { IfOk result (IsDealtPass shelf.now.key.value.items shelf.now.table_id count number) }
{
    let mut places = with_room(alloc, count)?;
    for _ in 0..count {
        push_within(&mut places, shelf.split_seat::<Deal>(dealer));
    }
    Ok(Pass { number, places })
}

/// So many passes, each with a seat at each word.
fn deal_all<T>(
    alloc: Global,
    shelf: &Shelf<T>,
    dealer: &mut Place<T>,
    passes: u32,
    count: usize,
) -> Result<Vec<Pass<T>>, NoMemory>
    requires dealer { (dealer.old.table_id ≡ shelf.now.table_id) × (dealer.old.me ≡ (dealer_at shelf.now.key.value.items 0 1, [])) }
    requires sized { (0 < count) × (shelf.now.table_id.words ≡ 8 * count) × (shelf.now.table_id.slots ≡ 8 * count) }
    requires opened { (m : ℕ) → m < count → (x : T) × (opening_at shelf.now.key.value.items (8 * m) ≡ Some x) }
    requires few { passes ≤ 64 }
    ensures counted { IfOk result (λ v. vec_len v ≡ passes) }
    ensures dealt { IfOk result (λ v. (k : ℕ) (p : Pass T) → slice_get v.items k ≡ Some p → IsDealtPass shelf.now.key.value.items shelf.now.table_id count (k + 1) p) }
{
    let mut dealt = with_room(alloc, passes as usize)?;
    for index in 0..passes {
        let pass = deal(alloc, shelf, dealer, index as u8 + 1, count)?;
        push_within(&mut dealt, pass);
        shelf.load::<Page>(dealer, 0);
    }
    Ok(dealt)
}

/// A place to sleep for nobody, and one for each of so many passes.
fn sleeping_places(alloc: Global, passes: u32) -> Result<Vec<Condvar>, NoMemory>
    requires { passes ≤ 64 }
    ensures { IfOk result (λ v. vec_len v ≡ passes + 1) }
{
    let mut places = with_room(alloc, passes as usize + 1)?;
    for _ in 0..passes + 1 {
        push_within(&mut places, Condvar::new());
    }
    Ok(places)
}

impl<T: Drop> Quick<T> {
    /// Words with these values, each free, and so many passes, with the numbers from 1. At least one value, and 1 to 64
    /// passes. It alone takes memory, for the words and values, and for each pass a seat at each word and a place to
    /// sleep, and answers `NoMemory` if that is refused: the values are then gone.
    pub fn open(
        alloc: Global,
        values: Vec<T>,
        passes: u32,
    ) -> Result<(Quick<T>, Vec<Pass<T>>), NoMemory>
        requires passes { (1 ≤ passes) × (passes ≤ 64) }
        requires values { 1 ≤ vec_len values }
        ensures words { IfOk result (λ r. word_count r.0 ≡ vec_len values) }
        ensures passes { IfOk result (λ r. vec_len r.1 ≡ passes) }
        ensures own { IfOk result (λ r. All (IsPassOf r.0) r.1.items) }
        ensures sound { IfOk result (λ r. All AreSound r.1.items) }
        ensures fresh { IfOk result (λ r. All (IsFresh values.items) r.1.items) }
        ensures idle { IfOk result (λ r. All IsIdle r.1.items) }
        ensures numbered { IfOk result (λ r. (k : ℕ) (d : Pass T) → k < passes → pass_number (slice_index_or r.1.items k d) ≡ k + 1) }
    {
        let (board, mut dealer, count) = lay_out(alloc, values)?;
        let handed = sleeping_places(alloc, passes)?;
        let passes = deal_all(alloc, &board.shared, &mut dealer, passes, count)?;
        let order = Mutex::new(Order::new());
        let quick = Quick {
            board,
            order,
            handed,
            count,
        };
        Ok((quick, passes))
    }
}
