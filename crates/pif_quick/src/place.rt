//! One pass at one word.
ghost use Rattle.std.specs.Prelude.{◌≡◌, ◌⊎◌, [], ◌∷◌, IfSome, IfNone, IfOk, IfErr, MatchResult};
ghost use Rattle.pif_model.specs.Word.{word_of};
ghost use Rattle.pif_quick.specs.Turns.{IsOlder, IsOpen, Agree, OpensTurn, closed};
ghost use Rattle.pif_quick.specs.Rule.{handed_to};
ghost use Rattle.pif_quick.specs.Waits.{next_at, without_next};
ghost use Rattle.pif_quick.specs.Places.{record_of, pass_of, IsPlaceOf, IsPlaceOfPass};

use crate::parking::Order;
use crate::rule::{Claim, Compare, HandOver, Look, Mark, Note, Place, Release, Shelf, Take};
use pif_word::{hand_word, mark_word, number};

/// Puts the value into the slot in hand.
fn put_down<T>(shelf: &Shelf<T>, place: &mut Place<T>, word: usize, value: T)
    requires { (place.old.table_id ≡ shelf.now.table_id) × (place.old.me.1 ≡ (word, None) ∷ []) }
    ensures { (place.new.table_id ≡ place.old.table_id) × (place.new.me ≡ (place.old.me.0, (word, Some value) ∷ [])) }
{
    let empty = shelf.exchange(place, word, Some(value));
    let None = empty else { unreachable!() };
}

/// Takes the value out of the slot in hand.
fn pick_up<T>(shelf: &Shelf<T>, place: &mut Place<T>, word: usize) -> T
    requires { (place.old.table_id ≡ shelf.now.table_id) × ((v : T) × (place.old.me.1 ≡ (word, Some v) ∷ [])) }
    ensures same { (place.new.table_id ≡ place.old.table_id) × (place.new.me ≡ (place.old.me.0, (word, None) ∷ [])) }
    ensures value { place.old.me.1 ≡ (word, Some result) ∷ [] }
{
    match shelf.exchange(place, word, None) {
        Some(value) => value,
        None => unreachable!(),
    }
}

/// Takes the word from 0, with its value, or answers its bits as they are.
pub(crate) fn take<T>(
    shelf: &Shelf<T>,
    place: &mut Place<T>,
    word: usize,
    pass: u8,
) -> Result<T, u32>
    requires { IsPlaceOf shelf.now.table_id word pass place.old }
    ensures place { IsPlaceOf shelf.now.table_id word pass place.new }
    ensures taken { IfOk result (λ v. OpensTurn pass v (record_of place.old) (record_of place.new)) }
    ensures kept { IfErr result (λ bits. record_of place.new ≡ record_of place.old) }
    ensures own { IfErr result (λ bits. IsOpen (record_of place.old) → (word_of bits).number ≡ pass) }
{
    let found = shelf.compare_exchange::<Take>(place, word, 0, u64::from(pass));
    if found != 0 {
        return Err(found as u32);
    }
    Ok(pick_up(shelf, place, word))
}

/// Takes the word with its value if a load finds that it is 0. `None`, with nothing changed, if it isn't, or is no
/// more.
pub(crate) fn take_free<T>(
    shelf: &Shelf<T>,
    place: &mut Place<T>,
    word: usize,
    pass: u8,
) -> Option<T>
    requires { IsPlaceOf shelf.now.table_id word pass place.old }
    ensures place { IsPlaceOf shelf.now.table_id word pass place.new }
    ensures taken { IfSome result (λ v. OpensTurn pass v (record_of place.old) (record_of place.new)) }
    ensures kept { IfNone result (record_of place.new ≡ record_of place.old) }
{
    if look(shelf, place, word) != 0 {
        return None;
    }
    take(shelf, place, word, pass).ok()
}

/// Puts the value home and releases the word, if its bits are the pass's number alone. Otherwise gives the value
/// back.
pub(crate) fn release<T>(
    shelf: &Shelf<T>,
    place: &mut Place<T>,
    word: usize,
    pass: u8,
    value: T,
) -> Result<(), T>
    requires place { IsPlaceOf shelf.now.table_id word pass place.old }
    requires open_turn { IsOpen (record_of place.old) }
    ensures place { IsPlaceOf shelf.now.table_id word pass place.new }
    ensures told { MatchResult result (λ _. record_of place.new ≡ closed pass value (record_of place.old)) (λ v. (v ≡ value) × (record_of place.new ≡ record_of place.old)) }
{
    // The value is home before the word is free, because whoever gets the word picks the value up at once.
    put_down(shelf, place, word, value);
    let own = u64::from(pass);
    if shelf.compare_exchange::<Release>(place, word, own, 0) == own {
        return Ok(());
    }
    Err(pick_up(shelf, place, word))
}

/// Puts the value home and hands the word, whose bits are the pass's number with `WAITERS`, to the first pass in the
/// order that waits for it, or frees it if there is none. Answers that pass, which has left the order. If the bits are
/// others, gives the value back and leaves the order.
pub(crate) fn hand_over<T>(
    shelf: &Shelf<T>,
    place: &mut Place<T>,
    word: usize,
    pass: u8,
    order: &mut Order,
    value: T,
) -> Result<Option<u8>, T>
    requires place { IsPlaceOf shelf.now.table_id word pass place.old }
    requires open_turn { IsOpen (record_of place.old) }
    ensures place { IsPlaceOf shelf.now.table_id word pass place.new }
    ensures told { MatchResult result (λ _. record_of place.new ≡ closed pass value (record_of place.old)) (λ v. (v ≡ value) × (record_of place.new ≡ record_of place.old)) }
    ensures next { IfOk result (λ next. next ≡ next_at word order.old.parked.items) }
    ensures order { MatchResult result (λ _. order.new.parked.items ≡ without_next word order.old.parked.items) (λ _. order.new ≡ order.old) }
{
    put_down(shelf, place, word, value);
    let marked = u64::from(mark_word(u32::from(pass)));
    let next = order.first(word);
    let new = u64::from(handed_word(next));
    if shelf.compare_exchange::<HandOver>(place, word, marked, new) == marked {
        order.leave_first(word);
        return Ok(next);
    }
    Err(pick_up(shelf, place, word))
}

/// The bits of a word that is handed to the pass `next`, or freed if there is none.
fn handed_word(next: Option<u8>) -> u32
    ensures { word_of result ≡ handed_to next }
{
    match next {
        Some(pass) => hand_word(u32::from(pass)),
        None => 0,
    }
}

/// Takes the value of the word if its bits have the pass's number: it was handed over.
pub(crate) fn claim<T>(shelf: &Shelf<T>, place: &mut Place<T>, word: usize, pass: u8) -> Option<T>
    requires place { IsPlaceOf shelf.now.table_id word pass place.old }
    requires quiet { (record_of place.old).found ≡ None }
    ensures place { IsPlaceOf shelf.now.table_id word pass place.new }
    ensures taken { IfSome result (λ v. OpensTurn pass v (record_of place.old) (record_of place.new)) }
    ensures kept { IfNone result (record_of place.new ≡ record_of place.old) }
{
    let found = shelf.load::<Claim>(place, word);
    if number(found as u32) != u32::from(pass) {
        return None;
    }
    Some(pick_up(shelf, place, word))
}

/// The bits of the word.
pub(crate) fn look<T>(shelf: &Shelf<T>, place: &mut Place<T>, word: usize) -> u32
    requires { IsPlaceOfPass shelf.now.table_id word place.old }
    ensures { (place.new.table_id ≡ place.old.table_id) × (place.new.id ≡ place.old.id) × (place.new.me ≡ place.old.me) }
{
    shelf.load::<Look>(place, word) as u32
}

/// Sets `WAITERS` in the word if its bits are `seen`, and says whether they were.
pub(crate) fn mark<T>(shelf: &Shelf<T>, place: &mut Place<T>, word: usize, seen: u32) -> bool
    requires { IsPlaceOfPass shelf.now.table_id word place.old }
    ensures { (place.new.table_id ≡ place.old.table_id) × (place.new.id ≡ place.old.id) × (place.new.me ≡ place.old.me) }
{
    let old = u64::from(seen);
    shelf.compare_exchange::<Mark>(place, word, old, u64::from(mark_word(seen))) == old
}

/// Compares the closed turns of one seat with those of another seat of its word.
fn compare<T>(shelf: &Shelf<T>, place: &mut Place<T>, other: &mut Place<T>, word: usize)
    requires place { IsPlaceOfPass shelf.now.table_id word place.old }
    requires other { IsPlaceOfPass shelf.now.table_id word other.old }
    ensures place { IsPlaceOfPass shelf.now.table_id word place.new }
    ensures other { IsPlaceOfPass shelf.now.table_id word other.new }
    ensures kept { (record_of place.new ≡ record_of place.old) × (record_of other.new ≡ record_of other.old) }
    ensures passes { (pass_of place.new ≡ pass_of place.old) × (pass_of other.new ≡ pass_of other.old) }
    ensures either_way { IsOlder (record_of other.old).turns (record_of place.old).turns ⊎ IsOlder (record_of place.old).turns (record_of other.old).turns }
    ensures open_turn { IsOpen (record_of place.old) → IsOlder (record_of other.old).turns (record_of place.old).turns }
{
    let note = shelf.split_seat::<Note>(other);
    shelf.join_seat::<Note>(place, note);
    shelf.load::<Compare>(place, word);
}

/// Two seats of one word meet: their records agree.
pub(crate) fn meet<T>(shelf: &Shelf<T>, place: &mut Place<T>, other: &mut Place<T>, word: usize)
    requires place { IsPlaceOfPass shelf.now.table_id word place.old }
    requires other { IsPlaceOfPass shelf.now.table_id word other.old }
    requires one_open { ((record_of place.old).found ≡ None) ⊎ ((record_of other.old).found ≡ None) }
    ensures place { IsPlaceOfPass shelf.now.table_id word place.new }
    ensures other { IsPlaceOfPass shelf.now.table_id word other.new }
    ensures kept { (record_of place.new ≡ record_of place.old) × (record_of other.new ≡ record_of other.old) }
    ensures passes { (pass_of place.new ≡ pass_of place.old) × (pass_of other.new ≡ pass_of other.old) }
    ensures agree { Agree (record_of place.old) (record_of other.old) }
{
    compare(shelf, place, other, word);
    compare(shelf, other, place, word);
}
