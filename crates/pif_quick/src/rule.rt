//! The words, their values, and what each pass knows of them. Types of this file have no values in a program: they are
//! what the proofs say of one.
use atomic_table::{Join, Play, Seat, Shared, Split, Table, TableRule};
use std::alloc::Global;
use std::collections::LinkedList;
use std::snapshot::Snapshot;

/// One turn of a pass at a word: the value that it found, and the value that it left.
pub struct Turn<T> {
    pub pass: u64,
    pub found: T,
    pub left: T,
}

/// What a pass knows of one word: the value at first, what its own open turn found, the closed turns of all passes that
/// it has learnt of, newest first, and what it found and left in its own closed turns.
pub struct Record<T> {
    pub opening: Option<T>,
    pub found: Option<T>,
    pub turns: LinkedList<Turn<T>>,
    pub made: LinkedList<(T, T)>,
}

/// What a view is: the dealer's, who gives each pass a seat at each word, a seat's, or nobody's.
pub enum Role {
    Dealer,
    Seated,
    Spent,
}

/// What a seat knows. The dealer has the opening values in `starts`, and `beside` is what was learnt of another pass.
pub struct View<T> {
    pub role: Role,
    pub pass: u64,
    pub word: u64,
    pub starts: LinkedList<Option<T>>,
    pub known: Record<T>,
    pub beside: LinkedList<Turn<T>>,
}

/// The rule of the words.
pub struct OneHolder;

impl<T> TableRule<Option<T>, View<T>, Snapshot<Vec<Option<T>>>> for OneHolder {
    ghost use Rattle.pif_quick.specs.Rule.{EachWordHasOneHolder, first_dealer};

    ghost holds = { λ key. EachWordHasOneHolder key.value.items };

    ghost first = { λ key. first_dealer key.value.items };
}

/// The words and their values, with their memory.
pub type Board<T> = Table<Option<T>, View<T>, Snapshot<Vec<Option<T>>>, OneHolder, Global>;

/// The words and their values, as threads see them.
pub type Shelf<T> = Shared<Option<T>, View<T>, Snapshot<Vec<Option<T>>>, OneHolder>;

/// The seat of one pass at one word. It has no bytes.
pub type Place<T> = Seat<Option<T>, View<T>>;

/// Take the word and its value.
pub struct Take;

impl<T> Play<Option<T>, View<T>> for Take {
    ghost use Rattle.pif_quick.specs.Rule.{Took};

    ghost then = { Took };
}

/// Release the word, and put its value home.
pub struct Release;

impl<T> Play<Option<T>, View<T>> for Release {
    ghost use Rattle.pif_quick.specs.Rule.{Released};

    ghost then = { Released };
}

/// Hand the word over, or free it though it is marked, and put its value home.
pub struct HandOver;

impl<T> Play<Option<T>, View<T>> for HandOver {
    ghost use Rattle.pif_quick.specs.Rule.{Handed};

    ghost then = { Handed };
}

/// Mark the word.
pub struct Mark;

impl<T> Play<Option<T>, View<T>> for Mark {
    ghost use Rattle.pif_quick.specs.Rule.{Marked};

    ghost then = { Marked };
}

/// Read the word.
pub struct Look;

impl<T> Play<Option<T>, View<T>> for Look {
    ghost use Rattle.pif_quick.specs.Rule.{Looked};

    ghost then = { Looked };
}

/// Take the value of a word that was handed over.
pub struct Claim;

impl<T> Play<Option<T>, View<T>> for Claim {
    ghost use Rattle.pif_quick.specs.Rule.{Claimed};

    ghost then = { Claimed };
}

/// Compare one's own turns with those of another pass.
pub struct Compare;

impl<T> Play<Option<T>, View<T>> for Compare {
    ghost use Rattle.pif_quick.specs.Rule.{Compared};

    ghost then = { Compared };
}

/// The dealer goes on to the next pass.
pub struct Page;

impl<T> Play<Option<T>, View<T>> for Page {
    ghost use Rattle.pif_quick.specs.Rule.{Paged};

    ghost then = { Paged };
}

/// The dealer gives a seat.
pub struct Deal;

impl<T> Split<View<T>> for Deal {
    ghost use Rattle.pif_quick.specs.Rule.{dealer_after, seat_from};

    ghost left = { dealer_after };

    ghost right = { seat_from };
}

/// A seat's closed turns are noted, and shown to another seat of its word.
pub struct Note;

impl<T> Split<View<T>> for Note {
    ghost use Rattle.pif_quick.specs.Rule.{note_of};

    ghost left = { λ v. v };

    ghost right = { note_of };
}

impl<T> Join<View<T>> for Note {
    ghost use Rattle.pif_quick.specs.Rule.{spent_view};

    ghost both = { λ v w. record v { beside = w.beside } };

    ghost spent = { spent_view };
}
