ghost use Rattle.std.specs.Prelude.{◌≡◌, ◌↔◌, ◌<◌, ◌^◌, ◌==◌, Ok, Err, IsTrue, IfOk, replicate, OnOk, is_ok, bit_and, if◌then◌else◌};
ghost use Rattle.pif_model.specs.Word.{word_of, is_bare, held_by};
ghost use Rattle.pif_word.specs.WordMap.{HasCell, IsWordMap, bits_at, with_bits, free_words};

use crate::cells::Cell;
use pif_types::{Limits, NoMemory};
use std::alloc::Global;
use std::marker::Model;

/// The words that threads share: a word and a health word for each mutex that the limits allow, of which there are at
/// most 1,024, and a word for each condition variable that they allow, of which there are at most 256. Each access is
/// one step: it touches one word once.
#[derive(Drop)]
pub struct Words {
    mutexes: Vec<u32>,
    healths: Vec<u32>,
    conds: Vec<u32>,
}

impl Model for Words {
    ghost use Rattle.pif_word.specs.WordMap.{WordMap, IsWordMap};

    ghost Value = { WordMap };

    ghost view = { λ w. record { mutexes = w.mutexes.items; healths = w.healths.items; conds = w.conds.items } };

    ghost invariant = { λ w. IsWordMap (record { mutexes = w.mutexes.items; healths = w.healths.items; conds = w.conds.items }) };
}

impl Words {
    /// A word and a health word for each mutex that `limits` allow, and a word for each condition variable that they
    /// allow, each 0. Takes three pieces of memory, and answers `NoMemory` if one of them is refused.
    pub fn new(alloc: Global, limits: Limits) -> Result<Words, NoMemory>
        ensures made { IfOk result (λ w. w ≡ free_words limits) }
        ensures words { IfOk result IsWordMap }
    {
        let mutexes = zeros(alloc, limits.mutexes() as usize + 1)?;
        let healths = zeros(alloc, limits.mutexes() as usize + 1)?;
        let conds = zeros(alloc, limits.conds() as usize + 1)?;
        Ok(Words {
            mutexes,
            healths,
            conds,
        })
    }

    /// Whether there is such a cell: mutex m has a word and a health word if m is at most the mutexes that the
    /// limits allow, and variable c has a word if c is at most the variables that they allow.
    pub fn has(&self, cell: Cell) -> bool
        ensures { IsTrue result ↔ HasCell self.now cell }
    {
        match cell {
            Cell::Mutex(mutex) => (mutex.get() as usize) < self.mutexes.len(),
            Cell::Health(mutex) => (mutex.get() as usize) < self.healths.len(),
            Cell::Cond(cond) => (cond.get() as usize) < self.conds.len(),
        }
    }

    /// The bits of `cell`.
    pub fn load(&self, cell: Cell) -> u32
        requires { HasCell self.now cell }
        ensures value { result ≡ bits_at self.now cell }
        ensures words { IsWordMap self.now }
    {
        match cell {
            Cell::Mutex(mutex) => self.mutexes[mutex.get() as usize],
            Cell::Health(mutex) => self.healths[mutex.get() as usize],
            Cell::Cond(cond) => self.conds[cond.get() as usize],
        }
    }

    /// Makes `bits` the bits of `cell`. All other words stay.
    pub fn store(&mut self, cell: Cell, bits: u32)
        requires { HasCell self.old cell }
        ensures stored { self.new ≡ with_bits cell bits self.old }
        ensures words { IsWordMap self.new }
    {
        match cell {
            Cell::Mutex(mutex) => self.mutexes[mutex.get() as usize] = bits,
            Cell::Health(mutex) => self.healths[mutex.get() as usize] = bits,
            Cell::Cond(cond) => self.conds[cond.get() as usize] = bits,
        }
    }

    /// Makes `new` the bits of `cell` if they were `expected`, and answers `Ok` with what they were. Otherwise answers
    /// `Err` with what they are, and changes nothing. All other words stay.
    pub fn compare_exchange(&mut self, cell: Cell, expected: u32, new: u32) -> Result<u32, u32>
        requires { HasCell self.old cell }
        ensures value { result ≡ (if bits_at self.old cell == expected then Ok (bits_at self.old cell) else Err (bits_at self.old cell)) }
        ensures stored { self.new ≡ (if bits_at self.old cell == expected then with_bits cell new self.old else self.old) }
        ensures bare { expected < 2 ^ 30 → is_ok result ≡ is_bare (word_of (bits_at self.old cell)) expected }
        ensures held { new < 2 ^ 30 → OnOk result (word_of (bits_at self.new cell) ≡ held_by new) }
        ensures words { IsWordMap self.new }
    {
        match cell {
            Cell::Mutex(mutex) => exchange(&mut self.mutexes[mutex.get() as usize], expected, new),
            Cell::Health(mutex) => exchange(&mut self.healths[mutex.get() as usize], expected, new),
            Cell::Cond(cond) => exchange(&mut self.conds[cond.get() as usize], expected, new),
        }
    }

    /// Keeps of the bits of `cell` those that `mask` has too, and answers what they were. All other words stay.
    pub fn fetch_and(&mut self, cell: Cell, mask: u32) -> u32
        requires { HasCell self.old cell }
        ensures value { result ≡ bits_at self.old cell }
        ensures stored { self.new ≡ with_bits cell (bit_and (bits_at self.old cell) mask) self.old }
        ensures words { IsWordMap self.new }
    {
        match cell {
            Cell::Mutex(mutex) => keep(&mut self.mutexes[mutex.get() as usize], mask),
            Cell::Health(mutex) => keep(&mut self.healths[mutex.get() as usize], mask),
            Cell::Cond(cond) => keep(&mut self.conds[cond.get() as usize], mask),
        }
    }
}

/// This many words, each 0.
fn zeros(alloc: Global, count: usize) -> Result<Vec<u32>, NoMemory>
    ensures { IfOk result (λ words. words.items ≡ replicate count 0) }
{
    vec![in alloc; 0; count].map_err(|_| NoMemory)
}

/// Makes `new` of the word if it is `expected`, and answers `Ok` with what it was. Otherwise answers `Err` with what it
/// is, and changes nothing.
fn exchange(word: &mut u32, expected: u32, new: u32) -> Result<u32, u32>
    ensures value { result ≡ (if word.old == expected then Ok word.old else Err word.old) }
    ensures stored { word.new ≡ (if word.old == expected then new else word.old) }
    ensures bare { expected < 2 ^ 30 → is_ok result ≡ is_bare (word_of word.old) expected }
    ensures held { new < 2 ^ 30 → OnOk result (word_of word.new ≡ held_by new) }
{
    let actual = *word;
    if actual == expected {
        *word = new;
        Ok(actual)
    } else {
        Err(actual)
    }
}

/// Keeps of the word the bits that `mask` has too, and answers what it was.
fn keep(word: &mut u32, mask: u32) -> u32
    ensures value { result ≡ word.old }
    ensures kept { word.new ≡ bit_and word.old mask }
{
    let previous = *word;
    *word = previous & mask;
    previous
}
