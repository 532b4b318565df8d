use crate::marks::word_from;
use arrayvec::ArrayVec;

/// The most names that are looked up.
const MOST_NAMES: usize = 200;

/// A name that a program gives, and a word of its kind.
#[derive(Clone, Copy)]
struct Given<'p> {
    /// The name.
    name: &'p [u8],
    /// The first thread, mutex, variable or cell.
    word: &'static [u8],
}

impl<'p> Default for Given<'p> {
    /// What fills a list that has no name.
    fn default() -> Given<'p> {
        Given {
            name: &[],
            word: &[],
        }
    }
}

/// The names that the lines of a program give.
#[derive(Drop)]
pub struct GivenNames<'p> {
    /// These.
    all: ArrayVec<Given<'p>, MOST_NAMES>,
}

/// The word of this number in a line, from 0; it is empty if there is none.
fn word_at(line: &[u8], number: usize) -> &[u8] {
    let mut place = 0;
    for _ in 0..number {
        place = word_from(line, place).end;
    }
    let spot = word_from(line, place);
    &line[spot.start..spot.end]
}

/// The last word of a line.
fn last_word(line: &[u8]) -> &[u8] {
    let mut last: &[u8] = &[];
    let mut place = 0;
    for _ in 0..line.len() {
        let spot = word_from(line, place);
        if spot.start == spot.end {
            break;
        }
        last = &line[spot.start..spot.end];
        place = spot.end;
    }
    last
}

impl<'p> GivenNames<'p> {
    /// None.
    pub fn nothing() -> GivenNames<'p> {
        GivenNames {
            all: ArrayVec::new(),
        }
    }

    /// Takes the name that a line gives, if it gives one.
    pub fn take(&mut self, line: &'p [u8]) {
        if word_at(line, 2).is_empty() {
            return;
        }
        let front = word_at(line, 0);
        let kind: &'static [u8] = if front == b"thread".as_slice() {
            b"t1"
        } else if front == b"mutex".as_slice() {
            b"m1"
        } else if front == b"cond".as_slice() {
            b"c1"
        } else if front == b"cell".as_slice() {
            b"x1"
        } else {
            return;
        };
        let is_cell = front == b"cell".as_slice();
        let name = if is_cell {
            word_at(line, 1)
        } else {
            last_word(line)
        };
        let _ = self.all.try_push(Given { name, word: kind });
    }

    /// A word of the kind of this name, or the word itself.
    pub fn meant<'w>(&self, word: &'w [u8]) -> &'w [u8] {
        for given in self.all.iter() {
            if given.name == word {
                return given.word;
            }
        }
        word
    }
}
