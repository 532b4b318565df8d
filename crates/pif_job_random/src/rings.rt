use pif_types::NoMemory;
use std::alloc::Global;

/// How many words of bits a row has.
const ROW: u32 = 16;

/// How many places a row has.
pub const PLACES: u32 = 1024;

/// Rows of places, each of which is marked or not. A row is a ring: behind its last place comes its first.
#[derive(Drop)]
pub struct Rings {
    words: Vec<u64>,
}

impl Rings {
    /// So many rows, with no place marked.
    pub fn new(alloc: Global, rows: u32) -> Result<Rings, NoMemory> {
        match Vec::from_elem(alloc, 0u64, rows.saturating_mul(ROW) as usize) {
            Ok(words) => Ok(Rings { words }),
            Err(_) => Err(NoMemory),
        }
    }

    /// Where in the words this place of a row stands.
    fn index(row: u32, place: u32) -> usize {
        row.saturating_mul(ROW).saturating_add(place / 64) as usize
    }

    /// Marks a place of a row, or takes its mark away. A place that is not there is passed over.
    pub fn mark(&mut self, row: u32, place: u32, is_marked: bool) {
        let bit = 1u64 << (place % 64);
        if let Some(word) = self.words.get_mut(Rings::index(row, place)) {
            *word = if is_marked { *word | bit } else { *word & !bit };
        }
    }

    /// The bits of a row from this place on that stand in the word of the place.
    fn bits_from(&self, row: u32, place: u32) -> u64 {
        match self.words.get(Rings::index(row, place)) {
            Some(word) => *word & (u64::MAX << (place % 64)),
            None => 0,
        }
    }

    /// The first marked place of a row from this one on, before the end.
    fn first_before(&self, row: u32, from: u32, end: u32) -> Option<u32> {
        let mut place = from;
        for _word in 0..=ROW {
            if place >= end {
                return None;
            }
            let bits = self.bits_from(row, place);
            let start = place & !63;
            if bits != 0 {
                let found = start.saturating_add(bits.trailing_zeros());
                return if found < end { Some(found) } else { None };
            }
            place = start.saturating_add(64);
        }
        None
    }

    /// The first marked place of a row from this one on, in a ring of so many places.
    pub fn first_from(&self, row: u32, start: u32, count: u32) -> Option<u32> {
        match self.first_before(row, start, count) {
            Some(place) => Some(place),
            None => self.first_before(row, 0, start.min(count)),
        }
    }
}
