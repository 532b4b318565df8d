ghost use Rattle.std.specs.Prelude.{◌≤◌, length};

use pif_text::is_mark;

/// Where a word of a line stands: its first byte, and the one behind its last. Both are the end of the line if there is
/// no word.
#[derive(Clone, Copy)]
pub struct Spot {
    /// The place of the first byte, from 0.
    pub start: usize,
    /// The place behind the last byte.
    pub end: usize,
}

/// The place of the first byte that is no space, from this one on.
fn behind_spaces(line: &[u8], from: usize) -> usize
    requires { from ≤ length line.now }
    ensures { (from ≤ result) × (result ≤ length line.now) }
{
    for (count, byte) in line[from..].iter().enumerate() {
        if *byte != b' ' {
            return from + count;
        }
    }
    line.len()
}

/// The place behind the word that begins here.
fn behind_word(line: &[u8], from: usize) -> usize
    requires { from ≤ length line.now }
    ensures { (from ≤ result) × (result ≤ length line.now) }
{
    for (count, byte) in line[from..].iter().enumerate() {
        if is_mark(*byte) {
            return if count == 0 { from + 1 } else { from + count };
        }
        if *byte == b' ' {
            return from + count;
        }
    }
    line.len()
}

/// Where the first word stands from this place on. Spaces are passed over, and a mark is a word of its own.
pub fn word_from(line: &[u8], from: usize) -> Spot
    ensures { (result.start ≤ result.end) × (result.end ≤ length line.now) }
{
    let start = behind_spaces(line, from.min(line.len()));
    let end = behind_word(line, start);
    Spot { start, end }
}
