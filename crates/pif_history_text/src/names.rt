ghost use Rattle.std.specs.Prelude.{◌≡◌, IfErr};

use crate::History;
use pif_history_model::Line;
use pif_script_model::CliFault;
use pif_text::{before_feed, is_word, number_behind, split_first};
use std::alloc::{AllocError, Global};

/// The names that the comments of a history give its threads, mutexes and condition variables, `# m1 is uart_lock`, and
/// the places at which its calls were made, `# at networking.c:3921`. Lines and verdicts have numbers alone; a name and
/// a place are for those who look on.
#[derive(Drop)]
pub struct Names {
    /// The names and places in the order of their comments, each with LF.
    bytes: Vec<u8>,
    /// Of each name the letter and the number of what has it, and where in `bytes` it begins.
    places: Vec<(u8, u32, usize)>,
    /// Of each place the number of the line in which its call began, rising, and where in `bytes` it begins.
    calls: Vec<(u32, usize)>,
    /// How many threads the history adds.
    threads: u32,
    /// How many mutexes it adds.
    mutexes: u32,
    /// How many condition variables it adds.
    conds: u32,
}

/// What the comment `# m1 is NAME` names: the letter, the number and the name.
fn naming_of(text: &[u8]) -> Option<(u8, u32, &[u8])> {
    let (mark, rest) = split_first(text);
    let (word, rest) = split_first(rest?);
    let (is, name) = split_first(rest?);
    let (letter, name) = (*word.first()?, name?);
    let is_naming = is_word(mark, b"#") && is_word(is, b"is") && !name.is_empty();
    if !is_naming || !matches!(letter, b't' | b'm' | b'c') {
        return None;
    }
    Some((letter, number_behind(letter, word)?, name))
}

/// The place that a text gives: all after `# at `.
fn place_in(text: &[u8]) -> Option<&[u8]> {
    let (mark, rest) = split_first(text);
    let (at, place) = split_first(rest?);
    let place = place?;
    if is_word(mark, b"#") && is_word(at, b"at") && !place.is_empty() {
        Some(place)
    } else {
        None
    }
}

/// The line before that of this number, if the last line that a history shows is that one, and begins a call.
fn begin_before(history: &History, number: u32) -> Option<u32> {
    let line = *history.numbers.as_slice().last()?;
    match *history.shown.as_slice().last()? {
        Line::Begin(_, _) if number.checked_sub(1)? == line => Some(line),
        _ => None,
    }
}

impl Names {
    /// No names.
    pub fn new(alloc: Global) -> Self {
        Names {
            bytes: Vec::new(alloc),
            places: Vec::new(alloc),
            calls: Vec::new(alloc),
            threads: 0,
            mutexes: 0,
            conds: 0,
        }
    }

    /// Keeps the text of a name or of a place. Answers where in `bytes` it begins.
    fn keep(&mut self, text: &[u8]) -> Result<usize, AllocError> {
        let from = self.bytes.len();
        self.bytes.extend_from_slice(text)?;
        self.bytes.push(b'\n')?;
        Ok(from)
    }

    /// Keeps the name that a text gives, if it gives one.
    fn take_name(&mut self, text: &[u8]) -> Result<(), AllocError> {
        let Some((letter, number, name)) = naming_of(text) else {
            return Ok(());
        };
        let from = self.keep(name)?;
        self.places.push((letter, number, from))?;
        Ok(())
    }

    /// Keeps the place that a text gives the call that began at this line, if it gives one and one began.
    fn take_place(&mut self, line: Option<u32>, text: &[u8]) -> Result<(), AllocError> {
        let (Some(line), Some(place)) = (line, place_in(text)) else {
            return Ok(());
        };
        let from = self.keep(place)?;
        self.calls.push((line, from))?;
        Ok(())
    }

    /// Keeps what the line of this number gives, if it is such a comment.
    fn take(&mut self, history: &History, number: u32, text: &[u8]) -> Result<(), AllocError> {
        self.take_name(text)?;
        self.take_place(begin_before(history, number), text)
    }

    /// Hears the text of the line of this number, after the lines of this history, and keeps the name that it gives, or
    /// the place of the call that the line before began, if it is such a comment.
    ///
    /// # Errors
    ///
    /// `NoMemory`.
    pub fn hear(&mut self, history: &History, number: u32, text: &[u8]) -> Result<(), CliFault>
        ensures { IfErr result (λ fault. fault ≡ CliFault.NoMemory) }
    {
        match self.take(history, number, text) {
            Ok(()) => Ok(()),
            Err(_) => Err(CliFault::NoMemory),
        }
    }

    /// Counts what a line adds.
    fn count(&mut self, line: &Line) {
        let counted = match *line {
            Line::Thread(_) => &mut self.threads,
            Line::Mutex(_, _, _) => &mut self.mutexes,
            Line::Cond(_) => &mut self.conds,
            _ => return,
        };
        *counted = counted.saturating_add(1);
    }

    /// Ends hearing, with the history whose comments these were.
    pub fn close(&mut self, history: &History) {
        for line in history.shown.as_slice() {
            self.count(line);
        }
        self.places.sort_unstable();
    }

    /// How many of the things with this letter the history adds.
    pub fn count_of(&self, letter: u8) -> u32 {
        match letter {
            b't' => self.threads,
            b'm' => self.mutexes,
            b'c' => self.conds,
            _ => 0,
        }
    }

    /// The name of the thread, mutex or condition variable of this number, by its letter `t`, `m` or `c`: the first
    /// that a comment gives it. `None` if none does, and if the history adds nothing with this number.
    pub fn name_of(&self, letter: u8, number: u32) -> Option<&[u8]> {
        if number > self.count_of(letter) {
            return None;
        }
        let places = self.places.as_slice();
        let (Ok(at) | Err(at)) = places.binary_search(&(letter, number, 0));
        let (named, nth, place) = *places.get(at)?;
        if named != letter || nth != number {
            return None;
        }
        self.text_from(place)
    }

    /// The place at which the call was made that began in the line of this number. `None` if no comment after it gives
    /// one.
    pub fn place_of(&self, line: u32) -> Option<&[u8]> {
        let calls = self.calls.as_slice();
        let (Ok(at) | Err(at)) = calls.binary_search(&(line, 0));
        let (nth, from) = *calls.get(at)?;
        if nth != line {
            return None;
        }
        self.text_from(from)
    }

    /// How many places there are.
    pub fn places(&self) -> usize {
        self.calls.len()
    }

    /// The nth place, from 0, with the number of the line in which its call began. They come in the order of these
    /// lines.
    pub fn nth_place(&self, nth: usize) -> Option<(u32, &[u8])> {
        let (line, from) = *self.calls.as_slice().get(nth)?;
        Some((line, self.text_from(from)?))
    }

    /// The name or the place that is kept from here on.
    fn text_from(&self, from: usize) -> Option<&[u8]> {
        let text = self.bytes.as_slice().get(from..)?;
        Some(&text[..before_feed(text)])
    }
}
