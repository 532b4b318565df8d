use crate::messages::Message;
use pif_reach::WatchStates;
use pif_script_model::WatchSteps;
use pif_search::WatchLines;
use std::fmt::{Display, Write as _};
use std::io::Write;
use std::time::{Clock, Instant};

/// Who is told of each file that a job begins with.
pub trait WatchFiles {
    /// A job begins with a file after which so many of `count` are done.
    fn file(&mut self, done: usize, count: usize);
}

/// Who is told how far a history was judged that is still read.
pub trait WatchParts {
    /// The lines of its text up to that of this number, from 1, are legal.
    fn legal_up_to(&mut self, line: u32);
}

/// Who is told how far any job over one input has come.
pub trait WatchJob: WatchLines + WatchStates + WatchSteps + WatchParts {}

impl<V: WatchLines + WatchStates + WatchSteps + WatchParts> WatchJob for V {}

/// Nobody is told of anything.
#[derive(Drop)]
pub struct Unwatched;

impl WatchLines for Unwatched {
    fn line(&mut self, _line: usize, _states: usize) {}

    fn goes_on(&mut self) -> bool {
        true
    }
}

impl WatchStates for Unwatched {
    fn found(&mut self, _states: usize, _steps: usize) {}

    fn goes_on(&mut self) -> bool {
        true
    }
}

impl WatchSteps for Unwatched {
    fn step(&mut self, _done: usize, _count: usize) {}
}

impl WatchParts for Unwatched {
    fn legal_up_to(&mut self, _line: u32) {}
}

/// How far a job has come, as a person at a terminal is told: a line each second after the first. Of a job over several
/// files it says how many are done, of a history which line is judged and how many states were made for it, of an
/// exploration how many states and steps were found, and of a drawing or a random script how much of it is done. Of a
/// history that is followed each line is told up to which it is legal, also if nobody sits there.
#[derive(Drop)]
pub struct Progress<'c, 'e, C, E> {
    clock: &'c C,
    /// Whether a person sits there. If not, nothing is told.
    is_terminal: bool,
    /// What is told.
    errors: &'e mut E,
    /// When the first file was begun, or the first line was judged.
    begun: Option<Instant>,
    /// In which second somebody was told last.
    second: u64,
}

impl<'c, 'e, C: Clock, E: Write> Progress<'c, 'e, C, E> {
    /// Progress that is told to `errors` if that is a terminal.
    pub fn new(clock: &'c C, is_terminal: bool, errors: &'e mut E) -> Progress<'c, 'e, C, E> {
        Progress {
            clock,
            is_terminal,
            errors,
            begun: None,
            second: 0,
        }
    }

    /// Whether somebody is told at this time, since it is in another second than what was told last.
    fn is_due(&mut self, now: Instant) -> bool {
        let begun = self.begun.unwrap_or(now);
        self.begun = Some(begun);
        let second = now.saturating_duration_since(begun).as_secs();
        if second > self.second {
            self.second = second;
            true
        } else {
            false
        }
    }

    /// Whether a person is told now.
    fn is_told(&mut self) -> bool {
        if !self.is_terminal {
            return false;
        }
        match Instant::now(self.clock) {
            Ok(now) => self.is_due(now),
            Err(_) => false,
        }
    }

    /// Tells this, if a person is told now.
    fn tell<D: Display + Drop>(&mut self, what: D) {
        if self.is_told() {
            let mut message = Message::new();
            let _ = write!(message, "{what}");
            message.tell(self.errors);
        }
    }
}

impl<C: Clock, E: Write> WatchLines for Progress<'_, '_, C, E> {
    fn line(&mut self, line: usize, states: usize) {
        self.tell(format_args!("line {line}: {states} states"));
    }

    fn goes_on(&mut self) -> bool {
        true
    }
}

impl<C: Clock, E: Write> WatchStates for Progress<'_, '_, C, E> {
    fn found(&mut self, states: usize, steps: usize) {
        self.tell(format_args!("{states} states, {steps} steps"));
    }

    fn goes_on(&mut self) -> bool {
        true
    }
}

impl<C: Clock, E: Write> WatchParts for Progress<'_, '_, C, E> {
    fn legal_up_to(&mut self, line: u32) {
        let mut message = Message::new();
        let _ = write!(message, "legal up to {line}");
        message.tell(self.errors);
    }
}

impl<C: Clock, E: Write> WatchFiles for Progress<'_, '_, C, E> {
    fn file(&mut self, done: usize, count: usize) {
        self.tell(format_args!("{done} of {count} files are done"));
    }
}

/// How much is done, in percent, if so many of `count` steps are done.
fn percent(done: usize, count: usize) -> usize {
    if count == 0 {
        100
    } else {
        done.saturating_mul(100) / count
    }
}

impl<C: Clock, E: Write> WatchSteps for Progress<'_, '_, C, E> {
    fn step(&mut self, done: usize, count: usize) {
        let part = percent(done, count);
        self.tell(format_args!("{part} % is done"));
    }
}
