//! What later lines of a history say of its threads.
use crate::leaving::Leaving;
use pif_history_model::{Fact, Line};
use pif_search::{Stop, one, push};
use pif_types::{Answer, CondId, Errno, Request, Tid};
use std::alloc::Global;

/// What the lines say of one thread. Places are rising.
#[derive(Drop)]
struct Told {
    /// Where its calls are answered, and what.
    answers: Vec<(usize, Answer)>,
    /// How many of its answers were passed, if lines are passed.
    passed: Option<usize>,
    /// Where it rests.
    rests: Vec<usize>,
    /// If its last call so far is a wait: for which variable, and where it began.
    wait: Option<(CondId, usize)>,
}

/// What the lines say of the waits for one variable. Places are rising.
#[derive(Drop)]
struct Waits {
    /// Where those begin that don't run out of time.
    begins: Vec<usize>,
    /// Where the last is answered that runs out of time.
    timeout: Option<usize>,
}

/// What was seen while nothing ran.
#[derive(Drop)]
struct Halt {
    /// Where the line `halted` stands.
    place: usize,
    /// The lines from there to `resumed` that tell of the state.
    looks: Vec<Line>,
}

/// What the lines of a history say of the threads that it adds.
#[derive(Drop)]
pub struct Later {
    /// Of nobody, and then of each thread.
    threads: Vec<Told>,
    /// Of no variable, and then of each.
    variables: Vec<Waits>,
    /// The threads whose open calls may fail at once, if lines are passed.
    hasty: Vec<usize>,
    /// What was seen while nothing ran, in the order of the lines.
    halts: Vec<Halt>,
    /// Whether nothing runs at the last line that was heard.
    halted: bool,
    /// Which waits are left blocked when their variable is used.
    pub leaving: Leaving,
}

/// The first of these places, which are rising, that is at `line` or behind it.
fn first_from(places: &[usize], line: usize) -> Option<usize> {
    let at = places.partition_point(|place: &usize| -> bool { *place < line });
    match places.get(at) {
        Some(place) => Some(*place),
        None => None,
    }
}

impl Told {
    /// Nothing is said of a thread.
    fn nothing(alloc: Global) -> Told {
        Told {
            answers: Vec::new(alloc),
            passed: None,
            rests: Vec::new(alloc),
            wait: None,
        }
    }

    /// Where from `line` on a call of the thread is answered first, and what.
    fn answer(&self, line: usize) -> Option<(usize, Answer)> {
        let at = match self.passed {
            Some(passed) => passed,
            None => self
                .answers
                .partition_point(|told: &(usize, Answer)| -> bool { told.0 < line }),
        };
        match self.answers.get(at) {
            Some((place, answer)) => Some((*place, *answer)),
            None => None,
        }
    }
}

impl Waits {
    /// Nothing is said of the waits for a variable.
    fn nothing(alloc: Global) -> Waits {
        Waits {
            begins: Vec::new(alloc),
            timeout: None,
        }
    }
}

impl Later {
    /// What these lines say, oldest first.
    ///
    /// # Errors
    ///
    /// Out of memory.
    pub fn of(alloc: Global, lines: &[Line]) -> Result<Later, Stop> {
        let mut later = Later {
            threads: one(alloc, Told::nothing(alloc))?,
            variables: one(alloc, Waits::nothing(alloc))?,
            hasty: Vec::new(alloc),
            halts: Vec::new(alloc),
            halted: false,
            leaving: Leaving::for_search(alloc),
        };
        later.hear_all(alloc, lines)?;
        Ok(later)
    }

    /// Hears these lines, oldest first.
    fn hear_all(&mut self, alloc: Global, lines: &[Line]) -> Result<(), Stop> {
        for place in 0..lines.len() {
            self.hear(alloc, &lines[place], place)?;
        }
        for waits in self.variables.iter_mut() {
            waits.begins.sort()?;
        }
        Ok(())
    }

    /// Hears the line at a place. What it says of a thread that no line before added is passed over.
    fn hear(&mut self, alloc: Global, line: &Line, place: usize) -> Result<(), Stop> {
        match *line {
            Line::Thread(_) => push(&mut self.threads, Told::nothing(alloc)),
            Line::Cond(_) => push(&mut self.variables, Waits::nothing(alloc)),
            Line::Begin(thread, request) => {
                self.hear_begin(thread, place, &request);
                Ok(())
            }
            Line::Answer(thread, answer) => self.hear_answer(thread, place, answer),
            Line::Halted => {
                self.halted = true;
                let looks = Vec::new(alloc);
                push(&mut self.halts, Halt { place, looks })
            }
            Line::Resumed => {
                self.halted = false;
                Ok(())
            }
            Line::Rests(thread) => {
                self.hear_rest(thread, place)?;
                self.hear_look(line)
            }
            Line::Prio(_, _) | Line::End(_) => self.hear_look(line),
            _ => Ok(()),
        }
    }

    /// A line tells of the state. It is one of those that were seen while nothing ran, if nothing runs.
    fn hear_look(&mut self, line: &Line) -> Result<(), Stop> {
        // The check has to be told of the types of requests and facts, which lines hold.
        let _no_request: Option<Request> = None;
        let _no_fact: Option<Fact> = None;
        if !self.halted {
            return Ok(());
        }
        match self.halts.last_mut() {
            Some(halt) => push(&mut halt.looks, *line),
            None => Ok(()),
        }
    }

    /// The thread begins a call at a place.
    fn hear_begin(&mut self, thread: Tid, place: usize, request: &Request) {
        if let Some(told) = self.threads.get_mut(thread.get() as usize) {
            told.wait = match *request {
                Request::Wait(cond, _) | Request::TimedWait(cond, _, _) => Some((cond, place)),
                _ => None,
            };
        }
    }

    /// A wait for a variable, which began there, is answered at a place.
    fn hear_return(
        &mut self,
        variable: CondId,
        begun: usize,
        place: usize,
        answer: Answer,
    ) -> Result<(), Stop> {
        match self.variables.get_mut(variable.get() as usize) {
            Some(waits) if answer == Errno::TimedOut.number() => {
                waits.timeout = Some(place);
                Ok(())
            }
            Some(waits) => push(&mut waits.begins, begun),
            None => Ok(()),
        }
    }

    /// A call of the thread is answered at a place.
    fn hear_answer(&mut self, thread: Tid, place: usize, answer: Answer) -> Result<(), Stop> {
        let wait = match self.threads.get_mut(thread.get() as usize) {
            Some(told) => {
                push(&mut told.answers, (place, answer))?;
                told.wait
            }
            None => None,
        };
        match wait {
            Some((variable, begun)) => self.hear_return(variable, begun, place, answer),
            None => Ok(()),
        }
    }

    /// The thread rests at a place.
    fn hear_rest(&mut self, thread: Tid, place: usize) -> Result<(), Stop> {
        match self.threads.get_mut(thread.get() as usize) {
            Some(told) => push(&mut told.rests, place),
            None => Ok(()),
        }
    }

    /// This line is passed, which is at the place: from now on only later ones are asked for.
    ///
    /// # Errors
    ///
    /// Out of memory.
    pub fn pass(&mut self, line: &Line, place: usize) -> Result<(), Stop> {
        match *line {
            Line::Begin(thread, request) => {
                self.pass_begin(thread.get() as usize, &request, place)
            }
            Line::Answer(thread, _) => {
                self.pass_answer(thread.get() as usize);
                Ok(())
            }
            _ => Ok(()),
        }
    }

    /// The thread has begun a call. It may fail at once if it is a trylock or has a deadline.
    fn pass_begin(&mut self, thread: usize, request: &Request, place: usize) -> Result<(), Stop> {
        let error = match *request {
            Request::TryLock(_) => Errno::Busy,
            Request::TimedLock(_, _) => Errno::TimedOut,
            _ => return Ok(()),
        };
        match self.answer(thread, place) {
            Some((_, answer)) if answer == error.number() => push(&mut self.hasty, thread),
            _ => Ok(()),
        }
    }

    /// The open call of the thread is answered.
    fn pass_answer(&mut self, thread: usize) {
        self.hasty.retain(|other| *other != thread);
        if let Some(told) = self.threads.get_mut(thread) {
            told.passed = Some(told.passed.unwrap_or(0).saturating_add(1));
        }
    }

    /// The threads whose open calls may fail at once, of those whose begins were passed.
    pub fn hasty(&self) -> &[usize] {
        self.hasty.as_slice()
    }

    /// Where from `line` on a call of the thread is answered first, and what.
    pub fn answer(&self, thread: usize, line: usize) -> Option<(usize, Answer)> {
        match self.threads.get(thread) {
            Some(told) => told.answer(line),
            None => None,
        }
    }

    /// What was seen while nothing ran from a place on, if `halted` stands there.
    pub fn looks(&self, place: usize) -> Option<&[Line]> {
        let at = self
            .halts
            .partition_point(|halt: &Halt| -> bool { halt.place < place });
        match self.halts.get(at) {
            Some(halt) if halt.place == place => Some(halt.looks.as_slice()),
            _ => None,
        }
    }

    /// Where from `line` on the thread is seen to rest first.
    pub fn rest(&self, thread: usize, line: usize) -> Option<usize> {
        match self.threads.get(thread) {
            Some(told) => first_from(told.rests.as_slice(), line),
            None => None,
        }
    }

    /// Whether from `line` on, and before a place, a wait for a variable begins that doesn't run out of time.
    pub fn has_wait(&self, variable: u32, line: usize, before: usize) -> bool {
        match self.variables.get(variable as usize) {
            Some(waits) => match first_from(waits.begins.as_slice(), line) {
                Some(place) => place < before,
                None => false,
            },
            None => false,
        }
    }

    /// Whether from `line` on some wait for a variable runs out of time.
    pub fn has_timeout(&self, variable: u32, line: usize) -> bool {
        match self.variables.get(variable as usize) {
            Some(waits) => match waits.timeout {
                Some(place) => line <= place,
                None => false,
            },
            None => false,
        }
    }
}
