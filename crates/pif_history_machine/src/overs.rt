//! The lines of a history that all stand, and where they say that calls are over. What an open call is answered is asked
//! of each state of a search, so it is found fast.
ghost use Rattle.std.specs.Prelude.{◌≡◌, ◌↔◌, ◌∷◌, ◌+◌, [], ℕ, true, false, List, Some, None, drop, nat_lt, IfOk};
ghost use Rattle.pif_history_model.specs.declared.lines.Line.{Line};
ghost use Rattle.pif_history_model.specs.Known.{is_over, answer_of, known_answer};
ghost use Rattle.pif_history_machine.specs.Overs.{places_over, IsTable};

use crate::same::is_same_line;
use pif_history_model::Line;
use pif_search::{Stop, push};
use pif_types::Answer;
use std::alloc::Global;
use std::marker::Model;

/// Whether a line says that a call of the thread of this number is over: it was answered, or the thread is dying or has
/// ended.
fn is_over(thread: usize, line: &Line) -> bool
    ensures { result ≡ is_over thread line.now }
{
    match *line {
        Line::Answer(other, _) | Line::Dying(other) | Line::End(other) => {
            other.get() as usize == thread
        }
        _ => false,
    }
}

/// What a line says that a call was answered, if it says so.
fn answer_of(line: &Line) -> Option<Answer>
    ensures { result ≡ answer_of line.now }
{
    match *line {
        Line::Answer(_, answer) => Some(answer),
        _ => None,
    }
}

/// A line that says that a call is over.
#[derive(Clone, Copy)]
struct Over {
    place: usize,
    /// What it says that the call was answered, if it says so.
    answer: Option<Answer>,
}

/// Where these lines say that calls of the thread of this number are over, in their order.
fn places_over(alloc: Global, lines: &[Line], thread: usize) -> Result<Vec<Over>, Stop>
    ensures { IfOk result (λ v. v.items ≡ places_over thread 0 lines.now) }
{
    let mut overs = Vec::new(alloc);
    for place in 0..lines.len() {
        let line = &lines[place];
        if is_over(thread, line) {
            let answer = answer_of(line);
            push(&mut overs, Over { place, answer })?;
        }
    }
    Ok(overs)
}

/// What is said at the first of these that is at a place from this one on.
fn answer_from(overs: &[Over], from: usize) -> Option<Answer>
    ensures { (t : ℕ) (lines : List Line) → overs.now ≡ places_over t 0 lines → result ≡ known_answer t (drop from lines) }
{
    let at = overs.partition_point(
        |over: &Over| -> bool
            ensures { result ≡ nat_lt over.now.place from }
        { over.place < from },
    );
    match overs.get(at) {
        Some(over) => over.answer,
        None => None,
    }
}

/// What the open call of the thread of this number is answered by the lines from a place on, if they say so. Each is
/// looked at.
fn answer_by_lines(lines: &[Line], from: usize, thread: usize) -> Option<Answer>
    ensures { result ≡ known_answer thread (drop from lines.now) }
{
    for place in from..lines.len() {
        let line = &lines[place];
        if is_over(thread, line) {
            return answer_of(line);
        }
    }
    None
}

/// The most rows of a table: for threads 1 to 1,024. Threads beyond have no row, and what they are answered is found by
/// a scan of the lines.
const MOST_ROWS: usize = 1_025;

/// How many rows a table of these lines has: one for each number up to that of the last thread that they add. A line may
/// name any other number, and no row is made for that.
fn row_count(lines: &[Line]) -> usize {
    let mut rows = 1_usize;
    for line in lines {
        if let Line::Thread(_) = *line {
            rows = rows.saturating_add(1);
        }
    }
    usize::min(rows, MOST_ROWS)
}

/// Where these lines say that calls are over, by the number of the thread, for those that have a row.
fn table(alloc: Global, lines: &[Line]) -> Result<Vec<Vec<Over>>, Stop>
    ensures { IfOk result (λ v. IsTable lines.now v.items) }
{
    let mut rows = Vec::new(alloc);
    for thread in 0..row_count(lines) {
        let row = places_over(alloc, lines, thread)?;
        push(&mut rows, row)?;
    }
    Ok(rows)
}

/// The lines of a history, and where they say that calls are over.
#[derive(Drop)]
pub struct KnownLines {
    lines: Vec<Line>,
    overs: Vec<Vec<Over>>,
}

impl Model for KnownLines {
    ghost use Rattle.std.specs.Prelude.{List};
    ghost use Rattle.pif_history_model.specs.declared.lines.Line.{Line};
    ghost use Rattle.pif_history_machine.specs.Overs.{IsTable};

    ghost Value = { List Line };

    ghost view = { λ k. k.lines.items };

    ghost invariant = { λ k. IsTable k.lines.items k.overs.items };
}

impl KnownLines {
    /// These lines, oldest first.
    ///
    /// # Errors
    ///
    /// Out of memory.
    pub fn new(alloc: Global, lines: &[Line]) -> Result<KnownLines, Stop>
        ensures { IfOk result (λ k. k ≡ lines.now) }
    {
        let own = Vec::from_slice(alloc, lines)?;
        let overs = table(alloc, own.as_slice())?;
        Ok(KnownLines { lines: own, overs })
    }

    /// What the open call of a thread is answered by the lines from a place on, if they say so.
    pub fn answer(&self, from: usize, thread: usize) -> Option<Answer>
        ensures { result ≡ known_answer thread (drop from self.now) }
    {
        match self.overs.as_slice().get(thread) {
            Some(row) => answer_from(row.as_slice(), from),
            None => answer_by_lines(self.lines.as_slice(), from, thread),
        }
    }

    /// The line at a place, if one stands there.
    pub fn line(&self, place: usize) -> Option<Line>
        ensures some { (line : _) → result ≡ Some line → drop place self.now ≡ line ∷ drop (place + 1) self.now }
        ensures none { result ≡ None → drop place self.now ≡ [] }
    {
        match self.lines.as_slice().get(place) {
            Some(line) => Some(*line),
            None => None,
        }
    }

    /// Whether this line stands at a place.
    pub fn has(&self, place: usize, line: &Line) -> bool
        ensures { result ≡ true ↔ drop place self.now ≡ line.now ∷ drop (place + 1) self.now }
    {
        match self.line(place) {
            Some(other) => is_same_line(&other, line),
            None => false,
        }
    }
}
