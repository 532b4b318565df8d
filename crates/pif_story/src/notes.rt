ghost use Rattle.std.specs.Prelude.{◌≡◌, ◌≤◌, ◌&&◌, not, nat_lt, length, option_copied};
ghost use Rattle.pif_script_model.specs.Filling.{more_answers};
ghost use Rattle.pif_script_model.specs.Lines.{lines, lines_behind, plain_lines};
ghost use Rattle.pif_script_model.specs.Stories.{rows_from};
ghost use Rattle.pif_story.specs.Notes.{is_same, is_told, note_at, note_in, notes_beside, notes_of_rows, row_known, row_missing, with_found, with_note, words_noted};
ghost use Rattle.pif_story.specs.Rows.{next_known, next_note};

use crate::lines::LineAndReply;
use crate::missing::{Known, Missing, Note, noted};
use crate::places::{column_of, line_of};
use crate::{MOST, row_of, split_line};
use arrayvec::ArrayVec;
use pif_text::command_of;

/// The most notes that are told of a script or a story.
pub const MOST_NOTES: usize = 20;

/// The notes on a script or a story. There is room for all that are told, so they take no memory.
pub type Notes = ArrayVec<Note, MOST_NOTES>;

/// Whether two are the same.
fn is_same(one: &Missing, other: &Missing) -> bool
    ensures { result ≡ is_same one.now other.now }
{
    match (*one, *other) {
        (Missing::Thread(m), Missing::Thread(n)) => m == n,
        (Missing::Mutex(m), Missing::Mutex(n)) => m == n,
        (Missing::Cond(m), Missing::Cond(n)) => m == n,
        (Missing::Priority(m), Missing::Priority(n)) => m == n,
        (Missing::ThreadRoom(m), Missing::ThreadRoom(n)) => m == n,
        (Missing::MutexRoom(m), Missing::MutexRoom(n)) => m == n,
        (Missing::CondRoom(m), Missing::CondRoom(n)) => m == n,
        (Missing::Time(m, _), Missing::Time(n, _)) => m == n,
        _ => false,
    }
}

/// Whether one of these notes is on this.
fn is_told(missing: &Missing, notes: &[Note]) -> bool
    ensures { result ≡ is_told missing.now notes.now }
{
    for note in notes {
        if is_same(&note.missing, missing) {
            return true;
        }
    }
    false
}

/// Whether a note on this is told behind these notes.
fn is_new(missing: &Missing, notes: &Notes) -> bool
    ensures { result ≡ (nat_lt (length notes.now.items) 20 && not (is_told missing.now notes.now.items)) }
{
    notes.len() < MOST_NOTES && !is_told(missing, notes.as_slice())
}

/// Notes what isn't there in the line of this number and text, unless that was told, or there are as many notes as are
/// told.
#[tactic(auto, unfolding(crate::specs::Notes::with_note))]
pub fn note_at(notes: &mut Notes, line: u64, text: &[u8], missing: &Missing)
    ensures { notes.new.items ≡ with_note notes.old.items (note_at line text.now missing.now) }
{
    if is_new(missing, notes) {
        notes.push(Note {
            line,
            column: column_of(missing, text),
            missing: *missing,
        });
    }
}

/// Notes what isn't there in the line of this number of a story, likewise.
#[tactic(auto, unfolding(crate::specs::Notes::with_note))]
fn note_in(notes: &mut Notes, story: &[u8], line: u64, missing: &Missing)
    ensures { notes.new.items ≡ with_note notes.old.items (note_in story.now line missing.now) }
{
    if is_new(missing, notes) {
        note_at(notes, line, line_of(story, line), missing);
    }
}

/// What is noted of the command that these words are.
#[tactic(auto, unfolding(crate::specs::Notes::words_noted))]
fn words_noted(known: &Known, words: &[u8], given: &[u8]) -> Option<Missing>
    ensures { result ≡ words_noted known.now words.now given.now }
{
    match command_of(words) {
        Some(command) => noted(known, command, given),
        None => None,
    }
}

/// What is noted of a command beside what is printed for it.
fn row_missing(known: &Known, row: LineAndReply<'_>, given: &[u8]) -> Option<Missing>
    ensures { result ≡ row_missing known.now (row.entry.0.now, option_copied row.entry.1) given.now }
{
    let (words, written) = row;
    match written {
        Some(_) => None,
        None => words_noted(known, words, given),
    }
}

/// What is there behind a command for which this is printed.
#[tactic(auto, unfolding(crate::specs::Notes::row_known))]
fn row_known(known: &Known, words: &[u8], given: &[u8]) -> Known
    ensures { result ≡ row_known known.now words.now given.now }
{
    match command_of(words) {
        Some(command) => known.behind(command, given),
        None => *known,
    }
}

/// Appends the note on a command in the line of this number of a story, if there is one, beside the first of the lines
/// that are printed from there on. Answers the lines behind it, or `None` if it is the last. If `answers` is `None`, no
/// line is left: nothing is changed then, and the answer is `None`.
#[tactic(auto, unfolding(crate::specs::Notes::row_note))]
fn take_row<'a>(
    notes: &mut Notes,
    known: &mut Known,
    story: &[u8],
    line: u64,
    row: LineAndReply<'_>,
    answers: Option<&'a [u8]>,
) -> Option<&'a [u8]>
    ensures notes { notes.new.items ≡ with_found notes.old.items
        (next_note story.now known.old line (row.entry.0.now, option_copied row.entry.1) (lines_behind (option_copied answers.entry))) }
    ensures known { known.new
        ≡ next_known known.old (row.entry.0.now, option_copied row.entry.1) (lines_behind (option_copied answers.entry)) }
    ensures left { lines_behind (option_copied result) ≡ more_answers (lines_behind (option_copied answers.entry)) }
{
    let Some(output) = answers else {
        return None;
    };
    let (given, more) = split_line(output);
    if let Some(missing) = row_missing(known, row, given) {
        note_in(notes, story, line, &missing);
    }
    *known = row_known(known, row.0, given);
    more
}

/// The notes on the commands of a story, of which nothing but its words is given besides, beside the lines that are
/// printed for its script.
#[tactic(auto, using(crate::proofs::NoteLemmas::notes_start, crate::proofs::NoteLemmas::notes_passed))]
fn notes_of(story: &[u8], words: &[u8], output: &[u8]) -> Notes
    requires { length words.now ≤ 16777216 }
    ensures { result.items ≡ notes_of_rows story.now (rows_from 1 (lines words.now)) (lines output.now) }
{
    let mut notes = Notes::new();
    let mut known = Known::nothing();
    let mut rest = Some(words);
    let mut answers = Some(output);
    let mut number = 0;
    'lines: while let Some(text) = rest {
        let (line, behind) = split_line(text);
        rest = behind;
        number += 1;
        if let Some(row) = row_of(line) {
            answers = take_row(&mut notes, &mut known, story, number, row, answers);
        }
    }
    notes
}

/// The notes on a story. `words` is the story with nothing but its words, and `output` has the lines that are printed
/// for its script. There is none on a story of more than 16,777,216 bytes.
#[tactic(auto, unfolding(crate::specs::Notes::notes_beside))]
pub fn notes_beside(story: &[u8], words: &[u8], output: &[u8]) -> Notes
    requires lines { lines words.now ≡ plain_lines story.now }
    requires shorter { length words.now ≤ length story.now }
    ensures { result.items ≡ notes_beside story.now (lines output.now) }
{
    if story.len() > MOST {
        return Notes::new();
    }
    notes_of(story, words, output)
}
