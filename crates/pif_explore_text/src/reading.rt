ghost use Rattle.std.specs.Prelude.{◌≡◌, ◌≤◌, ◌+◌, [], IfOk, Ok, OnOk, length, map};
ghost use Rattle.pif_script_model.specs.Lines.{lines};
ghost use Rattle.pif_history_text.specs.Lines.{text_of_line};
ghost use Rattle.pif_explore_text.specs.Results.{Gives, Makes};
ghost use Rattle.pif_explore_text.specs.Sheets.{Unfinished as UnfinishedProgram, after_line, at_end, empty, reading, reading_from, sheet_of, threads_from, with_front, with_inner, with_outer, with_place, with_program, with_said, with_statements, with_text};
ghost use Rattle.pif_explore_text.specs.Views.{Reads, ReadsAll, place_of, reading_view, sheet_view, unfinished_of};
ghost use Rattle.pif_explore_text.specs.Words.{filled};

use crate::blocks::Place;
use crate::names::thread_there;
use crate::words::next_word;
use crate::{Names, Sheet, Trouble};
use pif_history_text::{Said, said_of, text_of_line};
use pif_script_model::CliFault;
use pif_text::{Cause, is_word};
use pif_types::{Request, Tid};
use std::alloc::{AllocError, Global};

/// The most bytes of a file.
pub const MOST_BYTES: usize = 16_777_216;

/// The most bytes of the text of a line.
const MOST_TEXT: usize = 500;

/// The most bytes of text that the lines of a program have together.
const MOST_OF_PROGRAM: usize = 4_000;

/// A line that is no command.
const NO_COMMAND: Trouble = Trouble::Fault(Cause::Command);

/// A program that goes on in the next line, since a block is open.
#[derive(Drop)]
struct Unfinished {
    /// The threads that run it.
    threads: Vec<Tid>,
    /// What stands of it.
    place: Place,
    /// How many bytes of text its lines have.
    size: usize,
    /// The number of the last of them.
    line: u32,
}

/// A file up to some line.
#[derive(Drop)]
struct Reading {
    /// What is complete of it.
    sheet: Sheet,
    /// What goes on in the next line.
    unfinished: Option<Unfinished>,
}

/// The threads of a `do`, and what stands behind its `:`.
#[tactic(auto, unfolding(crate::specs::Sheets::threads_from))]
fn threads_of(alloc: Global, names: Names, text: &[u8]) -> Result<(Vec<Tid>, &[u8]), Trouble>
    ensures { Gives (λ x. (x.0.items, filled x.1.now)) (threads_from names [] (filled text.now)) result }
{
    let mut threads = Vec::new(alloc);
    let mut rest = text;
    while let Some((word, behind)) = next_word(rest) {
        rest = behind;
        if is_word(word, b":") {
            if threads.is_empty() {
                return Err(NO_COMMAND);
            }
            return Ok((threads, rest));
        }
        let Some(thread) = thread_there(names, word) else {
            return Err(NO_COMMAND);
        };
        threads.push(thread)?;
    }
    Err(NO_COMMAND)
}

impl Reading {
    /// Takes a program of these threads, which has come this far behind a line: it ends there, unless a block is open.
    fn take_place(
        &mut self,
        alloc: Global,
        threads: Vec<Tid>,
        size: usize,
        place: Place,
    ) -> Result<(), Trouble>
        requires open { self.old.unfinished ≡ None }
        requires count { self.old.sheet.count ≤ 16777216 }
        ensures { Makes (Ok (with_place (sheet_view self.old.sheet) threads.items size (place_of place) (place_of place).outside)) (reading_view self.new) result }
    {
        if place.is_closed() {
            return self
                .sheet
                .add_programs(alloc, threads.as_slice(), place.body());
        }
        self.unfinished = Some(Unfinished {
            threads,
            place,
            size,
            line: self.sheet.count + 1,
        });
        Ok(())
    }

    /// Takes the statements of a line, of a program of these threads that has come this far.
    fn take_statements(
        &mut self,
        alloc: Global,
        threads: Vec<Tid>,
        size: usize,
        place: Place,
        text: &[u8],
    ) -> Result<(), Trouble>
        requires open { self.old.unfinished ≡ None }
        requires count { self.old.sheet.count ≤ 16777216 }
        ensures { Makes (with_statements (sheet_view self.old.sheet) threads.items size (place_of place) (filled text.now)) (reading_view self.new) result }
    {
        let mut place = place;
        place.take_line(alloc, self.sheet.names, text)?;
        self.take_place(alloc, threads, size, place)
    }

    /// Takes `do tN ..:`, behind its first word, in a line of so many bytes of text.
    fn take_program(&mut self, alloc: Global, size: usize, text: &[u8]) -> Result<(), Trouble>
        requires open { self.old.unfinished ≡ None }
        requires count { self.old.sheet.count ≤ 16777216 }
        ensures { Makes (with_program (sheet_view self.old.sheet) size (filled text.now)) (reading_view self.new) result }
    {
        let (threads, rest) = threads_of(alloc, self.sheet.names, text)?;
        self.take_statements(alloc, threads, size, Place::new(alloc), rest)
    }

    /// Takes a line in a block that is open, by what it would say in a history.
    fn take_inner(
        &mut self,
        alloc: Global,
        unfinished: Unfinished,
        text: &[u8],
        said: Option<Said>,
    ) -> Result<(), Trouble>
        requires open { self.old.unfinished ≡ None }
        requires count { self.old.sheet.count ≤ 16777216 }
        requires fits { length text.now ≤ 500 }
        ensures { Makes (with_inner (sheet_view self.old.sheet) (unfinished_of unfinished) text.now said) (reading_view self.new) result }
    {
        if let Some(Said::Nothing) = said {
            self.unfinished = Some(unfinished);
            return Ok(());
        }
        let Unfinished {
            threads,
            place,
            size,
            line: _,
        } = unfinished;
        if size > MOST_OF_PROGRAM || size + text.len() > MOST_OF_PROGRAM {
            return Err(Trouble::Fault(Cause::Long));
        }
        let size = size + text.len();
        let meant = self.sheet.meant_in(alloc, text)?;
        self.take_statements(alloc, threads, size, place, meant.as_slice())
    }

    /// Takes a line that histories don't have, and whose words stand for these.
    #[tactic(auto, unfolding(crate::specs::Sheets::with_front))]
    fn take_front(&mut self, alloc: Global, text: &[u8], meant: &[u8]) -> Result<(), Trouble>
        requires open { self.old.unfinished ≡ None }
        requires count { self.old.sheet.count ≤ 16777216 }
        ensures { Makes (with_front (sheet_view self.old.sheet) text.now meant.now (filled meant.now)) (reading_view self.new) result }
    {
        let Some((word, rest)) = next_word(meant) else {
            return Err(NO_COMMAND);
        };
        if is_word(word, b"do") {
            self.take_program(alloc, text.len(), rest)
        } else {
            self.sheet.take_words(alloc, text, meant)
        }
    }

    /// Takes a line outside of blocks, by what it would say in a history.
    fn take_outer(&mut self, alloc: Global, text: &[u8], said: Option<Said>) -> Result<(), Trouble>
        requires open { self.old.unfinished ≡ None }
        requires count { self.old.sheet.count ≤ 16777216 }
        ensures { Makes (with_outer (sheet_view self.old.sheet) text.now said) (reading_view self.new) result }
    {
        match said {
            Some(said) => self.sheet.take_history_line(said),
            None => {
                let meant = self.sheet.meant_in(alloc, text)?;
                self.take_front(alloc, text, meant.as_slice())
            }
        }
    }

    /// Takes the text of the next line, if it is no fault.
    #[tactic(auto, unfolding(crate::specs::Sheets::with_text))]
    fn take_text(&mut self, alloc: Global, text: &[u8]) -> Result<(), Trouble>
        requires { self.old.sheet.count ≤ 16777216 }
        ensures { Makes (with_text (reading_view self.old) text.now) (reading_view self.new) result }
    {
        if text.len() > MOST_TEXT {
            return Err(Trouble::Fault(Cause::Long));
        }
        match self.unfinished.take() {
            None => self.take_outer(alloc, text, said_of(text)),
            Some(unfinished) => self.take_inner(alloc, unfinished, text, said_of(text)),
        }
    }

    /// Takes the next line, if it is no fault.
    fn take_line(&mut self, alloc: Global, line: &[u8]) -> Result<(), Trouble>
        requires { self.old.sheet.count ≤ 16777216 }
        ensures line { Makes (after_line (reading_view self.old) line.now) (reading_view self.new) result }
        ensures count { OnOk result (self.new.sheet.count ≡ self.old.sheet.count + 1) }
    {
        let number = self.sheet.count + 1;
        self.take_text(alloc, text_of_line(number, line))?;
        self.sheet.count = number;
        Ok(())
    }
}

/// The lines of a text, without their LFs. What stands behind the last LF is one more, and may be empty.
fn lines_of(alloc: Global, text: &[u8]) -> Result<Vec<&[u8]>, AllocError>
    ensures { IfOk result (λ v. map (λ x. x.now) v.items ≡ lines text.now) }
{
    text.split(|byte| *byte == b'\n').collect(alloc)
}

/// Takes lines, up to the first fault.
#[tactic(auto, unfolding(crate::specs::Sheets::reading_from))]
fn take_lines(alloc: Global, reading: &mut Reading, lines: &[&[u8]]) -> Result<(), CliFault>
    requires start { reading.old.sheet.count ≡ 0 }
    requires fits { length lines.now ≤ 16777217 }
    ensures { Reads (reading_from (reading_view reading.old) (map (λ x. x.now) lines.now)) (reading_view reading.new) result }
{
    for line in lines {
        let number = u64::from(reading.sheet.count + 1);
        match reading.take_line(alloc, line) {
            Ok(()) => {}
            Err(Trouble::NoMemory) => return Err(CliFault::NoMemory),
            Err(Trouble::Fault(cause)) => return Err(CliFault::Script(number, cause)),
        }
    }
    Ok(())
}

/// The file of these bytes.
///
/// # Errors
///
/// `Script` with the number and the cause of the first line that is a fault, and `NoMemory`. A file of more than
/// `MOST_BYTES` is the fault `size` of line 1, whatever its lines say. A block that is open at the end is a fault of the
/// last line of its program.
#[tactic(auto, unfolding(crate::specs::Sheets::sheet_of), using(crate::proofs::WordLemmas::few_lines))]
pub fn read_sheet(alloc: Global, bytes: &[u8]) -> Result<Sheet, CliFault>
    ensures { ReadsAll (sheet_of bytes.now) result }
{
    if bytes.len() > MOST_BYTES {
        return Err(CliFault::Script(1, Cause::Size));
    }
    let Ok(lines) = lines_of(alloc, bytes) else {
        return Err(CliFault::NoMemory);
    };
    let mut reading = Reading {
        sheet: Sheet::new(alloc),
        unfinished: None,
    };
    take_lines(alloc, &mut reading, lines.as_slice())?;
    let Reading { sheet, unfinished } = reading;
    match unfinished {
        None => Ok(sheet),
        Some(unfinished) => Err(CliFault::Script(u64::from(unfinished.line), Cause::Command)),
    }
}
