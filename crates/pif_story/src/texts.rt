//! What is told of notes.
ghost use Rattle.std.specs.Prelude.{◌≡◌, ◌+◌, ◌≤◌, ◌++◌, length, decimal};
ghost use Rattle.arrayvec.specs.ArrayVec.{array_vec_len};
ghost use Rattle.pif_script_model.specs.Runs.{Writes};
ghost use Rattle.pif_story.specs.Notes.{missing_text, note_line, note_text, notes_text, place_text, words_before, words_behind};

use crate::missing::{Missing, Note};
use crate::places::missing_word;
use itoa::Buffer;
use pif_script::{CliFault, write_whole};
use pif_text::{TEXT_ROOM, Text, append, append_number};
use std::io::Write;

/// The most bytes of what is said of what is missing.
const MISSING_ROOM: usize = 69;

/// The most bytes of what is said behind its word.
const BEHIND_ROOM: usize = 27;

/// The most bytes of a place behind the name of its file.
const PLACE_ROOM: usize = 44;

/// What is said before it.
#[tactic(auto, unfolding(crate::specs::Notes::words_before))]
fn words_before(missing: &Missing) -> &'static [u8]
    ensures words { result.now ≡ words_before missing.now }
    ensures len { length result.now ≤ 31 }
{
    match *missing {
        Missing::Thread(_) => b"there is no thread ".as_slice(),
        Missing::Mutex(_) => b"there is no mutex ".as_slice(),
        Missing::Cond(_) => b"there is no condition variable ".as_slice(),
        Missing::Priority(_) => b"priority ".as_slice(),
        Missing::ThreadRoom(_) | Missing::MutexRoom(_) | Missing::CondRoom(_) => {
            b"there is no room for another ".as_slice()
        }
        Missing::Time(..) => b"time ".as_slice(),
    }
}

/// Appends a number between words.
fn append_within(text: &mut Text, before: &[u8], number: u32, behind: &[u8])
    requires { array_vec_len text.old + length before.now + length behind.now + 10 ≤ TEXT_ROOM }
    ensures said { text.new.items ≡ text.old.items ++ (before.now ++ decimal number ++ behind.now) }
    ensures within { array_vec_len text.new ≤ array_vec_len text.old + length before.now + length behind.now + 10 }
{
    append(text, before);
    append_number(text, number);
    append(text, behind);
}

/// Appends what is said behind it, at most 27 bytes.
#[tactic(auto, unfolding(crate::specs::Notes::words_behind))]
fn append_behind(text: &mut Text, missing: &Missing)
    requires { array_vec_len text.old + BEHIND_ROOM ≤ TEXT_ROOM }
    ensures said { text.new.items ≡ text.old.items ++ words_behind missing.now }
    ensures within { array_vec_len text.new ≤ array_vec_len text.old + BEHIND_ROOM }
{
    match *missing {
        Missing::Thread(_) | Missing::Mutex(_) | Missing::Cond(_) => {}
        Missing::Priority(_) => append(text, b" is out of range (1 to 99)"),
        Missing::ThreadRoom(most) | Missing::MutexRoom(most) | Missing::CondRoom(most) => {
            append_within(text, b" (", most, b" may be added)")
        }
        Missing::Time(_, now) => append_within(text, b" is past (it is ", now, b")"),
    }
}

/// Appends what is said of what is missing, at most 69 bytes.
pub fn append_missing(text: &mut Text, missing: &Missing)
    requires { array_vec_len text.old + MISSING_ROOM ≤ TEXT_ROOM }
    ensures said { text.new.items ≡ text.old.items ++ missing_text missing.now }
    ensures within { array_vec_len text.new ≤ array_vec_len text.old + MISSING_ROOM }
{
    append(text, words_before(missing));
    append(text, missing_word(missing).as_slice());
    append_behind(text, missing);
}

/// Appends a number in decimal digits.
fn append_decimal(text: &mut Text, number: u64)
    requires { array_vec_len text.old + 20 ≤ TEXT_ROOM }
    ensures items { text.new.items ≡ text.old.items ++ decimal number }
    ensures len { length (decimal number) ≤ 20 }
{
    let mut digits = Buffer::new();
    append(text, digits.format(number).as_bytes());
}

/// Appends a place behind the name of its file.
fn append_place(text: &mut Text, line: u64, column: u64)
    requires { array_vec_len text.old + PLACE_ROOM ≤ TEXT_ROOM }
    ensures place { text.new.items ≡ text.old.items ++ place_text line column }
    ensures within { array_vec_len text.new ≤ array_vec_len text.old + PLACE_ROOM }
{
    append(text, b":");
    append_decimal(text, line);
    append(text, b":");
    append_decimal(text, column);
    append(text, b": ");
}

/// What is told of a note behind the name of its file.
#[tactic(auto, unfolding(crate::specs::Notes::note_text))]
fn note_text(note: &Note) -> Text
    ensures { result.items ≡ note_text note.now }
{
    let mut text = Text::new();
    append_place(&mut text, note.line, note.column);
    append_missing(&mut text, &note.missing);
    append(&mut text, b"\n");
    text
}

/// Writes the line of a note on a file of this name.
fn write_note<W: Write>(name: &[u8], note: &Note, writer: &mut W) -> Result<(), CliFault>
    ensures { Writes (W.contents writer.old) (W.contents writer.new) (note_line name.now note.now) result }
{
    write_whole(writer, name)?;
    write_whole(writer, note_text(note).as_slice())
}

/// Writes the notes on a file of this name, a line for each. No memory is taken.
///
/// # Errors
///
/// `Write` if the writer fails or takes no byte; a proper part of the lines is written then.
pub fn write_notes<W: Write>(name: &[u8], notes: &[Note], writer: &mut W) -> Result<(), CliFault>
    ensures { Writes (W.contents writer.old) (W.contents writer.new) (notes_text name.now notes.now) result }
{
    for note in notes {
        write_note(name, note, writer)?;
    }
    Ok(())
}
