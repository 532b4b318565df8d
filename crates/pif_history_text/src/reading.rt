ghost use Rattle.std.specs.Prelude.{◌≡◌, ◌≢◌, ℕ, List, Option, slice_index, ◌+◌, ◌<◌, ◌≤◌, ◌∷◌, ◌++◌, [], Err, IfErr, IfOk, Ok, OnOk, length};
ghost use Rattle.pif_history_text.specs.Histories.{after_line, unheard};
ghost use Rattle.pif_history_text.specs.Reading.{Brings, Closes, Comes, Gives, HasNoFeed, HasRead, IsCutOff, IsPaired, TakesPart, TakesSome, ReadsHistory, heard_of, place_of, start, with_heard};

use crate::heard::MOST_BYTES;
use crate::{History, Names, text_of_line};
use arrayvec::ArrayVec;
use pif_script_model::CliFault;
use pif_text::{Cause, before_feed};
use std::alloc::Global;
use std::io::Read;

/// The most bytes that are read at once.
const CHUNK: usize = 4096;

/// How many bytes of a line are kept at most: those of the longest text, of a byte order mark and of a CR. A line with
/// more has a text that is too long.
const LINE_ROOM: usize = 124;

/// A history that was read, and the names that its comments give.
#[derive(Drop)]
pub struct NamedHistory {
    /// What its lines say.
    pub history: History,
    /// The names beside its numbers.
    pub names: Names,
}

/// A history while its text is read.
#[derive(Drop)]
struct TextSoFar {
    history: History,
    names: Names,
    line: ArrayVec<u8, LINE_ROOM>,
}

impl TextSoFar {
    /// Before the first byte.
    fn new(alloc: Global) -> Self
        ensures place { place_of result ≡ start }
        ensures paired { IsPaired result.history }
    {
        TextSoFar {
            history: History::new(alloc),
            names: Names::new(alloc),
            line: ArrayVec::new(),
        }
    }

    /// Takes bytes of a line.
    fn keep(&mut self, bytes: &[u8]) -> Result<(), CliFault>
        requires open { HasNoFeed self.old.line.items }
        requires plain { HasNoFeed bytes.now }
        requires fits { self.old.history.count ≤ 268435456 }
        ensures kept { Brings (place_of self.old) bytes.now (place_of self.new) result }
        ensures open { OnOk result (HasNoFeed self.new.line.items) }
        ensures same { OnOk result (self.new.history ≡ self.old.history) }
    {
        if bytes.len() > LINE_ROOM - self.line.len() {
            return Err(self.history.fault(Cause::Long));
        }
        let _ = self.line.try_extend_from_slice(bytes);
        Ok(())
    }

    /// Hears the line so far: what it says, and what it names if it is a comment.
    fn hear(&mut self) -> Result<(), CliFault>
        requires fits { self.old.history.count ≤ 268435456 }
        ensures heard { Comes (heard_of self.old.history) (after_line (heard_of self.old.history) self.old.line.items) (heard_of self.new.history) result }
        ensures line { self.new.line.items ≡ self.old.line.items }
        ensures count { OnOk result (self.new.history.count ≡ self.old.history.count + 1) }
        ensures paired { OnOk result (IsPaired self.old.history → IsPaired self.new.history) }
    {
        let number = self.history.count + 1;
        match self.history.hear(self.line.as_slice()) {
            Ok(()) => {
                let text = text_of_line(number, self.line.as_slice());
                self.names.hear(&self.history, number, text)
            }
            Err(fault) => Err(fault),
        }
    }

    /// Takes the LF that ends a line.
    fn end_line(&mut self) -> Result<(), CliFault>
        requires open { HasNoFeed self.old.line.items }
        requires fits { self.old.history.count ≤ 268435456 }
        ensures ended { Brings (place_of self.old) (10 ∷ []) (place_of self.new) result }
        ensures open { OnOk result (self.new.line.items ≡ []) }
        ensures count { OnOk result (self.new.history.count ≡ self.old.history.count + 1) }
        ensures paired { OnOk result (IsPaired self.old.history → IsPaired self.new.history) }
    {
        match self.hear() {
            Ok(()) => {
                self.line.clear();
                Ok(())
            }
            Err(fault) => Err(fault),
        }
    }

    /// Takes the first of these bytes: a line with its LF, or all of them if there is no LF. Answers how many.
    fn take_some(&mut self, bytes: &[u8]) -> Result<usize, CliFault>
        requires some { 0 < length bytes.now }
        requires open { HasNoFeed self.old.line.items }
        requires fits { self.old.history.count + length bytes.now ≤ 268435456 }
        ensures taken { TakesSome (place_of self.old) bytes.now (place_of self.new) result }
        ensures some { IfOk result (λ count. 0 < count) }
        ensures open { OnOk result (HasNoFeed self.new.line.items) }
        ensures count { IfOk result (λ count. self.new.history.count ≤ self.old.history.count + count) }
        ensures paired { OnOk result (IsPaired self.old.history → IsPaired self.new.history) }
    {
        let plain = before_feed(bytes);
        match self.keep(&bytes[..plain]) {
            Ok(()) => {}
            Err(fault) => return Err(fault),
        }
        if plain == bytes.len() {
            return Ok(plain);
        }
        match self.end_line() {
            Ok(()) => Ok(plain + 1),
            Err(fault) => Err(fault),
        }
    }

    /// Takes bytes, up to the first fault.
    fn take(&mut self, bytes: &[u8]) -> Result<(), CliFault>
        requires open { HasNoFeed self.old.line.items }
        requires fits { self.old.history.count + length bytes.now ≤ 268435456 }
        ensures taken { Brings (place_of self.old) bytes.now (place_of self.new) result }
        ensures open { OnOk result (HasNoFeed self.new.line.items) }
        ensures count { OnOk result (self.new.history.count ≤ self.old.history.count + length bytes.now) }
        ensures paired { OnOk result (IsPaired self.old.history → IsPaired self.new.history) }
    {
        let mut rest = bytes;
        while !rest.is_empty() {
            let count = match self.take_some(rest) {
                Ok(count) => count,
                Err(fault) => return Err(fault),
            };
            rest = &rest[count..];
        }
        Ok(())
    }

    /// Ends the text: after the bytes so far there is nothing.
    fn close(&mut self) -> Result<(), CliFault>
        requires fits { self.old.history.count ≤ 268435456 }
        ensures closed { Closes (place_of self.old) (heard_of self.new.history) result }
        ensures paired { OnOk result (IsPaired self.old.history → IsPaired self.new.history) }
    {
        if self.line.is_empty() {
            return Ok(());
        }
        self.hear()
    }

    /// The fault of the line in which more bytes stand than a history may have.
    fn cut_off(&self) -> CliFault
        requires fits { self.now.history.count ≤ 268435456 }
        ensures { IsCutOff (place_of self.now) result }
    {
        if self.history.is_long(self.line.as_slice()) {
            self.history.fault(Cause::Long)
        } else {
            self.history.fault(Cause::Size)
        }
    }
}

/// Reads some bytes into `chunk`. Answers how many; none only at the end.
fn read_some<R: Read>(reader: &mut R, chunk: &mut [u8]) -> Result<usize, CliFault>
    ensures { Gives (R.remaining reader.old) (R.remaining reader.new) chunk.new result }
{
    match reader.read(chunk) {
        Ok(count) => Ok(count),
        Err(_) => Err(CliFault::Read),
    }
}

/// Reads at most `room` bytes of a text, and takes them. Answers how many; none only at the end.
fn read_part<R: Read>(reader: &mut R, room: usize, text: &mut TextSoFar) -> Result<usize, CliFault>
    requires room { (0 < room) × (room ≤ CHUNK) }
    requires open { HasNoFeed text.old.line.items }
    requires fits { text.old.history.count + room ≤ 268435456 }
    ensures taken { TakesPart (R.remaining reader.old) (R.remaining reader.new) room (place_of text.old) (place_of text.new) result }
    ensures open { OnOk result (HasNoFeed text.new.line.items) }
    ensures count { IfOk result (λ count. text.new.history.count ≤ text.old.history.count + count) }
    ensures paired { OnOk result (IsPaired text.old.history → IsPaired text.new.history) }
{
    let mut chunk = [0u8; CHUNK];
    let count = read_some(reader, &mut chunk[..room])?;
    text.take(&chunk[..count])?;
    Ok(count)
}

/// Ends a text of which as many bytes were read as a history may have.
fn close_full<R: Read>(reader: &mut R, text: &mut TextSoFar) -> Result<(), CliFault>
    requires open { HasNoFeed text.old.line.items }
    requires fits { text.old.history.count ≤ 268435456 }
    ensures read { (before : Option (List ℕ)) → HasRead before (R.remaining reader.old) 268435456 (place_of text.old)
        → ReadsHistory before (R.remaining reader.new) (with_heard (heard_of text.new.history) result) }
    ensures paired { OnOk result (IsPaired text.old.history → IsPaired text.new.history) }
{
    let mut byte = [0u8; 1];
    let count = match read_some(reader, &mut byte) {
        Ok(count) => count,
        Err(fault) => return Err(fault),
    };
    if count == 0 {
        return text.close();
    }
    Err(text.cut_off())
}

/// Reads a text to its end or to its first fault.
fn read_text<R: Read>(reader: &mut R, text: &mut TextSoFar) -> Result<(), CliFault>
    requires place { place_of text.old ≡ start }
    requires paired { IsPaired text.old.history }
    ensures read { ReadsHistory (R.remaining reader.old) (R.remaining reader.new) (with_heard (heard_of text.new.history) result) }
    ensures paired { OnOk result (IsPaired text.new.history) }
{
    let mut taken = 0;
    while taken < MOST_BYTES {
        let room = CHUNK.min(MOST_BYTES - taken);
        let count = match read_part(reader, room, text) {
            Ok(count) => count,
            Err(fault) => return Err(fault),
        };
        if count == 0 {
            return text.close();
        }
        taken += count;
    }
    close_full(reader, text)
}

/// Reads a history to its end, or to its first fault, and the names that its comments give.
///
/// # Errors
///
/// `Script` with the number and the cause of the first line that is a fault, whatever stands after what was read then;
/// `Read`, if the reader fails; and `NoMemory`.
pub fn read_history<R: Read>(alloc: Global, reader: &mut R) -> Result<NamedHistory, CliFault>
    ensures read { IfOk result (λ x. ReadsHistory (R.remaining reader.old) (R.remaining reader.new) (Ok (heard_of x.history))) }
    ensures failed { IfErr result (λ fault. ReadsHistory (R.remaining reader.old) (R.remaining reader.new) (Err fault)) }
    ensures paired { IfOk result (λ x. IsPaired x.history) }
{
    let mut text = TextSoFar::new(alloc);
    read_text(reader, &mut text)?;
    text.names.close(&text.history);
    Ok(NamedHistory {
        history: text.history,
        names: text.names,
    })
}
