ghost use Rattle.std.specs.Prelude.{◌≡◌, ◌≢◌, ℕ, ◌+◌, ◌*◌, ◌≤◌, ◌<◌, ◌==◌, ◌↔◌, [], ◌++◌, length, slice_index, IfOk, IsTrue, OnOk, None, Some, option_copied, if◌then◌else◌};
ghost use Rattle.arrayvec.specs.ArrayVec.{array_vec_len};
ghost use Rattle.pif_text_model.specs.Traces.{version_in};
ghost use Rattle.pif_script_model.specs.Scripts.{Answers};

use crate::listener::{ANSWER_ROOM, END_ROOM, Listener, OUTPUT_ROOM, Output};
use arrayvec::ArrayVec;
use pif_script_model::{End, Ending, OpenFault, Stop};
use pif_text::{Cause, Version, before_feed, version_of};
use std::alloc::Global;

/// The most bytes of a script or a trace.
pub const MOST_BYTES: u32 = 16_777_216;

/// The most bytes of a line before its LF.
pub const MOST_LINE: usize = 120;

/// Reads the bytes of a script, and has its lines answered by an `L`, which one of the first lines makes.
#[derive(Drop)]
pub struct Scanner<L> {
    listener: Option<L>,
    version: Option<Version>,
    line: ArrayVec<u8, MOST_LINE>,
    number: u64,
    taken: u32,
    ghost counted: { number ≤ taken + 1 },
    ghost bounded: { taken ≤ 16777216 },
}

impl<L: Listener + Drop> Scanner<L> {
    ghost use Rattle.pif_script_model.specs.Scripts.{start, Takes, TakesSome, Tells, closed_at, end_at};
    ghost use Rattle.pif_script.specs.Scanners.{scan_of};

    /// A scanner before the first byte.
    pub fn new() -> Self
        ensures { scan_of result ≡ start }
    {
        Scanner {
            listener: None,
            version: None,
            line: ArrayVec::new(),
            number: 1,
            taken: 0,
        }
    }

    /// The bytes of the line in which the script stands, as far as they were taken.
    pub fn line(&self) -> &[u8]
        ensures value { result.now ≡ (scan_of self.now).line }
        ensures most { length result.now ≤ MOST_LINE }
    {
        self.line.as_slice()
    }

    /// Who answers the lines, if a line has made one.
    pub fn listener(&self) -> Option<&L>
        ensures { option_copied result ≡ self.now.listener }
    {
        match &self.listener {
            Some(listener) => Some(listener),
            None => None,
        }
    }

    /// Who answers the lines, if a line has made one, once no more are read.
    pub fn into_listener(self) -> Option<L>
        ensures { result ≡ (scan_of self).listener }
    {
        let Scanner { listener, .. } = self;
        listener
    }

    /// Appends to `output` what is said if the script ends here.
    ///
    /// # Errors
    ///
    /// The line that is a fault because the script ends here; `output` is then unchanged.
    pub fn close(&self, output: &mut Output) -> Result<(), End>
        requires { array_vec_len output.old + END_ROOM ≤ OUTPUT_ROOM }
        ensures { Tells (closed_at L.hearing (scan_of self.now)) output.old.items output.new.items result }
    {
        if !self.line.is_empty() {
            return Err(self.fault(Cause::Cut));
        }
        match L::close(self.number, output) {
            Ok(()) => Ok(()),
            Err(cause) => Err(self.fault(cause)),
        }
    }

    /// The line in which the script stands, as a fault.
    fn fault(&self, cause: Cause) -> End
        ensures { result ≡ end_at (scan_of self.now) (Ending.Fault cause) }
    {
        End {
            line: self.number,
            ending: Ending::Fault(cause),
        }
    }

    /// Reads one byte. If it ends a line, what that is answered is appended to `output`.
    ///
    /// # Errors
    ///
    /// `Ended` with the line, if the byte ends the script, and `NoMemory`, with no line answered yet.
    pub fn take(&mut self, alloc: Global, byte: u8, output: &mut Output) -> Result<(), Stop>
        requires { array_vec_len output.old + ANSWER_ROOM ≤ OUTPUT_ROOM }
        ensures answer { Takes L.hearing (scan_of self.old) byte output.old.items output.new.items (scan_of self.new) result }
        ensures room { array_vec_len output.new ≤ array_vec_len output.old + ANSWER_ROOM }
        ensures taken { OnOk result (self.new.taken ≡ self.old.taken + 1) }
    {
        if self.taken >= MOST_BYTES {
            return Err(Stop::Ended(self.fault(Cause::Size)));
        }
        if byte == b'\n' {
            let line = self.line.as_slice();
            answer(
                alloc,
                self.version,
                self.number,
                line,
                &mut self.listener,
                output,
            )?;
            self.version = named(self.version, self.number, line);
            self.line.clear();
            self.taken += 1;
            self.number += 1;
            return Ok(());
        }
        if self.line.len() >= MOST_LINE {
            return Err(Stop::Ended(self.fault(Cause::Long)));
        }
        self.line.push(byte);
        self.taken += 1;
        Ok(())
    }

    /// Reads bytes up to the end of the first line among them, or fewer, and answers how many it read, at least one.
    /// `bytes` must not be empty. A line that lies whole among them is heard where it lies. What a line is answered is
    /// appended to `output`.
    ///
    /// # Errors
    ///
    /// `Ended` with the line, if one of the bytes ends the script, and `NoMemory`, with no line answered yet.
    #[inline(always)]
    pub fn take_some(
        &mut self,
        alloc: Global,
        bytes: &[u8],
        output: &mut Output,
    ) -> Result<usize, Stop>
        requires some { 0 < length bytes.now }
        requires room { array_vec_len output.old + ANSWER_ROOM ≤ OUTPUT_ROOM }
        ensures answer { TakesSome L.hearing (scan_of self.old) bytes.now output.old.items output.new.items (scan_of self.new) result }
        ensures room { array_vec_len output.new ≤ array_vec_len output.old + ANSWER_ROOM }
        ensures taken { IfOk result (λ count. self.new.taken ≡ self.old.taken + count) }
        ensures within { IfOk result (λ count. (0 < count) × (count ≤ length bytes.now)) }
    {
        let plain = before_feed(bytes);
        if plain < bytes.len() && self.line.is_empty() && self.has_room(plain + 1) {
            self.take_line(alloc, bytes, plain, output)
        } else {
            self.take_part(alloc, bytes, plain, output)
        }
    }

    /// Whether a line of which nothing was read can have so many bytes, its LF included.
    #[inline(always)]
    fn has_room(&self, count: usize) -> bool
        ensures { IsTrue result ↔ ((count ≤ 121) × (self.now.taken + count ≤ 16777216)) }
    {
        count <= MOST_LINE + 1 && count <= (MOST_BYTES - self.taken) as usize
    }

    /// Reads the line of the first `plain` bytes and the LF behind them; nothing of that line was read before.
    #[inline(always)]
    fn take_line(
        &mut self,
        alloc: Global,
        bytes: &[u8],
        plain: usize,
        output: &mut Output,
    ) -> Result<usize, Stop>
        requires fresh { self.old.line.items ≡ [] }
        requires fits { (plain ≤ 120) × (self.old.taken + plain < 16777216) × (plain < length bytes.now) }
        requires before { (k : ℕ) → k < plain → slice_index bytes.now k ≢ 10 }
        requires found { slice_index bytes.now plain ≡ 10 }
        requires room { array_vec_len output.old + ANSWER_ROOM ≤ OUTPUT_ROOM }
        ensures answer { TakesSome L.hearing (scan_of self.old) bytes.now output.old.items output.new.items (scan_of self.new) result }
        ensures room { array_vec_len output.new ≤ array_vec_len output.old + ANSWER_ROOM }
        ensures taken { IfOk result (λ count. self.new.taken ≡ self.old.taken + count) }
        ensures within { IfOk result (λ count. count ≡ plain + 1) }
    {
        let line = &bytes[..plain];
        match answer(
            alloc,
            self.version,
            self.number,
            line,
            &mut self.listener,
            output,
        ) {
            Ok(()) => {}
            Err(stop) => {
                keep(line, &mut self.line);
                return Err(stop);
            }
        }
        self.version = named(self.version, self.number, line);
        self.taken += plain as u32 + 1;
        self.number += 1;
        Ok(plain + 1)
    }

    /// Reads the first `plain` bytes, which end no line, if there is room for them, and else one byte.
    #[inline(never)]
    fn take_part(
        &mut self,
        alloc: Global,
        bytes: &[u8],
        plain: usize,
        output: &mut Output,
    ) -> Result<usize, Stop>
        requires some { 0 < length bytes.now }
        requires within { plain ≤ length bytes.now }
        requires before { (k : ℕ) → k < plain → slice_index bytes.now k ≢ 10 }
        requires room { array_vec_len output.old + ANSWER_ROOM ≤ OUTPUT_ROOM }
        ensures answer { TakesSome L.hearing (scan_of self.old) bytes.now output.old.items output.new.items (scan_of self.new) result }
        ensures room { array_vec_len output.new ≤ array_vec_len output.old + ANSWER_ROOM }
        ensures taken { IfOk result (λ count. self.new.taken ≡ self.old.taken + count) }
        ensures within { IfOk result (λ count. (0 < count) × (count ≤ length bytes.now)) }
    {
        if plain > 0
            && plain <= MOST_LINE - self.line.len()
            && plain <= (MOST_BYTES - self.taken) as usize
        {
            keep(&bytes[..plain], &mut self.line);
            self.taken += plain as u32;
            return Ok(plain);
        }
        self.take(alloc, bytes[0], output)?;
        Ok(1)
    }
}

/// Appends bytes to a line.
fn keep(bytes: &[u8], line: &mut ArrayVec<u8, MOST_LINE>)
    requires { array_vec_len line.old + length bytes.now ≤ MOST_LINE }
    ensures { line.new.items ≡ line.old.items ++ bytes.now }
{
    let _ = line.try_extend_from_slice(bytes);
}

/// The version that the first line names, once a line of this number has ended.
#[inline(always)]
fn named(version: Option<Version>, number: u64, line: &[u8]) -> Option<Version>
    ensures { result ≡ (if number == 1 then version_in line.now else version) }
{
    if number == 1 {
        version_of(line)
    } else {
        version
    }
}

/// Has a line of this number answered by the listener, or if there is none, as one of the first lines.
#[inline(always)]
fn answer<L: Listener + Drop>(
    alloc: Global,
    version: Option<Version>,
    number: u64,
    line: &[u8],
    listener: &mut Option<L>,
    output: &mut Output,
) -> Result<(), Stop>
    requires { array_vec_len output.old + ANSWER_ROOM ≤ OUTPUT_ROOM }
    ensures answer { Answers L.hearing listener.old version line.now number output.old.items output.new.items listener.new result }
    ensures room { array_vec_len output.new ≤ array_vec_len output.old + ANSWER_ROOM }
{
    match listener {
        Some(hearing) => match hearing.hear(line, output) {
            Ok(()) => Ok(()),
            Err(ending) => Err(Stop::Ended(End {
                line: number,
                ending,
            })),
        },
        None => answer_first(alloc, version, number, line, listener, output),
    }
}

/// Has a line answered while there is no listener, which it may make.
#[cold]
#[inline(never)]
fn answer_first<L: Listener + Drop>(
    alloc: Global,
    version: Option<Version>,
    number: u64,
    line: &[u8],
    listener: &mut Option<L>,
    output: &mut Output,
) -> Result<(), Stop>
    requires none { listener.old ≡ None }
    requires room { array_vec_len output.old + ANSWER_ROOM ≤ OUTPUT_ROOM }
    ensures answer { Answers L.hearing listener.old version line.now number output.old.items output.new.items listener.new result }
    ensures room { array_vec_len output.new ≤ array_vec_len output.old + ANSWER_ROOM }
{
    match L::open(alloc, version, line, output) {
        Ok(made) => {
            *listener = made;
            Ok(())
        }
        Err(OpenFault::Ended(ending)) => Err(Stop::Ended(End {
            line: number,
            ending,
        })),
        Err(OpenFault::NoMemory) => Err(Stop::NoMemory),
    }
}
