ghost use Rattle.std.specs.Prelude.{◌+◌, ◌≤◌, ◌<◌, ◌≡◌, Ok, true, [], length, OnOk};
ghost use Rattle.arrayvec.specs.ArrayVec.{array_vec_len};
ghost use Rattle.pif_script_model.specs.Scripts.{start, closed_at};
ghost use Rattle.pif_script_model.specs.Leaving.{GoesOn, RunsOn};
ghost use Rattle.pif_script_model.specs.Runs.{RunsFrom, Feeds, Flushes, WritesEnd, Stops};
ghost use Rattle.pif_script.specs.Scanners.{scan_of};

use crate::listener::{ANSWER_ROOM, CHUNK, END_ROOM, FULL, Listener, OUTPUT_ROOM, Output};
use crate::notices::Notice;
use crate::scanner::Scanner;
use crate::writing::write_whole;
use pif_script_model::{CliFault, End, Ending, Stop};
use std::alloc::Global;
use std::io::{Read, Write};

/// Reads a script or a trace to its end, or to the first line that ends it. What its lines are answered is written,
/// chunk by chunk, before more is read, and at last what is said at its end, or of the line that ends it. `notice`
/// keeps that line, and is left as it is if there is none. Of a line that is too long, it keeps the first 120 bytes. Of
/// the line in which a script gets too large, it keeps the bytes up to the last that a script may have.
///
/// # Errors
///
/// `Script` and `Differs` with the line that ends it; `Read` and `Write` if the reader or the writer fails; and
/// `NoMemory`, with nothing written.
pub fn read_script<L: Listener + Drop, R: Read, W: Write>(
    alloc: Global,
    reader: &mut R,
    writer: &mut W,
    notice: &mut Notice,
) -> Result<(), CliFault>
    ensures { RunsFrom L.hearing start (R.remaining reader.old) (R.remaining reader.new) (W.contents writer.old) (W.contents writer.new) result }
{
    read_on(alloc, &mut Scanner::<L>::new(), reader, writer, notice)
}

/// Reads a script or a trace on from where a scanner stands, as `read_script` does. The scanner is left behind the last
/// byte, with the listener that the script has made.
///
/// # Errors
///
/// Those of `read_script`.
pub fn read_on<L: Listener + Drop, R: Read, W: Write>(
    alloc: Global,
    scanner: &mut Scanner<L>,
    reader: &mut R,
    writer: &mut W,
    notice: &mut Notice,
) -> Result<(), CliFault>
    ensures { RunsOn L.hearing (scan_of scanner.old) (scan_of scanner.new) (R.remaining reader.old) (R.remaining reader.new) (W.contents writer.old) (W.contents writer.new) result }
{
    let mut output = Output::new();
    loop {
        if !turn(alloc, scanner, &mut output, reader, writer, notice)? {
            return Ok(());
        }
    }
}

/// Reads a chunk, and writes what its lines are answered. Answers whether the input goes on.
fn turn<L: Listener + Drop, R: Read, W: Write>(
    alloc: Global,
    scanner: &mut Scanner<L>,
    output: &mut Output,
    reader: &mut R,
    writer: &mut W,
    notice: &mut Notice,
) -> Result<bool, CliFault>
    ensures answer { GoesOn L.hearing (scan_of scanner.old) (scan_of scanner.new) (R.remaining reader.old) (R.remaining reader.new) (W.contents writer.old) (W.contents writer.new) result }
    ensures taken { result ≡ Ok true → scanner.old.taken < scanner.new.taken }
{
    let mut chunk = [0u8; CHUNK];
    let count = match reader.read(&mut chunk) {
        Ok(count) => count,
        Err(_) => return Err(CliFault::Read),
    };
    output.clear();
    if count == 0 {
        return close(scanner, output, writer, notice);
    }
    feed(alloc, scanner, &chunk[..count], output, writer, notice)?;
    Ok(true)
}

/// Has a scanner read these bytes behind those that it has read, and writes what their lines are answered, or what is
/// said of the line that ends the script. `notice` keeps that line, and is left as it is if there is none.
///
/// # Errors
///
/// `Script` and `Differs` with the line that ends the script; `Write` if the writer fails; and `NoMemory`.
pub fn feed<L: Listener + Drop, W: Write>(
    alloc: Global,
    scanner: &mut Scanner<L>,
    bytes: &[u8],
    output: &mut Output,
    writer: &mut W,
    notice: &mut Notice,
) -> Result<(), CliFault>
    requires { output.old.items ≡ [] }
    ensures answer { Feeds L.hearing (scan_of scanner.old) bytes.now (scan_of scanner.new) (W.contents writer.old) (W.contents writer.new) result }
    ensures taken { OnOk result (scanner.new.taken ≡ scanner.old.taken + length bytes.now) }
{
    let mut rest = bytes;
    while !rest.is_empty() {
        make_room(output, writer)?;
        match scanner.take_some(alloc, rest, output) {
            Ok(count) => rest = &rest[count..],
            Err(Stop::Ended(end)) => {
                notice.keep(scanner.line(), &end.ending);
                return Err(stop::<L, W>(end, output, writer));
            }
            Err(Stop::NoMemory) => return Err(CliFault::NoMemory),
        }
    }
    write_whole(writer, output.as_slice())
}

/// Writes the output if there may be no room for one more answer in it.
fn make_room<W: Write>(output: &mut Output, writer: &mut W) -> Result<(), CliFault>
    ensures answer { Flushes (W.contents writer.old) (W.contents writer.new) output.old.items output.new.items result }
    ensures room { OnOk result (array_vec_len output.new + ANSWER_ROOM + END_ROOM ≤ OUTPUT_ROOM) }
{
    if output.len() < FULL {
        return Ok(());
    }
    write_whole(writer, output.as_slice())?;
    output.clear();
    Ok(())
}

/// Writes what is said if the script ends behind the bytes that a scanner has read. Answers `false`: the input does not
/// go on. `notice` keeps the line that is a fault then, and is left as it is if there is none.
///
/// # Errors
///
/// `Script` with the fault, whose line was written then, and `Write` if the writer fails.
pub fn close<L: Listener + Drop, W: Write>(
    scanner: &Scanner<L>,
    output: &mut Output,
    writer: &mut W,
    notice: &mut Notice,
) -> Result<bool, CliFault>
    requires { output.old.items ≡ [] }
    ensures { WritesEnd (W.contents writer.old) (W.contents writer.new) L.hearing.said_of (closed_at L.hearing (scan_of scanner.now)) result }
{
    match scanner.close(output) {
        Ok(()) => {
            write_whole(writer, output.as_slice())?;
            Ok(false)
        }
        Err(end) => {
            notice.keep(scanner.line(), &end.ending);
            Err(stop::<L, W>(end, output, writer))
        }
    }
}

/// Writes the output, and behind it what is said of an end.
pub fn stop<L: Listener + Drop, W: Write>(end: End, output: &mut Output, writer: &mut W) -> CliFault
    requires { array_vec_len output.old + END_ROOM ≤ OUTPUT_ROOM }
    ensures { Stops (W.contents writer.old) (W.contents writer.new) output.old.items (L.hearing.said_of end) end result }
{
    let End { line, ending } = end;
    L::report(end, output);
    match write_whole(writer, output.as_slice()) {
        Ok(()) => match ending {
            Ending::Fault(cause) => CliFault::Script(line, cause),
            Ending::Differs(_) => CliFault::Differs(line),
        },
        Err(failed) => failed,
    }
}
