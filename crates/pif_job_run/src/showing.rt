ghost use Rattle.std.specs.Prelude.{◌≡◌, ◌+◌, ◌<◌, ◌≤◌, ◌++◌, ◌==◌, None, Some, List, [], ℕ, Ok, IfOk, OnOk, length, map, option_copied};
ghost use Rattle.std.specs.Io.KnownBytes.{Appends, Keeps};
ghost use Rattle.arrayvec.specs.ArrayVec.{array_vec_len};
ghost use Rattle.pif_text_model.specs.Extends.{Stays};
ghost use Rattle.pif_script_model.specs.Running.{script};
ghost use Rattle.pif_script_model.specs.Runs.{Feeds, RunsFrom, Stops};
ghost use Rattle.pif_script_model.specs.Scripts.{TakesSome};
ghost use Rattle.pif_script.specs.Scanners.{scan_of};
ghost use Rattle.pif_script_model.specs.Showing.{OrUnwritten, ShowsTo, Silent};
ghost use Rattle.pif_text_core.specs.Changes.{lines_text};
ghost use Rattle.pif_job_run.specs.Shows.{IsPart, behind_part, core_scan, core_told, front_told, line_told, showing, shown_text};

use crate::shown::Shown;
use pif_core::Core;
use pif_script::{
    CliFault, END_ROOM, End, Listener, MOST_LINE, Notice, OUTPUT_ROOM, Output, Scanner, Stop,
    append, stop, write_whole,
};
use pif_script_model::Detail;
use pif_story::printable;
use pif_text::before_feed;
use pif_text_core::{Unwritten, write_changes, write_state};
use std::alloc::Global;
use std::io::Write;

/// The most bytes in which a line is told, with what stands before it and its LF.
const LINE_ROOM: usize = MOST_LINE + 3;

/// How a script is shown.
#[derive(Clone, Copy)]
pub struct Look<'n> {
    /// Whether all of the core is told behind each line, or what has changed.
    pub detail: Detail,
    /// The names of threads for a person, that of t1 first; one that is empty is none.
    pub names: &'n [&'n str],
}

/// Runs the script that a text in memory is, and shows it as `show_noting` says.
///
/// # Errors
///
/// Those of `run`, for the same bytes. At `NoMemory` nothing was written.
pub fn show_script<W: Write>(
    look: &Look<'_>,
    alloc: Global,
    text: &[u8],
    writer: &mut W,
    notice: &mut Notice,
) -> Result<(), CliFault>
    ensures ends { ShowsTo (Some text.now) (Some []) (W.contents writer.old) (W.contents writer.new) result }
    ensures told { OnOk result (Appends (W.contents writer.old) (W.contents writer.new)
        (shown_text look.now.detail (map (λ name. name.now) look.now.names.now) text.now)) }
{
    let mut scanner = Scanner::<Shown>::new();
    let mut output = Output::new();
    feed(look, alloc, &mut scanner, text, &mut output, writer, notice)?;
    close(&scanner, &mut output, writer, notice)
}

/// Reads bytes, and shows their lines.
fn feed<W: Write>(
    look: &Look<'_>,
    alloc: Global,
    scanner: &mut Scanner<Shown>,
    bytes: &[u8],
    output: &mut Output,
    writer: &mut W,
    notice: &mut Notice,
) -> Result<(), CliFault>
    ensures answer { OrUnwritten (Feeds script (core_scan (scan_of scanner.old)) bytes.now (core_scan (scan_of scanner.new)) None None) result }
    ensures told { OnOk result (Feeds (showing look.now.detail (map (λ name. name.now) look.now.names.now)) (scan_of scanner.old) bytes.now (scan_of scanner.new)
        (W.contents writer.old) (W.contents writer.new) (Ok tt)) }
    ensures stays { Stays (W.contents writer.old) (W.contents writer.new) }
    ensures silent { Silent (scan_of scanner.old) (scan_of scanner.new) (W.contents writer.old) (W.contents writer.new) result }
{
    let mut rest = bytes;
    while !rest.is_empty() {
        let plain = before_feed(rest);
        match read_part(alloc, scanner, rest, plain, output) {
            Ok(count) => rest = &rest[count..],
            Err(Stop::Ended(end)) => return Err(stop_showing(end, scanner, output, writer, notice)),
            Err(Stop::NoMemory) => return Err(CliFault::NoMemory),
        }
        match end_part(plain == 0, look, scanner, output, writer) {
            Ok(()) => {}
            Err(_) => return Err(CliFault::Write),
        }
    }
    Ok(())
}

/// Reads the bytes before the first LF, which are `plain`, or some of them; or, if there are none, that LF. Then tells
/// the line that it ends and its answer, in place of what was told. Answers how many bytes it read.
fn read_part<L: Listener + Drop>(
    alloc: Global,
    scanner: &mut Scanner<L>,
    bytes: &[u8],
    plain: usize,
    output: &mut Output,
) -> Result<usize, Stop>
    requires some { 0 < length bytes.now }
    requires within { plain ≤ length bytes.now }
    ensures answer { TakesSome L.hearing (scan_of scanner.old) bytes.now (front_told (plain == 0) (scan_of scanner.old).line) output.new.items (scan_of scanner.new) result }
    ensures part { IfOk result (λ count. IsPart plain count) }
    ensures within { IfOk result (λ count. count ≤ length bytes.now) }
    ensures room { array_vec_len output.new + END_ROOM ≤ OUTPUT_ROOM }
{
    if plain == 0 {
        tell_line(scanner.line(), output);
        scanner.take(alloc, bytes[0], output)?;
        return Ok(1);
    }
    output.clear();
    scanner.take_some(alloc, &bytes[..plain], output)
}

/// Tells a line behind `> `, with LF behind it, in place of what was told. What is not printable stands there as `?`.
fn tell_line(line: &[u8], output: &mut Output)
    requires { length line.now ≤ MOST_LINE }
    ensures told { output.new.items ≡ line_told line.now }
    ensures room { array_vec_len output.new ≤ LINE_ROOM }
{
    output.clear();
    append(output, b"> ");
    for byte in line {
        output.push(printable(*byte));
    }
    output.push(b'\n');
}

/// Writes what was told of the line that these bytes ended, if they ended one, and what is told of the core behind it.
fn end_part<W: Write>(
    ends_line: bool,
    look: &Look<'_>,
    scanner: &Scanner<Shown>,
    output: &Output,
    writer: &mut W,
) -> Result<(), Unwritten>
    ensures told { OnOk result (Appends (W.contents writer.old) (W.contents writer.new)
        (behind_part look.now.detail (map (λ name. name.now) look.now.names.now) ends_line output.now.items (scan_of scanner.now).listener)) }
    ensures stays { Stays (W.contents writer.old) (W.contents writer.new) }
    ensures silent { (scan_of scanner.now).listener ≡ None → Keeps (W.contents writer.old) (W.contents writer.new) }
{
    match scanner.listener() {
        Some(shown) => write_if_ended(ends_line, look, shown, output, writer),
        None => Ok(()),
    }
}

/// Writes what was told of a line, and what is told of the core behind it, if the line has ended.
fn write_if_ended<W: Write>(
    ends_line: bool,
    look: &Look<'_>,
    shown: &Shown,
    output: &Output,
    writer: &mut W,
) -> Result<(), Unwritten>
    ensures told { OnOk result (Appends (W.contents writer.old) (W.contents writer.new)
        (behind_part look.now.detail (map (λ name. name.now) look.now.names.now) ends_line output.now.items (Some shown.now))) }
    ensures stays { Stays (W.contents writer.old) (W.contents writer.new) }
{
    if ends_line {
        write_line(look, shown, output, writer)
    } else {
        Ok(())
    }
}

/// Writes what was told of a line, and what is told of the core behind it.
fn write_line<W: Write>(
    look: &Look<'_>,
    shown: &Shown,
    output: &Output,
    writer: &mut W,
) -> Result<(), Unwritten>
    ensures told { OnOk result (Appends (W.contents writer.old) (W.contents writer.new)
        (output.now.items ++ core_told look.now.detail (map (λ name. name.now) look.now.names.now) shown.now)) }
    ensures stays { Stays (W.contents writer.old) (W.contents writer.new) }
{
    match write_whole(writer, output.as_slice()) {
        Ok(()) => write_core(look, shown, writer),
        Err(_) => Err(Unwritten),
    }
}

/// Writes what has changed in a core, or all of it if that is asked for, or if there is nothing from before.
fn write_core<W: Write>(look: &Look<'_>, shown: &Shown, writer: &mut W) -> Result<(), Unwritten>
    ensures stays { Stays (W.contents writer.old) (W.contents writer.new) }
    ensures told { OnOk result (Appends (W.contents writer.old) (W.contents writer.new) (core_told look.now.detail (map (λ name. name.now) look.now.names.now) shown.now)) }
{
    match look.detail {
        Detail::Changes => write_since(look.names, shown.before(), shown.core(), writer),
        Detail::All => write_state(look.names, shown.core(), writer),
    }
}

/// Writes what has changed since a core did what `before` does, or all that it does if there is no core from before.
fn write_since<W: Write>(
    names: &[&str],
    before: Option<&Core>,
    core: &Core,
    writer: &mut W,
) -> Result<(), Unwritten>
    ensures stays { Stays (W.contents writer.old) (W.contents writer.new) }
    ensures told { OnOk result (Appends (W.contents writer.old) (W.contents writer.new)
        (lines_text (map (λ name. name.now) names.now) (option_copied before.entry) core.now)) }
{
    match before {
        Some(before) => write_changes(names, before, core, writer),
        None => write_state(names, core, writer),
    }
}

/// Ends where the script does.
fn close<W: Write>(
    scanner: &Scanner<Shown>,
    output: &mut Output,
    writer: &mut W,
    notice: &mut Notice,
) -> Result<(), CliFault>
    ensures answer { OrUnwritten (RunsFrom script (core_scan (scan_of scanner.now)) (Some []) (Some []) None None) result }
    ensures told { OnOk result (W.contents writer.new ≡ W.contents writer.old) }
    ensures stays { Stays (W.contents writer.old) (W.contents writer.new) }
    ensures silent { Silent (scan_of scanner.now) (scan_of scanner.now) (W.contents writer.old) (W.contents writer.new) result }
{
    output.clear();
    match scanner.close(output) {
        Ok(()) => Ok(()),
        Err(end) => Err(stop_showing(end, scanner, output, writer, notice)),
    }
}

/// Writes the line that ends the script so, and what is said of it.
fn stop_showing<W: Write>(
    end: End,
    scanner: &Scanner<Shown>,
    output: &mut Output,
    writer: &mut W,
    notice: &mut Notice,
) -> CliFault
    requires { array_vec_len output.old + END_ROOM ≤ OUTPUT_ROOM }
    ensures { (text : List ℕ) × Stops (W.contents writer.old) (W.contents writer.new) text (script.said_of end) end result }
{
    notice.keep(scanner.line(), &end.ending);
    if output.is_empty() {
        tell_line(scanner.line(), output);
    }
    stop::<Shown, W>(end, output, writer)
}
