ghost use Rattle.std.specs.Prelude.{◌≡◌, ◌+◌, ◌≤◌, IfOk, Err, None, Ok, Some, option_map};
ghost use Rattle.pif_text_model.specs.declared.traces.Version.{Version};
ghost use Rattle.pif_script_model.specs.Migrating.{IsFaultOfForm, MigratesTo, VerdictStays, form_hearing};

use crate::replaying::{open_header, traced_of};
use pif_script::{
    CliFault, End, Ending, Listener, Notice, OpenFault, Output, Scanner, Stop, append_end,
    read_all, stop, write_whole,
};
use pif_script_core::first_limits;
use pif_text::{Cause, Command, Version};
use pif_types::NoMemory;
use std::alloc::Global;
use std::io::{Read, Write};
use std::marker::Model;

/// Looks at the form of the lines of a trace of a version, and makes no core.
#[derive(Drop)]
struct Forming {
    version: Version,
}

impl Model for Forming {
    ghost Value = { Version };

    ghost view = { λ f. f.version };
}

impl Listener for Forming {
    ghost hearing = { form_hearing };

    #[tactic(auto, unfolding(pif_script_model::specs::Migrating::second_line_form, pif_script_model::specs::Migrating::first_form))]
    fn open(
        _alloc: Global,
        version: Option<Version>,
        line: &[u8],
        _output: &mut Output,
    ) -> Result<Option<Forming>, OpenFault> {
        let Some(version) = version else {
            return open_header(line);
        };
        let Some((command, _)) = traced_of(version, line) else {
            return Err(OpenFault::Ended(Ending::Fault(Cause::Command)));
        };
        match first_limits(command) {
            Some(_) => Ok(Some(Forming { version })),
            None => Err(OpenFault::Ended(Ending::Fault(Cause::Limits))),
        }
    }

    #[tactic(auto, unfolding(pif_script_model::specs::Migrating::line_form))]
    fn hear(&mut self, line: &[u8], _output: &mut Output) -> Result<(), Ending> {
        let Some((command, _)) = traced_of(self.version, line) else {
            return Err(Ending::Fault(Cause::Command));
        };
        match command {
            Command::Limits(..) => Err(Ending::Fault(Cause::Command)),
            _ => Ok(()),
        }
    }

    fn close(number: u64, _output: &mut Output) -> Result<(), Cause> {
        if number < 2 {
            return Err(Cause::Command);
        }
        Ok(())
    }

    fn report(end: End, output: &mut Output) {
        append_end(end, output);
    }
}

/// The first fault of form of a trace of these bytes, which `notice` keeps, or `None`.
///
/// # Errors
///
/// `NoMemory`, which no line of a trace answers by its form.
fn fault_of_form(alloc: Global, bytes: &[u8], notice: &mut Notice) -> Result<Option<End>, NoMemory>
    ensures { IfOk result (λ fault. IsFaultOfForm bytes.now fault) }
{
    let mut scanner = Scanner::<Forming>::new();
    let mut output = Output::new();
    for byte in bytes {
        output.clear();
        match scanner.take(alloc, *byte, &mut output) {
            Ok(()) => {}
            Err(Stop::Ended(end)) => {
                notice.keep(scanner.line(), &end.ending);
                return Ok(Some(end));
            }
            Err(Stop::NoMemory) => return Err(NoMemory),
        }
    }
    output.clear();
    match scanner.close(&mut output) {
        Ok(()) => Ok(None),
        Err(end) => {
            notice.keep(scanner.line(), &end.ending);
            Ok(Some(end))
        }
    }
}

/// Writes a trace of version 1 or 2 as one of version 2: its first line becomes `pif-trace 2`, and all behind it stays
/// to the byte. The form of each line is checked, and nothing is run; a fault of form gives its line alone. All is read
/// before anything is written, at most 16,777,217 bytes.
///
/// # Errors
///
/// `Read` if the reader fails, and `NoMemory`; nothing was written then, and they come before any fault of form.
/// `Script` with the first fault of form, whose line was written then; and `Write` if the writer fails or takes no
/// byte.
pub fn migrate<R: Read, W: Write>(
    alloc: Global,
    reader: &mut R,
    writer: &mut W,
) -> Result<(), CliFault>
    ensures { MigratesTo (R.remaining reader.old) (R.remaining reader.new) (W.contents writer.old) (W.contents writer.new) result }
{
    migrate_noting(alloc, reader, writer, &mut Notice::new())
}

/// Migrates a trace as `migrate` does, and has `notice` keep the line of the fault; if there is none, `notice` is left
/// as it is.
///
/// # Errors
///
/// Those of `migrate`.
pub fn migrate_noting<R: Read, W: Write>(
    alloc: Global,
    reader: &mut R,
    writer: &mut W,
    notice: &mut Notice,
) -> Result<(), CliFault>
    ensures { MigratesTo (R.remaining reader.old) (R.remaining reader.new) (W.contents writer.old) (W.contents writer.new) result }
{
    let mut bytes = read_all(alloc, reader)?;
    match fault_of_form(alloc, bytes.as_slice(), notice) {
        Ok(None) => {
            bytes[10] = b'2';
            write_whole(writer, bytes.as_slice())
        }
        Ok(Some(end)) => Err(stop::<Forming, W>(end, &mut Output::new(), writer)),
        Err(NoMemory) => Err(CliFault::NoMemory),
    }
}

/// A trace whose lines have no fault of form prints the same when it is replayed in version 2.
pub fn migrated_trace_has_its_verdict()
    ensures { VerdictStays }
{}
