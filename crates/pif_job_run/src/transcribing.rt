ghost use Rattle.std.specs.Prelude.{◌≡◌, ◌+◌, ◌*◌, ◌≤◌, ◌++◌, ◌∷◌, [], Option, Some, None, Ok, is_some, if◌then◌else◌, IfOk};
ghost use Rattle.arrayvec.specs.ArrayVec.{array_vec_len};
ghost use Rattle.pif_types.specs.Bounds.{Bounds};
ghost use Rattle.pif_model.specs.Table.{Table};
ghost use Rattle.pif_model.specs.declared.events.Event.TheVariants as event;
ghost use Rattle.pif_model.specs.Lines.{event_outcome, goes_on};
ghost use Rattle.pif_model_simulation.specs.Calls.{call_outcome};
ghost use Rattle.pif_script_model.specs.Running.{run_outcome};
ghost use Rattle.pif_script_model.specs.Traces.{entry_line};
ghost use Rattle.pif_script_model.specs.Transcripts.{Transcribed, call_entries, entry_lines, event_entry, going_entries, is_added, row, run_entries, single_line, transcript, was_made};

use crate::tracing::front_lines;
use pif_core::{Core, Event, MORE_STEPS, Seen};
use pif_script::{End, Ending, LINE_ROOM, Listener, OUTPUT_ROOM, OpenFault, Output, append};
use pif_script_core::{first_limits, obey};
use pif_text::{
    Added, Cause, Command, Reply, Text, Version, command_of, command_text, if_traced, recorded_text,
};
use pif_types::{Request, Tid};
use std::alloc::Global;
use std::marker::Model;

/// The most bytes that a thread's going on makes: the lines of its first step, and of `MORE_STEPS` behind that.
const FINISH_ROOM: usize = (MORE_STEPS as usize + 1) * LINE_ROOM;

/// The most bytes that the lines have that a command makes.
const LINES_ROOM: usize = LINE_ROOM + FINISH_ROOM;

/// A core whose trace is written while it does what a script asks.
#[derive(Drop)]
pub struct Transcribing {
    core: Core,
}

impl Model for Transcribing {
    ghost Value = { Table };

    ghost view = { λ t. t.core };
}

/// Appends a command and what it was answered, as a line of a trace.
fn append_row(command: Command, reply: Reply, output: &mut Output)
    requires { array_vec_len output.old + LINE_ROOM ≤ OUTPUT_ROOM }
    ensures told { output.new.items ≡ output.old.items ++ row command reply }
    ensures room { array_vec_len output.new ≤ array_vec_len output.old + LINE_ROOM }
{
    let mut text = Text::new();
    command_text(command, &mut text);
    recorded_text(reply, &mut text);
    append(output, text.as_slice());
    output.push(b'\n');
}

/// One event, and its line.
fn step(core: &mut Core, event: Event, output: &mut Output) -> Seen
    requires { array_vec_len output.old + LINE_ROOM ≤ OUTPUT_ROOM }
    ensures seen { result ≡ (event_outcome event core.old).seen }
    ensures after { core.new ≡ (event_outcome event core.old).after }
    ensures told { output.new.items ≡ output.old.items ++ entry_line (event_entry event core.old) }
    ensures room { array_vec_len output.new ≤ array_vec_len output.old + LINE_ROOM }
{
    let asked = event;
    let seen = core.step(event);
    let answered = seen;
    append_row(Command::Event(asked), Reply::Seen(seen), output);
    answered
}

/// The thread goes on as in `Core::finish`, with a line for each time.
fn finish(core: &mut Core, thread: Tid, output: &mut Output) -> Seen
    requires { array_vec_len output.old + FINISH_ROOM ≤ OUTPUT_ROOM }
    ensures seen { result ≡ (goes_on 23 thread core.old).seen }
    ensures after { core.new ≡ (goes_on 23 thread core.old).after }
    ensures told { output.new.items ≡ output.old.items ++ entry_lines (going_entries 23 thread core.old) }
    ensures room { array_vec_len output.new ≤ array_vec_len output.old + FINISH_ROOM }
{
    for _turn in 0..MORE_STEPS {
        match step(core, Event::Go(thread), output) {
            Seen::Went => {}
            seen => return seen,
        }
    }
    step(core, Event::Go(thread), output)
}

/// A whole call, as in `Core::call`, with a line for each event.
fn call(core: &mut Core, thread: Tid, request: Request, output: &mut Output) -> Seen
    requires { array_vec_len output.old + LINES_ROOM ≤ OUTPUT_ROOM }
    ensures seen { result ≡ (call_outcome thread request core.old).seen }
    ensures after { core.new ≡ (call_outcome thread request core.old).after }
    ensures told { output.new.items ≡ output.old.items ++ entry_lines (call_entries thread request core.old) }
    ensures room { array_vec_len output.new ≤ array_vec_len output.old + LINES_ROOM }
{
    match step(core, Event::Begin(thread, request), output) {
        Seen::Refused(refusal) => Seen::Refused(refusal),
        _ => finish(core, thread, output),
    }
}

/// A thread that goes on, in a whole call if a request is given, with a line for each event.
fn run(core: &mut Core, thread: Tid, request: Option<Request>, output: &mut Output) -> Seen
    requires { array_vec_len output.old + LINES_ROOM ≤ OUTPUT_ROOM }
    ensures seen { result ≡ (run_outcome thread request core.old).seen }
    ensures after { core.new ≡ (run_outcome thread request core.old).after }
    ensures told { output.new.items ≡ output.old.items ++ entry_lines (run_entries thread request core.old) }
    ensures room { array_vec_len output.new ≤ array_vec_len output.old + LINES_ROOM }
{
    match request {
        Some(request) => call(core, thread, request, output),
        None => finish(core, thread, output),
    }
}

/// Whether an addition was made.
fn is_added(added: Added) -> bool
    ensures { result ≡ is_added added }
{
    match added {
        Added::Refused(_) => false,
        _ => true,
    }
}

/// Whether an answer says that an addition was made, or it is not that of an addition.
fn was_made(reply: Reply) -> bool
    ensures { result ≡ was_made reply }
{
    match reply {
        Reply::Added(added) => is_added(added),
        _ => true,
    }
}

/// Appends the line of a command that makes one entry at most.
fn append_single(command: Command, reply: Reply, output: &mut Output)
    requires { array_vec_len output.old + LINE_ROOM ≤ OUTPUT_ROOM }
    ensures told { output.new.items ≡ output.old.items ++ single_line command reply }
    ensures room { array_vec_len output.new ≤ array_vec_len output.old + LINE_ROOM }
{
    let answered = reply;
    if let Some(traced) = if_traced(Version::Two, command)
        && was_made(reply)
    {
        append_row(traced, answered, output);
    }
}

/// What a command is answered; the lines of the entries that it makes are appended. `None` for `limits`, which is a
/// first command alone; nothing has changed then.
fn transcribe(core: &mut Core, command: Command, output: &mut Output) -> Option<Reply>
    requires { array_vec_len output.old + LINES_ROOM ≤ OUTPUT_ROOM }
    ensures answer { Transcribed command core.old core.new output.old.items output.new.items result }
    ensures room { array_vec_len output.new ≤ array_vec_len output.old + LINES_ROOM }
{
    match command {
        Command::Run(thread, request) => Some(Reply::Seen(run(core, thread, request, output))),
        single => {
            let asked = single;
            match obey(core, single) {
                Some(reply) => {
                    let answered = reply;
                    append_single(asked, reply, output);
                    Some(answered)
                }
                None => None,
            }
        }
    }
}

impl Listener for Transcribing {
    ghost hearing = { transcript };

    fn open(
        alloc: Global,
        _version: Option<Version>,
        line: &[u8],
        output: &mut Output,
    ) -> Result<Option<Transcribing>, OpenFault> {
        let Some(command) = command_of(line) else {
            return Err(OpenFault::Ended(Ending::Fault(Cause::Command)));
        };
        let first = command;
        let Some(limits) = first_limits(command) else {
            return Err(OpenFault::Ended(Ending::Fault(Cause::Limits)));
        };
        let front = front_lines(limits);
        let Ok(mut core) = Core::new(alloc, limits) else {
            return Err(OpenFault::NoMemory);
        };
        append(output, front.as_slice());
        let _ = transcribe(&mut core, first, output);
        Ok(Some(Transcribing { core }))
    }

    fn hear(&mut self, line: &[u8], output: &mut Output) -> Result<(), Ending> {
        let Some(command) = command_of(line) else {
            return Err(Ending::Fault(Cause::Command));
        };
        match transcribe(&mut self.core, command, output) {
            Some(_) => Ok(()),
            None => Err(Ending::Fault(Cause::Command)),
        }
    }

    fn close(_number: u64, _output: &mut Output) -> Result<(), Cause> {
        Ok(())
    }

    fn report(_end: End, _output: &mut Output) {}
}
