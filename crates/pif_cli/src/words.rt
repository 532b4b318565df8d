ghost use Rattle.std.specs.Prelude.{◌≡◌, ◌⊎◌, [], OnOk, map};
ghost use Rattle.clap.specs.Words.{kind_of};
ghost use Rattle.pif_cli_words.specs.Words.{refusals_of, rewrites, job_of, name_of};
ghost use Rattle.pif_job_draw.specs.Pictures.{DrawsTo};
ghost use Rattle.pif_cli_messages.specs.Messages.{TellsAt, TellsFault, TellsLine, TellsNotes, TellsOf};
ghost use Rattle.pif_cli_messages.specs.Statuses.{fault_status, job_status};
ghost use Rattle.pif_story.specs.Notes.{notes_text};
ghost use Rattle.pif_cli.specs.Names.{noted_name, shown_name};
ghost use Rattle.pif_cli.specs.Words.{Did, Does, EndsAsCli, HasNotes, as_job, EndsBy, HadNoMemory, RefusedFor, RefusesInput, Shows, ShowsHelp, ExploresAsked, as_explored, exploring_of, found_form};

use crate::drive::drive;
use crate::hosts::{Host, Runtime};
use crate::judging::judge_input;
use crate::names::Name;
use crate::parts::{follow_input, join_input, split_input};
use crate::random::write_random;
use crate::times::Timed;
use crate::told::Told;
use clap::error::ErrorKind;
use pif_cli_messages::{
    Given, Input, JobFault, Keeps, Message, Output, Unwatched, WatchJob, fault_status, is_output,
    job_fault_status, plain_message,
};
use pif_cli_words::{Job, first_name, near_command, read_words};
use pif_job_check::{check_strictly, fill_as_one_of_several, fill_noting};
use pif_job_draw::{Drawn, write_drawn, write_picture};
use pif_job_explore::{ExploreFault, Exploring, Form, Lines, WatchStates, explore_text};
use pif_job_replay::{migrate_noting, replay_noting};
use pif_job_run::trace_story;
use pif_job_shell::{NoShelf, Shelf, shell};
use pif_script::{CliFault, write_whole};
use pif_script_model::WatchSteps;
use pif_story::{Note, write_notes};
use std::alloc::{AllocError, Global};
use std::convert::AsStr;
use std::io::{Read, Write};
use std::time::Clock;

/// The fault of a job over a script or a trace.
fn as_job(done: Result<(), CliFault>) -> Result<(), JobFault>
    ensures { result ≡ as_job done }
{
    match done {
        Ok(()) => Ok(()),
        Err(fault) => Err(JobFault::Cli(fault)),
    }
}

/// How exploring a program ends.
fn as_explored(done: Result<(), ExploreFault>) -> Result<(), JobFault>
    ensures { result ≡ as_explored done }
{
    match done {
        Ok(()) => Ok(()),
        Err(ExploreFault::Cli(fault)) => Err(JobFault::Cli(fault)),
        Err(ExploreFault::Undecided) => Err(JobFault::Undecided(1)),
        Err(ExploreFault::NotOnCore(mutex)) => Err(JobFault::NotOnCore(mutex)),
        Err(ExploreFault::Faulty) => Err(JobFault::Faulty),
    }
}

/// The form in which is told what was found.
fn found_form(asked: pif_cli_words::Exploring) -> Form
    ensures { result ≡ found_form asked }
{
    if asked.html {
        Form::Page
    } else if asked.json {
        Form::Json
    } else {
        Form::Lines(Lines {
            schedules: asked.witness,
            calls: asked.calls,
        })
    }
}

/// How a program is explored.
fn exploring_of(asked: pif_cli_words::Exploring) -> Exploring
    ensures { result ≡ exploring_of asked }
{
    Exploring {
        form: found_form(asked),
        answers: !asked.claims,
        states: asked.states,
        core: asked.core,
        strict: asked.strict,
    }
}

/// Explores a program, in the time that it may take by this clock.
fn explore_input<C: Clock, R: Read, W: Write, V: WatchStates>(
    alloc: Global,
    clock: &C,
    asked: pif_cli_words::Exploring,
    input: &mut R,
    output: &mut W,
    watch: &mut V,
) -> Result<(), JobFault>
    ensures { ExploresAsked asked (R.remaining input.old) (R.remaining input.new) (W.contents output.old) (W.contents output.new) result }
{
    let exploring = exploring_of(asked);
    let mut timed = Timed::new(clock, asked.seconds, watch);
    as_explored(explore_text(alloc, &exploring, input, output, &mut timed))
}

/// Draws a story, and has `told` keep the line that ends it.
fn draw_input<R: Read, W: Write, V: WatchSteps>(
    asked: pif_cli_words::Drawn,
    input: &mut R,
    output: &mut W,
    told: &mut Told,
    watch: &mut V,
) -> Result<(), JobFault>
    ensures did { EndsAsCli (DrawsTo asked.html (R.remaining input.old) (R.remaining input.new) (W.contents output.old) (W.contents output.new)) result }
    ensures same_notes { told.new.notes ≡ told.old.notes }
{
    let drawn = Drawn {
        page: asked.html,
        from: asked.from,
        to: asked.to,
    };
    as_job(write_drawn(drawn, told.alloc, input, output, &mut told.notice, watch))
}

/// Does a job over an input of this name. `aside` names the folder into which parts are written, or their index; it has
/// no byte for another job. `told` keeps the line that ends it, and its notes.
fn do_job<P: Runtime + Sync, S: Shelf, R: Read, W: Write, E, V: WatchJob>(
    job: Job,
    aside: &str,
    name: &Name<'_>,
    input: &mut R,
    host: &mut Host<P, S, W, E, V>,
    told: &mut Told,
) -> Result<(), JobFault>
    requires { told.old.notes.items ≡ [] }
    ensures same_output { host.new.output.ghost_name ≡ host.old.output.ghost_name }
    ensures same_errors { host.new.errors.ghost_name ≡ host.old.errors.ghost_name }
    ensures untold { host.new.errors.now ≡ host.old.errors.now }
    ensures did { Does job (shown_name name.now) (R.remaining input.old) (R.remaining input.new) (W.contents host.old.output.now)
        (W.contents host.new.output.now) result }
    ensures noted { OnOk result (HasNotes job (shown_name name.now) (R.remaining input.old) (R.remaining input.new)
        (W.contents host.old.output.now) (W.contents host.new.output.now) told.new.notes.items) }
{
    let (alloc, called, output) = (host.alloc, name.shown(), &mut *host.output);
    let notice = &mut told.notice;
    match job {
        Job::Run => told.run(input, output),
        Job::Replay => as_job(replay_noting(alloc, input, output, notice)),
        Job::Trace => as_job(trace_story(alloc, input, output, notice)),
        Job::Migrate => as_job(migrate_noting(alloc, input, output, notice)),
        Job::Show(detail) => told.show(detail, input, output),
        Job::Picture(picture) => {
            as_job(write_picture(picture, alloc, input, output, notice, host.watch))
        }
        Job::Draw(asked) => draw_input(asked, input, output, told, host.watch),
        Job::Shell => as_job(shell(alloc, host.shelf, host.is_terminal, input, output)),
        Job::Check => told.check(name, input, output),
        Job::Strict => as_job(check_strictly(alloc, called, input, output, notice)),
        Job::Fill => as_job(fill_noting(alloc, called, input, output, notice)),
        Job::FillSeveral => as_job(fill_as_one_of_several(alloc, called, input, output, notice)),
        Job::Judge(asked) => {
            judge_input(alloc, host.process, asked, name, input, output, host.watch)
        },
        Job::Split(least) => { split_input(alloc, host.shelf, aside, least, input, output, notice) }
        Job::Joined => join_input(alloc, host.shelf, aside, input, output, notice),
        Job::Follow(asked) => follow_input(alloc, asked, input, output, host.watch),
        Job::Explore(asked) => {
            explore_input(alloc, host.process, asked, input, output, host.watch)
        },
        Job::Random(recipe) => write_random(alloc, recipe, output, host.watch),
        Job::Drive(clients) => drive(alloc, host.process, clients, output),
    }
}

/// What is kept of the text that a job reads, so that a fault can be told: all of a story and of a program, and of a
/// history the last lines.
fn kept_of(job: Job) -> Keeps {
    match job {
        Job::Check | Job::Strict | Job::Fill | Job::FillSeveral => Keeps::All,
        Job::Picture(_) | Job::Draw(_) | Job::Show(_) | Job::Trace => Keeps::All,
        Job::Explore(_) => Keeps::All,
        Job::Judge(_) | Job::Split(_) | Job::Follow(_) => Keeps::LastLines,
        _ => Keeps::Nothing,
    }
}

/// Tells the errors the notes of a job that was done over an input that is told under this name. A failed write is
/// passed over, since there is nobody left to tell.
fn tell_notes<E: Write>(name: &[u8], notes: &[Note], errors: &mut E)
    ensures { TellsNotes (notes_text name.now notes.now) (E.contents errors.old) (E.contents errors.new) }
{
    let _ = write_notes(name, notes, errors);
}

/// Tells the errors of a fault by this message; if `is_quiet`, not of an output that cannot be written.
fn tell_fault<E: Write>(fault: JobFault, is_quiet: bool, message: Message, errors: &mut E)
    ensures { TellsFault fault (E.contents errors.old) (E.contents errors.new) }
{
    if !is_output(fault) {
        message.tell(errors);
        return;
    }
    if !is_quiet {
        message.tell(errors);
    }
}

/// Tells the errors how a job over an input of this name has ended: its notes, or its fault, by what was given to it
/// and what is told of it. That the output cannot be written is told once, and not if nobody reads it any more. Answers
/// the status of the job.
pub fn tell_end<P, S, W: Write, E: Write, V>(
    done: Result<(), JobFault>,
    name: &Name<'_>,
    given: &Given<'_, '_>,
    told: &Told,
    host: &mut Host<P, S, W, E, V>,
) -> u8
    ensures same_output { host.new.output.ghost_name ≡ host.old.output.ghost_name }
    ensures same_errors { host.new.errors.ghost_name ≡ host.old.errors.ghost_name }
    ensures unwritten { W.contents host.new.output.now ≡ W.contents host.old.output.now }
    ensures status { result ≡ job_status done }
    ensures tells { TellsOf (notes_text (noted_name name.now) told.now.notes.items) done (E.contents host.old.errors.now) (E.contents host.new.errors.now) }
{
    match done {
        Ok(()) => {
            tell_notes(name.noted(), told.notes.as_slice(), host.errors);
            0
        }
        Err(fault) => {
            let message = given.message(fault, &told.notice);
            let is_quiet = host.output.is_closed() || host.told_of_output;
            tell_fault(fault, is_quiet, message, host.errors);
            host.told_of_output = host.told_of_output || is_output(fault);
            job_fault_status(fault)
        }
    }
}

/// Does a job over an input of this name. `aside` names the folder into which parts are written, or their index; it has
/// no byte for another job. Standard error gets the notes of the job, or is told of its fault. That the output cannot be
/// written is told once, and not if nobody reads it any more. Answers the status, which is that of the job, also if
/// standard error cannot be written.
pub fn do_and_tell<P: Runtime + Sync, S: Shelf, R: Read, W: Write, E: Write, V: WatchJob>(
    job: Job,
    aside: &str,
    name: &Name<'_>,
    input: &mut Input<R>,
    host: &mut Host<P, S, W, E, V>,
) -> u8
    ensures same_output { host.new.output.ghost_name ≡ host.old.output.ghost_name }
    ensures same_errors { host.new.errors.ghost_name ≡ host.old.errors.ghost_name }
    ensures did { Did job name.now (R.remaining input.old) (R.remaining input.new) (W.contents host.old.output.now)
        (W.contents host.new.output.now) (E.contents host.old.errors.now) (E.contents host.new.errors.now) result }
{
    let mut told = Told::new(host.alloc);
    input.begin(host.alloc, kept_of(job));
    let done = do_job(job, aside, name, &mut *input, host, &mut told);
    let given = Given {
        job,
        name: name.given(),
        kept: input.kept(),
        why: input.why(),
    };
    tell_end(done, name, &given, &told, host)
}

/// Tells `errors` of a fault by its own text. Answers the status of the fault, also if `errors` fails.
pub fn fail<E: Write>(fault: CliFault, errors: &mut E) -> u8
    ensures status { result ≡ fault_status fault }
    ensures told { TellsLine (E.contents errors.old) (E.contents errors.new) }
{
    plain_message(fault).tell(errors);
    fault_status(fault)
}

/// Shows a text of help. Answers 0, or 3 if the output fails, of which `errors` is told.
fn show_help<W: Write, E: Write>(text: &str, output: &mut W, errors: &mut E) -> u8
    ensures { ShowsHelp (W.contents output.old) (W.contents output.new) (E.contents errors.old) (E.contents errors.new) text.now result }
{
    match write_whole(output, text.as_bytes()) {
        Ok(()) => 0,
        Err(_) => fail(CliFault::Write, errors),
    }
}

/// Shows a text. Answers `shown`, or 3 if the writer fails.
pub fn show<W: Write>(text: &str, shown: u8, writer: &mut W) -> u8
    ensures { Shows (W.contents writer.old) (W.contents writer.new) text.now shown result }
{
    match write_whole(writer, text.as_bytes()) {
        Ok(()) => shown,
        Err(_) => 3,
    }
}

/// What is said if the answers of the standard input are to be written into its file.
const NO_FILE: &str = "error: 'check --write' writes into files; the standard input is not one\n";

/// Refuses to write into the standard input. Answers the status.
pub fn refuse_input<E: Write>(errors: &mut E) -> u8
    ensures { RefusesInput (E.contents errors.old) (E.contents errors.new) result }
{
    show(NO_FILE, 1, errors)
}

/// Why the words ask for no job. After a command that there is not stands the nearest one, if there is one, and `clap`
/// names none.
fn refusal_text(
    alloc: Global,
    error: clap::Error,
    near: Option<&'static str>,
) -> Result<String, AllocError> {
    let kind = error.kind();
    let mut text = error.to_string(alloc)?;
    if let (ErrorKind::InvalidSubcommand, Some(name)) = (kind, near) {
        if !text.as_str().contains("tip:") {
            text.push_str("Perhaps '")?;
            text.push_str(name)?;
            text.push_str("' is meant.\n")?;
        }
    }
    Ok(text)
}

/// Shows why the words ask for no job, with the command that is near, if there is one.
pub fn refuse<W: Write, E: Write>(
    alloc: Global,
    error: clap::Error,
    near: Option<&'static str>,
    output: &mut W,
    errors: &mut E,
) -> u8
    ensures { HadNoMemory (W.contents output.old) (W.contents output.new) (E.contents errors.old) (E.contents errors.new) result
        ⊎ ((kind_of error ≡ ErrorKind.OutOfMemory → ⊥)
        × RefusedFor (kind_of error) (W.contents output.old) (W.contents output.new) (E.contents errors.old) (E.contents errors.new) result) }
{
    let kind = error.kind();
    if let ErrorKind::OutOfMemory = kind {
        return fail(CliFault::NoMemory, errors);
    }
    match refusal_text(alloc, error, near) {
        Ok(text) => match kind {
            ErrorKind::DisplayHelp | ErrorKind::DisplayVersion => {
                show_help(text.as_str(), output, errors)
            }
            _ => show(text.as_str(), 1, errors),
        },
        Err(_) => fail(CliFault::NoMemory, errors),
    }
}

/// The program over its words, the program's name first. A word after all commands but `random`, `drive` and `shell`
/// names a file: no file is opened here, and `input` stands for the first. What a job makes goes to `output`:
///
/// - `run` reads a script, and writes what its lines are answered, and the line of a fault, as `run` does.
/// - `show` reads a story or a script, and writes each command, its answer and what it has changed, as `show_noting`
///   does; with `--all` the state after it; with `--json` or `--dot` a picture of it.
/// - `draw` reads a story or a script, and writes a drawing of it, as `write_drawn` does.
/// - `check` reads a story, and writes whether it is ok, as `check` does. With `--strict` it wants an answer beside
///   each refusal. With `--print` it writes the story with its answers, as `fill` does. `--write` is refused, since
///   `input` is no file.
/// - `judge` reads a history, and writes whether it is legal, as `judge` does in the form that its flags name.
/// - `judge --split` and `judge --joined` have no files here: the first writes none, and the second reads no index.
/// - `explore` reads a small program that locks, and writes all its outcomes, as `explore_text` does.
/// - `shell` reads the lines of a person, and answers each, as `shell` does without a prompt. It saves and loads no
///   story.
/// - `replay` reads a trace, and writes what it comes to, as `replay` does.
/// - `trace` reads a story or a script, and writes its trace, as `trace_story` does, without the line of a fault.
/// - `migrate` reads a trace, and writes it as one of version 2, or the line of its fault, as `migrate` does.
/// - `random` reads nothing, and writes the random script that its options ask for.
/// - `drive N` reads nothing. It lets N clients, 1 to 64, make their calls in threads of their own, as `rt` starts
///   them. It writes how many were answered, as `drive` does.
///
/// The status is 0 if the job was done, or help or the version was asked for, whose text goes to `output`. Else it is:
///
/// - 1 if the words are refused, and the reason goes to `errors`: nothing is read then;
/// - 2 for a fault of the script, story, history, program or trace;
/// - 3 if a read or a write fails;
/// - 4 if it ran out of memory;
/// - 5 if a story or a trace differs, a history is illegal, or a claim is broken;
/// - 6 if a thread can't be started, or the desk of the clients doesn't settle;
/// - 7 if a history stayed undecided;
/// - 8 if POSIX allows a history, and the machine doesn't or is undecided;
/// - 9 if POSIX may leave a history undefined;
/// - 10 for a mistake of the log.
///
/// At status 0 the notes of `run`, `check` and `show` go to `errors`, once the job is done, a line for each, and at 2
/// to 10 one line of printable characters, which says what went wrong. If these cannot be written, the status stays. At 3 it
/// is a part of the reason why the words are refused, if that could not be written. It is nothing if nobody reads
/// `output` any more. No memory is taken for the line or the notes, but a story, a program or the last lines of a
/// history are kept in memory for the place of a fault.
pub fn command<T: Runtime + Sync, S: AsStr, R: Read, W: Write, E: Write>(
    alloc: Global,
    rt: &T,
    words: &[S],
    input: &mut Input<R>,
    output: &mut Output<W>,
    errors: &mut E,
) -> u8
    ensures errors { TellsAt result (E.contents errors.old) (E.contents errors.new) }
    ensures ends { EndsBy (refusals_of (map S.text words.now)) (rewrites (map S.text words.now))
        (job_of (map S.text words.now)) (name_of (map S.text words.now)) (R.remaining input.old) (R.remaining input.new)
        (W.contents output.old) (W.contents output.new) (E.contents errors.old) (E.contents errors.new) result }
{
    let mut room = Vec::new(alloc);
    match read_words(alloc, words, &mut room) {
        Ok(asked) => {
            if asked.rewrites {
                return refuse_input(errors);
            }
            let Ok(name) = Name::new(alloc, first_name(asked.files.as_slice())) else {
                return fail(CliFault::NoMemory, errors);
            };
            let mut host = Host {
                alloc,
                process: rt,
                shelf: &NoShelf,
                is_terminal: false,
                output,
                errors,
                watch: &mut Unwatched,
                told_of_output: false,
            };
            do_and_tell(asked.job, asked.aside, &name, input, &mut host)
        }
        Err(error) => refuse(alloc, error, near_command(words), output, errors),
    }
}
