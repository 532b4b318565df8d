ghost use Rattle.std.specs.Prelude.{◌≡◌, IfSome, map};
ghost use Rattle.pif_cli.specs.Apart.{IsApart};
ghost use Rattle.pif_cli_words.specs.Words.{files_of, inputs_of, job_of, refusals_of, rewrites};
ghost use Rattle.pif_cli_messages.specs.Messages.{TellsLine};
ghost use Rattle.pif_cli.specs.Words.{DidAll, DidFile, DidOver, EndsIf, first_status};

use crate::apart::{Ahead, Apart, Judged, write_judged};
use crate::hosts::{Host, Runtime};
use crate::names::{Name, names_of};
use crate::rewriting::rewrite_file;
use crate::told::Told;
use crate::words::{do_and_tell, fail, refuse, refuse_input, tell_end};
use pif_cli_messages::{Given, Input, WatchFiles, WatchJob, unread_message, words_of};
use pif_cli_words::{Asked, Job, near_command, read_words};
use pif_job_shell::Shelf;
use pif_script::CliFault;
use std::convert::AsStr;
use std::fs;
use std::io::{ErrorKind, Read, Write};
use std::rt::Files;

/// Tells `errors` that the file of this name cannot be opened, for this reason. Answers the status.
fn fail_to_open<E: Write>(name: &str, why: ErrorKind, errors: &mut E) -> u8
    ensures status { result ≡ 3 }
    ensures told { TellsLine (E.contents errors.old) (E.contents errors.new) }
{
    unread_message(name, words_of(why)).tell(errors);
    3
}

/// Writes what was judged of the history of this name, and tells the errors how that ended. Answers the status.
fn end_judged<P, S, W: Write, E: Write, V>(
    job: Job,
    name: &Name<'_>,
    judged: &Judged,
    host: &mut Host<P, S, W, E, V>,
) -> u8
    requires { IsApart job name.now (Apart.Judged judged.now) }
    ensures same_output { host.new.output.ghost_name ≡ host.old.output.ghost_name }
    ensures same_errors { host.new.errors.ghost_name ≡ host.old.errors.ghost_name }
    ensures did { DidFile job name.now (W.contents host.old.output.now) (W.contents host.new.output.now)
        (E.contents host.old.errors.now) (E.contents host.new.errors.now) result }
{
    let done = write_judged(judged, host.output);
    let given = Given {
        job,
        name: name.given(),
        kept: judged.kept(),
        why: None,
    };
    tell_end(done, name, &given, &Told::new(host.alloc), host)
}

/// Does what is asked for over the file of this name, with which this was done apart, or over `input` if it is that of
/// the standard input. Answers the status.
fn do_one<P: Files + Runtime + Sync, S: Shelf, R: Read, W: Write, E: Write, V: WatchJob>(
    asked: &Asked,
    name: &Name<'_>,
    apart: Option<&Apart>,
    input: &mut Input<R>,
    host: &mut Host<P, S, W, E, V>,
) -> u8
    requires { IfSome apart (λ one. IsApart asked.now.job name.now one.now) }
    ensures same_output { host.new.output.ghost_name ≡ host.old.output.ghost_name }
    ensures same_errors { host.new.errors.ghost_name ≡ host.old.errors.ghost_name }
    ensures did { DidOver asked.now.rewrites asked.now.job name.now (R.remaining input.old) (R.remaining input.new)
        (W.contents host.old.output.now) (W.contents host.new.output.now) (E.contents host.old.errors.now)
        (E.contents host.new.errors.now) result }
{
    match (name.is_standard(), asked.rewrites) {
        (true, true) => return refuse_input(host.errors),
        (true, false) => return do_and_tell(asked.job, asked.aside, name, input, host),
        (false, true) => return rewrite_file(name, host),
        (false, false) => {}
    }
    if let Some(Apart::Judged(judged)) = apart {
        return end_judged(asked.job, name, judged, host);
    }
    match fs::open(host.process, name.given()) {
        Ok(file) => do_and_tell(asked.job, asked.aside, name, &mut Input::new(file), host),
        Err(error) => fail_to_open(name.given(), error.kind(), host.errors),
    }
}

/// The first of two statuses that is not 0, if there is one.
fn first_status(first: u8, second: u8) -> u8
    ensures { result ≡ first_status first second }
{
    if first == 0 { second } else { first }
}

/// Does what is asked for over each input of these names in turn, of which who watches is told. `input` is the standard
/// input. Histories are judged side by side before their turns. Answers the first status that is not 0, if there is one.
fn do_all<
    P: Files + Runtime + Sync,
    S: Shelf,
    R: Read,
    W: Write,
    E: Write,
    V: WatchFiles + WatchJob,
>(asked: &Asked, names: &[Name<'_>], input: &mut Input<R>, host: &mut Host<P, S, W, E, V>) -> u8
    ensures same_output { host.new.output.ghost_name ≡ host.old.output.ghost_name }
    ensures same_errors { host.new.errors.ghost_name ≡ host.old.errors.ghost_name }
    ensures did { DidAll asked.now.rewrites asked.now.job names.now
        (R.remaining input.old) (R.remaining input.new) (W.contents host.old.output.now)
        (W.contents host.new.output.now) (E.contents host.old.errors.now) (E.contents host.new.errors.now) result }
{
    let mut ahead = Ahead::new(host.alloc, host.process, asked.job, names.len());
    let mut status = 0;
    for (place, name) in names.iter().enumerate() {
        ahead.reach(host.process, asked.job, names, place);
        host.watch.file(place, names.len());
        let ended = do_one(asked, name, ahead.at(place), input, host);
        status = first_status(status, ended);
    }
    status
}

/// The program over its words, as `command` is, but for the files that they name, which are opened as the process opens
/// them: the job is done over each in turn, and over `input` for `-`, and if they name none. The status is the first
/// that is not 0. Of a file that cannot be opened the errors are told in one line, and its status is 3.
pub fn command_over_files<
    P: Files + Runtime + Sync,
    S: Shelf,
    T: AsStr,
    R: Read,
    W: Write,
    E: Write,
    V: WatchFiles + WatchJob,
>(words: &[T], input: &mut Input<R>, host: &mut Host<P, S, W, E, V>) -> u8
    ensures same_output { host.new.output.ghost_name ≡ host.old.output.ghost_name }
    ensures same_errors { host.new.errors.ghost_name ≡ host.old.errors.ghost_name }
    ensures ends { EndsIf (refusals_of (map T.text words.now))
        (DidAll (rewrites (map T.text words.now)) (job_of (map T.text words.now)) (inputs_of (files_of (map T.text words.now)))
        (R.remaining input.old) (R.remaining input.new) (W.contents host.old.output.now)
        (W.contents host.new.output.now) (E.contents host.old.errors.now) (E.contents host.new.errors.now) result)
        (R.remaining input.old) (R.remaining input.new) (W.contents host.old.output.now)
        (W.contents host.new.output.now) (E.contents host.old.errors.now) (E.contents host.new.errors.now) result }
{
    let mut room = Vec::new(host.alloc);
    match read_words(host.alloc, words, &mut room) {
        Ok(asked) => match names_of(host.alloc, asked.files.as_slice()) {
            Ok(names) => do_all(&asked, names.as_slice(), input, host),
            Err(_) => fail(CliFault::NoMemory, host.errors),
        },
        Err(error) => {
            let near = near_command(words);
            refuse(host.alloc, error, near, host.output, host.errors)
        }
    }
}
