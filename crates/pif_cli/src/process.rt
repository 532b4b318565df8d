ghost use Rattle.std.specs.Prelude.{◌≡◌, ℕ, List, Result};
ghost use Rattle.std.specs.declared.io.ErrorKind.{ErrorKind as IoErrorKind};
ghost use Rattle.pif_cli.specs.Words.{EndsOver, HadNoWords};

use crate::files::command_over_files;
use crate::hosts::{Host, Runtime};
use crate::shelves::FileShelf;
use crate::statuses::Status;
use crate::words::{fail, show};
use pif_cli_messages::{Input, Message, Output, WatchFiles, WatchJob};
use pif_script::CliFault;
use std::io::{ErrorKind, Read, Write};
use std::rt::{Env, Files};
use std::{env, io};

/// What is said if a word is no text.
const NO_TEXT: &str = "error: a word is not UTF-8\n";

/// The program over the words of a process, its name first, as `command` is over words at hand: `main` hands over the
/// process and its streams, and ends with what it is answered. The process starts the threads, and opens the files that
/// the words name: the job is done over each in turn, and over `input` for `-`, and if they name none. The status is
/// the first that is not 0. Of a file that cannot be opened `errors` is told in one line, and its status is 3. A story
/// that `pif shell` saves is a new file of the process.
///
/// If `is_terminal`, `input` is a terminal, and `pif shell` writes a prompt before each line that it reads.
///
/// `watch` is told of each file that a job begins with. Of each line of a history that `pif judge` judges it is told
/// how many states were made, and of a program that `pif explore` explores how many states and steps were found. Of
/// each line of `pif random` and each command of `pif draw` it is told that it is made. What it tells a person is no
/// part of what `errors` is told.
///
/// If the words cannot be had, nothing is read. The status is then 1 if one of them is not UTF-8, which `errors` is
/// told; 4 if it is out of memory; and 3 if they cannot be read, or if `errors` cannot be told of such a word. At 4,
/// and if the words cannot be read, `errors` is told so in one line, as by `command`.
pub fn command_of_process<
    P: Env + AllocGlobal + Files + Runtime + Sync,
    R: Read,
    W: Write,
    E: Write,
    V: WatchFiles + WatchJob,
>(
    process: &P,
    is_terminal: bool,
    input: &mut Input<R>,
    output: &mut Output<W>,
    errors: &mut E,
    watch: &mut V,
) -> Status
    ensures { (words : Result (List (List ℕ)) IoErrorKind) × EndsOver words (R.remaining input.old) (R.remaining input.new)
        (W.contents output.old) (W.contents output.new) (E.contents errors.old) (E.contents errors.new) result }
{
    match words_of(process) {
        Ok(words) => {
            let shelf = FileShelf::new(process);
            let mut host = Host {
                alloc: process.alloc(),
                process,
                shelf: &shelf,
                is_terminal,
                output,
                errors,
                watch,
                told_of_output: false,
            };
            Status::new(command_over_files(words.as_slice(), input, &mut host))
        }
        Err(error) => Status::new(refuse(error.kind(), errors)),
    }
}

/// The words of a process, its name first.
fn words_of<P: Env + AllocGlobal>(process: &P) -> io::Result<Vec<String>> {
    Ok(env::args(process)?.collect(process.alloc())?)
}

/// The status if the words cannot be had, of which `errors` is told.
fn refuse<E: Write>(kind: ErrorKind, errors: &mut E) -> u8
    ensures { HadNoWords kind (E.contents errors.old) (E.contents errors.new) result }
{
    if kind == ErrorKind::OutOfMemory {
        fail(CliFault::NoMemory, errors)
    } else if kind == ErrorKind::InvalidData {
        show(NO_TEXT, 1, errors)
    } else {
        let mut message = Message::new();
        message.say("the words cannot be read");
        message.tell(errors);
        3
    }
}
