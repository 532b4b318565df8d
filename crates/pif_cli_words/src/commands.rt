//! The program's commands, as `clap` takes them. A command is handed on as it was made, so that only `with_argument`,
//! `with_subcommand` and `with_command` ask whether memory was refused. It is large, so it is handed on in a box.
ghost use Rattle.std.specs.Prelude.{◌≡◌};
ghost use Rattle.clap.specs.Words.{App, new_app, with_rule, with_subcommand};
ghost use Rattle.pif_cli_words.specs.Commands.{IsApp, IsCommand, IsMade, command_app, with_rows};
ghost use Rattle.pif_cli_words.specs.Options.{form_rule};
ghost use Rattle.pif_cli_words.specs.Words.{bare_program, program};

use crate::helps::{ABOUT, EXAMPLE, VERSION};
use crate::options::{Form, argument};
use crate::tables::{
    Argument, CHECK, DRAW, DRIVE, EXPLORE, JUDGE, MIGRATE, RANDOM, REPLAY, RUN, SHELL, SHOW, TRACE,
    Table,
};
use std::alloc::{AllocError, Global};

/// A command while it is made, or that memory was refused.
pub type Made<'a> = Result<Box<clap::Command<'a>>, AllocError>;

/// What was made, in a box.
fn boxed<'a>(alloc: Global, made: Result<clap::Command<'a>, AllocError>) -> Made<'a>
    ensures { (app : App) → IsMade app made.entry → IsApp app result }
{
    Ok(Box::new(alloc, made?)?)
}

/// A command of this table without its arguments, with what help shows of it.
fn described<'a>(alloc: Global, table: &Table) -> Made<'a>
    ensures { IsApp (new_app table.now.name.now) result }
{
    let command = clap::Command::new(alloc, table.name)
        .about(table.about)
        .override_usage(table.usage)
        .after_help(table.more);
    boxed(alloc, Ok(command))
}

/// A command with one more argument, of this name and form.
fn with_argument<'a>(
    alloc: Global,
    made: Made<'a>,
    name: &'a str,
    help: &'a str,
    form: Form<'a>,
) -> Made<'a>
    ensures { (app : App) → IsApp app made.entry → IsApp (with_rule app (form_rule name.now form.entry)) result }
{
    match made {
        Ok(command) => {
            let arg = argument(alloc, name, help, form);
            boxed(alloc, Box::into_inner(command).arg(arg))
        }
        Err(error) => Err(error),
    }
}

/// A command with these arguments more.
fn with_arguments<'a>(alloc: Global, made: Made<'a>, rows: &'static [Argument]) -> Made<'a>
    ensures { (app : App) → IsApp app made.entry → IsApp (with_rows app rows.now) result }
{
    let mut made = made;
    let mut rest = rows;
    while let [(name, form, help), more @ ..] = rest {
        made = with_argument(alloc, made, *name, *help, *form);
        rest = more;
    }
    made
}

/// The program with this command.
fn with_subcommand<'a>(alloc: Global, pif: Made<'a>, command: Box<clap::Command<'a>>) -> Made<'a>
    ensures { (app more : App) → IsApp app pif.entry → IsCommand more command.entry.value
        → IsApp (with_subcommand app more.top) result }
{
    match pif {
        Ok(program) => {
            let program = Box::into_inner(program);
            boxed(alloc, program.subcommand(Box::into_inner(command)))
        }
        Err(error) => Err(error),
    }
}

/// The program with the command of this table.
fn with_command<'a>(alloc: Global, pif: Made<'a>, table: &Table) -> Made<'a>
    ensures { (app : App) → IsApp app pif.entry → IsApp (with_subcommand app (command_app table.now).top) result }
{
    match with_arguments(alloc, described(alloc, table), table.rows) {
        Ok(command) => with_subcommand(alloc, pif, command),
        Err(error) => Err(error),
    }
}

/// The program without its commands.
fn bare_program<'a>(alloc: Global) -> Made<'a>
    ensures { IsApp bare_program result }
{
    let command = clap::Command::new(alloc, "pif")
        .version(VERSION)
        .about(ABOUT)
        .after_help(EXAMPLE)
        .subcommand_required(true);
    boxed(alloc, Ok(command))
}

/// The program's commands.
pub fn program<'a>(alloc: Global) -> Made<'a>
    ensures { IsApp program result }
{
    let bare = bare_program(alloc);
    let run = with_command(alloc, bare, &RUN);
    let show = with_command(alloc, run, &SHOW);
    let draw = with_command(alloc, show, &DRAW);
    let shell = with_command(alloc, draw, &SHELL);
    let check = with_command(alloc, shell, &CHECK);
    let judge = with_command(alloc, check, &JUDGE);
    let explore = with_command(alloc, judge, &EXPLORE);
    let replay = with_command(alloc, explore, &REPLAY);
    let trace = with_command(alloc, replay, &TRACE);
    let migrate = with_command(alloc, trace, &MIGRATE);
    let random = with_command(alloc, migrate, &RANDOM);
    with_command(alloc, random, &DRIVE)
}
