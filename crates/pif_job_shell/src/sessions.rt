ghost use Rattle.std.specs.Prelude.{◌≡◌, ◌<◌, ◌≤◌, ◌+◌, ◌++◌, ◌∷◌, [], List, All, IfErr, IfOk, OnOk, Ok, Err, None, Some, length, map, take, drop, is_some, vec_len, vec_capacity, option_copied};
ghost use Rattle.pif_model.specs.Table.{Table};
ghost use Rattle.pif_text_model.specs.CommandTexts.{IsWritten};
ghost use Rattle.pif_script_model.specs.CommandLines.{command_line, script_lines};
ghost use Rattle.pif_job_shell.specs.Sessions.{AnswersCommand, AnswersAsRuns, HasNoRoom, KeepsRuns, Leaves, PlaysAgain, PlaysBehind, TakesAll, nothing_kept};

use pif_core::{Core, Event};
use pif_script::{Ending, OpenFault};
use pif_script_core::{obey, open_core};
use pif_text::{
    Addition, Cause, Command, Question, Reply, Text, command_text, commands_of_lines_are_written,
};
use pif_text_errors::{SyntaxError, read_command};
use pif_types::{Request, push_within};
use std::alloc::{AllocError, Global};
use std::marker::Model;

/// The most commands of a session: the script of so many has at most 16 MiB.
const MOST_COMMANDS: usize = 131_072;

/// Why a command was not accepted.
#[derive(Clone, Copy)]
pub enum Unplayed {
    /// It is a fault: `Command` for `limits` behind the first command, `Limits` for one with a number out of its range.
    Fault(Cause),
    /// The session has 131,072 commands already.
    Full,
    /// A growth of memory was refused.
    NoMemory,
}

/// Why a line was not accepted.
#[derive(Clone, Copy)]
pub enum Refusal<'a> {
    /// It is no command.
    SyntaxError(SyntaxError<'a>),
    /// Its command was not accepted.
    Unplayed(Unplayed),
}

/// Why commands were not taken back.
#[derive(Clone, Copy)]
pub enum NotUndone {
    /// There are fewer.
    Fewer,
    /// A growth of memory was refused.
    NoMemory,
}

/// Why no command was given again.
#[derive(Clone, Copy)]
pub enum NotRedone {
    /// None was taken back, or a command was given since.
    Nothing,
    /// A growth of memory was refused.
    NoMemory,
}

/// A script while it is written, one command after the other, and the core behind it. The script has no fault, and the
/// core is the one that a run of it leaves: `sessions_are_runs`. Behind the commands that stand are those that were taken
/// back.
#[derive(Drop)]
pub struct Session {
    commands: Vec<Command>,
    standing: usize,
    core: Option<Core>,
}

impl Model for Session {
    ghost use Rattle.std.specs.Prelude.{take, drop};
    ghost use Rattle.pif_job_shell.specs.Sessions.{IsStanding, Kept};

    ghost Value = { Kept };

    ghost view = { λ s. record { commands = take s.standing s.commands.items; undone = drop s.standing s.commands.items; core = s.core } };

    ghost invariant = { λ s. IsStanding s.commands.items s.standing s.core };
}

/// What a command is answered by the core, or as the first one, which makes it.
///
/// # Errors
///
/// `Fault` with the cause, and `NoMemory`; `core` is then unchanged.
fn answer(alloc: Global, core: &mut Option<Core>, command: Command) -> Result<Reply, Unplayed>
    ensures { AnswersCommand command core.old core.new result }
{
    match core {
        Some(core) => match obey(core, command) {
            Some(reply) => Ok(reply),
            None => Err(Unplayed::Fault(Cause::Command)),
        },
        None => match open_core(alloc, command) {
            Ok((made, reply)) => {
                *core = Some(made);
                Ok(reply)
            }
            Err(OpenFault::Ended(Ending::Fault(cause))) => Err(Unplayed::Fault(cause)),
            Err(OpenFault::Ended(Ending::Differs(_)) | OpenFault::NoMemory) => {
                Err(Unplayed::NoMemory)
            }
        },
    }
}

/// Makes room for one command more behind the first so many.
fn make_room(commands: &mut Vec<Command>, standing: usize) -> Result<(), Unplayed>
    requires { standing ≤ vec_len commands.old }
    ensures items { commands.new.items ≡ commands.old.items }
    ensures room { OnOk result (vec_len commands.new < vec_capacity commands.new) }
    ensures full { OnOk result (standing < 131072) }
    ensures why { IfErr result (λ why. HasNoRoom standing why) }
{
    if standing >= MOST_COMMANDS {
        return Err(Unplayed::Full);
    }
    match commands.try_reserve(1) {
        Ok(()) => Ok(()),
        Err(_) => Err(Unplayed::NoMemory),
    }
}

/// Puts a command behind the first so many, in place of what stands there.
fn put_behind(commands: &mut Vec<Command>, standing: usize, command: Command)
    requires within { standing ≤ vec_len commands.old }
    requires room { vec_len commands.old < vec_capacity commands.old }
    ensures { commands.new.items ≡ take standing commands.old.items ++ command ∷ [] }
{
    // The types that a command has inside are named, so that the borrow checker finds them.
    let _inside: Option<(Addition, Event, Question, Request)> = None;
    commands.truncate(standing);
    push_within(commands, command);
}

/// Has a command answered, and keeps it behind the first so many. Nothing changes if it is not accepted.
fn play(
    alloc: Global,
    commands: &mut Vec<Command>,
    standing: &mut usize,
    core: &mut Option<Core>,
    command: Command,
) -> Result<Reply, Unplayed>
    requires { standing.old ≤ vec_len commands.old }
    ensures { PlaysBehind command standing.old commands.old.items core.old standing.new commands.new.items core.new result }
{
    // The types that a command has inside are named, so that the borrow checker finds them.
    let _inside: Option<(Addition, Event, Question, Request)> = None;
    let kept = command;
    make_room(commands, *standing)?;
    let reply = answer(alloc, core, command)?;
    put_behind(commands, *standing, kept);
    *standing += 1;
    Ok(reply)
}

/// Has the command answered again that stands behind the first so many, if there is one. Nothing changes if it is not
/// accepted.
fn play_again(
    alloc: Global,
    commands: &[Command],
    standing: &mut usize,
    core: &mut Option<Core>,
) -> Result<(Command, Reply), NotRedone>
    ensures { PlaysAgain commands.now standing.old core.old standing.new core.new result }
{
    if *standing >= commands.len() {
        return Err(NotRedone::Nothing);
    }
    let command = commands[*standing];
    let asked = command;
    match answer(alloc, core, command) {
        Ok(reply) => {
            *standing += 1;
            Ok((asked, reply))
        }
        Err(_) => Err(NotRedone::NoMemory),
    }
}

/// The core behind these commands, which have no fault.
fn replayed(alloc: Global, commands: &[Command]) -> Result<Option<Core>, NotUndone>
    ensures left { IfOk result (λ core. Leaves None commands.now core) }
    ensures failed { IfErr result (λ why. why ≡ NotUndone.NoMemory) }
{
    let mut core = None;
    for command in commands {
        match answer(alloc, &mut core, *command) {
            Ok(_) => {}
            Err(_) => return Err(NotUndone::NoMemory),
        }
    }
    Ok(core)
}

impl Session {
    ghost use Rattle.pif_job_shell.specs.Sessions.{Redoes, TakesLine, Undoes, nothing_kept};

    /// A session with no command.
    pub fn new(alloc: Global) -> Session
        ensures { result ≡ nothing_kept }
    {
        Session {
            commands: Vec::new(alloc),
            standing: 0,
            core: None,
        }
    }

    /// How many commands were accepted.
    pub fn len(&self) -> usize
        ensures { result ≡ length self.now.commands }
    {
        self.standing
    }

    /// The command that was taken back last, if no command was given since.
    pub fn undone(&self) -> Option<&Command> {
        self.commands.get(self.standing)
    }

    /// The last command, if there is one.
    pub fn last(&self) -> Option<&Command> {
        self.commands.get(self.standing.checked_sub(1)?)
    }

    /// The core behind the commands, or `None` before the first.
    pub fn core(&self) -> Option<&Core>
        ensures { option_copied result ≡ self.now.core }
    {
        match &self.core {
            Some(core) => Some(core),
            None => None,
        }
    }

    /// Has the command of a line answered, and keeps it: the answer is what `run` prints for it behind the commands so
    /// far. The line is given as its bytes without the line feed; any bytes and any length may be given.
    ///
    /// # Errors
    ///
    /// Why the line was not accepted; nothing has changed then.
    #[tactic(auto, using(crate::proofs::SessionLemmas::take_placed, crate::proofs::SessionLemmas::drop_placed, crate::proofs::SessionLemmas::length_taken))]
    pub fn take<'a>(&mut self, alloc: Global, line: &'a [u8]) -> Result<Reply, Refusal<'a>>
        ensures { TakesLine line.now self.old self.new result }
    {
        commands_of_lines_are_written();
        match read_command(line) {
            Ok(command) => {
                match play(
                    alloc,
                    &mut self.commands,
                    &mut self.standing,
                    &mut self.core,
                    command,
                ) {
                    Ok(reply) => Ok(reply),
                    Err(why) => Err(Refusal::Unplayed(why)),
                }
            }
            Err(syntax_error) => Err(Refusal::SyntaxError(syntax_error)),
        }
    }

    /// Takes the last so many commands back: the others are played again from the start.
    ///
    /// # Errors
    ///
    /// `Fewer` if there are not so many, and `NoMemory`; nothing has changed then.
    pub fn undo(&mut self, alloc: Global, count: usize) -> Result<(), NotUndone>
        ensures { Undoes count self.old self.new result }
    {
        if count > self.standing {
            return Err(NotUndone::Fewer);
        }
        let left = self.standing - count;
        match replayed(alloc, &self.commands.as_slice()[..left]) {
            Ok(core) => {
                self.core = core;
                self.standing = left;
                Ok(())
            }
            Err(why) => Err(why),
        }
    }

    /// Gives the command again that was taken back last. Answers it, and what it is answered.
    ///
    /// # Errors
    ///
    /// `Nothing` if none was taken back, or a command was given since, and `NoMemory`; nothing has changed then.
    pub fn redo(&mut self, alloc: Global) -> Result<(Command, Reply), NotRedone>
        ensures { Redoes self.old self.new result }
    {
        play_again(
            alloc,
            self.commands.as_slice(),
            &mut self.standing,
            &mut self.core,
        )
    }

    /// The commands as a script: a line for each. It has at most 16,777,216 bytes.
    ///
    /// # Errors
    ///
    /// A growth of memory was refused.
    pub fn script(&self, alloc: Global) -> Result<Vec<u8>, AllocError>
        ensures lines { IfOk result (λ script. script.items ≡ script_lines self.now.commands) }
        ensures within { IfOk result (λ script. length script.items ≤ 16777216) }
    {
        script_of(alloc, &self.commands.as_slice()[..self.standing])
    }
}

/// The line that was not accepted of those of a script that is loaded, from 1, and why.
#[derive(Clone, Copy)]
pub struct NotLoaded<'a> {
    /// The number of the line.
    pub number: u64,
    /// Why it was not accepted.
    pub refusal: Refusal<'a>,
}

/// A session that takes each of these lines, one after the other.
///
/// # Errors
///
/// Why the first line was not accepted that was not.
pub fn session_of<'a>(alloc: Global, lines: &[&'a [u8]]) -> Result<Session, NotLoaded<'a>>
    ensures { IfOk result (λ session. TakesAll (map (λ line. line.now) lines.now) nothing_kept session) }
{
    let mut session = Session::new(alloc);
    let mut number = 0_u64;
    for line in lines {
        number = number.saturating_add(1);
        match session.take(alloc, *line) {
            Ok(_) => {}
            Err(refusal) => return Err(NotLoaded { number, refusal }),
        }
    }
    Ok(session)
}

/// Appends a command as a line.
fn append_command(script: &mut Vec<u8>, command: Command) -> Result<(), AllocError>
    ensures { OnOk result (script.new.items ≡ script.old.items ++ command_line command) }
{
    let mut text = Text::new();
    command_text(command, &mut text);
    text.push(b'\n');
    script.extend_from_slice(text.as_slice())
}

/// Commands as the lines of a script.
fn script_of(alloc: Global, commands: &[Command]) -> Result<Vec<u8>, AllocError>
    ensures { IfOk result (λ script. script.items ≡ script_lines commands.now) }
{
    let mut script = Vec::new(alloc);
    for command in commands {
        append_command(&mut script, *command)?;
    }
    Ok(script)
}

/// What a session keeps is a script: a run of it has no fault, and leaves the core of the session; and what the session
/// answered its last command is what the run prints for it.
pub fn sessions_are_runs()
    ensures runs { KeepsRuns }
    ensures answers { AnswersAsRuns }
{}
