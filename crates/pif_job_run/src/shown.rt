ghost use Rattle.std.specs.Prelude.{◌≡◌, ◌+◌, ◌≤◌, ◌++◌, ◌∷◌, [], IfErr, IfOk, Some, option_copied};
ghost use Rattle.arrayvec.specs.ArrayVec.{array_vec_len};
ghost use Rattle.pif_text_model.specs.Replies.{named_text};
ghost use Rattle.pif_script_model.specs.Scripts.{Hears};
ghost use Rattle.pif_script_model.specs.Showing.{as_done, state_behind};
ghost use Rattle.pif_job_run.specs.Shows.{later_named, named};

use pif_core::Core;
use pif_script::{ANSWER_ROOM, End, Ending, Listener, OUTPUT_ROOM, OpenFault, Output, append_end};
use pif_script_core::{obey, open_core};
use pif_text::{Cause, Command, NAMED_ROOM, Reply, Version, command_of, named_reply_text};
use std::alloc::Global;
use std::marker::Model;

/// A core that is shown while it does what a script asks, and a second one, which does the same a command later.
#[derive(Drop)]
pub struct Shown {
    core: Core,
    before: Core,
    last: Option<Command>,
}

impl Model for Shown {
    ghost use Rattle.std.specs.Prelude.{◌≡◌, option_map};
    ghost use Rattle.pif_script_model.specs.Showing.{state_behind};
    ghost use Rattle.pif_job_run.specs.Shows.{Moment};

    ghost Value = { Moment };

    ghost view = { λ s. record { before = option_map (λ last. s.before) s.last; core = s.core } };

    ghost invariant = { λ s. state_behind s.last s.before ≡ s.core };
}

impl Shown {
    /// The core.
    pub fn core(&self) -> &Core
        ensures { result.now ≡ self.now.core }
    {
        &self.core
    }

    /// The core as it was before the last command. `None` behind the first command, before which there was no core.
    pub fn before(&self) -> Option<&Core>
        ensures { option_copied result ≡ self.now.before }
    {
        match self.last {
            Some(_) => Some(&self.before),
            None => None,
        }
    }
}

/// Appends a reply with the name of the error behind it, if it is one, and LF.
fn tell_named(reply: Reply, output: &mut Output)
    requires { array_vec_len output.old + NAMED_ROOM + 1 ≤ OUTPUT_ROOM }
    ensures told { output.new.items ≡ output.old.items ++ (named_text reply ++ 10 ∷ []) }
    ensures room { array_vec_len output.new ≤ array_vec_len output.old + NAMED_ROOM + 1 }
{
    named_reply_text(reply, output);
    output.push(b'\n');
}

/// Has a core do what a command asked, if there is one.
fn follow(core: &mut Core, command: Option<Command>)
    ensures { core.new ≡ state_behind command core.old }
{
    if let Some(asked) = command {
        let _ = obey(core, asked);
    }
}

/// Has a core answer a line. Answers the command.
#[tactic(auto, unfolding(crate::specs::Shows::later_named))]
fn answer_line(core: &mut Core, line: &[u8], output: &mut Output) -> Result<Command, Ending>
    requires { array_vec_len output.old + ANSWER_ROOM ≤ OUTPUT_ROOM }
    ensures answer { Hears (later_named core.old line.now) output.old.items output.new.items
        (record { before = Some core.old; core = core.new }) (as_done result) }
    ensures after { IfOk result (λ command. state_behind (Some command) core.old ≡ core.new) }
    ensures unchanged { IfErr result (λ ending. core.new ≡ core.old) }
    ensures room { array_vec_len output.new ≤ array_vec_len output.old + ANSWER_ROOM }
{
    let Some(command) = command_of(line) else {
        return Err(Ending::Fault(Cause::Command));
    };
    let asked = command;
    match obey(core, command) {
        Some(reply) => {
            tell_named(reply, output);
            Ok(asked)
        }
        None => Err(Ending::Fault(Cause::Command)),
    }
}

impl Listener for Shown {
    ghost hearing = { named };

    #[tactic(auto, unfolding(crate::specs::Shows::first_named))]
    fn open(
        alloc: Global,
        _version: Option<Version>,
        line: &[u8],
        output: &mut Output,
    ) -> Result<Option<Shown>, OpenFault> {
        match command_of(line) {
            Some(command) => {
                let again = command;
                let (core, reply) = open_core(alloc, command)?;
                let (before, _) = open_core(alloc, again)?;
                tell_named(reply, output);
                Ok(Some(Shown {
                    core,
                    before,
                    last: None,
                }))
            }
            None => Err(OpenFault::Ended(Ending::Fault(Cause::Command))),
        }
    }

    fn hear(&mut self, line: &[u8], output: &mut Output) -> Result<(), Ending> {
        follow(&mut self.before, self.last);
        match answer_line(&mut self.core, line, output) {
            Ok(command) => {
                self.last = Some(command);
                Ok(())
            }
            Err(ending) => {
                self.last = None;
                Err(ending)
            }
        }
    }

    fn close(_number: u64, _output: &mut Output) -> Result<(), Cause> {
        Ok(())
    }

    fn report(end: End, output: &mut Output) {
        append_end(end, output);
    }
}
