ghost use Rattle.std.specs.Prelude.{◌≡◌, ◌+◌, ◌≤◌, ◌++◌, ◌∷◌, []};
ghost use Rattle.arrayvec.specs.ArrayVec.{array_vec_len};
ghost use Rattle.pif_text_model.specs.Replies.{text_of};
ghost use Rattle.pif_job_run.specs.Noting.{noting};

use pif_core::Core;
use pif_script::{
    ANSWER_ROOM, End, Ending, Listener, OUTPUT_ROOM, OpenFault, Output, REPLY_ROOM, append,
    append_end,
};
use pif_script_core::{obey, open_core};
use pif_story::{Known, Notes, note_at, noted, one_more};
use pif_text::{Cause, Command, Reply, Text, Version, command_of, reply_text};
use std::alloc::Global;
use std::marker::Model;

/// What a run keeps for its notes, in room that is there before the first answer.
#[derive(Drop)]
pub struct Tally {
    known: Known,
    /// The number of the next line, from 1.
    number: u32,
    notes: Notes,
}

impl Model for Tally {
    ghost use Rattle.pif_job_run.specs.Noting.{Tally};

    ghost Value = { Tally };

    ghost view = { λ s. record { known = s.known; number = s.number; notes = s.notes.items } };
}

impl Tally {
    ghost use Rattle.pif_job_run.specs.Noting.{nothing_tallied, tally_behind};

    /// Before the first line.
    fn nothing() -> Tally
        ensures { result ≡ nothing_tallied }
    {
        Tally {
            known: Known::nothing(),
            number: 1,
            notes: Notes::new(),
        }
    }

    /// Tallies a line with this command, which is answered so.
    fn add(&mut self, line: &[u8], command: Command, given: &[u8])
        ensures { self.new ≡ tally_behind self.old line.now command given.now }
    {
        let asked = command;
        if let Some(missing) = noted(&self.known, command, given) {
            note_at(&mut self.notes, u64::from(self.number), line, &missing);
        }
        self.known = self.known.behind(asked, given);
        self.number = one_more(self.number);
    }
}

/// A core that answers the lines of a script, and what is kept for the notes on them.
#[derive(Drop)]
pub struct Noting {
    core: Core,
    tally: Tally,
}

impl Model for Noting {
    ghost use Rattle.pif_job_run.specs.Noting.{Noting};

    ghost Value = { Noting };

    ghost view = { λ s. record { core = s.core; tally = s.tally } };
}

impl Noting {
    /// The notes on the lines that were answered.
    pub fn notes(self) -> Notes
        ensures { result.items ≡ self.tally.notes }
    {
        let Noting { tally, .. } = self;
        let Tally { notes, .. } = tally;
        notes
    }
}

/// A reply as a text.
fn text_of(reply: Reply) -> Text
    ensures text { result.items ≡ text_of reply }
    ensures room { array_vec_len result + 1 ≤ REPLY_ROOM }
{
    let mut text = Text::new();
    reply_text(reply, &mut text);
    text
}

/// Appends the text of a reply, and LF.
fn tell(text: &Text, output: &mut Output)
    requires { array_vec_len output.old + array_vec_len text.now + 1 ≤ OUTPUT_ROOM }
    ensures told { output.new.items ≡ output.old.items ++ (text.now.items ++ 10 ∷ []) }
    ensures room { array_vec_len output.new ≤ array_vec_len output.old + array_vec_len text.now + 1 }
{
    append(output, text.as_slice());
    output.push(b'\n');
}

impl Listener for Noting {
    ghost hearing = { noting };

    #[tactic(auto, unfolding(crate::specs::Noting::first_noted))]
    fn open(
        alloc: Global,
        _version: Option<Version>,
        line: &[u8],
        output: &mut Output,
    ) -> Result<Option<Noting>, OpenFault> {
        let Some(command) = command_of(line) else {
            return Err(OpenFault::Ended(Ending::Fault(Cause::Command)));
        };
        let asked = command;
        let (core, reply) = open_core(alloc, command)?;
        let given = text_of(reply);
        let mut tally = Tally::nothing();
        tally.add(line, asked, given.as_slice());
        tell(&given, output);
        Ok(Some(Noting { core, tally }))
    }

    #[tactic(auto, unfolding(crate::specs::Noting::later_noted))]
    fn hear(&mut self, line: &[u8], output: &mut Output) -> Result<(), Ending> {
        let Some(command) = command_of(line) else {
            return Err(Ending::Fault(Cause::Command));
        };
        let asked = command;
        let Some(reply) = obey(&mut self.core, command) else {
            return Err(Ending::Fault(Cause::Command));
        };
        let given = text_of(reply);
        self.tally.add(line, asked, given.as_slice());
        tell(&given, output);
        Ok(())
    }

    fn close(_number: u64, _output: &mut Output) -> Result<(), Cause> {
        Ok(())
    }

    fn report(end: End, output: &mut Output) {
        append_end(end, output);
    }
}
