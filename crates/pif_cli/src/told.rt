//! What is told of a job beside what it writes, and the jobs that have notes.
ghost use Rattle.std.specs.Prelude.{◌≡◌, [], Ok, OnOk};
ghost use Rattle.pif_script_model.specs.Running.{RunsTo};
ghost use Rattle.pif_script_model.specs.Checks.{TellsTo, check_telling};
ghost use Rattle.pif_script_model.specs.StoryShowing.{ShowsStoryTo};
ghost use Rattle.pif_story.specs.Notes.{ShowsNoting, TellsNoting};
ghost use Rattle.pif_job_run.specs.Noting.{RunsNoting};
ghost use Rattle.pif_cli.specs.Names.{shown_name};
ghost use Rattle.pif_cli.specs.Words.{EndsAsCli};

use crate::names::Name;
use pif_cli_messages::JobFault;
use pif_job_check::check_noting;
use pif_job_run::{run_noted, show_noting};
use pif_script::Notice;
use pif_script_model::Detail;
use pif_story::Notes;
use std::alloc::Global;
use std::io::{Read, Write};

/// What is kept while a job is done, and told when it has ended.
#[derive(Drop)]
pub struct Told {
    /// Where memory comes from.
    pub alloc: Global,
    /// The line that ends the job, if there is one.
    pub notice: Notice,
    /// The notes of the job.
    pub notes: Notes,
}

impl Told {
    /// Of a job that has not begun: no line, and no notes.
    pub fn new(alloc: Global) -> Told
        ensures { result.notes.items ≡ [] }
    {
        Told {
            alloc,
            notice: Notice::new(),
            notes: Notes::new(),
        }
    }

    /// Runs a script, and keeps the notes on it.
    pub fn run<R: Read, W: Write>(&mut self, input: &mut R, output: &mut W) -> Result<(), JobFault>
        ensures did { EndsAsCli (RunsTo (R.remaining input.old) (R.remaining input.new) (W.contents output.old) (W.contents output.new)) result }
        ensures noted { OnOk result (RunsNoting (R.remaining input.old) (R.remaining input.new) (W.contents output.old) (W.contents output.new) self.new.notes.items) }
    {
        match run_noted(self.alloc, input, output, &mut self.notice) {
            Ok(found) => {
                self.notes = found;
                Ok(())
            }
            Err(fault) => Err(JobFault::Cli(fault)),
        }
    }

    /// Checks the story of this name, and keeps the notes on it.
    pub fn check<R: Read, W: Write>(
        &mut self,
        name: &Name<'_>,
        input: &mut R,
        output: &mut W,
    ) -> Result<(), JobFault>
        ensures did { EndsAsCli (TellsTo (check_telling (shown_name name.now)) (R.remaining input.old) (R.remaining input.new) (W.contents output.old) (W.contents output.new)) result }
        ensures noted { OnOk result (TellsNoting (check_telling (shown_name name.now)) (R.remaining input.old) (R.remaining input.new) (W.contents output.old) (W.contents output.new) (Ok self.new.notes.items)) }
    {
        match check_noting(self.alloc, name.shown(), input, output, &mut self.notice) {
            Ok(found) => {
                self.notes = found;
                Ok(())
            }
            Err(fault) => Err(JobFault::Cli(fault)),
        }
    }

    /// Shows a story, and keeps the notes on it.
    pub fn show<R: Read, W: Write>(
        &mut self,
        detail: Detail,
        input: &mut R,
        output: &mut W,
    ) -> Result<(), JobFault>
        ensures did { EndsAsCli (ShowsStoryTo (R.remaining input.old) (R.remaining input.new) (W.contents output.old) (W.contents output.new)) result }
        ensures noted { OnOk result (ShowsNoting (R.remaining input.old) (R.remaining input.new) (W.contents output.old) (W.contents output.new) (Ok self.new.notes.items)) }
    {
        let notice = &mut self.notice;
        match show_noting(detail, self.alloc, input, output, notice) {
            Ok(found) => {
                self.notes = found;
                Ok(())
            }
            Err(fault) => Err(JobFault::Cli(fault)),
        }
    }
}
