//! `judge`: a history, judged in the form and the time that the words ask for.
ghost use Rattle.std.specs.Prelude.{◌≡◌, option_copied};
ghost use Rattle.pif_cli.specs.Names.{shown_name};
ghost use Rattle.pif_cli.specs.Words.{JudgesAs, JudgesNamed, as_judged, form_of, told_name};

use crate::names::Name;
use crate::times::Timed;
use pif_cli_messages::JobFault;
use pif_job_judge::{Form, JudgeFault, Judging, WatchLines, judge, judge_least};
use std::alloc::Global;
use std::io::{Read, Write};
use std::time::Clock;

/// The fault of a job over a history.
fn as_judged(done: Result<(), JudgeFault>) -> Result<(), JobFault>
    ensures { result ≡ as_judged done }
{
    match done {
        Ok(()) => Ok(()),
        Err(JudgeFault::Cli(fault)) => Err(JobFault::Cli(fault)),
        Err(JudgeFault::Undecided(line)) => Err(JobFault::Undecided(line)),
        Err(JudgeFault::PosixAllows(line)) => Err(JobFault::PosixAllows(line)),
        Err(JudgeFault::PosixUndefined(line)) => Err(JobFault::PosixUndefined(line)),
        Err(JudgeFault::NoCall) => Err(JobFault::NoCall),
        Err(JudgeFault::Log(line, note)) => Err(JobFault::Mistake(line, note)),
    }
}

/// The name with which a history is told, if there are several, or if a page has it in its title.
fn told_name<'n>(asked: pif_cli_words::Judging, name: &'n Name<'_>) -> Option<&'n [u8]>
    ensures { option_copied result ≡ told_name asked (shown_name name.now) }
{
    if asked.several || asked.html {
        Some(name.shown())
    } else {
        None
    }
}

/// The form in which a verdict is told.
fn form_of(asked: pif_cli_words::Judging) -> Form
    ensures { result ≡ form_of asked }
{
    if asked.html {
        Form::Page
    } else if asked.json {
        Form::Json
    } else if asked.witness {
        Form::Witness
    } else {
        Form::Text
    }
}

/// Judges a history whose name is told, if there is one: in a form, or by the rules that it needs.
fn judge_as<R: Read, W: Write, V: WatchLines>(
    alloc: Global,
    asked: pif_cli_words::Judging,
    name: Option<&[u8]>,
    input: &mut R,
    output: &mut W,
    watch: &mut V,
) -> Result<(), JudgeFault>
    ensures { JudgesAs asked (option_copied name.entry) (R.remaining input.old) (R.remaining input.new) (W.contents output.old) (W.contents output.new) result }
{
    let judging = Judging {
        name,
        form: form_of(asked),
        states: asked.states,
        allowed: asked.allowed,
        plain: asked.plain,
    };
    if asked.least {
        judge_least(alloc, &judging, input, output, watch)
    } else {
        judge(alloc, &judging, input, output, watch)
    }
}

/// Judges the history of this name, in the time that it may take by this clock.
pub fn judge_input<C: Clock, R: Read, W: Write, V: WatchLines>(
    alloc: Global,
    clock: &C,
    asked: pif_cli_words::Judging,
    name: &Name<'_>,
    input: &mut R,
    output: &mut W,
    watch: &mut V,
) -> Result<(), JobFault>
    ensures { JudgesNamed asked (shown_name name.now) (R.remaining input.old) (R.remaining input.new) (W.contents output.old) (W.contents output.new) result }
{
    let told = told_name(asked, name);
    let mut timed = Timed::new(clock, asked.seconds, watch);
    as_judged(judge_as(alloc, asked, told, input, output, &mut timed))
}
