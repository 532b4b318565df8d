ghost use Rattle.std.specs.Prelude.{◌≡◌, ℕ, List, None, Result, true};
ghost use Rattle.pif_script_model.specs.Running.{RunsTo};
ghost use Rattle.pif_script_model.specs.Traces.{ReplaysTo};
ghost use Rattle.pif_script_model.specs.declared.faults.CliFault.{CliFault};
ghost use Rattle.pif_script_model.specs.Checks.{TellsTo, check_telling};
ghost use Rattle.pif_job_judge.specs.declared.faults.JudgeFault.{JudgeFault};
ghost use Rattle.pif_rules_model.specs.Sets.{no_rules, posix_rules};
ghost use Rattle.pif_c.specs.Texts.{fault_number, ended_number, judged_number, form_of, JudgesAlone, LeastAlone, Wholly, HandsOut, IsHandedOut};

use pif_c_numbers::codes::{
    DIFFERS, FAULT, MISTAKE, OUT_OF_MEMORY, UNDECIDED, UNREAD, UNWRITTEN, WHOLE,
};
use pif_job_judge::{Form, JudgeFault, Judging, Unwatched};
use pif_rules::{no_rules, posix_rules};
use pif_script_model::CliFault;
use std::alloc::Global;

/// How a text came out.
#[repr(C)]
#[derive(Clone, Copy, Drop)]
pub struct PifText {
    /// How the job ended (`enum pif_ended_by`).
    pub ended: u32,
    /// How many bytes its text has. If the room is smaller, no byte of it was written.
    pub wanted: usize,
}

/// The number of a fault.
pub(crate) fn fault_number(fault: CliFault) -> u32
    ensures { result ≡ fault_number fault }
{
    match fault {
        CliFault::Script(_, _) => FAULT,
        CliFault::Differs(_) => DIFFERS,
        CliFault::NoMemory => OUT_OF_MEMORY,
        CliFault::Write => UNWRITTEN,
        CliFault::Read => UNREAD,
    }
}

/// The number of how a job ended.
pub(crate) fn ended_number(done: Result<(), CliFault>) -> u32
    ensures { result ≡ ended_number done }
{
    match done {
        Ok(()) => WHOLE,
        Err(fault) => fault_number(fault),
    }
}

/// The number of how judging a history ended.
fn judged_number(done: Result<(), JudgeFault>) -> u32
    ensures { result ≡ judged_number done }
{
    match done {
        Ok(()) => WHOLE,
        Err(JudgeFault::Cli(fault)) => fault_number(fault),
        Err(JudgeFault::Undecided(_)) | Err(JudgeFault::NoCall) => UNDECIDED,
        // POSIX isn't asked.
        Err(JudgeFault::PosixAllows(_) | JudgeFault::PosixUndefined(_)) => DIFFERS,
        Err(JudgeFault::Log(_, _)) => MISTAKE,
    }
}

/// Writes a text to the start of `out`, if there is room for all of it; else `out` stays as it is.
pub(crate) fn hand_out(text: &Vec<u8>, ended: u32, out: &mut [u8]) -> PifText
    ensures { IsHandedOut text.now.items ended out.old out.new result }
{
    let wanted = text.len();
    if wanted <= out.len() {
        out[..wanted].copy_from_slice(text.as_slice());
    }
    PifText { ended, wanted }
}

/// Runs a script into memory of its own.
fn run_whole(alloc: Global, script: &[u8]) -> (Vec<u8>, Result<(), CliFault>)
    ensures { Wholly RunsTo script.now result.0.items result.1 }
{
    let mut reader = script;
    let mut text = Vec::new(alloc);
    let done = pif_script_core::run(alloc, &mut reader, &mut text);
    (text, done)
}

/// Replays a trace into memory of its own.
fn replay_whole(alloc: Global, trace: &[u8]) -> (Vec<u8>, Result<(), CliFault>)
    ensures { Wholly ReplaysTo trace.now result.0.items result.1 }
{
    let mut reader = trace;
    let mut text = Vec::new(alloc);
    let done = pif_job_replay::replay(alloc, &mut reader, &mut text);
    (text, done)
}

/// Checks a story into memory of its own.
fn check_whole(alloc: Global, name: &[u8], story: &[u8]) -> (Vec<u8>, Result<(), CliFault>)
    ensures { Wholly (TellsTo (check_telling name.now)) story.now result.0.items result.1 }
{
    let mut reader = story;
    let mut text = Vec::new(alloc);
    let done = pif_job_check::check(alloc, name, &mut reader, &mut text);
    (text, done)
}

/// The form in which a verdict is told.
fn form_of(witness: bool) -> Form
    ensures { result ≡ form_of witness }
{
    if witness { Form::Witness } else { Form::Text }
}

/// Judges a history into memory of its own.
fn judge_whole(
    alloc: Global,
    asked: &Judging<'_>,
    history: &[u8],
) -> (Vec<u8>, Result<(), JudgeFault>)
    requires nameless { asked.now.name ≡ None }
    requires plain { asked.now.plain ≡ true }
    ensures { Wholly (JudgesAlone asked.now.form asked.now.allowed) history.now result.0.items result.1 }
{
    let mut reader = history;
    let mut text = Vec::new(alloc);
    let done = pif_job_judge::judge(alloc, asked, &mut reader, &mut text, &mut Unwatched);
    (text, done)
}

/// Looks for the rules that a history needs, into memory of its own.
fn least_whole(
    alloc: Global,
    asked: &Judging<'_>,
    history: &[u8],
) -> (Vec<u8>, Result<(), JudgeFault>)
    requires nameless { asked.now.name ≡ None }
    requires plain { asked.now.plain ≡ true }
    ensures { Wholly (LeastAlone asked.now.allowed) history.now result.0.items result.1 }
{
    let mut reader = history;
    let mut text = Vec::new(alloc);
    let done = pif_job_judge::judge_least(alloc, asked, &mut reader, &mut text, &mut Unwatched);
    (text, done)
}

/// Runs a script, and writes what `pif run` prints to the start of `out`, if there is room for all of it; else `out`
/// stays as it is.
#[unsafe(no_mangle)]
pub extern "C" fn pif_run(alloc: Global, script: &[u8], out: &mut [u8]) -> PifText
    ensures { HandsOut RunsTo ended_number script.now out.old out.new result }
{
    let (text, done) = run_whole(alloc, script);
    hand_out(&text, ended_number(done), out)
}

/// Replays a trace, and writes what `pif replay` prints to the start of `out`, if there is room for all of it; else
/// `out` stays as it is.
#[unsafe(no_mangle)]
pub extern "C" fn pif_replay(alloc: Global, trace: &[u8], out: &mut [u8]) -> PifText
    ensures { HandsOut ReplaysTo ended_number trace.now out.old out.new result }
{
    let (text, done) = replay_whole(alloc, trace);
    hand_out(&text, ended_number(done), out)
}

/// Checks a story of this name, and writes what `pif check` prints to the start of `out`, if there is room for all of
/// it; else `out` stays as it is.
#[unsafe(no_mangle)]
pub extern "C" fn pif_check(alloc: Global, name: &[u8], story: &[u8], out: &mut [u8]) -> PifText
    ensures { HandsOut (TellsTo (check_telling name.now)) ended_number story.now out.old out.new result }
{
    let (text, done) = check_whole(alloc, name, story);
    hand_out(&text, ended_number(done), out)
}

/// Judges a history, with at most so many states made for a line, and writes what `pif judge --plain` prints, with the
/// witness of a legal one if that is asked for, to the start of `out`, if there is room for all of it; else `out` stays as
/// it is.
#[unsafe(no_mangle)]
pub extern "C" fn pif_judge(
    alloc: Global,
    history: &[u8],
    states: u32,
    witness: bool,
    out: &mut [u8],
) -> PifText
    ensures { HandsOut (JudgesAlone (form_of witness) no_rules) judged_number history.now out.old out.new result }
{
    let asked = Judging {
        name: None,
        form: form_of(witness),
        states,
        allowed: no_rules(),
        plain: true,
    };
    let (text, done) = judge_whole(alloc, &asked, history);
    hand_out(&text, judged_number(done), out)
}

/// Looks for the rules of POSIX that a history needs to be legal, with at most so many states made for a line, and writes
/// what `pif judge --allow posix --least` prints to the start of `out`, if there is room for all of it; else `out` stays as
/// it is.
#[unsafe(no_mangle)]
pub extern "C" fn pif_least(alloc: Global, history: &[u8], states: u32, out: &mut [u8]) -> PifText
    ensures { HandsOut (LeastAlone posix_rules) judged_number history.now out.old out.new result }
{
    let asked = Judging {
        name: None,
        form: Form::Text,
        states,
        allowed: posix_rules(),
        plain: true,
    };
    let (text, done) = least_whole(alloc, &asked, history);
    hand_out(&text, judged_number(done), out)
}
