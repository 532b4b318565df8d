//! Jobs: what the words ask for, and over which files.
ghost use Rattle.std.specs.Prelude.{◌≡◌, [], IfOk, Some, map};
ghost use Rattle.clap.specs.Words.{FailsBy, found_of, rows_of};
ghost use Rattle.pif_cli_words.specs.Words.{aside_in, aside_of, refusals_of, job_of, job_named, checking_in, rewrites, rewrites_by, files_in, files_of, first_name, drawn_in, exploring_in, followed_in, histories_in, judging_in, shown_in};

use crate::clashes::clash_in;
use crate::commands::program;
use crate::defaults::complete;
use crate::options::{
    has_several, is_given, is_named, number_if_given, small_number_between, value_in,
};
use crate::random::{Recipe, recipe_in};
use crate::rules::allowed_in;
use pif_rules_model::Rules;
use pif_script_model::{Detail, Picture};
use std::alloc::{AllocError, Global};
use std::convert::AsStr;

/// The name of the standard input.
pub const STANDARD_NAME: &str = "-";

/// How histories are judged.
#[derive(Clone, Copy)]
pub struct Judging {
    /// Whether a run of a legal history is written for a person.
    pub witness: bool,
    /// Whether lines of JSON are written.
    pub json: bool,
    /// Whether a page is written.
    pub html: bool,
    /// Whether the rules are told that each history needs.
    pub least: bool,
    /// Whether POSIX isn't asked.
    pub plain: bool,
    /// How many states may be made for a line.
    pub states: u32,
    /// After how many seconds the search for a run of a history is given up, 1 to 86,400, if at all.
    pub seconds: Option<u32>,
    /// How many histories are judged side by side at most, 1 to 64; as many as there are processors if it isn't said.
    pub jobs: Option<u32>,
    /// Whether there are several files, so that the name of each is told.
    pub several: bool,
    /// The rules that hold beside those of each history.
    pub allowed: Rules,
}

/// How a history is followed.
#[derive(Clone, Copy)]
pub struct Followed {
    /// So many lines at least are judged at a time.
    pub least: u32,
    /// How many states may be made for a line.
    pub states: u32,
}

/// How programs are explored.
#[derive(Clone, Copy)]
pub struct Exploring {
    /// Whether a schedule of each outcome is written.
    pub witness: bool,
    /// Whether each answer of an outcome stands behind its call.
    pub calls: bool,
    /// Whether the answers of calls are left out of states and outcomes.
    pub claims: bool,
    /// Whether lines of JSON are written.
    pub json: bool,
    /// Whether a page is written.
    pub html: bool,
    /// Whether a fault ends as a claim does that is broken.
    pub strict: bool,
    /// How many states may be kept.
    pub states: u32,
    /// After how many seconds the search is given up, 1 to 86,400, if at all.
    pub seconds: Option<u32>,
    /// How many schedules are played on a core of their own, 1 to 1,000,000, if any are.
    pub core: Option<u32>,
}

/// What of a story is drawn, and how.
#[derive(Clone, Copy)]
pub struct Drawn {
    /// Whether it is a page with the states after the commands, and not an image alone.
    pub html: bool,
    /// The first line whose command is drawn; 0 if none is named, and then it is the first of all.
    pub from: u32,
    /// The last one; 0 if none is named, and then it is the last of all.
    pub to: u32,
}

/// What the words ask the program to do.
#[derive(Clone, Copy)]
pub enum Job {
    /// `run`: run a script.
    Run,
    /// `replay`: replay a trace.
    Replay,
    /// `trace`: write the trace of a script or a story.
    Trace,
    /// `migrate`: write a trace as one of version 2.
    Migrate,
    /// `show`: run a script or a story, and show it to a person, with what changes by each line, or by `--all` with all
    /// there is.
    Show(Detail),
    /// `show --json` and `show --dot`: make a picture of a story.
    Picture(Picture),
    /// `draw`: draw a story.
    Draw(Drawn),
    /// `shell`: answer a script while a person types it.
    Shell,
    /// `check`: check a story.
    Check,
    /// `check --strict`: check a story, and want an answer beside each refusal.
    Strict,
    /// `check --print`, and `check --write` for what is written into the file: fill a story in.
    Fill,
    /// `check --print` over several files: fill each story in, after a comment with its name.
    FillSeveral,
    /// `judge`: say whether a history is legal.
    Judge(Judging),
    /// `judge --split`: write a history in parts, each but the last with at least so many lines.
    Split(u32),
    /// `judge --joined`: say the verdict on a history by those on its parts.
    Joined,
    /// `judge --follow`: judge a history while it is read.
    Follow(Followed),
    /// `explore`: tell all outcomes of small programs.
    Explore(Exploring),
    /// `random`: write a random script.
    Random(Recipe),
    /// `drive`: let so many clients make calls in threads of their own.
    Drive(u32),
}

/// What the words ask for.
#[derive(Drop)]
pub struct Asked<'a> {
    /// The job.
    pub job: Job,
    /// The files over which it is to be done, in their order; none if it is the standard input.
    pub files: Vec<&'a str>,
    /// The folder of `judge --split`, or the index of `judge --joined`; no byte for any other job.
    pub aside: &'a str,
    /// Whether what is made of each file is to take its place.
    pub rewrites: bool,
}

/// The files that are given to a command.
fn files_in<'a>(alloc: Global, given: &clap::ArgMatches<'a>) -> Result<Vec<&'a str>, AllocError>
    ensures { IfOk result (λ files. map (λ file. file.now) files.items ≡ files_in (rows_of (found_of given.now))) }
{
    match given.get_strs("FILE") {
        Some(files) => Ok(Vec::from_slice(alloc, files)?),
        None => Ok(Vec::new(alloc)),
    }
}

/// The job that the words ask for, the program's name first, and the files over which it is to be done. `room`, which is
/// empty at first, gets the words with the numbers that were left out.
pub fn read_words<'r, 'a, S: AsStr>(
    alloc: Global,
    words: &'a [S],
    room: &'r mut Vec<&'a str>,
) -> Result<Asked<'r>, clap::Error>
    requires { room.old.items ≡ [] }
    ensures refusals { FailsBy (refusals_of (map S.text words.now)) result }
    ensures job { IfOk result (λ asked. asked.job ≡ job_of (map S.text words.now)) }
    ensures files { IfOk result (λ asked. map (λ file. file.now) asked.files.items ≡ files_of (map S.text words.now)) }
    ensures rewrites { IfOk result (λ asked. asked.rewrites ≡ rewrites (map S.text words.now)) }
    ensures aside { IfOk result (λ asked. asked.aside.now ≡ aside_of (map S.text words.now)) }
{
    complete(words, room)?;
    let pif = Box::into_inner(program(alloc)?);
    let matches = pif.try_get_matches_from(room.as_slice())?;
    match matches.subcommand() {
        Some((name, given)) => match clash_in(name, given) {
            Some(clash) => Err(clash.error(alloc)),
            None => Ok(Asked {
                job: job_named(name, given),
                files: files_in(alloc, given)?,
                aside: aside_in(given),
                rewrites: rewrites(name, given),
            }),
        },
        None => Ok(Asked {
            job: Job::Run,
            files: Vec::new(alloc),
            aside: "",
            rewrites: false,
        }),
    }
}

/// Whether what a command of this name makes of each file is to take its place, by what was given to it.
fn rewrites(name: &str, given: &clap::ArgMatches) -> bool
    ensures { result ≡ rewrites_by (Some (name.now, rows_of (found_of given.now))) }
{
    name == "check" && is_given(given, "write")
}

/// How `show` is to show a script: for a person, or as a picture that its flags name. Of several flags the first of
/// `--json`, `--dot` and `--all` counts.
fn shown_in(given: &clap::ArgMatches) -> Job
    ensures { result ≡ shown_in (rows_of (found_of given.now)) }
{
    if is_given(given, "json") {
        Job::Picture(Picture::States)
    } else if is_given(given, "dot") {
        Job::Picture(Picture::Graph)
    } else if is_given(given, "all") {
        Job::Show(Detail::All)
    } else {
        Job::Show(Detail::Changes)
    }
}

/// How `judge` is to judge its histories.
fn judging_in(given: &clap::ArgMatches) -> Judging
    ensures { result ≡ judging_in (rows_of (found_of given.now)) }
{
    Judging {
        witness: is_given(given, "witness"),
        json: is_given(given, "json"),
        html: is_given(given, "html"),
        least: is_given(given, "least"),
        plain: is_given(given, "plain"),
        states: small_number_between(given, "states", 1, 16_777_216),
        seconds: number_if_given(given, "seconds", 0, 86_400),
        jobs: number_if_given(given, "jobs", 1, 64),
        several: has_several(given),
        allowed: allowed_in(given),
    }
}

/// How `judge` is to follow a history.
fn followed_in(given: &clap::ArgMatches) -> Followed
    ensures { result ≡ followed_in (rows_of (found_of given.now)) }
{
    Followed {
        least: small_number_between(given, "lines", 1, u32::MAX),
        states: small_number_between(given, "states", 1, 16_777_216),
    }
}

/// What `judge` does with its histories. Two of `--split`, `--joined` and `--follow` at once were refused before.
fn histories_in(given: &clap::ArgMatches) -> Job
    ensures { result ≡ histories_in (rows_of (found_of given.now)) }
{
    if is_named(given, "split") {
        Job::Split(small_number_between(given, "lines", 1, u32::MAX))
    } else if is_named(given, "joined") {
        Job::Joined
    } else if is_given(given, "follow") {
        Job::Follow(followed_in(given))
    } else {
        Job::Judge(judging_in(given))
    }
}

/// The folder or the index that is given to a command, if one is.
fn aside_in<'a>(given: &clap::ArgMatches<'a>) -> &'a str
    ensures { result.now ≡ aside_in (rows_of (found_of given.now)) }
{
    if let Some(folder) = value_in(given, "split") {
        return folder;
    }
    value_in(given, "joined").unwrap_or("")
}

/// How `explore` is to explore its programs.
fn exploring_in(given: &clap::ArgMatches) -> Exploring
    ensures { result ≡ exploring_in (rows_of (found_of given.now)) }
{
    Exploring {
        witness: is_given(given, "witness"),
        calls: is_given(given, "calls"),
        claims: is_given(given, "claims"),
        json: is_given(given, "json"),
        html: is_given(given, "html"),
        strict: is_given(given, "strict"),
        states: small_number_between(given, "states", 1, 16_777_216),
        seconds: number_if_given(given, "seconds", 0, 86_400),
        core: number_if_given(given, "core", 1, 1_000_000),
    }
}

/// What `draw` is to draw.
fn drawn_in(given: &clap::ArgMatches) -> Drawn
    ensures { result ≡ drawn_in (rows_of (found_of given.now)) }
{
    Drawn {
        html: is_given(given, "html"),
        from: small_number_between(given, "from", 1, u32::MAX),
        to: small_number_between(given, "to", 1, u32::MAX),
    }
}

/// What `check` does with its stories: those that are written into their files are filled in. Two of its flags at once
/// were refused before.
fn checking_in(given: &clap::ArgMatches) -> Job
    ensures { result ≡ checking_in (rows_of (found_of given.now)) }
{
    if is_given(given, "write") {
        Job::Fill
    } else if is_given(given, "print") && has_several(given) {
        Job::FillSeveral
    } else if is_given(given, "print") {
        Job::Fill
    } else if is_given(given, "strict") {
        Job::Strict
    } else {
        Job::Check
    }
}

/// The job of a command's name, with what was given to it.
fn job_named(name: &str, given: &clap::ArgMatches) -> Job
    ensures { result ≡ job_named name.now (rows_of (found_of given.now)) }
{
    if name == "replay" {
        Job::Replay
    } else if name == "trace" {
        Job::Trace
    } else if name == "migrate" {
        Job::Migrate
    } else if name == "show" {
        shown_in(given)
    } else if name == "draw" {
        Job::Draw(drawn_in(given))
    } else if name == "shell" {
        Job::Shell
    } else if name == "check" {
        checking_in(given)
    } else if name == "judge" {
        histories_in(given)
    } else if name == "explore" {
        Job::Explore(exploring_in(given))
    } else if name == "random" {
        Job::Random(recipe_in(given))
    } else if name == "drive" {
        Job::Drive(small_number_between(given, "N", 1, 64))
    } else {
        Job::Run
    }
}

/// The name of the one input: that of the first file, if there is one.
pub fn first_name<'a>(files: &[&'a str]) -> &'a str
    ensures { result.now ≡ first_name (map (λ file. file.now) files.now) }
{
    match files {
        [] => STANDARD_NAME,
        [file, ..] => *file,
    }
}
