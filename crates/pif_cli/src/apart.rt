//! Histories that are judged side by side, in threads, each into a text of its own. What is written, and in which order,
//! is as of one after the other.
ghost use Rattle.std.specs.Prelude.{◌≡◌, ◌<◌, ◌≤◌, ◌-◌, [], IfOk, drop, length, vec_len};
ghost use Rattle.std.specs.Slice.{IsItemAt};
ghost use Rattle.pif_cli.specs.Apart.{AreApart, IsApart, IsJudged, WritesJudged};
ghost use Rattle.pif_cli.specs.Names.{shown_name};

use crate::hosts::Runtime;
use crate::judging::judge_input;
use crate::names::Name;
use pif_cli_messages::{JobFault, Kept, Unwatched};
use pif_cli_words::{Job, Judging};
use pif_history_text::MOST_BYTES;
use pif_script::{CliFault, write_whole};
use std::alloc::{AllocError, Global};
use std::io::{Read, Write};
use std::rt::Files;
use std::thread::Threads;
use std::{fs, thread};

/// The most threads that judge histories.
const MOST_JOBS: usize = 64;

/// How many histories each thread judges before their verdicts are written.
const FILES_EACH: usize = 4;

/// The most bytes that are read at once.
const CHUNK: usize = 4096;

/// What judging a history into a text came to.
#[derive(Drop)]
pub struct Judged {
    /// What is to be written.
    pub text: Vec<u8>,
    /// How it ended.
    pub done: Result<(), JobFault>,
    /// The line at fault without its LF, if there is one, and memory was not refused for it.
    pub line: Option<Vec<u8>>,
}

/// The number of the line at fault, if there is one.
fn faulty_number(done: &Result<(), JobFault>) -> Option<u64> {
    match done {
        Err(JobFault::Cli(CliFault::Script(number, _))) => Some(*number),
        _ => None,
    }
}

/// The line at fault of a history of these bytes that ended so, if there is one, and memory is not refused for it.
fn faulty_line(alloc: Global, done: &Result<(), JobFault>, bytes: &[u8]) -> Option<Vec<u8>> {
    let kept = Kept {
        text: bytes,
        first: 1,
    };
    let line = kept.whole_line(faulty_number(done)?)?;
    let mut copy = Vec::new(alloc);
    copy.extend_from_slice(line).ok()?;
    Some(copy)
}

impl Judged {
    /// What was kept of the history: the line at fault.
    pub fn kept(&self) -> Option<Kept<'_>> {
        match (&self.line, faulty_number(&self.done)) {
            (Some(line), Some(first)) => Some(Kept {
                text: line.as_slice(),
                first,
            }),
            _ => None,
        }
    }
}

/// What was done with a file before its turn.
#[derive(Drop)]
pub enum Apart {
    /// Nothing: all is done in its turn. So it is with the standard input, and with a file that can't be read.
    Left,
    /// Its history was judged.
    Judged(Judged),
}

/// How many threads judge so many histories: as many as are asked for, or as there are processors; one for another job.
fn jobs_of<P: Threads>(process: &P, job: Job, count: usize) -> usize
    ensures { 0 < result }
{
    let Job::Judge(asked) = job else {
        return 1;
    };
    let jobs = match asked.jobs {
        Some(jobs) => jobs as usize,
        None => processors(process),
    };
    jobs.min(count).min(MOST_JOBS).max(1)
}

/// How many processors there are; one if that isn't known.
fn processors<P: Threads>(process: &P) -> usize {
    match thread::available_parallelism(process) {
        Ok(count) => count.get(),
        Err(_) => 1,
    }
}

/// How many files are taken at once by so many threads: all that are left if there is one thread.
fn taken_at_once(jobs: usize, left: usize) -> usize
    requires { 0 < left }
    ensures { (0 < result) × (result ≤ left) }
{
    if jobs > 1 {
        jobs.saturating_mul(FILES_EACH).min(left)
    } else {
        left
    }
}

/// The bytes of a history, or as many as are too many for one; none if a read fails, or memory is refused.
fn bytes_of<R: Read>(alloc: Global, reader: &mut R) -> Option<Vec<u8>> {
    let mut bytes = Vec::new(alloc);
    let mut chunk = [0u8; CHUNK];
    for _ in 0..u64::MAX {
        let count = reader.read(&mut chunk).ok()?;
        if count == 0 || bytes.len() > MOST_BYTES {
            return Some(bytes);
        }
        bytes.extend_from_slice(&chunk[..count]).ok()?;
    }
    None
}

/// The bytes of the file of this name; none of the standard input, and if they can't be had.
fn content_of<P: Files>(alloc: Global, process: &P, name: &Name<'_>) -> Option<Vec<u8>> {
    if name.is_standard() {
        return None;
    }
    let mut file = fs::open(process, name.given()).ok()?;
    bytes_of(alloc, &mut file)
}

/// The bytes of each file of these names, if they can be had.
fn contents_of<P: Files>(
    alloc: Global,
    process: &P,
    names: &[Name<'_>],
) -> Result<Vec<Option<Vec<u8>>>, AllocError> {
    let mut contents = Vec::new(alloc);
    for name in names {
        contents.push(content_of(alloc, process, name))?;
    }
    Ok(contents)
}

/// Judges the history of these bytes into a text.
fn judge_bytes<P: Runtime>(
    alloc: Global,
    process: &P,
    asked: Judging,
    name: &Name<'_>,
    bytes: &[u8],
) -> Judged
    ensures { IsJudged asked (shown_name name.now) result }
{
    let mut reader = bytes;
    let mut text = Vec::new(alloc);
    let done = judge_input(
        alloc,
        process,
        asked,
        name,
        &mut reader,
        &mut text,
        &mut Unwatched,
    );
    let line = faulty_line(alloc, &done, bytes);
    Judged { text, done, line }
}

/// Judges the history of these bytes, if there are any, which is of this name.
#[tactic(auto, unfolding(crate::specs::Apart::IsApart))]
fn judge_apart<P: Runtime>(
    alloc: Global,
    process: &P,
    asked: Judging,
    name: &Name<'_>,
    content: Option<&Option<Vec<u8>>>,
) -> Apart
    ensures { IsApart (Job.Judge asked) name.now result }
{
    match content {
        Some(Some(bytes)) => {
            Apart::Judged(judge_bytes(alloc, process, asked, name, bytes.as_slice()))
        }
        _ => Apart::Left,
    }
}

/// As many as there are names, with which nothing was done.
fn left_alone(alloc: Global, names: &[Name<'_>]) -> Result<Vec<Apart>, AllocError>
    ensures { IfOk result (λ found. vec_len found ≡ length names.now) }
{
    let mut found = Vec::new(alloc);
    for _name in names {
        found.push(Apart::Left)?;
    }
    Ok(found)
}

/// Judges the histories of these names and contents by at most so many threads.
fn judge_in_threads<P: Runtime + Sync>(
    alloc: Global,
    process: &P,
    asked: Judging,
    jobs: usize,
    names: &[Name<'_>],
    contents: &[Option<Vec<u8>>],
    found: &mut [Apart],
)
    requires jobs { 0 < jobs }
    requires each { length found.old ≡ length names.now }
    ensures { AreApart (Job.Judge asked) names.now found.new }
{
    thread::for_each_mut(
        process,
        found,
        jobs,
        &|place, one| {
            *one = judge_apart(alloc, process, asked, &names[place], contents.get(place));
        },
    );
}

/// What is done with the files of these names before their turns: their histories are read, and then judged by so many
/// threads. Nothing is done for another job, by one thread, or if memory is refused.
fn done_apart<P: Files + Runtime + Sync>(
    alloc: Global,
    process: &P,
    job: Job,
    jobs: usize,
    names: &[Name<'_>],
) -> Vec<Apart>
    ensures { AreApart job names.now result.items }
{
    if jobs < 2 {
        return Vec::new(alloc);
    }
    let (Job::Judge(asked), Ok(mut found)) = (job, left_alone(alloc, names)) else {
        return Vec::new(alloc);
    };
    let Ok(contents) = contents_of(alloc, process, names) else {
        return Vec::new(alloc);
    };
    judge_in_threads(
        alloc,
        process,
        asked,
        jobs,
        names,
        contents.as_slice(),
        found.as_mut_slice(),
    );
    found
}

/// What was done with the files that come next before their turns. A part of them is taken at once.
#[derive(Drop)]
pub struct Ahead {
    /// Where memory comes from.
    alloc: Global,
    /// How many threads do it.
    jobs: usize,
    /// The place of the first file that was taken.
    begin: usize,
    /// The place after the last of them.
    end: usize,
    /// What was done with each of them, or nothing at all.
    found: Vec<Apart>,
}

impl Ahead {
    /// Nothing yet, for a job over so many files.
    pub fn new<P: Threads>(alloc: Global, process: &P, job: Job, count: usize) -> Ahead
        ensures begin { result.begin ≡ 0 }
        ensures found { result.found.items ≡ [] }
    {
        Ahead {
            alloc,
            jobs: jobs_of(process, job, count),
            begin: 0,
            end: 0,
            found: Vec::new(alloc),
        }
    }

    /// Comes to the file at this place among those of these names, in their order. If it was not taken yet, the next
    /// part is, from here on.
    pub fn reach<P: Files + Runtime + Sync>(
        &mut self,
        process: &P,
        job: Job,
        names: &[Name<'_>],
        place: usize,
    )
        requires place { place < length names.now }
        requires begin { self.old.begin ≤ place }
        requires apart { AreApart job (drop self.old.begin names.now) self.old.found.items }
        ensures begin { self.new.begin ≤ place }
        ensures apart { AreApart job (drop self.new.begin names.now) self.new.found.items }
    {
        if place < self.end {
            return;
        }
        let end = place + taken_at_once(self.jobs, names.len() - place);
        self.found = done_apart(self.alloc, process, job, self.jobs, &names[place..end]);
        self.begin = place;
        self.end = end;
    }

    /// What was done with the file at this place, if that is known.
    pub fn at(&self, place: usize) -> Option<&Apart>
        requires { self.now.begin ≤ place }
        ensures { IsItemAt self.now.found.items (place - self.now.begin) result }
    {
        self.found.get(place - self.begin)
    }
}

/// Writes the text of a history that was judged. If a write to the text itself failed, memory was refused for it: then
/// nothing is written.
pub fn write_judged<W: Write>(judged: &Judged, output: &mut W) -> Result<(), JobFault>
    ensures { WritesJudged judged.now (W.contents output.old) (W.contents output.new) result }
{
    if let Err(JobFault::Cli(CliFault::Write)) = judged.done {
        return Err(JobFault::Cli(CliFault::NoMemory));
    }
    match write_whole(output, judged.text.as_slice()) {
        Ok(()) => judged.done,
        Err(fault) => Err(JobFault::Cli(fault)),
    }
}
