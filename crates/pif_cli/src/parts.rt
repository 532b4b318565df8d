//! `judge --split` and `judge --joined`: the files of a history in parts. `judge --follow`: one that is still read.
ghost use Rattle.std.specs.Prelude.{◌≡◌, ◌++◌, IfOk, Ok, OnOk, codes, vec_len};
ghost use Rattle.pif_job_parts.specs.Indexes.{file_name};
ghost use Rattle.pif_cli.specs.Parts.{FollowsInto, JoinsBy, JoinsRead, SavesParts, SplitsInto, WritesNames, as_parted, names_text, parted_fault};

use pif_cli_messages::{InParts, JobFault};
use pif_job_follow::{Following, WatchParts, follow};
use pif_job_judge::WatchLines;
use pif_job_parts::{Parts, PartsFault, join, split};
use pif_job_shell::{LoadFault, SaveFault, Shelf};
use pif_script::{CliFault, MOST_LINE, Notice, read_all, write_whole};
use pif_text::append_decimal;
use std::alloc::{AllocError, Global};
use std::io::{Read, Write};
use std::str::from_utf8;

/// How a job over parts ends if it isn't done.
fn parted_fault(fault: PartsFault) -> JobFault
    ensures { result ≡ parted_fault fault }
{
    match fault {
        PartsFault::Cli(fault) => JobFault::Cli(fault),
        PartsFault::Rules => JobFault::Parts(InParts::Rules),
        PartsFault::Uncut(line) => JobFault::Parts(InParts::Uncut(line)),
        PartsFault::Index(line) => JobFault::Parts(InParts::Index(line)),
        PartsFault::Foreign(line) => JobFault::Parts(InParts::Foreign(line)),
        PartsFault::Missing(part) => JobFault::Parts(InParts::Missing(part)),
        PartsFault::Undecided(line) => JobFault::Undecided(line),
        PartsFault::NoCall => JobFault::NoCall,
        PartsFault::Log(line) => JobFault::Mistake(line, None),
    }
}

/// How a job over parts ends.
fn as_parted(done: Result<(), PartsFault>) -> Result<(), JobFault>
    ensures { result ≡ as_parted done }
{
    match done {
        Ok(()) => Ok(()),
        Err(fault) => Err(parted_fault(fault)),
    }
}

/// Appends the name of the file of the part of this number, from 1, in a folder.
fn push_name(out: &mut Vec<u8>, folder: &str, number: u64) -> Result<(), AllocError>
    ensures { OnOk result (out.new.items ≡ out.old.items ++ (folder.now ++ codes "/" ++ file_name number)) }
{
    out.extend_from_slice(folder.as_bytes())?;
    out.extend_from_slice(b"/")?;
    out.extend_from_slice(b"part-")?;
    append_decimal(out, number)?;
    out.extend_from_slice(b".history")
}

/// The names of the files of so many parts, each in a line.
fn names_text(alloc: Global, folder: &str, count: usize) -> Result<Vec<u8>, AllocError>
    ensures { IfOk result (λ text. text.items ≡ names_text folder.now count) }
{
    let mut out = Vec::new(alloc);
    for place in 0..count {
        push_name(&mut out, folder, place as u64 + 1)?;
        out.extend_from_slice(b"\n")?;
    }
    Ok(out)
}

/// The name of the index in a folder.
fn index_name(alloc: Global, folder: &str) -> Result<Vec<u8>, AllocError> {
    let mut out = Vec::new(alloc);
    out.extend_from_slice(folder.as_bytes())?;
    out.extend_from_slice(b"/index")?;
    Ok(out)
}

/// The name of the file of the part of this number, from 1.
fn part_name(alloc: Global, folder: &str, number: u64) -> Result<Vec<u8>, AllocError> {
    let mut out = Vec::new(alloc);
    push_name(&mut out, folder, number)?;
    Ok(out)
}

/// Why a file is not made, in words.
fn words_of(why: SaveFault) -> Option<&'static str> {
    match why {
        SaveFault::Taken => Some("is there already"),
        SaveFault::Refused(why) | SaveFault::Cut(why) => Some(why.unwrap_or("cannot be written")),
        SaveFault::TakenBeside | SaveFault::NoPlainFile => Some("cannot be written"),
        SaveFault::NoMemory => None,
    }
}

/// Whether a character of UTF-8 begins with this byte.
fn begins_character(byte: u8) -> bool {
    byte & 0xc0 != 0x80
}

/// The end of a name, of at most so many bytes. A name in UTF-8 is cut between two characters.
fn end_of_name(name: &[u8], most: usize) -> &[u8] {
    let least = name.len().saturating_sub(most);
    for (place, byte) in name.iter().enumerate() {
        if place >= least && begins_character(*byte) {
            return name.get(place..).unwrap_or(b"");
        }
    }
    b""
}

/// A name, and why its file can't be read or written. If both don't fit into a notice, the end of the name stands there.
fn name_and_words(alloc: Global, name: &[u8], words: &str) -> Result<Vec<u8>, AllocError> {
    let most = MOST_LINE.saturating_sub(words.len()).saturating_sub(2);
    let mut text = Vec::new(alloc);
    text.extend_from_slice(end_of_name(name, most))?;
    text.extend_from_slice(b": ")?;
    text.extend_from_slice(words.as_bytes())?;
    Ok(text)
}

/// The fault of a file of this name, of which these are the words; out of memory, if there are none.
fn file_fault(
    alloc: Global,
    name: &[u8],
    words: Option<&'static str>,
    notice: &mut Notice,
) -> JobFault {
    let Some(words) = words else {
        return JobFault::Cli(CliFault::NoMemory);
    };
    match name_and_words(alloc, name, words) {
        Ok(text) => {
            notice.keep_command(text.as_slice());
            JobFault::Parts(InParts::File)
        }
        Err(_) => JobFault::Cli(CliFault::NoMemory),
    }
}

/// Makes a new file of this name.
fn save<S: Shelf>(
    alloc: Global,
    shelf: &S,
    name: &[u8],
    text: &[u8],
    notice: &mut Notice,
) -> Result<(), JobFault> {
    let Ok(given) = from_utf8(name) else {
        return Err(file_fault(alloc, name, Some("is not UTF-8"), notice));
    };
    match shelf.save(given, text) {
        Ok(()) => Ok(()),
        Err(why) => Err(file_fault(alloc, name, words_of(why), notice)),
    }
}

/// Makes the files of the parts, and then that of the index, which is there if all are.
fn save_files<S: Shelf>(
    alloc: Global,
    shelf: &S,
    folder: &str,
    parts: &Parts,
    notice: &mut Notice,
) -> Result<(), JobFault> {
    for place in 0..parts.texts.len() {
        let Ok(name) = part_name(alloc, folder, place as u64 + 1) else {
            return Err(JobFault::Cli(CliFault::NoMemory));
        };
        save(
            alloc,
            shelf,
            name.as_slice(),
            parts.texts[place].as_slice(),
            notice,
        )?;
    }
    match index_name(alloc, folder) {
        Ok(name) => save(
            alloc,
            shelf,
            name.as_slice(),
            parts.index.as_slice(),
            notice,
        ),
        Err(_) => Err(JobFault::Cli(CliFault::NoMemory)),
    }
}

/// Makes the files of parts and of their index. Answers the names of the parts' files.
fn save_all<S: Shelf>(
    alloc: Global,
    shelf: &S,
    folder: &str,
    parts: &Parts,
    notice: &mut Notice,
) -> Result<Vec<u8>, JobFault>
    ensures { IfOk result (λ names. names.items ≡ names_text folder.now (vec_len parts.now.texts)) }
{
    let Ok(names) = names_text(alloc, folder, parts.texts.len()) else {
        return Err(JobFault::Cli(CliFault::NoMemory));
    };
    save_files(alloc, shelf, folder, parts, notice)?;
    Ok(names)
}

/// Writes names.
fn write_names<W: Write>(names: &[u8], output: &mut W) -> Result<(), JobFault>
    ensures { WritesNames names.now (W.contents output.old) (W.contents output.new) result }
{
    match write_whole(output, names) {
        Ok(()) => Ok(()),
        Err(fault) => Err(JobFault::Cli(fault)),
    }
}

/// Makes the files of parts, and writes their names.
fn save_parts<S: Shelf, W: Write>(
    alloc: Global,
    shelf: &S,
    folder: &str,
    parts: &Parts,
    output: &mut W,
    notice: &mut Notice,
) -> Result<(), JobFault>
    ensures { SavesParts (Ok parts.now) (W.contents output.old) (W.contents output.new) result }
{
    match save_all(alloc, shelf, folder, parts, notice) {
        Ok(names) => write_names(names.as_slice(), output),
        Err(fault) => Err(fault),
    }
}

/// Writes a history in parts into this folder, each but the last with at least so many lines, and their index; and the
/// names of the parts' files to the output, a line each. A file that is there already stays as it is, and so do the files
/// that were made before a fault. `notice` keeps the name of a file that is not made.
pub fn split_input<S: Shelf, R: Read, W: Write>(
    alloc: Global,
    shelf: &S,
    folder: &str,
    least: u32,
    input: &mut R,
    output: &mut W,
    notice: &mut Notice,
) -> Result<(), JobFault>
    ensures { SplitsInto (R.remaining input.old) (R.remaining input.new) (W.contents output.old) (W.contents output.new) result }
{
    match split(alloc, least as usize, input) {
        Ok(parts) => save_parts(alloc, shelf, folder, &parts, output, notice),
        Err(fault) => Err(parted_fault(fault)),
    }
}

/// The index in the file of this name. `notice` keeps the name, or why the file can't be read.
fn load_index<S: Shelf>(
    alloc: Global,
    shelf: &S,
    name: &str,
    notice: &mut Notice,
) -> Result<Vec<u8>, JobFault> {
    let bytes = name.as_bytes();
    notice.keep_command(bytes);
    match shelf.load(alloc, name) {
        Ok(index) => Ok(index),
        Err(LoadFault::NoMemory) => Err(JobFault::Cli(CliFault::NoMemory)),
        Err(LoadFault::Unread(why)) => {
            let words = Some(why.unwrap_or("cannot be read"));
            Err(file_fault(alloc, bytes, words, notice))
        }
    }
}

/// Writes what these verdicts come to, which are on the parts of the index in the file of this name.
fn join_read<S: Shelf, W: Write>(
    alloc: Global,
    shelf: &S,
    name: &str,
    verdicts: &[u8],
    output: &mut W,
    notice: &mut Notice,
) -> Result<(), JobFault>
    ensures { JoinsRead verdicts.now (W.contents output.old) (W.contents output.new) result }
{
    match load_index(alloc, shelf, name, notice) {
        Ok(index) => as_parted(join(alloc, index.as_slice(), verdicts, output)),
        Err(fault) => Err(fault),
    }
}

/// Writes what the verdicts of the input come to, which are on the parts of the index in the file of this name. It is
/// read last, so that who writes the verdicts may have made it. `notice` keeps the name, if it can't be read or is no
/// index.
pub fn join_input<S: Shelf, R: Read, W: Write>(
    alloc: Global,
    shelf: &S,
    name: &str,
    input: &mut R,
    output: &mut W,
    notice: &mut Notice,
) -> Result<(), JobFault>
    ensures { JoinsBy (R.remaining input.old) (R.remaining input.new) (W.contents output.old) (W.contents output.new) result }
{
    match read_all(alloc, input) {
        Ok(verdicts) => join_read(alloc, shelf, name, verdicts.as_slice(), output, notice),
        Err(fault) => Err(JobFault::Cli(fault)),
    }
}

/// Who is told of the lines and the parts of a history that is followed.
#[derive(Drop)]
struct Watched<'v, V> {
    watch: &'v mut V,
}

impl<V: WatchLines> WatchLines for Watched<'_, V> {
    fn line(&mut self, line: usize, states: usize) {
        self.watch.line(line, states);
    }

    fn goes_on(&mut self) -> bool {
        self.watch.goes_on()
    }
}

impl<V: pif_cli_messages::WatchParts> WatchParts for Watched<'_, V> {
    fn legal_up_to(&mut self, line: u32) {
        self.watch.legal_up_to(line);
    }
}

/// Judges a history while it is read, and writes the verdict on all lines that were read.
pub fn follow_input<R: Read, W: Write, V: WatchLines + pif_cli_messages::WatchParts>(
    alloc: Global,
    asked: pif_cli_words::Followed,
    input: &mut R,
    output: &mut W,
    watch: &mut V,
) -> Result<(), JobFault>
    ensures { FollowsInto (R.remaining input.old) (R.remaining input.new) (W.contents output.old) (W.contents output.new) result }
{
    let following = Following {
        least: asked.least,
        states: asked.states,
    };
    let mut watched = Watched { watch };
    as_parted(follow(alloc, following, input, output, &mut watched))
}
