ghost use Rattle.std.specs.Prelude.{[], ℕ, List, Option, IfOk};
ghost use Rattle.pif_history_text.specs.Reading.{Gives};
ghost use Rattle.pif_job_parts.specs.Joining.{WritesSaid};
ghost use Rattle.pif_job_follow.specs.Followed.{IsReading};
ghost use Rattle.pif_job_follow.specs.Following.{FollowsSaid, FollowsTo, IsUnder, ReadsPart, ReadsTo};

use crate::followed::{Followed, Following};
use crate::telling::{Said, said_of};
use crate::watching::WatchParts;
use pif_history_model::Fact;
use pif_job_parts::PartsFault;
use pif_parts::WholeVerdict;
use pif_script::write_whole;
use pif_script_model::CliFault;
use pif_search::WatchLines;
use pif_types::Request;
use std::alloc::Global;
use std::io::{Read, Write};

/// The most bytes that are read at once.
const CHUNK: usize = 4096;

/// Reads some bytes into `chunk`. Answers how many; none only at the end.
fn read_some<R: Read>(reader: &mut R, chunk: &mut [u8]) -> Result<usize, CliFault>
    ensures { Gives (R.remaining reader.old) (R.remaining reader.new) chunk.new result }
{
    match reader.read(chunk) {
        Ok(count) => Ok(count),
        Err(_) => Err(CliFault::Read),
    }
}

/// Reads a part of a text, and judges lines. Answers what is so of the history, once that is known.
fn read_part<R: Read, V: WatchLines + WatchParts>(
    reader: &mut R,
    asked: Following,
    followed: &mut Followed,
    watch: &mut V,
) -> Result<Option<WholeVerdict>, PartsFault>
    ensures { IfOk result (λ v. (before : Option (List ℕ)) → IsUnder before (R.remaining reader.old) followed.old
        → ReadsPart before (R.remaining reader.new) followed.new v) }
{
    let _no_request: Option<Request> = None;
    let _no_fact: Option<Fact> = None;
    let mut chunk = [0u8; CHUNK];
    let count = match read_some(reader, &mut chunk) {
        Ok(count) => count,
        Err(fault) => return Err(PartsFault::Cli(fault)),
    };
    if count == 0 {
        return match followed.end(asked, watch) {
            Ok(verdict) => Ok(Some(verdict)),
            Err(fault) => Err(fault),
        };
    }
    followed.take(asked, &chunk[..count], watch)
}

/// Reads a text to its end, or until its history isn't known to be legal.
fn read_all<R: Read, V: WatchLines + WatchParts>(
    reader: &mut R,
    asked: Following,
    followed: &mut Followed,
    watch: &mut V,
) -> Result<WholeVerdict, PartsFault>
    requires { IsReading [] followed.old }
    ensures { IfOk result (ReadsTo (R.remaining reader.old) (R.remaining reader.new) followed.new) }
{
    let _no_request: Option<Request> = None;
    let _no_fact: Option<Fact> = None;
    for _part in 0..u64::MAX {
        match read_part(reader, asked, followed, watch)? {
            Some(verdict) => return Ok(verdict),
            None => {}
        }
    }
    Err(PartsFault::Cli(CliFault::NoMemory))
}

/// What is told of the history that a reader gives.
fn said_by<R: Read, V: WatchLines + WatchParts>(
    alloc: Global,
    asked: Following,
    reader: &mut R,
    watch: &mut V,
) -> Result<Said, PartsFault>
    ensures { IfOk result (λ said. FollowsSaid (R.remaining reader.old) (R.remaining reader.new) said.text.items said.end) }
{
    let _no_request: Option<Request> = None;
    let _no_fact: Option<Fact> = None;
    let mut followed = Followed::new(alloc)?;
    let verdict = read_all(reader, asked, &mut followed, watch)?;
    said_of(alloc, &followed, verdict)
}

/// Writes what is told, and ends so.
fn write_said<W: Write>(said: &Said, writer: &mut W) -> Result<(), PartsFault>
    ensures { WritesSaid (W.contents writer.old) (W.contents writer.new) said.now.text.items said.now.end result }
{
    match write_whole(writer, said.text.as_slice()) {
        Ok(()) => said.end,
        Err(fault) => Err(PartsFault::Cli(fault)),
    }
}

/// Follows a history: reads and judges it part after part, to the end of the reader or to the first part that isn't
/// legal, and writes the verdict on all lines that were read. What is legal is forgotten where the history rests, so that
/// memory grows with what it adds and uses alone. `watch` is told up to which line it is legal, each time.
///
/// # Errors
///
/// - `Cli` with `Differs`, `Undecided` and `NoCall`: the history isn't legal, or that isn't known; this is written.
/// - `Rules` or `Uncut`: it allows rules, or the line of this number needs some. `Cli` with `Script`: a line is at fault.
///   Then nothing is written.
/// - `Cli` with `Read`, `Write` and `NoMemory`.
pub fn follow<R: Read, W: Write, V: WatchLines + WatchParts>(
    alloc: Global,
    asked: Following,
    reader: &mut R,
    writer: &mut W,
    watch: &mut V,
) -> Result<(), PartsFault>
    ensures { FollowsTo (R.remaining reader.old) (R.remaining reader.new) (W.contents writer.old) (W.contents writer.new) result }
{
    match said_by(alloc, asked, reader, watch) {
        Ok(said) => write_said(&said, writer),
        Err(fault) => Err(fault),
    }
}
