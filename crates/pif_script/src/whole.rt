ghost use Rattle.std.specs.Prelude.{length, IfErr, IfOk};
ghost use Rattle.pif_script_model.specs.Migrating.{FailsToRead, ReadsMore, ReadsTo};

use crate::listener::CHUNK;
use crate::scanner::MOST_BYTES;
use pif_script_model::CliFault;
use std::alloc::Global;
use std::io::Read;

/// The most bytes that are read of what is read whole: as many as a script or a trace may have, and one more.
const MOST_READ: usize = MOST_BYTES as usize + 1;

/// Reads at most as many bytes as `chunk` has, and appends them. Answers whether there were any.
fn read_more<R: Read>(
    reader: &mut R,
    chunk: &mut [u8],
    bytes: &mut Vec<u8>,
) -> Result<bool, CliFault>
    ensures { ReadsMore (R.remaining reader.old) (R.remaining reader.new) (length chunk.old) bytes.old.items bytes.new.items result }
{
    let count = match reader.read(chunk) {
        Ok(count) => count,
        Err(_) => return Err(CliFault::Read),
    };
    match bytes.extend_from_slice(&chunk[..count]) {
        Ok(()) => Ok(count > 0),
        Err(_) => Err(CliFault::NoMemory),
    }
}

/// Reads all bytes, or as far as the byte that is one too many for a script or a trace: at most 16,777,217.
///
/// # Errors
///
/// `Read` if the reader fails, and `NoMemory`.
pub fn read_all<R: Read>(alloc: Global, reader: &mut R) -> Result<Vec<u8>, CliFault>
    ensures read { IfOk result (λ bytes. ReadsTo (R.remaining reader.old) (R.remaining reader.new) bytes.items) }
    ensures failed { IfErr result (λ fault. FailsToRead (R.remaining reader.old) (R.remaining reader.new) fault) }
{
    let mut bytes = Vec::new(alloc);
    let mut chunk = [0u8; CHUNK];
    while bytes.len() < MOST_READ {
        let room = CHUNK.min(MOST_READ - bytes.len());
        if !read_more(reader, &mut chunk[..room], &mut bytes)? {
            return Ok(bytes);
        }
    }
    Ok(bytes)
}
