ghost use Rattle.pif_script_model.specs.Runs.{Writes};

use pif_script_model::CliFault;
use std::io::Write;

/// Writes all of `bytes`.
///
/// # Errors
///
/// `Write` if the writer fails or takes no byte; some of the bytes may be written then.
pub fn write_whole<W: Write>(writer: &mut W, bytes: &[u8]) -> Result<(), CliFault>
    ensures { Writes (W.contents writer.old) (W.contents writer.new) bytes.now result }
{
    let mut written = 0;
    while written < bytes.len() {
        match writer.write(&bytes[written..]) {
            Ok(0) => return Err(CliFault::Write),
            Ok(count) => written += count,
            Err(_) => return Err(CliFault::Write),
        }
    }
    Ok(())
}
