//! A new file, and one that takes the place of another.

use pif_cli_messages::words_of;
use pif_job_shell::SaveFault;
use std::alloc::{AllocError, Global};
use std::fs::{File, OpenFile, Permissions};
use std::io;
use std::io::{ErrorKind, Write};
use std::rt::Files;

/// The mode of the plain file of this name; `None` if what has this name is a folder, a link or a device.
///
/// # Errors
///
/// What has this name can't be looked at, or nothing has it.
pub fn mode_of<P: Files>(process: &P, name: &str) -> io::Result<Option<Permissions>> {
    let metadata = process.symlink_metadata(name)?;
    if metadata.is_file() {
        Ok(Some(metadata.permissions()))
    } else {
        Ok(None)
    }
}

/// The name of the new file beside the one of this name.
pub fn name_beside(alloc: Global, name: &str) -> Result<String, AllocError> {
    let mut beside = String::new(alloc);
    beside.push_str(name)?;
    beside.push_str(".new")?;
    Ok(beside)
}

/// Writes a text to a file that was just made, which gets this mode if there is one, and has the system keep it.
fn write_file<F: OpenFile + Write>(
    file: &mut F,
    mode: Option<Permissions>,
    text: &[u8],
) -> io::Result<()> {
    if let Some(mode) = mode {
        file.set_permissions(mode)?;
    }
    file.write_all(text)?;
    file.sync_all()
}

/// Makes a new file of this name with this text, of this mode if there is one.
///
/// # Errors
///
/// Why there is no such file. One that was there before is left as it is.
pub fn make_file<P: Files>(
    process: &P,
    name: &str,
    mode: Option<Permissions>,
    text: &[u8],
) -> Result<(), SaveFault> {
    let written = match File::create_new(process, name) {
        Ok(mut file) => write_file(&mut file, mode, text),
        Err(error) => match error.kind() {
            ErrorKind::AlreadyExists => return Err(SaveFault::Taken),
            kind => return Err(SaveFault::Refused(words_of(kind))),
        },
    };
    match written {
        Ok(()) => Ok(()),
        Err(error) => {
            let _ = process.remove_file(name);
            Err(SaveFault::Cut(words_of(error.kind())))
        }
    }
}

/// Puts a text into the place of the file of this name: a new file beside it, of this mode if there is one, takes its
/// place.
///
/// # Errors
///
/// Why it did not. The file then stays as it is, and no new one is left beside it.
pub fn replace_file<P: Files>(
    process: &P,
    alloc: Global,
    name: &str,
    mode: Option<Permissions>,
    text: &[u8],
) -> Result<(), SaveFault> {
    let Ok(beside) = name_beside(alloc, name) else {
        return Err(SaveFault::NoMemory);
    };
    match make_file(process, beside.as_str(), mode, text) {
        Ok(()) => {}
        Err(SaveFault::Taken) => return Err(SaveFault::TakenBeside),
        Err(why) => return Err(why),
    }
    match process.rename(beside.as_str(), name) {
        Ok(()) => Ok(()),
        Err(error) => {
            let _ = process.remove_file(beside.as_str());
            Err(SaveFault::Refused(words_of(error.kind())))
        }
    }
}
