use std::alloc::Global;

/// Why a text was not saved. Its reason is in the system's words, if there are such.
#[derive(Clone, Copy)]
pub enum SaveFault {
    /// There is a file of this name already; it is left as it is.
    Taken,
    /// There is a file already of this name with `.new` after it, which would take the place of the other.
    TakenBeside,
    /// What has this name is no plain file, but a folder, a link or a device.
    NoPlainFile,
    /// The file cannot be looked at or made, or the new one can't take its place.
    Refused(Option<&'static str>),
    /// The file was made, and its mode or its text could not be set: it was removed.
    Cut(Option<&'static str>),
    /// A growth of memory was refused.
    NoMemory,
}

/// Why a file was not read.
#[derive(Clone, Copy)]
pub enum LoadFault {
    /// It cannot be read, for this reason in the system's words, if there are such.
    Unread(Option<&'static str>),
    /// A growth of memory was refused.
    NoMemory,
}

/// Where a shell saves its stories, and reads them.
pub trait Shelf {
    /// Makes a new file of this name, with this text in it.
    ///
    /// # Errors
    ///
    /// Why the text was not saved. A file that was there before is left as it is, and else there is none.
    fn save(&self, name: &str, text: &[u8]) -> Result<(), SaveFault>;

    /// Puts this text into the plain file of this name, which keeps its mode, and is made if it is not there. It is
    /// written beside the file first, under its name with `.new` after it.
    ///
    /// # Errors
    ///
    /// Why the text was not saved. What was there before is left as it is.
    fn replace(&self, alloc: Global, name: &str, text: &[u8]) -> Result<(), SaveFault>;

    /// Whether there is a file already of this name with `.new` after it, so that `replace` can write none. If that
    /// can't be found out, there is none.
    fn is_taken_beside(&self, alloc: Global, name: &str) -> bool;

    /// The text of the file of this name, or its first 16,777,217 bytes.
    ///
    /// # Errors
    ///
    /// Why it was not read.
    fn load(&self, alloc: Global, name: &str) -> Result<Vec<u8>, LoadFault>;

    /// Removes the file of this name, if that can be done.
    fn remove(&self, name: &str);
}

/// A place where nothing can be saved and nothing is found.
#[derive(Clone, Copy)]
pub struct NoShelf;

impl Shelf for NoShelf {
    fn save(&self, _name: &str, _text: &[u8]) -> Result<(), SaveFault> {
        Err(SaveFault::Refused(None))
    }

    fn replace(&self, _alloc: Global, _name: &str, _text: &[u8]) -> Result<(), SaveFault> {
        Err(SaveFault::Refused(None))
    }

    fn is_taken_beside(&self, _alloc: Global, _name: &str) -> bool {
        false
    }

    fn load(&self, _alloc: Global, _name: &str) -> Result<Vec<u8>, LoadFault> {
        Err(LoadFault::Unread(None))
    }

    fn remove(&self, _name: &str) {}
}
