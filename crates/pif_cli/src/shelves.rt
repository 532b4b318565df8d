use crate::making::{make_file, mode_of, name_beside, replace_file};
use pif_cli_messages::{Input, words_of};
use pif_job_shell::{LoadFault, SaveFault, Shelf};
use pif_script::{CliFault, read_all};
use std::alloc::Global;
use std::fs;
use std::fs::File;
use std::io::ErrorKind;
use std::rt::Files;

/// The files of a process, in which a shell saves its stories.
#[derive(Drop)]
pub struct FileShelf<'a, P> {
    process: &'a P,
}

impl<'a, P> FileShelf<'a, P> {
    /// The files of this process.
    pub fn new(process: &'a P) -> FileShelf<'a, P> {
        FileShelf { process }
    }
}

impl<'a, P: Files> Shelf for FileShelf<'a, P> {
    fn save(&self, name: &str, text: &[u8]) -> Result<(), SaveFault> {
        make_file(self.process, name, None, text)
    }

    fn replace(&self, alloc: Global, name: &str, text: &[u8]) -> Result<(), SaveFault> {
        let mode = match mode_of(self.process, name) {
            Ok(Some(mode)) => Some(mode),
            Ok(None) => return Err(SaveFault::NoPlainFile),
            Err(error) => match error.kind() {
                ErrorKind::NotFound => None,
                kind => return Err(SaveFault::Refused(words_of(kind))),
            },
        };
        replace_file(self.process, alloc, name, mode, text)
    }

    fn is_taken_beside(&self, alloc: Global, name: &str) -> bool {
        match name_beside(alloc, name) {
            Ok(beside) => self.process.symlink_metadata(beside.as_str()).is_ok(),
            Err(_) => false,
        }
    }

    fn load(&self, alloc: Global, name: &str) -> Result<Vec<u8>, LoadFault> {
        let file = match File::open(self.process, name) {
            Ok(file) => file,
            Err(error) => return Err(LoadFault::Unread(words_of(error.kind()))),
        };
        let mut input = Input::new(file);
        match read_all(alloc, &mut input) {
            Ok(text) => Ok(text),
            Err(CliFault::NoMemory) => Err(LoadFault::NoMemory),
            Err(_) => Err(LoadFault::Unread(input.why())),
        }
    }

    fn remove(&self, name: &str) {
        let _ = fs::remove_file(self.process, name);
    }
}
