//! What a job reads and writes, and what has failed of it.

use memchr::{memchr_iter, memrchr};
use pif_text::without_return;
use pif_text_errors::without_mark;
use std::alloc::Global;
use std::io;
use std::io::{ErrorKind, Read, Write};
use std::marker::Model;

/// What is kept of the text that a job reads.
#[derive(Clone, Copy)]
pub enum Keeps {
    /// Nothing.
    Nothing,
    /// All of it.
    All,
    /// The lines that the last read has ended, and what stands after them.
    LastLines,
}

/// What was kept of a text.
#[derive(Clone, Copy)]
pub struct Kept<'s> {
    /// Its bytes.
    pub text: &'s [u8],
    /// The number of its first line, from 1.
    pub first: u64,
}

impl<'s> Kept<'s> {
    /// The line of this number, from 1, without its LF. `None` if it was not kept.
    pub fn whole_line(&self, number: u64) -> Option<&'s [u8]> {
        let mut line = self.first;
        for written in self.text.split(|byte| *byte == b'\n') {
            if line == number {
                return Some(written);
            }
            line = line.saturating_add(1);
        }
        None
    }

    /// The same without a CR at its end. A byte order mark at the front of the text is no part of its first line.
    pub fn line(&self, number: u64) -> Option<&'s [u8]> {
        let whole = self.whole_line(number)?;
        let line = if number == 1 {
            without_mark(whole)
        } else {
            whole
        };
        Some(without_return(line))
    }
}

/// What jobs read. It keeps why a read has failed, and of the text that one job reads what is asked for. In contracts
/// it is its reader.
#[derive(Drop)]
pub struct Input<R> {
    reader: R,
    /// What is kept, and where memory for it comes from.
    text: Option<(Vec<u8>, Global)>,
    /// The number of the first line that is kept, from 1.
    first: u64,
    keeps: Keeps,
    why: Option<&'static str>,
}

impl<R> Model for Input<R> {
    ghost Value = { R };

    ghost view = { λ s. s.reader };
}

/// A text with more bytes after it; `None` if memory is refused.
fn extended(text: Vec<u8>, bytes: &[u8]) -> Option<Vec<u8>> {
    let mut text = text;
    text.extend_from_slice(bytes).ok()?;
    Some(text)
}

/// What stands after the last LF of a text.
fn behind_lines(text: &[u8]) -> &[u8] {
    match memrchr(b'\n', text) {
        Some(place) => &text[place + 1..],
        None => text,
    }
}

impl<R> Input<R> {
    ghost use Rattle.std.specs.Prelude.{◌≡◌};

    /// What this reader gives.
    pub fn new(reader: R) -> Input<R>
        ensures { result ≡ reader }
    {
        Input {
            reader,
            text: None,
            first: 1,
            keeps: Keeps::Nothing,
            why: None,
        }
    }

    /// Forgets what one job has read, and why a read of it has failed. Of the text that is read from here on so much is
    /// kept. Nothing is read.
    pub fn begin(&mut self, alloc: Global, keeps: Keeps)
        ensures { self.new ≡ self.old }
    {
        self.text = match keeps {
            Keeps::Nothing => None,
            Keeps::All | Keeps::LastLines => Some((Vec::new(alloc), alloc)),
        };
        self.first = 1;
        self.keeps = keeps;
        self.why = None;
    }

    /// What was kept of the text that was read, if that was asked for, and memory was not refused for it.
    pub fn kept(&self) -> Option<Kept<'_>> {
        match &self.text {
            Some((text, _)) => Some(Kept {
                text: text.as_slice(),
                first: self.first,
            }),
            None => None,
        }
    }

    /// Why the last read has failed, in the system's words, if there are such.
    pub fn why(&self) -> Option<&'static str> {
        self.why
    }

    /// What is kept after so many bytes more, of which lines were read before these.
    fn last_lines(&mut self, alloc: Global, text: &[u8], bytes: &[u8]) -> Option<Vec<u8>>
        ensures { self.new ≡ self.old }
    {
        let ended = memchr_iter(b'\n', text).count();
        self.first = self.first.saturating_add(ended as u64);
        let rest = extended(Vec::new(alloc), behind_lines(text))?;
        extended(rest, bytes)
    }

    /// Keeps what was read. If memory is refused for it, nothing is kept.
    fn keep(&mut self, bytes: &[u8])
        ensures { self.new ≡ self.old }
    {
        let Some((text, alloc)) = self.text.take() else {
            return;
        };
        let kept = match self.keeps {
            Keeps::LastLines => self.last_lines(alloc, text.as_slice(), bytes),
            Keeps::All | Keeps::Nothing => extended(text, bytes),
        };
        if let Some(text) = kept {
            self.text = Some((text, alloc));
        }
    }
}

impl<R: Read> Read for Input<R> {
    ghost remaining = { λ s. R.remaining s };

    fn read(&mut self, buf: &mut [u8]) -> io::Result<usize> {
        match self.reader.read(buf) {
            Ok(count) => {
                self.keep(&buf[..count]);
                Ok(count)
            }
            Err(error) => {
                self.why = words_of(error.kind());
                Err(error)
            }
        }
    }
}

/// What jobs write to. It keeps whether nobody reads it any more. In contracts it is its writer.
#[derive(Drop)]
pub struct Output<W> {
    writer: W,
    is_closed: bool,
}

impl<W> Model for Output<W> {
    ghost Value = { W };

    ghost view = { λ s. s.writer };
}

impl<W> Output<W> {
    ghost use Rattle.std.specs.Prelude.{◌≡◌};

    /// What this writer takes.
    pub fn new(writer: W) -> Output<W>
        ensures { result ≡ writer }
    {
        Output {
            writer,
            is_closed: false,
        }
    }

    /// Whether the last write that has failed did so since nobody reads any more what is written.
    pub fn is_closed(&self) -> bool {
        self.is_closed
    }
}

impl<W: Write> Write for Output<W> {
    ghost contents = { λ s. W.contents s };

    fn write(&mut self, buf: &[u8]) -> io::Result<usize> {
        match self.writer.write(buf) {
            Ok(count) => Ok(count),
            Err(error) => {
                self.is_closed = error.kind() == ErrorKind::BrokenPipe;
                Err(error)
            }
        }
    }

    fn flush(&mut self) -> io::Result<()> {
        self.writer.flush()
    }
}

/// The system's words for a failure of this kind, as far as they are known.
pub fn words_of(kind: ErrorKind) -> Option<&'static str> {
    match kind {
        ErrorKind::NotFound => Some("No such file or directory"),
        ErrorKind::PermissionDenied => Some("Permission denied"),
        ErrorKind::AlreadyExists => Some("File exists"),
        ErrorKind::NotADirectory => Some("Not a directory"),
        ErrorKind::IsADirectory => Some("Is a directory"),
        ErrorKind::ReadOnlyFilesystem => Some("Read-only file system"),
        ErrorKind::FilesystemLoop => Some("Too many levels of symbolic links"),
        ErrorKind::StaleNetworkFileHandle => Some("Stale file handle"),
        ErrorKind::StorageFull => Some("No space left on device"),
        ErrorKind::QuotaExceeded => Some("Disk quota exceeded"),
        ErrorKind::FileTooLarge => Some("File too large"),
        ErrorKind::ExecutableFileBusy => Some("Text file busy"),
        ErrorKind::InvalidFilename => Some("File name too long"),
        ErrorKind::OutOfMemory => Some("Cannot allocate memory"),
        _ => None,
    }
}
