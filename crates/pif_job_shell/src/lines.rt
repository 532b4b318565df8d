ghost use Rattle.std.specs.Prelude.{◌≤◌};
ghost use Rattle.pif_job_shell.specs.Lines.{ReadsOn};

use arrayvec::ArrayVec;
use pif_script::MOST_LINE;
use std::io::Read;

/// The most bytes that are read at once.
const CHUNK: usize = 4096;

/// A read failed.
#[derive(Clone, Copy)]
pub struct Unread;

/// What was found where a line may stand.
#[derive(Clone, Copy)]
pub enum Found {
    /// Nothing: the input has ended behind the last line.
    Nothing,
    /// A line.
    Line,
    /// A line of more than 120 bytes.
    Long,
}

/// The lines of an input, one after the other. The last one needs no LF.
#[derive(Drop)]
pub struct Lines {
    chunk: [u8; CHUNK],
    from: usize,
    to: usize,
    line: ArrayVec<u8, MOST_LINE>,
    found: Found,
    ghost within: { to ≤ 4096 },
}

impl Lines {
    /// The lines of an input of which nothing was read.
    pub fn new() -> Lines {
        Lines {
            chunk: [0; CHUNK],
            from: 0,
            to: 0,
            line: ArrayVec::new(),
            found: Found::Nothing,
        }
    }

    /// What was found last.
    pub fn found(&self) -> Found {
        self.found
    }

    /// The bytes of the line that was found last, without its LF: of a long one the first 120.
    pub fn line(&self) -> &[u8] {
        self.line.as_slice()
    }

    /// Reads on to the end of the next line, and no further than to the end of the chunk in which that is. Answers
    /// whether the input goes on behind it.
    ///
    /// # Errors
    ///
    /// `Unread` if the reader fails.
    pub fn read_line<R: Read>(&mut self, reader: &mut R) -> Result<bool, Unread>
        ensures { ReadsOn (R.remaining reader.old) (R.remaining reader.new) result }
    {
        self.line.clear();
        self.found = Found::Nothing;
        for _turn in 0..u64::MAX {
            if self.take_line() {
                return Ok(true);
            }
            if !self.read_more(reader)? {
                return Ok(false);
            }
        }
        Err(Unread)
    }

    /// Takes what was read up to the next LF, or all of it. Answers whether there was one.
    fn take_line(&mut self) -> bool {
        for place in self.from..self.to {
            let byte = self.chunk[place];
            self.from = place + 1;
            if byte == b'\n' {
                // A line may be empty.
                if matches!(self.found, Found::Nothing) {
                    self.found = Found::Line;
                }
                return true;
            }
            if self.line.is_full() {
                self.found = Found::Long;
            } else {
                self.line.push(byte);
                self.found = Found::Line;
            }
        }
        false
    }

    /// Reads a chunk. Answers whether the input goes on.
    fn read_more<R: Read>(&mut self, reader: &mut R) -> Result<bool, Unread>
        ensures { ReadsOn (R.remaining reader.old) (R.remaining reader.new) result }
    {
        match reader.read(&mut self.chunk) {
            Ok(count) => {
                self.from = 0;
                self.to = count;
                Ok(count > 0)
            }
            Err(_) => Err(Unread),
        }
    }
}
