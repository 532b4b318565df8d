//! The stream of the tests: it gives the bytes of a text, or takes bytes and compares them with those of a text.

use std::io;
use std::io::{ErrorKind, Read, Write};

/// A text, so many times.
pub type Part<'a> = (&'a str, usize);

/// What is left of a text at this place of parts that stand one behind the other. Nothing is left behind the last.
fn rest_at<'a>(parts: &'a [Part<'a>], place: usize) -> &'a [u8] {
    let mut left = place;
    for (text, times) in parts {
        let length = text.len().saturating_mul(*times);
        if left < length {
            let at = left.checked_rem(text.len()).unwrap_or(0);
            return text.as_bytes().get(at..).unwrap_or(b"");
        }
        left = left.saturating_sub(length);
    }
    b""
}

/// Gives the bytes of a text, or takes bytes and compares them. A call moves at most `early` bytes while fewer than
/// `turn` are through, and at most `late` from there on. Once `most` are through, one call fails, and others go on.
#[derive(Drop)]
pub struct Stream<'a> {
    parts: &'a [Part<'a>],
    early: usize,
    turn: usize,
    late: usize,
    most: usize,
    failure: Option<ErrorKind>,
    has_failed: bool,
    /// How many bytes are through.
    pub done: usize,
    is_other: bool,
}

impl<'a> Stream<'a> {
    /// Fails once behind so many bytes. With no kind of error it moves no byte once.
    pub fn failing(parts: &'a [Part<'a>], most: usize, failure: Option<ErrorKind>) -> Stream<'a> {
        Stream {
            parts,
            early: usize::MAX,
            turn: 0,
            late: usize::MAX,
            most,
            failure,
            has_failed: false,
            done: 0,
            is_other: false,
        }
    }

    /// Moves as many bytes as are asked for.
    pub fn new(parts: &'a [Part<'a>]) -> Stream<'a> {
        Stream::failing(parts, usize::MAX, None)
    }

    /// From now on, moves at most `early` bytes a call up to the byte `turn`, and at most `late` behind it.
    pub fn pace(&mut self, early: usize, turn: usize, late: usize) {
        self.early = early;
        self.turn = turn;
        self.late = late;
    }

    /// Whether the bytes of the text were taken and no other: all, or those before the call that has failed.
    pub fn is_met(&self) -> bool {
        let is_through = if self.has_failed {
            self.done == self.most
        } else {
            rest_at(self.parts, self.done).is_empty()
        };
        is_through && !self.is_other
    }

    /// How many bytes a call may move: none, or an error, if it fails.
    fn share(&mut self) -> io::Result<usize> {
        if self.has_failed {
            return Ok(self.late);
        }
        let left = self.most.saturating_sub(self.done);
        if left == 0 {
            self.has_failed = true;
            return match self.failure {
                Some(kind) => Err(io::Error::from(kind)),
                None => Ok(0),
            };
        }
        if self.done < self.turn {
            Ok(left.min(self.early))
        } else {
            Ok(left.min(self.late))
        }
    }

    /// Gives so many bytes as there is room for, and answers how many.
    fn give(&mut self, room: &mut [u8]) -> usize {
        let count = room.len();
        let mut at = 0_usize;
        for _ in 0..count {
            let from = at.min(count);
            let rest = rest_at(self.parts, self.done);
            let more = rest.len().min(count - from);
            if more == 0 {
                break;
            }
            room[from..from + more].copy_from_slice(&rest[..more]);
            at = from + more;
            self.done = self.done.saturating_add(more);
        }
        at
    }

    /// Takes bytes, and compares them.
    fn take(&mut self, bytes: &[u8]) {
        let count = bytes.len();
        let mut at = 0_usize;
        for _ in 0..count {
            let from = at.min(count);
            let rest = rest_at(self.parts, self.done);
            let more = rest.len().min(count - from);
            if more == 0 {
                break;
            }
            self.is_other = self.is_other || bytes[from..from + more] != rest[..more];
            at = from + more;
            self.done = self.done.saturating_add(more);
        }
        // What stands behind the text is other, too.
        let behind = count.saturating_sub(at);
        self.is_other = self.is_other || behind > 0;
        self.done = self.done.saturating_add(behind);
    }
}

impl Read for Stream<'_> {
    fn read(&mut self, buf: &mut [u8]) -> io::Result<usize> {
        let count = buf.len().min(self.share()?);
        Ok(self.give(&mut buf[..count]).min(count))
    }
}

impl Write for Stream<'_> {
    fn write(&mut self, buf: &[u8]) -> io::Result<usize> {
        let count = buf.len().min(self.share()?);
        self.take(&buf[..count]);
        Ok(count)
    }

    fn flush(&mut self) -> io::Result<()> {
        Ok(())
    }
}
