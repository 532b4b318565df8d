ghost use Rattle.std.specs.Prelude.{◌≡◌, ◌<◌, ◌++◌, [], ◌∷◌, false, decimal, length, OnOk};
ghost use Rattle.std.specs.Io.KnownBytes.{Appends};
ghost use Rattle.pif_text_model.specs.Extends.{Stays};
ghost use Rattle.pif_text_model.specs.Replies.{cond_name, mutex_name};
ghost use Rattle.pif_text_core.specs.Pages.{Sheet, Tells};
ghost use Rattle.pif_text_core.specs.Texts.{label_text, person_text};

use crate::names::Names;
use arrayvec::ArrayVec;
use itoa::Buffer;
use pif_types::{CondId, MutexId, Tid};
use std::io::Write;
use std::marker::Model;
use thiserror::Error;

/// A write failed, or took no byte.
#[derive(Clone, Copy, Debug, PartialEq, Eq, Error)]
#[error("the output cannot be written")]
pub struct Unwritten;

/// How many bytes of a text are kept before they are written.
const PAGE_ROOM: usize = 1024;

/// A text on its way to a writer, which gets it in parts. Once a write has failed nothing more is written.
#[derive(Drop)]
pub struct Page {
    kept: ArrayVec<u8, PAGE_ROOM>,
    failed: bool,
}

impl Model for Page {
    ghost Value = { Sheet };

    ghost view = { λ p. record { kept = p.kept.items; failed = p.failed } };
}

impl Page {
    /// A page with no text.
    pub fn new() -> Page
        ensures { result ≡ record { kept = []; failed = false } }
    {
        Page {
            kept: ArrayVec::new(),
            failed: false,
        }
    }

    /// Appends words.
    pub fn words<W: Write>(&mut self, words: &str, writer: &mut W)
        ensures { Tells self.old self.new (W.contents writer.old) (W.contents writer.new) words.now }
    {
        self.bytes(words.as_bytes(), writer);
    }

    /// Appends words and a number in decimal digits.
    pub fn number<W: Write>(&mut self, before: &str, number: u32, writer: &mut W)
        ensures { Tells self.old self.new (W.contents writer.old) (W.contents writer.new) (before.now ++ decimal number) }
    {
        self.bytes(before.as_bytes(), writer);
        let mut buffer = Buffer::new();
        self.bytes(buffer.format(number).as_bytes(), writer);
    }

    /// Appends words and a thread as commands name it, as `t1`, with its name for a person behind it, if it has one.
    pub fn thread<W: Write>(&mut self, before: &str, names: &Names<'_>, thread: Tid, writer: &mut W)
        ensures { Tells self.old self.new (W.contents writer.old) (W.contents writer.new) (before.now ++ person_text names.now thread) }
    {
        self.words(before, writer);
        self.number("t", thread.get(), writer);
        self.label(names.of(thread), writer);
    }

    /// Appends a name for a person behind a space; nothing if it is empty.
    fn label<W: Write>(&mut self, name: &str, writer: &mut W)
        ensures { Tells self.old self.new (W.contents writer.old) (W.contents writer.new) (label_text name.now) }
    {
        if !name.is_empty() {
            self.words(" ", writer);
            self.words(name, writer);
        }
    }

    /// Appends words and the name of a mutex, as `m1`.
    pub fn mutex<W: Write>(&mut self, before: &str, mutex: MutexId, writer: &mut W)
        ensures { Tells self.old self.new (W.contents writer.old) (W.contents writer.new) (before.now ++ mutex_name mutex) }
    {
        self.words(before, writer);
        self.number("m", mutex.get(), writer);
    }

    /// Appends words and the name of a condition variable, as `c1`.
    pub fn cond<W: Write>(&mut self, before: &str, cond: CondId, writer: &mut W)
        ensures { Tells self.old self.new (W.contents writer.old) (W.contents writer.new) (before.now ++ cond_name cond) }
    {
        self.words(before, writer);
        self.number("c", cond.get(), writer);
    }

    /// Writes what is still kept.
    ///
    /// # Errors
    ///
    /// `Unwritten` if a write failed, this one or an earlier one.
    pub fn finish<W: Write>(&mut self, writer: &mut W) -> Result<(), Unwritten>
        ensures told { Tells self.old self.new (W.contents writer.old) (W.contents writer.new) [] }
        ensures all { OnOk result (self.new ≡ record { kept = []; failed = false }) }
    {
        self.flush(writer);
        if self.failed { Err(Unwritten) } else { Ok(()) }
    }

    /// Appends bytes.
    pub(crate) fn bytes<W: Write>(&mut self, bytes: &[u8], writer: &mut W)
        ensures { Tells self.old self.new (W.contents writer.old) (W.contents writer.new) bytes.now }
    {
        for byte in bytes {
            self.byte(*byte, writer);
        }
    }

    /// Appends a byte.
    fn byte<W: Write>(&mut self, byte: u8, writer: &mut W)
        ensures { Tells self.old self.new (W.contents writer.old) (W.contents writer.new) (byte ∷ []) }
    {
        self.make_room(writer);
        let _ = self.kept.try_push(byte);
    }

    /// Makes room for a byte.
    fn make_room<W: Write>(&mut self, writer: &mut W)
        ensures told { Tells self.old self.new (W.contents writer.old) (W.contents writer.new) [] }
        ensures room { length self.new.kept < 1024 }
    {
        if self.kept.is_full() {
            self.flush(writer);
        }
    }

    /// Writes what is kept, if no write has failed. Nothing is kept then.
    fn flush<W: Write>(&mut self, writer: &mut W)
        ensures told { Tells self.old self.new (W.contents writer.old) (W.contents writer.new) [] }
        ensures emptied { self.new.kept ≡ [] }
    {
        if !self.failed {
            self.failed = write_whole(writer, self.kept.as_slice()).is_err();
        }
        self.kept.clear();
    }
}

/// Writes all of `bytes`. If it fails, some of them may be written.
fn write_whole<W: Write>(writer: &mut W, bytes: &[u8]) -> Result<(), Unwritten>
    ensures stays { Stays (W.contents writer.old) (W.contents writer.new) }
    ensures written { OnOk result (Appends (W.contents writer.old) (W.contents writer.new) bytes.now) }
{
    let mut written = 0;
    while written < bytes.len() {
        match writer.write(&bytes[written..]) {
            Ok(0) => return Err(Unwritten),
            Ok(count) => written += count,
            Err(_) => return Err(Unwritten),
        }
    }
    Ok(())
}
