//! When scripts are read and answered.

use pif_job_run::run_noted;
use pif_script::{CliFault, Notice};
use pif_script_core::run;
use std::alloc::Global;
use std::cell::Cell;
use std::io;
use std::io::{Read, Write};
use std::process::Abort;

/// Gives a line a read, and notes whether each line before it was answered by then; or counts the lines of answers.
#[derive(Drop)]
struct Talk<'a> {
    text: &'a str,
    asked: u64,
    answered: &'a Cell<u64>,
    is_early: bool,
}

impl Read for Talk<'_> {
    fn read(&mut self, buf: &mut [u8]) -> io::Result<usize> {
        if self.answered.get() != self.asked {
            self.is_early = true;
        }
        self.asked = self.asked.saturating_add(1);
        let Some((line, rest)) = self.text.split_once('\n') else {
            return Ok(0);
        };
        let bytes = &self.text.as_bytes()[..line.len().saturating_add(1).min(self.text.len())];
        let count = buf.len().min(bytes.len());
        buf[..count].copy_from_slice(&bytes[..count]);
        self.text = rest;
        Ok(count)
    }
}

impl Write for Talk<'_> {
    fn write(&mut self, buf: &[u8]) -> io::Result<usize> {
        for byte in buf {
            if *byte == b'\n' {
                self.answered.set(self.answered.get().saturating_add(1));
            }
        }
        Ok(buf.len())
    }

    fn flush(&mut self) -> io::Result<()> {
        Ok(())
    }
}

/// A script of 13 lines.
const SCRIPT: &str =
    "thread 10\nthread 50\nmutex normal\ncall t1 lock m1\ncall t2 lock m1\nword m1\nprio t1\n\
    call t1 unlock m1\nword m1\nprio t1\nfinish t2\ncall t2 unlock m1\nword m1\n";

/// How the script ends, how often it was asked for a line, how many lines were answered, and whether it was asked before
/// all lines were answered that it had given. It is run with notes or without.
fn hold_talk(alloc: Global, is_noted: bool) -> (Result<(), CliFault>, u64, u64, bool) {
    let answered = Cell::new(0);
    let mut input = Talk {
        text: SCRIPT,
        asked: 0,
        answered: &answered,
        is_early: false,
    };
    let mut output = Talk {
        text: "",
        asked: 0,
        answered: &answered,
        is_early: false,
    };
    let ended = if is_noted {
        run_noted(alloc, &mut input, &mut output, &mut Notice::new()).and(Ok(()))
    } else {
        run(alloc, &mut input, &mut output)
    };
    (ended, input.asked, answered.get(), input.is_early)
}

#[test]
fn reply_comes_before_more_input(rt: HostRuntime) {
    for is_noted in [false, true] {
        assert!(rt; hold_talk(rt.alloc(), is_noted) == (Ok(()), 14, 13, false));
    }
}
