use crate::scanner::MOST_LINE;
use arrayvec::ArrayVec;
use pif_script_model::Ending;
use pif_text::{Text, reply_text, split_answer};

/// What is kept of the line that ends a script or a trace, so that a person can be told of it. It stands on the stack.
#[derive(Drop)]
pub struct Notice {
    line: ArrayVec<u8, MOST_LINE>,
    given: Text,
}

impl Notice {
    /// A notice of no line.
    pub fn new() -> Notice {
        Notice {
            line: ArrayVec::new(),
            given: Text::new(),
        }
    }

    /// The bytes of the line that was kept, as far as they were taken: at most 120, and none before a line is kept.
    pub fn line(&self) -> &[u8] {
        self.line.as_slice()
    }

    /// The bytes before and behind the first ` = ` of what was kept, or `None` if it has none. Of a trace's line they are
    /// the command and the recorded answer. What `keep_command` kept is cut in the same way.
    pub fn parts(&self) -> Option<(&[u8], &[u8])> {
        split_answer(self.line.as_slice())
    }

    /// What the core gives if the line that was kept differs from it; no byte if it does not.
    pub fn given(&self) -> &[u8] {
        self.given.as_slice()
    }

    /// Keeps the command of a story that is a fault, in place of what was kept: its first 120 bytes, if it has more.
    /// `given` has no byte then.
    pub fn keep_command(&mut self, command: &[u8]) {
        let end = command.len().min(MOST_LINE);
        self.line.clear();
        let _ = self.line.try_extend_from_slice(&command[..end]);
        self.given.clear();
    }

    /// Keeps a line that ends its script or trace so, in place of what was kept. A line of more than 120 bytes is kept
    /// as an empty one. `given` then has the core's answer, if the recorded one differs from it, and else no byte.
    pub fn keep(&mut self, line: &[u8], ending: &Ending) {
        self.line.clear();
        let _ = self.line.try_extend_from_slice(line);
        self.given.clear();
        if let Ending::Differs(reply) = ending {
            reply_text(*reply, &mut self.given);
        }
    }
}
