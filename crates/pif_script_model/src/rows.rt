use pif_text_model::{Command, Reply};

/// A command of a story without a fault, and what a core answers it.
#[derive(Clone, Copy)]
pub struct AnsweredRow<'a> {
    /// The number of its line in the story, from 1.
    pub line: u32,
    /// The command as it is written, with one space between its words.
    pub words: &'a [u8],
    /// What it asks for.
    pub command: Command,
    /// What it is answered.
    pub reply: Reply,
}
