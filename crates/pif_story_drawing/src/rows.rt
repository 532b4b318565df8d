use crate::growing_text::Page;
use pif_model::Event;
use pif_script_model::AnsweredRow;
use pif_text::{Command, Reply, Text, named_reply_text};
use pif_types::Tid;
use std::str::from_utf8;

/// A command of a story, with its words.
#[derive(Clone, Copy)]
pub struct DrawnRow<'a> {
    /// The number of its line in the story, from 1.
    pub line: u32,
    /// The command as it is written.
    pub words: &'a str,
    /// What it asks for.
    pub command: Command,
    /// What the core answers it.
    pub reply: Reply,
}

impl DrawnRow<'_> {
    /// The thread that acts; none if something is added or asked, or if the time goes on.
    pub fn actor(&self) -> Option<Tid> {
        match self.command {
            Command::Event(Event::Begin(thread, _))
            | Command::Event(Event::Go(thread))
            | Command::Event(Event::End(thread))
            | Command::Run(thread, _) => Some(thread),
            Command::Event(Event::Tick(_))
            | Command::Limits(..)
            | Command::Add(_)
            | Command::Ask(_) => None,
        }
    }
}

/// A command of a story, with its words as text; none if they are none.
pub fn row_of<'a>(answered: &AnsweredRow<'a>) -> Option<DrawnRow<'a>> {
    let words = from_utf8(answered.words).ok()?;
    Some(DrawnRow {
        line: answered.line,
        words,
        command: answered.command,
        reply: answered.reply,
    })
}

/// What a core answers a command, an error with its name.
fn answer_text(reply: Reply) -> Text {
    let mut text = Text::new();
    named_reply_text(reply, &mut text);
    text
}

/// Writes what a core answers a command, an error with its name.
pub fn write_reply(reply: Reply, out: &mut Page) {
    let text = answer_text(reply);
    out.words(from_utf8(text.as_slice()).unwrap_or(""));
}

/// How many bytes a command has, with what it is answered.
pub fn letters_of(row: &DrawnRow<'_>) -> usize {
    let text = answer_text(row.reply);
    row.words.len().saturating_add(text.len())
}
