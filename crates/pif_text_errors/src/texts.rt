use crate::forms::{Form, form_of};
use crate::marks::word_from;
use crate::near::nearest_name;
use crate::read_command;
use crate::tables::{COMMANDS, HISTORY, PROGRAM};
use pif_text::split_answer;

/// A kind of texts that the program reads.
#[derive(Clone, Copy, PartialEq, Eq)]
pub enum TextKind {
    /// A script.
    Script,
    /// A story.
    Story,
    /// A trace.
    Trace,
    /// A history.
    History,
    /// A program to explore.
    Program,
}

impl TextKind {
    /// What such a text is called.
    pub fn name(self) -> &'static str {
        match self {
            TextKind::Script => "script",
            TextKind::Story => "story",
            TextKind::Trace => "trace",
            TextKind::History => "history",
            TextKind::Program => "program",
        }
    }

    /// The command of `pif` that takes such a text.
    pub fn command(self) -> &'static str {
        match self {
            TextKind::Script => "run",
            TextKind::Story => "check",
            TextKind::Trace => "replay",
            TextKind::History => "judge",
            TextKind::Program => "explore",
        }
    }

    /// The forms of the lines of such a text. Those of a trace are lines of scripts with answers.
    fn forms(self) -> &'static [Form] {
        match self {
            TextKind::Script | TextKind::Story | TextKind::Trace => &COMMANDS,
            TextKind::History => &HISTORY,
            TextKind::Program => &PROGRAM,
        }
    }
}

/// A text without the blanks at its end.
fn without_blanks(text: &[u8]) -> &[u8] {
    let mut front = text;
    for _ in 0..text.len() {
        match front {
            [shorter @ .., b' '] => front = shorter,
            _ => return front,
        }
    }
    front
}

/// Whether a line is a command with an answer behind it, as in a story.
fn is_answered(line: &[u8]) -> bool {
    match split_answer(line) {
        Some((command, _)) => read_command(without_blanks(command)).is_ok(),
        None => false,
    }
}

/// The kind of text of which a line is that begins with this word, if lines of the kind that is wanted don't. A word of
/// three letters or more that is near to one of theirs is taken for a slip, unless scripts alone have it.
fn kind_of_word(word: &[u8], wanted: TextKind) -> Option<TextKind> {
    if form_of(word, wanted.forms()).is_some() {
        return None;
    }
    let is_near = word.len() > 2 && nearest_name(word, wanted.forms()).is_some();
    for kind in [TextKind::History, TextKind::Script, TextKind::Program] {
        if form_of(word, kind.forms()).is_some() {
            let is_slip = is_near && kind != TextKind::Script;
            return if is_slip { None } else { Some(kind) };
        }
    }
    None
}

/// The kind of text of which a faulty line is, if it isn't the one that is wanted: a trace by its header, a story by an
/// answer, and else by the first word.
pub fn other_kind(line: &[u8], wanted: TextKind) -> Option<TextKind> {
    if line.starts_with(b"pif-trace ") {
        return Some(TextKind::Trace);
    }
    if is_answered(line) {
        return Some(TextKind::Story);
    }
    let spot = word_from(line, 0);
    kind_of_word(&line[spot.start..spot.end], wanted)
}
