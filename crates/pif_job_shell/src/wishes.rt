use pif_text::without_return;
use std::str::from_utf8;

/// What a line asks of a shell.
#[derive(Clone, Copy)]
pub enum Wish<'a> {
    /// Nothing: it is empty or a comment.
    Nothing,
    /// `help`: the commands; or `help WORD`.
    Help(&'a [u8]),
    /// `state`: the state of the core.
    State,
    /// `undo`, or `undo N`: take the last command back, or the last N.
    Undo(&'a [u8]),
    /// `redo`: give the command again that was taken back last.
    Redo,
    /// `save FILE`: save the script so far in a new file.
    Save(&'a [u8]),
    /// `save! FILE`: save it in place of what is there.
    Replace(&'a [u8]),
    /// `load FILE`: begin with the commands of a story.
    Load(&'a [u8]),
    /// `exit` or `quit`: end.
    Leave,
    /// One of the words that stand alone, with more behind it.
    More(&'static str),
    /// Any other line, which is to be a command of scripts.
    Line(&'a [u8]),
}

/// What stands behind this word and a space, or nothing if the line is the word alone; `None` if it begins otherwise.
fn behind<'a>(line: &'a [u8], word: &[u8]) -> Option<&'a [u8]> {
    if !line.starts_with(word) {
        return None;
    }
    match &line[word.len()..] {
        [] => Some(b""),
        [b' ', rest @ ..] => Some(rest),
        _ => None,
    }
}

/// What a line asks for. A CR at its end is no part of it.
pub fn wish_of(line: &[u8]) -> Wish<'_> {
    let line = without_return(line);
    if line.is_empty() || line.starts_with(b"#") {
        return Wish::Nothing;
    }
    match wish_with_word(line) {
        Some(wish) => wish,
        None => wish_alone(line),
    }
}

/// What a line asks for that begins with a word behind which another may stand.
fn wish_with_word(line: &[u8]) -> Option<Wish<'_>> {
    if let Some(word) = behind(line, b"help") {
        return Some(Wish::Help(word));
    }
    if let Some(name) = behind(line, b"save") {
        return Some(Wish::Save(name));
    }
    if let Some(name) = behind(line, b"save!") {
        return Some(Wish::Replace(name));
    }
    if let Some(name) = behind(line, b"load") {
        return Some(Wish::Load(name));
    }
    match behind(line, b"undo") {
        Some(count) => Some(Wish::Undo(count)),
        None => None,
    }
}

/// The words that stand alone.
const ALONE: [&str; 4] = ["state", "redo", "exit", "quit"];

/// What a line asks for that is a word that stands alone, or a command of scripts.
fn wish_alone(line: &[u8]) -> Wish<'_> {
    for word in ALONE {
        match behind(line, word.as_bytes()) {
            Some([]) => {
                return match word {
                    "state" => Wish::State,
                    "redo" => Wish::Redo,
                    _ => Wish::Leave,
                };
            }
            Some(_) => return Wish::More(word),
            None => {}
        }
    }
    Wish::Line(line)
}

/// How many commands are to be taken back by a text: one, if it is empty; `None` if it is no number of at least 1.
pub fn count_of(text: &[u8]) -> Option<usize> {
    if text.is_empty() {
        return Some(1);
    }
    match from_utf8(text).ok()?.parse::<usize>() {
        Ok(count) if count > 0 => Some(count),
        _ => None,
    }
}

/// A file's name as text, if it is one: it is not empty, and has no blank at an end.
pub fn name_of(name: &[u8]) -> Option<&str> {
    if name.is_empty() || name.starts_with(b" ") || name.ends_with(b" ") {
        return None;
    }
    match from_utf8(name) {
        Ok(text) => Some(text),
        Err(_) => None,
    }
}
