//! The command that is meant if the words name none.
use pif_text_errors::nearest_name;
use std::convert::AsStr;

/// The commands of the program.
const COMMANDS: [&str; 13] = [
    "run", "show", "draw", "shell", "check", "judge", "explore", "replay", "trace", "migrate",
    "random", "drive", "help",
];

/// The command that is near to the one that the words name, after the program's name or after `help`, if that is
/// none.
pub fn near_command<S: AsStr>(words: &[S]) -> Option<&'static str> {
    match words {
        [_, help, word, ..] if help.as_str() == "help" => near_name(word.as_str()),
        [_, word, ..] => near_name(word.as_str()),
        _ => None,
    }
}

/// The command that is near to this one, if this one is none.
fn near_name(word: &str) -> Option<&'static str> {
    let near = nearest_name(word.as_bytes(), COMMANDS.as_slice())?;
    if near == word { None } else { Some(near) }
}
